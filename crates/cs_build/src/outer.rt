//! Lines that stand outside of methods.

ghost use Rattle.std.specs.Prelude.{◌≡◌, ◌≢◌, ◌∷◌, [], map, option_map, IfOk, OnOk};
ghost use Rattle.hex.specs.declared.error.FromHexError.TheVariants.{OutOfMemory};
ghost use Rattle.cs_model.specs.BuilderText.{all_of, behind_large, bytes_form, bytes_in, class_form, is_large};
ghost use Rattle.cs_model.specs.BuilderText.{mention_in, method_form, object_form, outer_form, primitive_given};
ghost use Rattle.cs_model.specs.BuilderText.{process_form, special_form, super_in};
ghost use Rattle.cs_build.specs.Meaning.{mention_by};
ghost use Rattle.cs_build.specs.Narrow.{Reads, lone_name, narrow, narrow_mention, plain_outer, word_texts};

use crate::form::{ClassLine, Form, Mention, MethodLine, ProcessLine};
use crate::mention::read_mention;
use crate::number::read_integer;
use crate::word::{are_names, is_name, is_word};
use hex::FromHexError;
use std::alloc::{AllocError, Global};

/// What a line outside of methods says, if it has such a form.
pub fn read_outer<'a>(alloc: Global, words: &[&'a [u8]]) -> Result<Option<Form<'a>>, AllocError>
    ensures { IfOk result (λ form. Reads form (outer_form (word_texts words.now))) }
{
    let [first, rest @ ..] = words else {
        return Ok(None);
    };
    let word = *first;
    if is_word(word, "class") {
        return Ok(read_class(rest));
    }
    if is_word(word, "object") {
        return read_object(alloc, rest);
    }
    if is_word(word, "bytes") {
        return read_bytes(alloc, rest);
    }
    Ok(read_plain(word, rest))
}

/// The forms behind those of classes and objects. They take no memory.
fn read_plain<'a>(word: &[u8], rest: &[&'a [u8]]) -> Option<Form<'a>>
    ensures { Reads result (plain_outer word.now (word_texts rest.now)) }
{
    if is_word(word, "method") {
        return read_method(rest);
    }
    if is_word(word, "process") {
        return read_process(rest);
    }
    if is_word(word, "special") {
        return read_special(rest);
    }
    if is_word(word, "active") {
        let name = read_name(rest)?;
        return Some(Form::Active(name));
    }
    if is_word(word, "ready") {
        let name = read_name(rest)?;
        return Some(Form::Ready(name));
    }
    None
}

fn read_class<'a>(words: &[&'a [u8]]) -> Option<Form<'a>>
    ensures { Reads result (class_form (word_texts words.now)) }
{
    let [name, superclass, format, fields] = words else {
        return None;
    };
    class_of(name, superclass, format, fields)
}

fn class_of<'a>(
    name: &'a [u8],
    superclass: &'a [u8],
    format: &[u8],
    fields: &[u8],
) -> Option<Form<'a>>
    ensures { Reads result (class_form (name.now ∷ superclass.now ∷ format.now ∷ fields.now ∷ [])) }
{
    let superclass = read_superclass(superclass)?;
    let format = read_integer(format)?;
    let fields = read_integer(fields)?;
    if !is_name(name) {
        return None;
    }
    Some(Form::Class(ClassLine {
        name,
        superclass,
        format,
        fields,
    }))
}

/// A superclass: a name, or none for nil.
fn read_superclass(word: &[u8]) -> Option<Option<&[u8]>>
    ensures { option_map (λ name. option_map (λ n. n.now) name) result ≡ super_in word.now }
{
    if is_word(word, "nil") {
        Some(None)
    } else if is_name(word) {
        Some(Some(word))
    } else {
        None
    }
}

fn read_object<'a>(alloc: Global, words: &[&'a [u8]]) -> Result<Option<Form<'a>>, AllocError>
    ensures { IfOk result (λ form. Reads form (object_form (word_texts words.now))) }
{
    let [name, class, references @ ..] = words else {
        return Ok(None);
    };
    let Some(slots) = read_slots(alloc, references)? else {
        return Ok(None);
    };
    if !are_names(name, class) {
        return Ok(None);
    }
    Ok(Some(Form::Object { name, class, slots }))
}

/// The references that all of the words are.
fn read_slots<'a>(alloc: Global, words: &[&'a [u8]]) -> Result<Option<Vec<Mention<'a>>>, AllocError>
    ensures { IfOk result (λ slots. option_map (λ v. map mention_by v.items) slots
        ≡ option_map (map narrow_mention) (all_of mention_in (word_texts words.now))) }
{
    let mut slots = Vec::new(alloc);
    for word in words {
        let Some(slot) = read_mention(word) else {
            return Ok(None);
        };
        slots.push(slot)?;
    }
    Ok(Some(slots))
}

fn read_bytes<'a>(alloc: Global, words: &[&'a [u8]]) -> Result<Option<Form<'a>>, AllocError>
    ensures { IfOk result (λ form. Reads form (bytes_form (word_texts words.now))) }
{
    let [name, class, digits] = words else {
        return Ok(None);
    };
    let Some(bytes) = read_hex(alloc, digits)? else {
        return Ok(None);
    };
    if !are_names(name, class) {
        return Ok(None);
    }
    Ok(Some(Form::Bytes { name, class, bytes }))
}

/// Bytes as pairs of hex digits, or none as a dash.
#[tactic(auto, using(crate::proofs::HexLemmas::hexes))]
fn read_hex(alloc: Global, word: &[u8]) -> Result<Option<Vec<u8>>, AllocError>
    ensures { IfOk result (λ bytes. option_map (λ v. v.items) bytes ≡ bytes_in word.now) }
{
    if is_word(word, "-") {
        return Ok(Some(Vec::new(alloc)));
    }
    match hex::decode(alloc, word) {
        Ok(bytes) => Ok(Some(bytes)),
        Err(error) => {
            memory_of(error)?;
            Ok(None)
        }
    }
}

/// Whether an error is one of the digits, and not of memory.
fn memory_of(error: FromHexError) -> Result<(), AllocError>
    ensures { OnOk result (error ≢ OutOfMemory) }
{
    match error {
        FromHexError::OutOfMemory => Err(AllocError),
        _ => Ok(()),
    }
}

#[tactic(auto, using(crate::proofs::OuterLemmas::lengths))]
fn read_method<'a>(words: &[&'a [u8]]) -> Option<Form<'a>>
    ensures { Reads result (method_form (word_texts words.now)) }
{
    let [class, selector, arguments, temporaries, rest @ ..] = words else {
        return None;
    };
    method_of(class, selector, arguments, temporaries, rest)
}

fn method_of<'a>(
    class: &'a [u8],
    selector: &'a [u8],
    arguments: &[u8],
    temporaries: &[u8],
    rest: &[&[u8]],
) -> Option<Form<'a>>
    ensures { Reads result
        (method_form (class.now ∷ selector.now ∷ arguments.now ∷ temporaries.now ∷ word_texts rest.now)) }
{
    let arguments = read_integer(arguments)?;
    let temporaries = read_integer(temporaries)?;
    let large = is_large(rest);
    let primitive = read_primitive(behind_large(rest))?;
    if !is_name(class) {
        return None;
    }
    Some(Form::Method(MethodLine {
        class,
        selector,
        arguments,
        temporaries,
        large,
        primitive,
    }))
}

/// Whether a method's contexts are large: whether the words behind its numbers begin with `large`.
fn is_large(words: &[&[u8]]) -> bool
    ensures { result ≡ is_large (word_texts words.now) }
{
    match words {
        [word, ..] => is_word(word, "large"),
        [] => false,
    }
}

/// The words behind `large`, if it stands there.
fn behind_large<'w, 'a>(words: &'w [&'a [u8]]) -> &'w [&'a [u8]]
    ensures { word_texts result.now ≡ behind_large (word_texts words.now) }
{
    match words {
        [word, rest @ ..] if is_word(word, "large") => rest,
        _ => words,
    }
}

/// A method's primitive, or none where the line ends.
fn read_primitive(words: &[&[u8]]) -> Option<Option<i32>>
    ensures { result ≡ option_map (option_map narrow) (primitive_given (word_texts words.now)) }
{
    match words {
        [] => Some(None),
        [word, number] if is_word(word, "prim") => {
            let primitive = read_integer(number)?;
            Some(Some(primitive))
        }
        _ => None,
    }
}

fn read_process<'a>(words: &[&'a [u8]]) -> Option<Form<'a>>
    ensures { Reads result (process_form (word_texts words.now)) }
{
    let [name, priority, class, selector, receiver] = words else {
        return None;
    };
    process_of(name, priority, class, selector, receiver)
}

fn process_of<'a>(
    name: &'a [u8],
    priority: &[u8],
    class: &'a [u8],
    selector: &'a [u8],
    receiver: &'a [u8],
) -> Option<Form<'a>>
    ensures { Reads result
        (process_form (name.now ∷ priority.now ∷ class.now ∷ selector.now ∷ receiver.now ∷ [])) }
{
    let priority = read_integer(priority)?;
    let receiver = read_mention(receiver)?;
    if !are_names(name, class) {
        return None;
    }
    Some(Form::Process(ProcessLine {
        name,
        priority,
        class,
        selector,
        receiver,
    }))
}

fn read_special<'a>(words: &[&'a [u8]]) -> Option<Form<'a>>
    ensures { Reads result (special_form (word_texts words.now)) }
{
    let [place, value] = words else {
        return None;
    };
    special_of(place, value)
}

fn special_of<'a>(place: &[u8], value: &'a [u8]) -> Option<Form<'a>>
    ensures { Reads result (special_form (place.now ∷ value.now ∷ [])) }
{
    let place = read_integer(place)?;
    let value = read_mention(value)?;
    Some(Form::Special { place, value })
}

/// The name that alone stands behind the first word.
fn read_name<'a>(words: &[&'a [u8]]) -> Option<&'a [u8]>
    ensures { option_map (λ name. name.now) result ≡ lone_name (word_texts words.now) }
{
    match words {
        [name] if is_name(name) => Some(name),
        _ => None,
    }
}
