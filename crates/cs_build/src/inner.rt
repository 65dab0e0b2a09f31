//! Lines that stand in methods.

ghost use Rattle.std.specs.Prelude.{◌≡◌, ℤ, None, Some, option_and_then, option_map, is_some, IfSome, if◌then◌else◌};
ghost use Rattle.cs_model.specs.BuilderText.{closure_form, inner_form, is_jump, label_form, one_form, op_named};
ghost use Rattle.cs_model.specs.BuilderText.{ops_of_one, ops_of_two, short_form, single_form, two_form};
ghost use Rattle.cs_model.specs.Ref.{natural_of};
ghost use Rattle.cs_model.specs.BuilderText.{JumpTo};
ghost use Rattle.cs_model.specs.Text.{is_name};
ghost use Rattle.cs_model.specs.declared.instruction.Op.TheVariants.{PushInt};
ghost use Rattle.cs_model.specs.Text.{integer_in};
ghost use Rattle.cs_build.specs.Meaning.{form_by, jump_by};
ghost use Rattle.cs_build.specs.Narrow.{Reads, narrow_byte, narrow, narrow_op, numbered, word_texts, two_numbered};

use crate::code::{if_formed, op_of_one, op_of_two, plain_op};
use crate::form::{Form, Jump};
use crate::mention::read_mention;
use crate::number::read_integer;
use crate::word::{is_name, is_word};
use cs_model::Op;

/// What a line in a method says, if it has such a form.
pub fn read_inner<'a>(words: &[&'a [u8]]) -> Option<Form<'a>>
    ensures { Reads result (inner_form (word_texts words.now)) }
{
    match words {
        [word] => read_single(word),
        [word, last] => read_short(word, last),
        [word, first, second] => read_two(word, first, second),
        [word, copied, arguments, label] => read_closure(word, copied, arguments, label),
        _ => None,
    }
}

/// A word alone: the end, a label, or an instruction without numbers.
fn read_single(word: &[u8]) -> Option<Form<'_>>
    ensures { Reads result (single_form word.now) }
{
    if is_word(word, "end") {
        return Some(Form::End);
    }
    match read_label(word) {
        Some(label) => Some(label),
        None => {
            let op = plain_op(word)?;
            Some(Form::Plain(if_formed(op)))
        }
    }
}

/// A label, which stands behind a colon.
fn read_label(word: &[u8]) -> Option<Form<'_>>
    ensures { option_map form_by result ≡ label_form word.now }
{
    let [b':', name @ ..] = word else {
        return None;
    };
    if is_name(name) {
        Some(Form::Label(name))
    } else {
        None
    }
}

/// An instruction with one word behind it: a label, a reference or a number.
fn read_short<'a>(word: &[u8], last: &'a [u8]) -> Option<Form<'a>>
    ensures { Reads result (short_form word.now last.now) }
{
    if let Some(jump) = jump_named(word) {
        return read_jump(jump, last);
    }
    if is_word(word, "lit") {
        let value = read_mention(last)?;
        return Some(Form::Literal(value));
    }
    read_numbered(word, last)
}

/// A jump to a label.
fn read_jump(jump: Jump, label: &[u8]) -> Option<Form<'_>>
    ensures { Reads result (if is_name label.now then Some (JumpTo (jump_by jump) label.now) else None) }
{
    if is_name(label) {
        Some(Form::JumpTo { jump, label })
    } else {
        None
    }
}

/// The jump that a word names.
fn jump_named(word: &[u8]) -> Option<Jump>
    ensures some { IfSome result (λ jump. jump_by jump ≡ word.now) }
    ensures is { is_some result ≡ is_jump word.now }
{
    if is_word(word, "jump") {
        Some(Jump::Always)
    } else if is_word(word, "jumpTrue") {
        Some(Jump::IfTrue)
    } else if is_word(word, "jumpFalse") {
        Some(Jump::IfFalse)
    } else {
        None
    }
}

/// A byte of code, or an instruction with one number.
fn read_numbered<'a>(word: &[u8], last: &[u8]) -> Option<Form<'a>>
    ensures { Reads result (numbered word.now (integer_in last.now)) }
{
    let number = read_integer(last)?;
    if is_word(word, "byte") {
        return Some(Form::Byte(number));
    }
    read_one(word, number)
}

/// An instruction with one number.
fn read_one<'a>(word: &[u8], number: i32) -> Option<Form<'a>>
    ensures { (z : ℤ) → number ≡ narrow z → Reads result (one_form word.now z) }
{
    if is_word(word, "int") {
        return Some(Form::Plain(int_op(number)));
    }
    let _known = op_of_one(word, 0)?;
    Some(Form::Plain(formed_of_one(word, number)))
}

/// The instruction that pushes a number, if there is one.
fn int_op(number: i32) -> Option<Op>
    ensures { (z : ℤ) → number ≡ narrow z → result ≡ narrow_op (Some (PushInt z)) }
{
    if number < -1 || number > 2 {
        return None;
    }
    Some(Op::PushInt(number as i8))
}

/// The instruction of a word and a number, if its number fits.
fn formed_of_one(word: &[u8], number: i32) -> Option<Op>
    ensures { (z : ℤ) → number ≡ narrow z
        → result ≡ narrow_op (option_and_then (λ n. op_named word.now (ops_of_one n)) (natural_of z)) }
{
    let n = byte_of(number)?;
    let op = op_of_one(word, n)?;
    if_formed(op)
}

/// The number as a byte, if it fits.
fn byte_of(number: i32) -> Option<u8>
    ensures { result ≡ narrow_byte number }
{
    if number < 0 || number > 255 {
        None
    } else {
        Some(number as u8)
    }
}

/// An instruction with two numbers.
fn read_two<'a>(word: &[u8], first: &[u8], second: &[u8]) -> Option<Form<'a>>
    ensures { Reads result (two_numbered word.now (integer_in first.now) (integer_in second.now)) }
{
    let a = read_integer(first)?;
    let b = read_integer(second)?;
    let _known = op_of_two(word, 0, 0)?;
    Some(Form::Plain(formed_of_two(word, a, b)))
}

/// The instruction of a word and two numbers, if they fit.
fn formed_of_two(word: &[u8], a: i32, b: i32) -> Option<Op>
    ensures { (y z : ℤ) → a ≡ narrow y → b ≡ narrow z → result ≡ narrow_op (option_and_then (λ i. option_and_then
        (λ j. op_named word.now (ops_of_two i j)) (natural_of z)) (natural_of y)) }
{
    let a = byte_of(a)?;
    let b = byte_of(b)?;
    let op = op_of_two(word, a, b)?;
    if_formed(op)
}

/// An instruction that makes a closure.
fn read_closure<'a>(word: &[u8], copied: &[u8], args: &[u8], label: &'a [u8]) -> Option<Form<'a>>
    ensures { Reads result (option_and_then (λ i. option_and_then (λ j. closure_form word.now i j label.now)
        (integer_in args.now)) (integer_in copied.now)) }
{
    let copied = read_integer(copied)?;
    let args = read_integer(args)?;
    if !is_word(word, "closure") || !is_name(label) {
        return None;
    }
    Some(Form::ClosureTo {
        copied,
        args,
        label,
    })
}
