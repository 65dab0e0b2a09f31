//! References.

ghost use Rattle.std.specs.Prelude.{◌≡◌, option_map};
ghost use Rattle.cs_model.specs.BuilderText.{at_mention, marked_mention, mention_in, method_mention, part_mention};
ghost use Rattle.cs_build.specs.Meaning.{mention_by};
ghost use Rattle.cs_build.specs.Narrow.{ReadsMention};

use crate::form::Mention;
use crate::number::read_integer;
use crate::word::{is_name, is_word, split_at_byte};

/// The reference that a word is.
pub fn read_mention(word: &[u8]) -> Option<Mention<'_>>
    ensures { ReadsMention result (mention_in word.now) }
{
    if is_word(word, "nil") {
        return Some(Mention::Nil);
    }
    if is_word(word, "true") {
        return Some(Mention::True);
    }
    if is_word(word, "false") {
        return Some(Mention::False);
    }
    match read_integer(word) {
        Some(value) => Some(Mention::Number(value)),
        None => read_marked(word),
    }
}

/// The reference that a word with a mark in front is.
fn read_marked(word: &[u8]) -> Option<Mention<'_>>
    ensures { ReadsMention result (marked_mention word.now) }
{
    let [mark, rest @ ..] = word else {
        return None;
    };
    match *mark {
        b'$' => {
            let code = read_integer(rest)?;
            Some(Mention::Code(code))
        }
        b'#' if !rest.is_empty() => Some(Mention::Symbol(rest)),
        b'@' => read_at(rest),
        _ => None,
    }
}

/// The reference behind an at sign.
fn read_at(text: &[u8]) -> Option<Mention<'_>>
    ensures { option_map mention_by result ≡ at_mention text.now }
{
    if let Some((class, rest)) = split_at_byte(text, b'>') {
        return read_method(class, rest);
    }
    if let Some((class, part)) = split_at_byte(text, b'.') {
        return read_part(class, part);
    }
    if is_name(text) {
        Some(Mention::Named(text))
    } else {
        None
    }
}

/// A part of a class: its dictionary or the array of its methods.
fn read_part<'a>(class: &'a [u8], part: &'a [u8]) -> Option<Mention<'a>>
    ensures { option_map mention_by result ≡ part_mention class.now part.now }
{
    if !is_name(class) {
        return None;
    }
    if is_word(part, "dict") {
        Some(Mention::Dictionary(class))
    } else if is_word(part, "values") {
        Some(Mention::Values(class))
    } else {
        None
    }
}

/// A method of a class, by what stands behind the first greater sign: another one and its selector.
fn read_method<'a>(class: &'a [u8], rest: &'a [u8]) -> Option<Mention<'a>>
    ensures { option_map mention_by result ≡ method_mention class.now rest.now }
{
    let [b'>', selector @ ..] = rest else {
        return None;
    };
    if selector.is_empty() || !is_name(class) {
        return None;
    }
    Some(Mention::MethodOf { class, selector })
}
