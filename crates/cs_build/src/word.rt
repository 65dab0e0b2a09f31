//! The lines of a text and the words of a line.

ghost use Rattle.std.specs.Prelude.{◌≡◌, ◌==◌, ◌&&◌, ◌<◌, ◌≤◌, false, length, IfOk, IfSome, IfNone, IsTrue};
ghost use Rattle.std.specs.Char.{is_ascii_alphanumeric};
ghost use Rattle.std.specs.Str.{bytes_eq};
ghost use Rattle.std.specs.List.{before_first, after_first, list_all, position_or_len, slice_split};
ghost use Rattle.cs_model.specs.Text.{line_words, is_name};
ghost use Rattle.cs_model.specs.BuilderText.{has_byte, is_trim};
ghost use Rattle.cs_build.specs.Narrow.{word_texts};

use std::alloc::{AllocError, Global};

/// The parts of a text between separators.
pub fn parts_of<'a>(
    alloc: Global,
    text: &'a [u8],
    separator: u8,
) -> Result<Vec<&'a [u8]>, AllocError>
    ensures { IfOk result (λ parts. word_texts parts.items ≡ slice_split (λ b. b == separator) text.now) }
{
    text.split(|byte| *byte == separator).collect(alloc)
}

/// The words of a line, which single spaces or more stand between.
pub fn words_of<'a>(alloc: Global, line: &'a [u8]) -> Result<Vec<&'a [u8]>, AllocError>
    ensures { IfOk result (λ words. word_texts words.items ≡ line_words line.now) }
{
    line.split(|byte| *byte == b' ')
        .filter(|word| !word.is_empty())
        .collect(alloc)
}

/// Whether a line has neither a space in front of its first word nor one behind its last.
pub fn is_trim(line: &[u8]) -> bool
    requires { 0 < length line.now }
    ensures { result ≡ is_trim line.now }
{
    line[0] != b' ' && line[line.len() - 1] != b' '
}

/// Whether a word is this one.
pub fn is_word(word: &[u8], text: &str) -> bool
    ensures { result ≡ bytes_eq word.now text.now }
{
    word == text.as_bytes()
}

/// Whether a word is a name: letters and digits, a letter first.
pub fn is_name(word: &[u8]) -> bool
    ensures { result ≡ is_name word.now }
{
    let [first, rest @ ..] = word else {
        return false;
    };
    first.is_ascii_alphabetic() && are_alphanumeric(rest)
}

/// Whether two words are names.
pub fn are_names(first: &[u8], second: &[u8]) -> bool
    ensures { result ≡ (is_name first.now && is_name second.now) }
{
    is_name(first) && is_name(second)
}

/// Whether all bytes are letters and digits.
fn are_alphanumeric(bytes: &[u8]) -> bool
    ensures { result ≡ list_all is_ascii_alphanumeric bytes.now }
{
    bytes.iter().all(|byte| byte.is_ascii_alphanumeric())
}

/// What stands before and behind the first of these bytes, if there is one.
#[tactic(auto, using(crate::proofs::LineLemmas::places))]
pub fn split_at_byte(text: &[u8], separator: u8) -> Option<(&[u8], &[u8])>
    ensures some { IfSome result (λ parts. (parts.0.now ≡ before_first (λ c. c == separator) text.now)
        × (parts.1.now ≡ after_first (λ c. c == separator) text.now) × IsTrue (has_byte separator text.now)) }
    ensures none { IfNone result (has_byte separator text.now ≡ false) }
{
    let at = position_of(text, separator)?;
    Some((&text[..at], &text[at + 1..]))
}

/// Where a byte stands first.
fn position_of(text: &[u8], wanted: u8) -> Option<usize>
    ensures some { IfSome result (λ at. (at ≡ position_or_len (λ c. c == wanted) text.now) × (at < length text.now)) }
    ensures none { IfNone result (length text.now ≤ position_or_len (λ c. c == wanted) text.now) }
{
    text.iter().position(|byte| *byte == wanted)
}
