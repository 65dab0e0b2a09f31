//! What the words of an object must be for its format.

ghost use Rattle.std.specs.Prelude.{◌≡◌, ◌<◌, ◌≤◌, ◌+◌, ◌*◌, ◌^◌, length, IsTrue};
ghost use Rattle.cs_model.specs.Words.{bytecode_count, header_in_words, literals_in_words};
ghost use Rattle.cs_model.specs.Words.{is_method_format as is_method_of, natural_in_word};
ghost use Rattle.cs_model.specs.ImageFault.{is_body as is_body_of, is_method_body as is_method_body_of};
ghost use Rattle.cs_model.specs.Obj.{lies_between, literal_count as literal_count_of};

use crate::cut::word_at;
use cs_word::{MethodHeader, Oop};

/// A word that is a SmallInteger and isn't negative, as a number.
#[tactic(auto, using(crate::proofs::Naturals::word_natural))]
pub(crate) fn natural(word: u32) -> Option<u32>
    ensures { result ≡ natural_in_word word }
{
    Oop(word).natural()
}

/// Whether objects of this format are compiled methods.
pub(crate) fn is_method(format: u8) -> bool
    ensures { result ≡ is_method_of format }
{
    24 <= format && format < 28
}

/// The literals of a method, which stand behind its header.
pub(crate) fn literals(words: &[u32]) -> &[u32]
    ensures { result.now ≡ literals_in_words words.now }
{
    let rest = &words[words.len().min(1)..];
    &rest[..literal_count(words).min(rest.len())]
}

/// How many literals a method has, by its header.
pub(crate) fn literal_count(words: &[u32]) -> usize
    ensures { result ≡ literal_count_of (header_in_words words.now) }
{
    MethodHeader(natural(word_at(words, 0)).unwrap_or(0)).literals() as usize
}

/// Whether a pc lies in a method: from its first bytecode on to behind the last one.
pub(crate) fn is_pc(format: u8, words: &[u32], pc: u32) -> bool
    requires size { length words.now < 2 ^ 32 }
    requires method { IsTrue (is_method_of format) }
    ensures { result ≡ lies_between (4 * (1 + literal_count_of (header_in_words words.now)) + 1)
        (bytecode_count format words.now) pc }
{
    let before = 1 + literal_count(words);
    let first = 4 * before + 1;
    let bytes = (4 * words.len().saturating_sub(before)).saturating_sub(usize::from(format) - 24);
    first <= pc as usize && pc as usize <= first + bytes
}

fn is_method_body(format: u8, words: &[u32]) -> bool
    requires method { IsTrue (is_method_of format) }
    ensures { result ≡ is_method_body_of format words.now }
{
    let Some(bits) = natural(word_at(words, 0)) else {
        return false;
    };
    let header = MethodHeader(bits);
    let spare = if format > 24 { 1 } else { 0 };
    header.is_valid() && header.literals() as usize + spare < words.len()
}

/// Whether an object of this format may have these slots: their number fits it, and a method's header is valid and
/// leaves room for its literals.
pub(crate) fn is_body(format: u8, words: &[u32]) -> bool
    requires { length words.now < 2 ^ 32 }
    ensures { result ≡ is_body_of format words.now }
{
    cs_heap::format_allows(format, words.len() as u32)
        && (!is_method(format) || is_method_body(format, words))
}
