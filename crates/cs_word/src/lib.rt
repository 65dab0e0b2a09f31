//! Object words, SmallInteger arithmetic and object headers of 32-bit Spur.
#![tactic(auto)]

ghost use Rattle.std.specs.Prelude.{◌≡◌, ◌+◌, ◌*◌, ◌<◌, ◌^◌, ◌↔◌, IsSome, IfSome, pos};
ghost use Rattle.cs_word.specs.Word.{kind_of, word_of, small_word, character_word, natural_of_word, IsSmall};

mod arithmetic;
mod header;
mod method_header;

pub use arithmetic::{add, div, mul, quo, rem, shift, sub};
pub use header::{Flags, Header};
pub use method_header::MethodHeader;

/// A word of 32 bits as object slots, stack values and literals hold it. Every `u32` is one.
#[derive(Clone, Copy, PartialEq, Eq, Debug)]
pub struct Oop(pub u32);

/// What a word says by its low bits, as in 32-bit Spur.
#[derive(Clone, Copy, PartialEq, Eq, Debug)]
pub enum Kind {
    /// Low bit 1: a SmallInteger, -2^30 to 2^30 - 1.
    Small(i32),
    /// Low bits 10: the Character of this code, below 2^30.
    Character(u32),
    /// Low bits 000: the address of an object, which is the word itself.
    Object(u32),
    /// Low bits 100: neither an immediate nor an address. Frames alone use it, for links; it holds
    /// the word itself. This kind is this machine's own.
    Link(u32),
}

impl Oop {
    /// The number of the word.
    pub fn bits(self) -> u32
        ensures { result ≡ self.0 }
    {
        self.0
    }

    /// What the low bits of the word say. No other word says the same.
    pub fn kind(self) -> Kind
        ensures kind { result ≡ kind_of self.0 }
        ensures word { word_of result ≡ self.0 }
    {
        let word = self.0;
        if word % 2 == 1 {
            Kind::Small(word.cast_signed() >> 1)
        } else if word % 4 == 2 {
            Kind::Character(word / 4)
        } else if word % 8 == 0 {
            Kind::Object(word)
        } else {
            Kind::Link(word)
        }
    }

    /// The number that the word is, from 0 to 2^30 - 1, or `None` exactly where it is no SmallInteger or
    /// a negative one.
    pub fn natural(self) -> Option<u32>
        ensures value { result ≡ natural_of_word self.0 }
        ensures word { IfSome result (λ n. self.0 ≡ 2 * n + 1) }
        ensures below { IfSome result (λ n. n < 2 ^ 30) }
    {
        if self.0 % 2 == 1 && self.0 < 1 << 31 {
            Some(self.0 / 2)
        } else {
            None
        }
    }

    /// The word of a number below 2^30, as a SmallInteger.
    pub fn from_natural(n: u32) -> Oop
        requires { n < 2 ^ 30 }
        ensures { result.0 ≡ small_word (pos n) }
    {
        Oop(2 * n + 1)
    }

    /// The word of a SmallInteger, or `None` exactly where `v` is outside -2^30 to 2^30 - 1.
    pub fn small(v: i32) -> Option<Oop>
        ensures some { IsSome result ↔ IsSmall v }
        ensures word { IfSome result (λ o. o.0 ≡ small_word v) }
        ensures kind { IfSome result (λ o. kind_of o.0 ≡ Kind.Small v) }
    {
        if -(1 << 30) <= v && v < 1 << 30 {
            Some(Oop((v.cast_unsigned() << 1) + 1))
        } else {
            None
        }
    }

    /// The word of the Character of code `c`, or `None` exactly from 2^30 up.
    pub fn character(c: u32) -> Option<Oop>
        ensures some { IsSome result ↔ (c < 2 ^ 30) }
        ensures word { IfSome result (λ o. o.0 ≡ character_word c) }
        ensures kind { IfSome result (λ o. kind_of o.0 ≡ Kind.Character c) }
    {
        if c < 1 << 30 {
            Some(Oop(4 * c + 2))
        } else {
            None
        }
    }
}
