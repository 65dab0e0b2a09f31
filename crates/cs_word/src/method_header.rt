//! The header of a compiled method.

ghost use Rattle.std.specs.Prelude.{◌≡◌, ◌<◌, ◌≤◌, ◌^◌, option_map};
ghost use Rattle.cs_word.specs.Word.{natural_of_word};
ghost use Rattle.cs_model.specs.Obj.{argument_count, context_size, has_primitive, is_header, literal_count};
ghost use Rattle.cs_model.specs.Obj.{temporary_count};

use crate::Oop;

/// What the first slot of a compiled method says, as a number. The images that V3PlusClosures
/// describes lay it out so: 15 bits count the literals, bit 16 says that there is a primitive, bit 17
/// that contexts are large, 6 bits from 18 on count the temporaries with the arguments, and 4 bits
/// from 24 on the arguments. Every `u32` is one; `is_valid` says which a method may have.
#[derive(Clone, Copy, PartialEq, Eq, Debug)]
pub struct MethodHeader(pub u32);

impl MethodHeader {
    /// The header that a word is, or `None` exactly where the word is no SmallInteger or a negative
    /// one.
    pub fn read(word: Oop) -> Option<MethodHeader>
        ensures { option_map (λ header. header.0) result ≡ natural_of_word word.0 }
    {
        word.natural().map(MethodHeader)
    }

    /// How many literals stand behind the header.
    pub fn literals(self) -> u32
        ensures value { result ≡ literal_count self.0 }
        ensures below { result < 2 ^ 15 }
    {
        self.0 % (1 << 15)
    }

    /// Whether the header says that the method has a primitive. Its bytecodes name one only where they begin with 139.
    pub fn has_primitive(self) -> bool
        ensures { result ≡ has_primitive self.0 }
    {
        self.0 / (1 << 16) % 2 == 1
    }

    /// How many values the stack of a context of this method may hold: 56 or 16.
    pub fn context_size(self) -> u32
        ensures value { result ≡ context_size self.0 }
        ensures most { result ≤ 56 }
    {
        if self.0 / (1 << 17) % 2 == 1 { 56 } else { 16 }
    }

    /// How many temporaries the method has, its arguments among them.
    pub fn temporaries(self) -> u32
        ensures value { result ≡ temporary_count self.0 }
        ensures below { result < 2 ^ 6 }
    {
        self.0 / (1 << 18) % (1 << 6)
    }

    /// How many arguments the method takes.
    pub fn arguments(self) -> u32
        ensures value { result ≡ argument_count self.0 }
        ensures below { result < 2 ^ 4 }
    {
        self.0 / (1 << 24) % (1 << 4)
    }

    /// Whether a method may have this header: it is a SmallInteger, there are no more arguments than
    /// temporaries, and these fit the stack of a context.
    pub fn is_valid(self) -> bool
        ensures { result ≡ is_header self.0 }
    {
        self.0 < 1 << 30
            && self.arguments() <= self.temporaries()
            && self.temporaries() <= self.context_size()
    }
}
