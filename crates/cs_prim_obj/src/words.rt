//! The words of numbers and Characters.
ghost use Rattle.std.specs.Prelude.{◌<◌, ◌^◌};
ghost use Rattle.cs_model.specs.PrimObject.{small_count};
ghost use Rattle.cs_model.specs.Ref as ref;
ghost use Rattle.cs_acts.specs.Names.{Names, Store};

use cs_word::Oop;

/// The word of a number that isn't negative.
pub(crate) fn count_word(count: u32) -> Oop
    requires { count < 2 ^ 30 }
    ensures { (s : Store) → Names s result (small_count count) }
{
    Oop::from_natural(count)
}

/// The word of the Character of this code.
pub(crate) fn character_word(code: u8) -> Oop
    ensures { (s : Store) → Names s result (ref.Char code) }
{
    let Some(word) = Oop::character(u32::from(code)) else {
        unreachable!();
    };
    word
}
