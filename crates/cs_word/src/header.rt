//! The header of an object.

ghost use Rattle.std.specs.Prelude.{⊤, ◌≡◌, [], ◌∷◌, codes, ◌<◌, ◌^◌};

use bitflags::{Flag, Flags as _, bitflag_items};

/// The marks of an object, a set of five bits: 0 `IS_IMMUTABLE`, 1 `REMEMBERED`, 2 `PINNED`,
/// 3 `GREY` and 4 `MARKED`.
#[derive(Clone, Copy, PartialEq, Eq, Debug)]
pub struct Flags(u8);

bitflag_items! {
    impl Flags: u8 {
        const IS_IMMUTABLE = 1;
        const REMEMBERED = 2;
        const PINNED = 4;
        const GREY = 8;
        const MARKED = 16;
    }
}

impl bitflags::Flags for Flags {
    type Bits = u8;

    ghost exact = { ⊤ };

    ghost table = { (codes "IS_IMMUTABLE", 1) ∷ (codes "REMEMBERED", 2) ∷ (codes "PINNED", 4) ∷ (codes "GREY", 8)
        ∷ (codes "MARKED", 16) ∷ [] };

    ghost set_of = { λ flags. flags.0 };

    fn flags<'a>() -> &'a [Flag<Flags>] {
        Flags::FLAGS
    }

    fn bits(&self) -> u8 {
        self.0
    }

    fn from_bits_retain(bits: u8) -> Flags {
        Flags(bits)
    }
}

/// What the 64 bits of an object's header say, in 32-bit Spur.
#[derive(Clone, Copy, PartialEq, Eq, Debug)]
pub struct Header {
    /// Index of the object's class in the class table, 22 bits.
    pub class: u32,
    /// The object's marks.
    pub flags: Flags,
    /// How the body is laid out, 5 bits.
    pub format: u8,
    /// Identity hash, 22 bits; 0 where none was given yet.
    pub hash: u32,
    /// Number of slots, or 255 where an overflow word in front of the header has it.
    pub slots: u8,
}

impl Header {
    ghost use Rattle.cs_word.specs.Header.{header_of, header_bits, flag_bits, is_immutable, IsWritable};

    /// What a header says. Its bits 22 and 54 are unused and are dropped.
    pub fn read(bits: u64) -> Header
        ensures { result ≡ header_of bits }
    {
        let immutable = (bits >> 23) & 1;
        let remembered_pinned_grey = (bits >> 29) & 7;
        let marked = (bits >> 55) & 1;
        Header {
            class: (bits & 0x3f_ffff) as u32,
            flags: Flags((immutable | (remembered_pinned_grey << 1) | (marked << 4)) as u8),
            format: ((bits >> 24) & 0x1f) as u8,
            hash: ((bits >> 32) & 0x3f_ffff) as u32,
            slots: (bits >> 56) as u8,
        }
    }

    /// Whether the object is read-only, which `IS_IMMUTABLE` says.
    pub fn is_read_only(&self) -> bool
        ensures { result ≡ is_immutable self.now.flags }
    {
        self.flags.contains(Flags::IS_IMMUTABLE)
    }

    /// The 64 bits of a header, of which 22 and 54 are 0. `read` of them gives the header back
    /// where no flag but the five is set.
    pub fn write(&self) -> u64
        requires { IsWritable self.now }
        ensures bits { result ≡ header_bits self.now }
        ensures read_back { flag_bits self.now.flags < 2 ^ 5 → header_of result ≡ self.now }
    {
        let flags = u64::from(self.flags.0);
        u64::from(self.class)
            + ((flags & 1) << 23)
            + (u64::from(self.format) << 24)
            + (((flags >> 1) & 7) << 29)
            + (u64::from(self.hash) << 32)
            + (((flags >> 4) & 1) << 55)
            + (u64::from(self.slots) << 56)
    }
}
