//! Why an image is refused.

use std::alloc::{AllocError, AllocFailed};
use thiserror::Error;

/// Why an image is refused: the first fault of its file, in the order in which they stand here, and within one kind the
/// one of the lowest place. `at` counts bytes from the heap's first one.
#[derive(Clone, Copy, PartialEq, Eq, Debug, Error)]
pub enum ImageError {
    /// The file has more than 536,870,912 bytes.
    #[error("the file is longer than 536,870,912 bytes")]
    TooLong,
    /// The file has fewer bytes than its header, 64.
    #[error("the file is shorter than its header")]
    Short,
    /// The number at place 0 isn't 6521.
    #[error("the format number isn't 6521")]
    BadFormat,
    /// The number at place 4, the header's size, isn't 64.
    #[error("the header's size isn't 64")]
    BadHeaderSize,
    /// Bit 31 of the flags, at place 28, is 1, which is profile 2, and the number of stack pages, the 16 bits at place
    /// 36, is neither 0 nor 2 to 64.
    #[error("the number of stack pages isn't one of profile 2")]
    BadProfile,
    /// The heap's size, at place 8, is 0 or no multiple of 8; the old base, at place 12, is no multiple of 8; their sum
    /// is above 2^32; or the file ends neither behind the heap nor behind a birth section of so many births as it says.
    #[error("the sizes don't fit the file")]
    BadLength,
    /// An object isn't whole, has a format or slot count that isn't accepted, or is a method whose header isn't valid.
    #[error("the object at {at} isn't well formed")]
    BadObject {
        /// The place of the object's first word.
        at: u32,
    },
    /// The objects take more words than the heap may have.
    #[error("the objects take more words than the heap may have")]
    OverLimit,
    /// The first objects or the class table aren't as they should be.
    #[error("the first objects or the class table aren't as they should be")]
    BadTable,
    /// A word should name an object, and names none.
    #[error("the word at {at} names no object")]
    BadRef {
        /// The place of the word.
        at: u32,
    },
    /// An object's class index is that of an immediate, or has no entry.
    #[error("the object at {at} has no class")]
    BadClass {
        /// The place of the object's header.
        at: u32,
    },
    /// An object of class index 36 isn't what a context is.
    #[error("the object at {at} isn't a context")]
    BadContext {
        /// The place of the object's header.
        at: u32,
    },
    /// The special objects, the scheduler or the active process aren't as they should be.
    #[error("the special objects, the scheduler or the active process aren't as they should be")]
    BadRoots,
    /// The count of the birth section isn't that of the visible objects; a birth repeats; a birth isn't below the next
    /// one; or that is above 2^62.
    #[error("the births aren't one for each object below the next birth")]
    BadBirths,
    /// The memory for the objects was refused. This is no fault of the file.
    #[error("the memory for the objects was refused")]
    NoMemory,
}

impl From<AllocError> for ImageError {
    ghost use Rattle.std.specs.Prelude.{◌≡◌};
    ghost use Rattle.cs_image.specs.declared.error.ImageError.TheVariants.{NoMemory};

    ghost from_gives = { λ _ e. e ≡ NoMemory };

    fn from(_refused: AllocError) -> ImageError {
        ImageError::NoMemory
    }
}

impl<T: Drop> From<AllocFailed<T>> for ImageError {
    ghost use Rattle.std.specs.Prelude.{◌≡◌};
    ghost use Rattle.cs_image.specs.declared.error.ImageError.TheVariants.{NoMemory};

    ghost from_gives = { λ _ e. e ≡ NoMemory };

    fn from(_refused: AllocFailed<T>) -> ImageError {
        ImageError::NoMemory
    }
}
