//! Why a text is refused.

use std::alloc::{AllocError, AllocFailed};
use thiserror::Error;

/// Why a text is refused: its first fault. Lines are counted from 1.
///
/// A text that is too large is refused before any line is judged. Then comes the first line with a fault, each judged
/// against the lines above it, with what is wrong with it in the order in which it stands here; then a method without
/// its end; and then the lowest line with a reference to something that the text doesn't have.
#[derive(Clone, Copy, PartialEq, Eq, Debug, Error)]
pub enum BuildError {
    /// The text has more than 16,777,216 bytes, 262,144 lines, or 16,332 lines that say a class.
    #[error("the text is too large")]
    TooMany,
    /// The line has no form of those that lines have there. It is the line behind the last where a method has no end.
    #[error("line {line}: no such form")]
    BadLine {
        /// The line's number.
        line: u32,
    },
    /// The line names something a second time.
    #[error("line {line}: stands twice")]
    Twice {
        /// The line's number.
        line: u32,
    },
    /// A number or a count of slots in the line doesn't fit.
    #[error("line {line}: a number out of range")]
    BadRange {
        /// The line's number.
        line: u32,
    },
    /// The line names something that isn't there, or that it mustn't name.
    #[error("line {line}: no such name")]
    BadName {
        /// The line's number.
        line: u32,
    },
    /// Memory was refused. This is no fault of the text.
    #[error("memory was refused")]
    NoMemory,
}

impl From<AllocError> for BuildError {
    ghost use Rattle.std.specs.Prelude.{◌≡◌};
    ghost use Rattle.cs_build.specs.declared.error.BuildError.TheVariants.{NoMemory};

    ghost from_gives = { λ _ e. e ≡ NoMemory };

    fn from(_refused: AllocError) -> BuildError {
        BuildError::NoMemory
    }
}

impl<T: Drop> From<AllocFailed<T>> for BuildError {
    ghost use Rattle.std.specs.Prelude.{◌≡◌};
    ghost use Rattle.cs_build.specs.declared.error.BuildError.TheVariants.{NoMemory};

    ghost from_gives = { λ _ e. e ≡ NoMemory };

    fn from(_refused: AllocFailed<T>) -> BuildError {
        BuildError::NoMemory
    }
}
