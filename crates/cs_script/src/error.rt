//! Why a script is refused.

use std::alloc::{AllocError, AllocFailed};
use thiserror::Error;

/// Why a script is refused: its first fault. Lines are counted from 1.
///
/// A script that is too large is refused before any line is read. Then the first line with a fault decides, and within a
/// line `BadLine` comes before `NotRising`.
#[derive(Clone, Copy, PartialEq, Eq, Debug, Error)]
pub enum ScriptError {
    /// The script has more than 16,777,216 bytes or 262,144 lines.
    #[error("the script is too large")]
    TooMany,
    /// The line says no event.
    #[error("line {number}: no event")]
    BadLine {
        /// The line's number.
        number: u32,
    },
    /// The line's event comes before the one of the line above.
    #[error("line {number}: comes before the line above")]
    NotRising {
        /// The line's number.
        number: u32,
    },
    /// Memory was refused. This is no fault of the script.
    #[error("memory was refused")]
    NoMemory,
}

impl From<AllocError> for ScriptError {
    ghost use Rattle.std.specs.Prelude.{◌≡◌};
    ghost use Rattle.cs_script.specs.declared.error.ScriptError.TheVariants.{NoMemory};

    ghost from_gives = { λ _ e. e ≡ NoMemory };

    fn from(_refused: AllocError) -> ScriptError {
        ScriptError::NoMemory
    }
}

impl<T: Drop> From<AllocFailed<T>> for ScriptError {
    ghost use Rattle.std.specs.Prelude.{◌≡◌};
    ghost use Rattle.cs_script.specs.declared.error.ScriptError.TheVariants.{NoMemory};

    ghost from_gives = { λ _ e. e ≡ NoMemory };

    fn from(_refused: AllocFailed<T>) -> ScriptError {
        ScriptError::NoMemory
    }
}
