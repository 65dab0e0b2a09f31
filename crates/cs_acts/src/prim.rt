//! How a primitive ends.
use crate::Full;
use cs_model::Stop;

/// How a primitive ends.
#[derive(Clone, Copy, Debug, PartialEq, Eq)]
pub enum PrimEnd {
    /// Receiver and arguments are popped, and the answer is pushed.
    Answer,
    /// A context is entered.
    Entered,
    /// It fails, and nothing is changed: its method is to be entered.
    Fail,
    /// The step stops.
    Stop(Stop),
    /// There is no room.
    Full(Full),
}
