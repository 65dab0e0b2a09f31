//! What a return leads to.
use cs_acts::Full;
use cs_model::Stop;

/// What a return leads to.
#[derive(Clone, Copy, Debug, PartialEq, Eq)]
pub enum BackEnd {
    /// The value has arrived.
    Done,
    /// It can't arrive yet, or at all: the special selector `special` is to be sent to the active context with `args`
    /// arguments. Receiver and arguments are pushed.
    Call { special: u32, args: u32 },
    /// The step stops.
    Stop(Stop),
    /// The heap has no room for a context that the message names, or that the return asks for.
    Full(Full),
}
