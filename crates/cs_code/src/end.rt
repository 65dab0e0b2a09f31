//! What an instruction leads to.
use cs_acts::Full;
use cs_model::Stop;
use cs_word::Oop;

/// What an instruction leads to.
#[derive(Clone, Copy, Debug, PartialEq, Eq)]
pub enum CodeEnd {
    /// All is done.
    Done,
    /// A message is to be sent to the receiver below so many arguments, and looked up from the superclass of `above`
    /// on, if given.
    Send {
        selector: Oop,
        args: u32,
        above: Option<Oop>,
    },
    /// The value is to be returned: to the sender, or from the home.
    Return {
        value: Oop,
        local: bool,
    },
    /// The step stops.
    Stop(Stop),
    /// There is no room for what the instruction makes, or for a context that it looks at.
    Full(Full),
}
