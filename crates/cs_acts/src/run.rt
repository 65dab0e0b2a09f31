//! How a run of the machine ends, where it stands then, and what may follow.
use crate::Full;
use cs_model::Stop;

/// How a run ends.
#[derive(Clone, Copy, PartialEq, Eq, Debug)]
pub enum RunEnd {
    /// The steps that were asked for are done.
    Steps,
    /// The image quits.
    Quit,
    /// No process is active and no event is left.
    Idle,
    /// The image saves itself.
    Snapshot,
    /// A step stops, and the run stands before it.
    Stopped(Stop),
    /// The world has no room for what the next bytecode leads to.
    Full(Full),
    /// The sink failed.
    WriteFault,
}

/// Where a run stands.
///
/// All three are `None` where no process is active.
#[derive(Clone, Copy, PartialEq, Eq, Debug)]
pub struct Place {
    /// The birth of the active process.
    pub process: Option<u64>,
    /// The birth of the active context.
    pub context: Option<u64>,
    /// The active context's pc, which counts the bytes of its method from 1 on, header and literals too.
    pub pc: Option<u32>,
}

impl Place {
    /// The place of a machine in which no process is active.
    pub const NOWHERE: Place = Place {
        process: None,
        context: None,
        pc: None,
    };
}

/// What may follow a run.
#[derive(Clone, Copy, PartialEq, Eq, Debug)]
pub enum Phase {
    /// It may go on: nothing was run yet, or the steps that were asked for are done.
    Ready,
    /// The image has quit. A further run answers that again.
    Quit,
    /// No process is active and no event is left. A further run answers that again.
    Idle,
    /// The image has saved itself, and is to go on behind that.
    Snapped,
    /// Nothing may follow: a step stopped, there was no room, or the sink failed.
    Over,
}
