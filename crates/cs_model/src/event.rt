//! Events from outside the image.

/// An event of a script. It comes before the bytecode of its number, and bytecodes are counted from 1.
#[derive(Clone, Copy, Debug, PartialEq, Eq)]
pub struct Event {
    /// The number of the bytecode that it comes before, from 1 on.
    pub before: u64,
    /// What happens.
    pub kind: EventKind,
}

/// What happens in an event.
#[derive(Clone, Copy, Debug, PartialEq, Eq)]
pub enum EventKind {
    /// The external semaphore of this number is signalled, counted from 1.
    Signal(u32),
    /// The clock is set to this moment.
    Clock(i32),
    /// This byte is added to the input.
    Byte(u8),
}
