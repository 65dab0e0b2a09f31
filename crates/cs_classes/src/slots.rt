//! Where the named parts of objects stand that the machine itself reads: the numbers of their slots, counted from 0.
//!
//! They are those of the Blue Book, and for closures those of Squeak.

/// The slot of a context that holds its sender.
pub const SENDER: u32 = 0;

/// The slot of a context that holds its pc.
pub const PC: u32 = 1;

/// The slot of a context that says how many values its stack holds.
pub const STACK_POINTER: u32 = 2;

/// The slot of a context that holds its method.
pub const METHOD: u32 = 3;

/// The slot of a context that holds its closure, or nil.
pub const CLOSURE: u32 = 4;

/// The slot of a context that holds its receiver.
pub const RECEIVER: u32 = 5;

/// The slot of a context from which on its stack stands. It has so many named slots.
pub const FIRST_STACK: u32 = 6;

/// The slot of a closure that holds the context in which it was made.
pub const OUTER_CONTEXT: u32 = 0;

/// The slot of a closure that holds the pc at which it starts.
pub const START_PC: u32 = 1;

/// The slot of a closure that says how many arguments it takes.
pub const ARGUMENT_COUNT: u32 = 2;

/// The slot of a closure from which on its copied values stand. It has so many named slots.
pub const FIRST_COPIED: u32 = 3;

/// The slot of a class that says of what format its instances are and how many fields they have, by the number
/// `format * 65536 + fields`.
pub const INSTANCE_SHAPE: u32 = 2;

/// How many slots a class has at least.
pub const CLASS_SLOTS: u32 = 3;

/// The slot of a process that holds its context while it doesn't run.
pub const SUSPENDED_CONTEXT: u32 = 1;

/// How many slots a process has at least.
pub const PROCESS_SLOTS: u32 = 4;

/// The slot of the scheduler that holds the active process.
pub const ACTIVE_PROCESS: u32 = 1;

/// How many slots the scheduler has at least.
pub const SCHEDULER_SLOTS: u32 = 2;

/// The slot of an association that holds its value.
pub const VALUE: u32 = 1;

/// How many slots an association has at least.
pub const ASSOCIATION_SLOTS: u32 = 2;
