//! What stands for an activation.
use cs_word::Oop;

/// An activation, until the next call that changes the world.
#[derive(Clone, Copy, Debug, PartialEq, Eq)]
pub enum Act {
    /// A frame, by its page and its place there.
    Frame { page: u32, at: u32 },
    /// A context in the heap that has no frame.
    Context(Oop),
    /// None: no context is active, or a sender is nil.
    Gone,
}

/// Why a world refuses a call.
#[derive(Clone, Copy, Debug, PartialEq, Eq)]
pub enum Full {
    /// The words of all objects and contexts would exceed the heap limit.
    Heap,
    /// Every stack page is used, and the new frame does not fit on the active one.
    Stack,
}
