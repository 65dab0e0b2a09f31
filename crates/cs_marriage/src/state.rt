//! The states of a context.

use cs_frame::FrameRef;

/// What a context is to the frames.
#[derive(Clone, Copy, PartialEq, Eq, Debug)]
pub enum Spouse {
    /// It has no frame, and all that it is stands in its words.
    Single,
    /// This frame is its body.
    Married(FrameRef),
    /// Its frame has returned. Its words still name the place, where a later frame may stand.
    Widowed,
}
