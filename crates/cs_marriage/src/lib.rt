//! Frames and the contexts whose bodies they are.
//!
//! An activation that runs is a frame on a stack page. Where image code asks for it as an object, it is married: a
//! context is made in the heap, and frame and context name each other. The context's sender slot holds the frame's
//! place as a SmallInteger. Sender, pc and stack are the frame's alone, and the context's words for them say nothing;
//! method, closure and receiver stand in both. Once the frame is gone the context is widowed. It still names the
//! place, where another frame may stand by then, so the test of a marriage asks the frames, never the word alone.
//!
//! All calls have the condition that heap and frames agree (`specs/Agree.antt`), and leave them so. They take no
//! memory but that of the heap.
//!
//! That frames and contexts marry is Miranda's, in the stack machines of Squeak. Which word names the place is this
//! machine's own.
#![tactic(auto)]

mod basing;
mod burying;
mod marrying;
mod search;
mod state;
mod words;

pub use basing::base;
pub use burying::bury;
use cs_heap::BASE;
use cs_word::Oop;
pub use marrying::marry;
pub use search::spouse;
pub use state::Spouse;
pub use words::names_place;

/// The word of nil.
const NIL: Oop = Oop(BASE);
