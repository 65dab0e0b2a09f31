//! Scripts of events: from the lines of a text to the events that they say, or the first fault.
#![tactic(auto)]

mod error;
mod events;
mod line;
mod number;
mod text;

pub use error::ScriptError;
pub use events::{Script, read_script};
