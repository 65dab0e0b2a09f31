//! The model of the machine: what every contract above speaks of.
//!
//! The definitions stand in `specs/`; here are the few enums that the code has in common with them, and the laws about
//! them.
#![tactic(auto)]

mod event;
mod instruction;
pub mod laws;
mod stop;

pub use event::{Event, EventKind};
pub use instruction::{Instr, Op};
pub use stop::Stop;
