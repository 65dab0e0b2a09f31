//! The machine: steps and runs over any world.
#![tactic(auto)]

pub mod laws;
mod primitive;
mod run;
mod step;
mod vm;

pub use vm::Vm;
