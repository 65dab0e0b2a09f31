//! The program's top call: what its words say, what it does, and what it prints.
//!
//! `clap` reads the words as a simple command without flags for help and the version. What a line says is a
//! [`line::Line`]; one that asks for what the program can't do yet is refused like any other that is wrong.
#![tactic(auto)]

mod building;
mod generating;
mod image;
mod inspect;
mod line;
mod number;
mod printing;
mod refusal;
mod report;
mod running;
mod same;
mod text_refusal;
mod top;

pub use top::cogstack;
