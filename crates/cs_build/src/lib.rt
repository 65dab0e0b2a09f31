//! The builder of images: from a text in lines to the bytes of an image, and the generator of large texts.
#![tactic(auto)]

mod above;
mod building;
mod bytecodes;
mod class_table;
mod classes;
mod code;
mod error;
mod first;
mod form;
mod generate;
mod groups;
mod image;
mod inner;
mod judge;
mod known;
mod laws;
mod lines;
mod making;
mod mention;
mod method;
mod number;
mod numbering;
mod object;
mod objects;
mod outer;
mod ready;
mod symbols;
mod tables;
mod text;
mod whole;
mod word;

pub use building::{BuiltImage, build};
pub use error::BuildError;
pub use generate::gen_text;
