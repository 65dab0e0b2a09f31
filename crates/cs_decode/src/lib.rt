//! The V3PlusClosures bytecodes: from bytes to instructions, back to bytes, and to the assembler's
//! words.
#![tactic(auto)]

mod assembler;
mod decoder;
mod forms;

pub use assembler::{assemble, name};
pub use cs_model::{Instr, Op};
pub use decoder::{BadCode, decode};
pub use forms::is_instr;
