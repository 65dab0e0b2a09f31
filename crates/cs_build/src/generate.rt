//! The generator of large texts.

ghost use Rattle.std.specs.Prelude.{◌≡◌, ◌++◌, IfOk, OnOk};
ghost use Rattle.cs_model.specs.Generator.{array_line, generated, run_text};

use itoa::Buffer;
use std::alloc::{AllocError, Global};

/// The method that recurs as often as its argument says, and answers 0.
const DOWN: &str =
    "method Object down: 1 1\nlit #down:\npushTemp 0\nint 0\nop 6\njumpFalse d\nint 0\nreturnTop\n\
    :d\nself\npushTemp 0\nint 1\nop 1\nsend 0 1\nint 1\nop 0\nreturnTop\nend\n";

/// The text of a large image for each number: 1,000 to 16,000 arrays of one slot, and a process that recurs over and
/// over to a depth of 100 to 4,099.
///
/// # Errors
///
/// `AllocError` where memory is refused.
#[tactic(auto, using(crate::proofs::RangeLemmas::ranges), unfolding(cs_model::specs::Generator::generated))]
pub fn gen_text(alloc: Global, k: u32) -> Result<Vec<u8>, AllocError>
    ensures { IfOk result (λ text. text.items ≡ generated k) }
{
    let arrays = 1000 * (1 + k % 16);
    let depth = 100 + k % 4000;
    let mut text = Vec::new(alloc);
    for i in 0..arrays {
        write_array(&mut text, i + 1)?;
    }
    append(&mut text, DOWN.as_bytes())?;
    write_run(&mut text, depth)?;
    append(&mut text, b"process p 4 Object run nil\nactive p\n")?;
    Ok(text)
}

/// Appends bytes.
fn append(text: &mut Vec<u8>, piece: &[u8]) -> Result<(), AllocError>
    ensures { OnOk result (text.new.items ≡ text.old.items ++ piece.now) }
{
    text.extend_from_slice(piece)
}

/// Writes an Array with one slot, which holds its own number.
fn write_array(text: &mut Vec<u8>, i: u32) -> Result<(), AllocError>
    ensures { OnOk result (text.new.items ≡ text.old.items ++ array_line i) }
{
    let mut buffer = Buffer::new();
    let digits = buffer.format(i).as_bytes();
    text.extend_from_slice(b"object o")?;
    text.extend_from_slice(digits)?;
    text.extend_from_slice(b" Array ")?;
    text.extend_from_slice(digits)?;
    text.extend_from_slice(b"\n")
}

/// How the method begins in which the process begins, up to its depth.
const RUN_HEAD: &str = "method Object run 0 0\nlit #down:\nlit ";

/// What stands behind the depth.
const RUN_TAIL: &str = "\n:l\nself\npushLit 1\nsend 0 1\npop\njump l\nend\n";

/// Writes the method in which the process begins.
fn write_run(text: &mut Vec<u8>, depth: u32) -> Result<(), AllocError>
    ensures { OnOk result (text.new.items ≡ text.old.items ++ run_text depth) }
{
    let mut buffer = Buffer::new();
    let digits = buffer.format(depth).as_bytes();
    append(text, RUN_HEAD.as_bytes())?;
    append(text, digits)?;
    append(text, RUN_TAIL.as_bytes())?;
    Ok(())
}
