//! The lines of a script and the words of a line.

ghost use Rattle.std.specs.Prelude.{◌≡◌, ◌==◌, IfOk};
ghost use Rattle.std.specs.List.{slice_split};
ghost use Rattle.cs_model.specs.Text.{lines_in, lines_of};
ghost use Rattle.cs_script.specs.Reading.{texts};

use std::alloc::{AllocError, Global};

/// The lines of a text. Each ends with a line feed, which the last may lack.
pub(crate) fn lines_of<'a>(alloc: Global, text: &'a [u8]) -> Result<Vec<&'a [u8]>, AllocError>
    ensures { IfOk result (λ lines. texts lines.items ≡ lines_of text.now) }
{
    let mut lines = parts_of(alloc, text, b'\n')?;
    drop_empty_end(&mut lines);
    Ok(lines)
}

/// The parts of a text between separators.
pub(crate) fn parts_of<'a>(
    alloc: Global,
    text: &'a [u8],
    separator: u8,
) -> Result<Vec<&'a [u8]>, AllocError>
    ensures { IfOk result (λ parts. texts parts.items ≡ slice_split (λ b. b == separator) text.now) }
{
    text.split(|byte| *byte == separator).collect(alloc)
}

/// Takes the last part away if it is empty: a line feed ends a line, and begins none.
fn drop_empty_end(parts: &mut Vec<&[u8]>)
    ensures { texts parts.new.items ≡ lines_in (texts parts.old.items) }
{
    let Some(part) = parts.last() else {
        return;
    };
    if part.is_empty() {
        let _empty = parts.pop();
    }
}
