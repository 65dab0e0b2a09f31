//! Texts: what their lines say, or their first fault.

ghost use Rattle.std.specs.Prelude.{◌≡◌, None, map, IfErr, IfOk};
ghost use Rattle.cs_model.specs.BuilderFault.{forms_of, text_fault};
ghost use Rattle.cs_build.specs.Lines.{TellsFault, forms_by};
ghost use Rattle.cs_build.specs.Meaning.{form_by};

use crate::error::BuildError;
use crate::form::Form;
use crate::judge::{judge_lines, judge_mentions};
use crate::lines::{Line, class_lines, lines_of, read_lines};
use std::alloc::{AllocError, Global};

/// The most bytes of a text.
const MOST_BYTES: usize = 16_777_216;

/// The most lines of a text.
const MOST_LINES: usize = 262_144;

/// The most classes of a text: so many has the class table.
const MOST_CLASSES: u32 = 16_332;

/// What the lines of a text say, where it has no fault. The error is its first fault, and comes exactly where there is
/// one; `NoMemory` alone is free.
pub(crate) fn read_text<'a>(alloc: Global, text: &'a [u8]) -> Result<Vec<Form<'a>>, BuildError>
    ensures none { IfOk result (λ _. text_fault text.now ≡ None) }
    ensures forms { IfOk result (λ forms. map form_by forms.items ≡ forms_of text.now) }
    ensures fault { IfErr result (TellsFault (text_fault text.now)) }
{
    if text.len() > MOST_BYTES {
        return Err(BuildError::TooMany);
    }
    let lines = lines_of(alloc, text)?;
    if lines.len() > MOST_LINES || class_lines(&lines) > MOST_CLASSES {
        return Err(BuildError::TooMany);
    }
    let reading = read_lines(alloc, &lines)?;
    let tables = judge_lines(alloc, &reading.lines)?;
    if let Some(line) = reading.bad {
        return Err(BuildError::BadLine { line });
    }
    if tables.is_open {
        let line = lines.len() as u32 + 1;
        return Err(BuildError::BadLine { line });
    }
    judge_mentions(&tables, &reading.lines)?;
    let forms = forms_of(alloc, reading.lines)?;
    Ok(forms)
}

/// What the lines say.
fn forms_of<'a>(alloc: Global, lines: Vec<Line<'a>>) -> Result<Vec<Form<'a>>, AllocError>
    ensures { IfOk result (λ forms. map form_by forms.items ≡ forms_by lines.entry.items) }
{
    lines.into_iter().map(form_of).collect(alloc)
}

/// What a line says.
fn form_of(line: Line<'_>) -> Form<'_>
    ensures { form_by result ≡ form_by line.entry.form }
{
    line.form
}
