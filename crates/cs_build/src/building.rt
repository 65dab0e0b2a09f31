//! Images of texts.

ghost use Rattle.std.specs.Prelude.{◌≡◌, None, length, map, IfErr, IfOk};
ghost use Rattle.cs_model.specs.BuilderFault.{forms_of, text_fault};
ghost use Rattle.cs_model.specs.Builder.{text_objects};
ghost use Rattle.cs_build.specs.Judged.{IsJudged};
ghost use Rattle.cs_build.specs.Lines.{TellsFault};
ghost use Rattle.cs_build.specs.Meaning.{form_by};
ghost use Rattle.cs_build.specs.Wholes.{IsImageOf, file_bytes, objects_made};

use crate::class_table::class_table;
use crate::error::BuildError;
use crate::form::Form;
use crate::image::{PAGE_ENTRIES, has_room, image_of};
use crate::known::with_known;
use crate::numbering::numbering_of;
use crate::text::read_text;
use crate::whole::objects_of;
use std::alloc::{AllocError, Global};

/// What is built of a text.
#[derive(Drop)]
pub struct BuiltImage {
    /// The bytes of an image file, 536,870,912 at most.
    pub bytes: Vec<u8>,
    /// How many objects the image has, those that only the file's layout asks for not counted.
    pub objects: u32,
}

/// The image of the lines of a text without faults. Where that doesn't fit in a file, it answers as where memory is
/// refused.
fn image_of_lines(alloc: Global, lines: Vec<Form<'_>>) -> Result<BuiltImage, AllocError>
    requires { IsJudged (map form_by lines.items) }
    ensures bytes { IfOk result (λ built. built.bytes.items ≡ file_bytes (map form_by lines.entry.items)) }
    ensures image { IfOk result (λ built. IsImageOf built.bytes.items (map form_by lines.entry.items)) }
    ensures objects { IfOk result (λ built. built.objects ≡ length (objects_made (map form_by lines.entry.items))) }
{
    let lines = with_known(alloc, lines)?;
    let numbering = numbering_of(alloc, &lines)?;
    let objects = objects_of(alloc, &numbering)?;
    let table = class_table(alloc, &numbering)?;
    if !has_room(&objects, table.len() / PAGE_ENTRIES) {
        return Err(AllocError);
    }
    let bytes = image_of(alloc, &objects, &table)?;
    Ok(BuiltImage {
        bytes,
        objects: objects.len() as u32,
    })
}

/// Builds the image of a text: the bytes of its file, and how many objects it has.
///
/// The error is the text's first fault, and comes exactly where the text has one. `NoMemory` comes where memory is
/// refused, and also where the file would have more than 536,870,912 bytes: that is tested, and not shown never to be.
pub fn build(alloc: Global, text: &[u8]) -> Result<BuiltImage, BuildError>
    ensures none { IfOk result (λ _. text_fault text.now ≡ None) }
    ensures fault { IfErr result (TellsFault (text_fault text.now)) }
    ensures bytes { IfOk result (λ built. built.bytes.items ≡ file_bytes (forms_of text.now)) }
    ensures image { IfOk result (λ built. IsImageOf built.bytes.items (forms_of text.now)) }
    ensures objects { IfOk result (λ built. built.objects ≡ length (text_objects (forms_of text.now))) }
{
    let lines = read_text(alloc, text)?;
    let built = image_of_lines(alloc, lines)?;
    Ok(built)
}
