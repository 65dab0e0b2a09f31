//! The special objects of a file, its scheduler and its active process.

ghost use Rattle.std.specs.Prelude.{◌≡◌, ◌<◌, option_map};
ghost use Rattle.cs_model.specs.ImageFile.{names};
ghost use Rattle.cs_model.specs.ImageFault.{active_process_in, fields_in, fields_of, is_bad_roots, is_live_context};
ghost use Rattle.cs_model.specs.ImageFault.{is_process_word, special_in};
ghost use Rattle.cs_image.specs.Heap.{seen};

use crate::cut::word_at;
use crate::file::{FileHeap, FileObject};
use crate::shape::natural;
use cs_classes::CONTEXT_CLASS;

/// The slots of a visible pointer object with `least` slots or more; None where it isn't that, or is a context.
fn fields<'a>(o: &FileObject<'a>, least: usize) -> Option<&'a [u32]>
    ensures { option_map (λ words. words.now) result ≡ fields_of least (seen o.now) }
{
    if o.class != 16 && o.format < 6 && o.class != CONTEXT_CLASS && least <= o.words.len() {
        Some(o.words)
    } else {
        None
    }
}

/// The slots of the pointer object with `least` slots or more that a word names.
fn fields_named(file: &FileHeap, least: usize, word: u32) -> Option<&[u32]>
    ensures { option_map (λ words. words.now) result ≡ fields_in file.now least word }
{
    match file.named(word) {
        Some(o) => fields(&o, least),
        None => None,
    }
}

/// The slots of the special-object array at an address.
fn special_objects(file: &FileHeap, word: u32) -> Option<&[u32]>
    ensures { option_map (λ words. words.now) result ≡ special_in file.now word }
{
    match file.named(word) {
        Some(o) if o.format == 2 => fields(&o, 51),
        _ => None,
    }
}

/// The active process by the scheduler, which special 3 has in its slot 1; None where one of these hasn't its shape.
fn active_process(file: &FileHeap, special: u32) -> Option<u32>
    ensures { result ≡ active_process_in file.now special }
{
    let array = special_objects(file, special)?;
    let link = fields_named(file, 2, word_at(array, 3))?;
    let scheduler = fields_named(file, 2, word_at(link, 1))?;
    Some(word_at(scheduler, 1))
}

/// Whether a word names a live context.
fn is_live(file: &FileHeap, word: u32) -> bool
    ensures { result ≡ names file.now is_live_context word }
{
    match file.named(word) {
        Some(o) => o.class == CONTEXT_CLASS && natural(word_at(o.words, 1)).is_some(),
        None => false,
    }
}

/// Whether a word is nil or a process with a live context.
fn is_process_or_nil(file: &FileHeap, word: u32) -> bool
    ensures { result ≡ is_process_word file.now word }
{
    if file.is_nil(word) {
        return true;
    }
    match fields_named(file, 4, word) {
        Some(process) => is_live(file, word_at(process, 1)),
        None => false,
    }
}

/// Whether the special objects, the scheduler or the active process aren't as they should be.
#[tactic(auto, unfolding(cs_model::specs::ImageFault::is_bad_roots))]
pub(crate) fn has_bad_roots(file: &FileHeap, special: u32) -> bool
    ensures { result ≡ is_bad_roots file.now special }
{
    match active_process(file, special) {
        Some(process) => !is_process_or_nil(file, process),
        None => true,
    }
}
