//! The faults of a file, in their order: each check tells one.

ghost use Rattle.std.specs.Prelude.{◌≡◌, ◌≤◌, length, ⊤};
ghost use Rattle.cs_model.specs.Image.{at_word, when};
ghost use Rattle.cs_model.specs.ImageFault as fault;
ghost use Rattle.cs_model.specs.ImageFault.{bad_class, bad_context, bad_ref, is_bad_format, is_bad_header_size};
ghost use Rattle.cs_model.specs.ImageFault.{is_bad_length, is_bad_profile, is_bad_roots, is_bad_table, is_short};
ghost use Rattle.cs_model.specs.ImageFault.{is_long_file};
ghost use Rattle.cs_image.specs.Answer.{Tells, header_fault, objects_fault};

use crate::context::bad_context_place;
use crate::error::ImageError;
use crate::file::FileHeap;
use crate::header::{has_bad_length, has_bad_profile, u32_at};
use crate::reference::{bad_class_place, bad_reference};
use crate::roots::has_bad_roots;
use crate::table::has_bad_table;

/// Looks for the first fault of the header.
pub(crate) fn check_header(bytes: &[u8]) -> Result<(), ImageError>
    ensures { Tells (header_fault bytes.now) (λ _. ⊤) result }
{
    check_most(bytes)?;
    check_least(bytes)?;
    check_format(bytes)?;
    check_header_size(bytes)?;
    check_profile(bytes)?;
    check_length(bytes)?;
    Ok(())
}

/// A file has at most 536,870,912 bytes.
fn check_most(bytes: &[u8]) -> Result<(), ImageError>
    ensures { Tells (when (is_long_file bytes.now) fault.TooLong) (λ _. ⊤) result }
{
    if bytes.len() > 536_870_912 {
        return Err(ImageError::TooLong);
    }
    Ok(())
}

/// A file has at least the 64 bytes of its header.
fn check_least(bytes: &[u8]) -> Result<(), ImageError>
    ensures { Tells (when (is_short bytes.now) fault.Short) (λ _. ⊤) result }
{
    if bytes.len() < 64 {
        return Err(ImageError::Short);
    }
    Ok(())
}

/// The number at place 0 is that of the format.
fn check_format(bytes: &[u8]) -> Result<(), ImageError>
    requires { 64 ≤ length bytes.now }
    ensures { Tells (when (is_bad_format bytes.now) fault.BadFormat) (λ _. ⊤) result }
{
    if u32_at(bytes, 0) != 6521 {
        return Err(ImageError::BadFormat);
    }
    Ok(())
}

/// The number at place 4 is the size of the header.
fn check_header_size(bytes: &[u8]) -> Result<(), ImageError>
    requires { 64 ≤ length bytes.now }
    ensures { Tells (when (is_bad_header_size bytes.now) fault.BadHeaderSize) (λ _. ⊤) result }
{
    if u32_at(bytes, 4) != 64 {
        return Err(ImageError::BadHeaderSize);
    }
    Ok(())
}

/// In profile 2 the number of stack pages is one of a machine, or 0.
fn check_profile(bytes: &[u8]) -> Result<(), ImageError>
    requires { 64 ≤ length bytes.now }
    ensures { Tells (when (is_bad_profile bytes.now) fault.BadProfile) (λ _. ⊤) result }
{
    if has_bad_profile(bytes) {
        return Err(ImageError::BadProfile);
    }
    Ok(())
}

/// The sizes that the header says fit one another and the file.
fn check_length(bytes: &[u8]) -> Result<(), ImageError>
    requires long { 64 ≤ length bytes.now }
    requires short { length bytes.now ≤ 536870912 }
    ensures { Tells (when (is_bad_length bytes.now) fault.BadLength) (λ _. ⊤) result }
{
    if has_bad_length(bytes) {
        return Err(ImageError::BadLength);
    }
    Ok(())
}

/// Looks for the first fault of objects that are whole and have room.
pub(crate) fn check_objects(file: &FileHeap, special: u32) -> Result<(), ImageError>
    ensures { Tells (objects_fault file.now special) (λ _. ⊤) result }
{
    check_table(file)?;
    check_references(file)?;
    check_class_indices(file)?;
    check_contexts(file)?;
    check_roots(file, special)?;
    Ok(())
}

/// The first objects and the class table are as they should be.
fn check_table(file: &FileHeap) -> Result<(), ImageError>
    ensures { Tells (when (is_bad_table file.now) fault.BadTable) (λ _. ⊤) result }
{
    if has_bad_table(file) {
        return Err(ImageError::BadTable);
    }
    Ok(())
}

/// Each word that should name an object does.
fn check_references(file: &FileHeap) -> Result<(), ImageError>
    ensures { Tells (at_word fault.BadRef (bad_ref file.now)) (λ _. ⊤) result }
{
    if let Some(place) = bad_reference(file) {
        return Err(ImageError::BadRef { at: 4 * place });
    }
    Ok(())
}

/// Each object's class index has an entry, and isn't that of an immediate.
fn check_class_indices(file: &FileHeap) -> Result<(), ImageError>
    ensures { Tells (at_word fault.BadClass (bad_class file.now)) (λ _. ⊤) result }
{
    if let Some(place) = bad_class_place(file) {
        return Err(ImageError::BadClass { at: 4 * place });
    }
    Ok(())
}

/// Each object of class index 36 is what a context is.
fn check_contexts(file: &FileHeap) -> Result<(), ImageError>
    ensures { Tells (at_word fault.BadContext (bad_context file.now)) (λ _. ⊤) result }
{
    if let Some(place) = bad_context_place(file) {
        return Err(ImageError::BadContext { at: 4 * place });
    }
    Ok(())
}

/// The special objects, the scheduler and the active process are as they should be.
fn check_roots(file: &FileHeap, special: u32) -> Result<(), ImageError>
    ensures { Tells (when (is_bad_roots file.now special) fault.BadRoots) (λ _. ⊤) result }
{
    if has_bad_roots(file, special) {
        return Err(ImageError::BadRoots);
    }
    Ok(())
}
