//! References and class indices of a file's objects.

ghost use Rattle.std.specs.Prelude.{◌≡◌, ◌<◌, ◌≤◌, ◌+◌, ◌^◌, ◌&&◌, ◌||◌, not, nat_lt, IfSome, if◌then◌else◌, length};
ghost use Rattle.std.specs.Prelude.{find, option_map};
ghost use Rattle.std.specs.List.{enumerate_from};
ghost use Rattle.cs_model.specs.ImageFile.{is_visible};
ghost use Rattle.cs_model.specs.ImageFault.{bad_class, bad_ref, has_entry, is_lost, references};
ghost use Rattle.cs_image.specs.Heap.{seen};

use crate::file::{FileHeap, FileObject};
use crate::shape::{is_method, literals};
use crate::table::is_filled;

/// Whether a word should be the address of a visible object, and isn't.
fn is_lost_word(file: &FileHeap, word: u32) -> bool
    ensures { result ≡ is_lost file.now word }
{
    if word % 4 != 0 {
        return false;
    }
    match file.named(word) {
        Some(o) => o.class == 16,
        None => true,
    }
}

/// The place of the first lost one among these words, of which the first is at `place`.
fn lost_in(file: &FileHeap, place: u32, words: &[u32]) -> Option<u32>
    requires { place + length words.now < 2 ^ 30 }
    ensures small { IfSome result (λ at. at < 2 ^ 30) }
    ensures value { result ≡ option_map (λ e. e.0) (find (λ e. is_lost file.now e.1) (enumerate_from place words.now)) }
{
    for (i, word) in words.iter().enumerate() {
        if is_lost_word(file, *word) {
            return Some(place + i as u32);
        }
    }
    None
}

/// The place of the first lost word of an object.
fn lost_in_object(file: &FileHeap, o: &FileObject<'_>) -> Option<u32>
    requires { o.now.place + 2 + length o.now.words.now ≤ 2 ^ 27 }
    ensures small { IfSome result (λ at. at < 2 ^ 30) }
    ensures value { result ≡ option_map (λ e. e.0) (find (λ e. is_lost file.now e.1) (references (seen o.now))) }
{
    if o.format < 6 {
        return lost_in(file, o.place + 2, o.words);
    }
    if is_method(o.format) {
        return lost_in(file, o.place + 3, literals(o.words));
    }
    None
}

/// The place of the first lost word of an object, if that is visible.
fn lost_in_visible(file: &FileHeap, o: &FileObject<'_>) -> Option<u32>
    requires { o.now.place + 2 + length o.now.words.now ≤ 2 ^ 27 }
    ensures small { IfSome result (λ at. at < 2 ^ 30) }
    ensures value { result ≡ (if is_visible (seen o.now) then
        option_map (λ e. e.0) (find (λ e. is_lost file.now e.1) (references (seen o.now))) else None) }
{
    if o.class == 16 {
        None
    } else {
        lost_in_object(file, o)
    }
}

/// The place of the first word that should be the address of a visible object, and isn't.
pub(crate) fn bad_reference(file: &FileHeap) -> Option<u32>
    ensures small { IfSome result (λ at. at < 2 ^ 30) }
    ensures value { result ≡ bad_ref file.now }
{
    for number in 0..file.len() {
        let o = file.object(number);
        if let Some(place) = lost_in_visible(file, &o) {
            return Some(place);
        }
    }
    None
}

/// Whether an object is visible and has the class index of an immediate, or one that has no entry.
fn has_bad_class(file: &FileHeap, o: &FileObject<'_>) -> bool
    ensures { result ≡ (is_visible (seen o.now) && (nat_lt o.now.class 4 || not (has_entry file.now o.now.class))) }
{
    o.class != 16 && (o.class < 4 || !is_filled(file, o.class))
}

/// The place of the first visible object whose class index is that of an immediate or has no entry.
pub(crate) fn bad_class_place(file: &FileHeap) -> Option<u32>
    ensures small { IfSome result (λ at. at < 2 ^ 30) }
    ensures value { result ≡ bad_class file.now }
{
    for number in 0..file.len() {
        let o = file.object(number);
        if has_bad_class(file, &o) {
            return Some(o.place);
        }
    }
    None
}
