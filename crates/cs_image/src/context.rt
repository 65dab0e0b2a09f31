//! The contexts of a file.

ghost use Rattle.std.specs.Prelude.{◌≡◌, ◌<◌, ◌≤◌, ◌+◌, ◌-◌, ◌^◌, ◌==◌, ◌||◌, ◌&&◌, not, IfSome, length};
ghost use Rattle.cs_model.specs.ImageFile.{is_nil_word, is_visible, names};
ghost use Rattle.cs_model.specs.ImageFault.{bad_context, is_file_context, is_file_method, is_pc_of};
ghost use Rattle.cs_model.specs.ImageFault.{is_sound_context, is_stackp};
ghost use Rattle.cs_image.specs.Heap.{seen};

use crate::cut::word_at;
use crate::file::{FileHeap, FileObject};
use crate::shape::{self, is_pc, natural};
use cs_classes::CONTEXT_CLASS;

/// Whether a sender is nil or a context.
fn is_sender(file: &FileHeap, word: u32) -> bool
    ensures { result ≡ (is_nil_word file.now word || names file.now is_file_context word) }
{
    if file.is_nil(word) {
        return true;
    }
    match file.named(word) {
        Some(o) => o.class == CONTEXT_CLASS,
        None => false,
    }
}

/// Whether a pc is nil, or a SmallInteger that lies in the method.
fn is_pc_or_nil(file: &FileHeap, word: u32, method: u32) -> bool
    ensures { result ≡ (is_nil_word file.now word || names file.now (is_pc_of word) method) }
{
    if file.is_nil(word) {
        return true;
    }
    match file.named(method) {
        Some(o) => is_pc_in(&o, word),
        None => false,
    }
}

/// Whether a word is a SmallInteger that lies in this method.
fn is_pc_in(o: &FileObject<'_>, word: u32) -> bool
    requires { length o.now.words.now ≤ 2 ^ 27 }
    ensures { result ≡ is_pc_of word (seen o.now) }
{
    match natural(word) {
        Some(pc) => shape::is_method(o.format) && is_pc(o.format, o.words, pc),
        None => false,
    }
}

/// Whether a stackp is nil, or a SmallInteger up to the context's size.
fn is_stackp_or_nil(file: &FileHeap, word: u32, size: usize) -> bool
    ensures { result ≡ (is_nil_word file.now word || is_stackp size word) }
{
    if file.is_nil(word) {
        return true;
    }
    match natural(word) {
        Some(depth) => depth as usize <= size,
        None => false,
    }
}

/// Whether a context's method is nil or a method.
fn is_method_or_nil(file: &FileHeap, word: u32) -> bool
    ensures { result ≡ (is_nil_word file.now word || names file.now is_file_method word) }
{
    if file.is_nil(word) {
        return true;
    }
    match file.named(word) {
        Some(o) => shape::is_method(o.format),
        None => false,
    }
}

/// Whether a context's closure is nil or of class index 37.
fn is_closure_or_nil(file: &FileHeap, word: u32) -> bool
    ensures { result ≡ (is_nil_word file.now word || names file.now (λ c. c.class == 37) word) }
{
    if file.is_nil(word) {
        return true;
    }
    match file.named(word) {
        Some(o) => o.class == 37,
        None => false,
    }
}

/// Whether an object of class index 36 is what a context is.
fn is_sound(file: &FileHeap, o: &FileObject<'_>) -> bool
    ensures { result ≡ is_sound_context file.now (seen o.now) }
{
    let words = o.words;
    o.format == 3
        && (words.len() == 22 || words.len() == 62)
        && is_sender(file, word_at(words, 0))
        && is_pc_or_nil(file, word_at(words, 1), word_at(words, 3))
        && is_stackp_or_nil(file, word_at(words, 2), words.len() - 6)
        && is_method_or_nil(file, word_at(words, 3))
        && is_closure_or_nil(file, word_at(words, 4))
}

/// Whether an object has class index 36 and isn't what a context is.
fn is_bad(file: &FileHeap, o: &FileObject<'_>) -> bool
    ensures { result ≡ (is_visible (seen o.now) && (is_file_context (seen o.now)
        && not (is_sound_context file.now (seen o.now)))) }
{
    o.class == CONTEXT_CLASS && !is_sound(file, o)
}

/// The place of the first object of class index 36 that isn't what a context is.
pub(crate) fn bad_context_place(file: &FileHeap) -> Option<u32>
    ensures small { IfSome result (λ at. at < 2 ^ 30) }
    ensures value { result ≡ bad_context file.now }
{
    for number in 0..file.len() {
        let o = file.object(number);
        if is_bad(file, &o) {
            return Some(o.place);
        }
    }
    None
}
