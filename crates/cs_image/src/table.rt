//! The first objects of a file and its class table.

ghost use Rattle.std.specs.Prelude.{◌≡◌, ℕ, ◌<◌, ◌==◌, ◌&&◌, option_and_then, option_map, slice_get};
ghost use Rattle.std.specs.List.{list_all};
ghost use Rattle.cs_model.specs.ImageFile.{is_hidden, names};
ghost use Rattle.cs_model.specs.ImageFault.{begins_well, entry_in, has_entry, has_known_classes, has_object};
ghost use Rattle.cs_model.specs.ImageFault.{is_bad_table, is_class};
ghost use Rattle.cs_model.specs.ImageFault.{is_oddball, is_page, is_sound_entry, page_addresses, table_size, all_below};
ghost use Rattle.cs_model.specs.ImageFault.{unless_nil};
ghost use Rattle.cs_image.specs.Heap.{seen};

use crate::cut::word_at;
use crate::file::{FileHeap, FileObject};
use cs_classes::ENTRIES;

/// How many entries a page of it has.
const PAGE: u32 = 1024;

/// Whether an object may be nil, false or true.
fn is_oddball_at(file: &FileHeap, number: usize) -> bool
    ensures { result ≡ has_object file.now number is_oddball }
{
    match file.get(number) {
        Some(o) => o.class != 16 && o.format == 0,
        None => false,
    }
}

/// Whether there is a hidden object of this format.
fn is_hidden_at(file: &FileHeap, number: usize, format: u8) -> bool
    ensures { result ≡ has_object file.now number (λ o. is_hidden o && o.format == format) }
{
    match file.get(number) {
        Some(o) => o.class == 16 && o.format == format,
        None => false,
    }
}

/// Whether nil, false, true, a hidden object of words and the hidden root of the class table come first.
fn starts_well(file: &FileHeap) -> bool
    ensures { result ≡ begins_well file.now }
{
    is_oddball_at(file, 0)
        && is_oddball_at(file, 1)
        && is_oddball_at(file, 2)
        && is_hidden_at(file, 3, 10)
        && is_hidden_at(file, 4, 2)
}

/// The pages of the class table, as words.
fn pages(file: &FileHeap) -> &[u32]
    ensures { result.now ≡ page_addresses file.now }
{
    match file.get(4) {
        Some(root) => &root.words[..root.words.len().min(16)],
        None => &[],
    }
}

/// Whether a word is nil or a page.
fn is_page_or_nil(file: &FileHeap, word: u32) -> bool
    ensures { result ≡ is_page file.now word }
{
    if file.is_nil(word) {
        return true;
    }
    match file.named(word) {
        Some(o) => o.class == 16 && o.format == 2 && o.words.len() >= 1024,
        None => false,
    }
}

/// Whether all pages are as they should be.
fn are_pages(file: &FileHeap) -> bool
    ensures { result ≡ list_all (is_page file.now) (page_addresses file.now) }
{
    pages(file).iter().all(|word| is_page_or_nil(file, *word))
}

/// The word in the entry of an index, which is nil where there is no page.
#[tactic(auto, unfolding(cs_model::specs::ImageFault::entry_in))]
pub(crate) fn entry(file: &FileHeap, index: u32) -> u32
    ensures { result ≡ entry_in file.now index }
{
    match page(file, index / PAGE) {
        Some(page) => word_at(page.words, (index % PAGE) as usize),
        None => file.nil(),
    }
}

/// A page of the class table by its number.
fn page(file: &FileHeap, number: u32) -> Option<FileObject<'_>>
    ensures { option_map seen result
        ≡ option_and_then (unless_nil file.now) (slice_get (page_addresses file.now) number) }
{
    let pages = pages(file);
    if (number as usize) < pages.len() {
        file.unless_nil(pages[number as usize])
    } else {
        None
    }
}

/// Whether there is a class, or something that should be one, at an index.
pub(crate) fn is_filled(file: &FileHeap, index: u32) -> bool
    ensures { result ≡ has_entry file.now index }
{
    !file.is_nil(entry(file, index))
}

/// Whether an object is what the class of this index must be.
fn is_class_of(o: &FileObject<'_>, index: u32) -> bool
    ensures { result ≡ is_class index (seen o.now) }
{
    o.class != 16
        && o.format >= 1
        && o.format <= 5
        && o.class != 36
        && o.words.len() >= 3
        && o.hash == index
}

/// Whether the entry of an index is nil or a class.
fn is_sound(file: &FileHeap, index: u32) -> bool
    ensures { result ≡ is_sound_entry file.now index }
{
    let word = entry(file, index);
    if index == 3 || file.is_nil(word) {
        return true;
    }
    match file.named(word) {
        Some(o) => is_class_of(&o, index),
        None => false,
    }
}

/// Whether the classes that the machine knows by their indices are there, and the indices that stay free are.
fn knows_classes(file: &FileHeap) -> bool
    ensures { result ≡ has_known_classes file.now }
{
    let first = entry(file, 1);
    !is_filled(file, 0)
        && !is_filled(file, 16)
        && is_filled(file, 1)
        && is_filled(file, 2)
        && is_filled(file, 36)
        && is_filled(file, 37)
        && entry(file, 3) == first
        && has_hash_one(file, first)
}

/// Whether a word names an object of hash 1.
fn has_hash_one(file: &FileHeap, word: u32) -> bool
    ensures { result ≡ names file.now (λ o. o.hash == 1) word }
{
    match file.named(word) {
        Some(o) => o.hash == 1,
        None => false,
    }
}

/// Whether each entry is nil or a class.
fn are_sound(file: &FileHeap) -> bool
    ensures { result ≡ all_below table_size (is_sound_entry file.now) }
{
    for index in 0..ENTRIES {
        if !is_sound(file, index) {
            return false;
        }
    }
    true
}

/// Whether the first objects or the class table aren't as they should be.
#[tactic(auto, unfolding(cs_model::specs::ImageFault::is_bad_table))]
pub(crate) fn has_bad_table(file: &FileHeap) -> bool
    ensures { result ≡ is_bad_table file.now }
{
    !(starts_well(file) && are_pages(file) && knows_classes(file) && are_sound(file))
}
