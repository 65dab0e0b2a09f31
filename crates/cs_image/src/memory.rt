//! The objects of a file in memory.

ghost use Rattle.std.specs.Prelude.{◌≡◌, ◌<◌, ◌≤◌, ◌+◌, ◌*◌, ◌^◌, ◌==◌, ◌&&◌, not, [], ◌∷◌, ◌++◌, true, false, IfOk};
ghost use Rattle.std.specs.Prelude.{length, take};
ghost use Rattle.std.specs.FinSet.{empty};
ghost use Rattle.cs_model.specs.ImageFile.{last_hash_in, special_address, visible};
ghost use Rattle.cs_model.specs.ImageFault as fault;
ghost use Rattle.cs_model.specs.ImageFault.{is_body, is_over, table_size};
ghost use Rattle.cs_model.specs.Image.{when};
ghost use Rattle.cs_model.specs.Obj.{context_class};
ghost use Rattle.cs_model.specs.Words.{plain_format as plain_format_of};
ghost use Rattle.cs_heap.specs.Object.{base, header_address, size, used};
ghost use Rattle.cs_image.specs.Answer.{Tells};
ghost use Rattle.cs_image.specs.Heap.{seen};
ghost use Rattle.cs_image.specs.Loading.{address_named, addresses_of, classes_at, loaded, loaded_from};
ghost use Rattle.cs_image.specs.Loading.{loaded_word as loaded_word_of, refers, translated as translated_of};

use crate::cut::word_at;
use crate::error::ImageError;
use crate::file::{FileHeap, FileObject};
use crate::header::u32_at;
use crate::shape::{is_method, literal_count};
use crate::table::entry;
use cs_classes::{CONTEXT_CLASS, Classes, ENTRIES, Roots};
use cs_heap::{BASE, Heap};
use cs_word::Oop;
use std::alloc::{AllocError, Global};

/// The format in memory: weak objects become ones with named and indexed fields, and ephemerons ones with named fields.
fn plain_format(format: u8) -> u8
    ensures { result ≡ plain_format_of format }
{
    match format {
        4 => 3,
        5 => 1,
        _ => format,
    }
}

/// For each object of a file its address in memory, and 0 for a hidden one.
pub(crate) fn addresses(
    alloc: Global,
    file: &FileHeap,
    limit_words: u32,
) -> Result<Vec<u32>, ImageError>
    requires { limit_words ≤ 67108864 }
    ensures { Tells (when (is_over file.now limit_words) fault.OverLimit)
        (λ addresses. addresses.items ≡ addresses_of file.now.objects 0) result }
{
    let mut addresses = Vec::new(alloc);
    let mut used = 0u64;
    for number in 0..file.len() {
        let o = file.object(number);
        if o.class == 16 {
            addresses.push(0)?;
        } else {
            let slots = o.words.len() as u32;
            addresses.push(address_behind(used as u32, slots))?;
            used += cs_heap::size(slots);
            if used > u64::from(limit_words) {
                return Err(ImageError::OverLimit);
            }
        }
    }
    Ok(addresses)
}

/// The address of an object of so many slots that comes behind so many words.
fn address_behind(used: u32, slots: u32) -> u32
    requires { used ≤ 67108864 }
    ensures { result ≡ header_address (base + 4 * used) slots }
{
    let at = BASE + 4 * used;
    if slots < 255 { at } else { at + 8 }
}

/// The address in memory of the object that a word of the file names, and 0 where it names none.
#[tactic(auto, unfolding(crate::specs::Loading::address_named))]
fn address(file: &FileHeap, addresses: &[u32], word: u32) -> u32
    requires { addresses.now ≡ addresses_of file.now.objects 0 }
    ensures { result ≡ address_named file.now word }
{
    match file.number_named(word) {
        Some(number) => word_at(addresses, number),
        None => 0,
    }
}

/// The word of memory for a word of the file that may name an object.
fn translated(file: &FileHeap, addresses: &[u32], word: u32) -> u32
    requires { addresses.now ≡ addresses_of file.now.objects 0 }
    ensures { result ≡ translated_of file.now word }
{
    if word % 4 == 0 {
        address(file, addresses, word)
    } else {
        word
    }
}

/// Whether slot `i` may name an object: each of a pointer object, and a method's literals.
fn is_reference(format: u8, words: &[u32], i: usize) -> bool
    ensures { result ≡ refers format words.now i }
{
    format < 6 || is_method(format) && 1 <= i && i <= literal_count(words)
}

/// The word of memory for slot `i` of an object of the file.
#[tactic(auto, unfolding(crate::specs::Loading::loaded_word))]
fn loaded_word(file: &FileHeap, addresses: &[u32], o: &FileObject<'_>, i: usize) -> u32
    requires addresses { addresses.now ≡ addresses_of file.now.objects 0 }
    requires index { i < length o.now.words.now }
    ensures { result ≡ loaded_word_of file.now o.now.format o.now.words.now i }
{
    let word = o.words[i];
    if is_reference(o.format, o.words, i) {
        translated(file, addresses, word)
    } else {
        word
    }
}

/// Whether an object of the file is read-only in memory: no context is.
fn is_fixed(o: &FileObject<'_>) -> bool
    ensures { result ≡ (o.now.fixed && not (o.now.class == context_class)) }
{
    o.fixed && o.class != CONTEXT_CLASS
}

/// Adds an object of the file with its hash and its slots, read-only where its header says so and it is no context.
fn load_object(heap: &mut Heap, file: &FileHeap, addresses: &[u32], o: &FileObject<'_>, birth: u64)
    requires addresses { addresses.now ≡ addresses_of file.now.objects 0 }
    requires class { o.now.class < 2 ^ 22 }
    requires hash { o.now.hash < 2 ^ 22 }
    requires well_formed { is_body o.now.format o.now.words.now ≡ true }
    requires long { length o.now.words.now ≤ 2 ^ 27 }
    requires room { used heap.old.objects + size (length o.now.words.now) ≤ heap.old.limit }
    requires unwatched { heap.old.watched ≡ empty }
    ensures limit { heap.new.limit ≡ heap.old.limit }
    ensures watched { heap.new.watched ≡ empty }
    ensures dirty { heap.new.dirty ≡ heap.old.dirty }
    ensures objects { heap.new.objects ≡ heap.old.objects ++ loaded file.now birth (seen o.now) ∷ [] }
{
    let slots = o.words.len() as u32;
    let Ok(at) = heap.allocate(o.class, plain_format(o.format), slots, birth) else {
        unreachable!()
    };
    heap.set_hash(at, o.hash);
    heap.set_fixed(at, is_fixed(o));
    for i in 0..o.words.len() {
        heap.set_slot(at, i as u32, Oop(loaded_word(file, addresses, o, i)));
    }
}

/// The visible objects of a file in a heap of so many words, with these births.
pub(crate) fn load_objects(
    alloc: Global,
    file: &FileHeap,
    addresses: &[u32],
    births: &[u64],
    limit_words: u32,
) -> Result<Heap, AllocError>
    requires least { 4096 ≤ limit_words }
    requires most { limit_words ≤ 67108864 }
    requires addresses { addresses.now ≡ addresses_of file.now.objects 0 }
    requires births { length births.now ≡ length (visible file.now) }
    requires room { is_over file.now limit_words ≡ false }
    ensures limit { IfOk result (λ heap. heap.limit ≡ limit_words) }
    ensures unwatched { IfOk result (λ heap. heap.watched ≡ empty) }
    ensures clean { IfOk result (λ heap. heap.dirty ≡ false) }
    ensures objects { IfOk result (λ heap. heap.objects ≡ loaded_from file.now births.now 0 (visible file.now)) }
{
    let mut heap = Heap::new(alloc, limit_words)?;
    let mut count = 0;
    for number in 0..file.len() {
        let o = file.object(number);
        if o.class != 16 {
            load_object(&mut heap, file, addresses, &o, births[count]);
            count += 1;
        }
    }
    Ok(heap)
}

/// The class table of a file with the addresses in memory.
pub(crate) fn load_classes(
    alloc: Global,
    file: &FileHeap,
    addresses: &[u32],
) -> Result<Classes, AllocError>
    requires { addresses.now ≡ addresses_of file.now.objects 0 }
    ensures { IfOk result (λ classes. classes ≡ classes_at file.now table_size) }
{
    let mut classes = Classes::new(alloc)?;
    for index in 0..ENTRIES {
        let word = entry(file, index);
        if !file.is_nil(word) {
            classes.set_entry(index, Oop(address(file, addresses, word)));
        }
    }
    Ok(classes)
}

/// What an image keeps beside its objects and classes.
pub(crate) fn load_roots(bytes: &[u8], file: &FileHeap, addresses: &[u32], next_birth: u64) -> Roots
    requires long { 64 ≤ length bytes.now }
    requires addresses { addresses.now ≡ addresses_of file.now.objects 0 }
    ensures special { result.special.0 ≡ address_named file.now (special_address bytes.now) }
    ensures hash { result.last_hash ≡ last_hash_in bytes.now }
    ensures next { result.next_birth ≡ next_birth }
    ensures header { result.header ≡ take 64 bytes.now }
{
    let mut header = [0; 64];
    header.copy_from_slice(&bytes[..64]);
    Roots {
        special: Oop(address(file, addresses, u32_at(bytes, 16))),
        last_hash: u32_at(bytes, 20) % (1 << 22),
        next_birth,
        header,
    }
}
