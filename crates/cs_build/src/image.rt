//! The file of an image: a header of 64 bytes, and behind it the heap as 32-bit Spur lays it out.

ghost use Rattle.std.specs.Prelude.{◌≡◌, ◌∷◌, ◌++◌, ◌+◌, ◌-◌, ◌*◌, ◌/◌, ◌%◌, ◌^◌, ◌<◌, ◌≤◌, [], length, map, take};
ghost use Rattle.std.specs.Prelude.{drop, nat_le};
ghost use Rattle.std.specs.Prelude.{flat_map, min, replicate, slice_index, OnOk, IfOk};
ghost use Rattle.std.specs.List.{AllByRecursion};
ghost use Rattle.cs_model.specs.Words.{bytes_of_words};
ghost use Rattle.cs_model.specs.ImageFile.{u32_at};
ghost use Rattle.cs_model.specs.SavedFile.{body_size as body_size_of, overflow_words, words_before as words_before_of};
ghost use Rattle.cs_model.specs.SavedFile.{saved_size, saved_words, saved_bytes, saved_base, page_address, table_page};
ghost use Rattle.cs_model.specs.SavedFile.{free_lists, table_root, page_place};
ghost use Rattle.cs_build.specs.Laid.{laid_by, laid_slots, reference_by, ref_word, byte_words, laid_words, saved_by};
ghost use Rattle.cs_build.specs.Laid.{addresses_from, laid_addresses, page_of, table_pages, file_for, FitsRef};
ghost use Rattle.cs_build.specs.Laid.{FitsLaid};
ghost use Rattle.cs_build.specs.Wholes.{file_size};
ghost use Rattle.cs_build.specs.Laid.{FitsLayout, head_words, put_words};
ghost use Rattle.cs_build.specs.Laid.{root_words, root_word_of, all_header_words, laid_size, head_bits_of};
ghost use Rattle.cs_model.specs.SavedFile.{hidden_object, saved_heap};

use crate::object::{Object, Reference};
use cs_word::Header;
use std::alloc::{AllocError, Global};

/// The address of the heap's first word, which is that of nil.
const BASE: u32 = 65536;

/// How many words stand in front of the fourth visible object: nil, false and true, the free lists and the root of the
/// class table.
const WORDS_IN_FRONT: u64 = 34;

/// How many words the free lists and the root of the class table take.
const HIDDEN_WORDS: u64 = 22;

/// How many words a page of the class table takes, with its overflow word and header.
const PAGE_WORDS: u64 = 1028;

/// How many entries a page of the class table has.
pub(crate) const PAGE_ENTRIES: usize = 1024;

/// The most words of a heap in a file, which has 536,870,912 bytes at most, and 64 of them in front.
const MOST_WORDS: u64 = (536_870_912 - 64) / 4;

/// How many words stand before the header of an object with so many slots: from 255 on an overflow word of 64 bits.
fn words_before(slots: usize) -> u64
    ensures { result ≡ words_before_of slots }
{
    if slots >= 255 { 2 } else { 0 }
}

/// How many words the body of an object with so many slots has.
fn body_size(slots: usize) -> u64
    requires { slots < 2 ^ 63 + 2 ^ 62 }
    ensures { result ≡ body_size_of slots }
{
    2 * ((slots as u64 + 1) / 2).max(1)
}

/// How many words an object with so many slots takes.
fn object_size(slots: usize) -> u64
    requires { slots < 2 ^ 63 + 2 ^ 62 }
    ensures { result ≡ saved_size slots }
{
    words_before(slots) + 2 + body_size(slots)
}

/// How many slots an object takes.
fn slot_count(object: &Object) -> usize
    ensures { result ≡ laid_slots (laid_by object.now) }
{
    object.slots.len() + (object.bytes.len() + 3) / 4
}

/// The word of a slot.
fn word_of(addresses: &[u32], slot: Reference) -> u32
    requires { FitsRef (length addresses.now) (reference_by slot) }
    ensures { result ≡ ref_word addresses.now (reference_by slot) }
{
    match slot {
        Reference::Small(value) => (value.cast_unsigned() << 1) + 1,
        Reference::Character(code) => 4 * code + 2,
        Reference::Object(number) => addresses[number as usize],
    }
}

/// Appends a word, the lowest byte first.
fn put_word(out: &mut Vec<u8>, word: u32) -> Result<(), AllocError>
    ensures { OnOk result (out.new.items ≡ put_words out.old.items (word ∷ [])) }
{
    out.extend_from_slice(&word.to_le_bytes())
}

/// Appends the overflow word of an object with so many slots, if it has one.
fn put_overflow(out: &mut Vec<u8>, slots: usize) -> Result<(), AllocError>
    requires { slots < 2 ^ 32 }
    ensures { OnOk result (out.new.items ≡ put_words out.old.items (overflow_words slots)) }
{
    if slots < 255 {
        return Ok(());
    }
    put_word(out, slots as u32)?;
    put_word(out, 255 << 24)
}

/// The 64 bits of the header of an object with so many slots.
fn head_bits(class: u32, format: u8, hash: u32, slots: usize) -> u64
    requires class { class < 2 ^ 22 }
    requires format { format < 2 ^ 5 }
    requires hash { hash < 2 ^ 22 }
    ensures { result ≡ head_bits_of class format hash slots }
{
    let header = Header {
        class,
        format,
        hash,
        slots: slots.min(255) as u8,
        ..Header::read(0)
    };
    header.write()
}

/// Appends the words in front of an object's slots: from 255 slots on an overflow word, and the header.
fn put_head(
    out: &mut Vec<u8>,
    class: u32,
    format: u8,
    hash: u32,
    slots: usize,
) -> Result<(), AllocError>
    requires class { class < 2 ^ 22 }
    requires format { format < 2 ^ 5 }
    requires hash { hash < 2 ^ 22 }
    requires slots { slots < 2 ^ 32 }
    ensures { OnOk result (out.new.items ≡ put_words out.old.items (head_words class format hash slots)) }
{
    let bits = head_bits(class, format, hash, slots);
    put_overflow(out, slots)?;
    put_word(out, (bits % (1 << 32)) as u32)?;
    put_word(out, (bits >> 32) as u32)
}

/// Appends so many words of zero.
fn put_zeros(out: &mut Vec<u8>, count: u64) -> Result<(), AllocError>
    ensures { OnOk result (out.new.items ≡ put_words out.old.items (replicate count 0)) }
{
    for _ in 0..count {
        put_word(out, 0)?;
    }
    Ok(())
}

/// The byte at a place, and 0 past the end.
fn byte_at(bytes: &[u8], at: usize) -> u8
    ensures { result ≡ slice_index bytes.now at }
{
    if at < bytes.len() { bytes[at] } else { 0 }
}

/// The word of the four bytes from a place, with zeros past the end.
fn word_at(bytes: &[u8], at: usize) -> u32
    requires { at < 2 ^ 63 }
    ensures { result ≡ u32_at bytes.now at }
{
    u32::from_le_bytes([
        byte_at(bytes, at),
        byte_at(bytes, at + 1),
        byte_at(bytes, at + 2),
        byte_at(bytes, at + 3),
    ])
}

/// Appends bytes as words, with zeros behind the last.
fn put_bytes(out: &mut Vec<u8>, bytes: &[u8]) -> Result<(), AllocError>
    requires { length bytes.now < 2 ^ 62 }
    ensures { OnOk result (out.new.items ≡ put_words out.old.items (byte_words bytes.now)) }
{
    for i in 0..(bytes.len() + 3) / 4 {
        put_word(out, word_at(bytes, 4 * i))?;
    }
    Ok(())
}

/// Appends slots.
fn put_slots(out: &mut Vec<u8>, addresses: &[u32], slots: &[Reference]) -> Result<(), AllocError>
    requires { AllByRecursion (FitsRef (length addresses.now)) (map reference_by slots.now) }
    ensures { OnOk result (out.new.items ≡
        put_words out.old.items (map (ref_word addresses.now) (map reference_by slots.now))) }
{
    for slot in slots {
        put_word(out, word_of(addresses, *slot))?;
    }
    Ok(())
}

/// Appends a visible object.
fn put_object(out: &mut Vec<u8>, addresses: &[u32], object: &Object) -> Result<(), AllocError>
    requires { FitsLaid (length addresses.now) (laid_by object.now) }
    ensures { OnOk result (out.new.items ≡
        put_words out.old.items (saved_words (saved_by addresses.now (laid_by object.now)))) }
{
    let slots = slot_count(object);
    put_head(out, object.class, object.format, object.hash, slots)?;
    put_slots(out, addresses, &object.slots)?;
    put_bytes(out, &object.bytes)?;
    put_zeros(out, body_size(slots) - slots as u64)
}

/// Appends visible objects.
fn put_objects(out: &mut Vec<u8>, addresses: &[u32], objects: &[Object]) -> Result<(), AllocError>
    requires { AllByRecursion (FitsLaid (length addresses.now)) (map laid_by objects.now) }
    ensures { OnOk result (out.new.items ≡ put_words out.old.items (flat_map saved_words
        (map (saved_by addresses.now) (map laid_by objects.now)))) }
{
    for object in objects {
        put_object(out, addresses, object)?;
    }
    Ok(())
}

/// The word of entry `page` of the root of a class table of so many pages, behind visible objects of so many words.
fn root_word(words: u64, pages: usize, page: usize) -> u32
    requires { saved_base + 4 * (words + 22 + 1028 * pages) ≤ 2 ^ 32 }
    ensures { result ≡ root_word_of words pages page }
{
    if page < pages {
        let place = words + HIDDEN_WORDS + PAGE_WORDS * page as u64;
        (u64::from(BASE) + 4 * (place + 2)) as u32
    } else {
        BASE
    }
}

/// Appends the free lists, which are left empty.
fn put_free_lists(out: &mut Vec<u8>) -> Result<(), AllocError>
    ensures { OnOk result (out.new.items ≡ put_words out.old.items (saved_words free_lists)) }
{
    put_head(out, 16, 10, 0, 2)?;
    put_zeros(out, 2)
}

/// Appends the root of a class table of so many pages, behind visible objects of so many words.
fn put_root(out: &mut Vec<u8>, words: u64, pages: usize) -> Result<(), AllocError>
    requires { saved_base + 4 * (words + 22 + 1028 * pages) ≤ 2 ^ 32 }
    ensures { OnOk result (out.new.items ≡
        put_words out.old.items (saved_words (hidden_object 2 (root_words words pages)))) }
{
    put_head(out, 16, 2, 0, 16)?;
    for page in 0..16 {
        put_word(out, root_word(words, pages, page))?;
    }
    Ok(())
}

/// Appends a page of the class table, whose entries are the numbers of classes.
fn put_page(out: &mut Vec<u8>, addresses: &[u32], entries: &[u32]) -> Result<(), AllocError>
    requires long { length entries.now ≡ 1024 }
    requires held { AllByRecursion (λ number. number < length addresses.now) entries.now }
    ensures { OnOk result (out.new.items ≡ put_words out.old.items
        (saved_words (table_page (map (slice_index addresses.now) entries.now)))) }
{
    put_head(out, 16, 2, 0, PAGE_ENTRIES)?;
    for number in entries {
        put_word(out, addresses[*number as usize])?;
    }
    Ok(())
}

/// Appends the pages of the class table.
fn put_pages(out: &mut Vec<u8>, addresses: &[u32], table: &[u32]) -> Result<(), AllocError>
    requires held { AllByRecursion (λ number. number < length addresses.now) table.now }
    ensures { OnOk result (out.new.items ≡ put_words out.old.items
        (flat_map saved_words (map table_page (table_pages addresses.now table.now)))) }
{
    for page in 0..table.len() / PAGE_ENTRIES {
        let from = PAGE_ENTRIES * page;
        put_page(out, addresses, &table[from..from + PAGE_ENTRIES])?;
    }
    Ok(())
}

/// Appends the 64 bytes of the header.
fn put_header(out: &mut Vec<u8>, heap_bytes: u32, special: u32) -> Result<(), AllocError>
    ensures { OnOk result (out.new.items ≡ put_words out.old.items (all_header_words heap_bytes special)) }
{
    put_word(out, 6521)?;
    put_word(out, 64)?;
    put_word(out, heap_bytes)?;
    put_word(out, BASE)?;
    put_word(out, special)?;
    put_zeros(out, 11)
}

/// Appends the addresses of visible objects of which the first begins at a place, and answers the place behind them.
/// Places count words.
fn put_addresses(
    addresses: &mut Vec<u32>,
    place: u64,
    objects: &[Object],
) -> Result<u64, AllocError>
    requires { saved_base + 4 * (place + laid_size (map laid_by objects.now)) ≤ 2 ^ 32 }
    ensures addresses { OnOk result (addresses.new.items ≡
        addresses.old.items ++ addresses_from place (map laid_by objects.now)) }
    ensures behind { IfOk result (λ behind. behind ≡ place + laid_size (map laid_by objects.now)) }
{
    let mut place = place;
    for object in objects {
        let slots = slot_count(object);
        addresses.push((u64::from(BASE) + 4 * (place + words_before(slots))) as u32)?;
        place += object_size(slots);
    }
    Ok(place)
}

/// Whether there is room in a file for objects and a class table of so many pages.
pub(crate) fn has_room(objects: &[Object], pages: usize) -> bool
    requires { pages < 2 ^ 53 }
    ensures { result ≡ nat_le (file_size (map laid_by objects.now) pages) 536870912 }
{
    let mut words = HIDDEN_WORDS + PAGE_WORDS * pages as u64;
    for object in objects {
        if words > MOST_WORDS {
            return false;
        }
        words += object_size(slot_count(object));
    }
    words <= MOST_WORDS
}

/// Appends the heap: nil, false and true, the hidden objects, the other visible objects and the pages.
fn put_heap(
    out: &mut Vec<u8>,
    addresses: &[u32],
    words: u64,
    objects: &[Object],
    table: &[u32],
) -> Result<(), AllocError>
    requires fits { FitsLayout (map laid_by objects.now) table.now }
    requires addresses { addresses.now ≡ laid_addresses (map laid_by objects.now) }
    requires words { words ≡ laid_size (map laid_by objects.now) }
    ensures { OnOk result (out.new.items ≡
        put_words out.old.items (saved_heap (file_for (map laid_by objects.now) table.now))) }
{
    put_objects(out, addresses, &objects[..3])?;
    put_free_lists(out)?;
    put_root(out, words, table.len() / PAGE_ENTRIES)?;
    put_objects(out, addresses, &objects[3..])?;
    put_pages(out, addresses, table)
}

/// The file of the objects, of which the first are nil, false, true and the array of special objects. The class table
/// has whole pages of 1,024 entries, 16 pages at most: the numbers of the classes by their indices, and 0, the number
/// of nil, where there is none. No birth section stands behind the heap.
pub(crate) fn image_of(
    alloc: Global,
    objects: &[Object],
    table: &[u32],
) -> Result<Vec<u8>, AllocError>
    requires { FitsLayout (map laid_by objects.now) table.now }
    ensures { IfOk result (λ out. out.items ≡ saved_bytes (file_for (map laid_by objects.now) table.now)) }
{
    let mut addresses = Vec::with_capacity(alloc, objects.len())?;
    put_addresses(&mut addresses, 0, &objects[..3])?;
    let behind = put_addresses(&mut addresses, WORDS_IN_FRONT, &objects[3..])?;
    let heap_words = behind + PAGE_WORDS * (table.len() / PAGE_ENTRIES) as u64;
    let mut out = Vec::with_capacity(alloc, 64 + 4 * heap_words as usize)?;
    put_header(&mut out, 4 * heap_words as u32, addresses[3])?;
    put_heap(&mut out, &addresses, behind - HIDDEN_WORDS, objects, table)?;
    Ok(out)
}
