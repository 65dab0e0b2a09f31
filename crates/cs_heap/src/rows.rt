//! The words, births and marks of the heap: how one object is added to them and found in them
//! again.
#![tactic(auto)]

ghost use Rattle.std.specs.Prelude.{◌≡◌, ℕ, ◌+◌, ◌*◌, ◌-◌, ◌/◌, ◌%◌, ◌<◌, ◌≤◌, ◌^◌, ◌++◌, option_map, length};
ghost use Rattle.std.specs.Prelude.{replicate, vec_len, vec_capacity};
ghost use Rattle.cs_model.specs.Words.{byte_in as byte_of_word};
ghost use Rattle.cs_word.specs.Header.{header_bits, IsWritable};
ghost use Rattle.cs_heap.specs.Object.{body_units as body_units_of, new_slot as new_slot_of};
ghost use Rattle.cs_heap.specs.Object.{size, units, units_before as units_before_of, with_byte_in as word_with_byte};
ghost use Rattle.cs_heap.specs.Layout.{address_from, count_in, unit_header, marked, overflow, row, unit_in};
ghost use Rattle.cs_heap.specs.Layout.{with_header};

use crate::BASE;
use cs_word::{Header, Oop};

/// The units that stand before the header of an object of so many slots.
pub(crate) fn units_before(slots: u32) -> u32
    ensures { result ≡ units_before_of slots }
{
    if slots >= 255 { 1 } else { 0 }
}

/// The units that stand behind it.
pub(crate) fn body_units(slots: u32) -> u32
    ensures { result ≡ body_units_of slots }
{
    slots.div_ceil(2).max(1)
}

/// What a new slot of an object of this format holds.
pub(crate) fn new_slot(format: u8) -> u32
    ensures { result ≡ new_slot_of format }
{
    if format < 6 { BASE } else { 0 }
}

/// The unit that begins at an address, if one does.
pub(crate) fn unit_at(o: Oop) -> Option<usize>
    ensures { result ≡ unit_in o.0 }
{
    if o.0 >= BASE && o.0 % 8 == 0 {
        Some(unit_of(o))
    } else {
        None
    }
}

/// The unit of an address.
pub(crate) fn unit_of(o: Oop) -> usize
    requires { 65536 ≤ o.0 }
    ensures { result ≡ (o.0 - 65536) / 8 }
{
    ((o.0 - BASE) / 8) as usize
}

/// The address of a unit.
pub(crate) fn address(unit: usize) -> Oop
    requires { unit < 2 ^ 28 }
    ensures { result.0 ≡ 65536 + 8 * unit }
{
    Oop(BASE + 8 * unit as u32)
}

/// Where slot `i` of an object stands in the words.
pub(crate) fn slot_place(o: Oop, i: u32) -> usize
    requires { 65536 ≤ o.0 }
    ensures { result ≡ 2 * ((o.0 - 65536) / 8) + 2 + i }
{
    2 * unit_of(o) + 2 + i as usize
}

/// The header in a unit.
pub(crate) fn header_at(words: &[u32], unit: usize) -> Header
    requires { 2 * unit + 1 < length words.now }
    ensures { result ≡ unit_header words.now (2 * unit) }
{
    let low = words[2 * unit];
    let high = words[2 * unit + 1];
    Header::read((u64::from(high) << 32) + u64::from(low))
}

/// The two words of a header, the lower half first.
fn header_words(header: Header) -> (u32, u32)
    requires { IsWritable header }
    ensures low { result.0 ≡ header_bits header % 2 ^ 32 }
    ensures high { result.1 ≡ header_bits header / 2 ^ 32 }
{
    let bits = header.write();
    ((bits & 0xffff_ffff) as u32, (bits >> 32) as u32)
}

/// Writes a header to a unit.
pub(crate) fn set_header(words: &mut Vec<u32>, unit: usize, header: Header)
    requires unit { 2 * unit + 1 < vec_len words.old }
    requires header { IsWritable header }
    ensures items { words.new.items ≡ with_header words.old.items unit header }
    ensures capacity { vec_capacity words.old ≤ vec_capacity words.new }
{
    let (low, high) = header_words(header);
    words[2 * unit] = low;
    words[2 * unit + 1] = high;
}

/// The slot count of the object whose header is in a unit.
pub(crate) fn slot_count_at(words: &[u32], unit: usize) -> u32
    requires within { 2 * unit + 1 < length words.now }
    requires before { (unit_header words.now (2 * unit)).slots ≡ 255 → 0 < unit }
    ensures { result ≡ count_in words.now unit }
{
    let slots = header_at(words, unit).slots;
    if slots == 255 {
        words[2 * unit - 2]
    } else {
        u32::from(slots)
    }
}

/// The address of the object whose first word is in a unit; None behind the last object.
pub(crate) fn object_from(marks: &[u8], unit: usize) -> Option<Oop>
    requires { length marks.now < 2 ^ 28 }
    ensures { option_map (λ o. o.0) result ≡ address_from marks.now unit }
{
    if unit >= marks.len() {
        None
    } else if marks[unit] == 0 {
        Some(address(unit + 1))
    } else {
        Some(address(unit))
    }
}

/// Adds `n` times a value.
fn fill<T: Copy>(row: &mut Vec<T>, n: usize, value: T)
    requires { vec_len row.old + n ≤ vec_capacity row.old }
    ensures items { row.new.items ≡ row.old.items ++ replicate n value }
    ensures len { vec_len row.new ≡ vec_len row.old + n }
    ensures capacity { vec_capacity row.old ≤ vec_capacity row.new }
{
    let len = row.len();
    let Ok(()) = row.resize(len + n, value) else {
        unreachable!()
    };
}

/// Adds what stands before the header of an object of so many slots.
fn push_overflow(words: &mut Vec<u32>, slots: u32)
    requires { vec_len words.old + 2 * units_before_of slots ≤ vec_capacity words.old }
    ensures items { words.new.items ≡ words.old.items ++ overflow slots }
    ensures len { vec_len words.new ≡ vec_len words.old + 2 * units_before_of slots }
    ensures capacity { vec_capacity words.old ≤ vec_capacity words.new }
{
    if units_before(slots) > 0 {
        fill(words, 1, slots);
        fill(words, 1, 255 << 24);
    }
}

/// Adds the words of an object whose slots all hold one value.
pub(crate) fn push_object(words: &mut Vec<u32>, header: Header, slots: u32, value: u32)
    requires header { IsWritable header }
    requires room { vec_len words.old + size slots ≤ vec_capacity words.old }
    ensures items { words.new.items ≡ words.old.items ++ row (header_bits header) (replicate slots value) }
    ensures capacity { vec_capacity words.old ≤ vec_capacity words.new }
{
    let (low, high) = header_words(header);
    push_overflow(words, slots);
    fill(words, 1, low);
    fill(words, 1, high);
    fill(words, slots as usize, value);
    fill(words, 2 * body_units(slots) as usize - slots as usize, 0);
}

/// Adds the units of an object of so many slots, with a value at its header.
pub(crate) fn push_marked<T: Copy>(row: &mut Vec<T>, slots: u32, value: T, blank: T)
    requires { vec_len row.old + units slots ≤ vec_capacity row.old }
    ensures items { row.new.items ≡ row.old.items ++ marked blank value slots }
    ensures capacity { vec_capacity row.old ≤ vec_capacity row.new }
{
    fill(row, units_before(slots) as usize, blank);
    fill(row, 1, value);
    fill(row, body_units(slots) as usize, blank);
}

/// Byte `j` of a word, counted from the lowest.
pub(crate) fn byte_in(word: u32, j: u32) -> u8
    requires { j < 4 }
    ensures { result ≡ byte_of_word word j }
{
    word.to_le_bytes()[j as usize]
}

/// A word with its byte `j` replaced.
pub(crate) fn with_byte_in(word: u32, j: u32, byte: u8) -> u32
    requires { j < 4 }
    ensures { result ≡ word_with_byte word j byte }
{
    let mut bytes = word.to_le_bytes();
    bytes[j as usize] = byte;
    u32::from_le_bytes(bytes)
}
