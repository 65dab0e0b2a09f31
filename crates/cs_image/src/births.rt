//! The births of a file's objects.

ghost use Rattle.std.specs.Prelude.{◌≡◌, ◌≤◌, ◌<◌, ◌+◌, ◌*◌, ◌^◌, ◌||◌, ◌==◌, not, nat_lt, nat_le, None, true, IfOk};
ghost use Rattle.std.specs.Prelude.{length};
ghost use Rattle.std.specs.List.{list_any, range_with_len};
ghost use Rattle.std.specs.List.Sorted.{IsNonDecreasing};
ghost use Rattle.cs_model.specs.Image.{when};
ghost use Rattle.cs_model.specs.ImageFault as fault;
ghost use Rattle.cs_model.specs.ImageFault.{has_repeats as has_repeats_in, is_bad_births};
ghost use Rattle.cs_model.specs.ImageFile.{birth_count, births_in, has_births, heap_size, next_birth_in, u64s_at};
ghost use Rattle.cs_model.specs.ImageFile.{visible};
ghost use Rattle.cs_image.specs.Answer.{Tells, header_fault};

use crate::error::ImageError;
use crate::file::FileHeap;
use crate::header::{goes_on, u32_at, u64_at};
use byteorder::{ByteOrder, LittleEndian};
use std::alloc::{AllocError, Global};

/// The births of the visible objects of a file, in order, and the next birth.
#[derive(Drop)]
pub(crate) struct Births {
    pub(crate) births: Vec<u64>,
    pub(crate) next: u64,
}

/// The greatest next birth that an image may have.
const MOST: u64 = 1 << 62;

/// How many objects of a file are visible.
pub(crate) fn visible_count(file: &FileHeap) -> usize
    ensures { result ≡ length (visible file.now) }
{
    let mut count = 0;
    for number in 0..file.len() {
        let o = file.object(number);
        if o.class != 16 {
            count += 1;
        }
    }
    count
}

/// The births of so many visible objects: those of the birth section, and without one their places in the order.
#[tactic(auto, unfolding(cs_model::specs::ImageFile::births_in, cs_model::specs::ImageFault::is_bad_births))]
pub(crate) fn read_births(alloc: Global, bytes: &[u8], count: usize) -> Result<Births, ImageError>
    requires { header_fault bytes.now ≡ None }
    ensures { Tells (when (is_bad_births bytes.now count) fault.BadBirths)
        (λ b. (b.births.items ≡ births_in bytes.now count) × (b.next ≡ next_birth_in bytes.now count)) result }
{
    if !goes_on(bytes) {
        let births = places(alloc, count)?;
        return Ok(births);
    }
    let births = section(alloc, bytes)?;
    let sound = are_sound(alloc, &births, count)?;
    if sound {
        Ok(births)
    } else {
        Err(ImageError::BadBirths)
    }
}

/// So many births by place, counted from 0.
fn places(alloc: Global, count: usize) -> Result<Births, AllocError>
    ensures births { IfOk result (λ b. b.births.items ≡ range_with_len 0 count) }
    ensures next { IfOk result (λ b. b.next ≡ count) }
{
    let mut births = Vec::new(alloc);
    for place in 0..count {
        births.push(place as u64)?;
    }
    Ok(Births {
        births,
        next: count as u64,
    })
}

/// The birth section of a file: the next birth, a count and so many births.
fn section(alloc: Global, bytes: &[u8]) -> Result<Births, AllocError>
    requires header { header_fault bytes.now ≡ None }
    requires stands { has_births bytes.now ≡ true }
    ensures births { IfOk result (λ b. b.births.items ≡ u64s_at (birth_count bytes.now) bytes.now
        (80 + heap_size bytes.now)) }
    ensures count { IfOk result (λ b. length b.births.items ≡ birth_count bytes.now) }
    ensures next { IfOk result (λ b. b.next ≡ next_birth_in bytes.now 0) }
{
    let from = 64 + u32_at(bytes, 8) as usize;
    let numbers = &bytes[from + 16..];
    let mut births = vec![in alloc; 0u64; numbers.len() / 8]?;
    LittleEndian::read_u64_into(numbers, &mut births);
    Ok(Births {
        births,
        next: u64_at(bytes, from),
    })
}

/// Whether each of so many visible objects has a birth of its own below the next one, and that isn't too great.
fn are_sound(alloc: Global, births: &Births, count: usize) -> Result<bool, AllocError>
    ensures { IfOk result (λ sound. sound ≡ not (not (length births.now.births.items == count)
        || has_repeats_in births.now.births.items
        || list_any (λ birth. nat_le births.now.next birth) births.now.births.items
        || nat_lt (2 ^ 62) births.now.next)) }
{
    let repeats = has_repeats(alloc, &births.births)?;
    let is_bad = births.births.len() != count
        || repeats
        || reaches(&births.births, births.next)
        || births.next > MOST;
    Ok(!is_bad)
}

/// Whether one of these births isn't below the next one.
fn reaches(births: &[u64], next: u64) -> bool
    ensures { result ≡ list_any (λ birth. nat_le next birth) births.now }
{
    births.iter().any(|birth| next <= *birth)
}

/// Whether one of these numbers stands there twice.
fn has_repeats(alloc: Global, numbers: &[u64]) -> Result<bool, AllocError>
    ensures { IfOk result (λ repeats. repeats ≡ has_repeats_in numbers.now) }
{
    let mut sorted = numbers.to_vec(alloc)?;
    sorted.sort_unstable();
    let repeats = repeats_in_order(&sorted);
    Ok(repeats)
}

/// Whether one of these numbers, which don't fall, stands there twice: then it has an equal neighbour.
fn repeats_in_order(numbers: &[u64]) -> bool
    requires { IsNonDecreasing numbers.now }
    ensures { result ≡ has_repeats_in numbers.now }
{
    for i in 1..numbers.len() {
        if numbers[i - 1] == numbers[i] {
            return true;
        }
    }
    false
}
