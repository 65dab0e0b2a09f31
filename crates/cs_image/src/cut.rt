//! Cutting the heap of a file into its objects.

ghost use Rattle.std.specs.Prelude.{◌≡◌, ◌<◌, ◌≤◌, ◌+◌, ◌*◌, ◌^◌, IfSome, length, option_map, slice_index, is_none};
ghost use Rattle.std.specs.Prelude.{max};
ghost use Rattle.cs_model.specs.ImageFile.{bits_at as bits_of, end_at as end_of, object_from};
ghost use Rattle.cs_model.specs.ImageFile.{object_within as object_within_of};
ghost use Rattle.std.specs.Prelude.{filter};
ghost use Rattle.cs_model.specs.ImageFile.{cut_of, stands};
ghost use Rattle.cs_model.specs.ImageFault.{bad_object};
ghost use Rattle.cs_model.specs.ImageFault as fault;
ghost use Rattle.cs_model.specs.Image.{at_word};
ghost use Rattle.cs_image.specs.Heap.{placed_object, is_faulty};
ghost use Rattle.cs_image.specs.Answer.{Tells};

use crate::error::ImageError;
use crate::file::{FileHeap, Placed};
use crate::shape::is_body;
use bitflags::Flags as _;
use cs_word::{Flags, Header};
use std::alloc::Global;

/// The word at a place, and 0 past the end.
pub(crate) fn word_at(words: &[u32], at: usize) -> u32
    ensures { result ≡ slice_index words.now at }
{
    if at < words.len() { words[at] } else { 0 }
}

/// The 64 bits at a place.
fn bits_at(words: &[u32], at: u32) -> u64
    ensures { result ≡ bits_of words.now at }
{
    let at = at as usize;
    u64::from(word_at(words, at)) + (u64::from(word_at(words, at + 1)) << 32)
}

/// The place behind an object of so many slots whose header is at `place`.
fn end_at(place: u32, slots: u64) -> u64
    requires { slots < 2 ^ 56 }
    ensures { result ≡ end_of place slots }
{
    u64::from(place) + 2 + 2 * ((slots + 1) / 2).max(1)
}

/// The object of so many slots whose header is at `place`; None exactly where it doesn't end within the heap.
fn object_within(words: &[u32], first: u32, place: u32, slots: u64) -> Option<Placed>
    requires size { length words.now ≤ 2 ^ 27 }
    requires slots { slots < 2 ^ 56 }
    ensures value { option_map (placed_object words.now) result ≡ object_within_of words.now first place slots }
    ensures class { IfSome result (λ o. o.class < 2 ^ 22) }
    ensures hash { IfSome result (λ o. o.hash < 2 ^ 22) }
    ensures within { IfSome result (λ o. end_of o.place o.slots ≤ length words.now) }
    ensures header { IfSome result (λ o. o.place ≡ place) }
{
    if end_at(place, slots) > words.len() as u64 {
        return None;
    }
    let header = Header::read(bits_at(words, place));
    Some(Placed {
        first,
        place,
        class: header.class,
        format: header.format,
        hash: header.hash,
        fixed: header.flags.contains(Flags::IS_IMMUTABLE),
        slots: slots as u32,
    })
}

/// The slots of an object.
pub(crate) fn slots_of<'a>(words: &'a [u32], o: &Placed) -> &'a [u32]
    requires { o.now.place + 2 + o.now.slots ≤ length words.now }
    ensures { result.now ≡ (placed_object words.now o.now).words }
{
    let from = o.place as usize + 2;
    &words[from..from + o.slots as usize]
}

/// The object whose first word is at `first`; None exactly where no object is whole there.
#[tactic(auto, unfolding(cs_model::specs::ImageFile::object_from))]
fn object_at(words: &[u32], first: u32) -> Option<Placed>
    requires size { length words.now ≤ 2 ^ 27 }
    requires first { first < length words.now }
    ensures value { option_map (placed_object words.now) result ≡ object_from words.now first }
    ensures class { IfSome result (λ o. o.class < 2 ^ 22) }
    ensures hash { IfSome result (λ o. o.hash < 2 ^ 22) }
    ensures within { IfSome result (λ o. end_of o.place o.slots ≤ length words.now) }
    ensures behind { IfSome result (λ o. first ≤ o.place) }
{
    let bits = bits_at(words, first);
    let count = bits >> 56;
    if count != 255 {
        return object_within(words, first, first, count);
    }
    if bits_at(words, first + 2) >> 56 != 255 {
        return None;
    }
    object_within(words, first, first + 2, bits % (1 << 56))
}

/// The object whose first word is at `first`; None exactly where no object is whole there, or where one that isn't
/// skipped isn't well formed.
fn sound_object_at(words: &[u32], first: u32) -> Option<Placed>
    requires size { length words.now ≤ 2 ^ 27 }
    requires first { first < length words.now }
    ensures value { IfSome result (λ o. Some (placed_object words.now o) ≡ object_from words.now first) }
    ensures class { IfSome result (λ o. o.class < 2 ^ 22) }
    ensures hash { IfSome result (λ o. o.hash < 2 ^ 22) }
    ensures fault { is_none result ≡ is_faulty (object_from words.now first) }
    ensures within { IfSome result (λ o. end_of o.place o.slots ≤ length words.now) }
    ensures behind { IfSome result (λ o. first ≤ o.place) }
{
    let o = object_at(words, first)?;
    if o.class != 0 && !is_body(o.format, slots_of(words, &o)) {
        return None;
    }
    Some(o)
}

/// The objects of a heap that aren't skipped.
pub(crate) fn cut(alloc: Global, base: u32, words: Vec<u32>) -> Result<FileHeap, ImageError>
    requires size { length words.items ≤ 2 ^ 27 }
    requires fits { base + 4 * length words.items ≤ 2 ^ 32 }
    ensures { Tells (at_word fault.BadObject (bad_object (cut_of words.items)))
        (λ file. file ≡ record { base = base; objects = filter stands (cut_of words.items).objects }) result }
{
    let mut starts = vec![in alloc; 0u32; words.len()]?;
    let mut objects = Vec::new(alloc);
    let mut at = 0;
    while (at as usize) < words.len() {
        let Some(o) = sound_object_at(&words, at) else {
            return Err(ImageError::BadObject { at: 4 * at });
        };
        if o.class != 0 {
            starts[o.place as usize] = objects.len() as u32 + 1;
            objects.push(o)?;
        }
        at = end_at(o.place, u64::from(o.slots)) as u32;
    }
    Ok(FileHeap {
        base,
        words,
        objects,
        starts,
    })
}
