//! What is read of the heap by its words alone.
ghost use Rattle.std.specs.Prelude.{◌≡◌, ◌<◌, ◌≤◌, ◌+◌, ◌*◌, ◌-◌, ◌&&◌, IsSome, IsTrue, Some, nat_le, is_some, true};
ghost use Rattle.std.specs.Prelude.{◌==◌, ◌^◌, ◌∷◌, [], ℕ, take, unwrap_or};
ghost use Rattle.cs_word.specs.Word.{natural_of_word};
ghost use Rattle.cs_model.specs.Words.{unused_bytes};
ghost use Rattle.cs_heap.specs.Format.{is_code};
ghost use Rattle.cs_heap.specs.Object.{format_at, is_object, next_of, slot_count_of, slot_of};
ghost use Rattle.cs_classes.specs.Sound.{is_method_address, is_reference, has_slots};
ghost use Rattle.cs_model.specs.Decode.{decode_at, len_of};
ghost use Rattle.cs_model.specs.Obj.{literal_count};
ghost use Rattle.cs_acts.specs.Reading.{byte_before, further_bytes, word_class, is_read_only_at};
ghost use Rattle.cs_acts.specs.Storing.{target_at};

use crate::StoreTarget;
use cs_classes::{CONTEXT_CLASS, method_header};
use cs_heap::Heap;
use cs_word::{Kind, Oop};

/// The formats below this one have pointers in their slots.
const POINTERS_END: u8 = 6;

/// The class index of what a word names: 1 of a SmallInteger, 2 of a Character, and for an object that in its header.
#[tactic(auto, unfolding(cs_classes::specs::Sound::is_reference, crate::specs::Reading::word_class))]
pub(crate) fn class_index(heap: &Heap, o: Oop) -> u32
    requires { is_reference heap.now.objects o.0 ≡ true }
    ensures { result ≡ word_class heap.now.objects o.0 }
{
    match o.kind() {
        Kind::Small(_) => 1,
        Kind::Character(_) => 2,
        Kind::Object(_) => heap.class_index(o),
        Kind::Link(_) => 0,
    }
}

/// Whether a word is the address of a method.
pub(crate) fn is_method(heap: &Heap, o: Oop) -> bool
    ensures { result ≡ is_method_address heap.now.objects o.0 }
{
    heap.is_object(o) && (24..28).contains(&heap.format(o))
}

/// Whether a word is the address of a read-only object.
pub(crate) fn is_read_only(heap: &Heap, o: Oop) -> bool
    ensures { result ≡ is_read_only_at heap.now.objects o.0 }
{
    heap.is_object(o) && heap.is_fixed(o)
}

/// Whether a word, which names something, is the address of a pointer object, which no context is, with at least so
/// many slots. The object's header is read once.
pub(crate) fn has_slots(heap: &Heap, o: Oop, least: u32) -> bool
    requires { is_reference heap.now.objects o.0 ≡ true }
    ensures { result ≡ has_slots heap.now.objects least o.0 }
{
    if !is_address(heap, o) {
        return false;
    }
    let header = heap.header(o);
    header.class != CONTEXT_CLASS && header.format < POINTERS_END && heap.slot_count(o) >= least
}

/// Whether a word, which names something, is the address of an object: its low bits tell it then.
fn is_address(heap: &Heap, o: Oop) -> bool
    requires { is_reference heap.now.objects o.0 ≡ true }
    ensures { result ≡ is_object heap.now.objects o.0 }
{
    o.0 % 8 == 0
}

/// What a store into slot `i` of what a word is the address of meets.
pub(crate) fn store_target(heap: &Heap, o: Oop, i: u32) -> StoreTarget
    ensures { result ≡ target_at heap.now.objects o.0 i }
{
    if !heap.is_object(o) {
        return StoreTarget::Missing;
    }
    let header = heap.header(o);
    let is_pointers = header.class != CONTEXT_CLASS && header.format < POINTERS_END;
    if !is_pointers || i >= heap.slot_count(o) {
        StoreTarget::Missing
    } else if header.is_read_only() {
        StoreTarget::ReadOnly
    } else {
        StoreTarget::Writable
    }
}

/// How many literals a method's header says.
pub(crate) fn count_of_literals(heap: &Heap, method: Oop) -> u32
    requires { 0 < slot_count_of heap.now.objects method.0 }
    ensures { result ≡ literal_count (unwrap_or (natural_of_word (slot_of heap.now.objects method.0 0)) 0) }
{
    method_header(heap, method).literals()
}

/// The object behind another one that isn't the last.
pub(crate) fn behind(heap: &Heap, o: Oop) -> Oop
    requires object { IsTrue (is_object heap.now.objects o.0) }
    requires more { IsSome (next_of heap.now.objects o.0) }
    ensures { next_of heap.now.objects o.0 ≡ Some result.0 }
{
    let Some(next) = heap.next(o) else {
        unreachable!();
    };
    next
}

/// How many bytes a method has, its header and literals included.
pub(crate) fn byte_count(heap: &Heap, method: Oop) -> u32
    requires object { IsTrue (is_object heap.now.objects method.0) }
    requires slots { 0 < slot_count_of heap.now.objects method.0 }
    requires format { IsTrue (is_code (format_at heap.now.objects method.0)) }
    ensures value { result ≡ 4 * slot_count_of heap.now.objects method.0 - unused_bytes
        (format_at heap.now.objects method.0) }
    ensures most { result ≤ 268435456 }
{
    4 * heap.slot_count(method) - (u32::from(heap.format(method)) - 24)
}

/// Whether a pc is neither before the first nor behind the last.
pub(crate) fn is_between(first: u32, last: u32, pc: u64) -> bool
    ensures value { result ≡ (nat_le first pc && nat_le pc last) }
    ensures below { IsTrue result → pc ≤ last }
{
    u64::from(first) <= pc && pc <= u64::from(last)
}

/// Byte `i` of an object, where it is before the end; else 0.
pub(crate) fn byte_before(heap: &Heap, o: Oop, i: u32, end: u32) -> u8
    requires { end ≤ 4 * slot_count_of heap.now.objects o.0 }
    ensures { result ≡ byte_before heap.now.objects o.0 i end }
{
    if i < end { heap.byte(o, i) } else { 0 }
}

/// The bytes of an instruction behind its first one; those that it hasn't mean nothing.
#[derive(Clone, Copy)]
pub(crate) struct Further {
    pub(crate) second: u8,
    pub(crate) third: u8,
    pub(crate) fourth: u8,
}

/// The bytes behind place `at`, where the byte `code` stands. They aren't read where it is a whole instruction.
pub(crate) fn further_bytes(heap: &Heap, method: Oop, at: u32, end: u32, code: u8) -> Further
    requires within { end ≤ 4 * slot_count_of heap.now.objects method.0 }
    requires fits { at + 3 < 2 ^ 32 }
    ensures { (n : ℕ) → decode_at (take n (code ∷ result.second ∷ result.third ∷ result.fourth ∷ [])) 0
        ≡ decode_at (take n (code ∷ further_bytes heap.now.objects method.0 at end)) 0 }
{
    if is_whole(code) {
        return Further {
            second: 0,
            third: 0,
            fourth: 0,
        };
    }
    Further {
        second: byte_before(heap, method, at + 1, end),
        third: byte_before(heap, method, at + 2, end),
        fourth: byte_before(heap, method, at + 3, end),
    }
}

/// Whether a byte is a whole instruction, where it begins one.
fn is_whole(code: u8) -> bool
    ensures { result ≡ (len_of code == 1) }
{
    if code < 128 {
        true
    } else if code < 144 {
        (135..138).contains(&code)
    } else {
        !(160..176).contains(&code)
    }
}
