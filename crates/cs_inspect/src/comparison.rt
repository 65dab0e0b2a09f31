//! The first difference of two images, whose contexts may have other births.

ghost use Rattle.std.specs.Prelude.{◌≡◌, ◌≢◌, ◌+◌, ◌-◌, ◌*◌, ◌^◌, ◌<◌, ◌≤◌, ◌==◌, ◌&&◌, drop, false, length};
ghost use Rattle.std.specs.Prelude.{option_map, slice_index, take, true};
ghost use Rattle.std.specs.List.{AllPass};
ghost use Rattle.std.specs.FinMap.{get};
ghost use Rattle.cs_model.specs.Words.{bytes_of_words, unused_bytes as unused_bytes_of};
ghost use Rattle.cs_heap.specs.Format.{is_code, is_pointers};
ghost use Rattle.cs_heap.specs.Object.{class_at, format_at, is_object, slot_count_of, words_at};
ghost use Rattle.cs_model.specs.Canon.{first_difference as first_difference_of, same_head as same_head_of};
ghost use Rattle.cs_model.specs.Canon.{same_numbers, same_pc};
ghost use Rattle.cs_model.specs.Obj.{literal_count};
ghost use Rattle.cs_classes.specs.Meaning.{code_in, depth_in, method_header};
ghost use Rattle.cs_classes.specs.Meaning.{used_bytes};
ghost use Rattle.cs_classes.specs.Sound.{AreSoundObjects, IsWhole};
ghost use Rattle.cs_inspect.specs.Comparing.{address_number, class_numbers, difference_from, numbered_word};
ghost use Rattle.cs_inspect.specs.Comparing.{place_number};
ghost use Rattle.cs_inspect.specs.Comparing.{numbered_objects, ref_said, same_activations_of, same_class_numbers};
ghost use Rattle.cs_inspect.specs.Comparing.{same_contexts_of, same_entry, same_literals_of, same_methods_of};
ghost use Rattle.cs_inspect.specs.Comparing.{same_objects_of, same_places_of, same_pointers_of, same_slot_of};
ghost use Rattle.cs_inspect.specs.Comparing.{same_stacks_of, same_words_of, sort_at};
ghost use Rattle.cs_inspect.specs.Reading.{head_at};

use crate::line::{
    CLOSURE, CONTEXT_CLASS, CONTEXT_FIELDS, METHOD, METHODS_BEGIN, PC, POINTERS_END, RECEIVER,
    SENDER, STACKP, unused_bytes,
};
use cs_classes::{ENTRIES, Loaded, method_header};
use cs_heap::Heap;
use cs_word::{Kind, Oop};
use indexmap::IndexSet;

/// What the comparison of two images says.
#[derive(Clone, Copy, PartialEq, Eq, Debug)]
pub enum Sameness {
    /// They are the same.
    Same,
    /// They differ.
    Differ {
        /// The first place at which they do: 0 for what comes before the objects, and k for the k-th object.
        place: u32,
    },
}

/// An image, and the addresses of its objects in the order of their numbers.
#[derive(Drop)]
pub(crate) struct Numbered<'a> {
    pub(crate) image: &'a Loaded,
    pub(crate) addresses: &'a IndexSet<u32>,
}

/// What a word refers to. An object is said by its place in the order, and a link is read as 0.
#[derive(Clone, Copy, PartialEq, Eq)]
enum Reference {
    Small(i32),
    Character(u32),
    Object(Option<usize>),
}

/// The kinds of objects.
#[derive(Clone, Copy, PartialEq, Eq)]
enum Sort {
    Context,
    Pointers,
    Raw,
    Method,
}

/// What a word refers to.
fn reference_of(addresses: &IndexSet<u32>, word: Oop) -> Reference
    ensures { ref_said result ≡ numbered_word addresses.now.keys word.0 }
{
    match word.kind() {
        Kind::Small(value) => Reference::Small(value),
        Kind::Character(code) => Reference::Character(code),
        Kind::Object(address) => Reference::Object(addresses.get_index_of(&address)),
        Kind::Link(_) => Reference::Small(0),
    }
}

/// Whether slot `i` of two objects refers to the same.
fn same_slot(a: &Numbered, o: Oop, b: &Numbered, p: Oop, i: u32) -> bool
    requires first { i < slot_count_of a.now.image.now.heap.objects o.0 }
    requires second { i < slot_count_of b.now.image.now.heap.objects p.0 }
    ensures { result ≡ same_slot_of a.now.addresses.now.keys a.now.image.now.heap.objects o.0
        b.now.addresses.now.keys b.now.image.now.heap.objects p.0 i }
{
    reference_of(a.addresses, a.image.heap.slot(o, i))
        == reference_of(b.addresses, b.image.heap.slot(p, i))
}

/// Whether the slots of two objects from `from` to before `end` refer to the same.
fn same_slots(a: &Numbered, o: Oop, b: &Numbered, p: Oop, from: u32, end: u32) -> bool
    requires begun { from ≤ end }
    requires first { end ≤ slot_count_of a.now.image.now.heap.objects o.0 }
    requires second { end ≤ slot_count_of b.now.image.now.heap.objects p.0 }
    ensures { result ≡ same_words_of a.now.addresses.now.keys a.now.image.now.heap.objects o.0
        b.now.addresses.now.keys b.now.image.now.heap.objects p.0
        (take (end - from) (drop from (words_at a.now.image.now.heap.objects o.0)))
        (take (end - from) (drop from (words_at b.now.image.now.heap.objects p.0))) }
{
    for i in from..end {
        let same = same_slot(a, o, b, p, i);
        if !same {
            return false;
        }
    }
    true
}

/// Whether two objects have the same bytes from `from` to before `end`.
fn same_bytes(a: &Heap, o: Oop, b: &Heap, p: Oop, from: u32, end: u32) -> bool
    requires begun { from ≤ end }
    requires first { end ≤ 4 * slot_count_of a.now.objects o.0 }
    requires second { end ≤ 4 * slot_count_of b.now.objects p.0 }
    ensures { result ≡ same_numbers (take (end - from) (drop from (bytes_of_words (words_at a.now.objects o.0))))
        (take (end - from) (drop from (bytes_of_words (words_at b.now.objects p.0)))) }
{
    for i in from..end {
        if a.byte(o, i) != b.byte(p, i) {
            return false;
        }
    }
    true
}

/// Whether the headers of two objects say the same, the counts of slots apart.
fn same_head(a: &Heap, o: Oop, b: &Heap, p: Oop) -> bool
    requires first { is_object a.now.objects o.0 ≡ true }
    requires second { is_object b.now.objects p.0 ≡ true }
    ensures { result ≡ same_head_of (head_at a.now.objects o.0) (head_at b.now.objects p.0) }
{
    a.class_index(o) == b.class_index(p)
        && a.format(o) == b.format(p)
        && a.hash(o) == b.hash(p)
        && a.is_fixed(o) == b.is_fixed(p)
}

/// Whether two objects have as many slots, and these refer to the same.
fn same_all_slots(a: &Numbered, o: Oop, b: &Numbered, p: Oop) -> bool
    requires first { is_object a.now.image.now.heap.objects o.0 ≡ true }
    requires second { is_object b.now.image.now.heap.objects p.0 ≡ true }
    ensures { result ≡ same_words_of a.now.addresses.now.keys a.now.image.now.heap.objects o.0
        b.now.addresses.now.keys b.now.image.now.heap.objects p.0
        (words_at a.now.image.now.heap.objects o.0) (words_at b.now.image.now.heap.objects p.0) }
{
    let end = a.image.heap.slot_count(o);
    if end != b.image.heap.slot_count(p) {
        return false;
    }
    same_slots(a, o, b, p, 0, end)
}

/// Whether two pointer objects are the same.
fn same_pointers(a: &Numbered, o: Oop, b: &Numbered, p: Oop) -> bool
    requires first { is_object a.now.image.now.heap.objects o.0 ≡ true }
    requires second { is_object b.now.image.now.heap.objects p.0 ≡ true }
    ensures { result ≡ same_pointers_of a.now.addresses.now.keys a.now.image.now.heap.objects o.0
        b.now.addresses.now.keys b.now.image.now.heap.objects p.0 }
{
    same_head(&a.image.heap, o, &b.image.heap, p) && same_all_slots(a, o, b, p)
}

/// How many bytes an object of bytes or units has.
fn byte_count(heap: &Heap, o: Oop) -> u32
    requires sound { AreSoundObjects heap.now.objects }
    requires object { is_object heap.now.objects o.0 ≡ true }
    requires pointers { is_pointers (format_at heap.now.objects o.0) ≡ false }
    requires method { is_code (format_at heap.now.objects o.0) ≡ false }
    ensures value { result ≡ 4 * slot_count_of heap.now.objects o.0 - unused_bytes_of (format_at heap.now.objects o.0) }
    ensures within { result ≤ 4 * slot_count_of heap.now.objects o.0 }
{
    4 * heap.slot_count(o) - unused_bytes(heap.format(o))
}

/// Whether two objects of bytes or units have the same bytes.
fn same_all_bytes(a: &Heap, o: Oop, b: &Heap, p: Oop) -> bool
    requires first { AreSoundObjects a.now.objects }
    requires second { AreSoundObjects b.now.objects }
    requires object_first { is_object a.now.objects o.0 ≡ true }
    requires object_second { is_object b.now.objects p.0 ≡ true }
    requires pointers_first { is_pointers (format_at a.now.objects o.0) ≡ false }
    requires method_first { is_code (format_at a.now.objects o.0) ≡ false }
    requires pointers_second { is_pointers (format_at b.now.objects p.0) ≡ false }
    requires method_second { is_code (format_at b.now.objects p.0) ≡ false }
    ensures { result ≡ same_numbers (used_bytes (format_at a.now.objects o.0) (words_at a.now.objects o.0))
        (used_bytes (format_at b.now.objects p.0) (words_at b.now.objects p.0)) }
{
    let end = byte_count(a, o);
    if end != byte_count(b, p) {
        return false;
    }
    same_bytes(a, o, b, p, 0, end)
}

/// Whether two objects of bytes or units are the same.
fn same_raw(a: &Heap, o: Oop, b: &Heap, p: Oop) -> bool
    requires first { AreSoundObjects a.now.objects }
    requires second { AreSoundObjects b.now.objects }
    requires object_first { is_object a.now.objects o.0 ≡ true }
    requires object_second { is_object b.now.objects p.0 ≡ true }
    requires pointers_first { is_pointers (format_at a.now.objects o.0) ≡ false }
    requires method_first { is_code (format_at a.now.objects o.0) ≡ false }
    requires pointers_second { is_pointers (format_at b.now.objects p.0) ≡ false }
    requires method_second { is_code (format_at b.now.objects p.0) ≡ false }
    ensures { result ≡ (same_head_of (head_at a.now.objects o.0) (head_at b.now.objects p.0)
        && same_numbers (used_bytes (format_at a.now.objects o.0) (words_at a.now.objects o.0))
        (used_bytes (format_at b.now.objects p.0) (words_at b.now.objects p.0))) }
{
    same_head(a, o, b, p) && same_all_bytes(a, o, b, p)
}

/// Where the bytecodes of a method end, counted in bytes from its first slot.
fn code_end(heap: &Heap, o: Oop) -> u32
    requires sound { AreSoundObjects heap.now.objects }
    requires object { is_object heap.now.objects o.0 ≡ true }
    requires method { is_code (format_at heap.now.objects o.0) ≡ true }
    ensures value { result ≡ 4 * slot_count_of heap.now.objects o.0 - unused_bytes_of (format_at heap.now.objects o.0) }
    ensures within { result ≤ 4 * slot_count_of heap.now.objects o.0 }
{
    4 * heap.slot_count(o) - u32::from(heap.format(o) - METHODS_BEGIN)
}

/// The header of a method.
fn header_number(heap: &Heap, o: Oop) -> u32
    requires sound { AreSoundObjects heap.now.objects }
    requires object { is_object heap.now.objects o.0 ≡ true }
    requires method { is_code (format_at heap.now.objects o.0) ≡ true }
    ensures { result ≡ method_header (words_at heap.now.objects o.0) }
{
    method_header(heap, o).0
}

/// Where the bytecodes of a method begin, counted in slots.
fn code_start(heap: &Heap, o: Oop) -> u32
    requires sound { AreSoundObjects heap.now.objects }
    requires object { is_object heap.now.objects o.0 ≡ true }
    requires method { is_code (format_at heap.now.objects o.0) ≡ true }
    ensures value { result ≡ 1 + literal_count (method_header (words_at heap.now.objects o.0)) }
    ensures within { 4 * result ≤ 4 * slot_count_of heap.now.objects o.0
        - unused_bytes_of (format_at heap.now.objects o.0) }
{
    1 + method_header(heap, o).literals()
}

/// Whether two methods of one header have the same literals.
fn same_literals(a: &Numbered, o: Oop, b: &Numbered, p: Oop) -> bool
    requires first { AreSoundObjects a.now.image.now.heap.objects }
    requires second { AreSoundObjects b.now.image.now.heap.objects }
    requires object_first { is_object a.now.image.now.heap.objects o.0 ≡ true }
    requires object_second { is_object b.now.image.now.heap.objects p.0 ≡ true }
    requires method_first { is_code (format_at a.now.image.now.heap.objects o.0) ≡ true }
    requires method_second { is_code (format_at b.now.image.now.heap.objects p.0) ≡ true }
    requires header { method_header (words_at a.now.image.now.heap.objects o.0)
        ≡ method_header (words_at b.now.image.now.heap.objects p.0) }
    ensures { result ≡ same_literals_of a.now.addresses.now.keys a.now.image.now.heap.objects o.0
        b.now.addresses.now.keys b.now.image.now.heap.objects p.0 }
{
    same_slots(a, o, b, p, 1, code_start(&a.image.heap, o))
}

/// Whether two methods of one header have the same bytecodes.
fn same_code(a: &Heap, o: Oop, b: &Heap, p: Oop) -> bool
    requires first { AreSoundObjects a.now.objects }
    requires second { AreSoundObjects b.now.objects }
    requires object_first { is_object a.now.objects o.0 ≡ true }
    requires object_second { is_object b.now.objects p.0 ≡ true }
    requires method_first { is_code (format_at a.now.objects o.0) ≡ true }
    requires method_second { is_code (format_at b.now.objects p.0) ≡ true }
    requires header { method_header (words_at a.now.objects o.0) ≡ method_header (words_at b.now.objects p.0) }
    ensures { result ≡ same_numbers (used_bytes (format_at a.now.objects o.0) (code_in (words_at a.now.objects o.0)))
        (used_bytes (format_at b.now.objects p.0) (code_in (words_at b.now.objects p.0))) }
{
    let end = code_end(a, o);
    if end != code_end(b, p) {
        return false;
    }
    same_bytes(a, o, b, p, 4 * code_start(a, o), end)
}

/// Whether two methods are the same.
fn same_methods(a: &Numbered, o: Oop, b: &Numbered, p: Oop) -> bool
    requires first { AreSoundObjects a.now.image.now.heap.objects }
    requires second { AreSoundObjects b.now.image.now.heap.objects }
    requires object_first { is_object a.now.image.now.heap.objects o.0 ≡ true }
    requires object_second { is_object b.now.image.now.heap.objects p.0 ≡ true }
    requires method_first { is_code (format_at a.now.image.now.heap.objects o.0) ≡ true }
    requires method_second { is_code (format_at b.now.image.now.heap.objects p.0) ≡ true }
    ensures { result ≡ same_methods_of a.now.addresses.now.keys a.now.image.now.heap.objects o.0
        b.now.addresses.now.keys b.now.image.now.heap.objects p.0 }
{
    same_head(&a.image.heap, o, &b.image.heap, p)
        && header_number(&a.image.heap, o) == header_number(&b.image.heap, p)
        && same_literals(a, o, b, p)
        && same_code(&a.image.heap, o, &b.image.heap, p)
}

/// How many values the stack of a context holds.
fn depth(heap: &Heap, o: Oop) -> u32
    requires { 2 < slot_count_of heap.now.objects o.0 }
    ensures { result ≡ depth_in (words_at heap.now.objects o.0) }
{
    heap.slot(o, STACKP).natural().unwrap_or(0)
}

/// Whether two pcs are the same: numbers, or none.
fn same_pcs(pc: Option<u32>, other: Option<u32>) -> bool
    ensures { result ≡ same_pc pc other }
{
    match pc {
        Some(place) => match other {
            Some(other_place) => place == other_place,
            None => false,
        },
        None => other.is_none(),
    }
}

/// Whether two contexts stand at the same place: in the order of their slots, sender and pc.
fn same_places(a: &Numbered, o: Oop, b: &Numbered, p: Oop) -> bool
    requires first { 1 < slot_count_of a.now.image.now.heap.objects o.0 }
    requires second { 1 < slot_count_of b.now.image.now.heap.objects p.0 }
    ensures { result ≡ same_places_of a.now.addresses.now.keys a.now.image.now.heap.objects o.0
        b.now.addresses.now.keys b.now.image.now.heap.objects p.0 }
{
    same_slot(a, o, b, p, SENDER)
        && same_pcs(
            a.image.heap.slot(o, PC).natural(),
            b.image.heap.slot(p, PC).natural(),
        )
}

/// Whether two contexts are activations of the same: method, closure and receiver.
fn same_activations(a: &Numbered, o: Oop, b: &Numbered, p: Oop) -> bool
    requires first { 5 < slot_count_of a.now.image.now.heap.objects o.0 }
    requires second { 5 < slot_count_of b.now.image.now.heap.objects p.0 }
    ensures { result ≡ same_activations_of a.now.addresses.now.keys a.now.image.now.heap.objects o.0
        b.now.addresses.now.keys b.now.image.now.heap.objects p.0 }
{
    same_slot(a, o, b, p, METHOD)
        && same_slot(a, o, b, p, CLOSURE)
        && same_slot(a, o, b, p, RECEIVER)
}

/// Whether the stacks of two contexts hold the same.
fn same_stacks(a: &Numbered, o: Oop, b: &Numbered, p: Oop) -> bool
    requires first { 6 + depth_in (words_at a.now.image.now.heap.objects o.0)
        ≤ slot_count_of a.now.image.now.heap.objects o.0 }
    requires second { 6 + depth_in (words_at b.now.image.now.heap.objects p.0)
        ≤ slot_count_of b.now.image.now.heap.objects p.0 }
    requires fits { slot_count_of a.now.image.now.heap.objects o.0 < 2 ^ 32 }
    ensures { result ≡ same_stacks_of a.now.addresses.now.keys a.now.image.now.heap.objects o.0
        b.now.addresses.now.keys b.now.image.now.heap.objects p.0 }
{
    let held = depth(&a.image.heap, o);
    if held != depth(&b.image.heap, p) {
        return false;
    }
    same_slots(a, o, b, p, CONTEXT_FIELDS, CONTEXT_FIELDS + held)
}

/// Whether two contexts are the same.
fn same_contexts(a: &Numbered, o: Oop, b: &Numbered, p: Oop) -> bool
    requires first { AreSoundObjects a.now.image.now.heap.objects }
    requires second { AreSoundObjects b.now.image.now.heap.objects }
    requires object_first { is_object a.now.image.now.heap.objects o.0 ≡ true }
    requires object_second { is_object b.now.image.now.heap.objects p.0 ≡ true }
    requires context_first { (class_at a.now.image.now.heap.objects o.0 == 36) ≡ true }
    requires context_second { (class_at b.now.image.now.heap.objects p.0 == 36) ≡ true }
    ensures { result ≡ same_contexts_of a.now.addresses.now.keys a.now.image.now.heap.objects o.0
        b.now.addresses.now.keys b.now.image.now.heap.objects p.0 }
{
    let count = a.image.heap.slot_count(o);
    a.image.heap.hash(o) == b.image.heap.hash(p)
        && count == b.image.heap.slot_count(p)
        && same_places(a, o, b, p)
        && same_activations(a, o, b, p)
        && same_stacks(a, o, b, p)
}

/// The kind of an object.
fn sort_of(heap: &Heap, o: Oop) -> Sort
    requires { is_object heap.now.objects o.0 ≡ true }
    ensures { result ≡ sort_at heap.now.objects o.0 }
{
    if heap.class_index(o) == CONTEXT_CLASS {
        Sort::Context
    } else if heap.format(o) < POINTERS_END {
        Sort::Pointers
    } else if heap.format(o) < METHODS_BEGIN {
        Sort::Raw
    } else {
        Sort::Method
    }
}

/// Whether two kinds are the same.
fn same_sort(kind: Sort, other: Sort) -> bool
    ensures same { result ≡ true → kind ≡ other }
    ensures differs { result ≡ false → kind ≢ other }
{
    kind == other
}

/// Whether two objects are the same.
fn same_objects(a: &Numbered, o: Oop, b: &Numbered, p: Oop) -> bool
    requires first { AreSoundObjects a.now.image.now.heap.objects }
    requires second { AreSoundObjects b.now.image.now.heap.objects }
    requires object_first { is_object a.now.image.now.heap.objects o.0 ≡ true }
    requires object_second { is_object b.now.image.now.heap.objects p.0 ≡ true }
    ensures { result ≡ same_objects_of a.now.addresses.now.keys a.now.image.now.heap.objects o.0
        b.now.addresses.now.keys b.now.image.now.heap.objects p.0 }
{
    let kind = sort_of(&a.image.heap, o);
    let same = same_sort(kind, sort_of(&b.image.heap, p));
    if !same {
        return false;
    }
    match kind {
        Sort::Context => same_contexts(a, o, b, p),
        Sort::Pointers => same_pointers(a, o, b, p),
        Sort::Raw => same_raw(&a.image.heap, o, &b.image.heap, p),
        Sort::Method => same_methods(a, o, b, p),
    }
}

/// Whether the objects at a place of two orders are the same.
fn same_at(a: &Numbered, b: &Numbered, place: usize) -> bool
    requires first { AreSoundObjects a.now.image.now.heap.objects }
    requires second { AreSoundObjects b.now.image.now.heap.objects }
    requires objects_first { AllPass (is_object a.now.image.now.heap.objects) a.now.addresses.now.keys }
    requires objects_second { AllPass (is_object b.now.image.now.heap.objects) b.now.addresses.now.keys }
    requires within_first { place < length a.now.addresses.now.keys }
    requires within_second { place < length b.now.addresses.now.keys }
    ensures { result ≡ same_objects_of a.now.addresses.now.keys a.now.image.now.heap.objects
        (slice_index a.now.addresses.now.keys place)
        b.now.addresses.now.keys b.now.image.now.heap.objects (slice_index b.now.addresses.now.keys place) }
{
    let Some(o) = a.addresses.get_index(place).copied() else {
        return false;
    };
    let Some(p) = b.addresses.get_index(place).copied() else {
        return false;
    };
    same_objects(a, Oop(o), b, Oop(p))
}

/// The first place, counted from 1, at which the objects of two images differ, or at which one has no more of them.
fn first_difference(a: &Numbered, b: &Numbered) -> Option<usize>
    requires first { AreSoundObjects a.now.image.now.heap.objects }
    requires second { AreSoundObjects b.now.image.now.heap.objects }
    requires objects_first { AllPass (is_object a.now.image.now.heap.objects) a.now.addresses.now.keys }
    requires objects_second { AllPass (is_object b.now.image.now.heap.objects) b.now.addresses.now.keys }
    ensures { result ≡ first_difference_of 1 (numbered_objects a.now.addresses.now.keys a.now.image.now.heap.objects)
        (numbered_objects b.now.addresses.now.keys b.now.image.now.heap.objects) }
{
    let common = a.addresses.len().min(b.addresses.len());
    for place in 0..common {
        let same = same_at(a, b, place);
        if !same {
            return Some(place + 1);
        }
    }
    if a.addresses.len() == b.addresses.len() {
        None
    } else {
        Some(common + 1)
    }
}

/// Whether two places in the orders of two images are the same, or there are none.
fn same_numbers_of(place: Option<usize>, other: Option<usize>) -> bool
    ensures { result ≡ (place_number place == place_number other) }
{
    match place {
        Some(index) => match other {
            Some(other_index) => index == other_index,
            None => false,
        },
        None => other.is_none(),
    }
}

/// Whether the entries of an index in two class tables are the same.
fn same_class(a: &Numbered, b: &Numbered, index: u32) -> bool
    requires { index < 16384 }
    ensures { result ≡ same_entry
        (option_map (address_number a.now.addresses.now.keys) (get a.now.image.now.classes index))
        (option_map (address_number b.now.addresses.now.keys) (get b.now.image.now.classes index)) }
{
    match a.image.classes.entry(index) {
        Some(class) => match b.image.classes.entry(index) {
            Some(other) => same_numbers_of(
                a.addresses.get_index_of(&class.0),
                b.addresses.get_index_of(&other.0),
            ),
            None => false,
        },
        None => b.image.classes.entry(index).is_none(),
    }
}

/// Whether two class tables are the same.
fn same_classes(a: &Numbered, b: &Numbered) -> bool
    requires first { IsWhole a.now.image.now.heap.objects a.now.image.now.classes a.now.image.now.roots }
    requires second { IsWhole b.now.image.now.heap.objects b.now.image.now.classes b.now.image.now.roots }
    ensures { result ≡ same_class_numbers (class_numbers a.now.addresses.now.keys a.now.image.now.classes)
        (class_numbers b.now.addresses.now.keys b.now.image.now.classes) }
{
    for index in 0..ENTRIES {
        let same = same_class(a, b, index);
        if !same {
            return false;
        }
    }
    true
}

/// Whether two images are the same in what comes before the objects: the last hash that was given, the special-object
/// array and the class table.
fn same_start(a: &Numbered, b: &Numbered) -> bool
    requires first { IsWhole a.now.image.now.heap.objects a.now.image.now.classes a.now.image.now.roots }
    requires second { IsWhole b.now.image.now.heap.objects b.now.image.now.classes b.now.image.now.roots }
    ensures { result ≡ (a.now.image.now.roots.last_hash == b.now.image.now.roots.last_hash
        && address_number a.now.addresses.now.keys a.now.image.now.roots.special.0
        == address_number b.now.addresses.now.keys b.now.image.now.roots.special.0
        && same_class_numbers (class_numbers a.now.addresses.now.keys a.now.image.now.classes)
        (class_numbers b.now.addresses.now.keys b.now.image.now.classes)) }
{
    a.image.roots.last_hash == b.image.roots.last_hash
        && same_numbers_of(
            a.addresses.get_index_of(&a.image.roots.special.0),
            b.addresses.get_index_of(&b.image.roots.special.0),
        )
        && same_classes(a, b)
}

/// The first place at which two images differ.
pub(crate) fn difference(a: &Numbered, b: &Numbered) -> Option<usize>
    requires first { IsWhole a.now.image.now.heap.objects a.now.image.now.classes a.now.image.now.roots }
    requires second { IsWhole b.now.image.now.heap.objects b.now.image.now.classes b.now.image.now.roots }
    requires objects_first { AllPass (is_object a.now.image.now.heap.objects) a.now.addresses.now.keys }
    requires objects_second { AllPass (is_object b.now.image.now.heap.objects) b.now.addresses.now.keys }
    ensures { result ≡ difference_from
        (a.now.image.now.roots.last_hash == b.now.image.now.roots.last_hash
        && address_number a.now.addresses.now.keys a.now.image.now.roots.special.0
        == address_number b.now.addresses.now.keys b.now.image.now.roots.special.0
        && same_class_numbers (class_numbers a.now.addresses.now.keys a.now.image.now.classes)
        (class_numbers b.now.addresses.now.keys b.now.image.now.classes))
        (numbered_objects a.now.addresses.now.keys a.now.image.now.heap.objects)
        (numbered_objects b.now.addresses.now.keys b.now.image.now.heap.objects) }
{
    if same_start(a, b) {
        first_difference(a, b)
    } else {
        Some(0)
    }
}

/// A place as it is told. It fits, since no heap has more than 67,108,864 words.
pub(crate) fn told(heap: &Heap, place: usize) -> u32
    requires { place ≤ length heap.now.objects + 1 }
    ensures { result ≡ place }
{
    let used = heap.used_words();
    let limit = heap.limit_words();
    let fits = place <= used as usize + 1;
    prove!(fits);
    let limited = used <= limit;
    prove!(limited);
    place as u32
}
