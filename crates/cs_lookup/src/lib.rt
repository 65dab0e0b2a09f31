//! Method lookup: which method an instance of a class understands a selector by.
//!
//! A class is a pointer object whose first slots are its superclass and its method dictionary. A dictionary is one
//! whose first slots are a tally and an array of values; the selectors follow, and the value of each stands at the same
//! position of the array (Blue Book, part four).
#![tactic(auto)]

ghost use Rattle.std.specs.Prelude.{◌≡◌, ℕ, ◌+◌, ◌^◌, ◌<◌, true, IsTrue, IfSome, slice_get};
ghost use Rattle.cs_heap.specs.Object.{slot_count_of};
ghost use Rattle.cs_model.specs.Lookup.{find_in_dictionary, if_method, list_or_empty, lookup as lookup_of};
ghost use Rattle.cs_model.specs.Obj.{slots_in};
ghost use Rattle.cs_model.specs.State.{Kept, object_of};
ghost use Rattle.cs_classes.specs.Meaning.{ref_of};
ghost use Rattle.cs_classes.specs.Sound.{AreSoundObjects, is_method_address, is_reference, has_slots as has_slots_at};
ghost use Rattle.cs_lookup.specs.Found.{FindsMethod, HasObjects, refs_option};
ghost use Rattle.cs_lookup.specs.Found.{sought_of};

use cs_classes::CONTEXT_CLASS;
use cs_heap::Heap;
use cs_word::Oop;

/// How many classes one lookup searches at most, the first included. This bound is this machine's own.
pub const CLASS_LIMIT: u32 = 65_536;

/// What a lookup finds.
#[derive(Clone, Copy, PartialEq, Eq, Debug)]
pub enum Found {
    /// The method.
    Method(Oop),
    /// No class from the first one up has a method for the selector.
    Missing,
    /// 65,536 classes were searched, and the last of them still has a superclass.
    Loop,
}

/// Finds the method for a selector in a class and its superclasses.
///
/// In each class the selectors are compared by identity from the first to the last; where one is the selector and its
/// value is a method, that is found. A value that isn't there or is no method counts as absent, and the search goes on
/// behind it. What isn't a pointer object with as many slots as are needed, contexts included, is no dictionary, no
/// array of values and no class: an empty one, and the end of the superclasses.
pub fn find(heap: &Heap, class: Oop, selector: Oop) -> Found
    requires sound { AreSoundObjects heap.now.objects }
    requires class { is_reference heap.now.objects class.0 ≡ true }
    requires selector { is_reference heap.now.objects selector.0 ≡ true }
    ensures lookup { (k : Kept) → HasObjects heap.now.objects k → sought_of heap.now.objects result ≡
        lookup_of k (ref_of heap.now.objects class.0) (ref_of heap.now.objects selector.0) }
    ensures method { FindsMethod heap.now.objects result }
{
    let mut class = class;
    for _ in 0..CLASS_LIMIT {
        if !has_slots(heap, class, 3) {
            return Found::Missing;
        }
        if let Some(method) = method_in(heap, heap.slot(class, 1), selector) {
            return Found::Method(method);
        }
        class = heap.slot(class, 0);
    }
    if has_slots(heap, class, 3) {
        Found::Loop
    } else {
        Found::Missing
    }
}

/// The first method for the selector in a dictionary.
fn method_in(heap: &Heap, dictionary: Oop, selector: Oop) -> Option<Oop>
    requires sound { AreSoundObjects heap.now.objects }
    requires dictionary { is_reference heap.now.objects dictionary.0 ≡ true }
    requires selector { is_reference heap.now.objects selector.0 ≡ true }
    ensures found { (k : Kept) → HasObjects heap.now.objects k → refs_option heap.now.objects result ≡
        find_in_dictionary k (ref_of heap.now.objects selector.0) (ref_of heap.now.objects dictionary.0) }
    ensures method { IfSome result (λ m. is_method_address heap.now.objects m.0 ≡ true) }
{
    if !has_slots(heap, dictionary, 2) {
        return None;
    }
    let values = heap.slot(dictionary, 1);
    for position in 0..heap.slot_count(dictionary) - 2 {
        if heap.slot(dictionary, position + 2) == selector {
            let value = method_at(heap, values, position);
            if value.is_some() {
                return value;
            }
        }
    }
    None
}

/// The value at a position of an array of values, where it is a method.
fn method_at(heap: &Heap, values: Oop, position: u32) -> Option<Oop>
    requires sound { AreSoundObjects heap.now.objects }
    requires values { is_reference heap.now.objects values.0 ≡ true }
    requires position { position + 1 < 2 ^ 32 }
    ensures value { (k : Kept) → HasObjects heap.now.objects k → refs_option heap.now.objects result ≡
        if_method k (slice_get (list_or_empty (slots_in (object_of k (ref_of heap.now.objects values.0)))) position) }
    ensures method { IfSome result (λ m. is_method_address heap.now.objects m.0 ≡ true) }
{
    if !has_slots(heap, values, position + 1) {
        return None;
    }
    let value = heap.slot(values, position);
    if is_method(heap, value) {
        Some(value)
    } else {
        None
    }
}

/// Whether a word is a pointer object, which no context is, with at least so many slots.
fn has_slots(heap: &Heap, o: Oop, least: u32) -> bool
    ensures { result ≡ has_slots_at heap.now.objects least o.0 }
{
    heap.is_object(o)
        && heap.class_index(o) != CONTEXT_CLASS
        && heap.format(o) < 6
        && heap.slot_count(o) >= least
}

/// Whether a word is a method.
fn is_method(heap: &Heap, o: Oop) -> bool
    ensures { result ≡ is_method_address heap.now.objects o.0 }
{
    heap.is_object(o) && (24..28).contains(&heap.format(o))
}
