//! Numbers for the objects of a heap that don't depend on the births of its contexts.

ghost use Rattle.std.specs.Prelude.{◌≡◌, ◌-◌, ◌≤◌, ◌==◌, true, IfOk, None, OnOk, drop, take};
ghost use Rattle.std.specs.List.{AllPass};
ghost use Rattle.cs_heap.specs.Format.{is_code};
ghost use Rattle.cs_heap.specs.Object.{class_at, format_at, is_object, slot_count_of, words_at};
ghost use Rattle.cs_classes.specs.Meaning.{depth_in, kept_of};
ghost use Rattle.cs_classes.specs.Sound.{AreSoundObjects};
ghost use Rattle.cs_inspect.specs.Numbering.{IsNumbering, all_reached, leading_from, plain_among, reached, turn};
ghost use Rattle.cs_inspect.specs.Reading.{IsInOrder};

use crate::line::{
    CLOSURE, CONTEXT_CLASS, CONTEXT_FIELDS, METHODS_BEGIN, POINTERS_END, RECEIVER, SENDER, STACKP,
};
use crate::order::in_order;
use cs_classes::{Loaded, is_context, method_header};
use cs_heap::Heap;
use cs_word::Oop;
use indexmap::IndexSet;
use std::alloc::{AllocError, Global};

/// Puts what a word names at the end, where it is a context and isn't there yet.
fn reach(addresses: &mut IndexSet<u32>, heap: &Heap, word: Oop) -> Result<(), AllocError>
    ensures { OnOk result (addresses.new.keys ≡ reached heap.now.objects addresses.old.keys word.0) }
{
    if is_context(heap, word) {
        addresses.insert(word.0)?;
    }
    Ok(())
}

/// The same for the slots of an object from `from` to before `end`.
fn reach_slots(
    addresses: &mut IndexSet<u32>,
    heap: &Heap,
    o: Oop,
    from: u32,
    end: u32,
) -> Result<(), AllocError>
    requires begun { from ≤ end }
    requires within { end ≤ slot_count_of heap.now.objects o.0 }
    ensures { OnOk result (addresses.new.keys ≡ all_reached heap.now.objects addresses.old.keys
        (take (end - from) (drop from (words_at heap.now.objects o.0)))) }
{
    for i in from..end {
        reach(addresses, heap, heap.slot(o, i))?;
    }
    Ok(())
}

/// The same for what the stack of a context holds.
fn reach_stack(addresses: &mut IndexSet<u32>, heap: &Heap, o: Oop) -> Result<(), AllocError>
    requires sound { AreSoundObjects heap.now.objects }
    requires object { is_object heap.now.objects o.0 ≡ true }
    requires context { (class_at heap.now.objects o.0 == 36) ≡ true }
    ensures { OnOk result (addresses.new.keys ≡ all_reached heap.now.objects addresses.old.keys
        (take (depth_in (words_at heap.now.objects o.0)) (drop 6 (words_at heap.now.objects o.0)))) }
{
    let depth = heap.slot(o, STACKP).natural().unwrap_or(0);
    reach_slots(addresses, heap, o, CONTEXT_FIELDS, CONTEXT_FIELDS + depth)
}

/// The same for what a context leads to: its sender, its closure, its receiver and its stack.
fn reach_from_context(addresses: &mut IndexSet<u32>, heap: &Heap, o: Oop) -> Result<(), AllocError>
    requires sound { AreSoundObjects heap.now.objects }
    requires object { is_object heap.now.objects o.0 ≡ true }
    requires context { (class_at heap.now.objects o.0 == 36) ≡ true }
    ensures { OnOk result (addresses.new.keys ≡ all_reached heap.now.objects addresses.old.keys
        (leading_from heap.now.objects o.0)) }
{
    reach(addresses, heap, heap.slot(o, SENDER))?;
    reach(addresses, heap, heap.slot(o, CLOSURE))?;
    reach(addresses, heap, heap.slot(o, RECEIVER))?;
    reach_stack(addresses, heap, o)
}

/// The same for the literals of a method.
fn reach_from_method(addresses: &mut IndexSet<u32>, heap: &Heap, o: Oop) -> Result<(), AllocError>
    requires sound { AreSoundObjects heap.now.objects }
    requires object { is_object heap.now.objects o.0 ≡ true }
    requires method { is_code (format_at heap.now.objects o.0) ≡ true }
    ensures { OnOk result (addresses.new.keys ≡ all_reached heap.now.objects addresses.old.keys
        (leading_from heap.now.objects o.0)) }
{
    let literals = method_header(heap, o).literals();
    reach_slots(addresses, heap, o, 1, 1 + literals)
}

/// The same for what an object leads to.
fn reach_from(addresses: &mut IndexSet<u32>, heap: &Heap, o: Oop) -> Result<(), AllocError>
    requires sound { AreSoundObjects heap.now.objects }
    requires object { is_object heap.now.objects o.0 ≡ true }
    ensures { OnOk result (addresses.new.keys ≡ all_reached heap.now.objects addresses.old.keys
        (leading_from heap.now.objects o.0)) }
{
    if heap.class_index(o) == CONTEXT_CLASS {
        reach_from_context(addresses, heap, o)
    } else if heap.format(o) < POINTERS_END {
        reach_slots(addresses, heap, o, 0, heap.slot_count(o))
    } else if heap.format(o) < METHODS_BEGIN {
        Ok(())
    } else {
        reach_from_method(addresses, heap, o)
    }
}

/// The same for what the object at a place leads to, if there is one.
fn reach_from_place(
    addresses: &mut IndexSet<u32>,
    heap: &Heap,
    place: usize,
) -> Result<(), AllocError>
    requires sound { AreSoundObjects heap.now.objects }
    requires objects { AllPass (is_object heap.now.objects) addresses.old.keys }
    ensures { OnOk result (addresses.new.keys ≡ turn heap.now.objects place addresses.old.keys) }
{
    match addresses.get_index(place).copied() {
        Some(address) => reach_from(addresses, heap, Oop(address)),
        None => Ok(()),
    }
}

/// The objects that are no contexts, in the order in which they are given.
fn plain(alloc: Global, heap: &Heap, order: &[Oop]) -> Result<IndexSet<u32>, AllocError>
    requires { IsInOrder heap.now.objects order.now }
    ensures { IfOk result (λ addresses. addresses.keys ≡ plain_among heap.now.objects order.now) }
{
    let mut addresses = IndexSet::new(alloc);
    for o in order {
        if !is_context(heap, *o) {
            addresses.insert(o.0)?;
        }
    }
    Ok(addresses)
}

/// The addresses of the objects of a heap in the order of their numbers: those that are no contexts by birth, and then
/// the contexts in the order in which they are first reached. A context that nothing reaches isn't among them.
pub(crate) fn number_objects(alloc: Global, image: &Loaded) -> Result<IndexSet<u32>, AllocError>
    requires { AreSoundObjects image.now.heap.objects }
    ensures { IfOk result (λ addresses. IsNumbering image.now.heap.objects
        (kept_of image.now.heap.objects image.now.classes image.now.roots None) addresses.keys) }
{
    let order = in_order(alloc, &image.heap)?;
    let mut addresses = plain(alloc, &image.heap, &order)?;
    let count = addresses.len() + order.len();
    for place in 0..count {
        reach_from_place(&mut addresses, &image.heap, place)?;
    }
    Ok(addresses)
}
