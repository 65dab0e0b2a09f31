//! What an image holds, as text, and where two images differ.
#![tactic(auto)]

mod comparison;
mod line;
mod numbering;
mod order;
mod text;

ghost use Rattle.std.specs.Prelude.{◌≡◌, ◌++◌, [], IfOk, IfSome, None, OnOk, true};
ghost use Rattle.std.specs.Option.{option_map_or};
ghost use Rattle.cs_model.specs.Canon.{canon, difference as difference_of};
ghost use Rattle.cs_model.specs.Print.{head_line, print_of, ref_text};
ghost use Rattle.cs_model.specs.State.{active_process as active_process_of};
ghost use Rattle.cs_classes.specs.Meaning.{kept_of};
ghost use Rattle.cs_classes.specs.Sound.{AreSoundObjects, IsWhole, is_reference};
ghost use Rattle.cs_inspect.specs.Comparing.{place_told};
ghost use Rattle.cs_inspect.specs.Reading.{field_seen, has_field_at, ref_option};

pub use comparison::Sameness;
use comparison::{Numbered, difference, told};
use cs_classes::Loaded;
use cs_heap::Heap;
use cs_word::Oop;
use line::{CONTEXT_CLASS, POINTERS_END, push_line};
use numbering::number_objects;
use order::in_order;
use std::alloc::{AllocError, Global};
use text::{push_field, push_reference, push_text};

/// Whether a word is the address of a pointer object, which no context is, that has slot `i`.
fn has_field(heap: &Heap, word: Oop, i: u32) -> bool
    ensures { result ≡ has_field_at heap.now.objects word.0 i }
{
    heap.is_object(word)
        && heap.class_index(word) != CONTEXT_CLASS
        && heap.format(word) < POINTERS_END
        && i < heap.slot_count(word)
}

/// That slot; None where there is none.
fn field(heap: &Heap, word: Oop, i: u32) -> Option<Oop>
    requires { AreSoundObjects heap.now.objects }
    ensures value { ref_option heap.now.objects result ≡ field_seen heap.now.objects word.0 i }
    ensures reference { IfSome result (λ o. is_reference heap.now.objects o.0 ≡ true) }
{
    if has_field(heap, word, i) {
        Some(heap.slot(word, i))
    } else {
        None
    }
}

/// The active process: slot 1 of the scheduler, which is slot 1 of special 3. None where one of these is no pointer
/// object with that slot.
fn active_process(l: &Loaded) -> Option<Oop>
    requires { IsWhole l.now.heap.objects l.now.classes l.now.roots }
    ensures value { ref_option l.now.heap.objects result
        ≡ active_process_of (kept_of l.now.heap.objects l.now.classes l.now.roots None) }
    ensures reference { IfSome result (λ o. is_reference l.now.heap.objects o.0 ≡ true) }
{
    let Some(link) = field(&l.heap, l.roots.special, 3) else {
        return None;
    };
    let Some(scheduler) = field(&l.heap, link, 1) else {
        return None;
    };
    field(&l.heap, scheduler, 1)
}

/// Appends the first line: the next birth, the last hash that was given, and the active process.
fn push_head_line(text: &mut Vec<u8>, l: &Loaded) -> Result<(), AllocError>
    requires { IsWhole l.now.heap.objects l.now.classes l.now.roots }
    ensures { OnOk result (text.new.items ≡ text.old.items
        ++ head_line (kept_of l.now.heap.objects l.now.classes l.now.roots None)) }
{
    push_field(text, "image next=", l.roots.next_birth)?;
    push_field(text, " last=", l.roots.last_hash)?;
    push_text(text, " active=")?;
    push_process(text, l)?;
    push_text(text, "\n")
}

/// Appends a reference to the active process, if there is one.
fn push_process(text: &mut Vec<u8>, l: &Loaded) -> Result<(), AllocError>
    requires { IsWhole l.now.heap.objects l.now.classes l.now.roots }
    ensures { OnOk result (text.new.items ≡ text.old.items
        ++ option_map_or ref_text
        (active_process_of (kept_of l.now.heap.objects l.now.classes l.now.roots None)) []) }
{
    match active_process(l) {
        Some(process) => push_reference(text, &l.heap, process),
        None => Ok(()),
    }
}

/// The text of an image: a line that begins `image`, and one for each object in the order of births.
///
/// The first line has the next birth, the last hash that was given, and the active process, if there is one. A
/// reference is a SmallInteger in decimal, `$` and the code of a Character, or `@` and the birth of an object. The line
/// of an object begins with its birth and the word `ptr`, `raw`, `method` or `context`, and goes on with class index,
/// format and hash as far as the word doesn't tell them. Behind a colon follow its slots, its bytes in hex digits, its
/// literals and its bytecodes, or its stack, of which nothing is beyond the top. The text is this machine's own.
pub fn print(alloc: Global, l: &Loaded) -> Result<Vec<u8>, AllocError>
    requires { IsWhole l.now.heap.objects l.now.classes l.now.roots }
    ensures { IfOk result (λ text. text.items
        ≡ print_of (kept_of l.now.heap.objects l.now.classes l.now.roots None)) }
{
    let order = in_order(alloc, &l.heap)?;
    let mut text = Vec::new(alloc);
    push_head_line(&mut text, l)?;
    for o in &order {
        push_line(&mut text, &l.heap, *o)?;
    }
    Ok(text)
}

/// Compares two images, each of which is one in memory: whether they are the same, or else at which place they first
/// differ.
///
/// Objects have numbers from 1: first those that are no contexts, by birth, and then the contexts in the order in which
/// they are first reached. That order is a queue which begins with the contexts in the slots of other objects, and goes
/// on with the sender, the closure, the receiver and the stack of each context. Contexts that nothing reaches don't
/// count, and references to objects are compared by these numbers. Place 0 is the last hash that was given, the
/// special-object array and the class table; place k is object k, also where one image has no such object.
pub fn same(alloc: Global, a: &Loaded, b: &Loaded) -> Result<Sameness, AllocError>
    requires first { IsWhole a.now.heap.objects a.now.classes a.now.roots }
    requires second { IsWhole b.now.heap.objects b.now.classes b.now.roots }
    ensures { IfOk result (λ sameness. place_told sameness ≡ difference_of
        (canon (kept_of a.now.heap.objects a.now.classes a.now.roots None))
        (canon (kept_of b.now.heap.objects b.now.classes b.now.roots None))) }
{
    let first = number_objects(alloc, a)?;
    let second = number_objects(alloc, b)?;
    let numbered = Numbered {
        image: a,
        addresses: &first,
    };
    let other = Numbered {
        image: b,
        addresses: &second,
    };
    match difference(&numbered, &other) {
        Some(place) => Ok(Sameness::Differ {
            place: told(&a.heap, place),
        }),
        None => Ok(Sameness::Same),
    }
}
