//! The line of an object: its birth, its kind, what its header says, and what it holds.

ghost use Rattle.std.specs.Prelude.{◌≡◌, ◌++◌, ◌<◌, ◌==◌, ℕ, false, true, OnOk, codes, decimal};
ghost use Rattle.cs_model.specs.Words.{unused_bytes as unused_bytes_of};
ghost use Rattle.cs_heap.specs.Format.{is_code, is_pointers, is_raw};
ghost use Rattle.cs_heap.specs.Object.{class_at, format_at, hash_at, is_object, slot_count_of, slot_of};
ghost use Rattle.cs_model.specs.Print.{context_text, object_text};
ghost use Rattle.cs_classes.specs.Sound.{AreSoundObjects};
ghost use Rattle.cs_inspect.specs.Reading.{context_seen, names_object, method_at, pointers_at, raw_at};
ghost use Rattle.cs_inspect.specs.Texts.{activation_text, line_at, object_text_at, return_text, slot_text};

use crate::text::{
    push_bytes, push_field, push_number, push_pc, push_reference, push_references, push_text,
};
use cs_heap::Heap;
use cs_word::{MethodHeader, Oop};
use std::alloc::AllocError;

/// The class index of contexts.
pub(crate) const CONTEXT_CLASS: u32 = 36;

/// The formats below this one have pointers in their slots.
pub(crate) const POINTERS_END: u8 = 6;

/// The formats from this one on are those of methods.
pub(crate) const METHODS_BEGIN: u8 = 24;

/// Slots of a context, in the order of the Blue Book; its stack follows these.
pub(crate) const SENDER: u32 = 0;

pub(crate) const PC: u32 = 1;

pub(crate) const STACKP: u32 = 2;

pub(crate) const METHOD: u32 = 3;

pub(crate) const CLOSURE: u32 = 4;

pub(crate) const RECEIVER: u32 = 5;

pub(crate) const CONTEXT_FIELDS: u32 = 6;

/// Appends the line of an object.
pub(crate) fn push_line(text: &mut Vec<u8>, heap: &Heap, o: Oop) -> Result<(), AllocError>
    requires sound { AreSoundObjects heap.now.objects }
    requires object { is_object heap.now.objects o.0 ≡ true }
    ensures { OnOk result (text.new.items ≡ text.old.items ++ line_at heap.now.objects o) }
{
    push_number(text, heap.birth(o))?;
    push_object(text, heap, o)?;
    push_text(text, "\n")
}

/// Appends what an object is.
fn push_object(text: &mut Vec<u8>, heap: &Heap, o: Oop) -> Result<(), AllocError>
    requires sound { AreSoundObjects heap.now.objects }
    requires object { is_object heap.now.objects o.0 ≡ true }
    ensures { OnOk result (text.new.items ≡ text.old.items ++ object_text_at heap.now.objects o.0) }
{
    if heap.class_index(o) == CONTEXT_CLASS {
        push_context(text, heap, o)
    } else if heap.format(o) < POINTERS_END {
        push_pointers(text, heap, o)
    } else if heap.format(o) < METHODS_BEGIN {
        push_raw(text, heap, o)
    } else {
        push_method(text, heap, o)
    }
}

/// Appends the words of a kind, and the class index and the format of an object.
fn push_head(text: &mut Vec<u8>, heap: &Heap, o: Oop, kind: &str) -> Result<(), AllocError>
    requires { is_object heap.now.objects o.0 ≡ true }
    ensures { OnOk result (text.new.items ≡ text.old.items ++ (kind.now
        ++ codes " class=" ++ decimal (class_at heap.now.objects o.0)
        ++ codes " format=" ++ decimal (format_at heap.now.objects o.0)
        ++ codes " hash=" ++ decimal (hash_at heap.now.objects o.0) ++ codes ":")) }
{
    push_text(text, kind)?;
    push_field(text, " class=", heap.class_index(o))?;
    push_field(text, " format=", heap.format(o))?;
    push_field(text, " hash=", heap.hash(o))?;
    push_text(text, ":")
}

/// Appends what a pointer object is.
fn push_pointers(text: &mut Vec<u8>, heap: &Heap, o: Oop) -> Result<(), AllocError>
    requires sound { AreSoundObjects heap.now.objects }
    requires object { is_object heap.now.objects o.0 ≡ true }
    requires other { (class_at heap.now.objects o.0 == 36) ≡ false }
    requires format { is_pointers (format_at heap.now.objects o.0) ≡ true }
    ensures { OnOk result (text.new.items ≡ text.old.items ++ object_text (pointers_at heap.now.objects o.0)) }
{
    push_head(text, heap, o, " ptr")?;
    push_references(text, heap, o, 0, heap.slot_count(o))
}

/// How many bytes at the end of an object with bytes or with units of 16 bits are unused.
pub(crate) fn unused_bytes(format: u8) -> u32
    requires { is_raw format ≡ true }
    ensures { result ≡ unused_bytes_of format }
{
    match format {
        13 => 2,
        16..=19 => u32::from(format) - 16,
        _ => 0,
    }
}

/// Appends what an object of bytes or units is.
fn push_raw(text: &mut Vec<u8>, heap: &Heap, o: Oop) -> Result<(), AllocError>
    requires sound { AreSoundObjects heap.now.objects }
    requires object { is_object heap.now.objects o.0 ≡ true }
    requires other { (class_at heap.now.objects o.0 == 36) ≡ false }
    requires pointers { is_pointers (format_at heap.now.objects o.0) ≡ false }
    requires method { is_code (format_at heap.now.objects o.0) ≡ false }
    ensures { OnOk result (text.new.items ≡ text.old.items ++ object_text (raw_at heap.now.objects o.0)) }
{
    push_head(text, heap, o, " raw")?;
    let end = 4 * heap.slot_count(o) - unused_bytes(heap.format(o));
    push_bytes(text, heap, o, 0, end)
}

/// Appends what a method is.
fn push_method(text: &mut Vec<u8>, heap: &Heap, o: Oop) -> Result<(), AllocError>
    requires sound { AreSoundObjects heap.now.objects }
    requires object { is_object heap.now.objects o.0 ≡ true }
    requires method { is_code (format_at heap.now.objects o.0) ≡ true }
    ensures { OnOk result (text.new.items ≡ text.old.items ++ object_text (method_at heap.now.objects o.0)) }
{
    let Some(header) = MethodHeader::read(heap.slot(o, 0)) else {
        unreachable!();
    };
    push_method_head(text, heap, o, header)?;
    let code = 1 + header.literals();
    push_references(text, heap, o, 1, code)?;
    push_text(text, " ;")?;
    let unused = u32::from(heap.format(o) - METHODS_BEGIN);
    push_bytes(text, heap, o, 4 * code, 4 * heap.slot_count(o) - unused)
}

/// Appends the class index and the hash of a method, and its own header.
fn push_method_head(
    text: &mut Vec<u8>,
    heap: &Heap,
    o: Oop,
    header: MethodHeader,
) -> Result<(), AllocError>
    requires { is_object heap.now.objects o.0 ≡ true }
    ensures { OnOk result (text.new.items ≡ text.old.items
        ++ (codes " method class=" ++ decimal (class_at heap.now.objects o.0)
        ++ codes " hash=" ++ decimal (hash_at heap.now.objects o.0)
        ++ codes " header=" ++ decimal header.0 ++ codes ":")) }
{
    push_field(text, " method class=", heap.class_index(o))?;
    push_field(text, " hash=", heap.hash(o))?;
    push_field(text, " header=", header.0)?;
    push_text(text, ":")
}

/// Appends a name, and what the word in a slot refers to.
fn push_slot(
    text: &mut Vec<u8>,
    heap: &Heap,
    o: Oop,
    name: &str,
    slot: u32,
) -> Result<(), AllocError>
    requires within { slot < slot_count_of heap.now.objects o.0 }
    requires named { names_object heap.now.objects (slot_of heap.now.objects o.0 slot) ≡ true }
    ensures { OnOk result (text.new.items ≡ text.old.items ++ slot_text heap.now.objects o.0 name.now slot) }
{
    push_text(text, name)?;
    push_reference(text, heap, heap.slot(o, slot))
}

/// Appends sender and pc of a context.
fn push_place(text: &mut Vec<u8>, heap: &Heap, o: Oop) -> Result<(), AllocError>
    requires sound { AreSoundObjects heap.now.objects }
    requires object { is_object heap.now.objects o.0 ≡ true }
    requires context { (class_at heap.now.objects o.0 == 36) ≡ true }
    ensures { OnOk result (text.new.items ≡ text.old.items ++ return_text heap.now.objects o.0) }
{
    push_slot(text, heap, o, " sender=", SENDER)?;
    push_text(text, " pc=")?;
    push_pc(text, heap.slot(o, PC))
}

/// Appends method, closure and receiver of a context.
fn push_activation(text: &mut Vec<u8>, heap: &Heap, o: Oop) -> Result<(), AllocError>
    requires sound { AreSoundObjects heap.now.objects }
    requires object { is_object heap.now.objects o.0 ≡ true }
    requires context { (class_at heap.now.objects o.0 == 36) ≡ true }
    ensures { OnOk result (text.new.items ≡ text.old.items ++ activation_text heap.now.objects o.0) }
{
    push_slot(text, heap, o, " method=", METHOD)?;
    push_slot(text, heap, o, " closure=", CLOSURE)?;
    push_slot(text, heap, o, " receiver=", RECEIVER)?;
    push_text(text, ":")
}

/// Appends what a context is. Nothing is beyond the top of its stack, which a stackp of nil makes empty.
fn push_context(text: &mut Vec<u8>, heap: &Heap, o: Oop) -> Result<(), AllocError>
    requires sound { AreSoundObjects heap.now.objects }
    requires object { is_object heap.now.objects o.0 ≡ true }
    requires context { (class_at heap.now.objects o.0 == 36) ≡ true }
    ensures { OnOk result (text.new.items ≡ text.old.items ++ context_text (context_seen heap.now.objects o.0)) }
{
    push_field(text, " context hash=", heap.hash(o))?;
    push_field(text, " size=", heap.slot_count(o) - CONTEXT_FIELDS)?;
    push_place(text, heap, o)?;
    push_activation(text, heap, o)?;
    let depth = heap.slot(o, STACKP).natural().unwrap_or(0);
    push_references(text, heap, o, CONTEXT_FIELDS, CONTEXT_FIELDS + depth)
}
