//! The elements of objects: the indexed slots of a pointer object behind its named fields, the units of raw bytes, and
//! the bytes of a method by their pcs.
ghost use Rattle.std.specs.Prelude.{◌≡◌, ◌<◌, ◌≤◌, ◌+◌, ◌*◌, ◌^◌, None, Some, IfSome, option_and_then, option_map};
ghost use Rattle.std.specs.Prelude.{if◌then◌else◌};
ghost use Rattle.std.specs.Prelude.{pos};
ghost use Rattle.cs_heap.specs.Object.{slot_count_of};
ghost use Rattle.cs_model.specs.Arithmetic.{if_small};
ghost use Rattle.cs_model.specs.Element.{class_shape, element_at, element_place, fields_within, place_in, range};
ghost use Rattle.cs_model.specs.Element.{range_of, small_ref};
ghost use Rattle.cs_model.specs.Instance.{unit_bytes};
ghost use Rattle.cs_model.specs.PrimObject.{at_prim, byte_at, byte_code, char_at_prim, char_at_put_prim, has_size};
ghost use Rattle.cs_model.specs.PrimObject.{is_bytes, size_prim, small_count};
ghost use Rattle.cs_model.specs.Read.{depth_of};
ghost use Rattle.cs_model.specs.Ref as ref;
ghost use Rattle.cs_model.specs.Ref.{small_index};
ghost use Rattle.cs_model.specs.State.{object_of};
ghost use Rattle.cs_acts.specs.Names.{IsNamed, NamesOption, Store, name_of};
ghost use Rattle.cs_acts.specs.Ready.{IsReady, IsSound, writable_bytes};
ghost use Rattle.cs_prim_ctx.specs.Answered.{PerformsInPlace};
ghost use Rattle.cs_prim_obj.specs.Contents.{amount_in, contents_of};
ghost use Rattle.cs_prim_obj.specs.Elements.{HasUnit, elements_of, elements_end, fields_said, has_size_by};
ghost use Rattle.cs_prim_obj.specs.Elements.{is_bytes_by, element_number};

use crate::answering::{answer_if, argument_at};
use crate::contents::{Contents, FIRST_BYTES, held_by};
use crate::words::{character_word, count_word};
use cs_acts::answer::{argument, receiver};
use cs_acts::read::{class_of, is_read_only, slot, slot_if_any};
use cs_acts::{PrimEnd, World, answer};
use cs_heap::Heap;
use cs_word::{Kind, Oop};

/// A class has at least so many slots, and says in this one how its instances are made.
const CLASS_SLOTS: u32 = 3;

const INSTANCE_SHAPE: u32 = 2;

/// SmallIntegers that aren't negative are below this number.
const SMALL_END: u64 = 1 << 30;

/// The elements of an object.
#[derive(Clone, Copy)]
pub(crate) struct Elements {
    /// The index of the first element: 1, and for a method its first pc.
    pub(crate) first: u32,
    /// How many elements there are.
    pub(crate) count: u32,
    /// How each is kept.
    pub(crate) unit: Unit,
}

/// How an element is kept.
#[derive(Clone, Copy)]
pub(crate) enum Unit {
    /// In a slot behind so many named fields.
    Slot { fields: u32 },
    /// As 1, 2, 4 or 8 bytes of the object, from byte `from` of it on.
    Bytes { size: u32, from: u32 },
}

/// Primitive 60: an element of the receiver.
pub(crate) fn at<W: World>(w: &mut W) -> PrimEnd
    requires ready { IsReady (W.stored w.old) (W.view w.old) }
    requires there { 1 < depth_of (W.view w.old) }
    ensures { PerformsInPlace (W.stored w.old) (W.stored w.new) (W.layout w.old) (W.layout w.new) (W.view w.old)
        (W.view w.new) result (at_prim (W.view w.old) 1) }
{
    let element = element(w, receiver(w, 1), argument(w));
    answer_if(w, 1, element)
}

/// Primitive 62: how many elements the receiver has, where it has a size.
pub(crate) fn size<W: World>(w: &mut W) -> PrimEnd
    requires ready { IsReady (W.stored w.old) (W.view w.old) }
    requires there { 0 < depth_of (W.view w.old) }
    ensures { PerformsInPlace (W.stored w.old) (W.stored w.new) (W.layout w.old) (W.layout w.new) (W.view w.old)
        (W.view w.new) result (size_prim (W.view w.old) 0) }
{
    let size = size_of(w, receiver(w, 0));
    answer_if(w, 0, size)
}

/// Primitive 63: a byte of the receiver, as a Character.
pub(crate) fn char_at<W: World>(w: &mut W) -> PrimEnd
    requires ready { IsReady (W.stored w.old) (W.view w.old) }
    requires there { 1 < depth_of (W.view w.old) }
    ensures { PerformsInPlace (W.stored w.old) (W.stored w.new) (W.layout w.old) (W.layout w.new) (W.view w.old)
        (W.view w.new) result (char_at_prim (W.view w.old) 1) }
{
    let character = character(w, receiver(w, 1), argument(w));
    answer_if(w, 1, character)
}

/// The element of this index; None exactly where there is none, or it is too large for a SmallInteger.
fn element<W: World>(w: &W, o: Oop, index: Oop) -> Option<Oop>
    requires sound { IsSound (W.stored w.now) (W.view w.now) }
    requires named { IsNamed (W.stored w.now) o }
    requires index { IsNamed (W.stored w.now) index }
    ensures { NamesOption (W.stored w.now) result (option_and_then
        (λ place. element_at (W.view w.now) (name_of (W.stored w.now) o) place)
        (element_place (W.view w.now) (name_of (W.stored w.now) o) (name_of (W.stored w.now) index))) }
{
    let Some(elements) = elements_of(w, o, held_by(w, o)) else {
        return None;
    };
    let Some(place) = place(elements, index) else {
        return None;
    };
    match elements.unit {
        Unit::Slot { fields } => slot_if_any(w, o, fields + place),
        Unit::Bytes { size, from } => number_word(number(w.heap(), o, from + place * size, size)),
    }
}

/// How many elements there are of what a word names; None exactly where that has no size.
fn size_of<W: World>(w: &W, o: Oop) -> Option<Oop>
    requires sound { IsSound (W.stored w.now) (W.view w.now) }
    requires named { IsNamed (W.stored w.now) o }
    ensures { NamesOption (W.stored w.now) result
        (if has_size (object_of (W.view w.now) (name_of (W.stored w.now) o))
        then option_map (λ r. small_count r.count) (range_of (W.view w.now) (name_of (W.stored w.now) o)) else None) }
{
    let held = held_by(w, o);
    if !has_size(held) {
        return None;
    }
    match elements_of(w, o, held) {
        Some(elements) => Some(count_word(elements.count)),
        None => None,
    }
}

/// Primitive 64: writes a byte of the receiver by its Character, and answers that.
pub(crate) fn char_at_put<W: World>(w: &mut W) -> PrimEnd
    requires ready { IsReady (W.stored w.old) (W.view w.old) }
    requires there { 2 < depth_of (W.view w.old) }
    ensures { PerformsInPlace (W.stored w.old) (W.stored w.new) (W.layout w.old) (W.layout w.new) (W.view w.old)
        (W.view w.new) result (char_at_put_prim (W.view w.old) 2) }
{
    let receiver = receiver(w, 2);
    if is_read_only(w, receiver) {
        return PrimEnd::Fail;
    }
    let Some(place) = byte_place(w, receiver, argument_at(w, 2, 0)) else {
        return PrimEnd::Fail;
    };
    let value = argument_at(w, 2, 1);
    let Some(byte) = byte_code(value) else {
        return PrimEnd::Fail;
    };
    w.store_byte(receiver, place, byte);
    answer::answer(w, 2, value);
    PrimEnd::Answer
}

/// The byte of this index, as a Character; None exactly where there is none, or what a word names isn't of bytes.
fn character<W: World>(w: &W, o: Oop, index: Oop) -> Option<Oop>
    requires sound { IsSound (W.stored w.now) (W.view w.now) }
    requires named { IsNamed (W.stored w.now) o }
    requires index { IsNamed (W.stored w.now) index }
    ensures { NamesOption (W.stored w.now) result (option_map (λ b. ref.Char b)
        (byte_at (W.view w.now) (name_of (W.stored w.now) o) (name_of (W.stored w.now) index))) }
{
    match byte_place(w, o, index) {
        Some(place) => Some(character_word(w.heap().byte(o, place))),
        None => None,
    }
}

/// The place of an index among the bytes of an object; None exactly where it is none of theirs, or what a word names
/// isn't of bytes.
fn byte_place<W: World>(w: &W, o: Oop, index: Oop) -> Option<u32>
    requires sound { IsSound (W.stored w.now) (W.view w.now) }
    requires named { IsNamed (W.stored w.now) o }
    requires index { IsNamed (W.stored w.now) index }
    ensures place { result ≡ (if is_bytes (W.view w.now) (name_of (W.stored w.now) o)
        then element_place (W.view w.now) (name_of (W.stored w.now) o) (name_of (W.stored w.now) index) else None) }
    ensures within { IfSome result (λ place. place < writable_bytes (object_of (W.view w.now)
        (name_of (W.stored w.now) o))) }
{
    let held = held_by(w, o);
    if !is_bytes(held) {
        return None;
    }
    match elements_of(w, o, held) {
        Some(elements) => place(elements, index),
        None => None,
    }
}

/// The byte that a Character below 256 is; None exactly where the word is none.
#[tactic(auto, unfolding(cs_classes::specs::Meaning::ref_of, cs_classes::specs::Sound::is_reference))]
fn byte_code(value: Oop) -> Option<u8>
    ensures { (s : Store) → IsNamed s value → result ≡ byte_code (name_of s value) }
{
    match value.kind() {
        Kind::Character(code) if code < 256 => Some(code as u8),
        _ => None,
    }
}

/// The elements of what a word names, which holds `held`; None exactly where it has none. Those of a pointer object are
/// counted behind its named fields.
fn elements_of<W: World>(w: &W, o: Oop, held: Contents) -> Option<Elements>
    requires sound { IsSound (W.stored w.now) (W.view w.now) }
    requires named { IsNamed (W.stored w.now) o }
    requires held { held ≡ contents_of (object_of (W.view w.now) (name_of (W.stored w.now) o)) }
    requires most { amount_in held ≤ 268435456 }
    ensures value { result ≡ elements_of (W.view w.now) (name_of (W.stored w.now) o) held }
    ensures within { IfSome result (λ e. elements_end e ≤ amount_in held) }
    ensures unit { IfSome result (λ e. HasUnit e.unit) }
{
    match held {
        Contents::Slots { count, .. } => match named_fields(w, o, count) {
            Some(fields) => Some(Elements {
                first: 1,
                count: count - fields,
                unit: Unit::Slot { fields },
            }),
            None => None,
        },
        Contents::Bytes { format, count } => {
            let size = unit_bytes(format);
            Some(Elements {
                first: 1,
                count: count / size,
                unit: Unit::Bytes { size, from: 0 },
            })
        }
        Contents::Code { literals, count } => {
            let from = 4 * (literals + 1);
            Some(Elements {
                first: from + 1,
                count,
                unit: Unit::Bytes { size: 1, from },
            })
        }
        Contents::Immediate | Contents::Context => None,
    }
}

/// How many of so many slots are named fields: slot 2 of the class modulo 65,536; None exactly where that is no number,
/// or more than the slots.
fn named_fields<W: World>(w: &W, o: Oop, slots: u32) -> Option<u32>
    requires sound { IsSound (W.stored w.now) (W.view w.now) }
    requires named { IsNamed (W.stored w.now) o }
    ensures value { result ≡ fields_within slots (class_shape (W.view w.now) (name_of (W.stored w.now) o)) }
    ensures within { IfSome result (λ fields. fields ≤ slots) }
{
    let Some(class) = class_of(w, o) else {
        return None;
    };
    let Some(shape) = slot(w, class, CLASS_SLOTS, INSTANCE_SHAPE) else {
        return None;
    };
    match fields_said(shape) {
        Some(fields) if fields <= slots => Some(fields),
        _ => None,
    }
}

/// The named fields that a class says in slot 2, which is `shape`; None exactly where that is no SmallInteger.
#[tactic(auto, unfolding(cs_classes::specs::Meaning::ref_of, cs_classes::specs::Sound::is_reference))]
fn fields_said(shape: Oop) -> Option<u32>
    ensures { (s : Store) → IsNamed s shape → result ≡ fields_said (name_of s shape) }
{
    match shape.kind() {
        Kind::Small(value) => Some(value.rem_euclid(65_536).cast_unsigned()),
        _ => None,
    }
}

/// The place of an index among the elements, counted from 0; None exactly where it is none of theirs.
fn place(elements: Elements, index: Oop) -> Option<u32>
    ensures place { (s : Store) → IsNamed s index → result ≡ place_in (range elements.first elements.count)
        (small_index (name_of s index)) }
    ensures within { IfSome result (λ place. place < elements.count) }
{
    match index.natural() {
        Some(i) => place_of(elements, i),
        None => None,
    }
}

/// The same of a number.
fn place_of(elements: Elements, i: u32) -> Option<u32>
    ensures place { result ≡ place_in (range elements.first elements.count) (Some i) }
    ensures within { IfSome result (λ place. place < elements.count) }
{
    if i >= elements.first && i - elements.first < elements.count {
        Some(i - elements.first)
    } else {
        None
    }
}

/// The bytes of a unit of this format, which isn't one of pointers: 8, 4, 2 or 1.
fn unit_bytes(format: u8) -> u32
    ensures bytes { result ≡ unit_bytes format }
    ensures some { 0 < result }
    ensures most { result ≤ 8 }
{
    match format {
        9 => 8,
        10 => 4,
        _ if format < FIRST_BYTES => 2,
        _ => 1,
    }
}

/// Whether what holds this has a size: contexts, and pointer objects without indexed slots or with other formats,
/// have none.
fn has_size(held: Contents) -> bool
    ensures { result ≡ has_size_by held }
{
    match held {
        Contents::Slots { format, .. } => format == 2 || format == 3,
        Contents::Bytes { .. } | Contents::Code { .. } => true,
        Contents::Immediate | Contents::Context => false,
    }
}

/// Whether what holds this has raw bytes, and each is an element.
fn is_bytes(held: Contents) -> bool
    ensures { result ≡ is_bytes_by held }
{
    match held {
        Contents::Bytes { format, .. } => format >= FIRST_BYTES,
        _ => false,
    }
}

/// So many bytes of an object from byte `at` on, as a number, the lowest first: at most 8.
fn number(heap: &Heap, o: Oop, at: u32, size: u32) -> u64
    requires there { at + size ≤ 4 * slot_count_of heap.now.objects o.0 }
    requires fits { at + size < 2 ^ 32 }
    requires most { size ≤ 8 }
    ensures { result ≡ element_number heap.now.objects o.0 at size }
{
    let mut number = 0;
    for i in 0..size {
        let place = at + (size - (i + 1));
        number = 256 * number + u64::from(heap.byte(o, place));
    }
    number
}

/// The word of a number; None exactly where it is too large for a SmallInteger.
fn number_word(number: u64) -> Option<Oop>
    ensures { (s : Store) → NamesOption s result (small_ref (if_small (pos number))) }
{
    if number < SMALL_END {
        Some(count_word(number as u32))
    } else {
        None
    }
}
