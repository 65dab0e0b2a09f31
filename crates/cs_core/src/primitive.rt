//! The table of primitives, which picks the crate of a number; and 900, which writes bytes and has no crate of its own.
ghost use Rattle.std.specs.Prelude.{◌≡◌, ◌<◌, ◌≤◌, ◌+◌, ◌*◌, ◌-◌, [], ◌∷◌, true, IfSome, OnErr, OnOk, Some, drop};
ghost use Rattle.std.specs.Prelude.{option_map, take};
ghost use Rattle.cs_word.specs.Word.{natural_of_word};
ghost use Rattle.cs_model.specs.Words.{unused_bytes};
ghost use Rattle.arrayvec.specs.ArrayVec.{array_vec_len};
ghost use Rattle.cs_model.specs.Built.{is_unbuilt};
ghost use Rattle.cs_model.specs.PrimRun.{bytes_to_write, small_byte};
ghost use Rattle.cs_model.specs.PrimTable.{is_object_number};
ghost use Rattle.cs_model.specs.Read.{depth_of};
ghost use Rattle.cs_acts.specs.Names.{IsNamed, name_of};
ghost use Rattle.cs_acts.specs.Ready.{IsReady, IsSound};
ghost use Rattle.cs_heap.specs.Object.{format_at, slot_count_of};
ghost use Rattle.cs_prim_ctx.specs.Numbers.{reads_context};
ghost use Rattle.cs_shelf.specs.Outside.{Appends, AppendsPart, Rose};
ghost use Rattle.cs_core.specs.Pieces.{IsPieceOf, all_bytes_at, bytes_at, bytes_of_piece, is_bytes_at, is_piece};
ghost use Rattle.cs_core.specs.Numbers.{HasBuiltNumber};

use arrayvec::ArrayVec;
use cs_acts::World;
use cs_acts::answer::receiver;
use cs_acts::read::is_context;
use cs_heap::Heap;
use cs_prim_num::is_on_numbers;
use cs_shelf::{Failed, Sink, write_whole};
use cs_unwind::unwinds;
use cs_word::{Kind, Oop};

/// The number of the primitive that writes bytes.
const WRITE: u32 = 900;

/// The most bytes that are handed to the sink at once.
const AT_ONCE: u32 = 256;

/// A primitive that is built, by the crate that does it.
#[derive(Clone, Copy, PartialEq, Eq, Debug)]
pub enum Primitive {
    /// One on numbers, of cs_prim_num: 1 to 17, 21 to 37 and 40 to 59.
    Number,
    /// 900: writes bytes.
    Write,
    /// One of cs_unwind, that evaluates a closure or looks for a mark, or that is a mark.
    Unwind,
    /// One of cs_prim_ctx, that reads a context: 210 or 212, or 73 where its receiver is a context.
    ReadContext,
    /// One of a number that no table lists, which fails.
    Unlisted,
}

impl Primitive {
    /// The primitive of this number, called with `args` arguments; None exactly where it isn't built.
    pub fn from_number<W: World>(w: &W, number: u32, args: u32) -> Option<Primitive>
        requires ready { IsReady (W.stored w.now) (W.view w.now) }
        requires there { args < depth_of (W.view w.now) }
        ensures { HasBuiltNumber (W.view w.now) args result number }
    {
        if is_on_numbers(number) {
            Some(Primitive::Number)
        } else if unwinds(number) {
            Some(Primitive::Unwind)
        } else if number == WRITE {
            Some(Primitive::Write)
        } else if reads_context(w, number, args) {
            Some(Primitive::ReadContext)
        } else if is_unbuilt(number) {
            None
        } else {
            Some(Primitive::Unlisted)
        }
    }
}

/// Whether a number is that of a primitive that isn't built; 73 is one unless its receiver is a context.
fn is_unbuilt(number: u32) -> bool
    ensures { result ≡ is_unbuilt number }
{
    is_on_objects(number)
        || matches!(number, 83 | 84 | 188)
        || matches!(number, 85..=88 | 167)
        || matches!(number, 97 | 113 | 135 | 136 | 901)
        || matches!(number, 196 | 211)
}

/// Whether a number is that of a primitive on objects.
fn is_on_objects(number: u32) -> bool
    ensures { result ≡ is_object_number number }
{
    matches!(
        number,
        18 | 60..=64 | 68..=71 | 73..=75 | 77..=79 | 105 | 110 | 111 | 148 | 163 | 164 | 175 | 256..=519
    )
}

/// Whether the primitive of this number, with so many arguments, is one that reads a context.
fn reads_context<W: World>(w: &W, number: u32, args: u32) -> bool
    requires ready { IsReady (W.stored w.now) (W.view w.now) }
    requires there { args < depth_of (W.view w.now) }
    ensures { result ≡ reads_context (W.view w.now) number args }
{
    match number {
        210 | 212 => true,
        73 => is_context(w, receiver(w, args)),
        _ => false,
    }
}

/// What primitive 900 writes, which is this machine's own.
#[derive(Clone, Copy, PartialEq, Eq, Debug)]
pub enum Piece {
    /// One byte.
    Byte(u8),
    /// The bytes of this object, of format 16 to 19.
    Bytes(Oop),
}

/// What the argument is to be written as: a byte object as its bytes, a SmallInteger from 0 to 255 as one byte; None
/// exactly where it is neither.
pub fn piece_of<W: World>(w: &W, argument: Oop) -> Option<Piece>
    requires sound { IsSound (W.stored w.now) (W.view w.now) }
    requires named { IsNamed (W.stored w.now) argument }
    ensures bytes { option_map (bytes_of_piece (W.stored w.now).memory.objects) result ≡ bytes_to_write (W.view w.now)
        (name_of (W.stored w.now) argument) }
    ensures piece { IfSome result (λ p. is_piece (W.stored w.now).memory.objects p ≡ true) }
    ensures own { IfSome result (λ p. IsPieceOf argument p) }
{
    if holds_bytes(w.heap(), argument) {
        Some(Piece::Bytes(argument))
    } else {
        match byte_of(argument) {
            Some(byte) => Some(Piece::Byte(byte)),
            None => None,
        }
    }
}

/// Whether a word is the address of an object of format 16 to 19.
fn holds_bytes(heap: &Heap, o: Oop) -> bool
    ensures { result ≡ is_bytes_at heap.now.objects o.0 }
{
    heap.is_object(o) && (16..20).contains(&heap.format(o))
}

/// The SmallInteger that a word is, as a byte; None exactly where it is none from 0 to 255.
#[tactic(auto, unfolding(cs_word::specs::Word::natural_of_word))]
fn byte_of(o: Oop) -> Option<u8>
    ensures { option_map (λ b. b ∷ []) result ≡ small_byte (natural_of_word o.0) }
{
    match o.kind() {
        Kind::Small(value) if (0..256).contains(&value) => Some(value as u8),
        _ => None,
    }
}

/// Writes the bytes of a piece, each once and in order.
///
/// `Failed` comes only where a write failed. Then the sink has taken the first of the bytes, maybe none, and not all.
pub fn write<K: Sink>(heap: &Heap, piece: Piece, out: &mut K) -> Result<(), Failed>
    requires { is_piece heap.now.objects piece ≡ true }
    ensures ok { OnOk result (Appends (K.taken out.old) (K.taken out.new) (bytes_of_piece heap.now.objects piece)) }
    ensures err { OnErr result
        (AppendsPart (K.taken out.old) (K.taken out.new) (bytes_of_piece heap.now.objects piece)) }
    ensures never_falls { K.fault_count out.old ≤ K.fault_count out.new }
    ensures cause { OnErr result (Rose (K.fault_count out.old) (K.fault_count out.new)) }
{
    match piece {
        Piece::Byte(byte) => write_whole(out, &[byte]),
        Piece::Bytes(object) => write_bytes(heap, object, out),
    }
}

/// How many bytes a byte object has: the unused ones at its end don't count.
fn byte_count(heap: &Heap, object: Oop) -> u32
    requires { is_bytes_at heap.now.objects object.0 ≡ true }
    ensures value { result ≡ 4 * slot_count_of heap.now.objects object.0 - unused_bytes
        (format_at heap.now.objects object.0) }
    ensures most { result ≤ 268435456 }
{
    4 * heap.slot_count(object) - (u32::from(heap.format(object)) - 16)
}

/// The bytes of an object from place `at` up to `end`, at most 256 of them.
fn bytes_from(heap: &Heap, object: Oop, at: u32, end: u32) -> ArrayVec<u8, 256>
    requires order { at < end }
    requires within { end ≤ 4 * slot_count_of heap.now.objects object.0 }
    requires most { end ≤ 268435456 }
    ensures items { result.items ≡ take (array_vec_len result) (drop at (all_bytes_at heap.now.objects object.0)) }
    ensures some { 0 < array_vec_len result }
    ensures part { at + array_vec_len result ≤ end }
{
    let mut piece = ArrayVec::new();
    for i in at..end.min(at + AT_ONCE) {
        piece.push(heap.byte(object, i));
    }
    piece
}

/// Writes the bytes of a byte object, in pieces.
fn write_bytes<K: Sink>(heap: &Heap, object: Oop, out: &mut K) -> Result<(), Failed>
    requires { is_bytes_at heap.now.objects object.0 ≡ true }
    ensures ok { OnOk result (Appends (K.taken out.old) (K.taken out.new) (bytes_at heap.now.objects object.0)) }
    ensures err { OnErr result (AppendsPart (K.taken out.old) (K.taken out.new) (bytes_at heap.now.objects object.0)) }
    ensures never_falls { K.fault_count out.old ≤ K.fault_count out.new }
    ensures cause { OnErr result (Rose (K.fault_count out.old) (K.fault_count out.new)) }
{
    let end = byte_count(heap, object);
    let mut at = 0;
    while at < end {
        let piece = bytes_from(heap, object, at, end);
        write_whole(out, piece.as_slice())?;
        at += piece.len() as u32;
    }
    Ok(())
}
