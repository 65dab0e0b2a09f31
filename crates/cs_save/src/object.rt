//! The objects of a heap as words of a file.

ghost use Rattle.std.specs.Prelude.{◌≡◌, ◌*◌, ◌^◌, ◌<◌, ◌≤◌, ◌++◌, [], ◌∷◌, IfOk, IsSome, IsTrue, OnErr, OnOk, length};
ghost use Rattle.std.specs.Prelude.{map, option_map, unwrap_or};
ghost use Rattle.std.specs.List.{range_with_len};
ghost use Rattle.cs_heap.specs.Object.{address_of, format_at, is_object, slot_count_of, words_at};
ghost use Rattle.cs_model.specs.SavedFile.{body_size as body_size_of, halves, overflow_words};
ghost use Rattle.cs_save.specs.Filed.{body_word as body_word_of, file_word as file_word_of, filed_bits_at};
ghost use Rattle.std.specs.Prelude.{if◌then◌else◌};
ghost use Rattle.cs_word.specs.Word.{natural_of_word};
ghost use Rattle.cs_word.specs.Header.{flag_bits};
ghost use Rattle.cs_model.specs.Obj.{literal_count as literal_count_of};
ghost use Rattle.cs_save.specs.Filed.{referring as referring_of, saved_at, saved_between};
ghost use Rattle.cs_save.specs.Writing.{BrokeWords, WroteWords, writing};

use crate::piece::{Piece, put_long, put_word};
use bitflags::Flags as _;
use cs_heap::{BASE, Heap};
use cs_shelf::{Failed, Shelf};
use cs_word::{Flags, Header, Kind, Oop};

/// The address of the fourth object, in front of which the head of the class table is put.
const FOURTH: u32 = BASE + 48;

/// How many bytes that head has.
const TABLE_HEAD: u32 = 88;

/// The word of the file for a word of memory that may name an object.
#[tactic(auto, unfolding(crate::specs::Filed::file_word))]
pub(crate) fn file_word(word: u32) -> u32
    ensures { result ≡ file_word_of word }
{
    if word % 4 == 0 && word >= FOURTH {
        word.wrapping_add(TABLE_HEAD)
    } else {
        word
    }
}

/// The number that a word is, and 0 where it is no SmallInteger or negative.
#[tactic(auto, unfolding(cs_word::specs::Word::natural_of_word))]
fn count(word: Oop) -> u32
    ensures { result ≡ unwrap_or (natural_of_word word.0) 0 }
{
    match word.kind() {
        Kind::Small(value) if value >= 0 => value as u32,
        _ => 0,
    }
}

/// How many literals the method with this header has.
fn literal_count(header: Oop) -> u32
    ensures value { result ≡ literal_count_of (unwrap_or (natural_of_word header.0) 0) }
    ensures most { result < 2 ^ 15 }
{
    count(header) % (1 << 15)
}

/// How many of an object's words may name objects, from the first on.
#[tactic(auto, unfolding(crate::specs::Filed::referring))]
fn referring(heap: &Heap, o: Oop) -> u32
    requires { IsTrue (is_object heap.now.objects o.0) }
    ensures { result ≡ referring_of (format_at heap.now.objects o.0) (words_at heap.now.objects o.0) }
{
    match heap.format(o) {
        0..=5 => heap.slot_count(o),
        24..=27 if heap.slot_count(o) > 0 => 1 + literal_count(heap.slot(o, 0)),
        _ => 0,
    }
}

/// Word `i` of an object's body, of whose slots so many may name objects.
#[tactic(auto, unfolding(crate::specs::Filed::body_word))]
fn body_word(heap: &Heap, o: Oop, referring: u32, i: u32) -> u32
    requires object { IsTrue (is_object heap.now.objects o.0) }
    requires referring { referring ≡ referring_of (format_at heap.now.objects o.0) (words_at heap.now.objects o.0) }
    ensures { result ≡ body_word_of (format_at heap.now.objects o.0) (words_at heap.now.objects o.0) i }
{
    if i >= heap.slot_count(o) {
        0
    } else if i < referring {
        file_word(heap.slot(o, i).0)
    } else {
        heap.slot(o, i).0
    }
}

/// How many words a body of so many slots has.
fn body_size(slots: u32) -> u32
    requires { slots ≤ 67108864 }
    ensures { result ≡ body_size_of slots }
{
    2 * slots.div_ceil(2).max(1)
}

/// Writes the body of an object.
fn put_body<S: Shelf>(heap: &Heap, o: Oop, shelf: &mut S, piece: &mut Piece) -> Result<(), Failed>
    requires object { IsTrue (is_object heap.now.objects o.0) }
    requires begun { IsSome (S.begun shelf.old) }
    ensures ok { OnOk result (WroteWords
        (writing (S.begun shelf.old) (S.content shelf.old) (S.asked shelf.old) (S.fault_count shelf.old)
        (S.last_fault shelf.old) (S.taken shelf.old) piece.old.items)
        (writing (S.begun shelf.new) (S.content shelf.new) (S.asked shelf.new) (S.fault_count shelf.new)
        (S.last_fault shelf.new) (S.taken shelf.new) piece.new.items)
        (map (body_word_of (format_at heap.now.objects o.0) (words_at heap.now.objects o.0))
        (range_with_len 0 (body_size_of (slot_count_of heap.now.objects o.0))))) }
    ensures err { OnErr result (BrokeWords
        (writing (S.begun shelf.old) (S.content shelf.old) (S.asked shelf.old) (S.fault_count shelf.old)
        (S.last_fault shelf.old) (S.taken shelf.old) piece.old.items)
        (writing (S.begun shelf.new) (S.content shelf.new) (S.asked shelf.new) (S.fault_count shelf.new)
        (S.last_fault shelf.new) (S.taken shelf.new) piece.new.items)
        (map (body_word_of (format_at heap.now.objects o.0) (words_at heap.now.objects o.0))
        (range_with_len 0 (body_size_of (slot_count_of heap.now.objects o.0))))) }
{
    let referring = referring(heap, o);
    for i in 0..body_size(heap.slot_count(o)) {
        put_word(shelf, piece, body_word(heap, o, referring, i))?;
    }
    Ok(())
}

/// Writes what stands before the header of an object of so many slots.
#[tactic(auto, unfolding(cs_model::specs::SavedFile::overflow_words))]
fn put_overflow<S: Shelf>(shelf: &mut S, piece: &mut Piece, slots: u32) -> Result<(), Failed>
    requires begun { IsSome (S.begun shelf.old) }
    ensures ok { OnOk result (WroteWords
        (writing (S.begun shelf.old) (S.content shelf.old) (S.asked shelf.old) (S.fault_count shelf.old)
        (S.last_fault shelf.old) (S.taken shelf.old) piece.old.items)
        (writing (S.begun shelf.new) (S.content shelf.new) (S.asked shelf.new) (S.fault_count shelf.new)
        (S.last_fault shelf.new) (S.taken shelf.new) piece.new.items)
        (overflow_words slots)) }
    ensures err { OnErr result (BrokeWords
        (writing (S.begun shelf.old) (S.content shelf.old) (S.asked shelf.old) (S.fault_count shelf.old)
        (S.last_fault shelf.old) (S.taken shelf.old) piece.old.items)
        (writing (S.begun shelf.new) (S.content shelf.new) (S.asked shelf.new) (S.fault_count shelf.new)
        (S.last_fault shelf.new) (S.taken shelf.new) piece.new.items)
        (overflow_words slots)) }
{
    if slots >= 255 {
        put_word(shelf, piece, slots)?;
        put_word(shelf, piece, 255 << 24)?;
    }
    Ok(())
}

/// Writes an object up to its header.
pub(crate) fn put_head<S: Shelf>(
    shelf: &mut S,
    piece: &mut Piece,
    slots: u32,
    header: u64,
) -> Result<(), Failed>
    requires begun { IsSome (S.begun shelf.old) }
    ensures ok { OnOk result (WroteWords
        (writing (S.begun shelf.old) (S.content shelf.old) (S.asked shelf.old) (S.fault_count shelf.old)
        (S.last_fault shelf.old) (S.taken shelf.old) piece.old.items)
        (writing (S.begun shelf.new) (S.content shelf.new) (S.asked shelf.new) (S.fault_count shelf.new)
        (S.last_fault shelf.new) (S.taken shelf.new) piece.new.items)
        (overflow_words slots ++ halves header)) }
    ensures err { OnErr result (BrokeWords
        (writing (S.begun shelf.old) (S.content shelf.old) (S.asked shelf.old) (S.fault_count shelf.old)
        (S.last_fault shelf.old) (S.taken shelf.old) piece.old.items)
        (writing (S.begun shelf.new) (S.content shelf.new) (S.asked shelf.new) (S.fault_count shelf.new)
        (S.last_fault shelf.new) (S.taken shelf.new) piece.new.items)
        (overflow_words slots ++ halves header)) }
{
    put_overflow(shelf, piece, slots)?;
    put_long(shelf, piece, header)?;
    Ok(())
}

/// The flags of an object in the file.
fn fixed_flags(fixed: bool) -> Flags
    ensures { flag_bits result ≡ if fixed then 1 else 0 }
{
    if fixed {
        Flags::IS_IMMUTABLE
    } else {
        Flags::empty()
    }
}

/// The header of an object of the heap in the file: of its flags the file has only whether it is fixed.
fn header_bits(heap: &Heap, o: Oop) -> u64
    requires { IsTrue (is_object heap.now.objects o.0) }
    ensures { result ≡ filed_bits_at heap.now.objects o.0 }
{
    let seen = heap.header(o);
    let flags = fixed_flags(heap.is_fixed(o));
    let header = Header { flags, ..seen };
    header.write()
}

/// Writes an object.
fn put_object<S: Shelf>(heap: &Heap, o: Oop, shelf: &mut S, piece: &mut Piece) -> Result<(), Failed>
    requires object { IsTrue (is_object heap.now.objects o.0) }
    requires begun { IsSome (S.begun shelf.old) }
    ensures ok { OnOk result (WroteWords
        (writing (S.begun shelf.old) (S.content shelf.old) (S.asked shelf.old) (S.fault_count shelf.old)
        (S.last_fault shelf.old) (S.taken shelf.old) piece.old.items)
        (writing (S.begun shelf.new) (S.content shelf.new) (S.asked shelf.new) (S.fault_count shelf.new)
        (S.last_fault shelf.new) (S.taken shelf.new) piece.new.items)
        (saved_at heap.now.objects o.0)) }
    ensures err { OnErr result (BrokeWords
        (writing (S.begun shelf.old) (S.content shelf.old) (S.asked shelf.old) (S.fault_count shelf.old)
        (S.last_fault shelf.old) (S.taken shelf.old) piece.old.items)
        (writing (S.begun shelf.new) (S.content shelf.new) (S.asked shelf.new) (S.fault_count shelf.new)
        (S.last_fault shelf.new) (S.taken shelf.new) piece.new.items)
        (saved_at heap.now.objects o.0)) }
{
    put_head(shelf, piece, heap.slot_count(o), header_bits(heap, o))?;
    put_body(heap, o, shelf, piece)?;
    Ok(())
}

/// Writes the objects from one number up to another, counted from 0, of which `at` is the first one. Gives the one
/// behind them.
pub(crate) fn put_objects<S: Shelf>(
    heap: &Heap,
    at: Option<Oop>,
    from: u32,
    end: u32,
    shelf: &mut S,
    piece: &mut Piece,
) -> Result<Option<Oop>, Failed>
    requires at { option_map (λ o. o.0) at ≡ address_of heap.now.objects from }
    requires order { from ≤ end }
    requires end { end ≤ length heap.now.objects }
    requires begun { IsSome (S.begun shelf.old) }
    ensures ok { OnOk result (WroteWords
        (writing (S.begun shelf.old) (S.content shelf.old) (S.asked shelf.old) (S.fault_count shelf.old)
        (S.last_fault shelf.old) (S.taken shelf.old) piece.old.items)
        (writing (S.begun shelf.new) (S.content shelf.new) (S.asked shelf.new) (S.fault_count shelf.new)
        (S.last_fault shelf.new) (S.taken shelf.new) piece.new.items)
        (saved_between heap.now.objects from end)) }
    ensures err { OnErr result (BrokeWords
        (writing (S.begun shelf.old) (S.content shelf.old) (S.asked shelf.old) (S.fault_count shelf.old)
        (S.last_fault shelf.old) (S.taken shelf.old) piece.old.items)
        (writing (S.begun shelf.new) (S.content shelf.new) (S.asked shelf.new) (S.fault_count shelf.new)
        (S.last_fault shelf.new) (S.taken shelf.new) piece.new.items)
        (saved_between heap.now.objects from end)) }
    ensures next { IfOk result (λ next. option_map (λ o. o.0) next ≡ address_of heap.now.objects end) }
{
    let mut at = at;
    for _number in from..end {
        let Some(o) = at else { unreachable!() };
        put_object(heap, o, shelf, piece)?;
        at = heap.next(o);
    }
    Ok(at)
}

/// How many objects a heap has.
pub(crate) fn object_count(heap: &Heap) -> u32
    ensures { result ≡ length heap.now.objects }
{
    let most = heap.used_words();
    let mut at = heap.first();
    for count in 0..most {
        let Some(o) = at else {
            return count;
        };
        at = heap.next(o);
    }
    most
}
