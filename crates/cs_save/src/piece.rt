//! What is appended to a shelf's content goes through a piece that gathers it.

ghost use Rattle.std.specs.Prelude.{◌≡◌, ◌+◌, ◌≤◌, [], ◌∷◌, IsSome, OnErr, OnOk, length};
ghost use Rattle.arrayvec.specs.ArrayVec.{array_vec_len};
ghost use Rattle.cs_model.specs.SavedFile.{halves};
ghost use Rattle.cs_save.specs.Writing.{BrokeOff, BrokeWords, WentOn, WroteWords, writing};

use arrayvec::ArrayVec;
use cs_shelf::{Failed, Shelf, append_whole};

/// Bytes that are gathered before they are appended, at most 4 KiB at once.
pub(crate) type Piece = ArrayVec<u8, 4096>;

/// Appends the piece, which is empty afterwards.
pub(crate) fn flush<S: Shelf>(shelf: &mut S, piece: &mut Piece) -> Result<(), Failed>
    requires begun { IsSome (S.begun shelf.old) }
    ensures ok { OnOk result (WentOn
        (writing (S.begun shelf.old) (S.content shelf.old) (S.asked shelf.old) (S.fault_count shelf.old)
        (S.last_fault shelf.old) (S.taken shelf.old) piece.old.items)
        (writing (S.begun shelf.new) (S.content shelf.new) (S.asked shelf.new) (S.fault_count shelf.new)
        (S.last_fault shelf.new) (S.taken shelf.new) piece.new.items)
        []) }
    ensures err { OnErr result (BrokeOff
        (writing (S.begun shelf.old) (S.content shelf.old) (S.asked shelf.old) (S.fault_count shelf.old)
        (S.last_fault shelf.old) (S.taken shelf.old) piece.old.items)
        (writing (S.begun shelf.new) (S.content shelf.new) (S.asked shelf.new) (S.fault_count shelf.new)
        (S.last_fault shelf.new) (S.taken shelf.new) piece.new.items)
        []) }
    ensures empty { OnOk result (piece.new.items ≡ []) }
{
    append_whole(shelf, piece.as_slice())?;
    piece.clear();
    Ok(())
}

/// Appends the piece where it has no room for `count` more bytes.
fn make_room<S: Shelf>(shelf: &mut S, piece: &mut Piece, count: usize) -> Result<(), Failed>
    requires fits { count ≤ 4096 }
    requires begun { IsSome (S.begun shelf.old) }
    ensures ok { OnOk result (WentOn
        (writing (S.begun shelf.old) (S.content shelf.old) (S.asked shelf.old) (S.fault_count shelf.old)
        (S.last_fault shelf.old) (S.taken shelf.old) piece.old.items)
        (writing (S.begun shelf.new) (S.content shelf.new) (S.asked shelf.new) (S.fault_count shelf.new)
        (S.last_fault shelf.new) (S.taken shelf.new) piece.new.items)
        []) }
    ensures err { OnErr result (BrokeOff
        (writing (S.begun shelf.old) (S.content shelf.old) (S.asked shelf.old) (S.fault_count shelf.old)
        (S.last_fault shelf.old) (S.taken shelf.old) piece.old.items)
        (writing (S.begun shelf.new) (S.content shelf.new) (S.asked shelf.new) (S.fault_count shelf.new)
        (S.last_fault shelf.new) (S.taken shelf.new) piece.new.items)
        []) }
    ensures room { OnOk result (array_vec_len piece.new + count ≤ 4096) }
{
    if piece.remaining_capacity() < count {
        return flush(shelf, piece);
    }
    Ok(())
}

/// Writes bytes, at most 4,096 of them.
pub(crate) fn put_bytes<S: Shelf>(
    shelf: &mut S,
    piece: &mut Piece,
    bytes: &[u8],
) -> Result<(), Failed>
    requires fits { length bytes.now ≤ 4096 }
    requires begun { IsSome (S.begun shelf.old) }
    ensures ok { OnOk result (WentOn
        (writing (S.begun shelf.old) (S.content shelf.old) (S.asked shelf.old) (S.fault_count shelf.old)
        (S.last_fault shelf.old) (S.taken shelf.old) piece.old.items)
        (writing (S.begun shelf.new) (S.content shelf.new) (S.asked shelf.new) (S.fault_count shelf.new)
        (S.last_fault shelf.new) (S.taken shelf.new) piece.new.items)
        bytes.now) }
    ensures err { OnErr result (BrokeOff
        (writing (S.begun shelf.old) (S.content shelf.old) (S.asked shelf.old) (S.fault_count shelf.old)
        (S.last_fault shelf.old) (S.taken shelf.old) piece.old.items)
        (writing (S.begun shelf.new) (S.content shelf.new) (S.asked shelf.new) (S.fault_count shelf.new)
        (S.last_fault shelf.new) (S.taken shelf.new) piece.new.items)
        bytes.now) }
{
    make_room(shelf, piece, bytes.len())?;
    let Ok(()) = piece.try_extend_from_slice(bytes) else {
        unreachable!()
    };
    Ok(())
}

/// Writes a word, its lowest byte first.
pub(crate) fn put_word<S: Shelf>(shelf: &mut S, piece: &mut Piece, word: u32) -> Result<(), Failed>
    requires begun { IsSome (S.begun shelf.old) }
    ensures ok { OnOk result (WroteWords
        (writing (S.begun shelf.old) (S.content shelf.old) (S.asked shelf.old) (S.fault_count shelf.old)
        (S.last_fault shelf.old) (S.taken shelf.old) piece.old.items)
        (writing (S.begun shelf.new) (S.content shelf.new) (S.asked shelf.new) (S.fault_count shelf.new)
        (S.last_fault shelf.new) (S.taken shelf.new) piece.new.items)
        (word ∷ [])) }
    ensures err { OnErr result (BrokeWords
        (writing (S.begun shelf.old) (S.content shelf.old) (S.asked shelf.old) (S.fault_count shelf.old)
        (S.last_fault shelf.old) (S.taken shelf.old) piece.old.items)
        (writing (S.begun shelf.new) (S.content shelf.new) (S.asked shelf.new) (S.fault_count shelf.new)
        (S.last_fault shelf.new) (S.taken shelf.new) piece.new.items)
        (word ∷ [])) }
{
    put_bytes(shelf, piece, &word.to_le_bytes())?;
    Ok(())
}

/// Writes a number of 64 bits, its lower word first.
pub(crate) fn put_long<S: Shelf>(
    shelf: &mut S,
    piece: &mut Piece,
    number: u64,
) -> Result<(), Failed>
    requires begun { IsSome (S.begun shelf.old) }
    ensures ok { OnOk result (WroteWords
        (writing (S.begun shelf.old) (S.content shelf.old) (S.asked shelf.old) (S.fault_count shelf.old)
        (S.last_fault shelf.old) (S.taken shelf.old) piece.old.items)
        (writing (S.begun shelf.new) (S.content shelf.new) (S.asked shelf.new) (S.fault_count shelf.new)
        (S.last_fault shelf.new) (S.taken shelf.new) piece.new.items)
        (halves number)) }
    ensures err { OnErr result (BrokeWords
        (writing (S.begun shelf.old) (S.content shelf.old) (S.asked shelf.old) (S.fault_count shelf.old)
        (S.last_fault shelf.old) (S.taken shelf.old) piece.old.items)
        (writing (S.begun shelf.new) (S.content shelf.new) (S.asked shelf.new) (S.fault_count shelf.new)
        (S.last_fault shelf.new) (S.taken shelf.new) piece.new.items)
        (halves number)) }
{
    put_word(shelf, piece, (number & 0xffff_ffff) as u32)?;
    put_word(shelf, piece, (number >> 32) as u32)?;
    Ok(())
}
