//! The birth section of a file.

ghost use Rattle.std.specs.Prelude.{◌≡◌, ◌≤◌, ◌∷◌, ◌++◌, IsSome, OnErr, OnOk, length, option_map, flat_map, map};
ghost use Rattle.cs_heap.specs.Object.{address_of};
ghost use Rattle.cs_model.specs.SavedFile.{halves};
ghost use Rattle.cs_save.specs.Filed.{saved_births};
ghost use Rattle.cs_save.specs.Writing.{BrokeWords, WroteWords, writing};

use crate::piece::{Piece, put_long};
use cs_heap::Heap;
use cs_shelf::{Failed, Shelf};

/// Writes the births of the first objects, of which there are so many.
fn put_each_birth<S: Shelf>(
    heap: &Heap,
    count: u32,
    shelf: &mut S,
    piece: &mut Piece,
) -> Result<(), Failed>
    requires count { count ≤ length heap.now.objects }
    requires begun { IsSome (S.begun shelf.old) }
    ensures ok { OnOk result (WroteWords
        (writing (S.begun shelf.old) (S.content shelf.old) (S.asked shelf.old) (S.fault_count shelf.old)
        (S.last_fault shelf.old) (S.taken shelf.old) piece.old.items)
        (writing (S.begun shelf.new) (S.content shelf.new) (S.asked shelf.new) (S.fault_count shelf.new)
        (S.last_fault shelf.new) (S.taken shelf.new) piece.new.items)
        (saved_births heap.now.objects count)) }
    ensures err { OnErr result (BrokeWords
        (writing (S.begun shelf.old) (S.content shelf.old) (S.asked shelf.old) (S.fault_count shelf.old)
        (S.last_fault shelf.old) (S.taken shelf.old) piece.old.items)
        (writing (S.begun shelf.new) (S.content shelf.new) (S.asked shelf.new) (S.fault_count shelf.new)
        (S.last_fault shelf.new) (S.taken shelf.new) piece.new.items)
        (saved_births heap.now.objects count)) }
{
    let mut at = heap.first();
    for _number in 0..count {
        let Some(o) = at else { unreachable!() };
        put_long(shelf, piece, heap.birth(o))?;
        at = heap.next(o);
    }
    Ok(())
}

/// Writes the next birth, how many births there are, and these.
pub(crate) fn put_births<S: Shelf>(
    heap: &Heap,
    next: u64,
    count: u32,
    shelf: &mut S,
    piece: &mut Piece,
) -> Result<(), Failed>
    requires count { count ≤ length heap.now.objects }
    requires begun { IsSome (S.begun shelf.old) }
    ensures ok { OnOk result (WroteWords
        (writing (S.begun shelf.old) (S.content shelf.old) (S.asked shelf.old) (S.fault_count shelf.old)
        (S.last_fault shelf.old) (S.taken shelf.old) piece.old.items)
        (writing (S.begun shelf.new) (S.content shelf.new) (S.asked shelf.new) (S.fault_count shelf.new)
        (S.last_fault shelf.new) (S.taken shelf.new) piece.new.items)
        (halves next ++ (halves count ++ saved_births heap.now.objects count))) }
    ensures err { OnErr result (BrokeWords
        (writing (S.begun shelf.old) (S.content shelf.old) (S.asked shelf.old) (S.fault_count shelf.old)
        (S.last_fault shelf.old) (S.taken shelf.old) piece.old.items)
        (writing (S.begun shelf.new) (S.content shelf.new) (S.asked shelf.new) (S.fault_count shelf.new)
        (S.last_fault shelf.new) (S.taken shelf.new) piece.new.items)
        (halves next ++ (halves count ++ saved_births heap.now.objects count))) }
{
    put_long(shelf, piece, next)?;
    put_long(shelf, piece, count as u64)?;
    put_each_birth(heap, count, shelf, piece)?;
    Ok(())
}
