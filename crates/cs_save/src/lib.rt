//! Images are saved.
//!
//! The file has the objects in their order, at the distances that they have in memory. Behind true stand two hidden
//! objects, of which one is the root of the class table, so that all others lie 88 bytes further on, and the table's 16
//! pages come last.
//! Behind them stands the birth section.
#![tactic(auto)]

mod births;
mod object;
mod piece;
mod table;

ghost use Rattle.std.specs.Prelude.{◌≡◌, ◌≢◌, ℕ, ◌≤◌, ◌∷◌, ◌++◌, List, [], Some, None, IsSome, OnErr, OnOk, drop};
ghost use Rattle.std.specs.Prelude.{length};
ghost use Rattle.std.specs.Prelude.{option_map, take};
ghost use Rattle.std.specs.Prelude.{Ok, IfSome};
ghost use Rattle.std.specs.Ordering.{nat_cmp};
ghost use Rattle.std.specs.FinMap.{FinMap};
ghost use Rattle.cs_classes.specs.Meaning.{kept_of};
ghost use Rattle.cs_classes.specs.declared.Roots.{Roots as RootsSeen};
ghost use Rattle.cs_heap.specs.Object.{Object, used as used_of};
ghost use Rattle.cs_model.specs.Image.{image_of};
ghost use Rattle.cs_model.specs.SavedFile.{FitsFile};
ghost use Rattle.cs_model.specs.Words.{bytes_of_words};
ghost use Rattle.cs_shelf.specs.Outside.{Rose, save_fault};
ghost use Rattle.cs_save.specs.Storable.{IsSettled, IsStorableImage};
ghost use Rattle.cs_save.specs.Filed.{saved_file, places_of, saved_heap_of, saved_of};
ghost use Rattle.cs_save.specs.Writing.{BrokeOff, BrokeWords, WentOn, WroteWords, writing};

use crate::births::put_births;
use crate::object::{file_word, object_count, put_objects};
use crate::piece::{Piece, flush, put_bytes, put_word};
use crate::table::{put_pages, put_table_head};
use arrayvec::ArrayVec;
use cs_classes::{Classes, Roots};
use cs_heap::{BASE, Heap};
use cs_shelf::{Failed, Shelf};

/// The words that the two hidden objects behind true and the pages of the class table take.
const TABLE_WORDS: u32 = 16_470;

/// The words that the objects take.
fn used(heap: &Heap) -> u32
    ensures value { result ≡ used_of heap.now.objects }
    ensures most { result ≤ 67108864 }
{
    heap.used_words().min(heap.limit_words())
}

/// Writes two words.
fn put_pair<S: Shelf>(
    shelf: &mut S,
    piece: &mut Piece,
    first: u32,
    second: u32,
) -> Result<(), Failed>
    requires begun { IsSome (S.begun shelf.old) }
    ensures ok { OnOk result (WroteWords
        (writing (S.begun shelf.old) (S.content shelf.old) (S.asked shelf.old) (S.fault_count shelf.old)
        (S.last_fault shelf.old) (S.taken shelf.old) piece.old.items)
        (writing (S.begun shelf.new) (S.content shelf.new) (S.asked shelf.new) (S.fault_count shelf.new)
        (S.last_fault shelf.new) (S.taken shelf.new) piece.new.items)
        (first ∷ second ∷ [])) }
    ensures err { OnErr result (BrokeWords
        (writing (S.begun shelf.old) (S.content shelf.old) (S.asked shelf.old) (S.fault_count shelf.old)
        (S.last_fault shelf.old) (S.taken shelf.old) piece.old.items)
        (writing (S.begun shelf.new) (S.content shelf.new) (S.asked shelf.new) (S.fault_count shelf.new)
        (S.last_fault shelf.new) (S.taken shelf.new) piece.new.items)
        (first ∷ second ∷ [])) }
{
    put_word(shelf, piece, first)?;
    put_word(shelf, piece, second)?;
    Ok(())
}

/// Writes the places 8 to 23 of the header.
fn put_places<S: Shelf>(
    used: u32,
    roots: &Roots,
    shelf: &mut S,
    piece: &mut Piece,
) -> Result<(), Failed>
    requires used { used ≤ 67108864 }
    requires begun { IsSome (S.begun shelf.old) }
    ensures ok { OnOk result (WroteWords
        (writing (S.begun shelf.old) (S.content shelf.old) (S.asked shelf.old) (S.fault_count shelf.old)
        (S.last_fault shelf.old) (S.taken shelf.old) piece.old.items)
        (writing (S.begun shelf.new) (S.content shelf.new) (S.asked shelf.new) (S.fault_count shelf.new)
        (S.last_fault shelf.new) (S.taken shelf.new) piece.new.items)
        (places_of used roots.now)) }
    ensures err { OnErr result (BrokeWords
        (writing (S.begun shelf.old) (S.content shelf.old) (S.asked shelf.old) (S.fault_count shelf.old)
        (S.last_fault shelf.old) (S.taken shelf.old) piece.old.items)
        (writing (S.begun shelf.new) (S.content shelf.new) (S.asked shelf.new) (S.fault_count shelf.new)
        (S.last_fault shelf.new) (S.taken shelf.new) piece.new.items)
        (places_of used roots.now)) }
{
    put_pair(shelf, piece, 4 * (used + TABLE_WORDS), BASE)?;
    put_pair(shelf, piece, file_word(roots.special.0), roots.last_hash)?;
    Ok(())
}

/// Writes the header.
fn put_header<S: Shelf>(
    used: u32,
    roots: &Roots,
    shelf: &mut S,
    piece: &mut Piece,
) -> Result<(), Failed>
    requires header { length roots.now.header ≡ 64 }
    requires used { used ≤ 67108864 }
    requires begun { IsSome (S.begun shelf.old) }
    ensures ok { OnOk result (WentOn
        (writing (S.begun shelf.old) (S.content shelf.old) (S.asked shelf.old) (S.fault_count shelf.old)
        (S.last_fault shelf.old) (S.taken shelf.old) piece.old.items)
        (writing (S.begun shelf.new) (S.content shelf.new) (S.asked shelf.new) (S.fault_count shelf.new)
        (S.last_fault shelf.new) (S.taken shelf.new) piece.new.items)
        (take 8 roots.now.header ++ bytes_of_words (places_of used roots.now) ++ drop 24 roots.now.header)) }
    ensures err { OnErr result (BrokeOff
        (writing (S.begun shelf.old) (S.content shelf.old) (S.asked shelf.old) (S.fault_count shelf.old)
        (S.last_fault shelf.old) (S.taken shelf.old) piece.old.items)
        (writing (S.begun shelf.new) (S.content shelf.new) (S.asked shelf.new) (S.fault_count shelf.new)
        (S.last_fault shelf.new) (S.taken shelf.new) piece.new.items)
        (take 8 roots.now.header ++ bytes_of_words (places_of used roots.now) ++ drop 24 roots.now.header)) }
{
    put_bytes(shelf, piece, &roots.header[..8])?;
    put_places(used, roots, shelf, piece)?;
    put_bytes(shelf, piece, &roots.header[24..])?;
    Ok(())
}

/// Writes the heap, which has so many objects.
fn put_heap<S: Shelf>(
    heap: &Heap,
    classes: &Classes,
    count: u32,
    shelf: &mut S,
    piece: &mut Piece,
) -> Result<(), Failed>
    requires three { 3 ≤ length heap.now.objects }
    requires count { count ≡ length heap.now.objects }
    requires begun { IsSome (S.begun shelf.old) }
    ensures ok { OnOk result (WroteWords
        (writing (S.begun shelf.old) (S.content shelf.old) (S.asked shelf.old) (S.fault_count shelf.old)
        (S.last_fault shelf.old) (S.taken shelf.old) piece.old.items)
        (writing (S.begun shelf.new) (S.content shelf.new) (S.asked shelf.new) (S.fault_count shelf.new)
        (S.last_fault shelf.new) (S.taken shelf.new) piece.new.items)
        (saved_heap_of heap.now.objects classes.now)) }
    ensures err { OnErr result (BrokeWords
        (writing (S.begun shelf.old) (S.content shelf.old) (S.asked shelf.old) (S.fault_count shelf.old)
        (S.last_fault shelf.old) (S.taken shelf.old) piece.old.items)
        (writing (S.begun shelf.new) (S.content shelf.new) (S.asked shelf.new) (S.fault_count shelf.new)
        (S.last_fault shelf.new) (S.taken shelf.new) piece.new.items)
        (saved_heap_of heap.now.objects classes.now)) }
{
    let fourth = put_objects(heap, heap.first(), 0, 3, shelf, piece)?;
    put_table_head(shelf, piece, used(heap))?;
    put_objects(heap, fourth, 3, count, shelf, piece)?;
    put_pages(classes, shelf, piece)?;
    Ok(())
}

/// Writes the whole file.
fn put_all<S: Shelf>(
    heap: &Heap,
    classes: &Classes,
    roots: &Roots,
    shelf: &mut S,
    piece: &mut Piece,
) -> Result<(), Failed>
    requires three { 3 ≤ length heap.now.objects }
    requires fits { FitsFile (saved_file heap.now.objects classes.now roots.now) }
    requires begun { IsSome (S.begun shelf.old) }
    ensures ok { OnOk result (WentOn
        (writing (S.begun shelf.old) (S.content shelf.old) (S.asked shelf.old) (S.fault_count shelf.old)
        (S.last_fault shelf.old) (S.taken shelf.old) piece.old.items)
        (writing (S.begun shelf.new) (S.content shelf.new) (S.asked shelf.new) (S.fault_count shelf.new)
        (S.last_fault shelf.new) (S.taken shelf.new) piece.new.items)
        (saved_of heap.now.objects classes.now roots.now)) }
    ensures err { OnErr result (BrokeOff
        (writing (S.begun shelf.old) (S.content shelf.old) (S.asked shelf.old) (S.fault_count shelf.old)
        (S.last_fault shelf.old) (S.taken shelf.old) piece.old.items)
        (writing (S.begun shelf.new) (S.content shelf.new) (S.asked shelf.new) (S.fault_count shelf.new)
        (S.last_fault shelf.new) (S.taken shelf.new) piece.new.items)
        (saved_of heap.now.objects classes.now roots.now)) }
{
    let count = object_count(heap);
    put_header(used(heap), roots, shelf, piece)?;
    put_heap(heap, classes, count, shelf, piece)?;
    put_births(heap, roots.next_birth, count, shelf, piece)?;
    Ok(())
}

/// Appends the whole file to the content that is begun.
fn put_file<S: Shelf>(
    heap: &Heap,
    classes: &Classes,
    roots: &Roots,
    shelf: &mut S,
) -> Result<(), Failed>
    requires three { 3 ≤ length heap.now.objects }
    requires fits { FitsFile (saved_file heap.now.objects classes.now roots.now) }
    requires begun { IsSome (S.begun shelf.old) }
    ensures ok { OnOk result (WentOn
        (writing (S.begun shelf.old) (S.content shelf.old) (S.asked shelf.old) (S.fault_count shelf.old)
        (S.last_fault shelf.old) (S.taken shelf.old) [])
        (writing (S.begun shelf.new) (S.content shelf.new) (S.asked shelf.new) (S.fault_count shelf.new)
        (S.last_fault shelf.new) (S.taken shelf.new) [])
        (saved_of heap.now.objects classes.now roots.now)) }
    ensures err { OnErr result (BrokeOff
        (writing (S.begun shelf.old) (S.content shelf.old) (S.asked shelf.old) (S.fault_count shelf.old)
        (S.last_fault shelf.old) (S.taken shelf.old) [])
        (writing (S.begun shelf.new) (S.content shelf.new) (S.asked shelf.new) (S.fault_count shelf.new)
        (S.last_fault shelf.new) (S.taken shelf.new) [])
        (saved_of heap.now.objects classes.now roots.now)) }
{
    let mut piece = ArrayVec::new();
    put_all(heap, classes, roots, shelf, &mut piece)?;
    flush(shelf, &mut piece)?;
    Ok(())
}

/// The image of what is saved is the state, where the heap is within its limit.
pub fn the_image_of_what_is_saved_is_the_state()
    ensures { (objects : List Object) (table : FinMap nat_cmp ℕ) (roots : RootsSeen) (limit : ℕ)
        → IsStorableImage objects table roots limit → used_of objects ≤ 67108864
        → image_of (saved_of objects table roots) limit ≡ Ok (kept_of objects table roots None) }
{}

/// What is settled is storable: a whole memory within its limit, in which each context is single and each pc lies in
/// its method, and in which there is an active process, nil or one that keeps a live context.
pub fn what_is_settled_is_storable()
    ensures { (objects : List Object) (table : FinMap nat_cmp ℕ) (roots : RootsSeen) (limit : ℕ)
        → IsSettled objects table roots limit → IsStorableImage objects table roots limit }
{}

/// Saves an image under a name, in pieces of at most 4,096 bytes. It takes no memory. The image must be storable.
///
/// `Failed` comes only where a call of the shelf failed. Then it isn't known that the name's content is whole, and the
/// shelf has taken the first of the bytes.
pub fn save<S: Shelf>(
    heap: &Heap,
    classes: &Classes,
    roots: &Roots,
    shelf: &mut S,
    name: &str,
) -> Result<(), Failed>
    requires name { length name.now ≤ 4096 }
    requires storable { IsStorableImage heap.now.objects classes.now roots.now heap.now.limit }

    // Where the shelf tells what it takes, the name holds these bytes.
    ensures saved { OnOk result (S.content shelf.new name.now ≡ option_map
        (λ (taken : List ℕ). saved_of heap.now.objects classes.now roots.now) (S.taken shelf.old)) }
    ensures part { OnErr result ((n : ℕ) × (S.taken shelf.new ≡ option_map
        (λ (taken : List ℕ). take n (saved_of heap.now.objects classes.now roots.now)) (S.taken shelf.old))) }

    // The image of what it holds is the state of the heap, the class table and the roots, with births and the header.
    ensures image { OnOk result (IfSome (S.content shelf.new name.now) (λ (bytes : List ℕ).
        image_of bytes heap.now.limit ≡ Ok (kept_of heap.now.objects classes.now roots.now None))) }

    // No content is begun any more, and no other name changes what it holds.
    ensures none_begun { S.begun shelf.new ≡ None }
    ensures contents { (other : List ℕ) → other ≢ name.now → S.content shelf.new other ≡ S.content shelf.old other }
    ensures asked_stays { S.asked shelf.new ≡ S.asked shelf.old }

    // A failed call is the last fault, under that name.
    ensures never_falls { S.fault_count shelf.old ≤ S.fault_count shelf.new }
    ensures cause { OnErr result (Rose (S.fault_count shelf.old) (S.fault_count shelf.new)) }
    ensures last { OnErr result (S.last_fault shelf.new ≡ save_fault name.now) }
    ensures last_stays { OnOk result (S.last_fault shelf.new ≡ S.last_fault shelf.old) }
{
    // for what its clauses say: the heap is within its limit
    let _used = used(heap);
    shelf.start(name)?;
    put_file(heap, classes, roots, shelf)?;
    shelf.finish()?;
    Ok(())
}
