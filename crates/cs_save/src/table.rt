//! The class table as words of a file.

ghost use Rattle.std.specs.Prelude.{◌≡◌, ◌++◌, ◌^◌, ◌<◌, ◌≤◌, IsSome, OnErr, OnOk, flat_map, map};
ghost use Rattle.std.specs.List.{range_with_len};
ghost use Rattle.cs_save.specs.Filed.{entry_word as entry_word_of, hidden_bits as hidden_bits_of, page_at};
ghost use Rattle.cs_save.specs.Filed.{page_entries};
ghost use Rattle.cs_model.specs.SavedFile.{free_lists, saved_words};
ghost use Rattle.cs_save.specs.Filed.{saved_page, saved_root};
ghost use Rattle.cs_save.specs.Writing.{BrokeWords, WroteWords, writing};

use crate::object::{file_word, put_head};
use crate::piece::{Piece, put_long, put_word};
use bitflags::Flags as _;
use cs_classes::Classes;
use cs_heap::BASE;
use cs_shelf::{Failed, Shelf};
use cs_word::{Flags, Header};

/// How many pages the class table has, and how many entries a page.
const PAGES: u32 = 16;

const PAGE_ENTRIES: u32 = 1024;

/// The words of a page, its head included.
const PAGE_WORDS: u32 = 1028;

/// The class index of hidden objects.
const HIDDEN: u32 = 16;

/// The header of a hidden object.
fn hidden_bits(format: u8, slots: u32) -> u64
    requires { format < 2 ^ 5 }
    ensures { result ≡ hidden_bits_of format slots }
{
    let header = Header {
        class: HIDDEN,
        flags: Flags::empty(),
        format,
        hash: 0,
        slots: slots.min(255) as u8,
    };
    header.write()
}

/// The address of a page in the file, where the visible objects take so many words.
fn page_address(used: u32, page: u32) -> u32
    requires used { used ≤ 67108864 }
    requires page { page < 16 }
    ensures { result ≡ page_at used page }
{
    BASE + 4 * (used + 22 + PAGE_WORDS * page + 2)
}

/// Writes the addresses of the pages.
fn put_addresses<S: Shelf>(shelf: &mut S, piece: &mut Piece, used: u32) -> Result<(), Failed>
    requires used { used ≤ 67108864 }
    requires begun { IsSome (S.begun shelf.old) }
    ensures ok { OnOk result (WroteWords
        (writing (S.begun shelf.old) (S.content shelf.old) (S.asked shelf.old) (S.fault_count shelf.old)
        (S.last_fault shelf.old) (S.taken shelf.old) piece.old.items)
        (writing (S.begun shelf.new) (S.content shelf.new) (S.asked shelf.new) (S.fault_count shelf.new)
        (S.last_fault shelf.new) (S.taken shelf.new) piece.new.items)
        (map (page_at used) (range_with_len 0 16))) }
    ensures err { OnErr result (BrokeWords
        (writing (S.begun shelf.old) (S.content shelf.old) (S.asked shelf.old) (S.fault_count shelf.old)
        (S.last_fault shelf.old) (S.taken shelf.old) piece.old.items)
        (writing (S.begun shelf.new) (S.content shelf.new) (S.asked shelf.new) (S.fault_count shelf.new)
        (S.last_fault shelf.new) (S.taken shelf.new) piece.new.items)
        (map (page_at used) (range_with_len 0 16))) }
{
    for page in 0..PAGES {
        put_word(shelf, piece, page_address(used, page))?;
    }
    Ok(())
}

/// Writes the root of the class table, which names its pages.
fn put_root<S: Shelf>(shelf: &mut S, piece: &mut Piece, used: u32) -> Result<(), Failed>
    requires used { used ≤ 67108864 }
    requires begun { IsSome (S.begun shelf.old) }
    ensures ok { OnOk result (WroteWords
        (writing (S.begun shelf.old) (S.content shelf.old) (S.asked shelf.old) (S.fault_count shelf.old)
        (S.last_fault shelf.old) (S.taken shelf.old) piece.old.items)
        (writing (S.begun shelf.new) (S.content shelf.new) (S.asked shelf.new) (S.fault_count shelf.new)
        (S.last_fault shelf.new) (S.taken shelf.new) piece.new.items)
        (saved_root used)) }
    ensures err { OnErr result (BrokeWords
        (writing (S.begun shelf.old) (S.content shelf.old) (S.asked shelf.old) (S.fault_count shelf.old)
        (S.last_fault shelf.old) (S.taken shelf.old) piece.old.items)
        (writing (S.begun shelf.new) (S.content shelf.new) (S.asked shelf.new) (S.fault_count shelf.new)
        (S.last_fault shelf.new) (S.taken shelf.new) piece.new.items)
        (saved_root used)) }
{
    put_head(shelf, piece, PAGES, hidden_bits(2, PAGES))?;
    put_addresses(shelf, piece, used)?;
    Ok(())
}

/// Writes the object of two words behind true, which mean nothing.
fn put_free_lists<S: Shelf>(shelf: &mut S, piece: &mut Piece) -> Result<(), Failed>
    requires begun { IsSome (S.begun shelf.old) }
    ensures ok { OnOk result (WroteWords
        (writing (S.begun shelf.old) (S.content shelf.old) (S.asked shelf.old) (S.fault_count shelf.old)
        (S.last_fault shelf.old) (S.taken shelf.old) piece.old.items)
        (writing (S.begun shelf.new) (S.content shelf.new) (S.asked shelf.new) (S.fault_count shelf.new)
        (S.last_fault shelf.new) (S.taken shelf.new) piece.new.items)
        (saved_words free_lists)) }
    ensures err { OnErr result (BrokeWords
        (writing (S.begun shelf.old) (S.content shelf.old) (S.asked shelf.old) (S.fault_count shelf.old)
        (S.last_fault shelf.old) (S.taken shelf.old) piece.old.items)
        (writing (S.begun shelf.new) (S.content shelf.new) (S.asked shelf.new) (S.fault_count shelf.new)
        (S.last_fault shelf.new) (S.taken shelf.new) piece.new.items)
        (saved_words free_lists)) }
{
    put_head(shelf, piece, 2, hidden_bits(10, 2))?;
    put_long(shelf, piece, 0)?;
    Ok(())
}

/// Writes the two hidden objects that stand behind true. The visible ones take so many words.
pub(crate) fn put_table_head<S: Shelf>(
    shelf: &mut S,
    piece: &mut Piece,
    used: u32,
) -> Result<(), Failed>
    requires used { used ≤ 67108864 }
    requires begun { IsSome (S.begun shelf.old) }
    ensures ok { OnOk result (WroteWords
        (writing (S.begun shelf.old) (S.content shelf.old) (S.asked shelf.old) (S.fault_count shelf.old)
        (S.last_fault shelf.old) (S.taken shelf.old) piece.old.items)
        (writing (S.begun shelf.new) (S.content shelf.new) (S.asked shelf.new) (S.fault_count shelf.new)
        (S.last_fault shelf.new) (S.taken shelf.new) piece.new.items)
        (saved_words free_lists ++ saved_root used)) }
    ensures err { OnErr result (BrokeWords
        (writing (S.begun shelf.old) (S.content shelf.old) (S.asked shelf.old) (S.fault_count shelf.old)
        (S.last_fault shelf.old) (S.taken shelf.old) piece.old.items)
        (writing (S.begun shelf.new) (S.content shelf.new) (S.asked shelf.new) (S.fault_count shelf.new)
        (S.last_fault shelf.new) (S.taken shelf.new) piece.new.items)
        (saved_words free_lists ++ saved_root used)) }
{
    put_free_lists(shelf, piece)?;
    put_root(shelf, piece, used)?;
    Ok(())
}

/// The word of an entry: an empty one names nil.
#[tactic(auto, unfolding(crate::specs::Filed::entry_word))]
fn entry_word(classes: &Classes, index: u32) -> u32
    requires { index < 16384 }
    ensures { result ≡ entry_word_of classes.now index }
{
    match classes.entry(index) {
        Some(class) => file_word(class.0),
        None => BASE,
    }
}

/// Writes the entries of a page.
fn put_entries<S: Shelf>(
    classes: &Classes,
    page: u32,
    shelf: &mut S,
    piece: &mut Piece,
) -> Result<(), Failed>
    requires page { page < 16 }
    requires begun { IsSome (S.begun shelf.old) }
    ensures ok { OnOk result (WroteWords
        (writing (S.begun shelf.old) (S.content shelf.old) (S.asked shelf.old) (S.fault_count shelf.old)
        (S.last_fault shelf.old) (S.taken shelf.old) piece.old.items)
        (writing (S.begun shelf.new) (S.content shelf.new) (S.asked shelf.new) (S.fault_count shelf.new)
        (S.last_fault shelf.new) (S.taken shelf.new) piece.new.items)
        (page_entries classes.now page)) }
    ensures err { OnErr result (BrokeWords
        (writing (S.begun shelf.old) (S.content shelf.old) (S.asked shelf.old) (S.fault_count shelf.old)
        (S.last_fault shelf.old) (S.taken shelf.old) piece.old.items)
        (writing (S.begun shelf.new) (S.content shelf.new) (S.asked shelf.new) (S.fault_count shelf.new)
        (S.last_fault shelf.new) (S.taken shelf.new) piece.new.items)
        (page_entries classes.now page)) }
{
    let first = PAGE_ENTRIES * page;
    for index in first..first + PAGE_ENTRIES {
        put_word(shelf, piece, entry_word(classes, index))?;
    }
    Ok(())
}

/// Writes a page.
fn put_page<S: Shelf>(
    classes: &Classes,
    page: u32,
    shelf: &mut S,
    piece: &mut Piece,
) -> Result<(), Failed>
    requires page { page < 16 }
    requires begun { IsSome (S.begun shelf.old) }
    ensures ok { OnOk result (WroteWords
        (writing (S.begun shelf.old) (S.content shelf.old) (S.asked shelf.old) (S.fault_count shelf.old)
        (S.last_fault shelf.old) (S.taken shelf.old) piece.old.items)
        (writing (S.begun shelf.new) (S.content shelf.new) (S.asked shelf.new) (S.fault_count shelf.new)
        (S.last_fault shelf.new) (S.taken shelf.new) piece.new.items)
        (saved_page classes.now page)) }
    ensures err { OnErr result (BrokeWords
        (writing (S.begun shelf.old) (S.content shelf.old) (S.asked shelf.old) (S.fault_count shelf.old)
        (S.last_fault shelf.old) (S.taken shelf.old) piece.old.items)
        (writing (S.begun shelf.new) (S.content shelf.new) (S.asked shelf.new) (S.fault_count shelf.new)
        (S.last_fault shelf.new) (S.taken shelf.new) piece.new.items)
        (saved_page classes.now page)) }
{
    put_head(shelf, piece, PAGE_ENTRIES, hidden_bits(2, PAGE_ENTRIES))?;
    put_entries(classes, page, shelf, piece)?;
    Ok(())
}

/// Writes the pages of the class table.
pub(crate) fn put_pages<S: Shelf>(
    classes: &Classes,
    shelf: &mut S,
    piece: &mut Piece,
) -> Result<(), Failed>
    requires begun { IsSome (S.begun shelf.old) }
    ensures ok { OnOk result (WroteWords
        (writing (S.begun shelf.old) (S.content shelf.old) (S.asked shelf.old) (S.fault_count shelf.old)
        (S.last_fault shelf.old) (S.taken shelf.old) piece.old.items)
        (writing (S.begun shelf.new) (S.content shelf.new) (S.asked shelf.new) (S.fault_count shelf.new)
        (S.last_fault shelf.new) (S.taken shelf.new) piece.new.items)
        (flat_map (saved_page classes.now) (range_with_len 0 16))) }
    ensures err { OnErr result (BrokeWords
        (writing (S.begun shelf.old) (S.content shelf.old) (S.asked shelf.old) (S.fault_count shelf.old)
        (S.last_fault shelf.old) (S.taken shelf.old) piece.old.items)
        (writing (S.begun shelf.new) (S.content shelf.new) (S.asked shelf.new) (S.fault_count shelf.new)
        (S.last_fault shelf.new) (S.taken shelf.new) piece.new.items)
        (flat_map (saved_page classes.now) (range_with_len 0 16))) }
{
    for page in 0..PAGES {
        put_page(classes, page, shelf, piece)?;
    }
    Ok(())
}
