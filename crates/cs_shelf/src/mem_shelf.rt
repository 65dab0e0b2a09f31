//! A shelf in memory.

ghost use Rattle.std.specs.Prelude.{◌≡◌, ◌≢◌, ◌↔◌, ◌⊎◌, ◌+◌, ◌++◌, ◌-◌, ◌<◌, ◌≤◌, ℕ, List, [], Some, None, All, IfOk};
ghost use Rattle.std.specs.Prelude.{IfSome, OnErr, IsErr, IsNone, IsSome, OnOk, drop, false, length, map, max, min};
ghost use Rattle.std.specs.Prelude.{slice_get, string_bytes, string_len, take};
ghost use Rattle.cs_shelf.specs.Memory.{IsFullFor, IsListed, NamesDiffer, content_of, failed, grown, name_at};
ghost use Rattle.cs_shelf.specs.Memory.{new_calls, new_entry, none_taken, passed, entry_place, put_at, room_left};
ghost use Rattle.cs_shelf.specs.Outside.{Rose, read_fault, save_fault};

use crate::calls::Calls;
use crate::entry::{Entry, content_named, place_named};
use crate::last_fault::LastFault;
use crate::taken::Taken;
use crate::{Failed, Shelf};
use std::alloc::{AllocError, Global};
use std::marker::Model;

/// A shelf that holds all in memory, for tests and for runs over contents that are at hand.
///
/// It has a fixed list of names, and fails at the calls that it was told, where a name that is read has
/// no content, where a name that is started isn't in the list, and where no room is left for a piece.
/// After `new` it takes no more memory.
#[derive(Drop)]
pub struct MemShelf {
    entries: Vec<Entry>,
    begun: Option<usize>,
    taken: Taken,
    calls: Calls,
    last: LastFault,
    asked: u128,
}

impl Model for MemShelf {
    ghost use Rattle.cs_shelf.specs.Memory.{AreKept, ShelfView};

    ghost Value = { ShelfView };

    ghost view = { λ s. record {
      entries = s.entries.items;
      begun = s.begun;
      taken = s.taken;
      calls = s.calls;
      last = s.last;
      asked = s.asked;
    } };

    ghost invariant = { λ s. AreKept s.taken.room s.entries.items };
}

impl MemShelf {
    /// A shelf of these names, none with a content yet and each with memory for one of at most `room`
    /// bytes. Its calls fail that `fail` lists, counted from 0.
    pub fn new(
        alloc: Global,
        names: Vec<String>,
        room: usize,
        fail: &[u64],
    ) -> Result<MemShelf, AllocError>
        requires differ { NamesDiffer (map string_bytes names.items) }
        requires short { All (λ name. string_len name ≤ 4096) names.items }
        ensures entries { IfOk result (λ shelf.
            shelf.entries ≡ map (new_entry room) (map string_bytes names.items)) }
        ensures calls { IfOk result (λ shelf. shelf.calls ≡ new_calls fail.now) }
        ensures last { IfOk result (λ shelf. shelf.last ≡ record { name = []; was_read = false }) }
        ensures begun { IfOk result (λ shelf. shelf.begun ≡ None) }
        ensures taken { IfOk result (λ shelf. shelf.taken ≡ none_taken room) }
        ensures asked { IfOk result (λ shelf. shelf.asked ≡ 0) }
    {
        let listed = Vec::from_slice(alloc, fail)?;
        Ok(MemShelf {
            entries: new_entries(alloc, names, room)?,
            begun: None,
            taken: Taken::new(alloc, room)?,
            calls: Calls::new(listed),
            last: LastFault::new(),
            asked: 0,
        })
    }

    /// Gives the name at the index `k` a content.
    pub fn put(&mut self, k: usize, bytes: &[u8])
        requires index { k < length self.old.entries }
        requires fits { IfSome (slice_get self.old.entries k) (λ entry. length bytes.now ≤ entry.room) }
        ensures after { self.new ≡ record self.old { entries = put_at self.old.entries k bytes.now } }
        ensures holds { IfSome (slice_get self.old.entries k)
            (λ entry. content_of self.new.entries entry.name ≡ Some bytes.now) }
        ensures others { IfSome (slice_get self.old.entries k) (λ entry. (other : List ℕ) →
            other ≢ entry.name → content_of self.new.entries other ≡ content_of self.old.entries other) }
    {
        put_content(&mut self.entries, k, bytes);
    }

    /// Counts a failed call on the content that is begun, and gives that up.
    fn give_up(&mut self)
        requires begun { IsSome (name_at self.old.entries self.old.begun) }
        ensures after { IfSome (name_at self.old.entries self.old.begun) (λ name. self.new ≡
            record self.old { begun = None; calls = failed self.old.calls; last = save_fault name }) }
        ensures never_falls { self.old.calls.faults ≤ self.new.calls.faults }
    {
        let Some(k) = self.begun.take() else {
            unreachable!()
        };
        self.last.set(self.entries[k].name(), false);
        self.calls.fail();
    }
}

/// Gives the entry at the index `k` a content.
fn put_content(entries: &mut Vec<Entry>, k: usize, bytes: &[u8])
    requires index { k < length entries.old.items }
    requires fits { IfSome (slice_get entries.old.items k) (λ entry. length bytes.now ≤ entry.room) }
    ensures { entries.new.items ≡ put_at entries.old.items k bytes.now }
{
    entries[k].put(bytes);
}

fn new_entries(alloc: Global, names: Vec<String>, room: usize) -> Result<Vec<Entry>, AllocError>
    ensures { IfOk result (λ entries. entries.items ≡ map (new_entry room) (map string_bytes names.items)) }
{
    let mut entries = Vec::with_capacity(alloc, names.len())?;
    for name in names {
        entries.push(Entry::new(alloc, name, room)?)?;
    }
    Ok(entries)
}

/// Puts the bytes from a place on at the front of a buffer, and answers how many.
fn copy_from(content: &[u8], at: u64, buffer: &mut [u8]) -> usize
    ensures part { result ≡ min (length buffer.old) (length content.now - at) }
    ensures bytes { take result buffer.new ≡ take result (drop at content.now) }
    ensures rest { drop result buffer.new ≡ drop result buffer.old }
{
    let len = content.len() as u64;
    if at >= len {
        return 0;
    }
    let rest = &content[at as usize..];
    let n = rest.len().min(buffer.len());
    buffer[..n].copy_from_slice(&rest[..n]);
    n
}

impl Shelf for MemShelf {
    ghost fault_count = { λ s. s.calls.faults };

    ghost last_fault = { λ s. s.last };

    ghost content = { λ s name. content_of s.entries name };

    ghost begun = { λ s. name_at s.entries s.begun };

    ghost taken = { λ s. Some s.taken.bytes };

    ghost asked = { λ s. Some s.asked };

    fn read(&mut self, name: &str, at: u64, buffer: &mut [u8]) -> Result<usize, Failed>
        requires name { length name.now ≤ 4096 }
        ensures fails { IsErr result ↔ (IsListed self.old.calls ⊎ IsNone (content_of self.old.entries name.now)) }
        ensures part { IfOk result (λ n. IfSome (content_of self.old.entries name.now)
            (λ bytes. n ≡ min (length buffer.old) (length bytes - at))) }
        ensures bytes { IfOk result (λ n. IfSome (content_of self.old.entries name.now)
            (λ bytes. take n buffer.new ≡ take n (drop at bytes))) }
        ensures rest { IfOk result (λ n. drop n buffer.new ≡ drop n buffer.old) }
        ensures ok { OnOk result (self.new ≡ record self.old {
          calls = passed self.old.calls;
          asked = max self.old.asked (at + length buffer.old);
        }) }
        ensures err { OnErr result (self.new ≡ record self.old {
          calls = failed self.old.calls;
          last = read_fault name.now;
          asked = max self.old.asked (at + length buffer.old);
        }) }
        ensures never_falls { self.old.calls.faults ≤ self.new.calls.faults }
    {
        self.asked = self.asked.max(u128::from(at) + buffer.len() as u128);
        let is_listed = self.calls.is_listed();
        match content_named(&self.entries, name) {
            Some(content) if !is_listed => {
                let n = copy_from(content, at, buffer);
                self.calls.pass();
                Ok(n)
            }
            _ => {
                self.calls.fail();
                self.last.set(name, true);
                Err(Failed)
            }
        }
    }

    fn start(&mut self, name: &str) -> Result<(), Failed>
        requires name { length name.now ≤ 4096 }
        ensures fails { IsErr result ↔ (IsListed self.old.calls ⊎ IsNone (entry_place self.old.entries name.now)) }
        ensures ok { OnOk result (self.new ≡ record self.old {
          begun = entry_place self.old.entries name.now;
          taken = none_taken self.old.taken.room;
          calls = passed self.old.calls;
        }) }
        ensures err { OnErr result (self.new ≡ record self.old {
          begun = None;
          taken = none_taken self.old.taken.room;
          calls = failed self.old.calls;
          last = save_fault name.now;
        }) }
        ensures begins { OnOk result (name_at self.new.entries self.new.begun ≡ Some name.now) }
        ensures never_falls { self.old.calls.faults ≤ self.new.calls.faults }
    {
        self.taken.clear();
        let is_listed = self.calls.is_listed();
        match place_named(&self.entries, name) {
            Some(k) if !is_listed => {
                self.begun = Some(k);
                self.calls.pass();
                Ok(())
            }
            _ => {
                self.begun = None;
                self.calls.fail();
                self.last.set(name, false);
                Err(Failed)
            }
        }
    }

    fn append(&mut self, bytes: &[u8]) -> Result<usize, Failed>
        requires begun { IsSome (name_at self.old.entries self.old.begun) }
        ensures fails { IsErr result ↔ (IsListed self.old.calls ⊎ IsFullFor self.old.taken bytes.now) }
        ensures part { IfOk result (λ n. n ≡ min (length bytes.now) (room_left self.old.taken)) }
        ensures ok { IfOk result (λ n. self.new ≡
            record self.old { taken = grown self.old.taken (take n bytes.now); calls = passed self.old.calls }) }
        ensures err { OnErr result (IfSome (name_at self.old.entries self.old.begun) (λ name. self.new ≡
            record self.old { begun = None; calls = failed self.old.calls; last = save_fault name })) }
        ensures never_falls { self.old.calls.faults ≤ self.new.calls.faults }
    {
        let is_listed = self.calls.is_listed();
        match self.taken.room_for(bytes) {
            Some(n) if !is_listed => {
                self.taken.take(&bytes[..n]);
                self.calls.pass();
                Ok(n)
            }
            _ => {
                self.give_up();
                Err(Failed)
            }
        }
    }

    fn finish(&mut self) -> Result<(), Failed>
        requires begun { IsSome (name_at self.old.entries self.old.begun) }
        ensures fails { IsErr result ↔ IsListed self.old.calls }
        ensures ok { OnOk result (IfSome self.old.begun (λ k. self.new ≡ record self.old {
          begun = None;
          entries = put_at self.old.entries k self.old.taken.bytes;
          calls = passed self.old.calls;
        })) }
        ensures holds { OnOk result (IfSome (name_at self.old.entries self.old.begun)
            (λ name. content_of self.new.entries name ≡ Some self.old.taken.bytes)) }
        ensures contents { (other : List ℕ) → name_at self.old.entries self.old.begun ≢ Some other →
            content_of self.new.entries other ≡ content_of self.old.entries other }
        ensures err { OnErr result (IfSome (name_at self.old.entries self.old.begun) (λ name. self.new ≡
            record self.old { begun = None; calls = failed self.old.calls; last = save_fault name })) }
        ensures never_falls { self.old.calls.faults ≤ self.new.calls.faults }
    {
        if self.calls.is_listed() {
            self.give_up();
            return Err(Failed);
        }
        let Some(k) = self.begun.take() else {
            unreachable!()
        };
        put_content(&mut self.entries, k, self.taken.bytes());
        self.calls.pass();
        Ok(())
    }

    fn faults(&self) -> u64 {
        self.calls.faults()
    }

    fn last(&self) -> &str {
        self.last.name()
    }

    fn last_read(&self) -> bool {
        self.last.was_read()
    }
}
