//! A name of a shelf in memory, and its content.

ghost use Rattle.std.specs.Prelude.{◌≡◌, ◌≤◌, Some, IfOk, find, length, option_map, string_bytes};
ghost use Rattle.std.specs.Str.{bytes_eq};
ghost use Rattle.cs_shelf.specs.Memory.{content_of, new_entry, entry_place};

use std::alloc::{AllocError, Global};
use std::marker::Model;

/// A name, and its content once it was given one.
#[derive(Drop)]
pub(crate) struct Entry {
    name: String,
    content: Vec<u8>,
    room: usize,
    has_content: bool,
}

impl Model for Entry {
    ghost use Rattle.std.specs.Prelude.{◌≤◌, vec_capacity, Some, None, string_bytes, if◌then◌else◌};
    ghost use Rattle.cs_shelf.specs.Memory.{EntryView};

    ghost Value = { EntryView };

    ghost view = { λ e. record {
      name = string_bytes e.name;
      content = (if e.has_content then Some e.content.items else None);
      room = e.room;
    } };

    ghost invariant = { λ e. e.room ≤ vec_capacity e.content };
}

impl Entry {
    /// A name without a content, and memory for one of at most `room` bytes.
    pub(crate) fn new(alloc: Global, name: String, room: usize) -> Result<Entry, AllocError>
        ensures { IfOk result (λ entry. entry ≡ new_entry room (string_bytes name)) }
    {
        let content = Vec::with_capacity(alloc, room)?;
        Ok(Entry {
            name,
            content,
            room,
            has_content: false,
        })
    }

    /// Gives the name a content.
    pub(crate) fn put(&mut self, bytes: &[u8])
        requires fits { length bytes.now ≤ self.old.room }
        ensures { self.new ≡ record self.old { content = Some bytes.now } }
    {
        self.content.clear();
        let Ok(()) = self.content.extend_from_slice(bytes) else {
            unreachable!()
        };
        self.has_content = true;
    }

    pub(crate) fn name(&self) -> &str
        ensures { result.now ≡ self.now.name }
    {
        self.name.as_str()
    }

    fn has_name(&self, name: &str) -> bool
        ensures { result ≡ bytes_eq self.now.name name.now }
    {
        self.name.as_str() == name
    }

    fn content(&self) -> Option<&[u8]>
        ensures { option_map (λ bytes. bytes.now) result ≡ self.now.content }
    {
        if self.has_content {
            Some(self.content.as_slice())
        } else {
            None
        }
    }
}

/// The first entry of a name.
fn entry_named<'a>(entries: &'a [Entry], name: &str) -> Option<&'a Entry>
    ensures { option_map (λ entry. entry.now) result ≡ find (λ entry. bytes_eq entry.name name.now) entries.now }
{
    entries.iter().find(|entry| entry.has_name(name))
}

/// The place of the first entry of a name.
pub(crate) fn place_named(entries: &[Entry], name: &str) -> Option<usize>
    ensures { result ≡ entry_place entries.now name.now }
{
    entries.iter().position(|entry| entry.has_name(name))
}

/// What a name holds.
pub(crate) fn content_named<'a>(entries: &'a [Entry], name: &str) -> Option<&'a [u8]>
    ensures { option_map (λ bytes. bytes.now) result ≡ content_of entries.now name.now }
{
    match entry_named(entries, name) {
        Some(entry) => entry.content(),
        None => None,
    }
}
