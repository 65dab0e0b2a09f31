//! A shelf for images that are too long to be held beside their loading.

ghost use Rattle.std.specs.Prelude.{◌≡◌, ◌≤◌, ◌+◌, IfSome, None, drop, length, min};

use arrayvec::ArrayString;
use cs_shelf::{Failed, Shelf};

/// A shelf on which each name holds the same bytes: these, and behind them zeros up to a length. It computes the zeros
/// as they are read. It takes nothing, and doesn't tell what it holds.
#[derive(Drop)]
pub struct LongShelf<'a> {
    pub front: &'a [u8],
    pub len: u64,
    /// The place behind the last byte that was read.
    pub end: u64,
    pub faults: u64,
    /// The name of the content that is begun, if one is.
    pub begun: Option<ArrayString<4096>>,
    /// The name that was to be saved last.
    pub last: ArrayString<4096>,
}

impl Shelf for LongShelf<'_> {
    ghost use Rattle.std.specs.Prelude.{None, false, option_map};

    ghost fault_count = { λ s. s.faults };

    ghost last_fault = { λ s. record { name = s.last.bytes; was_read = false } };

    ghost content = { λ _ _. None };

    ghost begun = { λ s. option_map (λ name. name.bytes) s.begun };

    ghost taken = { λ _. None };

    ghost asked = { λ _. None };

    fn read(&mut self, _name: &str, at: u64, buffer: &mut [u8]) -> Result<usize, Failed> {
        let n = if at < self.front.len() as u64 {
            give(&self.front[at as usize..], buffer)
        } else {
            give_zeros(self.len.saturating_sub(at), buffer)
        };
        self.end = at.saturating_add(n as u64);
        Ok(n)
    }

    fn start(&mut self, name: &str) -> Result<(), Failed> {
        self.faults = self.faults.saturating_add(1);
        self.begun = None;
        self.last.clear();
        self.last.push_str(name);
        Err(Failed)
    }

    fn append(&mut self, _bytes: &[u8]) -> Result<usize, Failed> {
        self.give_up();
        Err(Failed)
    }

    fn finish(&mut self) -> Result<(), Failed> {
        self.give_up();
        Err(Failed)
    }

    fn faults(&self) -> u64 {
        self.faults
    }

    fn last(&self) -> &str {
        self.last.as_str()
    }

    fn last_read(&self) -> bool {
        false
    }
}

impl LongShelf<'_> {
    /// Fails under the name of the content that is begun, which is given up.
    fn give_up(&mut self)
        ensures name { IfSome self.old.begun (λ name. self.new.last.bytes ≡ name.bytes) }
        ensures begun { self.new.begun ≡ None }
        ensures faults { self.new.faults ≡ min (self.old.faults + 1) 18446744073709551615 }
        ensures never_falls { self.old.faults ≤ self.new.faults }
    {
        self.faults = self.faults.saturating_add(1);
        if let Some(name) = self.begun {
            self.last = name;
        }
        self.begun = None;
    }
}

/// Puts as many of these bytes as fit at the front of a buffer.
fn give(bytes: &[u8], buffer: &mut [u8]) -> usize
    ensures part { result ≤ length buffer.old }
    ensures rest { drop result buffer.new ≡ drop result buffer.old }
{
    let n = bytes.len().min(buffer.len());
    buffer[..n].copy_from_slice(&bytes[..n]);
    n
}

/// Puts so many zeros at the front of a buffer, or as many as fit.
fn give_zeros(count: u64, buffer: &mut [u8]) -> usize
    ensures part { result ≤ length buffer.old }
    ensures rest { drop result buffer.new ≡ drop result buffer.old }
{
    let n = count.min(buffer.len() as u64) as usize;
    buffer[..n].fill(0);
    n
}
