//! A sink in memory.

ghost use Rattle.std.specs.Prelude.{◌≡◌, ◌↔◌, ◌⊎◌, ℕ, ◌<◌, ◌≤◌, Some, IfOk, OnErr, IsErr, length, min, take};
ghost use Rattle.cs_shelf.specs.Memory.{IsFullFor, IsListed, failed, grown, new_sink, passed, room_left};
ghost use Rattle.cs_shelf.specs.Outside.{Appends, Rose};

use crate::calls::Calls;
use crate::taken::Taken;
use crate::{Failed, Sink};
use std::alloc::{AllocError, Global};
use std::marker::Model;

/// A sink that keeps all that it takes, for tests and for runs whose output is looked at.
///
/// It has room for so many bytes, and fails at the calls that it was told and where no room is left.
/// After `new` it takes no more memory.
#[derive(Drop)]
pub struct MemSink {
    taken: Taken,
    calls: Calls,
}

impl Model for MemSink {
    ghost use Rattle.cs_shelf.specs.Memory.{SinkView};

    ghost Value = { SinkView };

    ghost view = { λ s. record { taken = s.taken; calls = s.calls } };
}

impl MemSink {
    /// A sink with room for `room` bytes in all, whose writes fail that `fail` lists, counted from 0.
    pub fn new(alloc: Global, room: usize, fail: &[u64]) -> Result<MemSink, AllocError>
        ensures { IfOk result (λ sink. sink ≡ new_sink room fail.now) }
    {
        let taken = Taken::new(alloc, room)?;
        let listed = Vec::from_slice(alloc, fail)?;
        Ok(MemSink {
            taken,
            calls: Calls::new(listed),
        })
    }

    /// All that the sink took.
    pub fn taken(&self) -> &[u8]
        ensures { result.now ≡ self.now.taken.bytes }
    {
        self.taken.bytes()
    }
}

impl Sink for MemSink {
    ghost fault_count = { λ s. s.calls.faults };

    ghost taken = { λ s. Some s.taken.bytes };

    fn write(&mut self, bytes: &[u8]) -> Result<usize, Failed>
        ensures fails { IsErr result ↔ (IsListed self.old.calls ⊎ IsFullFor self.old.taken bytes.now) }
        ensures part { IfOk result (λ n. n ≡ min (length bytes.now) (room_left self.old.taken)) }
        ensures ok { IfOk result (λ n. self.new ≡
            record self.old { taken = grown self.old.taken (take n bytes.now); calls = passed self.old.calls }) }
        ensures err { OnErr result (self.new ≡ record self.old { calls = failed self.old.calls }) }
        ensures never_falls { self.old.calls.faults ≤ self.new.calls.faults }
    {
        let is_listed = self.calls.is_listed();
        match self.taken.room_for(bytes) {
            Some(n) if !is_listed => {
                self.taken.take(&bytes[..n]);
                self.calls.pass();
                Ok(n)
            }
            _ => {
                self.calls.fail();
                Err(Failed)
            }
        }
    }

    fn faults(&self) -> u64 {
        self.calls.faults()
    }
}
