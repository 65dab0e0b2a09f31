//! Bytes that are taken one behind another, in memory.

ghost use Rattle.std.specs.Prelude.{◌≡◌, ◌↔◌, ◌≤◌, IfOk, IfSome, IsNone, length, min};
ghost use Rattle.cs_shelf.specs.Memory.{IsFullFor, grown, none_taken, room_left};

use std::alloc::{AllocError, Global};
use std::marker::Model;

/// Bytes that were taken, with memory for `room` in all.
#[derive(Drop)]
pub(crate) struct Taken {
    bytes: Vec<u8>,
    room: usize,
}

impl Model for Taken {
    ghost use Rattle.std.specs.Prelude.{◌≤◌, vec_capacity, vec_len};
    ghost use Rattle.cs_shelf.specs.Memory.{TakenView};

    ghost Value = { TakenView };

    ghost view = { λ t. record { bytes = t.bytes.items; room = t.room } };

    ghost invariant = { λ t. (vec_len t.bytes ≤ t.room) × (t.room ≤ vec_capacity t.bytes) };
}

impl Taken {
    /// Memory for `room` bytes, none of them taken.
    pub(crate) fn new(alloc: Global, room: usize) -> Result<Taken, AllocError>
        ensures { IfOk result (λ taken. taken ≡ none_taken room) }
    {
        let bytes = Vec::with_capacity(alloc, room)?;
        Ok(Taken { bytes, room })
    }

    /// How many bytes of a piece can be taken, and none where it isn't empty and no room is left.
    pub(crate) fn room_for(&self, piece: &[u8]) -> Option<usize>
        ensures full { IsNone result ↔ IsFullFor self.now piece.now }
        ensures part { IfSome result (λ n. n ≡ min (length piece.now) (room_left self.now)) }
    {
        let n = piece.len().min(self.room - self.bytes.len());
        if n == 0 && !piece.is_empty() {
            None
        } else {
            Some(n)
        }
    }

    /// Takes a piece for which there is room.
    pub(crate) fn take(&mut self, piece: &[u8])
        requires fits { length piece.now ≤ room_left self.old }
        ensures { self.new ≡ grown self.old piece.now }
    {
        let Ok(()) = self.bytes.extend_from_slice(piece) else {
            unreachable!()
        };
    }

    /// Gives up all that was taken.
    pub(crate) fn clear(&mut self)
        ensures { self.new ≡ none_taken self.old.room }
    {
        self.bytes.clear();
    }

    /// All that was taken.
    pub(crate) fn bytes(&self) -> &[u8]
        ensures value { result.now ≡ self.now.bytes }
        ensures within { length result.now ≤ self.now.room }
    {
        self.bytes.as_slice()
    }
}
