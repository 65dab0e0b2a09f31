//! The raw words of the stack pages.
//!
//! A zone is a fixed number of 32-bit words, and its contracts see it as the list of them. They say
//! nothing of how the words are kept, so no crate above depends on it.
#![tactic(auto)]

ghost use Rattle.std.specs.Prelude.{◌≡◌, ◌+◌, ◌<◌, ◌≤◌, IfOk, length, replicate, slice_index, slice_range, slice_set};
ghost use Rattle.std.specs.List.{copy_within, CopiedTo, SameBelow, SameFrom};

use std::alloc::{AllocError as NoMemory, Global};
use std::marker::Model;

/// A fixed number of words, addressed by their place from 0 on.
#[derive(Drop)]
pub struct Zone {
    words: Vec<u32>,
}

impl Model for Zone {
    ghost use Rattle.std.specs.Prelude.{ℕ, List, length, ◌<◌, ◌^◌};

    ghost Value = { List ℕ };

    ghost view = { λ z. z.words.items };

    ghost invariant = { λ z. length z.words.items < 2 ^ 32 };
}

impl Zone {
    /// Reserves `words` words, each 0. The only error is that memory is refused.
    pub fn new(alloc: Global, words: u32) -> Result<Zone, NoMemory>
        ensures zeros { IfOk result (λ z. z ≡ replicate words 0) }
    {
        let words = vec![in alloc; 0u32; words as usize]?;
        Ok(Zone { words })
    }

    /// How many words there are. No call changes it.
    pub fn len(&self) -> u32
        ensures count { result ≡ length self.now }
    {
        self.words.len() as u32
    }

    /// The word at the place `at`.
    pub fn get(&self, at: u32) -> u32
        requires place { at < length self.now }
        ensures word { result ≡ slice_index self.now at }
    {
        self.words[at as usize]
    }

    /// Puts `w` at the place `at`, and changes no other word.
    pub fn set(&mut self, at: u32, w: u32)
        requires place { at < length self.old }
        ensures words { self.new ≡ slice_set self.old at w }
    {
        let at = at as usize;
        self.words[at] = w;
    }

    /// Copies `len` words from the place `from` on to the place `to` on. The two ranges may
    /// overlap, as for C's `memmove`: each word copied is the one that stood there before the
    /// call. `whole` says it of the list, and the others index by index.
    pub fn copy(&mut self, from: u32, to: u32, len: u32)
        requires source { from + len ≤ length self.old }
        requires target { to + len ≤ length self.old }
        ensures whole { self.new ≡ copy_within self.old from (from + len) to }
        ensures len { length self.new ≡ length self.old }
        ensures copied { CopiedTo self.old self.new from to len }
        ensures below { SameBelow self.old self.new to }
        ensures above { SameFrom self.old self.new (to + len) }
    {
        let from = from as usize;
        let end = from + len as usize;
        self.words
            .as_mut_slice()
            .copy_within(from..end, to as usize);
    }

    /// Lends the `len` words from the place `from` on, without copying them.
    pub fn slots(&self, from: u32, len: u32) -> &[u32]
        requires range { from + len ≤ length self.now }
        ensures words { result.now ≡ slice_range self.now from (from + len) }
    {
        let from = from as usize;
        &self.words[from..from + len as usize]
    }
}
