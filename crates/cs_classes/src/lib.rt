//! The class table of an image and what a heap means: the state of the machine that it stands for.
//!
//! Spur finds the class of an object by the class index in its header. The table holds a class for each index, or
//! nothing. It is kept beside the heap and its memory is counted in no limit.
//!
//! What the words of a heap mean is defined in `specs/Meaning.antt`, and `proofs/` has the laws on how the meaning
//! changes with each write. Every crate above stands on these.
#![tactic(auto)]

ghost use Rattle.std.specs.Prelude.{◌≡◌, ℕ, ◌<◌, ◌≤◌, IfOk, None, option_map};
ghost use Rattle.std.specs.FinMap.{empty, get, insert};
ghost use Rattle.cs_model.specs.Instance.{next_hash};

mod instances;
mod methods;
pub mod slots;
mod words;

use cs_heap::Heap;
use cs_word::Oop;
pub use methods::add_method;
use std::alloc::{AllocError, Global};
use std::marker::Model;
pub use words::{first_byte, has_slots, is_context, method_header};

/// The class index of contexts.
pub const CONTEXT_CLASS: u32 = 36;

/// The class index of closures.
pub const CLOSURE_CLASS: u32 = 37;

/// The format of objects that have named slots and others behind them, as contexts and closures are.
pub const FIELDS_AND_INDICES: u8 = 3;

/// The formats below this one are those of pointer objects.
pub const POINTERS_END: u8 = 6;

/// The formats of methods are those from this one on ..
pub const METHODS_BEGIN: u8 = 24;

/// .. and below this one.
pub const METHODS_END: u8 = 28;

/// How many entries a class table has: one for each class index below it.
pub const ENTRIES: u32 = 16384;

/// How many identity hashes there are, 0 included, which is none.
const HASHES: u32 = 1 << 22;

/// The class table.
///
/// It is seen as a finite map from class indices to the addresses of classes; an empty entry is no key of it.
#[derive(Drop)]
pub struct Classes {
    /// A class for each index, or None where the entry is empty.
    entries: Vec<Option<Oop>>,
}

impl Model for Classes {
    ghost use Rattle.std.specs.Prelude.{ℕ, ◌≡◌, length};
    ghost use Rattle.std.specs.Ordering.{nat_cmp};
    ghost use Rattle.std.specs.FinMap.{FinMap, code, from_entries};
    ghost use Rattle.std.specs.Coded.{coded_ℕ};
    ghost use Rattle.cs_classes.specs.Table.{filled};

    ghost Value = { FinMap nat_cmp ℕ };

    ghost coded = { code coded_ℕ coded_ℕ };

    ghost view = { λ c. from_entries (filled 0 c.entries.items) };

    ghost invariant = { λ c. length c.entries.items ≡ 16384 };
}

/// What an image keeps beside its objects and its class table.
#[derive(Clone, Copy)]
pub struct Roots {
    /// The special-object array.
    pub special: Oop,
    /// The last identity hash that was given, below 2^22.
    pub last_hash: u32,
    /// The birth that the next object takes. Births are given in order and never twice.
    pub next_birth: u64,
    /// The 64 bytes of the image header, of which those at places 8 to 23 mean nothing here.
    pub header: [u8; 64],
}

impl Roots {
    /// The identity hash behind the last one that was given: one more modulo 2^22, where 0 is skipped.
    pub fn next_hash(&self) -> u32
        requires { self.now.last_hash < 4194304 }
        ensures value { result ≡ next_hash self.now.last_hash }
        ensures below { result < 4194304 }
    {
        let next = (self.last_hash + 1) % HASHES;
        if next == 0 { 1 } else { next }
    }
}

/// An image in memory.
#[derive(Drop)]
pub struct Loaded {
    /// Its objects.
    pub heap: Heap,
    /// Its class table.
    pub classes: Classes,
    /// What it keeps beside these.
    pub roots: Roots,
}

/// Why a class makes no instance.
#[derive(Clone, Copy, PartialEq, Eq, Debug)]
pub enum NewError {
    /// The class can't be instantiated with this size.
    NotInstantiable,
    /// The class has no index yet, and none is free.
    TableFull,
    /// The heap has no room for the instance.
    HeapFull,
}

impl Classes {
    /// A table whose entries are all empty.
    pub fn new(alloc: Global) -> Result<Classes, AllocError>
        ensures empty { IfOk result (λ classes. classes ≡ empty) }
    {
        let mut entries = Vec::new(alloc);
        entries.resize(ENTRIES as usize, None)?;
        Ok(Classes { entries })
    }

    /// How many entries the table has, the empty ones included: always 16,384.
    pub fn len(&self) -> u32
        ensures value { result ≡ 16384 }
        ensures beyond { (index : ℕ) → 16384 ≤ index → get self.now index ≡ None }
    {
        self.entries.len() as u32
    }

    /// The class of this index; None exactly where the entry is empty.
    pub fn entry(&self, index: u32) -> Option<Oop>
        requires { index < 16384 }
        ensures { option_map (λ o. o.0) result ≡ get self.now index }
    {
        self.entries[index as usize]
    }

    /// Puts a class into the entry of this index.
    pub fn set_entry(&mut self, index: u32, class: Oop)
        requires { index < 16384 }
        ensures { self.new ≡ insert self.old index class.0 }
    {
        self.entries[index as usize] = Some(class);
    }
}
