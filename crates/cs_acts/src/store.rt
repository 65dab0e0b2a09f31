//! What a store into a slot meets.
ghost use Rattle.std.specs.Prelude.{◌≡◌};
ghost use Rattle.cs_acts.specs.Names.{IsNamed, name_of};
ghost use Rattle.cs_acts.specs.Ready.{IsSound};
ghost use Rattle.cs_acts.specs.Storing.{target_of};

use crate::{World, words};
use cs_word::Oop;

/// What a store into a slot of what a word names meets.
#[derive(Clone, Copy, Debug, PartialEq, Eq)]
pub enum StoreTarget {
    /// The word names no pointer object that has the slot. A context isn't one.
    Missing,
    /// The slot is there, but its object is read-only, so that image code may not store into it.
    ReadOnly,
    /// The slot takes the store.
    Writable,
}

/// What a store into slot `i` of what a word names meets. The object's header is read once.
pub fn store_target<W: World>(w: &W, o: Oop, i: u32) -> StoreTarget
    requires sound { IsSound (W.stored w.now) (W.view w.now) }
    requires named { IsNamed (W.stored w.now) o }
    ensures { result ≡ target_of (W.view w.now) (name_of (W.stored w.now) o) i }
{
    words::store_target(w.heap(), o, i)
}
