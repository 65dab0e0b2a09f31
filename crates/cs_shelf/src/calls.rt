//! The calls of an outside in memory: a count, and a list of those that are to fail.

ghost use Rattle.std.specs.Prelude.{◌≡◌, ◌≤◌, ◌↔◌, IsTrue};
ghost use Rattle.cs_shelf.specs.Memory.{IsListed, failed, new_calls, passed};

use std::marker::Model;

/// How many calls were made and failed, and which are to fail, counted from 0.
#[derive(Drop)]
pub(crate) struct Calls {
    listed: Vec<u64>,
    made: u64,
    faults: u64,
}

impl Model for Calls {
    ghost use Rattle.cs_shelf.specs.Memory.{CallsView};

    ghost Value = { CallsView };

    ghost view = { λ c. record { listed = c.listed.items; made = c.made; faults = c.faults } };
}

impl Calls {
    /// No call was made yet.
    pub(crate) fn new(listed: Vec<u64>) -> Calls
        ensures { result ≡ new_calls listed.items }
    {
        Calls {
            listed,
            made: 0,
            faults: 0,
        }
    }

    /// Whether the call that comes next is to fail.
    pub(crate) fn is_listed(&self) -> bool
        ensures { IsTrue result ↔ IsListed self.now }
    {
        self.listed.contains(&self.made)
    }

    /// Counts a call that went well.
    pub(crate) fn pass(&mut self)
        ensures { self.new ≡ passed self.old }
    {
        self.made = self.made.saturating_add(1);
    }

    /// Counts a call that failed.
    pub(crate) fn fail(&mut self)
        ensures after { self.new ≡ failed self.old }
        ensures never_falls { self.old.faults ≤ self.new.faults }
    {
        self.made = self.made.saturating_add(1);
        self.faults = self.faults.saturating_add(1);
    }

    /// How many calls failed.
    pub(crate) fn faults(&self) -> u64
        ensures { result ≡ self.now.faults }
    {
        self.faults
    }
}
