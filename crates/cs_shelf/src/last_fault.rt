//! The call of a shelf that failed last.

ghost use Rattle.std.specs.Prelude.{◌≡◌, ◌≤◌, [], false, length};

use arrayvec::ArrayString;
use std::marker::Model;

/// The name that the call was about, and whether it was a read; no name before the first failure.
#[derive(Drop)]
pub(crate) struct LastFault {
    name: ArrayString<4096>,
    was_read: bool,
}

impl Model for LastFault {
    ghost use Rattle.cs_shelf.specs.Outside.{Fault};

    ghost Value = { Fault };

    ghost view = { λ f. record { name = f.name.bytes; was_read = f.was_read } };
}

impl LastFault {
    /// No call has failed yet.
    pub(crate) fn new() -> LastFault
        ensures { result ≡ record { name = []; was_read = false } }
    {
        LastFault {
            name: ArrayString::new(),
            was_read: false,
        }
    }

    /// Keeps the name of a call that failed, in place of the one before.
    pub(crate) fn set(&mut self, name: &str, was_read: bool)
        requires name { length name.now ≤ 4096 }
        ensures { self.new ≡ record { name = name.now; was_read = was_read } }
    {
        self.name.clear();
        self.name.push_str(name);
        self.was_read = was_read;
    }

    pub(crate) fn name(&self) -> &str
        ensures { result.now ≡ self.now.name }
    {
        self.name.as_str()
    }

    pub(crate) fn was_read(&self) -> bool
        ensures { result ≡ self.now.was_read }
    {
        self.was_read
    }
}
