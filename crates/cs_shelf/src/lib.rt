//! The outside of the machine: what it reads from, a [`Shelf`], and what it writes to, a [`Sink`].
//!
//! Both are traits, so that what the machine promises holds over every outside that keeps their
//! clauses, whatever its calls answer. [`MemShelf`] and [`MemSink`] hold all in memory and tell what
//! they hold; [`FileShelf`] and [`OutSink`] reach files and standard output, and tell nothing of it.
#![tactic(auto)]

ghost use Rattle.std.specs.Prelude.{◌≡◌, ◌≢◌, ℕ, ◌+◌, ◌<◌, ◌≤◌, ◌↔◌, List, [], Option, Some, None, IfOk, OnOk, OnErr};
ghost use Rattle.std.specs.Prelude.{IfSome, IsSome, length, take, drop, max, option_map};
ghost use Rattle.cs_shelf.specs.Outside.{Rose, Fault, read_fault, save_fault, Appends, Empties};

mod calls;
mod entry;
mod file_shelf;
mod last_fault;
mod mem_shelf;
mod mem_sink;
mod out_sink;
mod taken;
mod whole;

pub use file_shelf::FileShelf;
pub use mem_shelf::MemShelf;
pub use mem_sink::MemSink;
pub use out_sink::OutSink;
pub use whole::{ReadError, append_whole, read_whole, save_whole, write_whole};

/// The outside refused a call, and its count of faults rose.
#[derive(Clone, Copy, PartialEq, Eq, Debug)]
pub struct Failed;

/// What the machine writes to.
pub trait Sink {
    /// How often a call has failed; it stands still at the greatest `u64`.
    ghost fault_count: { Self → ℕ };

    /// All the bytes that were taken, the oldest first, where the sink tells them.
    ghost taken: { Self → Option (List ℕ) };

    /// Takes the first bytes of a piece, and answers how many: at least one, where there is one.
    ///
    /// To take fewer than all is no fault. To take none of a piece that isn't empty is one: the answer
    /// is `Failed`, nothing is taken and the count of faults rises.
    fn write(&mut self, bytes: &[u8]) -> Result<usize, Failed>
        ensures part { IfOk result (λ n. n ≤ length bytes.now) }
        ensures some { IfOk result (λ n. 0 < length bytes.now → 0 < n) }
        ensures ok { IfOk result (λ n. Appends (taken self.old) (taken self.new) (take n bytes.now)) }
        ensures err { OnErr result (taken self.new ≡ taken self.old) }
        ensures never_falls { fault_count self.old ≤ fault_count self.new }
        ensures cause { OnErr result (Rose (fault_count self.old) (fault_count self.new)) };

    /// How often a call has failed.
    fn faults(&self) -> u64
        ensures { result ≡ fault_count self.now };
}

/// What the machine reads from and saves to: contents of bytes, each under a name.
///
/// A content is saved by [`start`](Shelf::start), which begins it, by [`append`](Shelf::append), which takes
/// its bytes one behind another, and by [`finish`](Shelf::finish), which makes it that of the name. At most
/// one content is begun at a time. A name has at most 4,096 bytes of UTF-8.
pub trait Shelf {
    /// How often a call has failed; it stands still at the greatest `u64`.
    ghost fault_count: { Self → ℕ };

    /// The call that failed last.
    ghost last_fault: { Self → Fault };

    /// What a name holds, where there is such a content and the shelf tells it.
    ghost content: { Self → List ℕ → Option (List ℕ) };

    /// The name of the content that is begun, where one is.
    ghost begun: { Self → Option (List ℕ) };

    /// All the bytes that were taken since the last `start`, the oldest first, where the shelf tells them.
    ghost taken: { Self → Option (List ℕ) };

    /// How many bytes from a content's front on the reads have asked for at most, where the shelf tells it.
    ghost asked: { Self → Option ℕ };

    /// Puts the bytes of a name's content from the place `at` on at the front of the buffer, and
    /// answers how many it put there: at least one, unless the content ends at `at` or before it or
    /// the buffer is empty.
    ///
    /// To put fewer than fit is no fault. The rest of the buffer stays as it was. A name without a
    /// content gives `Failed`, and after `Failed` nothing is said of the buffer.
    fn read(&mut self, name: &str, at: u64, buffer: &mut [u8]) -> Result<usize, Failed>
        requires name { length name.now ≤ 4096 }
        ensures part { IfOk result (λ n. n ≤ length buffer.old) }
        ensures bytes { IfOk result (λ n. IfSome (content self.old name.now)
            (λ bytes. take n buffer.new ≡ take n (drop at bytes))) }
        ensures end { IfOk result (λ n. IfSome (content self.old name.now)
            (λ bytes. 0 < length buffer.old → ((n ≡ 0) ↔ (length bytes ≤ at)))) }
        ensures rest { IfOk result (λ n. drop n buffer.new ≡ drop n buffer.old) }
        ensures asked { asked self.new ≡ option_map (λ far. max far (at + length buffer.old)) (asked self.old) }

        // No read changes what a name holds, what is begun or what was taken.
        ensures contents { (other : List ℕ) → content self.new other ≡ content self.old other }
        ensures begun_stays { begun self.new ≡ begun self.old }
        ensures taken_stays { taken self.new ≡ taken self.old }

        // A failed one is the last fault, and an Ok one isn't.
        ensures never_falls { fault_count self.old ≤ fault_count self.new }
        ensures cause { OnErr result (Rose (fault_count self.old) (fault_count self.new)) }
        ensures last { OnErr result (last_fault self.new ≡ read_fault name.now) }
        ensures last_stays { OnOk result (last_fault self.new ≡ last_fault self.old) };

    /// Begins a new content under a name. One that was begun before and isn't finished is given up.
    ///
    /// After `Failed` none is begun. Either way nothing is taken yet.
    fn start(&mut self, name: &str) -> Result<(), Failed>
        requires name { length name.now ≤ 4096 }
        ensures begins { OnOk result (begun self.new ≡ Some name.now) }
        ensures none_begun { OnErr result (begun self.new ≡ None) }
        ensures none_taken { Empties (taken self.old) (taken self.new) }

        // No other name changes what it holds. A failed call is the last fault, and an Ok one isn't.
        ensures contents { (other : List ℕ) → other ≢ name.now → content self.new other ≡ content self.old other }
        ensures asked_stays { asked self.new ≡ asked self.old }
        ensures never_falls { fault_count self.old ≤ fault_count self.new }
        ensures cause { OnErr result (Rose (fault_count self.old) (fault_count self.new)) }
        ensures last { OnErr result (last_fault self.new ≡ save_fault name.now) }
        ensures last_stays { OnOk result (last_fault self.new ≡ last_fault self.old) };

    /// Takes the first bytes of a piece, behind those that were taken since the `start`, and answers how
    /// many: at least one, where there is one.
    ///
    /// To take fewer than all is no fault. To take none of a piece that isn't empty is one: the answer is
    /// `Failed`, nothing is taken and no content is begun any more.
    fn append(&mut self, bytes: &[u8]) -> Result<usize, Failed>
        requires begun { IsSome (begun self.old) }
        ensures part { IfOk result (λ n. n ≤ length bytes.now) }
        ensures some { IfOk result (λ n. 0 < length bytes.now → 0 < n) }
        ensures ok { IfOk result (λ n. Appends (taken self.old) (taken self.new) (take n bytes.now)) }
        ensures err { OnErr result (taken self.new ≡ taken self.old) }
        ensures begun_stays { OnOk result (begun self.new ≡ begun self.old) }
        ensures none_begun { OnErr result (begun self.new ≡ None) }

        // No name but that of the start changes what it holds. A failed call is the last fault, under that name.
        ensures contents { (other : List ℕ) → begun self.old ≢ Some other →
            content self.new other ≡ content self.old other }
        ensures asked_stays { asked self.new ≡ asked self.old }
        ensures never_falls { fault_count self.old ≤ fault_count self.new }
        ensures cause { OnErr result (Rose (fault_count self.old) (fault_count self.new)) }
        ensures last { OnErr result (IfSome (begun self.old) (λ name. last_fault self.new ≡ save_fault name)) }
        ensures last_stays { OnOk result (last_fault self.new ≡ last_fault self.old) };

    /// Makes what was taken since the `start` the content of its name. No content is begun afterwards.
    ///
    /// After `Failed` nothing is said of what that name holds.
    fn finish(&mut self) -> Result<(), Failed>
        requires begun { IsSome (begun self.old) }
        ensures holds { OnOk result (IfSome (begun self.old) (λ name. content self.new name ≡ taken self.old)) }
        ensures none_begun { begun self.new ≡ None }
        ensures taken_stays { taken self.new ≡ taken self.old }

        // No name but that of the start changes what it holds. A failed call is the last fault, under that name.
        ensures contents { (other : List ℕ) → begun self.old ≢ Some other →
            content self.new other ≡ content self.old other }
        ensures asked_stays { asked self.new ≡ asked self.old }
        ensures never_falls { fault_count self.old ≤ fault_count self.new }
        ensures cause { OnErr result (Rose (fault_count self.old) (fault_count self.new)) }
        ensures last { OnErr result (IfSome (begun self.old) (λ name. last_fault self.new ≡ save_fault name)) }
        ensures last_stays { OnOk result (last_fault self.new ≡ last_fault self.old) };

    /// How often a call has failed.
    fn faults(&self) -> u64
        ensures { result ≡ fault_count self.now };

    /// The name that the call which failed last was about, for `append` and `finish` that of the `start`;
    /// before the first such call it means nothing.
    fn last(&self) -> &str
        ensures { result.now ≡ (last_fault self.now).name };

    /// Whether the call that failed last was a read.
    fn last_read(&self) -> bool
        ensures { result ≡ (last_fault self.now).was_read };
}
