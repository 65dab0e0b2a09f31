//! Reads and writes of a whole: loops over the calls of a shelf and a sink.

ghost use Rattle.std.specs.Prelude.{◌≡◌, ◌≢◌, ℕ, ◌+◌, ◌<◌, ◌≤◌, List, Some, None, Err, IfOk, OnOk, OnErr, IfSome};
ghost use Rattle.std.specs.Prelude.{IsSome, length, option_map, take, vec_len};
ghost use Rattle.cs_shelf.specs.Outside.{Rose, read_fault, save_fault, Appends, AppendsPart, AsksTo};

use crate::{Failed, Shelf, Sink};
use std::alloc::{AllocError, Global};

/// The most bytes that one read asks for, 64 KiB.
pub(crate) const PIECE: usize = 65_536;

/// Writes all the bytes, each once and in order, in as many writes as it takes.
///
/// `Failed` comes only where a write failed. Then the sink has taken the first bytes of the piece, maybe
/// none, and not all of them.
pub fn write_whole<K: Sink>(sink: &mut K, bytes: &[u8]) -> Result<(), Failed>
    ensures ok { OnOk result (Appends (K.taken sink.old) (K.taken sink.new) bytes.now) }
    ensures err { OnErr result (AppendsPart (K.taken sink.old) (K.taken sink.new) bytes.now) }
    ensures never_falls { K.fault_count sink.old ≤ K.fault_count sink.new }
    ensures cause { OnErr result (Rose (K.fault_count sink.old) (K.fault_count sink.new)) }
{
    let mut at = 0;
    while at < bytes.len() {
        let n = sink.write(&bytes[at..])?;
        at += n;
    }
    Ok(())
}

/// Appends all the bytes to the content that is begun, each once and in order, in as many calls as it takes.
///
/// `Failed` comes only where a call failed. Then the shelf has taken the first bytes of the piece, maybe
/// none, and not all of them, and no content is begun any more.
pub fn append_whole<S: Shelf>(shelf: &mut S, bytes: &[u8]) -> Result<(), Failed>
    requires begun { IsSome (S.begun shelf.old) }
    ensures ok { OnOk result (Appends (S.taken shelf.old) (S.taken shelf.new) bytes.now) }
    ensures err { OnErr result (AppendsPart (S.taken shelf.old) (S.taken shelf.new) bytes.now) }
    ensures begun_stays { OnOk result (S.begun shelf.new ≡ S.begun shelf.old) }
    ensures none_begun { OnErr result (S.begun shelf.new ≡ None) }

    ensures contents { (other : List ℕ) → S.begun shelf.old ≢ Some other →
        S.content shelf.new other ≡ S.content shelf.old other }
    ensures asked_stays { S.asked shelf.new ≡ S.asked shelf.old }
    ensures never_falls { S.fault_count shelf.old ≤ S.fault_count shelf.new }
    ensures cause { OnErr result (Rose (S.fault_count shelf.old) (S.fault_count shelf.new)) }
    ensures last { OnErr result (IfSome (S.begun shelf.old) (λ name. S.last_fault shelf.new ≡ save_fault name)) }
    ensures last_stays { OnOk result (S.last_fault shelf.new ≡ S.last_fault shelf.old) }
{
    let mut at = 0;
    while at < bytes.len() {
        let n = shelf.append(&bytes[at..])?;
        at += n;
    }
    Ok(())
}

/// Saves a content under a name: these bytes, each once and in order.
///
/// `Failed` comes only where a call failed. Then no content is begun any more, the shelf has taken the first of the
/// bytes since it began, maybe none or all, and nothing is said of what the name holds.
pub fn save_whole<S: Shelf>(shelf: &mut S, name: &str, bytes: &[u8]) -> Result<(), Failed>
    requires name { length name.now ≤ 4096 }
    ensures saved { OnOk result (S.content shelf.new name.now ≡ option_map
        (λ (taken : List ℕ). bytes.now) (S.taken shelf.old)) }
    ensures part { OnErr result ((n : ℕ) × (S.taken shelf.new ≡ option_map
        (λ (taken : List ℕ). take n bytes.now) (S.taken shelf.old))) }

    ensures none_begun { S.begun shelf.new ≡ None }
    ensures contents { (other : List ℕ) → other ≢ name.now → S.content shelf.new other ≡ S.content shelf.old other }
    ensures asked_stays { S.asked shelf.new ≡ S.asked shelf.old }
    ensures never_falls { S.fault_count shelf.old ≤ S.fault_count shelf.new }
    ensures cause { OnErr result (Rose (S.fault_count shelf.old) (S.fault_count shelf.new)) }
    ensures last { OnErr result (S.last_fault shelf.new ≡ save_fault name.now) }
    ensures last_stays { OnOk result (S.last_fault shelf.new ≡ S.last_fault shelf.old) }
{
    shelf.start(name)?;
    append_whole(shelf, bytes)?;
    shelf.finish()?;
    Ok(())
}

/// Why a name's content was not read whole.
#[derive(Clone, Copy, PartialEq, Eq, Debug)]
pub enum ReadError {
    /// A read failed; the shelf's count of faults rose, and its `last` is the name.
    Failed,
    /// The content has more bytes than were asked for at most.
    TooLong,
    /// Memory was refused.
    NoMemory,
}

impl From<Failed> for ReadError {
    ghost use Rattle.cs_shelf.specs.declared.whole.ReadError.TheVariants as read_error;

    ghost from_gives = { λ _ error. error ≡ read_error.Failed };

    fn from(_: Failed) -> ReadError {
        ReadError::Failed
    }
}

impl From<AllocError> for ReadError {
    ghost use Rattle.cs_shelf.specs.declared.whole.ReadError.TheVariants as read_error;

    ghost from_gives = { λ _ error. error ≡ read_error.NoMemory };

    fn from(_: AllocError) -> ReadError {
        ReadError::NoMemory
    }
}

/// Reads all that a name holds, where that is at most `most` bytes.
///
/// It reads on until a read gives nothing, and asks for no more than one byte beyond `most`. Memory is
/// taken for what was read, never for `most` bytes at once.
pub fn read_whole<S: Shelf>(
    alloc: Global,
    shelf: &mut S,
    name: &str,
    most: usize,
) -> Result<Vec<u8>, ReadError>
    requires name { length name.now ≤ 4096 }
    ensures within { IfOk result (λ v. vec_len v ≤ most) }
    ensures whole { IfOk result (λ v. IfSome (S.content shelf.old name.now) (λ bytes. v.items ≡ bytes)) }
    ensures too_long { result ≡ Err ReadError.TooLong →
        IfSome (S.content shelf.old name.now) (λ bytes. most < length bytes) }
    ensures failed { result ≡ Err ReadError.Failed →
        Rose (S.fault_count shelf.old) (S.fault_count shelf.new) }
    ensures asked { AsksTo (S.asked shelf.old) (S.asked shelf.new) (most + 1) }

    ensures contents { (other : List ℕ) → S.content shelf.new other ≡ S.content shelf.old other }
    ensures begun_stays { S.begun shelf.new ≡ S.begun shelf.old }
    ensures taken_stays { S.taken shelf.new ≡ S.taken shelf.old }
    ensures never_falls { S.fault_count shelf.old ≤ S.fault_count shelf.new }
    ensures last { result ≡ Err ReadError.Failed → S.last_fault shelf.new ≡ read_fault name.now }
    ensures last_stays { result ≢ Err ReadError.Failed → S.last_fault shelf.new ≡ S.last_fault shelf.old }
{
    let mut whole = Vec::new(alloc);
    let mut piece = [0u8; PIECE];
    while whole.len() <= most {
        let wanted = (most - whole.len()).saturating_add(1).min(PIECE);
        let part = &mut piece[..wanted];
        let n = shelf.read(name, whole.len() as u64, part)?;
        if n == 0 {
            return Ok(whole);
        }
        whole.extend_from_slice(&part[..n])?;
    }
    Err(ReadError::TooLong)
}
