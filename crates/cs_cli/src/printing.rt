//! Texts that are printed whole, each with the status that it stands for.

ghost use Rattle.std.specs.Prelude.{◌≡◌, ◌≤◌, OnErr, OnOk};
ghost use Rattle.cs_shelf.specs.Outside.{Appends, AppendsPart, Rose};
ghost use Rattle.cs_cli.specs.Answer.{Printed, answering, failed_read, read_text};

use cs_shelf::{Failed, Sink, write_whole};

/// The status where a name couldn't be read.
const READ_FAILED: u8 = 6;

/// The status where a write failed.
pub(crate) const WRITE_FAILED: u8 = 7;

/// The status where memory is refused.
pub(crate) const NO_MEMORY: u8 = 8;

/// Writes a text, and gives the status, or that of a failed write.
pub(crate) fn print<K: Sink>(out: &mut K, status: u8, text: &str) -> u8
    ensures printed { Printed (answering status text.now)
        (record {
          old = K.taken out.old;
          new = K.taken out.new;
          before = K.fault_count out.old;
          behind = K.fault_count out.new;
        }) result }
    ensures never_falls { K.fault_count out.old ≤ K.fault_count out.new }
{
    print_bytes(out, status, text.as_bytes())
}

/// Writes bytes, and gives the status, or that of a failed write.
pub(crate) fn print_bytes<K: Sink>(out: &mut K, status: u8, bytes: &[u8]) -> u8
    ensures printed { Printed (answering status bytes.now)
        (record {
          old = K.taken out.old;
          new = K.taken out.new;
          before = K.fault_count out.old;
          behind = K.fault_count out.new;
        }) result }
    ensures never_falls { K.fault_count out.old ≤ K.fault_count out.new }
{
    match write_whole(out, bytes) {
        Ok(()) => status,
        Err(_) => WRITE_FAILED,
    }
}

/// Says that a name couldn't be read.
pub(crate) fn print_read<K: Sink>(out: &mut K, name: &str) -> u8
    ensures { Printed (failed_read name.now)
        (record {
          old = K.taken out.old;
          new = K.taken out.new;
          before = K.fault_count out.old;
          behind = K.fault_count out.new;
        }) result }
{
    match write_read(out, name) {
        Ok(()) => READ_FAILED,
        Err(_) => WRITE_FAILED,
    }
}

/// Writes that a name couldn't be read.
fn write_read<K: Sink>(out: &mut K, name: &str) -> Result<(), Failed>
    ensures ok { OnOk result (Appends (K.taken out.old) (K.taken out.new) (read_text name.now)) }
    ensures err { OnErr result (AppendsPart (K.taken out.old) (K.taken out.new) (read_text name.now)) }
    ensures cause { OnErr result (Rose (K.fault_count out.old) (K.fault_count out.new)) }
{
    write_whole(out, b"cogstack: read ")?;
    write_whole(out, name.as_bytes())?;
    write_whole(out, b"\n")
}
