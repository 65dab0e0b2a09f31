//! The event that a line says.

ghost use Rattle.std.specs.Prelude.{◌≡◌, pos, option_map, IfOk};
ghost use Rattle.cs_model.specs.Script.{event_in, kind_said};
ghost use Rattle.cs_model.specs.declared.event.EventKind.TheVariants as kind;
ghost use Rattle.cs_model.specs.Text.{number_between, parts_of};
ghost use Rattle.cs_script.specs.Reading.{texts};

use crate::number::number_between;
use crate::text::parts_of;
use cs_model::{Event, EventKind};
use std::alloc::{AllocError, Global};

/// The greatest number of a bytecode that an event may come before.
const LAST_BYTECODE: u64 = 1_000_000_000_000;

/// The greatest number of an external semaphore.
const LAST_SEMAPHORE: u64 = 65_535;

/// The latest moment of the clock, the greatest SmallInteger.
const LAST_MOMENT: u64 = 1_073_741_823;

/// The event that a line says, if it says one: `S signal K`, `S clock M` or `S byte B` with single spaces.
pub(crate) fn read_line(alloc: Global, line: &[u8]) -> Result<Option<Event>, AllocError>
    ensures { IfOk result (λ event. event ≡ event_in (parts_of line.now)) }
{
    let words = parts_of(alloc, line, b' ')?;
    Ok(read_event(&words))
}

/// The event of the three words of a line.
fn read_event(words: &[&[u8]]) -> Option<Event>
    ensures { result ≡ event_in (texts words.now) }
{
    let [before, word, value] = words else {
        return None;
    };
    let before = number_between(1, LAST_BYTECODE, before)?;
    let kind = read_kind(word, value)?;
    Some(Event { before, kind })
}

/// What happens: the number of a semaphore that is signalled, the moment to which the clock is set, or a byte that comes
/// in.
fn read_kind(word: &[u8], value: &[u8]) -> Option<EventKind>
    ensures { result ≡ kind_said word.now value.now }
{
    if word == "signal".as_bytes() {
        read_signal(value)
    } else if word == "clock".as_bytes() {
        read_clock(value)
    } else if word == "byte".as_bytes() {
        read_byte(value)
    } else {
        None
    }
}

/// The signal of an external semaphore, counted from 1.
fn read_signal(value: &[u8]) -> Option<EventKind>
    ensures { result ≡ option_map (λ n. kind.Signal n) (number_between 1 65535 value.now) }
{
    let number = number_between(1, LAST_SEMAPHORE, value)?;
    Some(EventKind::Signal(number as u32))
}

/// The clock's new moment.
fn read_clock(value: &[u8]) -> Option<EventKind>
    ensures { result ≡ option_map (λ n. kind.Clock (pos n)) (number_between 0 1073741823 value.now) }
{
    let moment = number_between(0, LAST_MOMENT, value)?;
    Some(EventKind::Clock(moment as i32))
}

/// A byte of the input.
fn read_byte(value: &[u8]) -> Option<EventKind>
    ensures { result ≡ option_map (λ n. kind.Byte n) (number_between 0 255 value.now) }
{
    let byte = number_between(0, 255, value)?;
    Some(EventKind::Byte(byte as u8))
}
