//! Scripts as lists of events.

ghost use Rattle.std.specs.Prelude.{◌≡◌, ◌<◌, ◌≤◌, ◌==◌, length, get_or};
ghost use Rattle.cs_model.specs.Script.{event_line_fault, script_of};
ghost use Rattle.cs_script.specs.Reading.{Judged, TellsScript, script_in, texts};

use crate::error::ScriptError;
use crate::line::read_line;
use crate::text::lines_of;
use cs_model::Event;
use std::alloc::Global;
use std::marker::Model;

/// The most bytes of a script.
const MOST_BYTES: usize = 16_777_216;

/// The most lines of a script.
const MOST_LINES: usize = 262_144;

/// The events of a script in the order of its lines, which is that of the bytecodes that they come before.
#[derive(Drop)]
pub struct Script {
    events: Vec<Event>,
}

impl Model for Script {
    ghost use Rattle.std.specs.Prelude.{List, ◌≤◌, length};
    ghost use Rattle.cs_model.specs.declared.event.Event.{Event};

    ghost Value = { List Event };

    ghost view = { λ script. script.events.items };

    ghost invariant = { λ script. length script.events.items ≤ 262144 };
}

impl Script {
    /// How many events there are, at most 262,144.
    pub fn len(&self) -> u32
        ensures { result ≡ length self.now }
    {
        self.events.len() as u32
    }

    /// Whether there is no event.
    pub fn is_empty(&self) -> bool
        ensures { result ≡ (length self.now == 0) }
    {
        self.events.is_empty()
    }

    /// The event of this place, counted from 0, which lies below the number of events.
    pub fn event(&self, i: u32) -> Event
        requires inside { i < length self.now }
        ensures { result ≡ get_or self.now i result }
    {
        self.events[i as usize]
    }
}

/// Reads a script: a line an event, `S signal K`, `S clock M` or `S byte B`, with single spaces. Numbers are decimal
/// without leading zeros: S from 1 to 1,000,000,000,000, K from 1 to 65,535, M from 0 to 1,073,741,823, B from 0 to
/// 255. S never falls, and the last line feed may lack.
///
/// An error says what the first fault is (see `ScriptError`), and comes exactly where there is one; `NoMemory` alone is
/// free. The form is this machine's own.
#[tactic(auto, using(crate::proofs::Sizes::sizes))]
pub fn read_script(alloc: Global, bytes: &[u8]) -> Result<Script, ScriptError>
    ensures { TellsScript (script_of bytes.now) result }
{
    if bytes.len() > MOST_BYTES {
        return Err(ScriptError::TooMany);
    }
    let lines = lines_of(alloc, bytes)?;
    if lines.len() > MOST_LINES {
        return Err(ScriptError::TooMany);
    }
    read_lines(alloc, &lines)
}

/// The events of lines, or their first fault.
fn read_lines(alloc: Global, lines: &[&[u8]]) -> Result<Script, ScriptError>
    requires most { length lines.now ≤ 262144 }
    ensures { TellsScript (script_in (texts lines.now)) result }
{
    let mut events = Vec::new(alloc);
    let mut number = 0u32;
    let mut above = 0u64;
    for line in lines {
        number += 1;
        let reading = read_line(alloc, line)?;
        let event = judge(number, above, reading)?;
        above = event.before;
        events.push(event)?;
    }
    Ok(Script { events })
}

/// The event of the line of this number, if it has one that doesn't come before the one above.
fn judge(number: u32, above: u64, reading: Option<Event>) -> Result<Event, ScriptError>
    ensures { Judged (event_line_fault number above reading) reading result }
{
    let Some(event) = reading else {
        return Err(ScriptError::BadLine { number });
    };
    if event.before < above {
        return Err(ScriptError::NotRising { number });
    }
    Ok(event)
}
