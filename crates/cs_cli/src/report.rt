//! The report of a run: one line feed and one line.
//!
//! The line is the word of the ending, for a stop also its reason, and then
//! `steps=S process=P context=C pc=Q`. The words and names are this machine's own.

ghost use Rattle.std.specs.Prelude.{◌≡◌, ◌≤◌, ◌+◌, ◌++◌, IsSome, codes, length};
ghost use Rattle.arrayvec.specs.ArrayString.{array_string_len};
ghost use Rattle.cs_model.specs.Report.{ending_text, report_line, number_text};
ghost use Rattle.cs_core.specs.Running.{ending_of, place_by};
ghost use Rattle.cs_cli.specs.Answer.{reported_ending};

use arrayvec::ArrayString;
use cs_acts::{Place, RunEnd};
use itoa::Buffer;

/// Bytes that hold every report: 31 of its own words, 21 of an ending and its reason, and four
/// numbers of at most 20 digits.
pub const LONGEST_REPORT: usize = 132;

/// The text of the report: how a run ended, how many bytecodes it completed, and where it stands. No report is made of
/// a run that saves the image and goes on, or that is broken off.
///
/// It takes no memory.
pub fn report(end: RunEnd, steps: u64, place: &Place) -> ArrayString<LONGEST_REPORT>
    requires { IsSome (ending_of end) }
    ensures { result.bytes ≡ codes "\n" ++ report_line (reported_ending end) steps (place_by place.now) }
{
    let mut text = ArrayString::new();
    text.push_str("\n");
    push_ending(&mut text, end);
    push_field(&mut text, " steps=", Some(steps));
    push_field(&mut text, " process=", place.process);
    push_field(&mut text, " context=", place.context);
    push_field(&mut text, " pc=", place.pc.map(u64::from));
    text.push_str("\n");
    text
}

/// Appends the word of an ending, and the reason of a stop.
fn push_ending(text: &mut ArrayString<LONGEST_REPORT>, end: RunEnd)
    requires reported { IsSome (ending_of end) }
    requires room { array_string_len text.old + 21 ≤ LONGEST_REPORT }
    ensures text { text.new.bytes ≡ text.old.bytes ++ ending_text (reported_ending end) }
    ensures within { array_string_len text.new ≤ array_string_len text.old + 21 }
{
    match end {
        RunEnd::Steps => text.push_str("Steps"),
        RunEnd::Quit => text.push_str("Quit"),
        RunEnd::Idle => text.push_str("Idle"),
        RunEnd::Stopped(reason) => {
            text.push_str("Stopped ");
            text.push_str(reason.name());
        }
        RunEnd::Snapshot | RunEnd::Full(_) | RunEnd::WriteFault => unreachable!(),
    }
}

/// Appends the name of a number, and the number in decimal, or `-` where there is none.
fn push_field(text: &mut ArrayString<LONGEST_REPORT>, name: &str, number: Option<u64>)
    requires room { array_string_len text.old + length name.now + 20 ≤ LONGEST_REPORT }
    ensures text { text.new.bytes ≡ text.old.bytes ++ name.now ++ number_text number }
    ensures within { array_string_len text.new ≤ array_string_len text.old + length name.now + 20 }
{
    text.push_str(name);
    match number {
        Some(number) => text.push_str(Buffer::new().format(number)),
        None => text.push_str("-"),
    }
}
