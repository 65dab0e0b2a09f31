//! Why a text builds no image, and how that is told.

ghost use Rattle.std.specs.Prelude.{◌≡◌, ◌≤◌, ◌+◌, ◌++◌, [], length, codes, decimal, IfSome};
ghost use Rattle.std.specs.Option.{option_map_or};
ghost use Rattle.arrayvec.specs.ArrayString.{array_string_len};
ghost use Rattle.cs_model.specs.BuilderFault.{text_fault_name};
ghost use Rattle.cs_cli.specs.Answer.{Printed, fault_text};
ghost use Rattle.cs_cli.specs.Building.{text_answer, text_fault_by, text_refusal_answer};

use crate::printing::{NO_MEMORY, print, print_read};
use arrayvec::ArrayString;
use cs_build::BuildError;
use cs_shelf::Sink;
use itoa::Buffer;

/// The status where a text has a fault.
const BAD_TEXT: u8 = 4;

/// Bytes that hold each line of a fault: 16 of its own words, 9 of a name, and a line of at most 10 digits.
const LONGEST_LINE: usize = 35;

/// Why a text builds no image.
#[derive(Clone, Copy)]
pub(crate) enum TextRefusal {
    /// The file couldn't be read.
    Read,
    /// The text has a fault, or memory for what it builds is refused.
    Text(BuildError),
}

/// Says why a text builds no image, and gives the status.
pub(crate) fn refuse_text<K: Sink>(out: &mut K, name: &str, why: TextRefusal) -> u8
    ensures { Printed (text_refusal_answer name.now why)
        (record {
          old = K.taken out.old;
          new = K.taken out.new;
          before = K.fault_count out.old;
          behind = K.fault_count out.new;
        }) result }
{
    match why {
        TextRefusal::Read => print_read(out, name),
        TextRefusal::Text(error) => refuse_fault(out, error),
    }
}

/// Says which fault a text has, or that memory is refused, and gives the status.
pub(crate) fn refuse_fault<K: Sink>(out: &mut K, error: BuildError) -> u8
    ensures { Printed (text_answer error)
        (record {
          old = K.taken out.old;
          new = K.taken out.new;
          before = K.fault_count out.old;
          behind = K.fault_count out.new;
        }) result }
{
    match error {
        BuildError::NoMemory => print(out, NO_MEMORY, "cogstack: memory\n"),
        _ => {
            let text = fault_line(error);
            print(out, BAD_TEXT, text.as_str())
        }
    }
}

/// The line that tells a fault of a text, and its line where it has one.
fn fault_line(error: BuildError) -> ArrayString<LONGEST_LINE>
    ensures { IfSome (text_fault_by error) (λ fault. result.bytes ≡ fault_text fault) }
{
    let mut text = ArrayString::new();
    text.push_str("cogstack: text ");
    push_fault(&mut text, error);
    text.push_str("\n");
    text
}

/// Appends the name of a fault, and its line where it has one.
fn push_fault(text: &mut ArrayString<LONGEST_LINE>, error: BuildError)
    requires room { array_string_len text.old + 19 ≤ LONGEST_LINE }
    ensures text { text.new.bytes ≡ text.old.bytes ++ option_map_or text_fault_name (text_fault_by error) [] }
    ensures within { array_string_len text.new ≤ array_string_len text.old + 19 }
{
    match error {
        BuildError::TooMany => text.push_str("TooMany"),
        BuildError::BadLine { line } => push_line(text, "BadLine ", line),
        BuildError::Twice { line } => push_line(text, "Twice ", line),
        BuildError::BadRange { line } => push_line(text, "BadRange ", line),
        BuildError::BadName { line } => push_line(text, "BadName ", line),
        BuildError::NoMemory => {}
    }
}

/// Appends a name, and the number of a line in decimal.
fn push_line(text: &mut ArrayString<LONGEST_LINE>, name: &str, line: u32)
    requires room { array_string_len text.old + length name.now + 10 ≤ LONGEST_LINE }
    ensures text { text.new.bytes ≡ text.old.bytes ++ (name.now ++ decimal line) }
    ensures within { array_string_len text.new ≤ array_string_len text.old + length name.now + 10 }
{
    text.push_str(name);
    text.push_str(Buffer::new().format(line));
}
