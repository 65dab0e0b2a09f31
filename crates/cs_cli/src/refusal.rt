//! Why there is no image, and how that is told.

ghost use Rattle.std.specs.Prelude.{◌≡◌, ◌≤◌, ◌+◌, ◌++◌, [], length, codes, decimal, IfSome};
ghost use Rattle.std.specs.Option.{option_map_or};
ghost use Rattle.arrayvec.specs.ArrayString.{array_string_len};
ghost use Rattle.cs_model.specs.ImageFault.{image_fault_name};
ghost use Rattle.cs_cli.specs.Answer.{Printed, image_text};
ghost use Rattle.cs_cli.specs.Loading.{fault_by, image_answer, refusal_answer};

use crate::printing::{NO_MEMORY, print, print_read};
use arrayvec::ArrayString;
use cs_image::ImageError;
use cs_shelf::Sink;
use itoa::Buffer;

/// The status where the file isn't an image.
const BAD_IMAGE: u8 = 3;

/// Bytes that hold each line of a fault: 17 of its own words, 11 of a name, and a place of at most 10 digits.
const LONGEST_LINE: usize = 38;

/// Why there is no image.
#[derive(Clone, Copy)]
pub(crate) enum Refusal {
    /// The file couldn't be read.
    Read,
    /// The file has a fault, or memory for what it holds is refused.
    Image(ImageError),
}

/// Says why a file gives no image, and gives the status.
pub(crate) fn refuse<K: Sink>(out: &mut K, name: &str, why: Refusal) -> u8
    ensures { Printed (refusal_answer name.now why)
        (record {
          old = K.taken out.old;
          new = K.taken out.new;
          before = K.fault_count out.old;
          behind = K.fault_count out.new;
        }) result }
{
    match why {
        Refusal::Read => print_read(out, name),
        Refusal::Image(error) => refuse_image(out, error),
    }
}

/// Says which fault a file has, or that memory is refused, and gives the status.
pub(crate) fn refuse_image<K: Sink>(out: &mut K, error: ImageError) -> u8
    ensures { Printed (image_answer error)
        (record {
          old = K.taken out.old;
          new = K.taken out.new;
          before = K.fault_count out.old;
          behind = K.fault_count out.new;
        }) result }
{
    match error {
        ImageError::NoMemory => print(out, NO_MEMORY, "cogstack: memory\n"),
        _ => {
            let text = fault_line(error);
            print(out, BAD_IMAGE, text.as_str())
        }
    }
}

/// The line that tells a fault of an image, and its place where it has one.
fn fault_line(error: ImageError) -> ArrayString<LONGEST_LINE>
    ensures { IfSome (fault_by error) (λ fault. result.bytes ≡ image_text fault) }
{
    let mut text = ArrayString::new();
    text.push_str("cogstack: image ");
    push_fault(&mut text, error);
    text.push_str("\n");
    text
}

/// Appends the name of a fault, and its place where it has one.
fn push_fault(text: &mut ArrayString<LONGEST_LINE>, error: ImageError)
    requires room { array_string_len text.old + 21 ≤ LONGEST_LINE }
    ensures text { text.new.bytes ≡ text.old.bytes ++ option_map_or image_fault_name (fault_by error) [] }
    ensures within { array_string_len text.new ≤ array_string_len text.old + 21 }
{
    match error {
        ImageError::TooLong => text.push_str("TooLong"),
        ImageError::Short => text.push_str("Short"),
        ImageError::BadFormat => text.push_str("BadFormat"),
        ImageError::BadHeaderSize => text.push_str("BadHeaderSize"),
        ImageError::BadProfile => text.push_str("BadProfile"),
        ImageError::BadLength => text.push_str("BadLength"),
        ImageError::BadObject { at } => push_place(text, "BadObject ", at),
        ImageError::OverLimit => text.push_str("OverLimit"),
        ImageError::BadTable => text.push_str("BadTable"),
        ImageError::BadRef { at } => push_place(text, "BadRef ", at),
        ImageError::BadClass { at } => push_place(text, "BadClass ", at),
        ImageError::BadContext { at } => push_place(text, "BadContext ", at),
        ImageError::BadRoots => text.push_str("BadRoots"),
        ImageError::BadBirths => text.push_str("BadBirths"),
        ImageError::NoMemory => {}
    }
}

/// Appends a name, and a place in decimal.
fn push_place(text: &mut ArrayString<LONGEST_LINE>, name: &str, at: u32)
    requires room { array_string_len text.old + length name.now + 10 ≤ LONGEST_LINE }
    ensures text { text.new.bytes ≡ text.old.bytes ++ (name.now ++ decimal at) }
    ensures within { array_string_len text.new ≤ array_string_len text.old + length name.now + 10 }
{
    text.push_str(name);
    text.push_str(Buffer::new().format(at));
}
