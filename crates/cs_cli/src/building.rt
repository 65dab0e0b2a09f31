//! The command that builds an image from a text.

ghost use Rattle.std.specs.Prelude.{◌≡◌, ◌≢◌, ◌≤◌, ◌++◌, List, ℕ, Some, codes, decimal, is_some, length, true};
ghost use Rattle.cs_model.specs.CommandLine as model;
ghost use Rattle.cs_cli.specs.Answer.{BuildAnswered, Saved, built_answer, saved_name};
ghost use Rattle.cs_cli.specs.Building.{Builds};
ghost use Rattle.cs_cli.specs.Meaning.{line_by, options_by};
ghost use Rattle.cs_cli.specs.Possible.{IsInRange};

use crate::line::Line;
use crate::printing::{WRITE_FAILED, print};
use crate::text_refusal::{TextRefusal, refuse_text};
use arrayvec::ArrayString;
use cs_build::{BuildError, BuiltImage, build};
use cs_shelf::{ReadError, Shelf, Sink, read_whole, save_whole};
use itoa::Buffer;
use std::alloc::Global;

/// The longest text, in bytes.
const LONGEST_TEXT: usize = 16_777_216;

/// The status of an image that is built and saved.
const BUILT: u8 = 0;

/// Bytes that hold each line of a built image: 15 of its own words, and a count of at most 10 digits.
const LONGEST_BUILT: usize = 25;

/// Builds an image from the text of a line's file, saves it under the line's name for that, and gives the status.
pub(crate) fn build_file<S: Shelf, K: Sink>(
    alloc: Global,
    line: &Line<'_>,
    shelf: &mut S,
    out: &mut K,
) -> u8
    requires range { IsInRange (line_by line.now) }
    requires save { is_some line.now.options.save ≡ true }
    ensures answered { BuildAnswered line.now.file.now (options_by line.now.options)
        (record {
          content = S.content shelf.old;
          before = S.fault_count shelf.old;
          behind = S.fault_count shelf.new;
          last = S.last_fault shelf.new;
        })
        (record {
          old = S.taken shelf.old;
          new = S.taken shelf.new;
          held = S.content shelf.new;
        })
        (record {
          old = K.taken out.old;
          new = K.taken out.new;
          before = K.fault_count out.old;
          behind = K.fault_count out.new;
        }) result }
    ensures contents { (name : List ℕ) → saved_name model.Build (options_by line.now.options) result ≢ Some name
        → S.content shelf.new name ≡ S.content shelf.old name }
{
    let Some(name) = line.options.save else {
        unreachable!()
    };
    match image_of_file(alloc, shelf, line.file) {
        Ok(image) => save_image(&image, name, shelf, out),
        Err(why) => refuse_text(out, line.file, why),
    }
}

/// Reads a file, and builds an image from the text that it holds.
fn image_of_file<S: Shelf>(
    alloc: Global,
    shelf: &mut S,
    name: &str,
) -> Result<BuiltImage, TextRefusal>
    requires { length name.now ≤ 4096 }
    ensures builds { Builds name.now (record {
      content = S.content shelf.old;
      before = S.fault_count shelf.old;
      behind = S.fault_count shelf.new;
      last = S.last_fault shelf.new;
    }) result }
    ensures never_falls { S.fault_count shelf.old ≤ S.fault_count shelf.new }
    ensures contents { (other : List ℕ) → S.content shelf.new other ≡ S.content shelf.old other }
    ensures taken { S.taken shelf.new ≡ S.taken shelf.old }
{
    let text = match read_whole(alloc, shelf, name, LONGEST_TEXT) {
        Ok(text) => text,
        Err(ReadError::TooLong) => return Err(TextRefusal::Text(BuildError::TooMany)),
        Err(ReadError::Failed) => return Err(TextRefusal::Read),
        Err(ReadError::NoMemory) => return Err(TextRefusal::Text(BuildError::NoMemory)),
    };
    match build(alloc, text.as_slice()) {
        Ok(image) => Ok(image),
        Err(error) => Err(TextRefusal::Text(error)),
    }
}

/// Saves an image under a name, says of how many objects it is, and gives the status.
fn save_image<S: Shelf, K: Sink>(image: &BuiltImage, name: &str, shelf: &mut S, out: &mut K) -> u8
    requires { length name.now ≤ 4096 }
    ensures saved { Saved name.now image.now.bytes.items (built_answer image.now.objects)
        (record {
          content = S.content shelf.old;
          before = S.fault_count shelf.old;
          behind = S.fault_count shelf.new;
          last = S.last_fault shelf.new;
        })
        (record {
          old = S.taken shelf.old;
          new = S.taken shelf.new;
          held = S.content shelf.new;
        })
        (record {
          old = K.taken out.old;
          new = K.taken out.new;
          before = K.fault_count out.old;
          behind = K.fault_count out.new;
        }) result }
    ensures contents { (other : List ℕ) → other ≢ name.now → S.content shelf.new other ≡ S.content shelf.old other }
{
    match save_whole(shelf, name, image.bytes.as_slice()) {
        Ok(()) => {
            let text = built_line(image.objects);
            print(out, BUILT, text.as_str())
        }
        Err(_) => WRITE_FAILED,
    }
}

/// The line that tells of how many objects an image was built.
fn built_line(objects: u32) -> ArrayString<LONGEST_BUILT>
    ensures { result.bytes ≡ codes "built objects=" ++ decimal objects ++ codes "\n" }
{
    let mut text = ArrayString::new();
    text.push_str("built objects=");
    text.push_str(Buffer::new().format(objects));
    text.push_str("\n");
    text
}
