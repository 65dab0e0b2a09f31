//! The command that compares two images.

ghost use Rattle.std.specs.Prelude.{◌≡◌, ◌≤◌, ◌++◌, List, ℕ, codes, decimal, is_some, length, true};
ghost use Rattle.cs_classes.specs.Meaning.{loaded_kept};
ghost use Rattle.cs_classes.specs.Sound.{IsWhole};
ghost use Rattle.cs_inspect.specs.Comparing.{place_told};
ghost use Rattle.cs_cli.specs.Answer.{Compared, OtherAnswered, Printed, SameAnswered, sameness_answer};
ghost use Rattle.cs_cli.specs.Meaning.{line_by, options_by};
ghost use Rattle.cs_cli.specs.Possible.{IsInRange};

use crate::image::load_file;
use crate::line::Line;
use crate::printing::{NO_MEMORY, print};
use crate::refusal::refuse;
use arrayvec::ArrayString;
use cs_image::Loaded;
use cs_inspect::Sameness;
use cs_shelf::{Shelf, Sink};
use itoa::Buffer;
use std::alloc::Global;

/// The status of two images that are the same.
const SAME: u8 = 0;

/// The status of two images that differ.
const DIFFERENT: u8 = 9;

/// Bytes that hold each line of a difference: 8 of its own words, and a place of at most 10 digits.
const LONGEST_DIFFERENCE: usize = 18;

/// Compares the image of a line's file with that of another one, and gives the status.
pub(crate) fn same<S: Shelf, K: Sink>(
    alloc: Global,
    line: &Line<'_>,
    shelf: &mut S,
    out: &mut K,
) -> u8
    requires range { IsInRange (line_by line.now) }
    requires other { is_some line.now.options.other ≡ true }
    ensures answered { SameAnswered line.now.file.now (options_by line.now.options)
        (record {
          content = S.content shelf.old;
          before = S.fault_count shelf.old;
          behind = S.fault_count shelf.new;
          last = S.last_fault shelf.new;
        })
        (record {
          old = K.taken out.old;
          new = K.taken out.new;
          before = K.fault_count out.old;
          behind = K.fault_count out.new;
        }) result }
    ensures contents { (name : List ℕ) → S.content shelf.new name ≡ S.content shelf.old name }
{
    let Some(other) = line.options.other else {
        unreachable!()
    };
    let limit = line.options.heap;
    match load_file(alloc, shelf, line.file, limit) {
        Ok(first) => compare_with(alloc, &first, other, limit, shelf, out),
        Err(why) => refuse(out, line.file, why),
    }
}

/// Compares an image with that of a file, in a heap of `limit` words of 4 bytes, and gives the status.
fn compare_with<S: Shelf, K: Sink>(
    alloc: Global,
    first: &Loaded,
    other: &str,
    limit: u32,
    shelf: &mut S,
    out: &mut K,
) -> u8
    requires whole { IsWhole first.now.heap.objects first.now.classes first.now.roots }
    requires name { length other.now ≤ 4096 }
    requires least { 4096 ≤ limit }
    requires most { limit ≤ 67108864 }
    ensures answered { OtherAnswered (loaded_kept first.now) other.now limit
        (record {
          content = S.content shelf.old;
          before = S.fault_count shelf.old;
          behind = S.fault_count shelf.new;
          last = S.last_fault shelf.new;
        })
        (record {
          old = K.taken out.old;
          new = K.taken out.new;
          before = K.fault_count out.old;
          behind = K.fault_count out.new;
        }) result }
    ensures contents { (name : List ℕ) → S.content shelf.new name ≡ S.content shelf.old name }
{
    match load_file(alloc, shelf, other, limit) {
        Ok(second) => compare(alloc, first, &second, out),
        Err(why) => refuse(out, other, why),
    }
}

/// Compares two images, and gives the status.
fn compare<K: Sink>(alloc: Global, first: &Loaded, second: &Loaded, out: &mut K) -> u8
    requires first_whole { IsWhole first.now.heap.objects first.now.classes first.now.roots }
    requires second_whole { IsWhole second.now.heap.objects second.now.classes second.now.roots }
    ensures { Compared (loaded_kept first.now) (loaded_kept second.now) (record {
      old = K.taken out.old;
      new = K.taken out.new;
      before = K.fault_count out.old;
      behind = K.fault_count out.new;
    }) result }
{
    match cs_inspect::same(alloc, first, second) {
        Ok(sameness) => print_sameness(out, sameness),
        Err(_) => print(out, NO_MEMORY, "cogstack: memory\n"),
    }
}

/// Says whether two images are the same, or else where they first differ, and gives the status.
fn print_sameness<K: Sink>(out: &mut K, sameness: Sameness) -> u8
    ensures { Printed (sameness_answer (place_told sameness)) (record {
      old = K.taken out.old;
      new = K.taken out.new;
      before = K.fault_count out.old;
      behind = K.fault_count out.new;
    }) result }
{
    match sameness {
        Sameness::Same => print(out, SAME, "same\n"),
        Sameness::Differ { place } => {
            let text = difference_line(place);
            print(out, DIFFERENT, text.as_str())
        }
    }
}

/// The line that tells the place at which two images first differ.
fn difference_line(place: u32) -> ArrayString<LONGEST_DIFFERENCE>
    ensures { result.bytes ≡ codes "differ " ++ decimal place ++ codes "\n" }
{
    let mut text = ArrayString::new();
    text.push_str("differ ");
    text.push_str(Buffer::new().format(place));
    text.push_str("\n");
    text
}
