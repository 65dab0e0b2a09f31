//! The call that the program makes.

ghost use Rattle.std.specs.Prelude.{◌≡◌, ◌≢◌, List, ℕ, Some, true, map, string_bytes};
ghost use Rattle.cs_cli.specs.Answer.{Answered, CommandAnswered, name_saved, saved_name};
ghost use Rattle.cs_cli.specs.Meaning.{command_by, line_by, options_by};
ghost use Rattle.cs_cli.specs.Possible.{IsInRange, is_possible, line_of};

use crate::building::build_file;
use crate::generating::generate;
use crate::inspect::inspect;
use crate::line::{Command, Line, parse};
use crate::printing::{NO_MEMORY, print};
use crate::running::run_file;
use crate::same::same;
use cs_shelf::{Shelf, Sink};
use std::alloc::Global;

/// The status where the line is refused.
const BAD_LINE: u8 = 2;

/// Does what the words behind the program's name say, writes all that is printed to `out`, and gives the status.
pub fn cogstack<S: Shelf, K: Sink>(
    alloc: Global,
    words: &[String],
    shelf: &mut S,
    out: &mut K,
) -> u8
    ensures answered { Answered (line_of (map string_bytes words.now))
        (record {
          content = S.content shelf.old;
          before = S.fault_count shelf.old;
          behind = S.fault_count shelf.new;
          last = S.last_fault shelf.new;
        })
        (record {
          old = S.taken shelf.old;
          new = S.taken shelf.new;
          held = S.content shelf.new;
        })
        (record {
          old = K.taken out.old;
          new = K.taken out.new;
          before = K.fault_count out.old;
          behind = K.fault_count out.new;
        }) result }
    ensures contents { (name : List ℕ) → name_saved (line_of (map string_bytes words.now)) result ≢ Some name
        → S.content shelf.new name ≡ S.content shelf.old name }
{
    match parse(alloc, words) {
        Ok(Some(line)) => answer(alloc, &line, shelf, out),
        Ok(None) => print(out, BAD_LINE, "cogstack: line\n"),
        Err(_) => print(out, NO_MEMORY, "cogstack: memory\n"),
    }
}

/// Does what a line says, and gives the status.
fn answer<S: Shelf, K: Sink>(alloc: Global, line: &Line<'_>, shelf: &mut S, out: &mut K) -> u8
    requires possible { is_possible (line_by line.now) ≡ true }
    requires range { IsInRange (line_by line.now) }
    ensures answered { CommandAnswered (command_by line.now.command) line.now.file.now (options_by line.now.options)
        (record {
          content = S.content shelf.old;
          before = S.fault_count shelf.old;
          behind = S.fault_count shelf.new;
          last = S.last_fault shelf.new;
        })
        (record {
          old = S.taken shelf.old;
          new = S.taken shelf.new;
          held = S.content shelf.new;
        })
        (record {
          old = K.taken out.old;
          new = K.taken out.new;
          before = K.fault_count out.old;
          behind = K.fault_count out.new;
        }) result }
    ensures contents { (name : List ℕ) →
        saved_name (command_by line.now.command) (options_by line.now.options) result ≢ Some name
        → S.content shelf.new name ≡ S.content shelf.old name }
{
    match line.command {
        Command::Run => run_file(alloc, line, shelf, out),
        Command::Inspect => inspect(alloc, line, shelf, out),
        Command::Build => build_file(alloc, line, shelf, out),
        Command::Same => same(alloc, line, shelf, out),
        Command::Gen(k) => generate(alloc, k, line, out),
    }
}
