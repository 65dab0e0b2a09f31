//! The command that runs an image.

ghost use Rattle.std.specs.Prelude.{◌≡◌, ◌≤◌, IsSome, List, ℕ, Some, false};
ghost use Rattle.cs_classes.specs.Meaning.{loaded_kept};
ghost use Rattle.cs_model.specs.CommandLine.{run_pages};
ghost use Rattle.cs_model.specs.Due.{is_idle};
ghost use Rattle.cs_model.specs.Read.{IsRunning};
ghost use Rattle.cs_model.specs.Settle.{open_kept};
ghost use Rattle.cs_acts.specs.Layout.{IsFresh};
ghost use Rattle.cs_acts.specs.Ready.{IsSound};
ghost use Rattle.cs_core.specs.Deep.{most_of};
ghost use Rattle.cs_core.specs.Running.{ending_of, place_by};
ghost use Rattle.cs_cli.specs.Answer.{BegunBehind, Headed, Printed, Reported, RunAnswered, report_answer};
ghost use Rattle.cs_cli.specs.Answer.{reported_ending, run_status};
ghost use Rattle.cs_cli.specs.Loading.{IsOpenable};
ghost use Rattle.cs_cli.specs.Meaning.{line_by, options_by};
ghost use Rattle.cs_cli.specs.Possible.{IsInRange};

use crate::image::load_file;
use crate::line::Line;
use crate::printing::{NO_MEMORY, WRITE_FAILED, print};
use crate::refusal::refuse;
use crate::report::report;
use cs_acts::{Full, Place, RunEnd, World};
use cs_core::Vm;
use cs_image::Loaded;
use cs_send::Sender;
use cs_shelf::{Shelf, Sink, write_whole};
use cs_stack::StackWorld;
use std::alloc::Global;

/// The status of a run that a step stops.
const STOPPED: u8 = 1;

/// The status where the heap is full.
const HEAP_FULL: u8 = 5;

/// The status where the stack pages are full.
const STACK_FULL: u8 = 10;

/// Runs the image of a line's file, and gives the status.
pub(crate) fn run_file<S: Shelf, K: Sink>(
    alloc: Global,
    line: &Line<'_>,
    shelf: &mut S,
    out: &mut K,
) -> u8
    requires range { IsInRange (line_by line.now) }
    ensures answered { RunAnswered line.now.file.now (options_by line.now.options)
        (record {
          content = S.content shelf.old;
          before = S.fault_count shelf.old;
          behind = S.fault_count shelf.new;
          last = S.last_fault shelf.new;
        })
        (record {
          old = K.taken out.old;
          new = K.taken out.new;
          before = K.fault_count out.old;
          behind = K.fault_count out.new;
        }) result }
    ensures contents { (name : List ℕ) → S.content shelf.new name ≡ S.content shelf.old name }
{
    match load_file(alloc, shelf, line.file, line.options.heap) {
        Ok(loaded) => open_and_run(
            alloc,
            loaded,
            line.options.page_count(),
            line.options.steps,
            "",
            out,
        ),
        Err(why) => refuse(out, line.file, why),
    }
}

/// Opens an image on so many stack pages, 2 to 64, prints a first line, which may be empty, and runs the image.
pub(crate) fn open_and_run<K: Sink>(
    alloc: Global,
    loaded: Loaded,
    pages: u32,
    steps: u64,
    first: &str,
    out: &mut K,
) -> u8
    requires openable { IsOpenable loaded }
    requires few { 2 ≤ pages }
    requires many { pages ≤ 64 }
    ensures { BegunBehind first.now (open_kept (loaded_kept loaded)) steps (Some pages) loaded.heap.limit (record {
      old = K.taken out.old;
      new = K.taken out.new;
      before = K.fault_count out.old;
      behind = K.fault_count out.new;
    }) result }
{
    match StackWorld::new(alloc, loaded, pages) {
        Ok(world) => begin(alloc, world, steps, first, out),
        Err(_) => print(out, NO_MEMORY, "cogstack: memory\n"),
    }
}

/// Prints a first line and runs an image, where memory for what sends its messages is had.
fn begin<W: World + Drop, K: Sink>(
    alloc: Global,
    world: W,
    steps: u64,
    first: &str,
    out: &mut K,
) -> u8
    requires sound { IsSound (W.stored world) (W.view world) }
    requires running { is_idle (W.view world) ≡ false → IsRunning (W.view world) }
    requires fresh { IsFresh (W.view world) (W.layout world) }
    ensures { BegunBehind first.now (W.view world) steps (most_of (W.layout world)) (W.stored world).memory.limit
        (record {
          old = K.taken out.old;
          new = K.taken out.new;
          before = K.fault_count out.old;
          behind = K.fault_count out.new;
        }) result }
{
    match Sender::new(alloc) {
        Ok(sender) => run_behind(world, sender, steps, first, out),
        Err(_) => print(out, NO_MEMORY, "cogstack: memory\n"),
    }
}

/// Prints a first line, and runs an image behind it.
fn run_behind<W: World + Drop, K: Sink>(
    world: W,
    sender: Sender,
    steps: u64,
    first: &str,
    out: &mut K,
) -> u8
    requires sound { IsSound (W.stored world) (W.view world) }
    requires running { is_idle (W.view world) ≡ false → IsRunning (W.view world) }
    requires fresh { IsFresh (W.view world) (W.layout world) }
    ensures { Headed first.now (W.view world) steps (most_of (W.layout world)) (W.stored world).memory.limit
        (record {
          old = K.taken out.old;
          new = K.taken out.new;
          before = K.fault_count out.old;
          behind = K.fault_count out.new;
        }) result }
{
    match write_whole(out, first.as_bytes()) {
        Ok(()) => run_and_report(world, sender, steps, out),
        Err(_) => WRITE_FAILED,
    }
}

/// Runs an image, and reports where it comes to.
fn run_and_report<W: World + Drop, K: Sink>(world: W, sender: Sender, steps: u64, out: &mut K) -> u8
    requires sound { IsSound (W.stored world) (W.view world) }
    requires running { is_idle (W.view world) ≡ false → IsRunning (W.view world) }
    requires fresh { IsFresh (W.view world) (W.layout world) }
    ensures { Reported (W.view world) steps (most_of (W.layout world)) (W.stored world).memory.limit
        (record {
          old = K.taken out.old;
          new = K.taken out.new;
          before = K.fault_count out.old;
          behind = K.fault_count out.new;
        }) result }
{
    let mut machine = Vm::new(world, sender);
    match machine.run(steps, out) {
        RunEnd::Full(why) => match why {
            Full::Heap => HEAP_FULL,
            Full::Stack => print(out, STACK_FULL, "cogstack: stack\n"),
        },
        RunEnd::WriteFault => WRITE_FAILED,
        end => print_report(end, machine.steps(), &machine.place(), out),
    }
}

/// Prints the report of a run, and gives its status, or that of a failed write.
fn print_report<K: Sink>(end: RunEnd, steps: u64, place: &Place, out: &mut K) -> u8
    requires { IsSome (ending_of end) }
    ensures { Printed (report_answer (reported_ending end) steps (place_by place.now))
        (record {
          old = K.taken out.old;
          new = K.taken out.new;
          before = K.fault_count out.old;
          behind = K.fault_count out.new;
        }) result }
{
    let text = report(end, steps, place);
    print(out, status_of(end), text.as_str())
}

/// The status of a run that ends so.
fn status_of(end: RunEnd) -> u8
    requires { IsSome (ending_of end) }
    ensures { result ≡ run_status (reported_ending end) }
{
    match end {
        RunEnd::Steps | RunEnd::Quit | RunEnd::Idle => 0,
        RunEnd::Stopped(_) => STOPPED,
        RunEnd::Snapshot | RunEnd::Full(_) | RunEnd::WriteFault => unreachable!(),
    }
}
