//! How receiver and arguments leave a caller for a frame on another page, and what follows them there.
ghost use Rattle.std.specs.Prelude.{◌≡◌, ◌≢◌, ◌≤◌, ◌<◌, ◌+◌, ◌-◌, ◌++◌, ℕ, drop, length, replicate, slice_index, take};
ghost use Rattle.cs_heap.specs.Object.{slot_count_of, slot_of};
ghost use Rattle.cs_stack.specs.Moved.{copied_at};
ghost use Rattle.cs_frame.specs.Frame.{IsValue, nil, with_values};
ghost use Rattle.cs_frame.specs.Page.{IsFrame, IsTop, frame, frames_of, on_page, on_top, top, frames_used};

use crate::parts::NIL;
use cs_classes::slots::FIRST_COPIED;
use cs_frame::{FrameRef, Frames};
use cs_heap::Heap;
use cs_word::Oop;

/// Pushes the last `args` values of one frame onto the last frame of another page, in their order.
pub(crate) fn copy_arguments(frames: &mut Frames, caller: FrameRef, callee: FrameRef, args: u32)
    requires caller { IsFrame frames.old caller }
    requires callee { IsTop frames.old callee }
    requires apart { caller.page ≢ callee.page }
    requires there { args ≤ length (frame frames.old caller).stack }
    requires room { frames_used (frames_of frames.old callee.page) + args ≤ 4096 }
    requires values { (i : ℕ) → i < length (frame frames.old caller).stack
        → IsValue (slice_index (frame frames.old caller).stack i) }
    ensures copied { frames.new ≡ on_page frames.old callee.page (on_top (with_values (
        (top (frames_of frames.old callee.page)).stack
        ++ drop (length (frame frames.old caller).stack - args) (frame frames.old caller).stack))) }
{
    let first = frames.depth(caller) - args;
    for i in 0..args {
        frames.push(callee, frames.slot(caller, first + i));
    }
}

/// Pushes nil so many times onto the last frame of a page.
pub(crate) fn push_nils(frames: &mut Frames, f: FrameRef, count: u32)
    requires top { IsTop frames.old f }
    requires room { frames_used (frames_of frames.old f.page) + count ≤ 4096 }
    ensures pushed { frames.new ≡ on_page frames.old f.page (on_top (with_values
        ((top (frames_of frames.old f.page)).stack ++ replicate count nil))) }
{
    for _ in 0..count {
        frames.push(f, NIL);
    }
}

/// Pushes the first values that a closure has copied, so many, onto the last frame of a page.
pub(crate) fn push_copied(frames: &mut Frames, f: FrameRef, heap: &Heap, closure: Oop, count: u32)
    requires top { IsTop frames.old f }
    requires there { count ≤ slot_count_of heap.now.objects closure.0 - 3 }
    requires room { frames_used (frames_of frames.old f.page) + count ≤ 4096 }
    requires values { (i : ℕ) → i < count → IsValue (slot_of heap.now.objects closure.0 (3 + i)) }
    ensures pushed { frames.new ≡ on_page frames.old f.page (on_top (with_values
        ((top (frames_of frames.old f.page)).stack ++ copied_at heap.now.objects closure.0 count))) }
{
    for i in 0..count {
        frames.push(f, heap.slot(closure, FIRST_COPIED + i));
    }
}

/// Pops so many values off the last frame of a page.
pub(crate) fn drop_values(frames: &mut Frames, f: FrameRef, count: u32)
    requires top { IsTop frames.old f }
    requires there { count ≤ length (top (frames_of frames.old f.page)).stack }
    ensures dropped { frames.new ≡ on_page frames.old f.page (on_top (with_values
        (take (length (top (frames_of frames.old f.page)).stack - count)
        (top (frames_of frames.old f.page)).stack))) }
{
    for _ in 0..count {
        frames.pop(f);
    }
}
