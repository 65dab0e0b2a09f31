//! How a single context becomes the base frame of a page.
ghost use Rattle.std.specs.Prelude.{◌≡◌, ◌+◌, ◌<◌, ◌≤◌, ◌^◌, ◌||◌, [], ◌∷◌, IsSome, length, unwrap_or};
ghost use Rattle.cs_word.specs.Word.{natural_of_word};
ghost use Rattle.cs_heap.specs.Object.{birth_at, is_watched, slot_count_of, slot_of, with_object};
ghost use Rattle.cs_heap.specs.Writes.{slots_stored};
ghost use Rattle.cs_frame.specs.Frame.{with_values};
ghost use Rattle.cs_frame.specs.Page.{IsTop, frames_of, on_page, on_top, top, frames_used};
ghost use Rattle.cs_marriage.specs.Agree.{Agree, HasContext, IsContextAt};
ghost use Rattle.cs_marriage.specs.Marriage.{CanBase, base_frame, cleared_from, linked, stack_words};

use crate::NIL;
use crate::words::link_word;
use cs_classes::slots::{CLOSURE, FIRST_STACK, METHOD, PC, RECEIVER, SENDER, STACK_POINTER};
use cs_frame::{FrameRef, Frames, NewFrame};
use cs_heap::Heap;
use cs_word::Oop;

/// Makes a live single context the base frame of an empty page, and marries the two.
///
/// Its sender, pc and stack move to the frame, and nothing of them is left in its words.
pub fn base(heap: &mut Heap, frames: &mut Frames, ctx: Oop, page: u32) -> FrameRef
    requires agree { Agree heap.old.objects frames.old }
    requires context { CanBase heap.old.objects ctx.0 }
    requires page { page < length frames.old }
    requires empty { frames_of frames.old page ≡ [] }
    ensures page { result.page ≡ page }
    ensures at { result.at ≡ 0 }
    ensures heap { heap.new ≡ slots_stored heap.old ctx.0 (with_object heap.old.objects ctx.0 (linked result)) }
    ensures frames { frames.new ≡ on_page frames.old page (λ _. base_frame heap.old.objects ctx.0 ∷ []) }
    ensures married { HasContext frames.new ctx.0 result }
    ensures agree { Agree heap.new.objects frames.new }
{
    let f = build_base(heap, frames, ctx, page);
    vacate(heap, ctx, f);
    f
}

/// Makes the base frame, and leaves the context as it is.
fn build_base(heap: &Heap, frames: &mut Frames, ctx: Oop, page: u32) -> FrameRef
    requires context { CanBase heap.now.objects ctx.0 }
    requires page { page < length frames.old }
    requires empty { frames_of frames.old page ≡ [] }
    ensures page { result.page ≡ page }
    ensures at { result.at ≡ 0 }
    ensures frames { frames.new ≡ on_page frames.old page (λ _. base_frame heap.now.objects ctx.0 ∷ []) }
{
    let new = NewFrame {
        method: heap.slot(ctx, METHOD),
        closure: heap.slot(ctx, CLOSURE),
        receiver: heap.slot(ctx, RECEIVER),
        birth: heap.birth(ctx),
        args: 0,
        fill: 0,
    };
    let f = frames.build(page, new);
    frames.set_sender(f, heap.slot(ctx, SENDER));
    frames.set_saved_pc(f, heap.slot(ctx, PC));
    frames.set_context(f, ctx);
    copy_stack(heap, frames, ctx, f);
    f
}

/// Pushes the stack of a context onto that of the last frame of a page, which is empty.
fn copy_stack(heap: &Heap, frames: &mut Frames, ctx: Oop, f: FrameRef)
    requires context { CanBase heap.now.objects ctx.0 }
    requires top { IsTop frames.old f }
    requires room { frames_used (frames_of frames.old f.page) + 56 ≤ 4096 }
    requires empty { (top (frames_of frames.old f.page)).stack ≡ [] }
    ensures copied { frames.new
        ≡ on_page frames.old f.page (on_top (with_values (stack_words heap.now.objects ctx.0))) }
{
    for i in 0..stack_depth(heap, ctx) {
        frames.push(f, heap.slot(ctx, FIRST_STACK + i));
    }
}

/// How many values the stack of a context holds, as its words say.
fn stack_depth(heap: &Heap, ctx: Oop) -> u32
    requires { 2 < slot_count_of heap.now.objects ctx.0 }
    ensures { result ≡ unwrap_or (natural_of_word (slot_of heap.now.objects ctx.0 2)) 0 }
{
    heap.slot(ctx, STACK_POINTER).natural().unwrap_or(0)
}

/// Writes to a context, in the place of what its frame has now, that its frame is there.
#[tactic(auto, using(cs_heap::proofs::Laws::heap_laws))]
fn vacate(heap: &mut Heap, ctx: Oop, f: FrameRef)
    requires context { IsContextAt heap.old.objects ctx.0 }
    requires page { f.page < 64 }
    requires at { f.at < 4096 }
    ensures heap { heap.new ≡ slots_stored heap.old ctx.0 (with_object heap.old.objects ctx.0 (linked f)) }
{
    heap.set_slot(ctx, SENDER, link_word(f));
    heap.set_slot(ctx, PC, NIL);
    heap.set_slot(ctx, STACK_POINTER, NIL);
    clear_stack(heap, ctx);
}

/// Writes nil to the stack of a context, to which a store came before.
fn clear_stack(heap: &mut Heap, ctx: Oop)
    requires fields { 6 ≤ slot_count_of heap.old.objects ctx.0 }
    requires counted { (heap.old.dirty || is_watched heap.old ctx.0) ≡ heap.old.dirty }
    ensures heap { heap.new ≡ record heap.old { objects = with_object heap.old.objects ctx.0 (cleared_from 6) } }
{
    for i in FIRST_STACK..heap.slot_count(ctx) {
        heap.set_slot(ctx, i, NIL);
    }
}
