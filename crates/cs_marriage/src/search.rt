//! Which frame is the body of a context.
ghost use Rattle.std.specs.Prelude.{◌≡◌, ◌≢◌, IfSome, IsNone};
ghost use Rattle.cs_marriage.specs.Agree.{Agree, HasContext, IsContextAt, IsSpouse};
ghost use Rattle.cs_marriage.specs.Place.{names_place};
ghost use Rattle.cs_marriage.specs.Marriage.{PageLacks};

use crate::Spouse;
use crate::words::{names_place, page_named};
use cs_classes::slots::SENDER;
use cs_frame::{FrameRef, Frames};
use cs_heap::Heap;
use cs_word::Oop;

/// What a context is to the frames.
///
/// The word by which it names a place tells no more than the page to look at. It is married exactly where a frame
/// there has this context.
pub fn spouse(heap: &Heap, frames: &Frames, ctx: Oop) -> Spouse
    requires agree { Agree heap.now.objects frames.now }
    requires context { IsContextAt heap.now.objects ctx.0 }
    ensures exact { IsSpouse heap.now.objects frames.now ctx.0 result }
{
    let word = heap.slot(ctx, SENDER);
    if !names_place(word) {
        return Spouse::Single;
    }
    match frame_with(frames, page_named(word), ctx) {
        Some(f) => Spouse::Married(f),
        None => Spouse::Widowed,
    }
}

/// The frame of a page that has this context, if there is one. There may be no such page.
fn frame_with(frames: &Frames, page: u32, ctx: Oop) -> Option<FrameRef>
    ensures page { IfSome result (λ f. f.page ≡ page) }
    ensures found { IfSome result (λ f. HasContext frames.now ctx.0 f) }
    ensures lacks { IsNone result → PageLacks frames.now page ctx.0 }
{
    if page >= frames.len() {
        return None;
    }
    let mut next = frames.top(page);
    while let Some(f) = next {
        if frames.context(f) == ctx {
            return Some(f);
        }
        next = frames.caller(f);
    }
    None
}
