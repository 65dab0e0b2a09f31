//! How a widowed context becomes single.
ghost use Rattle.std.specs.Prelude.{◌≡◌};
ghost use Rattle.cs_heap.specs.Writes.{slots_stored};
ghost use Rattle.cs_marriage.specs.Agree.{Agree, IsContextAt, IsWidowed};
ghost use Rattle.cs_marriage.specs.Marriage.{buried};

use crate::NIL;
use cs_classes::slots::{PC, SENDER, STACK_POINTER};
use cs_frame::Frames;
use cs_heap::Heap;
use cs_word::Oop;

/// Makes a widowed context single. It is dead: sender and pc are nil and its stack is empty, and it keeps method,
/// closure and receiver.
#[tactic(auto, using(cs_heap::proofs::Laws::heap_laws))]
pub fn bury(heap: &mut Heap, frames: &Frames, ctx: Oop)
    requires agree { Agree heap.old.objects frames.now }
    requires context { IsContextAt heap.old.objects ctx.0 }
    requires widowed { IsWidowed heap.old.objects frames.now ctx.0 }
    ensures heap { heap.new ≡ slots_stored heap.old ctx.0 (buried heap.old.objects ctx.0) }
    ensures agree { Agree heap.new.objects frames.now }
{
    heap.set_slot(ctx, SENDER, NIL);
    heap.set_slot(ctx, PC, NIL);
    heap.set_slot(ctx, STACK_POINTER, Oop::from_natural(0));
}
