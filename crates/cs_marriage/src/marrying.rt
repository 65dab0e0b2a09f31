//! How a frame gets a context.
ghost use Rattle.std.specs.Prelude.{◌≡◌, ◌+◌, ◌<◌, ◌≤◌, ◌↔◌, [], ◌∷◌, ◌++◌, IfOk, IsErr, OnErr, length};
ghost use Rattle.cs_heap.specs.Object.{next_address, size, slot_count_of, used};
ghost use Rattle.cs_frame.specs.Frame.{nil, with_context};
ghost use Rattle.cs_frame.specs.Page.{IsFrame, frame, on_frame};
ghost use Rattle.cs_marriage.specs.Agree.{Agree, HasContext, IsContextAt};
ghost use Rattle.cs_marriage.specs.Marriage.{married_objects, new_size, new_spouse, spouse_address};

use crate::NIL;
use crate::words::link_word;
use cs_classes::slots::{CLOSURE, FIRST_STACK, METHOD, RECEIVER, SENDER};
use cs_classes::{CONTEXT_CLASS, FIELDS_AND_INDICES, method_header};
use cs_frame::{FrameRef, Frames};
use cs_heap::{Heap, HeapFull};
use cs_word::Oop;

/// Makes the context of a frame, or answers the one that it has.
///
/// A new context has the birth of the frame, and no hash. `HeapFull` comes exactly where the frame has no context
/// and the words of one more would pass the limit, and then nothing is changed.
pub fn marry(heap: &mut Heap, frames: &mut Frames, f: FrameRef) -> Result<Oop, HeapFull>
    requires agree { Agree heap.old.objects frames.old }
    requires frame { IsFrame frames.old f }
    ensures full { IsErr result ↔ (((frame frames.old f).context ≡ nil)
        × (heap.old.limit < used heap.old.objects + size (6 + new_size heap.old.objects (frame frames.old f)))) }
    ensures unchanged_if_full { OnErr result (heap.new ≡ heap.old) }
    ensures frames_if_full { OnErr result (frames.new ≡ frames.old) }
    ensures context { IfOk result (λ o. o.0 ≡ spouse_address heap.old.objects (frame frames.old f)) }
    ensures heap { IfOk result (λ _. heap.new ≡ record heap.old {
      objects = married_objects heap.old.objects f
          (frame frames.old f);
    }) }
    ensures frames { IfOk result (λ o. frames.new ≡ on_frame frames.old f (with_context o.0)) }
    ensures stands { IfOk result (λ o. IsContextAt heap.new.objects o.0) }
    ensures married { IfOk result (λ o. HasContext frames.new o.0 f) }
    ensures agree { Agree heap.new.objects frames.new }
{
    let known = frames.context(f);
    if known != NIL {
        return Ok(known);
    }
    let made = new_context(heap, frames, f)?;
    frames.set_context(f, made);
    Ok(made)
}

/// Makes the context of a frame.
#[tactic(auto, using(cs_heap::proofs::Laws::heap_laws))]
fn new_context(heap: &mut Heap, frames: &Frames, f: FrameRef) -> Result<Oop, HeapFull>
    requires few { length frames.now ≤ 64 }
    requires frame { IsFrame frames.now f }
    requires within { f.at < 4096 }
    requires method { 0 < slot_count_of heap.old.objects (frame frames.now f).method }
    ensures full { IsErr result ↔ (heap.old.limit
        < used heap.old.objects + size (6 + new_size heap.old.objects (frame frames.now f))) }
    ensures unchanged_if_full { OnErr result (heap.new ≡ heap.old) }
    ensures address { IfOk result (λ o. o.0 ≡ next_address heap.old.objects
        (6 + new_size heap.old.objects (frame frames.now f))) }
    ensures added { IfOk result (λ _. heap.new ≡ record heap.old {
      objects = heap.old.objects
          ++ new_spouse f (new_size heap.old.objects (frame frames.now f)) (frame frames.now f) ∷ [];
    }) }
{
    let method = frames.method(f);
    let size = method_header(heap, method).context_size();
    let birth = frames.birth(f);
    let made = heap.allocate(CONTEXT_CLASS, FIELDS_AND_INDICES, FIRST_STACK + size, birth)?;
    heap.set_slot(made, SENDER, link_word(f));
    heap.set_slot(made, METHOD, method);
    heap.set_slot(made, CLOSURE, frames.closure(f));
    heap.set_slot(made, RECEIVER, frames.receiver(f));
    Ok(made)
}
