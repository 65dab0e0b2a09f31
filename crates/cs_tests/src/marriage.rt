//! The three states of a context, on a small heap and two pages.

ghost use Rattle.std.specs.Prelude.{◌≡◌, ◌≢◌, ℕ, ◌+◌, ◌<◌, ◌≤◌, true, length};
ghost use Rattle.cs_word.specs.Word.{natural_of_word};
ghost use Rattle.cs_heap.specs.Object.{class_at, is_object, slot_count_of, slot_of};
ghost use Rattle.cs_frame.specs.Frame.{IsValue};
ghost use Rattle.cs_frame.specs.Page.{HasArguments, IsFrame, AreStacked, IsTop, frames_of, top, frames_used};
ghost use Rattle.cs_model.specs.Ref.{natural_of};
ghost use Rattle.cs_marriage.specs.Place.{names_place};
ghost use Rattle.cs_marriage.specs.Marriage.{CanBase};
ghost use Rattle.cs_marriage.specs.Agree.{Agree, IsContextAt, IsMethodAt, IsWidowed};

use cs_frame::{FrameRef, Frames, NewFrame};
use cs_heap::Heap;
use cs_marriage::{Spouse, base, bury, marry, spouse};
use cs_word::{Kind, Oop};
use std::process::Abort;

/// The word of nil.
const NIL: Oop = Oop(65536);

/// The slots of a context.
const SENDER: u32 = 0;

const PC: u32 = 1;

const STACKP: u32 = 2;

const METHOD: u32 = 3;

const STACK: u32 = 6;

/// Nil, and a method without literals.
fn begin(rt: &impl Abort, heap: &mut Heap) -> Oop
    ensures nil { is_object heap.new.objects 65536 ≡ true }
    ensures class { class_at heap.new.objects 65536 ≢ 36 }
{
    heap.allocate(11, 0, 0, 1).expect(rt, "room for nil");
    let method = heap.allocate(43, 24, 2, 2).expect(rt, "room for a method");
    assert!(rt; heap.is_object(NIL));
    assert!(rt; heap.class_index(NIL) != 36);
    method
}

fn method_stands(rt: &impl Abort, heap: &Heap, method: Oop)
    ensures stands { IsMethodAt heap.now.objects method.0 }
{
    assert!(rt; heap.is_object(method));
    assert!(rt; heap.format(method) == 24);
    assert!(rt; heap.slot_count(method) > 0);
}

fn context_stands(rt: &impl Abort, heap: &Heap, context: Oop)
    ensures stands { IsContextAt heap.now.objects context.0 }
    ensures value { IsValue context.0 }
{
    assert!(rt; heap.is_object(context));
    assert!(rt; heap.class_index(context) == 36);
    assert!(rt; heap.format(context) == 3);
    assert!(rt; heap.slot_count(context) == 22);
    assert!(rt; context.0 % 8 == 0);
}

fn is_widowed(rt: &impl Abort, heap: &Heap, frames: &Frames, context: Oop)
    requires agree { Agree heap.now.objects frames.now }
    requires context { IsContextAt heap.now.objects context.0 }
    ensures widowed { IsWidowed heap.now.objects frames.now context.0 }
{
    assert!(rt; spouse(heap, frames, context) == Spouse::Widowed);
}

fn can_call(rt: &impl Abort, frames: &Frames)
    requires page { 0 < length frames.now }
    ensures there { HasArguments 0 (frames_of frames.now 0) }
{
    if let Some(f) = frames.top(0) {
        assert!(rt; frames.depth(f) > 0);
    }
}

fn has_room(rt: &impl Abort, frames: &Frames)
    requires page { 0 < length frames.now }
    ensures room { frames_used (frames_of frames.now 0) + 66 ≤ 4096 }
    ensures stacked { AreStacked (frames_of frames.now 0) }
{
    assert!(rt; frames.room(0) >= 66);
}

/// Makes a frame with two temporaries on page 0.
fn call(rt: &impl Abort, heap: &Heap, frames: &mut Frames, method: Oop, birth: u64) -> FrameRef
    requires agree { Agree heap.now.objects frames.old }
    requires page { 0 < length frames.old }
    ensures agree { Agree heap.now.objects frames.new }
    ensures page { length frames.new ≡ length frames.old }
    ensures frame { IsFrame frames.new result }
{
    method_stands(rt, heap, method);
    can_call(rt, frames);
    has_room(rt, frames);
    assert!(rt; birth < 1 << 62);
    let new = NewFrame {
        method,
        closure: NIL,
        receiver: NIL,
        birth,
        args: 0,
        fill: 2,
    };
    frames.build(0, new)
}

/// The last frame of page 0, whose stack has room.
fn last(rt: &impl Abort, frames: &Frames) -> FrameRef
    requires page { 0 < length frames.now }
    ensures page { result.page ≡ 0 }
    ensures top { IsTop frames.now result }
    ensures small { length (top (frames_of frames.now 0)).stack < 16 }
{
    let f = frames.top(0).expect(rt, "a frame");
    assert!(rt; frames.depth(f) < 16);
    f
}

/// Pushes a value on the last stack of page 0.
fn push(rt: &impl Abort, heap: &Heap, frames: &mut Frames, v: Oop)
    requires agree { Agree heap.now.objects frames.old }
    requires page { 0 < length frames.old }
    requires value { IsValue v.0 }
    ensures agree { Agree heap.now.objects frames.new }
    ensures page { length frames.new ≡ length frames.old }
{
    let f = last(rt, frames);
    has_room(rt, frames);
    frames.push(f, v);
}

/// Takes the last frame off page 0.
fn leave(rt: &impl Abort, heap: &Heap, frames: &mut Frames)
    requires agree { Agree heap.now.objects frames.old }
    requires page { 0 < length frames.old }
    ensures agree { Agree heap.now.objects frames.new }
    ensures page { length frames.new ≡ length frames.old }
{
    frames.top(0).expect(rt, "a frame");
    frames.drop_top(0);
}

fn is_value(rt: &impl Abort, v: Oop)
    ensures value { IsValue v.0 }
{
    assert!(rt; v.0 % 8 != 4);
}

fn no_links(rt: &impl Abort, heap: &Heap, context: Oop)
    requires context { IsContextAt heap.now.objects context.0 }
    ensures values { (i : ℕ) → i < slot_count_of heap.now.objects context.0
        → IsValue (slot_of heap.now.objects context.0 i) }
{
    assert!(rt; heap.is_object(context));
    for i in 0..heap.slot_count(context) {
        is_value(rt, heap.slot(context, i));
    }
}

/// Whether a word of a sender slot names a place.
fn names_place(word: Oop) -> bool
    ensures { result ≡ names_place word.0 }
{
    word.0 % 2 == 1
}

/// The number itself, where it isn't negative.
fn natural(value: i32) -> Option<u32>
    ensures { result ≡ natural_of value }
{
    if value < 0 { None } else { Some(value as u32) }
}

/// The number that a word is.
#[tactic(auto, unfolding(cs_word::specs::Word::natural_of_word))]
fn count(word: Oop) -> Option<u32>
    ensures { result ≡ natural_of_word word.0 }
{
    match word.kind() {
        Kind::Small(value) => natural(value),
        _ => None,
    }
}

/// A live single context.
fn can_base(rt: &impl Abort, heap: &Heap, context: Oop)
    ensures can { CanBase heap.now.objects context.0 }
{
    context_stands(rt, heap, context);
    assert!(rt; !names_place(heap.slot(context, SENDER)));
    assert!(rt; count(heap.slot(context, PC)).is_some());
    assert!(rt; heap.is_object(context));
    assert!(rt; heap.birth(context) < 1 << 62);
    method_stands(rt, heap, heap.slot(context, METHOD));
    no_links(rt, heap, context);
    assert!(rt; count(heap.slot(context, STACKP)).unwrap_or(0) <= 16);
}

fn store(rt: &impl Abort, heap: &mut Heap, o: Oop, i: u32, v: u32) {
    assert!(rt; heap.is_object(o));
    assert!(rt; i < heap.slot_count(o));
    heap.set_slot(o, i, Oop(v));
}

fn nil_stands(rt: &impl Abort, heap: &Heap)
    ensures nil { is_object heap.now.objects 65536 ≡ true }
    ensures class { class_at heap.now.objects 65536 ≢ 36 }
{
    assert!(rt; heap.is_object(NIL));
    assert!(rt; heap.class_index(NIL) != 36);
}

#[test]
fn a_single_context_becomes_a_base_frame(rt: HostRuntime) {
    let mut heap = Heap::new(rt.alloc(), 4096).expect(&rt, "memory");
    let mut frames = Frames::new(rt.alloc(), 2).expect(&rt, "memory");
    let method = begin(&rt, &mut heap);
    let context = heap.allocate(36, 3, 22, 7).expect(&rt, "room");
    for (i, v) in [
        (PC, 19),
        (STACKP, 5),
        (METHOD, method.0),
        (STACK, 11),
        (STACK + 1, 13),
        (STACK + 2, 15),
    ] {
        store(&rt, &mut heap, context, i, v);
    }
    nil_stands(&rt, &heap);
    can_base(&rt, &heap, context);
    assert_eq!(rt; spouse(&heap, &frames, context), Spouse::Single);
    let f = base(&mut heap, &mut frames, context, 1);
    assert_eq!(rt; f, FrameRef { page: 1, at: 0 });
    assert_eq!(rt; frames.saved_pc(f), Oop(19));
    assert!(rt; frames.depth(f) == 2);
    assert_eq!(rt; (frames.slot(f, 0), frames.slot(f, 1)), (Oop(11), Oop(13)));
    context_stands(&rt, &heap, context);
    assert_eq!(rt; spouse(&heap, &frames, context), Spouse::Married(f));
    assert_eq!(rt;
        (heap.slot(context, PC), heap.slot(context, STACK)),
        (NIL, NIL)
    );
}

#[test]
fn a_later_frame_is_no_spouse(rt: HostRuntime) {
    let mut heap = Heap::new(rt.alloc(), 4096).expect(&rt, "memory");
    let mut frames = Frames::new(rt.alloc(), 2).expect(&rt, "memory");
    let method = begin(&rt, &mut heap);
    call(&rt, &heap, &mut frames, method, 3);
    let first = call(&rt, &heap, &mut frames, method, 4);
    let context = marry(&mut heap, &mut frames, first).expect(&rt, "room");
    let used = heap.used_words();
    assert_eq!(rt; marry(&mut heap, &mut frames, first), Ok(context));
    assert_eq!(rt; heap.used_words(), used);
    context_stands(&rt, &heap, context);
    assert_eq!(rt; (heap.birth(context), heap.hash(context)), (4, 0));
    assert_eq!(rt; spouse(&heap, &frames, context), Spouse::Married(first));
    leave(&rt, &heap, &mut frames);
    assert_eq!(rt; spouse(&heap, &frames, context), Spouse::Widowed);
    push(&rt, &heap, &mut frames, NIL);
    let later = call(&rt, &heap, &mut frames, method, 5);
    assert_eq!(rt; later, first);
    push(&rt, &heap, &mut frames, context);
    is_widowed(&rt, &heap, &frames, context);
    bury(&mut heap, &frames, context);
    context_stands(&rt, &heap, context);
    assert_eq!(rt; spouse(&heap, &frames, context), Spouse::Single);
}
