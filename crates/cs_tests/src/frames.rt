//! Frames on a page, and their parts.

ghost use Rattle.std.specs.Prelude.{◌≡◌, ◌≢◌, ℕ, ◌<◌, ◌≤◌, ◌+◌, ◌%◌, ◌^◌, length};
ghost use Rattle.cs_frame.specs.Frame.{IsValue};
ghost use Rattle.cs_frame.specs.Page.{frames_used, frames_of, IsFrame, IsTop, HasArguments};

use cs_frame::{FrameRef, Frames, NewFrame};
use cs_word::Oop;
use std::process::Abort;
use std::test::Fail;

enum Step {
    Call { args: u32, fill: u32 },
    Push(u32),
    Pop(u32),
    Drop,
}

// Each step, with the last frame's place, its depth and the page's room after it.
const STEPS: [(Step, u32, u32, u32); 10] = [
    (Step::Call { args: 0, fill: 2 }, 0, 2, 4084),
    (Step::Push(17), 0, 3, 4083),
    (Step::Push(65568), 0, 4, 4082),
    (Step::Push(19), 0, 5, 4081),
    (Step::Push(21), 0, 6, 4080),
    (Step::Call { args: 2, fill: 1 }, 13, 3, 4070),
    (Step::Pop(65536), 13, 2, 4071),
    (Step::Pop(21), 13, 1, 4072),
    (Step::Push(23), 13, 2, 4071),
    (Step::Drop, 0, 3, 4083),
];

fn last(rt: &impl Abort, frames: &Frames) -> FrameRef
    requires page { 1 < length frames.now }
    ensures page { result.page ≡ 1 }
    ensures last { IsTop frames.now result }
    ensures frame { IsFrame frames.now result }
{
    frames.top(1).expect(rt, "a frame")
}

fn take(rt: &impl Abort, frames: &mut Frames, step: &Step)
    requires page { 1 < length frames.old }
{
    match step {
        Step::Call { args, fill } => call(rt, frames, *args, *fill),
        Step::Push(v) => {
            let f = last(rt, frames);
            assert!(rt; frames.room(f.page) > 0);
            assert!(rt; v % 8 != 4);
            assert_eq!(rt; push_and_pop(frames, f, Oop(*v)), Oop(*v));
            frames.push(f, Oop(*v));
        }
        Step::Pop(v) => {
            let f = last(rt, frames);
            assert!(rt; frames.depth(f) > 0);
            assert_eq!(rt; frames.pop(f), Oop(*v));
        }
        Step::Drop => {
            let f = last(rt, frames);
            frames.drop_top(f.page);
        }
    }
}

fn call(rt: &impl Abort, frames: &mut Frames, args: u32, fill: u32)
    requires page { 1 < length frames.old }
{
    assert!(rt; args <= 56 && fill <= 56 - args);
    assert!(rt; frames.room(1) >= 66);
    look_for_arguments(rt, frames, args);
    let new = NewFrame {
        method: Oop(65552),
        closure: Oop(65560),
        receiver: Oop(65568),
        birth: (1 << 62) - 1,
        args,
        fill,
    };
    frames.build(1, new);
}

fn look_for_arguments(rt: &impl Abort, frames: &Frames, args: u32)
    requires page { 1 < length frames.now }
    ensures there { HasArguments args (frames_of frames.now 1) }
{
    match frames.top(1) {
        None => assert!(rt; args == 0),
        Some(f) => assert!(rt; frames.depth(f) > args),
    }
}

// A push and then a pop give the pages back, and the value.
fn push_and_pop(frames: &mut Frames, f: FrameRef, v: Oop) -> Oop
    requires top { IsTop frames.old f }
    requires room { frames_used (frames_of frames.old f.page) < 4096 }
    requires value { IsValue v.0 }
    ensures value { result.0 ≡ v.0 }
    ensures same { frames.new ≡ frames.old }
{
    frames.push(f, v);
    frames.pop(f)
}

#[test]
fn frames_stand_on_a_page(rt: HostRuntime) -> Result<(), Fail> {
    let mut frames = Frames::new(rt.alloc(), 2)?;
    assert!(rt; frames.top(1).is_none());
    for (step, at, depth, room) in &STEPS {
        assert_eq!(rt; frames.len(), 2);
        take(&rt, &mut frames, step);
        assert_eq!(rt; frames.len(), 2);
        let f = last(&rt, &frames);
        assert_eq!(rt; f.at, *at);
        assert_eq!(rt; frames.depth(f), *depth);
        assert_eq!(rt; frames.room(1), *room);
    }
    Ok(())
}

// The parts of a base frame as it is made, and after each call that changes one.
#[test]
fn parts_change_one_by_one(rt: HostRuntime) -> Result<(), Fail> {
    let mut frames = Frames::new(rt.alloc(), 2)?;
    assert_eq!(rt; frames.len(), 2);
    call(&rt, &mut frames, 0, 2);
    assert_eq!(rt; frames.len(), 2);
    let f = last(&rt, &frames);
    assert_eq!(rt; frames.birth(f), (1 << 62) - 1);
    assert_eq!(rt; frames.saved_pc(f), Oop(65536));
    assert_eq!(rt; frames.context(f), Oop(65536));
    assert!(rt; frames.caller(f).is_none());
    assert_eq!(rt; frames.sender(f), Oop(65568));
    frames.set_sender(f, Oop(65600));
    let f = last(&rt, &frames);
    assert_eq!(rt; frames.receiver(f), Oop(65568));
    frames.set_receiver(f, Oop(65608));
    let f = last(&rt, &frames);
    assert_eq!(rt; frames.method(f), Oop(65552));
    frames.set_method(f, Oop(65616));
    let f = last(&rt, &frames);
    assert_eq!(rt; frames.closure(f), Oop(65560));
    frames.set_closure(f, Oop(65624));
    let f = last(&rt, &frames);
    frames.set_context(f, Oop(65632));
    let f = last(&rt, &frames);
    frames.set_saved_pc(f, Oop(41));
    let f = last(&rt, &frames);
    assert!(rt; frames.depth(f) == 2);
    frames.set_slot(f, 1, Oop(43));
    let f = last(&rt, &frames);
    assert!(rt; frames.depth(f) == 2);
    assert_eq!(rt; frames.slot(f, 0), Oop(65536));
    assert_eq!(rt; frames.slot(f, 1), Oop(43));
    let parts = [
        frames.receiver(f),
        frames.method(f),
        frames.closure(f),
        frames.context(f),
        frames.saved_pc(f),
    ];
    assert_eq!(rt;
        parts,
        [Oop(65608), Oop(65616), Oop(65624), Oop(65632), Oop(41)]
    );
    assert!(rt; frames.caller(f).is_none());
    assert_eq!(rt; frames.sender(f), Oop(65600));
    Ok(())
}
