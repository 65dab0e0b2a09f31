//! How activations are seen as objects: their contexts, and the fields of these.
ghost use Rattle.std.specs.Prelude.{◌≡◌, IfErr, IfOk, IfSome, IsSome, OnOk, Some};
ghost use Rattle.cs_frame.specs.Page.{IsFrame};
ghost use Rattle.cs_model.specs.Read.{active_birth};
ghost use Rattle.cs_model.specs.Ref as ref;
ghost use Rattle.cs_acts.specs.declared.act.Act.{Act};
ghost use Rattle.cs_acts.specs.declared.act.Full.TheVariants as full;
ghost use Rattle.cs_acts.specs.Full.{CausesFull};
ghost use Rattle.cs_acts.specs.Made.{MakesAtMost, made_by_reading};
ghost use Rattle.cs_acts.specs.Names.{IsNamed, KeepsNames, Names, NamesOption, name_of};
ghost use Rattle.cs_acts.specs.Ready.{IsReady};
ghost use Rattle.cs_acts.specs.Targets.{field_of};
ghost use Rattle.cs_stack.specs.Good.{IsGood};
ghost use Rattle.cs_stack.specs.Moved.{IsContextOf, field_at};
ghost use Rattle.cs_stack.specs.View.{act_of, layout_of, stored_of, view_of};

use crate::parts::{NIL, Parts};
use cs_acts::{Act, Full};
use cs_classes::slots::{CLOSURE, FIRST_STACK, METHOD, PC, RECEIVER, SENDER, STACK_POINTER};
use cs_frame::FrameRef;
use cs_marriage::{marry, names_place};
use cs_word::Oop;

impl Parts {
    /// The context of a frame, which is made where it has none.
    pub(crate) fn context_of(&mut self, f: FrameRef) -> Result<Oop, Full>
        requires good { IsGood self.old }
        requires frame { IsFrame self.old.frames f }
        ensures good { IsGood self.new }
        ensures view { view_of self.new ≡ view_of self.old }
        ensures context { IfOk result (λ o. IsContextOf self.new f o.0) }
        ensures value { IfOk result (λ o. IfSome (act_of self.old (Act.Frame f.page f.at))
            (λ birth. Names (stored_of self.new) o (ref.Obj birth))) }
        ensures acts { (a : Act) → act_of self.new a ≡ act_of self.old a }
        ensures rest { self.new ≡ record self.old { heap = self.new.heap; frames = self.new.frames } }
        ensures layout { layout_of self.new ≡ layout_of self.old }
        ensures limit { self.new.heap.limit ≡ self.old.heap.limit }
        ensures contexts { MakesAtMost 1 (layout_of self.old) (stored_of self.old) (stored_of self.new) }
        ensures names { KeepsNames (stored_of self.old) (stored_of self.new) }
        ensures full { IfErr result (λ why. (why ≡ full.Heap) × CausesFull (stored_of self.new) (layout_of self.old)
            (view_of self.old) 0 (view_of self.old) why) }
    {
        match marry(&mut self.heap, &mut self.frames, f) {
            Ok(context) => Ok(context),
            Err(_) => Err(Full::Heap),
        }
    }

    /// The active context as an object.
    pub(crate) fn this_context(&mut self) -> Result<Oop, Full>
        requires good { IsGood self.old }
        requires active { IsSome (view_of self.old).rest.active }
        ensures good { IsGood self.new }
        ensures view { view_of self.new ≡ view_of self.old }
        ensures value { IfOk result (λ o. Names (stored_of self.new) o (ref.Obj (active_birth (view_of self.old)))) }
        ensures layout { layout_of self.new ≡ layout_of self.old }
        ensures limit { self.new.heap.limit ≡ self.old.heap.limit }
        ensures contexts { MakesAtMost 1 (layout_of self.old) (stored_of self.old) (stored_of self.new) }
        ensures names { KeepsNames (stored_of self.old) (stored_of self.new) }
        ensures full { IfErr result (λ why. (why ≡ full.Heap) × CausesFull (stored_of self.new) (layout_of self.old)
            (view_of self.old) 0 (view_of self.old) why) }
    {
        let top = self.top();
        self.context_of(top)
    }

    /// The context that an act stands for, as an object.
    pub(crate) fn act_context(&mut self, a: Act) -> Result<Oop, Full>
        requires good { IsGood self.old }
        requires stands { IsSome (act_of self.old a) }
        ensures good { IsGood self.new }
        ensures view { view_of self.new ≡ view_of self.old }
        ensures value { IfOk result (λ o. IfSome (act_of self.old a)
            (λ birth. Names (stored_of self.new) o (ref.Obj birth))) }
        ensures layout { layout_of self.new ≡ layout_of self.old }
        ensures limit { self.new.heap.limit ≡ self.old.heap.limit }
        ensures contexts { MakesAtMost 1 (layout_of self.old) (stored_of self.old) (stored_of self.new) }
        ensures names { KeepsNames (stored_of self.old) (stored_of self.new) }
        ensures full { IfErr result (λ why. (why ≡ full.Heap) × CausesFull (stored_of self.new) (layout_of self.old)
            (view_of self.old) 0 (view_of self.old) why) }
    {
        match a {
            Act::Frame { page, at } => self.context_of(FrameRef { page, at }),
            Act::Context(context) => Ok(context),
            Act::Gone => unreachable!(),
        }
    }

    /// Field i of a context, or value i - 6 of its stack.
    pub(crate) fn context_get(&mut self, ctx: Oop, i: u32) -> Result<Oop, Full>
        requires good { IsGood self.old }
        requires named { IsNamed (stored_of self.old) ctx }
        requires there { IsSome (field_of (view_of self.old) (name_of (stored_of self.old) ctx) i) }
        ensures good { IsGood self.new }
        ensures view { view_of self.new ≡ view_of self.old }
        ensures value { IfOk result (λ o. NamesOption (stored_of self.new) (Some o)
            (field_of (view_of self.old) (name_of (stored_of self.old) ctx) i)) }
        ensures layout { layout_of self.new ≡ layout_of self.old }
        ensures limit { self.new.heap.limit ≡ self.old.heap.limit }
        ensures contexts { MakesAtMost (made_by_reading i) (layout_of self.old) (stored_of self.old)
            (stored_of self.new) }
        ensures names { KeepsNames (stored_of self.old) (stored_of self.new) }
        ensures full { IfErr result (λ why. (i ≡ 0) × (why ≡ full.Heap)
            × CausesFull (stored_of self.new) (layout_of self.old) (view_of self.old) 0 (view_of self.old) why) }
    {
        match self.act_of(ctx) {
            Act::Frame { page, at } => self.frame_get(FrameRef { page, at }, i),
            _ => Ok(self.word_get(ctx, i)),
        }
    }

    /// The same of the context that a frame is.
    fn frame_get(&mut self, f: FrameRef, i: u32) -> Result<Oop, Full>
        requires good { IsGood self.old }
        requires frame { IsFrame self.old.frames f }
        requires there { IsSome (field_at (view_of self.old) (act_of self.old (Act.Frame f.page f.at)) i) }
        ensures good { IsGood self.new }
        ensures view { view_of self.new ≡ view_of self.old }
        ensures value { IfOk result (λ o. NamesOption (stored_of self.new) (Some o)
            (field_at (view_of self.old) (act_of self.old (Act.Frame f.page f.at)) i)) }
        ensures layout { layout_of self.new ≡ layout_of self.old }
        ensures limit { self.new.heap.limit ≡ self.old.heap.limit }
        ensures contexts { MakesAtMost (made_by_reading i) (layout_of self.old) (stored_of self.old)
            (stored_of self.new) }
        ensures names { KeepsNames (stored_of self.old) (stored_of self.new) }
        ensures full { IfErr result (λ why. (i ≡ 0) × (why ≡ full.Heap)
            × CausesFull (stored_of self.new) (layout_of self.old) (view_of self.old) 0 (view_of self.old) why) }
    {
        match i {
            SENDER => self.sender_of(f),
            PC => Ok(self.frames.saved_pc(f)),
            STACK_POINTER => Ok(Oop::from_natural(self.frames.depth(f))),
            METHOD => Ok(self.frames.method(f)),
            CLOSURE => Ok(self.frames.closure(f)),
            RECEIVER => Ok(self.frames.receiver(f)),
            _ => Ok(self.frames.slot(f, i - FIRST_STACK)),
        }
    }

    /// The sender of a frame: the context of the frame below it, or what the base frame keeps.
    fn sender_of(&mut self, f: FrameRef) -> Result<Oop, Full>
        requires good { IsGood self.old }
        requires frame { IsFrame self.old.frames f }
        ensures good { IsGood self.new }
        ensures view { view_of self.new ≡ view_of self.old }
        ensures value { IfOk result (λ o. NamesOption (stored_of self.new) (Some o)
            (field_at (view_of self.old) (act_of self.old (Act.Frame f.page f.at)) 0)) }
        ensures layout { layout_of self.new ≡ layout_of self.old }
        ensures limit { self.new.heap.limit ≡ self.old.heap.limit }
        ensures contexts { MakesAtMost 1 (layout_of self.old) (stored_of self.old) (stored_of self.new) }
        ensures names { KeepsNames (stored_of self.old) (stored_of self.new) }
        ensures full { IfErr result (λ why. (why ≡ full.Heap) × CausesFull (stored_of self.new) (layout_of self.old)
            (view_of self.old) 0 (view_of self.old) why) }
    {
        match self.frames.caller(f) {
            Some(caller) => self.context_of(caller),
            None => Ok(self.frames.sender(f)),
        }
    }

    /// The same of a context that has no frame: what stands in its words. A widowed one still names a place, and reads
    /// as dead.
    fn word_get(&self, ctx: Oop, i: u32) -> Oop
        requires good { IsGood self.now }
        requires stands { IsSome (act_of self.now (Act.Context ctx)) }
        requires there { IsSome (field_at (view_of self.now) (act_of self.now (Act.Context ctx)) i) }
        ensures { NamesOption (stored_of self.now) (Some result) (field_at (view_of self.now)
            (act_of self.now (Act.Context ctx)) i) }
    {
        let word = self.heap.slot(ctx, i);
        match i {
            SENDER if names_place(word) => NIL,
            STACK_POINTER => Oop::from_natural(word.natural().unwrap_or(0)),
            _ => word,
        }
    }
}
