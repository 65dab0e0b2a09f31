//! What a world of frames keeps, and how its parts change.
ghost use Rattle.std.specs.Prelude.{◌≡◌, ◌<◌, ◌≤◌, ◌-◌, length, nat_lt, Some, IfSome, IfErr, IfOk, OnErr, OnOk};
ghost use Rattle.std.specs.Prelude.{IsSome, false, is_some, not, true, slice_get, unwrap_or};
ghost use Rattle.cs_frame.specs.Page.{IsFrame, IsTop, frame, frame_ref, top};
ghost use Rattle.cs_marriage.specs.Agree.{frame_size as size_of_frame};
ghost use Rattle.cs_model.specs.Obj.{context_in, lies_in};
ghost use Rattle.cs_model.specs.Operation.{add_of, next_ref, nil_of, pop_of, push_of, set_pc_of, set_stack_of};
ghost use Rattle.cs_model.specs.Operation.{store_of};
ghost use Rattle.cs_model.specs.Read.{active_context, depth_of, method_of, pc_of, receiver_of, size_of, stack_of};
ghost use Rattle.cs_model.specs.Return.{closure_at, context_birth, has_room, is_live, sender_birth};
ghost use Rattle.cs_model.specs.State.{object_at, object_of};
ghost use Rattle.cs_heap.specs.Object.{size};
ghost use Rattle.cs_acts.specs.declared.act.Full.TheVariants as full;
ghost use Rattle.cs_acts.specs.Full.{CausesFull};
ghost use Rattle.cs_acts.specs.Made.{CanAllocate, MakesAtMost, blank_of};
ghost use Rattle.cs_acts.specs.Names.{IsNamed, KeepsNames, Names, name_of};
ghost use Rattle.cs_acts.specs.Ready.{IsReady, is_storable};
ghost use Rattle.cs_acts.specs.Layout.{depth_if};
ghost use Rattle.cs_acts.specs.Targets.{is_gone, method_in, pc_in, stack_in};
ghost use Rattle.cs_model.specs.Context.{is_context_ref};
ghost use Rattle.cs_stack.specs.View.{act_of, active_page, layout_of, stored_of, view_of};
ghost use Rattle.cs_stack.specs.Moved.{active_number};
ghost use Rattle.cs_stack.specs.Good.{IsGood};

use cs_acts::{Act, Full, Roots};
use cs_classes::slots::{CLOSURE, FIRST_STACK, METHOD, PC, SENDER, STACK_POINTER};
use cs_classes::{Classes, is_context, method_header};
use cs_frame::{FrameRef, Frames};
use cs_heap::{BASE, Heap};
use cs_marriage::{Spouse, spouse};
use cs_pages::Pages;
use cs_word::Oop;

/// Heap, class table and roots, which stack pages are used, and the frames on them.
#[derive(Drop)]
pub struct Parts {
    /// All objects, and each context that has an object. One that has or had a frame names the place of that frame.
    pub heap: Heap,
    /// The class table.
    pub classes: Classes,
    /// What an image keeps beside its objects.
    pub roots: Roots,
    /// Which pages are used: those that have a frame, the most recent first.
    pub pages: Pages,
    /// The frames of the pages.
    pub frames: Frames,
}

/// The word of nil.
pub(crate) const NIL: Oop = Oop(BASE);

impl Parts {
    /// The last frame, which is the active one.
    pub(crate) fn top(&self) -> FrameRef
        requires good { IsGood self.now }
        requires ready { IsReady (stored_of self.now) (view_of self.now) }
        ensures is { result ≡ frame_ref (active_number self.now) (top (active_page self.now)) }
        ensures last { IsTop self.now.frames result }
    {
        let Some(top) = self.frames.top(self.pages.order(0)) else {
            unreachable!();
        };
        top
    }

    /// The active context, if there is one.
    pub(crate) fn active(&self) -> Act
        requires good { IsGood self.now }
        ensures value { act_of self.now result ≡ (view_of self.now).rest.active }
        ensures gone { is_gone result ≡ not (is_some (act_of self.now result)) }
    {
        if self.pages.used() == 0 {
            return Act::Gone;
        }
        match self.frames.top(self.pages.order(0)) {
            Some(f) => act(f),
            None => Act::Gone,
        }
    }

    /// What stands for the context that a word names; Gone where it names none.
    fn act_at(&self, word: Oop) -> Act
        requires good { IsGood self.now }
        requires named { IsNamed (stored_of self.now) word }
        ensures value { act_of self.now result ≡ context_birth (view_of self.now) (name_of (stored_of self.now) word) }
        ensures gone { is_gone result ≡ not (is_some (act_of self.now result)) }
    {
        if !is_context(&self.heap, word) {
            return Act::Gone;
        }
        self.act_of(word)
    }

    /// What stands for a context: its frame, or where it is single or widowed its address.
    pub(crate) fn act_of(&self, context: Oop) -> Act
        requires good { IsGood self.now }
        requires named { IsNamed (stored_of self.now) context }
        requires context { is_context_ref (view_of self.now) (name_of (stored_of self.now) context) ≡ true }
        ensures value { act_of self.now result ≡ context_birth (view_of self.now)
            (name_of (stored_of self.now) context) }
        ensures gone { is_gone result ≡ false }
    {
        match spouse(&self.heap, &self.frames, context) {
            Spouse::Married(f) => act(f),
            Spouse::Single | Spouse::Widowed => Act::Context(context),
        }
    }

    /// How many values the stack of a frame may hold.
    fn frame_size(&self, f: FrameRef) -> u32
        requires good { IsGood self.now }
        requires frame { IsFrame self.now.frames f }
        ensures { result ≡ size_of_frame self.now.heap.objects (frame self.now.frames f) }
    {
        let context = self.frames.context(f);
        if context == NIL {
            method_header(&self.heap, self.frames.method(f)).context_size()
        } else {
            self.heap.slot_count(context) - FIRST_STACK
        }
    }

    /// The birth of the context that an act stands for.
    pub(crate) fn act_birth(&self, a: Act) -> u64
        requires good { IsGood self.now }
        requires stands { IsSome (act_of self.now a) }
        ensures { act_of self.now a ≡ Some result }
    {
        match a {
            Act::Frame { page, at } => self.frames.birth(FrameRef { page, at }),
            Act::Context(context) => self.heap.birth(context),
            Act::Gone => unreachable!(),
        }
    }

    /// Its closure, or nil.
    pub(crate) fn act_closure(&self, a: Act) -> Oop
        requires good { IsGood self.now }
        requires stands { IsSome (act_of self.now a) }
        ensures { IfSome (act_of self.now a) (λ birth. Names (stored_of self.now) result
            (closure_at (view_of self.now) birth)) }
    {
        match a {
            Act::Frame { page, at } => self.frames.closure(FrameRef { page, at }),
            Act::Context(context) => self.heap.slot(context, CLOSURE),
            Act::Gone => unreachable!(),
        }
    }

    /// Its method.
    pub(crate) fn act_method(&self, a: Act) -> Oop
        requires good { IsGood self.now }
        requires stands { IsSome (act_of self.now a) }
        ensures { IfSome (act_of self.now a) (λ birth. Names (stored_of self.now) result
            (method_in (nil_of (view_of self.now)) (context_in (object_at (view_of self.now) birth)))) }
    {
        match a {
            Act::Frame { page, at } => self.frames.method(FrameRef { page, at }),
            Act::Context(context) => self.heap.slot(context, METHOD),
            Act::Gone => unreachable!(),
        }
    }

    /// Whether it is live. A frame always is.
    pub(crate) fn act_live(&self, a: Act) -> bool
        requires good { IsGood self.now }
        requires stands { IsSome (act_of self.now a) }
        ensures { IfSome (act_of self.now a) (λ birth. result ≡ is_live (view_of self.now) birth) }
    {
        match a {
            Act::Frame { .. } => true,
            Act::Context(context) => self.heap.slot(context, PC).natural().is_some(),
            Act::Gone => unreachable!(),
        }
    }

    /// Whether its stack holds as many values as its size.
    pub(crate) fn act_full(&self, a: Act) -> bool
        requires good { IsGood self.now }
        requires stands { IsSome (act_of self.now a) }
        ensures { IfSome (act_of self.now a) (λ birth. not result ≡ has_room
            (context_in (object_at (view_of self.now) birth))) }
    {
        match a {
            Act::Frame { page, at } => self.is_full(FrameRef { page, at }),
            Act::Context(context) => {
                let depth = self
                    .heap
                    .slot(context, STACK_POINTER)
                    .natural()
                    .unwrap_or(0);
                depth >= self.heap.slot_count(context) - FIRST_STACK
            }
            Act::Gone => unreachable!(),
        }
    }

    /// Its pc; None exactly where that is nil, which a frame's never is.
    pub(crate) fn act_pc(&self, a: Act) -> Option<u32>
        requires good { IsGood self.now }
        requires stands { IsSome (act_of self.now a) }
        ensures { IfSome (act_of self.now a) (λ birth. result ≡ pc_in
            (context_in (object_at (view_of self.now) birth))) }
    {
        match a {
            Act::Frame { page, at } => self.frames.saved_pc(FrameRef { page, at }).natural(),
            Act::Context(context) => self.heap.slot(context, PC).natural(),
            Act::Gone => unreachable!(),
        }
    }

    /// How many values its stack holds.
    pub(crate) fn act_depth(&self, a: Act) -> u32
        requires good { IsGood self.now }
        requires stands { IsSome (act_of self.now a) }
        ensures { IfSome (act_of self.now a) (λ birth. result ≡ depth_if
            (context_in (object_at (view_of self.now) birth))) }
    {
        match a {
            Act::Frame { page, at } => self.frames.depth(FrameRef { page, at }),
            Act::Context(context) => self
                .heap
                .slot(context, STACK_POINTER)
                .natural()
                .unwrap_or(0),
            Act::Gone => unreachable!(),
        }
    }

    /// Value i of its stack, counted from 0 at the bottom.
    pub(crate) fn act_stack(&self, a: Act, i: u32) -> Oop
        requires good { IsGood self.now }
        requires stands { IsSome (act_of self.now a) }
        requires there { IfSome (act_of self.now a) (λ birth. i < depth_if
            (context_in (object_at (view_of self.now) birth))) }
        ensures { IfSome (act_of self.now a) (λ birth. Names (stored_of self.now) result (unwrap_or
            (slice_get (stack_in (context_in (object_at (view_of self.now) birth))) i) (nil_of (view_of self.now)))) }
    {
        match a {
            Act::Frame { page, at } => self.frames.slot(FrameRef { page, at }, i),
            Act::Context(context) => self.heap.slot(context, FIRST_STACK + i),
            Act::Gone => unreachable!(),
        }
    }

    /// Whether the stack of a frame holds as many values as its size.
    fn is_full(&self, f: FrameRef) -> bool
        requires good { IsGood self.now }
        requires frame { IsFrame self.now.frames f }
        ensures { not result ≡ nat_lt (length (frame self.now.frames f).stack)
            (size_of_frame self.now.heap.objects (frame self.now.frames f)) }
    {
        self.frames.depth(f) >= self.frame_size(f)
    }

    /// What stands for its sender; Gone exactly where that names no context.
    pub(crate) fn sender_act(&self, a: Act) -> Act
        requires good { IsGood self.now }
        requires stands { IsSome (act_of self.now a) }
        ensures value { IfSome (act_of self.now a) (λ birth. act_of self.now result ≡ sender_birth (view_of self.now)
            birth) }
        ensures gone { is_gone result ≡ not (is_some (act_of self.now result)) }
    {
        match a {
            Act::Frame { page, at } => self.frame_sender(FrameRef { page, at }),
            Act::Context(context) => self.act_at(self.heap.slot(context, SENDER)),
            Act::Gone => unreachable!(),
        }
    }

    /// What stands for the sender of a frame: the frame below it, or below the base frame what its sender cell names.
    fn frame_sender(&self, f: FrameRef) -> Act
        requires good { IsGood self.now }
        requires stands { IsSome (act_of self.now (Act.Frame f.page f.at)) }
        ensures value { IfSome (act_of self.now (Act.Frame f.page f.at)) (λ birth. act_of self.now result ≡ sender_birth
            (view_of self.now) birth) }
        ensures gone { is_gone result ≡ not (is_some (act_of self.now result)) }
    {
        match self.frames.caller(f) {
            Some(caller) => act(caller),
            None => self.act_at(self.frames.sender(f)),
        }
    }

    /// The receiver of the active context.
    pub(crate) fn receiver(&self) -> Oop
        requires good { IsGood self.now }
        requires ready { IsReady (stored_of self.now) (view_of self.now) }
        ensures { Names (stored_of self.now) result (receiver_of (view_of self.now)) }
    {
        self.frames.receiver(self.top())
    }

    /// The method of the active context.
    pub(crate) fn method(&self) -> Oop
        requires good { IsGood self.now }
        requires ready { IsReady (stored_of self.now) (view_of self.now) }
        ensures { Names (stored_of self.now) result (active_context (view_of self.now)).method }
    {
        self.frames.method(self.top())
    }

    /// The pc of the active context.
    pub(crate) fn pc(&self) -> u32
        requires good { IsGood self.now }
        requires ready { IsReady (stored_of self.now) (view_of self.now) }
        ensures { result ≡ pc_of (view_of self.now) }
    {
        self.frames.saved_pc(self.top()).natural().unwrap_or(0)
    }

    /// How many values the active stack holds.
    pub(crate) fn depth(&self) -> u32
        requires good { IsGood self.now }
        requires ready { IsReady (stored_of self.now) (view_of self.now) }
        ensures value { result ≡ depth_of (view_of self.now) }
        ensures fits { result ≤ size_of (view_of self.now) }
    {
        self.frames.depth(self.top())
    }

    /// How many values it may hold.
    pub(crate) fn size(&self) -> u32
        requires good { IsGood self.now }
        requires ready { IsReady (stored_of self.now) (view_of self.now) }
        ensures { result ≡ size_of (view_of self.now) }
    {
        self.frame_size(self.top())
    }

    /// Value i of the active stack, counted from 0 at the bottom.
    pub(crate) fn stack_at(&self, i: u32) -> Oop
        requires good { IsGood self.now }
        requires ready { IsReady (stored_of self.now) (view_of self.now) }
        requires there { i < depth_of (view_of self.now) }
        ensures { Names (stored_of self.now) result (unwrap_or (slice_get (stack_of (view_of self.now)) i)
            (nil_of (view_of self.now))) }
    {
        self.frames.slot(self.top(), i)
    }

    /// Moves the pc of the active context.
    pub(crate) fn set_pc(&mut self, pc: u32)
        requires good { IsGood self.old }
        requires ready { IsReady (stored_of self.old) (view_of self.old) }
        requires lies { lies_in (method_of (view_of self.old)) pc ≡ true }
        ensures good { IsGood self.new }
        ensures view { view_of self.new ≡ set_pc_of (view_of self.old) pc }
        ensures stored { stored_of self.new ≡ stored_of self.old }
        ensures layout { layout_of self.new ≡ layout_of self.old }
        ensures limit { self.new.heap.limit ≡ self.old.heap.limit }
    {
        let top = self.top();
        self.frames.set_saved_pc(top, Oop::from_natural(pc));
    }

    /// Writes value i of the active stack.
    pub(crate) fn set_stack(&mut self, i: u32, v: Oop)
        requires good { IsGood self.old }
        requires ready { IsReady (stored_of self.old) (view_of self.old) }
        requires there { i < depth_of (view_of self.old) }
        requires named { IsNamed (stored_of self.old) v }
        ensures good { IsGood self.new }
        ensures view { view_of self.new ≡ set_stack_of (view_of self.old) i (name_of (stored_of self.old) v) }
        ensures stored { stored_of self.new ≡ stored_of self.old }
        ensures layout { layout_of self.new ≡ layout_of self.old }
        ensures limit { self.new.heap.limit ≡ self.old.heap.limit }
    {
        let top = self.top();
        self.frames.set_slot(top, i, v);
    }

    /// Writes slot i of an object that is no context.
    pub(crate) fn store(&mut self, o: Oop, i: u32, v: Oop)
        requires good { IsGood self.old }
        requires there { is_storable (object_of (view_of self.old) (name_of (stored_of self.old) o)) i ≡ true }
        requires object { IsNamed (stored_of self.old) o }
        requires named { IsNamed (stored_of self.old) v }
        ensures good { IsGood self.new }
        ensures view { view_of self.new ≡ store_of (view_of self.old) (name_of (stored_of self.old) o) i
            (name_of (stored_of self.old) v) }
        ensures names { KeepsNames (stored_of self.old) (stored_of self.new) }
        ensures contexts { MakesAtMost 0 (layout_of self.old) (stored_of self.old) (stored_of self.new) }
        ensures layout { layout_of self.new ≡ layout_of self.old }
        ensures rest { self.new ≡ record self.old { heap = self.new.heap } }
        ensures limit { self.new.heap.limit ≡ self.old.heap.limit }
    {
        self.heap.set_slot(o, i, v);
    }

    /// Makes an object.
    pub(crate) fn allocate(&mut self, class: u32, format: u8, slots: u32) -> Result<Oop, Full>
        requires good { IsGood self.old }
        requires fits { CanAllocate (view_of self.old) class format slots }
        ensures good { IsGood self.new }
        ensures view { OnOk result (view_of self.new ≡ add_of (view_of self.old)
            (blank_of (view_of self.old) class format slots)) }
        ensures value { IfOk result (λ o. Names (stored_of self.new) o (next_ref (view_of self.old))) }
        ensures layout { layout_of self.new ≡ layout_of self.old }
        ensures limit { self.new.heap.limit ≡ self.old.heap.limit }
        ensures contexts { MakesAtMost 0 (layout_of self.old) (stored_of self.old) (stored_of self.new) }
        ensures refused { OnErr result (self.new ≡ self.old) }
        ensures names { OnOk result (KeepsNames (stored_of self.old) (stored_of self.new)) }
        ensures full { IfErr result (λ why. (why ≡ full.Heap) × CausesFull (stored_of self.new) (layout_of self.old)
            (view_of self.old) (size slots) (add_of (view_of self.old)
            (blank_of (view_of self.old) class format slots)) why) }
    {
        // for what its clauses say: no class index from there on has an entry
        let _entries = self.classes.len();
        let birth = self.roots.next_birth;
        match self.heap.allocate(class, format, slots, birth) {
            Ok(made) => {
                self.roots.next_birth = birth + 1;
                Ok(made)
            }
            Err(_) => Err(Full::Heap),
        }
    }

    /// Pushes a value onto the active stack.
    pub(crate) fn push(&mut self, v: Oop)
        requires good { IsGood self.old }
        requires ready { IsReady (stored_of self.old) (view_of self.old) }
        requires fits { depth_of (view_of self.old) < size_of (view_of self.old) }
        requires named { IsNamed (stored_of self.old) v }
        ensures good { IsGood self.new }
        ensures view { view_of self.new ≡ push_of (view_of self.old) (name_of (stored_of self.old) v) }
        ensures stored { stored_of self.new ≡ stored_of self.old }
        ensures layout { layout_of self.new ≡ layout_of self.old }
        ensures limit { self.new.heap.limit ≡ self.old.heap.limit }
    {
        let top = self.top();
        self.frames.push(top, v);
    }

    /// Pops the topmost value.
    pub(crate) fn pop(&mut self) -> Oop
        requires good { IsGood self.old }
        requires ready { IsReady (stored_of self.old) (view_of self.old) }
        requires there { 0 < depth_of (view_of self.old) }
        ensures good { IsGood self.new }
        ensures value { Names (stored_of self.old) result (unwrap_or (slice_get (stack_of (view_of self.old))
            (depth_of (view_of self.old) - 1)) (nil_of (view_of self.old))) }
        ensures view { view_of self.new ≡ pop_of (view_of self.old) }
        ensures stored { stored_of self.new ≡ stored_of self.old }
        ensures layout { layout_of self.new ≡ layout_of self.old }
        ensures limit { self.new.heap.limit ≡ self.old.heap.limit }
    {
        let top = self.top();
        self.frames.pop(top)
    }
}

/// What stands for the context that a frame is.
fn act(f: FrameRef) -> Act
    ensures { result ≡ Act.Frame f.page f.at }
{
    Act::Frame {
        page: f.page,
        at: f.at,
    }
}
