//! A world that keeps activations as frames on stack pages.
//!
//! A context that the machine enters is a frame, and has no object in the heap until code looks at it, or until a
//! method or block that it calls finds no room on its page and begins another one. Then frame and context are married,
//! and the frame goes on as its body. The context that was active when the machine was opened, and a single one into
//! which it returns later, become the base frame of a page. All other contexts stay in the heap.
#![tactic(auto)]

ghost use Rattle.std.specs.Prelude.{◌≡◌};
ghost use Rattle.cs_classes.specs.Meaning.{loaded_kept};
ghost use Rattle.cs_stack.specs.View.{act_of, layout_of, stored_of, view_of};

mod arguments;
mod cuts;
mod looks;
mod moves;
mod objects;
mod parts;

use cs_acts::read::{active_process, nil, same, slot};
use cs_acts::{Act, Full, Loaded, Roots, World};
use cs_classes::Classes;
use cs_classes::slots::{PROCESS_SLOTS, SUSPENDED_CONTEXT};
use cs_frame::Frames;
use cs_heap::Heap;
use cs_pages::Pages;
use cs_word::{MethodHeader, Oop};
pub use parts::Parts;
use std::alloc::{AllocError, Global};
use std::marker::Model;

/// A world of frames on stack pages.
///
/// It is seen as its parts, of which the invariant holds that heap and frames agree.
#[derive(Drop)]
pub struct StackWorld {
    parts: Parts,
}

impl Model for StackWorld {
    ghost use Rattle.cs_stack.specs.declared.parts.Parts.{Parts};
    ghost use Rattle.cs_stack.specs.contracts.parts.Parts as contracts;

    ghost Value = { Parts };

    ghost coded = { contracts.the_row.coded };

    ghost use Rattle.cs_stack.specs.Good.{IsGood};

    ghost view = { λ s. s.parts };

    ghost invariant = { λ s. IsGood s.parts };
}

impl StackWorld {
    ghost use Rattle.std.specs.Prelude.{◌≤◌, ◌<◌, length, ℕ, IfOk, false, None, Some, [], option_map};
    ghost use Rattle.cs_classes.specs.Sound.{IsWhole};
    ghost use Rattle.cs_classes.specs.Senders.{SendersStand};
    ghost use Rattle.cs_model.specs.Due.{is_idle};
    ghost use Rattle.cs_model.specs.Obj.{Context, Ctx, is_context_at};
    ghost use Rattle.cs_model.specs.Operation.{nil_of};
    ghost use Rattle.cs_model.specs.Read.{IsRunning};
    ghost use Rattle.cs_model.specs.Settle.{open_kept};
    ghost use Rattle.cs_model.specs.State.{PcLies, object_at};
    ghost use Rattle.cs_model.specs.Step.{shape_fault};
    ghost use Rattle.cs_acts.specs.Layout.{IsFresh, Layout};
    ghost use Rattle.cs_acts.specs.Names.{IsNamed, Names, name_of};
    ghost use Rattle.cs_acts.specs.Ready.{IsReady, IsSound};
    ghost use Rattle.cs_acts.specs.Opened.{taken_of};
    ghost use Rattle.cs_stack.specs.View.{active_page, layout_of, stored_of, view_of};

    /// Opens a loaded image on so many stack pages, 2 to 64 of 4,096 words each: the active process gives its context
    /// to the machine. With no active process none is active. The only error is that memory is refused.
    ///
    /// Births are below 2^62, nil is no context, the pc of each context is nil or lies in its method, and its sender is
    /// nil or a context. Where a process is active, the context that it gives must be live.
    pub fn new(alloc: Global, loaded: Loaded, pages: u32) -> Result<StackWorld, AllocError>
        requires few { (2 ≤ pages) × (pages ≤ 64) }
        requires whole { IsWhole loaded.heap.objects loaded.classes loaded.roots }
        requires births { loaded.roots.next_birth ≤ 4611686018427387904 }
        requires pcs { (i : ℕ) (c : Context) → object_at (loaded_kept loaded) i ≡ Some (Ctx c)
            → PcLies (loaded_kept loaded) c }
        requires senders { SendersStand (loaded_kept loaded) }
        requires nil { is_context_at (object_at (loaded_kept loaded) (loaded_kept loaded).rest.nil) ≡ false }
        requires running { is_idle (loaded_kept loaded) ≡ false → IsRunning (open_kept (loaded_kept loaded)) }
        ensures view { IfOk result (λ w. view_of w ≡ open_kept (loaded_kept loaded)) }
        ensures sound { IfOk result (λ w. IsSound (stored_of w) (view_of w)) }
        ensures fresh { IfOk result (λ w. IsFresh (view_of w) (layout_of w)) }
        ensures most { IfOk result (λ w. option_map (λ (l : Layout). l.most) (layout_of w) ≡ Some pages) }
        ensures limit { IfOk result (λ w. (stored_of w).memory.limit ≡ loaded.heap.limit) }
        ensures idle { IfOk result (λ w. is_idle (view_of w) ≡ is_idle (loaded_kept loaded)) }
        ensures shape { IfOk result (λ w. shape_fault (view_of w) ≡ None) }
        ensures ready { IfOk result (λ w. is_idle (view_of w) ≡ false → IsReady (stored_of w) (view_of w)) }
    {
        let Loaded {
            heap,
            classes,
            roots,
        } = loaded;
        // for what their clauses say: the heap is within its limit
        let _used = heap.used_words();
        let _limit = heap.limit_words();
        let order = Pages::new(alloc, pages)?;
        let frames = Frames::new(alloc, pages)?;
        let mut world = StackWorld {
            parts: Parts {
                heap,
                classes,
                roots,
                pages: order,
                frames,
            },
        };
        world.open();
        Ok(world)
    }

    /// Takes the context of the active process, if one is active.
    #[tactic(auto, unfolding(cs_model::specs::Settle::open_kept))]
    fn open(&mut self)
        requires sound { IsSound (stored_of self.old) (view_of self.old) }
        requires closed { self.old.pages.recent ≡ [] }
        requires some { 0 < length self.old.frames }
        requires running { is_idle (view_of self.old) ≡ false → IsRunning (open_kept (view_of self.old)) }
        ensures view { view_of self.new ≡ open_kept (view_of self.old) }
        ensures sound { IsSound (stored_of self.new) (view_of self.new) }
        ensures one { length (active_page self.new) ≤ 1 }
        ensures alone { length self.new.pages.recent ≤ 1 }
        ensures total { self.new.pages.total ≡ self.old.pages.total }
        ensures limit { self.new.heap.limit ≡ self.old.heap.limit }
    {
        let nil = nil(self);
        if let Some(process) = active_process(self) {
            if !same(self, process, nil) {
                self.take_context(process, nil);
            }
        }
    }

    /// Takes the context that a process keeps, and leaves nil there.
    fn take_context(&mut self, process: Oop, nil: Oop)
        requires closed { self.old.pages.recent ≡ [] }
        requires some { 0 < length self.old.frames }
        requires named { IsNamed (stored_of self.old) process }
        requires nil { Names (stored_of self.old) nil (nil_of (view_of self.old)) }
        requires running { IsRunning (taken_of (view_of self.old) (name_of (stored_of self.old) process)) }
        ensures view { view_of self.new ≡ taken_of (view_of self.old) (name_of (stored_of self.old) process) }
        ensures sound { IsSound (stored_of self.new) (view_of self.new) }
        ensures one { length (active_page self.new) ≤ 1 }
        ensures alone { length self.new.pages.recent ≤ 1 }
        ensures total { self.new.pages.total ≡ self.old.pages.total }
        ensures limit { self.new.heap.limit ≡ self.old.heap.limit }
    {
        if let Some(context) = slot(self, process, PROCESS_SLOTS, SUSPENDED_CONTEXT) {
            self.parts.take(process, nil, context);
        }
    }
}

impl World for StackWorld {
    ghost use Rattle.cs_stack.specs.View.{act_of, layout_of, stored_of, view_of};

    ghost view = { view_of };

    ghost stored = { stored_of };

    ghost act = { act_of };

    ghost layout = { layout_of };

    fn heap(&self) -> &Heap {
        &self.parts.heap
    }

    fn classes(&self) -> &Classes {
        &self.parts.classes
    }

    fn roots(&self) -> &Roots {
        &self.parts.roots
    }

    fn next_birth(&self) -> u64 {
        self.parts.roots.next_birth
    }

    fn active(&self) -> Act {
        self.parts.active()
    }

    fn act_birth(&self, a: Act) -> u64 {
        self.parts.act_birth(a)
    }

    fn act_closure(&self, a: Act) -> Oop {
        self.parts.act_closure(a)
    }

    fn act_method(&self, a: Act) -> Oop {
        self.parts.act_method(a)
    }

    fn act_live(&self, a: Act) -> bool {
        self.parts.act_live(a)
    }

    fn act_full(&self, a: Act) -> bool {
        self.parts.act_full(a)
    }

    fn act_pc(&self, a: Act) -> Option<u32> {
        self.parts.act_pc(a)
    }

    fn act_depth(&self, a: Act) -> u32 {
        self.parts.act_depth(a)
    }

    fn act_stack(&self, a: Act, i: u32) -> Oop {
        self.parts.act_stack(a, i)
    }

    fn sender_act(&self, a: Act) -> Act {
        self.parts.sender_act(a)
    }

    fn act_of(&self, ctx: Oop) -> Act {
        self.parts.act_of(ctx)
    }

    fn receiver(&self) -> Oop {
        self.parts.receiver()
    }

    fn method(&self) -> Oop {
        self.parts.method()
    }

    fn pc(&self) -> u32 {
        self.parts.pc()
    }

    fn set_pc(&mut self, pc: u32) {
        self.parts.set_pc(pc);
    }

    fn depth(&self) -> u32 {
        self.parts.depth()
    }

    fn size(&self) -> u32 {
        self.parts.size()
    }

    fn stack_at(&self, i: u32) -> Oop {
        self.parts.stack_at(i)
    }

    fn set_stack(&mut self, i: u32, v: Oop) {
        self.parts.set_stack(i, v);
    }

    fn store(&mut self, o: Oop, i: u32, v: Oop) {
        self.parts.store(o, i, v);
    }

    fn store_byte(&mut self, o: Oop, i: u32, b: u8) {
        self.parts.store_byte(o, i, b);
    }

    fn hash_of(&mut self, o: Oop) -> u32 {
        self.parts.hash_of(o)
    }

    fn set_fixed(&mut self, o: Oop, on: bool) {
        self.parts.set_fixed(o, on);
    }

    fn push(&mut self, v: Oop) {
        self.parts.push(v);
    }

    fn pop(&mut self) -> Oop {
        self.parts.pop()
    }

    fn this_context(&mut self) -> Result<Oop, Full> {
        self.parts.this_context()
    }

    fn act_context(&mut self, a: Act) -> Result<Oop, Full> {
        self.parts.act_context(a)
    }

    fn context_get(&mut self, ctx: Oop, i: u32) -> Result<Oop, Full> {
        self.parts.context_get(ctx, i)
    }

    fn allocate(&mut self, class: u32, format: u8, slots: u32) -> Result<Oop, Full> {
        self.parts.allocate(class, format, slots)
    }

    fn new_method(&mut self, class: u32, header: MethodHeader, count: u32) -> Result<Oop, Full> {
        self.parts.new_method(class, header, count)
    }

    fn enter(&mut self, method: Oop, args: u32, skip: bool) -> Result<(), Full> {
        self.parts.enter(method, args, skip)
    }

    fn enter_block(&mut self, closure: Oop, args: u32) -> Result<(), Full> {
        self.parts.enter_block(closure, args)
    }

    fn leave(&mut self, v: Oop) -> Result<(), Full> {
        self.parts.leave(v);
        Ok(())
    }

    fn cut_to(&mut self, home: Act, v: Oop) -> Result<(), Full> {
        self.parts.cut_to(home, v);
        Ok(())
    }
}
