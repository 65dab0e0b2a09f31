//! A world in which each activation is a context in the heap.
//!
//! It is the plainest representation of the machine: what it keeps is what the model says, and no frame, page or
//! marriage stands between.
#![tactic(auto)]

ghost use Rattle.std.specs.Prelude.{◌≡◌, ◌<◌, ◌≤◌, ◌+◌, ◌*◌, ◌^◌, false, if◌then◌else◌, Some};
ghost use Rattle.cs_classes.specs.Meaning.{loaded_kept};
ghost use Rattle.cs_heap.specs.Object.{is_watched, slot_count_of};
ghost use Rattle.cs_heap.specs.Writes.{slots_stored};
ghost use Rattle.cs_model.specs.Obj.{context_size, literal_count};
ghost use Rattle.cs_acts.specs.Ready.{IsReady};
ghost use Rattle.cs_plain.specs.Storing.{plain_buried, values_copied, with_fields};

use cs_acts::read::{active_process, nil, same, slot};
use cs_acts::{Act, Full, Loaded, Roots, World};
use cs_classes::slots::{
    CLOSURE, FIRST_COPIED, FIRST_STACK, METHOD, OUTER_CONTEXT, PC, PROCESS_SLOTS, RECEIVER, SENDER,
    STACK_POINTER, START_PC, SUSPENDED_CONTEXT,
};
use cs_classes::{
    CONTEXT_CLASS, Classes, FIELDS_AND_INDICES, NewError, add_method, first_byte, is_context,
    method_header,
};
use cs_heap::{BASE, Heap};
use cs_word::{MethodHeader, Oop};
use std::alloc::{AllocError, Global};

/// A world of heap contexts.
#[derive(Drop)]
pub struct PlainWorld {
    heap: Heap,
    classes: Classes,
    roots: Roots,
    active: Option<Oop>,
}

/// How many links a walk along the senders follows.
const LINKS: u32 = 1_048_576;

/// How many slots a context has for a method of this header: 56 values fit on a large stack, and 16 on another.
fn context_slots(header: MethodHeader) -> u32
    ensures { result ≡ 6 + context_size header.0 }
{
    FIRST_STACK + header.context_size()
}

/// The pc at which a method of this header is entered: its first one, or with `skip` that behind the three bytes that
/// name a primitive.
fn entry_pc(header: MethodHeader, skip: bool) -> u32
    ensures { result ≡ 4 * (literal_count header.0 + 1) + 1 + (if skip then 3 else 0) }
{
    let first = 4 * (header.literals() + 1) + 1;
    if skip { first + 3 } else { first }
}

/// What a new context has in its fields.
#[derive(Clone, Copy)]
struct Fields {
    sender: Oop,
    pc: Oop,
    stackp: Oop,
    method: Oop,
    closure: Oop,
    receiver: Oop,
}

/// Writes the fields of a context that isn't watched.
#[tactic(auto, using(cs_heap::proofs::Laws::heap_laws))]
fn write_fields(heap: &mut Heap, context: Oop, fields: Fields)
    requires slots { 5 < slot_count_of heap.old.objects context.0 }
    requires unwatched { is_watched heap.old context.0 ≡ false }
    ensures { heap.new ≡ record heap.old { objects = with_fields heap.old.objects context.0 fields } }
{
    heap.set_slot(context, SENDER, fields.sender);
    heap.set_slot(context, PC, fields.pc);
    heap.set_slot(context, STACK_POINTER, fields.stackp);
    heap.set_slot(context, METHOD, fields.method);
    heap.set_slot(context, CLOSURE, fields.closure);
    heap.set_slot(context, RECEIVER, fields.receiver);
}

/// Copies so many slots of one object, from slot `at` on, to another object that isn't watched,
/// from slot `start` on.
fn copy_slots(heap: &mut Heap, from: Oop, at: u32, to: Oop, start: u32, count: u32)
    requires from { 0 < count → at + count ≤ slot_count_of heap.old.objects from.0 }
    requires to { start + count ≤ slot_count_of heap.old.objects to.0 }
    requires few { at + count < 2 ^ 31 }
    requires small { start + count < 2 ^ 31 }
    requires unwatched { is_watched heap.old to.0 ≡ false }
    ensures { heap.new ≡ record heap.old { objects = values_copied heap.old.objects from.0 at to.0 start count } }
{
    for i in 0..count {
        let value = heap.slot(from, at + i);
        heap.set_slot(to, start + i, value);
    }
}

/// Makes a context dead: its sender and pc are nil, and its stack is empty.
#[tactic(auto, using(cs_heap::proofs::Laws::heap_laws))]
fn bury(heap: &mut Heap, context: Oop)
    requires { 5 < slot_count_of heap.old.objects context.0 }
    ensures { heap.new ≡ slots_stored heap.old context.0 (plain_buried heap.old.objects context.0) }
{
    heap.set_slot(context, SENDER, Oop(BASE));
    heap.set_slot(context, PC, Oop(BASE));
    heap.set_slot(context, STACK_POINTER, Oop::from_natural(0));
}

impl PlainWorld {
    ghost use Rattle.std.specs.Prelude.{ℕ, IfErr, IfOk, IfSome, IsSomeAnd, None, OnOk, true};
    ghost use Rattle.cs_classes.specs.Senders.{SendersStand};
    ghost use Rattle.cs_classes.specs.Sound.{IsWhole};
    ghost use Rattle.cs_model.specs.Due.{is_idle};
    ghost use Rattle.cs_model.specs.Obj.{Context, Ctx};
    ghost use Rattle.cs_model.specs.Operation.{nil_of};
    ghost use Rattle.cs_model.specs.Read.{IsRunning, active_birth};
    ghost use Rattle.cs_model.specs.Return.{sender_birth};
    ghost use Rattle.cs_model.specs.Settle.{open_kept};
    ghost use Rattle.cs_model.specs.State.{PcLies, object_at};
    ghost use Rattle.cs_model.specs.Step.{shape_fault};
    ghost use Rattle.cs_acts.specs.Full.{CausesFull};
    ghost use Rattle.cs_acts.specs.Names.{IsNamed, KeepsNames, Names, name_of};
    ghost use Rattle.cs_acts.specs.Ready.{IsSound};
    ghost use Rattle.cs_acts.specs.Targets.{CanCut};
    ghost use Rattle.cs_plain.specs.Calling.{CanCall, called_context, called_of};
    ghost use Rattle.cs_plain.specs.Cutting.{AtHome, CanLand, landed_of};
    ghost use Rattle.cs_acts.specs.Opened.{taken_of};
    ghost use Rattle.cs_plain.specs.View.{oop_birth, plain_stored, plain_view};

    /// Opens a loaded image: the active process gives its context to the machine. With no active process no context is
    /// active.
    ///
    /// Where a process is active, the context that it gives must be live. The sender of each context must be nil or a
    /// context, and its pc nil or in its method.
    pub fn new(_alloc: Global, loaded: Loaded) -> Result<PlainWorld, AllocError>
        requires whole { IsWhole loaded.heap.objects loaded.classes loaded.roots }
        requires senders { SendersStand (loaded_kept loaded) }
        requires running { is_idle (loaded_kept loaded) ≡ false → IsRunning (open_kept (loaded_kept loaded)) }
        requires pcs { (i : ℕ) (c : Context) → object_at (loaded_kept loaded) i ≡ Some (Ctx c) →
            PcLies (loaded_kept loaded) c }
        ensures view { IfOk result (λ w. plain_view w ≡ open_kept (loaded_kept loaded)) }
        ensures sound { IfOk result (λ w. IsSound (plain_stored w) (plain_view w)) }
        ensures limit { IfOk result (λ w. (plain_stored w).memory.limit ≡ loaded.heap.limit) }
        ensures idle { IfOk result (λ w. is_idle (plain_view w) ≡ is_idle (loaded_kept loaded)) }
        ensures shape { IfOk result (λ w. shape_fault (plain_view w) ≡ None) }
        ensures ready { IfOk result (λ w. is_idle (plain_view w) ≡ false → IsReady (plain_stored w) (plain_view w)) }
    {
        let Loaded {
            heap,
            classes,
            roots,
        } = loaded;
        // for what their clauses say: the heap is within its limit
        let _used = heap.used_words();
        let _limit = heap.limit_words();
        let mut world = PlainWorld {
            heap,
            classes,
            roots,
            active: None,
        };
        world.open();
        Ok(world)
    }

    /// Takes the context of the active process, if one is active.
    #[tactic(auto, unfolding(cs_model::specs::Settle::open_kept))]
    fn open(&mut self)
        requires sound { IsSound (plain_stored self.old) (plain_view self.old) }
        requires closed { self.old.active ≡ None }
        requires running { is_idle (plain_view self.old) ≡ false → IsRunning (open_kept (plain_view self.old)) }
        ensures view { plain_view self.new ≡ open_kept (plain_view self.old) }
        ensures sound { IsSound (plain_stored self.new) (plain_view self.new) }
        ensures limit { self.new.heap.limit ≡ self.old.heap.limit }
    {
        let nil = nil(self);
        if let Some(process) = active_process(self) {
            if !same(self, process, nil) {
                self.take_context(process, nil);
            }
        }
    }

    /// Takes the context that a process keeps, and leaves nil there.
    fn take_context(&mut self, process: Oop, nil: Oop)
        requires sound { IsSound (plain_stored self.old) (plain_view self.old) }
        requires closed { self.old.active ≡ None }
        requires named { IsNamed (plain_stored self.old) process }
        requires nil { Names (plain_stored self.old) nil (nil_of (plain_view self.old)) }
        requires running { IsRunning (taken_of (plain_view self.old) (name_of (plain_stored self.old) process)) }
        ensures view { plain_view self.new ≡ taken_of (plain_view self.old) (name_of (plain_stored self.old) process) }
        ensures sound { IsSound (plain_stored self.new) (plain_view self.new) }
        ensures limit { self.new.heap.limit ≡ self.old.heap.limit }
    {
        if let Some(context) = slot(self, process, PROCESS_SLOTS, SUSPENDED_CONTEXT) {
            self.heap.set_slot(process, SUSPENDED_CONTEXT, nil);
            self.active = Some(context);
        }
    }

    /// The active context.
    fn active_context(&self) -> Oop
        requires { IsReady (plain_stored self.now) (plain_view self.now) }
        ensures { self.now.active ≡ Some result }
    {
        let Some(context) = self.active else {
            unreachable!();
        };
        context
    }

    /// Makes a context of these fields active. So many arguments leave the stack of the active one, with what is below
    /// them, for the new stack; above them come so many copied values of the closure.
    fn new_context(
        &mut self,
        header: MethodHeader,
        fields: Fields,
        args: u32,
        copied: u32,
    ) -> Result<(), Full>
        requires ready { IsReady (plain_stored self.old) (plain_view self.old) }
        requires sender { self.old.active ≡ Some fields.sender }
        requires fits { CanCall (plain_stored self.old) (plain_view self.old) header.0 args copied fields }
        ensures view { OnOk result (plain_view self.new ≡ called_of (plain_view self.old) args
            (called_context (plain_stored self.old) (plain_view self.old) header.0 args copied fields)) }
        ensures ready { OnOk result (IsReady (plain_stored self.new) (plain_view self.new)) }
        ensures names { OnOk result (KeepsNames (plain_stored self.old) (plain_stored self.new)) }
        ensures limit { self.new.heap.limit ≡ self.old.heap.limit }
        ensures full { IfErr result (CausesFull (plain_stored self.new) None (plain_view self.old) 0
            (called_of (plain_view self.old) args
            (called_context (plain_stored self.old) (plain_view self.old) header.0 args copied fields))) }
    {
        let sender = fields.sender;
        let closure = fields.closure;
        let left = self.depth() - (args + 1);
        let birth = self.roots.next_birth;
        let slots = context_slots(header);
        let heap = &mut self.heap;
        let Ok(context) = heap.allocate(CONTEXT_CLASS, FIELDS_AND_INDICES, slots, birth) else {
            return Err(Full::Heap);
        };
        write_fields(heap, context, fields);
        copy_slots(
            heap,
            sender,
            FIRST_STACK + left + 1,
            context,
            FIRST_STACK,
            args,
        );
        copy_slots(
            heap,
            closure,
            FIRST_COPIED,
            context,
            FIRST_STACK + args,
            copied,
        );
        heap.set_slot(sender, STACK_POINTER, Oop::from_natural(left));
        self.roots.next_birth = birth + 1;
        self.active = Some(context);
        Ok(())
    }

    /// Makes the active context dead, and its senders, until the home is met: the context of this birth. Answers the
    /// home.
    fn bury_to(&mut self, home: u64) -> Oop
        requires ready { IsReady (plain_stored self.old) (plain_view self.old) }
        requires target { IsSomeAnd (sender_birth (plain_view self.old) home) (CanCut (plain_view self.old) home) }
        ensures { IfSome (sender_birth (plain_view self.old) home)
            (λ target. AtHome self.old self.new home target result) }
    {
        let mut context = self.active_context();
        for _ in 0..LINKS {
            if self.heap.birth(context) == home {
                return context;
            }
            let sender = self.heap.slot(context, SENDER);
            bury(&mut self.heap, context);
            context = sender;
        }
        context
    }

    /// Makes a context dead and its sender active, and pushes a value there.
    fn land(&mut self, dying: Oop, v: Oop)
        requires sound { IsSound (plain_stored self.old) (plain_view self.old) }
        requires named { IsNamed (plain_stored self.old) v }
        requires target { IsSomeAnd (oop_birth self.old.heap.objects dying)
            (λ home. IsSomeAnd (sender_birth (plain_view self.old) home) (CanLand (plain_view self.old) home)) }
        ensures view { IfSome (oop_birth self.old.heap.objects dying)
            (λ home. IfSome (sender_birth (plain_view self.old) home)
            (λ target. plain_view self.new
            ≡ landed_of (plain_view self.old) home target (name_of (plain_stored self.old) v))) }
        ensures ready { IsReady (plain_stored self.new) (plain_view self.new) }
        ensures names { KeepsNames (plain_stored self.old) (plain_stored self.new) }
        ensures limit { self.new.heap.limit ≡ self.old.heap.limit }
    {
        let sender = self.heap.slot(dying, SENDER);
        bury(&mut self.heap, dying);
        self.active = Some(sender);
        self.push(v);
    }
}

impl World for PlainWorld {
    ghost use Rattle.std.specs.Prelude.{None};
    ghost use Rattle.cs_plain.specs.View.{plain_act, plain_stored, plain_view};

    ghost view = { plain_view };

    ghost stored = { plain_stored };

    ghost act = { plain_act };

    ghost layout = { λ w. None };

    fn heap(&self) -> &Heap {
        &self.heap
    }

    fn classes(&self) -> &Classes {
        &self.classes
    }

    fn roots(&self) -> &Roots {
        &self.roots
    }

    fn next_birth(&self) -> u64 {
        self.roots.next_birth
    }

    fn active(&self) -> Act {
        match self.active {
            Some(context) => {
                if is_context(&self.heap, context) {
                    Act::Context(context)
                } else {
                    Act::Gone
                }
            }
            None => Act::Gone,
        }
    }

    fn act_birth(&self, a: Act) -> u64 {
        match a {
            Act::Context(context) => self.heap.birth(context),
            _ => unreachable!(),
        }
    }

    fn act_closure(&self, a: Act) -> Oop {
        match a {
            Act::Context(context) => self.heap.slot(context, CLOSURE),
            _ => unreachable!(),
        }
    }

    fn act_method(&self, a: Act) -> Oop {
        match a {
            Act::Context(context) => self.heap.slot(context, METHOD),
            _ => unreachable!(),
        }
    }

    fn act_live(&self, a: Act) -> bool {
        match a {
            Act::Context(context) => self.heap.slot(context, PC).natural().is_some(),
            _ => unreachable!(),
        }
    }

    fn act_full(&self, a: Act) -> bool {
        match a {
            Act::Context(context) => {
                let depth = self
                    .heap
                    .slot(context, STACK_POINTER)
                    .natural()
                    .unwrap_or(0);
                depth >= self.heap.slot_count(context) - FIRST_STACK
            }
            _ => unreachable!(),
        }
    }

    fn act_pc(&self, a: Act) -> Option<u32> {
        match a {
            Act::Context(context) => self.heap.slot(context, PC).natural(),
            _ => unreachable!(),
        }
    }

    fn act_depth(&self, a: Act) -> u32 {
        match a {
            Act::Context(context) => self
                .heap
                .slot(context, STACK_POINTER)
                .natural()
                .unwrap_or(0),
            _ => unreachable!(),
        }
    }

    fn act_stack(&self, a: Act, i: u32) -> Oop {
        match a {
            Act::Context(context) => self.heap.slot(context, FIRST_STACK + i),
            _ => unreachable!(),
        }
    }

    fn sender_act(&self, a: Act) -> Act {
        match a {
            Act::Context(context) => {
                let sender = self.heap.slot(context, SENDER);
                if is_context(&self.heap, sender) {
                    Act::Context(sender)
                } else {
                    Act::Gone
                }
            }
            _ => unreachable!(),
        }
    }

    fn act_of(&self, ctx: Oop) -> Act {
        Act::Context(ctx)
    }

    fn receiver(&self) -> Oop {
        self.heap.slot(self.active_context(), RECEIVER)
    }

    fn method(&self) -> Oop {
        self.heap.slot(self.active_context(), METHOD)
    }

    fn pc(&self) -> u32 {
        self.heap
            .slot(self.active_context(), PC)
            .natural()
            .unwrap_or(0)
    }

    fn set_pc(&mut self, pc: u32) {
        let context = self.active_context();
        self.heap.set_slot(context, PC, Oop::from_natural(pc));
    }

    fn depth(&self) -> u32 {
        self.heap
            .slot(self.active_context(), STACK_POINTER)
            .natural()
            .unwrap_or(0)
    }

    fn size(&self) -> u32 {
        self.heap.slot_count(self.active_context()) - FIRST_STACK
    }

    fn stack_at(&self, i: u32) -> Oop {
        self.heap.slot(self.active_context(), FIRST_STACK + i)
    }

    fn set_stack(&mut self, i: u32, v: Oop) {
        let context = self.active_context();
        self.heap.set_slot(context, FIRST_STACK + i, v);
    }

    fn store(&mut self, o: Oop, i: u32, v: Oop) {
        self.heap.set_slot(o, i, v);
    }

    fn store_byte(&mut self, o: Oop, i: u32, b: u8) {
        let first = first_byte(&self.heap, o);
        self.heap.set_byte(o, first + i, b);
    }

    fn hash_of(&mut self, o: Oop) -> u32 {
        let hash = self.heap.hash(o);
        if hash != 0 {
            return hash;
        }
        let given = self.roots.next_hash();
        self.roots.last_hash = given;
        self.heap.set_hash(o, given);
        given
    }

    fn set_fixed(&mut self, o: Oop, on: bool) {
        self.heap.set_fixed(o, on);
    }

    fn push(&mut self, v: Oop) {
        let context = self.active_context();
        let depth = self.depth();
        self.heap.set_slot(context, FIRST_STACK + depth, v);
        self.heap
            .set_slot(context, STACK_POINTER, Oop::from_natural(depth + 1));
    }

    fn pop(&mut self) -> Oop {
        let context = self.active_context();
        let depth = self.depth();
        let value = self.stack_at(depth - 1);
        self.heap
            .set_slot(context, STACK_POINTER, Oop::from_natural(depth - 1));
        value
    }

    fn this_context(&mut self) -> Result<Oop, Full> {
        let Some(context) = self.active else {
            unreachable!();
        };
        Ok(context)
    }

    fn act_context(&mut self, a: Act) -> Result<Oop, Full> {
        match a {
            Act::Context(context) => Ok(context),
            _ => unreachable!(),
        }
    }

    fn context_get(&mut self, ctx: Oop, i: u32) -> Result<Oop, Full> {
        let value = self.heap.slot(ctx, i);
        if i == STACK_POINTER {
            Ok(Oop::from_natural(value.natural().unwrap_or(0)))
        } else {
            Ok(value)
        }
    }

    fn allocate(&mut self, class: u32, format: u8, slots: u32) -> Result<Oop, Full> {
        // for what its clauses say: no class index from there on has an entry
        let _entries = self.classes.len();
        let birth = self.roots.next_birth;
        match self.heap.allocate(class, format, slots, birth) {
            Ok(object) => {
                self.roots.next_birth = birth + 1;
                Ok(object)
            }
            Err(_) => Err(Full::Heap),
        }
    }

    fn new_method(&mut self, class: u32, header: MethodHeader, count: u32) -> Result<Oop, Full> {
        // for what its clauses say: no class index from there on has an entry
        let _entries = self.classes.len();
        let birth = self.roots.next_birth;
        match add_method(&mut self.heap, class, header, count, birth) {
            Ok(method) => {
                self.roots.next_birth = birth + 1;
                Ok(method)
            }
            Err(_) => Err(Full::Heap),
        }
    }

    fn enter(&mut self, method: Oop, args: u32, skip: bool) -> Result<(), Full> {
        let header = method_header(&self.heap, method);
        let fields = Fields {
            sender: self.active_context(),
            pc: Oop::from_natural(entry_pc(header, skip)),
            stackp: Oop::from_natural(header.temporaries()),
            method,
            closure: Oop(BASE),
            receiver: self.stack_at(self.depth() - (args + 1)),
        };
        self.new_context(header, fields, args, 0)
    }

    fn enter_block(&mut self, closure: Oop, args: u32) -> Result<(), Full> {
        let outer = self.heap.slot(closure, OUTER_CONTEXT);
        let method = self.heap.slot(outer, METHOD);
        let header = method_header(&self.heap, method);
        let copied = self.heap.slot_count(closure) - FIRST_COPIED;
        let fields = Fields {
            sender: self.active_context(),
            pc: self.heap.slot(closure, START_PC),
            stackp: Oop::from_natural(args + copied),
            method,
            closure,
            receiver: self.heap.slot(outer, RECEIVER),
        };
        self.new_context(header, fields, args, copied)
    }

    fn leave(&mut self, v: Oop) -> Result<(), Full> {
        let context = self.active_context();
        self.land(context, v);
        Ok(())
    }

    fn cut_to(&mut self, home: Act, v: Oop) -> Result<(), Full> {
        let birth = self.act_birth(home);
        let context = self.bury_to(birth);
        self.land(context, v);
        Ok(())
    }
}
