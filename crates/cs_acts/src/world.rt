//! The trait of all worlds.
ghost use Rattle.std.specs.Prelude.{◌≡◌, ◌<◌, ◌≤◌, ◌-◌, ℕ, true, not, IfErr, IsSome, IsSomeAnd, is_some, IfOk, IfSome};
ghost use Rattle.std.specs.Prelude.{OnErr, OnOk, Option, None, Some, slice_get, unwrap_or};
ghost use Rattle.cs_model.specs.Obj.{context_in, lies_in};
ghost use Rattle.cs_model.specs.State.{Kept, object_at, object_of};
ghost use Rattle.cs_model.specs.Keeps.{Keeps, SameKept};
ghost use Rattle.cs_model.specs.Enter.{enter_block_of};
ghost use Rattle.cs_model.specs.Read.{active_birth, active_context, depth_of, method_of, pc_of, receiver_of, size_of};
ghost use Rattle.cs_model.specs.Read.{stack_of};
ghost use Rattle.cs_model.specs.Operation.{add_of, cut_to_of, enter_of, leave_of, next_ref, nil_of, pop_of, push_of};
ghost use Rattle.cs_model.specs.Operation.{set_fixed_of, set_pc_of, set_stack_of, store_byte_of, store_of};
ghost use Rattle.cs_model.specs.Instance.{hash_given, hash_of};
ghost use Rattle.cs_model.specs.PrimObject.{blank_method, can_be_fixed};
ghost use Rattle.cs_model.specs.Return.{closure_at, context_birth, has_room, is_live, sender_birth};
ghost use Rattle.cs_model.specs.Context.{is_context_ref};
ghost use Rattle.cs_model.specs.Ref as ref;
ghost use Rattle.cs_heap.specs.Object.{size};
ghost use Rattle.cs_acts.specs.declared.act.Act.{Act};
ghost use Rattle.cs_acts.specs.declared.act.Full.TheVariants as full;
ghost use Rattle.cs_acts.specs.Full.{CausesFull};
ghost use Rattle.cs_acts.specs.Layout.{IsLaidOut, LaidBy, Layout, cut, depth_if, entered, left};
ghost use Rattle.cs_acts.specs.Made.{CanAllocate, CanMakeMethod, MakesAtMost, blank_of, code_words, made_by_entering};
ghost use Rattle.cs_acts.specs.Made.{made_by_reading};
ghost use Rattle.cs_acts.specs.Names.{IsNamed, KeepsNames, Names, NamesOption, Store, name_of};
ghost use Rattle.cs_acts.specs.Ready.{IsReady, IsSound, writable_bytes, is_storable};
ghost use Rattle.cs_acts.specs.Targets.{CanArrive, CanCut, CanEnter, CanEnterBlock, dying_to, field_of, is_gone};
ghost use Rattle.cs_acts.specs.Targets.{method_in, pc_in, stack_in};

use crate::{Act, Full};
use cs_classes::{Classes, Roots};
use cs_heap::Heap;
use cs_word::{MethodHeader, Oop};

/// Keeps a state of the machine.
///
/// Each call speaks of the state that the world keeps, its view. A call that changes it does that operation on every
/// state that this one keeps, so nothing is told of where contexts stand. An `Oop` that a call answers is an immediate
/// or the address of an object of the heap; one that it is given must be too. What an `Oop` names, it names for ever.
pub trait World {
    ghost view: { Self → Kept };

    ghost stored: { Self → Store };

    ghost act: { Self → Act → Option ℕ };

    ghost layout: { Self → Option Layout };

    /// The heap, for reading.
    fn heap(&self) -> &Heap
        ensures { result.now ≡ (stored self.now).memory };

    /// The class table, for reading.
    fn classes(&self) -> &Classes
        ensures { result.now ≡ (stored self.now).table };

    /// The special-object array, the last hash, the next birth and the image header.
    fn roots(&self) -> &Roots
        ensures { result.now ≡ (stored self.now).roots };

    /// The birth that the next object or context gets.
    fn next_birth(&self) -> u64
        requires { IsSound (stored self.now) (view self.now) }
        ensures { result ≡ (view self.now).rest.next };

    /// The active context; Gone exactly where none is active.
    fn active(&self) -> Act
        requires { IsSound (stored self.now) (view self.now) }
        ensures active { act self.now result ≡ (view self.now).rest.active }
        ensures gone { is_gone result ≡ not (is_some (act self.now result)) }
        ensures laid { IsLaidOut (stored self.now) (view self.now) (layout self.now) };

    /// The birth of the context that an act stands for.
    fn act_birth(&self, a: Act) -> u64
        requires sound { IsSound (stored self.now) (view self.now) }
        requires stands { IsSome (act self.now a) }
        ensures { act self.now a ≡ Some result };

    /// The closure of the context that an act stands for, or nil.
    fn act_closure(&self, a: Act) -> Oop
        requires sound { IsSound (stored self.now) (view self.now) }
        requires stands { IsSome (act self.now a) }
        ensures { IfSome (act self.now a) (λ birth. Names (stored self.now) result
            (closure_at (view self.now) birth)) };

    /// The method of the context that an act stands for.
    fn act_method(&self, a: Act) -> Oop
        requires sound { IsSound (stored self.now) (view self.now) }
        requires stands { IsSome (act self.now a) }
        ensures { IfSome (act self.now a) (λ birth. Names (stored self.now) result
            (method_in (nil_of (view self.now)) (context_in (object_at (view self.now) birth)))) };

    /// Whether the context that an act stands for is live: it has a pc.
    fn act_live(&self, a: Act) -> bool
        requires sound { IsSound (stored self.now) (view self.now) }
        requires stands { IsSome (act self.now a) }
        ensures { IfSome (act self.now a) (λ birth. result ≡ is_live (view self.now) birth) };

    /// Whether the stack of the context that an act stands for holds as many values as its size.
    fn act_full(&self, a: Act) -> bool
        requires sound { IsSound (stored self.now) (view self.now) }
        requires stands { IsSome (act self.now a) }
        ensures { IfSome (act self.now a) (λ birth. not result ≡ has_room
            (context_in (object_at (view self.now) birth))) };

    /// The pc of the context that an act stands for; None exactly where that is nil.
    fn act_pc(&self, a: Act) -> Option<u32>
        requires sound { IsSound (stored self.now) (view self.now) }
        requires stands { IsSome (act self.now a) }
        ensures { IfSome (act self.now a) (λ birth. result ≡ pc_in (context_in (object_at (view self.now) birth))) };

    /// How many values the stack of the context that an act stands for holds.
    fn act_depth(&self, a: Act) -> u32
        requires sound { IsSound (stored self.now) (view self.now) }
        requires stands { IsSome (act self.now a) }
        ensures { IfSome (act self.now a) (λ birth.
            result ≡ depth_if (context_in (object_at (view self.now) birth))) };

    /// Value i of the stack of the context that an act stands for, counted from 0 at the bottom.
    fn act_stack(&self, a: Act, i: u32) -> Oop
        requires sound { IsSound (stored self.now) (view self.now) }
        requires stands { IsSome (act self.now a) }
        requires there { IfSome (act self.now a) (λ birth.
            i < depth_if (context_in (object_at (view self.now) birth))) }
        ensures { IfSome (act self.now a) (λ birth. Names (stored self.now) result
            (unwrap_or (slice_get (stack_in (context_in (object_at (view self.now) birth))) i)
            (nil_of (view self.now)))) };

    /// The sender of the context that an act stands for; Gone exactly where that is nil.
    fn sender_act(&self, a: Act) -> Act
        requires sound { IsSound (stored self.now) (view self.now) }
        requires stands { IsSome (act self.now a) }
        ensures value { IfSome (act self.now a) (λ birth. act self.now result ≡ sender_birth (view self.now) birth) }
        ensures gone { is_gone result ≡ not (is_some (act self.now result)) };

    /// What stands for a context.
    fn act_of(&self, ctx: Oop) -> Act
        requires sound { IsSound (stored self.now) (view self.now) }
        requires named { IsNamed (stored self.now) ctx }
        requires context { is_context_ref (view self.now) (name_of (stored self.now) ctx) ≡ true }
        ensures { act self.now result ≡ context_birth (view self.now) (name_of (stored self.now) ctx) };

    /// The receiver of the active context.
    fn receiver(&self) -> Oop
        requires { IsReady (stored self.now) (view self.now) }
        ensures { Names (stored self.now) result (receiver_of (view self.now)) };

    /// The method of the active context.
    fn method(&self) -> Oop
        requires { IsReady (stored self.now) (view self.now) }
        ensures { Names (stored self.now) result (active_context (view self.now)).method };

    /// The pc of the active context. Pcs count bytes from 1, the method's header and literals included.
    fn pc(&self) -> u32
        requires { IsReady (stored self.now) (view self.now) }
        ensures { result ≡ pc_of (view self.now) };

    /// Moves the pc of the active context to a place in its method.
    fn set_pc(&mut self, pc: u32)
        requires ready { IsReady (stored self.old) (view self.old) }
        requires lies { lies_in (method_of (view self.old)) pc ≡ true }
        ensures state { (m : Kept) → Keeps (view self.old) m → Keeps (view self.new) (set_pc_of m pc) }
        ensures exact { layout self.old ≡ None → SameKept (view self.new) (set_pc_of (view self.old) pc) }
        ensures layout { layout self.new ≡ layout self.old }
        ensures limit { (stored self.new).memory.limit ≡ (stored self.old).memory.limit }
        ensures contexts { MakesAtMost 0 (layout self.old) (stored self.old) (stored self.new) }
        ensures ready { IsReady (stored self.new) (view self.new) }
        ensures names { KeepsNames (stored self.old) (stored self.new) };

    /// How many values the active stack holds: at most its size.
    fn depth(&self) -> u32
        requires { IsReady (stored self.now) (view self.now) }
        ensures value { result ≡ depth_of (view self.now) }
        ensures fits { result ≤ size_of (view self.now) };

    /// How many values the active stack may hold: 16 or 56.
    fn size(&self) -> u32
        requires { IsReady (stored self.now) (view self.now) }
        ensures { result ≡ size_of (view self.now) };

    /// Value i of the active stack, counted from 0 at the bottom.
    fn stack_at(&self, i: u32) -> Oop
        requires ready { IsReady (stored self.now) (view self.now) }
        requires there { i < depth_of (view self.now) }
        ensures { Names (stored self.now) result (unwrap_or (slice_get (stack_of (view self.now)) i)
            (nil_of (view self.now))) };

    /// Writes value i of the active stack.
    fn set_stack(&mut self, i: u32, v: Oop)
        requires ready { IsReady (stored self.old) (view self.old) }
        requires there { i < depth_of (view self.old) }
        requires named { IsNamed (stored self.old) v }
        ensures state { (m : Kept) → Keeps (view self.old) m → Keeps (view self.new)
            (set_stack_of m i (name_of (stored self.old) v)) }
        ensures exact { layout self.old ≡ None → SameKept (view self.new)
            (set_stack_of (view self.old) i (name_of (stored self.old) v)) }
        ensures layout { layout self.new ≡ layout self.old }
        ensures limit { (stored self.new).memory.limit ≡ (stored self.old).memory.limit }
        ensures contexts { MakesAtMost 0 (layout self.old) (stored self.old) (stored self.new) }
        ensures ready { IsReady (stored self.new) (view self.new) }
        ensures names { KeepsNames (stored self.old) (stored self.new) };

    /// Writes slot i of a pointer object, or literal i - 1 of a method, whose slot 0 is its header. No context
    /// need be active.
    fn store(&mut self, o: Oop, i: u32, v: Oop)
        requires sound { IsSound (stored self.old) (view self.old) }
        requires there { is_storable (object_of (view self.old) (name_of (stored self.old) o)) i ≡ true }
        requires object { IsNamed (stored self.old) o }
        requires named { IsNamed (stored self.old) v }
        ensures state { (m : Kept) → Keeps (view self.old) m → Keeps (view self.new)
            (store_of m (name_of (stored self.old) o) i (name_of (stored self.old) v)) }
        ensures exact { layout self.old ≡ None → SameKept (view self.new)
            (store_of (view self.old) (name_of (stored self.old) o) i (name_of (stored self.old) v)) }
        ensures layout { layout self.new ≡ layout self.old }
        ensures limit { (stored self.new).memory.limit ≡ (stored self.old).memory.limit }
        ensures contexts { MakesAtMost 0 (layout self.old) (stored self.old) (stored self.new) }
        ensures sound { IsSound (stored self.new) (view self.new) }
        ensures ready { IsReady (stored self.old) (view self.old) → IsReady (stored self.new) (view self.new) }
        ensures names { KeepsNames (stored self.old) (stored self.new) };

    /// Writes byte i, counted from 0, of the bytes of an object, or of a method's bytecodes. No context need be active.
    fn store_byte(&mut self, o: Oop, i: u32, b: u8)
        requires sound { IsSound (stored self.old) (view self.old) }
        requires object { IsNamed (stored self.old) o }
        requires there { i < writable_bytes (object_of (view self.old) (name_of (stored self.old) o)) }
        ensures state { (m : Kept) → Keeps (view self.old) m → Keeps (view self.new)
            (store_byte_of m (name_of (stored self.old) o) i b) }
        ensures exact { layout self.old ≡ None → SameKept (view self.new)
            (store_byte_of (view self.old) (name_of (stored self.old) o) i b) }
        ensures layout { layout self.new ≡ layout self.old }
        ensures limit { (stored self.new).memory.limit ≡ (stored self.old).memory.limit }
        ensures contexts { MakesAtMost 0 (layout self.old) (stored self.old) (stored self.new) }
        ensures sound { IsSound (stored self.new) (view self.new) }
        ensures ready { IsReady (stored self.old) (view self.old) → IsReady (stored self.new) (view self.new) }
        ensures names { KeepsNames (stored self.old) (stored self.new) };

    /// The identity hash of an object, which is given to it where it has none yet. No context need be active.
    fn hash_of(&mut self, o: Oop) -> u32
        requires sound { IsSound (stored self.old) (view self.old) }
        requires named { IsNamed (stored self.old) o }
        requires object { IsSome (object_of (view self.old) (name_of (stored self.old) o)) }
        ensures value { result ≡ hash_of (view self.old) (name_of (stored self.old) o) }
        ensures state { (m : Kept) → Keeps (view self.old) m → Keeps (view self.new)
            (hash_given m (name_of (stored self.old) o)) }
        ensures exact { layout self.old ≡ None → SameKept (view self.new)
            (hash_given (view self.old) (name_of (stored self.old) o)) }
        ensures layout { layout self.new ≡ layout self.old }
        ensures limit { (stored self.new).memory.limit ≡ (stored self.old).memory.limit }
        ensures contexts { MakesAtMost 0 (layout self.old) (stored self.old) (stored self.new) }
        ensures sound { IsSound (stored self.new) (view self.new) }
        ensures ready { IsReady (stored self.old) (view self.old) → IsReady (stored self.new) (view self.new) }
        ensures names { KeepsNames (stored self.old) (stored self.new) };

    /// Makes an object that is no context read-only where `on`, and else ends that. No context need be active.
    fn set_fixed(&mut self, o: Oop, on: bool)
        requires sound { IsSound (stored self.old) (view self.old) }
        requires named { IsNamed (stored self.old) o }
        requires object { can_be_fixed (object_of (view self.old) (name_of (stored self.old) o)) ≡ true }
        ensures state { (m : Kept) → Keeps (view self.old) m → Keeps (view self.new)
            (set_fixed_of m (name_of (stored self.old) o) on) }
        ensures exact { layout self.old ≡ None → SameKept (view self.new)
            (set_fixed_of (view self.old) (name_of (stored self.old) o) on) }
        ensures layout { layout self.new ≡ layout self.old }
        ensures limit { (stored self.new).memory.limit ≡ (stored self.old).memory.limit }
        ensures contexts { MakesAtMost 0 (layout self.old) (stored self.old) (stored self.new) }
        ensures sound { IsSound (stored self.new) (view self.new) }
        ensures ready { IsReady (stored self.old) (view self.old) → IsReady (stored self.new) (view self.new) }
        ensures names { KeepsNames (stored self.old) (stored self.new) };

    /// Pushes a value onto the active stack.
    fn push(&mut self, v: Oop)
        requires ready { IsReady (stored self.old) (view self.old) }
        requires fits { depth_of (view self.old) < size_of (view self.old) }
        requires named { IsNamed (stored self.old) v }
        ensures state { (m : Kept) → Keeps (view self.old) m → Keeps (view self.new)
            (push_of m (name_of (stored self.old) v)) }
        ensures exact { layout self.old ≡ None → SameKept (view self.new)
            (push_of (view self.old) (name_of (stored self.old) v)) }
        ensures layout { layout self.new ≡ layout self.old }
        ensures limit { (stored self.new).memory.limit ≡ (stored self.old).memory.limit }
        ensures contexts { MakesAtMost 0 (layout self.old) (stored self.old) (stored self.new) }
        ensures ready { IsReady (stored self.new) (view self.new) }
        ensures names { KeepsNames (stored self.old) (stored self.new) };

    /// Pops the topmost value.
    fn pop(&mut self) -> Oop
        requires ready { IsReady (stored self.old) (view self.old) }
        requires there { 0 < depth_of (view self.old) }
        ensures value { Names (stored self.new) result (unwrap_or (slice_get (stack_of (view self.old))
            (depth_of (view self.old) - 1)) (nil_of (view self.old))) }
        ensures state { (m : Kept) → Keeps (view self.old) m → Keeps (view self.new) (pop_of m) }
        ensures exact { layout self.old ≡ None → SameKept (view self.new) (pop_of (view self.old)) }
        ensures layout { layout self.new ≡ layout self.old }
        ensures limit { (stored self.new).memory.limit ≡ (stored self.old).memory.limit }
        ensures contexts { MakesAtMost 0 (layout self.old) (stored self.old) (stored self.new) }
        ensures ready { IsReady (stored self.new) (view self.new) }
        ensures names { KeepsNames (stored self.old) (stored self.new) };

    /// The active context as an object.
    ///
    /// Where it was a frame alone, its context is made: it was there in the state all the time, so nothing changes
    /// there. A refusal ends the run, so nothing is said of the world behind it.
    fn this_context(&mut self) -> Result<Oop, Full>
        requires sound { IsSound (stored self.old) (view self.old) }
        requires active { IsSome (view self.old).rest.active }
        ensures view { OnOk result (view self.new ≡ view self.old) }
        ensures value { IfOk result (λ o. Names (stored self.new) o (ref.Obj (active_birth (view self.old)))) }
        ensures layout { OnOk result (layout self.new ≡ layout self.old) }
        ensures limit { (stored self.new).memory.limit ≡ (stored self.old).memory.limit }
        ensures contexts { OnOk result (MakesAtMost 1 (layout self.old) (stored self.old) (stored self.new)) }
        ensures sound { OnOk result (IsSound (stored self.new) (view self.new)) }
        ensures names { OnOk result (KeepsNames (stored self.old) (stored self.new)) }
        ensures paged { IfErr result (λ _. IsSome (layout self.old)) }
        ensures heap_alone { IfErr result (λ why. why ≡ full.Heap) }
        ensures full { IfErr result (CausesFull (stored self.new) (layout self.old) (view self.old) 0
            (view self.old)) };

    /// The context that an act stands for, as an object. It is made as by `this_context`.
    fn act_context(&mut self, a: Act) -> Result<Oop, Full>
        requires sound { IsSound (stored self.old) (view self.old) }
        requires stands { IsSome (act self.old a) }
        ensures view { OnOk result (view self.new ≡ view self.old) }
        ensures value { IfOk result (λ o. IfSome (act self.old a)
            (λ birth. Names (stored self.new) o (ref.Obj birth))) }
        ensures layout { OnOk result (layout self.new ≡ layout self.old) }
        ensures limit { (stored self.new).memory.limit ≡ (stored self.old).memory.limit }
        ensures contexts { OnOk result (MakesAtMost 1 (layout self.old) (stored self.old) (stored self.new)) }
        ensures sound { OnOk result (IsSound (stored self.new) (view self.new)) }
        ensures names { OnOk result (KeepsNames (stored self.old) (stored self.new)) }
        ensures paged { IfErr result (λ _. IsSome (layout self.old)) }
        ensures heap_alone { IfErr result (λ why. why ≡ full.Heap) }
        ensures full { IfErr result (CausesFull (stored self.new) (layout self.old) (view self.old) 0
            (view self.old)) };

    /// Field i of a context, or its stack value i - 6, counted from 0 at the bottom. There must be such a field or
    /// value.
    ///
    /// Field 0, the sender, is made as by `this_context`; the others make nothing.
    fn context_get(&mut self, ctx: Oop, i: u32) -> Result<Oop, Full>
        requires sound { IsSound (stored self.old) (view self.old) }
        requires named { IsNamed (stored self.old) ctx }
        requires there { IsSome (field_of (view self.old) (name_of (stored self.old) ctx) i) }
        ensures view { OnOk result (view self.new ≡ view self.old) }
        ensures value { IfOk result (λ o. NamesOption (stored self.new) (Some o)
            (field_of (view self.old) (name_of (stored self.old) ctx) i)) }
        ensures layout { OnOk result (layout self.new ≡ layout self.old) }
        ensures limit { (stored self.new).memory.limit ≡ (stored self.old).memory.limit }
        ensures contexts { OnOk result (MakesAtMost (made_by_reading i) (layout self.old) (stored self.old)
            (stored self.new)) }
        ensures sound { OnOk result (IsSound (stored self.new) (view self.new)) }
        ensures names { OnOk result (KeepsNames (stored self.old) (stored self.new)) }
        ensures paged { IfErr result (λ _. IsSome (layout self.old)) }
        ensures heap_alone { IfErr result (λ why. why ≡ full.Heap) }
        ensures full { IfErr result (CausesFull (stored self.new) (layout self.old) (view self.old) 0 (view self.old)) }
        ensures sender_alone { IfErr result (λ _. i ≡ 0) };

    /// Makes an object: its slots are nil, its bytes 0. Behind a refusal all is as before.
    fn allocate(&mut self, class: u32, format: u8, slots: u32) -> Result<Oop, Full>
        requires sound { IsSound (stored self.old) (view self.old) }
        requires fits { CanAllocate (view self.old) class format slots }
        ensures state { OnOk result ((m : Kept) → Keeps (view self.old) m
            → Keeps (view self.new) (add_of m (blank_of m class format slots))) }
        ensures exact { OnOk result (layout self.old ≡ None → SameKept (view self.new)
            (add_of (view self.old) (blank_of (view self.old) class format slots))) }
        ensures value { IfOk result (λ o. Names (stored self.new) o (next_ref (view self.old))) }
        ensures layout { OnOk result (layout self.new ≡ layout self.old) }
        ensures limit { (stored self.new).memory.limit ≡ (stored self.old).memory.limit }
        ensures contexts { OnOk result (MakesAtMost 0 (layout self.old) (stored self.old) (stored self.new)) }
        ensures sound { OnOk result (IsSound (stored self.new) (view self.new)) }
        ensures ready { OnOk result (IsReady (stored self.old) (view self.old)
            → IsReady (stored self.new) (view self.new)) }
        ensures names { OnOk result (KeepsNames (stored self.old) (stored self.new)) }
        ensures refused_view { OnErr result (view self.new ≡ view self.old) }
        ensures refused_stored { OnErr result (stored self.new ≡ stored self.old) }
        ensures refused_layout { OnErr result (layout self.new ≡ layout self.old) }
        ensures heap_alone { IfErr result (λ why. why ≡ full.Heap) }
        ensures full { IfErr result (CausesFull (stored self.new) (layout self.old) (view self.old) (size slots)
            (add_of (view self.old) (blank_of (view self.old) class format slots))) };

    /// Makes a method of this class index and header: its literals are nil, and it has `count` bytecode bytes of 0.
    /// Behind a refusal all is as before.
    fn new_method(&mut self, class: u32, header: MethodHeader, count: u32) -> Result<Oop, Full>
        requires sound { IsSound (stored self.old) (view self.old) }
        requires fits { CanMakeMethod (view self.old) class header.0 count }
        ensures state { OnOk result ((m : Kept) → Keeps (view self.old) m
            → Keeps (view self.new) (add_of m (blank_method m class count header.0))) }
        ensures exact { OnOk result (layout self.old ≡ None → SameKept (view self.new)
            (add_of (view self.old) (blank_method (view self.old) class count header.0))) }
        ensures value { IfOk result (λ o. Names (stored self.new) o (next_ref (view self.old))) }
        ensures layout { OnOk result (layout self.new ≡ layout self.old) }
        ensures limit { (stored self.new).memory.limit ≡ (stored self.old).memory.limit }
        ensures contexts { OnOk result (MakesAtMost 0 (layout self.old) (stored self.old)
            (stored self.new)) }
        ensures sound { OnOk result (IsSound (stored self.new) (view self.new)) }
        ensures ready { OnOk result (IsReady (stored self.old) (view self.old)
            → IsReady (stored self.new) (view self.new)) }
        ensures names { OnOk result (KeepsNames (stored self.old) (stored self.new)) }
        ensures refused_view { OnErr result (view self.new ≡ view self.old) }
        ensures refused_stored { OnErr result (stored self.new ≡ stored self.old) }
        ensures refused_layout { OnErr result (layout self.new ≡ layout self.old) }
        ensures heap_alone { IfErr result (λ why. why ≡ full.Heap) }
        ensures full { IfErr result (CausesFull (stored self.new) (layout self.old) (view self.old)
            (size (code_words header.0 count)) (add_of (view self.old)
            (blank_method (view self.old) class count header.0))) };

    /// Enters a method: receiver and arguments leave the active stack, and a new context is active, with the old one as
    /// its sender. It begins at the first pc of the method, or with `skip` behind its three bytes that name a
    /// primitive.
    ///
    /// A refusal ends the run, so nothing is said of the world behind it.
    fn enter(&mut self, method: Oop, args: u32, skip: bool) -> Result<(), Full>
        requires ready { IsReady (stored self.old) (view self.old) }
        requires named { IsNamed (stored self.old) method }
        requires fits { CanEnter (view self.old) (name_of (stored self.old) method) args skip }
        ensures state { OnOk result ((m : Kept) → Keeps (view self.old) m
            → Keeps (view self.new) (enter_of m (name_of (stored self.old) method) args skip)) }
        ensures exact { OnOk result (layout self.old ≡ None → SameKept (view self.new)
            (enter_of (view self.old) (name_of (stored self.old) method) args skip)) }
        ensures layout { OnOk result (LaidBy (entered (view self.old) (view self.old).rest.next) (layout self.old)
            (layout self.new)) }
        ensures limit { (stored self.new).memory.limit ≡ (stored self.old).memory.limit }
        ensures contexts { OnOk result (MakesAtMost (made_by_entering (view self.old) (layout self.old))
            (layout self.old) (stored self.old) (stored self.new)) }
        ensures ready { OnOk result (IsReady (stored self.new) (view self.new)) }
        ensures names { OnOk result (KeepsNames (stored self.old) (stored self.new)) }
        ensures full { IfErr result (CausesFull (stored self.new) (layout self.old) (view self.old) 0
            (enter_of (view self.old) (name_of (stored self.old) method) args skip)) };

    /// Enters the block of a closure: closure and arguments leave the active stack, and a new context is active, with
    /// the old one as its sender. Its method and receiver are those of the closure's outer context.
    ///
    /// A refusal ends the run, so nothing is said of the world behind it.
    fn enter_block(&mut self, closure: Oop, args: u32) -> Result<(), Full>
        requires ready { IsReady (stored self.old) (view self.old) }
        requires named { IsNamed (stored self.old) closure }
        requires fits { CanEnterBlock (view self.old) (name_of (stored self.old) closure) args }
        ensures state { OnOk result ((m : Kept) → Keeps (view self.old) m
            → Keeps (view self.new) (enter_block_of m (name_of (stored self.old) closure) args)) }
        ensures exact { OnOk result (layout self.old ≡ None → SameKept (view self.new)
            (enter_block_of (view self.old) (name_of (stored self.old) closure) args)) }
        ensures layout { OnOk result (LaidBy (entered (view self.old) (view self.old).rest.next) (layout self.old)
            (layout self.new)) }
        ensures limit { (stored self.new).memory.limit ≡ (stored self.old).memory.limit }
        ensures contexts { OnOk result (MakesAtMost (made_by_entering (view self.old) (layout self.old))
            (layout self.old) (stored self.old) (stored self.new)) }
        ensures ready { OnOk result (IsReady (stored self.new) (view self.new)) }
        ensures names { OnOk result (KeepsNames (stored self.old) (stored self.new)) }
        ensures full { IfErr result (CausesFull (stored self.new) (layout self.old) (view self.old) 0
            (enter_block_of (view self.old) (name_of (stored self.old) closure) args)) };

    /// Returns a value: the active context dies, its sender is active, and the value is pushed there.
    ///
    /// A refusal ends the run, so nothing is said of the world behind it.
    fn leave(&mut self, v: Oop) -> Result<(), Full>
        requires ready { IsReady (stored self.old) (view self.old) }
        requires named { IsNamed (stored self.old) v }
        requires target { IsSomeAnd (sender_birth (view self.old) (active_birth (view self.old)))
            (CanArrive (view self.old)) }
        ensures state { OnOk result ((m : Kept) → Keeps (view self.old) m
            → Keeps (view self.new) (leave_of m (name_of (stored self.old) v))) }
        ensures exact { OnOk result (layout self.old ≡ None → SameKept (view self.new)
            (leave_of (view self.old) (name_of (stored self.old) v))) }
        ensures layout { OnOk result (IfSome (sender_birth (view self.old) (active_birth (view self.old)))
            (λ target. LaidBy (left target) (layout self.old) (layout self.new))) }
        ensures limit { (stored self.new).memory.limit ≡ (stored self.old).memory.limit }
        ensures contexts { OnOk result (MakesAtMost 0 (layout self.old) (stored self.old) (stored self.new)) }
        ensures ready { OnOk result (IsReady (stored self.new) (view self.new)) }
        ensures names { OnOk result (KeepsNames (stored self.old) (stored self.new)) }
        ensures heap_alone { IfErr result (λ why. why ≡ full.Heap) }
        ensures full { IfErr result (CausesFull (stored self.new) (layout self.old) (view self.old) 0
            (leave_of (view self.old) (name_of (stored self.old) v))) };

    /// Returns a value past a home that is met among the senders of the active context: all contexts from the active
    /// one to the home die, the home's sender is active, and the value is pushed there.
    ///
    /// A refusal ends the run, so nothing is said of the world behind it.
    fn cut_to(&mut self, home: Act, v: Oop) -> Result<(), Full>
        requires ready { IsReady (stored self.old) (view self.old) }
        requires named { IsNamed (stored self.old) v }
        requires target { IsSomeAnd (act self.old home) (λ birth. IsSomeAnd (sender_birth (view self.old) birth)
            (CanCut (view self.old) birth)) }
        ensures state { OnOk result (IfSome (act self.old home) (λ birth. IfSome (sender_birth (view self.old) birth)
            (λ target. (m : Kept) → Keeps (view self.old) m
            → Keeps (view self.new) (cut_to_of m (dying_to (view self.old) birth) target
            (name_of (stored self.old) v))))) }
        ensures exact { OnOk result (layout self.old ≡ None → IfSome (act self.old home)
            (λ birth. IfSome (sender_birth (view self.old) birth)
            (λ target. SameKept (view self.new) (cut_to_of (view self.old) (dying_to (view self.old) birth) target
            (name_of (stored self.old) v))))) }
        ensures layout { OnOk result (IfSome (act self.old home) (λ birth. IfSome (sender_birth (view self.old) birth)
            (λ target. LaidBy (cut (dying_to (view self.old) birth) target) (layout self.old) (layout self.new)))) }
        ensures limit { (stored self.new).memory.limit ≡ (stored self.old).memory.limit }
        ensures contexts { OnOk result (MakesAtMost 0 (layout self.old) (stored self.old) (stored self.new)) }
        ensures ready { OnOk result (IsReady (stored self.new) (view self.new)) }
        ensures names { OnOk result (KeepsNames (stored self.old) (stored self.new)) }
        ensures heap_alone { IfErr result (λ why. why ≡ full.Heap) }
        ensures full { IfErr result (λ why. IfSome (act self.old home)
            (λ birth. IfSome (sender_birth (view self.old) birth)
            (λ target. CausesFull (stored self.new) (layout self.old) (view self.old) 0
            (cut_to_of (view self.old) (dying_to (view self.old) birth) target
            (name_of (stored self.old) v)) why))) };
}
