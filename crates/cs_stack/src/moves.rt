//! How activations are entered and left.
ghost use Rattle.std.specs.Prelude.{◌≡◌, ◌≢◌, ◌≤◌, ◌<◌, ◌+◌, [], IfErr, IfSome, IsSomeAnd, OnOk, Some, length};
ghost use Rattle.cs_frame.specs.Frame.{nil};
ghost use Rattle.cs_frame.specs.Page.{IsBase, frame_ref, top, frames_used};
ghost use Rattle.cs_marriage.specs.Marriage.{CanBase};
ghost use Rattle.cs_model.specs.Enter.{enter_block_of};
ghost use Rattle.cs_model.specs.Keeps.{Keeps};
ghost use Rattle.cs_model.specs.Operation.{enter_of, leave_of, nil_of};
ghost use Rattle.cs_model.specs.Read.{IsRunning, active_birth};
ghost use Rattle.cs_model.specs.Return.{sender_birth};
ghost use Rattle.cs_model.specs.Settle.{context_kept};
ghost use Rattle.cs_model.specs.State.{Kept};
ghost use Rattle.cs_acts.specs.Full.{CausesFull};
ghost use Rattle.cs_acts.specs.Layout.{LaidBy, entered, left};
ghost use Rattle.cs_acts.specs.Made.{MakesAtMost, made_by_entering};
ghost use Rattle.cs_acts.specs.Names.{IsNamed, KeepsNames, Names, NamesOption, name_of};
ghost use Rattle.cs_acts.specs.Ready.{IsReady};
ghost use Rattle.cs_acts.specs.Targets.{CanArrive, CanEnter, CanEnterBlock};
ghost use Rattle.cs_stack.specs.Good.{IsGood};
ghost use Rattle.cs_stack.specs.Moved.{CanBegin, Takes, Unwound, active_number, based_parts, begun_parts, begun_state};
ghost use Rattle.cs_acts.specs.Opened.{taken_of};
ghost use Rattle.cs_stack.specs.Moved.{called_parts, entry_of};
ghost use Rattle.cs_stack.specs.View.{active_page, layout_of, stored_of, view_of};

use crate::arguments::{copy_arguments, drop_values, push_copied, push_nils};
use crate::parts::{NIL, Parts};
use cs_acts::Full;
use cs_classes::method_header;
use cs_classes::slots::{
    FIRST_COPIED, METHOD, OUTER_CONTEXT, RECEIVER, START_PC, SUSPENDED_CONTEXT,
};
use cs_frame::{FrameRef, NewFrame};
use cs_marriage::{base, marry};
use cs_word::{MethodHeader, Oop};

/// The words that must be free where a frame is made: its ten, and those of 56 values.
const FRAME_ROOM: u32 = 66;

/// How many bytes of bytecodes name a primitive.
const PRIMITIVE_BYTES: u32 = 3;

impl Parts {
    /// The context that a process keeps becomes active, and the process keeps nil.
    pub(crate) fn take(&mut self, process: Oop, nil: Oop, context: Oop)
        requires good { IsGood self.old }
        requires closed { self.old.pages.recent ≡ [] }
        requires some { 0 < length self.old.frames }
        requires named { IsNamed (stored_of self.old) process }
        requires nil { Names (stored_of self.old) nil (nil_of (view_of self.old)) }
        requires kept { NamesOption (stored_of self.old) (Some context) (context_kept (view_of self.old)
            (name_of (stored_of self.old) process)) }
        requires running { IsRunning (taken_of (view_of self.old) (name_of (stored_of self.old) process)) }
        ensures good { IsGood self.new }
        ensures view { view_of self.new ≡ taken_of (view_of self.old) (name_of (stored_of self.old) process) }
        ensures one { length (active_page self.new) ≤ 1 }
        ensures alone { length self.new.pages.recent ≤ 1 }
        ensures total { self.new.pages.total ≡ self.old.pages.total }
        ensures limit { self.new.heap.limit ≡ self.old.heap.limit }
    {
        self.store(process, SUSPENDED_CONTEXT, nil);
        self.rebase(context);
    }

    /// Enters a method on a frame of its own: above the active one, or where 66 words aren't free there, on a page of
    /// its own.
    pub(crate) fn enter(&mut self, method: Oop, args: u32, skip: bool) -> Result<(), Full>
        requires good { IsGood self.old }
        requires ready { IsReady (stored_of self.old) (view_of self.old) }
        requires named { IsNamed (stored_of self.old) method }
        requires fits { CanEnter (view_of self.old) (name_of (stored_of self.old) method) args skip }
        ensures good { IsGood self.new }
        ensures view { OnOk result (view_of self.new ≡ enter_of (view_of self.old)
            (name_of (stored_of self.old) method) args skip) }
        ensures layout { OnOk result (LaidBy (entered (view_of self.old) (view_of self.old).rest.next)
            (layout_of self.old) (layout_of self.new)) }
        ensures limit { self.new.heap.limit ≡ self.old.heap.limit }
        ensures contexts { OnOk result (MakesAtMost (made_by_entering (view_of self.old) (layout_of self.old))
            (layout_of self.old) (stored_of self.old) (stored_of self.new)) }
        ensures names { OnOk result (KeepsNames (stored_of self.old) (stored_of self.new)) }
        ensures full { IfErr result (CausesFull (stored_of self.new) (layout_of self.old) (view_of self.old) 0
            (enter_of (view_of self.old) (name_of (stored_of self.old) method) args skip)) }
    {
        let header = method_header(&self.heap, method);
        let top = self.top();
        let receiver = self.frames.slot(top, self.frames.depth(top) - args - 1);
        let new = NewFrame {
            method,
            closure: NIL,
            receiver,
            birth: self.roots.next_birth,
            args,
            fill: header.temporaries() - args,
        };
        self.begin(new, Oop::from_natural(entry_pc(header, skip)), 0)
    }

    /// Enters the block of a closure on a frame of its own, as a method is entered.
    pub(crate) fn enter_block(&mut self, closure: Oop, args: u32) -> Result<(), Full>
        requires good { IsGood self.old }
        requires ready { IsReady (stored_of self.old) (view_of self.old) }
        requires named { IsNamed (stored_of self.old) closure }
        requires fits { CanEnterBlock (view_of self.old) (name_of (stored_of self.old) closure) args }
        ensures good { IsGood self.new }
        ensures view { OnOk result (view_of self.new ≡ enter_block_of (view_of self.old)
            (name_of (stored_of self.old) closure) args) }
        ensures layout { OnOk result (LaidBy (entered (view_of self.old) (view_of self.old).rest.next)
            (layout_of self.old) (layout_of self.new)) }
        ensures limit { self.new.heap.limit ≡ self.old.heap.limit }
        ensures contexts { OnOk result (MakesAtMost (made_by_entering (view_of self.old) (layout_of self.old))
            (layout_of self.old) (stored_of self.old) (stored_of self.new)) }
        ensures names { OnOk result (KeepsNames (stored_of self.old) (stored_of self.new)) }
        ensures full { IfErr result (CausesFull (stored_of self.new) (layout_of self.old) (view_of self.old) 0
            (enter_block_of (view_of self.old) (name_of (stored_of self.old) closure) args)) }
    {
        // its words keep method and receiver, also where it has a frame or had one
        let outer = self.heap.slot(closure, OUTER_CONTEXT);
        let new = NewFrame {
            method: self.heap.slot(outer, METHOD),
            closure,
            receiver: self.heap.slot(outer, RECEIVER),
            birth: self.roots.next_birth,
            args,
            fill: 0,
        };
        let pc = self.heap.slot(closure, START_PC);
        let copies = self.heap.slot_count(closure) - FIRST_COPIED;
        self.begin(new, pc, copies)
    }

    /// Makes a frame above the active one, or where 66 words aren't free there, on a page of its own. So many values
    /// that its closure has copied follow its arguments.
    fn begin(&mut self, new: NewFrame, pc: Oop, copies: u32) -> Result<(), Full>
        requires good { IsGood self.old }
        requires ready { IsReady (stored_of self.old) (view_of self.old) }
        requires can { CanBegin (stored_of self.old) (view_of self.old) new pc copies }
        ensures good { IsGood self.new }
        ensures view { OnOk result (view_of self.new ≡ begun_state (stored_of self.old) (view_of self.old) new pc
            copies) }
        ensures layout { OnOk result (LaidBy (entered (view_of self.old) (view_of self.old).rest.next)
            (layout_of self.old) (layout_of self.new)) }
        ensures limit { self.new.heap.limit ≡ self.old.heap.limit }
        ensures contexts { OnOk result (MakesAtMost (made_by_entering (view_of self.old) (layout_of self.old))
            (layout_of self.old) (stored_of self.old) (stored_of self.new)) }
        ensures names { OnOk result (KeepsNames (stored_of self.old) (stored_of self.new)) }
        ensures full { IfErr result (CausesFull (stored_of self.new) (layout_of self.old) (view_of self.old) 0
            (begun_state (stored_of self.old) (view_of self.old) new pc copies)) }
    {
        let room = self.frames.room(self.pages.order(0));
        if room < FRAME_ROOM {
            return self.overflow(new, pc, copies);
        }
        self.call(new, pc, copies);
        Ok(())
    }

    /// Makes a frame above the active one, where there is room for it.
    fn call(&mut self, new: NewFrame, pc: Oop, copies: u32)
        requires good { IsGood self.old }
        requires ready { IsReady (stored_of self.old) (view_of self.old) }
        requires can { CanBegin (stored_of self.old) (view_of self.old) new pc copies }
        requires room { frames_used (active_page self.old) + 66 ≤ 4096 }
        ensures made { self.new ≡ called_parts new pc.0 copies self.old }
    {
        let top = self.top();
        let frame = self.frames.build(top.page, new);
        self.frames.set_saved_pc(frame, pc);
        push_copied(&mut self.frames, frame, &self.heap, new.closure, copies);
        self.roots.next_birth += 1;
    }

    /// Makes a frame on a page that is taken. The caller is married, so that the frame can name it as its sender.
    fn overflow(&mut self, new: NewFrame, pc: Oop, copies: u32) -> Result<(), Full>
        requires good { IsGood self.old }
        requires ready { IsReady (stored_of self.old) (view_of self.old) }
        requires can { CanBegin (stored_of self.old) (view_of self.old) new pc copies }
        requires full { 4096 < frames_used (active_page self.old) + 66 }
        ensures good { IsGood self.new }
        ensures view { OnOk result (view_of self.new ≡ begun_state (stored_of self.old) (view_of self.old) new pc
            copies) }
        ensures layout { OnOk result (LaidBy (entered (view_of self.old) (view_of self.old).rest.next)
            (layout_of self.old) (layout_of self.new)) }
        ensures limit { self.new.heap.limit ≡ self.old.heap.limit }
        ensures contexts { OnOk result (MakesAtMost 1 (layout_of self.old) (stored_of self.old) (stored_of self.new)) }
        ensures names { OnOk result (KeepsNames (stored_of self.old) (stored_of self.new)) }
        ensures full { IfErr result (CausesFull (stored_of self.new) (layout_of self.old) (view_of self.old) 0
            (begun_state (stored_of self.old) (view_of self.old) new pc copies)) }
    {
        if self.pages.used() == self.pages.len() {
            return Err(Full::Stack);
        }
        let caller = self.top();
        let sender = self.context_of(caller)?;
        self.call_on_page(caller, sender, new, pc, copies);
        Ok(())
    }

    /// Makes a frame the base frame of a free page: receiver and arguments leave its caller.
    fn call_on_page(&mut self, caller: FrameRef, sender: Oop, new: NewFrame, pc: Oop, copies: u32)
        requires good { IsGood self.old }
        requires ready { IsReady (stored_of self.old) (view_of self.old) }
        requires can { CanBegin (stored_of self.old) (view_of self.old) new pc copies }
        requires caller { caller ≡ frame_ref (active_number self.old) (top (active_page self.old)) }
        requires sender { (top (active_page self.old)).context ≡ sender.0 }
        requires married { sender.0 ≢ nil }
        requires free { length self.old.pages.recent < self.old.pages.total }
        ensures made { Takes self.old.pages self.new (λ page. begun_parts page sender.0 new pc.0 copies self.old) }
    {
        let Some(page) = self.pages.take_free() else {
            unreachable!();
        };
        let alone = NewFrame {
            args: 0,
            fill: 0,
            ..new
        };
        let frame = self.frames.build(page, alone);
        self.frames.set_sender(frame, sender);
        self.frames.set_saved_pc(frame, pc);
        copy_arguments(&mut self.frames, caller, frame, new.args);
        push_nils(&mut self.frames, frame, new.fill);
        push_copied(&mut self.frames, frame, &self.heap, new.closure, copies);
        drop_values(&mut self.frames, caller, new.args + 1);
        self.roots.next_birth += 1;
    }

    /// The active context dies, its sender is active, and the value is pushed there.
    pub(crate) fn leave(&mut self, v: Oop)
        requires good { IsGood self.old }
        requires ready { IsReady (stored_of self.old) (view_of self.old) }
        requires named { IsNamed (stored_of self.old) v }
        requires target { IsSomeAnd (sender_birth (view_of self.old) (active_birth (view_of self.old)))
            (CanArrive (view_of self.old)) }
        ensures good { IsGood self.new }
        ensures state { (m : Kept) → Keeps (view_of self.old) m → Keeps (view_of self.new)
            (leave_of m (name_of (stored_of self.old) v)) }
        ensures layout { IfSome (sender_birth (view_of self.old) (active_birth (view_of self.old)))
            (λ target. LaidBy (left target) (layout_of self.old) (layout_of self.new)) }
        ensures limit { self.new.heap.limit ≡ self.old.heap.limit }
        ensures contexts { MakesAtMost 0 (layout_of self.old) (stored_of self.old) (stored_of self.new) }
        ensures ready { IsReady (stored_of self.new) (view_of self.new) }
        ensures names { KeepsNames (stored_of self.old) (stored_of self.new) }
    {
        self.unwind();
        self.push(v);
    }

    /// The active context dies, and its sender is active.
    fn unwind(&mut self)
        requires good { IsGood self.old }
        requires ready { IsReady (stored_of self.old) (view_of self.old) }
        requires target { IsSomeAnd (sender_birth (view_of self.old) (active_birth (view_of self.old)))
            (CanArrive (view_of self.old)) }
        ensures limit { self.new.heap.limit ≡ self.old.heap.limit }
        ensures contexts { MakesAtMost 0 (layout_of self.old) (stored_of self.old) (stored_of self.new) }
        ensures unwound { IfSome (sender_birth (view_of self.old) (active_birth (view_of self.old)))
            (Unwound self.old self.new) }
    {
        let top = self.top();
        match self.frames.caller(top) {
            Some(_) => self.frames.drop_top(top.page),
            None => self.leave_page(top),
        }
    }

    /// The base frame of the first page dies, which was its last one, and the page is given back. Its sender is the
    /// last frame of the page behind it; where no other page is used it is a single context, which becomes the base
    /// frame of one.
    fn leave_page(&mut self, frame: FrameRef)
        requires good { IsGood self.old }
        requires ready { IsReady (stored_of self.old) (view_of self.old) }
        requires target { IsSomeAnd (sender_birth (view_of self.old) (active_birth (view_of self.old)))
            (CanArrive (view_of self.old)) }
        requires top { frame ≡ frame_ref (active_number self.old) (top (active_page self.old)) }
        requires base { IsBase self.old.frames frame }
        ensures limit { self.new.heap.limit ≡ self.old.heap.limit }
        ensures contexts { MakesAtMost 0 (layout_of self.old) (stored_of self.old) (stored_of self.new) }
        ensures unwound { IfSome (sender_birth (view_of self.old) (active_birth (view_of self.old)))
            (Unwound self.old self.new) }
    {
        let sender = self.frames.sender(frame);
        self.frames.drop_top(frame.page);
        self.pages.free(frame.page);
        if self.pages.used() == 0 {
            self.rebase(sender);
        }
    }

    /// Makes a live single context of the heap the base frame of a free page.
    pub(crate) fn rebase(&mut self, context: Oop)
        requires good { IsGood self.old }
        requires context { CanBase self.old.heap.objects context.0 }
        requires free { length self.old.pages.recent < self.old.pages.total }
        ensures made { Takes self.old.pages self.new (λ page. based_parts page context.0 self.old) }
    {
        let Some(page) = self.pages.take_free() else {
            unreachable!();
        };
        base(&mut self.heap, &mut self.frames, context, page);
    }
}

/// The pc at which a method is entered: behind the header and the literals of four bytes each, and behind a primitive
/// that failed.
fn entry_pc(header: MethodHeader, skip: bool) -> u32
    ensures { result ≡ entry_of header.0 skip }
{
    let first = 4 * (header.literals() + 1) + 1;
    if skip { first + PRIMITIVE_BYTES } else { first }
}
