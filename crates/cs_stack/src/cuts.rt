//! How a return goes past a home: all contexts on the way die.
ghost use Rattle.std.specs.Prelude.{◌≡◌, ◌<◌, [], IfSome, IsSome, IsSomeAnd};
ghost use Rattle.cs_heap.specs.Object.{slot_count_of};
ghost use Rattle.cs_heap.specs.Writes.{slots_stored};
ghost use Rattle.cs_marriage.specs.Marriage.{buried};
ghost use Rattle.cs_model.specs.Keeps.{Keeps};
ghost use Rattle.cs_model.specs.Operation.{cut_to_of};
ghost use Rattle.cs_model.specs.Read.{active_birth};
ghost use Rattle.cs_model.specs.Return.{sender_birth};
ghost use Rattle.cs_model.specs.State.{Kept};
ghost use Rattle.cs_acts.specs.declared.act.Act.{Act};
ghost use Rattle.cs_acts.specs.Layout.{LaidBy, cut};
ghost use Rattle.cs_acts.specs.Made.{MakesAtMost};
ghost use Rattle.cs_acts.specs.Names.{IsNamed, KeepsNames, name_of};
ghost use Rattle.cs_acts.specs.Ready.{IsReady};
ghost use Rattle.cs_acts.specs.Targets.{CanCut, dying_to};
ghost use Rattle.cs_stack.specs.Cuts.{Arrives, CutPast, Fades, LeadsDownTo, Stepped, Steps};
ghost use Rattle.cs_stack.specs.Good.{IsGood};
ghost use Rattle.cs_stack.specs.View.{act_of, layout_of, stored_of, view_of};

use crate::parts::{NIL, Parts};
use cs_acts::Act;
use cs_classes::slots::{PC, SENDER, STACK_POINTER};
use cs_heap::Heap;
use cs_word::Oop;

/// How many contexts are looked at: the active one, the 1,048,576 that a search of senders follows, and the sender of
/// the last.
const WAY_LIMIT: u32 = 1_048_578;

impl Parts {
    /// All contexts from the active one along the senders to the home die, the home's sender is active, and the value
    /// is pushed there.
    pub(crate) fn cut_to(&mut self, home: Act, v: Oop)
        requires good { IsGood self.old }
        requires ready { IsReady (stored_of self.old) (view_of self.old) }
        requires named { IsNamed (stored_of self.old) v }
        requires target { IsSomeAnd (act_of self.old home) (λ birth. IsSomeAnd (sender_birth (view_of self.old) birth)
            (CanCut (view_of self.old) birth)) }
        ensures good { IsGood self.new }
        ensures state { IfSome (act_of self.old home) (λ birth. IfSome (sender_birth (view_of self.old) birth)
            (λ target. (m : Kept) → Keeps (view_of self.old) m
            → Keeps (view_of self.new) (cut_to_of m (dying_to (view_of self.old) birth) target
            (name_of (stored_of self.old) v)))) }
        ensures layout { IfSome (act_of self.old home) (λ birth. IfSome (sender_birth (view_of self.old) birth)
            (λ target. LaidBy (cut (dying_to (view_of self.old) birth) target) (layout_of self.old)
            (layout_of self.new))) }
        ensures limit { self.new.heap.limit ≡ self.old.heap.limit }
        ensures contexts { MakesAtMost 0 (layout_of self.old) (stored_of self.old) (stored_of self.new) }
        ensures ready { IsReady (stored_of self.new) (view_of self.new) }
        ensures names { KeepsNames (stored_of self.old) (stored_of self.new) }
    {
        self.cut_past(home);
        self.push(v);
    }

    /// All contexts from the active one along the senders to the home die, and the home's sender is active.
    fn cut_past(&mut self, home: Act)
        requires good { IsGood self.old }
        requires ready { IsReady (stored_of self.old) (view_of self.old) }
        requires target { IsSomeAnd (act_of self.old home) (λ birth. IsSomeAnd (sender_birth (view_of self.old) birth)
            (CanCut (view_of self.old) birth)) }
        ensures limit { self.new.heap.limit ≡ self.old.heap.limit }
        ensures contexts { MakesAtMost 0 (layout_of self.old) (stored_of self.old) (stored_of self.new) }
        ensures past { IfSome (act_of self.old home) (λ birth. IfSome (sender_birth (view_of self.old) birth)
            (CutPast self.old self.new (dying_to (view_of self.old) birth))) }
    {
        let target = self.sender_act(home);
        let birth = self.act_birth(target);
        if let Act::Context(context) = self.kill_to(birth) {
            self.rebase(context);
        }
    }

    /// All contexts from the active one along the senders die, up to the one of this birth. Tells what stands for that:
    /// the active frame, or where no frame is left a context of the heap.
    fn kill_to(&mut self, birth: u64) -> Act
        requires good { IsGood self.old }
        requires way { LeadsDownTo self.old birth }
        ensures arrives { (way : LeadsDownTo self.old birth) → Arrives self.old self.new way.dying birth result }
    {
        let mut at = self.active();
        for _ in 0..WAY_LIMIT {
            if self.act_birth(at) == birth {
                return at;
            }
            at = self.kill(at);
        }
        unreachable!()
    }

    /// A context dies that is the active frame, or one of the heap where no frame is left. Tells what stands for its
    /// sender.
    fn kill(&mut self, at: Act) -> Act
        requires good { IsGood self.old }
        requires steps { Steps self.old at }
        ensures stepped { (step : Steps self.old at) → Stepped self.old self.new step.i step.j result }
    {
        let sender = self.sender_act(at);
        match at {
            Act::Frame { .. } => self.drop_active(),
            Act::Context(context) => self.bury(context),
            Act::Gone => unreachable!(),
        }
        sender
    }

    /// The active frame is gone, and so is its page where it had no other one.
    fn drop_active(&mut self)
        requires good { IsGood self.old }
        requires ready { IsReady (stored_of self.old) (view_of self.old) }
        requires sender { IsSome (sender_birth (view_of self.old) (active_birth (view_of self.old))) }
        ensures fades { Fades self.old self.new (active_birth (view_of self.old)) }
    {
        let top = self.top();
        match self.frames.caller(top) {
            Some(_) => self.frames.drop_top(top.page),
            None => {
                self.frames.drop_top(top.page);
                self.pages.free(top.page);
            }
        }
    }

    /// A context of the heap is dead, where no frame is left.
    fn bury(&mut self, context: Oop)
        requires good { IsGood self.old }
        requires closed { self.old.pages.recent ≡ [] }
        requires stands { IsSome (act_of self.old (Act.Context context)) }
        ensures fades { IfSome (act_of self.old (Act.Context context)) (Fades self.old self.new) }
    {
        bury_words(&mut self.heap, context);
    }
}

/// Writes to a context what a dead one has: sender and pc are nil, and its stack is empty.
#[tactic(auto, using(cs_heap::proofs::Laws::heap_laws))]
fn bury_words(heap: &mut Heap, context: Oop)
    requires { 5 < slot_count_of heap.old.objects context.0 }
    ensures { heap.new ≡ slots_stored heap.old context.0 (buried heap.old.objects context.0) }
{
    heap.set_slot(context, SENDER, NIL);
    heap.set_slot(context, PC, NIL);
    heap.set_slot(context, STACK_POINTER, Oop::from_natural(0));
}
