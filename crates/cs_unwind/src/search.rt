//! Searches along contexts: for the home of the active one along outer contexts, and for a home along the senders.
ghost use Rattle.std.specs.Prelude.{◌≡◌, ◌==◌, ◌∷◌, ◌++◌, ◌||◌, ℕ, IfSome, IsSome, List, [], Some, true};
ghost use Rattle.cs_model.specs.Obj.{is_context_at};
ghost use Rattle.cs_model.specs.Read.{active_birth};
ghost use Rattle.cs_model.specs.Return.{closure_at, first_marked, outer_birth, sender_birth, unwind_mark};
ghost use Rattle.cs_model.specs.State.{is_nil, object_at};
ghost use Rattle.cs_acts.specs.Names.{IsNamed, name_of};
ghost use Rattle.cs_acts.specs.Ready.{IsReady, IsSound};
ghost use Rattle.cs_unwind.specs.Walked.{FindsHome, FindsWay, Sees, ActStands};

use crate::marks::{UNWIND_MARK, is_marked};
use cs_acts::read::{is_context, nil, same, slot_if_any};
use cs_acts::{Act, World};
use cs_classes::slots::OUTER_CONTEXT;
use cs_word::Oop;

/// How many links a search follows: of homes, of senders and of marks.
pub(crate) const LINKS: u32 = 1_048_576;

/// Where a search for the home of the active context ends.
#[derive(Clone, Copy, Debug, PartialEq, Eq)]
pub(crate) enum HomeEnd {
    /// At the home.
    At(Act),
    /// Where the outer context of a closure isn't a context.
    Nowhere,
    /// Behind the last link that is followed.
    TooFar,
}

/// What is seen of the contexts that a walk passes.
#[derive(Clone, Copy, Debug, PartialEq, Eq)]
pub(crate) struct Passed {
    /// The first one that is marked.
    pub(crate) mark: Option<Act>,
    /// Whether the target is one of them.
    pub(crate) target: bool,
}

/// Where a walk from the active context's sender to a home ends.
#[derive(Clone, Copy, Debug, PartialEq, Eq)]
pub(crate) enum Way {
    /// At the home, behind these contexts.
    Met(Passed),
    /// Where there is no sender.
    Ended,
    /// Behind the last link that is followed.
    TooLong,
}

/// The active context.
pub(crate) fn active<W: World>(w: &W) -> Act
    requires { IsReady (W.stored w.now) (W.view w.now) }
    ensures { W.act w.now result ≡ Some (active_birth (W.view w.now)) }
{
    w.active()
}

/// The sender of a context, where that is one.
pub(crate) fn sender<W: World>(w: &W, a: Act) -> Option<Act>
    requires sound { IsSound (W.stored w.now) (W.view w.now) }
    requires stands { IsSome (W.act w.now a) }
    ensures { IfSome (W.act w.now a) (λ birth. ActStands (W.act w.now) result (sender_birth (W.view w.now) birth)) }
{
    match w.sender_act(a) {
        Act::Gone => None,
        sender => Some(sender),
    }
}

/// Whether `a`, where it is given, stands for the same context as `b`.
pub(crate) fn is<W: World>(w: &W, a: Option<Act>, b: Act) -> bool
    requires sound { IsSound (W.stored w.now) (W.view w.now) }
    requires left { IfSome a (λ x. IsSome (W.act w.now x)) }
    requires right { IsSome (W.act w.now b) }
    ensures { (i j : ℕ) → ActStands (W.act w.now) a (Some i) → W.act w.now b ≡ Some j → result ≡ (i == j) }
{
    match a {
        Some(a) => w.act_birth(a) == w.act_birth(b),
        None => false,
    }
}

/// The outer context of a closure, where that is a context.
fn outer<W: World>(w: &W, closure: Oop) -> Option<Act>
    requires sound { IsSound (W.stored w.now) (W.view w.now) }
    requires named { IsNamed (W.stored w.now) closure }
    ensures { ActStands (W.act w.now) result (outer_birth (W.view w.now) (name_of (W.stored w.now) closure)) }
{
    let context = slot_if_any(w, closure, OUTER_CONTEXT)?;
    if is_context(w, context) {
        Some(w.act_of(context))
    } else {
        None
    }
}

/// Whether a context has no closure.
fn is_home<W: World>(w: &W, a: Act) -> bool
    requires sound { IsSound (W.stored w.now) (W.view w.now) }
    requires stands { IsSome (W.act w.now a) }
    ensures { IfSome (W.act w.now a) (λ birth. result ≡ is_nil (W.view w.now) (closure_at (W.view w.now) birth)) }
{
    same(w, w.act_closure(a), nil(w))
}

/// The outer context of a context's closure, where there is one.
fn outer_of<W: World>(w: &W, a: Act) -> Option<Act>
    requires sound { IsSound (W.stored w.now) (W.view w.now) }
    requires stands { IsSome (W.act w.now a) }
    ensures { IfSome (W.act w.now a) (λ birth. ActStands (W.act w.now) result
        (outer_birth (W.view w.now) (closure_at (W.view w.now) birth))) }
{
    outer(w, w.act_closure(a))
}

/// The home of the active context: itself, where it has no closure, else the home of its closure's outer context.
pub(crate) fn home<W: World>(w: &W) -> HomeEnd
    requires { IsReady (W.stored w.now) (W.view w.now) }
    ensures { FindsHome (W.act w.now) (W.view w.now) result }
{
    let mut act = active(w);
    for _ in 0..LINKS {
        if is_home(w, act) {
            return HomeEnd::At(act);
        }
        let Some(outer) = outer_of(w, act) else {
            return HomeEnd::Nowhere;
        };
        act = outer;
    }
    if is_home(w, act) {
        HomeEnd::At(act)
    } else if outer_of(w, act).is_some() {
        HomeEnd::TooFar
    } else {
        HomeEnd::Nowhere
    }
}

/// The first marked context of those that a walk has passed, `mark`, and of `act`, which it passes now.
fn first_mark<W: World>(w: &W, mark: Option<Act>, act: Act) -> Option<Act>
    requires sound { IsSound (W.stored w.now) (W.view w.now) }
    requires stands { IsSome (W.act w.now act) }
    requires context { IfSome (W.act w.now act) (λ birth. is_context_at (object_at (W.view w.now) birth) ≡ true) }
    ensures { (births : List ℕ) (birth : ℕ) → W.act w.now act ≡ Some birth → ActStands (W.act w.now) mark
        (first_marked (W.view w.now) unwind_mark births) → ActStands (W.act w.now) result
        (first_marked (W.view w.now) unwind_mark (births ++ birth ∷ [])) }
{
    if mark.is_some() {
        mark
    } else if is_marked(w, act, UNWIND_MARK) {
        Some(act)
    } else {
        None
    }
}

/// Whether the target was passed before, or is `act`.
fn is_passed<W: World>(w: &W, passed: bool, act: Act, target: Option<Act>) -> bool
    requires sound { IsSound (W.stored w.now) (W.view w.now) }
    requires stands { IsSome (W.act w.now act) }
    requires target { IfSome target (λ t. IsSome (W.act w.now t)) }
    ensures { (i j : ℕ) → ActStands (W.act w.now) target (Some i) → W.act w.now act ≡ Some j → result ≡
        (passed || (i == j)) }
{
    passed || is(w, target, act)
}

/// Adds `act` to what a walk has passed.
fn pass<W: World>(w: &W, passed: Passed, act: Act, target: Option<Act>) -> Passed
    requires sound { IsSound (W.stored w.now) (W.view w.now) }
    requires stands { IsSome (W.act w.now act) }
    requires context { IfSome (W.act w.now act) (λ birth. is_context_at (object_at (W.view w.now) birth) ≡ true) }
    requires target { IfSome target (λ t. IsSome (W.act w.now t)) }
    ensures { (births : List ℕ) (birth : ℕ) → W.act w.now act ≡ Some birth → Sees (W.act w.now) (W.view w.now) target
        births passed → Sees (W.act w.now) (W.view w.now) target (births ++ birth ∷ []) result }
{
    Passed {
        mark: first_mark(w, passed.mark, act),
        target: is_passed(w, passed.target, act, target),
    }
}

/// Walks from the active context's sender along the senders until the home is met.
pub(crate) fn senders_to<W: World>(w: &W, home: Act, target: Option<Act>) -> Way
    requires ready { IsReady (W.stored w.now) (W.view w.now) }
    requires stands { IsSome (W.act w.now home) }
    requires target { IfSome target (λ t. IsSome (W.act w.now t)) }
    ensures { (goal : ℕ) → W.act w.now home ≡ Some goal → FindsWay (W.act w.now) (W.view w.now) goal target result }
{
    let goal = w.act_birth(home);
    let mut passed = Passed {
        mark: None,
        target: false,
    };
    let mut next = sender(w, active(w));
    for _ in 0..LINKS {
        let Some(act) = next else {
            return Way::Ended;
        };
        if w.act_birth(act) == goal {
            return Way::Met(passed);
        }
        passed = pass(w, passed, act, target);
        next = sender(w, act);
    }
    if next.is_some() {
        Way::TooLong
    } else {
        Way::Ended
    }
}
