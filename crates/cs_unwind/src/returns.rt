//! Returns: to the sender of the active context, and past its home.
ghost use Rattle.std.specs.Prelude.{◌≡◌, ◌≤◌, ◌==◌, ◌||◌, ◌+◌, Bool, ℕ, false, IfSome, IsSome, nat_le, Option, Some};
ghost use Rattle.std.specs.Prelude.{true};
ghost use Rattle.cs_model.specs.Read.{active_birth, depth_of, size_of};
ghost use Rattle.cs_model.specs.Return.{cannot_return_out, local_out, nonlocal_out, unwind_out};
ghost use Rattle.cs_acts.specs.Names.{IsNamed, name_of};
ghost use Rattle.cs_acts.specs.Ready.{IsReady, IsSound};
ghost use Rattle.cs_unwind.specs.Returned.{Returns, arrival_of};
ghost use Rattle.cs_unwind.specs.Walked.{HasHome, IsUnmarked, ActStands};

use crate::BackEnd;
use crate::search::{HomeEnd, Way, active, home, is, sender, senders_to};
use cs_acts::{Act, World};
use cs_model::Stop;
use cs_word::Oop;

/// The special selector `cannotReturn:`, which has one argument.
const CANNOT_RETURN: u32 = 21;

/// The special selector `aboutToReturn:through:`, which has two arguments.
const ABOUT_TO_RETURN: u32 = 48;

/// Whether a value can arrive at a target.
#[derive(Clone, Copy, Debug, PartialEq, Eq)]
pub(crate) enum Arrival {
    /// The target isn't there, is dead, or dies.
    Never,
    /// The target has no room.
    NoRoom,
    /// It can.
    Free,
}

/// Returns a value to the sender of the active context.
pub(crate) fn to_sender<W: World>(w: &mut W, value: Oop) -> BackEnd
    requires ready { IsReady (W.stored w.old) (W.view w.old) }
    requires named { IsNamed (W.stored w.old) value }
    ensures { Returns (W.stored w.old) (W.stored w.new) (W.layout w.old) (W.layout w.new) (W.view w.old) (W.view w.new)
        true result (local_out (W.view w.old) (name_of (W.stored w.old) value)) }
{
    let active = active(w);
    let target = sender(w, active);
    let dies = is(w, target, active);
    match may_arrive(w, target, dies) {
        Arrival::Never => cannot_return(w, value),
        Arrival::NoRoom => BackEnd::Stop(Stop::StackOver),
        Arrival::Free => match w.leave(value) {
            Ok(()) => BackEnd::Done,
            Err(why) => BackEnd::Full(why),
        },
    }
}

/// Returns a value from the home of the active context to the sender of that.
pub(crate) fn from_home<W: World>(w: &mut W, value: Oop) -> BackEnd
    requires ready { IsReady (W.stored w.old) (W.view w.old) }
    requires named { IsNamed (W.stored w.old) value }
    ensures { Returns (W.stored w.old) (W.stored w.new) (W.layout w.old) (W.layout w.new) (W.view w.old) (W.view w.new)
        false result (nonlocal_out (W.view w.old) (name_of (W.stored w.old) value)) }
{
    match home(w) {
        HomeEnd::At(home) => past_marks(w, value, home),
        HomeEnd::Nowhere => cannot_return(w, value),
        HomeEnd::TooFar => BackEnd::Stop(Stop::ChainTooLong),
    }
}

/// Returns a value past a home, unless a mark strictly between the active context and the home is to be told first.
fn past_marks<W: World>(w: &mut W, value: Oop, home: Act) -> BackEnd
    requires ready { IsReady (W.stored w.old) (W.view w.old) }
    requires named { IsNamed (W.stored w.old) value }
    requires home { HasHome (W.act w.old) (W.view w.old) home }
    ensures { Returns (W.stored w.old) (W.stored w.new) (W.layout w.old) (W.layout w.new) (W.view w.old) (W.view w.new)
        false result (nonlocal_out (W.view w.old) (name_of (W.stored w.old) value)) }
{
    let target = sender(w, home);
    match senders_to(w, home, target) {
        Way::Met(passed) => match passed.mark {
            Some(mark) => about_to_return(w, value, mark),
            None => {
                let dies = dies(w, target, passed.target, home);
                past_home(w, value, home, target, dies)
            }
        },
        Way::Ended => cannot_return(w, value),
        Way::TooLong => BackEnd::Stop(Stop::ChainTooLong),
    }
}

/// Whether a target was passed on the way to a home, or is the active context or the home.
fn dies<W: World>(w: &W, target: Option<Act>, passed: bool, home: Act) -> bool
    requires ready { IsReady (W.stored w.now) (W.view w.now) }
    requires stands { IfSome target (λ t. IsSome (W.act w.now t)) }
    requires home { IsSome (W.act w.now home) }
    ensures { (i j : ℕ) → ActStands (W.act w.now) target (Some i) → W.act w.now home ≡ Some j → result ≡
        (passed || (i == active_birth (W.view w.now)) || (i == j)) }
{
    passed || is(w, target, active(w)) || is(w, target, home)
}

/// Returns a value past a home that is met, where no mark is before it.
fn past_home<W: World>(w: &mut W, value: Oop, home: Act, target: Option<Act>, dies: bool) -> BackEnd
    requires ready { IsReady (W.stored w.old) (W.view w.old) }
    requires named { IsNamed (W.stored w.old) value }
    requires free { IsUnmarked (W.act w.old) (W.view w.old) home target dies }
    ensures { Returns (W.stored w.old) (W.stored w.new) (W.layout w.old) (W.layout w.new) (W.view w.old) (W.view w.new)
        false result (nonlocal_out (W.view w.old) (name_of (W.stored w.old) value)) }
{
    match may_arrive(w, target, dies) {
        Arrival::Never => cannot_return(w, value),
        Arrival::NoRoom => BackEnd::Stop(Stop::StackOver),
        Arrival::Free => match w.cut_to(home, value) {
            Ok(()) => BackEnd::Done,
            Err(why) => BackEnd::Full(why),
        },
    }
}

/// Whether a value can arrive at a target, where it is told whether that dies.
fn may_arrive<W: World>(w: &W, target: Option<Act>, dies: bool) -> Arrival
    requires sound { IsSound (W.stored w.now) (W.view w.now) }
    requires stands { IfSome target (λ t. IsSome (W.act w.now t)) }
    ensures { (birth : Option ℕ) → ActStands (W.act w.now) target birth
        → result ≡ arrival_of (W.view w.now) dies birth }
{
    let Some(target) = target else {
        return Arrival::Never;
    };
    if dies || !w.act_live(target) {
        Arrival::Never
    } else if w.act_full(target) {
        Arrival::NoRoom
    } else {
        Arrival::Free
    }
}

/// Whether the active stack has room for `count` more values.
fn fits<W: World>(w: &W, count: u32) -> bool
    requires { IsReady (W.stored w.now) (W.view w.now) }
    ensures value { result ≡ nat_le (depth_of (W.view w.now) + count) (size_of (W.view w.now)) }
    ensures within { depth_of (W.view w.now) ≤ size_of (W.view w.now) }
{
    count <= w.size() - w.depth()
}

/// Tells the active context that it cannot return a value.
fn cannot_return<W: World>(w: &mut W, value: Oop) -> BackEnd
    requires ready { IsReady (W.stored w.old) (W.view w.old) }
    requires named { IsNamed (W.stored w.old) value }
    ensures { (local : Bool) → Returns (W.stored w.old) (W.stored w.new) (W.layout w.old) (W.layout w.new)
        (W.view w.old) (W.view w.new) local result (cannot_return_out (W.view w.old) (name_of (W.stored w.old) value)) }
{
    if !fits(w, 2) {
        return BackEnd::Stop(Stop::StackOver);
    }
    let context = match w.this_context() {
        Ok(context) => context,
        Err(why) => return BackEnd::Full(why),
    };
    w.push(context);
    w.push(value);
    BackEnd::Call {
        special: CANNOT_RETURN,
        args: 1,
    }
}

/// Tells the active context of a return past a mark.
fn about_to_return<W: World>(w: &mut W, value: Oop, mark: Act) -> BackEnd
    requires ready { IsReady (W.stored w.old) (W.view w.old) }
    requires named { IsNamed (W.stored w.old) value }
    requires stands { IsSome (W.act w.old mark) }
    ensures { (local : Bool) (birth : ℕ) → W.act w.old mark ≡ Some birth → Returns (W.stored w.old) (W.stored w.new)
        (W.layout w.old) (W.layout w.new) (W.view w.old) (W.view w.new) local result
        (unwind_out (W.view w.old) (name_of (W.stored w.old) value) birth) }
{
    if !fits(w, 3) {
        return BackEnd::Stop(Stop::StackOver);
    }
    let mark = match w.act_context(mark) {
        Ok(mark) => mark,
        Err(why) => return BackEnd::Full(why),
    };
    let active = match w.this_context() {
        Ok(active) => active,
        Err(why) => return BackEnd::Full(why),
    };
    w.push(active);
    w.push(value);
    w.push(mark);
    BackEnd::Call {
        special: ABOUT_TO_RETURN,
        args: 2,
    }
}
