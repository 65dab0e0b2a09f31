//! How the primitives of this crate answer.
ghost use Rattle.std.specs.Prelude.{◌<◌, ◌≤◌, IfSome, Option};
ghost use Rattle.cs_model.specs.PrimAnswer.{answer, answer_if, argument};
ghost use Rattle.cs_model.specs.Read.{depth_of};
ghost use Rattle.cs_model.specs.Ref.{Ref};
ghost use Rattle.cs_acts.specs.Names.{IsNamed, Names, NamesOption, name_of};
ghost use Rattle.cs_acts.specs.Ready.{IsReady};
ghost use Rattle.cs_prim_ctx.specs.Answered.{PerformsInPlace};

use cs_acts::{PrimEnd, World, answer};
use cs_word::Oop;

/// Answers a value in the place of receiver and arguments.
pub(crate) fn answer<W: World>(w: &mut W, args: u32, value: Oop) -> PrimEnd
    requires ready { IsReady (W.stored w.old) (W.view w.old) }
    requires there { args < depth_of (W.view w.old) }
    requires named { IsNamed (W.stored w.old) value }
    ensures { PerformsInPlace (W.stored w.old) (W.stored w.new) (W.layout w.old) (W.layout w.new) (W.view w.old)
        (W.view w.new) result (answer (W.view w.old) args (name_of (W.stored w.old) value)) }
{
    answer::answer(w, args, value);
    PrimEnd::Answer
}

/// Answers a value in the place of receiver and arguments, and fails where there is none.
pub(crate) fn answer_if<W: World>(w: &mut W, args: u32, value: Option<Oop>) -> PrimEnd
    requires ready { IsReady (W.stored w.old) (W.view w.old) }
    requires there { args < depth_of (W.view w.old) }
    requires named { IfSome value (λ o. IsNamed (W.stored w.old) o) }
    ensures { (x : Option Ref) → NamesOption (W.stored w.old) value x → PerformsInPlace (W.stored w.old)
        (W.stored w.new) (W.layout w.old) (W.layout w.new) (W.view w.old) (W.view w.new) result
        (answer_if (W.view w.old) args x) }
{
    match value {
        Some(value) => answer(w, args, value),
        None => PrimEnd::Fail,
    }
}

/// Argument `i` of so many, counted from 0.
pub(crate) fn argument_at<W: World>(w: &W, args: u32, i: u32) -> Oop
    requires ready { IsReady (W.stored w.now) (W.view w.now) }
    requires there { args < depth_of (W.view w.now) }
    requires within { i < args }
    ensures { Names (W.stored w.now) result (argument (W.view w.now) args i) }
{
    w.stack_at(w.depth() - (args - i))
}
