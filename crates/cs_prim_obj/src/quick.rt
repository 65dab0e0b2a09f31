//! The quick primitives, which stand for whole methods: they answer the receiver, a constant, or a field of the
//! receiver.
ghost use Rattle.std.specs.Prelude.{◌<◌, ◌≤◌};
ghost use Rattle.cs_model.specs.PrimObject.{quick_prim};
ghost use Rattle.cs_model.specs.Read.{depth_of};
ghost use Rattle.cs_acts.specs.Names.{Names};
ghost use Rattle.cs_acts.specs.Ready.{IsReady};
ghost use Rattle.cs_prim_ctx.specs.Answered.{PerformsInPlace};
ghost use Rattle.cs_prim_obj.specs.Quick.{quick_value};

use crate::answering::answer;
use crate::slots::answer_slot;
use cs_acts::answer::receiver;
use cs_acts::arithmetic::small_word;
use cs_acts::read::{boolean, nil};
use cs_acts::{PrimEnd, World};
use cs_word::Oop;

/// The primitive that answers the first field.
const FIRST_FIELD: u32 = 264;

/// Primitives 256 to 519, with any number of arguments.
pub(crate) fn quick<W: World>(w: &mut W, number: u32, args: u32) -> PrimEnd
    requires ready { IsReady (W.stored w.old) (W.view w.old) }
    requires there { args < depth_of (W.view w.old) }
    requires first { 256 ≤ number }
    ensures { PerformsInPlace (W.stored w.old) (W.stored w.new) (W.layout w.old) (W.layout w.new) (W.view w.old)
        (W.view w.new) result (quick_prim (W.view w.old) number args) }
{
    if number < FIRST_FIELD {
        let value = quick_value(w, number, args);
        answer(w, args, value)
    } else {
        answer_slot(w, args, number - FIRST_FIELD)
    }
}

/// What 256 to 263 answer: the receiver, true, false, nil, -1, 0, 1, 2.
fn quick_value<W: World>(w: &W, number: u32, args: u32) -> Oop
    requires ready { IsReady (W.stored w.now) (W.view w.now) }
    requires there { args < depth_of (W.view w.now) }
    requires first { 256 ≤ number }
    requires last { number < 264 }
    ensures { Names (W.stored w.now) result (quick_value (W.view w.now) number args) }
{
    match number {
        256 => receiver(w, args),
        257 => boolean(w, true),
        258 => boolean(w, false),
        259 => nil(w),
        260 => small_word(-1),
        261 => small_word(0),
        262 => small_word(1),
        _ => small_word(2),
    }
}
