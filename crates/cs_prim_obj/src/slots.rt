//! The named and indexed slots of pointer objects together, counted from 1. Those of a context are its fields, and
//! behind them the values of its stack.
ghost use Rattle.std.specs.Prelude.{◌<◌, ◌≡◌, false};
ghost use Rattle.cs_model.specs.Context.{is_context_ref};
ghost use Rattle.cs_model.specs.PrimAnswer.{receiver};
ghost use Rattle.cs_model.specs.PrimObject.{read_slot, slot_at_prim, slot_at_put_prim};
ghost use Rattle.cs_model.specs.Read.{depth_of};
ghost use Rattle.cs_model.specs.State.{object_of};
ghost use Rattle.cs_acts.specs.Ready.{IsReady};
ghost use Rattle.cs_prim_ctx.specs.Answered.{PerformsInPlace};

use crate::answering::{answer_if, argument_at};
use cs_acts::answer::{argument, receiver};
use cs_acts::read::{is_context, slot_if_any};
use cs_acts::{PrimEnd, StoreTarget, World, answer, store_target};
use cs_prim_ctx::{answer_field, slot_index};

/// Primitive 73: a slot of the receiver.
pub(crate) fn slot_at<W: World>(w: &mut W) -> PrimEnd
    requires ready { IsReady (W.stored w.old) (W.view w.old) }
    requires there { 1 < depth_of (W.view w.old) }
    ensures { PerformsInPlace (W.stored w.old) (W.stored w.new) (W.layout w.old) (W.layout w.new) (W.view w.old)
        (W.view w.new) result (slot_at_prim (W.view w.old) 1) }
{
    match slot_index(argument(w)) {
        Some(i) => answer_slot(w, 1, i),
        None => PrimEnd::Fail,
    }
}

/// Answers slot `i` of the receiver, counted from 0. It fails where the receiver has no such slot.
pub(crate) fn answer_slot<W: World>(w: &mut W, args: u32, i: u32) -> PrimEnd
    requires ready { IsReady (W.stored w.old) (W.view w.old) }
    requires there { args < depth_of (W.view w.old) }
    ensures { PerformsInPlace (W.stored w.old) (W.stored w.new) (W.layout w.old) (W.layout w.new) (W.view w.old)
        (W.view w.new) result (read_slot (W.view w.old) args i
        (object_of (W.view w.old) (receiver (W.view w.old) args))) }
{
    let receiver = receiver(w, args);
    if is_context(w, receiver) {
        answer_field(w, args, receiver, i)
    } else {
        let slot = slot_if_any(w, receiver, i);
        answer_if(w, args, slot)
    }
}

/// Primitive 74: writes a slot of the receiver, which is no context, and answers the value.
pub(crate) fn slot_at_put<W: World>(w: &mut W) -> PrimEnd
    requires ready { IsReady (W.stored w.old) (W.view w.old) }
    requires there { 2 < depth_of (W.view w.old) }
    requires other { is_context_ref (W.view w.old) (receiver (W.view w.old) 2) ≡ false }
    ensures { PerformsInPlace (W.stored w.old) (W.stored w.new) (W.layout w.old) (W.layout w.new) (W.view w.old)
        (W.view w.new) result (slot_at_put_prim (W.view w.old) 2) }
{
    let receiver = receiver(w, 2);
    let Some(i) = slot_index(argument_at(w, 2, 0)) else {
        return PrimEnd::Fail;
    };
    match store_target(w, receiver, i) {
        StoreTarget::Writable => {
            let value = argument_at(w, 2, 1);
            w.store(receiver, i, value);
            answer::answer(w, 2, value);
            PrimEnd::Answer
        }
        StoreTarget::Missing | StoreTarget::ReadOnly => PrimEnd::Fail,
    }
}
