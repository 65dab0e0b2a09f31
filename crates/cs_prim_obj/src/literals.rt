//! The header and the literals of methods, counted from 1: the header comes first.
ghost use Rattle.std.specs.Prelude.{◌<◌, ◌≡◌, ◌&&◌, is_some, nat_lt};
ghost use Rattle.cs_model.specs.PrimObject.{method_slot, object_at_prim, object_at_put_prim};
ghost use Rattle.cs_model.specs.Read.{depth_of};
ghost use Rattle.cs_model.specs.State.{object_of};
ghost use Rattle.cs_acts.specs.Names.{IsNamed, NamesOption, name_of};
ghost use Rattle.cs_acts.specs.Ready.{IsReady, IsSound};
ghost use Rattle.cs_prim_ctx.specs.Answered.{PerformsInPlace};
ghost use Rattle.cs_prim_obj.specs.Contents.{literals_held};

use crate::answering::{answer_if, argument_at};
use crate::contents::{Contents, held_by};
use cs_acts::answer::{argument, receiver};
use cs_acts::read::is_read_only;
use cs_acts::{PrimEnd, World, answer};
use cs_prim_ctx::slot_index;
use cs_word::Oop;

/// Primitive 68: the header of a method, or a literal.
pub(crate) fn object_at<W: World>(w: &mut W) -> PrimEnd
    requires ready { IsReady (W.stored w.old) (W.view w.old) }
    requires there { 1 < depth_of (W.view w.old) }
    ensures { PerformsInPlace (W.stored w.old) (W.stored w.new) (W.layout w.old) (W.layout w.new) (W.view w.old)
        (W.view w.new) result (object_at_prim (W.view w.old) 1) }
{
    match slot_index(argument(w)) {
        Some(i) => {
            let literal = method_slot(w, receiver(w, 1), i);
            answer_if(w, 1, literal)
        }
        None => PrimEnd::Fail,
    }
}

/// Primitive 69: writes a literal of a method, but not its header, and answers it.
pub(crate) fn object_at_put<W: World>(w: &mut W) -> PrimEnd
    requires ready { IsReady (W.stored w.old) (W.view w.old) }
    requires there { 2 < depth_of (W.view w.old) }
    ensures { PerformsInPlace (W.stored w.old) (W.stored w.new) (W.layout w.old) (W.layout w.new) (W.view w.old)
        (W.view w.new) result (object_at_put_prim (W.view w.old) 2) }
{
    let receiver = receiver(w, 2);
    if is_read_only(w, receiver) {
        return PrimEnd::Fail;
    }
    let Some(i) = slot_index(argument_at(w, 2, 0)) else {
        return PrimEnd::Fail;
    };
    if !has_literal(w, receiver, i) {
        return PrimEnd::Fail;
    }
    let value = argument_at(w, 2, 1);
    w.store(receiver, i, value);
    answer::answer(w, 2, value);
    PrimEnd::Answer
}

/// Whether a word names a method with a literal `i` - 1. Its header, slot 0, is none.
fn has_literal<W: World>(w: &W, o: Oop, i: u32) -> bool
    requires sound { IsSound (W.stored w.now) (W.view w.now) }
    requires named { IsNamed (W.stored w.now) o }
    ensures { result ≡ (nat_lt 0 i && is_some (method_slot (object_of (W.view w.now) (name_of (W.stored w.now) o)) i)) }
{
    match literals_held(held_by(w, o)) {
        Some(literals) => 0 < i && i <= literals,
        None => false,
    }
}

/// The header of a method, or its literal `i` - 1; None exactly where the word names none that has this literal.
fn method_slot<W: World>(w: &W, o: Oop, i: u32) -> Option<Oop>
    requires sound { IsSound (W.stored w.now) (W.view w.now) }
    requires named { IsNamed (W.stored w.now) o }
    ensures { NamesOption (W.stored w.now) result
        (method_slot (object_of (W.view w.now) (name_of (W.stored w.now) o)) i) }
{
    let Some(literals) = literals_held(held_by(w, o)) else {
        return None;
    };
    if i <= literals {
        Some(w.heap().slot(o, i))
    } else {
        None
    }
}

/// How many literals what holds this has; None exactly where it is no method.
fn literals_held(held: Contents) -> Option<u32>
    ensures { result ≡ literals_held held }
{
    match held {
        Contents::Code { literals, .. } => Some(literals),
        _ => None,
    }
}
