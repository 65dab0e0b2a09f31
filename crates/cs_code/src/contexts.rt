//! What looks at contexts: the active one as an object, and the fields of one.
ghost use Rattle.std.specs.Prelude.{◌≡◌, true, false, IfSome, is_some, length};
ghost use Rattle.cs_model.specs.Context.{is_context_ref};
ghost use Rattle.cs_model.specs.Exec.{push_field, this_context_out};
ghost use Rattle.cs_model.specs.Return.{context_at};
ghost use Rattle.cs_model.specs.State.{object_of};
ghost use Rattle.cs_acts.specs.declared.act.Full.{Full};
ghost use Rattle.cs_acts.specs.Made.{MakesAtMost};
ghost use Rattle.cs_acts.specs.Names.{IsNamed, KeepsNames, name_of};
ghost use Rattle.cs_acts.specs.Ready.{IsReady};
ghost use Rattle.cs_acts.specs.Targets.{field_of};
ghost use Rattle.cs_code.specs.declared.end.CodeEnd.TheVariants as ends;
ghost use Rattle.cs_code.specs.Gives.{Gives, Refuses, is_refused};

use crate::CodeEnd;
use crate::pushes::has_room;
use cs_acts::World;
use cs_classes::slots::{FIRST_STACK, STACK_POINTER};
use cs_model::Stop;
use cs_word::Oop;

/// Pushes the active context, where there is room.
#[tactic(auto, unfolding(cs_model::specs::Exec::this_context_out))]
pub fn push_this<W: World>(w: &mut W) -> CodeEnd
    requires { IsReady (W.stored w.old) (W.view w.old) }
    ensures gives { is_refused result ≡ false → Gives (W.stored w.old) (W.stored w.new) (W.layout w.old) (W.view w.new)
        result (this_context_out (W.view w.old)) }
    ensures full { (why : Full) → result ≡ ends.Full why → Refuses (W.stored w.new) (W.layout w.old) (W.view w.old)
        (this_context_out (W.view w.old)) why }
    ensures layout { is_refused result ≡ false → W.layout w.new ≡ W.layout w.old }
    ensures limit { (W.stored w.new).memory.limit ≡ (W.stored w.old).memory.limit }
    ensures contexts { is_refused result ≡ false → MakesAtMost (this_context_out (W.view w.old)).count.looks
        (W.layout w.old) (W.stored w.old) (W.stored w.new) }
{
    if !has_room(w) {
        return CodeEnd::Stop(Stop::StackOver);
    }
    match w.this_context() {
        Ok(context) => {
            w.push(context);
            CodeEnd::Done
        }
        Err(why) => CodeEnd::Full(why),
    }
}

/// Pushes field `i` of a context, or its stack value `i` - 6, where it has one.
pub fn push_context_field<W: World>(w: &mut W, context: Oop, i: u32) -> CodeEnd
    requires ready { IsReady (W.stored w.old) (W.view w.old) }
    requires named { IsNamed (W.stored w.old) context }
    requires context { is_context_ref (W.view w.old) (name_of (W.stored w.old) context) ≡ true }
    ensures gives { is_refused result ≡ false → Gives (W.stored w.old) (W.stored w.new) (W.layout w.old) (W.view w.new)
        result (push_field (W.view w.old) i (object_of (W.view w.old) (name_of (W.stored w.old) context))) }
    ensures full { (why : Full) → result ≡ ends.Full why → Refuses (W.stored w.new) (W.layout w.old) (W.view w.old)
        (push_field (W.view w.old) i (object_of (W.view w.old) (name_of (W.stored w.old) context))) why }
    ensures layout { is_refused result ≡ false → W.layout w.new ≡ W.layout w.old }
    ensures limit { (W.stored w.new).memory.limit ≡ (W.stored w.old).memory.limit }
    ensures contexts { is_refused result ≡ false → MakesAtMost
        (push_field (W.view w.old) i (object_of (W.view w.old) (name_of (W.stored w.old) context))).count.looks
        (W.layout w.old) (W.stored w.old) (W.stored w.new) }
{
    if !has_field(w, context, i) {
        return CodeEnd::Stop(Stop::BadField);
    }
    if !has_room(w) {
        return CodeEnd::Stop(Stop::StackOver);
    }
    match w.context_get(context, i) {
        Ok(x) => {
            w.push(x);
            CodeEnd::Done
        }
        Err(why) => CodeEnd::Full(why),
    }
}

/// Whether a context has field `i`, or stack value `i` - 6.
fn has_field<W: World>(w: &mut W, context: Oop, i: u32) -> bool
    requires ready { IsReady (W.stored w.old) (W.view w.old) }
    requires named { IsNamed (W.stored w.old) context }
    requires context { is_context_ref (W.view w.old) (name_of (W.stored w.old) context) ≡ true }
    ensures value { result ≡ is_some (field_of (W.view w.old) (name_of (W.stored w.old) context) i) }
    ensures view { W.view w.new ≡ W.view w.old }
    ensures layout { W.layout w.new ≡ W.layout w.old }
    ensures limit { (W.stored w.new).memory.limit ≡ (W.stored w.old).memory.limit }
    ensures contexts { MakesAtMost 0 (W.layout w.old) (W.stored w.old) (W.stored w.new) }
    ensures ready { IsReady (W.stored w.new) (W.view w.new) }
    ensures names { KeepsNames (W.stored w.old) (W.stored w.new) }
{
    i < FIRST_STACK || i - FIRST_STACK < stack_depth(w, context)
}

/// How many values the stack of a context holds.
fn stack_depth<W: World>(w: &mut W, context: Oop) -> u32
    requires ready { IsReady (W.stored w.old) (W.view w.old) }
    requires named { IsNamed (W.stored w.old) context }
    requires context { is_context_ref (W.view w.old) (name_of (W.stored w.old) context) ≡ true }
    ensures value { IfSome (context_at (W.view w.old) (name_of (W.stored w.old) context))
        (λ c. result ≡ length c.stack) }
    ensures view { W.view w.new ≡ W.view w.old }
    ensures layout { W.layout w.new ≡ W.layout w.old }
    ensures limit { (W.stored w.new).memory.limit ≡ (W.stored w.old).memory.limit }
    ensures contexts { MakesAtMost 0 (W.layout w.old) (W.stored w.old) (W.stored w.new) }
    ensures ready { IsReady (W.stored w.new) (W.view w.new) }
    ensures names { KeepsNames (W.stored w.old) (W.stored w.new) }
{
    let Ok(stackp) = w.context_get(context, STACK_POINTER) else {
        unreachable!();
    };
    let Some(depth) = stackp.natural() else {
        unreachable!();
    };
    depth
}
