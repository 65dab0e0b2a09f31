//! Literal variables, receiver fields and vectors.
ghost use Rattle.std.specs.Prelude.{◌≡◌, false, Some};
ghost use Rattle.cs_model.specs.Exec.{push_variable_out, variable_value, push_vector_out, push_receiver_out};
ghost use Rattle.cs_model.specs.Exec.{vector_slot};
ghost use Rattle.cs_acts.specs.Made.{MakesAtMost};
ghost use Rattle.cs_acts.specs.Names.{IsNamed, NamesOption, name_of};
ghost use Rattle.cs_acts.specs.Ready.{IsReady};
ghost use Rattle.cs_acts.specs.declared.act.Full.{Full};
ghost use Rattle.cs_code.specs.declared.end.CodeEnd.TheVariants as ends;
ghost use Rattle.cs_code.specs.Gives.{Gives, Refuses, is_refused};

use crate::CodeEnd;
use crate::contexts::push_context_field;
use crate::pushes::push;
use cs_acts::World;
use cs_acts::read::{from_top, is_context, literal, slot, slot_if_any, temporary};
use cs_classes::slots::{ASSOCIATION_SLOTS, VALUE};
use cs_model::Stop;
use cs_word::Oop;

/// The value of literal variable `i`: slot 1 of a literal that is a pointer object with two slots.
#[tactic(auto, unfolding(cs_model::specs::Exec::variable_at))]
pub fn variable_value<W: World>(w: &W, i: u32) -> Option<Oop>
    requires { IsReady (W.stored w.now) (W.view w.now) }
    ensures { NamesOption (W.stored w.now) result (variable_value (W.view w.now) i) }
{
    match literal(w, i) {
        Some(variable) => slot(w, variable, ASSOCIATION_SLOTS, VALUE),
        None => None,
    }
}

/// Slot `k` of the vector that is stack value `j`.
fn vector_slot<W: World>(w: &W, k: u8, j: u8) -> Option<Oop>
    requires { IsReady (W.stored w.now) (W.view w.now) }
    ensures { NamesOption (W.stored w.now) result (vector_slot (W.view w.now) k j) }
{
    match temporary(w, u32::from(j)) {
        Some(vector) => slot_if_any(w, vector, u32::from(k)),
        None => None,
    }
}

/// Pushes the value of literal variable `i`.
#[tactic(auto, unfolding(cs_model::specs::Exec::push_variable_out))]
pub fn push_variable<W: World>(w: &mut W, i: u8) -> CodeEnd
    requires { IsReady (W.stored w.old) (W.view w.old) }
    ensures gives { Gives (W.stored w.old) (W.stored w.new) (W.layout w.old) (W.view w.new) result
        (push_variable_out (W.view w.old) i) }
    ensures layout { W.layout w.new ≡ W.layout w.old }
    ensures limit { (W.stored w.new).memory.limit ≡ (W.stored w.old).memory.limit }
    ensures contexts { MakesAtMost 0 (W.layout w.old) (W.stored w.old) (W.stored w.new) }
{
    match variable_value(w, u32::from(i)) {
        Some(x) => push(w, x),
        None => CodeEnd::Stop(Stop::BadLiteral),
    }
}

/// Pushes slot `k` of the vector that is stack value `j`.
#[tactic(auto, unfolding(cs_model::specs::Exec::push_vector_out))]
pub fn push_vector<W: World>(w: &mut W, k: u8, j: u8) -> CodeEnd
    requires { IsReady (W.stored w.old) (W.view w.old) }
    ensures gives { Gives (W.stored w.old) (W.stored w.new) (W.layout w.old) (W.view w.new) result
        (push_vector_out (W.view w.old) k j) }
    ensures layout { W.layout w.new ≡ W.layout w.old }
    ensures limit { (W.stored w.new).memory.limit ≡ (W.stored w.old).memory.limit }
    ensures contexts { MakesAtMost 0 (W.layout w.old) (W.stored w.old) (W.stored w.new) }
{
    match vector_slot(w, k, j) {
        Some(x) => push(w, x),
        None => CodeEnd::Stop(Stop::BadField),
    }
}

/// Pushes field `i` of the receiver: a slot of a pointer object, or a field of a context.
#[tactic(auto, unfolding(cs_model::specs::Exec::push_receiver_out))]
pub fn push_field<W: World>(w: &mut W, i: u8) -> CodeEnd
    requires { IsReady (W.stored w.old) (W.view w.old) }
    ensures gives { is_refused result ≡ false → Gives (W.stored w.old) (W.stored w.new) (W.layout w.old) (W.view w.new)
        result (push_receiver_out (W.view w.old) i) }
    ensures full { (why : Full) → result ≡ ends.Full why → Refuses (W.stored w.new) (W.layout w.old) (W.view w.old)
        (push_receiver_out (W.view w.old) i) why }
    ensures layout { is_refused result ≡ false → W.layout w.new ≡ W.layout w.old }
    ensures limit { (W.stored w.new).memory.limit ≡ (W.stored w.old).memory.limit }
    ensures contexts { is_refused result ≡ false → MakesAtMost (push_receiver_out (W.view w.old) i).count.looks
        (W.layout w.old) (W.stored w.old) (W.stored w.new) }
{
    let receiver = w.receiver();
    if is_context(w, receiver) {
        return push_context_field(w, receiver, u32::from(i));
    }
    match slot_if_any(w, receiver, u32::from(i)) {
        Some(x) => push(w, x),
        None => CodeEnd::Stop(Stop::BadField),
    }
}
