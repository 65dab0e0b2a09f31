//! The instructions of the V3PlusClosures bytecodes, over any world.
//!
//! The pc has been moved past the instruction when it is done. Where it sends or returns, that is left to who asked for
//! it.
#![tactic(auto)]

ghost use Rattle.std.specs.Prelude.{◌≡◌, ◌<◌, false};
ghost use Rattle.cs_acts.specs.declared.act.Full.{Full};
ghost use Rattle.cs_acts.specs.Made.{MakesAtMost};
ghost use Rattle.cs_acts.specs.Ready.{IsReady};
ghost use Rattle.cs_code.specs.Built.{built_exec};
ghost use Rattle.cs_code.specs.declared.end.CodeEnd.TheVariants as ends;
ghost use Rattle.cs_code.specs.Gives.{Gives, Refuses, is_refused};

mod arithmetic;
mod closures;
mod contexts;
mod end;
mod jumps;
mod pushes;
mod returns;
mod sends;
mod stores;
mod variables;

use cs_acts::World;
use cs_model::{Instr, Op, Stop};
pub use end::CodeEnd;

/// Does one instruction. `Full` comes only for what it makes, or from a look at a context.
///
/// A birth must be left for what it makes.
#[tactic(auto, unfolding(crate::specs::Built::built_exec, cs_model::specs::Exec::exec))]
pub fn exec<W: World>(i: &Instr, w: &mut W) -> CodeEnd
    requires ready { IsReady (W.stored w.old) (W.view w.old) }
    requires births { (W.view w.old).rest.next < 4611686018427387904 }
    ensures gives { is_refused result ≡ false → Gives (W.stored w.old) (W.stored w.new) (W.layout w.old) (W.view w.new)
        result (built_exec i.now.op (W.view w.old)) }
    ensures full { (why : Full) → result ≡ ends.Full why → Refuses (W.stored w.new) (W.layout w.old) (W.view w.old)
        (built_exec i.now.op (W.view w.old)) why }
    ensures layout { is_refused result ≡ false → W.layout w.new ≡ W.layout w.old }
    ensures limit { (W.stored w.new).memory.limit ≡ (W.stored w.old).memory.limit }
    ensures contexts { is_refused result ≡ false → MakesAtMost (built_exec i.now.op (W.view w.old)).count.looks
        (W.layout w.old) (W.stored w.old) (W.stored w.new) }
{
    match i.op {
        Op::PushRcvr(k) => variables::push_field(w, k),
        Op::PushTemp(k) => pushes::push_temporary(w, k),
        Op::PushLit(k) => pushes::push_literal(w, k),
        Op::PushLitVar(k) => variables::push_variable(w, k),
        Op::PopRcvr(k) => stores::pop_field(w, k),
        Op::PopTemp(k) => stores::pop_temporary(w, k),
        Op::PopLitVar(k) => stores::pop_variable(w, k),
        Op::StoreRcvr(k) => stores::keep_field(w, k),
        Op::StoreTemp(k) => stores::keep_temporary(w, k),
        Op::StoreLitVar(k) => stores::keep_variable(w, k),
        Op::PushSelf => pushes::push_receiver(w),
        Op::PushTrue => pushes::push_boolean(w, true),
        Op::PushFalse => pushes::push_boolean(w, false),
        Op::PushNil => pushes::push_nil(w),
        Op::PushInt(z) => pushes::push_small(w, z),
        Op::ReturnSelf => returns::return_receiver(w),
        Op::ReturnTrue => returns::return_boolean(w, true),
        Op::ReturnFalse => returns::return_boolean(w, false),
        Op::ReturnNil => returns::return_nil(w),
        Op::ReturnTop => returns::return_top(w),
        Op::BlockReturn => returns::return_to_sender(w),
        Op::Send { lit, args } => sends::send(w, lit, args),
        Op::SendSuper { lit, args } => sends::send_super(w, lit, args),
        Op::Pop => pushes::pop(w),
        Op::Dup => pushes::dup(w),
        Op::ThisContext => contexts::push_this(w),
        Op::Prim { .. } => CodeEnd::Done,
        Op::PushVec { k, j } => variables::push_vector(w, k, j),
        Op::StoreVec { k, j } => stores::keep_vector(w, k, j),
        Op::PopVec { k, j } => stores::pop_vector(w, k, j),
        Op::Closure { copied, args, size } => closures::make_closure(w, copied, args, size),
        Op::Jump(offset) => jumps::jump(w, i32::from(offset)),
        Op::JumpTrue(offset) => jumps::jump_if(w, true, offset),
        Op::JumpFalse(offset) => jumps::jump_if(w, false, offset),
        Op::Special(k) => arithmetic::special(w, k),
        Op::Common(k) => arithmetic::common(w, k),
        _ => CodeEnd::Stop(Stop::NotBuilt),
    }
}
