//! Jumps.
ghost use Rattle.std.specs.Prelude.{◌≡◌, IfSome, true};
ghost use Rattle.cs_model.specs.Exec.{jump_if_out, jump_out, pc_after};
ghost use Rattle.cs_model.specs.Obj.{lies_in};
ghost use Rattle.cs_model.specs.Read.{method_of};
ghost use Rattle.cs_acts.specs.Made.{MakesAtMost};
ghost use Rattle.cs_acts.specs.Ready.{IsReady};
ghost use Rattle.cs_code.specs.Gives.{Gives};

use crate::CodeEnd;
use crate::sends::send_special;
use cs_acts::World;
use cs_acts::read::{boolean, from_top, lies, same};
use cs_model::Stop;

/// The special object that is sent to a condition that is neither true nor false.
const MUST_BE_BOOLEAN: u32 = 25;

/// Moves the pc so far, where it stays in the method.
#[tactic(auto, unfolding(cs_model::specs::Exec::jump_out))]
pub fn jump<W: World>(w: &mut W, offset: i32) -> CodeEnd
    requires { IsReady (W.stored w.old) (W.view w.old) }
    ensures gives { Gives (W.stored w.old) (W.stored w.new) (W.layout w.old) (W.view w.new) result
        (jump_out (W.view w.old) offset) }
    ensures layout { W.layout w.new ≡ W.layout w.old }
    ensures limit { (W.stored w.new).memory.limit ≡ (W.stored w.old).memory.limit }
    ensures contexts { MakesAtMost 0 (W.layout w.old) (W.stored w.old) (W.stored w.new) }
{
    match pc_after(w, offset) {
        Some(pc) => {
            w.set_pc(pc);
            CodeEnd::Done
        }
        None => CodeEnd::Stop(Stop::BadCode),
    }
}

/// The pc so far from the active one; None exactly where it doesn't lie in the active method.
#[tactic(auto, unfolding(cs_model::specs::Exec::pc_after))]
pub fn pc_after<W: World>(w: &W, offset: i32) -> Option<u32>
    requires { IsReady (W.stored w.now) (W.view w.now) }
    ensures value { result ≡ pc_after (W.view w.now) offset }
    ensures lies { IfSome result (λ pc. lies_in (method_of (W.view w.now)) pc ≡ true) }
{
    let pc = i64::from(w.pc()) + i64::from(offset);
    if pc < 0 {
        return None;
    }
    if lies(w, pc as u64) {
        Some(pc as u32)
    } else {
        None
    }
}

/// Pops a condition and jumps if it is the wanted one. A value that is neither true nor false stays, as the receiver of
/// `mustBeBoolean`.
#[tactic(auto, unfolding(cs_model::specs::Exec::jump_if_out))]
pub fn jump_if<W: World>(w: &mut W, wanted: bool, offset: u16) -> CodeEnd
    requires { IsReady (W.stored w.old) (W.view w.old) }
    ensures gives { Gives (W.stored w.old) (W.stored w.new) (W.layout w.old) (W.view w.new) result
        (jump_if_out (W.view w.old) wanted offset) }
    ensures layout { W.layout w.new ≡ W.layout w.old }
    ensures limit { (W.stored w.new).memory.limit ≡ (W.stored w.old).memory.limit }
    ensures contexts { MakesAtMost 0 (W.layout w.old) (W.stored w.old) (W.stored w.new) }
{
    let Some(condition) = from_top(w, 0) else {
        return CodeEnd::Stop(Stop::StackUnder);
    };
    if same(w, condition, boolean(w, wanted)) {
        w.pop();
        return jump(w, i32::from(offset));
    }
    if same(w, condition, boolean(w, !wanted)) {
        w.pop();
        return CodeEnd::Done;
    }
    send_special(w, MUST_BE_BOOLEAN, 0)
}
