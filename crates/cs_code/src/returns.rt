//! Returns, which are left to who asked for the instruction.
ghost use Rattle.std.specs.Prelude.{◌≡◌, true};
ghost use Rattle.cs_model.specs.Number.{boolean as boolean_of};
ghost use Rattle.cs_model.specs.Operation.{nil_of, pop_of};
ghost use Rattle.cs_model.specs.Read.{receiver_of};
ghost use Rattle.cs_model.specs.Exec.{is_local, return_out, with_top};
ghost use Rattle.cs_acts.specs.Made.{MakesAtMost};
ghost use Rattle.cs_acts.specs.Ready.{IsReady};
ghost use Rattle.cs_code.specs.Gives.{Gives};

use crate::CodeEnd;
use cs_acts::World;
use cs_acts::read::{boolean, from_top, nil, same};
use cs_model::Stop;

/// Whether a return from here is to the sender: exactly where the active context has no closure.
fn is_local<W: World>(w: &W) -> bool
    requires { IsReady (W.stored w.now) (W.view w.now) }
    ensures { result ≡ is_local (W.view w.now) }
{
    same(w, w.act_closure(w.active()), nil(w))
}

/// Returns the receiver.
pub fn return_receiver<W: World>(w: &W) -> CodeEnd
    requires { IsReady (W.stored w.now) (W.view w.now) }
    ensures { Gives (W.stored w.now) (W.stored w.now) (W.layout w.now) (W.view w.now) result
        (return_out (W.view w.now) (receiver_of (W.view w.now)) (is_local (W.view w.now))) }
{
    CodeEnd::Return {
        value: w.receiver(),
        local: is_local(w),
    }
}

/// Returns true or false.
pub fn return_boolean<W: World>(w: &W, truth: bool) -> CodeEnd
    requires { IsReady (W.stored w.now) (W.view w.now) }
    ensures { Gives (W.stored w.now) (W.stored w.now) (W.layout w.now) (W.view w.now) result
        (return_out (W.view w.now) (boolean_of (W.view w.now) truth) (is_local (W.view w.now))) }
{
    CodeEnd::Return {
        value: boolean(w, truth),
        local: is_local(w),
    }
}

/// Returns nil.
pub fn return_nil<W: World>(w: &W) -> CodeEnd
    requires { IsReady (W.stored w.now) (W.view w.now) }
    ensures { Gives (W.stored w.now) (W.stored w.now) (W.layout w.now) (W.view w.now) result
        (return_out (W.view w.now) (nil_of (W.view w.now)) (is_local (W.view w.now))) }
{
    CodeEnd::Return {
        value: nil(w),
        local: is_local(w),
    }
}

/// Pops a value and returns it; from a block, to the sender of its home.
pub fn return_top<W: World>(w: &mut W) -> CodeEnd
    requires { IsReady (W.stored w.old) (W.view w.old) }
    ensures gives { Gives (W.stored w.old) (W.stored w.new) (W.layout w.old) (W.view w.new) result
        (with_top (W.view w.old) (λ x. return_out (pop_of (W.view w.old)) x (is_local (W.view w.old)))) }
    ensures layout { W.layout w.new ≡ W.layout w.old }
    ensures limit { (W.stored w.new).memory.limit ≡ (W.stored w.old).memory.limit }
    ensures contexts { MakesAtMost 0 (W.layout w.old) (W.stored w.old) (W.stored w.new) }
{
    let local = is_local(w);
    pop_and_return(w, local)
}

/// Pops a value and returns it to the sender.
pub fn return_to_sender<W: World>(w: &mut W) -> CodeEnd
    requires { IsReady (W.stored w.old) (W.view w.old) }
    ensures gives { Gives (W.stored w.old) (W.stored w.new) (W.layout w.old) (W.view w.new) result
        (with_top (W.view w.old) (λ x. return_out (pop_of (W.view w.old)) x true)) }
    ensures layout { W.layout w.new ≡ W.layout w.old }
    ensures limit { (W.stored w.new).memory.limit ≡ (W.stored w.old).memory.limit }
    ensures contexts { MakesAtMost 0 (W.layout w.old) (W.stored w.old) (W.stored w.new) }
{
    pop_and_return(w, true)
}

/// Pops a value and returns it.
fn pop_and_return<W: World>(w: &mut W, local: bool) -> CodeEnd
    requires { IsReady (W.stored w.old) (W.view w.old) }
    ensures gives { Gives (W.stored w.old) (W.stored w.new) (W.layout w.old) (W.view w.new) result
        (with_top (W.view w.old) (λ x. return_out (pop_of (W.view w.old)) x local)) }
    ensures layout { W.layout w.new ≡ W.layout w.old }
    ensures limit { (W.stored w.new).memory.limit ≡ (W.stored w.old).memory.limit }
    ensures contexts { MakesAtMost 0 (W.layout w.old) (W.stored w.old) (W.stored w.new) }
{
    match from_top(w, 0) {
        Some(value) => {
            w.pop();
            CodeEnd::Return { value, local }
        }
        None => CodeEnd::Stop(Stop::StackUnder),
    }
}
