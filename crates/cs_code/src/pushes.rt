//! Pushes of single values, and what is done to the top of the stack alone.
ghost use Rattle.std.specs.Prelude.{◌≡◌, nat_lt};
ghost use Rattle.cs_model.specs.Number.{boolean as boolean_of};
ghost use Rattle.cs_model.specs.Operation.{nil_of};
ghost use Rattle.cs_model.specs.Read.{depth_of, receiver_of, size_of};
ghost use Rattle.cs_model.specs.Ref.{Ref};
ghost use Rattle.cs_model.specs.Ref as ref;
ghost use Rattle.cs_model.specs.Exec.{push_out, push_temp_out, push_literal_out, pop_out, dup_out};
ghost use Rattle.cs_acts.specs.Made.{MakesAtMost};
ghost use Rattle.cs_acts.specs.Names.{IsNamed, name_of};
ghost use Rattle.cs_acts.specs.Ready.{IsReady};
ghost use Rattle.cs_code.specs.Gives.{Gives};

use crate::CodeEnd;
use cs_acts::World;
use cs_acts::arithmetic::small_word;
use cs_acts::read::{boolean, from_top, literal, nil, temporary};
use cs_model::Stop;
use cs_word::Oop;

/// Whether the active stack has room for a value.
pub fn has_room<W: World>(w: &W) -> bool
    requires { IsReady (W.stored w.now) (W.view w.now) }
    ensures { result ≡ nat_lt (depth_of (W.view w.now)) (size_of (W.view w.now)) }
{
    w.depth() < w.size()
}

/// Pushes a value, where there is room.
#[tactic(auto, unfolding(cs_model::specs::Exec::push_out))]
pub fn push<W: World>(w: &mut W, x: Oop) -> CodeEnd
    requires ready { IsReady (W.stored w.old) (W.view w.old) }
    requires named { IsNamed (W.stored w.old) x }
    ensures gives { Gives (W.stored w.old) (W.stored w.new) (W.layout w.old) (W.view w.new) result
        (push_out (W.view w.old) (name_of (W.stored w.old) x)) }
    ensures layout { W.layout w.new ≡ W.layout w.old }
    ensures limit { (W.stored w.new).memory.limit ≡ (W.stored w.old).memory.limit }
    ensures contexts { MakesAtMost 0 (W.layout w.old) (W.stored w.old) (W.stored w.new) }
{
    if has_room(w) {
        w.push(x);
        CodeEnd::Done
    } else {
        CodeEnd::Stop(Stop::StackOver)
    }
}

/// Pushes argument or temporary `i`.
#[tactic(auto, unfolding(cs_model::specs::Exec::push_temp_out))]
pub fn push_temporary<W: World>(w: &mut W, i: u8) -> CodeEnd
    requires { IsReady (W.stored w.old) (W.view w.old) }
    ensures gives { Gives (W.stored w.old) (W.stored w.new) (W.layout w.old) (W.view w.new) result
        (push_temp_out (W.view w.old) i) }
    ensures layout { W.layout w.new ≡ W.layout w.old }
    ensures limit { (W.stored w.new).memory.limit ≡ (W.stored w.old).memory.limit }
    ensures contexts { MakesAtMost 0 (W.layout w.old) (W.stored w.old) (W.stored w.new) }
{
    match temporary(w, u32::from(i)) {
        Some(x) => push(w, x),
        None => CodeEnd::Stop(Stop::BadField),
    }
}

/// Pushes literal `i`.
#[tactic(auto, unfolding(cs_model::specs::Exec::push_literal_out))]
pub fn push_literal<W: World>(w: &mut W, i: u8) -> CodeEnd
    requires { IsReady (W.stored w.old) (W.view w.old) }
    ensures gives { Gives (W.stored w.old) (W.stored w.new) (W.layout w.old) (W.view w.new) result
        (push_literal_out (W.view w.old) i) }
    ensures layout { W.layout w.new ≡ W.layout w.old }
    ensures limit { (W.stored w.new).memory.limit ≡ (W.stored w.old).memory.limit }
    ensures contexts { MakesAtMost 0 (W.layout w.old) (W.stored w.old) (W.stored w.new) }
{
    match literal(w, u32::from(i)) {
        Some(x) => push(w, x),
        None => CodeEnd::Stop(Stop::BadLiteral),
    }
}

/// Pushes the receiver.
pub fn push_receiver<W: World>(w: &mut W) -> CodeEnd
    requires { IsReady (W.stored w.old) (W.view w.old) }
    ensures gives { Gives (W.stored w.old) (W.stored w.new) (W.layout w.old) (W.view w.new) result
        (push_out (W.view w.old) (receiver_of (W.view w.old))) }
    ensures layout { W.layout w.new ≡ W.layout w.old }
    ensures limit { (W.stored w.new).memory.limit ≡ (W.stored w.old).memory.limit }
    ensures contexts { MakesAtMost 0 (W.layout w.old) (W.stored w.old) (W.stored w.new) }
{
    let x = w.receiver();
    push(w, x)
}

/// Pushes true or false.
pub fn push_boolean<W: World>(w: &mut W, truth: bool) -> CodeEnd
    requires { IsReady (W.stored w.old) (W.view w.old) }
    ensures gives { Gives (W.stored w.old) (W.stored w.new) (W.layout w.old) (W.view w.new) result
        (push_out (W.view w.old) (boolean_of (W.view w.old) truth)) }
    ensures layout { W.layout w.new ≡ W.layout w.old }
    ensures limit { (W.stored w.new).memory.limit ≡ (W.stored w.old).memory.limit }
    ensures contexts { MakesAtMost 0 (W.layout w.old) (W.stored w.old) (W.stored w.new) }
{
    let x = boolean(w, truth);
    push(w, x)
}

/// Pushes nil.
pub fn push_nil<W: World>(w: &mut W) -> CodeEnd
    requires { IsReady (W.stored w.old) (W.view w.old) }
    ensures gives { Gives (W.stored w.old) (W.stored w.new) (W.layout w.old) (W.view w.new) result
        (push_out (W.view w.old) (nil_of (W.view w.old))) }
    ensures layout { W.layout w.new ≡ W.layout w.old }
    ensures limit { (W.stored w.new).memory.limit ≡ (W.stored w.old).memory.limit }
    ensures contexts { MakesAtMost 0 (W.layout w.old) (W.stored w.old) (W.stored w.new) }
{
    let x = nil(w);
    push(w, x)
}

/// Pushes a SmallInteger.
pub fn push_small<W: World>(w: &mut W, z: i8) -> CodeEnd
    requires { IsReady (W.stored w.old) (W.view w.old) }
    ensures gives { Gives (W.stored w.old) (W.stored w.new) (W.layout w.old) (W.view w.new) result
        (push_out (W.view w.old) (ref.Small z)) }
    ensures layout { W.layout w.new ≡ W.layout w.old }
    ensures limit { (W.stored w.new).memory.limit ≡ (W.stored w.old).memory.limit }
    ensures contexts { MakesAtMost 0 (W.layout w.old) (W.stored w.old) (W.stored w.new) }
{
    let x = small_word(i32::from(z));
    push(w, x)
}

/// Drops the topmost value.
#[tactic(auto, unfolding(cs_model::specs::Exec::pop_out))]
pub fn pop<W: World>(w: &mut W) -> CodeEnd
    requires { IsReady (W.stored w.old) (W.view w.old) }
    ensures gives { Gives (W.stored w.old) (W.stored w.new) (W.layout w.old) (W.view w.new) result
        (pop_out (W.view w.old)) }
    ensures layout { W.layout w.new ≡ W.layout w.old }
    ensures limit { (W.stored w.new).memory.limit ≡ (W.stored w.old).memory.limit }
    ensures contexts { MakesAtMost 0 (W.layout w.old) (W.stored w.old) (W.stored w.new) }
{
    match from_top(w, 0) {
        Some(_) => {
            w.pop();
            CodeEnd::Done
        }
        None => CodeEnd::Stop(Stop::StackUnder),
    }
}

/// Pushes the topmost value once more.
#[tactic(auto, unfolding(cs_model::specs::Exec::dup_out))]
pub fn dup<W: World>(w: &mut W) -> CodeEnd
    requires { IsReady (W.stored w.old) (W.view w.old) }
    ensures gives { Gives (W.stored w.old) (W.stored w.new) (W.layout w.old) (W.view w.new) result
        (dup_out (W.view w.old)) }
    ensures layout { W.layout w.new ≡ W.layout w.old }
    ensures limit { (W.stored w.new).memory.limit ≡ (W.stored w.old).memory.limit }
    ensures contexts { MakesAtMost 0 (W.layout w.old) (W.stored w.old) (W.stored w.new) }
{
    match from_top(w, 0) {
        Some(x) => push(w, x),
        None => CodeEnd::Stop(Stop::StackUnder),
    }
}
