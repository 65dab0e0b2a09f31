//! Stores into variables of every sort.
//!
//! A pop form takes the value first, and what is there is judged on the stack without it. A store form judges it on
//! the stack with the value. Nothing is stored into a read-only object: the value is off the stack then in both forms,
//! and the object is told of it.
ghost use Rattle.std.specs.Prelude.{◌≡◌, ◌<◌, true, false, [], ◌∷◌};
ghost use Rattle.cs_model.specs.declared.instruction.Op.{Op};
ghost use Rattle.cs_model.specs.Context.{is_context_ref};
ghost use Rattle.cs_model.specs.Exec.{push_all, refuse_store as refused_of, store_temp_out};
ghost use Rattle.cs_model.specs.Exec.{store_variable_out, store_vector_out, store_receiver_out, store_into, pop_into};
ghost use Rattle.cs_model.specs.Read.{depth_of, receiver_of};
ghost use Rattle.cs_acts.specs.Made.{MakesAtMost};
ghost use Rattle.cs_acts.specs.Names.{IsNamed, name_of};
ghost use Rattle.cs_acts.specs.Ready.{IsReady};
ghost use Rattle.cs_code.specs.Bare.{bare_of, store_or_stop};
ghost use Rattle.cs_code.specs.Built.{built_exec};
ghost use Rattle.cs_code.specs.Gives.{Gives};

use crate::CodeEnd;
use crate::pushes::push;
use crate::sends::send_special;
use cs_acts::arithmetic::small_word;
use cs_acts::read::{from_top, is_context, literal, temporary};
use cs_acts::{StoreTarget, World, store_target};
use cs_classes::slots::VALUE;
use cs_model::Stop;
use cs_word::Oop;

/// The special object that is the selector `attemptToAssign:withIndex:`.
const ATTEMPT_TO_ASSIGN: u32 = 50;

/// Pushes three values, the first one lowest, as far as there is room.
#[tactic(auto, unfolding(cs_model::specs::Exec::push_all))]
fn push_three<W: World>(w: &mut W, a: Oop, b: Oop, c: Oop) -> CodeEnd
    requires ready { IsReady (W.stored w.old) (W.view w.old) }
    requires first { IsNamed (W.stored w.old) a }
    requires second { IsNamed (W.stored w.old) b }
    requires third { IsNamed (W.stored w.old) c }
    ensures gives { Gives (W.stored w.old) (W.stored w.new) (W.layout w.old) (W.view w.new) result
        (push_all (name_of (W.stored w.old) a ∷ name_of (W.stored w.old) b ∷ name_of (W.stored w.old) c ∷ [])
        (W.view w.old)) }
    ensures layout { W.layout w.new ≡ W.layout w.old }
    ensures limit { (W.stored w.new).memory.limit ≡ (W.stored w.old).memory.limit }
    ensures contexts { MakesAtMost 0 (W.layout w.old) (W.stored w.old) (W.stored w.new) }
{
    match push(w, a) {
        CodeEnd::Done => {}
        end => return end,
    }
    match push(w, b) {
        CodeEnd::Done => push(w, c),
        end => end,
    }
}

/// Tells a read-only object of a store into its slot `i`, counted from 0: pushes the object, the value and the number
/// of the slot counted from 1, and sends `attemptToAssign:withIndex:`.
#[tactic(auto, unfolding(cs_model::specs::Exec::refuse_store))]
fn refuse_store<W: World>(w: &mut W, target: Oop, i: u8, x: Oop) -> CodeEnd
    requires ready { IsReady (W.stored w.old) (W.view w.old) }
    requires object { IsNamed (W.stored w.old) target }
    requires named { IsNamed (W.stored w.old) x }
    ensures gives { Gives (W.stored w.old) (W.stored w.new) (W.layout w.old) (W.view w.new) result
        (refused_of (W.view w.old) (name_of (W.stored w.old) target) i (name_of (W.stored w.old) x)) }
    ensures layout { W.layout w.new ≡ W.layout w.old }
    ensures limit { (W.stored w.new).memory.limit ≡ (W.stored w.old).memory.limit }
    ensures contexts { MakesAtMost 0 (W.layout w.old) (W.stored w.old) (W.stored w.new) }
{
    let number = small_word(i32::from(i) + 1);
    match push_three(w, target, x, number) {
        CodeEnd::Done => send_special(w, ATTEMPT_TO_ASSIGN, 2),
        end => end,
    }
}

/// Refuses a store into slot `i` of a read-only object, counted from 0: takes the value off the stack, where it is
/// still there, which `on_stack` says, and tells the object.
fn refuse_slot<W: World>(w: &mut W, target: Oop, i: u8, x: Oop, on_stack: bool) -> CodeEnd
    requires ready { IsReady (W.stored w.old) (W.view w.old) }
    requires object { IsNamed (W.stored w.old) target }
    requires named { IsNamed (W.stored w.old) x }
    requires on_top { on_stack ≡ true → 0 < depth_of (W.view w.old) }
    ensures gives { Gives (W.stored w.old) (W.stored w.new) (W.layout w.old) (W.view w.new) result
        (refused_of (bare_of on_stack (W.view w.old)) (name_of (W.stored w.old) target) i
        (name_of (W.stored w.old) x)) }
    ensures layout { W.layout w.new ≡ W.layout w.old }
    ensures limit { (W.stored w.new).memory.limit ≡ (W.stored w.old).memory.limit }
    ensures contexts { MakesAtMost 0 (W.layout w.old) (W.stored w.old) (W.stored w.new) }
{
    if on_stack {
        w.pop();
    }
    refuse_store(w, target, i, x)
}

/// Stores into slot `i` of a pointer object a value that may still be on the stack, and stops for `missing` where
/// there is no such slot. A read-only object refuses.
fn store_slot<W: World>(
    w: &mut W,
    target: Oop,
    i: u8,
    x: Oop,
    on_stack: bool,
    missing: Stop,
) -> CodeEnd
    requires ready { IsReady (W.stored w.old) (W.view w.old) }
    requires object { IsNamed (W.stored w.old) target }
    requires named { IsNamed (W.stored w.old) x }
    requires on_top { on_stack ≡ true → 0 < depth_of (W.view w.old) }
    ensures gives { Gives (W.stored w.old) (W.stored w.new) (W.layout w.old) (W.view w.new) result
        (store_or_stop missing (W.view w.old) (bare_of on_stack (W.view w.old)) (name_of (W.stored w.old) target) i
        (name_of (W.stored w.old) x)) }
    ensures layout { W.layout w.new ≡ W.layout w.old }
    ensures limit { (W.stored w.new).memory.limit ≡ (W.stored w.old).memory.limit }
    ensures contexts { MakesAtMost 0 (W.layout w.old) (W.stored w.old) (W.stored w.new) }
{
    match store_target(w, target, u32::from(i)) {
        StoreTarget::Missing => CodeEnd::Stop(missing),
        StoreTarget::ReadOnly => refuse_slot(w, target, i, x, on_stack),
        StoreTarget::Writable => {
            w.store(target, u32::from(i), x);
            CodeEnd::Done
        }
    }
}

/// Stores into argument or temporary `i`.
#[tactic(auto, unfolding(cs_model::specs::Exec::store_temp_out))]
fn store_temporary<W: World>(w: &mut W, i: u8, x: Oop) -> CodeEnd
    requires ready { IsReady (W.stored w.old) (W.view w.old) }
    requires named { IsNamed (W.stored w.old) x }
    ensures gives { Gives (W.stored w.old) (W.stored w.new) (W.layout w.old) (W.view w.new) result
        (store_temp_out (W.view w.old) i (name_of (W.stored w.old) x)) }
    ensures layout { W.layout w.new ≡ W.layout w.old }
    ensures limit { (W.stored w.new).memory.limit ≡ (W.stored w.old).memory.limit }
    ensures contexts { MakesAtMost 0 (W.layout w.old) (W.stored w.old) (W.stored w.new) }
{
    let i = u32::from(i);
    if i < w.depth() {
        w.set_stack(i, x);
        CodeEnd::Done
    } else {
        CodeEnd::Stop(Stop::BadField)
    }
}

/// Stores into literal variable `i` a value that may still be on the stack.
#[tactic(auto, unfolding(cs_model::specs::Exec::store_variable_out, cs_model::specs::Exec::variable_at))]
fn store_variable<W: World>(w: &mut W, i: u8, x: Oop, on_stack: bool) -> CodeEnd
    requires ready { IsReady (W.stored w.old) (W.view w.old) }
    requires named { IsNamed (W.stored w.old) x }
    requires on_top { on_stack ≡ true → 0 < depth_of (W.view w.old) }
    ensures gives { Gives (W.stored w.old) (W.stored w.new) (W.layout w.old) (W.view w.new) result
        (store_variable_out (W.view w.old) (bare_of on_stack (W.view w.old)) i (name_of (W.stored w.old) x)) }
    ensures layout { W.layout w.new ≡ W.layout w.old }
    ensures limit { (W.stored w.new).memory.limit ≡ (W.stored w.old).memory.limit }
    ensures contexts { MakesAtMost 0 (W.layout w.old) (W.stored w.old) (W.stored w.new) }
{
    let Some(variable) = literal(w, u32::from(i)) else {
        return CodeEnd::Stop(Stop::BadLiteral);
    };
    store_slot(w, variable, VALUE as u8, x, on_stack, Stop::BadLiteral)
}

/// Stores into slot `k` of the vector that is stack value `j` a value that may still be on the stack.
#[tactic(auto, unfolding(cs_model::specs::Exec::store_vector_out))]
fn store_vector<W: World>(w: &mut W, k: u8, j: u8, x: Oop, on_stack: bool) -> CodeEnd
    requires ready { IsReady (W.stored w.old) (W.view w.old) }
    requires named { IsNamed (W.stored w.old) x }
    requires on_top { on_stack ≡ true → 0 < depth_of (W.view w.old) }
    ensures gives { Gives (W.stored w.old) (W.stored w.new) (W.layout w.old) (W.view w.new) result
        (store_vector_out (W.view w.old) (bare_of on_stack (W.view w.old)) k j (name_of (W.stored w.old) x)) }
    ensures layout { W.layout w.new ≡ W.layout w.old }
    ensures limit { (W.stored w.new).memory.limit ≡ (W.stored w.old).memory.limit }
    ensures contexts { MakesAtMost 0 (W.layout w.old) (W.stored w.old) (W.stored w.new) }
{
    let Some(vector) = temporary(w, u32::from(j)) else {
        return CodeEnd::Stop(Stop::BadField);
    };
    store_slot(w, vector, k, x, on_stack, Stop::BadField)
}

/// Stores into field `i` of the receiver, which is no context, a value that may still be on the stack.
#[tactic(auto, unfolding(cs_model::specs::Exec::store_receiver_out))]
fn store_field<W: World>(w: &mut W, i: u8, x: Oop, on_stack: bool) -> CodeEnd
    requires ready { IsReady (W.stored w.old) (W.view w.old) }
    requires named { IsNamed (W.stored w.old) x }
    requires plain { is_context_ref (W.view w.old) (receiver_of (W.view w.old)) ≡ false }
    requires on_top { on_stack ≡ true → 0 < depth_of (W.view w.old) }
    ensures gives { Gives (W.stored w.old) (W.stored w.new) (W.layout w.old) (W.view w.new) result
        (store_receiver_out (W.view w.old) (bare_of on_stack (W.view w.old)) i (name_of (W.stored w.old) x)) }
    ensures layout { W.layout w.new ≡ W.layout w.old }
    ensures limit { (W.stored w.new).memory.limit ≡ (W.stored w.old).memory.limit }
    ensures contexts { MakesAtMost 0 (W.layout w.old) (W.stored w.old) (W.stored w.new) }
{
    let receiver = w.receiver();
    store_slot(w, receiver, i, x, on_stack, Stop::BadField)
}

/// Stores the topmost value into argument or temporary `i` and leaves it on the stack.
#[tactic(auto, unfolding(cs_model::specs::Exec::store_into))]
pub fn keep_temporary<W: World>(w: &mut W, i: u8) -> CodeEnd
    requires { IsReady (W.stored w.old) (W.view w.old) }
    ensures gives { Gives (W.stored w.old) (W.stored w.new) (W.layout w.old) (W.view w.new) result
        (store_into (W.view w.old) (λ t bare x. store_temp_out t i x)) }
    ensures layout { W.layout w.new ≡ W.layout w.old }
    ensures limit { (W.stored w.new).memory.limit ≡ (W.stored w.old).memory.limit }
    ensures contexts { MakesAtMost 0 (W.layout w.old) (W.stored w.old) (W.stored w.new) }
{
    match from_top(w, 0) {
        Some(x) => store_temporary(w, i, x),
        None => CodeEnd::Stop(Stop::StackUnder),
    }
}

/// Pops the topmost value into argument or temporary `i`.
#[tactic(auto, unfolding(cs_model::specs::Exec::pop_into))]
pub fn pop_temporary<W: World>(w: &mut W, i: u8) -> CodeEnd
    requires { IsReady (W.stored w.old) (W.view w.old) }
    ensures gives { Gives (W.stored w.old) (W.stored w.new) (W.layout w.old) (W.view w.new) result
        (pop_into (W.view w.old) (λ t bare x. store_temp_out t i x)) }
    ensures layout { W.layout w.new ≡ W.layout w.old }
    ensures limit { (W.stored w.new).memory.limit ≡ (W.stored w.old).memory.limit }
    ensures contexts { MakesAtMost 0 (W.layout w.old) (W.stored w.old) (W.stored w.new) }
{
    match from_top(w, 0) {
        Some(x) => {
            w.pop();
            store_temporary(w, i, x)
        }
        None => CodeEnd::Stop(Stop::StackUnder),
    }
}

/// Stores the topmost value into literal variable `i` and leaves it on the stack.
#[tactic(auto, unfolding(cs_model::specs::Exec::store_into))]
pub fn keep_variable<W: World>(w: &mut W, i: u8) -> CodeEnd
    requires { IsReady (W.stored w.old) (W.view w.old) }
    ensures gives { Gives (W.stored w.old) (W.stored w.new) (W.layout w.old) (W.view w.new) result
        (store_into (W.view w.old) (λ t bare x. store_variable_out t bare i x)) }
    ensures layout { W.layout w.new ≡ W.layout w.old }
    ensures limit { (W.stored w.new).memory.limit ≡ (W.stored w.old).memory.limit }
    ensures contexts { MakesAtMost 0 (W.layout w.old) (W.stored w.old) (W.stored w.new) }
{
    match from_top(w, 0) {
        Some(x) => store_variable(w, i, x, true),
        None => CodeEnd::Stop(Stop::StackUnder),
    }
}

/// Pops the topmost value into literal variable `i`.
#[tactic(auto, unfolding(cs_model::specs::Exec::pop_into))]
pub fn pop_variable<W: World>(w: &mut W, i: u8) -> CodeEnd
    requires { IsReady (W.stored w.old) (W.view w.old) }
    ensures gives { Gives (W.stored w.old) (W.stored w.new) (W.layout w.old) (W.view w.new) result
        (pop_into (W.view w.old) (λ t bare x. store_variable_out t bare i x)) }
    ensures layout { W.layout w.new ≡ W.layout w.old }
    ensures limit { (W.stored w.new).memory.limit ≡ (W.stored w.old).memory.limit }
    ensures contexts { MakesAtMost 0 (W.layout w.old) (W.stored w.old) (W.stored w.new) }
{
    match from_top(w, 0) {
        Some(x) => {
            w.pop();
            store_variable(w, i, x, false)
        }
        None => CodeEnd::Stop(Stop::StackUnder),
    }
}

/// Stores the topmost value into slot `k` of the vector that is stack value `j` and leaves it on the stack.
#[tactic(auto, unfolding(cs_model::specs::Exec::store_into))]
pub fn keep_vector<W: World>(w: &mut W, k: u8, j: u8) -> CodeEnd
    requires { IsReady (W.stored w.old) (W.view w.old) }
    ensures gives { Gives (W.stored w.old) (W.stored w.new) (W.layout w.old) (W.view w.new) result
        (store_into (W.view w.old) (λ t bare x. store_vector_out t bare k j x)) }
    ensures layout { W.layout w.new ≡ W.layout w.old }
    ensures limit { (W.stored w.new).memory.limit ≡ (W.stored w.old).memory.limit }
    ensures contexts { MakesAtMost 0 (W.layout w.old) (W.stored w.old) (W.stored w.new) }
{
    match from_top(w, 0) {
        Some(x) => store_vector(w, k, j, x, true),
        None => CodeEnd::Stop(Stop::StackUnder),
    }
}

/// Pops the topmost value into slot `k` of the vector that is stack value `j`.
#[tactic(auto, unfolding(cs_model::specs::Exec::pop_into))]
pub fn pop_vector<W: World>(w: &mut W, k: u8, j: u8) -> CodeEnd
    requires { IsReady (W.stored w.old) (W.view w.old) }
    ensures gives { Gives (W.stored w.old) (W.stored w.new) (W.layout w.old) (W.view w.new) result
        (pop_into (W.view w.old) (λ t bare x. store_vector_out t bare k j x)) }
    ensures layout { W.layout w.new ≡ W.layout w.old }
    ensures limit { (W.stored w.new).memory.limit ≡ (W.stored w.old).memory.limit }
    ensures contexts { MakesAtMost 0 (W.layout w.old) (W.stored w.old) (W.stored w.new) }
{
    match from_top(w, 0) {
        Some(x) => {
            w.pop();
            store_vector(w, k, j, x, false)
        }
        None => CodeEnd::Stop(Stop::StackUnder),
    }
}

/// Stores the topmost value into field `i` of the receiver and leaves it on the stack, where the receiver is no
/// context.
#[tactic(auto, unfolding(crate::specs::Built::built_exec, cs_model::specs::Exec::exec))]
pub fn keep_field<W: World>(w: &mut W, i: u8) -> CodeEnd
    requires { IsReady (W.stored w.old) (W.view w.old) }
    ensures gives { Gives (W.stored w.old) (W.stored w.new) (W.layout w.old) (W.view w.new) result
        (built_exec (Op.StoreRcvr i) (W.view w.old)) }
    ensures layout { W.layout w.new ≡ W.layout w.old }
    ensures limit { (W.stored w.new).memory.limit ≡ (W.stored w.old).memory.limit }
    ensures contexts { MakesAtMost 0 (W.layout w.old) (W.stored w.old) (W.stored w.new) }
{
    let receiver = w.receiver();
    if is_context(w, receiver) {
        return CodeEnd::Stop(Stop::NotBuilt);
    }
    keep_slot(w, i)
}

/// Stores the topmost value into slot `i` of the receiver, which is no context, and leaves it on the stack.
#[tactic(auto, unfolding(cs_model::specs::Exec::store_into))]
fn keep_slot<W: World>(w: &mut W, i: u8) -> CodeEnd
    requires ready { IsReady (W.stored w.old) (W.view w.old) }
    requires plain { is_context_ref (W.view w.old) (receiver_of (W.view w.old)) ≡ false }
    ensures gives { Gives (W.stored w.old) (W.stored w.new) (W.layout w.old) (W.view w.new) result
        (store_into (W.view w.old) (λ t bare x. store_receiver_out t bare i x)) }
    ensures layout { W.layout w.new ≡ W.layout w.old }
    ensures limit { (W.stored w.new).memory.limit ≡ (W.stored w.old).memory.limit }
    ensures contexts { MakesAtMost 0 (W.layout w.old) (W.stored w.old) (W.stored w.new) }
{
    match from_top(w, 0) {
        Some(x) => store_field(w, i, x, true),
        None => CodeEnd::Stop(Stop::StackUnder),
    }
}

/// Pops the topmost value into field `i` of the receiver, where that is no context.
#[tactic(auto, unfolding(crate::specs::Built::built_exec, cs_model::specs::Exec::exec))]
pub fn pop_field<W: World>(w: &mut W, i: u8) -> CodeEnd
    requires { IsReady (W.stored w.old) (W.view w.old) }
    ensures gives { Gives (W.stored w.old) (W.stored w.new) (W.layout w.old) (W.view w.new) result
        (built_exec (Op.PopRcvr i) (W.view w.old)) }
    ensures layout { W.layout w.new ≡ W.layout w.old }
    ensures limit { (W.stored w.new).memory.limit ≡ (W.stored w.old).memory.limit }
    ensures contexts { MakesAtMost 0 (W.layout w.old) (W.stored w.old) (W.stored w.new) }
{
    let receiver = w.receiver();
    if is_context(w, receiver) {
        return CodeEnd::Stop(Stop::NotBuilt);
    }
    pop_slot(w, i)
}

/// Pops the topmost value into slot `i` of the receiver, which is no context.
#[tactic(auto, unfolding(cs_model::specs::Exec::pop_into))]
fn pop_slot<W: World>(w: &mut W, i: u8) -> CodeEnd
    requires ready { IsReady (W.stored w.old) (W.view w.old) }
    requires plain { is_context_ref (W.view w.old) (receiver_of (W.view w.old)) ≡ false }
    ensures gives { Gives (W.stored w.old) (W.stored w.new) (W.layout w.old) (W.view w.new) result
        (pop_into (W.view w.old) (λ t bare x. store_receiver_out t bare i x)) }
    ensures layout { W.layout w.new ≡ W.layout w.old }
    ensures limit { (W.stored w.new).memory.limit ≡ (W.stored w.old).memory.limit }
    ensures contexts { MakesAtMost 0 (W.layout w.old) (W.stored w.old) (W.stored w.new) }
{
    match from_top(w, 0) {
        Some(x) => {
            w.pop();
            store_field(w, i, x, false)
        }
        None => CodeEnd::Stop(Stop::StackUnder),
    }
}
