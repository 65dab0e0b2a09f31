//! One step: one bytecode and all that it leads to.
ghost use Rattle.std.specs.Prelude.{◌≡◌, ◌≤◌, ℕ, false, true, IfSome, List, Option};
ghost use Rattle.cs_model.specs.Due.{is_idle};
ghost use Rattle.cs_acts.specs.Names.{IsNamed, name_of};
ghost use Rattle.cs_acts.specs.Ready.{IsReady, IsSound};
ghost use Rattle.cs_acts.specs.Targets.{CanEnter};
ghost use Rattle.cs_prim_ctx.specs.Numbers.{reads_context};
ghost use Rattle.cs_prim_num.specs.Numbers.{is_on_numbers};
ghost use Rattle.cs_send.specs.Sent.{message_of};
ghost use Rattle.cs_unwind.specs.Primitive.{unwinds};
ghost use Rattle.cs_core.specs.Stepped.{CausedByFault, EndsBy, Fails, NamesActive, StepGives, TurnGives, WhereStopped};
ghost use Rattle.cs_core.specs.Stepped.{calling, can_begin, returning, sending, trying};

use crate::primitive::{Primitive, piece_of, write};
use cs_acts::answer::{answer, argument, receiver};
use cs_acts::read::{instruction, special};
use cs_acts::{Full, PrimEnd, Shape, World, shape_of};
use cs_code::{CodeEnd, exec};
use cs_model::Stop;
use cs_send::{SendEnd, Sender, enter};
use cs_shelf::Sink;
use cs_unwind::BackEnd;
use cs_word::Oop;

/// Births end so far below 2^62 that a step can't pass it.
pub(crate) const BIRTH_LIMIT: u64 = (1 << 62) - 64;

/// How a step ends.
#[derive(Clone, Copy, PartialEq, Eq, Debug)]
pub enum StepEnd {
    /// A bytecode is completed, and this process is active.
    Active(Oop),
    /// A bytecode is completed, and no process is active.
    Idle,
    /// The step stops. It has written nothing; where it had begun, the world stands within it.
    Stopped(Stop),
    /// The world has no room for what the bytecode leads to, or makes on its way.
    Full(Full),
    /// The sink failed.
    WriteFault,
}

/// Does one step. A process is active before it.
pub fn step<W: World, K: Sink>(w: &mut W, sender: &mut Sender, out: &mut K) -> StepEnd
    requires ready { IsReady (W.stored w.old) (W.view w.old) }
    requires active { is_idle (W.view w.old) ≡ false }
    ensures gives { StepGives (W.view w.old) (W.layout w.old) (K.taken out.old) (K.taken out.new) (W.stored w.new)
        (W.view w.new) (W.layout w.new) result }
    ensures process { NamesActive (W.stored w.new) (W.view w.new) result }
    ensures sound { WhereStopped result (IsSound (W.stored w.new) (W.view w.new)) }
    ensures untouched { WhereStopped result (can_begin (W.view w.old) ≡ false → W.view w.new ≡ W.view w.old) }
    ensures limit { (W.stored w.new).memory.limit ≡ (W.stored w.old).memory.limit }
    ensures never_falls { K.fault_count out.old ≤ K.fault_count out.new }
    ensures cause { CausedByFault (K.fault_count out.old) (K.fault_count out.new) result }
{
    if w.next_birth() > BIRTH_LIMIT {
        return StepEnd::Stopped(Stop::BirthLimit);
    }
    let Some(instruction) = instruction(w) else {
        return StepEnd::Stopped(Stop::BadCode);
    };
    w.set_pc(w.pc() + u32::from(instruction.len));
    match exec(&instruction, w) {
        CodeEnd::Done => finish(w),
        CodeEnd::Send {
            selector,
            args,
            above,
        } => send(w, sender, out, selector, args, above),
        CodeEnd::Return { value, local } => give_back(w, sender, out, value, local),
        CodeEnd::Stop(reason) => StepEnd::Stopped(reason),
        CodeEnd::Full(why) => StepEnd::Full(why),
    }
}

/// Sends a message.
fn send<W: World, K: Sink>(
    w: &mut W,
    sender: &mut Sender,
    out: &mut K,
    selector: Oop,
    args: u32,
    above: Option<Oop>,
) -> StepEnd
    requires ready { IsReady (W.stored w.old) (W.view w.old) }
    requires births { (W.view w.old).rest.next ≤ 4611686018427387840 }
    requires selector { IsNamed (W.stored w.old) selector }
    requires above { IfSome above (λ o. IsNamed (W.stored w.old) o) }
    ensures gives { TurnGives (sending (W.view w.old) (message_of (W.stored w.old) selector args above)) (W.view w.old)
        (W.layout w.old) (K.taken out.old) (K.taken out.new) (W.stored w.new) (W.view w.new) (W.layout w.new) result }
    ensures process { NamesActive (W.stored w.new) (W.view w.new) result }
    ensures sound { WhereStopped result (IsSound (W.stored w.new) (W.view w.new)) }
    ensures limit { (W.stored w.new).memory.limit ≡ (W.stored w.old).memory.limit }
    ensures never_falls { K.fault_count out.old ≤ K.fault_count out.new }
    ensures cause { CausedByFault (K.fault_count out.old) (K.fault_count out.new) result }
{
    match sender.send(w, selector, args, above) {
        SendEnd::Entered => finish(w),
        SendEnd::Primitive { method, number } => try_primitive(w, out, method, args, number),
        SendEnd::Stop(reason) => StepEnd::Stopped(reason),
        SendEnd::Full(why) => StepEnd::Full(why),
    }
}

/// Tries the primitive of a method that takes so many arguments.
fn try_primitive<W: World, K: Sink>(
    w: &mut W,
    out: &mut K,
    method: Oop,
    args: u32,
    number: u32,
) -> StepEnd
    requires ready { IsReady (W.stored w.old) (W.view w.old) }
    requires named { IsNamed (W.stored w.old) method }
    requires enters { CanEnter (W.view w.old) (name_of (W.stored w.old) method) args true }
    ensures gives { TurnGives (trying (W.view w.old) (name_of (W.stored w.old) method) number) (W.view w.old)
        (W.layout w.old) (K.taken out.old) (K.taken out.new) (W.stored w.new) (W.view w.new) (W.layout w.new) result }
    ensures process { NamesActive (W.stored w.new) (W.view w.new) result }
    ensures sound { WhereStopped result (IsSound (W.stored w.new) (W.view w.new)) }
    ensures limit { (W.stored w.new).memory.limit ≡ (W.stored w.old).memory.limit }
    ensures never_falls { K.fault_count out.old ≤ K.fault_count out.new }
    ensures cause { CausedByFault (K.fault_count out.old) (K.fault_count out.new) result }
{
    let Some(primitive) = Primitive::from_number(w, number, args) else {
        return StepEnd::Stopped(Stop::NotBuilt);
    };
    match primitive {
        Primitive::Number => number_or_enter(w, method, args, number),
        Primitive::Write => write_or_enter(w, out, method, args),
        Primitive::Unwind => unwind_or_enter(w, method, args, number),
        Primitive::ReadContext => read_or_enter(w, method, args, number),
        Primitive::Unlisted => enter_behind(w, method, args),
    }
}

/// A primitive on numbers; where it fails its method is entered.
fn number_or_enter<W: World>(w: &mut W, method: Oop, args: u32, number: u32) -> StepEnd
    requires ready { IsReady (W.stored w.old) (W.view w.old) }
    requires named { IsNamed (W.stored w.old) method }
    requires enters { CanEnter (W.view w.old) (name_of (W.stored w.old) method) args true }
    requires number { is_on_numbers number ≡ true }
    ensures gives { (told : Option (List ℕ)) → TurnGives
        (trying (W.view w.old) (name_of (W.stored w.old) method) number) (W.view w.old) (W.layout w.old) told told
        (W.stored w.new) (W.view w.new) (W.layout w.new) result }
    ensures process { NamesActive (W.stored w.new) (W.view w.new) result }
    ensures sound { WhereStopped result (IsSound (W.stored w.new) (W.view w.new)) }
    ensures limit { (W.stored w.new).memory.limit ≡ (W.stored w.old).memory.limit }
    ensures cause { (faults : ℕ) → CausedByFault faults faults result }
{
    match cs_prim_num::primitive(w, number, args) {
        PrimEnd::Answer => finish(w),
        PrimEnd::Fail => enter_behind(w, method, args),
        PrimEnd::Entered | PrimEnd::Stop(_) | PrimEnd::Full(_) => unreachable!(),
    }
}

/// Primitive 900; where it fails its method is entered. A step that stops at its end has written nothing, so its end is
/// looked at first.
fn write_or_enter<W: World, K: Sink>(w: &mut W, out: &mut K, method: Oop, args: u32) -> StepEnd
    requires ready { IsReady (W.stored w.old) (W.view w.old) }
    requires named { IsNamed (W.stored w.old) method }
    requires enters { CanEnter (W.view w.old) (name_of (W.stored w.old) method) args true }
    ensures gives { TurnGives (trying (W.view w.old) (name_of (W.stored w.old) method) 900) (W.view w.old)
        (W.layout w.old) (K.taken out.old) (K.taken out.new) (W.stored w.new) (W.view w.new) (W.layout w.new) result }
    ensures process { NamesActive (W.stored w.new) (W.view w.new) result }
    ensures sound { WhereStopped result (IsSound (W.stored w.new) (W.view w.new)) }
    ensures limit { (W.stored w.new).memory.limit ≡ (W.stored w.old).memory.limit }
    ensures never_falls { K.fault_count out.old ≤ K.fault_count out.new }
    ensures cause { CausedByFault (K.fault_count out.old) (K.fault_count out.new) result }
{
    if args != 1 {
        return enter_behind(w, method, args);
    }
    let receiver = receiver(w, 1);
    let argument = argument(w);
    let Some(piece) = piece_of(w, argument) else {
        return enter_behind(w, method, args);
    };
    answer(w, 1, receiver);
    let end = finish(w);
    if let StepEnd::Stopped(_) = end {
        return end;
    }
    match write(w.heap(), piece, out) {
        Ok(()) => end,
        Err(_) => StepEnd::WriteFault,
    }
}

/// A primitive that reads a context; where it fails its method is entered.
fn read_or_enter<W: World>(w: &mut W, method: Oop, args: u32, number: u32) -> StepEnd
    requires ready { IsReady (W.stored w.old) (W.view w.old) }
    requires named { IsNamed (W.stored w.old) method }
    requires enters { CanEnter (W.view w.old) (name_of (W.stored w.old) method) args true }
    requires reads { reads_context (W.view w.old) number args ≡ true }
    ensures gives { (told : Option (List ℕ)) → TurnGives
        (trying (W.view w.old) (name_of (W.stored w.old) method) number) (W.view w.old) (W.layout w.old) told told
        (W.stored w.new) (W.view w.new) (W.layout w.new) result }
    ensures process { NamesActive (W.stored w.new) (W.view w.new) result }
    ensures sound { WhereStopped result (IsSound (W.stored w.new) (W.view w.new)) }
    ensures limit { (W.stored w.new).memory.limit ≡ (W.stored w.old).memory.limit }
    ensures cause { (faults : ℕ) → CausedByFault faults faults result }
{
    match cs_prim_ctx::primitive(w, number, args) {
        PrimEnd::Answer | PrimEnd::Entered => finish(w),
        PrimEnd::Fail => enter_behind(w, method, args),
        PrimEnd::Stop(reason) => StepEnd::Stopped(reason),
        PrimEnd::Full(why) => StepEnd::Full(why),
    }
}

/// A primitive that evaluates a closure or looks for a mark, or that is a mark; where it fails its method is entered.
fn unwind_or_enter<W: World>(w: &mut W, method: Oop, args: u32, number: u32) -> StepEnd
    requires ready { IsReady (W.stored w.old) (W.view w.old) }
    requires named { IsNamed (W.stored w.old) method }
    requires enters { CanEnter (W.view w.old) (name_of (W.stored w.old) method) args true }
    requires unwinds { unwinds number ≡ true }
    ensures gives { (told : Option (List ℕ)) → TurnGives
        (trying (W.view w.old) (name_of (W.stored w.old) method) number) (W.view w.old) (W.layout w.old) told told
        (W.stored w.new) (W.view w.new) (W.layout w.new) result }
    ensures process { NamesActive (W.stored w.new) (W.view w.new) result }
    ensures sound { WhereStopped result (IsSound (W.stored w.new) (W.view w.new)) }
    ensures limit { (W.stored w.new).memory.limit ≡ (W.stored w.old).memory.limit }
    ensures cause { (faults : ℕ) → CausedByFault faults faults result }
{
    match cs_unwind::primitive(w, number, args) {
        PrimEnd::Answer | PrimEnd::Entered => finish(w),
        PrimEnd::Fail => enter_behind(w, method, args),
        PrimEnd::Stop(reason) => StepEnd::Stopped(reason),
        PrimEnd::Full(why) => StepEnd::Full(why),
    }
}

/// Enters a method whose primitive, of a number that is built, has failed.
fn enter_behind<W: World>(w: &mut W, method: Oop, args: u32) -> StepEnd
    requires ready { IsReady (W.stored w.old) (W.view w.old) }
    requires named { IsNamed (W.stored w.old) method }
    requires enters { CanEnter (W.view w.old) (name_of (W.stored w.old) method) args true }
    ensures gives { (told : Option (List ℕ)) (number : ℕ) → Fails (W.view w.old) (name_of (W.stored w.old) method)
        number → TurnGives (trying (W.view w.old) (name_of (W.stored w.old) method) number) (W.view w.old)
        (W.layout w.old) told told (W.stored w.new) (W.view w.new) (W.layout w.new) result }
    ensures process { NamesActive (W.stored w.new) (W.view w.new) result }
    ensures sound { WhereStopped result (IsSound (W.stored w.new) (W.view w.new)) }
    ensures limit { (W.stored w.new).memory.limit ≡ (W.stored w.old).memory.limit }
    ensures cause { (faults : ℕ) → CausedByFault faults faults result }
{
    match enter(w, method, args, true) {
        Ok(()) => finish(w),
        Err(why) => StepEnd::Full(why),
    }
}

/// Returns a value; where it doesn't arrive, the active context is told by a message.
fn give_back<W: World, K: Sink>(
    w: &mut W,
    sender: &mut Sender,
    out: &mut K,
    value: Oop,
    local: bool,
) -> StepEnd
    requires ready { IsReady (W.stored w.old) (W.view w.old) }
    requires births { (W.view w.old).rest.next ≤ 4611686018427387840 }
    requires named { IsNamed (W.stored w.old) value }
    ensures gives { TurnGives (returning (W.view w.old) (name_of (W.stored w.old) value) local) (W.view w.old)
        (W.layout w.old) (K.taken out.old) (K.taken out.new) (W.stored w.new) (W.view w.new) (W.layout w.new) result }
    ensures process { NamesActive (W.stored w.new) (W.view w.new) result }
    ensures sound { WhereStopped result (IsSound (W.stored w.new) (W.view w.new)) }
    ensures limit { (W.stored w.new).memory.limit ≡ (W.stored w.old).memory.limit }
    ensures never_falls { K.fault_count out.old ≤ K.fault_count out.new }
    ensures cause { CausedByFault (K.fault_count out.old) (K.fault_count out.new) result }
{
    match cs_unwind::give_back(w, value, local) {
        BackEnd::Done => finish(w),
        BackEnd::Call { special, args } => call(w, sender, out, special, args),
        BackEnd::Stop(reason) => StepEnd::Stopped(reason),
        BackEnd::Full(why) => StepEnd::Full(why),
    }
}

/// Sends a special selector, whose receiver and arguments are on the stack.
fn call<W: World, K: Sink>(
    w: &mut W,
    sender: &mut Sender,
    out: &mut K,
    number: u32,
    args: u32,
) -> StepEnd
    requires ready { IsReady (W.stored w.old) (W.view w.old) }
    requires births { (W.view w.old).rest.next ≤ 4611686018427387840 }
    ensures gives { TurnGives (calling (W.view w.old) number args) (W.view w.old) (W.layout w.old) (K.taken out.old)
        (K.taken out.new) (W.stored w.new) (W.view w.new) (W.layout w.new) result }
    ensures process { NamesActive (W.stored w.new) (W.view w.new) result }
    ensures sound { WhereStopped result (IsSound (W.stored w.new) (W.view w.new)) }
    ensures limit { (W.stored w.new).memory.limit ≡ (W.stored w.old).memory.limit }
    ensures never_falls { K.fault_count out.old ≤ K.fault_count out.new }
    ensures cause { CausedByFault (K.fault_count out.old) (K.fault_count out.new) result }
{
    match special(w, number) {
        Some(selector) => send(w, sender, out, selector, args, None),
        None => StepEnd::Stopped(Stop::BadSpecial),
    }
}

/// The end of a step that did its bytecode.
fn finish<W: World>(w: &W) -> StepEnd
    requires { IsSound (W.stored w.now) (W.view w.now) }
    ensures by { EndsBy (W.view w.now) result }
    ensures process { NamesActive (W.stored w.now) (W.view w.now) result }
    ensures sound { WhereStopped result (IsSound (W.stored w.now) (W.view w.now)) }
{
    match shape_of(w) {
        Shape::Active(process) => StepEnd::Active(process),
        Shape::Idle => StepEnd::Idle,
        Shape::Fault(reason) => StepEnd::Stopped(reason),
    }
}
