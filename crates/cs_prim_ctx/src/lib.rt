//! Primitives on contexts, over any world: the fields and stack values of a context, and how many values its stack
//! holds.
//!
//! Where one fails, nothing is changed. On success receiver and arguments are popped, and the answer is pushed.
#![tactic(auto)]

ghost use Rattle.std.specs.Prelude.{◌≡◌, ◌<◌, ◌^◌, ℕ, Some, IfErr, IfOk, None, OnOk, is_some, length, option_map, true};
ghost use Rattle.cs_model.specs.Context.{is_context_ref};
ghost use Rattle.cs_model.specs.Keeps.{SameKept};
ghost use Rattle.cs_model.specs.Operation.{drop_of, push_of};
ghost use Rattle.cs_model.specs.PrimAnswer.{argument, receiver};
ghost use Rattle.cs_model.specs.PrimContext.{stack_at_prim, stackp_prim};
ghost use Rattle.cs_model.specs.PrimObject.{answer_field, slot_at_prim, slot_index};
ghost use Rattle.cs_model.specs.PrimTable.{kept_prim};
ghost use Rattle.cs_model.specs.Read.{depth_of};
ghost use Rattle.cs_model.specs.Return.{context_at};
ghost use Rattle.cs_acts.specs.declared.act.Full.TheVariants as full;
ghost use Rattle.cs_acts.specs.Full.{CausesFull};
ghost use Rattle.cs_acts.specs.Made.{MakesAtMost, made_by_reading};
ghost use Rattle.cs_acts.specs.Names.{IsNamed, Names, NamesOption, Store, name_of};
ghost use Rattle.cs_acts.specs.Primed.{PrimGives, UnlessFull};
ghost use Rattle.cs_acts.specs.Ready.{IsReady};
ghost use Rattle.cs_acts.specs.Targets.{field_of};
ghost use Rattle.cs_acts.specs.Led.{Leads};
ghost use Rattle.cs_prim_ctx.specs.Answered.{PerformsInPlace};
ghost use Rattle.cs_prim_ctx.specs.Numbers.{reads_context};

use cs_acts::answer::{answer, argument, receiver};
use cs_acts::read::is_context;
use cs_acts::{Full, PrimEnd, World};
use cs_classes::slots::{FIRST_STACK, STACK_POINTER};
use cs_word::Oop;

/// The numbers of two of the primitives; the third one is 212.
const SLOT_AT: u32 = 73;

const STACK_AT: u32 = 210;

/// Does primitive `number` with `args` arguments.
///
/// These are 73 on a context, which reads a field, counted from 1, or behind the fields a value of the stack; 210,
/// which reads value i of a context's stack, counted from 1; and 212, which tells how many values that stack holds.
/// With another number of arguments, and where there is no such field or value, they fail. `Full` comes only where the
/// sender was to be answered.
pub fn primitive<W: World>(w: &mut W, number: u32, args: u32) -> PrimEnd
    requires ready { IsReady (W.stored w.old) (W.view w.old) }
    requires number { reads_context (W.view w.old) number args ≡ true }
    requires there { args < depth_of (W.view w.old) }
    ensures gives { PrimGives (W.stored w.old) (W.stored w.new) (W.layout w.old) (W.view w.old) (W.view w.old)
        (W.view w.new) result (kept_prim number args (W.view w.old)) }
    ensures exact { UnlessFull result (W.layout w.old ≡ None → SameKept (W.view w.new)
        (kept_prim number args (W.view w.old)).state) }
    ensures layout { UnlessFull result (W.layout w.new ≡ W.layout w.old) }
    ensures limit { (W.stored w.new).memory.limit ≡ (W.stored w.old).memory.limit }
    ensures contexts { UnlessFull result (MakesAtMost (kept_prim number args (W.view w.old)).count.looks
        (W.layout w.old) (W.stored w.old) (W.stored w.new)) }
{
    if number == SLOT_AT {
        slot_at(w, args)
    } else if number == STACK_AT {
        stack_at(w, args)
    } else {
        stack_pointer(w, args)
    }
}

/// Primitive 73 on a context: its field, or a value of its stack, counted from 1 from the first field on.
fn slot_at<W: World>(w: &mut W, args: u32) -> PrimEnd
    requires ready { IsReady (W.stored w.old) (W.view w.old) }
    requires there { args < depth_of (W.view w.old) }
    requires context { is_context_ref (W.view w.old) (receiver (W.view w.old) args) ≡ true }
    ensures { PerformsInPlace (W.stored w.old) (W.stored w.new) (W.layout w.old) (W.layout w.new)
        (W.view w.old) (W.view w.new) result (slot_at_prim (W.view w.old) args) }
{
    if args != 1 {
        return PrimEnd::Fail;
    }
    let ctx = receiver(w, 1);
    match slot_index(argument(w)) {
        Some(i) => answer_field(w, 1, ctx, i),
        None => PrimEnd::Fail,
    }
}

/// Primitive 210: a value of the stack of a context, counted from 1.
fn stack_at<W: World>(w: &mut W, args: u32) -> PrimEnd
    requires ready { IsReady (W.stored w.old) (W.view w.old) }
    requires there { args < depth_of (W.view w.old) }
    ensures { PerformsInPlace (W.stored w.old) (W.stored w.new) (W.layout w.old) (W.layout w.new)
        (W.view w.old) (W.view w.new) result (stack_at_prim (W.view w.old) args) }
{
    if args != 1 {
        return PrimEnd::Fail;
    }
    let ctx = receiver(w, 1);
    if !is_context(w, ctx) {
        return PrimEnd::Fail;
    }
    match slot_index(argument(w)) {
        Some(i) => answer_field(w, 1, ctx, FIRST_STACK + i),
        None => PrimEnd::Fail,
    }
}

/// Primitive 212: how many values the stack of a context holds.
fn stack_pointer<W: World>(w: &mut W, args: u32) -> PrimEnd
    requires ready { IsReady (W.stored w.old) (W.view w.old) }
    requires there { args < depth_of (W.view w.old) }
    ensures { PerformsInPlace (W.stored w.old) (W.stored w.new) (W.layout w.old) (W.layout w.new)
        (W.view w.old) (W.view w.new) result (stackp_prim (W.view w.old) args) }
{
    if args != 0 {
        return PrimEnd::Fail;
    }
    let ctx = receiver(w, 0);
    if is_context(w, ctx) {
        answer_field(w, 0, ctx, STACK_POINTER)
    } else {
        PrimEnd::Fail
    }
}

/// The index, counted from 0, that a word says by counting from 1; None exactly where it is no SmallInteger above 0.
#[tactic(auto, using(cs_acts::proofs::Naturals::natural_name))]
pub fn slot_index(word: Oop) -> Option<u32>
    ensures value { (s : Store) → IsNamed s word → result ≡ slot_index (name_of s word) }
    ensures small { (i : ℕ) → result ≡ Some i → i < 2 ^ 30 }
{
    match word.natural() {
        Some(number) if number > 0 => Some(number - 1),
        _ => None,
    }
}

/// Answers field `i` of a context, or its stack value `i` - 6, in the place of receiver and arguments. It fails where
/// the context has no such field or value.
pub fn answer_field<W: World>(w: &mut W, args: u32, ctx: Oop, i: u32) -> PrimEnd
    requires ready { IsReady (W.stored w.old) (W.view w.old) }
    requires there { args < depth_of (W.view w.old) }
    requires named { IsNamed (W.stored w.old) ctx }
    requires context { is_context_ref (W.view w.old) (name_of (W.stored w.old) ctx) ≡ true }
    ensures { PerformsInPlace (W.stored w.old) (W.stored w.new) (W.layout w.old) (W.layout w.new)
        (W.view w.old) (W.view w.new) result
        (answer_field (W.view w.old) args i (field_of (W.view w.old) (name_of (W.stored w.old) ctx) i)) }
{
    match field(w, ctx, i) {
        Ok(Some(value)) => {
            answer(w, args, value);
            PrimEnd::Answer
        }
        Ok(None) => PrimEnd::Fail,
        Err(why) => PrimEnd::Full(why),
    }
}

/// Field `i` of a context, or its stack value `i` - 6; None exactly where it has no such field or value.
fn field<W: World>(w: &mut W, ctx: Oop, i: u32) -> Result<Option<Oop>, Full>
    requires ready { IsReady (W.stored w.old) (W.view w.old) }
    requires named { IsNamed (W.stored w.old) ctx }
    requires context { is_context_ref (W.view w.old) (name_of (W.stored w.old) ctx) ≡ true }
    ensures value { IfOk result (λ o. NamesOption (W.stored w.new) o
        (field_of (W.view w.old) (name_of (W.stored w.old) ctx) i)) }
    ensures view { OnOk result (W.view w.new ≡ W.view w.old) }
    ensures leads { OnOk result (Leads (W.stored w.old) (W.stored w.new) (W.layout w.old) (W.layout w.new)
        (W.view w.new) (W.view w.old) (made_by_reading i)) }
    ensures limit { (W.stored w.new).memory.limit ≡ (W.stored w.old).memory.limit }
    ensures sender_alone { IfErr result (λ _. i ≡ 0) }
    ensures heap_alone { IfErr result (λ why. why ≡ full.Heap) }
    ensures full { IfErr result (CausesFull (W.stored w.new) (W.layout w.old) (W.view w.old) 0 (W.view w.old)) }
{
    if !has_field(w, ctx, i) {
        return Ok(None);
    }
    match w.context_get(ctx, i) {
        Ok(value) => Ok(Some(value)),
        Err(why) => Err(why),
    }
}

/// Whether a context has a field `i`, or a stack value `i` - 6.
fn has_field<W: World>(w: &mut W, ctx: Oop, i: u32) -> bool
    requires ready { IsReady (W.stored w.old) (W.view w.old) }
    requires named { IsNamed (W.stored w.old) ctx }
    requires context { is_context_ref (W.view w.old) (name_of (W.stored w.old) ctx) ≡ true }
    ensures value { result ≡ is_some (field_of (W.view w.old) (name_of (W.stored w.old) ctx) i) }
    ensures view { W.view w.new ≡ W.view w.old }
    ensures leads { Leads (W.stored w.old) (W.stored w.new) (W.layout w.old) (W.layout w.new) (W.view w.new)
        (W.view w.old) 0 }
{
    if i < FIRST_STACK {
        true
    } else {
        i - FIRST_STACK < stack_depth(w, ctx)
    }
}

/// How many values the stack of a context holds.
fn stack_depth<W: World>(w: &mut W, ctx: Oop) -> u32
    requires ready { IsReady (W.stored w.old) (W.view w.old) }
    requires named { IsNamed (W.stored w.old) ctx }
    requires context { is_context_ref (W.view w.old) (name_of (W.stored w.old) ctx) ≡ true }
    ensures value { option_map (λ c. length c.stack) (context_at (W.view w.old) (name_of (W.stored w.old) ctx)) ≡ Some
        result }
    ensures view { W.view w.new ≡ W.view w.old }
    ensures leads { Leads (W.stored w.old) (W.stored w.new) (W.layout w.old) (W.layout w.new) (W.view w.new)
        (W.view w.old) 0 }
{
    let Ok(stackp) = w.context_get(ctx, STACK_POINTER) else {
        unreachable!();
    };
    stackp.natural().unwrap_or(0)
}
