//! The primitives that evaluate closures.
ghost use Rattle.std.specs.Prelude.{◌≡◌, ◌<◌, ◌≤◌, Some, is_some, length, option_map, true};
ghost use Rattle.cs_model.specs.Context.{lies_if_index};
ghost use Rattle.cs_model.specs.Enter.{can_evaluate, closure_slot, copied_values, enter_block_out, is_count};
ghost use Rattle.cs_model.specs.Obj.{slots_in};
ghost use Rattle.cs_model.specs.PrimUnwind.{evaluate_array_prim, evaluate_prim};
ghost use Rattle.cs_model.specs.Read.{depth_of};
ghost use Rattle.cs_model.specs.Ref.{small_index};
ghost use Rattle.cs_model.specs.Send.{array_elements, elements_fitting};
ghost use Rattle.cs_model.specs.State.{object_of};
ghost use Rattle.cs_acts.specs.Layout.{IsLaidOut};
ghost use Rattle.cs_acts.specs.Names.{IsNamed, Names, Store, name_of};
ghost use Rattle.cs_acts.specs.Reading.{IsMethodNamed};
ghost use Rattle.cs_acts.specs.Ready.{IsReady, IsSound};
ghost use Rattle.cs_unwind.specs.Blocks.{Evaluates, FindsBlock, FindsOuter, Spreads, is_closure};
ghost use Rattle.cs_unwind.specs.Performed.{Performs};
ghost use Rattle.cs_unwind.specs.Primitive.{entered_from};

use cs_acts::answer::{argument, receiver};
use cs_acts::method::{context_size, lies};
use cs_acts::read::{has_slots, is_context, is_method, slot, slot_if_any};
use cs_acts::{PrimEnd, World};
use cs_classes::slots::{ARGUMENT_COUNT, FIRST_COPIED, OUTER_CONTEXT, START_PC};
use cs_classes::{CLOSURE_CLASS, FIELDS_AND_INDICES};
use cs_model::Stop;
use cs_word::Oop;

/// The format of an Array.
const ARRAY_FORMAT: u8 = 2;

/// Primitives 201 to 205, 221 and 222: the receiver is evaluated with `wanted` arguments. They fail where `args` is
/// another number.
pub(crate) fn evaluate<W: World>(w: &mut W, wanted: u32, args: u32) -> PrimEnd
    requires ready { IsReady (W.stored w.old) (W.view w.old) }
    requires there { args < depth_of (W.view w.old) }
    requires births { (W.view w.old).rest.next < 4611686018427387904 }
    ensures { Performs (W.stored w.old) (W.stored w.new) (W.layout w.old) (W.layout w.new) (W.view w.old) (W.view w.old)
        (W.view w.new) result (evaluate_prim (W.view w.old) wanted args) }
{
    if args != wanted {
        return PrimEnd::Fail;
    }
    let closure = receiver(w, wanted);
    match block_method(w, closure, wanted) {
        Some(method) => enter(w, closure, method, wanted),
        None => PrimEnd::Fail,
    }
}

/// Primitive 206: the receiver is evaluated with the elements of an Array, which stand in the Array's place on the
/// stack by then.
pub(crate) fn evaluate_array<W: World>(w: &mut W, args: u32) -> PrimEnd
    requires ready { IsReady (W.stored w.old) (W.view w.old) }
    requires there { args < depth_of (W.view w.old) }
    requires births { (W.view w.old).rest.next < 4611686018427387904 }
    ensures { Performs (W.stored w.old) (W.stored w.new) (W.layout w.old) (W.layout w.new) (W.view w.old)
        (entered_from (W.view w.old) 206) (W.view w.new) result (evaluate_array_prim (W.view w.old) args) }
{
    if args != 1 {
        return PrimEnd::Fail;
    }
    let array = argument(w);
    let Some(count) = fitting(w, array) else {
        return PrimEnd::Fail;
    };
    let closure = receiver(w, 1);
    let Some(method) = block_method(w, closure, count) else {
        return PrimEnd::Fail;
    };
    spread(w, array, count);
    enter(w, closure, method, count)
}

/// Enters the block of a closure that can be evaluated, where arguments and copied values fit its context.
fn enter<W: World>(w: &mut W, closure: Oop, method: Oop, args: u32) -> PrimEnd
    requires ready { IsReady (W.stored w.old) (W.view w.old) }
    requires closure { IsNamed (W.stored w.old) closure }
    requires block { Evaluates (W.stored w.old) (W.view w.old) (name_of (W.stored w.old) closure) args method }
    requires there { args < depth_of (W.view w.old) }
    requires births { (W.view w.old).rest.next < 4611686018427387904 }
    ensures { Performs (W.stored w.old) (W.stored w.new) (W.layout w.old) (W.layout w.new) (W.view w.old) (W.view w.old)
        (W.view w.new) result (enter_block_out (W.view w.old) (name_of (W.stored w.old) closure) args) }
{
    let size = context_size(w, method);
    if args > size || copied(w, closure) > size - args {
        return PrimEnd::Stop(Stop::StackOver);
    }
    match w.enter_block(closure, args) {
        Ok(()) => PrimEnd::Entered,
        Err(why) => PrimEnd::Full(why),
    }
}

/// The method of a closure that can be evaluated with `args` arguments; None exactly where it can't.
fn block_method<W: World>(w: &W, closure: Oop, args: u32) -> Option<Oop>
    requires sound { IsSound (W.stored w.now) (W.view w.now) }
    requires named { IsNamed (W.stored w.now) closure }
    ensures { FindsBlock (W.stored w.now) (W.view w.now) (name_of (W.stored w.now) closure) args result }
{
    if !is_closure(w, closure) {
        return None;
    }
    let Some(method) = outer_method(w, closure) else {
        return None;
    };
    let start = closure_slot(w, closure, START_PC);
    if lies_at(w, method, start) && is_count(closure_slot(w, closure, ARGUMENT_COUNT), args) {
        Some(method)
    } else {
        None
    }
}

/// The method of a closure's outer context; None exactly where it has no outer context, or that has no method.
fn outer_method<W: World>(w: &W, closure: Oop) -> Option<Oop>
    requires sound { IsSound (W.stored w.now) (W.view w.now) }
    requires named { IsNamed (W.stored w.now) closure }
    requires closure { is_closure (W.view w.now) (name_of (W.stored w.now) closure) ≡ true }
    ensures { FindsOuter (W.stored w.now) (W.view w.now) (name_of (W.stored w.now) closure) result }
{
    let outer = closure_slot(w, closure, OUTER_CONTEXT);
    if !is_context(w, outer) {
        return None;
    }
    let method = w.act_method(w.act_of(outer));
    if is_method(w, method) {
        Some(method)
    } else {
        None
    }
}

/// Whether a word is a pc that lies in a method.
#[tactic(auto, using(cs_acts::proofs::Naturals::natural_name))]
fn lies_at<W: World>(w: &W, method: Oop, pc: Oop) -> bool
    requires sound { IsSound (W.stored w.now) (W.view w.now) }
    requires method { IsMethodNamed (W.stored w.now) (W.view w.now) method }
    requires named { IsNamed (W.stored w.now) pc }
    ensures { result ≡ lies_if_index (object_of (W.view w.now) (name_of (W.stored w.now) method))
        (small_index (name_of (W.stored w.now) pc)) }
{
    match pc.natural() {
        Some(pc) => lies(w, method, pc),
        None => false,
    }
}

/// Whether a word is the number `count`.
#[tactic(auto, using(cs_acts::proofs::Naturals::natural_name))]
fn is_count(word: Oop, count: u32) -> bool
    ensures { (s : Store) → IsNamed s word → result ≡ is_count count (small_index (name_of s word)) }
{
    match word.natural() {
        Some(number) => count == number,
        None => false,
    }
}

/// Whether a word names a closure.
fn is_closure<W: World>(w: &W, o: Oop) -> bool
    requires sound { IsSound (W.stored w.now) (W.view w.now) }
    requires named { IsNamed (W.stored w.now) o }
    ensures { result ≡ is_closure (W.view w.now) (name_of (W.stored w.now) o) }
{
    if !has_slots(w, o, FIRST_COPIED) {
        return false;
    }
    let heap = w.heap();
    heap.class_index(o) == CLOSURE_CLASS && heap.format(o) == FIELDS_AND_INDICES
}

/// One of a closure's slots before its copied values.
fn closure_slot<W: World>(w: &W, o: Oop, i: u32) -> Oop
    requires sound { IsSound (W.stored w.now) (W.view w.now) }
    requires named { IsNamed (W.stored w.now) o }
    requires closure { is_closure (W.view w.now) (name_of (W.stored w.now) o) ≡ true }
    requires within { i < 3 }
    ensures { Names (W.stored w.now) result (closure_slot (W.view w.now) (name_of (W.stored w.now) o) i) }
{
    let Some(value) = slot(w, o, FIRST_COPIED, i) else {
        unreachable!();
    };
    value
}

/// How many values a closure has copied.
fn copied<W: World>(w: &W, closure: Oop) -> u32
    requires sound { IsSound (W.stored w.now) (W.view w.now) }
    requires named { IsNamed (W.stored w.now) closure }
    requires closure { is_closure (W.view w.now) (name_of (W.stored w.now) closure) ≡ true }
    ensures { result ≡ length (copied_values (W.view w.now) (name_of (W.stored w.now) closure)) }
{
    slot_count(w, closure) - FIRST_COPIED
}

/// How many slots a pointer object has.
fn slot_count<W: World>(w: &W, o: Oop) -> u32
    requires sound { IsSound (W.stored w.now) (W.view w.now) }
    requires named { IsNamed (W.stored w.now) o }
    requires pointers { is_some (slots_in (object_of (W.view w.now) (name_of (W.stored w.now) o))) ≡ true }
    ensures { option_map (λ slots. length slots) (slots_in (object_of (W.view w.now) (name_of (W.stored w.now) o))) ≡
        Some result }
{
    w.heap().slot_count(o)
}

/// How many elements an Array has that fit the stack in the place of one argument; None exactly where they don't, or it
/// is none.
fn fitting<W: World>(w: &W, array: Oop) -> Option<u32>
    requires ready { IsReady (W.stored w.now) (W.view w.now) }
    requires named { IsNamed (W.stored w.now) array }
    requires there { 0 < depth_of (W.view w.now) }
    ensures { result ≡ option_map (λ values. length values)
        (elements_fitting (W.view w.now) 1 (name_of (W.stored w.now) array)) }
{
    if !is_array(w, array) {
        return None;
    }
    let count = slot_count(w, array);
    if count <= w.size() - (w.depth() - 1) {
        Some(count)
    } else {
        None
    }
}

/// Whether a word names an Array.
fn is_array<W: World>(w: &W, o: Oop) -> bool
    requires sound { IsSound (W.stored w.now) (W.view w.now) }
    requires named { IsNamed (W.stored w.now) o }
    ensures { result ≡ is_some (array_elements (object_of (W.view w.now) (name_of (W.stored w.now) o))) }
{
    has_slots(w, o, 0) && w.heap().format(o) == ARRAY_FORMAT
}

/// Pops one argument, and pushes the `count` elements of an Array, which fit.
fn spread<W: World>(w: &mut W, array: Oop, count: u32)
    requires ready { IsReady (W.stored w.old) (W.view w.old) }
    requires named { IsNamed (W.stored w.old) array }
    requires there { 0 < depth_of (W.view w.old) }
    requires fits { Some count ≡ option_map (λ values. length values)
        (elements_fitting (W.view w.old) 1 (name_of (W.stored w.old) array)) }
    ensures spreads { Spreads (W.stored w.old) (W.stored w.new) (W.layout w.old) (W.layout w.new) (W.view w.old)
        (W.view w.new) (name_of (W.stored w.old) array) }
    ensures laid { IsLaidOut (W.stored w.new) (W.view w.new) (W.layout w.new) }
{
    // for what their clauses say: the stack fits, and each frame is a context
    let _depth = w.depth();
    w.pop();
    for i in 0..count {
        let Some(value) = slot_if_any(w, array, i) else {
            unreachable!();
        };
        w.push(value);
    }
    let _active = w.active();
}
