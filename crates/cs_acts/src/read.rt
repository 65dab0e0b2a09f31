//! What code above a world reads of its state.
ghost use Rattle.std.specs.Prelude.{◌≤◌, ◌≡◌, ◌<◌, ◌^◌, ◌-◌, Bool, IsSome, IsTrue, Option, length, option_and_then};
ghost use Rattle.std.specs.Prelude.{slice_get, is_some};
ghost use Rattle.cs_model.specs.Context.{is_context_ref};
ghost use Rattle.cs_model.specs.Number.{boolean};
ghost use Rattle.cs_model.specs.Obj.{first_pc, is_method, lies_in, slots_in};
ghost use Rattle.cs_model.specs.Operation.{nil_of};
ghost use Rattle.cs_model.specs.Read.{bytecodes_of, class_of, depth_of, from_top, literals_of, method_of, pc_of};
ghost use Rattle.cs_model.specs.Read.{stack_of};
ghost use Rattle.cs_model.specs.Ref.{same_ref};
ghost use Rattle.cs_model.specs.State.{active_process, is_read_only, object_of, scheduler_of, slots_of, special_at};
ghost use Rattle.cs_model.specs.Step.{instruction_at};
ghost use Rattle.cs_acts.specs.Names.{IsNamed, Names, NamesOption, name_of};
ghost use Rattle.cs_acts.specs.Ready.{IsReady, IsSound};

use crate::World;
use crate::words::{
    self, behind, byte_before, byte_count, class_index, count_of_literals, further_bytes,
    is_between,
};
use cs_classes::slots::{ACTIVE_PROCESS, ASSOCIATION_SLOTS, SCHEDULER_SLOTS, VALUE};
use cs_decode::decode;
use cs_heap::BASE;
use cs_model::Instr;
use cs_word::Oop;

/// How many literals the active method has.
pub fn literal_count<W: World>(w: &W) -> u32
    requires { IsReady (W.stored w.now) (W.view w.now) }
    ensures { result ≡ length (literals_of (W.view w.now)) }
{
    count_of_literals(w.heap(), w.method())
}

/// Literal `i` of the active method, counted from 0; None exactly where it has none of that number.
pub fn literal<W: World>(w: &W, i: u32) -> Option<Oop>
    requires { IsReady (W.stored w.now) (W.view w.now) }
    ensures { NamesOption (W.stored w.now) result (slice_get (literals_of (W.view w.now)) i) }
{
    let heap = w.heap();
    let method = w.method();
    if i < count_of_literals(heap, method) {
        Some(heap.slot(method, i + 1))
    } else {
        None
    }
}

/// Nil, which is the first object of the heap.
pub fn nil<W: World>(w: &W) -> Oop
    requires { IsSound (W.stored w.now) (W.view w.now) }
    ensures { Names (W.stored w.now) result (nil_of (W.view w.now)) }
{
    Oop(BASE)
}

/// True or false, which lie in the heap behind nil: false, and then true.
pub fn boolean<W: World>(w: &W, truth: bool) -> Oop
    requires { IsSound (W.stored w.now) (W.view w.now) }
    ensures { Names (W.stored w.now) result (boolean (W.view w.now) truth) }
{
    let heap = w.heap();
    let no = behind(heap, Oop(BASE));
    if truth { behind(heap, no) } else { no }
}

/// Whether a pc lies in the active method: from its first bytecode to the one behind its last.
pub fn lies<W: World>(w: &W, pc: u64) -> bool
    requires { IsReady (W.stored w.now) (W.view w.now) }
    ensures value { result ≡ lies_in (method_of (W.view w.now)) pc }
    ensures below { IsTrue result → pc < 2 ^ 32 }
{
    let heap = w.heap();
    let method = w.method();
    let first = 4 * (count_of_literals(heap, method) + 1) + 1;
    let end = byte_count(heap, method) + 1;
    is_between(first, end, pc)
}

/// The `n`-th value from the top of the active stack, counted from 0; None exactly where the stack holds fewer.
pub fn from_top<W: World>(w: &W, n: u32) -> Option<Oop>
    requires { IsReady (W.stored w.now) (W.view w.now) }
    ensures value { NamesOption (W.stored w.now) result (from_top n (stack_of (W.view w.now))) }
    ensures there { IsSome result → n < depth_of (W.view w.now) }
{
    let depth = w.depth();
    if n < depth {
        Some(w.stack_at(depth - (n + 1)))
    } else {
        None
    }
}

/// Argument or temporary `i` of the active context, counted from 0 at the bottom of its stack; None exactly where the
/// stack holds fewer values.
pub fn temporary<W: World>(w: &W, i: u32) -> Option<Oop>
    requires { IsReady (W.stored w.now) (W.view w.now) }
    ensures value { NamesOption (W.stored w.now) result (slice_get (stack_of (W.view w.now)) i) }
{
    if i < w.depth() {
        Some(w.stack_at(i))
    } else {
        None
    }
}

/// Whether two words name the same.
pub fn same<W: World>(w: &W, a: Oop, b: Oop) -> bool
    requires sound { IsSound (W.stored w.now) (W.view w.now) }
    requires left { IsNamed (W.stored w.now) a }
    requires right { IsNamed (W.stored w.now) b }
    ensures { result ≡ same_ref (name_of (W.stored w.now) a) (name_of (W.stored w.now) b) }
{
    a == b
}

/// Slot `i` of a pointer object with at least `least` slots; None exactly where the word names none. A context isn't
/// one.
pub fn slot<W: World>(w: &W, o: Oop, least: u32, i: u32) -> Option<Oop>
    requires sound { IsSound (W.stored w.now) (W.view w.now) }
    requires named { IsNamed (W.stored w.now) o }
    requires within { i < least }
    ensures { NamesOption (W.stored w.now) result (option_and_then (λ slots. slice_get slots i)
        (slots_of (W.view w.now) least (name_of (W.stored w.now) o))) }
{
    let heap = w.heap();
    if words::has_slots(heap, o, least) {
        Some(heap.slot(o, i))
    } else {
        None
    }
}

/// Slot `i` of a pointer object; None exactly where the word names none that has this slot. A context isn't one.
pub fn slot_if_any<W: World>(w: &W, o: Oop, i: u32) -> Option<Oop>
    requires sound { IsSound (W.stored w.now) (W.view w.now) }
    requires named { IsNamed (W.stored w.now) o }
    ensures { NamesOption (W.stored w.now) result (option_and_then (λ slots. slice_get slots i)
        (slots_in (object_of (W.view w.now) (name_of (W.stored w.now) o)))) }
{
    let heap = w.heap();
    if words::has_slots(heap, o, 0) && i < heap.slot_count(o) {
        Some(heap.slot(o, i))
    } else {
        None
    }
}

/// Special object `i`, which is slot `i` of the special-object array; None exactly where it has no such slot.
pub fn special<W: World>(w: &W, i: u32) -> Option<Oop>
    requires { IsSound (W.stored w.now) (W.view w.now) }
    ensures { NamesOption (W.stored w.now) result (special_at (W.view w.now) i) }
{
    let heap = w.heap();
    let special = w.roots().special;
    if i < heap.slot_count(special) {
        Some(heap.slot(special, i))
    } else {
        None
    }
}

/// The class of what a word names, by the class table; None exactly where the table has none.
pub fn class_of<W: World>(w: &W, o: Oop) -> Option<Oop>
    requires sound { IsSound (W.stored w.now) (W.view w.now) }
    requires named { IsNamed (W.stored w.now) o }
    ensures { NamesOption (W.stored w.now) result (class_of (W.view w.now) (name_of (W.stored w.now) o)) }
{
    let index = class_index(w.heap(), o);
    let classes = w.classes();
    if index < classes.len() {
        classes.entry(index)
    } else {
        None
    }
}

/// Whether a word names a context.
pub fn is_context<W: World>(w: &W, o: Oop) -> bool
    requires sound { IsSound (W.stored w.now) (W.view w.now) }
    requires named { IsNamed (W.stored w.now) o }
    ensures { result ≡ is_context_ref (W.view w.now) (name_of (W.stored w.now) o) }
{
    cs_classes::is_context(w.heap(), o)
}

/// Whether a word names a method.
pub fn is_method<W: World>(w: &W, o: Oop) -> bool
    requires sound { IsSound (W.stored w.now) (W.view w.now) }
    requires named { IsNamed (W.stored w.now) o }
    ensures { result ≡ is_method (object_of (W.view w.now) (name_of (W.stored w.now) o)) }
{
    words::is_method(w.heap(), o)
}

/// Whether a word names a read-only object, into which image code may not store. No context is one.
pub fn is_read_only<W: World>(w: &W, o: Oop) -> bool
    requires sound { IsSound (W.stored w.now) (W.view w.now) }
    requires named { IsNamed (W.stored w.now) o }
    ensures { result ≡ is_read_only (W.view w.now) (name_of (W.stored w.now) o) }
{
    words::is_read_only(w.heap(), o)
}

/// The scheduler: slot 1 of special 3, where both have two slots.
#[tactic(auto, unfolding(cs_model::specs::State::scheduler_of))]
pub fn scheduler<W: World>(w: &W) -> Option<Oop>
    requires { IsSound (W.stored w.now) (W.view w.now) }
    ensures { NamesOption (W.stored w.now) result (scheduler_of (W.view w.now)) }
{
    match special(w, 3) {
        Some(association) => slot(w, association, ASSOCIATION_SLOTS, VALUE),
        None => None,
    }
}

/// The active process: slot 1 of the scheduler, which is nil where none is active.
#[tactic(auto, unfolding(cs_model::specs::State::active_process))]
pub fn active_process<W: World>(w: &W) -> Option<Oop>
    requires { IsSound (W.stored w.now) (W.view w.now) }
    ensures { NamesOption (W.stored w.now) result (active_process (W.view w.now)) }
{
    match scheduler(w) {
        Some(scheduler) => slot(w, scheduler, SCHEDULER_SLOTS, ACTIVE_PROCESS),
        None => None,
    }
}

/// Whether a word names a pointer object with at least so many slots. A context isn't one.
pub fn has_slots<W: World>(w: &W, o: Oop, least: u32) -> bool
    requires sound { IsSound (W.stored w.now) (W.view w.now) }
    requires named { IsNamed (W.stored w.now) o }
    ensures { result ≡ is_some (slots_of (W.view w.now) least (name_of (W.stored w.now) o)) }
{
    words::has_slots(w.heap(), o, least)
}

/// The byte at the active pc; None exactly where that is at the end of the method.
pub fn byte<W: World>(w: &W) -> Option<u8>
    requires { IsReady (W.stored w.now) (W.view w.now) }
    ensures { result ≡ slice_get (bytecodes_of (W.view w.now))
        (pc_of (W.view w.now) - first_pc (literals_of (W.view w.now))) }
{
    let heap = w.heap();
    let method = w.method();
    let pc = w.pc();
    if pc <= byte_count(heap, method) {
        Some(heap.byte(method, pc - 1))
    } else {
        None
    }
}

/// The instruction at the active pc; None exactly where the bytes there are none.
///
/// A method has at most 2^28 bytes, so that a pc behind the instruction fits.
pub fn instruction<W: World>(w: &W) -> Option<Instr>
    requires { IsReady (W.stored w.now) (W.view w.now) }
    ensures value { result ≡ instruction_at (W.view w.now) }
    ensures most { pc_of (W.view w.now) ≤ 268435457 }
{
    let heap = w.heap();
    let method = w.method();
    let at = w.pc() - 1;
    let end = byte_count(heap, method);
    let code = byte_before(heap, method, at, end);
    let further = further_bytes(heap, method, at, end, code);
    let bytes = [code, further.second, further.third, further.fourth];
    let count = (end - at).min(4);
    match decode(&bytes[..count as usize], 0) {
        Ok(instruction) => Some(instruction),
        Err(_) => None,
    }
}
