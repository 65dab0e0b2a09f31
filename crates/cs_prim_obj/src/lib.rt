//! Primitives on objects, over any world: elements, slots, bytes and literals, identity and class, what is read-only,
//! and the quick primitives.
//!
//! Where one fails, nothing is changed. On success receiver and arguments are popped, and the answer is pushed.
#![tactic(auto)]

ghost use Rattle.std.specs.Prelude.{◌≡◌, ◌<◌, None, true};
ghost use Rattle.cs_model.specs.Keeps.{SameKept};
ghost use Rattle.cs_model.specs.PrimTable.{kept_prim};
ghost use Rattle.cs_model.specs.Read.{depth_of};
ghost use Rattle.cs_acts.specs.Made.{MakesAtMost};
ghost use Rattle.cs_acts.specs.Primed.{PrimGives, UnlessFull};
ghost use Rattle.cs_acts.specs.Ready.{IsReady};
ghost use Rattle.cs_prim_ctx.specs.Answered.{PerformsInPlace};
ghost use Rattle.cs_prim_obj.specs.Numbers.{performs_on_objects};

mod answering;
mod contents;
mod elements;
mod identity;
mod literals;
mod numbers;
mod quick;
mod slots;
mod words;

use cs_acts::{PrimEnd, World};
use numbers::Primitive;

/// Does primitive `number` with `args` arguments.
///
/// 60 answers an element, 62 how many there are, and 63 and 64 read and write bytes as Characters. 68 and 69 read and
/// write the literals of a method, where 68 also reads its header. 73 and 74 read and write a slot of a receiver that
/// is no context. 110 tells whether two values are the same, 111 answers the class, 163 whether the receiver is
/// read-only, and 164 changes that. 256 to 519 answer the receiver, a constant, or a field of the receiver, which may
/// be a context, with any number of arguments. The others fail with another number than their own.
///
/// `Full` comes only where the first field of a context, its sender, was to be answered.
pub fn primitive<W: World>(w: &mut W, number: u32, args: u32) -> PrimEnd
    requires ready { IsReady (W.stored w.old) (W.view w.old) }
    requires number { performs_on_objects (W.view w.old) number args ≡ true }
    requires there { args < depth_of (W.view w.old) }
    ensures gives { PrimGives (W.stored w.old) (W.stored w.new) (W.layout w.old) (W.view w.old) (W.view w.old)
        (W.view w.new) result (kept_prim number args (W.view w.old)) }
    ensures exact { UnlessFull result (W.layout w.old ≡ None → SameKept (W.view w.new)
        (kept_prim number args (W.view w.old)).state) }
    ensures layout { UnlessFull result (W.layout w.new ≡ W.layout w.old) }
    ensures limit { (W.stored w.new).memory.limit ≡ (W.stored w.old).memory.limit }
    ensures contexts { UnlessFull result (MakesAtMost (kept_prim number args (W.view w.old)).count.looks
        (W.layout w.old) (W.stored w.old) (W.stored w.new)) }
{
    perform(w, number, args)
}

/// The same, with what is said of it in one clause.
fn perform<W: World>(w: &mut W, number: u32, args: u32) -> PrimEnd
    requires ready { IsReady (W.stored w.old) (W.view w.old) }
    requires number { performs_on_objects (W.view w.old) number args ≡ true }
    requires there { args < depth_of (W.view w.old) }
    ensures { PerformsInPlace (W.stored w.old) (W.stored w.new) (W.layout w.old) (W.layout w.new) (W.view w.old)
        (W.view w.new) result (kept_prim number args (W.view w.old)) }
{
    let Some(primitive) = Primitive::from_number(number) else {
        unreachable!();
    };
    if !primitive.takes(args) {
        return PrimEnd::Fail;
    }
    match primitive {
        Primitive::CharAtPut => elements::char_at_put(w),
        Primitive::ObjectAtPut => literals::object_at_put(w),
        Primitive::SetReadOnly => identity::set_read_only(w),
        Primitive::SlotAtPut => slots::slot_at_put(w),
        Primitive::At => elements::at(w),
        Primitive::Size => elements::size(w),
        Primitive::CharAt => elements::char_at(w),
        Primitive::ObjectAt => literals::object_at(w),
        Primitive::SlotAt => slots::slot_at(w),
        Primitive::Identical => identity::identical(w),
        Primitive::Class => identity::class(w),
        Primitive::IsReadOnly => identity::is_unwritable_receiver(w),
        Primitive::Quick => quick::quick(w, number, args),
    }
}
