//! Returns and blocks, over any world: to the sender, from a block to the sender of its home, past marks and into the
//! dead; the primitives that evaluate closures; and those that look for marks along the senders.
#![tactic(auto)]

ghost use Rattle.std.specs.Prelude.{◌≡◌, ◌<◌, None, true};
ghost use Rattle.cs_model.specs.Keeps.{SameKept};
ghost use Rattle.cs_model.specs.PrimTable.{kept_prim};
ghost use Rattle.cs_model.specs.Read.{depth_of};
ghost use Rattle.cs_model.specs.Return.{back};
ghost use Rattle.cs_acts.specs.Names.{IsNamed, name_of};
ghost use Rattle.cs_acts.specs.Primed.{PrimGives, PrimLaid, PrimMakes, UnlessFull};
ghost use Rattle.cs_acts.specs.Ready.{IsReady};
ghost use Rattle.cs_unwind.specs.Back.{BackExact, BackGives, BackLaid, BackMakes};
ghost use Rattle.cs_unwind.specs.Performed.{Performs};
ghost use Rattle.cs_unwind.specs.Primitive.{entered_from, unwinds};

mod blocks;
mod end;
mod marks;
mod numbers;
mod returns;
mod search;

use blocks::{evaluate, evaluate_array};
use cs_acts::{PrimEnd, World};
use cs_word::Oop;
pub use end::BackEnd;
use marks::{handler_mark, unwind_mark};
use numbers::Primitive;

/// Returns a value: to the sender of the active context, or from its home to the sender of that.
///
/// A home is the context without a closure to which the outer contexts of closures lead. Where a context strictly
/// between the active one and the home is marked with 198, the active context is to be sent special selector 48,
/// `aboutToReturn:through:`, with the value and the first such mark; where there is no home among the senders, or the
/// target is nil, dead, or would die in this return, special selector 21, `cannotReturn:`, with the value; else all
/// from the active context to the home die, and the value is pushed at the target. The causes to stop: ChainTooLong
/// where a search follows 1,048,576 links and isn't at its end, and StackOver where the target, or for a message the
/// active context, has no room. `Full` comes only for the heap: where it has no room for the contexts that a message
/// names, or where the world makes one for the value to arrive. Where it stops, nothing is changed.
#[tactic(auto, unfolding(cs_model::specs::Return::back))]
pub fn give_back<W: World>(w: &mut W, value: Oop, local: bool) -> BackEnd
    requires ready { IsReady (W.stored w.old) (W.view w.old) }
    requires named { IsNamed (W.stored w.old) value }
    ensures gives { BackGives (W.stored w.old) (W.stored w.new) (W.layout w.old) (W.view w.old) (W.view w.new) result
        (back (W.view w.old) (name_of (W.stored w.old) value) local) }
    ensures exact { BackExact (W.layout w.old) (W.view w.old) (W.view w.new) result
        (back (W.view w.old) (name_of (W.stored w.old) value) local) }
    ensures layout { BackLaid (W.view w.old) local result (W.layout w.old) (W.layout w.new) }
    ensures limit { (W.stored w.new).memory.limit ≡ (W.stored w.old).memory.limit }
    ensures contexts { BackMakes result (W.layout w.old) (W.stored w.old) (W.stored w.new) }
{
    if local {
        returns::to_sender(w, value)
    } else {
        returns::from_home(w, value)
    }
}

/// Whether a primitive evaluates a closure or looks for a mark, or is a mark: those that `primitive` does.
pub fn unwinds(number: u32) -> bool
    ensures { result ≡ unwinds number }
{
    Primitive::from_number(number).is_some()
}

/// Does primitive `number` with `args` arguments.
///
/// 201 to 205 evaluate a closure with 0 to 4 arguments, 221 and 222 with 0 and 1, and 206 with the elements of an
/// Array. 195 answers the first context marked with 198 from the receiver's sender on and before the argument, 197 the
/// first one marked with 199 from the receiver itself on; both answer nil where there is none. 198 and 199 are the
/// marks, and fail. With another number of arguments all fail. The causes to stop: StackOver where arguments and copied
/// values don't fit the block's context, and ChainTooLong. Nothing is changed then, but that 206 has put the elements
/// in the place of the Array.
pub fn primitive<W: World>(w: &mut W, number: u32, args: u32) -> PrimEnd
    requires ready { IsReady (W.stored w.old) (W.view w.old) }
    requires number { unwinds number ≡ true }
    requires there { args < depth_of (W.view w.old) }
    requires births { (W.view w.old).rest.next < 4611686018427387904 }
    ensures gives { PrimGives (W.stored w.old) (W.stored w.new) (W.layout w.old) (W.view w.old)
        (entered_from (W.view w.old) number) (W.view w.new) result (kept_prim number args (W.view w.old)) }
    ensures exact { UnlessFull result (W.layout w.old ≡ None → SameKept (W.view w.new)
        (kept_prim number args (W.view w.old)).state) }
    ensures layout { PrimLaid (entered_from (W.view w.old) number) result (W.layout w.old) (W.layout w.new) }
    ensures limit { (W.stored w.new).memory.limit ≡ (W.stored w.old).memory.limit }
    ensures contexts { PrimMakes (entered_from (W.view w.old) number) result
        (kept_prim number args (W.view w.old)).count.looks (W.layout w.old) (W.stored w.old) (W.stored w.new) }
{
    perform(w, number, args)
}

/// The same, with what is said of it in one clause.
fn perform<W: World>(w: &mut W, number: u32, args: u32) -> PrimEnd
    requires ready { IsReady (W.stored w.old) (W.view w.old) }
    requires number { unwinds number ≡ true }
    requires there { args < depth_of (W.view w.old) }
    requires births { (W.view w.old).rest.next < 4611686018427387904 }
    ensures { Performs (W.stored w.old) (W.stored w.new) (W.layout w.old) (W.layout w.new) (W.view w.old)
        (entered_from (W.view w.old) number) (W.view w.new) result (kept_prim number args (W.view w.old)) }
{
    let Some(primitive) = Primitive::from_number(number) else {
        unreachable!();
    };
    match primitive {
        Primitive::FindUnwindMark => unwind_mark(w, args),
        Primitive::FindHandlerMark => handler_mark(w, args),
        Primitive::Mark => PrimEnd::Fail,
        Primitive::Evaluate { args: wanted } => evaluate(w, wanted, args),
        Primitive::EvaluateArray => evaluate_array(w, args),
    }
}
