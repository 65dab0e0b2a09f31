//! Primitives on numbers, over any world: arithmetic, comparisons and bits of two SmallIntegers.
//!
//! Where one fails, nothing is changed. On success receiver and argument are popped, and the answer is pushed. The
//! primitives on floats and large integers, which this machine lets the image's methods do, fail.
#![tactic(auto)]

ghost use Rattle.std.specs.Prelude.{◌≡◌, ◌<◌, None, true};
ghost use Rattle.cs_model.specs.Keeps.{SameKept};
ghost use Rattle.cs_model.specs.PrimNumber.{number_prim};
ghost use Rattle.cs_model.specs.PrimTable.{kept_prim};
ghost use Rattle.cs_model.specs.Read.{depth_of};
ghost use Rattle.cs_acts.specs.declared.prim.PrimEnd.TheVariants as prim;
ghost use Rattle.cs_acts.specs.Arithmetic.{primitive_of};
ghost use Rattle.cs_acts.specs.Made.{MakesAtMost};
ghost use Rattle.cs_acts.specs.Primed.{PrimGives};
ghost use Rattle.cs_acts.specs.Ready.{IsReady};
ghost use Rattle.cs_prim_num.specs.Answered.{AnswersOrFails, PerformsOnNumbers};
ghost use Rattle.cs_prim_num.specs.Numbers.{HasOperation, is_on_numbers};

use cs_acts::answer::answer;
use cs_acts::arithmetic::{Operation, computed};
use cs_acts::{PrimEnd, World};

/// Whether a primitive is one on numbers: those that `primitive` does.
pub fn is_on_numbers(number: u32) -> bool
    ensures { result ≡ is_on_numbers number }
{
    matches!(number, 1..=17 | 21..=37 | 40..=59)
}

/// Does primitive `number` with `args` arguments.
///
/// 1 to 17 compute `+ - < > <= >= = ~= * / \\ // quo: bitAnd: bitOr: bitXor: bitShift:` of two SmallIntegers. They fail
/// where receiver or argument is none, the number of arguments isn't 1, the divisor is 0, `/` leaves something, or the
/// result is no SmallInteger. 21 to 37 and 40 to 59 are on large integers and floats, and always fail.
pub fn primitive<W: World>(w: &mut W, number: u32, args: u32) -> PrimEnd
    requires ready { IsReady (W.stored w.old) (W.view w.old) }
    requires number { is_on_numbers number ≡ true }
    requires there { args < depth_of (W.view w.old) }
    ensures gives { PrimGives (W.stored w.old) (W.stored w.new) (W.layout w.old) (W.view w.old) (W.view w.old)
        (W.view w.new) result (kept_prim number args (W.view w.old)) }
    ensures ends { AnswersOrFails result }
    ensures unchanged { result ≡ prim.Fail → w.new ≡ w.old }
    ensures exact { W.layout w.old ≡ None → SameKept (W.view w.new) (kept_prim number args (W.view w.old)).state }
    ensures layout { W.layout w.new ≡ W.layout w.old }
    ensures limit { (W.stored w.new).memory.limit ≡ (W.stored w.old).memory.limit }
    ensures contexts { MakesAtMost 0 (W.layout w.old) (W.stored w.old) (W.stored w.new) }
{
    match operation_of(number) {
        Some(operation) => compute(w, operation, args),
        None => PrimEnd::Fail,
    }
}

/// What a primitive computes of two SmallIntegers; None exactly where it computes nothing.
fn operation_of(number: u32) -> Option<Operation>
    ensures { HasOperation result number }
{
    match number {
        1 => Some(Operation::Add),
        2 => Some(Operation::Subtract),
        3 => Some(Operation::Less),
        4 => Some(Operation::Greater),
        5 => Some(Operation::AtMost),
        6 => Some(Operation::AtLeast),
        7 => Some(Operation::Equal),
        8 => Some(Operation::NotEqual),
        9 => Some(Operation::Multiply),
        10 => Some(Operation::Divide),
        11 => Some(Operation::Modulo),
        12 => Some(Operation::DivideDown),
        13 => Some(Operation::Quotient),
        14 => Some(Operation::BitAnd),
        15 => Some(Operation::BitOr),
        16 => Some(Operation::BitXor),
        17 => Some(Operation::BitShift),
        _ => None,
    }
}

/// Answers what an operation gives of receiver and argument, and fails where it gives nothing.
fn compute<W: World>(w: &mut W, operation: Operation, args: u32) -> PrimEnd
    requires ready { IsReady (W.stored w.old) (W.view w.old) }
    ensures performs { PerformsOnNumbers (W.stored w.old) (W.stored w.new) (W.layout w.old) (W.layout w.new)
        (W.view w.old) (W.view w.new) result (number_prim (W.view w.old) (primitive_of operation) args) }
    ensures unchanged { result ≡ prim.Fail → w.new ≡ w.old }
{
    if args != 1 {
        return PrimEnd::Fail;
    }
    match computed(w, operation) {
        Some(value) => {
            answer(w, 1, value);
            PrimEnd::Answer
        }
        None => PrimEnd::Fail,
    }
}
