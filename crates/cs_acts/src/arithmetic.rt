//! Arithmetic of two SmallIntegers, as the integer primitives and the special selectors do it (Blue Book, part four).
ghost use Rattle.std.specs.Prelude.{◌≡◌, ◌≤◌, ◌&&◌, IfSome, None, Some, nat_le, option_and_then, if◌then◌else◌};
ghost use Rattle.cs_word.specs.Word.{IsSmall};
ghost use Rattle.cs_model.specs.Arithmetic.{exact_quotient};
ghost use Rattle.cs_model.specs.Exec.{small_operands};
ghost use Rattle.cs_model.specs.Number.{comparison, computation, number_result};
ghost use Rattle.cs_model.specs.Read.{depth_of};
ghost use Rattle.cs_model.specs.Ref as ref;
ghost use Rattle.cs_model.specs.Ref.{small_of};
ghost use Rattle.cs_acts.specs.Arithmetic.{is_comparison, primitive_of};
ghost use Rattle.cs_acts.specs.Names.{IsNamed, Names, NamesOption, Store, name_of};
ghost use Rattle.cs_acts.specs.Ready.{IsReady, IsSound};

use crate::World;
use crate::read::{boolean, from_top};
use cs_word::{Kind, Oop, add, div, mul, quo, rem, shift, sub};

/// What is computed of two SmallIntegers.
#[derive(Clone, Copy, Debug, PartialEq, Eq)]
pub enum Operation {
    /// `+`
    Add,
    /// `-`
    Subtract,
    /// `<`
    Less,
    /// `>`
    Greater,
    /// `<=`
    AtMost,
    /// `>=`
    AtLeast,
    /// `=`
    Equal,
    /// `~=`
    NotEqual,
    /// `*`
    Multiply,
    /// `/`, which has an answer where the division leaves nothing.
    Divide,
    /// `\\`: what `//` leaves.
    Modulo,
    /// `//`: the quotient rounded down.
    DivideDown,
    /// `quo:`: the quotient rounded toward zero.
    Quotient,
    /// `bitAnd:`
    BitAnd,
    /// `bitOr:`
    BitOr,
    /// `bitXor:`
    BitXor,
    /// `bitShift:`: to the left by a number that isn't negative, else to the right.
    BitShift,
}

/// What an operation gives of the two topmost values, the lower one first; None exactly where they aren't two
/// SmallIntegers, or the operation has no result of them that is one.
pub fn computed<W: World>(w: &W, operation: Operation) -> Option<Oop>
    requires { IsReady (W.stored w.now) (W.view w.now) }
    ensures value { NamesOption (W.stored w.now) result (option_and_then
        (λ p. number_result (W.view w.now) (primitive_of operation) p.0 p.1) (small_operands (W.view w.now))) }
    ensures there { IfSome result (λ _. 2 ≤ depth_of (W.view w.now)) }
{
    let (a, b) = operands(w)?;
    number_result(w, operation, a, b)
}

/// The two topmost values, the lower one first; None exactly where they aren't two SmallIntegers.
fn operands<W: World>(w: &W) -> Option<(i32, i32)>
    requires { IsReady (W.stored w.now) (W.view w.now) }
    ensures value { result ≡ small_operands (W.view w.now) }
    ensures there { IfSome result (λ _. 2 ≤ depth_of (W.view w.now)) }
    ensures small { IfSome result (λ p. IsSmall p.0 × IsSmall p.1) }
{
    let a = small_in(from_top(w, 1)?)?;
    let b = small_in(from_top(w, 0)?)?;
    Some((a, b))
}

/// What an operation gives of two SmallIntegers: a SmallInteger, or true or false; None exactly where its result isn't
/// defined, or is no SmallInteger.
#[tactic(auto, unfolding(cs_model::specs::Number::number_result))]
fn number_result<W: World>(w: &W, operation: Operation, a: i32, b: i32) -> Option<Oop>
    requires sound { IsSound (W.stored w.now) (W.view w.now) }
    requires a_small { IsSmall a }
    requires b_small { IsSmall b }
    ensures { NamesOption (W.stored w.now) result (number_result (W.view w.now) (primitive_of operation) a b) }
{
    if let Some(truth) = compare(operation, a, b) {
        return Some(boolean(w, truth));
    }
    match compute(operation, a, b) {
        Some(value) => Some(small_word(value)),
        None => None,
    }
}

/// The word of a SmallInteger.
#[tactic(auto, unfolding(cs_classes::specs::Meaning::ref_of, cs_classes::specs::Sound::is_reference))]
pub fn small_word(z: i32) -> Oop
    requires { IsSmall z }
    ensures { (s : Store) → Names s result (ref.Small z) }
{
    let Some(word) = Oop::small(z) else {
        unreachable!();
    };
    word
}

/// The SmallInteger that a word is; None exactly where it is none.
#[tactic(auto, unfolding(cs_classes::specs::Meaning::ref_of, cs_classes::specs::Sound::is_reference))]
fn small_in(word: Oop) -> Option<i32>
    ensures value { (s : Store) → IsNamed s word → result ≡ small_of (name_of s word) }
    ensures small { IfSome result (λ z. IsSmall z) }
{
    match word.kind() {
        Kind::Small(value) => Some(value),
        _ => None,
    }
}

/// What a comparison gives; None exactly where the operation is none.
fn compare(operation: Operation, a: i32, b: i32) -> Option<bool>
    ensures { result ≡ (if is_comparison (primitive_of operation) then Some (comparison (primitive_of operation) a b)
        else None) }
{
    match operation {
        Operation::Less => Some(a < b),
        Operation::Greater => Some(a > b),
        Operation::AtMost => Some(a <= b),
        Operation::AtLeast => Some(a >= b),
        Operation::Equal => Some(a == b),
        Operation::NotEqual => Some(a != b),
        _ => None,
    }
}

/// What any other operation computes; None exactly where its result isn't defined, or is no SmallInteger, and for a
/// comparison.
fn compute(operation: Operation, a: i32, b: i32) -> Option<i32>
    requires a_small { IsSmall a }
    requires b_small { IsSmall b }
    ensures value { result ≡ computation (primitive_of operation) a b }
    ensures small { IfSome result (λ z. IsSmall z) }
{
    match operation {
        Operation::Add => add(a, b),
        Operation::Subtract => sub(a, b),
        Operation::Multiply => mul(a, b),
        Operation::Divide => exact_quotient(a, b),
        Operation::Modulo => rem(a, b),
        Operation::DivideDown => div(a, b),
        Operation::Quotient => quo(a, b),
        Operation::BitAnd => Some(a & b),
        Operation::BitOr => Some(a | b),
        Operation::BitXor => Some(a ^ b),
        Operation::BitShift => shift(a, b),
        _ => None,
    }
}

/// The quotient, where the division leaves nothing.
fn exact_quotient(a: i32, b: i32) -> Option<i32>
    requires a_small { IsSmall a }
    requires b_small { IsSmall b }
    ensures { result ≡ exact_quotient a b }
{
    match rem(a, b) {
        Some(0) => div(a, b),
        _ => None,
    }
}
