//! The instructions of a method's lines.

ghost use Rattle.std.specs.Prelude.{◌≡◌, ◌≤◌, ◌∷◌, [], find, option_map, Some, None, IfSome, if◌then◌else◌};
ghost use Rattle.cs_model.specs.Assemble.{IsInstr, has_form};
ghost use Rattle.cs_model.specs.BuilderText as text;
ghost use Rattle.cs_model.specs.BuilderFault.{byte_count as byte_count_of};
ghost use Rattle.cs_model.specs.BuilderText.{op_named, plain_ops, ops_of_one, ops_of_two};
ghost use Rattle.cs_build.specs.Meaning.{form_by};
ghost use Rattle.cs_build.specs.Narrow.{narrow_op};

use crate::form::Form;
use cs_decode::{Instr, assemble, is_instr};
use cs_model::Op;

/// The first form of an instruction that its numbers fit, the shortest one.
pub fn first_form(op: Op) -> Option<Instr>
    ensures length { option_map (λ i. i.len) result ≡ find (λ len. has_form len op) (1 ∷ 2 ∷ 3 ∷ 4 ∷ []) }
    ensures op { IfSome result (λ i. i.op ≡ op) }
    ensures form { IfSome result IsInstr }
{
    if let Some(form) = of_length(op, 1) {
        return Some(form);
    }
    if let Some(form) = of_length(op, 2) {
        return Some(form);
    }
    if let Some(form) = of_length(op, 3) {
        return Some(form);
    }
    of_length(op, 4)
}

/// The form of so many bytes, if the instruction comes in it.
pub(crate) fn of_length(op: Op, len: u8) -> Option<Instr>
    ensures length { option_map (λ i. i.len) result ≡ (if has_form len op then Some len else None) }
    ensures op { IfSome result (λ i. i.op ≡ op) }
    ensures form { IfSome result IsInstr }
{
    let instruction = Instr { op, len };
    if is_instr(&instruction) {
        Some(instruction)
    } else {
        None
    }
}

/// How many bytes of code a line makes.
pub(crate) fn byte_count(form: &Form<'_>) -> u32
    ensures count { result ≡ byte_count_of (form_by form.now) }
    ensures few { result ≤ 4 }
{
    match form {
        Form::Byte(_) => 1,
        Form::Plain(Some(op)) => plain_length(*op),
        Form::JumpTo { .. } => 2,
        Form::ClosureTo { .. } => 4,
        _ => 0,
    }
}

/// How many bytes of code an instruction makes, 0 where it comes in no form.
fn plain_length(op: Op) -> u32
    ensures count { result ≡ byte_count_of (text.Plain (Some op)) }
    ensures few { result ≤ 4 }
{
    match first_form(op) {
        Some(instruction) => assemble(&instruction).len() as u32,
        None => 0,
    }
}

/// An instruction if it comes in a form.
pub fn if_formed(op: Op) -> Option<Op>
    ensures { result ≡ narrow_op (Some op) }
{
    let _form = first_form(op)?;
    Some(op)
}

/// The instruction without numbers that a word names.
pub fn plain_op(word: &[u8]) -> Option<Op>
    ensures { result ≡ op_named word.now plain_ops }
{
    let ops = [
        Op::PushSelf,
        Op::PushTrue,
        Op::PushFalse,
        Op::PushNil,
        Op::ReturnSelf,
        Op::ReturnTrue,
        Op::ReturnFalse,
        Op::ReturnNil,
        Op::ReturnTop,
        Op::BlockReturn,
        Op::Pop,
        Op::Dup,
        Op::ThisContext,
    ];
    op_named(word, &ops)
}

/// The instruction that a word names, with one number that isn't negative.
pub fn op_of_one(word: &[u8], n: u8) -> Option<Op>
    ensures { result ≡ op_named word.now (ops_of_one n) }
{
    let ops = [
        Op::PushRcvr(n),
        Op::PushTemp(n),
        Op::PushLit(n),
        Op::PushLitVar(n),
        Op::PopRcvr(n),
        Op::PopTemp(n),
        Op::PopLitVar(n),
        Op::StoreRcvr(n),
        Op::StoreTemp(n),
        Op::StoreLitVar(n),
        Op::NewArray(n),
        Op::PopArray(n),
        Op::Special(n),
        Op::Common(n),
    ];
    op_named(word, &ops)
}

/// The instruction that a word names, with two numbers that aren't negative.
pub fn op_of_two(word: &[u8], a: u8, b: u8) -> Option<Op>
    ensures { result ≡ op_named word.now (ops_of_two a b) }
{
    let ops = [
        Op::Send { lit: a, args: b },
        Op::SendSuper { lit: a, args: b },
        Op::PushVec { k: a, j: b },
        Op::StoreVec { k: a, j: b },
        Op::PopVec { k: a, j: b },
    ];
    op_named(word, &ops)
}

/// The one of that word.
#[tactic(auto, using(crate::proofs::OpLemmas::finding))]
fn op_named(word: &[u8], ops: &[Op]) -> Option<Op>
    ensures { result ≡ op_named word.now ops.now }
{
    for op in ops {
        if op.name().as_bytes() == word {
            return Some(*op);
        }
    }
    None
}
