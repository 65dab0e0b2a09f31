//! Which instructions there are.

ghost use Rattle.std.specs.Prelude.{◌≡◌, IsTrue, ◌↔◌};
ghost use Rattle.cs_model.specs.Assemble.{IsInstr, has_form, fits_within, send_has_form, super_has_form, jump_has_form};
ghost use Rattle.cs_model.specs.Assemble.{jump_false_has_form};

use cs_model::{Instr, Op};

/// Whether some bytes decode to the instruction: its numbers fit a form of its length.
pub fn is_instr(i: &Instr) -> bool
    ensures { IsTrue result ↔ IsInstr i.now }
{
    has_form(i.len, i.op)
}

/// Whether an instruction comes in a form of so many bytes.
fn has_form(len: u8, op: Op) -> bool
    ensures { result ≡ has_form len op }
{
    match op {
        Op::PushRcvr(n) => fits_within(16, 64, 256, len, n),
        Op::PushTemp(n) => fits_within(16, 64, 0, len, n),
        Op::PushLit(n) | Op::PushLitVar(n) => fits_within(32, 64, 256, len, n),
        Op::PopRcvr(n) => fits_within(8, 64, 256, len, n),
        Op::PopTemp(n) => fits_within(8, 64, 0, len, n),
        Op::PopLitVar(n) | Op::StoreTemp(n) => fits_within(0, 64, 0, len, n),
        Op::StoreRcvr(n) | Op::StoreLitVar(n) => fits_within(0, 64, 256, len, n),
        Op::PushInt(z) => len == 1 && -1 <= z && z < 3,
        Op::Send { lit, args } => send_has_form(len, lit, args),
        Op::SendSuper { lit, args } => super_has_form(len, lit, args),
        Op::NewArray(n) | Op::PopArray(n) => len == 2 && n < 128,
        Op::Prim { .. } | Op::PushVec { .. } | Op::StoreVec { .. } | Op::PopVec { .. } => len == 3,
        Op::Closure { copied, args, .. } => len == 4 && copied < 16 && args < 16,
        Op::Jump(offset) => jump_has_form(len, offset),
        Op::JumpTrue(offset) => len == 2 && offset < 1024,
        Op::JumpFalse(offset) => jump_false_has_form(len, offset),
        Op::Special(k) | Op::Common(k) => len == 1 && k < 16,
        _ => len == 1,
    }
}

/// Whether an index is below the limit of its length, of one, two or three bytes.
fn fits_within(one: u16, two: u16, three: u16, len: u8, index: u8) -> bool
    ensures { result ≡ fits_within one two three len index }
{
    let index = u16::from(index);
    match len {
        1 => index < one,
        2 => index < two,
        3 => index < three,
        _ => false,
    }
}

/// Whether a send comes in a form of so many bytes.
fn send_has_form(len: u8, lit: u8, args: u8) -> bool
    ensures { result ≡ send_has_form len lit args }
{
    match len {
        1 => lit < 16 && args < 3,
        2 => lit < 32 && args < 8 || lit < 64 && args < 4,
        3 => args < 32,
        _ => false,
    }
}

/// Whether a send to super comes in a form of so many bytes.
fn super_has_form(len: u8, lit: u8, args: u8) -> bool
    ensures { result ≡ super_has_form len lit args }
{
    match len {
        2 => lit < 32 && args < 8,
        3 => args < 32,
        _ => false,
    }
}

/// Whether a jump comes in a form of so many bytes.
fn jump_has_form(len: u8, offset: i16) -> bool
    ensures { result ≡ jump_has_form len offset }
{
    match len {
        1 => 1 <= offset && offset < 9,
        2 => -1024 <= offset && offset < 1024,
        _ => false,
    }
}

/// Whether a jump if false comes in a form of so many bytes.
fn jump_false_has_form(len: u8, offset: u16) -> bool
    ensures { result ≡ jump_false_has_form len offset }
{
    match len {
        1 => 0 < offset && offset < 9,
        2 => offset < 1024,
        _ => false,
    }
}
