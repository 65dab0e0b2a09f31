//! From instructions to bytes, and to the assembler's words.

ghost use Rattle.std.specs.Prelude.{◌≡◌, ◌+◌, ◌*◌, ◌/◌, ◌<◌, ◌≤◌, Some, length, IsTrue};
ghost use Rattle.arrayvec.specs.ArrayVec.{array_vec_len};
ghost use Rattle.cs_model.specs.Decode.{decode_at};
ghost use Rattle.cs_model.specs.Assemble.{IsInstr, has_form, send_has_form, super_has_form, jump_has_form};
ghost use Rattle.cs_model.specs.Assemble.{jump_false_has_form, assembled, bytes_of, op_name, plain_code};
ghost use Rattle.cs_model.specs.Assemble.{variable_bytes, send_bytes, super_bytes, with_number, jump_bytes};
ghost use Rattle.cs_model.specs.Assemble.{jump_false_bytes};

use arrayvec::ArrayVec;
use cs_model::{Instr, Op};

/// The bytes of an instruction that some bytes decode to. There are `len` of them, and they decode
/// to the instruction. Where it has more than one form of that length, the first is taken (131 before
/// 134 for a send), and what a form ignores is 0.
pub fn assemble(i: &Instr) -> ArrayVec<u8, 4>
    requires { IsInstr i.now }
    ensures bytes { result.items ≡ assembled i.now }
    ensures len { array_vec_len result ≡ i.now.len }
    ensures decoded { decode_at result.items 0 ≡ Some i.now }
{
    bytes_of(i.len, i.op)
}

/// The bytes of an instruction that has a form of so many.
fn bytes_of(len: u8, op: Op) -> ArrayVec<u8, 4>
    requires { IsTrue (has_form len op) }
    ensures bytes { result.items ≡ bytes_of len op }
    ensures len { array_vec_len result ≡ length result.items }
{
    match op {
        Op::PushRcvr(n) => variable(0, 128, 0, 2, len, n),
        Op::PushTemp(n) => variable(16, 128, 1, 0, len, n),
        Op::PushLit(n) => variable(32, 128, 2, 3, len, n),
        Op::PushLitVar(n) => variable(64, 128, 3, 4, len, n),
        Op::PopRcvr(n) => variable(96, 130, 0, 6, len, n),
        Op::PopTemp(n) => variable(104, 130, 1, 0, len, n),
        Op::PopLitVar(n) => variable(0, 130, 3, 0, len, n),
        Op::StoreRcvr(n) => variable(0, 129, 0, 5, len, n),
        Op::StoreTemp(n) => variable(0, 129, 1, 0, len, n),
        Op::StoreLitVar(n) => variable(0, 129, 3, 7, len, n),
        Op::PushInt(z) => packed(&[(z + 117) as u8]),
        Op::Send { lit, args } => send(len, lit, args),
        Op::SendSuper { lit, args } => send_super(len, lit, args),
        Op::NewArray(n) => packed(&[138, n]),
        Op::PopArray(n) => packed(&[138, 128 + n]),
        Op::Prim { i, j } => packed(&[139, i, j]),
        Op::PushVec { k, j } => packed(&[140, k, j]),
        Op::StoreVec { k, j } => packed(&[141, k, j]),
        Op::PopVec { k, j } => packed(&[142, k, j]),
        Op::Closure { copied, args, size } => {
            let [high, low] = size.to_be_bytes();
            packed(&[143, 16 * copied + args, high, low])
        }
        Op::Jump(offset) => jump(len, offset),
        Op::JumpTrue(offset) => with_number(168, offset),
        Op::JumpFalse(offset) => jump_false(len, offset),
        Op::Special(k) => packed(&[176 + k]),
        Op::Common(k) => packed(&[192 + k]),
        _ => packed(&[plain_code(op)]),
    }
}

/// A variable's bytes: from its first short code, from its extended code and kind there, or from
/// its operation in 132.
fn variable(short: u8, code: u8, kind: u8, operation: u8, len: u8, index: u8) -> ArrayVec<u8, 4>
    requires one { len ≡ 1 → short + index < 256 }
    requires two { len ≡ 2 → 64 * kind + index < 256 }
    requires three { operation < 8 }
    ensures bytes { result.items ≡ variable_bytes short code kind operation len index }
    ensures len { array_vec_len result ≡ length result.items }
{
    match len {
        1 => packed(&[short + index]),
        2 => packed(&[code, 64 * kind + index]),
        _ => packed(&[132, 32 * operation, index]),
    }
}

/// The bytes of a send.
fn send(len: u8, lit: u8, args: u8) -> ArrayVec<u8, 4>
    requires { IsTrue (send_has_form len lit args) }
    ensures bytes { result.items ≡ send_bytes len lit args }
    ensures len { array_vec_len result ≡ length result.items }
{
    match len {
        1 => packed(&[208 + 16 * args + lit]),
        3 => packed(&[132, args, lit]),
        _ if lit < 32 && args < 8 => packed(&[131, 32 * args + lit]),
        _ => packed(&[134, 64 * args + lit]),
    }
}

/// The bytes of a send to super.
fn send_super(len: u8, lit: u8, args: u8) -> ArrayVec<u8, 4>
    requires { IsTrue (super_has_form len lit args) }
    ensures bytes { result.items ≡ super_bytes len lit args }
    ensures len { array_vec_len result ≡ length result.items }
{
    match len {
        2 => packed(&[133, 32 * args + lit]),
        _ => packed(&[132, 32 + args, lit]),
    }
}

/// The bytes of a jump.
fn jump(len: u8, offset: i16) -> ArrayVec<u8, 4>
    requires { IsTrue (jump_has_form len offset) }
    ensures bytes { result.items ≡ jump_bytes len offset }
    ensures len { array_vec_len result ≡ length result.items }
{
    match len {
        1 => packed(&[143 + offset.unsigned_abs() as u8]),
        _ => with_number(160, (offset + 1024) as u16),
    }
}

/// The bytes of a jump if false.
fn jump_false(len: u8, offset: u16) -> ArrayVec<u8, 4>
    requires { IsTrue (jump_false_has_form len offset) }
    ensures bytes { result.items ≡ jump_false_bytes len offset }
    ensures len { array_vec_len result ≡ length result.items }
{
    match len {
        1 => packed(&[151 + offset as u8]),
        _ => with_number(172, offset),
    }
}

/// A code whose lowest bits are the high byte of a number, and the low byte.
fn with_number(code: u8, n: u16) -> ArrayVec<u8, 4>
    requires { code + n / 256 < 256 }
    ensures bytes { result.items ≡ with_number code n }
    ensures len { array_vec_len result ≡ length result.items }
{
    let [high, low] = n.to_be_bytes();
    packed(&[code + high, low])
}

/// Bytes, of which there are at most four.
fn packed(bytes: &[u8]) -> ArrayVec<u8, 4>
    requires { length bytes.now ≤ 4 }
    ensures bytes { result.items ≡ bytes.now }
    ensures len { array_vec_len result ≡ length bytes.now }
{
    let Ok(packed) = ArrayVec::try_from(bytes) else {
        unreachable!()
    };
    packed
}

/// The code of an instruction without numbers, the last of which is `ThisContext`.
fn plain_code(op: Op) -> u8
    ensures { result ≡ plain_code op }
{
    match op {
        Op::PushSelf => 112,
        Op::PushTrue => 113,
        Op::PushFalse => 114,
        Op::PushNil => 115,
        Op::ReturnSelf => 120,
        Op::ReturnTrue => 121,
        Op::ReturnFalse => 122,
        Op::ReturnNil => 123,
        Op::ReturnTop => 124,
        Op::BlockReturn => 125,
        Op::Pop => 135,
        Op::Dup => 136,
        _ => 137,
    }
}

/// The assembler's word for an instruction.
pub fn name(i: &Instr) -> &'static str
    ensures { result.now ≡ op_name i.now.op }
{
    i.op.name()
}
