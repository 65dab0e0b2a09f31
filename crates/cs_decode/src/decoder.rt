//! From bytes to instructions.

ghost use Rattle.std.specs.Prelude.{◌≡◌, ◌<◌, ◌≤◌, Some, None, IfOk, OnErr, slice_index};
ghost use Rattle.cs_model.specs.Decode.{len_of, variable, constant, return_of, extended_push, extended_store};
ghost use Rattle.cs_model.specs.Decode.{extended_pop, double_extended, array, extended, jump, send_op, op_of};
ghost use Rattle.cs_model.specs.Decode.{decode_at};
ghost use Rattle.cs_model.specs.Assemble.{IsInstr};

use cs_model::{Instr, Op};

/// The bytes at a place are no instruction, or don't hold all of one.
#[derive(Clone, Copy, Debug, PartialEq, Eq)]
pub struct BadCode;

/// The instruction whose first byte is at `at` (V3PlusClosures). It is `BadCode` exactly where that
/// byte is no instruction or one of its bytes lies behind the end.
#[tactic(auto, unfolding(cs_model::specs::Decode::decode_at))]
pub fn decode(bytes: &[u8], at: u32) -> Result<Instr, BadCode>
    ensures instruction { IfOk result (λ i. decode_at bytes.now at ≡ Some i) }
    ensures is_instr { IfOk result IsInstr }
    ensures none { OnErr result (decode_at bytes.now at ≡ None) }
{
    let at = at as usize;
    let code = byte_at(bytes, at);
    let len = len_of(code);
    if at + usize::from(len) > bytes.len() {
        return Err(BadCode);
    }
    let [b, c, d] = [
        byte_at(bytes, at + 1),
        byte_at(bytes, at + 2),
        byte_at(bytes, at + 3),
    ];
    match op_of(code, b, c, d) {
        Some(op) => Ok(Instr { op, len }),
        None => Err(BadCode),
    }
}

/// The byte at a place, or 0 behind the end.
fn byte_at(bytes: &[u8], i: usize) -> u8
    ensures { result ≡ slice_index bytes.now i }
{
    bytes.get(i).copied().unwrap_or(0)
}

/// How many bytes an instruction of this first byte has.
fn len_of(code: u8) -> u8
    ensures { result ≡ len_of code }
{
    match code {
        143 => 4,
        132 | 139..=142 => 3,
        128..=131 | 133 | 134 | 138 | 160..=175 => 2,
        _ => 1,
    }
}

/// What an instruction of these bytes does.
fn op_of(code: u8, b: u8, c: u8, d: u8) -> Option<Op>
    ensures { result ≡ op_of code b c d }
{
    match code {
        0..=111 => Some(variable(code)),
        112..=119 => Some(constant(code)),
        120..=125 => Some(return_of(code)),
        126 | 127 => None,
        128..=143 => extended(code, b, c, d),
        144..=175 => Some(jump(code, b)),
        176..=255 => Some(send(code)),
    }
}

/// A variable by an index in the code.
fn variable(code: u8) -> Op
    requires { code < 112 }
    ensures { result ≡ variable code }
{
    match code {
        0..=15 => Op::PushRcvr(code),
        16..=31 => Op::PushTemp(code - 16),
        32..=63 => Op::PushLit(code - 32),
        64..=95 => Op::PushLitVar(code - 64),
        96..=103 => Op::PopRcvr(code - 96),
        _ => Op::PopTemp(code - 104),
    }
}

/// The receiver or a constant.
fn constant(code: u8) -> Op
    requires from { 112 ≤ code }
    requires to { code < 120 }
    ensures { result ≡ constant code }
{
    match code {
        112 => Op::PushSelf,
        113 => Op::PushTrue,
        114 => Op::PushFalse,
        115 => Op::PushNil,
        _ => Op::PushInt(code as i8 - 117),
    }
}

/// A return.
fn return_of(code: u8) -> Op
    ensures { result ≡ return_of code }
{
    match code {
        120 => Op::ReturnSelf,
        121 => Op::ReturnTrue,
        122 => Op::ReturnFalse,
        123 => Op::ReturnNil,
        124 => Op::ReturnTop,
        _ => Op::BlockReturn,
    }
}

/// A code that has its numbers in further bytes, or one of the four that stand among them.
fn extended(code: u8, b: u8, c: u8, d: u8) -> Option<Op>
    ensures { result ≡ extended code b c d }
{
    let (kind, index) = (b >> 6, b & 63);
    let (args, lit) = (b >> 5, b & 31);
    Some(match code {
        128 => extended_push(kind, index),
        129 => return extended_store(kind, index),
        130 => return extended_pop(kind, index),
        131 => Op::Send { lit, args },
        132 => double_extended(b >> 5, b & 31, c),
        133 => Op::SendSuper { lit, args },
        134 => Op::Send {
            lit: index,
            args: kind,
        },
        135 => Op::Pop,
        136 => Op::Dup,
        137 => Op::ThisContext,
        138 => array(b),
        139 => Op::Prim { i: b, j: c },
        140 => Op::PushVec { k: b, j: c },
        141 => Op::StoreVec { k: b, j: c },
        142 => Op::PopVec { k: b, j: c },
        _ => Op::Closure {
            copied: b >> 4,
            args: b & 15,
            size: u16::from_be_bytes([c, d]),
        },
    })
}

/// A push of a variable of this kind.
fn extended_push(kind: u8, index: u8) -> Op
    ensures { result ≡ extended_push kind index }
{
    match kind {
        0 => Op::PushRcvr(index),
        1 => Op::PushTemp(index),
        2 => Op::PushLit(index),
        _ => Op::PushLitVar(index),
    }
}

/// A store into a variable of this kind.
fn extended_store(kind: u8, index: u8) -> Option<Op>
    ensures { result ≡ extended_store kind index }
{
    match kind {
        0 => Some(Op::StoreRcvr(index)),
        1 => Some(Op::StoreTemp(index)),
        2 => None,
        _ => Some(Op::StoreLitVar(index)),
    }
}

/// A pop into a variable of this kind.
fn extended_pop(kind: u8, index: u8) -> Option<Op>
    ensures { result ≡ extended_pop kind index }
{
    match kind {
        0 => Some(Op::PopRcvr(index)),
        1 => Some(Op::PopTemp(index)),
        2 => None,
        _ => Some(Op::PopLitVar(index)),
    }
}

/// One of the eight operations with an index of a whole byte.
fn double_extended(operation: u8, args: u8, index: u8) -> Op
    ensures { result ≡ double_extended operation args index }
{
    match operation {
        0 => Op::Send { lit: index, args },
        1 => Op::SendSuper { lit: index, args },
        2 => Op::PushRcvr(index),
        3 => Op::PushLit(index),
        4 => Op::PushLitVar(index),
        5 => Op::StoreRcvr(index),
        6 => Op::PopRcvr(index),
        _ => Op::StoreLitVar(index),
    }
}

/// A new Array, of nil or of values that it pops.
fn array(b: u8) -> Op
    ensures { result ≡ array b }
{
    if b < 128 {
        Op::NewArray(b)
    } else {
        Op::PopArray(b - 128)
    }
}

/// A jump, by an offset in the code or by one whose low byte follows.
fn jump(code: u8, b: u8) -> Op
    requires from { 144 ≤ code }
    requires to { code < 176 }
    ensures { result ≡ jump code b }
{
    match code {
        144..=151 => Op::Jump(i16::from(code - 143)),
        152..=159 => Op::JumpFalse(u16::from(code - 151)),
        160..=167 => Op::Jump((i16::from(code) - 164) * 256 + i16::from(b)),
        168..=171 => Op::JumpTrue(u16::from_be_bytes([code - 168, b])),
        _ => Op::JumpFalse(u16::from_be_bytes([code - 172, b])),
    }
}

/// A special selector, or a send of one of the first 16 literals.
fn send(code: u8) -> Op
    requires { 176 ≤ code }
    ensures { result ≡ send_op code }
{
    match code {
        176..=191 => Op::Special(code - 176),
        192..=207 => Op::Common(code - 192),
        _ => Op::Send {
            lit: code & 15,
            args: (code >> 4) - 13,
        },
    }
}
