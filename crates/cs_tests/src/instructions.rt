//! Instructions and their bytes.

use cs_decode::{BadCode, assemble, decode, is_instr, name};
use cs_model::{Instr, Op};

/// Whether these bytes are the instruction, all of it, and what it assembles to.
fn reads_as(bytes: &[u8], op: Op) -> bool {
    match decode(bytes, 0) {
        Ok(i) => {
            i.op == op
                && usize::from(i.len) == bytes.len()
                && is_instr(&i)
                && assemble(&i).as_slice() == bytes
        }
        Err(BadCode) => false,
    }
}

/// The codes that hold an index or an offset.
#[test]
fn codes_with_an_index(rt: HostRuntime) {
    for i in 0..16 {
        assert!(rt; reads_as(&[i], Op::PushRcvr(i)));
        assert!(rt; reads_as(&[16 + i], Op::PushTemp(i)));
        assert!(rt; reads_as(&[176 + i], Op::Special(i)));
        assert!(rt; reads_as(&[192 + i], Op::Common(i)));
        assert!(rt; reads_as(&[208 + i], Op::Send { lit: i, args: 0 }));
        assert!(rt; reads_as(&[224 + i], Op::Send { lit: i, args: 1 }));
        assert!(rt; reads_as(&[240 + i], Op::Send { lit: i, args: 2 }));
    }
    for i in 0..32 {
        assert!(rt; reads_as(&[32 + i], Op::PushLit(i)));
        assert!(rt; reads_as(&[64 + i], Op::PushLitVar(i)));
    }
    for i in 0..8 {
        assert!(rt; reads_as(&[96 + i], Op::PopRcvr(i)));
        assert!(rt; reads_as(&[104 + i], Op::PopTemp(i)));
        assert!(rt; reads_as(&[144 + i], Op::Jump(i16::from(i) + 1)));
        assert!(rt; reads_as(&[152 + i], Op::JumpFalse(u16::from(i) + 1)));
    }
}

/// The other codes.
const ROWS: [(&[u8], Op); 60] = [
    (&[112], Op::PushSelf),
    (&[113], Op::PushTrue),
    (&[114], Op::PushFalse),
    (&[115], Op::PushNil),
    (&[116], Op::PushInt(-1)),
    (&[117], Op::PushInt(0)),
    (&[118], Op::PushInt(1)),
    (&[119], Op::PushInt(2)),
    (&[120], Op::ReturnSelf),
    (&[121], Op::ReturnTrue),
    (&[122], Op::ReturnFalse),
    (&[123], Op::ReturnNil),
    (&[124], Op::ReturnTop),
    (&[125], Op::BlockReturn),
    (&[128, 0x05], Op::PushRcvr(5)),
    (&[128, 0x45], Op::PushTemp(5)),
    (&[128, 0x85], Op::PushLit(5)),
    (&[128, 0xff], Op::PushLitVar(63)),
    (&[129, 0x05], Op::StoreRcvr(5)),
    (&[129, 0x7f], Op::StoreTemp(63)),
    (&[129, 0xc5], Op::StoreLitVar(5)),
    (&[130, 0x3f], Op::PopRcvr(63)),
    (&[130, 0x45], Op::PopTemp(5)),
    (&[130, 0xc5], Op::PopLitVar(5)),
    (&[131, 0xe5], Op::Send { lit: 5, args: 7 }),
    (&[132, 0x1f, 200], Op::Send { lit: 200, args: 31 }),
    (&[132, 0x3f, 200], Op::SendSuper { lit: 200, args: 31 }),
    (&[132, 0x40, 200], Op::PushRcvr(200)),
    (&[132, 0x60, 200], Op::PushLit(200)),
    (&[132, 0x80, 200], Op::PushLitVar(200)),
    (&[132, 0xa0, 200], Op::StoreRcvr(200)),
    (&[132, 0xc0, 200], Op::PopRcvr(200)),
    (&[132, 0xe0, 200], Op::StoreLitVar(200)),
    (&[133, 0xe5], Op::SendSuper { lit: 5, args: 7 }),
    (&[134, 0xff], Op::Send { lit: 63, args: 3 }),
    (&[135], Op::Pop),
    (&[136], Op::Dup),
    (&[137], Op::ThisContext),
    (&[138, 5], Op::NewArray(5)),
    (&[138, 0x85], Op::PopArray(5)),
    (&[139, 1, 2], Op::Prim { i: 1, j: 2 }),
    (&[140, 1, 2], Op::PushVec { k: 1, j: 2 }),
    (&[141, 1, 2], Op::StoreVec { k: 1, j: 2 }),
    (&[142, 1, 2], Op::PopVec { k: 1, j: 2 }),
    (
        &[143, 0x21, 1, 2],
        Op::Closure {
            copied: 2,
            args: 1,
            size: 258,
        },
    ),
    (&[160, 0], Op::Jump(-1024)),
    (&[161, 0], Op::Jump(-768)),
    (&[162, 1], Op::Jump(-511)),
    (&[163, 254], Op::Jump(-2)),
    (&[164, 9], Op::Jump(9)),
    (&[165, 0], Op::Jump(256)),
    (&[166, 0], Op::Jump(512)),
    (&[167, 255], Op::Jump(1023)),
    (&[168, 5], Op::JumpTrue(5)),
    (&[169, 0], Op::JumpTrue(256)),
    (&[171, 255], Op::JumpTrue(1023)),
    (&[172, 5], Op::JumpFalse(5)),
    (&[173, 0], Op::JumpFalse(256)),
    (&[174, 0], Op::JumpFalse(512)),
    (&[175, 255], Op::JumpFalse(1023)),
];

#[test]
fn other_codes(rt: HostRuntime) {
    for (bytes, op) in ROWS {
        assert!(rt; reads_as(bytes, op), "{bytes:?}");
    }
}

/// Bytes, and what their instruction assembles to: its first form of that length.
const FIRST_FORMS: [(&[u8], &[u8]); 3] = [
    (&[134, 0x45], &[131, 0x25]),
    (&[134, 0x60], &[134, 0x60]),
    (&[132, 0x5f, 200], &[132, 0x40, 200]),
];

#[test]
fn first_forms(rt: HostRuntime) {
    for (bytes, first) in FIRST_FORMS {
        let assembled = decode(bytes, 0).map(|i| assemble(&i));
        assert!(rt;
            assembled.is_ok_and(|found| found.as_slice() == first),
            "{bytes:?}"
        );
    }
}

/// What is no instruction, and what lacks a byte.
const REFUSED: [&[u8]; 9] = [
    &[],
    &[126],
    &[127],
    &[129, 0x80],
    &[130, 0xbf],
    &[128],
    &[132, 0],
    &[143, 0, 0],
    &[171],
];

#[test]
fn bad_codes(rt: HostRuntime) {
    for bytes in REFUSED {
        assert_eq!(rt; decode(bytes, 0), Err(BadCode), "{bytes:?}");
    }
}

/// Operations that have no form of so many bytes.
const FORMLESS: [(Op, u8); 5] = [
    (Op::PushRcvr(16), 1),
    (Op::PushTemp(5), 3),
    (Op::Send { lit: 32, args: 4 }, 2),
    (Op::Jump(9), 1),
    (Op::Pop, 0),
];

#[test]
fn forms(rt: HostRuntime) {
    for (op, len) in FORMLESS {
        assert!(rt; !is_instr(&Instr { op, len }), "{op:?} of {len}");
    }
}

/// A method that prints the sum of its literals 0, 1 and 3, and then jumps to itself: in each row the
/// place, the word and the instruction.
const SUM: [u8; 10] = [0x70, 0x20, 0x21, 0xe2, 0x23, 0xe2, 0xe4, 0x87, 0xa3, 0xfe];

const LISTING: [(u32, &str, Op); 9] = [
    (0, "self", Op::PushSelf),
    (1, "pushLit", Op::PushLit(0)),
    (2, "pushLit", Op::PushLit(1)),
    (3, "send", Op::Send { lit: 2, args: 1 }),
    (4, "pushLit", Op::PushLit(3)),
    (5, "send", Op::Send { lit: 2, args: 1 }),
    (6, "send", Op::Send { lit: 4, args: 1 }),
    (7, "pop", Op::Pop),
    (8, "jump", Op::Jump(-2)),
];

#[test]
fn listing(rt: HostRuntime) {
    for (at, word, op) in LISTING {
        let found = decode(&SUM, at).map(|i| (name(&i), i.op));
        assert_eq!(rt; found, Ok((word, op)));
    }
}
