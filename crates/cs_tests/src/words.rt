//! Words, arithmetic and headers.

use bitflags::Flags as _;
use cs_word::{Flags, Header, Kind, MethodHeader, Oop, add, div, mul, quo, rem, shift, sub};

const MIN: i32 = -1_073_741_824;

const MAX: i32 = 1_073_741_823;

#[test]
fn words(rt: HostRuntime) {
    for (v, bits) in [
        (0, 1),
        (3, 7),
        (-1, 0xffff_ffff),
        (MAX, 0x7fff_ffff),
        (MIN, 0x8000_0001),
    ] {
        assert_eq!(rt; Oop::small(v), Some(Oop(bits)));
        assert_eq!(rt; Oop(bits).kind(), Kind::Small(v));
    }
    assert_eq!(rt; Oop::small(MAX + 1), None);
    assert_eq!(rt; Oop::small(MIN - 1), None);
    assert_eq!(rt; Oop::character(97).map(Oop::bits), Some(390));
    assert_eq!(rt; Oop::character(1 << 30), None);
    assert_eq!(rt; Oop(390).kind(), Kind::Character(97));
    assert_eq!(rt; Oop(7).natural(), Some(3));
    assert_eq!(rt; Oop(0xffff_ffff).natural(), None);
    assert_eq!(rt; Oop(65_536).kind(), Kind::Object(65_536));
    assert_eq!(rt; Oop(65_540).kind(), Kind::Link(65_540));
}

/// Stands for `None` in the table: no SmallInteger.
const NONE: i32 = MAX + 1;

/// Two numbers, and then their sum, difference, product, quotient rounded toward zero, quotient
/// rounded down, what that leaves, and the shift of the first by the second.
const ARITHMETIC: [(i32, i32, [i32; 7]); 14] = [
    (7, 2, [9, 5, 14, 3, 3, 1, 28]),
    (-7, 2, [-5, -9, -14, -3, -4, 1, -28]),
    (7, -2, [5, 9, -14, -3, -4, -1, 1]),
    (-7, -2, [-9, -5, 14, 3, 3, -1, -2]),
    (5, 0, [5, 5, 0, NONE, NONE, NONE, 5]),
    (MAX, 1, [NONE, MAX - 1, MAX, MAX, MAX, 0, NONE]),
    (MIN, -1, [NONE, MIN + 1, NONE, NONE, NONE, 0, -(1 << 29)]),
    (0, MAX, [MAX, -MAX, 0, 0, 0, 0, 0]),
    (1, 30, [31, -29, 30, 0, 0, 1, NONE]),
    (-1, 30, [29, -31, -30, 0, -1, 29, MIN]),
    (-1, MIN, [NONE, MAX, NONE, 0, 0, -1, -1]),
    (MAX, MIN, [-1, NONE, NONE, 0, -1, -1, 0]),
    (32_768, 32_768, [65_536, 0, NONE, 1, 1, 0, NONE]),
    (-32_768, 32_768, [0, -65_536, MIN, -1, -1, 0, NONE]),
];

#[test]
fn arithmetic_at_its_edges(rt: HostRuntime) {
    for (a, b, wanted) in ARITHMETIC {
        assert!(rt; Oop::small(a).is_some() && Oop::small(b).is_some());
        let found = [
            add(a, b),
            sub(a, b),
            mul(a, b),
            quo(a, b),
            div(a, b),
            rem(a, b),
            shift(a, b),
        ];
        for (number, want) in found.iter().zip(wanted) {
            assert_eq!(rt; number.unwrap_or(NONE), want, "{a} and {b}");
        }
    }
}

/// The header of a context of 16 stack values, and the one of which every bit is set.
#[test]
fn headers(rt: HostRuntime) {
    let context = Header {
        class: 36,
        flags: Flags::empty(),
        format: 3,
        hash: 0,
        slots: 22,
    };
    assert_eq!(rt; context.write(), 0x1600_0000_0300_0024);
    assert_eq!(rt; Header::read(0x1600_0000_0300_0024), context);

    let full = Header {
        class: 0x3f_ffff,
        flags: Flags::all(),
        format: 31,
        hash: 0x3f_ffff,
        slots: 255,
    };
    assert_eq!(rt; full.write(), 0xffbf_ffff_ffbf_ffff);
    assert_eq!(rt; Header::read(u64::MAX), full);

    let flags = Flags::IS_IMMUTABLE | Flags::PINNED | Flags::MARKED;
    assert_eq!(rt; Header { flags, ..context }.write(), 0x1680_0000_4380_0024);
    assert_eq!(rt; Header::read(0x1680_0000_4380_0024).flags, flags);
}

/// The header of a method of 3 literals, 2 temporaries and 1 argument with a primitive, whose contexts
/// are large.
#[test]
fn method_headers(rt: HostRuntime) {
    let header = MethodHeader((1 << 24) + (2 << 18) + (1 << 17) + (1 << 16) + 3);
    assert_eq!(rt; MethodHeader::read(Oop(2 * header.0 + 1)), Some(header));
    assert_eq!(rt; header.literals(), 3);
    assert_eq!(rt; (header.temporaries(), header.arguments()), (2, 1));
    assert_eq!(rt;
        (
            header.context_size(),
            header.has_primitive(),
            header.is_valid()
        ),
        (56, true, true)
    );
}
