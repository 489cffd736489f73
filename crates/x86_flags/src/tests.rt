// What a real processor (Intel Xeon, run from an assembly program) left in the result and in the
// flags, for flags that the manual defines. Where it leaves one undefined the row has it clear.
// A row names the flags that are set: c, p, z, s and o.
use self::One::{Dec, Inc, Neg, Not};
use self::Product::{Smul, Umul};
use self::Quotient::{Sdiv, Udiv};
use self::Rotate::{Rol, Ror};
use self::Shift::{Sar, Shl, Shr};
use self::Two::{Adc, Add, And, Or, Sbb, Sub, Xor};
use super::*;
use Width::{W8, W16, W32, W64};
use std::process::Abort;

#[derive(Clone, Copy)]
enum Two {
    Add,
    Adc,
    Sub,
    Sbb,
    And,
    Or,
    Xor,
}

#[derive(Clone, Copy)]
enum One {
    Inc,
    Dec,
    Neg,
    Not,
}

#[derive(Clone, Copy)]
enum Shift {
    Shl,
    Shr,
    Sar,
}

#[derive(Clone, Copy)]
enum Rotate {
    Rol,
    Ror,
}

#[derive(Clone, Copy)]
enum Product {
    Umul,
    Smul,
}

#[derive(Clone, Copy)]
enum Quotient {
    Udiv,
    Sdiv,
}

const TWO_ROWS: [(Two, Width, u64, u64, &str, u64, &str); 28] = [
    (Add, W8, 0x7f, 1, "", 0x80, "so"),
    (Add, W8, 0xff, 1, "", 0, "cpz"),
    (Add, W16, 0x8000, 0x8000, "", 0, "cpzo"),
    (Add, W32, 0x7fff_ffff, 0x7fff_ffff, "", 0xffff_fffe, "so"),
    (
        Add,
        W64,
        0xffff_ffff_ffff_ffff,
        0xffff_ffff_ffff_ffff,
        "",
        0xffff_ffff_ffff_fffe,
        "cs",
    ),
    (
        Add,
        W64,
        0x7fff_ffff_ffff_ffff,
        1,
        "",
        0x8000_0000_0000_0000,
        "pso",
    ),
    (Adc, W8, 0xff, 0xff, "c", 0xff, "cps"),
    (Adc, W16, 0x7fff, 0, "c", 0x8000, "pso"),
    (Adc, W32, 0xffff_ffff, 0, "c", 0, "cpz"),
    (
        Adc,
        W64,
        0x8000_0000_0000_0000,
        0x7fff_ffff_ffff_ffff,
        "c",
        0,
        "cpz",
    ),
    (Adc, W64, 1, 2, "", 3, "p"),
    (Sub, W8, 0x80, 1, "", 0x7f, "o"),
    (Sub, W8, 0, 0xff, "", 1, "c"),
    (Sub, W16, 0x7fff, 0xffff, "", 0x8000, "cpso"),
    (Sub, W32, 1, 2, "", 0xffff_ffff, "cps"),
    (
        Sub,
        W64,
        0x8000_0000_0000_0000,
        0x8000_0000_0000_0000,
        "",
        0,
        "pz",
    ),
    (
        Sub,
        W64,
        0,
        0x8000_0000_0000_0000,
        "",
        0x8000_0000_0000_0000,
        "cpso",
    ),
    (Sbb, W8, 0, 0xff, "c", 0, "cpz"),
    (Sbb, W8, 0x80, 0, "c", 0x7f, "o"),
    (Sbb, W16, 5, 5, "c", 0xffff, "cps"),
    (Sbb, W32, 0x8000_0000, 0x7fff_ffff, "c", 0, "pzo"),
    (Sbb, W64, 0, 0xffff_ffff_ffff_ffff, "c", 0, "cpz"),
    (And, W8, 0xf0, 0x8f, "", 0x80, "s"),
    (
        And,
        W64,
        0xffff_ffff_ffff_ffff,
        0x8000_0000_0000_0003,
        "",
        0x8000_0000_0000_0003,
        "ps",
    ),
    (Or, W16, 0x8000, 1, "", 0x8001, "s"),
    (Or, W32, 0, 0, "", 0, "pz"),
    (Xor, W32, 0xffff_ffff, 0xf0f_0f0f, "", 0xf0f0_f0f0, "ps"),
    (
        Xor,
        W64,
        0xffff_ffff_ffff_ffff,
        0xffff_ffff_ffff_ffff,
        "",
        0,
        "pz",
    ),
];

const ONE_ROWS: [(One, Width, u64, &str, u64, &str); 16] = [
    (Inc, W8, 0x7f, "c", 0x80, "cso"),
    (Inc, W16, 0xffff, "", 0, "pz"),
    (Inc, W32, 0x7fff_ffff, "cpzso", 0x8000_0000, "cpso"),
    (Inc, W64, 0xffff_ffff_ffff_ffff, "c", 0, "cpz"),
    (Dec, W8, 0x80, "c", 0x7f, "co"),
    (Dec, W16, 0, "", 0xffff, "ps"),
    (Dec, W32, 1, "c", 0, "cpz"),
    (
        Dec,
        W64,
        0x8000_0000_0000_0000,
        "",
        0x7fff_ffff_ffff_ffff,
        "po",
    ),
    (Neg, W8, 0x80, "", 0x80, "cso"),
    (Neg, W16, 0, "c", 0, "pz"),
    (Neg, W32, 1, "", 0xffff_ffff, "cps"),
    (
        Neg,
        W64,
        0x8000_0000_0000_0000,
        "",
        0x8000_0000_0000_0000,
        "cpso",
    ),
    (Not, W8, 0xf, "cpzso", 0xf0, "cpzso"),
    (Not, W16, 0, "", 0xffff, ""),
    (Not, W32, 0xffff_ffff, "cpzso", 0, "cpzso"),
    (Not, W64, 1, "", 0xffff_ffff_ffff_fffe, ""),
];

const SHIFT_ROWS: [(Shift, Width, u64, u8, &str, u64, &str); 25] = [
    (Shl, W8, 0x81, 1, "", 2, "co"),
    (Shl, W8, 0x40, 1, "", 0x80, "so"),
    (Shl, W8, 3, 7, "", 0x80, "cs"),
    (Shl, W16, 0x8001, 15, "", 0x8000, "ps"),
    (Shl, W32, 1, 32, "cpzso", 1, "cpzso"),
    (Shl, W32, 0xffff_ffff, 31, "", 0x8000_0000, "cps"),
    (
        Shl,
        W64,
        0xffff_ffff_ffff_ffff,
        63,
        "",
        0x8000_0000_0000_0000,
        "cps",
    ),
    (Shl, W64, 3, 64, "cpzso", 3, "cpzso"),
    (Shl, W64, 0x8000_0000_0000_0000, 1, "", 0, "cpzo"),
    (Shr, W8, 0x81, 1, "", 0x40, "co"),
    (Shr, W8, 0xff, 7, "", 1, "c"),
    (Shr, W16, 0x8000, 15, "", 1, ""),
    (Shr, W32, 0x8000_0001, 1, "", 0x4000_0000, "cpo"),
    (Shr, W32, 5, 0, "cpzso", 5, "cpzso"),
    (Shr, W64, 0xffff_ffff_ffff_ffff, 63, "", 1, "c"),
    (
        Shr,
        W64,
        0x8000_0000_0000_0000,
        65,
        "",
        0x4000_0000_0000_0000,
        "po",
    ),
    (Sar, W8, 0x80, 1, "", 0xc0, "ps"),
    (Sar, W8, 0x81, 7, "", 0xff, "ps"),
    (Sar, W8, 0x80, 8, "", 0xff, "cps"),
    (Sar, W8, 0x80, 31, "", 0xff, "cps"),
    (Sar, W16, 0x7fff, 20, "", 0, "pz"),
    (Sar, W32, 0x8000_0000, 31, "", 0xffff_ffff, "ps"),
    (Sar, W32, 0xffff_fffd, 1, "", 0xffff_fffe, "cs"),
    (
        Sar,
        W64,
        0x8000_0000_0000_0000,
        63,
        "",
        0xffff_ffff_ffff_ffff,
        "ps",
    ),
    (
        Sar,
        W64,
        0xffff_ffff_ffff_ffff,
        64,
        "cpzso",
        0xffff_ffff_ffff_ffff,
        "cpzso",
    ),
];

const ROTATE_ROWS: [(Rotate, Width, u64, u8, &str, u64, &str); 10] = [
    (Rol, W32, 0x8000_0000, 1, "", 1, "co"),
    (Rol, W32, 0x1234_5678, 8, "", 0x3456_7812, ""),
    (Rol, W32, 7, 32, "cpzso", 7, "cpzso"),
    (Rol, W64, 0x8000_0000_0000_0002, 1, "", 5, "co"),
    (Rol, W64, 1, 63, "", 0x8000_0000_0000_0000, ""),
    (Ror, W32, 1, 1, "", 0x8000_0000, "co"),
    (Ror, W32, 0x1234_5678, 4, "", 0x8123_4567, "c"),
    (Ror, W64, 3, 1, "", 0x8000_0000_0000_0001, "co"),
    (Ror, W64, 0x8000_0000_0000_0000, 63, "", 1, ""),
    (Ror, W64, 9, 64, "cpzso", 9, "cpzso"),
];

const PRODUCT_ROWS: [(Product, Width, u64, u64, u64, u64, &str); 10] = [
    (Umul, W32, 0xffff_ffff, 0xffff_ffff, 1, 0xffff_fffe, "co"),
    (Umul, W32, 0x1_0000, 0xffff, 0xffff_0000, 0, ""),
    (
        Umul,
        W64,
        0xffff_ffff_ffff_ffff,
        0xffff_ffff_ffff_ffff,
        1,
        0xffff_ffff_ffff_fffe,
        "co",
    ),
    (
        Umul,
        W64,
        0x1_0000_0000,
        0x8000_0000,
        0x8000_0000_0000_0000,
        0,
        "",
    ),
    (Smul, W32, 0xffff_ffff, 0xffff_ffff, 1, 0, ""),
    (Smul, W32, 0x8000_0000, 0x8000_0000, 0, 0x4000_0000, "co"),
    (Smul, W32, 0x1_0000, 0x8000, 0x8000_0000, 0, "co"),
    (
        Smul,
        W64,
        0x8000_0000_0000_0000,
        0xffff_ffff_ffff_ffff,
        0x8000_0000_0000_0000,
        0,
        "co",
    ),
    (
        Smul,
        W64,
        0xffff_ffff_ffff_ffff,
        5,
        0xffff_ffff_ffff_fffb,
        0xffff_ffff_ffff_ffff,
        "",
    ),
    (
        Smul,
        W64,
        0x8000_0000_0000_0000,
        0x8000_0000_0000_0000,
        0,
        0x4000_0000_0000_0000,
        "co",
    ),
];

const QUOTIENT_ROWS: [(Quotient, Width, u64, u64, u64, Option<(u64, u64)>); 18] = [
    (Udiv, W32, 1, 0, 2, Some((0x8000_0000, 0))),
    (Udiv, W64, 0, 7, 2, Some((3, 1))),
    (
        Udiv,
        W64,
        5,
        0xffff_ffff_ffff_ffff,
        6,
        Some((0xffff_ffff_ffff_ffff, 5)),
    ),
    (
        Udiv,
        W32,
        0xffff_fffe,
        0xffff_ffff,
        0xffff_ffff,
        Some((0xffff_ffff, 0xffff_fffe)),
    ),
    (
        Sdiv,
        W32,
        0xffff_ffff,
        0xffff_fff9,
        2,
        Some((0xffff_fffd, 0xffff_ffff)),
    ),
    (Sdiv, W32, 0, 7, 0xffff_fffe, Some((0xffff_fffd, 1))),
    (
        Sdiv,
        W64,
        0xffff_ffff_ffff_ffff,
        0xffff_ffff_ffff_fff9,
        3,
        Some((0xffff_ffff_ffff_fffe, 0xffff_ffff_ffff_ffff)),
    ),
    (
        Sdiv,
        W64,
        0,
        0x7fff_ffff_ffff_ffff,
        0xffff_ffff_ffff_ffff,
        Some((0x8000_0000_0000_0001, 0)),
    ),
    (
        Sdiv,
        W32,
        0xffff_ffff,
        0x8000_0000,
        1,
        Some((0x8000_0000, 0)),
    ),
    (
        Sdiv,
        W64,
        0x3fff_ffff_ffff_ffff,
        0xffff_ffff_ffff_ffff,
        0x8000_0000_0000_0000,
        Some((0x8000_0000_0000_0001, 0x7fff_ffff_ffff_ffff)),
    ),
    (
        Sdiv,
        W64,
        0xc000_0000_0000_0000,
        0,
        0x8000_0000_0000_0000,
        None,
    ),
    (Udiv, W64, 1, 0, 1, None),
    (Udiv, W32, 5, 9, 0, None),
    (Udiv, W32, 7, 0, 7, None),
    (Sdiv, W32, 0, 0x8000_0000, 1, None),
    (
        Sdiv,
        W64,
        0x8000_0000_0000_0000,
        0,
        0xffff_ffff_ffff_ffff,
        None,
    ),
    (Sdiv, W32, 0xffff_ffff, 0x8000_0000, 0xffff_ffff, None),
    (Sdiv, W64, 0, 5, 0, None),
];

fn flags(set: &str) -> Flags {
    Flags {
        cf: set.contains('c'),
        pf: set.contains('p'),
        zf: set.contains('z'),
        sf: set.contains('s'),
        of: set.contains('o'),
    }
}

fn check_two(rt: &impl Abort, row: (Two, Width, u64, u64, &str, u64, &str)) {
    let (family, w, a, b, before, value, after) = row;
    assert!(rt; w.fits(a));
    assert!(rt; w.fits(b));
    let before = flags(before);
    let answer = match family {
        Add => add(w, a, b, before),
        Adc => adc(w, a, b, before),
        Sub => sub(w, a, b, before),
        Sbb => sbb(w, a, b, before),
        And => and(w, a, b, before),
        Or => or(w, a, b, before),
        Xor => xor(w, a, b, before),
    };
    assert!(rt; answer.0 == value);
    assert!(rt; answer.1 == flags(after));
}

fn check_one(rt: &impl Abort, row: (One, Width, u64, &str, u64, &str)) {
    let (family, w, a, before, value, after) = row;
    assert!(rt; w.fits(a));
    let before = flags(before);
    let answer = match family {
        Inc => inc(w, a, before),
        Dec => dec(w, a, before),
        Neg => neg(w, a, before),
        Not => not(w, a, before),
    };
    assert!(rt; answer.0 == value);
    assert!(rt; answer.1 == flags(after));
}

fn check_shift(rt: &impl Abort, row: (Shift, Width, u64, u8, &str, u64, &str)) {
    let (family, w, a, count, before, value, after) = row;
    assert!(rt; w.fits(a));
    let before = flags(before);
    let answer = match family {
        Shl => shl(w, a, count, before),
        Shr => shr(w, a, count, before),
        Sar => sar(w, a, count, before),
    };
    assert!(rt; answer.0 == value);
    assert!(rt; answer.1 == flags(after));
}

fn check_rotation(rt: &impl Abort, row: (Rotate, Width, u64, u8, &str, u64, &str)) {
    let (family, w, a, count, before, value, after) = row;
    assert!(rt; w.bits() >= 32);
    assert!(rt; w.fits(a));
    let before = flags(before);
    let answer = match family {
        Rol => rol(w, a, count, before),
        Ror => ror(w, a, count, before),
    };
    assert!(rt; answer.0 == value);
    assert!(rt; answer.1 == flags(after));
}

fn check_product(rt: &impl Abort, row: (Product, Width, u64, u64, u64, u64, &str)) {
    let (family, w, a, b, low, high, after) = row;
    assert!(rt; w.bits() >= 32);
    assert!(rt; w.fits(a));
    assert!(rt; w.fits(b));
    let answer = match family {
        Umul => umul(w, a, b),
        Smul => smul(w, a, b),
    };
    assert!(rt; answer.0 == low);
    assert!(rt; answer.1 == high);
    assert!(rt; answer.2 == flags(after));
}

fn check_quotient(rt: &impl Abort, row: (Quotient, Width, u64, u64, u64, Option<(u64, u64)>)) {
    let (family, w, high, low, by, expected) = row;
    assert!(rt; w.bits() >= 32);
    assert!(rt; w.fits(high));
    assert!(rt; w.fits(low));
    assert!(rt; w.fits(by));
    let answer = match family {
        Udiv => udiv(w, high, low, by),
        Sdiv => sdiv(w, high, low, by),
    };
    assert!(rt; answer == expected);
}

#[test]
fn two_operands(rt: HostRuntime) {
    for row in TWO_ROWS {
        check_two(&rt, row);
    }
}

#[test]
fn one_operand(rt: HostRuntime) {
    for row in ONE_ROWS {
        check_one(&rt, row);
    }
}

#[test]
fn shifts(rt: HostRuntime) {
    for row in SHIFT_ROWS {
        check_shift(&rt, row);
    }
}

#[test]
fn rotations(rt: HostRuntime) {
    for row in ROTATE_ROWS {
        check_rotation(&rt, row);
    }
}

#[test]
fn products(rt: HostRuntime) {
    for row in PRODUCT_ROWS {
        check_product(&rt, row);
    }
}

#[test]
fn quotients(rt: HostRuntime) {
    for row in QUOTIENT_ROWS {
        check_quotient(&rt, row);
    }
}
