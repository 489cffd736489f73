//! The row of an opcode, by ranges of opcodes (Intel SDM, Volume 2, appendix A, opcode maps).

ghost use Rattle.std.specs.Prelude.{◌≡◌, ◌<◌, ◌/◌, ◌%◌, Some};
ghost use Rattle.x86_forms.specs.Table.{rm, no, alone, asking};
ghost use Rattle.x86_forms.specs.Reading.{find_row};
ghost use Rattle.x86_decode.specs.Dispatch.{row, short, fixed, asks, alu_op, alu_row, narrow_shift, wide_shift, any_shift, shift, from_40, from_80, from_90, from_c0, group_f6, group_f7, group_fe, group_ff, from_e0, plain, escaped, chosen};

use crate::locked::{locked, locked_escaped, repeated, repeated_escaped};
use x86_forms::Shape::{AccImm, CodeAcc, CodeImm, Imm, RegRm, Rm, RmImm, RmReg};
use x86_forms::Size::{B, D, Q, V};
use x86_forms::Tail::{Ib, Iv, Iw, Iz, Nothing, Rel8, Rel32};
use x86_forms::{AluOp, Kind, Mark, OneOp, Prefixes, Rex, Row, Shape, ShiftOp, Size, Tail, Width};

/// A row with ModRM.
pub fn row(prefixes: Prefixes, size: Size, tail: Tail, shape: Shape, kind: Kind) -> Option<Row>
    ensures { result ≡ row prefixes size tail shape kind }
{
    Some(Row {
        prefixes,
        rex: Rex::Any,
        size,
        modrm: true,
        fixed: None,
        tail,
        shape,
        kind,
    })
}

/// A row without ModRM.
pub fn short(prefixes: Prefixes, size: Size, tail: Tail, shape: Shape, kind: Kind) -> Option<Row>
    ensures { result ≡ short prefixes size tail shape kind }
{
    Some(Row {
        prefixes,
        rex: Rex::Any,
        size,
        modrm: false,
        fixed: None,
        tail,
        shape,
        kind,
    })
}

/// A row whose ModRM is this byte, and which takes no REX.
pub fn fixed(modrm: u8, prefixes: Prefixes, kind: Kind) -> Option<Row>
    ensures { result ≡ fixed modrm prefixes kind }
{
    Some(Row {
        prefixes,
        rex: Rex::Absent,
        size: Q,
        modrm: true,
        fixed: Some(modrm),
        tail: Nothing,
        shape: Rm,
        kind,
    })
}

/// The row, asking this of REX.
pub fn asks(rex: Rex, row: Option<Row>) -> Option<Row>
    ensures { result ≡ asks rex row }
{
    match row {
        None => None,
        Some(row) => Some(Row { rex, ..row }),
    }
}

/// The operation with this number, in bits 3 to 5 of an opcode or in the reg field.
#[tactic(auto, unfolding(crate::specs::Dispatch::alu_op))]
pub fn alu_op(number: u8) -> AluOp
    ensures { result ≡ alu_op number }
{
    match number {
        0 => AluOp::Add,
        1 => AluOp::Or,
        2 => AluOp::Adc,
        3 => AluOp::Sbb,
        4 => AluOp::And,
        5 => AluOp::Sub,
        6 => AluOp::Xor,
        _ => AluOp::Cmp,
    }
}

/// The row of an opcode below 40, by its low three bits.
#[tactic(auto, unfolding(crate::specs::Dispatch::alu_row))]
fn alu_row(kind: Kind, form: u8) -> Option<Row>
    ensures { result ≡ alu_row kind form }
{
    match form {
        0 => row(Prefixes::Sized, B, Nothing, RmReg, kind),
        1 => row(Prefixes::Sized, V, Nothing, RmReg, kind),
        2 => row(Prefixes::Sized, B, Nothing, RegRm, kind),
        3 => row(Prefixes::Sized, V, Nothing, RegRm, kind),
        4 => short(Prefixes::Sized, B, Ib, AccImm, kind),
        5 => short(Prefixes::Sized, V, Iz, AccImm, kind),
        _ => None,
    }
}

#[tactic(auto, unfolding(crate::specs::Dispatch::narrow_shift))]
fn narrow_shift(op: ShiftOp, code: u8) -> Option<Row>
    ensures { result ≡ narrow_shift op code }
{
    match code {
        0xC0 => row(Prefixes::Sized, B, Ib, Rm, Kind::ShiftBy(op)),
        0xD0 => row(Prefixes::Sized, B, Nothing, Rm, Kind::ShiftOne(op)),
        0xD2 => row(Prefixes::Sized, B, Nothing, Rm, Kind::ShiftCl(op)),
        _ => None,
    }
}

#[tactic(auto, unfolding(crate::specs::Dispatch::wide_shift))]
fn wide_shift(size: Size, op: ShiftOp, code: u8) -> Option<Row>
    ensures { result ≡ wide_shift size op code }
{
    match code {
        0xC1 => row(Prefixes::Sized, size, Ib, Rm, Kind::ShiftBy(op)),
        0xD1 => row(Prefixes::Sized, size, Nothing, Rm, Kind::ShiftOne(op)),
        0xD3 => row(Prefixes::Sized, size, Nothing, Rm, Kind::ShiftCl(op)),
        _ => None,
    }
}

#[tactic(auto, unfolding(crate::specs::Dispatch::any_shift))]
fn any_shift(op: ShiftOp, code: u8) -> Option<Row>
    ensures { result ≡ any_shift op code }
{
    if code % 2 == 0 {
        narrow_shift(op, code)
    } else {
        wide_shift(V, op, code)
    }
}

/// The row of a shift or a rotation: rotations have no 8 and no 16 bits.
#[tactic(auto, unfolding(crate::specs::Dispatch::shift))]
fn shift(code: u8, reg: u8) -> Option<Row>
    ensures { result ≡ shift code reg }
{
    match reg {
        0 => wide_shift(D, ShiftOp::Rol, code),
        1 => wide_shift(D, ShiftOp::Ror, code),
        4 => any_shift(ShiftOp::Shl, code),
        5 => any_shift(ShiftOp::Shr, code),
        7 => any_shift(ShiftOp::Sar, code),
        _ => None,
    }
}

#[tactic(auto, unfolding(crate::specs::Dispatch::from_40))]
fn from_40(op: u8) -> Option<Row>
    ensures { result ≡ from_40 op }
{
    match op {
        0x50..=0x57 => short(Prefixes::Bare, Q, Nothing, CodeAcc, Kind::Push),
        0x58..=0x5F => short(Prefixes::Bare, Q, Nothing, CodeAcc, Kind::Pop),
        0x63 => asks(
            Rex::Wide,
            row(Prefixes::Sized, V, Nothing, RegRm, Kind::Sx(Width::W32)),
        ),
        0x68 => short(Prefixes::Bare, Q, Iz, Imm, Kind::Push),
        0x69 => row(Prefixes::Sized, D, Iz, RegRm, Kind::ImulThree),
        0x6A => short(Prefixes::Bare, Q, Ib, Imm, Kind::Push),
        0x6B => row(Prefixes::Sized, D, Ib, RegRm, Kind::ImulThree),
        0x70..=0x7F => short(Prefixes::Bare, Q, Rel8, Imm, Kind::Jcc),
        _ => None,
    }
}

#[tactic(auto, unfolding(crate::specs::Dispatch::from_80))]
fn from_80(op: u8, reg: u8) -> Option<Row>
    ensures { result ≡ from_80 op reg }
{
    match op {
        0x80 => row(Prefixes::Sized, B, Ib, RmImm, Kind::Alu(alu_op(reg))),
        0x81 => row(Prefixes::Sized, V, Iz, RmImm, Kind::Alu(alu_op(reg))),
        0x83 => row(Prefixes::Sized, V, Ib, RmImm, Kind::Alu(alu_op(reg))),
        0x84 => row(Prefixes::Sized, B, Nothing, RmReg, Kind::Alu(AluOp::Test)),
        0x85 => row(Prefixes::Sized, V, Nothing, RmReg, Kind::Alu(AluOp::Test)),
        0x86 => row(Prefixes::Sized, B, Nothing, RmReg, Kind::Xchg),
        0x87 => row(Prefixes::Sized, V, Nothing, RmReg, Kind::Xchg),
        0x88 => row(Prefixes::Sized, B, Nothing, RmReg, Kind::Mov),
        0x89 => row(Prefixes::Sized, V, Nothing, RmReg, Kind::Mov),
        0x8A => row(Prefixes::Sized, B, Nothing, RegRm, Kind::Mov),
        0x8B => row(Prefixes::Sized, V, Nothing, RegRm, Kind::Mov),
        0x8D => row(Prefixes::Sized, V, Nothing, RegRm, Kind::Lea),
        _ => None,
    }
}

#[tactic(auto, unfolding(crate::specs::Dispatch::from_90))]
fn from_90(rex_b: u8, op: u8) -> Option<Row>
    ensures { result ≡ from_90 rex_b op }
{
    match op {
        0x90 if rex_b == 1 => asks(
            Rex::High,
            short(Prefixes::Sized, V, Nothing, CodeAcc, Kind::Xchg),
        ),
        0x90 => asks(Rex::Low, short(Prefixes::Mixed, Q, Nothing, Imm, Kind::Nop)),
        0x91..=0x97 => short(Prefixes::Sized, V, Nothing, CodeAcc, Kind::Xchg),
        0x98 => short(Prefixes::Sized, D, Nothing, Imm, Kind::Widen),
        0x99 => short(Prefixes::Sized, D, Nothing, Imm, Kind::Spread),
        0xA8 => short(Prefixes::Sized, B, Ib, AccImm, Kind::Alu(AluOp::Test)),
        0xA9 => short(Prefixes::Sized, V, Iz, AccImm, Kind::Alu(AluOp::Test)),
        0xB0..=0xB7 => short(Prefixes::Sized, B, Ib, CodeImm, Kind::Mov),
        0xB8..=0xBF => short(Prefixes::Sized, V, Iv, CodeImm, Kind::Mov),
        _ => None,
    }
}

#[tactic(auto, unfolding(crate::specs::Dispatch::from_c0))]
fn from_c0(op: u8, reg: u8) -> Option<Row>
    ensures { result ≡ from_c0 op reg }
{
    match op {
        0xC2 => asks(Rex::Absent, short(Prefixes::Bare, Q, Iw, Imm, Kind::Ret)),
        0xC3 => asks(
            Rex::Absent,
            short(Prefixes::Bare, Q, Nothing, Imm, Kind::Ret),
        ),
        0xC6 if reg == 0 => row(Prefixes::Sized, B, Ib, RmImm, Kind::Mov),
        0xC7 if reg == 0 => row(Prefixes::Sized, V, Iz, RmImm, Kind::Mov),
        0xC9 => asks(
            Rex::Absent,
            short(Prefixes::Bare, Q, Nothing, Imm, Kind::Leave),
        ),
        _ => shift(op, reg),
    }
}

#[tactic(auto, unfolding(crate::specs::Dispatch::group_f6))]
fn group_f6(reg: u8) -> Option<Row>
    ensures { result ≡ group_f6 reg }
{
    match reg {
        0 => row(Prefixes::Sized, B, Ib, RmImm, Kind::Alu(AluOp::Test)),
        2 => row(Prefixes::Sized, B, Nothing, Rm, Kind::One(OneOp::Not)),
        3 => row(Prefixes::Sized, B, Nothing, Rm, Kind::One(OneOp::Neg)),
        _ => None,
    }
}

#[tactic(auto, unfolding(crate::specs::Dispatch::group_f7))]
fn group_f7(reg: u8) -> Option<Row>
    ensures { result ≡ group_f7 reg }
{
    match reg {
        0 => row(Prefixes::Sized, V, Iz, RmImm, Kind::Alu(AluOp::Test)),
        2 => row(Prefixes::Sized, V, Nothing, Rm, Kind::One(OneOp::Not)),
        3 => row(Prefixes::Sized, V, Nothing, Rm, Kind::One(OneOp::Neg)),
        4 => row(Prefixes::Sized, D, Nothing, Rm, Kind::Mul(false)),
        5 => row(Prefixes::Sized, D, Nothing, Rm, Kind::Mul(true)),
        6 => row(Prefixes::Sized, D, Nothing, Rm, Kind::Div(false)),
        7 => row(Prefixes::Sized, D, Nothing, Rm, Kind::Div(true)),
        _ => None,
    }
}

#[tactic(auto, unfolding(crate::specs::Dispatch::group_fe))]
fn group_fe(reg: u8) -> Option<Row>
    ensures { result ≡ group_fe reg }
{
    match reg {
        0 => row(Prefixes::Sized, B, Nothing, Rm, Kind::One(OneOp::Inc)),
        1 => row(Prefixes::Sized, B, Nothing, Rm, Kind::One(OneOp::Dec)),
        _ => None,
    }
}

#[tactic(auto, unfolding(crate::specs::Dispatch::group_ff))]
fn group_ff(reg: u8) -> Option<Row>
    ensures { result ≡ group_ff reg }
{
    match reg {
        0 => row(Prefixes::Sized, V, Nothing, Rm, Kind::One(OneOp::Inc)),
        1 => row(Prefixes::Sized, V, Nothing, Rm, Kind::One(OneOp::Dec)),
        2 => row(Prefixes::Track, Q, Nothing, Rm, Kind::CallTo),
        4 => row(Prefixes::Track, Q, Nothing, Rm, Kind::JmpTo),
        6 => row(Prefixes::Bare, Q, Nothing, Rm, Kind::Push),
        _ => None,
    }
}

#[tactic(auto, unfolding(crate::specs::Dispatch::from_e0))]
fn from_e0(op: u8, reg: u8) -> Option<Row>
    ensures { result ≡ from_e0 op reg }
{
    match op {
        0xE8 => short(Prefixes::Bare, Q, Rel32, Imm, Kind::Call),
        0xE9 => short(Prefixes::Bare, Q, Rel32, Imm, Kind::Jmp),
        0xEB => short(Prefixes::Bare, Q, Rel8, Imm, Kind::Jmp),
        0xF6 => group_f6(reg),
        0xF7 => group_f7(reg),
        0xFE => group_fe(reg),
        0xFF => group_ff(reg),
        _ => None,
    }
}

/// The row of an opcode without 0F, where neither F0 nor F3 stands.
#[tactic(auto, unfolding(crate::specs::Dispatch::plain))]
fn plain(rex_b: u8, op: u8, reg: u8) -> Option<Row>
    ensures { result ≡ plain rex_b op reg }
{
    if op < 0x40 {
        alu_row(Kind::Alu(alu_op(op / 8)), op % 8)
    } else if op < 0x80 {
        from_40(op)
    } else if op < 0x90 {
        from_80(op, reg)
    } else if op < 0xC0 {
        from_90(rex_b, op)
    } else if op < 0xE0 {
        from_c0(op, reg)
    } else {
        from_e0(op, reg)
    }
}

/// The row of an opcode behind 0F, where neither F0 nor F3 stands.
#[tactic(auto, unfolding(crate::specs::Dispatch::escaped))]
fn escaped(op: u8, reg: u8) -> Option<Row>
    ensures { result ≡ escaped op reg }
{
    match op {
        0x1F if reg == 0 => row(Prefixes::Mixed, Q, Nothing, Rm, Kind::Nop),
        0x40..=0x4F => row(Prefixes::Sized, D, Nothing, RegRm, Kind::Cmov),
        0x80..=0x8F => short(Prefixes::Bare, Q, Rel32, Imm, Kind::Jcc),
        0x90..=0x9F => row(Prefixes::Sized, B, Nothing, Rm, Kind::Set),
        0xAE if reg == 6 => fixed(0xF0, Prefixes::Bare, Kind::Mfence),
        0xAF => row(Prefixes::Sized, D, Nothing, RegRm, Kind::ImulTwo),
        0xB6 => row(Prefixes::Sized, V, Nothing, RegRm, Kind::Zx(Width::W8)),
        0xB7 => row(Prefixes::Sized, D, Nothing, RegRm, Kind::Zx(Width::W16)),
        0xBE => row(Prefixes::Sized, V, Nothing, RegRm, Kind::Sx(Width::W8)),
        0xBF => row(Prefixes::Sized, D, Nothing, RegRm, Kind::Sx(Width::W16)),
        _ => None,
    }
}

#[tactic(auto, unfolding(crate::specs::Dispatch::chosen))]
fn choose(mark: Mark, rex_b: u8, escape: bool, op: u8, reg: u8) -> Option<Row>
    ensures { result ≡ chosen mark rex_b escape op reg }
{
    match mark {
        Mark::Plain if escape => escaped(op, reg),
        Mark::Plain => plain(rex_b, op, reg),
        Mark::Lock if escape => locked_escaped(op),
        Mark::Lock => locked(op, reg),
        Mark::Rep if escape => repeated_escaped(op, reg),
        Mark::Rep => repeated(op),
    }
}

/// The row of the table for a prefix mark, the bit REX.B, whether 0F stands, the opcode, and the reg
/// field of the byte behind it.
pub fn row_of(mark: Mark, rex_b: u8, escape: bool, op: u8, reg: u8) -> Option<Row>
    requires bit { rex_b < 2 }
    requires field { reg < 8 }
    ensures { result ≡ find_row mark rex_b escape op reg }
{
    choose(mark, rex_b, escape, op, reg)
}
