//! The rows of opcodes with F0 or F3: locked instructions, PAUSE, the repeated RET and ENDBR64.

ghost use Rattle.std.specs.Prelude.{◌≡◌};
ghost use Rattle.x86_decode.specs.Dispatch.{can_lock, lock_row, lock_alu, lock_one, locked, locked_escaped, repeated, repeated_escaped};

use crate::dispatch::{alu_op, asks, fixed, row, short};
use x86_forms::Shape::{Imm, Rm, RmImm, RmReg};
use x86_forms::Size::{B, Q, V};
use x86_forms::Tail::{Ib, Iz, Nothing};
use x86_forms::{Kind, OneOp, Prefixes, Rex, Row, Shape, Size, Tail};

/// Whether the operation with this number takes LOCK: not ADC, SBB and CMP.
#[tactic(auto, unfolding(crate::specs::Dispatch::can_lock))]
fn can_lock(number: u8) -> bool
    ensures { result ≡ can_lock number }
{
    match number {
        2 | 3 | 7 => false,
        _ => true,
    }
}

#[tactic(auto, unfolding(crate::specs::Dispatch::lock_row))]
fn lock_row(size: Size, tail: Tail, shape: Shape, number: u8) -> Option<Row>
    ensures { result ≡ lock_row size tail shape number }
{
    if can_lock(number) {
        row(
            Prefixes::Locked,
            size,
            tail,
            shape,
            Kind::LockAlu(alu_op(number)),
        )
    } else {
        None
    }
}

#[tactic(auto, unfolding(crate::specs::Dispatch::lock_alu))]
fn lock_alu(op: u8) -> Option<Row>
    ensures { result ≡ lock_alu op }
{
    match op % 8 {
        0 => lock_row(B, Nothing, RmReg, op / 8),
        1 => lock_row(V, Nothing, RmReg, op / 8),
        _ => None,
    }
}

#[tactic(auto, unfolding(crate::specs::Dispatch::lock_one))]
fn lock_one(size: Size, reg: u8) -> Option<Row>
    ensures { result ≡ lock_one size reg }
{
    match reg {
        0 => row(
            Prefixes::Locked,
            size,
            Nothing,
            Rm,
            Kind::LockOne(OneOp::Inc),
        ),
        1 => row(
            Prefixes::Locked,
            size,
            Nothing,
            Rm,
            Kind::LockOne(OneOp::Dec),
        ),
        _ => None,
    }
}

/// The row of an opcode without 0F, where F0 stands.
#[tactic(auto, unfolding(crate::specs::Dispatch::locked))]
pub fn locked(op: u8, reg: u8) -> Option<Row>
    ensures { result ≡ locked op reg }
{
    match op {
        0..=0x3F => lock_alu(op),
        0x80 => lock_row(B, Ib, RmImm, reg),
        0x81 => lock_row(V, Iz, RmImm, reg),
        0x83 => lock_row(V, Ib, RmImm, reg),
        0x86 => row(Prefixes::Locked, B, Nothing, RmReg, Kind::LockXchg),
        0x87 => row(Prefixes::Locked, V, Nothing, RmReg, Kind::LockXchg),
        0xFE => lock_one(B, reg),
        0xFF => lock_one(V, reg),
        _ => None,
    }
}

/// The row of an opcode behind 0F, where F0 stands.
#[tactic(auto, unfolding(crate::specs::Dispatch::locked_escaped))]
pub fn locked_escaped(op: u8) -> Option<Row>
    ensures { result ≡ locked_escaped op }
{
    match op {
        0xB0 => row(Prefixes::Locked, B, Nothing, RmReg, Kind::Cmpxchg),
        0xB1 => row(Prefixes::Locked, V, Nothing, RmReg, Kind::Cmpxchg),
        0xC0 => row(Prefixes::Locked, B, Nothing, RmReg, Kind::Xadd),
        0xC1 => row(Prefixes::Locked, V, Nothing, RmReg, Kind::Xadd),
        _ => None,
    }
}

/// The row of an opcode without 0F, where F3 stands.
#[tactic(auto, unfolding(crate::specs::Dispatch::repeated))]
pub fn repeated(op: u8) -> Option<Row>
    ensures { result ≡ repeated op }
{
    match op {
        0x90 => asks(
            Rex::Absent,
            short(Prefixes::Repeated, Q, Nothing, Imm, Kind::Pause),
        ),
        0xC3 => asks(
            Rex::Absent,
            short(Prefixes::Repeated, Q, Nothing, Imm, Kind::Ret),
        ),
        _ => None,
    }
}

/// The row of an opcode behind 0F, where F3 stands.
#[tactic(auto, unfolding(crate::specs::Dispatch::repeated_escaped))]
pub fn repeated_escaped(op: u8, reg: u8) -> Option<Row>
    ensures { result ≡ repeated_escaped op reg }
{
    match op {
        0x1E if reg == 7 => fixed(0xFA, Prefixes::Repeated, Kind::Endbr),
        _ => None,
    }
}
