//! Instructions that change memory in one locked step: temporary 1 gets the old value (temporary 2 at
//! XCHG), and a second part makes flags and registers of it.
ghost use Rattle.std.specs.Prelude.{◌≡◌, ◌++◌, ◌∷◌, [], IfOk, Some};
ghost use Rattle.lift_table.specs.LiftLines.{ir_width, alone, part, lock_op, lock_one_op, address_line, reads, flag_lines, all_five};
ghost use Rattle.lift_table.specs.LiftTable.{lifted, accumulator_ops};

use crate::parts::end_alone;
use ir_syntax::{Cond, Family, LockOp, Op, Part, PartEnd};
use lift_alu::lines::{Source, address_line, ended, given, push_line, push_put, push_read};
use lift_alu::words::{alu_family, ir_width, one_family};
use std::alloc::{AllocError, Global};
use x86_forms::{AluOp, Instr, Mem, OneOp, Operand, Width};

// What an operation on two operands does to memory under LOCK, if it takes that.
fn lock_op(op: AluOp) -> Option<LockOp>
    ensures { result ≡ lock_op op }
{
    match op {
        AluOp::Add => Some(LockOp::Add),
        AluOp::Or => Some(LockOp::Or),
        AluOp::And => Some(LockOp::And),
        AluOp::Sub => Some(LockOp::Sub),
        AluOp::Xor => Some(LockOp::Xor),
        AluOp::Adc | AluOp::Sbb | AluOp::Cmp | AluOp::Test => None,
    }
}

// What INC and DEC do to memory under LOCK with the number 1.
fn lock_one_op(op: OneOp) -> Option<LockOp>
    ensures { result ≡ lock_one_op op }
{
    match op {
        OneOp::Inc => Some(LockOp::Add),
        OneOp::Dec => Some(LockOp::Sub),
        OneOp::Not | OneOp::Neg => None,
    }
}

// The address of memory, and an operand outside it in temporary `t`.
fn operands(
    alloc: Global,
    next: u64,
    mem: Mem,
    w: Width,
    operand: Operand,
    t: u8,
) -> Result<Vec<Op>, AllocError>
    ensures { IfOk result (λ ops. ops.items ≡ address_line next mem ∷ reads w operand t) }
{
    let mut ops = vec![in alloc; address_line(next, mem)]?;
    push_read(&mut ops, w, operand, t)?;
    Ok(ops)
}

// The locked step with temporary 2, and what comes after it.
fn locked(
    alloc: Global,
    before: Vec<Op>,
    kind: LockOp,
    w: Width,
    after: Vec<Op>,
) -> Result<Vec<Part>, AllocError>
    ensures { IfOk result (λ parts. parts.items ≡ part before.items (PartEnd.Locked kind (ir_width w) 1 0 2) ∷ alone after.items PartEnd.Tick) }
{
    let step = PartEnd::Locked {
        kind,
        w: ir_width(w),
        t: 1,
        a: 0,
        s: 2,
    };
    let parts = vec![in alloc; ended(before, step), ended(after, PartEnd::Tick)]?;
    Ok(parts)
}

/// LOCK ADD, OR, AND, SUB and XOR.
pub fn lock_alu(
    alloc: Global,
    next: u64,
    op: AluOp,
    w: Width,
    mem: Mem,
    src: Operand,
) -> Result<Vec<Part>, AllocError>
    ensures { IfOk result (λ parts. parts.items ≡ lifted (Instr.LockAlu op w mem src) next) }
{
    match lock_op(op) {
        Some(kind) => {
            let before = operands(alloc, next, mem, w, src, 2)?;
            let source = Source {
                family: alu_family(op),
                w,
                a: 1,
                b: Some(2),
            };
            let mut after = Vec::new(alloc);
            source.push_all_five(&mut after)?;
            locked(alloc, before, kind, w, after)
        }
        None => end_alone(alloc, PartEnd::BadCode),
    }
}

/// LOCK INC and DEC.
pub fn lock_one(
    alloc: Global,
    next: u64,
    op: OneOp,
    w: Width,
    mem: Mem,
) -> Result<Vec<Part>, AllocError>
    ensures { IfOk result (λ parts. parts.items ≡ lifted (Instr.LockOne op w mem) next) }
{
    match lock_one_op(op) {
        Some(kind) => {
            let before = operands(alloc, next, mem, w, Operand::Imm(1), 2)?;
            let source = Source {
                family: one_family(op),
                w,
                a: 1,
                b: None,
            };
            let mut after = Vec::new(alloc);
            source.push_all_but_carry(&mut after)?;
            locked(alloc, before, kind, w, after)
        }
        None => end_alone(alloc, PartEnd::BadCode),
    }
}

/// LOCK XADD: the register gets the old value.
pub fn xadd(
    alloc: Global,
    next: u64,
    w: Width,
    mem: Mem,
    reg: Operand,
) -> Result<Vec<Part>, AllocError>
    ensures { IfOk result (λ parts. parts.items ≡ lifted (Instr.Xadd w mem reg) next) }
{
    let before = operands(alloc, next, mem, w, reg, 2)?;
    let source = Source {
        family: Family::Add,
        w,
        a: 1,
        b: Some(2),
    };
    let mut after = Vec::new(alloc);
    source.push_all_five(&mut after)?;
    push_put(&mut after, w, reg, 1)?;
    locked(alloc, before, LockOp::Add, w, after)
}

/// XCHG with memory: the register gets the old value.
pub fn exchange(
    alloc: Global,
    next: u64,
    w: Width,
    mem: Mem,
    reg: Operand,
) -> Result<Vec<Part>, AllocError>
    ensures { IfOk result (λ parts. parts.items ≡ lifted (Instr.Xchg w (Operand.Mem mem) reg) next) }
{
    let before = operands(alloc, next, mem, w, reg, 1)?;
    let step = PartEnd::Locked {
        kind: LockOp::Xchg,
        w: ir_width(w),
        t: 2,
        a: 0,
        s: 1,
    };
    let after = given(Vec::new(alloc), w, reg, 2)?;
    let parts = vec![in alloc; ended(before, step), after]?;
    Ok(parts)
}

// Adds the lines that write rax where the old value in temporary 1 differs from it: temporary 4 says
// whether they are equal, and 3 has the accumulator. At 32 bits rax is written whole, so that it stays
// as it was where they are equal.
fn push_accumulator(ops: &mut Vec<Op>, w: Width) -> Result<(), AllocError>
    ensures { IfOk result (λ _. ops.new.items ≡ ops.old.items ++ accumulator_ops w) }
{
    match w {
        Width::W32 => {
            push_read(ops, Width::W64, Operand::Reg(0), 5)?;
            push_line(ops, widened())?;
            push_line(ops, picked(Width::W64, 5, 6))?;
            push_put(ops, Width::W64, Operand::Reg(0), 7)
        }
        Width::W64 | Width::W16 | Width::W8 => {
            push_line(ops, picked(w, 3, 1))?;
            push_put(ops, w, Operand::Reg(0), 7)
        }
    }
}

// Temporary 6 becomes temporary 1 with zeros above its 32 bits.
fn widened() -> Op
    ensures { result ≡ Op.Zext 32 (ir_width Width.W64) 6 1 }
{
    Op::Zext {
        from: 32,
        w: ir_width(Width::W64),
        t: 6,
        a: 1,
    }
}

// Temporary 7 becomes one of two by temporary 4.
fn picked(w: Width, a: u8, b: u8) -> Op
    ensures { result ≡ Op.Pick (ir_width w) 7 4 a b }
{
    Op::Pick {
        w: ir_width(w),
        t: 7,
        c: 4,
        a,
        b,
    }
}

// The comparison of the accumulator in temporary 3 with the old value, and the accumulator after it.
fn compared(alloc: Global, w: Width) -> Result<Vec<Op>, AllocError>
    ensures { IfOk result (λ ops. ops.items ≡ flag_lines all_five Family.Sub w 3 (Some 1) ++ (Op.Cond 4 Cond.E ∷ accumulator_ops w)) }
{
    let source = Source {
        family: Family::Sub,
        w,
        a: 3,
        b: Some(1),
    };
    let mut ops = Vec::new(alloc);
    source.push_all_five(&mut ops)?;
    push_line(&mut ops, Op::Cond { t: 4, c: Cond::E })?;
    push_accumulator(&mut ops, w)?;
    Ok(ops)
}

/// LOCK CMPXCHG.
pub fn cmpxchg(
    alloc: Global,
    next: u64,
    w: Width,
    mem: Mem,
    reg: Operand,
) -> Result<Vec<Part>, AllocError>
    ensures { IfOk result (λ parts. parts.items ≡ lifted (Instr.Cmpxchg w mem reg) next) }
{
    let mut before = operands(alloc, next, mem, w, reg, 2)?;
    push_read(&mut before, w, Operand::Reg(0), 3)?;
    let step = PartEnd::LockedCmpxchg {
        w: ir_width(w),
        t: 1,
        a: 0,
        c: 3,
        s: 2,
    };
    let after = compared(alloc, w)?;
    let parts = vec![in alloc; ended(before, step), ended(after, PartEnd::Tick)]?;
    Ok(parts)
}
