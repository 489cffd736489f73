ghost use Rattle.std.specs.Prelude.{◌≡◌, ◌∷◌, [], IfOk};
ghost use Rattle.x86_forms.specs.Groups.{group_of};
ghost use Rattle.lift_table.specs.LiftTable.{lifted, imul_parts};

use crate::locked::{cmpxchg, exchange, lock_alu, lock_one, xadd};
use crate::parts::{after_load, after_loads, end_alone};
use crate::stack::{pop_from, push};
use ir_syntax::{Part, PartEnd};
use lift_alu::arithmetic::{alu, div, imul, mul, one, shift};
use lift_alu::moves::{cmov, mov, set, sign_extended, zero_extended};
use lift_alu::words::is_immediate;
use std::alloc::{AllocError, Global};
use x86_forms::{AluOp, Cond, Group, Instr, OneOp, Operand, ShiftOp, Width};

fn alu_parts(
    alloc: Global,
    next: u64,
    op: AluOp,
    w: Width,
    dst: Operand,
    src: Operand,
) -> Result<Vec<Part>, AllocError>
    ensures { IfOk result (λ parts. parts.items ≡ lifted (Instr.Alu op w dst src) next) }
{
    let last = alu(alloc, op, w, dst, src)?;
    after_loads(alloc, next, w, dst, src, last)
}

fn mov_parts(
    alloc: Global,
    next: u64,
    w: Width,
    dst: Operand,
    src: Operand,
) -> Result<Vec<Part>, AllocError>
    ensures { IfOk result (λ parts. parts.items ≡ lifted (Instr.Mov w dst src) next) }
{
    let last = mov(alloc, next, w, dst, src)?;
    after_load(alloc, next, w, src, 1, last)
}

fn zx_parts(
    alloc: Global,
    next: u64,
    from: Width,
    w: Width,
    dst: u8,
    src: Operand,
) -> Result<Vec<Part>, AllocError>
    ensures { IfOk result (λ parts. parts.items ≡ lifted (Instr.Zx from w dst src) next) }
{
    let last = zero_extended(alloc, from, w, src, dst)?;
    after_load(alloc, next, from, src, 1, last)
}

fn sx_parts(
    alloc: Global,
    next: u64,
    from: Width,
    w: Width,
    dst: u8,
    src: Operand,
) -> Result<Vec<Part>, AllocError>
    ensures { IfOk result (λ parts. parts.items ≡ lifted (Instr.Sx from w dst src) next) }
{
    let last = sign_extended(alloc, from, w, src, dst)?;
    after_load(alloc, next, from, src, 1, last)
}

fn one_parts(
    alloc: Global,
    next: u64,
    op: OneOp,
    w: Width,
    dst: Operand,
) -> Result<Vec<Part>, AllocError>
    ensures { IfOk result (λ parts. parts.items ≡ lifted (Instr.One op w dst) next) }
{
    let last = one(alloc, op, w, dst)?;
    after_load(alloc, next, w, dst, 1, last)
}

fn shift_parts(
    alloc: Global,
    next: u64,
    op: ShiftOp,
    w: Width,
    dst: Operand,
    count: Option<u8>,
) -> Result<Vec<Part>, AllocError>
    ensures { IfOk result (λ parts. parts.items ≡ lifted (Instr.Shift op w dst count) next) }
{
    let last = shift(alloc, op, w, dst, count)?;
    after_load(alloc, next, w, dst, 1, last)
}

fn mul_parts(
    alloc: Global,
    next: u64,
    signed: bool,
    w: Width,
    src: Operand,
) -> Result<Vec<Part>, AllocError>
    ensures { IfOk result (λ parts. parts.items ≡ lifted (Instr.Mul signed w src) next) }
{
    let last = mul(alloc, signed, w, src)?;
    after_load(alloc, next, w, src, 1, last)
}

fn div_parts(
    alloc: Global,
    next: u64,
    signed: bool,
    w: Width,
    src: Operand,
) -> Result<Vec<Part>, AllocError>
    ensures { IfOk result (λ parts. parts.items ≡ lifted (Instr.Div signed w src) next) }
{
    let last = div(alloc, signed, w, src)?;
    after_load(alloc, next, w, src, 1, last)
}

// The factors in the order of their temporaries.
fn factors(
    alloc: Global,
    next: u64,
    w: Width,
    dst: u8,
    a: Operand,
    b: Operand,
) -> Result<Vec<Part>, AllocError>
    ensures { IfOk result (λ parts. parts.items ≡ imul_parts next w dst a b) }
{
    let last = imul(alloc, w, dst, a, b)?;
    after_loads(alloc, next, w, a, b, last)
}

// The number of a product, where there is one, is the second factor.
fn product(
    alloc: Global,
    next: u64,
    w: Width,
    dst: u8,
    a: Operand,
    b: Operand,
) -> Result<Vec<Part>, AllocError>
    ensures { IfOk result (λ parts. parts.items ≡ lifted (Instr.Imul w dst a b) next) }
{
    if is_immediate(b) {
        factors(alloc, next, w, dst, a, b)
    } else {
        factors(alloc, next, w, dst, b, a)
    }
}

fn cmov_parts(
    alloc: Global,
    next: u64,
    cc: Cond,
    w: Width,
    dst: u8,
    src: Operand,
) -> Result<Vec<Part>, AllocError>
    ensures { IfOk result (λ parts. parts.items ≡ lifted (Instr.Cmov cc w dst src) next) }
{
    let last = cmov(alloc, cc, w, dst, src)?;
    after_load(alloc, next, w, src, 1, last)
}

// SETcc loads nothing.
fn set_parts(alloc: Global, next: u64, cc: Cond, dst: Operand) -> Result<Vec<Part>, AllocError>
    ensures { IfOk result (λ parts. parts.items ≡ lifted (Instr.Set cc dst) next) }
{
    let last = set(alloc, next, cc, dst)?;
    let parts = vec![in alloc; last]?;
    Ok(parts)
}

// With memory one locked step; where the first operand is none, the registers get what the other had.
fn exchange_parts(
    alloc: Global,
    next: u64,
    w: Width,
    a: Operand,
    b: Operand,
) -> Result<Vec<Part>, AllocError>
    ensures { IfOk result (λ parts. parts.items ≡ lifted (Instr.Xchg w a b) next) }
{
    match a {
        Operand::Mem(mem) => exchange(alloc, next, w, mem, b),
        Operand::Reg(_) | Operand::High(_) | Operand::Imm(_) => {
            let last = lift_alu::moves::exchange(alloc, w, a, b)?;
            let parts = vec![in alloc; last]?;
            Ok(parts)
        }
    }
}

/// The parts of an instruction that reads or writes memory, or orders accesses to it, and goes on at the
/// next instruction, which is at `next`: the rows of the lifting table. An instruction that the manual
/// doesn't have, such as a locked comparison, is lifted as the table says and means nothing. The group is
/// `Instr::group`.
///
/// # Errors
///
/// Memory is wanted for the parts and their lines.
pub fn lift_memory(alloc: Global, instr: &Instr, next: u64) -> Result<Vec<Part>, AllocError>
    requires { group_of instr.now ≡ Group.Memory }
    ensures { IfOk result (λ parts. parts.items ≡ lifted instr.now next) }
{
    match *instr {
        Instr::Alu { op, w, dst, src } => alu_parts(alloc, next, op, w, dst, src),
        Instr::Mov { w, dst, src } => mov_parts(alloc, next, w, dst, src),
        Instr::Zx { from, w, dst, src } => zx_parts(alloc, next, from, w, dst, src),
        Instr::Sx { from, w, dst, src } => sx_parts(alloc, next, from, w, dst, src),
        Instr::Push { src } => push(alloc, next, src),
        Instr::Pop { dst } => pop_from(alloc, 4, dst),
        Instr::Leave => pop_from(alloc, 5, 5),
        Instr::One { op, w, dst } => one_parts(alloc, next, op, w, dst),
        Instr::Mul { signed, w, src } => mul_parts(alloc, next, signed, w, src),
        Instr::Imul { w, dst, a, b } => product(alloc, next, w, dst, a, b),
        Instr::Div { signed, w, src } => div_parts(alloc, next, signed, w, src),
        Instr::Shift { op, w, dst, count } => shift_parts(alloc, next, op, w, dst, count),
        Instr::Xchg { w, a, b } => exchange_parts(alloc, next, w, a, b),
        Instr::Set { cc, dst } => set_parts(alloc, next, cc, dst),
        Instr::Cmov { cc, w, dst, src } => cmov_parts(alloc, next, cc, w, dst, src),
        Instr::LockAlu { op, w, mem, src } => lock_alu(alloc, next, op, w, mem, src),
        Instr::LockOne { op, w, mem } => lock_one(alloc, next, op, w, mem),
        Instr::Xadd { w, mem, reg } => xadd(alloc, next, w, mem, reg),
        Instr::Cmpxchg { w, mem, reg } => cmpxchg(alloc, next, w, mem, reg),
        Instr::Mfence => end_alone(alloc, PartEnd::Fence),
        _ => unreachable!(),
    }
}
