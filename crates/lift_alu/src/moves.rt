//! The last part of each instruction that moves, widens, exchanges or chooses: of registers and numbers,
//! or of memory that an earlier part has loaded to temporary 1. Temporary 0 has the address of an operand
//! in memory. `next` is the address of the next instruction.
ghost use Rattle.std.specs.Prelude.{◌≡◌, ◌++◌, ◌∷◌, [], IfOk};
ghost use Rattle.lift_table.specs.LiftLines.{address_line, addressed, reads, puts, alone, given_at, ir_cond, ir_width};
ghost use Rattle.lift_table.specs.LiftTable.{both_read, lea_parts, zero_extended_to, sign_extended_to, spread_parts, cmov_parts};

use crate::arithmetic::push_both;
use crate::lines::{address_line, ended, given, push_address, push_line, push_put, push_read};
use crate::words::{ir_cond, ir_width};
use ir_syntax::{Family, Op, Part, PartEnd};
use std::alloc::{AllocError, Global};
use x86_forms::{Cond, Mem, Operand, Width};

/// MOV.
pub fn mov(
    alloc: Global,
    next: u64,
    w: Width,
    dst: Operand,
    src: Operand,
) -> Result<Part, AllocError>
    ensures { IfOk result (λ p. p ∷ [] ≡ given_at (addressed next dst ++ reads w src 1) w dst 1) }
{
    let mut ops = Vec::new(alloc);
    push_address(&mut ops, next, dst)?;
    push_read(&mut ops, w, src, 1)?;
    given(ops, w, dst, 1)
}

/// An operand of width `from` goes to register `dst`, with zeros above it.
pub fn zero_extended(
    alloc: Global,
    from: Width,
    w: Width,
    src: Operand,
    dst: u8,
) -> Result<Part, AllocError>
    ensures { IfOk result (λ p. p ∷ [] ≡ zero_extended_to from w src dst) }
{
    let mut ops = Vec::new(alloc);
    push_read(&mut ops, from, src, 1)?;
    let line = Op::Zext {
        from: from.bits(),
        w: ir_width(w),
        t: 2,
        a: 1,
    };
    push_line(&mut ops, line)?;
    given(ops, w, Operand::Reg(dst), 2)
}

/// An operand of width `from` goes to register `dst`, with copies of its top bit above it.
pub fn sign_extended(
    alloc: Global,
    from: Width,
    w: Width,
    src: Operand,
    dst: u8,
) -> Result<Part, AllocError>
    ensures { IfOk result (λ p. p ∷ [] ≡ sign_extended_to from w src dst) }
{
    let mut ops = Vec::new(alloc);
    push_read(&mut ops, from, src, 1)?;
    let line = Op::Sext {
        from: from.bits(),
        w: ir_width(w),
        t: 2,
        a: 1,
    };
    push_line(&mut ops, line)?;
    given(ops, w, Operand::Reg(dst), 2)
}

// The low bits of an address, at fewer than 64 bits.
fn cut_address(alloc: Global, next: u64, w: Width, dst: u8, mem: Mem) -> Result<Part, AllocError>
    ensures { IfOk result (λ p. p ∷ [] ≡ given_at (address_line next mem ∷ Op.Cut 64 (ir_width w) 1 0 ∷ []) w (Operand.Reg dst) 1) }
{
    let mut ops = Vec::new(alloc);
    push_line(&mut ops, address_line(next, mem))?;
    let line = Op::Cut {
        from: 64,
        w: ir_width(w),
        t: 1,
        a: 0,
    };
    push_line(&mut ops, line)?;
    given(ops, w, Operand::Reg(dst), 1)
}

/// LEA.
pub fn lea(alloc: Global, next: u64, w: Width, dst: u8, mem: Mem) -> Result<Part, AllocError>
    ensures { IfOk result (λ p. p ∷ [] ≡ lea_parts next w dst mem) }
{
    match w {
        Width::W64 => {
            let mut ops = Vec::new(alloc);
            push_line(&mut ops, address_line(next, mem))?;
            given(ops, w, Operand::Reg(dst), 0)
        }
        Width::W32 | Width::W16 | Width::W8 => cut_address(alloc, next, w, dst, mem),
    }
}

/// CDQ and CQO: rdx gets copies of the top bit of rax.
pub fn spread(alloc: Global, w: Width) -> Result<Part, AllocError>
    ensures { IfOk result (λ p. p ∷ [] ≡ spread_parts w) }
{
    let mut ops = Vec::new(alloc);
    push_read(&mut ops, w, Operand::Reg(0), 1)?;
    let count = Op::Const {
        w: ir_syntax::Width::W8,
        t: 2,
        n: u64::from(w.bits() - 1),
    };
    push_line(&mut ops, count)?;
    let shift = Op::Calc {
        family: Family::Sar,
        w: ir_width(w),
        t: 3,
        a: 1,
        b: Some(2),
    };
    push_line(&mut ops, shift)?;
    given(ops, w, Operand::Reg(2), 3)
}

/// XCHG of two registers.
pub fn exchange(alloc: Global, w: Width, a: Operand, b: Operand) -> Result<Part, AllocError>
    ensures { IfOk result (λ p. p ∷ [] ≡ alone (both_read w a b ++ (puts w a 2 ++ puts w b 1)) PartEnd.Tick) }
{
    let mut ops = Vec::new(alloc);
    push_both(&mut ops, w, a, b)?;
    push_put(&mut ops, w, a, 2)?;
    push_put(&mut ops, w, b, 1)?;
    Ok(ended(ops, PartEnd::Tick))
}

/// SETcc.
pub fn set(alloc: Global, next: u64, cc: Cond, dst: Operand) -> Result<Part, AllocError>
    ensures { IfOk result (λ p. p ∷ [] ≡ given_at (addressed next dst ++ (Op.Cond 1 (ir_cond cc) ∷ Op.Zext 1 (ir_width Width.W8) 2 1 ∷ [])) Width.W8 dst 2) }
{
    let mut ops = Vec::new(alloc);
    push_address(&mut ops, next, dst)?;
    push_line(
        &mut ops,
        Op::Cond {
            t: 1,
            c: ir_cond(cc),
        },
    )?;
    let line = Op::Zext {
        from: 1,
        w: ir_syntax::Width::W8,
        t: 2,
        a: 1,
    };
    push_line(&mut ops, line)?;
    given(ops, Width::W8, dst, 2)
}

/// CMOVcc: `dst` is written also where the condition doesn't hold.
pub fn cmov(alloc: Global, cc: Cond, w: Width, dst: u8, src: Operand) -> Result<Part, AllocError>
    ensures { IfOk result (λ p. p ∷ [] ≡ cmov_parts cc w dst src) }
{
    let mut ops = Vec::new(alloc);
    push_read(&mut ops, w, src, 1)?;
    push_read(&mut ops, w, Operand::Reg(dst), 2)?;
    push_line(
        &mut ops,
        Op::Cond {
            t: 3,
            c: ir_cond(cc),
        },
    )?;
    let line = Op::Pick {
        w: ir_width(w),
        t: 4,
        c: 3,
        a: 1,
        b: 2,
    };
    push_line(&mut ops, line)?;
    given(ops, w, Operand::Reg(dst), 4)
}
