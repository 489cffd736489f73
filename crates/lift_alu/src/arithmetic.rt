//! The last part of each instruction that computes on operands: on registers and numbers, or on memory
//! that an earlier part has loaded to the operand's temporary. Temporary 0 has the address of an operand
//! in memory; 1 and 2 have operands, 3 and 4 results.
ghost use Rattle.std.specs.Prelude.{◌≡◌, ◌++◌, ◌∷◌, [], IfOk, true};
ghost use Rattle.lift_table.specs.LiftLines.{ir_width, reads, puts, alone, given_at, flag_lines, zero_lines, all_five, overflow_and_carry, one_family, one_flags, shift_family, shift_flags, product_family, high_family};
ghost use Rattle.lift_table.specs.LiftTable.{both_read, alu_parts, one_parts, count_line, counted_lines, shift_parts, product_lines, mul_ops};

use crate::lines::{
    Source, ended, given, push_cleared, push_line, push_put, push_read, push_zero_flags,
};
use crate::words::{
    alu_family, high_family, ir_width, is_still, keeps_result, one_family, product_family,
    shift_family,
};
use ir_syntax::{Family, Op, Part, PartEnd};
use std::alloc::{AllocError, Global};
use x86_forms::{AluOp, OneOp, Operand, ShiftOp, Width};

/// Adds the lines that read two operands to temporaries 1 and 2.
pub fn push_both(ops: &mut Vec<Op>, w: Width, dst: Operand, src: Operand) -> Result<(), AllocError>
    ensures { IfOk result (λ _. ops.new.items ≡ ops.old.items ++ both_read w dst src) }
{
    push_read(ops, w, dst, 1)?;
    push_read(ops, w, src, 2)
}

// These lines, the result in temporary 3 and all five flags, and the result goes to an operand.
fn with_result(ops: Vec<Op>, source: Source, dst: Operand) -> Result<Part, AllocError>
    ensures { IfOk result (λ p. p ∷ [] ≡ given_at (ops.items ++ (Op.Calc source.family (ir_width source.w) 3 source.a source.b ∷ flag_lines all_five source.family source.w source.a source.b)) source.w dst 3) }
{
    let mut all = ops;
    push_line(&mut all, source.calc(3))?;
    source.push_all_five(&mut all)?;
    given(all, source.w, dst, 3)
}

// These lines and all five flags.
fn with_flags(ops: Vec<Op>, source: Source) -> Result<Part, AllocError>
    ensures { IfOk result (λ p. p ∷ [] ≡ alone (ops.items ++ flag_lines all_five source.family source.w source.a source.b) PartEnd.Tick) }
{
    let mut all = ops;
    source.push_all_five(&mut all)?;
    Ok(ended(all, PartEnd::Tick))
}

/// An operation on two operands.
pub fn alu(
    alloc: Global,
    op: AluOp,
    w: Width,
    dst: Operand,
    src: Operand,
) -> Result<Part, AllocError>
    ensures { IfOk result (λ p. p ∷ [] ≡ alu_parts op w dst src) }
{
    let mut ops = Vec::new(alloc);
    push_both(&mut ops, w, dst, src)?;
    let source = Source {
        family: alu_family(op),
        w,
        a: 1,
        b: Some(2),
    };
    if keeps_result(op) {
        with_result(ops, source, dst)
    } else {
        with_flags(ops, source)
    }
}

// The flags that an operation on one operand puts.
fn push_one_flags(ops: &mut Vec<Op>, op: OneOp, w: Width) -> Result<(), AllocError>
    ensures { IfOk result (λ _. ops.new.items ≡ ops.old.items ++ flag_lines (one_flags op) (one_family op) w 1 None) }
{
    let source = Source {
        family: one_family(op),
        w,
        a: 1,
        b: None,
    };
    match op {
        OneOp::Inc | OneOp::Dec => source.push_all_but_carry(ops),
        OneOp::Not => Ok(()),
        OneOp::Neg => source.push_all_five(ops),
    }
}

/// An operation on one operand.
pub fn one(alloc: Global, op: OneOp, w: Width, dst: Operand) -> Result<Part, AllocError>
    ensures { IfOk result (λ p. p ∷ [] ≡ one_parts op w dst) }
{
    let mut ops = Vec::new(alloc);
    let source = Source {
        family: one_family(op),
        w,
        a: 1,
        b: None,
    };
    push_read(&mut ops, w, dst, 1)?;
    push_line(&mut ops, source.calc(3))?;
    push_one_flags(&mut ops, op, w)?;
    given(ops, w, dst, 3)
}

// The count of a shift as 8 bits in temporary 2.
fn count_line(count: Option<u8>) -> Op
    ensures { result ≡ count_line count }
{
    match count {
        None => Op::Get {
            w: ir_syntax::Width::W8,
            t: 2,
            r: 1,
        },
        Some(n) => Op::Const {
            w: ir_syntax::Width::W8,
            t: 2,
            n: u64::from(n),
        },
    }
}

// The flags that a shift or a rotation puts.
fn push_shift_flags(ops: &mut Vec<Op>, op: ShiftOp, w: Width) -> Result<(), AllocError>
    ensures { IfOk result (λ _. ops.new.items ≡ ops.old.items ++ flag_lines (shift_flags op) (shift_family op) w 1 (Some 2)) }
{
    let source = Source {
        family: shift_family(op),
        w,
        a: 1,
        b: Some(2),
    };
    match op {
        ShiftOp::Shl | ShiftOp::Shr | ShiftOp::Sar => source.push_all_five(ops),
        ShiftOp::Rol | ShiftOp::Ror => source.push_overflow_and_carry(ops),
    }
}

// The same, but none by a number whose used part is 0.
fn push_counted(
    ops: &mut Vec<Op>,
    op: ShiftOp,
    w: Width,
    count: Option<u8>,
) -> Result<(), AllocError>
    ensures { IfOk result (λ _. ops.new.items ≡ ops.old.items ++ counted_lines op w count) }
{
    match count {
        None => push_shift_flags(ops, op, w),
        Some(n) => {
            if is_still(w, n) {
                Ok(())
            } else {
                push_shift_flags(ops, op, w)
            }
        }
    }
}

/// A shift or a rotation by a number or by cl.
pub fn shift(
    alloc: Global,
    op: ShiftOp,
    w: Width,
    dst: Operand,
    count: Option<u8>,
) -> Result<Part, AllocError>
    ensures { IfOk result (λ p. p ∷ [] ≡ shift_parts op w dst count) }
{
    let mut ops = Vec::new(alloc);
    let source = Source {
        family: shift_family(op),
        w,
        a: 1,
        b: Some(2),
    };
    push_read(&mut ops, w, dst, 1)?;
    push_line(&mut ops, count_line(count))?;
    push_line(&mut ops, source.calc(3))?;
    push_counted(&mut ops, op, w, count)?;
    given(ops, w, dst, 3)
}

// What a product of temporaries 2 and 1 computes on.
fn factors(family: Family, w: Width) -> Source
    ensures { result ≡ record { family = family; w = w; a = 2; b = Some 1 } }
{
    Source {
        family,
        w,
        a: 2,
        b: Some(1),
    }
}

// The flags after a product.
fn push_product_flags(ops: &mut Vec<Op>, signed: bool, w: Width) -> Result<(), AllocError>
    ensures { IfOk result (λ _. ops.new.items ≡ ops.old.items ++ product_lines signed w) }
{
    push_cleared(ops)?;
    factors(product_family(signed), w).push_overflow_and_carry(ops)
}

// Both halves of the product of temporary 1 and rax, in temporaries 3 and 4.
fn push_halves(ops: &mut Vec<Op>, signed: bool, w: Width) -> Result<(), AllocError>
    ensures { IfOk result (λ _. ops.new.items ≡ ops.old.items ++ (Op.Get (ir_width w) 2 0 ∷ Op.Calc Family.Mul (ir_width w) 3 2 (Some 1) ∷ Op.Calc (high_family signed) (ir_width w) 4 2 (Some 1) ∷ [])) }
{
    push_read(ops, w, Operand::Reg(0), 2)?;
    push_line(ops, factors(Family::Mul, w).calc(3))?;
    push_line(ops, factors(high_family(signed), w).calc(4))
}

// Temporary 3 goes to rax, and 4 to rdx.
fn push_wide(ops: &mut Vec<Op>, w: Width) -> Result<(), AllocError>
    ensures { IfOk result (λ _. ops.new.items ≡ ops.old.items ++ (Op.Put (ir_width w) 0 3 ∷ Op.Put (ir_width w) 2 4 ∷ [])) }
{
    push_put(ops, w, Operand::Reg(0), 3)?;
    push_put(ops, w, Operand::Reg(2), 4)
}

// The lines of a product of rax.
fn push_mul(ops: &mut Vec<Op>, signed: bool, w: Width) -> Result<(), AllocError>
    ensures { IfOk result (λ _. ops.new.items ≡ ops.old.items ++ mul_ops signed w) }
{
    push_halves(ops, signed, w)?;
    push_product_flags(ops, signed, w)?;
    push_wide(ops, w)
}

/// A product of rax, whose high half goes to rdx.
pub fn mul(alloc: Global, signed: bool, w: Width, src: Operand) -> Result<Part, AllocError>
    ensures { IfOk result (λ p. p ∷ [] ≡ alone (reads w src 1 ++ mul_ops signed w) PartEnd.Tick) }
{
    let mut ops = Vec::new(alloc);
    push_read(&mut ops, w, src, 1)?;
    push_mul(&mut ops, signed, w)?;
    Ok(ended(ops, PartEnd::Tick))
}

/// The low half of a signed product of two operands.
pub fn imul(alloc: Global, w: Width, dst: u8, a: Operand, b: Operand) -> Result<Part, AllocError>
    ensures { IfOk result (λ p. p ∷ [] ≡ given_at (both_read w a b ++ (Op.Calc Family.Mul (ir_width w) 3 2 (Some 1) ∷ product_lines true w)) w (Operand.Reg dst) 3) }
{
    let mut ops = Vec::new(alloc);
    push_both(&mut ops, w, a, b)?;
    push_line(&mut ops, factors(Family::Mul, w).calc(3))?;
    push_product_flags(&mut ops, true, w)?;
    given(ops, w, Operand::Reg(dst), 3)
}

/// A quotient of rdx and rax.
pub fn div(alloc: Global, signed: bool, w: Width, src: Operand) -> Result<Part, AllocError>
    ensures { IfOk result (λ p. p ∷ [] ≡ alone (reads w src 1 ++ zero_lines all_five) (PartEnd.Divide signed (ir_width w) 1)) }
{
    let mut ops = Vec::new(alloc);
    push_read(&mut ops, w, src, 1)?;
    push_zero_flags(&mut ops)?;
    Ok(ended(
        ops,
        PartEnd::Divide {
            signed,
            w: ir_width(w),
            t: 1,
        },
    ))
}
