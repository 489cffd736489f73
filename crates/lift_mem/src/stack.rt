//! PUSH, POP and LEAVE. Register 4 is rsp and 5 is rbp.
ghost use Rattle.std.specs.Prelude.{◌≡◌, ◌++◌, ◌∷◌, [], IfOk};
ghost use Rattle.ir_syntax.specs.declared.width.Width.TheVariants.{W64};
ghost use Rattle.lift_table.specs.LiftLines.{alone};
ghost use Rattle.lift_table.specs.LiftTable.{lifted, stack_at, pushed, popped};

use crate::parts::after_load;
use ir_syntax::{Op, Part, PartEnd};
use lift_alu::lines::{ended, push_line, push_put, push_read};
use std::alloc::{AllocError, Global};
use x86_forms::{Instr, Operand, Width};

/// Adds the lines after which temporary 2 and rsp are `n` bytes above register `r`, modulo 2^64.
pub fn push_stack_at(ops: &mut Vec<Op>, r: u8, n: u64) -> Result<(), AllocError>
    ensures { IfOk result (λ _. ops.new.items ≡ ops.old.items ++ stack_at r n) }
{
    let above = Op::Ea {
        t: 2,
        base: Some(r),
        index: None,
        scale: 1,
        n,
    };
    push_line(ops, above)?;
    push_put(ops, Width::W64, Operand::Reg(4), 2)
}

/// Adds the lines after which temporary 2 and rsp are 8 bytes below rsp, modulo 2^64.
pub fn push_pushed(ops: &mut Vec<Op>) -> Result<(), AllocError>
    ensures { IfOk result (λ _. ops.new.items ≡ ops.old.items ++ pushed) }
{
    push_stack_at(ops, 4, u64::MAX - 7)
}

/// The part that loads temporary 1 from where register `r` points.
pub fn popped(alloc: Global, r: u8) -> Result<Part, AllocError>
    ensures { IfOk result (λ p. p ≡ popped r) }
{
    let mut ops = Vec::new(alloc);
    push_read(&mut ops, Width::W64, Operand::Reg(r), 0)?;
    let load = PartEnd::Load {
        w: ir_syntax::Width::W64,
        t: 1,
        a: 0,
    };
    Ok(ended(ops, load))
}

/// PUSH: the operand is read before rsp changes.
pub fn push(alloc: Global, next: u64, src: Operand) -> Result<Vec<Part>, AllocError>
    ensures { IfOk result (λ parts. parts.items ≡ lifted (Instr.Push src) next) }
{
    let mut ops = Vec::new(alloc);
    push_read(&mut ops, Width::W64, src, 1)?;
    push_pushed(&mut ops)?;
    let store = PartEnd::Store {
        w: ir_syntax::Width::W64,
        a: 2,
        t: 1,
    };
    after_load(alloc, next, Width::W64, src, 1, ended(ops, store))
}

/// Register `dst` is loaded from where register `r` points, and rsp becomes the address behind that:
/// POP for rsp, and LEAVE for rbp. The load comes before rsp changes, and `dst` is written last.
pub fn pop_from(alloc: Global, r: u8, dst: u8) -> Result<Vec<Part>, AllocError>
    ensures { IfOk result (λ parts. parts.items ≡ popped r ∷ alone (stack_at r 8 ++ (Op.Put W64 dst 1 ∷ [])) PartEnd.Tick) }
{
    let mut ops = Vec::new(alloc);
    push_stack_at(&mut ops, r, 8)?;
    push_put(&mut ops, Width::W64, Operand::Reg(dst), 1)?;
    let first = popped(alloc, r)?;
    let parts = vec![in alloc; first, ended(ops, PartEnd::Tick)]?;
    Ok(parts)
}
