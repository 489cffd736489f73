ghost use Rattle.std.specs.Prelude.{◌≡◌, ℕ, ◌∷◌, [], IfOk};
ghost use Rattle.x86_forms.specs.Groups.{group_of};
ghost use Rattle.x86_forms.specs.declared.instructions.Group.{Group};
ghost use Rattle.lift_table.specs.LiftTable.{lifted};

use crate::arithmetic::{alu, div, imul, mul, one, shift};
use crate::lines::ended;
use crate::moves::{cmov, exchange, lea, mov, set, sign_extended, spread, zero_extended};
use crate::words::{half, is_immediate};
use ir_syntax::{Part, PartEnd};
use std::alloc::{AllocError, Global};
use x86_forms::{Group, Instr, Operand, Width};

// The number of a product, where there is one, is the second factor.
fn factors(alloc: Global, w: Width, dst: u8, a: Operand, b: Operand) -> Result<Part, AllocError>
    requires { group_of (Instr.Imul w dst a b) ≡ Group.Private }
    ensures { (next : ℕ) → IfOk result (λ p. p ∷ [] ≡ lifted (Instr.Imul w dst a b) next) }
{
    if is_immediate(b) {
        imul(alloc, w, dst, a, b)
    } else {
        imul(alloc, w, dst, b, a)
    }
}

// The one part of a private instruction.
fn private_part(alloc: Global, instr: &Instr, next: u64) -> Result<Part, AllocError>
    requires { group_of instr.now ≡ Group.Private }
    ensures { IfOk result (λ p. p ∷ [] ≡ lifted instr.now next) }
{
    match *instr {
        Instr::Alu { op, w, dst, src } => alu(alloc, op, w, dst, src),
        Instr::Mov { w, dst, src } => mov(alloc, next, w, dst, src),
        Instr::Zx { from, w, dst, src } => zero_extended(alloc, from, w, src, dst),
        Instr::Sx { from, w, dst, src } => sign_extended(alloc, from, w, src, dst),
        Instr::Lea { w, dst, mem } => lea(alloc, next, w, dst, mem),
        Instr::One { op, w, dst } => one(alloc, op, w, dst),
        Instr::Mul { signed, w, src } => mul(alloc, signed, w, src),
        Instr::Imul { w, dst, a, b } => factors(alloc, w, dst, a, b),
        Instr::Div { signed, w, src } => div(alloc, signed, w, src),
        Instr::Shift { op, w, dst, count } => shift(alloc, op, w, dst, count),
        Instr::Widen { w } => sign_extended(alloc, half(w), w, Operand::Reg(0), 0),
        Instr::Spread { w } => spread(alloc, w),
        Instr::Xchg { w, a, b } => exchange(alloc, w, a, b),
        Instr::Set { cc, dst } => set(alloc, next, cc, dst),
        Instr::Cmov { cc, w, dst, src } => cmov(alloc, cc, w, dst, src),
        _ => Ok(ended(Vec::new(alloc), PartEnd::Tick)),
    }
}

/// The parts of an instruction that touches no memory and goes on at the next instruction, which is at
/// `next`: the rows of the lifting table. An instruction that the manual doesn't have, such as a product
/// of 8 bits, is lifted as the table says and means nothing. The group is `Instr::group`.
///
/// # Errors
///
/// Memory is wanted for the parts and their lines.
pub fn lift_private(alloc: Global, instr: &Instr, next: u64) -> Result<Vec<Part>, AllocError>
    requires { group_of instr.now ≡ Group.Private }
    ensures { IfOk result (λ parts. parts.items ≡ lifted instr.now next) }
{
    let part = private_part(alloc, instr, next)?;
    let parts = vec![in alloc; part]?;
    Ok(parts)
}
