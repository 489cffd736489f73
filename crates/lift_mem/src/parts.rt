//! Lists of parts.
ghost use Rattle.std.specs.Prelude.{◌≡◌, ◌++◌, ◌∷◌, [], IfOk};
ghost use Rattle.lift_table.specs.LiftLines.{loads, alone};

use ir_syntax::{Part, PartEnd};
use lift_alu::lines::{ended, push_load, push_part};
use std::alloc::{AllocError, Global};
use x86_forms::{Operand, Width};

/// A part without lines.
pub fn end_alone(alloc: Global, end: PartEnd) -> Result<Vec<Part>, AllocError>
    ensures { IfOk result (λ parts. parts.items ≡ alone [] end) }
{
    let ops = Vec::new(alloc);
    let parts = vec![in alloc; ended(ops, end)]?;
    Ok(parts)
}

/// The part that loads an operand to temporary `t`, if it is in memory, and then a last one.
pub fn after_load(
    alloc: Global,
    next: u64,
    w: Width,
    operand: Operand,
    t: u8,
    last: Part,
) -> Result<Vec<Part>, AllocError>
    ensures { IfOk result (λ parts. parts.items ≡ loads next w operand t ++ last ∷ []) }
{
    let mut parts = Vec::new(alloc);
    push_load(&mut parts, alloc, next, w, operand, t)?;
    push_part(&mut parts, last)?;
    Ok(parts)
}

/// The same of two operands, to temporaries 1 and 2.
pub fn after_loads(
    alloc: Global,
    next: u64,
    w: Width,
    a: Operand,
    b: Operand,
    last: Part,
) -> Result<Vec<Part>, AllocError>
    ensures { IfOk result (λ parts. parts.items ≡ loads next w a 1 ++ (loads next w b 2 ++ last ∷ [])) }
{
    let mut parts = Vec::new(alloc);
    push_load(&mut parts, alloc, next, w, a, 1)?;
    push_load(&mut parts, alloc, next, w, b, 2)?;
    push_part(&mut parts, last)?;
    Ok(parts)
}
