//! The assembler.

ghost use Rattle.std.specs.Prelude.{◌≡◌, true, IfOk, IfSome, IfNone};
ghost use Rattle.x86_forms.specs.Spelling.{bytes_of, Spells};
ghost use Rattle.guest_asm.specs.Choices.{pieces};
ghost use Rattle.guest_asm.specs.Encodable.{can};
ghost use Rattle.guest_asm.specs.Pieces.{parts_of};
ghost use Rattle.guest_asm.specs.Assembling.{HasNoSpelling, CanBeWritten, usual};

mod choices;
mod encodable;
mod operands;
mod pieces;
mod place;

use crate::assembler::choices::pieces;
use crate::assembler::encodable::{can, typed};
use std::alloc::{AllocError, Global};
use x86_forms::Instr;

// Whether the instruction is written without a REX byte, where it has a spelling: without one if it
// can be.
fn without_rex(instr: Instr) -> Option<bool>
    ensures taken { IfSome result (λ no_rex. can no_rex instr ≡ true) }
    ensures first { IfSome result (λ no_rex. no_rex ≡ can true instr) }
    ensures none { IfNone result (HasNoSpelling instr) }
    ensures refused { IfNone result (CanBeWritten instr → ⊥) }
{
    if can(true, instr) {
        Some(true)
    } else if can(false, instr) {
        Some(false)
    } else {
        None
    }
}

// The bytes of an instruction that has a spelling.
fn written(alloc: Global, no_rex: bool, instr: Instr) -> Result<Vec<u8>, AllocError>
    requires { can no_rex instr ≡ true }
    ensures spells { IfOk result (λ s. Spells instr s.items) }
    ensures usual { IfOk result (λ s. s.items ≡ bytes_of (parts_of (pieces no_rex instr))) }
{
    typed(instr);
    let bytes = pieces(no_rex, instr).bytes(alloc)?;
    Ok(bytes)
}

/// A byte string that spells the instruction, at most 15 bytes, or `None` where no string does: where
/// a register's number is 16 or more, an immediate does not fit, an operand is of a kind that the
/// instruction does not take, or AH to BH would stand beside what only a REX byte names (Intel SDM,
/// Volume 2, chapter 2 and the instruction's page). Of several spellings it takes one without a prefix
/// that could be left out, and with immediates, displacements and targets in one byte where they fit.
/// `AllocError` comes where there is no memory for the bytes.
pub fn assemble(alloc: Global, instr: &Instr) -> Result<Option<Vec<u8>>, AllocError>
    ensures spelled { IfOk result (λ o. IfSome o (λ s. Spells instr.now s.items)) }
    ensures none { IfOk result (λ o. IfNone o (HasNoSpelling instr.now)) }
    // It is the usual spelling, and an instruction that can be put together has one.
    ensures usual { IfOk result (λ o. IfSome o (λ s. s.items ≡ usual instr.now)) }
    ensures refused { IfOk result (λ o. IfNone o (CanBeWritten instr.now → ⊥)) }
{
    let instr = *instr;
    match without_rex(instr) {
        None => Ok(None),
        Some(no_rex) => {
            let bytes = written(alloc, no_rex, instr)?;
            Ok(Some(bytes))
        }
    }
}
