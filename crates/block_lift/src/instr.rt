//! The parts of one instruction.

ghost use Rattle.std.specs.Prelude.{◌≡◌, IfOk};
ghost use Rattle.x86_forms.specs.Limits.{InstrFits};
ghost use Rattle.lift_table.specs.Follow.{Lifts};
ghost use Rattle.lift_table.specs.LiftTable.{lifted};

use crate::laws::every_instruction_lifts;
use ir_syntax::Part;
use lift_alu::lift_private;
use lift_mem::{lift_flow, lift_memory};
use std::alloc::{AllocError, Global};
use x86_forms::{Group, Instr};

/// The parts of an instruction by the lifting table, where `next` is the address after it. Where its registers, widths and
/// numbers are within their limits, as those of each instruction are that has a spelling, the parts follow a thread that
/// runs it (`Lifts`). Dead puts of a flag stay in.
///
/// # Errors
///
/// Memory is wanted for the parts or their lines.
pub fn lift_instr(alloc: Global, instr: &Instr, next: u64) -> Result<Vec<Part>, AllocError>
    ensures parts { IfOk result (λ parts. parts.items ≡ lifted instr.now next) }
    ensures follows { InstrFits instr.now → Lifts instr.now next }
{
    every_instruction_lifts();
    match instr.group() {
        Group::Private => lift_private(alloc, instr, next),
        Group::Memory => lift_memory(alloc, instr, next),
        Group::Transfer => lift_flow(alloc, instr, next),
    }
}
