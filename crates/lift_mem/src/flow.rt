ghost use Rattle.std.specs.Prelude.{◌≡◌, ◌++◌, ◌∷◌, [], IfOk};
ghost use Rattle.x86_forms.specs.Groups.{group_of};
ghost use Rattle.lift_table.specs.LiftLines.{alone};
ghost use Rattle.lift_table.specs.LiftTable.{lifted, called};

use crate::parts::{after_load, end_alone};
use crate::stack::{popped, push_pushed, push_stack_at};
use ir_syntax::{Op, Part, PartEnd, Target};
use lift_alu::lines::{ended, push_read};
use lift_alu::words::{ir_cond, target};
use std::alloc::{AllocError, Global};
use x86_forms::{Group, Instr, Operand, Width};

// JMP to the address in an operand.
fn jump_to(alloc: Global, next: u64, src: Operand) -> Result<Vec<Part>, AllocError>
    ensures { IfOk result (λ parts. parts.items ≡ lifted (Instr.JmpTo src) next) }
{
    let mut ops = Vec::new(alloc);
    push_read(&mut ops, Width::W64, src, 1)?;
    let go = PartEnd::Go {
        to: Target::Temp(1),
    };
    after_load(alloc, next, Width::W64, src, 1, ended(ops, go))
}

// These lines, and then the address of the next instruction is pushed and the thread goes elsewhere.
fn called(ops: Vec<Op>, next: u64, to: Target) -> Result<Part, AllocError>
    ensures { IfOk result (λ p. p ∷ [] ≡ called ops.items next to) }
{
    let mut all = ops;
    push_pushed(&mut all)?;
    push_read(&mut all, Width::W64, Operand::Imm(next), 1)?;
    let store = PartEnd::StoreGo { a: 2, t: 1, to };
    Ok(ended(all, store))
}

// CALL of a place.
fn call(alloc: Global, next: u64, to: u64) -> Result<Vec<Part>, AllocError>
    ensures { IfOk result (λ parts. parts.items ≡ called [] next (Target.Place to)) }
{
    let part = called(Vec::new(alloc), next, Target::Place(to))?;
    let parts = vec![in alloc; part]?;
    Ok(parts)
}

// CALL of the address in an operand, which is read before rsp changes.
fn call_to(alloc: Global, next: u64, src: Operand) -> Result<Vec<Part>, AllocError>
    ensures { IfOk result (λ parts. parts.items ≡ lifted (Instr.CallTo src) next) }
{
    let mut ops = Vec::new(alloc);
    push_read(&mut ops, Width::W64, src, 3)?;
    let last = called(ops, next, Target::Temp(3))?;
    after_load(alloc, next, Width::W64, src, 3, last)
}

// RET, which takes `extra` more bytes from the stack.
fn ret(alloc: Global, next: u64, extra: u16) -> Result<Vec<Part>, AllocError>
    ensures { IfOk result (λ parts. parts.items ≡ lifted (Instr.Ret extra) next) }
{
    let mut ops = Vec::new(alloc);
    push_stack_at(&mut ops, 4, 8 + u64::from(extra))?;
    let go = PartEnd::Go {
        to: Target::Temp(1),
    };
    let first = popped(alloc, 4)?;
    let parts = vec![in alloc; first, ended(ops, go)]?;
    Ok(parts)
}

/// The parts of a jump, a call or a return before the instruction at `next`: the rows of the lifting
/// table. The group is `Instr::group`.
///
/// # Errors
///
/// Memory is wanted for the parts and their lines.
pub fn lift_flow(alloc: Global, instr: &Instr, next: u64) -> Result<Vec<Part>, AllocError>
    requires { group_of instr.now ≡ Group.Transfer }
    ensures { IfOk result (λ parts. parts.items ≡ lifted instr.now next) }
{
    match *instr {
        Instr::Jcc { cc, rel } => end_alone(
            alloc,
            PartEnd::Branch {
                c: ir_cond(cc),
                yes: target(next, rel),
                no: next,
            },
        ),
        Instr::Jmp { rel } => end_alone(
            alloc,
            PartEnd::Go {
                to: Target::Place(target(next, rel)),
            },
        ),
        Instr::JmpTo { src } => jump_to(alloc, next, src),
        Instr::Call { rel } => call(alloc, next, target(next, rel)),
        Instr::CallTo { src } => call_to(alloc, next, src),
        Instr::Ret { extra } => ret(alloc, next, extra),
        _ => unreachable!(),
    }
}
