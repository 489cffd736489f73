//! Lines of assembly as bytes.

ghost use Rattle.std.specs.Prelude.{◌≡◌, ◌+◌, ◌<◌, ◌≤◌, length, pos, ◌-ℤ◌, FitsSigned, IfOk};
ghost use Rattle.std.specs.Int.{w32};
ghost use Rattle.x86_forms.specs.Spelling.{Spells};
ghost use Rattle.guest_asm.specs.Assembling.{CanBeWritten, usual};
ghost use Rattle.guest_gen.specs.declared.line.Line.TheVariants.{Jne};
ghost use Rattle.guest_gen.specs.Spelling.{SpellsLine, label_after, IsSpelled, CanStand, most, most_of};
ghost use Rattle.std.specs.List.{AllByRecursion};

use crate::line::Line;
use guest_asm::assemble;
use std::alloc::{AllocError, Global};
use x86_forms::{Cond, Instr};

/// How far a jump's two bytes reach back, in bytes from the jump itself.
const NEAR: u64 = 126;

// So many bytes from one address to another.
fn distance(from: u64, to: u64) -> i32
    requires from { from ≤ 0x7fffffff }
    requires to { to ≤ 0x7fffffff }
    ensures value { result ≡ pos to -ℤ pos from }
    ensures fits { FitsSigned w32 result }
{
    to as i32 - from as i32
}

// The usual spelling of an instruction that has one.
fn written(alloc: Global, instr: Instr) -> Result<Vec<u8>, AllocError>
    requires { CanBeWritten instr }
    ensures spells { IfOk result (λ s. Spells instr s.items) }
    ensures usual { IfOk result (λ s. s.items ≡ usual instr) }
{
    let Some(bytes) = assemble(alloc, &instr)? else {
        unreachable!()
    };
    Ok(bytes)
}

// JNE at an address to a label before it, in two bytes where they reach, else in six.
fn jump_back(alloc: Global, label: u64, at: u64) -> Result<Vec<u8>, AllocError>
    requires behind { label ≤ at }
    requires low { at + 6 ≤ 0x7fffffff }
    ensures spells { IfOk result (λ s. SpellsLine label (at + length s.items) Jne s.items) }
    ensures short { IfOk result (λ s. length s.items ≤ 6) }
{
    let cc = Cond::Ne;
    if at - label <= NEAR {
        let rel = distance(at + 2, label);
        let bytes = written(alloc, Instr::Jcc { cc, rel })?;
        Ok(bytes)
    } else {
        let rel = distance(at + 6, label);
        let bytes = written(alloc, Instr::Jcc { cc, rel })?;
        Ok(bytes)
    }
}

// The line at this address.
fn spelling(alloc: Global, label: u64, at: u64, line: Line) -> Result<Vec<u8>, AllocError>
    requires behind { label ≤ at }
    requires low { at + most line < 0x7fffffff }
    requires can { CanStand line }
    ensures spells { IfOk result (λ s. SpellsLine label (at + length s.items) line s.items) }
    ensures short { IfOk result (λ s. length s.items ≤ most line) }
{
    match line {
        Line::Label => Ok(Vec::new(alloc)),
        Line::Plain(instr) => written(alloc, instr),
        Line::Call(address) => written(
            alloc,
            Instr::Call {
                rel: distance(at + 5, address),
            },
        ),
        Line::Jne => jump_back(alloc, label, at),
    }
}

// Where the last label is behind a line at this address.
fn label_after(label: u64, at: u64, line: Line) -> u64
    ensures { result ≡ label_after label at line }
{
    match line {
        Line::Label => at,
        Line::Plain(_) | Line::Call(_) | Line::Jne => label,
    }
}

/// The bytes of the lines from the address on, one line after another. The only error is want of
/// memory.
pub(crate) fn assembled(alloc: Global, start: u64, lines: &[Line]) -> Result<Vec<u8>, AllocError>
    requires low { start + most_of lines.now < 0x7fffffff }
    requires can { AllByRecursion CanStand lines.now }
    ensures spelled { IfOk result (λ v. IsSpelled start lines.now v.items) }
    ensures short { IfOk result (λ v. length v.items ≤ most_of lines.now) }
{
    let mut bytes = Vec::new(alloc);
    let mut label = start;
    for line in lines {
        let at = start + bytes.len() as u64;
        let spelled = spelling(alloc, label, at, *line)?;
        bytes.extend_from_slice(&spelled)?;
        label = label_after(label, at, *line);
    }
    Ok(bytes)
}
