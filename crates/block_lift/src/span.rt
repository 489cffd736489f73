//! The instructions of a block, one after another.

ghost use Rattle.std.specs.Prelude.{◌≡◌, ◌≤◌, ◌<◌, ℕ, suc, ◌+◌, ◌%◌, ◌^◌, ◌++◌, IfOk, OnOk, Some, None, if◌then◌else◌, length, take};
ghost use Rattle.x86_forms.specs.Groups.{is_transfer};
ghost use Rattle.x86_model.specs.Want.{code_from};
ghost use Rattle.lift_table.specs.LiftTable.{lifted};
ghost use Rattle.basic_blocks.specs.Span.{block_up_to, block_at};
ghost use Rattle.lift_table.specs.Faithful.{lifted_all};
ghost use Rattle.basic_blocks.specs.Bytes.{bytes_of};
ghost use Rattle.block_lift.specs.Liftable.{ArePlaced};
ghost use Rattle.block_lift.specs.Steps.{going_on};

use crate::instr::lift_instr;
use basic_blocks::instr_at;
use elf_image::Image;
use ir_syntax::Part;
use std::alloc::{AllocError, Global};
use x86_forms::Instr;
use x86_model::code_from;

// The bytes and the parts of an instruction that stands at `at`, behind those before it.
fn push_lifted(
    image: &Image,
    at: u64,
    instr: &Instr,
    n: u8,
    alloc: Global,
    code: &mut Vec<u8>,
    parts: &mut Vec<Part>,
) -> Result<(), AllocError>
    requires { n ≤ length (code_from image.now.segments at) }
    ensures code { OnOk result (code.new.items ≡ code.old.items ++ take n (code_from image.now.segments at)) }
    ensures parts { OnOk result (parts.new.items ≡ parts.old.items ++ lifted instr.now ((at + n) % 2 ^ 64)) }
{
    code.extend_from_slice(&code_from(image, at)[..n as usize])?;
    let mut lines = lift_instr(alloc, instr, at.wrapping_add(n as u64))?;
    parts.append(&mut lines)?;
    Ok(())
}

// Where a block goes on after an instruction, if it does.
fn onward(instr: &Instr, next: u64) -> Option<u64>
    ensures { result ≡ (if is_transfer instr.now then None else Some next) }
{
    if instr.is_transfer() {
        None
    } else {
        Some(next)
    }
}

// The instruction at `at`, if one stands there, onto the bytes and parts of a block. The answer is where
// the block goes on, if it does.
fn push_instr(
    image: &Image,
    at: u64,
    alloc: Global,
    code: &mut Vec<u8>,
    parts: &mut Vec<Part>,
) -> Result<Option<u64>, AllocError>
    ensures code { IfOk result (λ on. (n : ℕ) → code.new.items ++ bytes_of image.now (going_on image.now n on) ≡ code.old.items ++ bytes_of image.now (block_up_to image.now (suc n) at)) }
    ensures parts { IfOk result (λ on. (n : ℕ) → parts.new.items ++ lifted_all (going_on image.now n on) ≡ parts.old.items ++ lifted_all (block_up_to image.now (suc n) at)) }
    ensures placed { IfOk result (λ on. (n : ℕ) → ArePlaced (going_on image.now n on) → ArePlaced (block_up_to image.now (suc n) at)) }
{
    let Some((instr, n)) = instr_at(image, at) else {
        return Ok(None);
    };
    push_lifted(image, at, &instr, n, alloc, code, parts)?;
    Ok(onward(&instr, at.wrapping_add(n as u64)))
}

/// The bytes and the parts of the instructions of the block at `a`, behind those before them: one after
/// another, up to and with the first jump, call or return, at most 64.
pub(crate) fn push_span(
    image: &Image,
    a: u64,
    alloc: Global,
    code: &mut Vec<u8>,
    parts: &mut Vec<Part>,
) -> Result<(), AllocError>
    ensures code { OnOk result (code.new.items ≡ code.old.items ++ bytes_of image.now (block_at image.now a)) }
    ensures parts { OnOk result (parts.new.items ≡ parts.old.items ++ lifted_all (block_at image.now a)) }
    ensures placed { OnOk result (ArePlaced (block_at image.now a)) }
{
    let mut at = a;
    for i in 0..64u8 {
        match push_instr(image, at, alloc, code, parts)? {
            Some(next) => at = next,
            None => return Ok(()),
        }
    }
    Ok(())
}
