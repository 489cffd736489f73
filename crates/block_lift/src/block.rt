//! A block as a whole.

ghost use Rattle.std.specs.Prelude.{◌≡◌, IfOk, OnOk, IsTrue, true, [], if◌then◌else◌};
ghost use Rattle.x86_forms.specs.Spelling.{are_bytes};
ghost use Rattle.ir_syntax.specs.Typed.{IsWellTyped, is_empty};
ghost use Rattle.ir_syntax.specs.declared.line.PartEnd.{PartEnd};
ghost use Rattle.lift_table.specs.LiftLines.{alone};
ghost use Rattle.basic_blocks.specs.Places.{is_code_place};
ghost use Rattle.basic_blocks.specs.Span.{block_at};
ghost use Rattle.lift_table.specs.Block.{lifted_block, IsFaithful};
ghost use Rattle.block_lift.specs.Liftable.{ArePlaced};
ghost use Rattle.block_lift.specs.Spelled.{IsOfItsBytes};
ghost use Rattle.block_lift.specs.Steps.{unstripped_block};

use crate::laws::every_instruction_lifts;
use crate::span::push_span;
use dead_flags::strip;
use elf_image::Image;
use ir_syntax::{Block, Part, PartEnd, Seq};
use std::alloc::{AllocError, Global};

// Where there is no part, the one part that says that no instruction stands there.
fn fill(parts: &mut Vec<Part>, alloc: Global) -> Result<(), AllocError>
    ensures { OnOk result (parts.new.items ≡ (if is_empty parts.old.items then alone [] PartEnd.BadCode else parts.old.items)) }
{
    if parts.is_empty() {
        let ops = Seq::from_vec(Vec::new(alloc));
        parts.push(Part {
            ops,
            end: PartEnd::BadCode,
        })?;
    }
    Ok(())
}

// What stands in a slice of bytes are bytes.
fn bytes_fit(code: &[u8])
    ensures { are_bytes code.now ≡ true }
{
    let _ = code.len();
}

// The block at `a` with the dead puts of a flag.
fn unstripped(alloc: Global, image: &Image, a: u64) -> Result<Block, AllocError>
    ensures block { IfOk result (λ b. b ≡ unstripped_block image.now a) }
    ensures placed { IfOk result (λ _. ArePlaced (block_at image.now a)) }
    ensures bytes { IfOk result (λ b. are_bytes b.code ≡ true) }
{
    let mut code = Vec::new(alloc);
    let mut parts = Vec::new(alloc);
    push_span(image, a, alloc, &mut code, &mut parts)?;
    fill(&mut parts, alloc)?;
    bytes_fit(&code);
    Ok(Block {
        at: a,
        code: Seq::from_vec(code),
        parts: Seq::from_vec(parts),
    })
}

/// The block at the code place `a`: the bytes of its instructions, which go one after another up to and
/// with the first jump, call or return, at most 64 and only as far as instructions stand at code places;
/// and their parts by the lifting table, without the dead puts of a flag. Where no instruction stands at
/// `a`, the block has no bytes and the one part `bad code`. Each instruction is decoded once. Whether `a` is
/// a code place says `is_code_place`.
///
/// # Errors
///
/// Memory is wanted for the bytes, the parts or their lines.
pub fn lift_block(alloc: Global, image: &Image, a: u64) -> Result<Block, AllocError>
    requires { IsTrue (is_code_place image.now a) }
    ensures lifted { IfOk result (λ b. b ≡ lifted_block image.now a) }
    ensures typed { IfOk result (λ b. IsWellTyped b) }
    ensures faithful { IfOk result (λ b. IsFaithful image.now b) }
    ensures of_bytes { IfOk result (λ b. IsOfItsBytes b) }
{
    every_instruction_lifts();
    let block = unstripped(alloc, image, a)?;
    Ok(strip(block))
}
