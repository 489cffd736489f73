//! The instructions of a block, and where it may go on.

ghost use Rattle.std.specs.Prelude.{◌≡◌, ◌%◌, ◌^◌, ◌+◌, None, filter, map, IfOk, IfSome};
ghost use Rattle.std.specs.List.{last_or};
ghost use Rattle.basic_blocks.specs.Places.{is_code_place, instr_at};
ghost use Rattle.basic_blocks.specs.Span.{block_at, span, successors, targets, targets_after};

use crate::place::{instr_at, is_code_place};
use elf_image::Image;
use std::alloc::{AllocError, Global};
use std::marker::Model;
use x86_forms::Instr;
use x86_model::target;

/// An instruction where it stands, and the address after it.
#[derive(Drop)]
pub struct PlacedInstr {
    /// Its first byte's address.
    pub at: u64,
    pub instr: Instr,
    /// The address after its last byte, modulo 2^64.
    pub next: u64,
}

impl Model for PlacedInstr {
    ghost use Rattle.basic_blocks.specs.Placed.{Placed};

    ghost Value = { Placed };

    ghost view = { λ p. record { at = p.at; instr = p.instr; next = p.next } };
}

/// The instructions of the block at a code place, in order. Wants memory for 64 of them at most.
#[tactic(auto, using(crate::proofs::Blocks::block_begins, crate::proofs::Blocks::block_goes_on, crate::proofs::Blocks::block_ends, crate::proofs::Blocks::block_stops, crate::proofs::Blocks::block_full))]
pub fn block_at(alloc: Global, image: &Image, a: u64) -> Result<Vec<PlacedInstr>, AllocError>
    ensures { IfOk result (λ block. block.items ≡ block_at image.now a) }
{
    let mut block = Vec::new(alloc);
    let mut at = a;
    for _k in 0..64u32 {
        let Some((instr, len)) = instr_at(image, at) else {
            return Ok(block);
        };
        let next = at.wrapping_add(u64::from(len));
        block.push(PlacedInstr { at, instr, next })?;
        if instr.is_transfer() {
            return Ok(block);
        }
        at = next;
    }
    Ok(block)
}

// Where the instructions of a block stand.
#[tactic(auto, using(crate::proofs::Blocks::one_address, crate::proofs::Blocks::all_addresses))]
fn addresses(alloc: Global, block: &[PlacedInstr]) -> Result<Vec<u64>, AllocError>
    ensures { IfOk result (λ places. places.items ≡ map (λ p. p.at) block.now) }
{
    let mut places = Vec::new(alloc);
    for p in block {
        places.push(p.at)?;
    }
    Ok(places)
}

/// The addresses of the instructions of the block at a code place, in order.
pub fn span(alloc: Global, image: &Image, a: u64) -> Result<Vec<u64>, AllocError>
    ensures { IfOk result (λ places. places.items ≡ span image.now a) }
{
    let block = block_at(alloc, image, a)?;
    let places = addresses(alloc, &block)?;
    Ok(places)
}

/// Where an instruction may go on without a look at registers, where `next` is the address after it: at its target, at
/// the next address, or at both.
pub fn targets(alloc: Global, instr: &Instr, next: u64) -> Result<Vec<u64>, AllocError>
    ensures { IfOk result (λ places. places.items ≡ targets instr.now next) }
{
    match *instr {
        Instr::Jmp { rel } => Ok(vec![in alloc; target(next, rel)]?),
        Instr::Jcc { rel, .. } => Ok(vec![in alloc; target(next, rel), next]?),
        Instr::Call { rel } => Ok(vec![in alloc; target(next, rel), next]?),
        Instr::JmpTo { .. } | Instr::Ret { .. } => Ok(Vec::new(alloc)),
        _ => Ok(vec![in alloc; next]?),
    }
}

// Where the last instruction of a block may go on.
#[tactic(auto, using(crate::proofs::Blocks::last_at))]
fn targets_after(alloc: Global, block: &[PlacedInstr]) -> Result<Vec<u64>, AllocError>
    ensures { IfOk result (λ places. places.items ≡ targets_after (last_or None block.now)) }
{
    match block.last() {
        Some(last) => targets(alloc, &last.instr, last.next),
        None => Ok(Vec::new(alloc)),
    }
}

// Those of the places that are code places.
#[tactic(auto, using(crate::proofs::Blocks::kept_in, crate::proofs::Blocks::kept_out, crate::proofs::Blocks::kept_all))]
fn code_places(alloc: Global, image: &Image, places: &[u64]) -> Result<Vec<u64>, AllocError>
    ensures { IfOk result (λ kept. kept.items ≡ filter (is_code_place image.now) places.now) }
{
    let mut kept = Vec::new(alloc);
    for a in places {
        if is_code_place(image, *a) {
            kept.push(*a)?;
        }
    }
    Ok(kept)
}

/// The direct successors of the block at a code place: those code places at which its last instruction may go on.
pub fn successors(alloc: Global, image: &Image, a: u64) -> Result<Vec<u64>, AllocError>
    ensures { IfOk result (λ places. places.items ≡ successors image.now a) }
{
    let block = block_at(alloc, image, a)?;
    let places = targets_after(alloc, &block)?;
    code_places(alloc, image, &places)
}
