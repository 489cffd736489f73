//! The shared state of a run that begins.

ghost use Rattle.std.specs.Prelude.{◌≡◌, ◌≤◌, ◌^◌, [], length, IfOk, IsTrue};
ghost use Rattle.std.specs.List.Sorted.{IsStrictlySortedBy};
ghost use Rattle.std.specs.Ordering.{nat_cmp};
ghost use Rattle.basic_blocks.specs.Places.{is_code_place};
ghost use Rattle.guest_map.specs.Layout.{start_of};
ghost use Rattle.run_start.specs.First.{AreCodePlaces, AreLifted, IsLifted};

use crate::preparing::Prepared;
use block_lift::lift_block;
use elf_image::Image;
use hall_core::Hall;
use ir_syntax::Block;
use std::alloc::{AllocError, Global};
use std::sync::Arc;

// The block at a code place, with its place.
fn placed(alloc: Global, image: &Image, a: u64) -> Result<(u64, Arc<Block>), AllocError>
    requires { IsTrue (is_code_place image.now a) }
    ensures { IfOk result (λ p. IsLifted image.now a p) }
{
    let block = lift_block(alloc, image, a)?;
    let block = Arc::new(alloc, block)?;
    Ok((a, block))
}

// The blocks at these places, in their order.
fn lifted(
    alloc: Global,
    image: &Image,
    places: &[u64],
) -> Result<Vec<(u64, Arc<Block>)>, AllocError>
    requires { AreCodePlaces image.now places.now }
    ensures { IfOk result (λ blocks. AreLifted image.now places.now blocks.items) }
{
    let mut blocks = Vec::with_capacity(alloc, places.len())?;
    for a in places {
        let block = placed(alloc, image, *a)?;
        blocks.push(block)?;
    }
    Ok(blocks)
}

/// Lifts the blocks at the first places of the run, and makes the shared state before the first step of the
/// run: they are grown, nothing else is, the journal is empty, and memory is the first memory of the program.
///
/// # Errors
///
/// Memory is wanting.
pub fn open(alloc: Global, prepared: Prepared) -> Result<Hall<Block>, AllocError>
    requires limit { prepared.case.limit ≤ 2 ^ 27 }
    requires places { AreCodePlaces prepared.case.image prepared.case.first }
    requires rising { IsStrictlySortedBy nat_cmp prepared.case.first }
    requires few { length prepared.case.first ≤ 65536 }
    requires start { prepared.start ≡ start_of prepared.case.image prepared.case.args }
    ensures case { IfOk result (λ h. h.case ≡ prepared.case) }
    ensures journal { IfOk result (λ h. h.journal ≡ []) }
{
    let Prepared { case, start } = prepared;
    let blocks = lifted(alloc, case.image(), case.first())?;
    Hall::make(alloc, case, start, blocks)
}
