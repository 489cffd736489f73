//! Lifted blocks.

ghost use Rattle.std.specs.Prelude.{◌≡◌, ◌++◌, ◌∷◌, [], IfOk, OnOk};
ghost use Rattle.hall_core.specs.Hall.{FitTheirPlaces, places_of};
ghost use Rattle.turn_rows.specs.Lifted.{IsLifted};

use additive_lift::{ReachFault, reach};
use basic_blocks::is_code_place;
use block_lift::lift_block;
use elf_image::Image;
use ir_syntax::Block;
use std::alloc::{AllocError, Global};
use std::sync::Arc;
use std::test::Fail;
use thread_step::Lifter;

/// Lifts blocks, and finds what is reached from a place.
#[derive(Clone, Copy)]
pub struct RowLifter {
    pub alloc: Global,
}

impl Lifter for RowLifter {
    fn lift(&self, image: &Image, a: u64) -> Result<Block, AllocError> {
        lift_block(self.alloc, image, a)
    }

    fn onward(&self, image: &Image, a: u64) -> Result<Option<Vec<u64>>, AllocError> {
        match reach(self.alloc, image, &[a], &[]) {
            Ok(places) => Ok(Some(places)),
            Err(ReachFault::TooMany) => Ok(None),
            Err(ReachFault::Memory(e)) => Err(e),
        }
    }
}

/// The block that is lifted at a place; a failure where no code may be.
pub fn lifted_at(alloc: Global, image: &Image, a: u64) -> Result<Block, Fail>
    ensures { IfOk result (λ b. IsLifted image.now a b) }
{
    if !is_code_place(image, a) {
        return Err("a code place".into());
    }
    Ok(lift_block(alloc, image, a)?)
}

// One block more.
fn put(
    blocks: &mut Vec<(u64, Arc<Block>)>,
    image: &Image,
    a: u64,
    b: Arc<Block>,
) -> Result<(), AllocError>
    requires { IsLifted image.now a b.value }
    ensures places { OnOk result (places_of blocks.new.items ≡ places_of blocks.old.items ++ a ∷ []) }
    ensures fits { OnOk result (FitTheirPlaces IsLifted image.now blocks.old.items → FitTheirPlaces IsLifted image.now blocks.new.items) }
{
    blocks.push((a, b))?;
    Ok(())
}

/// The blocks of these places; a failure where at one of them no code may be.
pub fn blocks_at(
    alloc: Global,
    image: &Image,
    places: &[u64],
) -> Result<Vec<(u64, Arc<Block>)>, Fail>
    ensures places { IfOk result (λ blocks. places_of blocks.items ≡ places.now) }
    ensures fits { IfOk result (λ blocks. FitTheirPlaces IsLifted image.now blocks.items) }
{
    let mut blocks = Vec::new(alloc);
    for a in places {
        let block = lifted_at(alloc, image, *a)?;
        let b = Arc::new(alloc, block)?;
        put(&mut blocks, image, *a, b)?;
    }
    Ok(blocks)
}
