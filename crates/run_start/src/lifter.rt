//! What lifts blocks of an image, as runs ask for it.

use additive_lift::{ReachFault, reach};
use block_lift::lift_block;
use elf_image::Image;
use ir_syntax::Block;
use std::alloc::{AllocError, Global};
use thread_step::Lifter;

/// Lifts blocks, and says what is reached from a place, anew each time that it is asked.
#[derive(Clone, Copy)]
pub struct ImageLifter {
    alloc: Global,
}

impl ImageLifter {
    /// A lifter that takes its memory here.
    pub fn make(alloc: Global) -> ImageLifter {
        ImageLifter { alloc }
    }
}

impl Lifter for ImageLifter {
    fn lift(&self, image: &Image, a: u64) -> Result<Block, AllocError> {
        lift_block(self.alloc, image, a)
    }

    fn onward(&self, image: &Image, a: u64) -> Result<Option<Vec<u64>>, AllocError> {
        match reach(self.alloc, image, &[a], &[]) {
            Ok(places) => Ok(Some(places)),
            Err(ReachFault::TooMany) => Ok(None),
            Err(ReachFault::Memory(e)) => Err(e),
        }
    }
}
