//! A lifter that counts, and that has no memory now and then.

use crate::tests::blocks::RowLifter;
use elf_image::Image;
use ir_syntax::Block;
use std::alloc::{AllocError, Global};
use std::cell::Cell;
use thread_step::Lifter;

/// Lifts as `RowLifter` does, and counts its calls. Memory is wanting at the call of `lift` and at the call of `onward`
/// with these numbers, counted from 1; 0 is none.
#[derive(Drop)]
pub struct CountingLifter {
    inner: RowLifter,
    lifts: Cell<u64>,
    onwards: Cell<u64>,
    failing_lift: u64,
    failing_onward: u64,
}

// Counts a call, and says whether it is the failing one.
fn fails(calls: &Cell<u64>, failing: u64) -> bool {
    let n = calls.get().saturating_add(1);
    calls.set(n);
    n == failing
}

impl CountingLifter {
    pub fn make(alloc: Global, failing_lift: u64, failing_onward: u64) -> CountingLifter {
        CountingLifter {
            inner: RowLifter { alloc },
            lifts: Cell::new(0),
            onwards: Cell::new(0),
            failing_lift,
            failing_onward,
        }
    }

    pub fn lifts(&self) -> u64 {
        self.lifts.get()
    }
}

impl Lifter for CountingLifter {
    fn lift(&self, image: &Image, a: u64) -> Result<Block, AllocError> {
        if fails(&self.lifts, self.failing_lift) {
            return Err(AllocError);
        }
        self.inner.lift(image, a)
    }

    fn onward(&self, image: &Image, a: u64) -> Result<Option<Vec<u64>>, AllocError> {
        if fails(&self.onwards, self.failing_onward) {
            return Err(AllocError);
        }
        self.inner.onward(image, a)
    }
}
