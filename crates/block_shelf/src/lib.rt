//! Blocks that threads read without the lock.
//!
//! A [`Shelf`] only grows, and a block stays where it was shown. A thread that knows the address and the code of the block
//! that it wants glances at the shelf: what it finds has both, and all else that is known of it is what the type of its
//! blocks keeps. What it doesn't find may still be there.
//!
//! The crate stands on `boxcar` for the blocks and on `crossbeam_utils` for the hints. The turns of workers stand on it.
#![tactic(auto)]

mod shelf;
#[cfg(test)]
mod tests;

pub use shelf::{Placed, Shelf};
