//! Files of blocks: the text that a run or a lift is given.
//!
//! `read_blocks` reads a file of the text of the register language, checks the grammar of the whole text, and then the types of
//! its blocks. Its contract cites `AreBlocksIn` and `RefusesBlocks` of `specs/Blocks.antt`; the line of the first op that isn't
//! well typed is that of `IsUntyped` of `specs/Untyped.antt`, a place in the text itself.
//!
//! What runs or extends a text that was lifted stands on this crate. That the blocks are those of an image is decided there.
#![tactic(auto)]

mod fault;
mod lines;
mod reading;

pub use fault::IrFault;
pub use reading::read_blocks;

#[cfg(test)]
mod tests;
