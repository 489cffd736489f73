//! Texts of lifted blocks: each lifted block has one, and the text of a list of blocks can be written block by block.
//!
//! The laws are contracts of functions that do nothing (`specs/Laws.antt`). [`lifted_blocks_have_text`] says that what
//! `block_lift::lift_block` gives has a text, as `ir_text` spells blocks (`HasText` of its `specs/Text.antt`): the numbers of
//! registers and temporaries, the widths, the scales, the addresses and the bytes of its code are those that the text can say.
//! [`text_grows_by_blocks`] says that the text of one block more is what was written before it, and then the block's own.
//!
//! What writes lifted programs stands on it.
#![tactic(auto)]

ghost use Rattle.lifted_text.specs.Laws.{BlocksOfBytesHaveText, LiftedBlocksHaveText, TextGrowsByBlocks};

use x86_forms::spelled_fits;

/// A well typed block at an address of 64 bits has a text, if its parts are the table's for the instructions that its bytes
/// spell. `block_lift::lift_block` gives such blocks.
#[tactic(auto, using(crate::proofs::Texts::blocks_have))]
pub fn blocks_of_bytes_have_text()
    ensures { BlocksOfBytesHaveText }
{
    spelled_fits();
}

/// The lifted block at an address of 64 bits has a text.
pub fn lifted_blocks_have_text()
    ensures { LiftedBlocksHaveText }
{
    blocks_of_bytes_have_text();
}

/// The text of one block more is the text before it, and then the block's own; the text of no blocks is its first line.
#[tactic(auto, using(crate::proofs::Texts::grows))]
pub fn text_grows_by_blocks()
    ensures { TextGrowsByBlocks }
{}
