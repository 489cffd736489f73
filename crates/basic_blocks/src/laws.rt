//! What the definitions come to: each law is the contract of a function that does nothing.

ghost use Rattle.basic_blocks.specs.Onward.{GoesOnAfterItsBytes};

/// The address after the last instruction of a block is as many bytes after the block's place as the block has, modulo
/// 2^64. So a block that ends without a transfer goes on there.
#[tactic(auto, using(crate::proofs::Onward::goes_on))]
pub fn goes_on_after_its_bytes()
    ensures { GoesOnAfterItsBytes }
{}
