//! What lifts blocks for a thread that misses them.

ghost use Rattle.std.specs.Prelude.{◌≡◌, IfOk, IsTrue};

use elf_image::Image;
use ir_syntax::Block;
use std::alloc::AllocError;

/// What lifts blocks, and says what is reached from a place.
pub trait Lifter {
    ghost use Rattle.std.specs.Prelude.{◌≡◌, ◌<◌, IfOk, IsTrue, MatchOption, [], ◌∷◌};
    ghost use Rattle.basic_blocks.specs.Places.{is_code_place};
    ghost use Rattle.basic_blocks.specs.Reach.{IsReach, IsReachAbove};
    ghost use Rattle.ir_syntax.specs.Typed.{IsWellTyped};
    ghost use Rattle.lift_table.specs.Block.{IsFaithful, lifted_block};

    /// The block at a code place.
    ///
    /// # Errors
    ///
    /// Memory is wanting.
    fn lift(&self, image: &Image, a: u64) -> Result<Block, AllocError>
        requires { IsTrue (is_code_place image.now a) }
        ensures lifted { IfOk result (λ b. b ≡ lifted_block image.now a) }
        ensures typed { IfOk result (λ b. IsWellTyped b) }
        ensures faithful { IfOk result (λ b. IsFaithful image.now b) };

    /// The places that are reached from a place, by rising address; `None` exactly where they are more than 65,536.
    ///
    /// # Errors
    ///
    /// Memory is wanting.
    fn onward(&self, image: &Image, a: u64) -> Result<Option<Vec<u64>>, AllocError>
        ensures { IfOk result (λ o. MatchOption o (IsReachAbove image.now (a ∷ []) 65536) (λ places. IsReach image.now (a ∷ []) places.items)) };
}
