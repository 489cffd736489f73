//! When a value is right at a place of the graph.

use ir_syntax::Block;

/// What a graph may hold at its places.
pub trait Fits: Drop {
    ghost use Rattle.std.specs.Prelude.{ℕ};
    ghost use Rattle.elf_image.specs.Layout.{ImageData};

    // The value is right at this place of the image.
    ghost fits: { ImageData → ℕ → Self → Type 0 };
}

/// A block fits a place where it is what lifting gives there: it is well typed and faithful to the instructions.
impl Fits for Block {
    ghost use Rattle.std.specs.Prelude.{◌≡◌};
    ghost use Rattle.ir_syntax.specs.Typed.{IsWellTyped};
    ghost use Rattle.lift_table.specs.Block.{IsFaithful, lifted_block};

    ghost fits = { λ image a b. (b ≡ lifted_block image a) × IsWellTyped b × IsFaithful image b };
}
