//! On which line of a text a block's line stands.

ghost use Rattle.std.specs.Prelude.{◌≡◌, ◌+◌, ◌<◌, ◌^◌, take, All, None, IfSome};
ghost use Rattle.ir_syntax.specs.Typed.{IsFault, IsWellTyped};
ghost use Rattle.ir_file.specs.Lines.{lines_of_block, lines_of_blocks, lines_of_parts};
ghost use Rattle.ir_file.specs.Untyped.{IsUntyped};

use ir_syntax::{Block, Part, TypeFault, check_types};

// How many lines these parts have.
fn lines_of(parts: &[Part]) -> u64
    requires { lines_of_parts parts.now < 2 ^ 64 }
    ensures { result ≡ lines_of_parts parts.now }
{
    let mut lines = 0;
    for part in parts {
        lines += part.ops.as_slice().len() as u64 + 1;
    }
    lines
}

// How many lines of a block stand before its first wrong one.
fn lines_before(block: &Block, fault: TypeFault) -> u64
    requires few { lines_of_block block.now < 2 ^ 64 }
    requires wrong { IsFault block.now.parts fault }
    ensures { result ≡ (lines_of_parts (take fault.part block.now.parts) + fault.op) + 1 }
{
    lines_of(&block.parts.as_slice()[..fault.part]) + fault.op as u64 + 1
}

/// The line of the first op, or end of a part, that isn't well typed in the text of these blocks, counted from 1; `None` where
/// all of the blocks are well typed.
pub fn first_untyped(blocks: &[Block]) -> Option<u64>
    requires { lines_of_blocks blocks.now + 2 < 2 ^ 64 }
    ensures typed { result ≡ None → All IsWellTyped blocks.now }
    ensures untyped { IfSome result (λ line. IsUntyped blocks.now line) }
{
    let mut line = 2;
    for block in blocks {
        match check_types(block) {
            Ok(()) => line += lines_of(block.parts.as_slice()) + 2,
            Err(fault) => return Some(line + lines_before(block, fault)),
        }
    }
    None
}
