//! The stacks as pieces of memory, and the reserved addresses.

ghost use Rattle.std.specs.Prelude.{◌≡◌, ◌<◌, ◌≤◌, ◌++◌, IfOk, OnOk};
ghost use Rattle.guest_map.specs.Addresses.{stack, unborn_stack, unborn_stacks, zeros};
ghost use Rattle.guest_map.specs.Layout.{meets_reserved};

use address_space::{AFTER_RESERVED, FIRST_RESERVED, SLOTS, stack_bottom, stack_top};
use elf_image::Segment;
use std::alloc::{AllocError, Global};
use tso_memory::Piece;

/// Whether a segment has a reserved address.
pub(crate) fn meets_reserved(segment: &Segment) -> bool
    ensures { result ≡ meets_reserved segment.now }
{
    segment.at < AFTER_RESERVED && segment.at + segment.size > FIRST_RESERVED
}

/// The zero bytes from an address up to another.
fn zeros(alloc: Global, from: u64, to: u64) -> Result<Vec<u8>, AllocError>
    requires { from ≤ to }
    ensures { IfOk result (λ bytes. bytes.items ≡ zeros from to) }
{
    Ok(vec![in alloc; 0; (to - from) as usize]?)
}

/// The stack of slot `t` with these bytes.
pub(crate) fn stack(t: u32, bytes: Vec<u8>) -> Piece
    requires { t < 64 }
    ensures { result ≡ stack t bytes.items }
{
    Piece {
        at: stack_bottom(t),
        r: true,
        w: true,
        bytes,
    }
}

/// The stack of a slot before its first thread.
fn unborn_stack(alloc: Global, t: u32) -> Result<Piece, AllocError>
    requires { t < 64 }
    ensures { IfOk result (λ p. p ≡ unborn_stack t) }
{
    let bytes = zeros(alloc, stack_bottom(t), stack_top(t))?;
    Ok(stack(t, bytes))
}

/// Puts the stacks of all slots but the first to the pieces.
pub(crate) fn push_unborn(alloc: Global, pieces: &mut Vec<Piece>) -> Result<(), AllocError>
    ensures { OnOk result (pieces.new.items ≡ pieces.old.items ++ unborn_stacks 63) }
{
    for t in 1..SLOTS {
        pieces.push(unborn_stack(alloc, t)?)?;
    }
    Ok(())
}
