//! How a guest begins.

ghost use Rattle.std.specs.Prelude.{◌≡◌, ◌++◌, length, map, string_bytes, IfOk, IfErr, OnOk};
ghost use Rattle.guest_map.specs.Addresses.{stack};
ghost use Rattle.guest_map.specs.Entry.{strings, string_base, entry_rsp, entry_stack};
ghost use Rattle.guest_map.specs.Layout.{AreShort, FaultsAt, IsAccepted, first_clash, piece_of, pieces, start_of};

use crate::address::{meets_reserved, push_unborn};
use crate::entry::{entry_rsp, first_stack, size_of_strings, string_base};
use crate::fault::LayFault;
use elf_image::{Image, Segment};
use std::alloc::{AllocError, Global};
use tso_memory::{Piece, Tso};

/// How a guest begins.
#[derive(Drop)]
pub struct Start {
    /// The first memory; no store waits in a buffer.
    pub memory: Tso,
    /// The stack pointer of thread 0.
    pub rsp: u64,
}

/// The first segment that has a reserved address.
fn first_clash(image: &Image) -> Option<usize>
    ensures { result ≡ first_clash image.now }
{
    image.segments.iter().position(|s| meets_reserved(s))
}

/// The piece that a segment is, with bytes of its own.
fn piece_of(alloc: Global, segment: &Segment) -> Result<Piece, AllocError>
    ensures { IfOk result (λ p. p ≡ piece_of segment.now) }
{
    Ok(Piece {
        at: segment.at,
        r: segment.r,
        w: segment.w,
        bytes: Vec::from_slice(alloc, &segment.bytes)?,
    })
}

/// The pieces that the segments of an image are.
fn pieces_of(alloc: Global, image: &Image) -> Result<Vec<Piece>, AllocError>
    ensures { IfOk result (λ v. v.items ≡ map piece_of image.now.segments) }
{
    let mut pieces = Vec::new(alloc);
    for segment in &image.segments {
        pieces.push(piece_of(alloc, segment)?)?;
    }
    Ok(pieces)
}

/// All pieces of the first memory.
fn pieces(
    alloc: Global,
    image: &Image,
    args: &[String],
    size: usize,
    base: u64,
    rsp: u64,
) -> Result<Vec<Piece>, AllocError>
    requires short { AreShort (map string_bytes args.now) }
    requires size { size ≡ length (strings (map string_bytes args.now)) }
    requires base { base ≡ string_base (map string_bytes args.now) }
    requires rsp { rsp ≡ entry_rsp (map string_bytes args.now) }
    ensures { IfOk result (λ v. v.items ≡ pieces image.now (map string_bytes args.now)) }
{
    let mut pieces = pieces_of(alloc, image)?;
    pieces.push(first_stack(alloc, args, size, base, rsp)?)?;
    push_unborn(alloc, &mut pieces)?;
    Ok(pieces)
}

/// The first memory and stack pointer of a guest (System V x86-64 psABI, section 3.4.1): the image's segments, and for
/// each of 64 threads a stack of 65,536 bytes to read and to write. On the stack of thread 0 stand, from the stack
/// pointer upwards, argc, the arguments' addresses and a null, the null of an empty environment and an auxiliary vector
/// of one pair of zeros, eight bytes each; above them the arguments' strings in their order, each with a zero byte. The
/// stack pointer and the first string are at multiples of 16. All other bytes of the stacks are 0.
///
/// `Clash(i)` comes exactly where the image's segment i is the first that has an address from 0x700000000000 up to,
/// but without, 0x700001000000. `ArgsTooLong` comes exactly where none has one and the arguments have more than 4,096
/// bytes, each with its zero byte. Memory is asked for only where neither is so.
pub fn lay_out(alloc: Global, image: &Image, args: &[String]) -> Result<Start, LayFault>
    // The whole memory and the stack pointer are those of the definition.
    ensures start { IfOk result (λ s. s ≡ start_of image.now (map string_bytes args.now)) }
    // No fault is passed over.
    ensures accepted { OnOk result (IsAccepted image.now (map string_bytes args.now)) }
    // A fault has its cause, and a clash comes first.
    ensures fault { IfErr result (FaultsAt image.now (map string_bytes args.now)) }
{
    if let Some(i) = first_clash(image) {
        return Err(LayFault::Clash(i));
    }
    let Some(size) = size_of_strings(args) else {
        return Err(LayFault::ArgsTooLong);
    };
    let base = string_base(size);
    let rsp = entry_rsp(args, base);
    let pieces = pieces(alloc, image, args, size, base, rsp)?;
    image.facts();
    let memory = Tso::make(alloc, pieces)?;
    Ok(Start { memory, rsp })
}
