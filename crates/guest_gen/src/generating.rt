//! The image of the generated program.

ghost use Rattle.std.specs.Prelude.{◌≡◌, ◌+◌, ◌<◌, ◌≤◌, ◌++◌, length, IfOk, OnOk};
ghost use Rattle.byteorder.specs.Endian.{little_bytes};
ghost use Rattle.guest_gen.specs.Generated.{IsGenerated, steps};

use crate::assembling::assembled;
use crate::program::{STEPS, WORKER, main_lines, worker_lines};
use elf_image::Image;
use elf_writer::{Piece, row_image};
use std::alloc::{AllocError, Global};

/// Where the first function begins.
const MAIN: u64 = 0x40_1000;

// Appends the number's eight bytes, the lowest first.
fn put(bytes: &mut Vec<u8>, n: u64) -> Result<(), AllocError>
    ensures { OnOk result (bytes.new.items ≡ bytes.old.items ++ little_bytes 8 n) }
{
    bytes.extend_from_slice(&n.to_le_bytes())
}

// What the threads add, eight bytes each.
#[tactic(auto, using(crate::proofs::Steps::steps_more))]
fn steps(alloc: Global, number: u32, threads: u32) -> Result<Vec<u8>, AllocError>
    ensures { IfOk result (λ v. v.items ≡ steps number threads) }
{
    let mut bytes = Vec::new(alloc);
    for i in 0..u64::from(threads) {
        put(&mut bytes, (u64::from(number) + (1 + i)) % 251 + 1)?;
    }
    Ok(bytes)
}

/// The image of a program whose result is known: `threads` threads (1 to 63) add `rounds` times
/// (1 to 1,000,000) each its own number to two counters, and the counters are written, eight bytes
/// each, the lowest first. Thread i, from 1 on, adds (`number` + i) modulo 251, and 1; so each counter
/// is `rounds` times the sum of those. The status is 0 where both are the same, else 1.
///
/// It has two segments. The only error is want of memory.
pub fn generate(alloc: Global, number: u32, threads: u32, rounds: u32) -> Result<Image, AllocError>
    requires some_threads { 1 ≤ threads }
    requires threads { threads ≤ 63 }
    requires some_rounds { 1 ≤ rounds }
    requires rounds { rounds ≤ 1000000 }
    ensures generated { IfOk result (λ image. IsGenerated number threads rounds image) }
    // So it can be written to a file.
    ensures two { IfOk result (λ image. length image.segments ≡ 2) }
{
    let main = assembled(alloc, MAIN, &main_lines(threads))?;
    let worker = assembled(alloc, WORKER, &worker_lines(rounds))?;
    let steps = steps(alloc, number, threads)?;
    let image = row_image(
        alloc,
        &[
            Piece {
                at: MAIN,
                bytes: &main,
            },
            Piece {
                at: WORKER,
                bytes: &worker,
            },
            Piece {
                at: STEPS,
                bytes: &steps,
            },
        ],
    )?;
    Ok(image)
}
