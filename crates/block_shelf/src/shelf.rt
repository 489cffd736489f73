//! The shelf.

ghost use Rattle.std.specs.Prelude.{◌≡◌, ◌<◌, ◌*◌, ◌^◌, ℕ, List, IfOk, IfSome, length};

use crossbeam_utils::atomic::AtomicCell;
use std::alloc::{AllocError, Global};
use std::sync::Wait;

/// What has an address and code.
pub trait Placed {
    ghost use Rattle.std.specs.Prelude.{ℕ, List};

    // Where it stands.
    ghost place: { Self → ℕ };

    // The bytes of its code.
    ghost bytes: { Self → List ℕ };

    /// The address of the first byte.
    fn at(&self) -> u64
        ensures { result ≡ place self.now };

    /// The bytes of its code.
    fn code(&self) -> &[u8]
        ensures { result.now ≡ bytes self.now };
}

// So many hints are kept, each of eight bytes: as many as a graph has places at most.
const HINTS: usize = 65_536;

/// Blocks that were shown, in the order in which they came, and hints at which number the block of an address may stand. A
/// hint is the number and one more, 0 where there is none; two addresses may share one, and the later block has it then.
#[derive(Drop)]
pub struct Shelf<B: Placed + Drop> {
    blocks: boxcar::Vec<B>,
    hints: Vec<AtomicCell<u64>>,
    ghost hinted: { length hints.items ≡ 65536 },
}

/// Which hint an address has: the highest 16 bits of its product with an odd number, which spreads near addresses.
const fn hint_of(a: u64) -> usize
    ensures { result < 65536 }
{
    (a.wrapping_mul(0x9e37_79b9_7f4a_7c15) >> 48) as usize
}

// No hints yet.
fn no_hints(alloc: Global) -> Result<Vec<AtomicCell<u64>>, AllocError>
    ensures { IfOk result (λ hints. length hints.items ≡ 65536) }
{
    let mut hints = Vec::with_capacity(alloc, HINTS)?;
    for _ in 0..HINTS {
        hints.push(AtomicCell::new(0))?;
    }
    Ok(hints)
}

impl<B: Placed + Drop> Shelf<B> {
    /// A shelf without blocks.
    ///
    /// # Errors
    ///
    /// Memory is wanting.
    pub fn make(alloc: Global) -> Result<Shelf<B>, AllocError> {
        Ok(Shelf {
            blocks: boxcar::Vec::new(alloc)?,
            hints: no_hints(alloc)?,
        })
    }

    /// Puts a block onto the shelf, for all threads.
    ///
    /// # Errors
    ///
    /// Memory is wanting; the shelf has the blocks that it had.
    pub fn show<R: Wait>(&self, rt: &R, block: B) -> Result<(), AllocError> {
        let hint = hint_of(block.at());
        match self.blocks.push(rt, block) {
            Ok(n) => {
                self.hints[hint].store((n as u64).wrapping_add(1));
                Ok(())
            }
            Err(_) => Err(AllocError),
        }
    }

    /// The block at the address `a` with this code, if the hint of `a` names it: one hint, and one comparison of address and
    /// code. `None` decides nothing.
    pub fn glance(&self, a: u64, code: &[u8]) -> Option<&B>
        ensures at { IfSome result (λ b. B.place b.now ≡ a) }
        ensures code { IfSome result (λ b. B.bytes b.now ≡ code.now) }
    {
        let hint = self.hints[hint_of(a)].load();
        let block = self.blocks.get(hint.checked_sub(1)? as usize)?;
        if block.at() != a {
            return None;
        }
        if block.code() != code {
            return None;
        }
        Some(block)
    }
}
