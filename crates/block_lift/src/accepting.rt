//! Blocks that somebody hands in.

ghost use Rattle.std.specs.Prelude.{◌≡◌, IfOk, IfErr, OnOk, map};
ghost use Rattle.std.specs.BTreeMap.{insert_entry, keys, values};
ghost use Rattle.std.specs.List.Sorted.{IsStrictlySortedBy};
ghost use Rattle.std.specs.Ordering.{nat_cmp};
ghost use Rattle.basic_blocks.specs.Reach.{is_among};
ghost use Rattle.block_lift.specs.Accepted.{AreAccepted, IsFaultOf, IsFresh, TellsStale};

use crate::block::lift_block;
use basic_blocks::is_code_place;
use elf_image::Image;
use ir_syntax::{Block, Seq};
use std::alloc::{AllocError, Global};
use std::collections::BTreeMap;

/// What is wrong with blocks that are handed in.
#[derive(Debug, Drop)]
pub enum AcceptFault {
    /// The block `file` isn't the one that lifting gives at its address.
    Stale {
        /// The address of both blocks.
        address: u64,
        /// The block that was handed in.
        file: Block,
        /// The block that lifting gives there; it has no bytes and no parts where the address is no code place.
        lifted: Block,
    },
    /// Two blocks have this address.
    Twice(u64),
    /// Memory is wanted for a lifted block or for the answer.
    Memory(AllocError),
}

impl From<AllocError> for AcceptFault {
    ghost use Rattle.std.specs.Prelude.{◌≡◌};
    ghost use Rattle.block_lift.specs.declared.accepting.AcceptFault.TheVariants.{Memory};

    ghost from_gives = { λ e f. f ≡ Memory e };

    fn from(e: AllocError) -> AcceptFault {
        AcceptFault::Memory(e)
    }
}

// The block, where it is the one that lifting gives at its address.
fn judge(alloc: Global, image: &Image, block: Block) -> Result<Block, AcceptFault>
    ensures same { IfOk result (λ b. b ≡ block) }
    ensures fresh { IfOk result (λ _. IsFresh image.now block) }
    ensures stale { IfErr result (TellsStale image.now block) }
{
    let address = block.at;
    if !is_code_place(image, address) {
        let lifted = Block {
            at: address,
            code: Seq::from_vec(Vec::new(alloc)),
            parts: Seq::from_vec(Vec::new(alloc)),
        };
        return Err(AcceptFault::Stale {
            address,
            file: block,
            lifted,
        });
    }
    let lifted = lift_block(alloc, image, address)?;
    if block.is_same(&lifted) {
        Ok(block)
    } else {
        Err(AcceptFault::Stale {
            address,
            file: block,
            lifted,
        })
    }
}

// Whether a block at this address is there.
fn has(kept: &BTreeMap<u64, Block>, at: u64) -> bool
    ensures { result ≡ is_among (keys kept.now) at }
{
    kept.contains_key(&at)
}

// A block more.
fn put(kept: &mut BTreeMap<u64, Block>, block: Block) -> Result<(), AllocError>
    ensures { OnOk result (kept.new.entries ≡ insert_entry nat_cmp kept.old.entries block.at block) }
{
    kept.insert(block.at, block)?;
    Ok(())
}

// The blocks by rising address.
fn in_order(alloc: Global, kept: BTreeMap<u64, Block>) -> Result<Vec<Block>, AllocError>
    ensures items { IfOk result (λ v. v.items ≡ values kept) }
    ensures rising { IfOk result (λ _. IsStrictlySortedBy nat_cmp (keys kept)) }
{
    let _count = kept.len();
    kept.into_values().collect(alloc)
}

/// The blocks by rising address, where each of them is the one that lifting gives at its address and no two have one
/// address. They are taken in any order.
///
/// # Errors
///
/// That of the first wrong block of the list: `Stale` where its address is no code place or where `lift_block` gives
/// another block there, which is tried first; `Twice` where an earlier block has its address. `Memory` where memory is wanted.
pub fn accept(alloc: Global, image: &Image, blocks: Vec<Block>) -> Result<Vec<Block>, AcceptFault>
    ensures accepted { IfOk result (λ v. AreAccepted image.now blocks.items v.items) }
    ensures refused { IfErr result (IsFaultOf image.now blocks.items) }
{
    let mut kept = BTreeMap::new(alloc);
    for block in blocks {
        let block = judge(alloc, image, block)?;
        if has(&kept, block.at) {
            return Err(AcceptFault::Twice(block.at));
        }
        put(&mut kept, block)?;
    }
    let accepted = in_order(alloc, kept)?;
    Ok(accepted)
}
