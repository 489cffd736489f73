//! The places of the blocks with which a run begins.

ghost use Rattle.std.specs.Prelude.{◌≡◌, ◌≤◌, [], ◌∷◌, length, IfErr, IfOk, OnOk};
ghost use Rattle.std.specs.List.Sorted.{IsStrictlySortedBy};
ghost use Rattle.std.specs.Ordering.{nat_cmp};
ghost use Rattle.basic_blocks.specs.Reach.{IsReach};
ghost use Rattle.block_lift.specs.Accepted.{AreAccepted, places_of};
ghost use Rattle.ir_file.specs.Blocks.{AreBlocksIn};
ghost use Rattle.run_start.specs.Case.{ArePlacesIn, IsFirstOf};
ghost use Rattle.run_start.specs.First.{AreCodePlaces};
ghost use Rattle.run_start.specs.Refusal.{RefusesAccept, RefusesFirst, RefusesGiven, RefusesReach, RefusesText};

use crate::fault::StartFault;
use additive_lift::{ReachFault, reach};
use block_lift::{AcceptFault, accept};
use elf_image::Image;
use ir_file::{IrFault, read_blocks};
use ir_syntax::Block;
use mx_outside::Files;
use std::alloc::{AllocError, Global};
use words_line::Text;

/// The greatest number of blocks.
const BLOCK_LIMIT: usize = 65_536;

// What is reached from the entry.
fn reached(alloc: Global, image: &Image) -> Result<Vec<u64>, StartFault>
    ensures reach { IfOk result (λ first. IsReach image.now (image.now.entry ∷ []) first.items) }
    ensures few { IfOk result (λ first. length first.items ≤ 65536) }
    ensures refusal { IfErr result (RefusesReach image.now) }
{
    match reach(alloc, image, &[image.entry], &[]) {
        Ok(first) => Ok(first),
        Err(ReachFault::TooMany) => Err(StartFault::TooMany),
        Err(ReachFault::Memory(e)) => Err(StartFault::Memory(e)),
    }
}

// The blocks of the text of this name, not more than there may be.
fn read<F: Files>(alloc: Global, name: &str, files: &mut F) -> Result<Vec<Block>, StartFault>
    ensures blocks { IfOk result (λ blocks. AreBlocksIn (F.names files.old) name.now blocks.items) }
    ensures few { IfOk result (λ blocks. length blocks.items ≤ 65536) }
    ensures refusal { IfErr result (RefusesText (F.names files.old) name.now (F.read_faults files.old) (F.read_faults files.new)) }
    ensures counted { OnOk result (F.read_faults files.new ≡ F.read_faults files.old) }
    ensures names { F.names files.new ≡ F.names files.old }
    ensures writes { F.write_faults files.new ≡ F.write_faults files.old }
{
    let blocks = match read_blocks(alloc, name, files) {
        Ok(blocks) => blocks,
        Err(IrFault::ReadFault) => return Err(StartFault::ReadFault),
        Err(IrFault::Absent) => return Err(StartFault::Absent),
        Err(IrFault::TooLong) => return Err(StartFault::TooLong),
        Err(IrFault::Text(fault)) => return Err(StartFault::IrText(fault)),
        Err(IrFault::Memory(e)) => return Err(StartFault::Memory(e)),
    };
    if blocks.len() > BLOCK_LIMIT {
        return Err(StartFault::TooMany);
    }
    Ok(blocks)
}

// The blocks by rising address, where they are those of the image.
fn accepted(alloc: Global, image: &Image, blocks: Vec<Block>) -> Result<Vec<Block>, StartFault>
    ensures accepted { IfOk result (λ all. AreAccepted image.now blocks.items all.items) }
    ensures refusal { IfErr result (RefusesAccept image.now blocks.items) }
{
    match accept(alloc, image, blocks) {
        Ok(all) => Ok(all),
        Err(
            AcceptFault::Stale {
                address,
                file,
                lifted,
            },
        ) => Err(StartFault::Stale {
            address,
            file,
            lifted,
        }),
        Err(AcceptFault::Twice(a)) => Err(StartFault::Twice(a)),
        Err(AcceptFault::Memory(e)) => Err(StartFault::Memory(e)),
    }
}

// The addresses of blocks.
#[tactic(auto, using(crate::proofs::Accepted::next_place))]
fn addresses(alloc: Global, blocks: &[Block]) -> Result<Vec<u64>, AllocError>
    ensures { IfOk result (λ places. places.items ≡ places_of blocks.now) }
{
    let mut places = Vec::with_capacity(alloc, blocks.len())?;
    for b in blocks {
        places.push(b.at)?;
    }
    Ok(places)
}

// The places of the blocks of the text of this name.
#[tactic(auto, using(crate::proofs::Accepted::accepted_code, crate::proofs::Accepted::accepted_few))]
fn given<F: Files>(
    alloc: Global,
    name: &str,
    image: &Image,
    files: &mut F,
) -> Result<Vec<u64>, StartFault>
    ensures places { IfOk result (λ places. ArePlacesIn (F.names files.old) name.now image.now places.items) }
    ensures rising { IfOk result (λ places. IsStrictlySortedBy nat_cmp places.items) }
    ensures few { IfOk result (λ places. length places.items ≤ 65536) }
    ensures code { IfOk result (λ places. AreCodePlaces image.now places.items) }
    ensures refusal { IfErr result (RefusesGiven (F.names files.old) name.now image.now (F.read_faults files.old) (F.read_faults files.new)) }
    ensures counted { OnOk result (F.read_faults files.new ≡ F.read_faults files.old) }
    ensures names { F.names files.new ≡ F.names files.old }
    ensures writes { F.write_faults files.new ≡ F.write_faults files.old }
{
    let blocks = match read(alloc, name, files) {
        Ok(blocks) => blocks,
        Err(fault) => return Err(fault),
    };
    let all = match accepted(alloc, image, blocks) {
        Ok(all) => all,
        Err(fault) => return Err(fault),
    };
    match addresses(alloc, &all) {
        Ok(places) => Ok(places),
        Err(e) => Err(StartFault::Memory(e)),
    }
}

/// The places of the blocks with which a run of the image begins, by rising address: those of the text of blocks `ir`, where one
/// is named, else what is reached from the entry. They are code places, and at most 65,536.
///
/// # Errors
///
/// With a text, in this order: `ReadFault`, only where the count of the files' faults rose; `Absent` where no file has the name;
/// `TooLong` where it has more than 268,435,456 bytes; `IrText` where its bytes are no text of blocks, or the first op or end of
/// it that isn't well typed; `TooMany` where it has more than 65,536 blocks; `Stale` and `Twice` of the first block that is wrong.
/// Without one `TooMany` where more than 65,536 places are reached from the entry. `Memory` where memory is wanting, in place of
/// any other.
#[tactic(auto, using(crate::proofs::Lifting::reached_places, crate::proofs::Reading::first_given, crate::proofs::Reading::first_reached))]
pub fn first_places<F: Files>(
    alloc: Global,
    ir: &Option<Text>,
    image: &Image,
    files: &mut F,
) -> Result<Vec<u64>, StartFault>
    ensures first { IfOk result (λ places. IsFirstOf (F.names files.old) ir.now image.now places.items) }
    ensures rising { IfOk result (λ places. IsStrictlySortedBy nat_cmp places.items) }
    ensures few { IfOk result (λ places. length places.items ≤ 65536) }
    ensures code { IfOk result (λ places. AreCodePlaces image.now places.items) }
    ensures refusal { IfErr result (RefusesFirst (F.names files.old) ir.now image.now (F.read_faults files.old) (F.read_faults files.new)) }
    ensures counted { OnOk result (F.read_faults files.new ≡ F.read_faults files.old) }
    ensures names { F.names files.new ≡ F.names files.old }
    ensures writes { F.write_faults files.new ≡ F.write_faults files.old }
{
    match ir {
        Some(name) => match given(alloc, name.as_str(), image, files) {
            Ok(places) => Ok(places),
            Err(fault) => Err(fault),
        },
        None => match reached(alloc, image) {
            Ok(places) => Ok(places),
            Err(fault) => Err(fault),
        },
    }
}
