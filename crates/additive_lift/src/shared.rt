//! What is found in an image, shared by threads.

ghost use Rattle.std.specs.Prelude.{◌≡◌, ◌≤◌, [], ◌∷◌, length, IfOk, IfSome, IfNone};
ghost use Rattle.basic_blocks.specs.Reach.{IsReach, IsReachAbove};
ghost use Rattle.additive_lift.specs.Kept.{AreKept};

use crate::kept::Found;
use crate::lent::{Kept, Lent};
use crate::search::{ReachFault, reach};
use elf_image::Image;
use std::alloc::{AllocError, Global};
use std::marker::Model;

/// An image, seen as itself, with the direct successors of each block that were found so far, which threads share. So a
/// place whose reach is asked for again, or is part of another one's reach, isn't decoded again.
///
/// One thread at a time has what was found; another that asks meanwhile decodes anew, and none waits.
#[derive(Drop)]
pub struct Reaches<'a> {
    image: &'a Image,
    lent: Lent,
}

impl<'a> Model for Reaches<'a> {
    ghost use Rattle.std.specs.Prelude.{◌≡◌};
    ghost use Rattle.elf_image.specs.Layout.{ImageData};

    ghost Value = { ImageData };

    ghost view = { λ r. r.image.now };

    ghost invariant = { λ r. r.lent.table.shared.key.value ≡ r.image.now };
}

// The reach by what was found, and what was found then.
fn by_found(
    image: &Image,
    alloc: Global,
    root: u64,
    kept: Kept,
) -> (Result<Option<Vec<u64>>, AllocError>, Kept)
    requires { AreKept image.now kept }
    ensures kept { AreKept image.now result.1 }
    ensures reach { IfOk result.0 (λ r. IfSome r (λ places. IsReach image.now (root ∷ []) places.items)) }
    ensures within { IfOk result.0 (λ r. IfSome r (λ places. length places.items ≤ 65536)) }
    ensures too_many { IfOk result.0 (λ r. IfNone r (IsReachAbove image.now (root ∷ []) 65536)) }
{
    let mut found = Found::of(image, kept);
    let places = found.onward(alloc, root);
    (places, found.into_kept())
}

// The reach without what was found.
fn anew(image: &Image, alloc: Global, root: u64) -> Result<Option<Vec<u64>>, AllocError>
    ensures reach { IfOk result (λ r. IfSome r (λ places. IsReach image.now (root ∷ []) places.items)) }
    ensures within { IfOk result (λ r. IfSome r (λ places. length places.items ≤ 65536)) }
    ensures too_many { IfOk result (λ r. IfNone r (IsReachAbove image.now (root ∷ []) 65536)) }
{
    match reach(alloc, image, &[root], &[]) {
        Ok(places) => Ok(Some(places)),
        Err(ReachFault::TooMany) => Ok(None),
        Err(ReachFault::Memory(e)) => Err(e),
    }
}

impl<'a> Reaches<'a> {
    /// The image, with nothing found yet.
    ///
    /// # Errors
    ///
    /// Memory is wanted for what is shared.
    pub fn new(alloc: Global, image: &'a Image) -> Result<Reaches<'a>, AllocError>
        ensures { IfOk result (λ r. r ≡ image.now) }
    {
        let lent = Lent::new(alloc, image)?;
        Ok(Reaches { image, lent })
    }

    /// The places of the least set that has the root, where that is a code place, and all direct successors of its
    /// members, by rising address; none where they are more than 65,536. No block is decoded that was decoded before, as
    /// far as memory was there to keep where it goes on and no other thread has what was found.
    ///
    /// # Errors
    ///
    /// Memory is wanted for the places.
    pub fn onward(&self, alloc: Global, root: u64) -> Result<Option<Vec<u64>>, AllocError>
        ensures reach { IfOk result (λ r. IfSome r (λ places. IsReach self.now (root ∷ []) places.items)) }
        ensures within { IfOk result (λ r. IfSome r (λ places. length places.items ≤ 65536)) }
        ensures too_many { IfOk result (λ r. IfNone r (IsReachAbove self.now (root ∷ []) 65536)) }
    {
        let Some((kept, loan)) = self.lent.take() else {
            return anew(self.image, alloc, root);
        };
        let (places, kept) = by_found(self.image, alloc, root, kept);
        self.lent.give(kept, loan);
        places
    }
}
