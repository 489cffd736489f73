//! What is reached from the target of a miss, kept while it grows.

ghost use Rattle.std.specs.Prelude.{◌≡◌, ◌∷◌, [], ◌↔◌, IfOk, IsTrue};
ghost use Rattle.std.specs.List.Sorted.{IsStrictlySortedBy};
ghost use Rattle.std.specs.Ordering.{nat_cmp};
ghost use Rattle.basic_blocks.specs.Reach.{is_among, IsReach};
ghost use Rattle.machine_model.specs.Gated.{IsWithinReach};

use crate::grown::Grown;
use additive_lift::reach_all;
use elf_image::Image;
use std::alloc::{AllocError, Global};
use std::marker::Model;

/// A place and what is reached from it.
#[derive(Drop)]
pub(crate) struct Reach {
    root: u64,
    places: Vec<u64>,
}

/// An image, seen as itself, with the reach that was asked for last of each slot's thread: a miss is followed by the growth of
/// many places of one reach, and other threads may come between.
#[derive(Drop)]
pub(crate) struct Reached<'c> {
    image: &'c Image,
    kept: Vec<Option<Reach>>,
}

impl<'c> Model for Reached<'c> {
    ghost use Rattle.std.specs.Prelude.{All};
    ghost use Rattle.elf_image.specs.Layout.{ImageData};
    ghost use Rattle.replay_view.specs.Gates.{KeepsReach};

    ghost Value = { ImageData };

    ghost view = { λ r. r.image.now };

    ghost invariant = { λ r. All (KeepsReach r.image.now) r.kept.items };
}

// Whether the place is there, among places that rise.
fn has(places: &[u64], a: u64) -> bool
    requires { IsStrictlySortedBy nat_cmp places.now }
    ensures { result ≡ is_among places.now a }
{
    match places.binary_search(&a) {
        Ok(_) => true,
        Err(_) => false,
    }
}

// Whether a place is among those that are reached from a root, and these may be grown.
#[tactic(auto)]
fn is_within(image: &Image, grown: &Grown, root: u64, places: &[u64], a: u64) -> bool
    requires { IsReach image.now (root ∷ []) places.now }
    ensures { IsTrue result ↔ IsWithinReach image.now grown.now root a }
{
    if !has(places, a) {
        return false;
    }
    grown.fits(places)
}

impl<'c> Reached<'c> {
    /// The image, with nothing kept.
    #[tactic(auto, using(crate::proofs::Keeping::one_more))]
    pub(crate) fn new(alloc: Global, image: &'c Image) -> Result<Reached<'c>, AllocError>
        ensures { IfOk result (λ r. r ≡ image.now) }
    {
        let mut kept = Vec::with_capacity(alloc, 64)?;
        for _ in 0..64u32 {
            kept.push(None)?;
        }
        Ok(Reached { image, kept })
    }

    // What is reached from a root, which is no longer kept.
    #[tactic(auto, using(crate::proofs::Keeping::taken, crate::proofs::Keeping::kept_at))]
    fn take(&mut self, alloc: Global, slot: u32, root: u64) -> Result<Vec<u64>, AllocError>
        ensures reach { IfOk result (λ places. IsReach self.old (root ∷ []) places.items) }
        ensures same { self.new ≡ self.old }
    {
        if (slot as usize) < self.kept.len() {
            if let Some(kept) = self.kept[slot as usize].take() {
                if kept.root == root {
                    return Ok(kept.places);
                }
            }
        }
        reach_all(alloc, self.image, root)
    }

    #[tactic(auto, using(crate::proofs::Keeping::put))]
    fn keep(&mut self, slot: u32, root: u64, places: Vec<u64>)
        requires { IsReach self.old (root ∷ []) places.items }
        ensures { self.new ≡ self.old }
    {
        if (slot as usize) < self.kept.len() {
            self.kept[slot as usize] = Some(Reach { root, places });
        }
    }

    /// Whether a place is in the reach of another, and that reach may be grown. It is kept for the thread in slot `slot`.
    pub(crate) fn is_within(
        &mut self,
        alloc: Global,
        grown: &Grown,
        slot: u32,
        root: u64,
        a: u64,
    ) -> Result<bool, AllocError>
        ensures is { IfOk result (λ b. IsTrue b ↔ IsWithinReach self.old grown.now root a) }
        ensures same { self.new ≡ self.old }
    {
        let places = self.take(alloc, slot, root)?;
        let is = is_within(self.image, grown, root, &places, a);
        self.keep(slot, root, places);
        Ok(is)
    }
}
