//! The places that are grown.

ghost use Rattle.std.specs.Prelude.{◌≡◌, [], ◌∷◌, ◌≤◌, length, reverse, nat_le, ◌+◌, IfOk, OnOk, OnErr};
ghost use Rattle.basic_blocks.specs.Reach.{is_among};
ghost use Rattle.machine_model.specs.Gated.{most_grown};
ghost use Rattle.replay_view.specs.Grown.{new_places};

use std::alloc::{AllocError, Global};
use std::collections::BTreeSet;
use std::marker::Model;

/// How many places may be grown.
pub(crate) const MOST_GROWN: u64 = 65536;

/// The grown places, which contracts see as a list with the latest first: in the order in which they grew, and as a set,
/// in which a place is found fast.
#[derive(Drop)]
pub(crate) struct Grown {
    places: Vec<u64>,
    set: BTreeSet<u64>,
}

impl Model for Grown {
    ghost use Rattle.std.specs.Prelude.{ℕ, List, reverse};
    ghost use Rattle.replay_view.specs.Grown.{HasPlaces};

    ghost Value = { List ℕ };

    ghost view = { λ g. reverse g.places.items };

    ghost invariant = { λ g. HasPlaces g.set (reverse g.places.items) };
}

impl Grown {
    // No place.
    fn none(alloc: Global) -> Grown
        ensures { result ≡ [] }
    {
        Grown {
            places: Vec::new(alloc),
            set: BTreeSet::new(alloc),
        }
    }

    /// These places, the latest first.
    #[tactic(auto, using(crate::proofs::Places::one_more, crate::proofs::Places::all_there))]
    pub(crate) fn make(alloc: Global, first: &[u64]) -> Result<Grown, AllocError>
        ensures { IfOk result (λ g. g ≡ first.now) }
    {
        let mut grown = Grown::none(alloc);
        for i in 0..first.len() {
            grown.grow(first[first.len() - 1 - i])?;
        }
        Ok(grown)
    }

    /// Whether the place is grown.
    pub(crate) fn has(&self, a: u64) -> bool
        ensures { result ≡ is_among self.now a }
    {
        self.set.contains(&a)
    }

    /// How many places there are.
    pub(crate) fn len(&self) -> u64
        ensures { result ≡ length self.now }
    {
        self.places.len() as u64
    }

    /// One more place. Without memory nothing changes.
    #[tactic(auto, using(crate::proofs::Places::place_kept, crate::proofs::Places::placed))]
    pub(crate) fn grow(&mut self, a: u64) -> Result<(), AllocError>
        ensures grown { OnOk result (self.new ≡ a ∷ self.old) }
        ensures err { OnErr result (self.new ≡ self.old) }
    {
        self.places.reserve(1)?;
        self.set.insert(a)?;
        let _pushed = self.places.push(a);
        Ok(())
    }

    // How many of the places aren't grown.
    #[tactic(auto, using(crate::proofs::Places::new_yes, crate::proofs::Places::new_no, crate::proofs::Places::new_all))]
    fn new_places(&self, places: &[u64]) -> u64
        ensures { result ≡ new_places self.now places.now }
    {
        let mut count = 0;
        for p in places {
            if !self.has(*p) {
                count += 1;
            }
        }
        count
    }

    /// Whether the grown places and these together aren't too many.
    #[tactic(auto, using(crate::proofs::Places::fit_together, crate::proofs::Places::too_many, crate::proofs::Places::fit_anyway))]
    pub(crate) fn fits(&self, places: &[u64]) -> bool
        ensures { result ≡ nat_le (length self.now + new_places self.now places.now) most_grown }
    {
        let before = self.len();
        if before > MOST_GROWN {
            return false;
        }
        let room = MOST_GROWN - before;
        places.len() as u64 <= room || self.new_places(places) <= room
    }
}
