//! What is reached from roots.

ghost use Rattle.std.specs.Prelude.{◌≡◌, ◌≤◌, ℕ, ◌++◌, [], ◌∷◌, length, filter, Err, IfOk, OnOk, ◌<◌, ◌^◌};
ghost use Rattle.std.specs.List.Sorted.{IsStrictlySortedBy};
ghost use Rattle.std.specs.Ordering.{nat_cmp};
ghost use Rattle.basic_blocks.specs.Places.{is_code_place};
ghost use Rattle.basic_blocks.specs.Reach.{IsReach, IsReachAbove};
ghost use Rattle.additive_lift.specs.Exits.{exits_of};
ghost use Rattle.additive_lift.specs.Search.{IsMet, Meets};

use crate::exits::{Exits, exits_at};
use basic_blocks::is_code_place;
use elf_image::Image;
use std::alloc::{AllocError, Global};
use std::collections::BTreeSet;

/// The greatest number of places that `reach` answers.
pub const PLACE_LIMIT: usize = 65536;

/// Why there is no reach.
#[derive(Debug, Drop)]
pub enum ReachFault {
    /// More than 65,536 places are reached.
    TooMany,
    /// Memory is wanted for the places.
    Memory(AllocError),
}

impl From<AllocError> for ReachFault {
    ghost use Rattle.std.specs.Prelude.{◌≡◌};
    ghost use Rattle.additive_lift.specs.declared.search.ReachFault.TheVariants.{Memory};

    ghost from_gives = { λ e f. f ≡ Memory e };

    fn from(e: AllocError) -> ReachFault {
        ReachFault::Memory(e)
    }
}

// The places that were met, and those of them whose direct successors are still to be met.
#[derive(Drop)]
pub(crate) struct Search {
    pub(crate) met: BTreeSet<u64>,
    pub(crate) todo: Vec<u64>,
}

impl Search {
    // A place, which is new or was met before.
    fn meet(&mut self, a: u64) -> Result<(), AllocError>
        ensures { OnOk result (Meets (a ∷ []) self.old.met.keys self.old.todo.items self.new.met.keys self.new.todo.items) }
    {
        if self.met.insert(a)? {
            self.todo.push(a)?;
        }
        Ok(())
    }

    // Those roots that are code places.
    fn meet_roots(&mut self, image: &Image, roots: &[u64]) -> Result<(), AllocError>
        ensures { OnOk result (Meets (filter (is_code_place image.now) roots.now) self.old.met.keys self.old.todo.items self.new.met.keys self.new.todo.items) }
    {
        for a in roots {
            if is_code_place(image, *a) {
                self.meet(*a)?;
            }
        }
        Ok(())
    }

    // Where a block may go on.
    pub(crate) fn meet_exits(&mut self, exits: Exits) -> Result<(), AllocError>
        ensures { OnOk result (Meets (exits_of exits) self.old.met.keys self.old.todo.items self.new.met.keys self.new.todo.items) }
    {
        if let Some(a) = exits.first {
            self.meet(a)?;
        }
        if let Some(a) = exits.second {
            self.meet(a)?;
        }
        Ok(())
    }

    // How many places were met.
    pub(crate) fn count(&self) -> usize
        ensures count { result ≡ length self.now.met.keys }
        ensures small { result < 2 ^ 63 }
        ensures rises { IsStrictlySortedBy nat_cmp self.now.met.keys }
    {
        self.met.len()
    }

    // The places that were met, by rising address.
    pub(crate) fn into_places(self, alloc: Global) -> Result<Vec<u64>, AllocError>
        ensures items { IfOk result (λ v. v.items ≡ self.met.keys) }
        ensures rises { IfOk result (λ v. IsStrictlySortedBy nat_cmp v.items) }
    {
        let _count = self.met.len();
        self.met.into_iter().collect(alloc)
    }
}

// The code places of two lists, all of which are still to be left.
pub(crate) fn begin(
    alloc: Global,
    image: &Image,
    roots: &[u64],
    known: &[u64],
) -> Result<Search, AllocError>
    ensures { IfOk result (λ s. IsMet image.now (roots.now ++ known.now) s.met.keys s.todo.items) }
{
    let mut search = Search {
        met: BTreeSet::new(alloc),
        todo: Vec::new(alloc),
    };
    search.meet_roots(image, roots)?;
    search.meet_roots(image, known)?;
    Ok(search)
}

/// The places of the least set that has those of `roots` and `known` that are code places and all direct successors of
/// its members: by rising address, each once, in whatever order and how often the roots are given. Each place is decoded
/// once, and the time beside is that of a look-up in an ordered set for each direct successor.
///
/// # Errors
///
/// `TooMany` exactly where they are more than 65,536; `Memory` where memory is wanted for them.
pub fn reach(
    alloc: Global,
    image: &Image,
    roots: &[u64],
    known: &[u64],
) -> Result<Vec<u64>, ReachFault>
    ensures reach { IfOk result (λ places. IsReach image.now (roots.now ++ known.now) places.items) }
    ensures within { IfOk result (λ places. length places.items ≤ 65536) }
    ensures too_many { result ≡ Err ReachFault.TooMany → IsReachAbove image.now (roots.now ++ known.now) 65536 }
{
    let mut search = begin(alloc, image, roots, known)?;
    if search.count() > PLACE_LIMIT {
        return Err(ReachFault::TooMany);
    }
    while let Some(a) = search.todo.pop() {
        search.meet_exits(exits_at(image, a))?;
        if search.count() > PLACE_LIMIT {
            return Err(ReachFault::TooMany);
        }
    }
    let places = search.into_places(alloc)?;
    Ok(places)
}

/// The places of the least set that has the root, where that is a code place, and all direct successors of its members:
/// by rising address, however many they are.
///
/// # Errors
///
/// Memory is wanted for the places.
pub fn reach_all(alloc: Global, image: &Image, root: u64) -> Result<Vec<u64>, AllocError>
    ensures { IfOk result (λ places. IsReach image.now (root ∷ []) places.items) }
{
    let mut search = begin(alloc, image, &[root], &[])?;
    while let Some(a) = search.todo.pop() {
        search.meet_exits(exits_at(image, a))?;
        let _count = search.count();
    }
    let places = search.into_places(alloc)?;
    Ok(places)
}
