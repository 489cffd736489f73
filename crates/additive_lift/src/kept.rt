//! Where blocks go on, kept once it is found.

ghost use Rattle.std.specs.Prelude.{◌≡◌, ◌≤◌, [], ◌∷◌, length, IfOk, IfSome, IfNone, Some};
ghost use Rattle.basic_blocks.specs.Reach.{IsReach, IsReachAbove};
ghost use Rattle.basic_blocks.specs.Span.{successors};
ghost use Rattle.additive_lift.specs.Exits.{exits_of};
ghost use Rattle.additive_lift.specs.Kept.{AreKept};

use crate::exits::{Exits, exits_at};
use crate::lent::Kept;
use crate::search::{PLACE_LIMIT, begin};
use elf_image::Image;
use std::alloc::{AllocError, Global};
use std::marker::Model;

// An image, seen as itself, with the direct successors of each block that were found so far.
#[derive(Drop)]
pub(crate) struct Found<'a> {
    image: &'a Image,
    kept: Kept,
}

impl<'a> Model for Found<'a> {
    ghost use Rattle.elf_image.specs.Layout.{ImageData};
    ghost use Rattle.additive_lift.specs.Kept.{AreKept};

    ghost Value = { ImageData };

    ghost view = { λ r. r.image.now };

    ghost invariant = { λ r. AreKept r.image.now r.kept };
}

impl<'a> Found<'a> {
    // The image, with what was found in it.
    pub(crate) fn of(image: &'a Image, kept: Kept) -> Found<'a>
        requires { AreKept image.now kept }
        ensures { result ≡ image.now }
    {
        Found { image, kept }
    }

    // What was found.
    pub(crate) fn into_kept(self) -> Kept
        ensures { AreKept self.entry result }
    {
        let Found { image: _, kept } = self;
        kept
    }

    fn image(&self) -> &'a Image
        ensures { result.now ≡ self.now }
    {
        self.image
    }

    // The direct successors of the block at a code place, decoded at the first call alone as far as memory is there to
    // keep them.
    fn exits_at(&mut self, a: u64) -> Exits
        ensures exits { exits_of result ≡ successors self.old a }
        ensures same { self.new ≡ self.old }
    {
        if let Some(exits) = self.kept.get(&a) {
            return *exits;
        }
        let exits = exits_at(self.image, a);
        let _ = self.kept.insert(a, exits);
        exits
    }

    // The places of the least set that has the root, where that is a code place, and all direct successors of its
    // members, by rising address; none where they are more than 65,536.
    pub(crate) fn onward(
        &mut self,
        alloc: Global,
        root: u64,
    ) -> Result<Option<Vec<u64>>, AllocError>
        ensures same { self.new ≡ self.old }
        ensures reach { IfOk result (λ r. IfSome r (λ places. IsReach self.old (root ∷ []) places.items)) }
        ensures within { IfOk result (λ r. IfSome r (λ places. length places.items ≤ 65536)) }
        ensures too_many { IfOk result (λ r. IfNone r (IsReachAbove self.old (root ∷ []) 65536)) }
    {
        let mut search = begin(alloc, self.image(), &[root], &[])?;
        if search.count() > PLACE_LIMIT {
            return Ok(None);
        }
        while let Some(a) = search.todo.pop() {
            let exits = self.exits_at(a);
            search.meet_exits(exits)?;
            if search.count() > PLACE_LIMIT {
                return Ok(None);
            }
        }
        let places = search.into_places(alloc)?;
        Ok(Some(places))
    }
}
