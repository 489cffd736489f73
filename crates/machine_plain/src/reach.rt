//! What is reached from a place.

ghost use Rattle.std.specs.Prelude.{◌≡◌, ℕ, [], ◌∷◌, length, IfOk, OnOk};
ghost use Rattle.std.specs.List.Sorted.{IsStrictlySortedBy};
ghost use Rattle.std.specs.Ordering.{nat_cmp};
ghost use Rattle.machine_plain.specs.PlainGates.{IsClosure, with_place, with_places};
ghost use Rattle.basic_blocks.specs.Reach.{is_among, IsReach};
ghost use Rattle.basic_blocks.specs.Span.{successors};

use basic_blocks::{is_code_place, successors};
use elf_image::Image;
use std::alloc::{AllocError, Global};
use std::collections::BTreeSet;

/// Whether the place is there.
pub fn has(places: &[u64], a: u64) -> bool
    ensures { result ≡ is_among places.now a }
{
    places.iter().any(|x| *x == a)
}

// Adds a place that isn't there.
fn add(places: &mut Vec<u64>, a: u64) -> Result<(), AllocError>
    ensures { OnOk result (places.new.items ≡ with_place places.old.items a) }
{
    if !has(places, a) {
        places.push(a)?;
    }
    Ok(())
}

// Adds those that aren't there.
#[tactic(auto, using(crate::proofs::Closures::more_begin, crate::proofs::Closures::more_go_on, crate::proofs::Closures::more_end))]
fn add_all(places: &mut Vec<u64>, more: &[u64]) -> Result<(), AllocError>
    ensures { OnOk result (places.new.items ≡ with_places places.old.items more.now) }
{
    for a in more {
        add(places, *a)?;
    }
    Ok(())
}

#[tactic(auto, using(crate::proofs::Closures::begins_with_root, crate::proofs::Closures::begins_with_none))]
// The root alone, where it is a code place.
fn roots(alloc: Global, image: &Image, root: u64) -> Result<Vec<u64>, AllocError>
    ensures { IfOk result (λ places. IsClosure image.now root places.items 0) }
{
    let mut places = Vec::new(alloc);
    if is_code_place(image, root) {
        places.push(root)?;
    }
    Ok(places)
}

#[tactic(auto, using(crate::proofs::Closures::goes_on, crate::proofs::Closures::all_met))]
// All that is reached from a root, as it is met. No list is as long as the loop, so its end is never come to.
fn closure(alloc: Global, image: &Image, root: u64) -> Result<Vec<u64>, AllocError>
    ensures { IfOk result (λ places. IsClosure image.now root places.items (length places.items)) }
{
    let mut places = roots(alloc, image, root)?;
    for i in 0..u64::MAX {
        if i >= places.len() as u64 {
            return Ok(places);
        }
        let more = successors(alloc, image, places[i as usize])?;
        add_all(&mut places, &more)?;
    }
    Err(AllocError)
}

#[tactic(auto, using(crate::proofs::Closures::insert_more, crate::proofs::Closures::insert_all))]
// The places by rising address.
fn in_order(alloc: Global, places: &[u64]) -> Result<Vec<u64>, AllocError>
    ensures places { IfOk result (λ v. (a : ℕ) → is_among v.items a ≡ is_among places.now a) }
    ensures rises { IfOk result (λ v. IsStrictlySortedBy nat_cmp v.items) }
{
    let mut set = BTreeSet::new(alloc);
    for a in places {
        set.insert(*a)?;
    }
    let _count = set.len();
    set.into_iter().collect(alloc)
}

#[tactic(auto, using(crate::proofs::Closures::in_order_reach))]
/// The places that are reached from a root, by rising address.
pub fn reach_plain(alloc: Global, image: &Image, root: u64) -> Result<Vec<u64>, AllocError>
    ensures { IfOk result (λ places. IsReach image.now (root ∷ []) places.items) }
{
    let places = closure(alloc, image, root)?;
    let sorted = in_order(alloc, &places)?;
    Ok(sorted)
}
