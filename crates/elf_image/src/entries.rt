//! The places of the library in order, each once.

ghost use Rattle.std.specs.Prelude.{◌≡◌, ℕ, ◌≤◌, ◌↔◌, ◌++◌, [], ◌∷◌, All, AllPairs, IsTrue, IfOk, MatchBool, MatchResult};
ghost use Rattle.std.specs.List.Sorted.{IsNonDecreasingBy};
ghost use Rattle.elf_image.specs.Layout.{IsBelow};
ghost use Rattle.elf_image.specs.Loading.{AreInOrder, ClashesAt, is_kept, IsKept};
ghost use Rattle.elf_image.specs.Sound.{IsFirstClash};

use crate::linking::Linking;
use crate::place::{Function, LibPlace};
use std::alloc::{AllocError, Global};

// The addresses of the functions that a dynamic linker places.
const FIRST_KEPT: u64 = 0x7000_00fe_0000;

const END_OF_KEPT: u64 = 0x7000_00fe_0150;

fn is_same(f: Function, g: Function) -> bool
    ensures { IsTrue result ↔ (f ≡ g) }
{
    f == g
}

// Adds a place that no entry is above, unless it is there. False where its address has another
// function.
fn add(entries: &mut Vec<LibPlace>, p: LibPlace) -> Result<bool, AllocError>
    requires rising { AllPairs IsBelow entries.old.items }
    requires above { All (λ q. q.at ≤ p.at) entries.old.items }
    ensures { IfOk result (λ fits. MatchBool fits (AreInOrder (entries.old.items ++ p ∷ []) entries.new.items) (ClashesAt (entries.old.items ++ p ∷ []) p.at)) }
{
    let n = entries.len();
    if n > 0 && entries[n - 1].at == p.at {
        return Ok(is_same(entries[n - 1].function, p.function));
    }
    entries.push(p)?;
    Ok(true)
}

// Whether the address is kept for the functions that a dynamic linker places.
fn is_kept(linking: Linking, a: u64) -> bool
    ensures { result ≡ is_kept linking a }
{
    match linking {
        Linking::Static => false,
        Linking::Dynamic => FIRST_KEPT <= a && a < END_OF_KEPT,
    }
}

// The places, which are sorted by address, each once; else the least address with two functions, or
// that is kept.
fn merged(
    alloc: Global,
    sorted: &[LibPlace],
    linking: Linking,
) -> Result<Result<Vec<LibPlace>, u64>, AllocError>
    requires { IsNonDecreasingBy (λ p. p.at) sorted.now }
    ensures { IfOk result (λ r. MatchResult r (λ v. AreInOrder sorted.now v.items × ((a : ℕ) → ¬ IsKept linking sorted.now a)) (IsFirstClash linking sorted.now)) }
{
    let mut entries = Vec::new(alloc);
    for p in sorted {
        if is_kept(linking, p.at) {
            return Ok(Err(p.at));
        }
        if !add(&mut entries, *p)? {
            return Ok(Err(p.at));
        }
    }
    Ok(Ok(entries))
}

// The places in order, each once; else the least address with two functions, or that is kept.
pub(crate) fn in_order(
    alloc: Global,
    mut places: Vec<LibPlace>,
    linking: Linking,
) -> Result<Result<Vec<LibPlace>, u64>, AllocError>
    ensures { IfOk result (λ r. MatchResult r (λ v. AreInOrder places.items v.items × ((a : ℕ) → ¬ IsKept linking places.items a)) (IsFirstClash linking places.items)) }
{
    places.sort_unstable_by_key(|p| p.at);
    merged(alloc, &places, linking)
}
