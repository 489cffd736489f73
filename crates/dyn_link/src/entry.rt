//! The functions that are bound, among the places of the library.

ghost use Rattle.std.specs.Prelude.{◌≡◌, ◌++◌, [], ◌∷◌, map, AllPairs, All, OnOk};
ghost use Rattle.elf_image.specs.Layout.{IsBelow};
ghost use Rattle.elf_image.specs.Loading.{AreInOrder, HasNoneKept};
ghost use Rattle.dyn_link.specs.Bound.{place_for, bound_places};
ghost use Rattle.dyn_link.specs.Entries.{IsOwn};

use crate::slot::{Place, address_of};
use elf_image::{Function, LibPlace};
use std::alloc::AllocError;

// Adds where a bound function is called, unless it is there.
fn add_function(entries: &mut Vec<LibPlace>, function: Function) -> Result<(), AllocError>
    requires rising { AllPairs IsBelow entries.old.items }
    requires own { All IsOwn entries.old.items }
    ensures { OnOk result (AreInOrder (entries.old.items ++ place_for function ∷ []) entries.new.items) }
{
    let at = address_of(function);
    match entries.binary_search_by_key(&at, |p| p.at) {
        Ok(_) => Ok(()),
        Err(i) => Ok(entries.insert(i, LibPlace { at, function })?),
    }
}

// Adds where the bound functions are called, each once.
pub(crate) fn add_functions(entries: &mut Vec<LibPlace>, places: &[Place]) -> Result<(), AllocError>
    requires rising { AllPairs IsBelow entries.old.items }
    requires free { HasNoneKept entries.old.items }
    ensures { OnOk result (AreInOrder (entries.old.items ++ bound_places (map (λ p. p.binding) places.now)) entries.new.items) }
{
    for p in places {
        match p.binding.function {
            Some(function) => add_function(entries, function)?,
            None => {}
        }
    }
    Ok(())
}
