//! From the names of a program to the image in which they are bound.

ghost use Rattle.std.specs.Prelude.{◌≡◌, map, All, IfOk, IfErr};
ghost use Rattle.elf_image.specs.Loading.{HasNoneKept};
ghost use Rattle.dyn_link.specs.Bound.{bindings, IsBoundTo, IsLinkable, IsBound, FaultsIn, FaultsAt};
ghost use Rattle.dyn_link.specs.Dynamic.{tables};
ghost use Rattle.dyn_link.specs.Placed.{IsPlaced};

use crate::binding::Names;
use crate::dynamic::tables_of;
use crate::entry::add_functions;
use crate::fault::LinkFault;
use crate::relocation::relocations_of;
use crate::slot::{Place, places_of, write_places};
use crate::table::find_tables;
use elf_image::{Image, Loaded, Range};
use std::alloc::{AllocError, Global};

// The slots of the file, each with its function and its segment. Else the first fault.
fn slots_of(
    alloc: Global,
    bytes: &[u8],
    range: Range,
    image: &Image,
) -> Result<Vec<Place>, LinkFault>
    ensures linkable { IfOk result (λ v. IsLinkable bytes.now range image.now.segments) }
    ensures same { IfOk result (λ v. map (λ p. p.binding) v.items ≡ bindings image.now.segments (tables bytes.now range)) }
    ensures placed { IfOk result (λ v. All (IsPlaced image.now.segments) v.items) }
    ensures fault { IfErr result (FaultsIn bytes.now range image.now.segments) }
{
    let dynamic = match tables_of(alloc, bytes, range)? {
        Some(dynamic) => dynamic,
        None => return Err(LinkFault::Table),
    };
    if dynamic.is_bad() {
        return Err(LinkFault::Table);
    }
    let tables = match find_tables(image, &dynamic) {
        Some(tables) => tables,
        None => return Err(LinkFault::Table),
    };
    let names = Names::make(tables.strings, dynamic.symtab.unwrap_or(0));
    let relocations = relocations_of(alloc, tables.rela, tables.jmprel)?;
    if let Some(n) = names.first_bad(image, &relocations) {
        return Err(LinkFault::Reloc(n as u64));
    }
    if let Some(n) = names.first_unknown(image, &relocations) {
        return Err(LinkFault::Unknown(n as u64));
    }
    Ok(places_of(alloc, image, &names, &relocations)?)
}

// The image with its slots written, and the functions that are bound among its places.
fn bound(alloc: Global, image: Image, places: &[Place]) -> Result<Image, AllocError>
    requires placed { All (IsPlaced image.segments) places.now }
    requires free { HasNoneKept image.entries }
    ensures { IfOk result (λ n. IsBoundTo image n (map (λ p. p.binding) places.now)) }
{
    image.facts();
    let entry = image.entry;
    let mut segments = image.segments;
    let mut entries = image.entries;
    write_places(&mut segments, places);
    add_functions(&mut entries, places)?;
    Image::make(alloc, entry, segments, entries)
}

/// The image in which each slot that a relocation of the file names holds the address of its function
/// (ELF specification, "Dynamic Section" and "Relocation"; System V x86-64 psABI, 4.4): 0x700000fe0000 and
/// 16 for each function before it in the order of [`elf_image::Function`], or 0 for a weak name that no
/// function of the library has. The entries get that address for each function that is bound, once. All
/// else is as it was loaded, and an image without a dynamic segment stays as it is.
///
/// `bytes` are those of the file from which `loaded` was read. Tables, names and symbols are read where
/// the image has them, before any slot is written.
///
/// Else the first fault: [`LinkFault::Table`], then [`LinkFault::Reloc`] of the first relocation that
/// can't be carried out, then [`LinkFault::Unknown`] of the first whose name isn't known. No sum of the
/// file's numbers wraps. The time is linear in the file and the image, but for the look-ups of segments.
pub fn bind(alloc: Global, bytes: &[u8], loaded: Loaded) -> Result<Image, LinkFault>
    // No function stands where those that are bound will; so it is in all that `load_dynamic` gives.
    requires { HasNoneKept loaded.image.entries }
    // No fault fits, and the image has its bindings.
    ensures ok { IfOk result (IsBound bytes.now loaded.dynamic loaded.image) }
    // The fault is the first that fits; memory may run out.
    ensures fault { IfErr result (FaultsAt bytes.now loaded.dynamic loaded.image) }
{
    let Loaded { image, dynamic } = loaded;
    match dynamic {
        None => Ok(image),
        Some(range) => {
            let places = slots_of(alloc, bytes, range, &image)?;
            Ok(bound(alloc, image, &places)?)
        }
    }
}
