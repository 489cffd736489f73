//! Slots, the segments that have them, and how they are written.

ghost use Rattle.std.specs.Prelude.{◌≡◌, ◌+◌, ◌≤◌, true, false, map, All, AllPairs, IfOk};
ghost use Rattle.std.specs.List.{list_any};
ghost use Rattle.elf_image.specs.Layout.{IsSegment, IsApart};
ghost use Rattle.dyn_link.specs.Bound.{address_of, held, binding, with_number, written, bound_segments};
ghost use Rattle.dyn_link.specs.Placed.{AreNumbers, IsPlaced};
ghost use Rattle.dyn_link.specs.Relocations.{is_slot, is_bad_relocation};

use crate::binding::{Binding, Names};
use crate::relocation::Relocation;
use byteorder::{ByteOrder, LittleEndian};
use elf_image::{Function, Image, Segment};
use std::alloc::{AllocError, Global};
use std::collections::BTreeMap;

// The address at which the first function is called; the others follow, 16 bytes each.
const FIRST_FUNCTION: u64 = 0x7000_00fe_0000;

/// A binding, and the number of the segment that has its slot.
#[derive(Clone, Copy)]
pub(crate) struct Place {
    pub segment: usize,
    pub binding: Binding,
}

// The number of each segment, by its first address.
fn numbers_of(alloc: Global, segments: &[Segment]) -> Result<BTreeMap<u64, usize>, AllocError>
    requires whole { All IsSegment segments.now }
    requires apart { AllPairs IsApart segments.now }
    ensures { IfOk result (λ m. AreNumbers segments.now m) }
{
    let mut numbers = BTreeMap::new(alloc);
    for number in 0..segments.len() {
        let segment = &segments[number];
        numbers.insert(segment.at, number)?;
    }
    Ok(numbers)
}

// The segment that has the slot, found by the image's index.
#[tactic(auto, unfolding(crate::specs::Relocations::is_slot))]
fn place_of(image: &Image, numbers: &BTreeMap<u64, usize>, binding: Binding) -> Place
    requires numbers { AreNumbers image.now.segments numbers.now }
    requires slot { is_slot image.now.segments binding.slot ≡ true }
    ensures same { result.binding ≡ binding }
    ensures placed { IsPlaced image.now.segments result }
{
    let segment = image.segment_at(binding.slot).unwrap();
    let number = numbers.get(&segment.at).unwrap();
    Place {
        segment: *number,
        binding,
    }
}

// What the relocations bind, in their order, each with the segment of its slot.
pub(crate) fn places_of(
    alloc: Global,
    image: &Image,
    names: &Names,
    relocations: &[Relocation],
) -> Result<Vec<Place>, AllocError>
    requires { list_any (is_bad_relocation image.now.segments names.now.strings.now names.now.symbols) relocations.now ≡ false }
    ensures same { IfOk result (λ v. map (λ p. p.binding) v.items ≡ map (binding image.now.segments names.now.strings.now names.now.symbols) relocations.now) }
    ensures placed { IfOk result (λ v. All (IsPlaced image.now.segments) v.items) }
{
    image.facts();
    let numbers = numbers_of(alloc, &image.segments)?;
    let mut places = Vec::with_capacity(alloc, relocations.len())?;
    for r in relocations {
        let binding = names.binding(image, *r);
        places.push(place_of(image, &numbers, binding))?;
    }
    Ok(places)
}

// The address at which a bound function is called.
#[tactic(auto, unfolding(crate::specs::Bound::address_of))]
pub(crate) fn address_of(f: Function) -> u64
    ensures { result ≡ address_of f }
{
    FIRST_FUNCTION + 16 * (f as u64)
}

fn held(function: Option<Function>) -> u64
    ensures { result ≡ held function }
{
    match function {
        Some(f) => address_of(f),
        None => 0,
    }
}

// Writes a number into eight bytes of the segment.
fn write_number(segment: &mut Segment, place: usize, n: u64)
    requires { place + 8 ≤ segment.old.size }
    ensures number { segment.new ≡ with_number place n segment.old }
    ensures whole { IsSegment segment.new }
{
    LittleEndian::write_u64(&mut segment.bytes[place..], n);
}

fn write_place(segments: &mut Vec<Segment>, p: Place)
    requires placed { IsPlaced segments.old.items p }
    requires apart { AllPairs IsApart segments.old.items }
    ensures bound { segments.new.items ≡ map (written p.binding) segments.old.items }
    ensures whole { All IsSegment segments.old.items → All IsSegment segments.new.items }
{
    let segment = &mut segments[p.segment];
    let place = (p.binding.slot - segment.at) as usize;
    write_number(segment, place, held(p.binding.function));
}

// Writes all slots in their order.
pub(crate) fn write_places(segments: &mut Vec<Segment>, places: &[Place])
    requires placed { All (IsPlaced segments.old.items) places.now }
    requires whole { All IsSegment segments.old.items }
    requires apart { AllPairs IsApart segments.old.items }
    ensures bound { segments.new.items ≡ bound_segments segments.old.items (map (λ p. p.binding) places.now) }
    ensures whole { All IsSegment segments.new.items }
{
    for p in places {
        write_place(segments, *p);
    }
}
