//! Misses, and the growth after them.

ghost use Rattle.std.specs.Prelude.{ℕ, ◌≡◌, ◌<◌, ◌≤◌, ◌+◌, [], ◌∷◌, false, true, length, if◌then◌else◌, IfOk, IsTrue, OnErr, OnOk, MatchOption};
ghost use Rattle.address_space.specs.Slots.{slot_of};
ghost use Rattle.basic_blocks.specs.Places.{is_code_place};
ghost use Rattle.basic_blocks.specs.Reach.{IsReach, IsReachAbove, is_among};
ghost use Rattle.journal_pack.specs.declared.entry.Entry.TheVariants as entry;
ghost use Rattle.lift_table.specs.Block.{lifted_block};
ghost use Rattle.machine_model.specs.Gated.{Stand};
ghost use Rattle.machine_model.specs.Ready.{HasGrown};
ghost use Rattle.machine_model.specs.Serial.{AtMiss, ungrown};
ghost use Rattle.hall_core.specs.Hall.{Comes, added, both, grown, with_block};
ghost use Rattle.guest_parts.specs.Guest.{GuestData};
ghost use Rattle.guest_steps.specs.declared.stretch.Came.TheVariants as came;
ghost use Rattle.guest_steps.specs.Kept.{Table};
ghost use Rattle.guest_entries.specs.Entered.{AlongIn, Entered, MissIs};
ghost use Rattle.guest_entries.specs.Growth.{AreOnward, FitsAt, GrewEach, GrewReach, GrewTarget, InGrowth, IsTargetGrown, Missed};
ghost use Rattle.guest_steps.specs.Stretched.{StopsAt};

use crate::lifter::Lifter;
use elf_image::Image;
use guest_steps::own::Own;
use hall_core::{Hall, HallGrow};
use ir_syntax::Block;
use std::alloc::{AllocError, Global};
use std::sync::Arc;

// The block that is lifted at a code place.
fn lifted<L: Lifter>(
    alloc: Global,
    lifter: &L,
    image: &Image,
    a: u64,
) -> Result<Arc<Block>, AllocError>
    requires { IsTrue (is_code_place image.now a) }
    ensures { IfOk result (λ b. FitsAt image.now a b.value) }
{
    let block = lifter.lift(image, a)?;
    Ok(Arc::new(alloc, block)?)
}

// Thread `t` grows a place that isn't grown. Without memory the hall is as it was.
fn grow(hall: &mut Hall<Block>, t: u32, a: u64, block: Arc<Block>) -> Result<(), AllocError>
    requires room { 0 < hall.old.spare }
    requires fits { FitsAt hall.old.case.image a block.value }
    requires comes { Comes hall.old (entry.Grow t a) }
    ensures ok { OnOk result (hall.new ≡ with_block (added hall.old (entry.Grow t a)) a block.value) }
    ensures err { OnErr result (hall.new ≡ hall.old) }
{
    hall.facts();
    match hall.grow(t, a, block) {
        Ok(()) => Ok(()),
        Err(HallGrow::Memory(e)) => Err(e),
        Err(HallGrow::Grown(_)) => unreachable!(),
    }
}

// Thread `t` grows a place, unless it is grown. Without memory the hall is as it was.
fn grow_new<L: Lifter>(
    alloc: Global,
    hall: &mut Hall<Block>,
    t: u32,
    lifter: &L,
    a: u64,
) -> Result<(), AllocError>
    requires place { IsTrue (is_code_place hall.old.case.image a) }
    requires room { is_among (grown hall.old) a ≡ false → 0 < hall.old.spare }
    requires comes { is_among (grown hall.old) a ≡ false → Comes hall.old (entry.Grow t a) }
    ensures ok { OnOk result (hall.new ≡ (if is_among (grown hall.old) a then hall.old else with_block (added hall.old (entry.Grow t a)) a (lifted_block hall.old.case.image a))) }
    ensures err { OnErr result (hall.new ≡ hall.old) }
{
    if hall.find(a).is_some() {
        return Ok(());
    }
    let block = lifted(alloc, lifter, hall.image(), a)?;
    grow(hall, t, a, block)
}

// Thread `t` grows each of these places that isn't grown, in order.
fn grow_each<L: Lifter>(
    alloc: Global,
    hall: &mut Hall<Block>,
    t: u32,
    lifter: &L,
    places: &[u64],
) -> Result<(), AllocError>
    requires room { length (ungrown (grown hall.old) places.now) ≤ hall.old.spare }
    requires onward { (a : ℕ) × (g : GuestData) × (d : Stand) × AreOnward hall.old t a places.now g d }
    ensures { (a : ℕ) (g : GuestData) (d : Stand) → AreOnward hall.old t a places.now g d → GrewEach result hall.old hall.new t a places.now g d }
{
    for a in places {
        grow_new(alloc, hall, t, lifter, *a)?;
    }
    Ok(())
}

// How many of the places aren't grown.
fn count_new(hall: &Hall<Block>, places: &[u64]) -> u64
    ensures { result ≡ length (ungrown (grown hall.now) places.now) }
{
    let mut count = places.len() as u64;
    for a in places {
        if hall.find(*a).is_some() {
            count -= 1;
        }
    }
    count
}

// Thread `t` grows the places that are reached from the target of its miss, if all of them fit.
fn grow_reach<L: Lifter>(
    alloc: Global,
    hall: &mut Hall<Block>,
    t: u32,
    lifter: &L,
    places: &[u64],
) -> Result<(), AllocError>
    requires onward { (a : ℕ) × (g : GuestData) × (d : Stand) × IsTargetGrown hall.old t a g d × IsReach hall.old.case.image (a ∷ []) places.now }
    ensures { (a : ℕ) (g : GuestData) (d : Stand) → IsTargetGrown hall.old t a g d → IsReach hall.old.case.image (a ∷ []) places.now → GrewReach result hall.old hall.new t a g d }
{
    let count = count_new(hall, places);
    if count > 65_536 - u64::from(hall.count()) {
        return Ok(());
    }
    hall.reserve(count)?;
    grow_each(alloc, hall, t, lifter, places)
}

// Thread `t` grows the target of its miss, and then what is reached from it, if all of that fits; where no places are
// named they are too many.
fn grow_target<L: Lifter>(
    alloc: Global,
    hall: &mut Hall<Block>,
    t: u32,
    a: u64,
    block: Arc<Block>,
    onward: Option<Vec<u64>>,
    lifter: &L,
) -> Result<(), AllocError>
    requires room { 0 < hall.old.spare }
    requires fits { FitsAt hall.old.case.image a block.value }
    requires few { length (grown hall.old) < 65536 }
    requires new { is_among (grown hall.old) a ≡ false }
    requires place { is_code_place hall.old.case.image a ≡ true }
    requires onward { MatchOption onward (IsReachAbove hall.old.case.image (a ∷ []) 65536) (λ places. IsReach hall.old.case.image (a ∷ []) places.items) }
    requires growth { (g : GuestData) × (d : Stand) × InGrowth hall.old t a g d }
    ensures { (g : GuestData) (d : Stand) → InGrowth hall.old t a g d → GrewTarget result hall.old hall.new t a g d }
{
    grow(hall, t, a, block)?;
    match onward {
        Some(places) => grow_reach(alloc, hall, t, lifter, &places),
        None => Ok(()),
    }
}

// The miss of a strict run, which ends it.
fn end_strict(own: &mut Own, hall: &mut Hall<Block>, t: u32, a: u64)
    requires room { 0 < hall.old.spare }
    requires strict { hall.old.case.strict ≡ true }
    requires settled { HasGrown hall.old.case.image (both hall.old) (slot_of t) }
    requires misses { (table : Table) × (d : Stand) × AlongIn hall.old t own.old table d × StopsAt (came.Missing a) hall.old.case (both hall.old) own.old d }
    ensures { (table : Table) (d : Stand) → AlongIn hall.old t own.old table d → StopsAt (came.Missing a) hall.old.case (both hall.old) own.old d → Entered hall.old hall.new t own.old own.new table d AtMiss }
{
    hall.miss(t, own.k, own.last, a);
    own.k = 0;
}

// The miss of a run that goes on.
fn tell(own: &mut Own, hall: &mut Hall<Block>, t: u32, a: u64)
    requires room { 0 < hall.old.spare }
    requires additive { hall.old.case.strict ≡ false }
    requires settled { HasGrown hall.old.case.image (both hall.old) (slot_of t) }
    requires misses { (table : Table) × (d : Stand) × AlongIn hall.old t own.old table d × StopsAt (came.Missing a) hall.old.case (both hall.old) own.old d }
    ensures own { own.new ≡ record own.old { k = 0 } }
    ensures room { hall.new.spare + 1 ≡ hall.old.spare }
    ensures missed { (table : Table) (d : Stand) → AlongIn hall.old t own.old table d → StopsAt (came.Missing a) hall.old.case (both hall.old) own.old d → Missed hall.old hall.new t a own.old own.new table d }
{
    hall.miss(t, own.k, own.last, a);
    own.k = 0;
}

// A miss where no place more may be grown: the run ends.
fn end_full(own: &mut Own, hall: &mut Hall<Block>, t: u32, a: u64)
    requires room { 1 < hall.old.spare }
    requires additive { hall.old.case.strict ≡ false }
    requires all { length (grown hall.old) ≡ 65536 }
    requires settled { HasGrown hall.old.case.image (both hall.old) (slot_of t) }
    requires misses { (table : Table) × (d : Stand) × AlongIn hall.old t own.old table d × StopsAt (came.Missing a) hall.old.case (both hall.old) own.old d }
    ensures { (table : Table) (d : Stand) → AlongIn hall.old t own.old table d → StopsAt (came.Missing a) hall.old.case (both hall.old) own.old d → Entered hall.old hall.new t own.old own.new table d AtMiss }
{
    tell(own, hall, t, a);
    hall.full(t, a);
}

// The miss is told, and its target grown, and what is reached from it.
fn tell_and_grow<L: Lifter>(
    alloc: Global,
    own: &mut Own,
    hall: &mut Hall<Block>,
    t: u32,
    a: u64,
    block: Arc<Block>,
    onward: Option<Vec<u64>>,
    lifter: &L,
) -> Result<(), AllocError>
    requires room { 1 < hall.old.spare }
    requires additive { hall.old.case.strict ≡ false }
    requires few { length (grown hall.old) < 65536 }
    requires fits { FitsAt hall.old.case.image a block.value }
    requires onward { MatchOption onward (IsReachAbove hall.old.case.image (a ∷ []) 65536) (λ places. IsReach hall.old.case.image (a ∷ []) places.items) }
    requires settled { HasGrown hall.old.case.image (both hall.old) (slot_of t) }
    requires misses { (table : Table) × (d : Stand) × AlongIn hall.old t own.old table d × StopsAt (came.Missing a) hall.old.case (both hall.old) own.old d }
    ensures { (table : Table) (d : Stand) → AlongIn hall.old t own.old table d → StopsAt (came.Missing a) hall.old.case (both hall.old) own.old d → MissIs result hall.old hall.new t own.old own.new table d }
{
    tell(own, hall, t, a);
    grow_target(alloc, hall, t, a, block, onward, lifter)
}

// A miss where one place more may be grown. The block and the places that are reached come before any entry.
fn extend<L: Lifter>(
    own: &mut Own,
    hall: &mut Hall<Block>,
    t: u32,
    a: u64,
    lifter: &L,
) -> Result<(), AllocError>
    requires room { 1 < hall.old.spare }
    requires additive { hall.old.case.strict ≡ false }
    requires few { length (grown hall.old) < 65536 }
    requires settled { HasGrown hall.old.case.image (both hall.old) (slot_of t) }
    requires misses { (table : Table) × (d : Stand) × AlongIn hall.old t own.old table d × StopsAt (came.Missing a) hall.old.case (both hall.old) own.old d }
    ensures { (table : Table) (d : Stand) → AlongIn hall.old t own.old table d → StopsAt (came.Missing a) hall.old.case (both hall.old) own.old d → MissIs result hall.old hall.new t own.old own.new table d }
{
    let alloc = *own.frames.allocator();
    let block = lifted(alloc, lifter, hall.image(), a)?;
    let onward = lifter.onward(hall.image(), a)?;
    tell_and_grow(alloc, own, hall, t, a, block, onward, lifter)
}

/// The thread is at `a`, where no block is grown: a miss. A strict run ends. Else the place is grown, and then what is
/// reached from it, by rising address, if all that fits; where no place more may be grown the run ends.
///
/// # Errors
///
/// Memory is wanting; the guest stands with its thread. Where it is wanting for the block or the reach of the place, no entry
/// was made.
pub fn miss<L: Lifter>(
    own: &mut Own,
    hall: &mut Hall<Block>,
    t: u32,
    a: u64,
    lifter: &L,
) -> Result<(), AllocError>
    requires room { 1 < hall.old.spare }
    requires settled { HasGrown hall.old.case.image (both hall.old) (slot_of t) }
    requires misses { (table : Table) × (d : Stand) × AlongIn hall.old t own.old table d × StopsAt (came.Missing a) hall.old.case (both hall.old) own.old d }
    ensures { (table : Table) (d : Stand) → AlongIn hall.old t own.old table d → StopsAt (came.Missing a) hall.old.case (both hall.old) own.old d → MissIs result hall.old hall.new t own.old own.new table d }
{
    if hall.is_strict() {
        end_strict(own, hall, t, a);
        return Ok(());
    }
    if hall.count() >= 65_536 {
        end_full(own, hall, t, a);
        return Ok(());
    }
    extend(own, hall, t, a, lifter)
}
