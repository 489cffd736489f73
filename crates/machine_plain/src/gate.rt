//! Which places are grown, and where each thread stands in its block.

ghost use Rattle.std.specs.Prelude.{◌≡◌, ◌+◌, ◌&&◌, ◌==◌, ◌↔◌, ◌⊎◌, if◌then◌else◌, ℕ, [], not, nat_le, nat_lt, length, slice_set, IfOk, None, OnOk, Some, IsTrue};
ghost use Rattle.machine_model.specs.Gated.{after_flush, entered, first_gate, gate_with, gated_step, gated_steps, grown_by, is_between, may_miss, most_grown, onward, pass, rest_of, spot_at, spot_last, spot_with, within_block, IsAllowed, IsGrowth, IsWithinReach, Growing, Other, Spot};
ghost use Rattle.machine_plain.specs.PlainGates.{latest_of, led_to, new_places};
ghost use Rattle.basic_blocks.specs.Reach.{is_among};
ghost use Rattle.journal_pack.specs.declared.entry.Entry.TheVariants as entry;

use crate::entries::privately;
use crate::machine::slot_in;
use crate::reach::{has, reach_plain};
use crate::wants::next_want;
use address_space::slot_of;
use basic_blocks::{is_code_place, span};
use elf_image::Image;
use machine_model::Entry;
use machine_model::case::Case;
use std::alloc::{AllocError, Global};
use std::marker::Model;
use x86_model::Cpu;

// How many places may be grown.
const MOST_GROWN: u64 = 65536;

/// What a thread's entries were lately.
#[derive(Clone, Copy, Debug)]
pub enum PlainLatest {
    /// The latest entry other than `Flush` and `Grow` is no miss.
    Other,
    /// It is a miss of this target.
    Missed(u64),
    /// It is one, and all entries since are `Grow`.
    Growing(u64),
}

/// A thread's position: the addresses that are left of its block, and what its entries were lately.
#[derive(Drop)]
pub struct PlainSpot {
    pub left: Vec<u64>,
    pub latest: PlainLatest,
}

impl Model for PlainSpot {
    ghost use Rattle.machine_model.specs.Gated.{Spot};
    ghost use Rattle.machine_plain.specs.PlainGates.{latest_of};

    ghost Value = { Spot };

    ghost view = { λ s. record { left = s.left.items; latest = latest_of s.latest } };
}

/// What a thread works on, and the addresses that are left of its block.
#[derive(Drop)]
pub struct PlainStand {
    pub cpu: Cpu,
    pub left: Vec<u64>,
}

impl Model for PlainStand {
    ghost use Rattle.machine_model.specs.Gated.{Stand};

    ghost Value = { Stand };

    ghost view = { λ s. record { cpu = s.cpu; left = s.left.items } };
}

/// The places that are grown, the latest first, and the position of each thread.
#[derive(Drop)]
pub struct PlainGate {
    pub grown: Vec<u64>,
    spots: Vec<PlainSpot>,
}

impl Model for PlainGate {
    ghost use Rattle.machine_model.specs.Gated.{Gate};

    ghost Value = { Gate };

    ghost view = { λ g. record { grown = g.grown.items; spots = g.spots.items } };
}

// What a thread's entries were lately, after a flush.
fn after_flush(latest: PlainLatest) -> PlainLatest
    ensures { latest_of result ≡ after_flush (latest_of latest) }
{
    match latest {
        PlainLatest::Other => PlainLatest::Other,
        PlainLatest::Missed(target) => PlainLatest::Missed(target),
        PlainLatest::Growing(target) => PlainLatest::Missed(target),
    }
}

// Whether a miss may come, after `k` private steps.
fn may_miss(latest: PlainLatest, k: u32) -> bool
    ensures { result ≡ may_miss (latest_of latest) k }
{
    match latest {
        PlainLatest::Other => true,
        PlainLatest::Missed(_) => k > 0,
        PlainLatest::Growing(_) => k > 0,
    }
}

// Whether the place may be grown: it isn't, and there is room.
fn may_grow(grown: &[u64], a: u64) -> bool
    ensures { result ≡ (not (is_among grown.now a) && nat_lt (length grown.now) most_grown) }
{
    !has(grown, a) && (grown.len() as u64) < MOST_GROWN
}

/// Whether a thread is between blocks, by the addresses that are left of its block.
#[tactic(auto, using(crate::proofs::GateWalk::between_is))]
pub fn is_between(left: &[u64]) -> bool
    ensures { result ≡ is_between left.now }
{
    left.is_empty()
}

// How many of the places aren't grown.
#[tactic(auto, using(crate::proofs::GateWalk::new_yes, crate::proofs::GateWalk::new_no, crate::proofs::GateWalk::new_all))]
fn new_places(grown: &[u64], places: &[u64]) -> u64
    ensures { result ≡ new_places grown.now places.now }
{
    let mut count = 0;
    for p in places {
        if !has(grown, *p) {
            count += 1;
        }
    }
    count
}

// Whether the grown places and these together aren't too many.
#[tactic(auto, using(crate::proofs::GateWalk::fit_together, crate::proofs::GateWalk::too_many))]
fn fits(grown: &[u64], places: &[u64]) -> bool
    ensures { result ≡ nat_le (length grown.now + new_places grown.now places.now) most_grown }
{
    let before = grown.len() as u64;
    if before > MOST_GROWN {
        return false;
    }
    new_places(grown, places) <= MOST_GROWN - before
}

// Whether a place is in the reach of another, and that reach may be grown.
#[tactic(auto, using(crate::proofs::GateWalk::reaches_if_it_fits, crate::proofs::GateWalk::not_reached))]
fn is_within_reach(
    alloc: Global,
    image: &Image,
    grown: &[u64],
    g: u64,
    a: u64,
) -> Result<bool, AllocError>
    ensures { IfOk result (λ b. IsTrue b ↔ IsWithinReach image.now grown.now g a) }
{
    let places = reach_plain(alloc, image, g)?;
    if !has(&places, a) {
        return Ok(false);
    }
    Ok(fits(grown, &places))
}

// Whether a place may be grown after a miss of `g`.
#[tactic(auto, using(crate::proofs::GateWalk::growth_of_target, crate::proofs::GateWalk::growth_of_none, crate::proofs::GateWalk::growth_of_reach))]
fn is_growth_after(
    alloc: Global,
    image: &Image,
    grown: &[u64],
    g: u64,
    a: u64,
) -> Result<bool, AllocError>
    ensures { IfOk result (λ b. IsTrue b ↔ ((a ≡ g) ⊎ (IsTrue (is_among grown.now g) × IsWithinReach image.now grown.now g a))) }
{
    if a == g {
        return Ok(true);
    }
    if !has(grown, g) {
        return Ok(false);
    }
    is_within_reach(alloc, image, grown, g, a)
}

// Whether a place may be grown, after what a thread's entries were lately.
#[tactic(auto, using(crate::proofs::GateWalk::no_growth))]
fn is_growth(
    alloc: Global,
    image: &Image,
    grown: &[u64],
    a: u64,
    latest: PlainLatest,
) -> Result<bool, AllocError>
    ensures { IfOk result (λ b. IsTrue b ↔ IsGrowth image.now grown.now a (latest_of latest)) }
{
    match latest {
        PlainLatest::Other => Ok(false),
        PlainLatest::Missed(_) => Ok(false),
        PlainLatest::Growing(g) => is_growth_after(alloc, image, grown, g, a),
    }
}

impl PlainStand {
    // Enters a grown block, or stays in the one under way; answers whether either may be.
    #[tactic(auto, using(crate::proofs::GateWalk::block_entered, crate::proofs::GateWalk::block_not_grown, crate::proofs::GateWalk::block_under_way))]
    fn enter_block(
        &mut self,
        alloc: Global,
        image: &Image,
        grown: &[u64],
    ) -> Result<bool, AllocError>
        ensures cpu { OnOk result (self.new.cpu ≡ self.old.cpu) }
        ensures entered { IfOk result (λ b. led_to b self.new.left ≡ within_block image.now grown.now self.old.cpu.rip self.old.left) }
    {
        let rip = self.cpu.rip;
        if !self.left.is_empty() {
            return Ok(self.left[0] == rip);
        }
        if !has(grown, rip) {
            return Ok(false);
        }
        self.left = span(alloc, image, rip)?;
        Ok(true)
    }

    // Stands where a step is made; answers whether one may be.
    #[tactic(auto, using(crate::proofs::GateWalk::door_entered, crate::proofs::GateWalk::code_entered))]
    fn enter(&mut self, alloc: Global, image: &Image, grown: &[u64]) -> Result<bool, AllocError>
        ensures cpu { OnOk result (self.new.cpu ≡ self.old.cpu) }
        ensures entered { IfOk result (λ b. led_to b self.new.left ≡ entered image.now grown.now self.old.cpu.rip self.old.left) }
    {
        if is_code_place(image, self.cpu.rip) {
            self.enter_block(alloc, image, grown)
        } else {
            Ok(is_between(&self.left))
        }
    }

    // Leaves the address at which the thread stands, if it is in a block.
    #[tactic(auto, using(crate::proofs::GateWalk::first_left, crate::proofs::GateWalk::none_to_leave))]
    fn leave(&mut self)
        ensures { self.new ≡ record self.old { left = rest_of self.old.left } }
    {
        if !self.left.is_empty() {
            let _gone = self.left.remove(0);
        }
    }

    // Goes on to the next address, but for an instruction that waits for its second step.
    fn go_on(&mut self, mid: Option<u64>)
        ensures { self.new ≡ record self.old { left = onward mid self.old.left } }
    {
        match mid {
            None => self.leave(),
            Some(_) => {}
        }
    }

    /// One private step; answers whether it may be made.
    #[tactic(auto, using(crate::proofs::GateWalk::step_made, crate::proofs::GateWalk::step_not_entered, crate::proofs::GateWalk::step_not_private))]
    pub fn step(&mut self, alloc: Global, image: &Image, grown: &[u64]) -> Result<bool, AllocError>
        ensures { IfOk result (λ b. led_to b self.new ≡ gated_step image.now grown.now self.old) }
    {
        if !self.enter(alloc, image, grown)? {
            return Ok(false);
        }
        let Some(next) = privately(next_want(image, self.cpu)) else {
            return Ok(false);
        };
        self.go_on(next.mid);
        self.cpu = next;
        Ok(true)
    }

    // So many private steps.
    #[tactic(auto, using(crate::proofs::GateWalk::one_gated, crate::proofs::GateWalk::one_stuck), unfolding(machine_model::specs::Gated::gated_steps))]
    fn steps(
        &mut self,
        alloc: Global,
        image: &Image,
        grown: &[u64],
        k: u32,
    ) -> Result<bool, AllocError>
        ensures { IfOk result (λ b. led_to b self.new ≡ gated_steps image.now grown.now k self.old) }
    {
        for _k in 0..k {
            if !self.step(alloc, image, grown)? {
                return Ok(false);
            }
        }
        Ok(true)
    }
}

// A position.
fn spot_with(left: Vec<u64>, latest: PlainLatest) -> PlainSpot
    ensures { result ≡ spot_with left.items (latest_of latest) }
{
    PlainSpot { left, latest }
}

// What an event leaves of its thread's position.
#[tactic(auto, using(crate::proofs::GateWalk::event_made, crate::proofs::GateWalk::event_not_entered))]
fn after_event(
    alloc: Global,
    image: &Image,
    grown: &[u64],
    after: Cpu,
    stand: PlainStand,
) -> Result<Option<PlainSpot>, AllocError>
    ensures { (t k : ℕ) (spot : Spot) → IfOk result (λ last. last ≡ spot_last image.now grown.now (entry.Ev t k) after spot stand) }
{
    let mut stand = stand;
    if !stand.enter(alloc, image, grown)? {
        return Ok(None);
    }
    stand.go_on(after.mid);
    Ok(Some(spot_with(stand.left, PlainLatest::Other)))
}

// What a miss leaves of its thread's position.
fn after_miss(
    alloc: Global,
    grown: &[u64],
    k: u32,
    target: u64,
    latest: PlainLatest,
    left: &[u64],
) -> Option<PlainSpot>
    ensures { result ≡ (if is_between left.now && not (is_among grown.now target) && may_miss (latest_of latest) k then Some (spot_with [] (Growing target)) else None) }
{
    if is_between(left) && !has(grown, target) && may_miss(latest, k) {
        Some(spot_with(Vec::new(alloc), PlainLatest::Growing(target)))
    } else {
        None
    }
}

// What the want of room for a place leaves of its thread's position.
fn after_full(alloc: Global, grown: &[u64], rip: u64, left: &[u64]) -> Option<PlainSpot>
    ensures { result ≡ (if length grown.now == most_grown && is_between left.now && not (is_among grown.now rip) then Some (spot_with [] Other) else None) }
{
    if grown.len() as u64 == MOST_GROWN && is_between(left) && !has(grown, rip) {
        Some(spot_with(Vec::new(alloc), PlainLatest::Other))
    } else {
        None
    }
}

// What an entry leaves of its thread's position: `stand` is where its private steps led, and the thread works on `after`
// when the whole entry was made.
fn spot_last(
    alloc: Global,
    image: &Image,
    grown: &[u64],
    entry: Entry,
    after: Cpu,
    spot: PlainSpot,
    stand: PlainStand,
) -> Result<Option<PlainSpot>, AllocError>
    ensures { IfOk result (λ last. last ≡ spot_last image.now grown.now entry after spot stand) }
{
    match entry {
        Entry::Ev(_, _) => after_event(alloc, image, grown, after, stand),
        Entry::Tick(_, _) => Ok(Some(spot_with(stand.left, PlainLatest::Other))),
        Entry::Flush(_) => Ok(Some(spot_with(stand.left, after_flush(spot.latest)))),
        Entry::Wait(_, _) => Ok(Some(spot_with(stand.left, PlainLatest::Other))),
        Entry::Miss(_, k, _, target) => {
            Ok(after_miss(alloc, grown, k, target, spot.latest, &stand.left))
        }
        Entry::Grow(_, a) => Ok(if may_grow(grown, a) { Some(spot) } else { None }),
        Entry::Over(_, _) => Ok(Some(spot_with(stand.left, PlainLatest::Other))),
        Entry::Full(_) => Ok(after_full(alloc, grown, stand.cpu.rip, &stand.left)),
        Entry::Dead => Ok(Some(spot)),
    }
}

impl PlainGate {
    /// Before the first entry.
    pub(crate) fn start(alloc: Global, case: &Case) -> Result<PlainGate, AllocError>
        ensures { IfOk result (λ g. g ≡ first_gate case.now) }
    {
        let grown = Vec::from_slice(alloc, case.first())?;
        let mut spots = Vec::with_capacity(alloc, 64)?;
        for _ in 0..64u32 {
            spots.push(spot_with(Vec::new(alloc), PlainLatest::Other))?;
        }
        Ok(PlainGate { grown, spots })
    }

    /// The position of the thread in slot `t`; one that isn't there is between blocks.
    pub fn spot(&self, alloc: Global, t: u32) -> Result<PlainSpot, AllocError>
        ensures { IfOk result (λ spot. spot ≡ spot_at self.now t) }
    {
        if (t as usize) < self.spots.len() {
            let spot = &self.spots[t as usize];
            let left = Vec::from_slice(alloc, &spot.left)?;
            Ok(spot_with(left, spot.latest))
        } else {
            Ok(spot_with(Vec::new(alloc), PlainLatest::Other))
        }
    }

    // What the entries of the thread in slot `t` were lately.
    fn latest(&self, t: u32) -> PlainLatest
        ensures { latest_of result ≡ (spot_at self.now t).latest }
    {
        if (t as usize) < self.spots.len() {
            self.spots[t as usize].latest
        } else {
            PlainLatest::Other
        }
    }

    // The place of a growth is grown.
    fn grow(&mut self, entry: Entry) -> Result<(), AllocError>
        ensures { OnOk result (self.new ≡ record self.old { grown = grown_by entry self.old.grown }) }
    {
        match entry {
            Entry::Grow(_, a) => self.grown.insert(0, a)?,
            Entry::Ev(_, _)
            | Entry::Tick(_, _)
            | Entry::Flush(_)
            | Entry::Wait(_, _)
            | Entry::Miss(_, _, _, _)
            | Entry::Over(_, _)
            | Entry::Full(_)
            | Entry::Dead => {}
        }
        Ok(())
    }

    // A thread's position becomes this one.
    #[tactic(auto, using(crate::proofs::GateWalk::nothing_set))]
    fn set_spot(&mut self, t: u32, spot: PlainSpot)
        ensures { self.new ≡ record self.old { spots = slice_set self.old.spots t spot } }
    {
        if (t as usize) < self.spots.len() {
            self.spots[t as usize] = spot;
        }
    }

    /// The gate after an entry, by what its thread works on before and after it; answers whether it may come.
    #[tactic(auto, using(crate::proofs::GateWalk::passed, crate::proofs::GateWalk::not_stepped, crate::proofs::GateWalk::not_last))]
    pub(crate) fn pass(
        &mut self,
        alloc: Global,
        image: &Image,
        entry: Entry,
        before: Cpu,
        after: Cpu,
    ) -> Result<bool, AllocError>
        ensures { IfOk result (λ b. led_to b self.new ≡ pass image.now entry before after self.old) }
    {
        let spot = self.spot(alloc, slot_in(entry))?;
        let left = Vec::from_slice(alloc, &spot.left)?;
        let mut stand = PlainStand { cpu: before, left };
        if !stand.steps(alloc, image, &self.grown, entry.private_steps())? {
            return Ok(false);
        }
        let Some(last) = spot_last(alloc, image, &self.grown, entry, after, spot, stand)? else {
            return Ok(false);
        };
        self.grow(entry)?;
        self.set_spot(slot_in(entry), last);
        Ok(true)
    }

    /// Whether the rule of growth lets an entry come.
    #[tactic(auto, using(crate::proofs::GateWalk::always))]
    pub(crate) fn allows(
        &self,
        alloc: Global,
        image: &Image,
        entry: Entry,
    ) -> Result<bool, AllocError>
        ensures { IfOk result (λ b. IsTrue b ↔ IsAllowed image.now self.now entry) }
    {
        match entry {
            Entry::Grow(t, a) => is_growth(alloc, image, &self.grown, a, self.latest(slot_of(t))),
            Entry::Ev(_, _)
            | Entry::Tick(_, _)
            | Entry::Flush(_)
            | Entry::Wait(_, _)
            | Entry::Miss(_, _, _, _)
            | Entry::Over(_, _)
            | Entry::Full(_)
            | Entry::Dead => Ok(true),
        }
    }
}
