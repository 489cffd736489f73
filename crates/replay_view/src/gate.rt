//! Where each thread stands in its blocks, and which entries may come.

ghost use Rattle.std.specs.Prelude.{◌≡◌, ◌+◌, ◌<◌, ◌&&◌, ◌==◌, ◌↔◌, ◌⊎◌, if◌then◌else◌, ℕ, true, false, [], ◌∷◌, not, nat_lt, length, slice_set, IfOk, IfSome, IfNone, None, OnOk, OnErr, Some, IsTrue, option_and_then, option_map};
ghost use Rattle.elf_image.specs.Layout.{ImageData};
ghost use Rattle.x86_model.specs.declared.cpu.Cpu.{Cpu as CpuData};
ghost use Rattle.x86_model.specs.Want.{want};
ghost use Rattle.basic_blocks.specs.Places.{instr_at};
ghost use Rattle.basic_blocks.specs.Reach.{is_among};
ghost use Rattle.machine_model.specs.Step.{after_private, answered, privately};
ghost use Rattle.machine_model.specs.Gated.{after_flush, entered, first_gate, gated_step, gated_steps, is_between, may_miss, most_grown, onward, rest_of, spot_at, spot_last, spot_with, within_block, IsAllowed, IsGrowth, IsWithinReach, Growing, Other, Spot};
ghost use Rattle.journal_pack.specs.declared.entry.Entry.TheVariants as entry;
ghost use Rattle.replay_view.specs.Gates.{gate_of, latest_of, left_of, position_of, settled, stand_of};
ghost use Rattle.replay_view.specs.Grown.{led_to};

use crate::grown::{Grown, MOST_GROWN};
use crate::private_step::privately_at;
use crate::reached::Reached;
use crate::rest::Rest;
use address_space::slot_of;
use basic_blocks::{instr_at, is_code_place};
use elf_image::Image;
use machine_model::Entry;
use machine_model::case::Case;
use std::alloc::{AllocError, Global};
use x86_forms::Instr;
use x86_model::Cpu;

/// What a thread's entries were lately.
#[derive(Clone, Copy, Debug)]
pub(crate) enum Lately {
    /// The latest entry other than `Flush` and `Grow` is no miss.
    Other,
    /// It is a miss of this target.
    Missed(u64),
    /// It is one, and all entries since are `Grow`.
    Growing(u64),
}

/// A thread's position: what is left of its block, and what its entries were lately.
#[derive(Clone, Copy, Debug)]
pub(crate) struct Position {
    rest: Rest,
    latest: Lately,
}

/// What a thread works on, and what is left of its block.
#[derive(Clone, Copy, Debug)]
pub(crate) struct Stand {
    cpu: Cpu,
    rest: Rest,
}

/// Where private steps lead a thread, and whether each of them may be made: if one may not, what is left of the block means
/// nothing.
#[derive(Clone, Copy, Debug)]
pub(crate) struct Run {
    stand: Stand,
    gated: bool,
}

/// The places that are grown, and the position of each slot's thread.
#[derive(Drop)]
pub(crate) struct Gate {
    grown: Grown,
    spots: Vec<Position>,
}

// What a thread's entries were lately, after a flush.
fn after_flush(latest: Lately) -> Lately
    ensures { latest_of result ≡ after_flush (latest_of latest) }
{
    match latest {
        Lately::Other => Lately::Other,
        Lately::Missed(target) => Lately::Missed(target),
        Lately::Growing(target) => Lately::Missed(target),
    }
}

// Whether a miss may come, after `k` private steps.
fn may_miss(latest: Lately, k: u32) -> bool
    ensures { result ≡ may_miss (latest_of latest) k }
{
    match latest {
        Lately::Other => true,
        Lately::Missed(_) => k > 0,
        Lately::Growing(_) => k > 0,
    }
}

// Whether the place may be grown: it isn't, and there is room.
fn may_grow(grown: &Grown, a: u64) -> bool
    ensures { result ≡ (not (is_among grown.now a) && nat_lt (length grown.now) most_grown) }
{
    !grown.has(a) && grown.len() < MOST_GROWN
}

// Whether a place may be grown after a miss of `g`.
#[tactic(auto, using(crate::proofs::Growths::growth_of_target, crate::proofs::Growths::growth_of_none, crate::proofs::Growths::growth_of_reach))]
fn is_growth_after(
    alloc: Global,
    reached: &mut Reached<'_>,
    grown: &Grown,
    slot: u32,
    g: u64,
    a: u64,
) -> Result<bool, AllocError>
    ensures is { IfOk result (λ b. IsTrue b ↔ ((a ≡ g) ⊎ (IsTrue (is_among grown.now g) × IsWithinReach reached.old grown.now g a))) }
    ensures same { reached.new ≡ reached.old }
{
    if a == g {
        return Ok(true);
    }
    if !grown.has(g) {
        return Ok(false);
    }
    reached.is_within(alloc, grown, slot, g, a)
}

// Whether a place may be grown, after what a thread's entries were lately.
#[tactic(auto, using(crate::proofs::Growths::no_growth))]
fn is_growth(
    alloc: Global,
    reached: &mut Reached<'_>,
    grown: &Grown,
    slot: u32,
    a: u64,
    latest: Lately,
) -> Result<bool, AllocError>
    ensures is { IfOk result (λ b. IsTrue b ↔ IsGrowth reached.old grown.now a (latest_of latest)) }
    ensures same { reached.new ≡ reached.old }
{
    match latest {
        Lately::Other => Ok(false),
        Lately::Missed(_) => Ok(false),
        Lately::Growing(g) => is_growth_after(alloc, reached, grown, slot, g, a),
    }
}

impl Stand {
    // Enters a grown block, or stays in the one under way; answers whether either may be.
    #[tactic(auto, using(crate::proofs::Blocks::block_entered, crate::proofs::Blocks::block_not_grown, crate::proofs::Blocks::block_under_way, crate::proofs::Blocks::stands_there))]
    fn enter_block(&mut self, image: &Image, grown: &Grown) -> bool
        ensures cpu { self.new.cpu ≡ self.old.cpu }
        ensures entered { led_to result (left_of image.now self.new.rest) ≡ within_block image.now grown.now self.old.cpu.rip (left_of image.now self.old.rest) }
        ensures here { result ≡ true → (self.new.rest.at ≡ self.old.cpu.rip) × (0 < self.new.rest.room) }
    {
        let rip = self.cpu.rip;
        if !self.rest.is_empty(image) {
            return self.rest.is_at(rip);
        }
        if !grown.has(rip) {
            return false;
        }
        self.rest = Rest::block(rip);
        true
    }

    // Stands where a step is made; answers whether one may be.
    #[tactic(auto, using(crate::proofs::Blocks::door_entered, crate::proofs::Blocks::code_entered))]
    fn enter(&mut self, image: &Image, grown: &Grown) -> bool
        ensures cpu { self.new.cpu ≡ self.old.cpu }
        ensures entered { led_to result (left_of image.now self.new.rest) ≡ entered image.now grown.now self.old.cpu.rip (left_of image.now self.old.rest) }
    {
        if is_code_place(image, self.cpu.rip) {
            self.enter_block(image, grown)
        } else {
            self.rest.is_empty(image)
        }
    }

    // The same where an instruction stands.
    #[tactic(auto, using(crate::proofs::Blocks::instr_entered, crate::proofs::Blocks::instr_under_way, crate::proofs::Blocks::stands_there))]
    fn enter_at(&mut self, image: &Image, grown: &Grown, instr: &Instr, len: u8) -> bool
        requires { instr_at image.now self.old.cpu.rip ≡ Some (instr.now, len) }
        ensures cpu { self.new.cpu ≡ self.old.cpu }
        ensures entered { led_to result (left_of image.now self.new.rest) ≡ entered image.now grown.now self.old.cpu.rip (left_of image.now self.old.rest) }
        ensures here { result ≡ true → (self.new.rest.at ≡ self.old.cpu.rip) × (0 < self.new.rest.room) }
    {
        if self.rest.is_at(self.cpu.rip) {
            return true;
        }
        self.enter_block(image, grown)
    }

    // Goes on to the next address, but for an instruction that waits for its second step.
    fn go_past(&mut self, instr: &Instr, len: u8, mid: Option<u64>)
        requires { 0 < self.old.rest.room }
        ensures cpu { self.new.cpu ≡ self.old.cpu }
        ensures rest { (image : ImageData) → instr_at image self.old.rest.at ≡ Some (instr.now, len) → left_of image self.new.rest ≡ onward mid (left_of image self.old.rest) }
    {
        match mid {
            None => self.rest = self.rest.past(instr, len),
            Some(_) => {}
        }
    }

    // A private step of the instruction that stands there, after which the thread works on `next`; answers whether it may be
    // made.
    #[tactic(auto, using(crate::proofs::Blocks::step_made, crate::proofs::Blocks::step_refused))]
    fn step(&mut self, image: &Image, grown: &Grown, instr: &Instr, len: u8, next: Cpu) -> bool
        requires instr { instr_at image.now self.old.cpu.rip ≡ Some (instr.now, len) }
        requires private { privately (want image.now self.old.cpu) ≡ Some next }
        ensures cpu { self.new.cpu ≡ next }
        ensures step { led_to result (stand_of image.now self.new) ≡ gated_step image.now grown.now (stand_of image.now self.old) }
    {
        let entered = self.enter_at(image, grown, instr, len);
        if entered {
            self.go_past(instr, len, next.mid);
        }
        self.cpu = next;
        entered
    }
}

impl Run {
    // One private step, where the thread wants one; answers whether it does.
    #[tactic(auto, using(crate::proofs::Wants::never_at))]
    fn step(&mut self, image: &Image, grown: &Grown) -> bool
        ensures cpu { privately (want image.now self.old.stand.cpu) ≡ led_to result self.new.stand.cpu }
        ensures gated { result ≡ true → led_to self.new.gated (stand_of image.now self.new.stand) ≡ option_and_then (gated_step image.now grown.now) (led_to self.old.gated (stand_of image.now self.old.stand)) }
    {
        let cpu = self.stand.cpu;
        let Some((instr, len)) = instr_at(image, cpu.rip) else {
            return false;
        };
        let Some(next) = privately_at(cpu, instr, len) else {
            return false;
        };
        if self.gated {
            self.gated = self.stand.step(image, grown, &instr, len, next);
        } else {
            self.stand.cpu = next;
        }
        true
    }

    /// Whether each of the steps may be made.
    pub(crate) fn is_gated(&self) -> bool
        ensures { result ≡ self.now.gated }
    {
        self.gated
    }

    /// The registers after them.
    pub(crate) fn cpu(&self) -> Cpu
        ensures { result ≡ self.now.stand.cpu }
    {
        self.stand.cpu
    }

    /// Where they lead.
    pub(crate) fn stand(&self) -> Stand
        ensures { result ≡ self.now.stand }
    {
        self.stand
    }
}

/// Makes so many private steps; none where one of them wouldn't be private.
#[tactic(auto, using(crate::proofs::Blocks::first_run, crate::proofs::Blocks::first_private, crate::proofs::Blocks::one_private, crate::proofs::Blocks::never_private, crate::proofs::Blocks::one_gated))]
pub(crate) fn make_run(image: &Image, grown: &Grown, k: u32, stand: Stand) -> Option<Run>
    ensures cpu { IfSome result (λ x. after_private image.now k stand.cpu ≡ Some x.stand.cpu) }
    ensures gated { IfSome result (λ x. led_to x.gated (stand_of image.now x.stand) ≡ gated_steps image.now grown.now k (stand_of image.now stand)) }
    ensures none { IfNone result (after_private image.now k stand.cpu ≡ None) }
{
    let mut x = Run { stand, gated: true };
    for _k in 0..k {
        if !x.step(image, grown) {
            return None;
        }
    }
    Some(x)
}

// What a miss leaves of its thread's position.
fn after_miss(
    image: &Image,
    grown: &Grown,
    k: u32,
    target: u64,
    latest: Lately,
    rest: Rest,
) -> Option<Position>
    ensures { option_map (position_of image.now) result ≡ (if is_between (left_of image.now rest) && not (is_among grown.now target) && may_miss (latest_of latest) k then Some (spot_with [] (Growing target)) else None) }
{
    if rest.is_empty(image) && !grown.has(target) && may_miss(latest, k) {
        Some(Position {
            rest: Rest::none(),
            latest: Lately::Growing(target),
        })
    } else {
        None
    }
}

// What the want of room for a place leaves of its thread's position.
fn after_full(image: &Image, grown: &Grown, rip: u64, rest: Rest) -> Option<Position>
    ensures { option_map (position_of image.now) result ≡ (if length grown.now == most_grown && is_between (left_of image.now rest) && not (is_among grown.now rip) then Some (spot_with [] Other) else None) }
{
    if grown.len() == MOST_GROWN && rest.is_empty(image) && !grown.has(rip) {
        Some(Position {
            rest: Rest::none(),
            latest: Lately::Other,
        })
    } else {
        None
    }
}

// What an event leaves of its thread's position, its instruction begun.
#[tactic(auto, using(crate::proofs::Blocks::event_begun, crate::proofs::Blocks::event_refused))]
fn after_event(image: &Image, grown: &Grown, stand: Stand) -> Option<Position>
    ensures { (t k : ℕ) (after : CpuData) (spot : Spot) → option_map (position_of image.now) result ≡ spot_last image.now grown.now (entry.Ev t k) (answered after 0) spot (stand_of image.now stand) }
{
    let mut stand = stand;
    if !stand.enter(image, grown) {
        return None;
    }
    Some(Position {
        rest: stand.rest,
        latest: Lately::Other,
    })
}

/// What an entry leaves of its thread's position, the instruction of an event begun, or none where it may not come: `stand`
/// is where its private steps led.
pub(crate) fn spot_last(
    image: &Image,
    grown: &Grown,
    entry: Entry,
    spot: Position,
    stand: Stand,
) -> Option<Position>
    ensures { (after : CpuData) → option_map (position_of image.now) result ≡ spot_last image.now grown.now entry (answered after 0) (position_of image.now spot) (stand_of image.now stand) }
{
    match entry {
        Entry::Ev(_, _) => after_event(image, grown, stand),
        Entry::Tick(_, _) | Entry::Wait(_, _) | Entry::Over(_, _) => Some(Position {
            rest: stand.rest,
            latest: Lately::Other,
        }),
        Entry::Flush(_) => Some(Position {
            rest: stand.rest,
            latest: after_flush(spot.latest),
        }),
        Entry::Miss(_, k, _, target) => {
            after_miss(image, grown, k, target, spot.latest, stand.rest)
        }
        Entry::Grow(_, a) => if may_grow(grown, a) { Some(spot) } else { None },
        Entry::Full(_) => after_full(image, grown, stand.cpu.rip, stand.rest),
        Entry::Dead => Some(spot),
    }
}

impl Position {
    /// The position once the entry's last step has loaded this or is finished.
    pub(crate) fn settled(self, image: &Image, entry: Entry, mid: Option<u64>) -> Position
        ensures { position_of image.now result ≡ settled entry mid (position_of image.now self) }
    {
        match entry {
            Entry::Ev(_, _) if mid.is_none() => Position {
                rest: self.rest.after(image),
                latest: self.latest,
            },
            _ => self,
        }
    }

    /// A thread with these registers, at this position.
    pub(crate) fn standing(self, cpu: Cpu) -> Stand
        ensures stand { (image : ImageData) → stand_of image result ≡ record { cpu = cpu; left = (position_of image self).left } }
        ensures cpu { result.cpu ≡ cpu }
    {
        Stand {
            cpu,
            rest: self.rest,
        }
    }
}

impl Gate {
    /// Before the first entry.
    #[tactic(auto, using(crate::proofs::Positions::one_more))]
    pub(crate) fn start(alloc: Global, case: &Case) -> Result<Gate, AllocError>
        ensures { IfOk result (λ g. gate_of case.now.image g ≡ first_gate case.now) }
    {
        let grown = Grown::make(alloc, case.first())?;
        let mut spots = Vec::with_capacity(alloc, 64)?;
        for _ in 0..64u32 {
            spots.push(Position {
                rest: Rest::none(),
                latest: Lately::Other,
            })?;
        }
        Ok(Gate { grown, spots })
    }

    /// The grown places.
    pub(crate) fn grown(&self) -> &Grown
        ensures { result.now ≡ self.now.grown }
    {
        &self.grown
    }

    /// The position of the thread in slot `t`.
    #[tactic(auto, using(crate::proofs::Positions::position_there, crate::proofs::Positions::no_position))]
    pub(crate) fn spot(&self, t: u32) -> Position
        ensures { (image : ImageData) → position_of image result ≡ spot_at (gate_of image self.now) t }
    {
        if (t as usize) < self.spots.len() {
            self.spots[t as usize]
        } else {
            Position {
                rest: Rest::none(),
                latest: Lately::Other,
            }
        }
    }

    /// The place is grown. Without memory nothing changes.
    pub(crate) fn grow(&mut self, a: u64) -> Result<(), AllocError>
        ensures grown { OnOk result ((image : ImageData) → gate_of image self.new ≡ record (gate_of image self.old) { grown = a ∷ self.old.grown }) }
        ensures err { OnErr result (self.new ≡ self.old) }
    {
        self.grown.grow(a)
    }

    /// A thread's position becomes this one.
    #[tactic(auto, using(crate::proofs::Positions::position_set, crate::proofs::Positions::nothing_set))]
    pub(crate) fn set_spot(&mut self, t: u32, spot: Position)
        ensures { (image : ImageData) → gate_of image self.new ≡ record (gate_of image self.old) { spots = slice_set (gate_of image self.old).spots t (position_of image spot) } }
    {
        if (t as usize) < self.spots.len() {
            self.spots[t as usize] = spot;
        }
    }

    /// Whether the rule of growth lets an entry come.
    #[tactic(auto, using(crate::proofs::Growths::always))]
    pub(crate) fn allows(
        &self,
        alloc: Global,
        reached: &mut Reached<'_>,
        entry: Entry,
    ) -> Result<bool, AllocError>
        ensures is { IfOk result (λ b. IsTrue b ↔ IsAllowed reached.old (gate_of reached.old self.now) entry) }
        ensures same { reached.new ≡ reached.old }
    {
        match entry {
            Entry::Grow(t, a) => {
                let slot = slot_of(t);
                is_growth(alloc, reached, &self.grown, slot, a, self.spot(slot).latest)
            }
            Entry::Ev(_, _)
            | Entry::Tick(_, _)
            | Entry::Flush(_)
            | Entry::Wait(_, _)
            | Entry::Miss(_, _, _, _)
            | Entry::Over(_, _)
            | Entry::Full(_)
            | Entry::Dead => Ok(true),
        }
    }
}
