//! Turns of the serial order: one function for each definition.
//!
//! Each answers whether there is what its definition tells: an entry that is no step or may not come leaves none.

ghost use Rattle.std.specs.Prelude.{◌≡◌, ◌++◌, ◌∷◌, ◌+◌, ◌<◌, ◌≤◌, ◌^◌, [], false, length, map, nat_le, option_map, IfErr, IfOk, IsTrue, OnOk};
ghost use Rattle.machine_model.specs.Gated.{begin, gated_step, most_grown, rest_of};
ghost use Rattle.machine_model.specs.Serial.{AreReaches, Reaches, act, after_miss, aged, event, flush, flush_old, flush_some, flushed_before, full_or, grow_all, grow_reach, is_missing, is_over, make, miss, next_point, point_of, point_on, rule_at, settle, stop_from, told_waiting, turn, turn_from, ungrown, with_new};
ghost use Rattle.machine_plain.specs.PlainGates.{led_to};
ghost use Rattle.serial_plain.specs.PlainSerial.{AreYoung, FaultsOnTheWay, IsPlayed, acts, evented, has_old, point_as, rule_as, turn_as};

use crate::walk::{
    copied, cpu_of, ending, grown, is_below, is_between, is_live, stand, waiting, waits_at,
};
use address_space::slot_of;
use basic_blocks::is_code_place;
use elf_image::Image;
use machine_model::Entry;
use machine_model::case::Case;
use machine_plain::{PlainFault, PlainStand, PlainWalk, has, next_want, privately, reach_plain};
use std::alloc::{AllocError, Global};
use x86_model::Want;

// How many private steps an entry begins with at most.
const MOST_PRIVATE: u32 = 4096;

// How many places may be grown.
const MOST_GROWN: u64 = 65536;

/// A turn under way: the machine and the gate, all entries so far, the ages of the thread's waiting writes, the oldest
/// first, and whether it came to a call that waits.
#[derive(Drop)]
pub(crate) struct PlainTurn {
    pub(crate) walk: PlainWalk,
    pub(crate) journal: Vec<Entry>,
    pub(crate) ages: Vec<u64>,
    pub(crate) waiting: bool,
}

/// A thread some private steps after its last entry.
#[derive(Drop)]
pub(crate) struct PlainPoint {
    k: u32,
    stand: PlainStand,
}

/// The first rule of a turn that holds at a point, or none.
#[derive(Clone, Copy, Debug)]
pub(crate) enum PlainRule {
    AtLimit,
    AtMiss,
    AtMost,
    AtEvent,
    GoesOn,
}

// How many of `n` writes go to memory before a step that isn't private.
fn flushed_before(want: Want, n: u64) -> u64
    ensures { result ≡ flushed_before want n }
{
    match want {
        Want::Store { .. } => { if n >= 64 { 1 } else { 0 } }
        Want::Fence(_) | Want::Locked { .. } | Want::Call(_) | Want::Door(_) => n,
        Want::Private(_) | Want::Load { .. } | Want::Bad(_) => 0,
    }
}

// Those of the places that aren't grown.
#[tactic(auto, using(crate::proofs::SerialPlain::ungrown_yes, crate::proofs::SerialPlain::ungrown_no, crate::proofs::SerialPlain::ungrown_all))]
fn ungrown(alloc: Global, grown: &[u64], places: &[u64]) -> Result<Vec<u64>, AllocError>
    ensures { IfOk result (λ more. more.items ≡ ungrown grown.now places.now) }
{
    let mut more = Vec::new(alloc);
    for a in places {
        if !has(grown, *a) {
            more.push(*a)?;
        }
    }
    Ok(more)
}

// Each of the ages, one turn later.
fn older(alloc: Global, ages: &[u64]) -> Result<Vec<u64>, AllocError>
    requires { AreYoung (2 ^ 63) ages.now }
    ensures { IfOk result (λ more. more.items ≡ map (λ a. a + 1) ages.now) }
{
    let mut more = Vec::new(alloc);
    for a in ages {
        let next = *a + 1;
        more.push(next)?;
    }
    Ok(more)
}

// Whether a thread stands at the start of a code place that isn't grown.
fn is_missing(image: &Image, grown: &[u64], stand: &PlainStand) -> bool
    ensures { result ≡ is_missing image.now grown.now stand.now }
{
    let rip = cpu_of(stand).rip;
    is_code_place(image, rip) && is_between(stand) && !has(grown, rip)
}

// The first rule that holds at a point.
#[tactic(auto, using(crate::proofs::SerialPlain::rule_limit, crate::proofs::SerialPlain::rule_miss, crate::proofs::SerialPlain::rule_most, crate::proofs::SerialPlain::rule_event))]
fn rule_at(case: &Case, walk: &PlainWalk, point: &PlainPoint) -> PlainRule
    ensures { rule_as result ≡ rule_at case.now walk.now (point_as point.now) }
{
    if !is_below(walk, case.limit, point.k) {
        return PlainRule::AtLimit;
    }
    if is_missing(case.image(), grown(walk), &point.stand) {
        return PlainRule::AtMiss;
    }
    if point.k == MOST_PRIVATE {
        return PlainRule::AtMost;
    }
    match privately(next_want(case.image(), cpu_of(&point.stand))) {
        None => PlainRule::AtEvent,
        Some(_) => PlainRule::GoesOn,
    }
}

// One private step more, where it may be made.
#[tactic(auto, using(crate::proofs::SerialPlain::stepped_on, crate::proofs::SerialPlain::not_stepped_on))]
fn point_on(
    alloc: Global,
    image: &Image,
    grown: &[u64],
    point: &PlainPoint,
) -> Result<Option<PlainPoint>, AllocError>
    requires { point.now.k < 4096 }
    ensures { IfOk result (λ next. option_map point_as next ≡ point_on (point.now.k + 1) (gated_step image.now grown.now point.now.stand)) }
{
    let mut stand = copied(alloc, &point.stand)?;
    if !stand.step(alloc, image, grown)? {
        return Ok(None);
    }
    Ok(Some(PlainPoint {
        k: point.k + 1,
        stand,
    }))
}

// One private step more, where no rule holds.
#[tactic(auto, using(crate::proofs::SerialPlain::next_there))]
fn next_point(
    alloc: Global,
    case: &Case,
    walk: &PlainWalk,
    point: &PlainPoint,
) -> Result<Option<PlainPoint>, AllocError>
    requires { point.now.k < 4096 }
    ensures { IfOk result (λ next. option_map point_as next ≡ next_point case.now walk.now (point_as point.now)) }
{
    match rule_at(case, walk, point) {
        PlainRule::GoesOn => point_on(alloc, case.image(), grown(walk), point),
        PlainRule::AtLimit => Ok(None),
        PlainRule::AtMiss => Ok(None),
        PlainRule::AtMost => Ok(None),
        PlainRule::AtEvent => Ok(None),
    }
}

// The first point at which a rule holds, from the end of a thread's last entry on; at most 4,096 private steps further.
#[tactic(auto, using(crate::proofs::SerialPlain::stop_goes_on, crate::proofs::SerialPlain::stop_here, crate::proofs::SerialPlain::stop_last))]
fn stop(alloc: Global, case: &Case, walk: &PlainWalk, t: u32) -> Result<PlainPoint, AllocError>
    ensures { IfOk result (λ p. point_as p ≡ stop_from case.now walk.now 4096 (point_of walk.now t)) }
{
    let mut point = PlainPoint {
        k: 0,
        stand: stand(alloc, walk, slot_of(t))?,
    };
    for _ in 0..MOST_PRIVATE {
        let Some(next) = next_point(alloc, case, walk, &point)? else {
            return Ok(point);
        };
        point = next;
    }
    Ok(point)
}

impl PlainTurn {
    // Before the first entry of a run.
    #[tactic(auto, using(crate::proofs::SerialPlain::start_fault))]
    pub(crate) fn start(alloc: Global, case: &Case) -> Result<PlainTurn, PlainFault>
        ensures start { IfOk result (λ s. turn_as s ≡ record { both = begin case.now; journal = []; ages = []; waiting = false }) }
        ensures fault { IfErr result (FaultsOnTheWay case.now) }
    {
        let walk = PlainWalk::start(alloc, case)?;
        Ok(PlainTurn {
            walk,
            journal: Vec::new(alloc),
            ages: Vec::new(alloc),
            waiting: false,
        })
    }

    // A turn begins with these ages.
    pub(crate) fn begin(&mut self, ages: Vec<u64>)
        ensures { turn_as self.new ≡ record (turn_as self.old) { ages = ages.items; waiting = false } }
    {
        self.ages = ages;
        self.waiting = false;
    }

    // The journal has one more entry.
    fn add_entry(&mut self, e: Entry) -> Result<(), AllocError>
        ensures { OnOk result (turn_as self.new ≡ record (turn_as self.old) { journal = (turn_as self.old).journal ++ e ∷ [] }) }
    {
        self.journal.push(e)?;
        Ok(())
    }

    // An entry is made, if it may come.
    #[tactic(auto, using(crate::proofs::SerialPlain::made, crate::proofs::SerialPlain::not_made, crate::proofs::SerialPlain::made_played, crate::proofs::SerialPlain::turn_serves, crate::proofs::SerialPlain::turn_fault))]
    pub(crate) fn make(&mut self, alloc: Global, case: &Case, e: Entry) -> Result<bool, PlainFault>
        requires limit { case.now.limit ≤ 2 ^ 27 }
        requires played { IsPlayed case.now (turn_as self.old) }
        ensures made { IfOk result (λ b. led_to b (turn_as self.new) ≡ make case.now e (turn_as self.old)) }
        ensures played { IfOk result (λ b. IsTrue b → IsPlayed case.now (turn_as self.new)) }
        ensures fault { IfErr result (FaultsOnTheWay case.now) }
    {
        if !self.walk.advance(alloc, case, e)? {
            return Ok(false);
        }
        self.add_entry(e)?;
        Ok(true)
    }

    // The oldest age is gone, if there is one.
    #[tactic(auto, using(machine_plain::proofs::GateWalk::first_left, machine_plain::proofs::GateWalk::none_to_leave))]
    fn drop_age(&mut self)
        ensures { turn_as self.new ≡ record (turn_as self.old) { ages = rest_of (turn_as self.old).ages } }
    {
        if !self.ages.is_empty() {
            let _gone = self.ages.remove(0);
        }
    }

    // The oldest waiting write goes to memory.
    fn flush(&mut self, alloc: Global, case: &Case, t: u32) -> Result<bool, PlainFault>
        requires limit { case.now.limit ≤ 2 ^ 27 }
        requires played { IsPlayed case.now (turn_as self.old) }
        ensures made { IfOk result (λ b. led_to b (turn_as self.new) ≡ flush case.now t (turn_as self.old)) }
        ensures played { IfOk result (λ b. IsTrue b → IsPlayed case.now (turn_as self.new)) }
        ensures fault { IfErr result (FaultsOnTheWay case.now) }
    {
        self.drop_age();
        self.make(alloc, case, Entry::Flush(t))
    }

    // The n oldest waiting writes go to memory.
    #[tactic(auto, using(crate::proofs::SerialPlain::flushed_on, crate::proofs::SerialPlain::flushed_not, crate::proofs::SerialPlain::flushed_all))]
    fn flush_some(&mut self, alloc: Global, case: &Case, t: u32, n: u64) -> Result<bool, PlainFault>
        requires limit { case.now.limit ≤ 2 ^ 27 }
        requires played { IsPlayed case.now (turn_as self.old) }
        ensures made { IfOk result (λ b. led_to b (turn_as self.new) ≡ flush_some case.now t n (turn_as self.old)) }
        ensures played { IfOk result (λ b. IsTrue b → IsPlayed case.now (turn_as self.new)) }
        ensures fault { IfErr result (FaultsOnTheWay case.now) }
    {
        for _ in 0..n {
            if !self.flush(alloc, case, t)? {
                return Ok(false);
            }
        }
        Ok(true)
    }

    // A write that is stored is new.
    fn add_age(&mut self, want: Want) -> Result<(), AllocError>
        ensures { OnOk result (turn_as self.new ≡ record (turn_as self.old) { ages = with_new want (turn_as self.old).ages }) }
    {
        if let Want::Store { .. } = want {
            self.ages.push(0)?;
        }
        Ok(())
    }

    // A call that waits ends the turn; the private steps before it are told.
    #[tactic(auto, using(crate::proofs::SerialPlain::told_none, crate::proofs::SerialPlain::told_some))]
    fn tell_waiting(
        &mut self,
        alloc: Global,
        case: &Case,
        t: u32,
        k: u32,
    ) -> Result<bool, PlainFault>
        requires limit { case.now.limit ≤ 2 ^ 27 }
        requires played { IsPlayed case.now (turn_as self.old) }
        ensures made { IfOk result (λ b. led_to b (turn_as self.new) ≡ told_waiting case.now t k (turn_as self.old)) }
        ensures played { IfOk result (λ b. IsTrue b → IsPlayed case.now (turn_as self.new)) }
        ensures fault { IfErr result (FaultsOnTheWay case.now) }
    {
        self.waiting = true;
        if k == 0 {
            return Ok(true);
        }
        self.make(alloc, case, Entry::Wait(t, k))
    }

    // A step that isn't private, or a call that waits.
    #[tactic(auto, using(crate::proofs::SerialPlain::event_waits, crate::proofs::SerialPlain::event_made))]
    fn event(
        &mut self,
        alloc: Global,
        case: &Case,
        t: u32,
        point: &PlainPoint,
    ) -> Result<bool, PlainFault>
        requires limit { case.now.limit ≤ 2 ^ 27 }
        requires played { IsPlayed case.now (turn_as self.old) }
        ensures made { IfOk result (λ b. led_to b (turn_as self.new) ≡ event case.now t (point_as point.now) (turn_as self.old)) }
        ensures played { IfOk result (λ b. IsTrue b → IsPlayed case.now (turn_as self.new)) }
        ensures fault { IfErr result (FaultsOnTheWay case.now) }
    {
        let cpu = cpu_of(&point.stand);
        if waits_at(&self.walk, case.image(), t, cpu) {
            return self.tell_waiting(alloc, case, t, point.k);
        }
        self.add_age(next_want(case.image(), cpu))?;
        self.make(alloc, case, Entry::Ev(t, point.k))
    }

    // The writes that must be in memory go there, and the step that isn't private is made.
    #[tactic(auto, using(crate::proofs::SerialPlain::flushed_then, crate::proofs::SerialPlain::flushed_none))]
    fn flush_and_event(
        &mut self,
        alloc: Global,
        case: &Case,
        t: u32,
        point: &PlainPoint,
    ) -> Result<bool, PlainFault>
        requires limit { case.now.limit ≤ 2 ^ 27 }
        requires played { IsPlayed case.now (turn_as self.old) }
        ensures made { IfOk result (λ b. led_to b (turn_as self.new) ≡ evented case.now t (point_as point.now) (turn_as self.old)) }
        ensures played { IfOk result (λ b. IsTrue b → IsPlayed case.now (turn_as self.new)) }
        ensures fault { IfErr result (FaultsOnTheWay case.now) }
    {
        let waiting = waiting(&self.walk, slot_of(t));
        let n = flushed_before(next_want(case.image(), cpu_of(&point.stand)), waiting);
        if !self.flush_some(alloc, case, t, n)? {
            return Ok(false);
        }
        self.event(alloc, case, t, point)
    }

    // Growth of places in order.
    #[tactic(auto, using(crate::proofs::SerialPlain::grown_on, crate::proofs::SerialPlain::grown_not, crate::proofs::SerialPlain::grown_all))]
    fn grow_all(
        &mut self,
        alloc: Global,
        case: &Case,
        t: u32,
        places: &[u64],
    ) -> Result<bool, PlainFault>
        requires limit { case.now.limit ≤ 2 ^ 27 }
        requires played { IsPlayed case.now (turn_as self.old) }
        ensures made { IfOk result (λ b. led_to b (turn_as self.new) ≡ grow_all case.now t places.now (turn_as self.old)) }
        ensures played { IfOk result (λ b. IsTrue b → IsPlayed case.now (turn_as self.new)) }
        ensures fault { IfErr result (FaultsOnTheWay case.now) }
    {
        for a in places {
            if !self.make(alloc, case, Entry::Grow(t, *a))? {
                return Ok(false);
            }
        }
        Ok(true)
    }

    // All that isn't grown of these places, where it fits.
    #[tactic(auto, using(crate::proofs::SerialPlain::reach_fits))]
    fn grow_reach(
        &mut self,
        alloc: Global,
        case: &Case,
        t: u32,
        places: &[u64],
    ) -> Result<bool, PlainFault>
        requires limit { case.now.limit ≤ 2 ^ 27 }
        requires played { IsPlayed case.now (turn_as self.old) }
        ensures made { IfOk result (λ b. led_to b (turn_as self.new) ≡ grow_reach case.now t places.now (turn_as self.old)) }
        ensures played { IfOk result (λ b. IsTrue b → IsPlayed case.now (turn_as self.new)) }
        ensures fault { IfErr result (FaultsOnTheWay case.now) }
    {
        let more = ungrown(alloc, grown(&self.walk), places)?;
        if !fits(grown(&self.walk), &more) {
            return Ok(true);
        }
        self.grow_all(alloc, case, t, &more)
    }

    // The target of a miss and what is reached from it are grown.
    #[tactic(auto, using(crate::proofs::SerialPlain::target_grown, crate::proofs::SerialPlain::target_not, crate::proofs::SerialPlain::reach_told))]
    fn grow_target(
        &mut self,
        alloc: Global,
        case: &Case,
        t: u32,
        g: u64,
    ) -> Result<bool, PlainFault>
        requires limit { case.now.limit ≤ 2 ^ 27 }
        requires played { IsPlayed case.now (turn_as self.old) }
        ensures made { IfOk result (λ b. (reach : Reaches) → AreReaches case.now.image reach → led_to b (turn_as self.new) ≡ full_or case.now reach t g (turn_as self.old) false) }
        ensures played { IfOk result (λ b. IsTrue b → IsPlayed case.now (turn_as self.new)) }
        ensures fault { IfErr result (FaultsOnTheWay case.now) }
    {
        if !self.make(alloc, case, Entry::Grow(t, g))? {
            return Ok(false);
        }
        let places = reach_plain(alloc, case.image(), g)?;
        self.grow_reach(alloc, case, t, &places)
    }

    // After a miss that doesn't end the run: the target is grown, or there is no room for it.
    #[tactic(auto, using(crate::proofs::SerialPlain::full_by))]
    fn grow_or_end(
        &mut self,
        alloc: Global,
        case: &Case,
        t: u32,
        g: u64,
    ) -> Result<bool, PlainFault>
        requires limit { case.now.limit ≤ 2 ^ 27 }
        requires played { IsPlayed case.now (turn_as self.old) }
        ensures made { IfOk result (λ b. (reach : Reaches) → AreReaches case.now.image reach → led_to b (turn_as self.new) ≡ after_miss case.now reach t g false (turn_as self.old)) }
        ensures played { IfOk result (λ b. IsTrue b → IsPlayed case.now (turn_as self.new)) }
        ensures fault { IfErr result (FaultsOnTheWay case.now) }
    {
        if grown(&self.walk).len() as u64 == MOST_GROWN {
            return self.make(alloc, case, Entry::Full(t));
        }
        self.grow_target(alloc, case, t, g)
    }

    // A miss, and what follows it.
    #[tactic(auto, using(crate::proofs::SerialPlain::missed, crate::proofs::SerialPlain::not_missed))]
    fn miss(
        &mut self,
        alloc: Global,
        case: &Case,
        t: u32,
        point: &PlainPoint,
    ) -> Result<bool, PlainFault>
        requires limit { case.now.limit ≤ 2 ^ 27 }
        requires played { IsPlayed case.now (turn_as self.old) }
        ensures made { IfOk result (λ b. (reach : Reaches) → AreReaches case.now.image reach → led_to b (turn_as self.new) ≡ miss case.now reach t (point_as point.now) (turn_as self.old)) }
        ensures played { IfOk result (λ b. IsTrue b → IsPlayed case.now (turn_as self.new)) }
        ensures fault { IfErr result (FaultsOnTheWay case.now) }
    {
        let cpu = cpu_of(&point.stand);
        if !self.make(alloc, case, Entry::Miss(t, point.k, cpu.last, cpu.rip))? {
            return Ok(false);
        }
        if case.strict {
            return Ok(true);
        }
        self.grow_or_end(alloc, case, t, cpu.rip)
    }

    // What a thread does at a point where a rule holds.
    fn act(
        &mut self,
        alloc: Global,
        case: &Case,
        t: u32,
        point: &PlainPoint,
        rule: PlainRule,
    ) -> Result<bool, PlainFault>
        requires limit { case.now.limit ≤ 2 ^ 27 }
        requires played { IsPlayed case.now (turn_as self.old) }
        ensures made { IfOk result (λ b. (reach : Reaches) → AreReaches case.now.image reach → led_to b (turn_as self.new) ≡ act case.now reach t (point_as point.now) (turn_as self.old) (rule_as rule)) }
        ensures played { IfOk result (λ b. IsTrue b → IsPlayed case.now (turn_as self.new)) }
        ensures fault { IfErr result (FaultsOnTheWay case.now) }
    {
        match rule {
            PlainRule::AtLimit => self.make(alloc, case, Entry::Over(t, point.k)),
            PlainRule::AtMiss => self.miss(alloc, case, t, point),
            PlainRule::AtMost => self.make(alloc, case, Entry::Tick(t, point.k)),
            PlainRule::AtEvent => self.flush_and_event(alloc, case, t, point),
            PlainRule::GoesOn => Ok(false),
        }
    }

    // Whether the turn is over before its budget is: the run has an ending, the thread doesn't live any more, or it came
    // to a call that waits.
    fn is_over(&self, t: u32) -> bool
        ensures { result ≡ is_over t (turn_as self.now) }
    {
        self.waiting || ending(&self.walk).is_some() || !is_live(&self.walk, t)
    }

    // One entry that costs, with those that come with it.
    #[tactic(auto, using(crate::proofs::SerialPlain::acted))]
    fn go_on(&mut self, alloc: Global, case: &Case, t: u32) -> Result<bool, PlainFault>
        requires limit { case.now.limit ≤ 2 ^ 27 }
        requires played { IsPlayed case.now (turn_as self.old) }
        ensures made { IfOk result (λ b. (reach : Reaches) → AreReaches case.now.image reach → led_to b (turn_as self.new) ≡ acts case.now reach t (turn_as self.old)) }
        ensures played { IfOk result (λ b. IsTrue b → IsPlayed case.now (turn_as self.new)) }
        ensures fault { IfErr result (FaultsOnTheWay case.now) }
    {
        let point = stop(alloc, case, &self.walk, t)?;
        let rule = rule_at(case, &self.walk, &point);
        self.act(alloc, case, t, &point, rule)
    }

    // Entries of the turn's budget.
    #[tactic(auto, using(crate::proofs::SerialPlain::budget_on, crate::proofs::SerialPlain::budget_over, crate::proofs::SerialPlain::budget_not, crate::proofs::SerialPlain::budget_spent))]
    fn turn_from(&mut self, alloc: Global, case: &Case, t: u32, n: u64) -> Result<bool, PlainFault>
        requires limit { case.now.limit ≤ 2 ^ 27 }
        requires played { IsPlayed case.now (turn_as self.old) }
        ensures made { IfOk result (λ b. (reach : Reaches) → AreReaches case.now.image reach → led_to b (turn_as self.new) ≡ turn_from case.now reach t n (point_of self.old.walk t) (turn_as self.old)) }
        ensures played { IfOk result (λ b. IsTrue b → IsPlayed case.now (turn_as self.new)) }
        ensures fault { IfErr result (FaultsOnTheWay case.now) }
    {
        for _ in 0..n {
            if !self.go_on(alloc, case, t)? {
                return Ok(false);
            }
            if self.is_over(t) {
                return Ok(true);
            }
        }
        Ok(true)
    }

    // Each waiting write is one turn older.
    fn grow_older(&mut self, alloc: Global) -> Result<(), AllocError>
        requires { AreYoung (2 ^ 63) (turn_as self.old).ages }
        ensures { OnOk result (turn_as self.new ≡ aged (turn_as self.old)) }
    {
        let ages = older(alloc, &self.ages)?;
        self.ages = ages;
        Ok(())
    }

    // Whether the oldest write waits for too long.
    #[tactic(auto, using(crate::proofs::SerialPlain::old_none, crate::proofs::SerialPlain::old_first))]
    fn has_old(&self, hold: u64) -> bool
        ensures { result ≡ has_old hold (turn_as self.now).ages }
    {
        if self.ages.is_empty() {
            return false;
        }
        hold < self.ages[0]
    }

    // The oldest writes go to memory while they are too old.
    #[tactic(auto)]
    fn flush_old(
        &mut self,
        alloc: Global,
        case: &Case,
        t: u32,
        hold: u64,
    ) -> Result<bool, PlainFault>
        requires limit { case.now.limit ≤ 2 ^ 27 }
        requires played { IsPlayed case.now (turn_as self.old) }
        ensures made { IfOk result (λ b. led_to b (turn_as self.new) ≡ flush_old case.now t hold (turn_as self.old).ages (turn_as self.old)) }
        ensures played { IfOk result (λ b. IsTrue b → IsPlayed case.now (turn_as self.new)) }
        ensures fault { IfErr result (FaultsOnTheWay case.now) }
    {
        while self.has_old(hold) {
            if !self.flush(alloc, case, t)? {
                return Ok(false);
            }
        }
        Ok(true)
    }

    // The end of a turn: where the run goes on, its writes grow older, and those that are too old go to memory.
    #[tactic(auto, using(crate::proofs::SerialPlain::settles))]
    fn settle(&mut self, alloc: Global, case: &Case, t: u32, hold: u64) -> Result<bool, PlainFault>
        requires limit { case.now.limit ≤ 2 ^ 27 }
        requires played { IsPlayed case.now (turn_as self.old) }
        requires young { AreYoung (2 ^ 63) (turn_as self.old).ages }
        ensures made { IfOk result (λ b. led_to b (turn_as self.new) ≡ settle case.now t hold (turn_as self.old)) }
        ensures played { IfOk result (λ b. IsTrue b → IsPlayed case.now (turn_as self.new)) }
        ensures fault { IfErr result (FaultsOnTheWay case.now) }
    {
        if ending(&self.walk).is_some() {
            return Ok(true);
        }
        self.grow_older(alloc)?;
        self.flush_old(alloc, case, t, hold)
    }

    // A turn of thread `t`, from its last entry on.
    #[tactic(auto, using(crate::proofs::SerialPlain::turn_then, crate::proofs::SerialPlain::turn_none, crate::proofs::Young::turn_from_young))]
    pub(crate) fn turn(
        &mut self,
        alloc: Global,
        case: &Case,
        t: u32,
        budget: u64,
        hold: u64,
    ) -> Result<bool, PlainFault>
        requires limit { case.now.limit ≤ 2 ^ 27 }
        requires played { IsPlayed case.now (turn_as self.old) }
        requires young { AreYoung (2 ^ 63) (turn_as self.old).ages }
        ensures made { IfOk result (λ b. (reach : Reaches) → AreReaches case.now.image reach → led_to b (turn_as self.new) ≡ turn case.now reach (record { turn = budget; hold = hold }) t (point_of self.old.walk t) (turn_as self.old)) }
        ensures played { IfOk result (λ b. IsTrue b → IsPlayed case.now (turn_as self.new)) }
        ensures fault { IfErr result (FaultsOnTheWay case.now) }
    {
        if !self.turn_from(alloc, case, t, budget)? {
            return Ok(false);
        }
        self.settle(alloc, case, t, hold)
    }
}

// Whether the grown places and these together aren't too many.
#[tactic(auto, using(crate::proofs::SerialPlain::fit_together, crate::proofs::SerialPlain::too_many))]
fn fits(grown: &[u64], more: &[u64]) -> bool
    ensures { result ≡ nat_le (length grown.now + length more.now) most_grown }
{
    let before = grown.len() as u64;
    before <= MOST_GROWN && more.len() as u64 <= MOST_GROWN - before
}
