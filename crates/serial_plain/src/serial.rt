//! The serial order: rounds in which the slots come in turn.

ghost use Rattle.std.specs.Prelude.{◌≡◌, ◌+◌, ◌<◌, ◌≤◌, ◌^◌, [], map, replicate, IfErr, IfOk, IfSome, IsTrue, Some};
ghost use Rattle.machine_model.specs.Play.{walk};
ghost use Rattle.machine_model.specs.Serial.{AreReaches, IsSerial, Reaches, at_start, one_turn, round, rounds, serial_by, turn_of};
ghost use Rattle.machine_model.specs.State.{slots};
ghost use Rattle.machine_plain.specs.PlainGates.{led_to};
ghost use Rattle.serial_plain.specs.PlainSerial.{FaultsOnTheWay, IsRun, Tells, run_as};

use crate::turns::PlainTurn;
use crate::walk::{ending, into_machine, thread_in};
use machine_model::Entry;
use machine_model::case::Case;
use machine_plain::{PlainFault, PlainMachine};
use std::alloc::{AllocError, Global};

/// A run under way: the machine, the gate and all entries so far, and for each slot the ages of its thread's waiting
/// writes.
#[derive(Drop)]
pub(crate) struct PlainRun {
    turn: PlainTurn,
    ages: Vec<Vec<u64>>,
}

/// A serial run to its end: the journal, and the machine after it.
#[derive(Drop)]
pub struct PlainSerial {
    pub journal: Vec<Entry>,
    pub machine: PlainMachine,
}

// No write waits in any slot.
fn no_ages(alloc: Global) -> Result<Vec<Vec<u64>>, AllocError>
    ensures { IfOk result (λ ages. map (λ v. v.items) ages.items ≡ replicate 64 []) }
{
    let mut ages = Vec::with_capacity(alloc, 64)?;
    for _ in 0..64u32 {
        ages.push(Vec::new(alloc))?;
    }
    Ok(ages)
}

impl PlainRun {
    // Before the first round.
    fn start(alloc: Global, case: &Case) -> Result<PlainRun, PlainFault>
        ensures start { IfOk result (λ run. run_as run ≡ at_start case.now) }
        ensures fault { IfErr result (FaultsOnTheWay case.now) }
    {
        let ages = no_ages(alloc)?;
        let turn = PlainTurn::start(alloc, case)?;
        Ok(PlainRun { turn, ages })
    }

    // The turn of thread `t` in its slot; `count` turns were made at most.
    fn take_turn(
        &mut self,
        alloc: Global,
        case: &Case,
        s: u32,
        t: u32,
        budget: u64,
        hold: u64,
        count: u64,
    ) -> Result<bool, PlainFault>
        requires slot { s < 64 }
        requires limit { case.now.limit ≤ 2 ^ 27 }
        requires count { count < 2 ^ 62 }
        requires run { IsRun case.now count (run_as self.old) }
        ensures made { IfOk result (λ b. (reach : Reaches) → AreReaches case.now.image reach → led_to b (run_as self.new) ≡ turn_of case.now reach (record { turn = budget; hold = hold }) (run_as self.old) s (Some t)) }
        ensures run { IfOk result (λ b. IsTrue b → IsRun case.now (count + 1) (run_as self.new)) }
        ensures fault { IfErr result (FaultsOnTheWay case.now) }
    {
        let ages = Vec::from_slice(alloc, &self.ages[s as usize])?;
        self.turn.begin(ages);
        if !self.turn.turn(alloc, case, t, budget, hold)? {
            return Ok(false);
        }
        let ages = Vec::from_slice(alloc, &self.turn.ages)?;
        self.ages[s as usize] = ages;
        Ok(true)
    }

    // The turn of the thread that lives in a slot, if the run goes on and one does.
    fn one_turn(
        &mut self,
        alloc: Global,
        case: &Case,
        s: u32,
        budget: u64,
        hold: u64,
        count: u64,
    ) -> Result<bool, PlainFault>
        requires slot { s < 64 }
        requires limit { case.now.limit ≤ 2 ^ 27 }
        requires count { count < 2 ^ 62 }
        requires run { IsRun case.now count (run_as self.old) }
        ensures made { IfOk result (λ b. (reach : Reaches) → AreReaches case.now.image reach → led_to b (run_as self.new) ≡ one_turn case.now reach (record { turn = budget; hold = hold }) (run_as self.old) s) }
        ensures run { IfOk result (λ b. IsTrue b → IsRun case.now (count + 1) (run_as self.new)) }
        ensures fault { IfErr result (FaultsOnTheWay case.now) }
    {
        if ending(&self.turn.walk).is_some() {
            return Ok(true);
        }
        match thread_in(&self.turn.walk, s) {
            Some(t) => self.take_turn(alloc, case, s, t, budget, hold, count),
            None => Ok(true),
        }
    }

    // The turns of all slots in order.
    fn turns(
        &mut self,
        alloc: Global,
        case: &Case,
        budget: u64,
        hold: u64,
        count: u64,
    ) -> Result<bool, PlainFault>
        requires limit { case.now.limit ≤ 2 ^ 27 }
        requires count { count + 64 < 2 ^ 62 }
        requires run { IsRun case.now count (run_as self.old) }
        ensures made { IfOk result (λ b. (reach : Reaches) → AreReaches case.now.image reach → led_to b (run_as self.new) ≡ walk (one_turn case.now reach (record { turn = budget; hold = hold })) (run_as self.old) slots) }
        ensures run { IfOk result (λ b. IsTrue b → IsRun case.now (count + 64) (run_as self.new)) }
        ensures fault { IfErr result (FaultsOnTheWay case.now) }
    {
        for s in 0..64u32 {
            if !self.one_turn(alloc, case, s, budget, hold, count + u64::from(s))? {
                return Ok(false);
            }
        }
        Ok(true)
    }

    // A round: the turns, and `Dead` where none made an entry.
    fn round(
        &mut self,
        alloc: Global,
        case: &Case,
        budget: u64,
        hold: u64,
        count: u64,
    ) -> Result<bool, PlainFault>
        requires limit { case.now.limit ≤ 2 ^ 27 }
        requires count { count + 64 < 2 ^ 62 }
        requires run { IsRun case.now count (run_as self.old) }
        ensures made { IfOk result (λ b. (reach : Reaches) → AreReaches case.now.image reach → led_to b (run_as self.new) ≡ round case.now reach (record { turn = budget; hold = hold }) (run_as self.old)) }
        ensures run { IfOk result (λ b. IsTrue b → IsRun case.now (count + 64) (run_as self.new)) }
        ensures fault { IfErr result (FaultsOnTheWay case.now) }
    {
        let before = self.turn.journal.len();
        if !self.turns(alloc, case, budget, hold, count)? {
            return Ok(false);
        }
        if self.turn.journal.len() != before {
            return Ok(true);
        }
        self.turn.make(alloc, case, Entry::Dead)
    }

    // Rounds up to an ending, at most n.
    fn rounds(
        &mut self,
        alloc: Global,
        case: &Case,
        budget: u64,
        hold: u64,
        n: u64,
    ) -> Result<bool, PlainFault>
        requires limit { case.now.limit ≤ 2 ^ 27 }
        requires few { n < 2 ^ 40 }
        requires run { IsRun case.now 0 (run_as self.old) }
        ensures made { IfOk result (λ b. (reach : Reaches) → AreReaches case.now.image reach → led_to b (run_as self.new) ≡ rounds case.now reach (record { turn = budget; hold = hold }) n (run_as self.old)) }
        ensures fault { IfErr result (FaultsOnTheWay case.now) }
    {
        for i in 0..n {
            if ending(&self.turn.walk).is_some() {
                return Ok(true);
            }
            if !self.round(alloc, case, budget, hold, i * 64)? {
                return Ok(false);
            }
        }
        Ok(true)
    }
}

/// The serial run of a case: a turn makes at most `budget` entries that cost of it, and a write waits for at most `hold`
/// turns of its thread. None comes where an entry that the order names is no step or may not come.
///
/// The faults: `Lay` where the image and the arguments can't be laid out, `Crowded` only where a thread has 64 waiting
/// writes or more after some journal, `Memory` where memory ran out.
pub fn serial_plain(
    alloc: Global,
    case: &Case,
    budget: u64,
    hold: u64,
) -> Result<Option<PlainSerial>, PlainFault>
    requires { case.now.limit ≤ 2 ^ 27 }
    ensures run { IfOk result (λ run. (reach : Reaches) → AreReaches case.now.image reach → Tells run (serial_by case.now reach (record { turn = budget; hold = hold }))) }
    ensures serial { IfOk result (λ run. IfSome run (λ r. IsSerial case.now (record { turn = budget; hold = hold }) r.journal.items)) }
    ensures fault { IfErr result (FaultsOnTheWay case.now) }
{
    let mut state = PlainRun::start(alloc, case)?;
    if !state.rounds(alloc, case, budget, hold, 2 * case.limit + 65537)? {
        return Ok(None);
    }
    let machine = into_machine(state.turn.walk);
    Ok(Some(PlainSerial {
        journal: state.turn.journal,
        machine,
    }))
}
