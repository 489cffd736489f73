//! Whole runs.

ghost use Rattle.std.specs.Prelude.{◌≡◌, ◌+◌, ◌<◌, ◌≤◌, ◌*◌, ◌||◌, ℕ, [], Some, None, is_some, drop, if◌then◌else◌, length, map, replicate};
ghost use Rattle.std.specs.FinMap as finite;
ghost use Rattle.ir_syntax.specs.declared.block.Block.{Block as BlockData};
ghost use Rattle.basic_blocks.specs.Reach.{is_among};
ghost use Rattle.lift_table.specs.Block.{lifted_block};
ghost use Rattle.machine_model.specs.Gated.{most_grown};
ghost use Rattle.hall_core.specs.Hall.{grown, machine};
ghost use Rattle.guest_parts.specs.Running.{Rises};
ghost use Rattle.thread_step.specs.Guest.{guest_ages};
ghost use Rattle.guest_entries.specs.Steps.{instruction_steps};
ghost use Rattle.thread_step.specs.Turned.{AreRules};
ghost use Rattle.ir_runner.specs.declared.run.Ran.TheVariants as ran;
ghost use Rattle.ir_runner.specs.Outputs.{written};
ghost use Rattle.ir_runner.specs.Rounds.{AreGuests, HasRound, HasRun};
ghost use Rattle.ir_runner.specs.Runs.{JournalIs, OutputsAre, RoundIs};

use crate::outputs::write_rest;
use crate::rounds::{make_guests, round};
use hall_core::Hall;
use ir_syntax::Block;
use mx_outside::Sink;
use std::alloc::{AllocError, Global};
use thread_step::{Engine, Guest, Lifter, Rules};

/// How a run ended.
#[derive(Debug, PartialEq, Drop)]
pub enum Ran {
    /// With an ending of the guest program, and all that it wrote is in the sinks.
    Ended,
    /// With writes that failed, after a round in which the outputs grew: which of the two.
    Stopped { out: bool, err: bool },
    /// Memory was wanting.
    Memory(AllocError),
}

// Why a run stops after a round of which these writes failed, if one did.
fn stop_after(out: bool, err: bool) -> Option<Ran>
    ensures { result ≡ (if out || err then Some (ran.Stopped out err) else None) }
{
    if out || err {
        Some(Ran::Stopped { out, err })
    } else {
        None
    }
}

// Whether the run has an ending.
fn has_ended(hall: &Hall<Block>) -> bool
    ensures { result ≡ is_some (machine hall.now).ending }
{
    hall.ending().is_some()
}

// The next round, and then what grew in it is written: why the run stops, if it does.
fn next_round<L: Lifter, N: Engine, O: Sink, E: Sink>(
    guests: &mut Vec<Guest>,
    hall: &mut Hall<Block>,
    lifter: &L,
    engine: &mut N,
    rules: Rules,
    out: &mut O,
    err: &mut E,
) -> Option<Ran>
    requires guests { AreGuests hall.old guests.old.items }
    requires rules { AreRules hall.old.case rules }
    requires going { (machine hall.old).ending ≡ None }
    requires next { HasRound hall.old guests.old.items rules }
    ensures case { hall.new.case ≡ hall.old.case }
    ensures round { RoundIs result hall.old hall.new guests.old.items guests.new.items rules (written O.faults O.held out.old out.new) (written E.faults E.held err.old err.new) }
    ensures guests { result ≡ None → (machine hall.new).ending ≡ None → AreGuests hall.new guests.new.items }
    ensures longer { result ≡ None → length hall.old.journal < length hall.new.journal }
    ensures count { HasRun (N.count engine.old) (N.count engine.new) hall.old hall.new }
    ensures short { length hall.new.journal ≤ 2 * hall.new.case.limit + 65537 }
{
    hall.facts();
    let first = hall.out1().len();
    let second = hall.out2().len();
    let made = round(guests, hall, lifter, engine, rules);
    hall.facts();
    if let Err(e) = made {
        return Some(Ran::Memory(e));
    }
    let out_failed = write_rest(out, hall.out1(), first);
    let err_failed = write_rest(err, hall.out2(), second);
    stop_after(out_failed, err_failed)
}

// Rounds up to an ending, a write that failed, or want of memory.
fn run_rounds<L: Lifter, N: Engine, O: Sink, E: Sink>(
    guests: &mut Vec<Guest>,
    hall: &mut Hall<Block>,
    lifter: &L,
    engine: &mut N,
    rules: Rules,
    out: &mut O,
    err: &mut E,
) -> Ran
    requires first { hall.old.journal ≡ [] }
    requires few { length hall.old.case.first ≤ most_grown }
    requires guests { AreGuests hall.old guests.old.items }
    requires ages { map guest_ages guests.old.items ≡ replicate 64 [] }
    requires rules { AreRules hall.old.case rules }
    ensures case { hall.new.case ≡ hall.old.case }
    ensures journal { JournalIs result hall.new rules }
    ensures outputs { OutputsAre result hall.new rules (written O.faults O.held out.old out.new) (written E.faults E.held err.old err.new) }
    ensures count { HasRun (N.count engine.old) (N.count engine.new) hall.old hall.new }
{
    while !has_ended(hall) {
        hall.facts();
        let stop = next_round(guests, hall, lifter, engine, rules, out, err);
        hall.facts();
        if let Some(ran) = stop {
            return ran;
        }
    }
    Ran::Ended
}

// A whole run, with guests of its own.
fn run_all<L: Lifter, N: Engine, O: Sink, E: Sink>(
    alloc: Global,
    hall: &mut Hall<Block>,
    lifter: &L,
    engine: &mut N,
    rules: Rules,
    out: &mut O,
    err: &mut E,
) -> Ran
    requires first { hall.old.journal ≡ [] }
    requires few { length hall.old.case.first ≤ most_grown }
    requires rules { AreRules hall.old.case rules }
    ensures case { hall.new.case ≡ hall.old.case }
    ensures journal { JournalIs result hall.new rules }
    ensures outputs { OutputsAre result hall.new rules (written O.faults O.held out.old out.new) (written E.faults E.held err.old err.new) }
    ensures count { HasRun (N.count engine.old) (N.count engine.new) hall.old hall.new }
{
    match make_guests(alloc, hall) {
        Ok(mut guests) => run_rounds(&mut guests, hall, lifter, engine, rules, out, err),
        Err(e) => Ran::Memory(e),
    }
}

/// Runs all threads of a hall whose journal is empty in the serial order, up to an ending of the guest program, a write that
/// failed, or want of memory. A round is the turns of the slots 0 to 63; after each round in which an output grew, what grew
/// is written, first output 1 to `out`, then output 2 to `err`, whether or not the first write failed.
///
/// The journal is the serial one of the case and of the two numbers of `rules`: the whole at `Ended`, else what it begins
/// with. No block that was grown changes, and each grown place has the lifted block. At `Ended` each sink grew by exactly its
/// output. At `Stopped` the run stands after the round in which a write failed: a sink that failed grew by what was there
/// before the round and a first part of what the round added, with one fault counted at least, and the other one by the whole
/// of its output. At `Memory` each grew by a first part, and counted no fault.
pub fn run_serial<L: Lifter, N: Engine, O: Sink, E: Sink>(
    alloc: Global,
    hall: Hall<Block>,
    lifter: &L,
    engine: &mut N,
    rules: Rules,
    out: &mut O,
    err: &mut E,
) -> (Hall<Block>, Ran)
    requires first { hall.journal ≡ [] }
    requires rules { AreRules hall.case rules }
    ensures case { result.0.case ≡ hall.case }
    ensures journal { JournalIs result.1 result.0 rules }
    ensures outputs { OutputsAre result.1 result.0 rules (written O.faults O.held out.old out.new) (written E.faults E.held err.old err.new) }
    ensures count { Rises (N.count engine.old) (N.count engine.new) (instruction_steps result.0.case result.0.journal) }
    ensures kept { (a : ℕ) (b : BlockData) → finite.get hall.blocks a ≡ Some b → finite.get result.0.blocks a ≡ Some b }
    ensures lifted { (a : ℕ) (b : BlockData) → finite.get result.0.blocks a ≡ Some b → b ≡ lifted_block result.0.case.image a }
    ensures grown { (a : ℕ) → is_some (finite.get result.0.blocks a) ≡ is_among (grown result.0) a }
{
    let mut hall = hall;
    hall.facts();
    let _few = hall.count();
    let ran = run_all(alloc, &mut hall, lifter, engine, rules, out, err);
    hall.facts();
    (hall, ran)
}
