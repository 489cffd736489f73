//! A run, from its first step to what it came to.

ghost use Rattle.std.specs.Prelude.{◌≡◌, [], IsSome, None, Option, Some};
ghost use Rattle.guest_parts.specs.Running.{Rises};
ghost use Rattle.ir_runner.specs.Outputs.{written};
ghost use Rattle.ir_runner.specs.declared.run.Ran.TheVariants as outcome;
ghost use Rattle.machine_model.specs.Play.{play};
ghost use Rattle.guest_entries.specs.Steps.{instruction_steps};
ghost use Rattle.thread_step.specs.Turned.{AreRules, serial_rules};
ghost use Rattle.recompile_core.specs.Runs.{CameBy, IsMade};

use hall_core::Hall;
use ir_runner::{Ran, run_serial};
use ir_syntax::Block;
use journal_pack::Journal;
use machine_model::case::Case;
use machine_model::ending::RunEnd;
use mx_outside::Sink;
use run_start::ImageLifter;
use std::alloc::Global;
use std::sync::Wait;
use std::thread::Threads;
use thread_step::{Engine, Gate, Rules};
use worker_runner::run_workers;

/// How a run came to its end.
#[derive(Clone, Copy, Debug)]
pub(crate) enum Came {
    /// With an ending of the guest program; all that it wrote is in the sinks.
    Ended(RunEnd),
    /// With writes that failed: which of the two.
    Stopped { out: bool, err: bool },
    /// Memory was wanting.
    Memory,
}

/// What a run made: its journal, from the case, and how it came to its end.
#[derive(Drop)]
pub(crate) struct Made {
    pub(crate) case: Case,
    pub(crate) journal: Journal,
    pub(crate) came: Came,
}

// How a run came to its end, where this is the machine's ending.
fn came_of(ran: Ran, end: Option<RunEnd>) -> Came
    requires ended { ran ≡ outcome.Ended → IsSome end }
    ensures { CameBy ran end result }
{
    match ran {
        Ran::Stopped { out, err } => Came::Stopped { out, err },
        Ran::Memory(_) => Came::Memory,
        Ran::Ended => match end {
            Some(end) => Came::Ended(end),
            None => unreachable!(),
        },
    }
}

/// Runs all threads of a hall whose journal is empty in the serial order.
///
/// The journal is played to a machine, and gated. At `Ended` it is the whole serial one, the machine has this ending, and each
/// sink grew by its output; at `Stopped` and `Memory` it is what the serial one begins with, and the sinks are as
/// `ir_runner::run_serial` says.
pub(crate) fn run<O: Sink, E: Sink, N: Engine>(
    alloc: Global,
    hall: Hall<Block>,
    rules: Rules,
    out: &mut O,
    err: &mut E,
    engine: &mut N,
) -> Made
    requires first { hall.journal ≡ [] }
    requires rules { AreRules hall.case rules }
    ensures case { result.case ≡ hall.case }
    ensures made { IsMade hall.case (Some (serial_rules rules)) result.journal result.came (written O.faults O.held out.old out.new) (written E.faults E.held err.old err.new) }
    ensures count { Rises (N.count engine.old) (N.count engine.new) (instruction_steps hall.case result.journal) }
{
    let lifter = ImageLifter::make(alloc);
    let (hall, ran) = run_serial(alloc, hall, &lifter, engine, rules, out, err);
    hall.facts();
    let came = came_of(ran, hall.ending().copied());
    let (case, journal) = hall.into_run();
    Made {
        case,
        journal,
        came,
    }
}

/// Runs all threads of a hall whose journal is empty by workers.
///
/// The journal is played to a machine, and gated, whatever the interleaving. The machine's ending and the sinks are as
/// `worker_runner::run_workers` says.
pub(crate) fn run_by_workers<
    R: Threads + Wait + Sync,
    O: Sink,
    E: Sink,
    N: Engine + Drop,
    G: Gate + Sync,
>(
    rt: &R,
    alloc: Global,
    hall: Hall<Block>,
    rules: Rules,
    out: &mut O,
    err: &mut E,
    engine: &mut N,
    gate: &G,
) -> Made
    requires first { hall.journal ≡ [] }
    requires rules { AreRules hall.case rules }
    ensures case { result.case ≡ hall.case }
    ensures made { IsMade hall.case None result.journal result.came (written O.faults O.held out.old out.new) (written E.faults E.held err.old err.new) }
    ensures count { Rises (N.count engine.old) (N.count engine.new) (instruction_steps hall.case result.journal) }
{
    let lifter = ImageLifter::make(alloc);
    let (hall, ran) = run_workers(rt, alloc, hall, &lifter, engine, gate, rules, out, err);
    hall.facts();
    let came = came_of(ran, hall.ending().copied());
    let (case, journal) = hall.into_run();
    Made {
        case,
        journal,
        came,
    }
}
