//! Runs by workers.

ghost use Rattle.std.specs.Prelude.{◌≡◌, [], IfSome, None, Some, false};
ghost use Rattle.endings.specs.Ending.{status_of};
ghost use Rattle.guest_parts.specs.Running.{Rises};
ghost use Rattle.ir_runner.specs.Outputs.{written};
ghost use Rattle.guest_entries.specs.Steps.{instruction_steps};
ghost use Rattle.thread_step.specs.Turned.{AreRules};
ghost use Rattle.recompile_core.specs.Plans.{HasRanges};
ghost use Rattle.recompile_core.specs.Runs.{IsAnswer, Played};
ghost use Rattle.recompile_core.specs.World.{files_now, input_now};

use crate::answer::Answer;
use crate::finish::{finish, refused};
use crate::plan::RunPlan;
use crate::run::run_by_workers;
use crate::start::{ending_of, start};
use hall_core::Hall;
use ir_syntax::Block;
use mx_outside::{Files, Sink, Source};
use std::alloc::Global;
use std::sync::Wait;
use std::thread::Threads;
use thread_step::{Engine, Gate, Rules};
use words_line::Text;

// Runs a hall whose journal is empty by workers, and ends the run.
fn play_by_workers<
    R: Threads + Wait + Sync,
    F: Files,
    O: Sink,
    E: Sink,
    N: Engine + Drop,
    G: Gate + Sync,
>(
    rt: &R,
    alloc: Global,
    hall: Hall<Block>,
    rules: Rules,
    journal_name: &Option<Text>,
    report_name: &Option<Text>,
    files: &mut F,
    out: &mut O,
    err: &mut E,
    engine: &mut N,
    gate: &G,
) -> Answer
    requires first { hall.journal ≡ [] }
    requires rules { AreRules hall.case rules }
    ensures status { result.status ≡ status_of result.ending }
    ensures case { result.case ≡ Some hall.case }
    ensures played { Played hall.case None result.journal result.ending (files_now F.names F.read_faults F.write_faults files.old) (files_now F.names F.read_faults F.write_faults files.new) (written O.faults O.held out.old out.new) (written E.faults E.held err.old err.new) journal_name.now report_name.now }
    ensures reads { F.read_faults files.new ≡ F.read_faults files.old }
    ensures count { Rises (N.count engine.old) (N.count engine.new) (instruction_steps hall.case result.journal) }
{
    let made = run_by_workers(rt, alloc, hall, rules, out, err, engine, gate);
    finish(alloc, made, journal_name, report_name, files, err)
}

/// Carries out a run by workers: prepares it, makes it, writes its files, and tells its ending.
pub(crate) fn carry_out_by_workers<
    R: Threads + Wait + Sync,
    F: Files,
    I: Source,
    O: Sink,
    E: Sink,
    N: Engine + Drop,
    G: Gate + Sync,
>(
    rt: &R,
    alloc: Global,
    plan: RunPlan,
    files: &mut F,
    input: &mut I,
    out: &mut O,
    err: &mut E,
    engine: &mut N,
    gate: &G,
) -> Answer
    requires ranges { HasRanges plan }
    requires workers { plan.serial ≡ false }
    ensures status { result.status ≡ status_of result.ending }
    ensures answer { IsAnswer (record { files = files_now F.names F.read_faults F.write_faults files.old; files_after = files_now F.names F.read_faults F.write_faults files.new; input = input_now I.left I.faults input.old; input_after = input_now I.left I.faults input.new; out = written O.faults O.held out.old out.new; err = written E.faults E.held err.old err.new }) plan result }
    ensures count { IfSome result.case (λ c. Rises (N.count engine.old) (N.count engine.new) (instruction_steps c result.journal)) }
{
    let RunPlan {
        task,
        serial: _,
        turn,
        hold,
        journal,
        report,
    } = plan;
    let rules = Rules {
        turn,
        hold,
        strict: task.strict,
    };
    match start(alloc, task, files, input) {
        Ok(hall) => play_by_workers(
            rt, alloc, hall, rules, &journal, &report, files, out, err, engine, gate,
        ),
        Err(fault) => refused(alloc, err, ending_of(fault)),
    }
}
