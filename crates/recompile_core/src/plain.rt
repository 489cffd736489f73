//! Carries out a plan.

ghost use Rattle.std.specs.Prelude.{◌≡◌, [], IfNone, IfOk, IfSome, IsOkAnd, Ok, Some};
ghost use Rattle.endings.specs.Ending.{status_of};
ghost use Rattle.guest_parts.specs.Running.{Rises};
ghost use Rattle.ir_runner.specs.Outputs.{written};
ghost use Rattle.machine_laws.specs.Cases.{reads_input};
ghost use Rattle.machine_model.specs.Gated.{IsGated};
ghost use Rattle.guest_entries.specs.Steps.{instruction_steps};
ghost use Rattle.thread_step.specs.Turned.{AreRules, serial_rules};
ghost use Rattle.words_line.specs.Plans.{IsInRange};
ghost use Rattle.recompile_core.specs.After.{FilesAfter, GainsOrFails, IfFailure, InputRead, IsRefused, Leaves, Wrote, with_files};
ghost use Rattle.recompile_core.specs.Answer.{Ends, HasCase, IfRun, IsCaseOfTask, JournalOf};
ghost use Rattle.recompile_core.specs.Causes.{CauseOf};
ghost use Rattle.recompile_core.specs.Plans.{IsPlain, run_of};
ghost use Rattle.recompile_core.specs.Runs.{IsAnswer, Played};
ghost use Rattle.recompile_core.specs.World.{files_now, input_now};

use crate::answer::Answer;
use crate::finish::{finish, refused};
use crate::plan::{RunPlan, run_of};
use crate::run::run;
use crate::start::{ending_of, start};
use endings::Ending;
use hall_core::Hall;
use ir_syntax::Block;
use mx_outside::{Files, Sink, Source};
use std::alloc::Global;
use thread_step::{Engine, Rules};
use words_line::{Plan, Text};

// Runs a hall whose journal is empty, and ends the run.
fn play<F: Files, O: Sink, E: Sink, N: Engine>(
    alloc: Global,
    hall: Hall<Block>,
    rules: Rules,
    journal_name: &Option<Text>,
    report_name: &Option<Text>,
    files: &mut F,
    out: &mut O,
    err: &mut E,
    engine: &mut N,
) -> Answer
    requires first { hall.journal ≡ [] }
    requires rules { AreRules hall.case rules }
    ensures status { result.status ≡ status_of result.ending }
    ensures case { result.case ≡ Some hall.case }
    ensures played { Played hall.case (Some (serial_rules rules)) result.journal result.ending (files_now F.names F.read_faults F.write_faults files.old) (files_now F.names F.read_faults F.write_faults files.new) (written O.faults O.held out.old out.new) (written E.faults E.held err.old err.new) journal_name.now report_name.now }
    ensures reads { F.read_faults files.new ≡ F.read_faults files.old }
    ensures count { Rises (N.count engine.old) (N.count engine.new) (instruction_steps hall.case result.journal) }
{
    let made = run(alloc, hall, rules, out, err, engine);
    finish(alloc, made, journal_name, report_name, files, err)
}

/// Carries out a run: prepares it, makes it in the serial order, writes its files, and tells its ending.
pub(crate) fn carry_out<F: Files, I: Source, O: Sink, E: Sink, N: Engine>(
    alloc: Global,
    plan: RunPlan,
    files: &mut F,
    input: &mut I,
    out: &mut O,
    err: &mut E,
    engine: &mut N,
) -> Answer
    requires { IsPlain plan }
    ensures status { result.status ≡ status_of result.ending }
    ensures answer { IsAnswer (record { files = files_now F.names F.read_faults F.write_faults files.old; files_after = files_now F.names F.read_faults F.write_faults files.new; input = input_now I.left I.faults input.old; input_after = input_now I.left I.faults input.new; out = written O.faults O.held out.old out.new; err = written E.faults E.held err.old err.new }) plan result }
    ensures count { IfSome result.case (λ c. Rises (N.count engine.old) (N.count engine.new) (instruction_steps c result.journal)) }
{
    let RunPlan {
        task,
        serial: _,
        turn,
        hold,
        journal,
        report,
    } = plan;
    let rules = Rules {
        turn,
        hold,
        strict: task.strict,
    };
    match start(alloc, task, files, input) {
        Ok(hall) => play(
            alloc, hall, rules, &journal, &report, files, out, err, engine,
        ),
        Err(fault) => refused(alloc, err, ending_of(fault)),
    }
}

/// Carries out a plan to run a program in the serial order, and returns. What the answer says of the run is told
/// in `specs/Runs.antt` (`IsAnswer`).
///
/// - The case, where there is one, is that of the plan and of the bytes that were read; the journal is that of the serial order,
///   whole at `Run`, and is played and gated. At `Run` `out` grew by the machine's first output and `err` by its second and the
///   last line; the files of the journal and of the report are written, in this order; the input is read to its end exactly where
///   the image has a place of `read`.
/// - At `Memory` and `WriteFault` a first part of these stands there. After a refusal nothing stands in `out`, the last line in
///   `err`, or a part of it where `err` failed, and no file changed.
/// - `Image`, `Absent`, `TooLong` and `TooMany` come exactly where the program can't be run for this reason; `ReadFault` and
///   `WriteFault` only where a count of faults rose, and `Run` only where none did. `Memory` is the answer for want of memory,
///   and comes in place of any other.
pub fn recompile_plain<F: Files, I: Source, O: Sink, E: Sink, N: Engine>(
    alloc: Global,
    plan: Plan,
    files: &mut F,
    input: &mut I,
    out: &mut O,
    err: &mut E,
    engine: &mut N,
) -> Answer
    // The plan is a run in the serial order, and its numbers are in their ranges.
    requires run { IsOkAnd (run_of plan) IsPlain }
    ensures status { result.status ≡ status_of result.ending }
    ensures answer { IfOk (run_of plan) (λ p. IsAnswer (record { files = files_now F.names F.read_faults F.write_faults files.old; files_after = files_now F.names F.read_faults F.write_faults files.new; input = input_now I.left I.faults input.old; input_after = input_now I.left I.faults input.new; out = written O.faults O.held out.old out.new; err = written E.faults E.held err.old err.new }) p result) }
    ensures count { IfSome result.case (λ c. Rises (N.count engine.old) (N.count engine.new) (instruction_steps c result.journal)) }
{
    match run_of(alloc, plan) {
        Ok(run) => carry_out(alloc, run, files, input, out, err, engine),
        Err(refusal) => refused(alloc, err, refusal),
    }
}
