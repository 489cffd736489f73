//! The top call: from the words of a command to its answer.

ghost use Rattle.std.specs.Prelude.{◌≡◌, ◌⊎◌, IfErr, IfOk, IfSome};
ghost use Rattle.endings.specs.Ending.{status_of};
ghost use Rattle.guest_parts.specs.Running.{Rises};
ghost use Rattle.ir_runner.specs.Outputs.{written};
ghost use Rattle.guest_entries.specs.Steps.{instruction_steps};
ghost use Rattle.words_line.specs.Commands.{plan_of, texts};
ghost use Rattle.recompile_core.specs.Plans.{plan_of_run};
ghost use Rattle.recompile_core.specs.Runs.{IsAnswer, IsUsage};
ghost use Rattle.recompile_core.specs.World.{files_now, input_now};

use crate::answer::Answer;
use crate::finish::refused;
use crate::plain::carry_out;
use crate::plan::run_of;
use crate::workers::carry_out_by_workers;
use endings::Ending;
use mx_outside::{Files, Sink, Source};
use std::alloc::Global;
use std::sync::Wait;
use std::thread::Threads;
use thread_step::{Engine, Gate};
use words_line::{WordsError, read_words};

/// Carries out the words of a command, those after the program's own name.
///
/// `Usage` comes exactly where the words ask for no run of a program, with what is wrong with them; then nothing
/// is read. A run with `--serial` is as `recompile_plain` says of the words' plan. A run without it is made by workers, one for
/// each guest thread, in a thread of the operating system where one can be started; the gate is passed before each entry, outside
/// the lock. All is said of it that is said of a serial run but that its journal is the serial order's: it is played and gated,
/// whatever the interleaving, and the outputs and the ending are those of its machine. Which legal interleaving comes is not
/// promised, nor that a thread gets on.
pub fn recompile<
    R: Threads + Wait + Sync,
    F: Files,
    I: Source,
    O: Sink,
    E: Sink,
    N: Engine + Drop,
    G: Gate + Sync,
>(
    rt: &R,
    alloc: Global,
    words: &[String],
    files: &mut F,
    input: &mut I,
    out: &mut O,
    err: &mut E,
    engine: &mut N,
    gate: &G,
) -> Answer
    ensures status { result.status ≡ status_of result.ending }
    ensures answer { IfOk (plan_of_run (plan_of (texts words.now))) (λ p. IsAnswer (record { files = files_now F.names F.read_faults F.write_faults files.old; files_after = files_now F.names F.read_faults F.write_faults files.new; input = input_now I.left I.faults input.old; input_after = input_now I.left I.faults input.new; out = written O.faults O.held out.old out.new; err = written E.faults E.held err.old err.new }) p result) }
    ensures usage { IfErr (plan_of_run (plan_of (texts words.now))) (IsUsage (record { files = files_now F.names F.read_faults F.write_faults files.old; files_after = files_now F.names F.read_faults F.write_faults files.new; input = input_now I.left I.faults input.old; input_after = input_now I.left I.faults input.new; out = written O.faults O.held out.old out.new; err = written E.faults E.held err.old err.new }) result) }
    ensures count { IfSome result.case (λ c. Rises (N.count engine.old) (N.count engine.new) (instruction_steps c result.journal)) }
{
    let plan = match read_words(alloc, words) {
        Ok(plan) => plan,
        Err(WordsError::Fault(fault)) => return refused(alloc, err, Ending::Usage(fault)),
        Err(WordsError::Memory(_)) => return refused(alloc, err, Ending::Memory),
    };
    match run_of(alloc, plan) {
        Ok(run) => {
            if run.serial {
                carry_out(alloc, run, files, input, out, err, engine)
            } else {
                carry_out_by_workers(rt, alloc, run, files, input, out, err, engine, gate)
            }
        }
        Err(refusal) => refused(alloc, err, refusal),
    }
}
