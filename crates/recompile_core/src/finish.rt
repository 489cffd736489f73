//! The end of a call: its last line, and its answer.

ghost use Rattle.std.specs.Prelude.{◌≡◌, ◌⊎◌, None, OnOk, Some, [], false, true};
ghost use Rattle.endings.specs.Ending.{line_of, status_of};
ghost use Rattle.ir_runner.specs.Outputs.{written};
ghost use Rattle.machine_model.specs.Serial.{Rules as SerialRules};
ghost use Rattle.recompile_core.specs.After.{GainsOrFails};
ghost use Rattle.recompile_core.specs.Runs.{AskedFiles, Closes, Finished, ending_by, has_failed, settled};
ghost use Rattle.recompile_core.specs.World.{files_now};

use crate::answer::Answer;
use crate::files::{Unwritten, write_files};
use crate::run::{Came, Made};
use endings::{Ending, Told, tell};
use journal_pack::Journal;
use mx_outside::{Files, Sink};
use std::alloc::Global;
use words_line::Text;

// The ending once the last line was written or not.
fn settled(told: Told) -> Ending
    ensures { result ≡ settled told.ending told.written }
{
    let Told { ending, written } = told;
    match ending {
        Ending::Run(end) => {
            if written {
                Ending::Run(end)
            } else {
                Ending::WriteFault
            }
        }
        other => other,
    }
}

// What is told after a run, by what came of its files.
fn ending_by(came: Came, files: Result<(), Unwritten>) -> Ending
    ensures { result ≡ ending_by came files }
{
    match came {
        Came::Ended(end) => match files {
            Ok(()) => Ending::Run(end),
            Err(Unwritten::Failed) => Ending::WriteFault,
            Err(Unwritten::Memory) => Ending::Memory,
        },
        Came::Stopped { .. } => Ending::WriteFault,
        Came::Memory => Ending::Memory,
    }
}

// Whether the second sink failed in the run.
fn has_failed(came: Came) -> bool
    ensures { result ≡ has_failed came }
{
    match came {
        Came::Stopped { err, .. } => err,
        Came::Ended(_) | Came::Memory => false,
    }
}

// The files of a run that came to an ending of the guest program; no other run leaves files.
fn leave_files<F: Files>(
    alloc: Global,
    files: &mut F,
    journal_name: &Option<Text>,
    report_name: &Option<Text>,
    journal: &Journal,
    came: Came,
) -> Result<(), Unwritten>
    ensures asked { AskedFiles came result (files_now F.names F.read_faults F.write_faults files.old) (files_now F.names F.read_faults F.write_faults files.new) journal_name.now report_name.now journal.now }
    ensures reads { F.read_faults files.new ≡ F.read_faults files.old }
{
    match came {
        Came::Ended(_) => write_files(alloc, files, journal_name, report_name, journal),
        Came::Stopped { .. } | Came::Memory => Ok(()),
    }
}

// Writes the last line of an ending, unless the sink failed before.
fn close<E: Sink>(alloc: Global, err: &mut E, failed: bool, ending: Ending) -> Ending
    ensures { Closes failed ending result (written E.faults E.held err.old err.new) }
{
    if failed {
        return ending;
    }
    settled(tell(alloc, err, ending))
}

/// Ends a call that can't be carried out: writes its last line, and answers.
pub(crate) fn refused<E: Sink>(alloc: Global, err: &mut E, refusal: Ending) -> Answer
    ensures ending { (result.ending ≡ refusal) ⊎ (result.ending ≡ Ending.Memory) }
    ensures status { result.status ≡ status_of result.ending }
    ensures case { result.case ≡ None }
    ensures journal { result.journal ≡ [] }
    ensures line { GainsOrFails (written E.faults E.held err.old err.new) (line_of result.ending) }
{
    let Told { ending, .. } = tell(alloc, err, refusal);
    Answer {
        status: ending.status(),
        ending,
        case: None,
        journal: Journal::new(alloc),
    }
}

/// Ends a run: writes its files where it came to an ending of the guest program, and then its last line, unless the second
/// sink failed before.
pub(crate) fn finish<F: Files, E: Sink>(
    alloc: Global,
    made: Made,
    journal_name: &Option<Text>,
    report_name: &Option<Text>,
    files: &mut F,
    err: &mut E,
) -> Answer
    ensures status { result.status ≡ status_of result.ending }
    ensures case { result.case ≡ Some made.case }
    ensures journal { result.journal ≡ made.journal }
    ensures finished { Finished made.came result.ending (files_now F.names F.read_faults F.write_faults files.old) (files_now F.names F.read_faults F.write_faults files.new) (written E.faults E.held err.old err.new) journal_name.now report_name.now made.journal }
    ensures reads { F.read_faults files.new ≡ F.read_faults files.old }
{
    let Made {
        case,
        journal,
        came,
    } = made;
    let left = leave_files(alloc, files, journal_name, report_name, &journal, came);
    let ending = close(alloc, err, has_failed(came), ending_by(came, left));
    Answer {
        status: ending.status(),
        ending,
        case: Some(case),
        journal,
    }
}
