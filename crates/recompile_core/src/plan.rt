//! The run that a plan asks for.

ghost use Rattle.std.specs.Prelude.{◌≡◌, ◌∷◌, IfErr, IfOk, Ok};
ghost use Rattle.recompile_core.specs.Plans.{run_of};
ghost use Rattle.recompile_core.specs.Runs.{RefusesPlan};

use endings::Ending;
use std::alloc::{AllocError, Global};
use words_line::{Plan, Text, Texts, WordsFault};

/// What is run: the program's file, its arguments, that file's name first, the text of blocks with which it begins, if one is
/// named, the limit of steps, and whether a miss ends the run.
#[derive(Drop)]
pub(crate) struct Task {
    pub(crate) prog: Text,
    pub(crate) args: Texts,
    pub(crate) ir: Option<Text>,
    pub(crate) steps: u64,
    pub(crate) strict: bool,
}

/// A task, whether it is run in the serial order or by workers, how many entries a turn makes, for how many turns a write waits, and the files for the journal and for the report of
/// misses.
#[derive(Drop)]
pub(crate) struct RunPlan {
    pub(crate) task: Task,
    pub(crate) serial: bool,
    pub(crate) turn: u32,
    pub(crate) hold: u32,
    pub(crate) journal: Option<Text>,
    pub(crate) report: Option<Text>,
}

// The words after a copy of this one.
fn with_first(alloc: Global, word: &Text, words: Texts) -> Result<Texts, AllocError>
    ensures { IfOk result (λ all. all ≡ word.now ∷ words) }
{
    let copy = String::from_str(alloc, word.as_str())?;
    let mut all = words.into_vec();
    all.insert(0, copy)?;
    Ok(Texts::from_vec(all))
}

/// The run that a plan asks for.
///
/// # Errors
///
/// `Usage` where the plan is none to run a program, `Memory` where memory is wanting.
pub(crate) fn run_of(alloc: Global, plan: Plan) -> Result<RunPlan, Ending>
    ensures run { IfOk result (λ p. run_of plan ≡ Ok p) }
    ensures refusal { IfErr result (RefusesPlan plan) }
{
    match plan {
        Plan::Lift { .. } | Plan::Gen { .. } => Err(Ending::Usage(WordsFault::UnknownCommand)),
        Plan::Run {
            prog,
            ir,
            strict,
            serial,
            turn,
            hold,
            steps,
            report,
            journal,
            args,
        } => {
            let Ok(args) = with_first(alloc, &prog, args) else {
                return Err(Ending::Memory);
            };
            Ok(RunPlan {
                task: Task {
                    prog,
                    args,
                    ir,
                    steps,
                    strict,
                },
                serial,
                turn,
                hold,
                journal,
                report,
            })
        }
    }
}
