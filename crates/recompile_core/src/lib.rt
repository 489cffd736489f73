//! The top calls: from words, files, input and sinks to a run's outputs, its ending and its journal.
//!
//! [`recompile`] reads the words and [`recompile_plain`] carries out a plan: it prepares the run (`run_start`), makes it in the
//! serial order (`ir_runner`) or by workers (`worker_runner`), writes the journal and the report, and tells the ending (`endings`). Their contracts are the
//! product's theorem, told in `specs`: the run that a plan asks for (`Plans`), its case and what the plain machine reaches along
//! the journal (`Answer`), what stands in files and sinks afterwards (`After`), and when each ending comes (`Causes`).
#![tactic(auto)]

mod answer;
mod files;
mod finish;
mod plain;
mod plan;
mod run;
mod start;
mod top;
mod workers;

pub use answer::Answer;
pub use endings::Ending;
pub use plain::recompile_plain;
pub use thread_step::{Engine, Gate, OpenGate, PlainEngine};
pub use top::recompile;
