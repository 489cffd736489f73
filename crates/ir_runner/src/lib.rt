//! Runs of all threads: round by round, with the outputs written as they grow.
//!
//! [`run_serial`] is the repeatable run: its journal is that of the serial order, which the case and two numbers fix
//! (`machine_model`, `specs/Serial.antt`). A round is the turns of the threads in the slots 0 to 63, one after another, each
//! with the guest of its slot, and `Dead` after them where none made an entry.
//!
//! The crate stands on `thread_step` for a turn, on `hall_core` for the shared state, and on `mx_outside` for the two sinks.
#![tactic(auto)]

mod outputs;
mod rounds;
mod run;

pub use run::{Ran, run_serial};
