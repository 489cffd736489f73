//! Runs with a worker for each thread of the guest.
//!
//! [`run_workers`] runs all threads of a shared state beside each other, each by the context of its slot, with an engine of
//! its own. In a round each slot that is in use has some turns, in a thread of the operating system where one can be started;
//! after each round in which an output grew, what grew is written, and `Dead` follows a round without an entry.
//!
//! The crate stands on `thread_step` for a worker's turn, on `turn_lock` for the lock round the shared state, and on
//! `ir_runner` for how a run ends and what is written. Runs in the serial order are there.
#![tactic(auto)]

mod closing;
mod making;
mod round;
mod rounds;
mod run;
mod state;
mod watch;

pub use ir_runner::Ran;
pub use run::run_workers;
