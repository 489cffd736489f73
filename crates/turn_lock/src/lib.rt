//! A lock round one value with a journal, whose promise is about what each thread has seen.
//!
//! A thread holds a `Pass`. What it takes out of the lock begins with all entries that this pass has seen, and of the
//! entries with the pass's own number it has just those that the pass has seen, in order, no more and no fewer.
//! A plain mutex can't say that: its value is known by its type alone.
//!
//! `Story` says what the lock has to know of the value. `make` lays the value into a `Turn` and makes its passes,
//! `Turn::take` waits for the turn and hands the value out in a `Held`, `Turn::give` hands it back, and `Turn::close`
//! takes it out for good once all passes are back.
//!
//! It stands on `atomic_table`. The contracts cite `specs/Journal.antt` (what a journal is to its beginning and to the
//! entries of one number) and `specs/Words.antt` (what contracts see of a pass, a held value and a lock). The rule that
//! every step on the table keeps is `specs/Rule.antt`.
//!
//! No contract says that a thread gets the turn: there is no promise of progress, of fairness or of freedom from deadlock.
#![tactic(auto)]

mod dealing;
mod pass;
mod story;
#[cfg(test)]
mod tests;
mod turn;
mod view;

pub use dealing::make;
pub use pass::{Held, Pass};
pub use story::Story;
pub use turn::Turn;
