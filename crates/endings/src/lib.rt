//! How a call of the program ends: its endings, the exit status of each, and the last line.
//!
//! [`Ending`] is what a call answers, [`Ending::status`] the exit status, [`last_line`] the line with its newline that goes to
//! the second output at the very end, and [`tell`] writes it. The words are in `specs/Ending.antt`.
#![tactic(auto)]

mod ending;
mod line;

pub use ending::Ending;
pub use line::{Told, last_line, tell};

#[cfg(test)]
mod tests;
