//! What the lines of the register language do: a part of a lifted block, run on the virtual registers
//! of one guest thread.
//!
//! Stands on `ir_syntax` (the lines), `guest_state` (the registers) and `x86_flags` (results and
//! flags). Whatever runs blocks, or says that a block does what its instructions do, stands on it.
//! The contracts of `run_part` and `answer` cite `does` and `answered` of `specs/Does.antt`; their
//! condition is `IsReady` and `Answers` of `specs/Ready.antt`. Live flags and dead puts are defined in
//! `specs/Live.antt`.
#![tactic(auto)]

mod end;
mod family;
mod line;
mod part;
mod state;
#[cfg(test)]
mod tests;
mod width;

pub use part::{answer, run_part};
