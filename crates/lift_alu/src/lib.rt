//! The lifting of private instructions: those that touch no memory and go on at the next instruction.
//!
//! `lift_private` gives the parts of the lifting table, `lifted` of `lift_table`
//! (`specs/LiftTable.antt`). The laws in `laws` say, for each instruction of this group, that these parts
//! follow the thread (`Lifts` of `specs/Follow.antt`): from every state that agrees in registers and
//! flags they ask for what the thread wants, and agree again. Beside them stand what the lifting of other
//! instructions needs too: the lines (`lines`), the words of instructions in the register language
//! (`words`), and the last part of each instruction that computes on operands (`arithmetic`, `moves`),
//! which are registers, numbers, or memory that an earlier part has loaded.
//!
//! Stands on `x86_forms` (instructions), `ir_syntax` (lines) and `lift_table` (the table).
#![tactic(auto)]

pub mod arithmetic;
pub mod laws;
pub mod lines;
pub mod moves;
mod private;
#[cfg(test)]
mod tests;
pub mod words;

pub use laws::private_lifts;
pub use private::lift_private;
