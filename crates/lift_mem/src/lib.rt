//! The lifting of instructions that read or write memory, or order accesses to it, and of transfers:
//! jumps, calls and returns.
//!
//! `lift_memory` and `lift_flow` give the parts of the lifting table, `lifted` of `lift_table`
//! (`specs/LiftTable.antt`). The laws in `laws` say, for each instruction of these groups, that its parts
//! follow the thread (`Lifts` of `specs/Follow.antt`): from every state that agrees in registers and
//! flags they ask for what the thread wants, whatever a load or a locked step answers, and agree again.
//!
//! Stands on `lift_alu`, which has the lines and the last part of each instruction that computes on
//! operands; here are the parts that load first, store, fence, lock and go elsewhere.
#![tactic(auto)]

mod flow;
pub mod laws;
mod locked;
mod memory;
mod parts;
#[cfg(test)]
mod run_tests;
mod stack;
#[cfg(test)]
mod tests;

pub use flow::lift_flow;
pub use memory::lift_memory;
