//! Whole basic blocks, lifted: from the instructions at a code place to a block of the register language.
//!
//! `lift_block` gives the block of `lift_table`'s definition `lifted_block` (`specs/Block.antt`), well
//! typed and faithful (`IsFaithful` there): from every state that matches a thread at one of its parts, the
//! part asks for what the thread wants, and the results match again. docs/LIFTING.md shows an instruction
//! and a block.
//!
//! Stands on `basic_blocks`, which says what instruction stands where; on `lift_alu` and `lift_mem`, whose
//! laws say that each instruction's parts follow the thread; and on `dead_flags`, which says that nothing
//! is lost with the dead puts of a flag.
#![tactic(auto)]

mod accepting;
mod block;
mod instr;
pub mod laws;
mod span;
#[cfg(test)]
mod tests;

pub use accepting::{AcceptFault, accept};
pub use block::lift_block;
pub use instr::lift_instr;
