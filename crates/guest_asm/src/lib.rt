//! Machine code as bytes, and, from `elf_writer`, guest programs as files.
//!
//! [`assemble`] writes an instruction of the subset of x86-64 as a byte string. Its contract is by the
//! definition `Spells` of `x86_forms`: it gives a spelling where the instruction has one, and nothing
//! exactly where no byte string spells it.
//!
//! The crate stands on `x86_forms` and `elf_writer`.
#![tactic(auto)]

mod assembler;
#[cfg(test)]
mod tests;

pub use assembler::assemble;
pub use elf_writer::{Piece, row_image, write_elf};
