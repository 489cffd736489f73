//! What a thread of an x86-64 program does next: the definition on instructions, in the SDM's terms.
//!
//! `want` (`specs/Want.antt`) says what a thread's next step is: at a door or a place of a library
//! function that, else by the instruction that is spelled at rip in the bytes of one executable
//! segment. `first_access` (`specs/Accesses.antt`) says what an instruction reads first, and `finished`
//! (`specs/Finishing.antt`) what it does once that is there. `start` (`specs/Thread.antt`) is what a
//! thread's instructions work on before its first step.
//!
//! `want_of` is a plain program that computes what one instruction wants; `code_from` gives the bytes that
//! can be run. The crate stands on `elf_image`, `x86_forms`, `x86_flags` and, for the doors,
//! on `address_space`.
#![tactic(auto)]

mod accesses;
mod arithmetic;
mod cpu;
mod finishing;
mod image;
mod laws;
mod operands;
mod results;
#[cfg(test)]
mod tests;
mod want;
mod width;

pub use accesses::first_access;
pub use cpu::Cpu;
pub use finishing::finished;
pub use image::{code_from, want_of};
pub use laws::{refuses_what_is_not_spelled, runs_what_is_spelled};
pub use operands::{address, target};
pub use want::{BadStep, Change, Door, Want};
