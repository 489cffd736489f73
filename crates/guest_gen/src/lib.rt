//! A program whose whole result is known before it runs.
//!
//! [`generate`] makes the image of a guest in which up to 63 threads add a number of their own to two
//! counters, again and again: to one by a locked instruction, to the other under a mutex. Then it writes
//! both counters. Its contract is by the definition `IsGenerated` (`specs/Generated.antt`): the lines of
//! assembly that `specs/Program.antt` lists are spelled one after another from the two addresses, by any
//! spelling that the table of `x86_forms` has.
//!
//! The crate stands on `x86_forms`, `elf_image`, `elf_writer` and `guest_asm`.
#![tactic(auto)]

mod assembling;
mod generating;
mod line;
mod program;
#[cfg(test)]
mod tests;

pub use generating::generate;
