//! The first memory of a guest: the segments of its image, and the stacks of 64 threads.
//!
//! [`lay_out`] puts the image's segments and the stacks into x86-TSO memory, with the arguments on the stack of thread
//! 0 as a process is entered (System V x86-64 psABI, section 3.4.1, "Initial Stack and Register State"). Its contract
//! cites `start_of` and `FaultsAt` of `specs/Layout.antt`: the whole of the first memory with the stack pointer, and
//! which fault comes. How the stack of thread 0 begins is `entry_stack` of `specs/Entry.antt`; which addresses are
//! kept for stacks and doors is in `specs/Addresses.antt`.
//!
//! The machine's definitions, the runs of a guest and the program's main path stand on it.
#![tactic(auto)]

mod address;
mod entry;
mod fault;
mod start;
#[cfg(test)]
mod tests;

pub use fault::LayFault;
pub use start::{Start, lay_out};
