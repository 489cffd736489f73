//! From a program's file, a text of blocks, arguments and an input to the shared state of a run that begins.
//!
//! [`prepare`] reads what a run names, in the order in which it can be refused, and gives the case of the run with its first
//! memory; [`open`] lifts the blocks of its first places and puts all of it into one [`Hall`](hall_core::Hall). The stages stand
//! alone, too: [`read_program_file`], [`read_image`], [`read_program`], [`first_places`] and [`read_input`]. [`ImageLifter`]
//! lifts for runs what they miss. Their contracts cite `IsProgram`, `IsCaseOf` and `Refuses` of `specs/`.
#![tactic(auto)]

mod fault;
mod first;
mod lifter;
mod places;
mod preparing;
mod program;

pub use fault::StartFault;
pub use first::open;
pub use lifter::ImageLifter;
pub use places::first_places;
pub use preparing::{Prepared, prepare, read_input};
pub use program::{Program, read_image, read_program, read_program_file};

#[cfg(test)]
mod tests;
