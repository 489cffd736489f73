//! What all threads of a run share, and the journal of what they did.
//!
//! A [`Hall`] holds the case of a run, memory with the waiting writes, the library, the grown blocks, the number of steps,
//! the ending, and the journal. Its type keeps that the journal is played and gated, that memory, library, steps and ending
//! are those of the plain machine after it, and that each grown block fits its place. A call that makes a step adds exactly
//! its entry; its condition is that the entry may come, so no call can bring the two apart.
//!
//! What contracts see of a hall is its case, journal, blocks, marks and room: `HallData` in `specs/Hall.antt`. All else
//! is `machine h`, the plain machine after the journal; `specs/Shared.antt` tells what a step changes of it.
//!
//! The crate stands on `machine_model` for all definitions, on `tso_memory`, `lib_table`, `cfg_book` and `journal_pack` for
//! the parts of the state, on `guest_map` for the first memory, on `lift_table` for what a block is, and on `turn_lock` for
//! [`turn_lock::Story`], which a hall tells. A turn of a thread stands on it.
#![tactic(auto)]

mod asks;
mod entries;
mod events;
mod fits;
mod hall;
mod make;
mod shared;

pub use fits::Fits;
pub use hall::{Hall, HallGrow};
