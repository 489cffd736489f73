//! Follows one journal step by step: a journal is a certificate of its run, since anyone can walk through it, and one that
//! is no run of its case is refused at its first wrong entry.
//!
//! A [`Walker`] takes one entry after another ([`Walker::step`]): it refuses one that is no step of the machine, one that
//! runs, misses or grows what it may not, and a store of a thread with 64 waiting writes, and is as before then.
//! [`walk_to`] takes the first n entries of a journal, and [`follow`] answers the [`View`] after them: the live and ended
//! threads with registers, flags and waiting writes (`specs/Views.antt`). Contracts cite `step`, `advance` and `IsAllowed` of
//! `machine_model`: `Follows` (`specs/Follow.antt`) says which entries are taken from a moment on, `Fits` why one isn't, and
//! `FollowFaults` (`specs/Faults.antt`) that the fault of a journal is that of its first such entry.
//!
//! An entry is weighed before anything changes (`moment`): its thread's private steps are made once, on what it works on and
//! on its place in its block together. Then machine and gate change in place. So a journal takes time in proportion to its
//! steps and entries; a request of the library looks at each of the 64 slots, and a growth at each place of the reach of its
//! miss, which is kept until another is asked for.
//!
//! The crate stands on `replay_machine` for the machine, on `machine_model` for the definitions, on `basic_blocks` and
//! `additive_lift` for blocks and reaches, and on `journal_pack`. It knows no shared state, lock or thread.
#![tactic(auto)]

mod fault;
mod following;
mod gate;
mod grown;
pub mod laws;
mod moment;
mod private_step;
mod reached;
mod rest;
mod view;
mod walker;

pub use fault::{EntryFault, FollowFault, StepFault};
pub use following::{follow, walk_to};
pub use replay_machine::{ThreadView, Threads, Writes};
pub use view::View;
pub use walker::Walker;
