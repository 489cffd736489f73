//! The machine at one moment, moved on in place: whether an entry is a step of it, and what that step does.
//!
//! A [`Machine`] is what the thread of each slot works on, memory with the waiting writes, the library, the steps made and
//! the ending. Contracts see it as `Machine` of `machine_model`, and cite `start`, `admits`, `step_from` and `want`.
//! [`Machine::admits`] and [`Machine::stands`] say whether an entry is a step, [`Machine::overfills_by`] whether it is a
//! store of a thread with 64 waiting writes (`specs/Machines.antt`), and none of them changes anything; [`Machine::make`]
//! makes a step. What a thread works on after the entry's private steps, and what it wants then ([`next_want`]), are the
//! caller's to find out: who asks for blocks goes through them one by one.
//!
//! An instruction is decoded and carried out by `x86_model`, whose `want` the machine's definitions cite. An entry takes time
//! of its own size, but for a request of the library and a deadlock, which look at each of the 64 slots.
//!
//! The crate stands on `machine_model` for the definitions, on `basic_blocks` for code places, on `x86_decode` and
//! `x86_model` for instructions, and on `tso_memory`, `guest_map`, `lib_table` and `callbacks` for memory and library. It
//! knows no block under way, no grown place and no journal; `replay_view` keeps these beside it.
#![tactic(auto)]

mod library;
mod machine;
mod making;
mod standing;
mod thread_core;
mod view;
mod want;

pub use machine::{Machine, slot_in};
pub use view::{ThreadView, Threads, Writes};
pub use want::next_want;
