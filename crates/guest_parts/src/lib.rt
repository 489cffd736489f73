//! How a guest runs lifted blocks in step with its thread: what it is for the two to stand together, and what each part,
//! each private step and each entry leaves of that.
//!
//! - `specs/Standing.antt` says when a guest stands with its thread: between blocks at an address, or before a part of a
//!   lifted block at a grown place (`StandsIn`). `specs/Requests.antt` says what a part's request is to the thread
//!   (`FollowsItsThread`); [`parts_follow_their_thread`] is the simulation of one part.
//! - [`run_parts`] runs the parts of a block where they lie, by an [`Engine`], as long as they are private steps;
//!   `specs/Running.antt` says where that stops.
//! - `specs/Points.antt` speaks of a turn under way, in the words of `machine_model`'s serial order; [`turns_go_on`] says
//!   how it goes from point to point.
//! - `specs/Guest.antt` has what contracts see of a guest and its relation to its thread after a journal (`IsWith`), and
//!   `specs/Entries.antt` what each kind of entry leaves of it ([`entries_leave_guests`]).
//! - `specs/Calls.antt` says what a guest asks of the library, what an answer makes of it (`guest_after`), and what the entry
//!   of such a call leaves ([`calls_leave_guests`]); [`calls_in_turns`] says what it is in a turn. [`request`],
//!   [`take_answer`] and [`place_after`] compute them.
//!
//! The crate stands on `lift_table` for faithful blocks, on `ir_meaning` for what parts do and on `machine_model` for the
//! plain machine, blocks under way and the serial order. It knows no shared state: `thread_step` stands on it.
#![tactic(auto)]

mod block;
mod calls;
mod engine;
mod laws;
#[cfg(test)]
mod tests;

pub use block::{Step, Stop, one_part, run_parts};
pub use calls::{place_after, request, take_answer};
pub use engine::{Engine, PlainEngine};
pub use laws::{
    calls_in_turns, calls_leave_guests, entries_leave_guests, instructions_are_finished,
    parts_follow_their_thread, turns_go_on,
};
