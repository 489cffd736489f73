//! The slow programs that compute the machine's definitions, for tests alone; no running code calls them.
//!
//! `play_plain` is `play`: the machine after a journal. `gated_plain` is `IsGated`: whether a journal is played and runs
//! only what is grown; a reach is computed as the least set. `next_want` is `want`: what a thread does next. Their
//! contracts cite the machine's definitions, so tests compare worked runs with these. `serial_plain` stands on them.
#![tactic(auto)]

mod cores;
mod entries;
mod gate;
mod gated;
mod machine;
mod play;
mod reach;
mod requests;
mod wants;

pub use cores::PlainCore;
pub use entries::{after_private, privately};
pub use gate::{PlainGate, PlainLatest, PlainSpot, PlainStand, is_between};
pub use gated::{PlainWalk, gated_plain};
pub use machine::{PlainFault, PlainMachine};
pub use play::play_plain;
pub use reach::{has, reach_plain};
pub use wants::next_want;
