//! One thread's turn: a guest runs the blocks of its thread and makes its entries, in step with the plain machine.
//!
//! [`Rules`] say how long a turn is and how long a write waits, a [`Lifter`] lifts what a thread misses, an [`Engine`] runs
//! parts, and [`Turned`] says why a turn ended. What a guest is to its thread, and what running its blocks comes to, is
//! said and proved in `guest_parts`; what a turn is, in `machine_model` (`specs/Serial.antt`).
//!
//! The crate stands on `hall_core` for the shared state, on `guest_steps` for a guest's private steps and on `guest_entries` for
//! the entries of its thread.
#![tactic(auto)]

mod alone;
mod context;
mod entries;
mod guest;
mod rules;
mod shared;
mod worker;

pub use alone::turn_alone;
pub use context::Context;
pub use guest::Guest;
pub use guest_entries::Lifter;
pub use guest_parts::{Engine, PlainEngine};
pub use rules::{Gate, OpenGate, Rules, Turned};
pub use shared::SharedHall;
pub use worker::turn;
