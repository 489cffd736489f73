//! The slow program that computes the serial order, for tests alone; no running code calls it.
//!
//! `serial_plain` is `IsSerial`: it answers the journal of the serial run of a case, and the machine after it. It keeps
//! the machine and the gate of `machine_plain` side by side, and has one function for each definition of the serial
//! order of `machine_model` (`specs/Serial.antt`), so a test that compares a worked run with it compares it with the
//! definition. In `walk` is what a turn asks of the machine and the gate, in `turns` one thread's turn, in `serial` the
//! rounds.
#![tactic(auto)]

mod serial;
mod turns;
mod walk;

pub use serial::{PlainSerial, serial_plain};
