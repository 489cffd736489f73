//! Condition variables, barriers and one-time initialisation of POSIX threads, told as data: who waits where, and what
//! a call changes.
//!
//! Nothing here blocks. [`Rooms`] keeps who sleeps at which condition variable, the barriers with their waiters, which
//! controls run or are done, and the phase of each thread. [`Rooms::ask`] carries out one call of one thread, and its
//! contract cites `row` (`specs/Row.antt`), which tells each function by cases in a definition of its own: condition
//! variables in `specs/Conditions.antt`, barriers in `specs/Barriers.antt`, `pthread_once` in `specs/Once.antt`, over
//! the data of `specs/Rooms.antt`. A thread that is put to sleep asks again, with the same arguments, until it is let
//! go.
//!
//! The crate stands on none of ours. The library's table stands on it: it knows who holds which mutex, and which
//! routines run.
#![tactic(auto)]

mod ask;
mod barriers;
mod conditions;
mod limits;
mod line;
mod once;
mod phases;
mod rooms;
mod state;
mod table;
#[cfg(test)]
mod tests;

pub use ask::{Outcome, SyncName};
pub use limits::{EBUSY, EINVAL, EPERM, SERIAL_THREAD};
pub use rooms::Rooms;
