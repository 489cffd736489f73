//! The entries of a guest's thread in the shared state: what each is to the plain machine, and what it leaves of the guest.
//!
//! An entry is a step of memory ([`access`]), a request of the library ([`call`]), a miss with the growth after it
//! ([`growth`]), a write that goes to memory ([`flushes`], [`settle`]), or one that tells private steps or ends the run at the
//! limit ([`tells`]). What it comes to is said by `Entered` of `specs/Entered.antt`, in the words of the serial order; where
//! memory was wanting, by `Partly`. [`Lifter`] lifts what a thread misses.
//!
//! The crate stands on `hall_core` for the shared state and on `guest_steps` for the guest's private side. Turns stand in
//! `thread_step`.
#![tactic(auto)]

pub mod access;
pub mod call;
pub mod flushes;
pub mod growth;
mod lifter;
pub mod settle;
pub mod tells;

pub use lifter::Lifter;
