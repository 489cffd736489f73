//! What entries come to for the threads that they don't name, and for the lives of threads: laws of the plain machine.
//!
//! - `others`: what entries leave of the slots that they don't name, and that a turn makes entries of its own thread alone;
//! - `lives`: what a request of the library does to the lives of threads, and what an entry makes of one number's life;
//! - `controls`: what an entry does to a control of `pthread_once`, and to the call back that runs its routine.
//!
//! Each law is the contract of a function that does nothing. They stand on the definitions of `machine_model` and cite no
//! other; the words that only they use are in `specs`.
#![tactic(auto)]

pub mod controls;
pub mod lives;
pub mod others;
