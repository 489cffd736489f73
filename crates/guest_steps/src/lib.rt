//! The private side of a guest: its place in its blocks, the blocks that it keeps at hand, how long its writes have waited, and
//! the private steps of its thread up to the next entry.
//!
//! [`own::Own`] is what a guest keeps of its thread, [`kept::Kept`] a block at hand, [`stretch::stretch`] runs up to the next entry, and [`ahead::ahead`] as far as nothing of the shared
//! state is needed. What a
//! guest is to its thread is said by `Along` of `specs/Own.antt`, over `guest_parts`; why it stops by `specs/Stretched.antt`.
//!
//! The crate stands on `guest_parts` for what running a block comes to, and on `hall_core` for the blocks that are grown. The
//! entries of a thread stand in `guest_entries`, its turns in `thread_step`.
#![tactic(auto)]

pub mod ages;
pub mod ahead;
pub mod begin;
pub mod kept;
pub mod own;
pub mod stretch;
