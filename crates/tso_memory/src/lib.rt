//! x86-TSO memory of 64 threads: one memory of bytes with rights, and for each thread a store buffer.
//!
//! A store waits in its thread's buffer, a load sees the own last write that covers a byte and else memory, and a
//! flush moves the oldest write of a thread to memory (Owens, Sarkar and Sewell, "A Better x86 Memory Model:
//! x86-TSO", 2009, section 2). The buffers are rings of the kit's `circular_buffer`; nothing of this repository
//! stands below.
//!
//! Contracts see a [`Tso`] as `TsoState` of `specs/Tso.antt`: a finite map from addresses to a byte with rights, and
//! the list of each thread's waiting writes, the oldest first. No clause speaks of pieces but that of [`Tso::make`].
#![tactic(auto)]

mod access;
mod buffer;
mod change;
mod found;
pub mod laws;
mod numbers;
mod piece;
mod space;
#[cfg(test)]
mod tests;
mod tso;
mod write;

pub use access::{Access, Denied};
pub use change::Change;
pub use piece::Piece;
pub use tso::Tso;
pub use write::{PendingWrite, Width};
