//! Where bytes stop being a journal.
use std::alloc::AllocError;
use thiserror::Error;

/// Where bytes stop being a journal.
#[derive(Clone, Copy, PartialEq, Eq, Debug, Error)]
#[error("no journal at byte {offset}")]
pub struct PackFault {
    /// 0 where the first four bytes aren't those of every journal, else the place of the first byte of the first entry
    /// that is none.
    pub offset: u64,
}

/// Why no entries were read.
#[derive(Clone, Copy, Debug, Error)]
pub enum PackFailure {
    /// The bytes are no journal.
    #[error("{0}")]
    Fault(PackFault),
    /// No memory was left for the entries.
    #[error("no memory")]
    Memory(AllocError),
}
