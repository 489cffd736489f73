//! Kinds of access and their refusal.

use thiserror::Error;

/// What an access does, and so which rights it needs.
#[derive(Clone, Copy, Debug, PartialEq, Eq)]
pub enum Access {
    /// Reads: needs R.
    Load,
    /// Writes: needs W.
    Store,
    /// Reads and writes in one step: needs R and W.
    Locked,
}

/// The address of the first byte that lacks a needed right.
#[derive(Clone, Copy, Debug, PartialEq, Eq, Error)]
#[error("access denied at {0:#x}")]
pub struct Denied(pub u64);
