//! What a turn goes by, and what comes of it.

use std::alloc::AllocError;

/// Called before each entry of a thread, outside the lock. A gate that waits lets others go first.
pub trait Gate {
    /// The thread with this number is about to make its `nth` entry, counted from 0.
    fn pass(&self, thread: u32, nth: u64);
}

/// The gate that never waits.
#[derive(Clone, Copy, Debug, PartialEq, Eq)]
pub struct OpenGate;

impl Gate for OpenGate {
    fn pass(&self, _thread: u32, _nth: u64) {}
}

/// How turns go: a turn makes at most `turn` entries that cost of its budget (1 to 65,536), a write waits for at most `hold`
/// turns of its thread (at most 255), and a strict run ends at a miss.
#[derive(Clone, Copy, Debug, PartialEq, Eq)]
pub struct Rules {
    pub turn: u32,
    pub hold: u32,
    pub strict: bool,
}

/// Why a turn ended.
#[derive(Debug, PartialEq, Drop)]
pub enum Turned {
    /// The budget was spent, or the thread's life ended.
    Ran,
    /// The thread stands at a call that waits.
    Waiting,
    /// The run has an ending.
    Ended,
    /// No thread lived in the slot at the turn's first look.
    Idle,
    /// Memory was wanting; the guest and the shared state are at the last entry, or private steps past it.
    Memory(AllocError),
}
