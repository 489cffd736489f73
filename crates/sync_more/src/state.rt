//! What is kept of each object and of each thread.

use crate::line::Line;

/// What a thread waits for. A thread has no phase where it waits for nothing here.
#[derive(Clone, Copy, Debug, PartialEq, Eq)]
pub enum Phase {
    /// It sleeps at a condition variable.
    Asleep,
    /// It was woken, and goes on once it gets this mutex.
    Woken { mutex: u64 },
    /// It waits at a barrier.
    AtBarrier,
    /// Its barrier opened, in this round, and it goes on.
    Passed { round: u64 },
}

/// Those who sleep at a condition variable, first come first, and the one mutex that they let go of. A condition
/// variable at which none sleeps isn't kept.
#[derive(Drop)]
pub struct Sleepers {
    pub mutex: u64,
    pub threads: Line,
}

/// A barrier: for how many threads it waits, those who arrived in its round, and the round, which no other barrier and
/// no other opening has.
#[derive(Drop)]
pub struct Barrier {
    pub count: u32,
    pub waiters: Line,
    pub round: u64,
}

/// The control of a `pthread_once`.
#[derive(Clone, Copy, Debug, PartialEq, Eq)]
pub enum Control {
    /// Its routine runs, begun by this thread.
    Running(u32),
    /// Its routine ran.
    Done,
}
