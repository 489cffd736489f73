//! How a run ends.
use lib_table::BadKind;
use miss_report::Miss;

/// A run's ending.
#[derive(Clone, Copy, Debug, PartialEq, Eq)]
pub enum RunEnd {
    /// The guest called `exit` with this number, of 32 bits.
    Exit(u32),
    /// In a strict run, a thread came to code that isn't grown.
    Miss(Miss),
    /// A step that can't be made: by which thread, at which instruction, door or library place, and why.
    Fault {
        thread: u32,
        rip: u64,
        kind: BadKind,
    },
    /// Every live thread waits for another, and no write waits.
    Deadlock,
    /// The limit of steps is reached.
    Steps,
    /// The thread came to code that isn't grown at `place`, and no more places may be grown.
    Full {
        thread: u32,
        place: u64,
    },
}
