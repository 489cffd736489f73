//! What a walker shows.

use machine_model::ending::RunEnd;
use replay_machine::Threads;

/// What stands after the entries that were taken.
#[derive(Drop, Debug)]
pub struct View {
    /// The steps that were made.
    pub steps: u64,
    /// How many places are grown, those of the case's start among them.
    pub grown: u64,
    /// How the run ended, or none where it goes on.
    pub ending: Option<RunEnd>,
    /// The threads that live, and those that ended and that no other has joined, by rising number.
    pub threads: Threads,
}
