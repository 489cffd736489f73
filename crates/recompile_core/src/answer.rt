//! What a call answers.

use endings::Ending;
use journal_pack::Journal;
use machine_model::case::Case;

/// The answer of a call.
#[derive(Drop)]
pub struct Answer {
    /// How it ended.
    pub ending: Ending,
    /// The exit status, that of the ending.
    pub status: u8,
    /// The case of the run, where there was one.
    pub case: Option<Case>,
    /// The journal of the run; empty where there was none.
    pub journal: Journal,
}
