//! What a guest keeps of its thread.

use crate::ages::Ages;
use crate::kept::Kept;
use callbacks::Frame;
use guest_state::Virtual;

/// Where a guest is.
#[derive(Drop)]
pub enum Position {
    /// Between blocks, at this address.
    Between(u64),
    /// Before a part of a block.
    Inside { kept: Kept, part: usize },
}

/// The virtual registers; where the guest is; the instruction finished last before that; the calls back under way, the
/// innermost last; the private steps since the last entry; and how long its writes have waited.
#[derive(Drop)]
pub struct Own {
    pub state: Virtual,
    pub at: Position,
    pub last: u64,
    pub frames: Vec<Frame>,
    pub k: u32,
    pub ages: Ages,
}
