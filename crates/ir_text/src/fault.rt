use std::alloc::AllocError;
use thiserror::Error;

/// The first place at which a text stops being the beginning of a text of the grammar.
#[derive(Clone, Copy, PartialEq, Eq, Debug)]
pub struct TextFault {
    /// The line, counted from 1.
    pub line: u64,
    /// The byte in the line, counted from 1.
    pub column: u64,
}

/// Why no blocks were read.
#[derive(Clone, Copy, Debug, Error)]
pub enum TextFailure {
    /// The text is no text of the grammar.
    #[error("line {}, column {}: not a text of blocks", .0.line, .0.column)]
    Fault(TextFault),
    /// No memory was left for the blocks.
    #[error("no memory")]
    Memory(AllocError),
}
