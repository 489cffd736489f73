//! Why no blocks were read.

use ir_text::TextFault;
use std::alloc::AllocError;
use thiserror::Error;

/// Why a file gives no blocks.
#[derive(Clone, Copy, Debug, Error)]
pub enum IrFault {
    /// Reading the file failed, and the files counted it.
    #[error("the file can't be read")]
    ReadFault,
    /// No file has the name.
    #[error("no file has this name")]
    Absent,
    /// The file has more than 268,435,456 bytes.
    #[error("there are more bytes than are taken")]
    TooLong,
    /// The bytes aren't a text of blocks from this place on, or an op or an end of a part isn't well typed that begins here.
    #[error("line {}, column {}: not a text of blocks that are well typed", .0.line, .0.column)]
    Text(TextFault),
    /// No memory was left.
    #[error("no memory")]
    Memory(AllocError),
}
