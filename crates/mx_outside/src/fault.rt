use std::alloc::AllocError;
use thiserror::Error;

/// A source, a sink or files failed, and counted it.
#[derive(Clone, Copy, Debug, PartialEq, Eq, Error)]
#[error("an outside object failed")]
pub struct Failed;

/// Why a file, or a source to its end, was not read.
#[derive(Clone, Copy, Debug, PartialEq, Eq, Error)]
pub enum FilesFault {
    /// The object failed, and its count of faults rose.
    #[error("an outside object failed")]
    Failed,
    /// No file has the name.
    #[error("no file has this name")]
    Absent,
    /// There are more bytes than the caller takes.
    #[error("there are more bytes than are taken")]
    TooLong,
    /// No memory is left for the bytes.
    #[error(transparent)]
    Memory(AllocError),
}
