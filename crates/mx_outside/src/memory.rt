//! Sources, sinks and files in memory, with calls that fail by their number.
mod calls;
mod files;
mod names;
mod sink;
mod source;

pub use files::MemoryFiles;
pub use sink::MemorySink;
pub use source::MemorySource;
