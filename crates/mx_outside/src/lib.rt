//! The outside of the product: bytes that come in, bytes that go out, and files by name.
//!
//! A [`Source`] has bytes left, a [`Sink`] holds bytes, and [`Files`] is a finite map of names to
//! bytes. Each may tell what it has left, holds or names, and a contract then speaks of it; an
//! object over the operating system tells nothing of files. Each counts its own faults: a call
//! answers [`Failed`] only where that count rose in it. [`read_all`] and [`write_all`] move whole
//! byte strings. The objects in memory are for tests and for theorems over known bytes, and the
//! `Real` ones are the thin layer over the operating system.
//!
//! The commands of the product stand on this crate, and on nothing else of the outside.
//! Its contracts cite `Causes` (when a fault may come), `Bytes` (what reading to the end and
//! writing the whole do), `Names` (files as a finite map) and `Memory` (the objects in memory).
#![tactic(auto)]

mod fault;
mod files;
mod memory;
mod real;
mod sink;
mod source;

pub use fault::{Failed, FilesFault};
pub use files::Files;
pub use memory::{MemoryFiles, MemorySink, MemorySource};
pub use real::{RealFiles, RealSink, RealSource};
pub use sink::{Sink, write_all};
pub use source::{Source, read_all};

#[cfg(test)]
mod tests;
