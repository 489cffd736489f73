//! Which files are read.

/// Whether a file may name functions of the library for a dynamic linker.
#[derive(Clone, Copy, Debug, PartialEq, Eq)]
pub enum Linking {
    /// The file has neither a dynamic segment nor an interpreter.
    Static,
    /// The file has one dynamic segment at most, and no interpreter without one.
    Dynamic,
}
