//! The names of a dynamically linked program, bound to the functions of the library.
//!
//! [`bind`] writes into each slot that a relocation of the file names the address of its function, and
//! answers exactly the image `IsBound` (`specs/Bound.antt`), or exactly the first fault. The tables are
//! those of the ELF specification, "Dynamic Section" and "Relocation" (`specs/Dynamic.antt`,
//! `specs/Relocations.antt`); they are read where the image has them.
//!
//! The program's main path stands on it.
#![tactic(auto)]

mod binding;
mod dynamic;
mod entry;
mod fault;
mod linking;
mod name;
mod relocation;
mod slot;
mod table;

pub use fault::LinkFault;
pub use linking::bind;

#[cfg(test)]
mod tests;
