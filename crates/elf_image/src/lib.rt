//! A static program for x86-64 as it stands in memory, read from its ELF64 file.
//!
//! [`load`] answers exactly the image that the bytes are, and else exactly the first fault that fits
//! them. Its contract cites `IsImageOf` and `Fits` (`specs/Loading.antt`), which speak of the file
//! header, program headers, sections and symbols of the ELF specification (`specs/Elf.antt`) and of the
//! names of the library's functions (`specs/Library.antt`), and `IsFirstFault`, which has their order
//! (`specs/First.antt`). [`load_dynamic`] does the same for programs that are linked dynamically; the
//! crate `dyn_link` binds their names. What every image keeps is `IsImage` (`specs/Layout.antt`):
//! [`Image::facts`] tells it.
//!
//! The machine's definitions, the writer of ELF files and the program's main path stand on it.
#![tactic(auto)]

mod entries;
mod fault;
mod header;
mod image;
mod index;
mod linking;
mod loading;
mod overlap;
mod place;
mod range;
mod segment;
mod segments;
mod symbols;

pub use fault::{ElfFault, LoadFault};
pub use image::Image;
pub use linking::Linking;
pub use loading::{Loaded, load, load_dynamic, one_image};
pub use place::{Function, LibPlace};
pub use range::Range;
pub use segment::Segment;

#[cfg(test)]
mod tests;
