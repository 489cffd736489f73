//! Static programs as ELF files.
//!
//! [`write_elf`] gives the bytes of a static program. Its contract cites what `elf_image` says of
//! bytes: which image they are (`IsImageOf`), and that no fault fits them (`IsFaulty`, both in
//! `specs/Loading.antt` there); `IsPageAligned` (`specs/PageAligned.antt`) says where segments stand.
//! How the file is laid out (`specs/ElfFile.antt`) is this crate's own matter.
//!
//! [`row_image`] makes the image in which the worked programs stand, exactly `row_data`
//! (`specs/RowImage.antt`), for tests.
//!
//! The crate stands on `elf_image`; `guest_asm` passes both calls on.
#![tactic(auto)]

mod elf;
#[cfg(test)]
mod file_tests;
mod rows;

pub use elf::write_elf;
pub use rows::{Piece, row_image};
