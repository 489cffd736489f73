//! ELF64 files of images.

ghost use Rattle.std.specs.Prelude.{◌≡◌, ◌+◌, ◌*◌, ◌^◌, ◌<◌, ◌≤◌, length, All, IfOk, OnOk};
ghost use Rattle.elf_image.specs.Layout.{IsSegment};
ghost use Rattle.elf_image.specs.Loading.{IsFaulty, IsImageOf};
ghost use Rattle.elf_writer.specs.ElfFile.{file};
ghost use Rattle.elf_writer.specs.PageAligned.{IsPageAligned};

use crate::elf::field::put;
use crate::elf::header::file_fields;
use crate::elf::layout::Layout;
use crate::elf::sections::{put_sections, section_names};
use crate::elf::segments::{put_contents, put_programs};
use crate::elf::symbols::{count_of, put_symbols, strings};
use elf_image::{Image, LibPlace, Segment};
use std::alloc::{AllocError, Global};

mod field;
mod header;
mod layout;
mod sections;
mod segments;
mod symbols;

// The file of an image with this entry, these segments and these places of the library.
fn file_of(
    alloc: Global,
    entry: u64,
    segments: &[Segment],
    places: &[LibPlace],
) -> Result<Vec<u8>, AllocError>
    requires few { length segments.now ≤ 16 }
    requires sized { All IsSegment segments.now }
    ensures bytes { IfOk result (λ v. v.items ≡ file (record { entry = entry; segments = segments.now; entries = places.now })) }
    // The addresses and the offsets fit in 64 bits.
    ensures values { OnOk result (All (λ p. p.at < 2 ^ 64) places.now) }
    ensures room { 24 * (length places.now + 1) ≤ 3 * 2 ^ 62 }
{
    let count = count_of(places);
    let layout = Layout::new(segments.len() as u64, count);
    let mut out = Vec::new(alloc);
    put(&mut out, &file_fields(entry, segments.len() as u16))?;
    put_programs(&mut out, layout.contents, segments)?;
    put_sections(&mut out, count, segments)?;
    put_symbols(&mut out, segments, places)?;
    out.extend_from_slice(strings())?;
    out.extend_from_slice(section_names())?;
    put_contents(&mut out, segments)?;
    Ok(out)
}

/// An ELF64 file of which the loader makes the image: a static program (ELF specification, "ELF
/// Header", "Program Header", "Symbol Table") with a segment of type PT_LOAD for each of the image's,
/// in their order, and a global symbol of a function for each place of the library. A segment's
/// bytes stand at an offset that is its address modulo 4096, and tools find it as a section too.
///
/// The image has at most 16 segments. The only error is want of memory.
pub fn write_elf(alloc: Global, image: &Image) -> Result<Vec<u8>, AllocError>
    requires { length image.now.segments ≤ 16 }
    // The bytes' image is this one.
    ensures image { IfOk result (λ bytes. IsImageOf bytes.items image.now) }
    // No fault of a file fits them.
    ensures sound { IfOk result (λ bytes. ¬ IsFaulty bytes.items) }
    // A segment's offset is its address, modulo a page.
    ensures aligned { IfOk result (λ bytes. IsPageAligned bytes.items) }
{
    image.facts();
    file_of(alloc, image.entry, &image.segments, &image.entries)
}
