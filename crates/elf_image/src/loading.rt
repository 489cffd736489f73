//! From the bytes of a file to the image.

ghost use Rattle.std.specs.Prelude.{◌≡◌, ◌≤◌, ℕ, List, false, length, IfOk, IfErr, MatchResult};
ghost use Rattle.elf_image.specs.declared.linking.Linking.TheVariants.{Static, Dynamic};
ghost use Rattle.elf_image.specs.Elf.{file_header, dynamic_range};
ghost use Rattle.elf_image.specs.First.{FaultsAt, IsFirstFault};
ghost use Rattle.elf_image.specs.Layout.{ImageData};
ghost use Rattle.elf_image.specs.Loading.{is_bad_table, IsFaulty, IsFaultyAs, IsImageOf, HasNoneKept};
ghost use Rattle.elf_image.specs.Sound.{HasHeaders};

use crate::entries::in_order;
use crate::fault::{ElfFault, LoadFault};
use crate::header::{FileHeader, read_file_header, read_program_header};
use crate::image::Image;
use crate::linking::Linking;
use crate::range::{Range, is_bad_table};
use crate::segments::{can_run, load_segments, segment_headers};
use crate::symbols::library_places;
use std::alloc::Global;

// The identification: ELF, 64-bit, little-endian, version 1.
const IDENTIFICATION: [u8; 7] = [0x7f, b'E', b'L', b'F', 2, 1, 1];

const ET_EXEC: u16 = 2;

const EM_X86_64: u16 = 62;

// The file header, if it is that of a program that is read and its tables of headers are whole. Else
// the first fault.
fn checked_header(bytes: &[u8]) -> Result<FileHeader, ElfFault>
    ensures { MatchResult result (λ file. (file ≡ file_header bytes.now) × HasHeaders bytes.now) (λ f. (linking : Linking) → IsFirstFault linking bytes.now f) }
{
    if bytes.len() < 64 {
        return Err(ElfFault::Short);
    }
    let identification = &bytes[..7];
    if identification != IDENTIFICATION.as_slice() {
        return Err(ElfFault::NotElf64);
    }
    let file = read_file_header(bytes);
    if file.kind != ET_EXEC || file.machine != EM_X86_64 {
        return Err(ElfFault::Kind);
    }
    if is_bad_table(bytes, file.phnum, file.phentsize, 56, file.phoff) {
        return Err(ElfFault::Headers(0));
    }
    if is_bad_table(bytes, file.shnum, file.shentsize, 64, file.shoff) {
        return Err(ElfFault::Headers(1));
    }
    Ok(file)
}

// The image of the bytes, which may or may not name functions for a dynamic linker. Else the first
// fault.
fn load_as(alloc: Global, bytes: &[u8], linking: Linking) -> Result<Image, LoadFault>
    ensures ok { IfOk result (λ image. IsImageOf bytes.now image × ¬ IsFaultyAs linking bytes.now) }
    ensures fault { IfErr result (FaultsAt linking bytes.now) }
{
    let file = match checked_header(bytes) {
        Ok(file) => file,
        Err(fault) => return Err(LoadFault::Fault(fault)),
    };
    let loads = segment_headers(alloc, bytes, file, linking)?;
    let places = library_places(alloc, bytes, file, linking)?;
    let entries = match in_order(alloc, places, linking)? {
        Ok(entries) => entries,
        Err(address) => return Err(LoadFault::Fault(ElfFault::LibClash(address))),
    };
    if !can_run(&loads, file.entry) {
        return Err(LoadFault::Fault(ElfFault::Entry));
    }
    let segments = load_segments(alloc, bytes, &loads)?;
    Ok(Image::make(alloc, file.entry, segments, entries)?)
}

/// The image that the bytes of a static ELF64 program give: its entry, its segments with all of
/// their bytes in the order of their program headers, and the places of the library's functions
/// that its symbols name (ELF specification, "Program Loading" and "Symbol Table").
///
/// Else the first fault in the order of [`ElfFault`]: what is looked for first comes first over the
/// whole file, then the header, section or address with the lowest number, then that of its partner.
/// No sum of the file's numbers wraps. The time is linear in the file, but for the sorting of
/// segments and places; nothing is allocated by a size that a field claims before the file has it.
pub fn load(alloc: Global, bytes: &[u8]) -> Result<Image, LoadFault>
    // The image is that of the bytes, and no fault fits them.
    ensures ok { IfOk result (λ image. IsImageOf bytes.now image × ¬ IsFaulty bytes.now) }
    // The fault is the first that fits the bytes; memory may run out.
    ensures fault { IfErr result (FaultsAt Static bytes.now) }
{
    load_as(alloc, bytes, Linking::Static)
}

/// What [`load_dynamic`] reads of a file.
#[derive(Drop)]
pub struct Loaded {
    /// The image as the file has it, before its names are bound.
    pub image: Image,
    /// Where the dynamic segment stands in the file, if there is one.
    pub dynamic: Option<Range>,
}

// Where the first dynamic segment stands in the file.
fn dynamic_range(bytes: &[u8]) -> Option<Range>
    requires long { 64 ≤ length bytes.now }
    requires whole { let file = file_header bytes.now in is_bad_table file.phnum file.phentsize 56 file.phoff bytes.now ≡ false }
    ensures { result ≡ dynamic_range bytes.now }
{
    let file = read_file_header(bytes);
    for n in 0..file.phnum as usize {
        let h = read_program_header(bytes, file.phoff as usize + 56 * n);
        if h.is_dynamic_segment() {
            return Some(Range {
                offset: h.offset,
                size: h.filesz,
            });
        }
    }
    None
}

/// The same of a program at a fixed address that may be linked dynamically: the image as the file has
/// it, and where its one dynamic segment (PT_DYNAMIC) stands. An interpreter (PT_INTERP) may be named
/// beside it.
///
/// The faults are those of [`load`], but `Dynamic` comes where two dynamic segments stand there, or an
/// interpreter without one, and `LibClash` also for a symbol that places a function at an address from
/// 0x700000fe0000 up to but without 0x700000fe0150, which are those of the functions that are bound.
pub fn load_dynamic(alloc: Global, bytes: &[u8]) -> Result<Loaded, LoadFault>
    // The image is that of the bytes, and no fault fits them.
    ensures ok { IfOk result (λ loaded. IsImageOf bytes.now loaded.image × ¬ IsFaultyAs Dynamic bytes.now) }
    // The range is that of the dynamic segment.
    ensures range { IfOk result (λ loaded. loaded.dynamic ≡ dynamic_range bytes.now) }
    // No function stands where those that are bound will.
    ensures free { IfOk result (λ loaded. HasNoneKept loaded.image.entries) }
    // The fault is the first that fits the bytes; memory may run out.
    ensures fault { IfErr result (FaultsAt Dynamic bytes.now) }
{
    let image = load_as(alloc, bytes, Linking::Dynamic)?;
    let dynamic = dynamic_range(bytes);
    Ok(Loaded { image, dynamic })
}

/// Bytes have one image: what `load` answers is told by them alone.
pub fn one_image()
    ensures { (bytes : List ℕ) (m n : ImageData) → IsImageOf bytes m → IsImageOf bytes n → m ≡ n }
{}
