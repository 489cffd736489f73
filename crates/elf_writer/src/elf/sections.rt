//! Section headers: one that is none, the symbols, two tables of strings, and one for each segment.

ghost use Rattle.std.specs.Prelude.{◌≡◌, ◌+◌, ◌*◌, ◌^◌, ◌<◌, ◌≤◌, ◌++◌, length, map, All, OnOk};
ghost use Rattle.std.specs.List.{flat_map};
ghost use Rattle.elf_image.specs.Layout.{IsSegment};
ghost use Rattle.elf_writer.specs.ElfFile.{no_section, symbol_section, string_section, segment_section, section_bytes, section_names, sections, placed, contents_at};

use crate::elf::field::put;
use crate::elf::header::Section;
use crate::elf::layout::{Layout, NAMES_SIZE, STRINGS_SIZE};
use crate::elf::segments::offset_behind;
use elf_image::Segment;
use std::alloc::AllocError;

const SHT_PROGBITS: u32 = 1;

const SHT_SYMTAB: u32 = 2;

const SHT_STRTAB: u32 = 3;

const SHF_WRITE: u64 = 1;

const SHF_ALLOC: u64 = 2;

const SHF_EXECINSTR: u64 = 4;

// The names of the sections, each behind a zero byte.
#[tactic(auto, unfolding(crate::specs::ElfFile::section_names))]
pub(crate) fn section_names() -> &'static [u8]
    ensures { result.now ≡ section_names }
{
    b"\0.symtab\0.strtab\0.shstrtab\0.text\0.data\0.rodata\0"
}

// The section that isn't one, which is the first.
#[tactic(auto, unfolding(crate::specs::ElfFile::no_section))]
fn no_section() -> Section
    ensures { result ≡ no_section }
{
    Section {
        name: 0,
        kind: 0,
        flags: 0,
        at: 0,
        offset: 0,
        size: 0,
        link: 0,
        info: 0,
        align: 0,
        entsize: 0,
    }
}

// So many symbols at the offset, the first of them local, with the strings of section 2.
#[tactic(auto, unfolding(crate::specs::ElfFile::symbol_section))]
fn symbol_section(offset: u64, count: u64) -> Section
    requires { 24 * count < 2 ^ 64 }
    ensures { result ≡ symbol_section offset count }
{
    Section {
        name: 1,
        kind: SHT_SYMTAB,
        flags: 0,
        at: 0,
        offset,
        size: 24 * count,
        link: 2,
        info: 1,
        align: 8,
        entsize: 24,
    }
}

// Strings at the offset.
#[tactic(auto, unfolding(crate::specs::ElfFile::string_section))]
fn string_section(name: u32, offset: u64, size: u64) -> Section
    ensures { result ≡ string_section name offset size }
{
    Section {
        name,
        kind: SHT_STRTAB,
        flags: 0,
        at: 0,
        offset,
        size,
        link: 0,
        info: 0,
        align: 1,
        entsize: 0,
    }
}

// The section of a segment whose bytes stand at the offset: .text, .data or .rodata by its rights.
#[tactic(auto, unfolding(crate::specs::ElfFile::segment_section))]
fn segment_section(offset: u64, s: &Segment) -> Section
    ensures { result ≡ segment_section (record { offset = offset; segment = s.now }) }
{
    Section {
        name: if s.x {
            27
        } else if s.w {
            33
        } else {
            39
        },
        kind: SHT_PROGBITS,
        flags: SHF_ALLOC
            + (if s.w { SHF_WRITE } else { 0 })
            + (if s.x { SHF_EXECINSTR } else { 0 }),
        at: s.at,
        offset,
        size: s.size,
        link: 0,
        info: 0,
        align: 1,
        entsize: 0,
    }
}

// Appends the section headers of segments whose bytes stand behind the offset.
fn put_segment_sections(
    out: &mut Vec<u8>,
    start: u64,
    segments: &[Segment],
) -> Result<(), AllocError>
    requires few { length segments.now ≤ 16 }
    requires sized { All IsSegment segments.now }
    requires room { start ≤ 3 * 2 ^ 62 + 2 ^ 20 }
    ensures { OnOk result (out.new.items ≡ out.old.items ++ flat_map section_bytes (map segment_section (placed start segments.now))) }
{
    let mut end = start;
    for s in segments {
        let offset = offset_behind(end, s);
        put(out, &segment_section(offset, s).fields())?;
        end = offset + s.size;
    }
    Ok(())
}

// Appends all section headers of a file with so many places.
#[tactic(auto, unfolding(crate::specs::ElfFile::sections))]
pub(crate) fn put_sections(
    out: &mut Vec<u8>,
    places: u64,
    segments: &[Segment],
) -> Result<(), AllocError>
    requires few { length segments.now ≤ 16 }
    requires sized { All IsSegment segments.now }
    requires room { 24 * (places + 1) ≤ 3 * 2 ^ 62 }
    ensures { let n = length segments.now in OnOk result (out.new.items ≡ out.old.items ++ flat_map section_bytes (sections n places (placed (contents_at n places) segments.now))) }
{
    let layout = Layout::new(segments.len() as u64, places);
    put(out, &no_section().fields())?;
    put(out, &symbol_section(layout.symbols, places + 1).fields())?;
    put(
        out,
        &string_section(9, layout.strings, STRINGS_SIZE).fields(),
    )?;
    put(out, &string_section(17, layout.names, NAMES_SIZE).fields())?;
    put_segment_sections(out, layout.contents, segments)
}
