//! The headers of an ELF64 file, its symbols, and how they are read.
//!
//! Fields and their names are those of the ELF specification ("ELF Header", "Program Header",
//! "Sections", "Symbol Table"), without their prefixes. All are little-endian.

ghost use Rattle.std.specs.Prelude.{◌≡◌, ◌+◌, ◌≤◌, length};
ghost use Rattle.elf_image.specs.Elf.{number_at, file_header, program_header, section_header, symbol};

use byteorder::{ByteOrder, LittleEndian};

/// The fields of the file header that are read.
#[derive(Clone, Copy)]
pub(crate) struct FileHeader {
    pub kind: u16,
    pub machine: u16,
    pub entry: u64,
    pub phoff: u64,
    pub shoff: u64,
    pub phentsize: u16,
    pub phnum: u16,
    pub shentsize: u16,
    pub shnum: u16,
}

/// The fields of a program header that are read.
#[derive(Clone, Copy)]
pub(crate) struct ProgramHeader {
    pub kind: u32,
    pub flags: u32,
    pub offset: u64,
    pub vaddr: u64,
    pub filesz: u64,
    pub memsz: u64,
}

/// The fields of a section header that are read.
#[derive(Clone, Copy)]
pub(crate) struct SectionHeader {
    pub kind: u32,
    pub offset: u64,
    pub size: u64,
    pub link: u32,
    pub entsize: u64,
}

/// The fields of a symbol that are read.
#[derive(Clone, Copy)]
pub(crate) struct Symbol {
    pub name: u32,
    pub info: u8,
    pub section: u16,
    pub value: u64,
}

#[tactic(auto, unfolding(crate::specs::Elf::number_at))]
fn u8_at(bytes: &[u8], at: usize) -> u8
    requires { at + 1 ≤ length bytes.now }
    ensures { result ≡ number_at 1 at bytes.now }
{
    bytes[at]
}

#[tactic(auto, unfolding(crate::specs::Elf::number_at))]
fn u16_at(bytes: &[u8], at: usize) -> u16
    requires { at + 2 ≤ length bytes.now }
    ensures { result ≡ number_at 2 at bytes.now }
{
    LittleEndian::read_u16(&bytes[at..])
}

#[tactic(auto, unfolding(crate::specs::Elf::number_at))]
fn u32_at(bytes: &[u8], at: usize) -> u32
    requires { at + 4 ≤ length bytes.now }
    ensures { result ≡ number_at 4 at bytes.now }
{
    LittleEndian::read_u32(&bytes[at..])
}

#[tactic(auto, unfolding(crate::specs::Elf::number_at))]
fn u64_at(bytes: &[u8], at: usize) -> u64
    requires { at + 8 ≤ length bytes.now }
    ensures { result ≡ number_at 8 at bytes.now }
{
    LittleEndian::read_u64(&bytes[at..])
}

#[tactic(auto, unfolding(crate::specs::Elf::file_header))]
pub(crate) fn read_file_header(bytes: &[u8]) -> FileHeader
    requires { 64 ≤ length bytes.now }
    ensures { result ≡ file_header bytes.now }
{
    FileHeader {
        kind: u16_at(bytes, 16),
        machine: u16_at(bytes, 18),
        entry: u64_at(bytes, 24),
        phoff: u64_at(bytes, 32),
        shoff: u64_at(bytes, 40),
        phentsize: u16_at(bytes, 54),
        phnum: u16_at(bytes, 56),
        shentsize: u16_at(bytes, 58),
        shnum: u16_at(bytes, 60),
    }
}

#[tactic(auto, unfolding(crate::specs::Elf::program_header))]
pub(crate) fn read_program_header(bytes: &[u8], at: usize) -> ProgramHeader
    requires { at + 56 ≤ length bytes.now }
    ensures { result ≡ program_header bytes.now at }
{
    ProgramHeader {
        kind: u32_at(bytes, at),
        flags: u32_at(bytes, at + 4),
        offset: u64_at(bytes, at + 8),
        vaddr: u64_at(bytes, at + 16),
        filesz: u64_at(bytes, at + 32),
        memsz: u64_at(bytes, at + 40),
    }
}

#[tactic(auto, unfolding(crate::specs::Elf::section_header))]
pub(crate) fn read_section_header(bytes: &[u8], at: usize) -> SectionHeader
    requires { at + 64 ≤ length bytes.now }
    ensures { result ≡ section_header bytes.now at }
{
    SectionHeader {
        kind: u32_at(bytes, at + 4),
        offset: u64_at(bytes, at + 24),
        size: u64_at(bytes, at + 32),
        link: u32_at(bytes, at + 40),
        entsize: u64_at(bytes, at + 56),
    }
}

#[tactic(auto, unfolding(crate::specs::Elf::symbol))]
pub(crate) fn read_symbol(bytes: &[u8], at: usize) -> Symbol
    requires { at + 24 ≤ length bytes.now }
    ensures { result ≡ symbol bytes.now at }
{
    Symbol {
        name: u32_at(bytes, at),
        info: u8_at(bytes, at + 4),
        section: u16_at(bytes, at + 6),
        value: u64_at(bytes, at + 8),
    }
}
