//! The headers and symbols that are written, as their numbers in order.
//!
//! Fields and their names are those of the ELF specification ("ELF Header", "Program Header",
//! "Sections", "Symbol Table"), without their prefixes.

ghost use Rattle.std.specs.Prelude.{◌≡◌, ◌≤◌, ◌<◌, ◌+◌};
ghost use Rattle.elf_writer.specs.ElfFile.{file_fields, flags_of, program_fields, section_fields, symbol_fields};

use crate::elf::field::Field;
use elf_image::Segment;

/// The bytes 7F, `E`, `L` and `F`.
const ELF_MAGIC: u32 = 0x464c_457f;

const ELFCLASS64: u8 = 2;

const ELFDATA2LSB: u8 = 1;

const EV_CURRENT: u8 = 1;

const ET_EXEC: u16 = 2;

const EM_X86_64: u16 = 62;

/// The sizes of a file header, of a program header and of a section header.
const EHSIZE: u16 = 64;

const PHENTSIZE: u16 = 56;

const SHENTSIZE: u16 = 64;

/// The section with the names of the sections.
const SHSTRNDX: u16 = 3;

const PT_LOAD: u32 = 1;

const PF_X: u32 = 1;

const PF_W: u32 = 2;

const PF_R: u32 = 4;

/// The size of a page, to which segments are aligned.
pub(crate) const PAGE: u64 = 4096;

/// A section header.
#[derive(Clone, Copy)]
pub(crate) struct Section {
    pub name: u32,
    pub kind: u32,
    pub flags: u64,
    pub at: u64,
    pub offset: u64,
    pub size: u64,
    pub link: u32,
    pub info: u32,
    pub align: u64,
    pub entsize: u64,
}

/// A symbol.
#[derive(Clone, Copy)]
pub(crate) struct Symbol {
    pub name: u32,
    pub info: u8,
    pub section: u16,
    pub value: u64,
}

// The file header of a program with so many segments: its program headers stand behind it, then its
// section headers, of which there are four more than segments, the fourth that of their names.
#[tactic(auto, unfolding(crate::specs::ElfFile::file_fields))]
pub(crate) fn file_fields(entry: u64, segments: u16) -> [Field; 19]
    requires { segments ≤ 16 }
    ensures { result ≡ file_fields entry segments }
{
    [
        Field::Word(ELF_MAGIC),
        Field::Byte(ELFCLASS64),
        Field::Byte(ELFDATA2LSB),
        Field::Byte(EV_CURRENT),
        Field::Byte(0),
        Field::Xword(0),
        Field::Half(ET_EXEC),
        Field::Half(EM_X86_64),
        Field::Word(1),
        Field::Xword(entry),
        Field::Xword(64),
        Field::Xword(64 + 56 * segments as u64),
        Field::Word(0),
        Field::Half(EHSIZE),
        Field::Half(PHENTSIZE),
        Field::Half(segments),
        Field::Half(SHENTSIZE),
        Field::Half(segments + 4),
        Field::Half(SHSTRNDX),
    ]
}

// The segment's rights.
#[tactic(auto, unfolding(crate::specs::ElfFile::flags_of))]
fn flags_of(s: &Segment) -> u32
    ensures { result ≡ flags_of s.now }
{
    (if s.r { PF_R } else { 0 }) + (if s.w { PF_W } else { 0 }) + (if s.x { PF_X } else { 0 })
}

// The header of a segment whose bytes stand at the offset, all of them.
#[tactic(auto, unfolding(crate::specs::ElfFile::program_fields))]
pub(crate) fn program_fields(offset: u64, s: &Segment) -> [Field; 8]
    ensures { result ≡ program_fields (record { offset = offset; segment = s.now }) }
{
    let filesz = s.size;
    [
        Field::Word(PT_LOAD),
        Field::Word(flags_of(s)),
        Field::Xword(offset),
        Field::Xword(s.at),
        Field::Xword(s.at),
        Field::Xword(filesz),
        Field::Xword(s.size),
        Field::Xword(PAGE),
    ]
}

impl Section {
    #[tactic(auto, unfolding(crate::specs::ElfFile::section_fields))]
    pub(crate) fn fields(&self) -> [Field; 10]
        ensures { result ≡ section_fields self.now }
    {
        [
            Field::Word(self.name),
            Field::Word(self.kind),
            Field::Xword(self.flags),
            Field::Xword(self.at),
            Field::Xword(self.offset),
            Field::Xword(self.size),
            Field::Word(self.link),
            Field::Word(self.info),
            Field::Xword(self.align),
            Field::Xword(self.entsize),
        ]
    }
}

impl Symbol {
    #[tactic(auto, unfolding(crate::specs::ElfFile::symbol_fields))]
    pub(crate) fn fields(&self) -> [Field; 6]
        ensures { result ≡ symbol_fields self.now }
    {
        [
            Field::Word(self.name),
            Field::Byte(self.info),
            Field::Byte(0),
            Field::Half(self.section),
            Field::Xword(self.value),
            Field::Xword(0),
        ]
    }
}
