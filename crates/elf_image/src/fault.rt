//! Why bytes are no image.

ghost use Rattle.std.specs.Prelude.{◌≡◌};
ghost use Rattle.elf_image.specs.First.{number_of};
ghost use Rattle.elf_image.specs.declared.fault.LoadFault.TheVariants.{Memory};

use std::alloc::AllocError;
use thiserror::Error;

/// What is wrong with the bytes of a file, in the order in which it is looked for. Headers and
/// sections are numbered from 0, headers of every type among them.
#[derive(Clone, Copy, Debug, PartialEq, Eq, Error)]
pub enum ElfFault {
    /// There are fewer than 64 bytes, so no whole file header.
    #[error("fewer than 64 bytes")]
    Short,
    /// The identification isn't that of ELF, 64-bit, little-endian, version 1.
    #[error("no ELF64 file with little-endian numbers")]
    NotElf64,
    /// The file isn't an executable at a fixed address (ET_EXEC) for x86-64 (EM_X86_64).
    #[error("no executable at a fixed address for x86-64")]
    Kind,
    /// The table of program headers (0) or of sections (1) has entries of another size, or passes
    /// the file's end.
    #[error("header table {0} isn't whole")]
    Headers(u32),
    /// The file asks for a dynamic linker in a way that isn't read.
    #[error("a dynamic linker is asked for")]
    Dynamic,
    /// The PT_LOAD header of this number has more bytes in the file than in memory, passes the
    /// file's end, or ends above 2^47.
    #[error("program header {0} can't be loaded")]
    Segment(u32),
    /// The segment of the header of this number can be both written and run.
    #[error("the segment of program header {0} can be both written and run")]
    WriteExec(u32),
    /// The segments of the headers of these numbers share an address.
    #[error("the segments of program headers {0} and {1} overlap")]
    Overlap(u32, u32),
    /// The segments have more than 67,108,864 bytes.
    #[error("the segments have more than 67,108,864 bytes")]
    Size,
    /// The symbol table, the section of this number, isn't whole, or its strings aren't.
    #[error("the symbol table, section {0}, isn't whole")]
    Symbols(u32),
    /// Two functions of the library have this address, or it is kept for those that a dynamic
    /// linker places.
    #[error("two functions of the library at {0:#x}")]
    LibClash(u64),
    /// The entry is in no segment that can be run.
    #[error("the entry can't be run")]
    Entry,
}

impl ElfFault {
    /// The number by which the fault is reported, from 1 to 12.
    pub fn number(&self) -> u8
        ensures { result ≡ number_of self.now }
    {
        match self {
            ElfFault::Short => 1,
            ElfFault::NotElf64 => 2,
            ElfFault::Kind => 3,
            ElfFault::Headers(_) => 4,
            ElfFault::Dynamic => 5,
            ElfFault::Segment(_) => 6,
            ElfFault::WriteExec(_) => 7,
            ElfFault::Overlap(_, _) => 8,
            ElfFault::Size => 9,
            ElfFault::Symbols(_) => 10,
            ElfFault::LibClash(_) => 11,
            ElfFault::Entry => 12,
        }
    }
}

/// Why no image was loaded.
#[derive(Clone, Copy, Debug, Error)]
pub enum LoadFault {
    /// The bytes are at fault.
    #[error(transparent)]
    Fault(ElfFault),
    /// Memory ran out.
    #[error("no memory")]
    Memory(AllocError),
}

impl From<AllocError> for LoadFault {
    ghost from_gives = { λ e f. f ≡ Memory e };

    fn from(e: AllocError) -> LoadFault {
        LoadFault::Memory(e)
    }
}
