//! Why a program's names can't be bound.

ghost use Rattle.std.specs.Prelude.{◌≡◌};
ghost use Rattle.dyn_link.specs.declared.fault.LinkFault.TheVariants.{Memory};

use std::alloc::AllocError;
use thiserror::Error;

/// Why no image was bound, in the order in which it is looked for. Relocations are counted from 0,
/// those of DT_RELA first, then those of DT_JMPREL.
#[derive(Clone, Copy, Debug, Error)]
pub enum LinkFault {
    /// The dynamic segment or a table that it names can't be read.
    #[error("the dynamic segment or one of its tables can't be read")]
    Table,
    /// The relocation of this number has another type than R_X86_64_GLOB_DAT and R_X86_64_JUMP_SLOT, or
    /// its slot isn't in one writable segment, or its symbol or name isn't in the tables.
    #[error("relocation {0} can't be carried out")]
    Reloc(u64),
    /// The relocation of this number names no function of the library, and its symbol isn't weak.
    #[error("relocation {0} names no function of the library")]
    Unknown(u64),
    /// Memory ran out.
    #[error("no memory")]
    Memory(AllocError),
}

impl From<AllocError> for LinkFault {
    ghost from_gives = { λ e f. f ≡ Memory e };

    fn from(e: AllocError) -> LinkFault {
        LinkFault::Memory(e)
    }
}
