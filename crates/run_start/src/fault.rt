//! Why a run can't begin.

ghost use Rattle.std.specs.Prelude.{◌≡◌};
ghost use Rattle.run_start.specs.declared.fault.StartFault.TheVariants.{Memory};

use ir_syntax::Block;
use ir_text::TextFault;
use std::alloc::AllocError;

/// Why there is no case of a run.
#[derive(Debug, Drop)]
pub enum StartFault {
    /// The program is no image that can be run. The number is that of the loader's first fault (1 to 12), of the linker's
    /// (15 to 17), or of why it can't be put into memory (13 and 14).
    Image(u8),
    /// Reading a file or the input failed.
    ReadFault,
    /// A file isn't there.
    Absent,
    /// The text of blocks isn't one, or an op or an end in it isn't well typed: the first place at which it is wrong.
    IrText(TextFault),
    /// A block isn't what lifting gives at its address: the address, the block, and what lifting gives.
    Stale {
        /// The address of both blocks.
        address: u64,
        /// The block that was read.
        file: Block,
        /// The block that lifting gives there; it has no bytes and no parts where the address is no code place.
        lifted: Block,
    },
    /// Two blocks of the text have this address.
    Twice(u64),
    /// The program's file has more than 67,108,864 bytes, the text of blocks more than 268,435,456, or the input more than
    /// 16,777,216.
    TooLong,
    /// More than 65,536 places are reached from the entry, or the text has more than 65,536 blocks.
    TooMany,
    /// Memory ran out.
    Memory(AllocError),
}

impl From<AllocError> for StartFault {
    ghost from_gives = { λ e f. f ≡ Memory e };

    fn from(e: AllocError) -> StartFault {
        StartFault::Memory(e)
    }
}
