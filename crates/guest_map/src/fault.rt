//! Why a guest can't begin.

ghost use Rattle.guest_map.specs.declared.fault.LayFault.TheVariants.{Memory};
ghost use Rattle.std.specs.Prelude.{◌≡◌};

use std::alloc::AllocError;
use thiserror::Error;

/// Why no memory was laid out.
#[derive(Clone, Copy, Debug, Error)]
pub enum LayFault {
    /// The image's segment of this place has a reserved address, and none before it has one.
    #[error("segment {0} has an address that is kept for stacks")]
    Clash(usize),
    /// The arguments have more than 4,096 bytes, each with its zero byte.
    #[error("the arguments have more than 4096 bytes")]
    ArgsTooLong,
    /// Memory ran out.
    #[error("no memory")]
    Memory(AllocError),
}

impl From<AllocError> for LayFault {
    ghost from_gives = { λ e f. f ≡ Memory e };

    fn from(e: AllocError) -> LayFault {
        LayFault::Memory(e)
    }
}
