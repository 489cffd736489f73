//! Why an entry isn't taken.

use std::alloc::AllocError;

/// Why an entry of a journal can't be followed, with its place, counted from 0.
#[derive(Clone, Copy, Debug, PartialEq, Eq)]
pub enum EntryFault {
    /// No step of the machine after the entries before it is such.
    NoStep(u64),
    /// It is a step, and runs or misses what it may not, or grows against the rule of growth.
    NotGated(u64),
    /// It is a step that may come, a store of a thread with 64 waiting writes. A run never writes such an entry.
    Crowded(u64),
}

/// Why a walker doesn't take an entry.
#[derive(Clone, Copy, Debug, PartialEq, Eq)]
pub enum StepFault {
    /// The entry can't be followed.
    Entry(EntryFault),
    /// Memory ran out.
    Memory(AllocError),
}

impl From<AllocError> for StepFault {
    ghost use Rattle.std.specs.Prelude.{◌≡◌};
    ghost use Rattle.replay_view.specs.declared.fault.StepFault.TheVariants.{Memory};

    ghost from_gives = { λ e f. f ≡ Memory e };

    fn from(e: AllocError) -> StepFault {
        StepFault::Memory(e)
    }
}

/// Why a journal can't be followed for so many entries.
#[derive(Clone, Copy, Debug, PartialEq, Eq)]
pub enum FollowFault {
    /// It has fewer entries: so many.
    PastEnd(u64),
    /// The first of its entries that can't be followed.
    Entry(EntryFault),
    /// Memory ran out.
    Memory(AllocError),
}

impl From<AllocError> for FollowFault {
    ghost use Rattle.std.specs.Prelude.{◌≡◌};
    ghost use Rattle.replay_view.specs.declared.fault.FollowFault.TheVariants.{Memory};

    ghost from_gives = { λ e f. f ≡ Memory e };

    fn from(e: AllocError) -> FollowFault {
        FollowFault::Memory(e)
    }
}
