//! The slots in which threads live.

ghost use Rattle.std.specs.Prelude.{◌≡◌};

use crate::life::Life;

/// A slot, in which at most one thread lives or has ended at a time. Its threads' numbers are the slot's own and 64 more
/// for each that came before.
#[derive(Clone, Copy, Debug, PartialEq, Eq)]
pub struct Slot {
    /// How many of its threads were joined.
    pub generation: u32,
    /// What has become of the next number: unborn, live or ended.
    pub life: Life,
}

/// For what a live thread was born.
#[derive(Clone, Copy, Debug, PartialEq, Eq)]
pub struct Birth {
    /// The thread's number.
    pub thread: u32,
    /// The address of its start function.
    pub start: u64,
    /// The function's argument.
    pub argument: u64,
}

impl Slot {
    ghost use Rattle.lib_table.specs.Library.{has_number, is_free, life_in, new_slot};

    /// A slot before its first thread.
    pub(crate) fn new() -> Slot
        ensures { result ≡ new_slot }
    {
        Slot {
            generation: 0,
            life: Life::Unborn,
        }
    }

    /// Whether no thread lives or has ended in it.
    pub(crate) fn is_free(&self) -> bool
        ensures { result ≡ is_free self.now }
    {
        self.life.is_unborn()
    }

    /// Whether it has a number for a further thread, or a thread.
    pub(crate) fn has_number(&self) -> bool
        ensures { result ≡ has_number self.now }
    {
        !self.is_free() || self.generation < 1 << 26
    }

    /// The life of the slot's number before which so many threads came.
    #[tactic(auto, unfolding(crate::specs::Library::life_in))]
    pub(crate) fn life_in(&self, generation: u64) -> Life
        ensures { result ≡ life_in self.now generation }
    {
        let own = u64::from(self.generation);
        if generation < own {
            Life::Joined
        } else if generation == own {
            self.life
        } else {
            Life::Unborn
        }
    }
}
