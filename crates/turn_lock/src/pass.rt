//! A thread's pass to a lock, and the value while that thread has the turn.
ghost use Rattle.turn_lock.specs.Rule.{IsIdle, IsHolding};

use crate::view::View;
use atomic_table::Seat;

/// A right to take turns at one lock. It has no bytes. Contracts see its lock, its number, the case, and the entries that it has seen.
#[derive(Drop)]
pub struct Pass<T> {
    pub(crate) seat: Seat<Option<T>, View<T>>,
    ghost idle: { IsIdle seat.me },
}

/// The value of a lock, while the thread of this pass has the turn. It can't be dropped: `Turn::give` ends it.
pub struct Held<T> {
    pub(crate) seat: Seat<Option<T>, View<T>>,
    pub(crate) value: T,
    ghost out: { IsHolding seat.me },
}

impl<T> Held<T> {
    ghost use Rattle.std.specs.Prelude.{◌≡◌};
    ghost use Rattle.std.specs.Borrow.{sem};
    ghost use Rattle.turn_lock.specs.Lending.{LendsValue};
    ghost use Rattle.turn_lock.specs.Words.{held_value};

    /// The value, to read and to change.
    pub fn value(&mut self) -> &mut T
        ensures* writes_back { sem 𝓛 (LendsValue T.row self.entry result) }
        ensures value { result.now ≡ held_value self.old }
    {
        &mut self.value
    }
}
