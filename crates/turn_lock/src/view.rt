//! What a seat at the lock's table knows, and the kinds of steps that seats make there.
use crate::story::Story;
use atomic_table::{Join, Play, Split, TableRule};
use std::collections::LinkedList;
use std::snapshot::Snapshot;

/// What a seat knows. No value of it is ever made.
pub struct View<T> {
    /// The value as it was when a seat without a number was made.
    pub fresh: Option<T>,
    /// The numbers that this seat stands for, each with the value as it was last seen. While the seat has the turn, the first has the value that it took.
    pub passes: LinkedList<(u64, T)>,
    /// It has the turn.
    pub holds: bool,
}

/// The rule of the lock's table. Its key is the first value and the number of passes.
pub struct Law;

impl<T: Story> TableRule<Option<T>, View<T>, (Snapshot<T>, u32)> for Law {
    ghost use Rattle.turn_lock.specs.Rule.{Ruled, fresh};

    ghost holds = { λ key. Ruled T.case T.entries T.number key.1 };

    ghost first = { λ key. fresh key.0.value };
}

/// Takes the turn, where word 0 is as expected.
pub(crate) struct Takes;

impl<T: Story> Play<Option<T>, View<T>> for Takes {
    ghost use Rattle.turn_lock.specs.Rule.{takes};

    ghost then = { takes T.case T.entries T.number };
}

/// Gives the turn back.
pub(crate) struct Gives;

impl<T: Story> Play<Option<T>, View<T>> for Gives {
    ghost use Rattle.turn_lock.specs.Rule.{gives};

    ghost then = { gives };
}

/// Draws the next number, where word 1 is as expected.
pub(crate) struct Draws;

impl<T: Story> Play<Option<T>, View<T>> for Draws {
    ghost use Rattle.turn_lock.specs.Rule.{draws};

    ghost then = { draws };
}

/// Makes a second seat that has no number yet.
pub(crate) struct Copies;

impl<T> Split<View<T>> for Copies {
    ghost use Rattle.turn_lock.specs.Rule.{unnumbered};

    ghost left = { λ v. v };

    ghost right = { unnumbered };
}

/// Puts what a second seat stands for before what the first does.
pub(crate) struct Gathers;

impl<T> Join<View<T>> for Gathers {
    ghost use Rattle.turn_lock.specs.Rule.{gathered, spent};

    ghost both = { gathered };

    ghost spent = { spent };
}
