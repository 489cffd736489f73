//! What a locked exchange writes.

ghost use Rattle.std.specs.Prelude.{◌≡◌, ◌%◌, ◌^◌};

use crate::write::Width;

/// What a locked exchange makes of the number that it finds.
#[derive(Clone, Copy, Debug, PartialEq, Eq)]
pub enum Change {
    /// The given number (XCHG).
    Xchg(u64),
    /// The sum (ADD, XADD, INC).
    Add(u64),
    /// The number less the given one (SUB, DEC).
    Sub(u64),
    And(u64),
    Or(u64),
    Xor(u64),
    /// `new` where the number is that of the lowest bytes of `want`, else the number as it was (CMPXCHG).
    Cmpxchg { want: u64, new: u64 },
}

impl Change {
    ghost use Rattle.tso_memory.specs.Buffer.{size_of};
    ghost use Rattle.tso_memory.specs.Change.{changed};

    /// The number after the change, of which the lowest bytes count (Intel SDM volume 2, ADD, AND, CMPXCHG, OR, SUB,
    /// XCHG, XOR).
    pub fn apply(self, width: Width, old: u64) -> u64
        ensures { result ≡ changed self (size_of width) old }
    {
        match self {
            Change::Xchg(value) => value,
            Change::Add(value) => old.wrapping_add(value),
            Change::Sub(value) => old.wrapping_sub(value),
            Change::And(value) => old & value,
            Change::Or(value) => old | value,
            Change::Xor(value) => old ^ value,
            Change::Cmpxchg { want, new } => { if old == width.lowest(want) { new } else { old } }
        }
    }
}
