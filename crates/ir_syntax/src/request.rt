use crate::width::Width;

/// How a locked step changes the value in memory.
#[derive(Clone, Copy, Debug, PartialEq, Eq)]
pub enum Change {
    Xchg(u64),
    Add(u64),
    Sub(u64),
    And(u64),
    Or(u64),
    Xor(u64),
    /// Memory becomes `new` where it is `want`, else it keeps its value.
    Cmpxchg { want: u64, new: u64 },
}

/// Why a step cannot be made.
#[derive(Clone, Copy, Debug, PartialEq, Eq)]
pub enum BadKind {
    /// The bytes spell no instruction.
    Code,
    /// The first byte of an access that lacks the needed right.
    Access(u64),
    /// The divisor is 0, or the quotient does not fit.
    Divide,
    /// Too many callback frames stand.
    Depth,
    /// A return to a door that is not open.
    Door,
}

/// What a part asks for.
#[derive(Clone, Copy, Debug, PartialEq, Eq)]
pub enum Request {
    /// Nothing: the step is private.
    Tick,
    /// The value of w bits at a.
    Load { a: u64, w: Width },
    /// w bits at a become v.
    Store { a: u64, w: Width, v: u64 },
    /// 64 bits at a become v; then on to the target.
    StoreGo { a: u64, v: u64, target: u64 },
    /// All earlier writes reach memory first.
    Fence,
    /// The old value of w bits at a, changed in the same step.
    Locked { a: u64, w: Width, change: Change },
    /// On to this address.
    Go(u64),
    /// The step cannot be made.
    Bad(BadKind),
}
