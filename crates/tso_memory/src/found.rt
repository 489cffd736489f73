//! What a look into a store buffer finds.

/// What the waiting writes of a thread say of some bytes.
#[derive(Clone, Copy, Debug, PartialEq, Eq)]
pub enum Found {
    /// No write covers one of them.
    Nothing,
    /// The last write that covers one of them covers all: their number.
    Number(u64),
    /// The last write that covers one of them doesn't cover all.
    Several,
}
