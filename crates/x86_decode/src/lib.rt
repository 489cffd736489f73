//! The decoder: which instruction of the subset a byte string begins with, and how long it is.
//!
//! `decode` is exact. Its contract is by the definition `Spells` of `x86_forms`: it gives an
//! instruction and a length exactly where that many of the first bytes spell that instruction, and
//! nothing where no front of the bytes is a spelling. It takes no memory and reads at most 15 bytes.
//!
//! The opcode's row is chosen by `match` in `dispatch`, which is proved equal to a search through the
//! whole table of `x86_forms`; the rules of the other bytes are that crate's functions.
//!
//! What tells the instruction at a place stands on it, `basic_blocks`, and with that the lifter. It stands on `x86_forms`.
#![tactic(auto)]

mod cursor;
mod dispatch;
mod locked;
mod meaning;
mod numbers;
mod prefixes;
mod reading;
#[cfg(test)]
mod tests;

pub use reading::decode;
