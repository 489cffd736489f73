//! Results and status flags of the x86-64 integer instructions, one call for each family:
//! ADD, ADC, SUB, SBB, AND, OR, XOR, INC, DEC, NEG, NOT, SHL, SHR, SAR, ROL, ROR, MUL, IMUL, DIV
//! and IDIV (Intel SDM Volume 2).
//!
//! The crate stands on nothing. Whatever computes or describes an instruction stands on it. Each
//! contract cites the family's definition in `specs/` (`add_of` for `add`), which is stated once
//! over the width in bits. A flag that the manual leaves undefined is 0, and the auxiliary carry
//! flag isn't kept.
#![tactic(auto)]

mod bitwise;
mod flags;
mod products;
mod quotients;
mod rotations;
mod shifts;
mod sums;
#[cfg(test)]
mod tests;
mod width;

pub use bitwise::{and, not, or, xor};
pub use flags::Flags;
pub use products::{smul, umul};
pub use quotients::{sdiv, udiv};
pub use rotations::{rol, ror};
pub use shifts::{sar, shl, shr};
pub use sums::{adc, add, dec, inc, neg, sbb, sub};
pub use width::Width;
