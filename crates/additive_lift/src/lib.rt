//! What is reached from places of an image, as a program.
//!
//! `reach` and `reach_all` give the least set of code places that has the roots and all direct successors of its members
//! (`IsReach` of `basic_blocks`), by rising address. A work list stands beside an ordered set, and each place is decoded
//! once. A run begins with what is reached from its entry, and a miss grows what is reached from its target. `Reaches` keeps
//! where blocks go on, for a guest that misses often; `exits_at` finds it without a list.
//!
//! The crate stands on `basic_blocks`, which says what stands where, and on `x86_decode` by it.
#![tactic(auto)]

mod exits;
mod kept;
mod lent;
mod search;
mod shared;
#[cfg(test)]
mod tests;

pub use exits::{Exits, exits_at};
pub use search::{PLACE_LIMIT, ReachFault, reach, reach_all};
pub use shared::Reaches;
