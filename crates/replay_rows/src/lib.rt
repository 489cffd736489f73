//! Tests that cross crates: journals of worked programs, whole and damaged, followed by a walker.
//!
//! The programs stand in images of `guest_asm` (`row_image`), and `walk_to` of `replay_view` follows the journals. The crate
//! has no code but tests.
#![tactic(auto)]

#[cfg(test)]
mod tests;
