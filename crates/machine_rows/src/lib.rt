//! Tests that cross crates: journals of worked programs and their damaged forms, on the plain machine.
//!
//! The programs stand in images of `guest_asm` (`row_image`), and `play_plain` of `machine_plain` plays the
//! journals. The crate has no code but tests.
#![tactic(auto)]

#[cfg(test)]
mod tests;
