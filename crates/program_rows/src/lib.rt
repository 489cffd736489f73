//! Tests that cross crates: calls of the program from words to exit status, over an input, sinks and files in memory.
//!
//! The programs stand in images of `guest_asm` (`row_image`) or in small files of one segment, and `recompile` and
//! `recompile_plain` of `recompile_core` run them. The crate has no code but tests.
#![tactic(auto)]

#[cfg(test)]
mod tests;
