//! Turns and runs of small programs, entry by entry.
//!
//! A run is a hall of lifted blocks and the guests of its threads, whose turns are made one after another, or by
//! `run_serial`. The journals that they write are rows of a slow model of the machine that was written apart from this
//! repository. The crate has no code but tests.
#![tactic(auto)]

#[cfg(test)]
mod tests;
