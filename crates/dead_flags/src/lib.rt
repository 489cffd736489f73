//! Dead flag puts taken out of the blocks of the register language.
//!
//! Most instructions put all five status flags, and most of those puts are overwritten before anything
//! reads them. `strip` takes out exactly such lines. Its contract cites `kept_parts` of `ir_meaning`
//! (`specs/Live.antt`: which flags are live between lines, and which lines stay) and `Alike` of
//! `specs/Alike.antt`: part for part the block without those lines asks for what the block asks for,
//! also from a state inside it, as far as live flags and needed temporaries go.
//!
//! Stands on `ir_syntax` (the lines), `ir_meaning` (what they do), and below it on `guest_state` and
//! `x86_flags`.
#![tactic(auto)]

mod live;
mod pass;
#[cfg(test)]
mod tests;

pub use pass::strip;
