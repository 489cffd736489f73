//! The virtual registers of a guest thread: the sixteen general registers of x86-64, eight
//! temporaries and the five status flags (Intel SDM Volume 1, sections 3.4.1 and 3.4.3.1).
//!
//! The crate stands on nothing. Whatever runs lifted code stands on it. Its contracts cite
//! `low_bits`, `high_byte`, `written` and `written_high` of `specs/Register.antt`: what a read of a
//! register gives, and what a write leaves in it, by the width of the access.
#![tactic(auto)]

#[cfg(test)]
mod tests;
mod virtual_state;
mod width;

pub use virtual_state::Virtual;
pub use width::Width;
