//! What stands where in an image: code places, the instruction at a place, basic blocks, and what is reached from a place.
//!
//! A code place is an address that is no door and no place of a library function (`specs/Places.antt`). The block at a
//! code place are the instructions from there on, up to and with the first jump, call or return, at most 64
//! (`specs/Span.antt`), with their bytes (`specs/Bytes.antt`). Reach is the least set of code places that has the roots
//! and all direct successors of its members (`specs/Reach.antt`). The calls give exactly these; `laws` says where a block
//! goes on.
//!
//! The crate stands on `x86_model` for the bytes that can be run, on `x86_decode` for the instruction that they spell
//! and on `address_space` for the doors. The lifting table and the machine's definitions stand on it.
#![tactic(auto)]

mod block;
mod laws;
mod place;

pub use block::{PlacedInstr, block_at, span, successors, targets};
pub use laws::goes_on_after_its_bytes;
pub use place::{instr_at, is_code_place};
