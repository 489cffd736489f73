//! The register language that guest code is lifted into: its types, and which blocks are well typed.
//!
//! A block is a list of parts; a part is a list of lines that compute (`Op`) and one line that asks for
//! something (`PartEnd`): a load, a store, a transfer. docs/IR.md describes the language with its text.
//! Everything that lifts, strips, prints, reads or runs blocks stands on this crate; it stands on none.
//!
//! Blocks are plain data: contracts see a `Block` and a `Part` as the records of their fields, and a
//! list (`Seq`) as the list of its items. The contract of `check_types` cites `IsWellTyped` of
//! `specs/Typed.antt`, over the lines and the types of the temporaries before each.
#![tactic(auto)]

mod block;
mod cond;
mod line;
mod request;
mod typing;
mod width;

pub use block::{Block, Part, Seq};
pub use cond::{Cond, Flag};
pub use line::{Family, LockOp, Op, PartEnd, Target};
pub use request::{BadKind, Change, Request};
pub use typing::{TypeFault, check_types};
pub use width::Width;
