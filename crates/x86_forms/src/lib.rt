//! The instructions of a subset of x86-64, and the byte strings that spell them.
//!
//! The types are plain data: `Instr` with its `Operand`s, `Mem`, `Width` and `Cond`. The definition
//! `Spells i s` of `specs/Spelling.antt` says which byte strings s spell the instruction i: by a line
//! of the table in `specs/Table.antt`, which has 195 lines for 143 opcodes without 0F and 60 behind
//! it, and by the rules of ModRM, SIB, REX and immediates in `specs/Operands.antt`. It goes from
//! instructions to strings (Intel SDM, Volume 2, chapter 2 and the instructions' pages).
//!
//! `laws` has what holds of all spellings: a string spells at most one instruction, no spelling is a
//! proper prefix of another, and what a spelled instruction keeps. `encoding` has the rules as
//! functions, and `rows` the columns of the table as data.
//!
//! What reads or writes machine code stands on this crate: the decoder, the assembler, the machine
//! that says what a thread does next, and the lifter. It stands on nothing.
#![tactic(auto)]

pub mod conditions;
pub mod encoding;
pub mod instructions;
pub mod laws;
pub mod operands;
pub mod rows;
#[cfg(test)]
mod tests;

pub use conditions::Cond;
pub use encoding::{displacement_len, has_sib};
pub use instructions::{AluOp, Group, Instr, OneOp, ShiftOp};
pub use laws::{
    no_proper_prefix, one_meaning, reads_exactly, spelled_fits, table_size, worked_rows,
};
pub use operands::{Base, Mem, Operand, OperandKind, Place, Width};
pub use rows::{Kind, Mark, Prefixes, Rex, Row, Shape, Size, Tail};
