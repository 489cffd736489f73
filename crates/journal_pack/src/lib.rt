//! Journals of runs, and their bytes: what a run did, step by step, so small that each step can be kept.
//!
//! An [`Entry`] is one step of a run. A [`Journal`] is a list of entries that keeps bytes: contracts see its entries,
//! `walk` goes over them, `bytes` shows the bytes and `from_bytes` reads them. A [`GrowingJournal`] is one that a run
//! writes: after `reserve` each `push` takes no memory and never fails. `pack` and `unpack` do the same for plain lists.
//! Contracts cite `packed`, the bytes of a list of entries, and `HasSpelling`, which entries have one.
//!
//! The definitions of the machine stand on it, the shared state of a run, and what follows a journal.
//!
//! A journal's bytes are `XJ01` and the spellings of its entries. An entry is spelled by a byte for its kind (`Ev` 0,
//! `Tick` 1, `Flush` 2, `Wait` 3, `Miss` 4, `Grow` 5, `Over` 6, `Full` 7, `Dead` 8) and its numbers in their order, each in
//! the shortest form of unsigned LEB128 (DWARF 5, section 7.6). It has at most 28 bytes.
#![tactic(auto)]

ghost use Rattle.std.specs.Prelude.{◌≡◌, ◌≤◌, ◌++◌, [], List, ℕ, All, length};
ghost use Rattle.journal_pack.specs.Entry.{HasSpelling, spelling};
ghost use Rattle.journal_pack.specs.Packed.{packed};
ghost use Rattle.journal_pack.specs.declared.entry.Entry.{Entry as EntryData};

mod entry;
mod fault;
mod growing;
mod journal;
mod packing;
mod reading;
mod writing;

pub use entry::{Entry, MAX_STEPS};
pub use fault::{PackFailure, PackFault};
pub use growing::GrowingJournal;
pub use journal::{HEAD, Journal, Walk};
pub use packing::{pack, unpack};

/// Two lists of entries with the same bytes are equal.
pub fn one_journal()
    ensures { (a b : List EntryData) → All HasSpelling a → All HasSpelling b → packed a ≡ packed b → a ≡ b }
{}

/// No entry's spelling begins another's.
pub fn no_prefix()
    ensures { (d e : EntryData) (tail : List ℕ) → HasSpelling d → HasSpelling e → spelling e ≡ spelling d ++ tail → (d ≡ e) × (tail ≡ []) }
{}

/// An entry has at most 28 bytes.
pub fn at_most_28_bytes()
    ensures { (e : EntryData) → HasSpelling e → length (spelling e) ≤ 28 }
{}

#[cfg(test)]
mod tests;
