//! The entries of a run, kept as bytes.
ghost use Rattle.std.specs.Prelude.{◌≡◌, ◌≢◌, ◌<◌, ◌≤◌, ◌-◌, ◌+◌, ◌^◌, ◌++◌, ◌∷◌, ◌↔◌, [], List, ℕ, All, length, IfOk, IfErr, IsErrAnd, IsOkAnd, IsTrue};
ghost use Rattle.journal_pack.specs.Growing.{entries_of};
ghost use Rattle.journal_pack.specs.Entry.{HasSpelling};
ghost use Rattle.journal_pack.specs.Packed.{IsFaultAt, IsPacked, packed};
ghost use Rattle.journal_pack.specs.declared.entry.Entry.{Entry as EntryData};

use crate::entry::Entry;
use crate::fault::PackFault;
use crate::reading::{body, entry_at};
use std::alloc::{AllocError, Global};
use std::marker::Model;

/// The four bytes with which each journal begins.
pub const HEAD: &[u8] = b"XJ01";

/// The entries of a run, in order. Contracts see it as their list.
#[derive(Drop)]
pub struct Journal {
    pub(crate) bytes: Vec<u8>,
    pub(crate) count: u64,
}

impl Model for Journal {
    ghost use Rattle.std.specs.Prelude.{List};
    ghost use Rattle.journal_pack.specs.declared.entry.Entry.{Entry};
    ghost use Rattle.journal_pack.specs.Growing.{IsKept, entries_of};

    ghost Value = { List Entry };

    ghost view = { λ j. entries_of j.bytes.items };

    ghost invariant = { λ j. IsKept j.bytes.items j.count };
}

impl Journal {
    /// A journal without entries. It takes no memory.
    pub fn new(alloc: Global) -> Journal
        ensures { result ≡ [] }
    {
        Journal {
            bytes: Vec::new(alloc),
            count: 0,
        }
    }

    /// The number of entries.
    pub fn len(&self) -> u64
        ensures { result ≡ length self.now }
    {
        self.count
    }

    /// Whether there is no entry.
    pub fn is_empty(&self) -> bool
        ensures { IsTrue result ↔ (self.now ≡ []) }
    {
        self.count == 0
    }

    /// Goes over the entries in order, and takes no memory.
    #[tactic(auto, using(crate::proofs::PackedLemmas::left_none, crate::proofs::PackedLemmas::left_some))]
    pub fn walk(&self) -> Walk<'_>
        ensures { result ≡ self.now }
    {
        match body(&self.bytes) {
            Some(rest) => Walk { rest },
            None => Walk { rest: &[] },
        }
    }

    /// The entries, in a list of their own.
    pub fn entries(&self, alloc: Global) -> Result<Vec<Entry>, AllocError>
        ensures { IfOk result (λ entries. entries.items ≡ self.now) }
    {
        let mut entries = Vec::with_capacity(alloc, self.count as usize)?;
        for entry in self.walk() {
            entries.push(entry)?;
        }
        Ok(entries)
    }

    /// The journal's bytes: the head, and the spelling of each entry. It takes no memory.
    pub fn bytes(&self) -> &[u8]
        ensures { result.now ≡ packed self.now }
    {
        if self.bytes.is_empty() {
            HEAD
        } else {
            self.bytes.as_slice()
        }
    }

    /// The journal of these bytes. It takes no memory, and goes over the bytes once.
    ///
    /// # Errors
    ///
    /// Exactly where the bytes are no journal: 0 where they don't begin with the head, else the offset of the first entry
    /// that is none.
    pub fn from_bytes(bytes: Vec<u8>) -> Result<Journal, PackFault>
        // What is read is spelled so, all the bytes.
        ensures found { IfOk result (λ j. IsPacked bytes.items j) }
        // What is spelled so is read.
        ensures only { (entries : List EntryData) → IsPacked bytes.items entries → IsOkAnd result (λ j. j ≡ entries) }
        // A fault is where the bytes stop being a journal.
        ensures fault { IfErr result (λ f. IsFaultAt bytes.items f.offset) }
        // Where they stop being one they are refused.
        ensures refused { (offset : ℕ) → IsFaultAt bytes.items offset → IsErrAnd result (λ f. f.offset ≡ offset) }
    {
        let count = count_entries(&bytes)?;
        Ok(Journal { bytes, count })
    }

    /// Tells callers that each entry has a spelling.
    pub fn facts(&self)
        ensures { All HasSpelling self.now }
    {
        let _ = &self.count;
    }
}

/// How many entries the journal of these bytes has.
fn count_entries(bytes: &[u8]) -> Result<u64, PackFault>
    ensures found { IfOk result (λ count. IsPacked bytes.now (entries_of bytes.now) × (count ≡ length (entries_of bytes.now))) }
    ensures fault { IfErr result (λ f. IsFaultAt bytes.now f.offset) }
{
    let Some(mut rest) = body(bytes) else {
        return Err(PackFault { offset: 0 });
    };
    let mut count = 0;
    while !rest.is_empty() {
        let Some((_, tail)) = entry_at(rest) else {
            let offset = (bytes.len() - rest.len()) as u64;
            return Err(PackFault { offset });
        };
        rest = tail;
        count += 1;
    }
    Ok(count)
}

/// What is left of a journal. Each item is the next entry. Contracts see it as the list of the entries that are left.
#[derive(Drop)]
pub struct Walk<'a> {
    rest: &'a [u8],
}

impl<'a> Model for Walk<'a> {
    ghost use Rattle.std.specs.Prelude.{List};
    ghost use Rattle.journal_pack.specs.declared.entry.Entry.{Entry};
    ghost use Rattle.journal_pack.specs.Packed.{IsSpelled};
    ghost use Rattle.journal_pack.specs.Reading.{entries_at};

    ghost Value = { List Entry };

    ghost view = { λ w. entries_at w.rest.now };

    ghost invariant = { λ w. IsSpelled w.rest.now (entries_at w.rest.now) };
}

impl<'a> Iterator for Walk<'a> {
    ghost use Rattle.std.specs.Iterator.{YieldsFirst, item_count};

    type Item = Entry;

    ghost next_gives = { YieldsFirst (λ left. left) };

    ghost remaining = { item_count (λ left. left) };

    #[tactic(auto, using(crate::proofs::PackedLemmas::goes, crate::proofs::PackedLemmas::ends))]
    fn next(&mut self) -> Option<Entry> {
        let Some((entry, rest)) = entry_at(self.rest) else {
            return None;
        };
        self.rest = rest;
        Some(entry)
    }
}
