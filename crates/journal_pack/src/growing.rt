//! A journal that grows.
ghost use Rattle.std.specs.Prelude.{◌≡◌, ◌<◌, ◌≤◌, ◌-◌, ◌+◌, ◌*◌, ◌++◌, ◌∷◌, [], List, ℕ, All, length, OnErr, OnOk};
ghost use Rattle.journal_pack.specs.Entry.{HasSpelling};

use crate::entry::Entry;
use crate::journal::Journal;
use crate::writing::{MAX_BYTES, make_room, put};
use std::alloc::{AllocError, Global};
use std::marker::Model;

/// A journal that grows: contracts see its entries, and how many more can be pushed.
#[derive(Drop)]
pub struct GrowingJournal {
    bytes: Vec<u8>,
    count: u64,
    spare: u64,
}

impl Model for GrowingJournal {
    ghost use Rattle.std.specs.Vec.{vec_capacity, vec_len};
    ghost use Rattle.journal_pack.specs.Growing.{Growing, HasRoom, IsKept, entries_of};

    ghost Value = { Growing };

    ghost view = { λ j. record { entries = entries_of j.bytes.items; spare = j.spare } };

    ghost invariant = { λ j. IsKept j.bytes.items j.count × HasRoom (vec_len j.bytes) (vec_capacity j.bytes) j.spare };
}

impl GrowingJournal {
    /// A journal without entries, and without room. It takes no memory.
    pub fn new(alloc: Global) -> GrowingJournal
        ensures { result ≡ record { entries = []; spare = 0 } }
    {
        GrowingJournal {
            bytes: Vec::new(alloc),
            count: 0,
            spare: 0,
        }
    }

    /// Makes room for at least `n` more entries, 28 bytes each. Without memory the journal is as it was.
    pub fn reserve(&mut self, n: u64) -> Result<(), AllocError>
        ensures entries { self.new.entries ≡ self.old.entries }
        ensures kept { self.old.spare ≤ self.new.spare }
        ensures ok { OnOk result (n ≤ self.new.spare) }
        ensures err { OnErr result (self.new ≡ self.old) }
    {
        if n <= self.spare {
            return Ok(());
        }
        make_room(&mut self.bytes, n)?;
        self.spare = (self.bytes.capacity() - self.bytes.len()) as u64 / MAX_BYTES;
        Ok(())
    }

    /// Adds an entry at the end. It takes no memory.
    pub fn push(&mut self, entry: Entry)
        requires room { 0 < self.old.spare }
        requires spelling { HasSpelling entry }
        ensures { self.new ≡ record { entries = self.old.entries ++ entry ∷ []; spare = self.old.spare - 1 } }
    {
        put(&mut self.bytes, entry);
        self.count += 1;
        self.spare -= 1;
    }

    /// How many more entries can be pushed.
    pub fn spare(&self) -> u64
        ensures { result ≡ self.now.spare }
    {
        self.spare
    }

    /// The number of entries.
    pub fn len(&self) -> u64
        ensures { result ≡ length self.now.entries }
    {
        self.count
    }

    /// The journal as it is, without a copy.
    pub fn into_journal(self) -> Journal
        ensures { result ≡ self.entries }
    {
        Journal {
            bytes: self.bytes,
            count: self.count,
        }
    }
}
