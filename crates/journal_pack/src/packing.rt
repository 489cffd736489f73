//! Lists of entries to bytes and back.
ghost use Rattle.std.specs.Prelude.{◌≡◌, ◌≤◌, ◌-◌, ◌+◌, List, ℕ, All, length, IfOk};
ghost use Rattle.journal_pack.specs.Entry.{HasSpelling};
ghost use Rattle.journal_pack.specs.Packed.{AreRead, IsFaultAt, IsPacked, IsRefused, RefusesRightly, packed};
ghost use Rattle.journal_pack.specs.declared.entry.Entry.{Entry as EntryData};

use crate::entry::Entry;
use crate::fault::{PackFailure, PackFault};
use crate::reading::{body, entry_at};
use crate::writing::{make_room, put};
use std::alloc::{AllocError, Global};

/// The bytes of a journal of these entries.
pub fn pack(alloc: Global, entries: &[Entry]) -> Result<Vec<u8>, AllocError>
    requires fit { All HasSpelling entries.now }
    ensures { IfOk result (λ bytes. bytes.items ≡ packed entries.now) }
{
    let mut bytes = Vec::new(alloc);
    make_room(&mut bytes, 1)?;
    for entry in entries {
        make_room(&mut bytes, 1)?;
        put(&mut bytes, *entry);
    }
    Ok(bytes)
}

/// The entries of the journal that these bytes are, in order.
///
/// # Errors
///
/// `Fault` exactly where the bytes are no journal: at 0 where they don't begin with the head, else at the offset of the
/// first entry that is none; `Memory` where the list found no memory.
pub fn unpack(alloc: Global, bytes: &[u8]) -> Result<Vec<Entry>, PackFailure>
    // What is read is spelled so, all the bytes.
    ensures found { IfOk result (λ v. IsPacked bytes.now v.items) }
    // What is spelled so is read, unless memory runs out.
    ensures only { (entries : List EntryData) → IsPacked bytes.now entries → AreRead entries result }
    // A fault is where the bytes stop being a journal.
    ensures fault { RefusesRightly bytes.now result }
    // Where they stop being one they are refused, unless memory runs out.
    ensures refused { (offset : ℕ) → IsFaultAt bytes.now offset → IsRefused offset result }
{
    let Some(mut rest) = body(bytes) else {
        return Err(PackFailure::Fault(PackFault { offset: 0 }));
    };
    let mut entries = Vec::new(alloc);
    while !rest.is_empty() {
        let Some((entry, tail)) = entry_at(rest) else {
            let offset = (bytes.len() - rest.len()) as u64;
            return Err(PackFailure::Fault(PackFault { offset }));
        };
        if entries.push(entry).is_err() {
            return Err(PackFailure::Memory(AllocError));
        }
        rest = tail;
    }
    Ok(entries)
}
