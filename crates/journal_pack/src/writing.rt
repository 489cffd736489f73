//! Writing at the end of bytes that have room.
ghost use Rattle.std.specs.Prelude.{◌≡◌, ◌<◌, ◌≤◌, ◌+◌, ◌^◌, ◌*◌, ◌++◌, ◌∷◌, [], OnErr, OnOk, length, vec_len, vec_capacity};
ghost use Rattle.journal_pack.specs.Growing.{or_head};
ghost use Rattle.journal_pack.specs.Entry.{spelling};
ghost use Rattle.journal_pack.specs.Leb128.{leb128};
ghost use Rattle.journal_pack.specs.Packed.{head};

use crate::entry::Entry;
use crate::journal::HEAD;
use std::alloc::AllocError;

/// An entry has at most so many bytes.
pub(crate) const MAX_BYTES: u64 = 28;

/// Makes room for `n` more entries, and puts the head where nothing stands yet.
pub(crate) fn make_room(bytes: &mut Vec<u8>, n: u64) -> Result<(), AllocError>
    ensures ok { OnOk result (vec_len bytes.new + 28 * n ≤ vec_capacity bytes.new) }
    ensures items { OnOk result (bytes.new.items ≡ or_head bytes.old.items) }
    ensures err { OnErr result (bytes.new.items ≡ bytes.old.items) }
    ensures capacity { vec_capacity bytes.old ≤ vec_capacity bytes.new }
{
    let Some(room) = n.checked_mul(MAX_BYTES) else {
        return Err(AllocError);
    };
    let Some(room) = room.checked_add(HEAD.len() as u64) else {
        return Err(AllocError);
    };
    bytes.reserve(room as usize)?;
    if bytes.is_empty() {
        put_head(bytes);
    }
    Ok(())
}

/// Adds the four bytes with which each journal begins. It takes no memory.
fn put_head(bytes: &mut Vec<u8>)
    requires room { vec_len bytes.old + length head ≤ vec_capacity bytes.old }
    ensures items { bytes.new.items ≡ bytes.old.items ++ head }
    ensures capacity { vec_capacity bytes.old ≤ vec_capacity bytes.new }
{
    let Ok(()) = bytes.extend_from_slice(HEAD) else {
        unreachable!()
    };
}

/// Adds the entry's spelling, at most 28 bytes. It takes no memory.
pub(crate) fn put(bytes: &mut Vec<u8>, entry: Entry)
    requires room { vec_len bytes.old + length (spelling entry) ≤ vec_capacity bytes.old }
    ensures items { bytes.new.items ≡ bytes.old.items ++ spelling entry }
    ensures capacity { vec_capacity bytes.old ≤ vec_capacity bytes.new }
{
    match entry {
        Entry::Ev(t, k) => put_pair(bytes, 0, t, k),
        Entry::Tick(t, k) => put_pair(bytes, 1, t, k),
        Entry::Flush(t) => put_thread(bytes, 2, t),
        Entry::Wait(t, k) => put_pair(bytes, 3, t, k),
        Entry::Miss(t, k, source, target) => {
            put_pair(bytes, 4, t, k);
            put_number(bytes, source);
            put_number(bytes, target);
        }
        Entry::Grow(t, place) => {
            put_thread(bytes, 5, t);
            put_number(bytes, place);
        }
        Entry::Over(t, k) => put_pair(bytes, 6, t, k),
        Entry::Full(t) => put_thread(bytes, 7, t),
        Entry::Dead => put_byte(bytes, 8),
    }
}

/// Adds a kind, a thread's number and private steps.
fn put_pair(bytes: &mut Vec<u8>, kind: u8, t: u32, k: u32)
    requires room { vec_len bytes.old + (1 + (length (leb128 t) + length (leb128 k))) ≤ vec_capacity bytes.old }
    ensures items { bytes.new.items ≡ bytes.old.items ++ kind ∷ (leb128 t ++ leb128 k) }
    ensures capacity { vec_capacity bytes.old ≤ vec_capacity bytes.new }
{
    put_thread(bytes, kind, t);
    put_number(bytes, u64::from(k));
}

/// Adds a kind and a thread's number.
fn put_thread(bytes: &mut Vec<u8>, kind: u8, t: u32)
    requires room { vec_len bytes.old + (1 + length (leb128 t)) ≤ vec_capacity bytes.old }
    ensures items { bytes.new.items ≡ bytes.old.items ++ kind ∷ leb128 t }
    ensures capacity { vec_capacity bytes.old ≤ vec_capacity bytes.new }
{
    put_byte(bytes, kind);
    put_number(bytes, u64::from(t));
}

/// Adds a number.
#[tactic(auto, using(crate::proofs::Numbers::last_byte, crate::proofs::Numbers::next_byte))]
fn put_number(bytes: &mut Vec<u8>, n: u64)
    requires room { vec_len bytes.old + length (leb128 n) ≤ vec_capacity bytes.old }
    ensures items { bytes.new.items ≡ bytes.old.items ++ leb128 n }
    ensures capacity { vec_capacity bytes.old ≤ vec_capacity bytes.new }
{
    let mut left = n;
    while left >= 128 {
        put_byte(bytes, 128 + (left % 128) as u8);
        left /= 128;
    }
    put_byte(bytes, left as u8);
}

/// Adds a byte.
fn put_byte(bytes: &mut Vec<u8>, byte: u8)
    requires room { vec_len bytes.old < vec_capacity bytes.old }
    ensures items { bytes.new.items ≡ bytes.old.items ++ byte ∷ [] }
    ensures capacity { vec_capacity bytes.old ≤ vec_capacity bytes.new }
{
    let Ok(()) = bytes.push(byte) else {
        unreachable!()
    };
}
