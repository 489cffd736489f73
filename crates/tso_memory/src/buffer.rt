//! The store buffer of one thread.

ghost use Rattle.std.specs.Prelude.{◌≡◌, ℕ, ◌+◌, ◌<◌, ◌≤◌, ◌==◌, [], ◌∷◌, ◌++◌, ◌-◌, length, take, drop, slice_get, IfOk, IfSome, IfNone, true};
ghost use Rattle.std.specs.Int.{byte_at};
ghost use Rattle.tso_memory.specs.Buffer.{size_of, covers, seen};
ghost use Rattle.tso_memory.specs.Numbers.{IsFound};

use crate::found::Found;
use crate::numbers::Numbers;
use crate::write::{PendingWrite, Width};
use circular_buffer::HeapCircularBuffer;
use std::alloc::{AllocError, Global};
use std::marker::Model;

/// The most writes that a buffer holds.
const ROOM: usize = 64;

/// The writes of one thread that aren't in memory yet, the oldest first.
#[derive(Drop)]
pub struct StoreBuffer {
    ring: HeapCircularBuffer<PendingWrite>,
    numbers: Numbers,
}

impl Model for StoreBuffer {
    ghost use Rattle.std.specs.Prelude.{◌≡◌, List};
    ghost use Rattle.tso_memory.specs.declared.write.PendingWrite.{PendingWrite};
    ghost use Rattle.tso_memory.specs.Numbers.{IsNumbered};

    ghost Value = { List PendingWrite };

    ghost view = { λ b. b.ring.items };

    ghost invariant = { λ b. (b.ring.capacity ≡ 64) × IsNumbered b.ring.items b.numbers.first b.numbers.newest.items };
}

impl StoreBuffer {
    pub(crate) fn make(alloc: Global) -> Result<StoreBuffer, AllocError>
        ensures { IfOk result (λ b. b ≡ []) }
    {
        let ring = HeapCircularBuffer::with_capacity(alloc, ROOM)?;
        let numbers = Numbers::make(alloc)?;
        Ok(StoreBuffer { ring, numbers })
    }

    pub(crate) fn len(&self) -> usize
        ensures count { result ≡ length self.now }
        ensures room { result ≤ 64 }
    {
        self.ring.len()
    }

    pub(crate) fn is_empty(&self) -> bool
        ensures { result ≡ (length self.now == 0) }
    {
        self.ring.is_empty()
    }

    /// Adds the newest write.
    pub(crate) fn push(&mut self, write: PendingWrite)
        requires { length self.old < 64 }
        ensures { self.new ≡ self.old ++ write ∷ [] }
    {
        self.numbers.note(write, self.ring.len());
        let _replaced = self.ring.push_back(write);
    }

    /// Takes the oldest write.
    pub(crate) fn pop(&mut self) -> Option<PendingWrite>
        ensures oldest { result ≡ slice_get self.old 0 }
        ensures rest { self.new ≡ drop 1 self.old }
    {
        if self.ring.is_empty() {
            return None;
        }
        self.numbers.first += 1;
        self.ring.pop_front()
    }

    /// The waiting write of a place, the oldest at 0.
    pub(crate) fn get(&self, i: usize) -> Option<PendingWrite>
        ensures { result ≡ slice_get self.now i }
    {
        self.ring.get(i).copied()
    }

    /// The newest of the first `n` writes that covers one of `size` bytes from an address on.
    fn last_meeting(&self, n: usize, a: u64, size: usize) -> Option<PendingWrite>
        requires { n ≤ length self.now }
        ensures some { IfSome result (λ p. (x b : ℕ) → a ≤ x → x < a + size → covers p x ≡ true → seen (take n self.now) x b ≡ byte_at (x - p.at) p.value) }
        ensures none { IfNone result ((x b : ℕ) → a ≤ x → x < a + size → seen (take n self.now) x b ≡ b) }
    {
        for k in 0..n {
            let i = n - 1 - k;
            if let Some(write) = self.ring.get(i) {
                if write.meets(a, size) {
                    return Some(*write);
                }
            }
        }
        None
    }

    /// What the writes say of the bytes of `width` from an address on.
    pub(crate) fn find(&self, a: u64, width: Width) -> Found
        ensures { IsFound self.now a (size_of width) result }
    {
        let size = width.size();
        let reach = self.numbers.reach(a, size);
        let Some(write) = self.last_meeting(reach, a, size) else {
            return Found::Nothing;
        };
        match write.number(a, width) {
            Some(number) => Found::Number(number),
            None => Found::Several,
        }
    }

    /// The byte at an address by the last write that covers it, and `byte` where none does.
    pub(crate) fn seen(&self, x: u64, byte: u8) -> u8
        ensures { result ≡ seen self.now x byte }
    {
        let reach = self.numbers.reach(x, 1);
        for k in 0..reach {
            let i = reach - 1 - k;
            if let Some(write) = self.ring.get(i) {
                if let Some(newest) = write.byte(x) {
                    return newest;
                }
            }
        }
        byte
    }
}
