//! How long the waiting writes of a thread have waited.

ghost use Rattle.std.specs.Prelude.{◌≡◌, ◌+◌, ◌<◌, ◌≤◌, ◌++◌, ◌∷◌, [], length, map, IfOk, slice_get};
ghost use Rattle.machine_model.specs.Gated.{rest_of};
ghost use Rattle.guest_steps.specs.Ages.{AreAges};

use circular_buffer::HeapCircularBuffer;
use std::alloc::{AllocError, Global};
use std::marker::Model;

/// The most writes that wait.
const ROOM: usize = 64;

/// For how many turns of its thread each waiting write has waited, the oldest first. A write's turn is kept, so that all
/// grow older by one count.
#[derive(Drop)]
pub struct Ages {
    count: u64,
    turns: HeapCircularBuffer<u64>,
}

impl Model for Ages {
    ghost use Rattle.std.specs.Prelude.{◌≡◌, ℕ, List};
    ghost use Rattle.guest_steps.specs.Ages.{ages_in};

    ghost Value = { List ℕ };

    ghost view = { λ a. ages_in a.count a.turns.items };

    ghost invariant = { λ a. a.turns.capacity ≡ 64 };
}

impl Ages {
    /// No write waits.
    pub fn make(alloc: Global) -> Result<Ages, AllocError>
        ensures { IfOk result (λ ages. ages ≡ []) }
    {
        Ok(Ages {
            count: 0,
            turns: HeapCircularBuffer::with_capacity(alloc, ROOM)?,
        })
    }

    /// How many writes wait: 64 at most.
    pub fn len(&self) -> usize
        ensures len { result ≡ length self.now }
        ensures room { result ≤ 64 }
    {
        self.turns.len()
    }

    /// The age of the oldest.
    pub fn oldest(&self) -> Option<u64>
        ensures { result ≡ slice_get self.now 0 }
    {
        match self.turns.front() {
            Some(turn) => Some(self.count.wrapping_sub(*turn)),
            None => None,
        }
    }

    /// A write more, which is new.
    pub fn push(&mut self)
        requires { length self.old < 64 }
        ensures { self.new ≡ self.old ++ 0 ∷ [] }
    {
        let _replaced = self.turns.push_back(self.count);
    }

    /// The oldest doesn't wait any more.
    pub fn pop(&mut self)
        ensures { self.new ≡ rest_of self.old }
    {
        let _oldest = self.turns.pop_front();
    }

    /// No write waits any more.
    pub fn clear(&mut self)
        ensures { self.new ≡ [] }
    {
        self.turns.clear();
    }

    /// All are a turn older.
    pub fn grow_older(&mut self)
        requires { AreAges 255 self.old }
        ensures { self.new ≡ map (λ a. a + 1) self.old }
    {
        self.count = self.count.wrapping_add(1);
    }
}
