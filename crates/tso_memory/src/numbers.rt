//! Numbers of waiting writes, by classes of addresses: which writes can cover an address, without a search.

ghost use Rattle.std.specs.Prelude.{◌≡◌, ℕ, ◌+◌, ◌-◌, ◌^◌, ◌<◌, ◌≤◌, List, [], ◌∷◌, ◌++◌, length, take, IfOk};
ghost use Rattle.tso_memory.specs.declared.write.PendingWrite.{PendingWrite};
ghost use Rattle.tso_memory.specs.Buffer.{seen};
ghost use Rattle.tso_memory.specs.Numbers.{IsNumbered, class_of, class_of_eight};

use crate::write::PendingWrite;
use std::alloc::{AllocError, Global};

/// How many classes there are.
const CLASSES: usize = 1024;

/// Where numbers end: before a write would get it, those that wait are numbered from 0 on again.
const END: u64 = 0x8000_0000_0000_0000;

/// The writes of a thread are numbered in the order of their stores.
#[derive(Drop)]
pub struct Numbers {
    /// The number of the oldest waiting write, or of the next where none waits.
    pub(crate) first: u64,
    /// For each class, a number past that of the newest write that covers one of its addresses; 0 where none ever did.
    newest: Vec<u64>,
}

/// The class of the eight bytes of a number. Places that lie a small multiple of 8 KiB apart, as the elements of one
/// index in two arrays often do, are in classes that lie 67 or more apart.
#[tactic(auto, unfolding(crate::specs::Numbers::class_of_eight))]
fn class_of_eight(eight: u64) -> usize
    requires { eight ≤ 2 ^ 61 }
    ensures class { result ≡ class_of_eight eight }
    ensures within { result < 1024 }
{
    ((eight + 67 * (eight / 1024)) % 1024) as usize
}

/// The class of an address.
fn class(x: u64) -> usize
    ensures class { result ≡ class_of x }
    ensures within { result < 1024 }
{
    class_of_eight(x / 8)
}

/// The class of the last of `size` bytes from an address on, which may lie past all addresses.
fn last_class(a: u64, size: usize) -> usize
    requires some { 0 < size }
    requires narrow { size ≤ 8 }
    ensures class { result ≡ class_of (a + (size - 1)) }
    ensures within { result < 1024 }
{
    class_of_eight(a / 8 + (a % 8 + (size as u64 - 1)) / 8)
}

impl Numbers {
    /// Of an empty buffer.
    pub(crate) fn make(alloc: Global) -> Result<Numbers, AllocError>
        ensures { IfOk result (λ n. IsNumbered [] n.first n.newest.items) }
    {
        let newest = vec![in alloc; 0u64; CLASSES]?;
        Ok(Numbers { first: 0, newest })
    }

    /// How many of the waiting writes, from the oldest on, decide what is seen of `size` bytes from an address on.
    pub(crate) fn reach(&self, a: u64, size: usize) -> usize
        requires some { 0 < size }
        requires narrow { size ≤ 8 }
        requires classes { length self.now.newest.items ≡ 1024 }
        ensures within { (ps : List PendingWrite) → IsNumbered ps self.now.first self.now.newest.items → result ≤ length ps }
        ensures seen { (ps : List PendingWrite) → IsNumbered ps self.now.first self.now.newest.items → (x b : ℕ) → a ≤ x → x < a + size → seen (take result ps) x b ≡ seen ps x b }
    {
        let low = self.newest[class(a)];
        let high = self.newest[last_class(a, size)];
        low.max(high).saturating_sub(self.first) as usize
    }

    /// Numbers the waiting writes from 0 on where the next would get a number too great.
    fn make_room(&mut self, waiting: usize)
        requires few { waiting < 64 }
        requires room { self.old.first + waiting ≤ 2 ^ 63 }
        requires classes { length self.old.newest.items ≡ 1024 }
        ensures room { self.new.first + waiting < 2 ^ 63 }
        ensures classes { length self.new.newest.items ≡ 1024 }
        ensures numbered { (ps : List PendingWrite) → length ps ≡ waiting → IsNumbered ps self.old.first self.old.newest.items → IsNumbered ps self.new.first self.new.newest.items }
    {
        if self.first + (waiting as u64) < END {
            return;
        }
        for class in 0..CLASSES {
            self.newest[class] = waiting as u64;
        }
        self.first = 0;
    }

    /// Gives the next write its number, where so many wait.
    pub(crate) fn note(&mut self, write: PendingWrite, waiting: usize)
        requires few { waiting < 64 }
        requires room { self.old.first + waiting ≤ 2 ^ 63 }
        requires classes { length self.old.newest.items ≡ 1024 }
        ensures { (ps : List PendingWrite) → length ps ≡ waiting → IsNumbered ps self.old.first self.old.newest.items → IsNumbered (ps ++ write ∷ []) self.new.first self.new.newest.items }
    {
        self.make_room(waiting);
        let past = self.first + waiting as u64 + 1;
        let size = write.width.size();
        self.newest[class(write.at)] = past;
        self.newest[last_class(write.at, size)] = past;
    }
}
