//! A line of threads.

ghost use Rattle.std.specs.Prelude.{◌≡◌, ◌<◌, ◌≤◌, ◌^◌, ◌++◌, [], ◌∷◌, drop, length, take};
ghost use Rattle.std.specs.Vec.{vec_capacity};

use std::alloc::Global;
use std::marker::Model;
use std::mem;

/// Threads that wait, by their numbers, first come first.
#[derive(Drop)]
pub struct Line {
    threads: Vec<u32>,
}

impl Model for Line {
    ghost use Rattle.std.specs.Prelude.{ℕ, List};

    ghost Value = { List ℕ };

    ghost view = { λ l. l.threads.items };
}

impl Line {
    /// A line of none. It takes no memory.
    pub(crate) fn make(alloc: Global) -> Line
        ensures { result ≡ [] }
    {
        Line {
            threads: Vec::new(alloc),
        }
    }

    /// How many wait.
    pub(crate) fn len(&self) -> usize
        ensures len { result ≡ length self.now }
        ensures small { result < 2 ^ 63 }
    {
        self.threads.len()
    }

    /// Those who wait.
    pub(crate) fn threads(&self) -> &[u32]
        ensures { result.now ≡ self.now }
    {
        &self.threads
    }

    /// A thread comes last. Where the line's own memory is used up, it goes on in that of `spare`, and leaves its own
    /// there.
    pub(crate) fn join(&mut self, t: u32, spare: &mut Vec<u32>)
        requires { length self.old < vec_capacity spare.old }
        ensures { self.new ≡ self.old ++ t ∷ [] }
    {
        if self.threads.len() == self.threads.capacity() {
            spare.clear();
            let copied: Result<_, _> = spare.extend_from_slice(&self.threads);
            copied.unwrap();
            mem::swap(&mut self.threads, spare);
        }
        let joined: Result<_, _> = self.threads.push(t);
        joined.unwrap();
    }

    /// The first, if any waits.
    pub(crate) fn first(&self) -> &[u32]
        ensures first { result.now ≡ take 1 self.now }
        ensures one { length result.now ≤ 1 }
    {
        if self.threads.is_empty() {
            return &self.threads;
        }
        &self.threads[..1]
    }

    /// The first leaves the line, if any waits.
    pub(crate) fn leave(&mut self)
        ensures { self.new ≡ drop 1 self.old }
    {
        if !self.threads.is_empty() {
            let _first = self.threads.remove(0);
        }
    }
}
