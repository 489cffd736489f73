//! The phases of threads.

ghost use Rattle.std.specs.Prelude.{◌≡◌, ◌+◌, ◌<◌, ◌≤◌, OnOk};
ghost use Rattle.std.specs.FinMap as map;

use crate::state::Phase;
use std::alloc::{AllocError, Global};
use std::collections::HashMap;
use std::marker::Model;

/// Phases by the numbers of their threads, of the few that wait at a time. Room for further ones is taken beforehand.
#[derive(Drop)]
pub struct Phases {
    entries: HashMap<u32, Phase>,
}

impl Model for Phases {
    ghost use Rattle.std.specs.FinMap.{from_entries};
    ghost use Rattle.std.specs.HashMap.{spare};
    ghost use Rattle.sync_more.specs.Places.{Places, places_code};
    ghost use Rattle.sync_more.specs.declared.state.Phase.{Phase};
    ghost use Rattle.sync_more.specs.contracts.state.Phase as phase;

    ghost Value = { Places Phase };

    ghost coded = { places_code phase.the_row.coded };

    ghost view = { λ p. record { places = from_entries p.entries.entries; room = spare p.entries } };
}

impl Phases {
    /// No thread has a phase. It takes no memory.
    pub(crate) fn make(alloc: Global) -> Phases
        ensures { result.places ≡ map.empty }
    {
        Phases {
            entries: HashMap::new(alloc),
        }
    }

    /// The phase of a thread.
    pub(crate) fn find(&self, t: u32) -> Option<Phase>
        ensures { result ≡ map.get self.now.places t }
    {
        self.entries.get(&t).copied()
    }

    /// Makes room for the phases of `n` threads more, which takes memory where there is none. Nothing else changes,
    /// also where no memory is left.
    pub(crate) fn reserve(&mut self, n: usize) -> Result<(), AllocError>
        ensures places { self.new.places ≡ self.old.places }
        ensures room { OnOk result (n ≤ self.new.room) }
        ensures kept { self.old.room ≤ self.new.room }
    {
        self.entries.reserve(n)
    }

    /// A thread has no phase from now on. Takes no memory.
    pub(crate) fn take(&mut self, t: u32)
        ensures places { self.new.places ≡ map.remove self.old.places t }
        ensures room { self.old.room ≤ self.new.room }
    {
        let _phase = self.entries.remove(&t);
    }

    /// A thread has this phase from now on. Takes no memory, and the room of one thread at most.
    pub(crate) fn put(&mut self, t: u32, phase: Phase)
        requires { 0 < self.old.room }
        ensures places { self.new.places ≡ map.insert self.old.places t phase }
        ensures room { self.old.room ≤ self.new.room + 1 }
    {
        let kept: Result<_, _> = self.entries.insert(t, phase);
        let _ = kept.unwrap();
    }
}
