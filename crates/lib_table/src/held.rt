//! Which mutexes are held, and by whom.

ghost use Rattle.std.specs.Prelude.{◌≡◌, OnOk, OnErr};
ghost use Rattle.std.specs.FinMap as map;

use std::alloc::{AllocError, Global};
use std::collections::BTreeMap;
use std::marker::Model;

/// Held mutexes by their addresses, each with the number of the thread that holds it. A look-up takes time logarithmic
/// in how many are held.
#[derive(Drop)]
pub struct Held {
    owners: BTreeMap<u64, u32>,
}

impl Model for Held {
    ghost use Rattle.std.specs.Prelude.{ℕ};
    ghost use Rattle.std.specs.Ordering.{nat_cmp};
    ghost use Rattle.std.specs.Coded.{coded_ℕ};
    ghost use Rattle.std.specs.FinMap.{FinMap, code, from_entries};

    ghost Value = { FinMap nat_cmp ℕ };

    ghost coded = { code coded_ℕ coded_ℕ };

    ghost view = { λ h. from_entries h.owners.entries };
}

impl Held {
    /// No mutex is held.
    pub(crate) fn make(alloc: Global) -> Held
        ensures { result ≡ map.empty }
    {
        Held {
            owners: BTreeMap::new(alloc),
        }
    }

    /// The thread that holds the mutex at `a`.
    pub(crate) fn holder(&self, a: u64) -> Option<u32>
        ensures { result ≡ map.get self.now a }
    {
        self.owners.get(&a).copied()
    }

    /// How many are held.
    pub(crate) fn count(&self) -> usize
        ensures { result ≡ map.len self.now }
    {
        self.owners.len()
    }

    /// Thread `t` holds the mutex at `a` from now on.
    pub(crate) fn take(&mut self, a: u64, t: u32) -> Result<(), AllocError>
        ensures ok { OnOk result (self.new ≡ map.insert self.old a t) }
        ensures err { OnErr result (self.new ≡ self.old) }
    {
        self.owners.insert(a, t)?;
        Ok(())
    }

    /// None holds the mutex at `a` from now on.
    pub(crate) fn release(&mut self, a: u64)
        ensures { self.new ≡ map.remove self.old a }
    {
        let _owner = self.owners.remove(&a);
    }
}
