//! Objects by their addresses.

ghost use Rattle.std.specs.Prelude.{◌≡◌, ◌<◌, ◌≤◌, None, IsSome, OnOk};
ghost use Rattle.std.specs.Option.{option_map};
ghost use Rattle.std.specs.FinMap as map;
ghost use Rattle.sync_more.specs.Places.{is_newest};

use std::alloc::{AllocError, AllocFailed, Global};
use std::collections::BTreeMap;
use std::marker::Model;

/// Objects by their addresses. A look-up takes time logarithmic in how many there are.
///
/// To keep a new one takes no memory: it stays beside the tree until [`Table::reserve`] takes it in.
#[derive(Drop)]
pub struct Table<V> {
    tree: BTreeMap<u64, V>,
    // It goes before what the tree has at its address.
    last: Option<(u64, V)>,
}

impl<V> Model for Table<V> {
    ghost use Rattle.std.specs.Prelude.{◌++◌, cond, is_some};
    ghost use Rattle.std.specs.FinMap.{from_entries};
    ghost use Rattle.std.specs.Option.{option_to_list};
    ghost use Rattle.sync_more.specs.Places.{Places, places_code};

    ghost Value = { Places V };

    ghost coded = { places_code V.code };

    ghost view = { λ t. record { places = from_entries (option_to_list t.last ++ t.tree.entries); room = cond (is_some t.last) 0 1 } };
}

/// Whether the newest object, if there is one, is at this address.
fn is_newest<V>(last: &Option<(u64, V)>, k: u64) -> bool
    ensures { result ≡ is_newest last.now k }
{
    match last {
        Some((key, _)) => *key == k,
        None => false,
    }
}

impl<V> Table<V> {
    /// A table of none. It takes no memory.
    pub(crate) fn make(alloc: Global) -> Table<V>
        ensures { result.places ≡ map.empty }
    {
        Table {
            tree: BTreeMap::new(alloc),
            last: None,
        }
    }

    /// What is kept at an address.
    pub(crate) fn find(&self, k: u64) -> Option<&V>
        ensures { option_map (λ v. v.now) result ≡ map.get self.now.places k }
    {
        if let Some((key, v)) = &self.last {
            if *key == k {
                return Some(v);
            }
        }
        self.tree.get(&k)
    }
}

impl<V: Drop> Table<V> {
    /// Makes room for one more, which may take memory. Nothing else changes, also where no memory is left.
    pub(crate) fn reserve(&mut self) -> Result<(), AllocError>
        ensures places { self.new.places ≡ self.old.places }
        ensures room { OnOk result (0 < self.new.room) }
        ensures kept { self.old.room ≤ self.new.room }
    {
        let Some((k, v)) = self.last.take() else {
            return Ok(());
        };
        match self.tree.insert(k, v) {
            Ok(_) => Ok(()),
            Err(refused) => {
                let AllocFailed { value } = refused;
                self.last = Some(value);
                Err(AllocError)
            }
        }
    }

    /// Takes out what is kept at an address. Takes no memory.
    pub(crate) fn take(&mut self, k: u64) -> Option<V>
        ensures value { result ≡ map.get self.old.places k }
        ensures places { self.new.places ≡ map.remove self.old.places k }
        ensures none { result ≡ None → self.new.places ≡ self.old.places }
        ensures room { self.old.room ≤ self.new.room }
    {
        let beneath = self.tree.remove(&k);
        match self.last.take() {
            Some((key, v)) => {
                if key == k {
                    return Some(v);
                }
                self.last = Some((key, v));
                beneath
            }
            None => beneath,
        }
    }

    /// Keeps an object at an address, in place of what is kept there. Takes no memory.
    pub(crate) fn put(&mut self, k: u64, v: V)
        requires { 0 < self.old.room }
        ensures { self.new.places ≡ map.insert self.old.places k v }
    {
        self.last = Some((k, v));
    }

    /// Keeps another object at an address at which one is kept. Takes no memory, and no room.
    pub(crate) fn set(&mut self, k: u64, v: V)
        requires { IsSome (map.get self.old.places k) }
        ensures places { self.new.places ≡ map.insert self.old.places k v }
        ensures room { self.new.room ≡ self.old.room }
    {
        if is_newest(&self.last, k) {
            self.last = Some((k, v));
            return;
        }
        let kept: Result<_, _> = self.tree.insert(k, v);
        let _ = kept.unwrap();
    }
}
