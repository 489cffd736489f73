//! Steps that aren't private: accesses to memory, fences, and steps that can't be made.

ghost use Rattle.std.specs.Prelude.{◌≡◌, ◌<◌, ◌^◌, is_none, length, IfSome};
ghost use Rattle.address_space.specs.Slots.{slot_of};
ghost use Rattle.journal_pack.specs.declared.entry.Entry.TheVariants as entry;
ghost use Rattle.tso_memory.specs.Buffer.{size_of};
ghost use Rattle.tso_memory.specs.declared.access.Access.TheVariants as access;
ghost use Rattle.machine_model.specs.State.{list_at};
ghost use Rattle.machine_model.specs.Step.{refused};
ghost use Rattle.hall_core.specs.Hall.{Comes, Needs, NeedsAt, added, machine};
ghost use Rattle.hall_core.specs.Shared.{Fails, Fences, Loads, Locks, Stores, loaded_value, locked_value, shared_of};

use crate::entries::note;
use crate::fits::Fits;
use crate::hall::Hall;
use journal_pack::Entry;
use lib_table::BadKind;
use tso_memory::{Change, Width};

impl<B: Fits> Hall<B> {
    /// Thread `t` loads a number of `w` from address `a`, after `k` private steps; its instruction is at `rip`. `None`
    /// exactly where a byte can't be read, which ends the run as a fault there.
    pub fn load(&mut self, t: u32, k: u32, rip: u64, a: u64, w: Width) -> Option<u64>
        requires room { 0 < self.old.spare }
        requires needs { NeedsAt self.old t k rip (Loads a w) }
        requires comes { Comes self.old (entry.Ev t k) }
        ensures entry { self.new ≡ added self.old (entry.Ev t k) }
        ensures value { result ≡ loaded_value (shared_of (machine self.old)) t a (size_of w) }
        ensures fits { IfSome result (λ v. v < 256 ^ size_of w) }
    {
        let value = self.shared.load(t, k, rip, a, w);
        note(&mut self.log, &mut self.marks, Entry::Ev(t, k));
        value
    }

    /// Thread `t` stores a number of `w` at address `a`, after `k` private steps; its instruction is at `rip`. The write
    /// waits, and memory stays as it was. False exactly where a byte can't be written, which ends the run as a fault there.
    pub fn store(&mut self, t: u32, k: u32, rip: u64, a: u64, w: Width, value: u64) -> bool
        requires room { 0 < self.old.spare }
        requires few { length (list_at (machine self.old) (slot_of t)) < 64 }
        requires needs { NeedsAt self.old t k rip (Stores a w value) }
        requires comes { Comes self.old (entry.Ev t k) }
        ensures entry { self.new ≡ added self.old (entry.Ev t k) }
        ensures stored { result ≡ is_none (refused (machine self.old) access.Store a (size_of w)) }
    {
        let stored = self.shared.store(t, k, rip, a, w, value);
        note(&mut self.log, &mut self.marks, Entry::Ev(t, k));
        stored
    }

    /// Thread `t` reads a number of `w` at address `a` in memory itself, and writes what `change` makes of it, in one step,
    /// after `k` private steps; its instruction is at `rip`, and none of its writes waits. Answers what was read; `None`
    /// exactly where a byte can't be read and written, which ends the run as a fault there.
    pub fn locked(
        &mut self,
        t: u32,
        k: u32,
        rip: u64,
        a: u64,
        w: Width,
        change: Change,
    ) -> Option<u64>
        requires room { 0 < self.old.spare }
        requires needs { NeedsAt self.old t k rip (Locks a w change) }
        requires comes { Comes self.old (entry.Ev t k) }
        ensures entry { self.new ≡ added self.old (entry.Ev t k) }
        ensures value { result ≡ locked_value (shared_of (machine self.old)) a (size_of w) }
        ensures fits { IfSome result (λ v. v < 256 ^ size_of w) }
    {
        let value = self.shared.exchange(t, k, rip, a, w, change);
        note(&mut self.log, &mut self.marks, Entry::Ev(t, k));
        value
    }

    /// Thread `t` makes a fence after `k` private steps; none of its writes waits.
    pub fn fence(&mut self, t: u32, k: u32)
        requires room { 0 < self.old.spare }
        requires needs { Needs self.old t k Fences }
        requires comes { Comes self.old (entry.Ev t k) }
        ensures { self.new ≡ added self.old (entry.Ev t k) }
    {
        self.shared.pass(u64::from(k) + 1);
        note(&mut self.log, &mut self.marks, Entry::Ev(t, k));
    }

    /// Thread `t` can't make its step after `k` private steps: no instruction stands at `rip`, or the one there divides and
    /// can't. The run ends as a fault there.
    pub fn bad(&mut self, t: u32, k: u32, rip: u64, kind: BadKind)
        requires room { 0 < self.old.spare }
        requires needs { NeedsAt self.old t k rip (Fails kind) }
        requires comes { Comes self.old (entry.Ev t k) }
        ensures { self.new ≡ added self.old (entry.Ev t k) }
    {
        self.shared.bad(t, k, rip, kind);
        note(&mut self.log, &mut self.marks, Entry::Ev(t, k));
    }
}
