//! Requests of the library.

ghost use Rattle.std.specs.Prelude.{◌≡◌, ◌<◌, ◌==◌, false, None, Some, length, slice_set, IfOk, OnErr, if◌then◌else◌};
ghost use Rattle.address_space.specs.Slots as slots;
ghost use Rattle.journal_pack.specs.declared.entry.Entry.TheVariants as entry;
ghost use Rattle.lib_table.specs.Row.{row, waits};
ghost use Rattle.lib_table.specs.Steps.{told};
ghost use Rattle.hall_core.specs.Hall.{Comes, Needs, NeedsAt, StandsAt, added, machine, with_mark};
ghost use Rattle.hall_core.specs.Shared.{Asks, has_to_wait};

use crate::entries::note;
use crate::fits::Fits;
use crate::hall::Hall;
use address_space::slot_of;
use journal_pack::Entry;
use lib_table::{Ask, Stepped};
use std::alloc::AllocError;

/// Whether a request has to wait.
fn has_to_wait(step: Stepped) -> bool
    ensures { result ≡ has_to_wait step }
{
    match step {
        Stepped::Waits => true,
        _ => false,
    }
}

impl<B: Fits> Hall<B> {
    /// Thread `t` asks the library after `k` private steps; its call or door is at `rip`, and none of its writes waits.
    /// Where the request has to wait, nothing changes and no entry is made. A bad request ends the run as a fault.
    ///
    /// # Errors
    ///
    /// Memory is wanting; the hall is as it was.
    pub fn call(&mut self, t: u32, k: u32, rip: u64, ask: &Ask) -> Result<Stepped, AllocError>
        requires room { 0 < self.old.spare }
        requires going { (machine self.old).ending ≡ None }
        requires needs { NeedsAt self.old t k rip (Asks ask.now) }
        requires comes { waits (machine self.old).library (machine self.old).tso.memory t ask.now ≡ false → Comes self.old (entry.Ev t k) }
        ensures row { IfOk result (λ step. row (machine self.old).library (machine self.old).tso.memory t ask.now ≡ told step (machine self.new).library (machine self.new).tso.memory) }
        ensures entry { IfOk result (λ step. self.new ≡ (if has_to_wait step then self.old else added self.old (entry.Ev t k))) }
        ensures err { OnErr result (self.new ≡ self.old) }
    {
        let step = self.shared.ask(t, k, rip, ask)?;
        if !has_to_wait(step) {
            note(&mut self.log, &mut self.marks, Entry::Ev(t, k));
        }
        Ok(step)
    }

    // `k` private steps up to a call that waits.
    fn pause(&mut self, t: u32, k: u32)
        requires room { 0 < self.old.spare }
        requires comes { Comes self.old (entry.Wait t k) }
        ensures { self.new ≡ added self.old (entry.Wait t k) }
    {
        self.shared.pass(u64::from(k));
        note(&mut self.log, &mut self.marks, Entry::Wait(t, k));
    }

    // The same, and no entry where there are none.
    fn come(&mut self, t: u32, k: u32)
        requires room { 0 < self.old.spare }
        requires comes { 0 < k → Comes self.old (entry.Wait t k) }
        ensures { self.new ≡ (if k == 0 then self.old else added self.old (entry.Wait t k)) }
    {
        if k > 0 {
            self.pause(t, k);
        }
    }

    // Thread t is marked.
    fn mark(&mut self, t: u32, ask: &Ask)
        requires { StandsAt self.old.case.image (machine self.old) (slots.slot_of t) ask.now }
        ensures { self.new ≡ with_mark self.old (slots.slot_of t) (Some ask.now) }
    {
        self.marks[slot_of(t) as usize] = Some(*ask);
    }

    /// Thread `t` stands, after `k` private steps, at a call that waits, with this request, and is marked with it. An entry
    /// is made exactly where `k` is above 0. The mark stays until the thread's next entry.
    pub fn wait(&mut self, t: u32, k: u32, ask: &Ask)
        requires room { 0 < self.old.spare }
        requires needs { Needs self.old t k (Asks ask.now) }
        requires comes { 0 < k → Comes self.old (entry.Wait t k) }
        ensures { self.new ≡ with_mark (if k == 0 then self.old else added self.old (entry.Wait t k)) (slots.slot_of t) (Some ask.now) }
    {
        self.facts();
        self.come(t, k);
        self.mark(t, ask);
    }
}
