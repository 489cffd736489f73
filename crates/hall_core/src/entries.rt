//! Entries that are no events: private steps alone, flushes, misses, growth, and the ends of a run.

ghost use Rattle.std.specs.Prelude.{◌≡◌, ◌<◌, ◌-◌, ◌++◌, ◌∷◌, [], None, Some, length, slice_set, OnErr, OnOk, if◌then◌else◌};
ghost use Rattle.std.specs.FinMap as map;
ghost use Rattle.address_space.specs.Slots as slots;
ghost use Rattle.journal_pack.specs.Entry.{HasSpelling};
ghost use Rattle.journal_pack.specs.declared.entry.Entry.TheVariants as entry;
ghost use Rattle.machine_model.specs.Step.{cpu_at};
ghost use Rattle.machine_model.specs.Step as step;
ghost use Rattle.hall_core.specs.Hall.{Comes, GrowOutcome, added, is_dead, machine, with_block};

use crate::fits::Fits;
use crate::hall::{Hall, HallGrow};
use crate::make::put;
use address_space::{SLOTS, slot_of};
use journal_pack::{Entry, GrowingJournal};
use lib_table::Ask;
use machine_model::case::Case;
use machine_model::ending::RunEnd;
use miss_report::Miss;
use std::sync::Arc;

/// The slot of the thread that an entry names, 64 for `Dead`.
fn slot_in(entry: Entry) -> u32
    ensures { result ≡ step.slot_in entry }
{
    match entry.thread() {
        Some(t) => slot_of(t),
        None => SLOTS,
    }
}

/// One entry more, whose thread isn't marked any more.
pub(crate) fn note(log: &mut GrowingJournal, marks: &mut Vec<Option<Ask>>, entry: Entry)
    requires room { 0 < log.old.spare }
    requires spelling { HasSpelling entry }
    ensures log { log.new ≡ record { entries = log.old.entries ++ entry ∷ []; spare = log.old.spare - 1 } }
    ensures marks { marks.new.items ≡ slice_set marks.old.items (step.slot_in entry) None }
{
    log.push(entry);
    let slot = slot_in(entry) as usize;
    if slot < marks.len() {
        marks[slot] = None;
    }
}

/// Whether a miss ends the run.
fn is_strict(case: &Case) -> bool
    ensures { result ≡ case.now.strict }
{
    case.strict
}

impl<B: Fits> Hall<B> {
    /// `k` private steps of thread `t`, at least one, and no more.
    pub fn tick(&mut self, t: u32, k: u32)
        requires room { 0 < self.old.spare }
        requires comes { Comes self.old (entry.Tick t k) }
        ensures { self.new ≡ added self.old (entry.Tick t k) }
    {
        self.shared.pass(u64::from(k));
        note(&mut self.log, &mut self.marks, Entry::Tick(t, k));
    }

    /// The oldest waiting write of thread `t` goes to memory; one waits.
    pub fn flush(&mut self, t: u32)
        requires room { 0 < self.old.spare }
        requires comes { Comes self.old (entry.Flush t) }
        ensures { self.new ≡ added self.old (entry.Flush t) }
    {
        self.shared.flush(t);
        note(&mut self.log, &mut self.marks, Entry::Flush(t));
    }

    /// After `k` private steps thread `t` is at `target`, which isn't grown, and the instruction at `source` was finished
    /// last. A strict run ends.
    pub fn miss(&mut self, t: u32, k: u32, source: u64, target: u64)
        requires room { 0 < self.old.spare }
        requires comes { Comes self.old (entry.Miss t k source target) }
        ensures { self.new ≡ added self.old (entry.Miss t k source target) }
    {
        let miss = Miss {
            thread: t,
            source,
            target,
        };
        self.shared.miss(is_strict(&self.case), k, miss);
        note(
            &mut self.log,
            &mut self.marks,
            Entry::Miss(t, k, source, target),
        );
    }

    /// With `k` private steps of thread `t` the limit of steps is reached: the run ends.
    pub fn over(&mut self, t: u32, k: u32)
        requires room { 0 < self.old.spare }
        requires comes { Comes self.old (entry.Over t k) }
        ensures { self.new ≡ added self.old (entry.Over t k) }
    {
        self.shared.pass(u64::from(k));
        self.shared.end(RunEnd::Steps);
        note(&mut self.log, &mut self.marks, Entry::Over(t, k));
    }

    /// Thread `t` is at `place`, which isn't grown, and no more places may be: the run ends.
    pub fn full(&mut self, t: u32, place: u64)
        requires room { 0 < self.old.spare }
        requires place { (cpu_at (machine self.old) (slots.slot_of t)).rip ≡ place }
        requires comes { Comes self.old (entry.Full t) }
        ensures { self.new ≡ added self.old (entry.Full t) }
    {
        self.shared.end(RunEnd::Full { thread: t, place });
        note(&mut self.log, &mut self.marks, Entry::Full(t));
    }

    /// Thread `t` grows a place: the block `b` stands there from now on.
    ///
    /// # Errors
    ///
    /// `Grown` exactly where a block is grown at the place, with the block handed in; `Memory` where memory for one block
    /// more is wanting. The hall is as it was then.
    pub fn grow(&mut self, t: u32, a: u64, b: Arc<B>) -> Result<(), HallGrow<B>>
        requires room { 0 < self.old.spare }
        requires fits { B.fits self.old.case.image a b.value }
        requires comes { map.get self.old.blocks a ≡ None → Comes self.old (entry.Grow t a) }
        ensures ok { OnOk result (self.new ≡ with_block (added self.old (entry.Grow t a)) a b.value) }
        ensures outcome { GrowOutcome (map.get self.old.blocks a) b result }
        ensures err { OnErr result (self.new ≡ self.old) }
    {
        if self.book.find(a).is_some() {
            return Err(HallGrow::Grown(b));
        }
        if let Err(e) = put(&mut self.book, a, b) {
            return Err(HallGrow::Memory(e));
        }
        note(&mut self.log, &mut self.marks, Entry::Grow(t, a));
        Ok(())
    }

    // Whether each live thread waits at the request of its mark, and no write waits.
    fn is_dead(&self) -> bool
        ensures { result ≡ is_dead self.now }
    {
        self.shared.are_stuck(&self.marks)
    }

    // No thread can go on: the run ends.
    fn end_dead(&mut self)
        requires room { 0 < self.old.spare }
        requires comes { Comes self.old entry.Dead }
        ensures { self.new ≡ added self.old entry.Dead }
    {
        self.shared.end(RunEnd::Deadlock);
        note(&mut self.log, &mut self.marks, Entry::Dead);
    }

    /// Ends the run where no thread can go on: true exactly where every live thread is marked and still waits, and no write
    /// does. Else nothing changes.
    pub fn dead(&mut self) -> bool
        requires room { 0 < self.old.spare }
        requires going { (machine self.old).ending ≡ None }
        ensures exact { result ≡ is_dead self.old }
        ensures entry { self.new ≡ (if result then added self.old entry.Dead else self.old) }
    {
        if !self.is_dead() {
            return false;
        }
        self.end_dead();
        true
    }
}
