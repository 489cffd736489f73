//! What an entry does to the machine.

ghost use Rattle.std.specs.Prelude.{◌≡◌, ◌<◌, ◌≤◌, ◌^◌, ℕ, true, IfErr, IfOk, None, Some};
ghost use Rattle.address_space.specs.Slots.{slot_of};
ghost use Rattle.journal_pack.specs.Entry.{private_of, thread_of};
ghost use Rattle.std.specs.List.{list_all};
ghost use Rattle.tso_memory.specs.Tso.{is_none_waiting};
ghost use Rattle.x86_model.specs.declared.cpu.Cpu.{Cpu as CpuData};
ghost use Rattle.journal_pack.specs.declared.entry.Entry.TheVariants as entry;
ghost use Rattle.machine_plain.specs.Plain.{CanServe, IsFull, stepped_to};
ghost use Rattle.machine_model.specs.State.{is_live, slots, thread_in};
ghost use Rattle.basic_blocks.specs.Places.{is_code_place};
ghost use Rattle.machine_model.specs.Step.{after_private, carried_out, cpu_at, is_stuck, privately, slot_in, step, step_from, waits_at};

use crate::machine::{PlainFault, PlainMachine, slot_in};
use crate::wants::next_want;
use address_space::slot_of;
use basic_blocks::is_code_place;
use elf_image::Image;
use lib_table::Asked;
use machine_model::Entry;
use machine_model::case::Case;
use machine_model::conversions::{asked, bad_kind, memory_change, memory_width};
use machine_model::ending::RunEnd;
use miss_report::Miss;
use std::alloc::Global;
use x86_model::{Cpu, Want};

/// The registers after a private step.
pub fn privately(want: Want) -> Option<Cpu>
    ensures { result ≡ privately want }
{
    match want {
        Want::Private(next) => Some(next),
        _ => None,
    }
}

#[tactic(auto, using(crate::proofs::PlainLemmas::one_private, crate::proofs::PlainLemmas::never_private), unfolding(machine_model::specs::Step::after_private))]
/// The registers after `k` private steps, or none where one of them wouldn't be private.
pub fn after_private(image: &Image, k: u32, cpu: Cpu) -> Option<Cpu>
    ensures { result ≡ after_private image.now k cpu }
{
    let mut at = cpu;
    for _ in 0..k {
        let Some(next) = privately(next_want(image, at)) else {
            return None;
        };
        at = next;
    }
    Some(at)
}

impl PlainMachine {
    /// Whether thread `t` with these registers stands at a call that waits for another thread.
    pub fn waits_at(&self, image: &Image, t: u32, cpu: Cpu) -> bool
        ensures { result ≡ waits_at image.now self.now t cpu }
    {
        match next_want(image, cpu) {
            Want::Call(function) => self.waits_for(t, cpu, Asked::Lib(function)),
            Want::Door(door) => self.waits_for(t, cpu, asked(door)),
            _ => false,
        }
    }

    // Carries out a step that isn't private; answers whether it is a step.
    fn carry_out(&mut self, alloc: Global, t: u32, cpu: Cpu, want: Want) -> Result<bool, PlainFault>
        requires serves { CanServe self.old t }
        requires going { self.old.ending ≡ None }
        ensures step { IfOk result (λ done. stepped_to done self.new ≡ carried_out want self.old t cpu) }
        ensures fault { IfErr result (IsFull self.old (slot_of t)) }
    {
        match want {
            Want::Private(_) => Ok(false),
            Want::Load { at, w } => {
                self.load(t, cpu, at, memory_width(w));
                Ok(true)
            }
            Want::Store { at, w, value, next } => {
                if !self.store(t, cpu, at, memory_width(w), value, next) {
                    return Err(PlainFault::Crowded);
                }
                Ok(true)
            }
            Want::Fence(next) => {
                if !self.has_no_writes(slot_of(t)) {
                    return Ok(false);
                }
                self.set_cpu(slot_of(t), next);
                Ok(true)
            }
            Want::Locked { at, w, change } => {
                if !self.has_no_writes(slot_of(t)) {
                    return Ok(false);
                }
                self.exchange(t, cpu, at, memory_width(w), memory_change(change));
                Ok(true)
            }
            Want::Call(function) => Ok(self.serve(alloc, t, cpu, Asked::Lib(function))?),
            Want::Door(door) => Ok(self.serve(alloc, t, cpu, asked(door))?),
            Want::Bad(kind) => {
                self.fault(t, cpu, bad_kind(kind));
                Ok(true)
            }
        }
    }

    // Whether each thread that lives stands at a call that waits for another.
    fn all_wait(&self, image: &Image) -> bool
        ensures { result ≡ list_all (λ s. is_stuck image.now self.now s (thread_in self.now s)) slots }
    {
        for s in 0..64 {
            if !self.is_stuck(image, s) {
                return false;
            }
        }
        true
    }

    // Whether the thread that lives in a slot, if one does, stands at a call that waits for another.
    fn is_stuck(&self, image: &Image, s: u32) -> bool
        ensures { result ≡ is_stuck image.now self.now s (thread_in self.now s) }
    {
        match self.library.thread_in(s) {
            Some(t) => self.waits_at(image, t, self.cpu(s)),
            None => true,
        }
    }

    // Whether no write waits.
    fn all_empty(&self) -> bool
        ensures { result ≡ list_all is_none_waiting self.now.tso.buffers }
    {
        self.lists();
        for t in 0..64 {
            if !self.has_no_writes(t) {
                return false;
            }
        }
        true
    }

    // Each kind of entry, where `cpu` is what its thread works on after the private steps, answers whether it is a step.

    fn event(
        &mut self,
        alloc: Global,
        case: &Case,
        t: u32,
        k: u32,
        cpu: Cpu,
    ) -> Result<bool, PlainFault>
        requires serves { CanServe self.old t }
        requires going { self.old.ending ≡ None }
        requires limit { case.now.limit < 2 ^ 63 }
        requires few { k ≤ 4096 }
        ensures step { IfOk result (λ done. stepped_to done self.new ≡ step_from case.now self.old (entry.Ev t k) cpu) }
        ensures fault { IfErr result (IsFull self.old (slot_of t)) }
    {
        if !self.is_below(case.limit(), k) {
            return Ok(false);
        }
        self.add_steps(u64::from(k) + 1);
        let want = next_want(case.image(), cpu);
        self.carry_out(alloc, t, cpu, want)
    }

    fn tick(&mut self, case: &Case, t: u32, k: u32, cpu: Cpu) -> bool
        requires limit { case.now.limit < 2 ^ 63 }
        requires few { k ≤ 4096 }
        ensures { stepped_to result self.new ≡ step_from case.now self.old (entry.Tick t k) cpu }
    {
        if k == 0 || !self.is_below(case.limit(), k) {
            return false;
        }
        self.set_cpu(slot_of(t), cpu);
        self.add_steps(u64::from(k));
        true
    }

    fn wait(&mut self, case: &Case, t: u32, k: u32, cpu: Cpu) -> bool
        requires limit { case.now.limit < 2 ^ 63 }
        requires few { k ≤ 4096 }
        ensures { stepped_to result self.new ≡ step_from case.now self.old (entry.Wait t k) cpu }
    {
        if k == 0 || !self.is_below(case.limit(), k) {
            return false;
        }
        if !self.has_no_writes(slot_of(t)) || !self.waits_at(case.image(), t, cpu) {
            return false;
        }
        self.set_cpu(slot_of(t), cpu);
        self.add_steps(u64::from(k));
        true
    }

    fn miss(&mut self, case: &Case, miss: Miss, k: u32, cpu: Cpu) -> bool
        requires limit { case.now.limit < 2 ^ 63 }
        requires few { k ≤ 4096 }
        ensures { stepped_to result self.new ≡ step_from case.now self.old (entry.Miss miss.thread k miss.source miss.target) cpu }
    {
        if !self.is_below(case.limit(), k) {
            return false;
        }
        if cpu.last != miss.source || cpu.rip != miss.target {
            return false;
        }
        if !is_code_place(case.image(), miss.target) {
            return false;
        }
        self.set_cpu(slot_of(miss.thread), cpu);
        self.add_steps(u64::from(k) + 1);
        if case.strict {
            self.end(RunEnd::Miss(miss));
        }
        true
    }

    fn over(&mut self, case: &Case, t: u32, k: u32, cpu: Cpu) -> bool
        requires going { self.old.ending ≡ None }
        requires few { k ≤ 4096 }
        ensures { stepped_to result self.new ≡ step_from case.now self.old (entry.Over t k) cpu }
    {
        if self.is_below(case.limit(), k) {
            return false;
        }
        self.steps_fit();
        self.set_cpu(slot_of(t), cpu);
        self.end(RunEnd::Steps);
        self.add_steps(u64::from(k));
        true
    }

    fn full(&mut self, case: &Case, t: u32, cpu: Cpu) -> bool
        ensures { stepped_to result self.new ≡ step_from case.now self.old (entry.Full t) cpu }
    {
        if case.strict || !is_code_place(case.image(), cpu.rip) {
            return false;
        }
        self.end(RunEnd::Full {
            thread: t,
            place: cpu.rip,
        });
        true
    }

    fn dead(&mut self, case: &Case) -> bool
        ensures { (cpu : CpuData) → stepped_to result self.new ≡ step_from case.now self.old entry.Dead cpu }
    {
        if !self.all_wait(case.image()) || !self.all_empty() {
            return false;
        }
        self.end(RunEnd::Deadlock);
        true
    }

    fn step_from(
        &mut self,
        alloc: Global,
        case: &Case,
        entry: Entry,
        cpu: Cpu,
    ) -> Result<bool, PlainFault>
        requires serves { (t : ℕ) → thread_of entry ≡ Some t → CanServe self.old t }
        requires going { self.old.ending ≡ None }
        requires limit { case.now.limit < 2 ^ 63 }
        requires few { private_of entry ≤ 4096 }
        ensures step { IfOk result (λ done. stepped_to done self.new ≡ step_from case.now self.old entry cpu) }
        ensures fault { IfErr result (IsFull self.old (slot_in entry)) }
    {
        match entry {
            Entry::Ev(t, k) => self.event(alloc, case, t, k, cpu),
            Entry::Tick(t, k) => Ok(self.tick(case, t, k, cpu)),
            Entry::Flush(t) => Ok(self.flush(slot_of(t))),
            Entry::Wait(t, k) => Ok(self.wait(case, t, k, cpu)),
            Entry::Miss(thread, k, source, target) => {
                let miss = Miss {
                    thread,
                    source,
                    target,
                };
                Ok(self.miss(case, miss, k, cpu))
            }
            Entry::Grow(_, a) => Ok(!case.strict && is_code_place(case.image(), a)),
            Entry::Over(t, k) => Ok(self.over(case, t, k, cpu)),
            Entry::Full(t) => Ok(self.full(case, t, cpu)),
            Entry::Dead => Ok(self.dead(case)),
        }
    }

    /// Makes the step that an entry is; answers whether it is one. `Crowded` comes only where 64 writes or more of its
    /// thread wait, and after a fault the machine may be anywhere on the way.
    #[tactic(auto, using(crate::proofs::PlainLemmas::is_step, crate::proofs::PlainLemmas::not_named, crate::proofs::PlainLemmas::too_private, crate::proofs::PlainLemmas::not_so_private, machine_model::proofs::Walks::ended_no_step))]
    pub fn step(&mut self, alloc: Global, case: &Case, entry: Entry) -> Result<bool, PlainFault>
        requires limit { case.now.limit < 2 ^ 63 }
        requires serves { self.old.ending ≡ None → (t : ℕ) → is_live self.old t ≡ true → CanServe self.old t }
        ensures step { IfOk result (λ done. stepped_to done self.new ≡ step case.now self.old entry) }
        ensures fault { IfErr result (IsFull self.old (slot_in entry)) }
    {
        if self.ending.is_some() {
            return Ok(false);
        }
        if !self.names_live(entry) {
            return Ok(false);
        }
        if entry.private_steps() > 4096 {
            return Ok(false);
        }
        let before = self.cpu(slot_in(entry));
        let Some(cpu) = after_private(case.image(), entry.private_steps(), before) else {
            return Ok(false);
        };
        self.step_from(alloc, case, entry, cpu)
    }
}
