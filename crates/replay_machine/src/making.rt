//! What an entry that is a step does to the machine.

ghost use Rattle.std.specs.Prelude.{◌≡◌, ◌<◌, ◌≤◌, ◌^◌, ℕ, true, false, is_some, IfNone, None, Some, OnOk, OnErr};
ghost use Rattle.address_space.specs.Slots.{slot_of};
ghost use Rattle.journal_pack.specs.Entry.{private_of, thread_of};
ghost use Rattle.x86_model.specs.Want.{want};
ghost use Rattle.x86_model.specs.declared.cpu.Cpu.{Cpu as CpuData};
ghost use Rattle.journal_pack.specs.declared.entry.Entry.TheVariants as entry;
ghost use Rattle.machine_model.specs.Step.{carried_out, step_from};
ghost use Rattle.replay_machine.specs.Machines.{CanServe, overfills, overfills_by};

use crate::machine::Machine;
use address_space::slot_of;
use lib_table::Asked;
use machine_model::Entry;
use machine_model::case::Case;
use machine_model::conversions::{asked, bad_kind, memory_change, memory_width};
use machine_model::ending::RunEnd;
use miss_report::Miss;
use std::alloc::AllocError;
use x86_model::{Cpu, Want};

impl Machine {
    // Carries out a step that isn't private and can be made. Without memory nothing changes.
    fn carry_out(&mut self, t: u32, cpu: Cpu, wanted: Want) -> Result<(), AllocError>
        requires serves { CanServe self.old t }
        requires going { self.old.ending ≡ None }
        requires ready { is_some (carried_out wanted self.old t cpu) ≡ true }
        requires room { overfills self.old (slot_of t) wanted ≡ false }
        ensures step { OnOk result (Some self.new ≡ carried_out wanted self.old t cpu) }
        ensures err { OnErr result (self.new ≡ self.old) }
    {
        match wanted {
            // It isn't private.
            Want::Private(_) => {}
            Want::Load { at, w } => self.load(t, cpu, at, memory_width(w)),
            Want::Store { at, w, value, next } => {
                self.store(t, cpu, at, memory_width(w), value, next);
            }
            Want::Fence(next) => self.set_cpu(slot_of(t), next),
            Want::Locked { at, w, change } => {
                self.exchange(t, cpu, at, memory_width(w), memory_change(change));
            }
            Want::Call(function) => self.serve(t, cpu, Asked::Lib(function))?,
            Want::Door(door) => self.serve(t, cpu, asked(door))?,
            Want::Bad(kind) => self.fault(t, cpu, bad_kind(kind)),
        }
        Ok(())
    }

    // Each kind of entry, where `cpu` is what its thread works on after the private steps, and `wanted` what it wants then.

    #[tactic(auto)]
    fn event(
        &mut self,
        case: &Case,
        t: u32,
        k: u32,
        cpu: Cpu,
        wanted: Want,
    ) -> Result<(), AllocError>
        requires serves { CanServe self.old t }
        requires going { self.old.ending ≡ None }
        requires limit { case.now.limit < 2 ^ 63 }
        requires want { wanted ≡ want case.now.image cpu }
        requires stands { is_some (step_from case.now self.old (entry.Ev t k) cpu) ≡ true }
        requires room { overfills self.old (slot_of t) wanted ≡ false }
        ensures step { OnOk result (Some self.new ≡ step_from case.now self.old (entry.Ev t k) cpu) }
        ensures err { OnErr result (self.new ≡ self.old) }
    {
        let steps = self.steps() + (u64::from(k) + 1);
        self.carry_out(t, cpu, wanted)?;
        self.set_steps(steps);
        Ok(())
    }

    #[tactic(auto)]
    fn tick(&mut self, case: &Case, t: u32, k: u32, cpu: Cpu)
        requires going { self.old.ending ≡ None }
        requires limit { case.now.limit < 2 ^ 63 }
        requires stands { is_some (step_from case.now self.old (entry.Tick t k) cpu) ≡ true }
        ensures { Some self.new ≡ step_from case.now self.old (entry.Tick t k) cpu }
    {
        self.set_cpu(slot_of(t), cpu);
        self.add_steps(u64::from(k));
    }

    #[tactic(auto)]
    fn wait(&mut self, case: &Case, t: u32, k: u32, cpu: Cpu)
        requires going { self.old.ending ≡ None }
        requires limit { case.now.limit < 2 ^ 63 }
        requires stands { is_some (step_from case.now self.old (entry.Wait t k) cpu) ≡ true }
        ensures { Some self.new ≡ step_from case.now self.old (entry.Wait t k) cpu }
    {
        self.set_cpu(slot_of(t), cpu);
        self.add_steps(u64::from(k));
    }

    #[tactic(auto)]
    fn miss(&mut self, case: &Case, miss: Miss, k: u32, cpu: Cpu)
        requires going { self.old.ending ≡ None }
        requires limit { case.now.limit < 2 ^ 63 }
        requires stands { is_some (step_from case.now self.old (entry.Miss miss.thread k miss.source miss.target) cpu) ≡ true }
        ensures { Some self.new ≡ step_from case.now self.old (entry.Miss miss.thread k miss.source miss.target) cpu }
    {
        self.set_cpu(slot_of(miss.thread), cpu);
        self.add_steps(u64::from(k) + 1);
        if case.strict {
            self.end(RunEnd::Miss(miss));
        }
    }

    #[tactic(auto)]
    fn over(&mut self, case: &Case, t: u32, k: u32, cpu: Cpu)
        requires going { self.old.ending ≡ None }
        requires few { k ≤ 4096 }
        requires stands { is_some (step_from case.now self.old (entry.Over t k) cpu) ≡ true }
        ensures { Some self.new ≡ step_from case.now self.old (entry.Over t k) cpu }
    {
        self.steps_fit();
        self.set_cpu(slot_of(t), cpu);
        self.end(RunEnd::Steps);
        self.add_steps(u64::from(k));
    }

    #[tactic(auto)]
    fn full(&mut self, case: &Case, t: u32, cpu: Cpu)
        requires { is_some (step_from case.now self.old (entry.Full t) cpu) ≡ true }
        ensures { Some self.new ≡ step_from case.now self.old (entry.Full t) cpu }
    {
        self.end(RunEnd::Full {
            thread: t,
            place: cpu.rip,
        });
    }

    #[tactic(auto)]
    fn dead(&mut self, case: &Case, cpu: Cpu)
        requires { is_some (step_from case.now self.old entry.Dead cpu) ≡ true }
        ensures { Some self.new ≡ step_from case.now self.old entry.Dead cpu }
    {
        self.end(RunEnd::Deadlock);
    }

    /// Makes the step that an entry is, where `cpu` is what its thread works on after the private steps, and `wanted` what it
    /// wants then. Without memory nothing changes.
    #[tactic(auto)]
    pub fn make(
        &mut self,
        case: &Case,
        entry: Entry,
        cpu: Cpu,
        wanted: Want,
    ) -> Result<(), AllocError>
        requires serves { (t : ℕ) → thread_of entry ≡ Some t → CanServe self.old t }
        requires going { self.old.ending ≡ None }
        requires limit { case.now.limit < 2 ^ 63 }
        requires few { private_of entry ≤ 4096 }
        requires want { wanted ≡ want case.now.image cpu }
        requires stands { is_some (step_from case.now self.old entry cpu) ≡ true }
        requires room { overfills_by self.old entry wanted ≡ false }
        ensures step { OnOk result (Some self.new ≡ step_from case.now self.old entry cpu) }
        ensures err { OnErr result (self.new ≡ self.old) }
    {
        match entry {
            Entry::Ev(t, k) => self.event(case, t, k, cpu, wanted)?,
            Entry::Tick(t, k) => self.tick(case, t, k, cpu),
            Entry::Flush(t) => self.flush(slot_of(t)),
            Entry::Wait(t, k) => self.wait(case, t, k, cpu),
            Entry::Miss(thread, k, source, target) => {
                let miss = Miss {
                    thread,
                    source,
                    target,
                };
                self.miss(case, miss, k, cpu);
            }
            Entry::Grow(_, _) => {}
            Entry::Over(t, k) => self.over(case, t, k, cpu),
            Entry::Full(t) => self.full(case, t, cpu),
            Entry::Dead => self.dead(case, cpu),
        }
        Ok(())
    }
}
