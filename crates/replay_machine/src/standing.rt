//! Whether an entry is a step of the machine. Nothing changes here.

ghost use Rattle.std.specs.Prelude.{◌≡◌, ◌&&◌, ◌<◌, ◌≤◌, ◌+◌, ◌^◌, ℕ, is_none, is_some, nat_le};
ghost use Rattle.std.specs.List.{list_all};
ghost use Rattle.address_space.specs.Slots.{slot_of};
ghost use Rattle.journal_pack.specs.Entry.{private_of};
ghost use Rattle.tso_memory.specs.Tso.{is_none_waiting};
ghost use Rattle.x86_model.specs.Want.{want};
ghost use Rattle.x86_model.specs.declared.cpu.Cpu.{Cpu as CpuData};
ghost use Rattle.journal_pack.specs.declared.entry.Entry.TheVariants as entry;
ghost use Rattle.machine_model.specs.State.{slots, thread_in};
ghost use Rattle.machine_model.specs.Step.{admits, asked_by, carried_out, core_with, is_deadlocked, is_stuck, later, step_from, waits_at, waits_for};
ghost use Rattle.replay_machine.specs.Machines.{overfills, overfills_by};

use crate::machine::Machine;
use crate::want::next_want;
use address_space::slot_of;
use basic_blocks::is_code_place;
use elf_image::Image;
use journal_pack::MAX_STEPS;
use lib_table::Asked;
use machine_model::Entry;
use machine_model::case::Case;
use machine_model::conversions::asked;
use miss_report::Miss;
use x86_model::{Cpu, Want};

impl Machine {
    // Whether thread `t`, which works on these registers and wants this, stands at a call that waits for another thread.
    fn is_waiting(&self, t: u32, cpu: Cpu, wanted: Want) -> bool
        ensures { result ≡ waits_for self.now t (core_with self.now t cpu) (asked_by wanted) }
    {
        match wanted {
            Want::Call(function) => self.waits_for(t, cpu, Asked::Lib(function)),
            Want::Door(door) => self.waits_for(t, cpu, asked(door)),
            _ => false,
        }
    }

    // Whether the step that thread `t` wants, which isn't private, can be made, after any number of steps more.
    #[tactic(auto)]
    fn is_ready(&self, t: u32, cpu: Cpu, wanted: Want) -> bool
        ensures { result ≡ is_some (carried_out wanted self.now t cpu) }
    {
        match wanted {
            Want::Private(_) => false,
            Want::Load { .. } | Want::Store { .. } | Want::Bad(_) => true,
            Want::Fence(_) | Want::Locked { .. } => self.has_no_writes(slot_of(t)),
            Want::Call(function) => self.can_serve(t, cpu, Asked::Lib(function)),
            Want::Door(door) => self.can_serve(t, cpu, asked(door)),
        }
    }

    // Whether the thread that lives in a slot, if one does, stands at a call that waits for another.
    fn is_stuck(&self, image: &Image, s: u32) -> bool
        ensures { result ≡ is_stuck image.now self.now s (thread_in self.now s) }
    {
        match self.library.thread_in(s) {
            Some(t) => {
                let cpu = self.cpu(s);
                self.is_waiting(t, cpu, next_want(image, cpu))
            }
            None => true,
        }
    }

    // Whether each thread that lives stands at a call that waits for another.
    fn all_wait(&self, image: &Image) -> bool
        ensures { result ≡ list_all (λ s. is_stuck image.now self.now s (thread_in self.now s)) slots }
    {
        for s in 0..64 {
            if !self.is_stuck(image, s) {
                return false;
            }
        }
        true
    }

    // Whether no write waits.
    fn all_empty(&self) -> bool
        ensures { result ≡ list_all is_none_waiting self.now.tso.buffers }
    {
        self.lists();
        for t in 0..64 {
            if !self.has_no_writes(t) {
                return false;
            }
        }
        true
    }

    // Each kind of entry, where `cpu` is what its thread works on after the private steps, and `wanted` what it wants then.

    #[tactic(auto)]
    fn event_stands(&self, case: &Case, t: u32, k: u32, cpu: Cpu, wanted: Want) -> bool
        requires { wanted ≡ want case.now.image cpu }
        ensures { result ≡ is_some (step_from case.now self.now (entry.Ev t k) cpu) }
    {
        self.is_below(case.limit(), k) && self.is_ready(t, cpu, wanted)
    }

    #[tactic(auto)]
    fn wait_stands(&self, case: &Case, t: u32, k: u32, cpu: Cpu, wanted: Want) -> bool
        requires { wanted ≡ want case.now.image cpu }
        ensures { result ≡ is_some (step_from case.now self.now (entry.Wait t k) cpu) }
    {
        k > 0
            && self.is_below(case.limit(), k)
            && self.has_no_writes(slot_of(t))
            && self.is_waiting(t, cpu, wanted)
    }

    #[tactic(auto)]
    fn miss_stands(&self, case: &Case, miss: Miss, k: u32, cpu: Cpu) -> bool
        ensures { result ≡ is_some (step_from case.now self.now (entry.Miss miss.thread k miss.source miss.target) cpu) }
    {
        self.is_below(case.limit(), k)
            && cpu.last == miss.source
            && cpu.rip == miss.target
            && is_code_place(case.image(), miss.target)
    }

    #[tactic(auto)]
    fn dead_stands(&self, case: &Case) -> bool
        ensures { (cpu : CpuData) → result ≡ is_some (step_from case.now self.now entry.Dead cpu) }
    {
        self.all_wait(case.image()) && self.all_empty()
    }

    /// Whether the entry is a step of a machine that admits it, where `cpu` is what its thread works on after the private
    /// steps, and `wanted` what it wants then.
    #[tactic(auto)]
    pub fn stands(&self, case: &Case, entry: Entry, cpu: Cpu, wanted: Want) -> bool
        requires { wanted ≡ want case.now.image cpu }
        ensures { result ≡ is_some (step_from case.now self.now entry cpu) }
    {
        match entry {
            Entry::Ev(t, k) => self.event_stands(case, t, k, cpu, wanted),
            Entry::Tick(_, k) => k > 0 && self.is_below(case.limit(), k),
            Entry::Flush(t) => !self.has_no_writes(slot_of(t)),
            Entry::Wait(t, k) => self.wait_stands(case, t, k, cpu, wanted),
            Entry::Miss(thread, k, source, target) => {
                let miss = Miss {
                    thread,
                    source,
                    target,
                };
                self.miss_stands(case, miss, k, cpu)
            }
            Entry::Grow(_, a) => !case.strict && is_code_place(case.image(), a),
            Entry::Over(_, k) => !self.is_below(case.limit(), k),
            Entry::Full(_) => !case.strict && is_code_place(case.image(), cpu.rip),
            Entry::Dead => self.dead_stands(case),
        }
    }

    /// Whether the run goes on, the entry's thread lives, and its private steps are few enough.
    #[tactic(auto)]
    pub fn admits(&self, entry: Entry) -> bool
        ensures { result ≡ admits self.now entry }
    {
        self.ending.is_none() && self.names_live(entry) && entry.private_steps() <= MAX_STEPS
    }

    // Whether the thread in a slot, which wants this, stores where as many of its writes wait as may.
    #[tactic(auto)]
    fn overfills(&self, s: u32, wanted: Want) -> bool
        requires { s < 64 }
        ensures { result ≡ overfills self.now s wanted }
    {
        match wanted {
            Want::Store { .. } => self.is_full(s),
            _ => false,
        }
    }

    /// Whether the entry is a store of a thread with 64 waiting writes, where that is what its thread wants then.
    pub fn overfills_by(&self, entry: Entry, wanted: Want) -> bool
        ensures { result ≡ overfills_by self.now entry wanted }
    {
        match entry {
            Entry::Ev(t, _) => self.overfills(slot_of(t), wanted),
            _ => false,
        }
    }
}
