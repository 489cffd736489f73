//! The machine at one moment, and what changes it.

ghost use Rattle.std.specs.Prelude.{◌≡◌, ◌<◌, ◌≤◌, ◌+◌, ◌^◌, ℕ, Bool, true, false, [], length, get_or, nat_lt, nat_le, replicate, slice_set, IfOk, IfNone, IfSome, Some, None};
ghost use Rattle.address_space.specs.Slots.{slot_of};
ghost use Rattle.guest_map.specs.Layout.{IsAccepted};
ghost use Rattle.lib_table.specs.Library.{LibraryData};
ghost use Rattle.tso_memory.specs.Buffer.{size_of, pending};
ghost use Rattle.tso_memory.specs.declared.access.Access.TheVariants as access;
ghost use Rattle.tso_memory.specs.Tso.{is_none_waiting};
ghost use Rattle.journal_pack.specs.Entry.{thread_of};
ghost use Rattle.machine_model.specs.State.{entering, is_live, list_at, no_core, start, thread_in};
ghost use Rattle.machine_model.specs.Step.{cpu_at, ended, exchanged, faulted, flushed, is_in_use, later, lives, loaded, newborn, refused, slot_in, stored, with_cpu};

use crate::thread_core::ThreadCore;
use address_space::slot_of;
use elf_image::Image;
use guest_map::{LayFault, lay_out};
use lib_table::{BadKind, Library};
use machine_model::Entry;
use machine_model::case::Case;
use machine_model::ending::RunEnd;
use std::alloc::{AllocError, Global};
use std::marker::Model;
use tso_memory::{Change, Denied, Tso, Width};
use x86_model::Cpu;

const SLOTS: usize = 64;

/// The machine at one moment: what the thread of each slot works on, memory, the library, the steps made, the ending.
#[derive(Drop)]
pub struct Machine {
    pub(crate) cores: Vec<ThreadCore>,
    pub(crate) memory: Tso,
    pub(crate) library: Library,
    pub(crate) steps: u64,
    pub(crate) ending: Option<RunEnd>,
}

impl Model for Machine {
    ghost use Rattle.std.specs.Prelude.{ℕ, List, Option, refl};
    ghost use Rattle.std.specs.Coded.{code_by, coded×, coded_list, coded_option, coded_ℕ};
    ghost use Rattle.lib_table.specs.Library.{LibraryData};
    ghost use Rattle.lib_table.specs.contracts.library.Library as library_row;
    ghost use Rattle.tso_memory.specs.Tso.{TsoState};
    ghost use Rattle.tso_memory.specs.contracts.tso.Tso as tso_row;
    ghost use Rattle.machine_model.specs.contracts.ending.RunEnd as ending_row;
    ghost use Rattle.replay_machine.specs.contracts.thread_core.ThreadCore as core_row;
    ghost use Rattle.machine_model.specs.declared.ending.RunEnd.{RunEnd};
    ghost use Rattle.replay_machine.specs.Machines.{IsSound};
    ghost use Rattle.machine_model.specs.State.{Core, Machine as Moment};

    ghost Value = { Moment };

    ghost coded = { code_by (List Core × (TsoState × (LibraryData × (ℕ × Option RunEnd))))
        (coded× (coded_list core_row.the_row.coded) (coded× tso_row.the_row.coded (coded× library_row.the_row.coded (coded× coded_ℕ (coded_option ending_row.the_row.coded)))))
        (λ m. (m.cores, (m.tso, (m.library, (m.steps, m.ending)))))
        (λ p. record { cores = p.0; tso = p.1.0; library = p.1.1.0; steps = p.1.1.1.0; ending = p.1.1.1.1 }) (λ _. refl) };

    ghost view = { λ m. record { cores = m.cores.items; tso = m.memory; library = m.library; steps = m.steps; ending = m.ending } };

    ghost invariant = { λ m. IsSound (record { cores = m.cores.items; tso = m.memory; library = m.library; steps = m.steps; ending = m.ending }) };
}

// Whether a thread lives in a slot.
#[tactic(auto, using(machine_model::proofs::Slots::lives_in))]
pub(crate) fn is_in_use(library: &Library, slot: u32) -> bool
    ensures { result ≡ is_in_use library.now slot }
{
    library.thread_in(slot).is_some()
}

// In which of the slots a thread lives.
#[tactic(auto, using(crate::proofs::Births::used_more))]
pub(crate) fn uses(library: &Library) -> [bool; 64]
    ensures { (u : ℕ) → u < 64 → get_or result u false ≡ is_in_use library.now u }
{
    let mut uses = [false; SLOTS];
    for s in 0..64u32 {
        uses[s as usize] = is_in_use(library, s);
    }
    uses
}

// The slot in which a thread lives now and none did before, if there is one.
pub(crate) fn newborn(before: &[bool], library: &Library) -> Option<u32>
    requires { length before.now ≡ 64 }
    ensures newborn { (l : LibraryData) → ((u : ℕ) → u < 64 → get_or before.now u false ≡ is_in_use l u) → result ≡ newborn l library.now }
    ensures slot { IfSome result (λ s. s < 64) }
{
    for t in 0..64 {
        if is_in_use(library, t) && !before[t as usize] {
            return Some(t);
        }
    }
    None
}

// The threads before the first step.
fn first_cores(alloc: Global, image: &Image, rsp: u64) -> Result<Vec<ThreadCore>, AllocError>
    ensures { IfOk result (λ cores. cores.items ≡ slice_set (replicate 64 no_core) 0 (record { cpu = entering image.now rsp; frames = [] })) }
{
    let mut cores = Vec::with_capacity(alloc, SLOTS)?;
    let first = ThreadCore::make(alloc, entering(image, rsp))?;
    cores.push(first)?;
    for _ in 0..SLOTS - 1 {
        let core = ThreadCore::make(alloc, Cpu::make())?;
        cores.push(core)?;
    }
    Ok(cores)
}

// The registers of thread 0 as a run begins.
#[tactic(auto, unfolding(x86_model::specs::Thread::start))]
fn entering(image: &Image, rsp: u64) -> Cpu
    ensures { result ≡ entering image.now rsp }
{
    let mut cpu = Cpu::make();
    cpu.regs[4] = rsp;
    cpu.rip = image.entry;
    cpu
}

impl Machine {
    /// The machine before the first step.
    #[tactic(auto, unfolding(machine_model::specs::State::start))]
    pub fn start(alloc: Global, case: &Case) -> Result<Machine, AllocError>
        requires { IsAccepted case.now.image case.now.args }
        ensures { IfOk result (λ m. m ≡ start case.now) }
    {
        let start = match lay_out(alloc, case.image(), &case.args) {
            Ok(start) => start,
            Err(LayFault::Memory(e)) => return Err(e),
            // They are accepted, so neither comes.
            Err(LayFault::Clash(_)) | Err(LayFault::ArgsTooLong) => return Err(AllocError),
        };
        let cores = first_cores(alloc, case.image(), start.rsp)?;
        let input = Vec::from_slice(alloc, &case.input)?;
        let library = Library::make(alloc, input)?;
        Ok(Machine {
            cores,
            memory: start.memory,
            library,
            steps: 0,
            ending: None,
        })
    }

    /// The steps that were made.
    pub fn steps(&self) -> u64
        ensures { result ≡ self.now.steps }
    {
        self.steps
    }

    /// How the run ended, if it did.
    pub fn ending(&self) -> Option<RunEnd>
        ensures { result ≡ self.now.ending }
    {
        self.ending
    }

    /// Whether thread `t` lives.
    pub(crate) fn is_live(&self, t: u32) -> bool
        ensures { result ≡ is_live self.now t }
    {
        self.library.is_live(t)
    }

    // Whether the thread that an entry names lives, if it names one.
    pub(crate) fn names_live(&self, entry: Entry) -> bool
        ensures { result ≡ lives self.now (thread_of entry) }
    {
        match entry.thread() {
            Some(t) => self.is_live(t),
            None => true,
        }
    }

    /// The number of the thread that lives in slot `s`, if one does.
    pub fn thread_in(&self, s: u32) -> Option<u32>
        ensures { result ≡ thread_in self.now s }
    {
        self.library.thread_in(s)
    }

    /// The registers of the thread in slot `t`.
    pub fn cpu(&self, t: u32) -> Cpu
        ensures { result ≡ cpu_at self.now t }
    {
        if t < 64 {
            self.cores[t as usize].cpu()
        } else {
            Cpu::make()
        }
    }

    /// Whether no write waits in slot `t`.
    pub(crate) fn has_no_writes(&self, t: u32) -> bool
        requires { t < 64 }
        ensures { result ≡ is_none_waiting (list_at self.now t) }
    {
        self.memory.is_empty(t)
    }

    /// Whether slot `t` has no room for one more waiting write.
    pub(crate) fn is_full(&self, t: u32) -> bool
        requires { t < 64 }
        ensures { result ≡ nat_le 64 (length (list_at self.now t)) }
    {
        self.memory.waiting(t) >= 64
    }

    /// Whether fewer steps were made than the limit is, with `k` more.
    pub(crate) fn is_below(&self, limit: u64, k: u32) -> bool
        ensures { result ≡ nat_lt (self.now.steps + k) limit }
    {
        u64::from(k) < limit.saturating_sub(self.steps)
    }

    pub(crate) fn set_cpu(&mut self, t: u32, cpu: Cpu)
        requires { t < 64 }
        ensures { self.new ≡ with_cpu self.old t cpu }
    {
        self.cores[t as usize].set_cpu(cpu);
    }

    // What every machine keeps. They do nothing at run time.
    pub(crate) fn steps_fit(&self)
        ensures { IfNone self.now.ending (self.now.steps < 2 ^ 63) }
    {
        let _ = &self.steps;
    }

    pub(crate) fn lists(&self)
        ensures { length self.now.tso.buffers ≡ 64 }
    {
        let _none = self.memory.is_empty(0);
    }

    pub(crate) fn add_steps(&mut self, n: u64)
        requires steps { self.old.steps + n < 2 ^ 64 }
        requires going { IfNone self.old.ending (self.old.steps + n < 2 ^ 63) }
        ensures { self.new ≡ later self.old n }
    {
        self.steps += n;
    }

    /// So many steps were made in all.
    pub(crate) fn set_steps(&mut self, n: u64)
        requires { n < 2 ^ 63 }
        ensures { self.new ≡ record self.old { steps = n } }
    {
        self.steps = n;
    }

    pub(crate) fn end(&mut self, ending: RunEnd)
        ensures { self.new ≡ ended self.old ending }
    {
        self.ending = Some(ending);
    }

    pub(crate) fn fault(&mut self, t: u32, cpu: Cpu, kind: BadKind)
        ensures { self.new ≡ faulted self.old t cpu kind }
    {
        self.set_cpu(slot_of(t), cpu);
        self.end(RunEnd::Fault {
            thread: t,
            rip: cpu.rip,
            kind,
        });
    }

    pub(crate) fn load(&mut self, t: u32, cpu: Cpu, a: u64, width: Width)
        ensures { self.new ≡ loaded self.old t cpu a (size_of width) (refused self.old access.Load a (size_of width)) }
    {
        match self.memory.load(slot_of(t), a, width) {
            Ok(v) => self.set_cpu(
                slot_of(t),
                Cpu {
                    mid: Some(v),
                    ..cpu
                },
            ),
            Err(Denied(x)) => self.fault(t, cpu, BadKind::Access(x)),
        }
    }

    pub(crate) fn store(&mut self, t: u32, cpu: Cpu, a: u64, width: Width, value: u64, next: Cpu)
        requires { nat_le 64 (length (list_at self.old (slot_of t))) ≡ false }
        ensures { self.new ≡ stored self.old t cpu (pending a width value) next (refused self.old access.Store a (size_of width)) }
    {
        match self.memory.store(slot_of(t), a, width, value) {
            Ok(()) => self.set_cpu(slot_of(t), next),
            Err(Denied(x)) => self.fault(t, cpu, BadKind::Access(x)),
        }
    }

    pub(crate) fn exchange(&mut self, t: u32, cpu: Cpu, a: u64, width: Width, change: Change)
        ensures { self.new ≡ exchanged self.old t cpu a (size_of width) change (refused self.old access.Locked a (size_of width)) }
    {
        match self.memory.exchange_locked(slot_of(t), a, width, change) {
            Ok(v) => self.set_cpu(
                slot_of(t),
                Cpu {
                    mid: Some(v),
                    ..cpu
                },
            ),
            Err(Denied(x)) => self.fault(t, cpu, BadKind::Access(x)),
        }
    }

    /// The oldest write of slot `t` goes to memory, where one waits.
    pub(crate) fn flush(&mut self, t: u32)
        requires slot { t < 64 }
        requires waits { is_none_waiting (list_at self.old t) ≡ false }
        ensures { Some self.new ≡ flushed self.old t (list_at self.old t) }
    {
        let _moved = self.memory.flush(t);
    }
}

/// The slot of the thread that an entry names; 64 where it names none.
pub fn slot_in(entry: Entry) -> u32
    ensures { result ≡ slot_in entry }
{
    match entry.thread() {
        Some(t) => slot_of(t),
        None => 64,
    }
}
