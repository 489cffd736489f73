//! The machine at one moment, and what changes it.

ghost use Rattle.std.specs.Prelude.{◌≡◌, ◌<◌, ◌≤◌, ◌+◌, ◌^◌, [], length, map, nat_lt, replicate, slice_set, IfOk, IfErr, IfNone, IfSome, IsTrue, IsFalse};
ghost use Rattle.address_space.specs.Slots.{slot_of};
ghost use Rattle.lib_table.specs.Library.{LibraryData};
ghost use Rattle.tso_memory.specs.Buffer.{size_of, pending};
ghost use Rattle.tso_memory.specs.declared.access.Access.TheVariants as access;
ghost use Rattle.tso_memory.specs.Tso.{is_none_waiting};
ghost use Rattle.machine_plain.specs.Plain.{FaultsAtStart, stepped_to};
ghost use Rattle.journal_pack.specs.Entry.{thread_of};
ghost use Rattle.machine_model.specs.State.{entering, is_live, list_at, no_core, start, slots};
ghost use Rattle.machine_model.specs.Step.{cpu_at, ended, exchanged, faulted, flushed, is_in_use, later, lives, loaded, newborn, refused, slot_in, stored, with_cpu};

use crate::cores::PlainCore;
use address_space::slot_of;
use elf_image::Image;
use guest_map::{LayFault, lay_out};
use lib_table::{BadKind, Library};
use machine_model::Entry;
use machine_model::case::Case;
use machine_model::ending::RunEnd;
use std::alloc::{AllocError, Global};
use std::marker::Model;
use tso_memory::{Change, Denied, Tso, Width};
use x86_model::Cpu;

const SLOTS: usize = 64;

/// Why a journal wasn't played to its end.
#[derive(Clone, Copy, Debug)]
pub enum PlainFault {
    /// The image and the arguments can't be laid out.
    Lay(LayFault),
    /// A thread stores with 64 of its writes waiting: the program has no room for one more.
    Crowded,
    /// Memory ran out.
    Memory(AllocError),
}

impl From<AllocError> for PlainFault {
    ghost use Rattle.std.specs.Prelude.{◌≡◌};
    ghost use Rattle.machine_plain.specs.declared.machine.PlainFault.TheVariants.{Memory};

    ghost from_gives = { λ e f. f ≡ Memory e };

    fn from(e: AllocError) -> PlainFault {
        PlainFault::Memory(e)
    }
}

/// The plain machine at one moment: 64 threads, their memory, the library, the steps made, the ending.
#[derive(Drop)]
pub struct PlainMachine {
    pub(crate) cores: Vec<PlainCore>,
    pub memory: Tso,
    pub library: Library,
    steps: u64,
    pub(crate) ending: Option<RunEnd>,
}

impl Model for PlainMachine {
    ghost use Rattle.std.specs.Prelude.{ℕ, List, Option, refl};
    ghost use Rattle.std.specs.Coded.{code_by, coded×, coded_list, coded_option, coded_ℕ};
    ghost use Rattle.lib_table.specs.Library.{LibraryData};
    ghost use Rattle.lib_table.specs.contracts.library.Library as library_row;
    ghost use Rattle.tso_memory.specs.Tso.{TsoState};
    ghost use Rattle.tso_memory.specs.contracts.tso.Tso as tso_row;
    ghost use Rattle.machine_model.specs.contracts.ending.RunEnd as ending_row;
    ghost use Rattle.machine_plain.specs.contracts.cores.PlainCore as core_row;
    ghost use Rattle.machine_model.specs.declared.ending.RunEnd.{RunEnd};
    ghost use Rattle.machine_plain.specs.Plain.{IsPlain};
    ghost use Rattle.machine_model.specs.State.{Core, Machine};

    ghost Value = { Machine };

    ghost coded = { code_by (List Core × (TsoState × (LibraryData × (ℕ × Option RunEnd))))
        (coded× (coded_list core_row.the_row.coded) (coded× tso_row.the_row.coded (coded× library_row.the_row.coded (coded× coded_ℕ (coded_option ending_row.the_row.coded)))))
        (λ m. (m.cores, (m.tso, (m.library, (m.steps, m.ending)))))
        (λ p. record { cores = p.0; tso = p.1.0; library = p.1.1.0; steps = p.1.1.1.0; ending = p.1.1.1.1 }) (λ _. refl) };

    ghost view = { λ m. record { cores = m.cores.items; tso = m.memory; library = m.library; steps = m.steps; ending = m.ending } };

    ghost invariant = { λ m. IsPlain (record { cores = m.cores.items; tso = m.memory; library = m.library; steps = m.steps; ending = m.ending }) };
}

// Whether a thread lives in a slot.
#[tactic(auto, using(machine_model::proofs::Slots::lives_in))]
pub(crate) fn is_in_use(library: &Library, slot: u32) -> bool
    ensures { result ≡ is_in_use library.now slot }
{
    library.thread_in(slot).is_some()
}

// In which of the slots a thread lives.
#[tactic(auto, using(crate::proofs::PlainLemmas::mapped_more), unfolding(machine_model::specs::State::slots))]
pub(crate) fn uses(alloc: Global, library: &Library) -> Result<Vec<bool>, AllocError>
    ensures uses { IfOk result (λ uses. uses.items ≡ map (is_in_use library.now) slots) }
    ensures count { IfOk result (λ uses. length uses.items ≡ 64) }
{
    let mut uses = Vec::with_capacity(alloc, SLOTS)?;
    for s in 0..64 {
        uses.push(is_in_use(library, s))?;
    }
    Ok(uses)
}

// The slot in which a thread lives now and none did before, if there is one.
pub(crate) fn newborn(before: &[bool], library: &Library) -> Option<u32>
    requires { length before.now ≡ 64 }
    ensures newborn { (l : LibraryData) → before.now ≡ map (is_in_use l) slots → result ≡ newborn l library.now }
    ensures slot { IfSome result (λ s. s < 64) }
{
    for t in 0..64 {
        if is_in_use(library, t) && !before[t as usize] {
            return Some(t);
        }
    }
    None
}

// The threads before the first step.
fn first_cores(alloc: Global, image: &Image, rsp: u64) -> Result<Vec<PlainCore>, AllocError>
    ensures { IfOk result (λ cores. cores.items ≡ slice_set (replicate 64 no_core) 0 (record { cpu = entering image.now rsp; frames = [] })) }
{
    let mut cores = Vec::with_capacity(alloc, SLOTS)?;
    cores.push(PlainCore::make(alloc, entering(image, rsp)))?;
    for _ in 0..SLOTS - 1 {
        cores.push(PlainCore::make(alloc, Cpu::make()))?;
    }
    Ok(cores)
}

// The registers of thread 0 as a run begins.
#[tactic(auto, unfolding(x86_model::specs::Thread::start))]
fn entering(image: &Image, rsp: u64) -> Cpu
    ensures { result ≡ entering image.now rsp }
{
    let mut cpu = Cpu::make();
    cpu.regs[4] = rsp;
    cpu.rip = image.entry;
    cpu
}

impl PlainMachine {
    /// The machine before the first step. `Lay` comes where the image and the arguments can't be laid out.
    #[tactic(auto, unfolding(machine_model::specs::State::start))]
    pub fn start(alloc: Global, case: &Case) -> Result<PlainMachine, PlainFault>
        ensures machine { IfOk result (λ m. m ≡ start case.now) }
        ensures fault { IfErr result (FaultsAtStart case.now) }
    {
        let start = match lay_out(alloc, case.image(), &case.args) {
            Ok(start) => start,
            Err(LayFault::Memory(e)) => return Err(PlainFault::Memory(e)),
            Err(fault) => return Err(PlainFault::Lay(fault)),
        };
        let cores = first_cores(alloc, case.image(), start.rsp)?;
        let input = Vec::from_slice(alloc, &case.input)?;
        let library = Library::make(alloc, input)?;
        Ok(PlainMachine {
            cores,
            memory: start.memory,
            library,
            steps: 0,
            ending: None,
        })
    }

    /// The steps that were made.
    pub fn steps(&self) -> u64
        ensures { result ≡ self.now.steps }
    {
        self.steps
    }

    /// How the run ended, if it did.
    pub fn ending(&self) -> Option<RunEnd>
        ensures { result ≡ self.now.ending }
    {
        self.ending
    }

    /// The bytes that were written to output 1.
    pub fn out1(&self) -> &[u8]
        ensures { result.now ≡ self.now.library.out1 }
    {
        self.library.out1()
    }

    /// The bytes that were written to output 2.
    pub fn out2(&self) -> &[u8]
        ensures { result.now ≡ self.now.library.out2 }
    {
        self.library.out2()
    }

    /// Whether thread `t` lives.
    pub fn is_live(&self, t: u32) -> bool
        ensures { result ≡ is_live self.now t }
    {
        self.library.is_live(t)
    }

    // Whether the thread that an entry names lives, if it names one.
    pub(crate) fn names_live(&self, entry: Entry) -> bool
        ensures { result ≡ lives self.now (thread_of entry) }
    {
        match entry.thread() {
            Some(t) => self.is_live(t),
            None => true,
        }
    }

    /// The registers of the thread in slot `t`.
    pub fn cpu(&self, t: u32) -> Cpu
        ensures { result ≡ cpu_at self.now t }
    {
        if t < 64 {
            self.cores[t as usize].cpu()
        } else {
            Cpu::make()
        }
    }

    /// Whether no write waits in slot `t`.
    pub(crate) fn has_no_writes(&self, t: u32) -> bool
        requires { t < 64 }
        ensures { result ≡ is_none_waiting (list_at self.now t) }
    {
        self.memory.is_empty(t)
    }

    /// Whether fewer steps were made than the limit is, with `k` more.
    pub fn is_below(&self, limit: u64, k: u32) -> bool
        ensures { result ≡ nat_lt (self.now.steps + k) limit }
    {
        u64::from(k) < limit.saturating_sub(self.steps)
    }

    pub(crate) fn set_cpu(&mut self, t: u32, cpu: Cpu)
        requires { t < 64 }
        ensures { self.new ≡ with_cpu self.old t cpu }
    {
        self.cores[t as usize].set_cpu(cpu);
    }

    // What every machine keeps. They do nothing at run time.
    pub(crate) fn steps_fit(&self)
        ensures { IfNone self.now.ending (self.now.steps < 2 ^ 63) }
    {
        let _ = &self.steps;
    }

    pub(crate) fn lists(&self)
        ensures { length self.now.tso.buffers ≡ 64 }
    {
        let _none = self.memory.is_empty(0);
    }

    pub(crate) fn add_steps(&mut self, n: u64)
        requires steps { self.old.steps + n < 2 ^ 64 }
        requires going { IfNone self.old.ending (self.old.steps + n < 2 ^ 63) }
        ensures { self.new ≡ later self.old n }
    {
        self.steps += n;
    }

    pub(crate) fn end(&mut self, ending: RunEnd)
        ensures { self.new ≡ ended self.old ending }
    {
        self.ending = Some(ending);
    }

    pub(crate) fn fault(&mut self, t: u32, cpu: Cpu, kind: BadKind)
        ensures { self.new ≡ faulted self.old t cpu kind }
    {
        self.set_cpu(slot_of(t), cpu);
        self.end(RunEnd::Fault {
            thread: t,
            rip: cpu.rip,
            kind,
        });
    }

    pub(crate) fn load(&mut self, t: u32, cpu: Cpu, a: u64, width: Width)
        ensures { self.new ≡ loaded self.old t cpu a (size_of width) (refused self.old access.Load a (size_of width)) }
    {
        match self.memory.load(slot_of(t), a, width) {
            Ok(v) => self.set_cpu(
                slot_of(t),
                Cpu {
                    mid: Some(v),
                    ..cpu
                },
            ),
            Err(Denied(x)) => self.fault(t, cpu, BadKind::Access(x)),
        }
    }

    /// Answers whether there was room: fewer than 64 writes of the thread waited.
    pub(crate) fn store(
        &mut self,
        t: u32,
        cpu: Cpu,
        a: u64,
        width: Width,
        value: u64,
        next: Cpu,
    ) -> bool
        ensures stored { IsTrue result → self.new ≡ stored self.old t cpu (pending a width value) next (refused self.old access.Store a (size_of width)) }
        ensures crowded { IsFalse result → 64 ≤ length (list_at self.old (slot_of t)) }
    {
        if self.memory.waiting(slot_of(t)) >= 64 {
            return false;
        }
        match self.memory.store(slot_of(t), a, width, value) {
            Ok(()) => self.set_cpu(slot_of(t), next),
            Err(Denied(x)) => self.fault(t, cpu, BadKind::Access(x)),
        }
        true
    }

    pub(crate) fn exchange(&mut self, t: u32, cpu: Cpu, a: u64, width: Width, change: Change)
        ensures { self.new ≡ exchanged self.old t cpu a (size_of width) change (refused self.old access.Locked a (size_of width)) }
    {
        match self.memory.exchange_locked(slot_of(t), a, width, change) {
            Ok(v) => self.set_cpu(
                slot_of(t),
                Cpu {
                    mid: Some(v),
                    ..cpu
                },
            ),
            Err(Denied(x)) => self.fault(t, cpu, BadKind::Access(x)),
        }
    }

    /// Answers whether a write waited.
    pub(crate) fn flush(&mut self, t: u32) -> bool
        requires { t < 64 }
        ensures { stepped_to result self.new ≡ flushed self.old t (list_at self.old t) }
    {
        self.memory.flush(t)
    }
}

// The slot of the thread that an entry names; 64 where it names none.
pub(crate) fn slot_in(entry: Entry) -> u32
    ensures { result ≡ slot_in entry }
{
    match entry.thread() {
        Some(t) => slot_of(t),
        None => 64,
    }
}
