//! What all threads share but the blocks: memory, the library, the number of steps, the ending.

ghost use Rattle.std.specs.Prelude.{◌≡◌, ℕ, ◌<◌, ◌+◌, ◌^◌, ◌==◌, None, Some, List, if◌then◌else◌, false, true, is_none, length, slice_index_or, IfOk, IfSome, OnErr};
ghost use Rattle.std.specs.List.{list_all};
ghost use Rattle.std.specs.Option.{option_copied};
ghost use Rattle.lib_table.specs.Library as library;
ghost use Rattle.lib_table.specs.Row.{row};
ghost use Rattle.lib_table.specs.Steps.{CanAsk, told};
ghost use Rattle.lib_table.specs.declared.ask.Ask.{Ask as AskData};
ghost use Rattle.tso_memory.specs.declared.access.Access.TheVariants as access;
ghost use Rattle.tso_memory.specs.Buffer.{size_of};
ghost use Rattle.tso_memory.specs.Tso.{buffer_of, is_none_waiting};
ghost use Rattle.address_space.specs.Slots as slots;
ghost use Rattle.machine_model.specs.State as state;
ghost use Rattle.hall_core.specs.Shared.{Asks, Fails, Loads, Locks, Stores, after_need, are_stuck, ended_by, exit_in, failed, flushed_in, has_to_wait, is_stuck_in, loaded_value, locked_value, missed_in, passed, refused_in, settled_by, stuck_by};

use address_space::{SLOTS, slot_of};
use elf_image::Function;
use lib_table::{Ask, Asked, BadKind, Birth, Library, Stepped, lib_step, waits};
use machine_model::ending::RunEnd;
use miss_report::Miss;
use std::alloc::AllocError;
use std::marker::Model;
use tso_memory::{Change, Denied, Tso, Width};

/// Memory, library, steps and ending of a run. Contracts see `SharedState`.
#[derive(Drop)]
pub(crate) struct Shared {
    memory: Tso,
    library: Library,
    steps: u64,
    ending: Option<RunEnd>,
}

impl Model for Shared {
    ghost use Rattle.std.specs.Prelude.{ℕ, Option, refl};
    ghost use Rattle.std.specs.Coded.{code_by, coded×, coded_option, coded_ℕ};
    ghost use Rattle.lib_table.specs.Library.{LibraryData};
    ghost use Rattle.lib_table.specs.contracts.library.Library as library_row;
    ghost use Rattle.tso_memory.specs.Tso.{TsoState};
    ghost use Rattle.tso_memory.specs.contracts.tso.Tso as tso_row;
    ghost use Rattle.machine_model.specs.declared.ending.RunEnd.{RunEnd};
    ghost use Rattle.machine_model.specs.contracts.ending.RunEnd as ending_row;
    ghost use Rattle.hall_core.specs.Shared.{SharedState};

    ghost Value = { SharedState };

    ghost coded = { code_by (TsoState × (LibraryData × (ℕ × Option RunEnd)))
        (coded× tso_row.the_row.coded (coded× library_row.the_row.coded (coded× coded_ℕ (coded_option ending_row.the_row.coded))))
        (λ s. (s.tso, (s.library, (s.steps, s.ending))))
        (λ p. record { tso = p.0; library = p.1.0; steps = p.1.1.0; ending = p.1.1.1 }) (λ _. refl) };

    ghost view = { λ s. record { tso = s.memory; library = s.library; steps = s.steps; ending = s.ending } };
}

/// How `exit` ends a run: with the low 32 bits of its argument. No other request ends one.
fn exit_of(ask: &Ask) -> Option<RunEnd>
    ensures { result ≡ exit_in ask.now ask.now.what }
{
    match ask.what {
        Asked::Lib(Function::Exit) => Some(RunEnd::Exit((ask.args[0] % (1 << 32)) as u32)),
        _ => None,
    }
}

impl Shared {
    /// Before the first step: this memory and this library, no steps, no ending.
    pub(crate) fn new(memory: Tso, library: Library) -> Shared
        ensures { result ≡ record { tso = memory; library = library; steps = 0; ending = None } }
    {
        Shared {
            memory,
            library,
            steps: 0,
            ending: None,
        }
    }

    pub(crate) fn steps(&self) -> u64
        ensures { result ≡ self.now.steps }
    {
        self.steps
    }

    pub(crate) fn ending(&self) -> Option<&RunEnd>
        ensures { option_copied result ≡ self.now.ending }
    {
        self.ending.as_ref()
    }

    /// Whether thread `t` lives.
    pub(crate) fn is_live(&self, t: u32) -> bool
        ensures { result ≡ library.is_live self.now.library t }
    {
        self.library.is_live(t)
    }

    /// The thread that lives in a slot.
    pub(crate) fn thread_in(&self, slot: u32) -> Option<u32>
        ensures { result ≡ library.thread_in self.now.library slot }
    {
        self.library.thread_in(slot)
    }

    /// For which function the thread in a slot was born.
    pub(crate) fn birth(&self, slot: u32) -> Option<Birth>
        ensures { result ≡ library.birth self.now.library slot }
    {
        self.library.birth(slot)
    }

    pub(crate) fn out1(&self) -> &[u8]
        ensures { result.now ≡ self.now.library.out1 }
    {
        self.library.out1()
    }

    pub(crate) fn out2(&self) -> &[u8]
        ensures { result.now ≡ self.now.library.out2 }
    {
        self.library.out2()
    }

    /// How many writes of thread `t` wait.
    pub(crate) fn waiting_writes(&self, t: u32) -> u32
        ensures { result ≡ length (buffer_of self.now.tso (slots.slot_of t)) }
    {
        self.memory.waiting(slot_of(t))
    }

    /// So many steps more.
    pub(crate) fn pass(&mut self, n: u64)
        requires { self.old.steps + n < 2 ^ 64 }
        ensures { self.new ≡ passed self.old n }
    {
        self.steps += n;
    }

    /// The run ends.
    pub(crate) fn end(&mut self, ending: RunEnd)
        ensures { self.new ≡ ended_by self.old ending }
    {
        self.ending = Some(ending);
    }

    /// The run ends at a step of thread `t` that can't be made.
    pub(crate) fn fail(&mut self, t: u32, rip: u64, kind: BadKind)
        ensures { self.new ≡ failed self.old t rip kind }
    {
        self.end(RunEnd::Fault {
            thread: t,
            rip,
            kind,
        });
    }

    /// A load of thread `t` after `k` private steps; `None` where a byte lacks the right, which ends the run.
    pub(crate) fn load(&mut self, t: u32, k: u32, rip: u64, a: u64, w: Width) -> Option<u64>
        requires { self.old.steps + (k + 1) < 2 ^ 64 }
        ensures shared { self.new ≡ after_need (Loads a w) (passed self.old (k + 1)) t rip }
        ensures value { result ≡ loaded_value self.old t a (size_of w) }
        ensures fits { IfSome result (λ v. v < 256 ^ size_of w) }
    {
        self.pass(u64::from(k) + 1);
        match self.memory.load(slot_of(t), a, w) {
            Ok(value) => Some(value),
            Err(Denied(x)) => {
                self.fail(t, rip, BadKind::Access(x));
                None
            }
        }
    }

    /// A store of thread `t` after `k` private steps; false where a byte lacks the right, which ends the run.
    pub(crate) fn store(&mut self, t: u32, k: u32, rip: u64, a: u64, w: Width, value: u64) -> bool
        requires counted { self.old.steps + (k + 1) < 2 ^ 64 }
        requires few { length (buffer_of self.old.tso (slots.slot_of t)) < 64 }
        ensures shared { self.new ≡ after_need (Stores a w value) (passed self.old (k + 1)) t rip }
        ensures stored { result ≡ is_none (refused_in self.old access.Store a (size_of w)) }
    {
        self.pass(u64::from(k) + 1);
        match self.memory.store(slot_of(t), a, w, value) {
            Ok(()) => true,
            Err(Denied(x)) => {
                self.fail(t, rip, BadKind::Access(x));
                false
            }
        }
    }

    /// A locked access of thread `t` after `k` private steps; `None` where a byte lacks a right, which ends the run.
    pub(crate) fn exchange(
        &mut self,
        t: u32,
        k: u32,
        rip: u64,
        a: u64,
        w: Width,
        change: Change,
    ) -> Option<u64>
        requires { self.old.steps + (k + 1) < 2 ^ 64 }
        ensures shared { self.new ≡ after_need (Locks a w change) (passed self.old (k + 1)) t rip }
        ensures value { result ≡ locked_value self.old a (size_of w) }
        ensures fits { IfSome result (λ v. v < 256 ^ size_of w) }
    {
        self.pass(u64::from(k) + 1);
        match self.memory.exchange_locked(slot_of(t), a, w, change) {
            Ok(value) => Some(value),
            Err(Denied(x)) => {
                self.fail(t, rip, BadKind::Access(x));
                None
            }
        }
    }

    /// A step of thread `t` after `k` private steps that can't be made: the run ends.
    pub(crate) fn bad(&mut self, t: u32, k: u32, rip: u64, kind: BadKind)
        requires { self.old.steps + (k + 1) < 2 ^ 64 }
        ensures { self.new ≡ after_need (Fails kind) (passed self.old (k + 1)) t rip }
    {
        self.pass(u64::from(k) + 1);
        self.fail(t, rip, kind);
    }

    /// A miss of thread `t` after `k` private steps, which ends a strict run.
    pub(crate) fn miss(&mut self, strict: bool, k: u32, miss: Miss)
        requires { self.old.steps + (k + 1) < 2 ^ 64 }
        ensures { self.new ≡ missed_in strict (passed self.old (k + 1)) miss }
    {
        self.pass(u64::from(k) + 1);
        if strict {
            self.end(RunEnd::Miss(miss));
        }
    }

    /// The oldest waiting write of thread `t`, if there is one, goes to memory.
    pub(crate) fn flush(&mut self, t: u32)
        ensures { self.new ≡ flushed_in self.old (slots.slot_of t) }
    {
        let _ = self.memory.flush(slot_of(t));
    }

    // The steps and the ending after an answer of a request with n steps.
    fn settle(&mut self, step: Stepped, n: u64, t: u32, rip: u64, ask: &Ask)
        requires { self.old.steps + n < 2 ^ 64 }
        ensures { self.new ≡ settled_by step self.old n t rip ask.now }
    {
        match step {
            Stepped::Done(_) => {
                self.pass(n);
                self.ending = exit_of(ask);
            }
            Stepped::Waits => {}
            Stepped::Bad(kind) => {
                self.pass(n);
                self.fail(t, rip, kind);
            }
        }
    }

    /// A request of thread `t` after k private steps; where it has to wait nothing changes, and where memory is wanting.
    pub(crate) fn ask(&mut self, t: u32, k: u32, rip: u64, ask: &Ask) -> Result<Stepped, AllocError>
        requires can { CanAsk self.old.library t ask.now }
        requires counted { self.old.steps + (k + 1) < 2 ^ 64 }
        ensures row { IfOk result (λ step. row self.old.library self.old.tso.memory t ask.now ≡ told step self.new.library self.new.tso.memory) }
        ensures shared { IfOk result (λ step. self.new ≡ (if has_to_wait step then self.old else after_need (Asks ask.now) (passed self.old (k + 1)) t rip)) }
        ensures err { OnErr result (self.new ≡ self.old) }
    {
        let step = lib_step(&mut self.library, &mut self.memory, t, ask)?;
        self.settle(step, u64::from(k) + 1, t, rip, ask);
        Ok(step)
    }

    // Whether the thread in a slot, if one lives there, waits at the request of its mark.
    fn is_stuck(&self, slot: u32, mark: &Option<Ask>) -> bool
        ensures { result ≡ stuck_by self.now (library.thread_in self.now.library slot) mark.now }
    {
        let Some(t) = self.library.thread_in(slot) else {
            return true;
        };
        match mark {
            Some(ask) => waits(&self.library, &self.memory, t, ask),
            None => false,
        }
    }

    // Whether each live thread waits at the request of its mark.
    fn all_wait(&self, marks: &[Option<Ask>]) -> bool
        requires { length marks.now ≡ 64 }
        ensures { result ≡ list_all (is_stuck_in self.now marks.now) state.slots }
    {
        for s in 0..SLOTS {
            if !self.is_stuck(s, &marks[s as usize]) {
                return false;
            }
        }
        true
    }

    // Whether no write waits.
    fn all_empty(&self) -> bool
        ensures { result ≡ list_all is_none_waiting self.now.tso.buffers }
    {
        self.has_lists();
        for s in 0..SLOTS {
            if !self.memory.is_empty(s) {
                return false;
            }
        }
        true
    }

    // There are 64 lists of waiting writes.
    fn has_lists(&self)
        ensures { length self.now.tso.buffers ≡ 64 }
    {
        let _none = self.memory.is_empty(0);
    }

    /// Whether each live thread waits at the request of its mark, and no write waits.
    pub(crate) fn are_stuck(&self, marks: &[Option<Ask>]) -> bool
        requires { length marks.now ≡ 64 }
        ensures { result ≡ are_stuck self.now marks.now }
    {
        self.all_wait(marks) && self.all_empty()
    }
}
