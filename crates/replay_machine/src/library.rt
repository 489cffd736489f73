//! Requests of the library.

ghost use Rattle.std.specs.Prelude.{◌≡◌, ◌<◌, ℕ, true, false, List, length, get_or, is_some, not, None, Some, IfOk, OnOk, OnErr};
ghost use Rattle.callbacks.specs.declared.Frame.{Frame};
ghost use Rattle.lib_table.specs.declared.answer.Called.{Called as CalledData};
ghost use Rattle.lib_table.specs.declared.answer.Stepped.TheVariants as stepped;
ghost use Rattle.address_space.specs.Slots.{slot_of};
ghost use Rattle.lib_table.specs.Library.{LibraryData};
ghost use Rattle.lib_table.specs.Row.{is_waiting, row};
ghost use Rattle.lib_table.specs.Steps.{CanAsk, is_done, told};
ghost use Rattle.machine_model.specs.Frames.{IsAnswer};
ghost use Rattle.replay_machine.specs.Machines.{CanServe};
ghost use Rattle.machine_model.specs.State.{with_core};
ghost use Rattle.machine_model.specs.Step.{ask_of, called, core_with, exit_by, is_in_use, later, newborn, row_at, serving, with_birth};

use crate::machine::{Machine, newborn, uses};
use address_space::slot_of;
use elf_image::Function;
use lib_table::{Ask, Asked, Called, Library, Stepped, lib_step, waits};
use machine_model::ending::RunEnd;
use std::alloc::AllocError;
use tso_memory::Tso;
use x86_model::Cpu;

// The ending that a request makes: `exit` ends the run.
fn exit_by(cpu: Cpu, what: Asked) -> Option<RunEnd>
    ensures { (frames : List Frame) → result ≡ exit_by (record { cpu = cpu; frames = frames }) what }
{
    match what {
        Asked::Lib(Function::Exit) => Some(RunEnd::Exit((cpu.regs[7] % 0x1_0000_0000) as u32)),
        Asked::Lib(_) | Asked::EndDoor | Asked::CallDoor => None,
    }
}

// A request of thread `t`.
#[tactic(auto, using(machine_model::proofs::RowLives::row_answers, crate::proofs::Births::as_many_slots))]
fn request(
    library: &mut Library,
    memory: &mut Tso,
    t: u32,
    ask: &Ask,
) -> Result<Stepped, AllocError>
    requires asks { CanAsk library.old t ask.now }
    requires slots { length library.old.slots ≡ 64 }
    ensures row { IfOk result (λ step. row library.old memory.old.memory t ask.now ≡ told step library.new memory.new.memory) }
    ensures buffers { memory.new.buffers ≡ memory.old.buffers }
    ensures slots { length library.new.slots ≡ 64 }
    ensures fits { IfOk result (λ step. (called : CalledData) → step ≡ stepped.Done called → IsAnswer ask.now.what ask.now called) }
    ensures library { IfOk result (λ step. is_done step ≡ false → library.new ≡ library.old) }
    ensures memory { IfOk result (λ step. is_done step ≡ false → memory.new ≡ memory.old) }
    ensures err { OnErr result (library.new ≡ library.old) }
    ensures err_memory { OnErr result (memory.new ≡ memory.old) }
{
    lib_step(library, memory, t, ask)
}

impl Machine {
    // What thread `t` with these registers asks.
    fn ask(&self, t: u32, cpu: Cpu, what: Asked) -> Ask
        ensures { result ≡ ask_of (core_with self.now t cpu) what }
    {
        self.cores[slot_of(t) as usize].ask(cpu, what)
    }

    /// Whether the request of thread `t` with these registers waits for another thread.
    pub(crate) fn waits_for(&self, t: u32, cpu: Cpu, what: Asked) -> bool
        ensures { result ≡ is_waiting (row_at self.now t (core_with self.now t cpu) what) }
    {
        let ask = self.ask(t, cpu, what);
        waits(&self.library, &self.memory, t, &ask)
    }

    /// Whether the request of thread `t` with these registers is a step: no own write waits, and it doesn't either.
    #[tactic(auto)]
    pub(crate) fn can_serve(&self, t: u32, cpu: Cpu, what: Asked) -> bool
        ensures { result ≡ is_some (serving self.now t (core_with self.now t cpu) what) }
    {
        self.has_no_writes(slot_of(t)) && !self.waits_for(t, cpu, what)
    }

    // Thread `t` goes on after its request was carried out, and a thread is born that didn't live before.
    fn go_on(&mut self, t: u32, cpu: Cpu, what: Asked, answer: Called, before: &[bool])
        requires going { self.old.ending ≡ None }
        requires fits { IsAnswer what (ask_of (core_with self.old t cpu) what) answer }
        requires before { length before.now ≡ 64 }
        ensures { (l : LibraryData) → ((u : ℕ) → u < 64 → get_or before.now u false ≡ is_in_use l u) → self.new ≡ with_birth (record (with_core self.old (slot_of t) (called (core_with self.old t cpu) what answer)) { ending = exit_by (core_with self.old t cpu) what }) (newborn l self.old.library) }
    {
        self.cores[slot_of(t) as usize].go_on(cpu, what, answer);
        self.ending = exit_by(cpu, what);
        if let Some(u) = newborn(before, &self.library) {
            let birth = self.library.birth(u);
            self.cores[u as usize].bear(u, birth);
        }
    }

    /// Carries out a request of thread `t` with these registers that is a step. Without memory nothing changes.
    pub(crate) fn serve(&mut self, t: u32, cpu: Cpu, what: Asked) -> Result<(), AllocError>
        requires serves { CanServe self.old t }
        requires going { self.old.ending ≡ None }
        requires ready { is_some (serving self.old t (core_with self.old t cpu) what) ≡ true }
        ensures step { OnOk result (Some self.new ≡ serving self.old t (core_with self.old t cpu) what) }
        ensures err { OnErr result (self.new ≡ self.old) }
    {
        let before = uses(&self.library);
        let ask = self.ask(t, cpu, what);
        match request(&mut self.library, &mut self.memory, t, &ask)? {
            Stepped::Done(answer) => self.go_on(t, cpu, what, answer, &before),
            // It is ready, so this doesn't come.
            Stepped::Waits => {}
            Stepped::Bad(kind) => self.fault(t, cpu, kind),
        }
        Ok(())
    }
}
