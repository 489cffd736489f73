//! Requests of the library.

ghost use Rattle.std.specs.Prelude.{◌≡◌, ◌<◌, true, false, List, length, map, None, IfOk, OnOk};
ghost use Rattle.callbacks.specs.declared.Frame.{Frame};
ghost use Rattle.lib_table.specs.declared.answer.Called.{Called as CalledData};
ghost use Rattle.lib_table.specs.declared.answer.Stepped.TheVariants as stepped;
ghost use Rattle.address_space.specs.Slots.{slot_of};
ghost use Rattle.lib_table.specs.Library.{LibraryData};
ghost use Rattle.lib_table.specs.Row.{is_waiting, row};
ghost use Rattle.lib_table.specs.Steps.{CanAsk, is_done, told};
ghost use Rattle.machine_model.specs.Frames.{IsAnswer};
ghost use Rattle.machine_plain.specs.Plain.{CanServe, stepped_to};
ghost use Rattle.machine_model.specs.State.{slots, with_core};
ghost use Rattle.machine_model.specs.Step.{ask_of, called, core_with, exit_by, is_in_use, newborn, row_at, serving, with_birth};

use crate::cores::PlainCore;
use crate::machine::{PlainMachine, newborn, uses};
use address_space::slot_of;
use elf_image::Function;
use lib_table::{Ask, Asked, Called, Library, Stepped, lib_step, waits};
use machine_model::ending::RunEnd;
use std::alloc::{AllocError, Global};
use tso_memory::Tso;
use x86_model::Cpu;

// The ending that a request makes: `exit` ends the run.
fn exit_by(cpu: Cpu, what: Asked) -> Option<RunEnd>
    ensures { (frames : List Frame) → result ≡ exit_by (record { cpu = cpu; frames = frames }) what }
{
    match what {
        Asked::Lib(Function::Exit) => Some(RunEnd::Exit((cpu.regs[7] % 0x1_0000_0000) as u32)),
        Asked::Lib(_) | Asked::EndDoor | Asked::CallDoor => None,
    }
}

// A request of thread `t`.
#[tactic(auto, using(machine_model::proofs::RowLives::row_answers, crate::proofs::PlainLemmas::as_many_slots))]
fn request(
    library: &mut Library,
    memory: &mut Tso,
    t: u32,
    ask: &Ask,
) -> Result<Stepped, AllocError>
    requires asks { CanAsk library.old t ask.now }
    requires slots { length library.old.slots ≡ 64 }
    ensures row { IfOk result (λ step. row library.old memory.old.memory t ask.now ≡ told step library.new memory.new.memory) }
    ensures buffers { memory.new.buffers ≡ memory.old.buffers }
    ensures slots { length library.new.slots ≡ 64 }
    ensures fits { IfOk result (λ step. (called : CalledData) → step ≡ stepped.Done called → IsAnswer ask.now.what ask.now called) }
    ensures library { IfOk result (λ step. is_done step ≡ false → library.new ≡ library.old) }
    ensures memory { IfOk result (λ step. is_done step ≡ false → memory.new ≡ memory.old) }
{
    lib_step(library, memory, t, ask)
}

impl PlainMachine {
    /// What thread `t` asks of the library with these registers.
    pub fn ask(&self, t: u32, cpu: Cpu, what: Asked) -> Ask
        ensures { result ≡ ask_of (core_with self.now t cpu) what }
    {
        self.cores[slot_of(t) as usize].ask(cpu, what)
    }

    /// Whether the request of thread `t` with these registers waits for another thread.
    pub(crate) fn waits_for(&self, t: u32, cpu: Cpu, what: Asked) -> bool
        ensures { result ≡ is_waiting (row_at self.now t (core_with self.now t cpu) what) }
    {
        let ask = self.ask(t, cpu, what);
        waits(&self.library, &self.memory, t, &ask)
    }

    // Thread `t` goes on after its request was carried out, and a thread is born that didn't live before.
    fn go_on(
        &mut self,
        alloc: Global,
        t: u32,
        cpu: Cpu,
        what: Asked,
        answer: Called,
        before: &[bool],
    ) -> Result<(), AllocError>
        requires going { self.old.ending ≡ None }
        requires fits { IsAnswer what (ask_of (core_with self.old t cpu) what) answer }
        requires before { length before.now ≡ 64 }
        ensures { OnOk result ((l : LibraryData) → before.now ≡ map (is_in_use l) slots → self.new ≡ with_birth (record (with_core self.old (slot_of t) (called (core_with self.old t cpu) what answer)) { ending = exit_by (core_with self.old t cpu) what }) (newborn l self.old.library)) }
    {
        self.cores[slot_of(t) as usize].go_on(cpu, what, answer)?;
        self.ending = exit_by(cpu, what);
        let Some(u) = newborn(before, &self.library) else {
            return Ok(());
        };
        let birth = self.library.birth(u);
        self.cores[u as usize] = PlainCore::born(alloc, u, birth);
        Ok(())
    }

    /// Carries out a request of thread `t` with these registers; answers whether that is a step.
    pub(crate) fn serve(
        &mut self,
        alloc: Global,
        t: u32,
        cpu: Cpu,
        what: Asked,
    ) -> Result<bool, AllocError>
        requires serves { CanServe self.old t }
        requires going { self.old.ending ≡ None }
        ensures { IfOk result (λ done. stepped_to done self.new ≡ serving self.old t (core_with self.old t cpu) what) }
    {
        if !self.has_no_writes(slot_of(t)) {
            return Ok(false);
        }
        let before = uses(alloc, &self.library)?;
        let ask = self.ask(t, cpu, what);
        match request(&mut self.library, &mut self.memory, t, &ask)? {
            Stepped::Done(answer) => {
                self.go_on(alloc, t, cpu, what, answer, &before)?;
                Ok(true)
            }
            Stepped::Waits => Ok(false),
            Stepped::Bad(kind) => {
                self.fault(t, cpu, kind);
                Ok(true)
            }
        }
    }
}
