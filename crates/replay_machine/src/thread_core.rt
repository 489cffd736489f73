//! What the instructions of one thread work on.

ghost use Rattle.std.specs.Prelude.{◌≡◌, ◌<◌, ◌≤◌, [], ◌∷◌, ◌++◌, length, IfOk, Some, None};
ghost use Rattle.lib_table.specs.Steps.{HasLeft};
ghost use Rattle.machine_model.specs.Frames.{HasElements, IsAnswer};
ghost use Rattle.machine_model.specs.State.{Core};
ghost use Rattle.machine_model.specs.Step.{ask_of, born_core, called, called_with, probing, returned, frames_before, without_top};
ghost use Rattle.lib_table.specs.declared.slot.Birth.{Birth};

use address_space::stack_top;
use callbacks::Frame;
use lib_table::{Ask, Asked, Birth, Called};
use std::alloc::{AllocError, Global};
use std::marker::Model;
use x86_model::Cpu;

/// What the instructions of one thread work on, and the calls back that it has under way, searches of `bsearch` and
/// routines of `pthread_once`, the innermost last.
#[derive(Drop)]
pub(crate) struct ThreadCore {
    cpu: Cpu,
    frames: Vec<Frame>,
}

impl Model for ThreadCore {
    ghost use Rattle.std.specs.Prelude.{◌≤◌, vec_capacity};
    ghost use Rattle.machine_model.specs.Frames.{AreFrames};
    ghost use Rattle.machine_model.specs.State.{Core};

    ghost Value = { Core };

    ghost view = { λ c. record { cpu = c.cpu; frames = c.frames.items } };

    // There is room for as many calls back as there may be.
    ghost invariant = { λ c. AreFrames c.frames.items × (16 ≤ vec_capacity c.frames) };
}

// The registers at a birth in slot `s`: the thread calls its start function with its argument.
#[tactic(auto, unfolding(x86_model::specs::Thread::start))]
fn born_cpu(s: u32, birth: Birth) -> Cpu
    requires { s < 64 }
    ensures { result ≡ (born_core s (Some birth)).cpu }
{
    let mut cpu = Cpu::make();
    cpu.regs[7] = birth.argument;
    cpu.regs[4] = stack_top(s) - 8;
    cpu.rip = birth.start;
    cpu
}

// The registers as a call of the library returns.
fn returned_to(cpu: Cpu, rax: u64, rsp: u64, rip: u64) -> Cpu
    ensures { result ≡ returned cpu rax rsp rip }
{
    let mut next = cpu;
    next.regs[0] = rax;
    next.regs[4] = rsp;
    next.rip = rip;
    next
}

// The registers as the function of a frame is called: a comparator with the key and the element at `place`, a routine with
// nothing.
fn probing_at(cpu: Cpu, frame: Frame, place: u64) -> Cpu
    ensures { result ≡ probing cpu frame place }
{
    let mut next = cpu;
    if frame.control.is_none() {
        next.regs[7] = frame.key;
        next.regs[6] = place;
    }
    next.regs[4] = frame.rsp.wrapping_sub(16);
    next.rip = frame.compar;
    next
}

// How many calls back a thread has under way at most.
const MAX_CALLS: usize = 16;

impl ThreadCore {
    /// A thread with these registers and no call back.
    pub(crate) fn make(alloc: Global, cpu: Cpu) -> Result<ThreadCore, AllocError>
        ensures { IfOk result (λ core. core ≡ record { cpu = cpu; frames = [] }) }
    {
        let frames = Vec::with_capacity(alloc, MAX_CALLS)?;
        Ok(ThreadCore { cpu, frames })
    }

    /// The thread in slot `s` at its birth, if one is born, in place of the one before.
    pub(crate) fn bear(&mut self, s: u32, birth: Option<Birth>)
        requires { s < 64 }
        ensures { self.new ≡ born_core s birth }
    {
        self.cpu = match birth {
            Some(birth) => born_cpu(s, birth),
            None => Cpu::make(),
        };
        self.frames.clear();
    }

    /// The registers.
    pub(crate) fn cpu(&self) -> Cpu
        ensures { result ≡ self.now.cpu }
    {
        self.cpu
    }

    /// The registers become these.
    pub(crate) fn set_cpu(&mut self, cpu: Cpu)
        ensures { self.new ≡ record self.old { cpu = cpu } }
    {
        self.cpu = cpu;
    }

    /// What is asked of the library by a thread with these registers.
    pub(crate) fn ask(&self, cpu: Cpu, what: Asked) -> Ask
        ensures ask { result ≡ ask_of (record self.now { cpu = cpu }) what }
        ensures left { HasLeft result.top }
    {
        Ask {
            what,
            args: [
                cpu.regs[7],
                cpu.regs[6],
                cpu.regs[2],
                cpu.regs[1],
                cpu.regs[8],
            ],
            rsp: cpu.regs[4],
            rax: cpu.regs[0],
            depth: self.frames.len() as u32,
            top: self.frames.last().copied(),
        }
    }

    // How many calls back there are at most. It does nothing at run time.
    fn facts(&self)
        ensures { length self.now.frames ≤ 16 }
    {
        let _ = &self.frames;
    }

    // The innermost call back is over.
    fn drop_call(&mut self)
        ensures { self.new ≡ record self.old { frames = without_top self.old.frames } }
    {
        let _call = self.frames.pop();
    }

    // A call back begins inside those that are under way.
    fn push_call(&mut self, frame: Frame)
        requires left { HasElements frame }
        requires room { length self.old.frames < 16 }
        ensures { self.new ≡ record self.old { frames = self.old.frames ++ frame ∷ [] } }
    {
        let _pushed = self.frames.push(frame);
    }

    // The call of a probe: a return of the comparator goes on with the innermost search, a call begins one.
    fn probe(&mut self, what: Asked, frame: Frame)
        requires left { HasElements frame }
        requires room { length (frames_before what self.old.frames) < 16 }
        ensures { self.new ≡ record self.old { frames = frames_before what self.old.frames ++ frame ∷ [] } }
    {
        match what {
            Asked::CallDoor => {
                self.drop_call();
                self.push_call(frame);
            }
            Asked::EndDoor | Asked::Lib(_) => self.push_call(frame),
        }
    }

    /// The thread with these registers goes on after its request was carried out.
    pub(crate) fn go_on(&mut self, cpu: Cpu, what: Asked, answer: Called)
        requires { IsAnswer what (ask_of (record self.old { cpu = cpu }) what) answer }
        ensures { self.new ≡ called (record self.old { cpu = cpu }) what answer }
    {
        match answer {
            Called::Back {
                rax,
                rsp,
                rip,
                popped,
            } => {
                self.set_cpu(returned_to(cpu, rax, rsp, rip));
                if popped {
                    self.drop_call();
                }
            }
            Called::Probe { frame, place } => {
                self.facts();
                self.set_cpu(probing_at(cpu, frame, place));
                self.probe(what, frame);
            }
            Called::Stay | Called::Over => self.set_cpu(cpu),
        }
    }
}
