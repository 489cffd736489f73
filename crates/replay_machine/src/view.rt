//! What the machine shows of its threads.

ghost use Rattle.std.specs.Prelude.{◌≡◌, ◌<◌, ◌++◌, ◌^◌, IfOk, IfSome, OnOk};
ghost use Rattle.machine_model.specs.State.{list_at};
ghost use Rattle.replay_machine.specs.Views.{IsNext, lesser, numbered, thread_view, threads_of};

use crate::machine::Machine;
use address_space::slot_of;
use lib_table::Life;
use std::alloc::{AllocError, Global};
use std::marker::Model;
use tso_memory::PendingWrite;
use x86_flags::Flags;

/// Writes that wait, the oldest first. Contracts see their list.
#[derive(Drop, Debug)]
pub struct Writes {
    writes: Vec<PendingWrite>,
}

impl Model for Writes {
    ghost use Rattle.std.specs.Prelude.{List};
    ghost use Rattle.tso_memory.specs.declared.write.PendingWrite.{PendingWrite};

    ghost Value = { List PendingWrite };

    ghost view = { λ w. w.writes.items };
}

impl Writes {
    /// The writes, the oldest first.
    pub fn as_slice(&self) -> &[PendingWrite]
        ensures { result.now ≡ self.now }
    {
        self.writes.as_slice()
    }
}

/// What a thread shows between two entries.
#[derive(Drop, Debug)]
pub enum ThreadView {
    /// It lives.
    Live {
        /// The address of the instruction that is under way or comes next.
        rip: u64,
        /// The address of the instruction that was finished last, 0 at birth.
        last: u64,
        /// What the instruction under way has loaded, or none where it has not loaded yet.
        mid: Option<u64>,
        /// The sixteen general registers, in the order of their numbers.
        regs: [u64; 16],
        /// The status flags.
        flags: Flags,
        /// The thread's writes that aren't in memory yet, the oldest first: at most 64.
        writes: Writes,
    },
    /// Its start function returned this value, which no other thread has taken yet.
    Ended(u64),
}

/// The live and ended threads with their numbers, by rising number. Contracts see their list.
#[derive(Drop, Debug)]
pub struct Threads {
    threads: Vec<(u32, ThreadView)>,
}

impl Model for Threads {
    ghost use Rattle.std.specs.Prelude.{ℕ, List};
    ghost use Rattle.replay_machine.specs.declared.view.ThreadView.{ThreadView};

    ghost Value = { List (ℕ × ThreadView) };

    ghost view = { λ t. t.threads.items };
}

impl Threads {
    /// The threads with their numbers, by rising number.
    pub fn as_slice(&self) -> &[(u32, ThreadView)]
        ensures { result.now ≡ self.now }
    {
        self.threads.as_slice()
    }
}

// The lesser of two numbers, where the first may be missing.
fn lesser(least: Option<u32>, t: u32) -> u32
    ensures { result ≡ lesser least t }
{
    match least {
        Some(u) if u < t => u,
        _ => t,
    }
}

// One thread more, with its number, where it shows something.
#[tactic(auto, using(crate::proofs::Shown::nil_right))]
fn add(
    threads: &mut Vec<(u32, ThreadView)>,
    t: u32,
    view: Option<ThreadView>,
) -> Result<(), AllocError>
    ensures { OnOk result (threads.new.items ≡ threads.old.items ++ numbered t view) }
{
    if let Some(view) = view {
        threads.push((t, view))?;
    }
    Ok(())
}

impl Machine {
    // The least number, from one on, of a thread that lives or has ended.
    #[tactic(auto, using(crate::proofs::Shown::none_kept, crate::proofs::Shown::kept_lower, crate::proofs::Shown::kept_here, crate::proofs::Shown::all_slots))]
    fn next_thread(&self, from: u64) -> Option<u32>
        ensures next { IsNext self.now from result }
        ensures number { IfSome result (λ t. t < 2 ^ 32) }
    {
        let mut least = None;
        for s in 0..64 {
            if let Some(t) = self.library.kept_in(s) {
                if u64::from(t) >= from {
                    least = Some(lesser(least, t));
                }
            }
        }
        least
    }

    // The writes of slot `s` that wait.
    #[tactic(auto, using(crate::proofs::Shown::no_write_yet, crate::proofs::Shown::write_more, crate::proofs::Shown::all_writes, crate::proofs::Shown::is_there))]
    fn writes(&self, alloc: Global, s: u32) -> Result<Writes, AllocError>
        requires { s < 64 }
        ensures { IfOk result (λ w. w ≡ list_at self.now s) }
    {
        let mut writes = Vec::new(alloc);
        for i in 0..self.memory.waiting(s) {
            if let Some(write) = self.memory.waiting_write(s, i) {
                writes.push(write)?;
            }
        }
        Ok(Writes { writes })
    }

    // What the thread with this number shows.
    fn thread_view(&self, alloc: Global, t: u32) -> Result<Option<ThreadView>, AllocError>
        ensures { IfOk result (λ view. view ≡ thread_view self.now t) }
    {
        match self.library.life(t) {
            Life::Live { .. } => {
                let cpu = self.cpu(slot_of(t));
                let regs = cpu.regs;
                let writes = self.writes(alloc, slot_of(t))?;
                Ok(Some(ThreadView::Live {
                    rip: cpu.rip,
                    last: cpu.last,
                    mid: cpu.mid,
                    regs,
                    flags: cpu.flags,
                    writes,
                }))
            }
            Life::Ended(value) => Ok(Some(ThreadView::Ended(value))),
            Life::Unborn | Life::Joined => Ok(None),
        }
    }

    /// What each thread shows that lives or has ended, and that no other has joined.
    ///
    /// # Errors
    ///
    /// Memory is wanted for the threads and their writes.
    #[tactic(auto, using(crate::proofs::Shown::none_below, crate::proofs::Shown::one_more, crate::proofs::Shown::no_others))]
    pub fn threads(&self, alloc: Global) -> Result<Threads, AllocError>
        ensures { IfOk result (λ threads. threads ≡ threads_of self.now) }
    {
        let mut threads = Vec::new(alloc);
        let mut from = 0;
        while let Some(t) = self.next_thread(from) {
            let view = self.thread_view(alloc, t)?;
            add(&mut threads, t, view)?;
            from = u64::from(t) + 1;
        }
        Ok(Threads { threads })
    }
}
