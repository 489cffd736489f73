//! The workers of a run before its first round.

ghost use Rattle.std.specs.Prelude.{◌≡◌, ◌≤◌, [], IfOk, length, vec_capacity};
ghost use Rattle.atomic_table.specs.Seated.{TableId};
ghost use Rattle.turn_lock.specs.Words.{pass_number};
ghost use Rattle.thread_step.specs.Context.{HallOf};
ghost use Rattle.thread_step.specs.Guest.{guest_slot};
ghost use Rattle.worker_runner.specs.Counts.{AreFresh};
ghost use Rattle.worker_runner.specs.Workers.{AreFirstGuests, AreFirstPasses, IsWorkerOf};
ghost use Rattle.worker_runner.specs.Rounds.{AreReady};

use crate::round::{APART, Worker};
use address_space::SLOTS;
use hall_core::Hall;
use ir_syntax::Block;
use std::alloc::{AllocError, Global};
use thread_step::{Context, Engine, Guest, SharedHall, Turned};
use turn_lock::Pass;

/// The guests of the slots before a run's first entry, that of slot 63 first.
pub(crate) fn make_guests(alloc: Global, hall: &Hall<Block>) -> Result<Vec<Guest>, AllocError>
    requires { hall.now.journal ≡ [] }
    ensures count { IfOk result (λ guests. length guests.items ≡ 64) }
    ensures guests { IfOk result (λ guests. AreFirstGuests hall.now guests.items) }
{
    let mut guests = Vec::new(alloc);
    for i in 0..SLOTS {
        guests.push(Guest::make(alloc, SLOTS - 1 - i, hall)?)?;
    }
    Ok(guests)
}

// The worker of a slot.
fn worker_of<N: Engine + Drop>(guest: Guest, pass: Pass<SharedHall>, engine: N) -> Worker<N>
    requires number { pass_number pass ≡ guest_slot guest }
    ensures { IsWorkerOf guest pass engine result }
{
    Worker {
        before: APART,
        ctx: Context::make(guest, pass),
        engine,
        turned: Turned::Idle,
        after: APART,
    }
}

/// A worker for each slot, of these guests and passes, each with an engine of its own.
pub(crate) fn make_workers<N: Engine + Drop>(
    guests: Vec<Guest>,
    passes: Vec<Pass<SharedHall>>,
    room: Vec<Worker<N>>,
    engine: &N,
) -> Vec<Worker<N>>
    requires room { (room.items ≡ []) × (64 ≤ vec_capacity room) }
    requires counts { (length guests.items ≡ 64) × (length passes.items ≡ 64) }
    requires first { (key : TableId) × (h : HallOf) × AreFirstGuests h guests.items × AreFirstPasses key h 0 passes.items }
    ensures fresh { (key : TableId) (h : HallOf) → AreFirstGuests h guests.items → AreFirstPasses key h 0 passes.items → AreFresh h result.items }
    ensures ready { (key : TableId) (h : HallOf) → AreFirstGuests h guests.items → AreFirstPasses key h 0 passes.items → AreReady key h.case result.items }
{
    let mut guests = guests;
    let mut workers = room;
    for pass in passes {
        let Some(guest) = guests.pop() else {
            unreachable!()
        };
        let pushed = workers.push(worker_of(guest, pass, engine.split()));
        let Ok(()) = pushed else { unreachable!() };
    }
    workers
}
