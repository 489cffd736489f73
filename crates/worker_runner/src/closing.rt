//! The end of a run: the passes are gathered, and the shared state is taken out of its lock.

ghost use Rattle.std.specs.Prelude.{◌≡◌, ◌≤◌, List, [], length, slice_index_or, vec_capacity};
ghost use Rattle.atomic_table.specs.Seated.{TableId};
ghost use Rattle.turn_lock.specs.Lock.{lock_id, pass_count};
ghost use Rattle.turn_lock.specs.Words.{lock_of, pass_number};
ghost use Rattle.machine_model.specs.CaseData.{CaseData};
ghost use Rattle.thread_step.specs.Context.{HallOf, Saw};
ghost use Rattle.guest_parts.specs.Running.{Rises};
ghost use Rattle.guest_entries.specs.Steps.{instruction_steps};
ghost use Rattle.journal_pack.specs.declared.entry.Entry.{Entry};
ghost use Rattle.thread_step.specs.Counts.{slots_steps};
ghost use Rattle.worker_runner.specs.Counts.{AreCounted, AreKept};
ghost use Rattle.worker_runner.specs.Ending.{AreBack, Goes, IsBack};
ghost use Rattle.worker_runner.specs.Rounds.{AreHeld};

use crate::round::Worker;
use hall_core::Hall;
use ir_syntax::Block;
use thread_step::{Context, Engine, SharedHall};
use turn_lock::{Pass, Turn};

// The passes of all workers, and the driver's, in the order of their numbers; the engines' counts go to one engine.
fn gather<N: Engine + Drop>(
    workers: Vec<Worker<N>>,
    last: Pass<SharedHall>,
    room: Vec<Pass<SharedHall>>,
    engine: &mut N,
) -> Vec<Pass<SharedHall>>
    requires room { (room.items ≡ []) × (65 ≤ vec_capacity room) }
    requires held { (key : TableId) × (c : CaseData) × AreHeld key c workers.items }
    ensures merged { (key : TableId) (c : CaseData) (j : List Entry) → AreHeld key c workers.items → AreCounted N.count workers.items → AreKept c j result.items → Rises (N.count engine.old) (N.count engine.new) (slots_steps c 64 j) }
    ensures last { (d : _) → slice_index_or result.items 64 d ≡ last }
    ensures back { (key : TableId) (c : CaseData) → AreHeld key c workers.items → IsBack key c 64 last → AreBack key c result.items }
{
    let mut passes = room;
    for worker in workers {
        let Worker {
            ctx,
            engine: other,
            turned: _turned,
            before: _,
            after: _,
        } = worker;
        engine.merge(other);
        let pushed = passes.push(ctx.into_pass());
        let Ok(()) = pushed else { unreachable!() };
    }
    let pushed = passes.push(last);
    let Ok(()) = pushed else { unreachable!() };
    passes
}

/// Takes the shared state out of its lock, once all workers are back. Its journal begins with what the driver's pass saw.
pub(crate) fn take_back<N: Engine + Drop>(
    lock: Turn<SharedHall>,
    workers: Vec<Worker<N>>,
    last: Pass<SharedHall>,
    room: Vec<Pass<SharedHall>>,
    engine: &mut N,
) -> Hall<Block>
    requires count { pass_count lock ≡ 65 }
    requires room { (room.items ≡ []) × (65 ≤ vec_capacity room) }
    requires last { (lock_of last ≡ lock_id lock) × (pass_number last ≡ 64) }
    requires held { (h : HallOf) × Saw last h × AreHeld (lock_id lock) h.case workers.items }
    ensures goes { (h : HallOf) → Saw last h → AreHeld (lock_id lock) h.case workers.items → Goes h result }
    ensures count { AreCounted N.count workers.items → Rises (N.count engine.old) (N.count engine.new) (instruction_steps result.case result.journal) }
{
    let passes = gather(workers, last, room, engine);
    let shared = lock.close(passes);
    let hall = shared.into_hall();
    hall.facts();
    hall
}
