//! A round of workers.

ghost use Rattle.std.specs.Prelude.{◌≡◌, All, ◌<◌, ◌⊎◌, ℕ, length, slice_index_or, true};
ghost use Rattle.turn_lock.specs.Lock.{lock_id};
ghost use Rattle.thread_step.specs.declared.rules.Turned.TheVariants as turned;
ghost use Rattle.worker_runner.specs.Counts.{CountsIts};
ghost use Rattle.worker_runner.specs.Workers.{MayGo, TookIts};

use std::sync::Wait;
use std::thread::{Threads, for_each_mut};
use thread_step::{Context, Engine, Gate, Lifter, Rules, SharedHall, Turned, turn};
use turn_lock::Turn;

/// Bytes that keep what two processors write at each step out of one line of their caches.
pub(crate) const APART: [u64; 16] = [0; 16];

/// A slot's context, an engine of its own, and how its last turn ended.
#[derive(Drop)]
pub(crate) struct Worker<N: Engine + Drop> {
    pub(crate) before: [u64; 16],
    pub(crate) ctx: Context,
    pub(crate) engine: N,
    pub(crate) turned: Turned,
    pub(crate) after: [u64; 16],
}

// How many turns a worker has in a round at most, so that starting a thread of the operating system costs little beside them.
const TURNS: u32 = 16;

// Whether a turn ended by its budget, or by the end of the thread's life.
fn has_run(last: &Turned) -> bool
    ensures { result ≡ true → last.now ≡ turned.Ran }
{
    matches!(last, Turned::Ran)
}

// Turns of a worker, one after another, until one of them ends otherwise than by its budget.
fn turns<R: Wait, L: Lifter, N: Engine + Drop, G: Gate>(
    rt: &R,
    w: &mut Worker<N>,
    lock: &Turn<SharedHall>,
    lifter: &L,
    gate: &G,
    rules: Rules,
)
    requires go { MayGo (lock_id lock.now) rules w.old.ctx }
    ensures took { TookIts (lock_id lock.now) w.old.ctx w.new.ctx w.new.turned }
    ensures counts { CountsIts (lock_id lock.now) (N.count w.old.engine) (N.count w.new.engine) w.old.ctx w.new.ctx }
{
    w.turned = turn(rt, &mut w.ctx, lock, lifter, &mut w.engine, gate, rules);
    for _i in 1..TURNS {
        if !has_run(&w.turned) {
            return;
        }
        w.turned = turn(rt, &mut w.ctx, lock, lifter, &mut w.engine, gate, rules);
    }
}

// Turns of each of these workers, beside each other.
fn turns_of_each<R: Threads + Wait + Sync, L: Lifter + Sync, N: Engine + Drop, G: Gate + Sync>(
    rt: &R,
    workers: &mut [Worker<N>],
    lock: &Turn<SharedHall>,
    lifter: &L,
    gate: &G,
    rules: Rules,
)
    requires go { All (λ w. MayGo (lock_id lock.now) rules w.ctx) workers.old }
    ensures count { length workers.new ≡ length workers.old }
    ensures took { (k : ℕ) (d : _) → k < length workers.old → TookIts (lock_id lock.now) (slice_index_or workers.old k d).ctx (slice_index_or workers.new k d).ctx (slice_index_or workers.new k d).turned × CountsIts (lock_id lock.now) (N.count (slice_index_or workers.old k d).engine) (N.count (slice_index_or workers.new k d).engine) (slice_index_or workers.old k d).ctx (slice_index_or workers.new k d).ctx }
{
    for_each_mut(
        rt,
        workers,
        64,
        &|_: usize, w: &mut Worker<N>|
            requires { MayGo (lock_id lock.now) rules w.now.ctx }
            ensures { TookIts (lock_id lock.entry.now) w.entry.now.ctx w.exit.now.ctx w.exit.now.turned × CountsIts (lock_id lock.entry.now) (N.count w.entry.now.engine) (N.count w.exit.now.engine) w.entry.now.ctx w.exit.now.ctx }
        {
            turns(rt, w, lock, lifter, gate, rules);
        },
    );
}

/// Turns of each of the first workers, as many as are used, beside each other.
pub(crate) fn round<R: Threads + Wait + Sync, L: Lifter + Sync, N: Engine + Drop, G: Gate + Sync>(
    rt: &R,
    workers: &mut [Worker<N>],
    used: usize,
    lock: &Turn<SharedHall>,
    lifter: &L,
    gate: &G,
    rules: Rules,
)
    requires go { All (λ w. MayGo (lock_id lock.now) rules w.ctx) workers.old }
    ensures count { length workers.new ≡ length workers.old }
    ensures took { (k : ℕ) (d : _) → k < length workers.old → (TookIts (lock_id lock.now) (slice_index_or workers.old k d).ctx (slice_index_or workers.new k d).ctx (slice_index_or workers.new k d).turned × CountsIts (lock_id lock.now) (N.count (slice_index_or workers.old k d).engine) (N.count (slice_index_or workers.new k d).engine) (slice_index_or workers.old k d).ctx (slice_index_or workers.new k d).ctx) ⊎ (slice_index_or workers.new k d ≡ slice_index_or workers.old k d) }
{
    let few = used.min(workers.len());
    let (busy, _idle) = workers.split_at_mut(few);
    turns_of_each(rt, busy, lock, lifter, gate, rules);
}
