//! Rounds of workers, up to the end of a run.

ghost use Rattle.std.specs.Prelude.{◌≡◌, ◌≢◌, ◌<◌, ℕ, false, true, length, slice_index_or};
ghost use Rattle.turn_lock.specs.Lock.{lock_id};
ghost use Rattle.turn_lock.specs.Words.{lock_of, pass_number};
ghost use Rattle.machine_model.specs.CaseData.{CaseData};
ghost use Rattle.ir_runner.specs.Outputs.{written};
ghost use Rattle.worker_runner.specs.Counts.{AreCounted};
ghost use Rattle.worker_runner.specs.declared.watch.Over.TheVariants as over;
ghost use Rattle.worker_runner.specs.Rounds.{AreHeld, CameTo, HadMemory, Starts};

use crate::round::{Worker, round};
use crate::watch::{Over, Place, watch};
use mx_outside::Sink;
use std::alloc::AllocError;
use std::sync::Wait;
use std::thread::Threads;
use thread_step::{Engine, Gate, Lifter, Rules, SharedHall, Turned};
use turn_lock::{Pass, Turn};

// Whether memory was there in a turn.
fn had_memory(turned: &Turned) -> bool
    ensures { result ≡ true → HadMemory turned.now }
{
    match turned {
        Turned::Ran | Turned::Waiting | Turned::Ended | Turned::Idle => true,
        Turned::Memory(_) => false,
    }
}

// Whether memory was wanting in the last turn of one of the workers.
fn lacks_memory<N: Engine + Drop>(workers: &[Worker<N>]) -> bool
    ensures { result ≡ false → (k : ℕ) (d : _) → k < length workers.now → HadMemory (slice_index_or workers.now k d).turned }
{
    for w in workers {
        if !had_memory(&w.turned) {
            return true;
        }
    }
    false
}

/// Rounds of turns of all workers, with the driver's look between them, up to the end of the run.
pub(crate) fn rounds<
    R: Threads + Wait + Sync,
    L: Lifter + Sync,
    N: Engine + Drop,
    G: Gate + Sync,
    O: Sink,
    E: Sink,
>(
    rt: &R,
    workers: &mut Vec<Worker<N>>,
    lock: &Turn<SharedHall>,
    pass: Pass<SharedHall>,
    place: &mut Place,
    lifter: &L,
    gate: &G,
    rules: Rules,
    out: &mut O,
    err: &mut E,
) -> (Pass<SharedHall>, Over)
    requires lock { lock_of pass ≡ lock_id lock.now }
    requires number { pass_number pass ≡ 64 }
    requires counted { AreCounted N.count workers.old.items }
    requires start { (c : CaseData) × Starts (lock_id lock.now) c rules pass place.old workers.old.items }
    ensures lock { lock_of result.0 ≡ lock_id lock.now }
    ensures number { pass_number result.0 ≡ 64 }
    ensures over { result.1 ≢ over.On }
    ensures counted { AreCounted N.count workers.new.items }
    ensures held { (c : CaseData) → Starts (lock_id lock.now) c rules pass place.old workers.old.items → AreHeld (lock_id lock.now) c workers.new.items }
    ensures came { (c : CaseData) → Starts (lock_id lock.now) c rules pass place.old workers.old.items → CameTo result.1 result.0 c place.new (written O.faults O.held out.old out.new) (written E.faults E.held err.old err.new) }
{
    let mut pass = pass;
    for _ in rt.forever() {
        let (back, over) = watch(rt, lock, pass, place, out, err);
        pass = back;
        match over {
            Over::On => {}
            other => return (pass, other),
        }
        round(
            rt,
            workers.as_mut_slice(),
            place.used,
            lock,
            lifter,
            gate,
            rules,
        );
        if lacks_memory(workers.as_slice()) {
            return (pass, Over::Memory(AllocError));
        }
    }
    unreachable!()
}
