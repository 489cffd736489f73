//! Whole runs by workers.

ghost use Rattle.std.specs.Prelude.{◌≡◌, ◌≢◌, ◌≤◌, ◌++◌, ℕ, IfErr, IfOk, List, [], Some, true, is_some, length, vec_capacity};
ghost use Rattle.std.specs.FinMap as finite;
ghost use Rattle.ir_syntax.specs.declared.block.Block.{Block as BlockData};
ghost use Rattle.basic_blocks.specs.Reach.{is_among};
ghost use Rattle.lift_table.specs.Block.{lifted_block};
ghost use Rattle.turn_lock.specs.Lock.{lock_id, pass_count};
ghost use Rattle.hall_core.specs.Hall.{grown};
ghost use Rattle.guest_parts.specs.Running.{Rises};
ghost use Rattle.guest_entries.specs.Steps.{instruction_steps};
ghost use Rattle.ir_runner.specs.Outputs.{GainsBy, written};
ghost use Rattle.thread_step.specs.Context.{HallOf};
ghost use Rattle.thread_step.specs.Turned.{AreRules};
ghost use Rattle.worker_runner.specs.declared.watch.Over.TheVariants as ends;
ghost use Rattle.worker_runner.specs.Ending.{Goes, WroteAll};
ghost use Rattle.worker_runner.specs.Rounds.{EndIs};
ghost use Rattle.worker_runner.specs.Watched.{IsPlace};
ghost use Rattle.worker_runner.specs.Workers.{AreFirstGuests, AreFirstPasses, Begins};

use crate::closing::take_back;
use crate::making::{make_guests, make_workers};
use crate::round::Worker;
use crate::rounds::rounds;
use crate::watch::{Over, Place, write_rest};
use hall_core::Hall;
use ir_runner::Ran;
use ir_syntax::Block;
use mx_outside::Sink;
use std::alloc::{AllocError, Global};
use std::sync::Wait;
use std::thread::Threads;
use thread_step::{Engine, Gate, Guest, Lifter, Rules, SharedHall};
use turn_lock::{Pass, Turn, make};

// Writes what follows the first `done` bytes of an output, unless its sink failed before, and says whether it failed.
fn write_tail<K: Sink>(sink: &mut K, failed: bool, bytes: &[u8], done: usize) -> bool
    requires { done ≤ length bytes.now }
    ensures wrote { (x : K) (old : List ℕ) (more : List ℕ) → done ≡ length old → bytes.now ≡ old ++ more → GainsBy failed (written K.faults K.held x sink.old) old → GainsBy result (written K.faults K.held x sink.new) bytes.now }
    ensures failed { failed ≡ true → result ≡ true }
{
    if failed {
        return true;
    }
    write_rest(sink, bytes, done)
}

// What a run comes to that the driver saw to end so: what isn't written yet is written.
fn end<O: Sink, E: Sink>(
    hall: &Hall<Block>,
    came: Over,
    place: Place,
    out: &mut O,
    err: &mut E,
) -> Ran
    requires came { came ≢ ends.On }
    requires goes { (h : HallOf) × Goes h hall.now × IsPlace place h }
    ensures { (h : HallOf) (x : O) (y : E) → Goes h hall.now → IsPlace place h → EndIs came h (written O.faults O.held x out.old) (written E.faults E.held y err.old) → WroteAll result hall.now (written O.faults O.held x out.new) (written E.faults E.held y err.new) }
{
    match came {
        Over::On => unreachable!(),
        Over::Ended => Ran::Ended,
        Over::Stopped {
            out: first,
            err: second,
        } => {
            let out_failed = write_tail(out, first, hall.out1(), place.first);
            let err_failed = write_tail(err, second, hall.out2(), place.second);
            Ran::Stopped {
                out: out_failed,
                err: err_failed,
            }
        }
        Over::Memory(e) => Ran::Memory(e),
    }
}

// Rounds of workers round a lock, up to the end of the run.
fn run_locked<
    R: Threads + Wait + Sync,
    L: Lifter + Sync,
    N: Engine + Drop,
    G: Gate + Sync,
    O: Sink,
    E: Sink,
>(
    rt: &R,
    lock: Turn<SharedHall>,
    dealt: Vec<Pass<SharedHall>>,
    guests: Vec<Guest>,
    workers_room: Vec<Worker<N>>,
    passes_room: Vec<Pass<SharedHall>>,
    lifter: &L,
    engine: &mut N,
    gate: &G,
    rules: Rules,
    out: &mut O,
    err: &mut E,
) -> (Hall<Block>, Ran)
    requires count { pass_count lock ≡ 65 }
    requires workers { (workers_room.items ≡ []) × (64 ≤ vec_capacity workers_room) }
    requires passes { (passes_room.items ≡ []) × (65 ≤ vec_capacity passes_room) }
    requires begins { (h : HallOf) × Begins (lock_id lock) h rules guests.items dealt.items }
    ensures case { (h : HallOf) → Begins (lock_id lock) h rules guests.items dealt.items → result.0.case ≡ h.case }
    ensures outputs { WroteAll result.1 result.0 (written O.faults O.held out.old out.new) (written E.faults E.held err.old err.new) }
    ensures count { Rises (N.count engine.old) (N.count engine.new) (instruction_steps result.0.case result.0.journal) }
{
    let mut dealt = dealt;
    let Some(driver) = dealt.pop() else {
        unreachable!()
    };
    let mut workers = make_workers(guests, dealt, workers_room, engine);
    let mut place = Place {
        first: 0,
        second: 0,
        length: 0,
        used: 0,
    };
    let (driver, came) = rounds(
        rt,
        &mut workers,
        &lock,
        driver,
        &mut place,
        lifter,
        gate,
        rules,
        out,
        err,
    );
    let hall = take_back(lock, workers, driver, passes_room, engine);
    let ran = end(&hall, came, place, out, err);
    (hall, ran)
}

// A lock round a hall, with a pass for each slot and one for the driver.
fn lock_up<R: Wait>(
    rt: &R,
    alloc: Global,
    hall: Hall<Block>,
) -> Result<(Turn<SharedHall>, Vec<Pass<SharedHall>>), (Hall<Block>, AllocError)>
    ensures count { IfOk result (λ r. (pass_count r.0 ≡ 65) × (length r.1.items ≡ 65)) }
    ensures passes { IfOk result (λ r. AreFirstPasses (lock_id r.0) hall 0 r.1.items) }
    ensures refused { IfErr result (λ e. e.0 ≡ hall) }
{
    hall.facts();
    let shared = SharedHall::make(alloc, hall)?;
    match make(rt, alloc, shared, 65) {
        Ok(made) => Ok(made),
        Err((shared, e)) => Err((shared.into_hall(), e)),
    }
}

// The run of a hall with these guests.
fn run_with<
    R: Threads + Wait + Sync,
    L: Lifter + Sync,
    N: Engine + Drop,
    G: Gate + Sync,
    O: Sink,
    E: Sink,
>(
    rt: &R,
    alloc: Global,
    hall: Hall<Block>,
    guests: Vec<Guest>,
    lifter: &L,
    engine: &mut N,
    gate: &G,
    rules: Rules,
    out: &mut O,
    err: &mut E,
) -> (Hall<Block>, Ran)
    requires first { hall.journal ≡ [] }
    requires rules { AreRules hall.case rules }
    requires guests { (length guests.items ≡ 64) × AreFirstGuests hall guests.items }
    ensures case { result.0.case ≡ hall.case }
    ensures outputs { WroteAll result.1 result.0 (written O.faults O.held out.old out.new) (written E.faults E.held err.old err.new) }
    ensures count { Rises (N.count engine.old) (N.count engine.new) (instruction_steps result.0.case result.0.journal) }
{
    let Ok(workers) = Vec::with_capacity(alloc, 64) else {
        return (hall, Ran::Memory(AllocError));
    };
    let Ok(passes) = Vec::with_capacity(alloc, 65) else {
        return (hall, Ran::Memory(AllocError));
    };
    match lock_up(rt, alloc, hall) {
        Ok((lock, dealt)) => run_locked(
            rt, lock, dealt, guests, workers, passes, lifter, engine, gate, rules, out, err,
        ),
        Err((hall, e)) => (hall, Ran::Memory(e)),
    }
}

// The run of a hall, with guests of its own.
fn run_all<
    R: Threads + Wait + Sync,
    L: Lifter + Sync,
    N: Engine + Drop,
    G: Gate + Sync,
    O: Sink,
    E: Sink,
>(
    rt: &R,
    alloc: Global,
    hall: Hall<Block>,
    lifter: &L,
    engine: &mut N,
    gate: &G,
    rules: Rules,
    out: &mut O,
    err: &mut E,
) -> (Hall<Block>, Ran)
    requires first { hall.journal ≡ [] }
    requires rules { AreRules hall.case rules }
    ensures case { result.0.case ≡ hall.case }
    ensures outputs { WroteAll result.1 result.0 (written O.faults O.held out.old out.new) (written E.faults E.held err.old err.new) }
    ensures count { Rises (N.count engine.old) (N.count engine.new) (instruction_steps result.0.case result.0.journal) }
{
    match make_guests(alloc, &hall) {
        Ok(guests) => run_with(
            rt, alloc, hall, guests, lifter, engine, gate, rules, out, err,
        ),
        Err(e) => (hall, Ran::Memory(e)),
    }
}

/// Runs all threads of a hall whose journal is empty beside each other, with a worker for each slot in use, up to an ending of
/// the guest program, a write that failed, or want of memory. In a round each slot in use has up to 16 turns, in a
/// thread of the operating system where one can be started, and else in the caller's. After each round in which an output grew, what grew is
/// written, first output 1 to `out`, then output 2 to `err`, whether or not the first write failed; a round without an entry
/// is followed by `Dead` where no thread can go on.
///
/// Which legal interleaving comes is not promised, nor that a thread gets on, nor that more threads are faster. The case stays.
/// No block that was grown changes, and each grown place has the lifted block. At `Ended` the machine has an ending, and each
/// sink grew by exactly its output. At `Stopped` a sink that failed grew by a first part of its output, with one fault counted
/// at least, and the other one by the whole of its output. At `Memory` each grew by a first part, and counted no fault. The
/// engine's count, with those of the workers' engines merged, rises by the journal's steps of instructions at least.
pub fn run_workers<
    R: Threads + Wait + Sync,
    L: Lifter + Sync,
    N: Engine + Drop,
    G: Gate + Sync,
    O: Sink,
    E: Sink,
>(
    rt: &R,
    alloc: Global,
    hall: Hall<Block>,
    lifter: &L,
    engine: &mut N,
    gate: &G,
    rules: Rules,
    out: &mut O,
    err: &mut E,
) -> (Hall<Block>, Ran)
    requires first { hall.journal ≡ [] }
    requires rules { AreRules hall.case rules }
    ensures case { result.0.case ≡ hall.case }
    ensures outputs { WroteAll result.1 result.0 (written O.faults O.held out.old out.new) (written E.faults E.held err.old err.new) }
    ensures count { Rises (N.count engine.old) (N.count engine.new) (instruction_steps result.0.case result.0.journal) }
    ensures kept { (a : ℕ) (b : BlockData) → finite.get hall.blocks a ≡ Some b → finite.get result.0.blocks a ≡ Some b }
    ensures lifted { (a : ℕ) (b : BlockData) → finite.get result.0.blocks a ≡ Some b → b ≡ lifted_block result.0.case.image a }
    ensures grown { (a : ℕ) → is_some (finite.get result.0.blocks a) ≡ is_among (grown result.0) a }
{
    hall.facts();
    let (hall, ran) = run_all(rt, alloc, hall, lifter, engine, gate, rules, out, err);
    hall.facts();
    (hall, ran)
}
