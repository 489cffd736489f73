//! What the driver of a run does between rounds: it writes what grew, and ends a run in which no thread can go on.

ghost use Rattle.std.specs.Prelude.{◌≡◌, ◌≢◌, ◌≤◌, drop, length};
ghost use Rattle.turn_lock.specs.Lock.{lock_id};
ghost use Rattle.turn_lock.specs.Words.{lock_of, pass_number};
ghost use Rattle.hall_core.specs.Hall.{machine};
ghost use Rattle.ir_runner.specs.Outputs.{GainsBy, written};
ghost use Rattle.thread_step.specs.Context.{HallOf, Saw, Wrote};
ghost use Rattle.worker_runner.specs.Watched.{Grew, IsPlace, OverIs, WatchedIn, library_of};

use crate::state::{give, take};
use address_space::SLOTS;
use hall_core::Hall;
use ir_syntax::Block;
use mx_outside::{Sink, write_all};
use std::alloc::AllocError;
use std::sync::Wait;
use thread_step::SharedHall;
use turn_lock::{Pass, Story, Turn};

/// How far a run is: how many bytes of each output were written, how long the journal was, and how many slots there are up to
/// the last one in which a thread lives.
#[derive(Clone, Copy, Debug)]
pub(crate) struct Place {
    pub(crate) first: usize,
    pub(crate) second: usize,
    pub(crate) length: u64,
    pub(crate) used: usize,
}

/// What the driver finds.
#[derive(Debug, Drop)]
pub(crate) enum Over {
    /// The run goes on.
    On,
    /// It has an ending.
    Ended,
    /// Writes failed: which of the two.
    Stopped { out: bool, err: bool },
    /// Memory was wanting.
    Memory(AllocError),
}

/// Writes what follows the first `done` bytes of an output, and says whether that failed.
pub(crate) fn write_rest<K: Sink>(sink: &mut K, bytes: &[u8], done: usize) -> bool
    requires { done ≤ length bytes.now }
    ensures { GainsBy result (written K.faults K.held sink.old sink.new) (drop done bytes.now) }
{
    write_all(sink, &bytes[done..]).is_err()
}

// Where no entry came since the last look and no thread can go on, the run ends.
fn end_dead(hall: &mut Hall<Block>, seen: u64) -> Result<(), AllocError>
    ensures wrote { Wrote 64 hall.old hall.new }
    ensures still { length hall.old.journal ≢ seen → hall.new ≡ hall.old }
{
    if hall.ending().is_some() || hall.length() != seen {
        return Ok(());
    }
    hall.reserve(1)?;
    let _ended = hall.dead();
    Ok(())
}

// The same; outputs grow at their ends.
fn look(hall: &mut Hall<Block>, seen: u64) -> Result<(), AllocError>
    ensures wrote { Wrote 64 hall.old hall.new }
    ensures grew { Grew hall.old hall.new }
{
    hall.facts();
    let ended = end_dead(hall, seen);
    hall.facts();
    ended
}

// How many slots there are up to the last one in which a thread lives.
fn in_use(hall: &Hall<Block>) -> usize
    ensures { result ≤ 64 }
{
    let mut used = 0;
    for slot in 0..SLOTS {
        if hall.thread_in(slot).is_some() {
            used = slot as usize + 1;
        }
    }
    used
}

// What the driver finds in the shared state, and writes.
fn watch_in<O: Sink, E: Sink>(
    hall: &mut Hall<Block>,
    place: &mut Place,
    out: &mut O,
    err: &mut E,
) -> Over
    requires written { (h : HallOf) × IsPlace place.old h × (place.old.first ≤ length (library_of hall.old).out1) × (place.old.second ≤ length (library_of hall.old).out2) }
    ensures wrote { Wrote 64 hall.old hall.new }
    ensures place { IsPlace place.new hall.new }
    ensures over { (h : HallOf) → IsPlace place.old h → OverIs result h hall.new (written O.faults O.held out.old out.new) (written E.faults E.held err.old err.new) }
{
    let (first, second) = (place.first, place.second);
    let ended = look(hall, place.length);
    *place = Place {
        first: hall.out1().len(),
        second: hall.out2().len(),
        length: hall.length(),
        used: in_use(hall),
    };
    if let Err(e) = ended {
        return Over::Memory(e);
    }
    let out_failed = write_rest(out, hall.out1(), first);
    let err_failed = write_rest(err, hall.out2(), second);
    if out_failed || err_failed {
        return Over::Stopped {
            out: out_failed,
            err: err_failed,
        };
    }
    if hall.ending().is_some() {
        Over::Ended
    } else {
        Over::On
    }
}

/// What the driver finds, with the pass of number 64: what grew is written, and where no entry came and no thread can go on,
/// the run ends.
pub(crate) fn watch<R: Wait, O: Sink, E: Sink>(
    rt: &R,
    lock: &Turn<SharedHall>,
    pass: Pass<SharedHall>,
    place: &mut Place,
    out: &mut O,
    err: &mut E,
) -> (Pass<SharedHall>, Over)
    requires lock { lock_of pass ≡ lock_id lock.now }
    requires number { pass_number pass ≡ 64 }
    requires saw { (h : HallOf) × Saw pass h × IsPlace place.old h }
    ensures lock { lock_of result.0 ≡ lock_id lock.now }
    ensures number { pass_number result.0 ≡ 64 }
    ensures watched { (h : HallOf) → Saw pass h → IsPlace place.old h → WatchedIn result.1 result.0 place.new (written O.faults O.held out.old out.new) (written E.faults E.held err.old err.new) h }
{
    let mut held = take(rt, lock, pass);
    let over = watch_in(held.value().hall(), place, out, err);
    (give(lock, held), over)
}
