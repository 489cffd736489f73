//! `pthread_barrier_init`, `wait` and `destroy`.

ghost use Rattle.std.specs.Prelude.{◌≡◌, ◌+◌, ◌-◌, ◌^◌, ◌<◌, ◌≤◌, ℕ, true};
ghost use Rattle.std.specs.FinMap as map;
ghost use Rattle.sync_more.specs.declared.ask.Outcome.TheVariants.{Answer};
ghost use Rattle.sync_more.specs.Barriers.{arrived, barrier_destroy, barrier_init, barrier_wait, is_awaited, low_32};
ghost use Rattle.sync_more.specs.Rooms.{is_refused, is_waiting, told, without_phase};

use crate::ask::Outcome;
use crate::limits::{EBUSY, EINVAL, SERIAL_THREAD};
use crate::rooms::Rooms;
use crate::state::Phase;

/// The lowest 32 bits, as of an argument of type `unsigned int`.
fn low_32(x: u64) -> u32
    ensures { result ≡ low_32 x }
{
    (x % (1 << 32)) as u32
}

/// Whether any thread waits at a barrier.
fn is_awaited(rooms: &Rooms, b: u64) -> bool
    ensures { result ≡ is_awaited (map.get rooms.now.state.barriers b) }
{
    match rooms.barrier(b) {
        Some(barrier) => barrier.waiters.len() > 0,
        None => false,
    }
}

/// `pthread_barrier_init`.
#[tactic(auto, unfolding(crate::specs::Barriers::barrier_init))]
pub(crate) fn barrier_init(rooms: &mut Rooms, b: u64, attributes: u64, count: u64) -> Outcome
    requires reserved { 0 < rooms.old.room }
    requires rounds { rooms.old.state.rounds < 2 ^ 64 - 1 }
    ensures row { barrier_init rooms.old.state b attributes count ≡ told rooms.new.state result }
    ensures refused { is_refused result ≡ true → rooms.new ≡ rooms.old }
    ensures room { rooms.old.room ≤ rooms.new.room + 1 }
{
    let count = low_32(count);
    if attributes != 0 || count == 0 {
        return Outcome::Answer(EINVAL);
    }
    if is_awaited(rooms, b) {
        return Outcome::Answer(EBUSY);
    }
    rooms.start_round(b, count);
    Outcome::Answer(0)
}

/// A thread arrives at a barrier.
fn arrive(rooms: &mut Rooms, t: u32, b: u64) -> Outcome
    requires reserved { 0 < rooms.old.room }
    requires rounds { rooms.old.state.rounds < 2 ^ 64 - 1 }
    ensures row { arrived rooms.old.state t b (map.get rooms.old.state.barriers b) ≡ told rooms.new.state result }
    ensures refused { is_refused result ≡ true → rooms.new ≡ rooms.old }
    ensures room { rooms.old.room ≤ rooms.new.room + 1 }
{
    let Some(barrier) = rooms.barrier(b) else {
        return Outcome::Answer(EINVAL);
    };
    if barrier.waiters.len() < (barrier.count as usize).saturating_sub(1) {
        rooms.join_barrier(t, b);
        Outcome::Sleep
    } else {
        rooms.open_barrier(b);
        Outcome::Answer(SERIAL_THREAD)
    }
}

/// A thread whose barrier opened goes on.
fn pass(rooms: &mut Rooms, t: u32) -> Outcome
    ensures row { told (without_phase rooms.old.state t) (Answer 0) ≡ told rooms.new.state result }
    ensures room { rooms.old.room ≤ rooms.new.room + 1 }
    ensures answer { result ≡ Answer 0 }
{
    rooms.clear_phase(t);
    Outcome::Answer(0)
}

/// `pthread_barrier_wait`.
#[tactic(auto, unfolding(crate::specs::Barriers::barrier_wait))]
pub(crate) fn barrier_wait(rooms: &mut Rooms, t: u32, b: u64) -> Outcome
    requires reserved { 0 < rooms.old.room }
    requires rounds { rooms.old.state.rounds < 2 ^ 64 - 1 }
    ensures row { barrier_wait rooms.old.state t b ≡ told rooms.new.state result }
    ensures refused { is_refused result ≡ true → rooms.new ≡ rooms.old }
    ensures room { rooms.old.room ≤ rooms.new.room + 1 }
{
    match rooms.phase(t) {
        Some(Phase::AtBarrier) => Outcome::Waits,
        Some(Phase::Passed { .. }) => pass(rooms, t),
        Some(Phase::Asleep) => arrive(rooms, t, b),
        Some(Phase::Woken { .. }) => arrive(rooms, t, b),
        None => arrive(rooms, t, b),
    }
}

/// Whether `pthread_barrier_wait` would wait.
#[tactic(auto, unfolding(crate::specs::Barriers::barrier_wait))]
pub(crate) fn barrier_wait_waits(rooms: &Rooms, t: u32) -> bool
    ensures { (b : ℕ) → result ≡ is_waiting (barrier_wait rooms.now.state t b).outcome }
{
    match rooms.phase(t) {
        Some(Phase::AtBarrier) => true,
        _ => false,
    }
}

/// `pthread_barrier_destroy`.
#[tactic(auto, unfolding(crate::specs::Barriers::barrier_destroy))]
pub(crate) fn barrier_destroy(rooms: &mut Rooms, b: u64) -> Outcome
    ensures row { barrier_destroy rooms.old.state b ≡ told rooms.new.state result }
    ensures refused { is_refused result ≡ true → rooms.new ≡ rooms.old }
    ensures room { rooms.old.room ≤ rooms.new.room + 1 }
{
    let Some(barrier) = rooms.barrier(b) else {
        return Outcome::Answer(EINVAL);
    };
    if barrier.waiters.len() > 0 {
        return Outcome::Answer(EBUSY);
    }
    rooms.drop_barrier(b);
    Outcome::Answer(0)
}
