//! `pthread_cond_init`, `destroy`, `wait`, `signal` and `broadcast`.

ghost use Rattle.std.specs.Prelude.{◌≡◌, ◌+◌, ◌<◌, ◌≤◌, ℕ, Bool, true};
ghost use Rattle.std.specs.FinMap as map;
ghost use Rattle.sync_more.specs.Conditions.{cond_broadcast, cond_destroy, cond_init, cond_signal, cond_wait, gets_up, is_another, lies_down};
ghost use Rattle.sync_more.specs.Rooms.{is_refused, is_waiting, told};

use crate::ask::Outcome;
use crate::limits::{EBUSY, EINVAL, EPERM};
use crate::rooms::Rooms;
use crate::state::Phase;

/// `pthread_cond_init`.
#[tactic(auto, unfolding(crate::specs::Conditions::cond_init))]
pub(crate) fn cond_init(rooms: &Rooms, c: u64, attributes: u64) -> Outcome
    ensures row { cond_init rooms.now.state c attributes ≡ told rooms.now.state result }
{
    if attributes != 0 {
        Outcome::Answer(EINVAL)
    } else if rooms.has_sleeper(c) {
        Outcome::Answer(EBUSY)
    } else {
        Outcome::Answer(0)
    }
}

/// `pthread_cond_destroy`.
#[tactic(auto, unfolding(crate::specs::Conditions::cond_destroy))]
pub(crate) fn cond_destroy(rooms: &Rooms, c: u64) -> Outcome
    ensures row { cond_destroy rooms.now.state c ≡ told rooms.now.state result }
{
    if rooms.has_sleeper(c) {
        Outcome::Answer(EBUSY)
    } else {
        Outcome::Answer(0)
    }
}

/// Whether the sleepers at a condition variable let go of another mutex.
fn is_another(rooms: &Rooms, c: u64, mutex: u64) -> bool
    ensures { result ≡ is_another (map.get rooms.now.state.sleepers c) mutex }
{
    match rooms.mutex_of(c) {
        Some(m) => m != mutex,
        None => false,
    }
}

/// A thread that neither sleeps nor was woken comes to sleep.
fn lie_down(rooms: &mut Rooms, t: u32, c: u64, mutex: u64, holds: bool) -> Outcome
    requires { 0 < rooms.old.room }
    ensures row { lies_down rooms.old.state t c mutex holds ≡ told rooms.new.state result }
    ensures refused { is_refused result ≡ true → rooms.new ≡ rooms.old }
    ensures room { rooms.old.room ≤ rooms.new.room + 1 }
{
    if !holds {
        return Outcome::Answer(EPERM);
    }
    if is_another(rooms, c, mutex) {
        return Outcome::Answer(EINVAL);
    }
    rooms.fall_asleep(t, c, mutex);
    Outcome::Sleep
}

/// A thread that was woken goes on once the mutex is free.
fn get_up(rooms: &mut Rooms, t: u32, mutex: u64, free: bool) -> Outcome
    ensures row { gets_up rooms.old.state t mutex free ≡ told rooms.new.state result }
    ensures refused { is_refused result ≡ true → rooms.new ≡ rooms.old }
    ensures room { rooms.old.room ≤ rooms.new.room + 1 }
{
    if !free {
        return Outcome::Waits;
    }
    rooms.clear_phase(t);
    Outcome::Wake { mutex }
}

/// `pthread_cond_wait`.
#[tactic(auto, unfolding(crate::specs::Conditions::cond_wait))]
pub(crate) fn cond_wait(
    rooms: &mut Rooms,
    t: u32,
    c: u64,
    mutex: u64,
    holds: bool,
    free: bool,
) -> Outcome
    requires { 0 < rooms.old.room }
    ensures row { cond_wait rooms.old.state t c mutex holds free ≡ told rooms.new.state result }
    ensures refused { is_refused result ≡ true → rooms.new ≡ rooms.old }
    ensures room { rooms.old.room ≤ rooms.new.room + 1 }
{
    match rooms.phase(t) {
        Some(Phase::Asleep) => Outcome::Waits,
        Some(Phase::Woken { mutex }) => get_up(rooms, t, mutex, free),
        Some(Phase::AtBarrier) => lie_down(rooms, t, c, mutex, holds),
        Some(Phase::Passed { .. }) => lie_down(rooms, t, c, mutex, holds),
        None => lie_down(rooms, t, c, mutex, holds),
    }
}

/// Whether `pthread_cond_wait` would wait.
#[tactic(auto, unfolding(crate::specs::Conditions::cond_wait))]
pub(crate) fn cond_wait_waits(rooms: &Rooms, t: u32, free: bool) -> bool
    ensures { (c : ℕ) (mutex : ℕ) (holds : Bool) → result ≡ is_waiting (cond_wait rooms.now.state t c mutex holds free).outcome }
{
    match rooms.phase(t) {
        Some(Phase::Asleep) => true,
        Some(Phase::Woken { .. }) => !free,
        Some(Phase::AtBarrier) => false,
        Some(Phase::Passed { .. }) => false,
        None => false,
    }
}

/// `pthread_cond_signal`.
#[tactic(auto, unfolding(crate::specs::Conditions::cond_signal))]
pub(crate) fn cond_signal(rooms: &mut Rooms, c: u64) -> Outcome
    requires { 0 < rooms.old.room }
    ensures row { cond_signal rooms.old.state c ≡ told rooms.new.state result }
    ensures refused { is_refused result ≡ true → rooms.new ≡ rooms.old }
    ensures room { rooms.old.room ≤ rooms.new.room + 1 }
{
    rooms.wake_first(c);
    Outcome::Answer(0)
}

/// `pthread_cond_broadcast`.
#[tactic(auto, unfolding(crate::specs::Conditions::cond_broadcast))]
pub(crate) fn cond_broadcast(rooms: &mut Rooms, c: u64) -> Outcome
    requires { 0 < rooms.old.room }
    ensures row { cond_broadcast rooms.old.state c ≡ told rooms.new.state result }
    ensures refused { is_refused result ≡ true → rooms.new ≡ rooms.old }
    ensures room { rooms.old.room ≤ rooms.new.room + 1 }
{
    rooms.wake_all(c);
    Outcome::Answer(0)
}
