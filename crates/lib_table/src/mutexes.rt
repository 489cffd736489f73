//! `pthread_mutex_init`, `lock`, `trylock`, `unlock` and `destroy`.

ghost use Rattle.std.specs.Prelude.{◌≡◌, false, IfOk, OnErr, not};
ghost use Rattle.tso_memory.specs.Memory.{Memory};
ghost use Rattle.lib_table.specs.Library.{is_held, is_held_by};
ghost use Rattle.lib_table.specs.Mutexes.{destroy, init, lock, taken, trylock, unlock};
ghost use Rattle.lib_table.specs.Outcome.{a1};
ghost use Rattle.lib_table.specs.Steps.{is_done, told};

use crate::answer::Stepped;
use crate::ask::Ask;
use crate::library::Library;
use crate::limits::{EAGAIN, EBUSY, EINVAL, EPERM, MAX_HELD};
use std::alloc::AllocError;

/// Whether any thread holds the mutex of a call.
pub(crate) fn is_held(library: &Library, ask: &Ask) -> bool
    ensures { result ≡ is_held library.now (a1 ask.now) }
{
    library.holder(ask.args[0]).is_some()
}

/// `pthread_mutex_init`.
#[tactic(auto, unfolding(crate::specs::Mutexes::init))]
pub(crate) fn init(library: &Library, ask: &Ask, back: u64) -> Stepped
    ensures { (m : Memory) → init library.now m ask.now back ≡ told result library.now m }
{
    if ask.args[1] != 0 {
        ask.returned(back, EINVAL)
    } else if is_held(library, ask) {
        ask.returned(back, EBUSY)
    } else {
        ask.returned(back, 0)
    }
}

/// The caller takes a mutex that none holds. Nothing changes where memory runs out.
fn take(library: &mut Library, t: u32, ask: &Ask, back: u64) -> Result<Stepped, AllocError>
    ensures row { IfOk result (λ step. (m : Memory) → taken library.old m t ask.now back ≡ told step library.new m) }
    ensures library { IfOk result (λ step. is_done step ≡ false → library.new ≡ library.old) }
    ensures err { OnErr result (library.new ≡ library.old) }
{
    if library.held_count() >= MAX_HELD {
        return Ok(ask.returned(back, EAGAIN));
    }
    library.take_mutex(ask.args[0], t)?;
    Ok(ask.returned(back, 0))
}

/// `pthread_mutex_lock`: waits until none holds the mutex, and takes it.
#[tactic(auto, unfolding(crate::specs::Mutexes::lock))]
pub(crate) fn lock(
    library: &mut Library,
    t: u32,
    ask: &Ask,
    back: u64,
) -> Result<Stepped, AllocError>
    ensures row { IfOk result (λ step. (m : Memory) → lock library.old m t ask.now back ≡ told step library.new m) }
    ensures library { IfOk result (λ step. is_done step ≡ false → library.new ≡ library.old) }
    ensures err { OnErr result (library.new ≡ library.old) }
    ensures new { OnErr result (is_held library.old (a1 ask.now) ≡ false) }
{
    if is_held(library, ask) {
        Ok(Stepped::Waits)
    } else {
        take(library, t, ask, back)
    }
}

/// `pthread_mutex_trylock`: takes the mutex if none holds it.
#[tactic(auto, unfolding(crate::specs::Mutexes::trylock))]
pub(crate) fn trylock(
    library: &mut Library,
    t: u32,
    ask: &Ask,
    back: u64,
) -> Result<Stepped, AllocError>
    ensures row { IfOk result (λ step. (m : Memory) → trylock library.old m t ask.now back ≡ told step library.new m) }
    ensures library { IfOk result (λ step. is_done step ≡ false → library.new ≡ library.old) }
    ensures err { OnErr result (library.new ≡ library.old) }
    ensures new { OnErr result (is_held library.old (a1 ask.now) ≡ false) }
{
    if is_held(library, ask) {
        Ok(ask.returned(back, EBUSY))
    } else {
        take(library, t, ask, back)
    }
}

/// Whether thread `t` holds the mutex.
pub(crate) fn is_holder(library: &Library, t: u32, mutex: u64) -> bool
    ensures { result ≡ is_held_by library.now mutex t }
{
    match library.holder(mutex) {
        Some(owner) => owner == t,
        None => false,
    }
}

/// `pthread_mutex_unlock`: the holder releases the mutex.
#[tactic(auto, unfolding(crate::specs::Mutexes::unlock))]
pub(crate) fn unlock(library: &mut Library, t: u32, ask: &Ask, back: u64) -> Stepped
    ensures row { (m : Memory) → unlock library.old m t ask.now back ≡ told result library.new m }
    ensures library { is_done result ≡ false → library.new ≡ library.old }
{
    if !is_holder(library, t, ask.args[0]) {
        return ask.returned(back, EPERM);
    }
    library.release_mutex(ask.args[0]);
    ask.returned(back, 0)
}

/// `pthread_mutex_destroy`.
#[tactic(auto, unfolding(crate::specs::Mutexes::destroy))]
pub(crate) fn destroy(library: &Library, ask: &Ask, back: u64) -> Stepped
    ensures { (m : Memory) → destroy library.now m ask.now back ≡ told result library.now m }
{
    if is_held(library, ask) {
        ask.returned(back, EBUSY)
    } else {
        ask.returned(back, 0)
    }
}
