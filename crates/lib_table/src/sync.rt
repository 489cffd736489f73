//! Condition variables, barriers and once.

ghost use Rattle.std.specs.Prelude.{◌≡◌, ◌-◌, ◌^◌, ◌<◌, ℕ, Bool, true, false, IfOk, OnErr, Some};
ghost use Rattle.tso_memory.specs.Memory.{Memory};
ghost use Rattle.lib_table.specs.Library.{LibraryData};
ghost use Rattle.lib_table.specs.Row.{is_waiting};
ghost use Rattle.lib_table.specs.Steps.{is_done, told};
ghost use Rattle.lib_table.specs.Sync.{comes_to, cond_wait, is_simple, is_simple_name, is_takeable, is_wake, obstacle, once, sync};
ghost use Rattle.sync_more.specs.declared.ask.SyncName.TheVariants.{CondWait};
ghost use Rattle.sync_more.specs.Rooms.{is_refused};
ghost use Rattle.sync_more.specs.Row.{row};

use crate::answer::{BadKind, Called, Stepped};
use crate::ask::Ask;
use crate::library::Library;
use crate::limits::{MAX_FRAMES, MAX_HELD};
use crate::mutexes::is_holder;
use crate::searches::go_on;
use callbacks::{Next, begin_once};
use std::alloc::AllocError;
use sync_more::{Outcome, SyncName};
use tso_memory::{Denied, Tso};

/// What an outcome comes to that takes no mutex and begins no routine.
fn simply(ask: &Ask, back: u64, outcome: Outcome) -> Stepped
    requires { is_simple outcome ≡ true }
    ensures row { (l : LibraryData) (m : Memory) (t : ℕ) → comes_to l l m t ask.now back outcome ≡ told result l m }
    ensures refused { is_done result ≡ false → is_refused outcome ≡ true }
{
    match outcome {
        Outcome::Answer(value) => ask.returned(back, value),
        Outcome::Sleep => Stepped::Done(Called::Stay),
        Outcome::Waits => Stepped::Waits,
        _ => unreachable!(),
    }
}

/// A call that asks for no mutex and begins no routine.
#[tactic(auto, unfolding(crate::specs::Sync::sync))]
pub(crate) fn sync(
    name: SyncName,
    library: &mut Library,
    t: u32,
    ask: &Ask,
    back: u64,
) -> Result<Stepped, AllocError>
    requires simple { is_simple_name name ≡ true }
    requires rounds { library.old.rooms.rounds < 2 ^ 64 - 1 }
    ensures row { IfOk result (λ step. (m : Memory) → sync name library.old m t ask.now back ≡ told step library.new m) }
    ensures library { IfOk result (λ step. is_done step ≡ false → library.new ≡ library.old) }
    ensures err { OnErr result (library.new ≡ library.old) }
{
    let outcome = library.ask_rooms(t, name, ask.sync_args(), false, false)?;
    Ok(simply(ask, back, outcome))
}

/// Whether no thread holds the mutex, and one more may be held.
fn is_takeable(library: &Library, mutex: u64) -> bool
    ensures { result ≡ is_takeable library.now mutex }
{
    library.holder(mutex).is_none() && library.held_count() < MAX_HELD
}

/// Whether `pthread_cond_wait` would let the thread go on with its mutex.
fn wakes(library: &Library, t: u32, args: [u64; 3], free: bool) -> bool
    ensures { (holds : Bool) → result ≡ is_wake (row library.now.rooms t CondWait args holds free).outcome }
{
    if !free {
        return false;
    }
    let stays = library.rooms_wait(t, SyncName::CondWait, args, false, false);
    if !stays {
        return false;
    }
    !library.rooms_wait(t, SyncName::CondWait, args, false, true)
}

/// `pthread_cond_wait`: lets go of the mutex and sleeps, and once woken waits until it gets the mutex.
#[tactic(auto, unfolding(crate::specs::Sync::cond_wait))]
pub(crate) fn cond_wait(
    library: &mut Library,
    t: u32,
    ask: &Ask,
    back: u64,
) -> Result<Stepped, AllocError>
    requires { library.old.rooms.rounds < 2 ^ 64 - 1 }
    ensures row { IfOk result (λ step. (m : Memory) → cond_wait library.old m t ask.now back ≡ told step library.new m) }
    ensures library { IfOk result (λ step. is_done step ≡ false → library.new ≡ library.old) }
    ensures err { OnErr result (library.new ≡ library.old) }
{
    let args = ask.sync_args();
    let mutex = ask.args[1];
    let holds = is_holder(library, t, mutex);
    let free = is_takeable(library, mutex);
    if wakes(library, t, args, free) {
        let _ = library.wake(t, args, holds, free)?;
        return Ok(ask.returned(back, 0));
    }
    let outcome = library.ask_rooms(t, SyncName::CondWait, args, holds, free)?;
    match outcome {
        Outcome::Sleep => {
            library.release_mutex(mutex);
            Ok(Stepped::Done(Called::Stay))
        }
        _ => Ok(simply(ask, back, outcome)),
    }
}

/// Whether `pthread_cond_wait` would wait.
#[tactic(auto, unfolding(crate::specs::Sync::cond_wait))]
pub(crate) fn cond_wait_waits(library: &Library, t: u32, ask: &Ask) -> bool
    ensures { (m : Memory) (back : ℕ) → result ≡ is_waiting (cond_wait library.now m t ask.now back) }
{
    let mutex = ask.args[1];
    let holds = is_holder(library, t, mutex);
    let free = is_takeable(library, mutex);
    library.rooms_wait(t, SyncName::CondWait, ask.sync_args(), holds, free)
}

/// Whether a call that asks for no mutex and begins no routine would wait.
#[tactic(auto, unfolding(crate::specs::Sync::sync))]
pub(crate) fn sync_waits(name: SyncName, library: &Library, t: u32, ask: &Ask) -> bool
    ensures { (m : Memory) (back : ℕ) → result ≡ is_waiting (sync name library.now m t ask.now back) }
{
    library.rooms_wait(t, name, ask.sync_args(), false, false)
}

/// Why a routine can't be begun, if it can't: too many calls are under way, or its return address can't be written.
fn obstacle(memory: &Tso, ask: &Ask) -> Option<BadKind>
    ensures { result ≡ obstacle memory.now.memory ask.now }
{
    if ask.depth >= MAX_FRAMES {
        return Some(BadKind::Depth);
    }
    match memory.check(ask.rsp.wrapping_sub(16), 8, true) {
        Ok(()) => None,
        Err(Denied(x)) => Some(BadKind::Access(x)),
    }
}

/// `pthread_once` where a routine can't be begun.
#[tactic(auto, unfolding(crate::specs::Sync::once))]
fn once_blocked(
    library: &mut Library,
    memory: &Tso,
    t: u32,
    ask: &Ask,
    back: u64,
    kind: BadKind,
) -> Result<Stepped, AllocError>
    requires kind { obstacle memory.now.memory ask.now ≡ Some kind }
    requires rounds { library.old.rooms.rounds < 2 ^ 64 - 1 }
    ensures row { IfOk result (λ step. once library.old memory.now.memory t ask.now back ≡ told step library.new memory.now.memory) }
    ensures library { IfOk result (λ step. is_done step ≡ false → library.new ≡ library.old) }
    ensures err { OnErr result (library.new ≡ library.old) }
{
    let outcome = library.ask_rooms(t, SyncName::Once, ask.sync_args(), false, false)?;
    match outcome {
        Outcome::Deep => Ok(Stepped::Bad(kind)),
        _ => Ok(simply(ask, back, outcome)),
    }
}

/// `pthread_once`: the first call of a control begins its routine, and later ones wait until it returned.
#[tactic(auto, unfolding(crate::specs::Sync::once))]
pub(crate) fn once(
    library: &mut Library,
    memory: &mut Tso,
    t: u32,
    ask: &Ask,
    back: u64,
) -> Result<Stepped, AllocError>
    requires { library.old.rooms.rounds < 2 ^ 64 - 1 }
    ensures row { IfOk result (λ step. once library.old memory.old.memory t ask.now back ≡ told step library.new memory.new.memory) }
    ensures buffers { memory.new.buffers ≡ memory.old.buffers }
    ensures library { IfOk result (λ step. is_done step ≡ false → library.new ≡ library.old) }
    ensures memory { IfOk result (λ step. is_done step ≡ false → memory.new ≡ memory.old) }
    ensures err { OnErr result (library.new ≡ library.old) }
    ensures err_memory { OnErr result (memory.new ≡ memory.old) }
{
    if let Some(kind) = obstacle(memory, ask) {
        return once_blocked(library, memory, t, ask, back, kind);
    }
    let outcome = library.ask_rooms(t, SyncName::Once, ask.sync_args(), false, true)?;
    match outcome {
        Outcome::Begin => {
            let [control, routine, _, _, _] = ask.args;
            let frame = begin_once(control, routine, ask.rsp, back);
            Ok(go_on(memory, frame, Next::Probe(routine)))
        }
        _ => Ok(simply(ask, back, outcome)),
    }
}

/// Whether `pthread_once` would wait.
#[tactic(auto, unfolding(crate::specs::Sync::once))]
pub(crate) fn once_waits(library: &Library, t: u32, ask: &Ask) -> bool
    ensures { (m : Memory) (back : ℕ) → result ≡ is_waiting (once library.now m t ask.now back) }
{
    let free = ask.depth < MAX_FRAMES;
    library.rooms_wait(t, SyncName::Once, ask.sync_args(), false, free)
}
