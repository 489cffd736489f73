//! One request.

ghost use Rattle.std.specs.Prelude.{◌≡◌, ◌<◌, ◌-◌, ◌^◌, ℕ, false, true, IfOk, OnErr};
ghost use Rattle.tso_memory.specs.Memory.{Memory};
ghost use Rattle.lib_table.specs.Library.{HasNumbers};
ghost use Rattle.lib_table.specs.Row.{function_row, is_waiting, row, waits};
ghost use Rattle.lib_table.specs.Steps.{CanAsk, function_takes_memory, is_done, takes_memory, told};

use crate::answer::{BadKind, Called, Stepped};
use crate::ask::{Ask, Asked};
use crate::library::Library;
use crate::mutexes::{destroy, init, is_held, lock, trylock, unlock};
use crate::searches::{call_door, search_for};
use crate::streams::{read, write};
use crate::sync::{cond_wait, cond_wait_waits, once, once_waits, sync, sync_waits};
use crate::threads::{create, end_door, join, joins_live, self_id};
use elf_image::Function;
use std::alloc::AllocError;
use sync_more::SyncName;
use tso_memory::{Denied, Tso, Width};

/// A function that returns to `back`.
fn call(
    function: Function,
    library: &mut Library,
    memory: &mut Tso,
    t: u32,
    ask: &Ask,
    back: u64,
) -> Result<Stepped, AllocError>
    requires numbers { HasNumbers library.old }
    requires rounds { library.old.rooms.rounds < 2 ^ 64 - 1 }
    ensures row { IfOk result (λ step. function_row function library.old memory.old.memory t ask.now back ≡ told step library.new memory.new.memory) }
    ensures buffers { memory.new.buffers ≡ memory.old.buffers }
    ensures library { IfOk result (λ step. is_done step ≡ false → library.new ≡ library.old) }
    ensures memory { IfOk result (λ step. is_done step ≡ false → memory.new ≡ memory.old) }
    ensures err { OnErr result (library.new ≡ library.old) }
    ensures err_memory { OnErr result (memory.new ≡ memory.old) }
    ensures cause { OnErr result (function_takes_memory function library.old ask.now ≡ true) }
{
    match function {
        Function::PthreadCreate => Ok(create(library, memory, ask, back)),
        Function::PthreadJoin => Ok(join(library, memory, t, ask, back)),
        Function::PthreadSelf => Ok(self_id(library, t, ask, back)),
        Function::MutexInit => Ok(init(library, ask, back)),
        Function::MutexLock => lock(library, t, ask, back),
        Function::MutexTrylock => trylock(library, t, ask, back),
        Function::MutexUnlock => Ok(unlock(library, t, ask, back)),
        Function::MutexDestroy => Ok(destroy(library, ask, back)),
        Function::Bsearch => Ok(search_for(memory, ask, back)),
        Function::Read => Ok(read(library, memory, ask, back)),
        Function::Write => write(library, memory, ask, back),
        Function::Exit => Ok(Stepped::Done(Called::Over)),
        Function::CondInit => sync(SyncName::CondInit, library, t, ask, back),
        Function::CondDestroy => sync(SyncName::CondDestroy, library, t, ask, back),
        Function::CondWait => cond_wait(library, t, ask, back),
        Function::CondSignal => sync(SyncName::CondSignal, library, t, ask, back),
        Function::CondBroadcast => sync(SyncName::CondBroadcast, library, t, ask, back),
        Function::BarrierInit => sync(SyncName::BarrierInit, library, t, ask, back),
        Function::BarrierWait => sync(SyncName::BarrierWait, library, t, ask, back),
        Function::BarrierDestroy => sync(SyncName::BarrierDestroy, library, t, ask, back),
        Function::Once => once(library, memory, t, ask, back),
    }
}

/// Carries out the request `ask` of thread `t`.
///
/// Where it waits, and where it is bad, nothing changes; nor does a store buffer at any time. `AllocError` comes only
/// from a `write`, from a lock of a mutex that none holds, and from the calls of condition variables, barriers and once,
/// and nothing changes then.
#[tactic(auto, unfolding(crate::specs::Row::row))]
pub fn lib_step(
    library: &mut Library,
    memory: &mut Tso,
    t: u32,
    ask: &Ask,
) -> Result<Stepped, AllocError>
    requires { CanAsk library.old t ask.now }
    ensures row { IfOk result (λ step. row library.old memory.old.memory t ask.now ≡ told step library.new memory.new.memory) }
    ensures buffers { memory.new.buffers ≡ memory.old.buffers }

    // Where it waits or is bad, nothing changes.
    ensures library { IfOk result (λ step. is_done step ≡ false → library.new ≡ library.old) }
    ensures memory { IfOk result (λ step. is_done step ≡ false → memory.new ≡ memory.old) }

    ensures err { OnErr result (library.new ≡ library.old) }
    ensures err_memory { OnErr result (memory.new ≡ memory.old) }
    ensures cause { OnErr result (takes_memory ask.now.what library.old ask.now ≡ true) }
{
    match ask.what {
        Asked::Lib(Function::Exit) => Ok(Stepped::Done(Called::Over)),
        Asked::Lib(function) => match memory.peek_number(ask.rsp, Width::W64) {
            Ok(back) => call(function, library, memory, t, ask, back),
            Err(Denied(x)) => Ok(Stepped::Bad(BadKind::Access(x))),
        },
        Asked::EndDoor => Ok(end_door(library, t, ask)),
        Asked::CallDoor => Ok(call_door(library, memory, ask)),
    }
}

/// Whether a call that could read its return address would wait.
fn function_waits(function: Function, library: &Library, t: u32, ask: &Ask) -> bool
    ensures { (m : Memory) (back : ℕ) → result ≡ is_waiting (function_row function library.now m t ask.now back) }
{
    match function {
        Function::MutexLock => is_held(library, ask),
        Function::PthreadJoin => joins_live(library, t, ask),
        Function::CondInit => sync_waits(SyncName::CondInit, library, t, ask),
        Function::CondDestroy => sync_waits(SyncName::CondDestroy, library, t, ask),
        Function::CondWait => cond_wait_waits(library, t, ask),
        Function::CondSignal => sync_waits(SyncName::CondSignal, library, t, ask),
        Function::CondBroadcast => sync_waits(SyncName::CondBroadcast, library, t, ask),
        Function::BarrierInit => sync_waits(SyncName::BarrierInit, library, t, ask),
        Function::BarrierWait => sync_waits(SyncName::BarrierWait, library, t, ask),
        Function::BarrierDestroy => sync_waits(SyncName::BarrierDestroy, library, t, ask),
        Function::Once => once_waits(library, t, ask),
        _ => false,
    }
}

/// Whether the request `ask` of thread `t` waits for another thread: then [`lib_step`] answers `Waits`. Takes no memory.
#[tactic(auto, unfolding(crate::specs::Row::row))]
pub fn waits(library: &Library, memory: &Tso, t: u32, ask: &Ask) -> bool
    ensures { result ≡ waits library.now memory.now.memory t ask.now }
{
    match ask.what {
        Asked::Lib(function) => {
            function_waits(function, library, t, ask) && memory.check(ask.rsp, 8, false).is_ok()
        }
        Asked::EndDoor => false,
        Asked::CallDoor => false,
    }
}
