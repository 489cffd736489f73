//! `pthread_create`, `pthread_join`, `pthread_self`, and the end of a thread.

ghost use Rattle.std.specs.Prelude.{◌≡◌, ℕ, ◌<◌, ◌-◌, true, false};
ghost use Rattle.tso_memory.specs.Memory.{Memory};
ghost use Rattle.lib_table.specs.Library.{HasNumbers, is_live};
ghost use Rattle.lib_table.specs.Row.{is_waiting};
ghost use Rattle.lib_table.specs.Steps.{is_done, told};
ghost use Rattle.lib_table.specs.Threads.{create, end_door, first_rsp, join, joined, self_id};

use crate::answer::{BadKind, Called, Stepped};
use crate::ask::Ask;
use crate::library::Library;
use crate::life::Life;
use crate::limits::{EAGAIN, EDEADLK, EINVAL, ESRCH};
use crate::words::{put_word, put_words};
use address_space::{END_DOOR, slot_of, stack_top};
use tso_memory::{Denied, Tso};

/// Where thread `t` finds the return address of its start function.
fn first_rsp(t: u32) -> u64
    ensures { result ≡ first_rsp t }
{
    stack_top(slot_of(t)) - 8
}

/// `pthread_create`: a thread is born.
#[tactic(auto, unfolding(crate::specs::Threads::create))]
pub(crate) fn create(library: &mut Library, memory: &mut Tso, ask: &Ask, back: u64) -> Stepped
    requires { HasNumbers library.old }
    ensures row { create library.old memory.old.memory ask.now back ≡ told result library.new memory.new.memory }
    ensures buffers { memory.new.buffers ≡ memory.old.buffers }
    ensures library { is_done result ≡ false → library.new ≡ library.old }
    ensures memory { is_done result ≡ false → memory.new ≡ memory.old }
{
    let [id_place, attributes, start, argument, _] = ask.args;
    if attributes != 0 {
        return ask.returned(back, EINVAL);
    }
    let Some(t) = library.next_number() else {
        return ask.returned(back, EAGAIN);
    };
    let id = u64::from(t) + 1;
    if let Err(Denied(x)) = put_words(memory, (id_place, id), (first_rsp(t), END_DOOR)) {
        return Stepped::Bad(BadKind::Access(x));
    }
    library.set_life(t, Life::Live { start, argument });
    ask.returned(back, 0)
}

/// The value of thread `u`, which ended, is taken.
fn take_value(
    library: &mut Library,
    memory: &mut Tso,
    ask: &Ask,
    back: u64,
    u: u32,
    value: u64,
) -> Stepped
    ensures row { joined library.old memory.old.memory ask.now back u value ≡ told result library.new memory.new.memory }
    ensures buffers { memory.new.buffers ≡ memory.old.buffers }
    ensures library { is_done result ≡ false → library.new ≡ library.old }
    ensures memory { is_done result ≡ false → memory.new ≡ memory.old }
{
    let place = ask.args[1];
    if place != 0 {
        if let Err(Denied(x)) = put_word(memory, place, value) {
            return Stepped::Bad(BadKind::Access(x));
        }
    }
    library.join(u);
    ask.returned(back, 0)
}

/// `pthread_join`: waits until a thread ended, and takes its value.
#[tactic(auto, unfolding(crate::specs::Threads::join))]
pub(crate) fn join(library: &mut Library, memory: &mut Tso, t: u32, ask: &Ask, back: u64) -> Stepped
    ensures row { join library.old memory.old.memory t ask.now back ≡ told result library.new memory.new.memory }
    ensures buffers { memory.new.buffers ≡ memory.old.buffers }
    ensures library { is_done result ≡ false → library.new ≡ library.old }
    ensures memory { is_done result ≡ false → memory.new ≡ memory.old }
{
    let id = ask.args[0];
    if id == 0 {
        return ask.returned(back, ESRCH);
    }
    let u = id - 1;
    match library.life_of(u) {
        Life::Unborn => ask.returned(back, ESRCH),
        Life::Live { .. } => {
            if u == u64::from(t) {
                ask.returned(back, EDEADLK)
            } else {
                Stepped::Waits
            }
        }
        Life::Ended(value) => take_value(library, memory, ask, back, u as u32, value),
        Life::Joined => ask.returned(back, ESRCH),
    }
}

/// Whether `pthread_join` would wait: for a thread that lives and isn't the caller.
#[tactic(auto, unfolding(crate::specs::Threads::join))]
pub(crate) fn joins_live(library: &Library, t: u32, ask: &Ask) -> bool
    ensures { (m : Memory) (back : ℕ) → result ≡ is_waiting (join library.now m t ask.now back) }
{
    let id = ask.args[0];
    if id == 0 || id - 1 == u64::from(t) {
        return false;
    }
    match library.life_of(id - 1) {
        Life::Live { .. } => true,
        _ => false,
    }
}

/// `pthread_self`: the thread's id.
#[tactic(auto, unfolding(crate::specs::Threads::self_id))]
pub(crate) fn self_id(library: &Library, t: u32, ask: &Ask, back: u64) -> Stepped
    ensures { (m : Memory) → self_id library.now m t ask.now back ≡ told result library.now m }
{
    ask.returned(back, u64::from(t) + 1)
}

/// A thread's start function returned.
#[tactic(auto, unfolding(crate::specs::Threads::end_door))]
pub(crate) fn end_door(library: &mut Library, t: u32, ask: &Ask) -> Stepped
    requires { is_live library.old t ≡ true }
    ensures row { (m : Memory) → end_door library.old m t ask.now ≡ told result library.new m }
    ensures library { is_done result ≡ false → library.new ≡ library.old }
{
    if t == 0 || ask.top.is_some() {
        return Stepped::Bad(BadKind::Door);
    }
    library.set_life(t, Life::Ended(ask.rax));
    Stepped::Done(Called::Over)
}
