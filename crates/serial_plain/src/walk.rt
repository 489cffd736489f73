//! What the serial order asks of a walk: the machine and the gate side by side.

ghost use Rattle.std.specs.Prelude.{◌≡◌, ◌+◌, ◌<◌, length, nat_lt, IfOk};
ghost use Rattle.machine_model.specs.Gated.{is_between, stand_at};
ghost use Rattle.machine_model.specs.State.{is_live, list_at, thread_in};
ghost use Rattle.machine_model.specs.Step.{waits_at};

use elf_image::Image;
use machine_model::ending::RunEnd;
use machine_plain::{PlainMachine, PlainStand, PlainWalk};
use std::alloc::{AllocError, Global};
use x86_model::Cpu;

// Whether fewer steps were made than the limit is, with `k` more.
pub(crate) fn is_below(walk: &PlainWalk, limit: u64, k: u32) -> bool
    ensures { result ≡ nat_lt (walk.now.machine.steps + k) limit }
{
    walk.machine.is_below(limit, k)
}

// How the run ended, if it did.
pub(crate) fn ending(walk: &PlainWalk) -> Option<RunEnd>
    ensures { result ≡ walk.now.machine.ending }
{
    walk.machine.ending()
}

// Whether thread `t` lives.
pub(crate) fn is_live(walk: &PlainWalk, t: u32) -> bool
    ensures { result ≡ is_live walk.now.machine t }
{
    walk.machine.is_live(t)
}

// The thread that lives in a slot, if one does.
pub(crate) fn thread_in(walk: &PlainWalk, slot: u32) -> Option<u32>
    ensures { result ≡ thread_in walk.now.machine slot }
{
    walk.machine.library.thread_in(slot)
}

// Whether thread `t` with these registers stands at a call that waits for another thread.
pub(crate) fn waits_at(walk: &PlainWalk, image: &Image, t: u32, cpu: Cpu) -> bool
    ensures { result ≡ waits_at image.now walk.now.machine t cpu }
{
    walk.machine.waits_at(image, t, cpu)
}

// How many writes of a slot's thread wait.
pub(crate) fn waiting(walk: &PlainWalk, slot: u32) -> u64
    requires { slot < 64 }
    ensures { result ≡ length (list_at walk.now.machine slot) }
{
    u64::from(walk.machine.memory.waiting(slot))
}

// Where a slot's thread stands.
pub(crate) fn stand(alloc: Global, walk: &PlainWalk, slot: u32) -> Result<PlainStand, AllocError>
    ensures { IfOk result (λ s. s ≡ stand_at walk.now slot) }
{
    let spot = walk.gate.spot(alloc, slot)?;
    Ok(PlainStand {
        cpu: walk.machine.cpu(slot),
        left: spot.left,
    })
}

// The same stand again.
pub(crate) fn copied(alloc: Global, stand: &PlainStand) -> Result<PlainStand, AllocError>
    ensures { IfOk result (λ s. s ≡ stand.now) }
{
    let left = Vec::from_slice(alloc, &stand.left)?;
    Ok(PlainStand {
        cpu: stand.cpu,
        left,
    })
}

// The registers.
pub(crate) fn cpu_of(stand: &PlainStand) -> Cpu
    ensures { result ≡ stand.now.cpu }
{
    stand.cpu
}

// Whether the thread is between blocks.
pub(crate) fn is_between(stand: &PlainStand) -> bool
    ensures { result ≡ is_between stand.now.left }
{
    machine_plain::is_between(&stand.left)
}

// The places that are grown.
pub(crate) fn grown(walk: &PlainWalk) -> &[u64]
    ensures { result.now ≡ walk.now.gate.grown }
{
    &walk.gate.grown
}

// The machine alone.
pub(crate) fn into_machine(walk: PlainWalk) -> PlainMachine
    ensures { result ≡ walk.machine }
{
    walk.machine
}
