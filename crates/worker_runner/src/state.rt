//! The shared state in and out of its lock.

ghost use Rattle.std.specs.Prelude.{◌≡◌};
ghost use Rattle.turn_lock.specs.Lock.{lock_id};
ghost use Rattle.turn_lock.specs.Words.{held_lock, held_number, held_value, lock_of, pass_number};
ghost use Rattle.thread_step.specs.Context.{GoesOn, HallOf, IsTaken, Saw, Wrote};

use std::sync::Wait;
use thread_step::SharedHall;
use turn_lock::{Held, Pass, Turn};

/// Takes the shared state. Its journal begins with what the pass saw.
pub(crate) fn take<R: Wait>(
    rt: &R,
    lock: &Turn<SharedHall>,
    pass: Pass<SharedHall>,
) -> Held<SharedHall>
    requires { lock_of pass ≡ lock_id lock.now }
    ensures lock { held_lock result ≡ lock_id lock.now }
    ensures number { held_number result ≡ pass_number pass }
    ensures taken { IsTaken result (held_value result) }
    ensures goes { (h : HallOf) → Saw pass h → GoesOn (pass_number pass) h (held_value result) }
{
    let mut held = lock.take(rt, pass);
    held.value().hall().facts();
    held
}

/// Gives the shared state back, with entries of the pass's number.
pub(crate) fn give(lock: &Turn<SharedHall>, held: Held<SharedHall>) -> Pass<SharedHall>
    requires lock { held_lock held ≡ lock_id lock.now }
    requires wrote { (h : HallOf) × IsTaken held h × Wrote (held_number held) h (held_value held) }
    ensures lock { lock_of result ≡ lock_id lock.now }
    ensures number { pass_number result ≡ held_number held }
    ensures saw { Saw result (held_value held) }
{
    let mut held = held;
    held.value().hall().facts();
    lock.give(held)
}
