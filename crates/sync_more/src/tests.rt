//! Worked rows, and the one run of each call that takes memory.

use crate::Outcome::{Answer, Begin, Deep, Sleep, Waits, Wake};
use crate::SyncName::{
    BarrierDestroy, BarrierInit, BarrierWait, CondBroadcast, CondDestroy, CondInit, CondSignal,
    CondWait, Once,
};
use crate::{EBUSY, EINVAL, EPERM, Outcome, Rooms, SERIAL_THREAD, SyncName};
use std::alloc::AllocError;
use std::process::Abort;
use std::test::Fail;

const COND: u64 = 0x402000;

const OTHER_COND: u64 = 0x402040;

const BARRIER: u64 = 0x402080;

const CONTROL: u64 = 0x4020c0;

const MUTEX: u64 = 0x402100;

const OTHER_MUTEX: u64 = 0x402140;

/// A call: the thread, the function, its arguments, whether the thread holds the mutex, and whether it is free or a
/// routine may begin; and what comes of it.
type Call = (u32, SyncName, [u64; 3], (bool, bool), Outcome);

const NEITHER: (bool, bool) = (false, false);

const HOLDS: (bool, bool) = (true, false);

const FREE: (bool, bool) = (false, true);

const C: [u64; 3] = [COND, 0, 0];

const OTHER_WAIT: [u64; 3] = [COND, OTHER_MUTEX, 0];

const OTHER_ROUTINE: [u64; 3] = [CONTROL + 4, 0x401100, 0];

const WAIT: [u64; 3] = [COND, MUTEX, 0];

const B: [u64; 3] = [BARRIER, 0, 0];

const NONE_LOW: [u64; 3] = [BARRIER, 0, 1 << 32];

const TWO_LOW: [u64; 3] = [BARRIER, 0, (7 << 32) + 2];

const ROUTINE: [u64; 3] = [CONTROL, 0x401100, 0];

const WAKING: [Call; 26] = [
    (0, CondInit, [COND, 1, 0], NEITHER, Answer(EINVAL)),
    (0, CondInit, C, NEITHER, Answer(0)),
    (0, CondWait, WAIT, NEITHER, Answer(EPERM)),
    // None sleeps: a signal is lost.
    (1, CondSignal, C, NEITHER, Answer(0)),
    (0, CondWait, WAIT, HOLDS, Sleep),
    (0, CondWait, WAIT, FREE, Waits),
    (1, CondWait, OTHER_WAIT, HOLDS, Answer(EINVAL)),
    (1, CondInit, C, NEITHER, Answer(EBUSY)),
    (1, CondDestroy, C, NEITHER, Answer(EBUSY)),
    (1, CondWait, WAIT, HOLDS, Sleep),
    (66, CondWait, WAIT, HOLDS, Sleep),
    // The other condition variable has no sleeper.
    (3, CondBroadcast, [OTHER_COND, 0, 0], NEITHER, Answer(0)),
    (0, CondWait, WAIT, FREE, Waits),
    // The first is woken first, and takes the mutex when it is free.
    (3, CondSignal, C, HOLDS, Answer(0)),
    (1, CondWait, WAIT, FREE, Waits),
    (0, CondWait, WAIT, NEITHER, Waits),
    (0, CondWait, WAIT, FREE, Wake { mutex: MUTEX }),
    (0, CondWait, WAIT, HOLDS, Sleep),
    // A phase belongs to the number: thread 2 has the slot of thread 66.
    (2, CondWait, WAIT, FREE, Answer(EPERM)),
    // All are woken.
    (3, CondBroadcast, C, HOLDS, Answer(0)),
    (3, CondDestroy, C, HOLDS, Answer(0)),
    (66, CondWait, WAIT, FREE, Wake { mutex: MUTEX }),
    (1, CondWait, WAIT, NEITHER, Waits),
    (0, CondWait, WAIT, FREE, Wake { mutex: MUTEX }),
    (1, CondWait, WAIT, FREE, Wake { mutex: MUTEX }),
    // The condition variable is free for another mutex.
    (1, CondWait, OTHER_WAIT, HOLDS, Sleep),
];

const FIRST_ROUND: [Call; 10] = [
    (0, BarrierWait, B, NEITHER, Answer(EINVAL)),
    (0, BarrierDestroy, B, NEITHER, Answer(EINVAL)),
    (0, BarrierInit, B, NEITHER, Answer(EINVAL)),
    (0, BarrierInit, NONE_LOW, NEITHER, Answer(EINVAL)),
    (0, BarrierInit, [BARRIER, 8, 2], NEITHER, Answer(EINVAL)),
    // The count is the lowest 32 bits.
    (0, BarrierInit, TWO_LOW, NEITHER, Answer(0)),
    (0, BarrierWait, B, NEITHER, Sleep),
    (0, BarrierWait, B, NEITHER, Waits),
    (1, BarrierInit, [BARRIER, 0, 2], NEITHER, Answer(EBUSY)),
    (1, BarrierDestroy, B, NEITHER, Answer(EBUSY)),
];

const OPENING: [Call; 1] = [(1, BarrierWait, B, NEITHER, Answer(SERIAL_THREAD))];

const SECOND_ROUND: [Call; 8] = [
    // The second round begins with none.
    (1, BarrierWait, B, NEITHER, Sleep),
    (0, BarrierWait, B, NEITHER, Answer(0)),
    (0, BarrierWait, B, NEITHER, Answer(SERIAL_THREAD)),
    (1, BarrierWait, B, NEITHER, Answer(0)),
    (1, BarrierDestroy, B, NEITHER, Answer(0)),
    (1, BarrierWait, B, NEITHER, Answer(EINVAL)),
    // A barrier of one opens at once.
    (1, BarrierInit, [BARRIER, 0, 1], NEITHER, Answer(0)),
    (1, BarrierWait, B, NEITHER, Answer(SERIAL_THREAD)),
];

const ONE_ROUTINE: [Call; 5] = [
    (0, Once, ROUTINE, NEITHER, Deep),
    (0, Once, ROUTINE, FREE, Begin),
    // By another thread, and by the routine itself.
    (1, Once, ROUTINE, FREE, Waits),
    (0, Once, ROUTINE, FREE, Waits),
    (1, Once, OTHER_ROUTINE, FREE, Begin),
];

const AFTER_IT: [Call; 2] = [
    (1, Once, ROUTINE, NEITHER, Answer(0)),
    (1, Once, OTHER_ROUTINE, FREE, Waits),
];

/// Makes the calls in turn. Each call that waits is told beforehand.
fn make(rt: &impl Abort, rooms: &mut Rooms, calls: &[Call]) -> Result<(), AllocError> {
    for (i, (t, name, args, (holds, free), outcome)) in calls.iter().enumerate() {
        rooms.reserve()?;
        let waits = rooms.waits(*t, *name, *args, *holds, *free);
        assert!(rt; rooms.rounds() < 1_000);
        let came = rooms.ask(*t, *name, *args, *holds, *free);
        assert_eq!(rt; came, *outcome, "call {i}");
        assert_eq!(rt; waits, came == Outcome::Waits, "call {i}");
    }
    Ok(())
}

#[test]
fn condition_variables(rt: HostRuntime) -> Result<(), Fail> {
    let mut rooms = Rooms::make(rt.alloc())?;
    make(&rt, &mut rooms, &WAKING)?;
    Ok(())
}

#[test]
fn barriers(rt: HostRuntime) -> Result<(), Fail> {
    let mut rooms = Rooms::make(rt.alloc())?;
    make(&rt, &mut rooms, &FIRST_ROUND)?;
    assert_eq!(rt; rooms.round(0, BARRIER), Some(0));
    make(&rt, &mut rooms, &OPENING)?;
    // Thread 0 passed the first round, and the barrier is in the second.
    assert_eq!(rt; rooms.round(0, BARRIER), Some(0));
    assert_eq!(rt; rooms.round(1, BARRIER), Some(1));
    make(&rt, &mut rooms, &SECOND_ROUND)?;
    assert_eq!(rt; rooms.round(0, COND), None);
    assert_eq!(rt; rooms.round(0, BARRIER), Some(4));
    Ok(())
}

#[test]
fn once(rt: HostRuntime) -> Result<(), Fail> {
    let mut rooms = Rooms::make(rt.alloc())?;
    make(&rt, &mut rooms, &ONE_ROUTINE)?;
    assert!(rt; rooms.is_running(CONTROL));
    rooms.finish(CONTROL);
    make(&rt, &mut rooms, &AFTER_IT)?;
    assert!(rt; !rooms.is_running(CONTROL));
    Ok(())
}

#[test]
fn many(rt: HostRuntime) -> Result<(), Fail> {
    let mut rooms = Rooms::make(rt.alloc())?;
    for t in 0..64u32 {
        make(&rt, &mut rooms, &[(t * 65, CondWait, WAIT, HOLDS, Sleep)])?;
        let b = BARRIER + 8 * u64::from(t % 7);
        make(
            &rt,
            &mut rooms,
            &[(0, BarrierInit, [b, 0, 2], NEITHER, Answer(0))],
        )?;
    }
    make(&rt, &mut rooms, &[(7, CondBroadcast, C, HOLDS, Answer(0))])?;
    for t in 0..64u32 {
        make(
            &rt,
            &mut rooms,
            &[(t * 65, CondWait, WAIT, FREE, Wake { mutex: MUTEX })],
        )?;
    }
    assert_eq!(rt; rooms.round(0, BARRIER), Some(63));
    Ok(())
}
