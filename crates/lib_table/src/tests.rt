//! Worked rows.

ghost use Rattle.std.specs.Prelude.{◌≡◌, true};
ghost use Rattle.lib_table.specs.Steps.{HasLeft, HasRunning, RunsRoutine};

use crate::{
    Ask, Asked, BadKind, Birth, Called, EAGAIN, EBUSY, EDEADLK, EINVAL, EPERM, ESRCH, FAILED,
    Library, Life, Stepped, lib_step, waits,
};
use callbacks::{Frame, begin_once};
use elf_image::Function;
use std::alloc::{AllocError, Global};
use std::process::Abort;
use std::test::Fail;
use tso_memory::{Piece, Tso, Width};

/// Where the rows' stack pointer stands, and the return address there.
const RSP: u64 = 0x7000_0001_0000;

const BACK: u64 = 0x401010;

/// A place for ids and bytes, a place without W, and the address of a mutex.
const DATA: u64 = 0x7000_0000_1000;

const NOWHERE: u64 = 0x401000;

const MUTEX: u64 = 0x402000;

/// Objects of different kinds may have one address.
const OTHER: u64 = 0x402040;

const COND: u64 = MUTEX;

const BARRIER: u64 = MUTEX;

const CONTROL: u64 = MUTEX;

const START: u64 = 0x401100;

/// What comes of a call: it returns a value, it waits, or the thread waits from now on.
#[derive(Clone, Copy)]
enum Comes {
    Back(u64),
    Waits,
    Stay,
}

use Comes::{Back, Stay, Waits};

/// A call by a thread, and what comes of it.
type Row = (u32, Function, [u64; 5], Comes);

/// Rows until thread 1 ends.
const WITH_TWO: [Row; 15] = [
    (
        0,
        Function::PthreadCreate,
        [DATA, 1, START, 5, 0],
        Back(EINVAL),
    ),
    (0, Function::PthreadCreate, [DATA, 0, START, 5, 0], Back(0)),
    (1, Function::PthreadSelf, [0, 0, 0, 0, 0], Back(2)),
    (0, Function::MutexInit, [MUTEX, 1, 0, 0, 0], Back(EINVAL)),
    (0, Function::MutexLock, [MUTEX, 0, 0, 0, 0], Back(0)),
    (0, Function::MutexInit, [MUTEX, 0, 0, 0, 0], Back(EBUSY)),
    (0, Function::MutexLock, [MUTEX, 0, 0, 0, 0], Waits),
    (1, Function::MutexTrylock, [MUTEX, 0, 0, 0, 0], Back(EBUSY)),
    (1, Function::MutexUnlock, [MUTEX, 0, 0, 0, 0], Back(EPERM)),
    (0, Function::MutexDestroy, [MUTEX, 0, 0, 0, 0], Back(EBUSY)),
    (0, Function::MutexUnlock, [MUTEX, 0, 0, 0, 0], Back(0)),
    (0, Function::MutexDestroy, [MUTEX, 0, 0, 0, 0], Back(0)),
    (0, Function::PthreadJoin, [1, 0, 0, 0, 0], Back(EDEADLK)),
    (0, Function::PthreadJoin, [65, 0, 0, 0, 0], Back(ESRCH)),
    (0, Function::PthreadJoin, [2, DATA, 0, 0, 0], Waits),
];

/// Rows after that. Thread 1 ended with 7, and the input is of three bytes.
const WITH_ONE: [Row; 8] = [
    (0, Function::PthreadJoin, [2, DATA, 0, 0, 0], Back(0)),
    (0, Function::PthreadJoin, [2, DATA, 0, 0, 0], Back(ESRCH)),
    (0, Function::Bsearch, [1, DATA, 0, 4, 0], Back(0)),
    (0, Function::Write, [3, RSP, 1, 0, 0], Back(FAILED)),
    (0, Function::Write, [1, RSP, 5_000, 0, 0], Back(4_096)),
    (0, Function::Write, [2, DATA, 1, 0, 0], Back(1)),
    (0, Function::Read, [0, DATA, 100, 0, 0], Back(3)),
    (0, Function::Read, [0, DATA, 100, 0, 0], Back(0)),
];

/// Rows of threads 0 and 1 at a barrier.
const AT_BARRIER: [Row; 9] = [
    (
        0,
        Function::BarrierWait,
        [BARRIER, 0, 0, 0, 0],
        Back(EINVAL),
    ),
    (
        0,
        Function::BarrierInit,
        [BARRIER, 0, 0, 0, 0],
        Back(EINVAL),
    ),
    (0, Function::BarrierInit, [BARRIER, 0, 2, 0, 0], Back(0)),
    (0, Function::BarrierWait, [BARRIER, 0, 0, 0, 0], Stay),
    (0, Function::BarrierWait, [BARRIER, 0, 0, 0, 0], Waits),
    (
        0,
        Function::BarrierDestroy,
        [BARRIER, 0, 0, 0, 0],
        Back(EBUSY),
    ),
    (
        1,
        Function::BarrierWait,
        [BARRIER, 0, 0, 0, 0],
        Back(u64::MAX),
    ),
    (0, Function::BarrierWait, [BARRIER, 0, 0, 0, 0], Back(0)),
    (0, Function::BarrierDestroy, [BARRIER, 0, 0, 0, 0], Back(0)),
];

/// Rows of threads 0 and 1 at a condition variable.
const AT_CONDITION: [Row; 17] = [
    (0, Function::CondInit, [COND, 0, 0, 0, 0], Back(0)),
    (0, Function::CondWait, [COND, MUTEX, 0, 0, 0], Back(EPERM)),
    (0, Function::MutexLock, [MUTEX, 0, 0, 0, 0], Back(0)),
    (0, Function::CondWait, [COND, MUTEX, 0, 0, 0], Stay),
    (0, Function::CondWait, [COND, MUTEX, 0, 0, 0], Waits),
    (0, Function::CondDestroy, [COND, 0, 0, 0, 0], Back(EBUSY)),
    (1, Function::MutexLock, [MUTEX, 0, 0, 0, 0], Back(0)),
    (1, Function::MutexLock, [OTHER, 0, 0, 0, 0], Back(0)),
    (1, Function::CondWait, [COND, OTHER, 0, 0, 0], Back(EINVAL)),
    (1, Function::MutexUnlock, [OTHER, 0, 0, 0, 0], Back(0)),
    (1, Function::CondSignal, [COND, 0, 0, 0, 0], Back(0)),
    (0, Function::CondWait, [COND, MUTEX, 0, 0, 0], Waits),
    (1, Function::MutexUnlock, [MUTEX, 0, 0, 0, 0], Back(0)),
    (0, Function::CondWait, [COND, MUTEX, 0, 0, 0], Back(0)),
    (1, Function::MutexTrylock, [MUTEX, 0, 0, 0, 0], Back(EBUSY)),
    (0, Function::MutexUnlock, [MUTEX, 0, 0, 0, 0], Back(0)),
    (0, Function::CondBroadcast, [COND, 0, 0, 0, 0], Back(0)),
];

/// The stacks' addresses, all to read and to write.
fn stacks(alloc: Global) -> Result<Tso, AllocError> {
    let mut pieces = Vec::new(alloc);
    pieces.push(Piece {
        at: 0x7000_0000_0000,
        r: true,
        w: true,
        bytes: vec![in alloc; 0; 0x80_0000]?,
    })?;
    Tso::make(alloc, pieces)
}

/// A call.
fn ask(function: Function, args: [u64; 5]) -> Ask {
    Ask {
        what: Asked::Lib(function),
        args,
        rsp: RSP,
        rax: 0,
        depth: 0,
        top: None,
    }
}

/// A return to a door with rax, from a search if one is under way.
fn door(what: Asked, rax: u64, top: Option<Frame>) -> Ask {
    Ask {
        what,
        args: [0; 5],
        rsp: RSP,
        rax,
        depth: 0,
        top,
    }
}

fn back(rax: u64) -> Stepped {
    Stepped::Done(Called::Back {
        rax,
        rsp: RSP + 8,
        rip: BACK,
        popped: false,
    })
}

fn has_left(ask: &Ask) -> bool
    ensures { result ≡ true → HasLeft ask.now.top }
{
    match ask.top {
        Some(frame) => frame.lo < frame.hi,
        None => true,
    }
}

fn runs(library: &Library, control: Option<u64>) -> bool
    ensures { result ≡ true → HasRunning library.now.rooms control }
{
    match control {
        Some(c) => library.is_running(c),
        None => true,
    }
}

fn runs_routine(library: &Library, ask: &Ask) -> bool
    ensures { result ≡ true → RunsRoutine library.now.rooms ask.now.top }
{
    match ask.top {
        Some(frame) => runs(library, frame.once()),
        None => true,
    }
}

/// One request, where it can be made.
fn step<R: Abort>(
    rt: &R,
    library: &mut Library,
    memory: &mut Tso,
    t: u32,
    ask: &Ask,
) -> Result<Stepped, AllocError> {
    assert!(rt; library.is_live(t));
    assert!(rt; has_left(ask));
    assert!(rt; runs_routine(library, ask));
    assert!(rt; library.has_numbers());
    assert!(rt; library.rounds() < u64::MAX);
    lib_step(library, memory, t, ask)
}

/// One request that ends or goes on otherwise than by a return.
fn check_one<R: Abort>(
    rt: &R,
    library: &mut Library,
    memory: &mut Tso,
    t: u32,
    ask: &Ask,
    expected: Stepped,
) -> Result<(), AllocError> {
    let stepped = step(rt, library, memory, t, ask)?;
    assert!(rt; stepped == expected, "{ask:?}");
    Ok(())
}

fn check_rows<R: Abort>(
    rt: &R,
    library: &mut Library,
    memory: &mut Tso,
    rows: &[Row],
) -> Result<(), AllocError> {
    for (t, function, args, answer) in rows {
        let ask = ask(*function, *args);
        let stands = waits(library, memory, *t, &ask);
        assert!(rt; stands == matches!(answer, Waits), "{ask:?}");
        let expected = match answer {
            Back(rax) => back(*rax),
            Waits => Stepped::Waits,
            Stay => Stepped::Done(Called::Stay),
        };
        check_one(rt, library, memory, *t, &ask, expected)?;
    }
    Ok(())
}

/// `bsearch` among one element, too deep and then answered.
fn check_search<R: Abort>(
    rt: &R,
    library: &mut Library,
    memory: &mut Tso,
) -> Result<(), AllocError> {
    let mut call = ask(Function::Bsearch, [1, DATA, 1, 4, START]);
    call.depth = 16;
    check_one(rt, library, memory, 0, &call, Stepped::Bad(BadKind::Depth))?;
    call.depth = 15;
    let frame = Frame {
        key: 1,
        base: DATA,
        lo: 0,
        hi: 1,
        size: 4,
        compar: START,
        rsp: RSP,
        back: BACK,
        control: None,
    };
    let probe = Called::Probe { frame, place: DATA };
    check_one(rt, library, memory, 0, &call, Stepped::Done(probe))?;
    let equal = door(Asked::CallDoor, 0x1_0000_0000, Some(frame));
    let found = Called::Back {
        rax: DATA,
        rsp: RSP + 8,
        rip: BACK,
        popped: true,
    };
    check_one(rt, library, memory, 0, &equal, Stepped::Done(found))?;
    let nothing = door(Asked::CallDoor, 0, None);
    check_one(
        rt,
        library,
        memory,
        0,
        &nothing,
        Stepped::Bad(BadKind::Door),
    )
}

/// `pthread_once`, too deep, begun by thread 0, and done.
fn check_once<R: Abort>(rt: &R, library: &mut Library, memory: &mut Tso) -> Result<(), AllocError> {
    let mut call = ask(Function::Once, [CONTROL, START, 0, 0, 0]);
    call.depth = 16;
    check_one(rt, library, memory, 0, &call, Stepped::Bad(BadKind::Depth))?;
    call.depth = 15;
    let frame = begin_once(CONTROL, START, RSP, BACK);
    let begun = Called::Probe {
        frame,
        place: START,
    };
    check_one(rt, library, memory, 0, &call, Stepped::Done(begun))?;
    for t in 0..2 {
        assert!(rt; waits(library, memory, t, &call));
        check_one(rt, library, memory, t, &call, Stepped::Waits)?;
    }
    let ran = door(Asked::CallDoor, 5, Some(frame));
    let over = Called::Back {
        rax: 0,
        rsp: RSP + 8,
        rip: BACK,
        popped: true,
    };
    check_one(rt, library, memory, 0, &ran, Stepped::Done(over))?;
    check_one(rt, library, memory, 1, &call, back(0))
}

/// Thread 1 ends, thread 0 can't, and `exit` reads no address.
fn check_ends<R: Abort>(rt: &R, library: &mut Library, memory: &mut Tso) -> Result<(), AllocError> {
    let over = Stepped::Done(Called::Over);
    let end = door(Asked::EndDoor, 7, None);
    check_one(rt, library, memory, 0, &end, Stepped::Bad(BadKind::Door))?;
    check_one(rt, library, memory, 1, &end, over)?;
    let mut exit = ask(Function::Exit, [0; 5]);
    exit.rsp = 0;
    check_one(rt, library, memory, 0, &exit, over)
}

/// Rows of two threads.
fn check_two<R: Abort>(rt: &R, library: &mut Library, memory: &mut Tso) -> Result<(), AllocError> {
    check_rows(rt, library, memory, &WITH_TWO)
}

fn check_barrier<R: Abort>(
    rt: &R,
    library: &mut Library,
    memory: &mut Tso,
) -> Result<(), AllocError> {
    check_rows(rt, library, memory, &AT_BARRIER)
}

fn check_condition<R: Abort>(
    rt: &R,
    library: &mut Library,
    memory: &mut Tso,
) -> Result<(), AllocError> {
    check_rows(rt, library, memory, &AT_CONDITION)
}

/// Rows after thread 1 ended.
fn check_rest<R: Abort>(rt: &R, library: &mut Library, memory: &mut Tso) -> Result<(), AllocError> {
    check_rows(rt, library, memory, &WITH_ONE)
}

/// Thread 1 is born; the rows of both threads.
fn check_both<R: Abort>(rt: &R, library: &mut Library, memory: &mut Tso) -> Result<(), AllocError> {
    let denied = ask(Function::PthreadCreate, [NOWHERE, 0, START, 5, 0]);
    let access = Stepped::Bad(BadKind::Access(NOWHERE));
    check_one(rt, library, memory, 0, &denied, access)?;
    assert!(rt; library.birth(1).is_none());
    check_two(rt, library, memory)?;
    let birth = Birth {
        thread: 1,
        start: START,
        argument: 5,
    };
    assert!(rt; library.birth(1) == Some(birth));
    check_barrier(rt, library, memory)?;
    check_condition(rt, library, memory)
}

/// What follows it: one-time initialisation, the ends, searches, and what was written.
fn check_later<R: Abort>(
    rt: &R,
    library: &mut Library,
    memory: &mut Tso,
) -> Result<(), AllocError> {
    check_once(rt, library, memory)?;
    check_ends(rt, library, memory)?;
    check_rest(rt, library, memory)?;
    check_search(rt, library, memory)?;
    assert!(rt; library.out1().len() == 4_096);
    assert!(rt; library.out2() == b"\x07".as_slice());
    Ok(())
}

// one request after another of one run
#[test]
fn rows(rt: HostRuntime) -> Result<(), Fail> {
    let mut memory = stacks(rt.alloc())?;
    assert!(rt; memory.poke(RSP, &BACK.to_le_bytes()).is_ok());
    let input = Vec::from_slice(rt.alloc(), b"abc".as_slice())?;
    let mut library = Library::make(rt.alloc(), input)?;
    check_both(&rt, &mut library, &mut memory)?;
    check_later(&rt, &mut library, &mut memory)?;
    Ok(())
}

/// Thread 5 takes a mutex, ends, and is joined.
fn check_ended<R: Abort>(
    rt: &R,
    library: &mut Library,
    memory: &mut Tso,
) -> Result<(), AllocError> {
    let lock = ask(Function::MutexLock, [MUTEX, 0, 0, 0, 0]);
    check_one(rt, library, memory, 5, &lock, back(0))?;
    let end = door(Asked::EndDoor, 7, None);
    check_one(rt, library, memory, 5, &end, Stepped::Done(Called::Over))?;
    assert!(rt; library.life(5) == Life::Ended(7));
    assert!(rt; library.thread_in(5).is_none());
    assert!(rt; library.kept_in(5) == Some(5));
    let join = ask(Function::PthreadJoin, [6, 0, 0, 0, 0]);
    check_one(rt, library, memory, 0, &join, back(0))?;
    assert!(rt; library.life(5) == Life::Joined);
    assert!(rt; library.kept_in(5).is_none());
    check_one(rt, library, memory, 0, &join, back(ESRCH))
}

/// Its slot goes to thread 69, which doesn't hold the mutex.
fn check_reused<R: Abort>(
    rt: &R,
    library: &mut Library,
    memory: &mut Tso,
    create: &Ask,
) -> Result<(), AllocError> {
    check_one(rt, library, memory, 0, create, back(0))?;
    assert!(rt; memory.peek_number(DATA, Width::W64).ok() == Some(70));
    assert!(rt; library.thread_in(5) == Some(69));
    assert!(rt; library.kept_in(5) == Some(69));
    let unlock = ask(Function::MutexUnlock, [MUTEX, 0, 0, 0, 0]);
    check_one(rt, library, memory, 69, &unlock, back(EPERM))?;
    assert!(rt; library.round(0, BARRIER).is_none());
    Ok(())
}

#[test]
fn numbers_run_out(rt: HostRuntime) -> Result<(), Fail> {
    let mut memory = stacks(rt.alloc())?;
    assert!(rt; memory.poke(RSP, &BACK.to_le_bytes()).is_ok());
    let mut library = Library::make(rt.alloc(), Vec::new(rt.alloc()))?;
    assert!(rt; library.kept_in(0) == Some(0));
    assert!(rt; library.kept_in(5).is_none());
    assert!(rt; library.kept_in(64).is_none());
    let create = ask(Function::PthreadCreate, [DATA, 0, START, 5, 0]);
    for _ in 1..64 {
        check_one(&rt, &mut library, &mut memory, 0, &create, back(0))?;
    }
    check_one(&rt, &mut library, &mut memory, 0, &create, back(EAGAIN))?;
    check_ended(&rt, &mut library, &mut memory)?;
    check_reused(&rt, &mut library, &mut memory, &create)?;
    Ok(())
}
