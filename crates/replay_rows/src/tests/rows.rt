//! Journals that are runs, and journals that are none: which entry, and why. What is expected was computed by a model that was
//! written before, from the rules alone.

use crate::tests::following::{
    Outcome, Row, Start, at, case, expect, expect_unspelled, follow, journal_of, refused,
};
use crate::tests::programs::{BARRIER, CROWD, ONCE, ORDER, P1, P2, P3, P7, P8, STORES};
use EntryFault::{Crowded, NoStep, NotGated};
use journal_pack::Entry::{self, Dead, Ev, Flush, Full, Grow, Miss, Over, Tick, Wait};
use lib_table::BadKind;
use machine_model::ending::RunEnd;
use miss_report::Miss as MissData;
use replay_view::{EntryFault, FollowFault};
use std::alloc::Global;
use std::test::Fail;

// The miss of a strict run.
const MISSED: MissData = MissData {
    thread: 0,
    source: 0,
    target: 0x40_1000,
};

#[test]
fn one_block(rt: HostRuntime) -> Result<(), Fail> {
    let rows: [Row; 14] = [
        ("the run", 0, &[Ev(0, 2)], at(3, 1, Some(RunEnd::Exit(7)))),
        (
            "a call with one step left out",
            0,
            &[Ev(0, 1)],
            refused(NoStep(0)),
        ),
        (
            "one private step too many",
            0,
            &[Ev(0, 3)],
            refused(NoStep(0)),
        ),
        (
            "a thread that never lived",
            0,
            &[Ev(1, 2)],
            refused(NoStep(0)),
        ),
        (
            "after the ending",
            0,
            &[Ev(0, 2), Tick(0, 1)],
            refused(NoStep(1)),
        ),
        (
            "private steps alone",
            0,
            &[Tick(0, 2), Ev(0, 0)],
            at(3, 1, Some(RunEnd::Exit(7))),
        ),
        ("no write waits", 0, &[Flush(0)], refused(NoStep(0))),
        (
            "a flush of an unborn thread",
            0,
            &[Flush(1)],
            refused(NoStep(0)),
        ),
        (
            "a wait at a call that goes on",
            0,
            &[Wait(0, 2)],
            refused(NoStep(0)),
        ),
        (
            "the limit is not reached",
            0,
            &[Over(0, 2)],
            refused(NoStep(0)),
        ),
        (
            "a thread that waits for nothing",
            0,
            &[Dead],
            refused(NoStep(0)),
        ),
        (
            "a miss of what is grown",
            0,
            &[Miss(0, 0, 0, 0x40_1000)],
            refused(NotGated(0)),
        ),
        (
            "a miss of a place of the library",
            0,
            &[Miss(0, 2, 0x40_1005, 0x40_1f00)],
            refused(NoStep(0)),
        ),
        (
            "a miss amid a block",
            0,
            &[Miss(0, 1, 0x40_1000, 0x40_1005)],
            refused(NotGated(0)),
        ),
    ];
    for row in rows {
        expect(&rt, rt.alloc(), (&P1, &[0x40_1000], 100, false), &[], row)?;
    }
    Ok(())
}

#[test]
fn the_limit_of_steps(rt: HostRuntime) -> Result<(), Fail> {
    let rows: [Row; 2] = [
        ("the limit", 0, &[Over(0, 2)], at(2, 1, Some(RunEnd::Steps))),
        ("an event at the limit", 0, &[Ev(0, 2)], refused(NoStep(0))),
    ];
    for row in rows {
        expect(&rt, rt.alloc(), (&P1, &[0x40_1000], 2, false), &[], row)?;
    }
    Ok(())
}

#[test]
fn entries_that_no_journal_spells(rt: HostRuntime) -> Result<(), Fail> {
    let locked: [Entry; 6] = [Ev(0, 1), Flush(0), Ev(0, 0), Ev(0, 1), Flush(0), Wait(0, 0)];
    let rows: [(Start<'_>, &[Entry], Outcome); 3] = [
        // no private steps
        (
            (&P1, &[0x40_1000], 100, false),
            &[Tick(0, 0)],
            refused(NoStep(0)),
        ),
        // more of them than there may be
        (
            (&P1, &[0x40_1000], 10000, false),
            &[Tick(0, 4097)],
            refused(NoStep(0)),
        ),
        // a wait without a step
        (
            (&P7, &[0x40_1000, 0x40_100a, 0x40_1014], 100, false),
            &locked,
            refused(NoStep(5)),
        ),
    ];
    for (start, entries, wanted) in rows {
        expect_unspelled(&rt, rt.alloc(), start, entries, wanted)?;
    }
    Ok(())
}

#[test]
fn growth(rt: HostRuntime) -> Result<(), Fail> {
    let rows: [Row; 14] = [
        (
            "a miss from elsewhere",
            0,
            &[Miss(0, 0, 1, 0x40_1000)],
            refused(NoStep(0)),
        ),
        (
            "a miss of another place",
            0,
            &[Miss(0, 0, 0, 0x40_1005)],
            refused(NoStep(0)),
        ),
        ("room is there", 0, &[Full(0)], refused(NotGated(0))),
        ("nothing is grown", 0, &[Ev(0, 2)], refused(NotGated(0))),
        (
            "a miss and its growth",
            0,
            &[Miss(0, 0, 0, 0x40_1000), Grow(0, 0x40_1000), Ev(0, 2)],
            at(4, 1, Some(RunEnd::Exit(7))),
        ),
        (
            "a second miss at once",
            0,
            &[Miss(0, 0, 0, 0x40_1000), Miss(0, 0, 0, 0x40_1000)],
            refused(NotGated(1)),
        ),
        (
            "growth without a miss",
            0,
            &[Grow(0, 0x40_1000)],
            refused(NotGated(0)),
        ),
        (
            "growth twice",
            0,
            &[
                Miss(0, 0, 0, 0x40_1000),
                Grow(0, 0x40_1000),
                Grow(0, 0x40_1000),
            ],
            refused(NotGated(2)),
        ),
        (
            "growth of another place first",
            0,
            &[Miss(0, 0, 0, 0x40_1000), Grow(0, 0x40_1005)],
            refused(NotGated(1)),
        ),
        (
            "growth outside the reach",
            0,
            &[
                Miss(0, 0, 0, 0x40_1000),
                Grow(0, 0x40_1000),
                Grow(0, 0x40_1005),
            ],
            refused(NotGated(2)),
        ),
        (
            "growth of a place of the library",
            0,
            &[
                Miss(0, 0, 0, 0x40_1000),
                Grow(0, 0x40_1000),
                Grow(0, 0x40_1f00),
            ],
            refused(NoStep(2)),
        ),
        (
            "growth of another place than the target",
            0,
            &[Miss(0, 0, 0, 0x40_1000), Grow(0, 0x6fff_ffff_fff0)],
            refused(NotGated(1)),
        ),
        (
            "growth of an unborn thread",
            0,
            &[Miss(0, 0, 0, 0x40_1000), Grow(1, 0x40_1000)],
            refused(NoStep(1)),
        ),
        (
            "growth after a step",
            0,
            &[
                Miss(0, 0, 0, 0x40_1000),
                Grow(0, 0x40_1000),
                Tick(0, 1),
                Grow(0, 0x40_1005),
            ],
            refused(NotGated(3)),
        ),
    ];
    for row in rows {
        expect(&rt, rt.alloc(), (&P1, &[], 100, false), &[], row)?;
    }
    Ok(())
}

#[test]
fn a_strict_run(rt: HostRuntime) -> Result<(), Fail> {
    let rows: [Row; 4] = [
        (
            "a strict miss",
            0,
            &[Miss(0, 0, 0, 0x40_1000)],
            at(1, 0, Some(RunEnd::Miss(MISSED))),
        ),
        (
            "growth in a strict run",
            0,
            &[Grow(0, 0x40_1000)],
            refused(NoStep(0)),
        ),
        ("no room in a strict run", 0, &[Full(0)], refused(NoStep(0))),
        (
            "after a strict miss",
            0,
            &[Miss(0, 0, 0, 0x40_1000), Grow(0, 0x40_1000)],
            refused(NoStep(1)),
        ),
    ];
    for row in rows {
        expect(&rt, rt.alloc(), (&P1, &[], 100, true), &[], row)?;
    }
    Ok(())
}

#[test]
fn the_growth_of_a_reach(rt: HostRuntime) -> Result<(), Fail> {
    let rows: [Row; 2] = [
        (
            "a reach",
            0,
            &[
                Miss(0, 0, 0, 0x40_1000),
                Grow(0, 0x40_1000),
                Grow(0, 0x40_1014),
                Grow(0, 0x40_101b),
                Ev(0, 3),
            ],
            at(5, 3, None),
        ),
        (
            "a reach in another order",
            0,
            &[
                Miss(0, 0, 0, 0x40_1000),
                Grow(0, 0x40_1000),
                Grow(0, 0x40_101b),
                Grow(0, 0x40_1014),
            ],
            at(1, 3, None),
        ),
    ];
    for row in rows {
        expect(&rt, rt.alloc(), (&P2, &[], 100, false), &[], row)?;
    }
    Ok(())
}

#[test]
fn writes_that_wait(rt: HostRuntime) -> Result<(), Fail> {
    let rows: [Row; 4] = [
        (
            "the run",
            0,
            &[Ev(0, 3), Flush(0), Ev(0, 0), Ev(0, 1), Flush(0), Ev(0, 0)],
            at(8, 3, Some(RunEnd::Exit(0))),
        ),
        (
            "a store that waits at a call",
            0,
            &[Ev(0, 3), Ev(0, 0)],
            refused(NoStep(1)),
        ),
        (
            "a write is flushed twice",
            0,
            &[Ev(0, 3), Flush(0), Flush(0)],
            refused(NoStep(2)),
        ),
        (
            "a private step over a call",
            0,
            &[Tick(0, 5)],
            refused(NoStep(0)),
        ),
    ];
    for row in rows {
        expect(
            &rt,
            rt.alloc(),
            (&P2, &[0x40_1000, 0x40_1014, 0x40_101b], 100, false),
            &[],
            row,
        )?;
    }
    Ok(())
}

#[test]
fn older_writes_go_first(rt: HostRuntime) -> Result<(), Fail> {
    let run: [Entry; 7] = [
        Ev(0, 4),
        Flush(0),
        Ev(0, 0),
        Ev(0, 0),
        Ev(0, 0),
        Flush(0),
        Flush(0),
    ];
    let rows: [Row; 4] = [
        (
            "none of the two writes",
            5,
            &[Ev(1, 0), Ev(1, 2)],
            at(12, 3, Some(RunEnd::Exit(0))),
        ),
        (
            "the older write",
            6,
            &[Ev(1, 0), Ev(1, 2)],
            at(12, 3, Some(RunEnd::Exit(1))),
        ),
        (
            "the newer write over it",
            7,
            &[Ev(1, 0), Ev(1, 2)],
            at(12, 3, Some(RunEnd::Exit(2))),
        ),
        ("a third flush", 7, &[Flush(0)], refused(NoStep(7))),
    ];
    for row in rows {
        expect(
            &rt,
            rt.alloc(),
            (&ORDER, &[0x40_1000, 0x40_1013, 0x40_1100], 100, false),
            &run,
            row,
        )?;
    }
    Ok(())
}

#[test]
fn two_threads(rt: HostRuntime) -> Result<(), Fail> {
    let run: [Entry; 26] = [
        Ev(0, 4),
        Flush(0),
        Ev(0, 0),
        Ev(0, 0),
        Ev(0, 0),
        Ev(0, 1),
        Ev(0, 2),
        Flush(0),
        Flush(0),
        Miss(1, 0, 0, 0x40_1100),
        Grow(1, 0x40_1100),
        Ev(1, 0),
        Ev(1, 0),
        Ev(1, 1),
        Flush(1),
        Ev(1, 1),
        Ev(0, 0),
        Ev(0, 1),
        Ev(0, 0),
        Ev(0, 2),
        Ev(0, 3),
        Flush(0),
        Flush(0),
        Flush(0),
        Ev(0, 0),
        Ev(0, 2),
    ];
    let rows: [Row; 10] = [
        ("two threads", 26, &[], at(35, 5, Some(RunEnd::Exit(0)))),
        (
            "another thread before its birth",
            2,
            &[Ev(1, 0)],
            refused(NoStep(2)),
        ),
        ("a load amid its instruction", 8, &[], at(13, 4, None)),
        (
            "a miss of a thread that is new",
            9,
            &[Ev(1, 0)],
            refused(NotGated(9)),
        ),
        (
            "growth of another's miss",
            10,
            &[Grow(0, 0x40_1100)],
            refused(NotGated(10)),
        ),
        (
            "a flush after a miss",
            4,
            &[Miss(1, 0, 0, 0x40_1100), Flush(1)],
            refused(NoStep(5)),
        ),
        (
            "a thread after its end",
            16,
            &[Ev(1, 0)],
            refused(NoStep(16)),
        ),
        ("a join before the end", 9, &[Ev(0, 0)], refused(NoStep(9))),
        ("a wait for a thread", 9, &[Wait(0, 1)], refused(NoStep(9))),
        (
            "the deadlock of one that runs",
            9,
            &[Dead],
            refused(NoStep(9)),
        ),
    ];
    for row in rows {
        expect(
            &rt,
            rt.alloc(),
            (
                &P3,
                &[0x40_1000, 0x40_1013, 0x40_1037, 0x40_1065],
                100,
                false,
            ),
            &run,
            row,
        )?;
    }
    Ok(())
}

#[test]
fn a_mutex(rt: HostRuntime) -> Result<(), Fail> {
    let run: [Entry; 6] = [Ev(0, 1), Flush(0), Ev(0, 0), Ev(0, 1), Flush(0), Dead];
    let rows: [Row; 3] = [
        (
            "a mutex of one thread, twice",
            6,
            &[],
            at(5, 3, Some(RunEnd::Deadlock)),
        ),
        ("a lock that waits", 5, &[Ev(0, 0)], refused(NoStep(5))),
        (
            "a deadlock with a write that waits",
            4,
            &[Dead],
            refused(NoStep(4)),
        ),
    ];
    for row in rows {
        expect(
            &rt,
            rt.alloc(),
            (&P7, &[0x40_1000, 0x40_100a, 0x40_1014], 100, false),
            &run,
            row,
        )?;
    }
    Ok(())
}

#[test]
fn a_thread_after_another(rt: HostRuntime) -> Result<(), Fail> {
    let run: [Entry; 24] = [
        Ev(0, 5),
        Flush(0),
        Ev(0, 0),
        Ev(0, 0),
        Ev(0, 2),
        Flush(0),
        Miss(1, 0, 0, 0x40_1100),
        Grow(1, 0x40_1100),
        Ev(1, 0),
        Ev(1, 1),
        Ev(1, 1),
        Ev(0, 0),
        Ev(0, 7),
        Flush(0),
        Ev(0, 0),
        Ev(0, 0),
        Ev(0, 2),
        Flush(0),
        Ev(65, 0),
        Ev(65, 1),
        Ev(65, 1),
        Ev(0, 0),
        Ev(0, 3),
        Ev(0, 2),
    ];
    let rows: [Row; 2] = [
        (
            "a thread in the slot of an earlier one",
            24,
            &[],
            at(44, 6, Some(RunEnd::Exit(66))),
        ),
        (
            "the earlier thread in its slot",
            18,
            &[Ev(1, 0)],
            refused(NoStep(18)),
        ),
    ];
    for row in rows {
        expect(
            &rt,
            rt.alloc(),
            (
                &P8,
                &[0x40_1000, 0x40_1002, 0x40_1015, 0x40_1024, 0x40_102f],
                100,
                false,
            ),
            &run,
            row,
        )?;
    }
    Ok(())
}

#[test]
fn a_barrier(rt: HostRuntime) -> Result<(), Fail> {
    let rows: [Row; 1] = [(
        "a barrier of one",
        0,
        &[
            Ev(0, 3),
            Flush(0),
            Ev(0, 0),
            Ev(0, 1),
            Flush(0),
            Ev(0, 0),
            Ev(0, 2),
        ],
        at(11, 3, Some(RunEnd::Exit(u32::MAX))),
    )];
    for row in rows {
        expect(
            &rt,
            rt.alloc(),
            (&BARRIER, &[0x40_1000, 0x40_1011, 0x40_101b], 100, false),
            &[],
            row,
        )?;
    }
    Ok(())
}

#[test]
fn a_routine_that_runs_once(rt: HostRuntime) -> Result<(), Fail> {
    let rows: [Row; 1] = [(
        "a routine that runs once",
        0,
        &[
            Ev(0, 2),
            Flush(0),
            Ev(0, 0),
            Miss(0, 0, 0x40_100a, 0x40_1100),
            Grow(0, 0x40_1100),
            Grow(0, 0x40_110f),
            Ev(0, 2),
            Flush(0),
            Dead,
        ],
        at(8, 4, Some(RunEnd::Deadlock)),
    )];
    for row in rows {
        expect(
            &rt,
            rt.alloc(),
            (&ONCE, &[0x40_1000, 0x40_100f], 100, false),
            &[],
            row,
        )?;
    }
    Ok(())
}

// A store, and 63 more.
fn stores(alloc: Global, first: u32, more: u32) -> Result<Vec<Entry>, Fail> {
    let mut entries = Vec::new(alloc);
    entries.push(Ev(0, first))?;
    for _ in 0..63 {
        entries.push(Ev(0, more))?;
    }
    Ok(entries)
}

#[test]
fn a_store_too_many(rt: HostRuntime) -> Result<(), Fail> {
    let run = stores(rt.alloc(), 0, 1)?;
    let rows: [Row; 3] = [
        ("64 writes wait", 64, &[], at(127, 1, None)),
        (
            "one more finds no room",
            64,
            &[Ev(0, 1)],
            refused(Crowded(64)),
        ),
        (
            "one is flushed before",
            64,
            &[Flush(0), Ev(0, 1)],
            at(129, 1, None),
        ),
    ];
    for row in rows {
        expect(
            &rt,
            rt.alloc(),
            (&STORES, &[0x40_1000], 1000, false),
            &run,
            row,
        )?;
    }
    Ok(())
}

#[test]
fn a_store_too_many_that_rights_refuse(rt: HostRuntime) -> Result<(), Fail> {
    let run = stores(rt.alloc(), 1, 2)?;
    let fault = RunEnd::Fault {
        thread: 0,
        rip: 0x40_1018,
        kind: BadKind::Access(0x40_1000),
    };
    let rows: [Row; 2] = [
        ("it finds no room", 64, &[Ev(0, 2)], refused(Crowded(64))),
        (
            "one is flushed before",
            64,
            &[Flush(0), Ev(0, 2)],
            at(194, 4, Some(fault)),
        ),
    ];
    for row in rows {
        expect(
            &rt,
            rt.alloc(),
            (
                &CROWD,
                &[0x40_1000, 0x40_1005, 0x40_1018, 0x40_1023],
                1000,
                false,
            ),
            &run,
            row,
        )?;
    }
    Ok(())
}

#[test]
fn a_part_of_a_journal(rt: HostRuntime) -> Result<(), Fail> {
    let rows: [(&[Entry], u64, Outcome); 4] = [
        (&[Ev(0, 2)], 0, at(0, 1, None)),
        (&[Ev(0, 2)], 1, at(3, 1, Some(RunEnd::Exit(7)))),
        (&[Ev(0, 2)], 2, Outcome::Refused(FollowFault::PastEnd(1))),
        (&[Tick(0, 3)], 2, Outcome::Refused(FollowFault::PastEnd(1))),
    ];
    let case = case(rt.alloc(), (&P1, &[0x40_1000], 100, false))?;
    for (entries, n, wanted) in rows {
        let journal = journal_of(rt.alloc(), entries)?.ok_or("it is spelled")?;
        let told = follow(rt.alloc(), &case, &journal, n)?;
        assert!(rt; told == wanted, "{n}: {told:?}");
    }
    Ok(())
}
