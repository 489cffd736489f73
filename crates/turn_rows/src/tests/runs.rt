//! Programs round by round, with the journals that a slow model gives.

use crate::tests::blocks::RowLifter;
use crate::tests::lifters::CountingLifter;
use crate::tests::programs::{
    EXITS, GENERATED, GENERATED_RUN, HUNDRED_THREADS, LOCKS_TWICE, Program, TWO_THREADS,
    TWO_THREADS_RUN, WRITES_ON,
};
use crate::tests::run::hall_of;
use hall_core::Hall;
use ir_runner::{Ran, run_serial};
use ir_syntax::Block;
use journal_pack::Entry::{self, Dead, Ev, Flush, Grow, Miss, Over};
use machine_model::ending::RunEnd;
use mx_outside::MemorySink;
use std::alloc::Global;
use std::test::Fail;
use thread_step::{Lifter, PlainEngine, Rules};

/// A run that was made, and what it left in its sinks.
#[derive(Drop)]
struct Made {
    hall: Hall<Block>,
    ran: Ran,
    out: MemorySink,
    err: MemorySink,
}

// How a run is made: its limit and whether it is strict, how long a turn is, and the calls of its sinks that fail.
#[derive(Clone, Copy)]
struct How<'a> {
    limit: u16,
    strict: bool,
    turn: u32,
    out_fails: &'a [u64],
    err_fails: &'a [u64],
}

// Makes a run, with this lifter.
fn run_by<L: Lifter>(alloc: Global, program: &Program, how: How, lifter: &L) -> Result<Made, Fail> {
    let turn = how.turn;
    if turn == 0 || turn > 65_536 {
        return Err("a turn's length".into());
    }
    let hall = hall_of(alloc, program, how.limit, how.strict, true)?;
    let rules = Rules {
        turn,
        hold: 2,
        strict: how.strict,
    };
    let mut engine = PlainEngine::make();
    let mut out = MemorySink::make(alloc, Vec::from_slice(alloc, how.out_fails)?, 1024);
    let mut err = MemorySink::make(alloc, Vec::from_slice(alloc, how.err_fails)?, 1024);
    let (hall, ran) = run_serial(alloc, hall, lifter, &mut engine, rules, &mut out, &mut err);
    Ok(Made {
        hall,
        ran,
        out,
        err,
    })
}

// Whether a run has this ending and this journal, and wrote these outputs.
fn is_left(
    alloc: Global,
    made: Made,
    ending: Option<RunEnd>,
    journal: &[Entry],
    out: &[u8],
    err: &[u8],
) -> Result<bool, Fail> {
    if made.hall.ending().copied() != ending {
        return Ok(false);
    }
    let run = made.hall.into_run();
    let entries = run.1.entries(alloc)?;
    Ok(entries.as_slice() == journal && made.out.bytes() == out && made.err.bytes() == err)
}

// A run that isn't strict, in turns of 1,024 entries.
const PLAIN: How<'static> = How {
    limit: 20_000,
    strict: false,
    turn: 1024,
    out_fails: &[],
    err_fails: &[],
};

/// A run, how it stops and what it leaves: it ends, or the writes to these of its two sinks fail.
#[derive(Clone, Copy)]
struct Row {
    name: &'static str,
    program: Program,
    how: How<'static>,
    fails: Option<(bool, bool)>,
    ending: Option<RunEnd>,
    journal: &'static [Entry],
    out: &'static [u8],
    err: &'static [u8],
}

// A run that ends without output.
const RUN: Row = Row {
    name: "",
    program: EXITS,
    how: PLAIN,
    fails: None,
    ending: None,
    journal: &[],
    out: &[],
    err: &[],
};

static ROWS: [Row; 6] = [
    Row {
        name: "the limit is reached in a block",
        how: How { limit: 2, ..PLAIN },
        ending: Some(RunEnd::Steps),
        journal: &[Over(0, 2)],
        ..RUN
    },
    Row {
        name: "no thread can go on",
        program: LOCKS_TWICE,
        ending: Some(RunEnd::Deadlock),
        journal: &[Ev(0, 1), Flush(0), Ev(0, 0), Ev(0, 1), Flush(0), Dead],
        ..RUN
    },
    Row {
        name: "two threads take turns",
        program: TWO_THREADS,
        ending: Some(RunEnd::Exit(0)),
        journal: &TWO_THREADS_RUN,
        out: &[0x30, 0x31],
        ..RUN
    },
    Row {
        name: "a generated program",
        program: GENERATED,
        ending: Some(RunEnd::Exit(0)),
        journal: &GENERATED_RUN,
        out: &[3, 0, 0, 0, 0, 0, 0, 0, 3, 0, 0, 0, 0, 0, 0, 0],
        ..RUN
    },
    // Both outputs grow in each round; the first sink fails in the second.
    Row {
        name: "a sink fails",
        program: WRITES_ON,
        how: How {
            limit: 40,
            turn: 4,
            out_fails: &[2],
            ..PLAIN
        },
        fails: Some((true, false)),
        journal: &[
            Ev(0, 3),
            Flush(0),
            Ev(0, 0),
            Ev(0, 1),
            Flush(0),
            Ev(0, 0),
            Ev(0, 4),
            Flush(0),
            Ev(0, 0),
            Ev(0, 1),
            Flush(0),
            Ev(0, 0),
        ],
        out: b"hi\n",
        err: b"hi\nhi\n",
        ..RUN
    },
    Row {
        name: "both sinks fail at once",
        program: WRITES_ON,
        how: How {
            limit: 40,
            turn: 4,
            out_fails: &[1],
            err_fails: &[1],
            ..PLAIN
        },
        fails: Some((true, true)),
        journal: &[Ev(0, 3), Flush(0), Ev(0, 0), Ev(0, 1), Flush(0), Ev(0, 0)],
        ..RUN
    },
];

// Whether a run ended, or stopped with these writes that failed.
fn stops_so(ran: &Ran, fails: Option<(bool, bool)>) -> bool {
    match ran {
        Ran::Ended => fails.is_none(),
        Ran::Stopped { out, err } => fails == Some((*out, *err)),
        Ran::Memory(_) => false,
    }
}

// Whether a run stops as a row says, and leaves what it says.
fn is_row(alloc: Global, row: &Row) -> Result<bool, Fail> {
    let made = run_by(alloc, &row.program, row.how, &RowLifter { alloc })?;
    if !stops_so(&made.ran, row.fails) {
        return Ok(false);
    }
    is_left(alloc, made, row.ending, row.journal, row.out, row.err)
}

#[test]
fn whole_runs(rt: HostRuntime) -> Result<(), Fail> {
    for row in &ROWS {
        assert!(rt; is_row(rt.alloc(), row)?, "{}", row.name);
    }
    Ok(())
}

// What a thread of `HUNDRED_THREADS` brings, from the flush of the last call's return address to its join.
fn push_thread(journal: &mut Vec<Entry>, t: u32) -> Result<(), Fail> {
    for e in [Flush(0), Ev(0, 0), Ev(0, 0), Ev(0, 2), Flush(0)] {
        journal.push(e)?;
    }
    if t == 1 {
        journal.push(Miss(1, 0, 0, 0x40_1100))?;
        journal.push(Grow(1, 0x40_1100))?;
    }
    for e in [Ev(t, 0), Ev(t, 1), Ev(t, 1), Ev(0, 0)] {
        journal.push(e)?;
    }
    Ok(())
}

// The journal of the serial order for `HUNDRED_THREADS`.
fn hundred_threads_run(alloc: Global) -> Result<Vec<Entry>, Fail> {
    let mut journal = Vec::new(alloc);
    for i in 0..100u32 {
        journal.push(Ev(0, if i == 0 { 5 } else { 7 }))?;
        push_thread(&mut journal, 1 + 64 * i)?;
    }
    journal.push(Ev(0, 3))?;
    journal.push(Ev(0, 2))?;
    Ok(journal)
}

// A hundred threads one after another, all in slot 1: the last has number 6,337.
#[test]
fn a_hundred_threads_live_in_one_slot(rt: HostRuntime) -> Result<(), Fail> {
    let journal = hundred_threads_run(rt.alloc())?;
    let lifter = RowLifter { alloc: rt.alloc() };
    let made = run_by(rt.alloc(), &HUNDRED_THREADS, PLAIN, &lifter)?;
    let end = Some(RunEnd::Exit(100));
    assert!(rt; is_left(rt.alloc(), made, end, &journal, &[], &[])?);
    Ok(())
}

// Memory is wanting for the second of the blocks that a miss grows: the journal so far is how the whole one begins.
#[test]
fn memory_is_wanting_in_a_round(rt: HostRuntime) -> Result<(), Fail> {
    let lifter = CountingLifter::make(rt.alloc(), 2, 0);
    let made = run_by(rt.alloc(), &GENERATED, PLAIN, &lifter)?;
    assert!(rt; matches!(made.ran, Ran::Memory(_)));
    assert!(rt; is_left(rt.alloc(), made, None, &GENERATED_RUN[..9], &[], &[])?);
    Ok(())
}

// A run calls `lift` for each place that it grows, at least.
#[test]
fn each_place_that_grows_is_lifted(rt: HostRuntime) -> Result<(), Fail> {
    let one = CountingLifter::make(rt.alloc(), 0, 0);
    let made = run_by(rt.alloc(), &TWO_THREADS, PLAIN, &one)?;
    let end = Some(RunEnd::Exit(0));
    assert!(rt; is_left(rt.alloc(), made, end, &TWO_THREADS_RUN, b"01", &[])?);
    assert!(rt; one.lifts() >= 1);
    let five = CountingLifter::make(rt.alloc(), 0, 0);
    let made = run_by(rt.alloc(), &GENERATED, PLAIN, &five)?;
    assert!(rt; matches!(made.ran, Ran::Ended));
    assert!(rt; five.lifts() >= 5);
    Ok(())
}
