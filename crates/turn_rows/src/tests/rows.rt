//! Programs turn by turn, with the journals that a slow model gives.

ghost use Rattle.turn_rows.specs.Good.{IsGood};

use crate::tests::blocks::lifted_at;
use crate::tests::engine::HeldParts;
use crate::tests::lifters::CountingLifter;
use crate::tests::programs::{
    DIVIDES, EXITS, LATE_TARGET, LOCKS_TWICE, Program, SPINS, TWO_THREADS, TWO_THREADS_RUN, WRITES,
    image,
};
use crate::tests::run::Run;
use ir_syntax::Part;
use journal_pack::Entry::{self, Ev, Flush, Grow, Miss, Over, Tick};
use lib_table::BadKind;
use machine_model::ending::RunEnd;
use std::alloc::Global;
use std::test::Fail;
use thread_step::Turned::{self, Ended, Idle, Ran, Waiting};

/// A program whose turns are those of slot 0, and what they come to.
#[derive(Clone, Copy)]
struct Row {
    name: &'static str,
    program: Program,
    limit: u16,
    strict: bool,
    grown: bool,
    turn: u32,
    answers: &'static [Turned],
    ending: Option<RunEnd>,
    out: &'static [u8],
    journal: &'static [Entry],
}

// Turns of a strict run, of 1,024 entries.
const TURN: Row = Row {
    name: "",
    program: EXITS,
    limit: 100,
    strict: true,
    grown: true,
    turn: 1024,
    answers: &[Ended],
    ending: None,
    out: &[],
    journal: &[],
};

static ROWS: [Row; 8] = [
    Row {
        name: "a program exits, and there is nothing more",
        answers: &[Ended, Ended],
        ending: Some(RunEnd::Exit(7)),
        journal: &[Ev(0, 2)],
        ..TURN
    },
    Row {
        name: "it grows what it misses",
        strict: false,
        grown: false,
        ending: Some(RunEnd::Exit(7)),
        journal: &[Miss(0, 0, 0, 0x40_1000), Grow(0, 0x40_1000), Ev(0, 2)],
        ..TURN
    },
    Row {
        name: "a budget of 1",
        strict: false,
        grown: false,
        turn: 1,
        answers: &[Ran, Ended],
        ending: Some(RunEnd::Exit(7)),
        journal: &[Miss(0, 0, 0, 0x40_1000), Grow(0, 0x40_1000), Ev(0, 2)],
        ..TURN
    },
    Row {
        name: "it spins to the limit",
        program: SPINS,
        limit: 20_000,
        turn: 2,
        answers: &[Ran, Ran, Ended],
        ending: Some(RunEnd::Steps),
        journal: &[
            Tick(0, 4096),
            Tick(0, 4096),
            Tick(0, 4096),
            Tick(0, 4096),
            Over(0, 3616),
        ],
        ..TURN
    },
    Row {
        name: "it writes and exits",
        program: WRITES,
        ending: Some(RunEnd::Exit(0)),
        out: &[0x68, 0x69, 0x0a],
        journal: &[Ev(0, 3), Flush(0), Ev(0, 0), Ev(0, 1), Flush(0), Ev(0, 0)],
        ..TURN
    },
    Row {
        name: "it waits for its own mutex",
        program: LOCKS_TWICE,
        answers: &[Waiting, Waiting],
        journal: &[Ev(0, 1), Flush(0), Ev(0, 0), Ev(0, 1), Flush(0)],
        ..TURN
    },
    Row {
        name: "a division goes wrong",
        program: DIVIDES,
        ending: Some(RunEnd::Fault {
            thread: 0,
            rip: 0x40_1013,
            kind: BadKind::Divide,
        }),
        journal: &[Ev(0, 3)],
        ..TURN
    },
    // The flags of a compare are kept for a target that is grown after the block that has it: al is 1.
    Row {
        name: "a target is grown late",
        program: LATE_TARGET,
        strict: false,
        ending: Some(RunEnd::Exit(1)),
        journal: &[
            Ev(0, 0),
            Miss(0, 4, 0x40_102a, 0x40_1040),
            Grow(0, 0x40_1040),
            Ev(0, 1),
            Flush(0),
            Ev(0, 3),
        ],
        ..TURN
    },
];

// Whether turns answer so and write this journal.
fn goes(alloc: Global, run: Run, answers: &[Turned], journal: &[Entry]) -> Result<bool, Fail>
    requires { IsGood run.hall run.guest run.other run.rules }
{
    let mut run = run;
    for answer in answers {
        let (next, turned) = run.turn()?;
        run = next;
        if turned != *answer {
            return Ok(false);
        }
    }
    let entries = run.into_entries(alloc)?;
    Ok(entries.as_slice() == journal)
}

// Whether a run's end and output are those of a row.
fn ends_as(run: &Run, row: &Row) -> bool {
    run.hall.ending().copied() == row.ending && run.hall.out1() == row.out
}

// Whether the turns of a row answer as it says, and leave what it says.
fn is_row(alloc: Global, row: &Row) -> Result<bool, Fail> {
    let turn = row.turn;
    if turn == 0 || turn > 65_536 {
        return Err("a turn's length".into());
    }
    let mut run = Run::make(
        alloc,
        &row.program,
        row.limit,
        row.strict,
        row.grown,
        turn,
        2,
    )?;
    for answer in row.answers {
        let (next, turned) = run.turn()?;
        run = next;
        if turned != *answer {
            return Ok(false);
        }
    }
    if !ends_as(&run, row) {
        return Ok(false);
    }
    let entries = run.into_entries(alloc)?;
    Ok(entries.as_slice() == row.journal)
}

#[test]
fn turns_of_one_thread(rt: HostRuntime) -> Result<(), Fail> {
    for row in &ROWS {
        assert!(rt; is_row(rt.alloc(), row)?, "{}", row.name);
    }
    Ok(())
}

// Whether thread 0 waits for the end of thread 1, whose life ends in its first turn, and goes on after it.
fn waits_for_a_thread(alloc: Global) -> Result<bool, Fail> {
    let run = Run::make(alloc, &TWO_THREADS, 100, false, true, 1024, 2)?;
    let (run, first) = run.turn()?;
    let (run, second) = run.swap().turn()?;
    let (run, third) = run.turn()?;
    if first != Waiting || second != Ran || third != Idle {
        return Ok(false);
    }
    goes(alloc, run.swap(), &[Ended], &TWO_THREADS_RUN)
}

#[test]
fn a_thread_ends(rt: HostRuntime) -> Result<(), Fail> {
    assert!(rt; waits_for_a_thread(rt.alloc())?);
    Ok(())
}

// The parts of the blocks that were lifted at 0x401000 and at 0x401014.
fn parts_of(alloc: Global) -> Result<Vec<Part>, Fail> {
    let image = image(alloc, &WRITES)?;
    let mut parts = Vec::new(alloc);
    for at in [0x40_1000, 0x40_1014] {
        let block = lifted_at(alloc, &image, at)?;
        for part in block.parts.into_vec() {
            parts.push(part)?;
        }
    }
    Ok(parts)
}

// Whether an engine is handed these parts in their order, in a turn that asks for no block.
fn are_handed(alloc: Global, parts: Vec<Part>) -> Result<bool, Fail> {
    let mut engine = HeldParts::make(alloc, parts);
    let lifter = CountingLifter::make(alloc, 0, 0);
    let run = Run::make(alloc, &WRITES, 100, true, true, 1024, 2)?;
    let (run, turned) = run.turn_by(&lifter, &mut engine)?;
    if turned != Ended || run.hall.ending() != Some(&RunEnd::Exit(0)) {
        return Ok(false);
    }
    Ok(engine.count() == 6 && engine.as_held() && lifter.lifts() == 0)
}

#[test]
fn an_engine_is_handed_the_parts_in_order(rt: HostRuntime) -> Result<(), Fail> {
    let parts = parts_of(rt.alloc())?;
    assert_eq!(rt; parts.len(), 6);
    assert!(rt; are_handed(rt.alloc(), parts)?);
    Ok(())
}

// Whether a run goes on in its second turn, where memory is wanting in the first one at these calls of the lifter.
fn goes_on(alloc: Global, lift: u64, onward: u64) -> Result<bool, Fail> {
    let run = Run::make(alloc, &EXITS, 100, false, false, 1024, 2)?;
    let lifter = CountingLifter::make(alloc, lift, onward);
    let (run, turned) = run.try_turn(&lifter)?;
    if turned.is_some() {
        return Ok(false);
    }
    let journal = [Miss(0, 0, 0, 0x40_1000), Grow(0, 0x40_1000), Ev(0, 2)];
    goes(alloc, run, &[Ended], &journal)
}

// Memory is wanting for the block of a miss, or for what is reached from there: nothing was added, and a second turn goes on.
#[test]
fn memory_is_wanting_for_a_miss(rt: HostRuntime) -> Result<(), Fail> {
    assert!(rt; goes_on(rt.alloc(), 1, 0)?);
    assert!(rt; goes_on(rt.alloc(), 0, 1)?);
    Ok(())
}
