//! Worked runs, their journals counted by hand from the instructions, and journals that are no runs.
use crate::tests::programs::{
    BARRIER, ONCE, P1, P2, P3, P6, P7, P8, P8_LAST, Program, REUSE, SPIN, image,
};
use journal_pack::Entry;
use lib_table::BadKind;
use machine_model::case::Case;
use machine_model::ending::RunEnd;
use machine_model::laws;
use machine_plain::{PlainMachine, play_plain};
use miss_report::Miss;
use std::alloc::Global;
use std::sync::Arc;
use std::test::Fail;

// The machine after a journal, where each entry is a step.
fn play(
    alloc: Global,
    program: &Program,
    limit: u16,
    strict: bool,
    journal: &[Entry],
) -> Result<Option<PlainMachine>, Fail> {
    let image = image(alloc, program)?;
    let mut args = Vec::new(alloc);
    args.push(String::from_str(alloc, "p")?)?;
    let case = Case {
        image: Arc::new(alloc, image)?,
        args,
        input: Vec::new(alloc),
        limit: u64::from(limit),
        strict,
        first: Vec::new(alloc),
    };
    Ok(
        play_plain(alloc, &case, journal)
            .ok()
            .ok_or("it is played")?,
    )
}

use Entry::{Dead, Ev, Flush, Grow, Over, Tick, Wait};

// Whether each entry of a journal is a step, and the machine after the last is this one, without second output or thread 1.
fn ends(
    alloc: Global,
    program: &Program,
    limit: u16,
    journal: &[Entry],
    ending: Option<RunEnd>,
    steps: u64,
    out: &[u8],
) -> Result<bool, Fail> {
    let machine = play(alloc, program, limit, false, journal)?.ok_or("each entry is a step")?;
    if machine.ending() != ending || machine.steps() != steps {
        return Ok(false);
    }
    Ok(machine.out1() == out && machine.out2().is_empty() && !machine.is_live(1))
}

#[test]
fn plays_p1(rt: HostRuntime) -> Result<(), Fail> {
    let right = ends(
        rt.alloc(),
        &P1,
        3,
        &[Ev(0, 2)],
        Some(RunEnd::Exit(7)),
        3,
        &[],
    )?;
    assert!(rt; right);
    Ok(())
}

#[test]
fn plays_p2(rt: HostRuntime) -> Result<(), Fail> {
    let right = ends(
        rt.alloc(),
        &P2,
        100,
        &[Ev(0, 3), Flush(0), Ev(0, 0), Ev(0, 1), Flush(0), Ev(0, 0)],
        Some(RunEnd::Exit(0)),
        8,
        &[0x68, 0x69, 0x0a],
    )?;
    assert!(rt; right);
    Ok(())
}

#[test]
fn plays_p3(rt: HostRuntime) -> Result<(), Fail> {
    let right = ends(
        rt.alloc(),
        &P3,
        100,
        &[
            Ev(0, 4),
            Flush(0),
            Ev(0, 0),
            Ev(0, 0),
            Ev(0, 0),
            Ev(0, 1),
            Ev(0, 2),
            Flush(0),
            Flush(0),
            Entry::Miss(1, 0, 0, 0x40_1100),
            Grow(1, 0x40_1100),
            Ev(1, 0),
            Ev(1, 0),
            Ev(1, 1),
            Flush(1),
            Ev(1, 1),
        ],
        None,
        20,
        &[],
    )?;
    assert!(rt; right);
    Ok(())
}

#[test]
fn plays_p6(rt: HostRuntime) -> Result<(), Fail> {
    let divide = RunEnd::Fault {
        thread: 0,
        rip: 0x40_1013,
        kind: BadKind::Divide,
    };
    let right = ends(rt.alloc(), &P6, 100, &[Ev(0, 3)], Some(divide), 4, &[])?;
    assert!(rt; right);
    Ok(())
}

#[test]
fn plays_p7(rt: HostRuntime) -> Result<(), Fail> {
    let right = ends(
        rt.alloc(),
        &P7,
        100,
        &[Ev(0, 1), Flush(0), Ev(0, 0), Ev(0, 1), Flush(0), Dead],
        Some(RunEnd::Deadlock),
        5,
        &[],
    )?;
    assert!(rt; right);
    Ok(())
}

// The second thread's number is 65 and its id 66.
#[test]
fn plays_a_slot_used_twice(rt: HostRuntime) -> Result<(), Fail> {
    let right = ends(
        rt.alloc(),
        &REUSE,
        100,
        &[
            Ev(0, 5),
            Flush(0),
            Ev(0, 0),
            Ev(0, 0),
            Ev(0, 2),
            Flush(0),
            Entry::Miss(1, 0, 0, 0x40_1100),
            Grow(1, 0x40_1100),
            Ev(1, 0),
            Ev(1, 1),
            Ev(1, 1),
            Ev(0, 0),
            Ev(0, 7),
            Flush(0),
            Ev(0, 0),
            Ev(0, 0),
            Ev(0, 2),
            Flush(0),
            Ev(65, 0),
            Ev(65, 1),
            Ev(65, 1),
            Ev(0, 0),
            Ev(0, 3),
            Ev(0, 2),
        ],
        Some(RunEnd::Exit(66)),
        44,
        &[],
    )?;
    assert!(rt; right);
    Ok(())
}

#[test]
fn plays_a_barrier_of_one(rt: HostRuntime) -> Result<(), Fail> {
    let right = ends(
        rt.alloc(),
        &BARRIER,
        100,
        &[
            Ev(0, 3),
            Flush(0),
            Ev(0, 0),
            Ev(0, 1),
            Flush(0),
            Ev(0, 0),
            Ev(0, 2),
        ],
        Some(RunEnd::Exit(0xffff_ffff)),
        11,
        &[],
    )?;
    assert!(rt; right);
    Ok(())
}

#[test]
fn plays_a_routine_that_asks_for_itself(rt: HostRuntime) -> Result<(), Fail> {
    let right = ends(
        rt.alloc(),
        &ONCE,
        100,
        &[
            Ev(0, 2),
            Flush(0),
            Ev(0, 0),
            Entry::Miss(0, 0, 0x40_100a, 0x40_1100),
            Grow(0, 0x40_1100),
            Grow(0, 0x40_110f),
            Ev(0, 2),
            Flush(0),
            Dead,
        ],
        Some(RunEnd::Deadlock),
        8,
        &[],
    )?;
    assert!(rt; right);
    Ok(())
}

#[test]
fn plays_to_the_limit(rt: HostRuntime) -> Result<(), Fail> {
    let right = ends(
        rt.alloc(),
        &SPIN,
        1000,
        &[Over(0, 1000)],
        Some(RunEnd::Steps),
        1000,
        &[],
    )?;
    assert!(rt; right);
    Ok(())
}

// A thread of P8 from the flush of the last call's return address to its join: created, counting, ended, joined.
fn push_thread(journal: &mut Vec<Entry>, t: u32) -> Result<(), Fail> {
    for e in [Flush(0), Ev(0, 0), Ev(0, 0), Ev(0, 2), Flush(0)] {
        journal.push(e)?;
    }
    if t == 1 {
        journal.push(Entry::Miss(1, 0, 0, 0x40_1100))?;
        journal.push(Grow(1, 0x40_1100))?;
    }
    for e in [Ev(t, 0), Ev(t, 1), Ev(t, 1), Ev(0, 0)] {
        journal.push(e)?;
    }
    Ok(())
}

/// The journal of P8: a hundred threads one after another, all in slot 1.
pub fn a_hundred_threads(alloc: Global) -> Result<Vec<Entry>, Fail> {
    let mut journal = Vec::new(alloc);
    for i in 0..100u32 {
        journal.push(Ev(0, if i == 0 { 5 } else { 7 }))?;
        push_thread(&mut journal, 1 + 64 * i)?;
    }
    journal.push(Ev(0, 3))?;
    journal.push(Ev(0, 2))?;
    Ok(journal)
}

// The last of the hundred threads has number 6,337 and id 6,338, and a status of 194.
#[test]
fn plays_a_hundred_threads_of_one_slot(rt: HostRuntime) -> Result<(), Fail> {
    let alloc = rt.alloc();
    let journal = a_hundred_threads(alloc)?;
    for (program, ending) in [(&P8, RunEnd::Exit(100)), (&P8_LAST, RunEnd::Exit(6_338))] {
        let machine = play(alloc, program, 10_000, false, &journal)?.ok_or("it is a run")?;
        assert!(rt; machine.ending() == Some(ending));
    }
    Ok(())
}

// Journals one of whose entries is no step, each with the reason.
fn refused(alloc: Global, strict: bool, rows: &[(&str, &Program, &[Entry])]) -> Result<bool, Fail> {
    for (_, program, journal) in rows {
        if play(alloc, program, 100, strict, journal)?.is_some() {
            return Ok(false);
        }
    }
    Ok(true)
}

#[test]
fn refuses_threads_and_private_steps(rt: HostRuntime) -> Result<(), Fail> {
    let rows: [(&str, &Program, &[Entry]); 8] = [
        ("a thread that isn't born", &P1, &[Ev(1, 2)]),
        ("no thread", &P1, &[Ev(64, 2)]),
        ("a private step is left", &P1, &[Ev(0, 1)]),
        ("too many private steps", &P1, &[Ev(0, 3)]),
        ("more than 4,096 private steps", &SPIN, &[Tick(0, 4097)]),
        ("no private step", &SPIN, &[Tick(0, 0)]),
        ("below the limit", &P1, &[Over(0, 2)]),
        ("at the limit", &SPIN, &[Tick(0, 100)]),
    ];
    assert!(rt; refused(rt.alloc(), false, &rows)?);
    Ok(())
}

#[test]
fn refuses_waiting_writes_and_calls(rt: HostRuntime) -> Result<(), Fail> {
    let rows: [(&str, &Program, &[Entry]); 8] = [
        ("no write waits", &P1, &[Flush(0)]),
        ("a call over waiting writes", &P2, &[Ev(0, 3), Ev(0, 0)]),
        ("no second write", &P2, &[Ev(0, 3), Flush(0), Flush(0)]),
        (
            "a write waits",
            &P7,
            &[Ev(0, 1), Flush(0), Ev(0, 0), Ev(0, 1), Dead],
        ),
        (
            "the call waits",
            &P7,
            &[Ev(0, 1), Flush(0), Ev(0, 0), Ev(0, 1), Flush(0), Ev(0, 0)],
        ),
        (
            "no private step",
            &P7,
            &[Ev(0, 1), Flush(0), Ev(0, 0), Ev(0, 1), Flush(0), Wait(0, 0)],
        ),
        ("the call doesn't wait", &P7, &[Ev(0, 1), Flush(0), Dead]),
        ("after the ending", &P1, &[Ev(0, 2), Ev(0, 0)]),
    ];
    assert!(rt; refused(rt.alloc(), false, &rows)?);
    Ok(())
}

#[test]
fn refuses_misses_and_growth(rt: HostRuntime) -> Result<(), Fail> {
    let rows: [(&str, &Program, &[Entry]); 4] = [
        ("another source", &P1, &[Entry::Miss(0, 0, 1, 0x40_1000)]),
        ("another target", &P1, &[Entry::Miss(0, 0, 0, 0x40_1005)]),
        (
            "no code place",
            &P1,
            &[Entry::Miss(0, 2, 0x40_1005, 0x40_1f00)],
        ),
        ("growth of a library place", &P1, &[Grow(0, 0x40_1f00)]),
    ];
    assert!(rt; refused(rt.alloc(), false, &rows)?);
    let strict: [(&str, &Program, &[Entry]); 3] = [
        ("growth", &P1, &[Grow(0, 0x40_1000)]),
        ("full", &P1, &[Entry::Full(0)]),
        (
            "after a miss",
            &P1,
            &[Entry::Miss(0, 0, 0, 0x40_1000), Ev(0, 2)],
        ),
    ];
    assert!(rt; refused(rt.alloc(), true, &strict)?);
    Ok(())
}

#[test]
fn ends_at_a_strict_miss_and_where_it_is_full(rt: HostRuntime) -> Result<(), Fail> {
    let miss = Miss {
        thread: 0,
        source: 0x40_1000,
        target: 0x40_1005,
    };
    let entry = Entry::Miss(0, 1, 0x40_1000, 0x40_1005);
    let strict = play(rt.alloc(), &P1, 100, true, &[entry])?.ok_or("it is a step")?;
    assert!(rt; strict.ending() == Some(RunEnd::Miss(miss)));
    assert_eq!(rt; strict.steps(), 2);
    let full = play(rt.alloc(), &P1, 100, false, &[Tick(0, 1), Entry::Full(0)])?.ok_or(
        "it is a step",
    )?;
    let ending = RunEnd::Full {
        thread: 0,
        place: 0x40_1005,
    };
    assert!(rt; full.ending() == Some(ending));
    Ok(())
}

#[test]
fn laws_are_called(_: HostRuntime) {
    laws::played_step_by_step();
    laws::nothing_after_an_ending();
    laws::sized_from_the_start();
    laws::other_threads_stay();
    laws::calls_back();
    laws::numbers_fit();
    laws::requests_can_be_asked();
    laws::gated_is_bounded();
    laws::gated_step_by_step();
    laws::grown_once();
    laws::untouched_by_others();
}
