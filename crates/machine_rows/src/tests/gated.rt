//! Journals that are gated, and some that aren't.

use crate::tests::programs::{P2, P3, Program, image};
use journal_pack::Entry;
use journal_pack::Entry::{Ev, Flush, Grow, Miss, Tick};
use machine_model::case::Case;
use machine_plain::gated_plain;
use std::alloc::Global;
use std::sync::Arc;
use std::test::Fail;

// Whether a journal is gated, where these places are grown before.
fn gated(alloc: Global, program: &Program, first: &[u64], journal: &[Entry]) -> Result<bool, Fail> {
    let image = image(alloc, program)?;
    let mut args = Vec::new(alloc);
    args.push(String::from_str(alloc, "p")?)?;
    let case = Case {
        image: Arc::new(alloc, image)?,
        args,
        input: Vec::new(alloc),
        limit: 100,
        strict: false,
        first: Vec::from_slice(alloc, first)?,
    };
    Ok(
        gated_plain(alloc, &case, journal)
            .ok()
            .ok_or("it is played")?,
    )
}

// What thread 0 does first in the program of two threads, and what it may run.
const BIRTH: [Entry; 9] = [
    Ev(0, 4),
    Flush(0),
    Ev(0, 0),
    Ev(0, 0),
    Ev(0, 0),
    Ev(0, 1),
    Ev(0, 2),
    Flush(0),
    Flush(0),
];

const FIRST: [u64; 3] = [0x40_1000, 0x40_1013, 0x40_1037];

const MISS: Entry = Miss(1, 0, 0, 0x40_1100);

#[test]
fn tells_gated_journals_of_two_threads(rt: HostRuntime) -> Result<(), Fail> {
    let rows: [(&str, &[Entry], bool); 6] = [
        (
            "the whole run",
            &[
                MISS,
                Grow(1, 0x40_1100),
                Ev(1, 0),
                Ev(1, 0),
                Ev(1, 1),
                Flush(1),
                Ev(1, 1),
            ],
            true,
        ),
        ("a second miss", &[MISS, MISS], false),
        ("growth without a miss", &[Grow(1, 0x40_1100)], false),
        (
            "growth of another's miss",
            &[MISS, Grow(0, 0x40_1100)],
            false,
        ),
        (
            "growth outside the reach",
            &[MISS, Grow(1, 0x40_1100), Grow(1, 0x40_1200)],
            false,
        ),
        ("a block that isn't grown", &[Ev(1, 0)], false),
    ];
    for (name, rest, wanted) in rows {
        let mut journal = Vec::from_slice(rt.alloc(), &BIRTH)?;
        journal.extend_from_slice(rest)?;
        let told = gated(rt.alloc(), &P3, &FIRST, &journal)?;
        assert!(rt; told == wanted, "{name}");
    }
    Ok(())
}

#[test]
fn tells_gated_journals_of_a_reach(rt: HostRuntime) -> Result<(), Fail> {
    let miss = Miss(0, 0, 0, 0x40_1000);
    let rows: [(&str, &[u64], &[Entry], bool); 5] = [
        (
            "the whole run",
            &[],
            &[
                miss,
                Grow(0, 0x40_1000),
                Grow(0, 0x40_1014),
                Grow(0, 0x40_101b),
                Ev(0, 3),
                Flush(0),
                Ev(0, 0),
                Ev(0, 1),
                Flush(0),
                Ev(0, 0),
            ],
            true,
        ),
        (
            "the reach before its root",
            &[],
            &[miss, Grow(0, 0x40_1014)],
            false,
        ),
        ("a miss at a grown place", &[0x40_1000], &[miss], false),
        (
            "a miss within a block",
            &[0x40_1000],
            &[Tick(0, 1), Miss(0, 0, 0x40_1000, 0x40_1005)],
            false,
        ),
        (
            "a growth twice",
            &[],
            &[miss, Grow(0, 0x40_1000), Grow(0, 0x40_1000)],
            false,
        ),
    ];
    for (name, first, journal, wanted) in rows {
        let told = gated(rt.alloc(), &P2, first, journal)?;
        assert!(rt; told == wanted, "{name}");
    }
    Ok(())
}
