//! Calls that are refused: nothing is run, no file changes, and the input stays.

use super::programs::{Bytes, EXITS};
use super::{REFUSED, Row, assert_row};
use std::test::Fail;

/// Words that are no plan, and the line that says so.
const LINES: &[(&str, &str)] = &[
    ("", "usage: no command\n"),
    ("walk p", "usage: unknown command\n"),
    ("run", "usage: bad line\n"),
    ("run p --turn 0", "usage: bad line\n"),
    ("run p --turn 65537", "usage: bad line\n"),
    ("run p --hold 256", "usage: bad line\n"),
    ("run p --steps 0", "usage: bad line\n"),
    ("run p --steps 134217729", "usage: bad line\n"),
    ("run p --serial --serial", "usage: bad line\n"),
    ("run --serial -p", "usage: bad line\n"),
    ("run p --journal", "usage: bad line\n"),
    ("run p --journal j --reports r", "usage: bad line\n"),
];

/// Files that are no image that can be run, and the line: too short twice, other first bytes, program headers after the end, a
/// segment that can be written and run, a first instruction in none that can be run, a segment at the stacks.
const IMAGES: &[(Bytes, &str)] = &[
    (Bytes::Hex(""), "image: fault 1\n"),
    (Bytes::Zeros(63), "image: fault 1\n"),
    (Bytes::Zeros(64), "image: fault 2\n"),
    (
        Bytes::Hex(
            "7f454c4602010100000000000000000002003e000100000000104000000000004000000000000000000000000000000000000000400038000100400000000000",
        ),
        "image: fault 4\n",
    ),
    (Bytes::Segment(0x40_1000, 7, "cc"), "image: fault 7\n"),
    (Bytes::Segment(0x40_1000, 4, "cc"), "image: fault 12\n"),
    (
        Bytes::Segment(0x7000_0000_0000, 5, "cc"),
        "image: fault 13\n",
    ),
];

#[test]
fn words_that_are_no_plan(rt: HostRuntime) -> Result<(), Fail> {
    for (words, err) in LINES {
        let row = Row {
            name: *words,
            file: Some(EXITS),
            words: *words,
            status: 64,
            err: *err,
            ..REFUSED
        };
        assert_row(&rt, rt.alloc(), &row)?;
    }
    Ok(())
}

#[test]
fn files_that_are_no_image(rt: HostRuntime) -> Result<(), Fail> {
    let absent = Row {
        name: "no file",
        status: 79,
        err: "no file\n",
        ..REFUSED
    };
    assert_row(&rt, rt.alloc(), &absent)?;
    for (file, err) in IMAGES {
        let row = Row {
            name: *err,
            file: Some(*file),
            err: *err,
            ..REFUSED
        };
        assert_row(&rt, rt.alloc(), &row)?;
    }
    Ok(())
}
