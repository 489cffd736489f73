//! Runs that begin with the blocks of a text, and texts that are refused.

use super::programs::{Bytes, EXITS};
use super::{Failing, Journaled, NEVER, REFUSED, RUN, Row, Written, assert_row};
use std::test::Fail;

/// The text of the block with which `EXITS` begins.
const BLOCK: &str =
    "ir 1\nblock 0x401000 bf07000000e9f60e0000\nconst.32 t1 0x7\nput.32 rdi t1\ntick\ngo 0x401f00\nend\n";

/// Runs of `EXITS` with the texts: its block; none, where a miss ends the run; none, where a miss grows its block.
const RUNS: &[Row] = &[
    Row {
        name: "its block",
        text: Some(Bytes::Text(BLOCK)),
        words: "run p i --serial --strict --journal j --report r",
        ..RUN
    },
    Row {
        name: "no block",
        text: Some(Bytes::Text("ir 1\n")),
        words: "run p i --serial --strict --journal j --report r",
        status: 81,
        err: "miss thread 0 from 0x0 to 0x401000\n",
        journal: Journaled::Bytes("584a30310400000080a08002"),
        written: Written::Both("miss thread 0 from 0x0 to 0x401000\n"),
        ..RUN
    },
    Row {
        name: "no block, and more",
        text: Some(Bytes::Text("ir 1\n")),
        words: "run p i --serial --journal j --report r",
        journal: Journaled::Bytes("584a30310400000080a08002050080a08002000002"),
        written: Written::Both("miss thread 0 from 0x0 to 0x401000\n"),
        ..RUN
    },
    Row {
        name: "its block, by workers",
        text: Some(Bytes::Text(BLOCK)),
        words: "run p i --journal j --report r",
        ..RUN
    },
];

/// Texts that aren't accepted, the status and the line: another byte of code, another operand, the block twice, another first
/// line, a temporary that wasn't written, the block at another address, such a temporary before a word that isn't one, a byte
/// that isn't ASCII after the text.
const REFUSALS: &[(Bytes, u8, &str)] = &[
    (
        Bytes::Text(
            "ir 1\nblock 0x401000 bf08000000e9f60e0000\nconst.32 t1 0x7\nput.32 rdi t1\ntick\ngo 0x401f00\nend\n",
        ),
        68,
        "stale block 0x401000\n",
    ),
    (
        Bytes::Text(
            "ir 1\nblock 0x401000 bf07000000e9f60e0000\nconst.32 t1 0x8\nput.32 rdi t1\ntick\ngo 0x401f00\nend\n",
        ),
        68,
        "stale block 0x401000\n",
    ),
    (
        Bytes::Text(
            "ir 1\nblock 0x401000 bf07000000e9f60e0000\nconst.32 t1 0x7\nput.32 rdi t1\ntick\ngo 0x401f00\nend\nblock 0x401000 bf07000000e9f60e0000\nconst.32 t1 0x7\nput.32 rdi t1\ntick\ngo 0x401f00\nend\n",
        ),
        72,
        "block twice 0x401000\n",
    ),
    (
        Bytes::Text(
            "ir 2\nblock 0x401000 bf07000000e9f60e0000\nconst.32 t1 0x7\nput.32 rdi t1\ntick\ngo 0x401f00\nend\n",
        ),
        67,
        "ir text: line 1 column 4\n",
    ),
    (
        Bytes::Text(
            "ir 1\nblock 0x401000 bf07000000e9f60e0000\nconst.32 t1 0x7\nput.32 rdi t2\ntick\ngo 0x401f00\nend\n",
        ),
        67,
        "ir text: line 4 column 1\n",
    ),
    (
        Bytes::Text(
            "ir 1\nblock 0x401001 bf07000000e9f60e0000\nconst.32 t1 0x7\nput.32 rdi t1\ntick\ngo 0x401f00\nend\n",
        ),
        68,
        "stale block 0x401001\n",
    ),
    (
        Bytes::Text("ir 1\nblock 0x401000 bf07000000e9f60e0000\nput.32 rdi t1\nTick\n"),
        67,
        "ir text: line 4 column 1\n",
    ),
    (Bytes::Hex("697220310aff"), 67, "ir text: line 2 column 1\n"),
];

#[test]
fn runs_of_blocks(rt: HostRuntime) -> Result<(), Fail> {
    for row in RUNS {
        assert_row(&rt, rt.alloc(), row)?;
    }
    Ok(())
}

#[test]
fn texts_that_are_refused(rt: HostRuntime) -> Result<(), Fail> {
    for (text, status, err) in REFUSALS {
        let row = Row {
            name: *err,
            file: Some(EXITS),
            text: Some(*text),
            words: "run p i --serial --journal j",
            status: *status,
            err: *err,
            ..REFUSED
        };
        assert_row(&rt, rt.alloc(), &row)?;
    }
    let absent = Row {
        name: "no text",
        file: Some(EXITS),
        words: "run p i",
        status: 79,
        err: "no file\n",
        ..REFUSED
    };
    assert_row(&rt, rt.alloc(), &absent)?;
    let failing = Row {
        name: "a text that can't be read",
        text: Some(Bytes::Text(BLOCK)),
        failing: Failing {
            files: &[2],
            ..NEVER
        },
        status: 66,
        err: "read fault\n",
        ..absent
    };
    assert_row(&rt, rt.alloc(), &failing)
}
