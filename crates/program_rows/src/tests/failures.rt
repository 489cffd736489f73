//! Sinks, files and inputs of which a call fails.

use super::programs::{Bytes, ECHOES, EXITS, STORES_AND_LOADS, WRITES, WRITES_BOTH, WRITES_ERR};
use super::{Failing, Journaled, NEVER, REFUSED, RUN, Row, Written, assert_row};
use std::test::Fail;

/// A write of output 1 that fails, and what was written before.
const OUTPUT: &[(&[u64], &str)] = &[(&[1], ""), (&[2], "h"), (&[3], "hi")];

/// A write of the last line that fails, and what was written before.
const LAST_LINE: &[(&[u64], &str)] = &[
    (&[1], ""),
    (&[2], "e"),
    (&[3], "ex"),
    (&[4], "exi"),
    (&[5], "exit"),
    (&[6], "exit "),
    (&[7], "exit 7"),
];

/// Writes that fail; after a run that stopped no file is written.
const SINKS: &[Row] = &[
    Row {
        name: "output 2, in what the program writes",
        file: Some(WRITES_ERR),
        failing: Failing { err: &[2], ..NEVER },
        status: 74,
        err: "h",
        journal: Journaled::Bytes("584a30310000030200000000000002"),
        written: Written::Nothing,
        ..RUN
    },
    Row {
        name: "output 2, in the last line",
        file: Some(WRITES_ERR),
        failing: Failing { err: &[5], ..NEVER },
        status: 74,
        err: "hi\ne",
        journal: Journaled::Bytes("584a30310000030200000000000002"),
        ..RUN
    },
    Row {
        name: "output 1, and then output 2 is written",
        file: Some(WRITES_BOTH),
        failing: Failing { out: &[1], ..NEVER },
        status: 74,
        err: "hi\nwrite fault\n",
        journal: Journaled::Bytes("584a303100000302000000000000030200000000000002"),
        written: Written::Nothing,
        ..RUN
    },
    Row {
        name: "both",
        file: Some(WRITES_BOTH),
        failing: Failing {
            out: &[2],
            err: &[1],
            ..NEVER
        },
        status: 74,
        out: Bytes::Text("h"),
        err: "",
        journal: Journaled::Bytes("584a303100000302000000000000030200000000000002"),
        written: Written::Nothing,
        ..RUN
    },
    Row {
        name: "output 2, after a failed output 1",
        file: Some(WRITES),
        failing: Failing {
            out: &[3],
            err: &[7],
            ..NEVER
        },
        status: 74,
        out: Bytes::Text("hi"),
        err: "write ",
        journal: Journaled::Bytes("584a303100000302000000000000010200000000"),
        written: Written::Nothing,
        ..RUN
    },
    Row {
        name: "the line of a refusal",
        file: Some(EXITS),
        words: "run",
        failing: Failing { err: &[6], ..NEVER },
        status: 64,
        err: "usage",
        ..REFUSED
    },
    Row {
        name: "output 1, where nothing is written",
        failing: Failing { out: &[1], ..NEVER },
        ..RUN
    },
];

/// Calls of the files and of the input that fail, one byte of input a call.
const OTHERS: &[Row] = &[
    Row {
        name: "the program",
        file: Some(STORES_AND_LOADS),
        words: "run p --strict --serial --journal j --report r",
        failing: Failing {
            files: &[1],
            ..NEVER
        },
        status: 66,
        err: "read fault\n",
        ..REFUSED
    },
    Row {
        name: "the journal",
        file: Some(STORES_AND_LOADS),
        words: "run p --strict --serial --journal j --report r",
        failing: Failing {
            files: &[2],
            ..NEVER
        },
        status: 74,
        err: "write fault\n",
        journal: Journaled::Bytes(
            "584a30310000040200000000000000000000000001000002020002000401000080a28002",
        ),
        written: Written::Nothing,
        ..RUN
    },
    Row {
        name: "the report",
        file: Some(STORES_AND_LOADS),
        words: "run p --strict --serial --journal j --report r",
        failing: Failing {
            files: &[3],
            ..NEVER
        },
        status: 74,
        err: "write fault\n",
        journal: Journaled::Bytes(
            "584a30310000040200000000000000000000000001000002020002000401000080a28002",
        ),
        written: Written::Journal,
        ..RUN
    },
    Row {
        name: "a call that is not made",
        file: Some(STORES_AND_LOADS),
        words: "run p --strict --serial --journal j --report r",
        failing: Failing {
            files: &[4],
            ..NEVER
        },
        status: 81,
        err: "miss thread 1 from 0x0 to 0x401100\n",
        journal: Journaled::Bytes(
            "584a30310000040200000000000000000000000001000002020002000401000080a28002",
        ),
        written: Written::Both("miss thread 1 from 0x0 to 0x401100\n"),
        ..RUN
    },
    Row {
        name: "the report alone",
        file: Some(STORES_AND_LOADS),
        words: "run p --strict --serial --report r",
        failing: Failing {
            files: &[2],
            ..NEVER
        },
        status: 74,
        err: "write fault\n",
        journal: Journaled::Bytes(
            "584a30310000040200000000000000000000000001000002020002000401000080a28002",
        ),
        written: Written::Nothing,
        ..RUN
    },
    Row {
        name: "the report alone is written",
        file: Some(STORES_AND_LOADS),
        words: "run p --strict --serial --report r",
        failing: Failing {
            files: &[3],
            ..NEVER
        },
        status: 81,
        err: "miss thread 1 from 0x0 to 0x401100\n",
        journal: Journaled::Bytes(
            "584a30310000040200000000000000000000000001000002020002000401000080a28002",
        ),
        written: Written::Report("miss thread 1 from 0x0 to 0x401100\n"),
        ..RUN
    },
    Row {
        name: "the input, read 1",
        file: Some(ECHOES),
        failing: Failing {
            input: &[1],
            ..NEVER
        },
        status: 66,
        err: "read fault\n",
        ..REFUSED
    },
    Row {
        name: "the input, read 3",
        file: Some(ECHOES),
        failing: Failing {
            input: &[3],
            ..NEVER
        },
        status: 66,
        err: "read fault\n",
        left: Some(1),
        ..REFUSED
    },
    Row {
        name: "the input, read 4",
        file: Some(ECHOES),
        failing: Failing {
            input: &[4],
            ..NEVER
        },
        status: 66,
        err: "read fault\n",
        left: Some(0),
        ..REFUSED
    },
    Row {
        name: "the input, after its end",
        file: Some(ECHOES),
        input: Bytes::Text("abc"),
        failing: Failing {
            input: &[5],
            ..NEVER
        },
        status: 3,
        out: Bytes::Text("abc"),
        err: "exit 3\n",
        journal: Journaled::Bytes("584a3031000003020000000000000302000000000000030200000000000003"),
        ..RUN
    },
    Row {
        name: "an input that isn't read",
        file: Some(Bytes::Segment(0x40_1000, 5, "cc")),
        input: Bytes::Text("abc"),
        failing: Failing {
            input: &[1],
            ..NEVER
        },
        status: 82,
        err: "fault thread 0 at 0x401000: code\n",
        journal: Journaled::Bytes("584a3031000000"),
        left: Some(3),
        ..RUN
    },
    Row {
        name: "the input of a refusal",
        file: Some(Bytes::Zeros(63)),
        failing: Failing {
            input: &[1],
            ..NEVER
        },
        ..REFUSED
    },
];

#[test]
fn a_failed_write_leaves_a_first_part(rt: HostRuntime) -> Result<(), Fail> {
    for (out, text) in OUTPUT {
        let row = Row {
            name: *text,
            file: Some(WRITES),
            failing: Failing { out: *out, ..NEVER },
            status: 74,
            out: Bytes::Text(*text),
            err: "write fault\n",
            journal: Journaled::Bytes("584a303100000302000000000000010200000000"),
            written: Written::Nothing,
            ..RUN
        };
        assert_row(&rt, rt.alloc(), &row)?;
    }
    for (err, text) in LAST_LINE {
        let row = Row {
            name: *text,
            failing: Failing { err: *err, ..NEVER },
            status: 74,
            err: *text,
            ..RUN
        };
        assert_row(&rt, rt.alloc(), &row)?;
    }
    Ok(())
}

#[test]
fn failed_outputs(rt: HostRuntime) -> Result<(), Fail> {
    for row in SINKS {
        assert_row(&rt, rt.alloc(), row)?;
    }
    Ok(())
}

#[test]
fn failed_files_and_inputs(rt: HostRuntime) -> Result<(), Fail> {
    for row in OTHERS {
        assert_row(&rt, rt.alloc(), row)?;
    }
    Ok(())
}
