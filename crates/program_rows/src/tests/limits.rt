//! Programs, inputs and graphs of the greatest size, and of one more.

use super::programs::{Bytes, EXITS};
use super::{Journaled, REFUSED, RUN, Row, Written, assert_row};
use std::test::Fail;

/// The count of blocks.
const BLOCKS: &[Row] = &[
    // int3 after the jumps
    Row {
        name: "65,536 blocks",
        file: Some(Bytes::Jumps(65_535, "cc")),
        status: 82,
        err: "fault thread 0 at 0x420ffe: code\n",
        journal: Journaled::Bytes(
            "584a30310100802001008020010080200100802001008020010080200100802001008020010080200100802001008020010080200100802001008020010080200000ff1f",
        ),
        ..RUN
    },
    Row {
        name: "65,537 blocks",
        file: Some(Bytes::Jumps(65_536, "cc")),
        input: Bytes::Text(""),
        status: 73,
        err: "too many blocks\n",
        left: Some(0),
        ..REFUSED
    },
    // mov eax, 0x401001; jmp rax after the jumps
    Row {
        name: "a block more is grown",
        file: Some(Bytes::Jumps(65_535, "b801104000ffe0")),
        status: 85,
        err: "full thread 0 at 0x401001\n",
        journal: Journaled::Bytes(
            "584a30310100802001008020010080200100802001008020010080200100802001008020010080200100802001008020010080200100802001008020010080200100802004000183a0880281a080020700",
        ),
        written: Written::Both("miss thread 0 from 0x421003 to 0x401001\n"),
        ..RUN
    },
    Row {
        name: "a block more is missed",
        file: Some(Bytes::Jumps(65_535, "b801104000ffe0")),
        words: "run p --strict --journal j --report r",
        status: 81,
        err: "miss thread 0 from 0x421003 to 0x401001\n",
        journal: Journaled::Bytes(
            "584a30310100802001008020010080200100802001008020010080200100802001008020010080200100802001008020010080200100802001008020010080200100802004000183a0880281a08002",
        ),
        written: Written::Both("miss thread 0 from 0x421003 to 0x401001\n"),
        ..RUN
    },
    Row {
        name: "only the place itself is grown",
        file: Some(Bytes::Jumps(65_534, "b801104000ffe0")),
        status: 85,
        err: "full thread 0 at 0x401081\n",
        journal: Journaled::Bytes(
            "584a30310100802001008020010080200100802001008020010080200100802001008020010080200100802001008020010080200100802001008020010080200400802081a0880281a08002050081a08002040040ffa0800281a180020700",
        ),
        written: Written::Both(
            "miss thread 0 from 0x421001 to 0x401001\nmiss thread 0 from 0x40107f to 0x401081\n",
        ),
        ..RUN
    },
];

/// Sizes of the program and of the input.
const SIZES: &[Row] = &[
    Row {
        name: "a file of the greatest size",
        file: Some(Bytes::Zeros(67_108_864)),
        input: Bytes::Text(""),
        err: "image: fault 2\n",
        left: Some(0),
        ..REFUSED
    },
    Row {
        name: "a file of one byte more",
        file: Some(Bytes::Zeros(67_108_865)),
        input: Bytes::Text(""),
        status: 70,
        err: "too long\n",
        left: Some(0),
        ..REFUSED
    },
    Row {
        name: "an input of the greatest size",
        input: Bytes::Zeros(16_777_216),
        ..RUN
    },
    Row {
        name: "an input of one byte more",
        file: Some(EXITS),
        input: Bytes::Zeros(16_777_217),
        status: 70,
        err: "too long\n",
        left: None,
        ..REFUSED
    },
];

#[test]
fn as_many_blocks_as_may_be(rt: HostRuntime) -> Result<(), Fail> {
    for row in BLOCKS {
        assert_row(&rt, rt.alloc(), row)?;
    }
    Ok(())
}

#[test]
fn files_and_inputs_of_the_greatest_size(rt: HostRuntime) -> Result<(), Fail> {
    for row in SIZES {
        assert_row(&rt, rt.alloc(), row)?;
    }
    Ok(())
}
