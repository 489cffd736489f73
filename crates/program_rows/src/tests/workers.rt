//! Runs by workers. What is expected holds in every interleaving.

use super::programs::{
    Bytes, COUNTERS, INCREMENTS, STORES_AND_LOADS, TABLE, WAITS_FOR_A_STORE, WRITES_BOTH,
};
use super::{Failing, Journaled, Left, NEVER, RUN, Row, Written, assert_row, call};
use machine_plain::gated_plain;
use recompile_core::{Gate, OpenGate};
use std::alloc::Global;
use std::hint::spin_loop;
use std::process::Abort;
use std::sync::atomic::AtomicU64;
use std::sync::atomic::Ordering::SeqCst;
use std::test::Fail;

/// A run by workers that ends with 0.
const WORKERS: Row = Row {
    words: "run p",
    status: 0,
    err: "exit 0\n",
    journal: Journaled::Some,
    written: Written::Nothing,
    ..RUN
};

/// Both counters are whole, whatever a turn is.
const COUNTS: &[&str] = &[
    "run p",
    "run p --turn 256",
    "run p --turn 100 --hold 0",
    "run p --turn 65536 --hold 255",
];

#[test]
fn counters_in_a_hundred_runs(rt: HostRuntime) -> Result<(), Fail> {
    for _ in 0..25u32 {
        for words in COUNTS {
            let row = Row {
                name: "counters",
                file: Some(COUNTERS),
                words,
                out: Bytes::Hex("b036000000000000b036000000000000"),
                ..WORKERS
            };
            assert_row(&rt, rt.alloc(), &row)?;
        }
    }
    Ok(())
}

/// Holds each entry of thread 1, from one on that isn't of its first turn, until an entry of another thread is asked for, and
/// holds nothing once that came.
#[derive(Drop)]
struct Holding {
    asked: AtomicU64,
    answered: AtomicU64,
    in_vain: AtomicU64,
}

impl Gate for Holding {
    fn pass(&self, thread: u32, nth: u64) {
        if thread != 1 {
            self.asked.fetch_add(1, SeqCst);
            return;
        }
        if nth < 1_100 || self.answered.load(SeqCst) > 0 {
            return;
        }
        let before = self.asked.load(SeqCst);
        for _ in 0..1u32 << 20 {
            if self.asked.load(SeqCst) != before {
                self.answered.fetch_add(1, SeqCst);
                return;
            }
            spin_loop();
        }
        self.in_vain.fetch_add(1, SeqCst);
    }
}

#[test]
fn others_go_on_while_one_thread_is_held(rt: HostRuntime) -> Result<(), Fail> {
    let gate = Holding {
        asked: AtomicU64::new(0),
        answered: AtomicU64::new(0),
        in_vain: AtomicU64::new(0),
    };
    let row = Row {
        name: "increments",
        file: Some(INCREMENTS),
        ..WORKERS
    };
    let left = call(&rt, rt.alloc(), &row, &gate)?;
    assert_eq!(&rt; left.answer.status, 0, "status");
    assert_eq!(&rt; gate.answered.load(SeqCst), 1, "holds that were answered");
    assert!(&rt; gate.in_vain.load(SeqCst) < 16, "holds that ran out");
    Ok(())
}

#[test]
fn a_store_of_a_thread_that_spins_is_seen(rt: HostRuntime) -> Result<(), Fail> {
    let row = Row {
        name: "a store",
        file: Some(WAITS_FOR_A_STORE),
        words: "run p --turn 16",
        ..WORKERS
    };
    assert_row(&rt, rt.alloc(), &row)
}

/// Whether the plain machine is led along the journal, and runs only what is grown.
fn is_gated(alloc: Global, left: &Left) -> Result<bool, Fail> {
    let case = left.answer.case.as_ref().ok_or("a case")?;
    if case.limit() > 1 << 27 {
        return Ok(false);
    }
    let entries = left.answer.journal.entries(alloc)?;
    Ok(
        gated_plain(alloc, case, &entries)
            .ok()
            .ok_or("the journal is played")?,
    )
}

fn assert_litmus<R: Abort>(rt: &R, alloc: Global, left: &Left) -> Result<(), Fail> {
    assert_eq!(rt; left.answer.status, 0, "status");
    assert_eq!(rt; left.out.bytes().len(), 2, "bytes");
    for digit in left.out.bytes() {
        assert!(rt; *digit == b'0' || *digit == b'1', "a digit");
    }
    assert!(rt; is_gated(alloc, left)?, "gated");
    Ok(())
}

#[test]
fn stores_and_loads_in_twenty_runs(rt: HostRuntime) -> Result<(), Fail> {
    let row = Row {
        name: "stores and loads",
        file: Some(STORES_AND_LOADS),
        words: "run p --turn 1",
        ..WORKERS
    };
    for _ in 0..20u32 {
        let left = call(&rt, rt.alloc(), &row, &OpenGate)?;
        assert_litmus(&rt, rt.alloc(), &left)?;
    }
    Ok(())
}

/// Sinks of which a write fails, and runs that end at a miss.
const OTHERS: &[Row] = &[
    Row {
        name: "writes to both",
        file: Some(WRITES_BOTH),
        words: "run p --journal j --report r",
        out: Bytes::Text("hi\n"),
        err: "hi\nexit 0\n",
        written: Written::Both(""),
        ..WORKERS
    },
    Row {
        name: "output 1, and then output 2 is written",
        file: Some(WRITES_BOTH),
        words: "run p --journal j --report r",
        failing: Failing { out: &[1], ..NEVER },
        status: 74,
        err: "hi\nwrite fault\n",
        ..WORKERS
    },
    Row {
        name: "both",
        file: Some(WRITES_BOTH),
        failing: Failing {
            out: &[2],
            err: &[1],
            ..NEVER
        },
        status: 74,
        out: Bytes::Text("h"),
        err: "",
        ..WORKERS
    },
    Row {
        name: "output 2, in the last line",
        file: Some(WRITES_BOTH),
        failing: Failing { err: &[5], ..NEVER },
        status: 74,
        out: Bytes::Text("hi\n"),
        err: "hi\ne",
        ..WORKERS
    },
    Row {
        name: "a jump table, strictly",
        file: Some(TABLE),
        words: "run p --strict --report r",
        status: 81,
        err: "miss thread 0 from 0x40101c to 0x401030\n",
        written: Written::Report("miss thread 0 from 0x40101c to 0x401030\n"),
        ..WORKERS
    },
    Row {
        name: "a jump table",
        file: Some(TABLE),
        words: "run p --report r",
        status: 5,
        err: "exit 5\n",
        written: Written::Report("miss thread 0 from 0x40101c to 0x401030\n"),
        ..WORKERS
    },
];

#[test]
fn failing_sinks_and_strict_runs(rt: HostRuntime) -> Result<(), Fail> {
    for row in OTHERS {
        assert_row(&rt, rt.alloc(), row)?;
    }
    Ok(())
}
