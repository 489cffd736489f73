//! A row is what a call is given and what it leaves. What is expected was worked out from the rules of the machine, by a
//! model that is apart from this repository.

mod failures;
mod limits;
mod plans;
mod programs;
mod refusals;
mod runs;
mod texts;
mod workers;

use mx_outside::{MemoryFiles, MemorySink, MemorySource};
use programs::{Bytes, EXITS, bytes_of};
use recompile_core::{Answer, Gate, OpenGate, PlainEngine, recompile};
use std::alloc::{AllocError, Global};
use std::collections::BTreeMap;
use std::process::Abort;
use std::sync::Wait;
use std::test::Fail;
use std::thread::Threads;

/// The calls that fail, by their numbers.
#[derive(Clone, Copy)]
struct Failing {
    files: &'static [u64],
    input: &'static [u64],
    out: &'static [u64],
    err: &'static [u64],
}

const NEVER: Failing = Failing {
    files: &[],
    input: &[],
    out: &[],
    err: &[],
};

/// The journal of an answer.
#[derive(Clone, Copy)]
enum Journaled {
    /// There was no run.
    Never,
    /// It has entries.
    Some,
    /// Its bytes, in hexadecimal.
    Bytes(&'static str),
    /// So many entries and so many bytes.
    Size(u64, usize),
}

/// Which of the files `j` and `r` are there afterwards. In `j` stands the answer's journal, in `r` this text.
#[derive(Clone, Copy)]
enum Written {
    Nothing,
    Journal,
    Report(&'static str),
    Both(&'static str),
}

/// A call: the file `p`, if there is one, the file `i`, if there is one, the words in one line, the input, and what fails. Then what it leaves: the exit status, the bytes
/// in both sinks, the journal, the files, and how many bytes of the input, where that is promised. The sinks take one byte a
/// call.
#[derive(Clone, Copy)]
struct Row {
    name: &'static str,
    file: Option<Bytes>,
    text: Option<Bytes>,
    words: &'static str,
    input: Bytes,
    failing: Failing,
    status: u8,
    out: Bytes,
    err: &'static str,
    journal: Journaled,
    written: Written,
    left: Option<usize>,
}

/// The run of `EXITS` with both files.
const RUN: Row = Row {
    name: "exit",
    file: Some(EXITS),
    text: None,
    words: "run p --serial --journal j --report r",
    input: Bytes::Text(""),
    failing: NEVER,
    status: 7,
    out: Bytes::Text(""),
    err: "exit 7\n",
    journal: Journaled::Bytes("584a3031000002"),
    written: Written::Both(""),
    left: Some(0),
};

/// A call that is refused, with an input that stays.
const REFUSED: Row = Row {
    name: "refused",
    file: None,
    input: Bytes::Text("abc"),
    status: 65,
    err: "image: fault 1\n",
    journal: Journaled::Never,
    written: Written::Nothing,
    left: Some(3),
    ..RUN
};

/// What a call leaves.
#[derive(Drop)]
struct Left {
    answer: Answer,
    out: MemorySink,
    err: MemorySink,
    files: MemoryFiles,
    input: MemorySource,
}

fn words_of(alloc: Global, line: &str) -> Result<Vec<String>, AllocError> {
    let mut made = Vec::new(alloc);
    for word in line.split_whitespace() {
        made.push(String::from_str(alloc, word)?)?;
    }
    Ok(made)
}

/// What the file `k` holds, which no call names.
const KEPT: &[u8] = b"kept";

fn files_of(alloc: Global, row: &Row) -> Result<MemoryFiles, Fail> {
    let mut names = BTreeMap::new(alloc);
    names.insert(String::from_str(alloc, "k")?, Vec::from_slice(alloc, KEPT)?)?;
    if let Some(file) = row.file {
        names.insert(String::from_str(alloc, "p")?, bytes_of(alloc, file)?)?;
    }
    if let Some(text) = row.text {
        names.insert(String::from_str(alloc, "i")?, bytes_of(alloc, text)?)?;
    }
    let failing = Vec::from_slice(alloc, row.failing.files)?;
    Ok(MemoryFiles::make(alloc, names, failing))
}

/// A long input comes in large pieces, and else one byte a call.
fn input_of(alloc: Global, row: &Row) -> Result<MemorySource, Fail> {
    let failing = Vec::from_slice(alloc, row.failing.input)?;
    let bytes = bytes_of(alloc, row.input)?;
    if bytes.len() > 4096 {
        return Ok(MemorySource::make(bytes, failing, 65_536));
    }
    Ok(MemorySource::make(bytes, failing, 1))
}

fn sink_of(alloc: Global, failing: &[u64]) -> Result<MemorySink, AllocError> {
    Ok(MemorySink::make(alloc, Vec::from_slice(alloc, failing)?, 1))
}

fn call<R: Threads + Wait + Sync, G: Gate + Sync>(
    rt: &R,
    alloc: Global,
    row: &Row,
    gate: &G,
) -> Result<Left, Fail> {
    let words = words_of(alloc, row.words)?;
    let mut files = files_of(alloc, row)?;
    let mut input = input_of(alloc, row)?;
    let mut out = sink_of(alloc, row.failing.out)?;
    let mut err = sink_of(alloc, row.failing.err)?;
    let mut engine = PlainEngine::make();
    let answer = recompile(
        rt,
        alloc,
        &words,
        &mut files,
        &mut input,
        &mut out,
        &mut err,
        &mut engine,
        gate,
    );
    Ok(Left {
        answer,
        out,
        err,
        files,
        input,
    })
}

fn assert_journal<R: Abort>(rt: &R, alloc: Global, row: &Row, answer: &Answer) -> Result<(), Fail> {
    let name = row.name;
    let entries = answer.journal.len();
    match row.journal {
        Journaled::Never => {
            assert!(rt; answer.case.is_none(), "{name}: a case");
            assert_eq!(rt; entries, 0, "{name}: entries");
        }
        Journaled::Some => {
            assert!(rt; answer.case.is_some(), "{name}: no case");
            assert!(rt; entries > 0, "{name}: no entries");
        }
        Journaled::Bytes(digits) => {
            assert!(rt; answer.case.is_some(), "{name}: no case");
            let made = hex::encode(alloc, answer.journal.bytes())?;
            assert_eq!(rt; made.as_str(), digits, "{name}: journal");
        }
        Journaled::Size(count, size) => {
            assert!(rt; answer.case.is_some(), "{name}: no case");
            assert_eq!(rt; entries, count, "{name}: entries");
            assert_eq!(rt; answer.journal.bytes().len(), size, "{name}: bytes");
        }
    }
    Ok(())
}

/// The file of this name holds these bytes, or there is none.
fn assert_file<R: Abort>(
    rt: &R,
    row: &Row,
    files: &MemoryFiles,
    file: &'static str,
    wanted: Option<&[u8]>,
) {
    let name = row.name;
    match (files.names().get(file), wanted) {
        (Some(bytes), Some(wanted)) => assert_eq!(rt; bytes.as_slice(), wanted, "{name}: {file}"),
        (None, None) => {}
        (Some(_), None) => assert!(rt; false, "{name}: there is a file {file}"),
        (None, Some(_)) => assert!(rt; false, "{name}: there is no file {file}"),
    }
}

fn assert_files<R: Abort>(rt: &R, alloc: Global, row: &Row, left: &Left) -> Result<(), Fail> {
    let journal = left.answer.journal.bytes();
    let (j, r) = match row.written {
        Written::Nothing => (None, None),
        Written::Journal => (Some(journal), None),
        Written::Report(text) => (None, Some(text.as_bytes())),
        Written::Both(text) => (Some(journal), Some(text.as_bytes())),
    };
    assert_file(rt, row, &left.files, "j", j);
    assert_file(rt, row, &left.files, "r", r);
    assert_file(rt, row, &left.files, "k", Some(KEPT));
    match row.file {
        None => assert_file(rt, row, &left.files, "p", None),
        Some(file) => {
            let program = bytes_of(alloc, file)?;
            assert_file(rt, row, &left.files, "p", Some(&program));
        }
    }
    if let Some(text) = row.text {
        let blocks = bytes_of(alloc, text)?;
        assert_file(rt, row, &left.files, "i", Some(&blocks));
    }
    let mut count = 1usize;
    for is_there in [
        row.file.is_some(),
        row.text.is_some(),
        j.is_some(),
        r.is_some(),
    ] {
        count = count.saturating_add(is_there as usize);
    }
    assert_eq!(rt; left.files.names().len(), count, "{}: files", row.name);
    Ok(())
}

fn assert_left<R: Abort>(rt: &R, alloc: Global, row: &Row, left: &Left) -> Result<(), Fail> {
    let name = row.name;
    let out = bytes_of(alloc, row.out)?;
    assert_eq!(rt; left.err.bytes(), row.err.as_bytes(), "{name}: output 2");
    assert_eq!(rt; left.out.bytes(), out.as_slice(), "{name}: output 1");
    assert_eq!(rt; left.answer.status, row.status, "{name}: status");
    if let Some(count) = row.left {
        assert_eq!(rt; left.input.bytes().len(), count, "{name}: input left");
    }
    assert_journal(rt, alloc, row, &left.answer)?;
    assert_files(rt, alloc, row, left)
}

fn assert_row<R: Threads + Wait + Sync + Abort>(
    rt: &R,
    alloc: Global,
    row: &Row,
) -> Result<(), Fail> {
    let left = call(rt, alloc, row, &OpenGate)?;
    assert_left(rt, alloc, row, &left)
}
