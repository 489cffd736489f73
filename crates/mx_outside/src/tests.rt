//! The objects in memory by their tables, and the ones over the operating system once each.
ghost use Rattle.std.specs.Prelude.{◌<◌};

use super::*;
use std::alloc::{AllocError, Global};
use std::collections::BTreeMap;
use std::fs;
use std::io::{self, ErrorKind, Read};
use std::process::Abort;
use std::test::Fail;

/// A source in memory, read to its end.
#[derive(Clone, Copy)]
struct ReadAllRow {
    bytes: &'static [u8],
    failing: &'static [u64],
    piece: usize,
    max: u64,
    answer: Result<&'static [u8], FilesFault>,
    left: &'static [u8],
}

/// What one row answers and leaves.
fn read_row(rt: &impl Abort, alloc: Global, row: &ReadAllRow) -> Result<(), AllocError>
    requires { 0 < row.now.piece }
{
    let bytes = Vec::from_slice(alloc, row.bytes)?;
    let failing = Vec::from_slice(alloc, row.failing)?;
    let mut source = MemorySource::make(bytes, failing, row.piece);
    match (read_all(alloc, &mut source, row.max), row.answer) {
        (Ok(bytes), Ok(want)) => assert_eq!(rt; bytes.as_slice(), want),
        (Err(fault), Err(want)) => assert_eq!(rt; fault, want),
        _ => assert!(rt; false, "an answer of the other kind"),
    }
    assert_eq!(rt; source.bytes(), row.left);
    Ok(())
}

#[test]
fn a_source_is_read_to_its_end(rt: HostRuntime) -> Result<(), Fail> {
    let rows = [
        ReadAllRow {
            bytes: b"",
            failing: &[],
            piece: 1,
            max: 0,
            answer: Ok(b""),
            left: b"",
        },
        ReadAllRow {
            bytes: b"abcde",
            failing: &[],
            piece: 2,
            max: 5,
            answer: Ok(b"abcde"),
            left: b"",
        },
        ReadAllRow {
            bytes: b"abcde",
            failing: &[],
            piece: 9,
            max: 6,
            answer: Ok(b"abcde"),
            left: b"",
        },
        ReadAllRow {
            bytes: b"abcde",
            failing: &[],
            piece: 2,
            max: 4,
            answer: Err(FilesFault::TooLong),
            left: b"",
        },
        ReadAllRow {
            bytes: b"abcde",
            failing: &[],
            piece: 2,
            max: 0,
            answer: Err(FilesFault::TooLong),
            left: b"cde",
        },
        ReadAllRow {
            bytes: b"abcde",
            failing: &[1],
            piece: 2,
            max: 5,
            answer: Err(FilesFault::Failed),
            left: b"abcde",
        },
        ReadAllRow {
            bytes: b"abcde",
            failing: &[2],
            piece: 2,
            max: 5,
            answer: Err(FilesFault::Failed),
            left: b"cde",
        },
        ReadAllRow {
            bytes: b"abcde",
            failing: &[4],
            piece: 2,
            max: 5,
            answer: Err(FilesFault::Failed),
            left: b"",
        },
        ReadAllRow {
            bytes: b"abcde",
            failing: &[5],
            piece: 2,
            max: 5,
            answer: Ok(b"abcde"),
            left: b"",
        },
    ];
    for row in &rows {
        assert!(rt; row.piece > 0);
        read_row(&rt, rt.alloc(), row)?;
    }
    Ok(())
}

#[test]
fn a_source_in_memory_moves_pieces(rt: HostRuntime) -> Result<(), Fail> {
    let bytes = Vec::from_slice(rt.alloc(), b"abc")?;
    let failing = Vec::from_slice(rt.alloc(), &[2])?;
    let mut source = MemorySource::make(bytes, failing, 2);
    let mut buf = [b'.'; 3];
    let calls: [(Result<usize, Failed>, [u8; 3], &[u8]); 4] = [
        (Ok(2), *b"ab.", b"c"),
        (Err(Failed), *b"ab.", b"c"),
        (Ok(1), *b"cb.", b""),
        (Ok(0), *b"cb.", b""),
    ];
    for (answer, filled, left) in calls {
        assert_eq!(rt; source.read(&mut buf), answer);
        assert_eq!(rt; buf, filled);
        assert_eq!(rt; source.bytes(), left);
    }
    Ok(())
}

#[test]
fn a_sink_is_written_whole(rt: HostRuntime) -> Result<(), Fail> {
    let rows: [(&[u64], usize, &[u8], Result<(), Failed>, &[u8]); 6] = [
        (&[], 1, b"abc", Ok(()), b"abc"),
        (&[], 2, b"", Ok(()), b""),
        (&[1], 5, b"abc", Err(Failed), b""),
        (&[2], 5, b"abc", Ok(()), b"abc"),
        (&[3], 1, b"abc", Err(Failed), b"ab"),
        (&[9, 2], 2, b"abc", Err(Failed), b"ab"),
    ];
    for (failing, piece, bytes, answer, held) in rows {
        assert!(rt; piece > 0);
        let failing = Vec::from_slice(rt.alloc(), failing)?;
        let mut sink = MemorySink::make(rt.alloc(), failing, piece);
        assert_eq!(rt; write_all(&mut sink, bytes), answer);
        assert_eq!(rt; sink.bytes(), held);
    }
    Ok(())
}

/// A name, the most bytes that are taken, and what a read answers.
type ReadRow = (&'static str, u64, Result<&'static [u8], FilesFault>);

/// Reads of these files answer so.
fn read_rows<F: Files>(rt: &impl Abort, alloc: Global, files: &mut F, rows: &[ReadRow]) {
    for (name, max, want) in rows {
        match (files.read(alloc, name, *max), want) {
            (Ok(bytes), Ok(want)) => assert_eq!(rt; bytes.as_slice(), *want),
            (Err(fault), Err(want)) => assert_eq!(rt; fault, *want),
            _ => assert!(rt; false, "an answer of the other kind"),
        }
    }
}

#[test]
fn files_in_memory_are_read_and_replaced(rt: HostRuntime) -> Result<(), Fail> {
    let mut names = BTreeMap::new(rt.alloc());
    let name = String::from_str(rt.alloc(), "a")?;
    names.insert(name, Vec::from_slice(rt.alloc(), b"xyz")?)?;
    let failing = Vec::from_slice(rt.alloc(), &[5, 7])?;
    let mut files = MemoryFiles::make(rt.alloc(), names, failing);
    let before: [ReadRow; 3] = [
        ("a", 3, Ok(b"xyz")),
        ("a", 2, Err(FilesFault::TooLong)),
        ("b", 9, Err(FilesFault::Absent)),
    ];
    read_rows(&rt, rt.alloc(), &mut files, &before);
    assert_eq!(rt; files.write("b", b"pq"), Ok(()));
    assert_eq!(rt; files.write("a", b""), Err(Failed));
    let after: [ReadRow; 3] = [
        ("a", 3, Ok(b"xyz")),
        ("b", 2, Err(FilesFault::Failed)),
        ("b", 2, Ok(b"pq")),
    ];
    read_rows(&rt, rt.alloc(), &mut files, &after);
    assert_eq!(rt; files.names().len(), 2);
    Ok(())
}

/// A reader that always fails.
#[derive(Drop)]
struct Broken;

impl Read for Broken {
    fn read(&mut self, _buf: &mut [u8]) -> io::Result<usize> {
        Err(io::Error::from(ErrorKind::Other))
    }
}

#[test]
fn a_real_source_counts_errors(rt: HostRuntime) -> Result<(), Fail> {
    let mut source = RealSource::make(b"abc".as_slice());
    let bytes = read_all(rt.alloc(), &mut source, 3)?;
    assert_eq!(rt; bytes.as_slice(), b"abc".as_slice());
    assert_eq!(rt; source.fault_count(), 0);
    let mut broken = RealSource::make(Broken);
    assert_eq!(rt; broken.read(&mut [0; 4]), Err(Failed));
    assert_eq!(rt; broken.fault_count(), 1);
    Ok(())
}

#[test]
fn a_real_sink_counts_a_piece_not_taken(rt: HostRuntime) {
    let mut room = [b'.'; 2];
    let mut sink = RealSink::make(room.as_mut_slice());
    let calls: [(&[u8], Result<usize, Failed>, u64); 3] = [
        (b"", Ok(0), 0),
        (b"ab", Ok(2), 0),
        (b"c", Err(Failed), 1),
    ];
    for (piece, answer, faults) in calls {
        assert_eq!(rt; sink.write(piece), answer);
        assert_eq!(rt; sink.fault_count(), faults);
    }
}

#[test]
fn real_files_tell_what_is_not_there(rt: HostRuntime) -> Result<(), Fail> {
    let name = "mx_outside_test_file";
    let mut files = RealFiles::make(&rt);
    assert_eq!(rt; files.write(name, b"abc"), Ok(()));
    let rows: [ReadRow; 4] = [
        ("mx_outside_no_file", 9, Err(FilesFault::Absent)),
        (name, 3, Ok(b"abc")),
        (name, 2, Err(FilesFault::TooLong)),
        (".", 9, Err(FilesFault::Failed)),
    ];
    read_rows(&rt, rt.alloc(), &mut files, &rows);
    assert_eq!(rt; files.read_fault_count(), 1);
    assert_eq!(rt; files.write("mx_outside_no_folder/file", b""), Err(Failed));
    assert_eq!(rt; files.write_fault_count(), 1);
    fs::remove_file(&rt, name)?;
    Ok(())
}
