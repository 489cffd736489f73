use crate::Entry::*;
use crate::{
    Entry, GrowingJournal, HEAD, Journal, PackFailure, PackFault, at_most_28_bytes, no_prefix,
    one_journal, pack, unpack,
};
use std::alloc::Global;
use std::process::Abort;

const GREATEST: u32 = 0xffff_ffff;

const LAST: u64 = 0xffff_ffff_ffff_ffff;

/// Entries of each kind and their bytes, behind the head.
fn rows() -> [(Entry, &'static [u8]); 12] {
    [
        (Ev(0, 2), b"\x00\x00\x02"),
        (Tick(63, 1), b"\x01\x3f\x01"),
        (Tick(128, 4096), b"\x01\x80\x01\x80\x20"),
        (Flush(127), b"\x02\x7f"),
        (Wait(GREATEST, 4096), b"\x03\xff\xff\xff\xff\x0f\x80\x20"),
        (
            Miss(1, 0, 0, 0x40_1100),
            b"\x04\x01\x00\x00\x80\xa2\x80\x02",
        ),
        (
            Miss(GREATEST, 4096, LAST, LAST),
            b"\x04\xff\xff\xff\xff\x0f\x80\x20\xff\xff\xff\xff\xff\xff\xff\xff\xff\x01\xff\xff\xff\xff\xff\xff\xff\xff\xff\x01",
        ),
        (Grow(1, 0x40_1100), b"\x05\x01\x80\xa2\x80\x02"),
        (Over(0, 0), b"\x06\x00\x00"),
        (Over(0, 4096), b"\x06\x00\x80\x20"),
        (Full(64), b"\x07\x40"),
        (Dead, b"\x08"),
    ]
}

#[test]
fn spells_each_kind(rt: HostRuntime) {
    for (entry, spelling) in rows() {
        assert!(rt; entry.has_spelling());
        let Ok(bytes) = pack(rt.alloc(), &[entry]) else {
            panic!(rt; "no memory")
        };
        assert_eq!(rt; bytes[..4], *HEAD);
        assert_eq!(rt; bytes[4..], *spelling, "{entry:?}");
        let Ok(entries) = unpack(rt.alloc(), &bytes) else {
            panic!(rt; "not read: {entry:?}")
        };
        assert_eq!(rt; entries.as_slice(), [entry].as_slice());
        for end in 0..bytes.len() as u64 {
            let offset = if end < 4 { 0 } else { 4 };
            if end != 4 {
                refuses(&rt, rt.alloc(), &bytes[..end as usize], offset);
            }
        }
    }
    one_journal();
    no_prefix();
    at_most_28_bytes();
}

/// Both readers refuse the bytes at the offset.
fn refuses(rt: &impl Abort, alloc: Global, bytes: &[u8], offset: u64) {
    match unpack(alloc, bytes) {
        Err(PackFailure::Fault(fault)) => assert_eq!(rt; fault.offset, offset, "{bytes:?}"),
        _ => panic!(rt; "read {bytes:?}"),
    }
    let Ok(bytes) = Vec::from_slice(alloc, bytes) else {
        panic!(rt; "no memory")
    };
    let Err(PackFault { offset: place }) = Journal::from_bytes(bytes) else {
        panic!(rt; "read")
    };
    assert_eq!(rt; place, offset);
}

#[test]
fn refuses_with_the_offset(rt: HostRuntime) {
    let rows: [(&[u8], u64); 17] = [
        (b"", 0),
        (b"XJ0", 0),
        (b"XJ02", 0),
        (b"xJ01\x08", 0),
        (b"XJ01\x01\x00\x00", 4),
        (b"XJ01\x00\x00\x82\x00", 4),
        (b"XJ01\x03\x00\x00", 4),
        (b"XJ01\x09", 4),
        (b"XJ01\x08\x00\x00\x02\x09", 8),
        (b"XJ01\x00\x80\x80\x80\x80\x10\x00", 4),
        (b"XJ01\x00\x00\x81\x20", 4),
        (b"XJ01\x06\x00\x81\x20", 4),
        (b"XJ01\x05\x00\xff\xff\xff\xff\xff\xff\xff\xff\xff\x02", 4),
        (
            b"XJ01\x05\x00\x80\x80\x80\x80\x80\x80\x80\x80\x80\x80\x01",
            4,
        ),
        (b"XJ01\x02\x80\x00", 4),
        (b"XJ01\x02\x00\x02", 6),
        (b"XJ01\x08\x01\x00\x00", 5),
    ];
    for (bytes, offset) in rows {
        refuses(&rt, rt.alloc(), bytes, offset);
    }
    for entry in [
        Tick(0, 0),
        Wait(0, 0),
        Ev(0, 4097),
        Over(0, 4097),
        Miss(0, 4097, 0, 0),
    ] {
        assert!(rt; !entry.has_spelling());
    }
}

#[test]
fn grows_in_its_room(rt: HostRuntime) {
    let mut growing = GrowingJournal::new(rt.alloc());
    let Ok(()) = growing.reserve(10) else {
        panic!(rt; "no memory")
    };
    let rows = rows();
    for (entry, _) in &rows[..10] {
        let room = growing.spare();
        assert!(rt; room > 0 && entry.has_spelling());
        growing.push(*entry);
    }
    let journal = growing.into_journal();
    journal.facts();
    assert_eq!(rt; journal.len(), 10);
    let mut walk = journal.walk();
    for (entry, _) in &rows[..10] {
        assert_eq!(rt; walk.next(), Some(*entry));
    }
    assert_eq!(rt; walk.next(), None);
    let Ok(entries) = journal.entries(rt.alloc()) else {
        panic!(rt; "no memory")
    };
    let Ok(unpacked) = unpack(rt.alloc(), journal.bytes()) else {
        panic!(rt; "not read")
    };
    assert_eq!(rt; unpacked.len(), 10);
    assert_eq!(rt; unpacked.as_slice(), entries.as_slice());
    let Ok(bytes) = Vec::from_slice(rt.alloc(), journal.bytes()) else {
        panic!(rt; "no memory")
    };
    let Ok(read) = Journal::from_bytes(bytes) else {
        panic!(rt; "not read")
    };
    assert_eq!(rt; read.bytes(), journal.bytes());
    assert_eq!(rt; read.len(), 10);
}

#[test]
fn begins_with_nothing(rt: HostRuntime) {
    let journal = Journal::new(rt.alloc());
    assert!(rt; journal.is_empty());
    assert_eq!(rt; journal.bytes(), HEAD);
    assert!(rt; journal.walk().next().is_none());
    let mut growing = GrowingJournal::new(rt.alloc());
    assert_eq!(rt; growing.spare(), 0);
    assert_eq!(rt; growing.len(), 0);
    assert!(rt; growing.reserve(LAST).is_err());
    assert_eq!(rt; growing.into_journal().len(), 0);
    assert_eq!(rt; Dead.thread(), None);
    assert_eq!(rt; Miss(7, 3, 0, 0).thread(), Some(7));
    assert_eq!(rt; Miss(7, 3, 0, 0).private_steps(), 3);
}
