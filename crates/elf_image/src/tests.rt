use super::*;
use std::alloc::{AllocError, Global};
use std::test::*;

mod dynamic;
mod linked;

/// Where a number stands in a file, the number, and how many bytes it has.
type Field = (usize, u64, usize);

fn put(bytes: &mut Vec<u8>, field: Field) {
    let (at, value, size) = field;
    let mut place = at;
    for byte in value.to_le_bytes().iter().take(size) {
        if let Some(b) = bytes.get_mut(place) {
            *b = *byte;
        }
        place = place.saturating_add(1);
    }
}

fn build(alloc: Global, len: usize, fields: &[Field]) -> Result<Vec<u8>, AllocError> {
    let mut bytes = vec![in alloc; 0u8; len]?;
    for field in fields {
        put(&mut bytes, *field);
    }
    Ok(bytes)
}

// The file header at 0, two program headers at 64, three section headers at 176, three symbols at
// 368, strings at 440, code at 451.
const SMALL: [Field; 43] = [
    (0, 0x0001_0102_464c_457f, 8),
    (16, 2, 2),
    (18, 62, 2),
    (24, 0x40_1000, 8),
    (32, 64, 8),
    (40, 176, 8),
    (54, 56, 2),
    (56, 2, 2),
    (58, 64, 2),
    (60, 3, 2),
    (64, 1, 4),
    (68, 5, 4),
    (72, 451, 8),
    (80, 0x40_1000, 8),
    (96, 10, 8),
    (104, 0x1000, 8),
    (120, 1, 4),
    (124, 6, 4),
    (136, 0x40_2000, 8),
    (152, 0, 8),
    (160, 0x1000, 8),
    (244, 2, 4),
    (264, 368, 8),
    (272, 72, 8),
    (280, 2, 4),
    (296, 24, 8),
    (308, 3, 4),
    (328, 440, 8),
    (336, 11, 8),
    (392, 1, 4),
    (396, 0x12, 1),
    (398, 1, 2),
    (400, 0x40_1f00, 8),
    (416, 6, 4),
    (420, 0x10, 1),
    (422, 1, 2),
    (424, 0x40_1f20, 8),
    (440, 0, 1),
    (441, 0x7469_7865, 4),
    (445, 0, 1),
    (446, 0x6461_6572, 4),
    (451, 0x0ef6_e900_0000_07bf, 8),
    (459, 0, 2),
];

// A number that makes the small file faulty, the fault, and a number in its place that doesn't. Each
// fault comes at least once, and the fields that claim most are at their greatest values.
const BREAKS: [(Field, ElfFault, u64); 31] = [
    ((4, 1, 1), ElfFault::NotElf64, 2),
    ((6, 2, 1), ElfFault::NotElf64, 1),
    ((16, 3, 2), ElfFault::Kind, 2),
    ((18, 3, 2), ElfFault::Kind, 62),
    ((54, 32, 2), ElfFault::Headers(0), 56),
    ((32, u64::MAX, 8), ElfFault::Headers(0), 64),
    ((40, u64::MAX, 8), ElfFault::Headers(1), 176),
    ((58, 63, 2), ElfFault::Headers(1), 64),
    ((60, 0xffff, 2), ElfFault::Headers(1), 3),
    ((120, 2, 4), ElfFault::Dynamic, 4),
    ((120, 3, 4), ElfFault::Dynamic, 1),
    ((72, u64::MAX, 8), ElfFault::Segment(0), 0),
    ((96, u64::MAX, 8), ElfFault::Segment(0), 10),
    ((104, u64::MAX, 8), ElfFault::Segment(0), 0x1000),
    ((96, 0x1001, 8), ElfFault::Segment(0), 10),
    (
        (136, (1 << 47) - 0xfff, 8),
        ElfFault::Segment(1),
        (1 << 47) - 0x1000,
    ),
    ((68, 7, 4), ElfFault::WriteExec(0), 1),
    ((124, 7, 4), ElfFault::WriteExec(1), 4),
    ((136, 0x40_1fff, 8), ElfFault::Overlap(0, 1), 0x40_0000),
    ((136, 0x40_0001, 8), ElfFault::Overlap(0, 1), 0x40_0000),
    ((160, 0x3ff_f001, 8), ElfFault::Size, 0x3ff_f000),
    ((296, 25, 8), ElfFault::Symbols(1), 24),
    ((272, 71, 8), ElfFault::Symbols(1), 48),
    ((264, u64::MAX, 8), ElfFault::Symbols(1), 368),
    ((272, u64::MAX, 8), ElfFault::Symbols(1), 48),
    ((280, 3, 4), ElfFault::Symbols(1), 2),
    ((280, u32::MAX as u64, 4), ElfFault::Symbols(1), 2),
    ((336, u64::MAX, 8), ElfFault::Symbols(1), 0),
    (
        (424, 0x40_1f00, 8),
        ElfFault::LibClash(0x40_1f00),
        0x40_1f01,
    ),
    ((24, 0x40_2000, 8), ElfFault::Entry, 0x40_1fff),
    ((24, 0, 8), ElfFault::Entry, 0x40_1000),
];

fn fault_of(alloc: Global, bytes: &[u8]) -> Option<ElfFault> {
    match load(alloc, bytes) {
        Err(LoadFault::Fault(fault)) => Some(fault),
        _ => None,
    }
}

#[test]
fn each_fault_is_refused_and_the_mended_file_accepted(rt: HostRuntime) -> Result<(), Fail> {
    let alloc = rt.alloc();
    for ((at, broken, size), fault, mended) in BREAKS {
        let mut bytes = build(alloc, 461, &SMALL)?;
        put(&mut bytes, (at, broken, size));
        assert_eq!(rt; fault_of(alloc, &bytes), Some(fault), "at {at}: {broken}");
        put(&mut bytes, (at, mended, size));
        assert!(rt; load(alloc, &bytes).is_ok(), "at {at}: {mended}");
    }
    Ok(())
}

// Faults from the last to the first, each put into the file that has all after it.
const ORDER: [(Field, ElfFault); 12] = [
    ((24, 0, 8), ElfFault::Entry),
    ((424, 0x40_1f00, 8), ElfFault::LibClash(0x40_1f00)),
    ((296, 25, 8), ElfFault::Symbols(1)),
    ((160, 0x3ff_f001, 8), ElfFault::Size),
    ((136, 0x40_1fff, 8), ElfFault::Overlap(0, 1)),
    ((68, 7, 4), ElfFault::WriteExec(0)),
    ((96, 0x1001, 8), ElfFault::Segment(0)),
    ((64, 2, 4), ElfFault::Dynamic),
    ((58, 63, 2), ElfFault::Headers(1)),
    ((54, 32, 2), ElfFault::Headers(0)),
    ((18, 3, 2), ElfFault::Kind),
    ((0, 0, 1), ElfFault::NotElf64),
];

#[test]
fn the_first_fault_is_answered(rt: HostRuntime) -> Result<(), Fail> {
    let alloc = rt.alloc();
    let mut bytes = build(alloc, 461, &SMALL)?;
    for (field, fault) in ORDER {
        put(&mut bytes, field);
        assert_eq!(rt; fault_of(alloc, &bytes), Some(fault));
    }
    bytes.truncate(63);
    assert_eq!(rt; fault_of(alloc, &bytes), Some(ElfFault::Short));
    Ok(())
}

#[test]
fn short_files_are_refused(rt: HostRuntime) -> Result<(), Fail> {
    let alloc = rt.alloc();
    assert_eq!(rt; fault_of(alloc, &[]), Some(ElfFault::Short));
    let mut header = build(alloc, 64, &SMALL)?;
    for field in [(32, 64, 8), (40, 0, 8), (56, 1, 2), (60, 0, 2)] {
        put(&mut header, field);
    }
    assert_eq!(rt; fault_of(alloc, &header), Some(ElfFault::Headers(0)));
    Ok(())
}

// Addresses and sizes of segments in the order of their headers, and the first two that overlap.
const OVERLAPS: [([(u64, u64); 5], (u32, u32)); 5] = [
    (
        [(0x10, 0x10), (0x50, 9), (0x30, 9), (0x20, 0x100), (0x18, 1)],
        (0, 4),
    ),
    (
        [(0x900, 1), (0x50, 9), (0x30, 9), (0x20, 0x100), (0x38, 1)],
        (1, 3),
    ),
    (
        [(0x900, 1), (0x50, 9), (0x30, 9), (0x38, 1), (0x30, 9)],
        (2, 3),
    ),
    (
        [(0x900, 1), (0x50, 9), (0x30, 9), (0x20, 0), (0x58, 1)],
        (1, 4),
    ),
    (
        [(0x10, 1), (0x10, 1), (0x10, 1), (0x10, 1), (0x10, 1)],
        (0, 1),
    ),
];

#[test]
fn the_least_pair_overlaps(rt: HostRuntime) -> Result<(), Fail> {
    let alloc = rt.alloc();
    for (spans, (n, m)) in OVERLAPS {
        let mut bytes = build(alloc, 64 + 56 * 5, &SMALL[..4])?;
        for field in [(32, 64, 8), (54, 56, 2), (56, 5, 2)] {
            put(&mut bytes, field);
        }
        let mut header: usize = 64;
        for (at, size) in spans {
            put(&mut bytes, (header, 0x5_0000_0001, 8));
            put(&mut bytes, (header.saturating_add(16), at, 8));
            put(&mut bytes, (header.saturating_add(40), size, 8));
            header = header.saturating_add(56);
        }
        assert_eq!(rt; fault_of(alloc, &bytes), Some(ElfFault::Overlap(n, m)));
    }
    Ok(())
}

#[test]
fn faults_are_numbered(rt: HostRuntime) -> Result<(), Fail> {
    let mut number = 12;
    for (_, fault) in ORDER {
        if fault != ElfFault::Headers(0) {
            assert_eq!(rt; fault.number(), number);
            number -= 1;
        }
    }
    assert_eq!(rt; ElfFault::Headers(0).number(), 4);
    assert_eq!(rt; ElfFault::Short.number(), 1);
    Ok(())
}

// A symbol's number in the small file, and whether `read` is placed by it.
const SYMBOLS: [(Field, bool); 8] = [
    ((422, 0, 2), false),
    ((420, 0x02, 1), false),
    ((420, 0x11, 1), false),
    ((420, 0x22, 1), true),
    ((416, 7, 4), false),
    ((416, 11, 4), false),
    ((416, 0xffff_ffff, 4), false),
    ((336, 10, 8), false),
];

#[test]
fn a_symbol_places_a_function_by_its_name_binding_and_type(rt: HostRuntime) -> Result<(), Fail> {
    let alloc = rt.alloc();
    for (field, placed) in SYMBOLS {
        let mut bytes = build(alloc, 461, &SMALL)?;
        put(&mut bytes, field);
        let image = load(alloc, &bytes).ok().ok_or("the file is loaded")?;
        let at = field.0;
        assert_eq!(rt;
            image.function_at(0x40_1f20),
            if placed { Some(Function::Read) } else { None },
            "at {at}"
        );
        assert_eq!(rt; image.function_at(0x40_1f00), Some(Function::Exit));
    }
    Ok(())
}

const PLACES: [(&[u8], u64, Function); 21] = [
    (b"pthread_cond_init\0", 0x40_1e00, Function::CondInit),
    (b"pthread_cond_destroy\0", 0x40_1e10, Function::CondDestroy),
    (b"pthread_cond_wait\0", 0x40_1e20, Function::CondWait),
    (b"pthread_cond_signal\0", 0x40_1e30, Function::CondSignal),
    (
        b"pthread_cond_broadcast\0",
        0x40_1e40,
        Function::CondBroadcast,
    ),
    (b"pthread_barrier_init\0", 0x40_1e50, Function::BarrierInit),
    (b"pthread_barrier_wait\0", 0x40_1e60, Function::BarrierWait),
    (
        b"pthread_barrier_destroy\0",
        0x40_1e70,
        Function::BarrierDestroy,
    ),
    (b"pthread_once\0", 0x40_1e80, Function::Once),
    (b"exit\0", 0x40_1f00, Function::Exit),
    (b"write\0", 0x40_1f10, Function::Write),
    (b"read\0", 0x40_1f20, Function::Read),
    (b"pthread_create\0", 0x40_1f30, Function::PthreadCreate),
    (b"pthread_join\0", 0x40_1f40, Function::PthreadJoin),
    (b"pthread_self\0", 0x40_1f50, Function::PthreadSelf),
    (b"pthread_mutex_init\0", 0x40_1f60, Function::MutexInit),
    (b"pthread_mutex_lock\0", 0x40_1f70, Function::MutexLock),
    (
        b"pthread_mutex_trylock\0",
        0x40_1f80,
        Function::MutexTrylock,
    ),
    (b"pthread_mutex_unlock\0", 0x40_1f90, Function::MutexUnlock),
    (
        b"pthread_mutex_destroy\0",
        0x40_1fa0,
        Function::MutexDestroy,
    ),
    (b"bsearch\0", 0x40_1fb0, Function::Bsearch),
];

// The small file's headers with one segment of 0x1000 bytes from 0x1000 on, another of zeros, and a
// symbol of each function, the last first.
fn row_file(alloc: Global) -> Result<Vec<u8>, AllocError> {
    let mut bytes = build(alloc, 368, &SMALL)?;
    let mut strings = Vec::new(alloc);
    for (name, at, _) in PLACES.iter().rev() {
        let mut symbol = build(alloc, 24, &[(4, 0x12, 1), (6, 1, 2)])?;
        put(&mut symbol, (0, strings.len() as u64, 4));
        put(&mut symbol, (8, *at, 8));
        bytes.extend_from_slice(&symbol)?;
        strings.extend_from_slice(name)?;
    }
    let end = strings.len() as u64;
    bytes.extend_from_slice(&strings)?;
    bytes.resize(0x1000, 0)?;
    bytes.extend_from_slice(&[0xbf, 7, 0, 0, 0, 0xe9, 0xf6, 0x0e, 0, 0])?;
    bytes.resize(0x2000, 0xcc)?;
    for field in [
        (72, 0x1000, 8),
        (96, 0x1000, 8),
        (272, 504, 8),
        (328, 872, 8),
        (336, end, 8),
    ] {
        put(&mut bytes, field);
    }
    Ok(bytes)
}

#[test]
fn the_image_has_its_segments_and_its_places_in_order(rt: HostRuntime) -> Result<(), Fail> {
    let alloc = rt.alloc();
    let bytes = row_file(alloc)?;
    let image = load(alloc, &bytes).ok().ok_or("the file is loaded")?;
    assert_eq!(rt; image.entry, 0x40_1000);
    assert_eq!(rt; image.segments.len(), 2);
    let code = image.segment_at(0x40_1fff).ok_or("code is there")?;
    assert_eq!(rt; (code.at, code.size), (0x40_1000, 0x1000));
    assert_eq!(rt; (code.r, code.w, code.x), (true, false, true));
    assert!(rt; code.bytes.len() == 0x1000 && bytes.ends_with(&code.bytes));
    let data = image.segment_at(0x40_2000).ok_or("data is there")?;
    assert_eq!(rt; (data.at, data.size), (0x40_2000, 0x1000));
    assert_eq!(rt; (data.r, data.w, data.x), (true, true, false));
    assert!(rt; data.bytes.len() == 0x1000 && data.bytes.iter().all(|b| *b == 0));
    assert!(rt; image.segment_at(0x40_0fff).is_none());
    assert!(rt; image.segment_at(0x40_3000).is_none());
    assert_eq!(rt; image.entries.len(), 21);
    for (place, (_, at, function)) in image.entries.iter().zip(PLACES.iter()) {
        assert_eq!(rt; (place.at, place.function), (*at, *function));
        assert_eq!(rt; image.function_at(*at), Some(*function));
        assert_eq!(rt; image.function_at(at.saturating_add(1)), None);
    }
    Ok(())
}
