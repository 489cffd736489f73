//! Files that may be linked dynamically: the small file with its second header or its second symbol
//! changed.

use super::*;

fn fault_dynamic(alloc: Global, bytes: &[u8]) -> Option<ElfFault> {
    match load_dynamic(alloc, bytes) {
        Err(LoadFault::Fault(fault)) => Some(fault),
        _ => None,
    }
}

// What is changed, and the fault: two dynamic segments; an interpreter alone; functions at the first
// and the last address that is kept, and beside them.
const ROWS: [([Field; 2], Option<ElfFault>); 8] = [
    ([(64, 2, 4), (120, 2, 4)], Some(ElfFault::Dynamic)),
    ([(120, 3, 4), (120, 3, 4)], Some(ElfFault::Dynamic)),
    ([(120, 2, 4), (120, 2, 4)], None),
    ([(120, 4, 4), (18, 3, 2)], Some(ElfFault::Kind)),
    (
        [(424, 0x7000_00fe_0000, 8), (420, 0x10, 1)],
        Some(ElfFault::LibClash(0x7000_00fe_0000)),
    ),
    (
        [(424, 0x7000_00fe_014f, 8), (400, 0x7000_00fe_014e, 8)],
        Some(ElfFault::LibClash(0x7000_00fe_014e)),
    ),
    (
        [(424, 0x7000_00fe_0150, 8), (400, 0x7000_00fd_ffff, 8)],
        None,
    ),
    ([(424, 0x7000_00fe_0000, 8), (420, 0, 1)], None),
];

#[test]
fn dynamic_files_are_read(rt: HostRuntime) -> Result<(), Fail> {
    let alloc = rt.alloc();
    for (fields, fault) in ROWS {
        let mut bytes = build(alloc, 461, &SMALL)?;
        for field in fields {
            put(&mut bytes, field);
        }
        assert_eq!(rt; fault_dynamic(alloc, &bytes), fault);
    }
    Ok(())
}

#[test]
fn the_dynamic_segment_is_told(rt: HostRuntime) -> Result<(), Fail> {
    let alloc = rt.alloc();
    let mut bytes = build(alloc, 461, &SMALL)?;
    let loaded = load_dynamic(alloc, &bytes).ok().ok_or("it is static")?;
    assert_eq!(rt; loaded.dynamic, None);
    for field in [(120, 2, 4), (128, 7, 8), (152, 9, 8)] {
        put(&mut bytes, field);
    }
    let loaded = load_dynamic(alloc, &bytes).ok().ok_or("it is dynamic")?;
    assert_eq!(rt; loaded.dynamic, Some(Range { offset: 7, size: 9 }));
    assert_eq!(rt; loaded.image.segments.len(), 1);
    assert_eq!(rt; fault_of(alloc, &bytes), Some(ElfFault::Dynamic));
    Ok(())
}
