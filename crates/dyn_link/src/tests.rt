use super::*;
use elf_image::{ElfFault, LoadFault, load_dynamic};
use std::alloc::{AllocError, Global};
use std::test::*;

/// Where a number stands in a file, the number, and how many bytes it has.
type Field = (usize, u64, usize);

fn put(bytes: &mut Vec<u8>, field: Field) {
    let (at, value, size) = field;
    let mut place = at;
    for byte in value.to_le_bytes().iter().take(size) {
        if let Some(b) = bytes.get_mut(place) {
            *b = *byte;
        }
        place = place.saturating_add(1);
    }
}

fn build(alloc: Global, len: usize, fields: &[Field]) -> Result<Vec<u8>, AllocError> {
    let mut bytes = vec![in alloc; 0u8; len]?;
    for field in fields {
        put(&mut bytes, *field);
    }
    Ok(bytes)
}

// The file header at 0, four program headers at 64, the dynamic segment of twelve entries at 288, two
// symbols at 512 (0x403000 in memory), relocations at 560 (0x403030), strings at 624 (0x403070), code
// at 768 (0x401000). Slots are from 0x402000 on.
const LINKED: [Field; 56] = [
    (0, 0x0001_0102_464c_457f, 8),
    (16, 2, 2),
    (18, 62, 2),
    (24, 0x40_1000, 8),
    (32, 64, 8),
    (54, 56, 2),
    (56, 4, 2),
    (64, 1, 4),
    (68, 5, 4),
    (72, 768, 8),
    (80, 0x40_1000, 8),
    (96, 12, 8),
    (104, 0x1000, 8),
    (120, 1, 4),
    (124, 6, 4),
    (136, 0x40_2000, 8),
    (160, 0x1000, 8),
    (176, 1, 4),
    (180, 4, 4),
    (184, 512, 8),
    (192, 0x40_3000, 8),
    (208, 0x100, 8),
    (216, 0x100, 8),
    (232, 2, 4),
    (240, 288, 8),
    (264, 192, 8),
    (288, 23, 8),
    (296, 0x40_3030, 8),
    (304, 2, 8),
    (312, 24, 8),
    (320, 20, 8),
    (328, 7, 8),
    (336, 5, 8),
    (344, 0x40_3070, 8),
    (352, 10, 8),
    (360, 6, 8),
    (368, 6, 8),
    (376, 0x40_3000, 8),
    (384, 11, 8),
    (392, 24, 8),
    (400, 1, 8),
    (416, 1, 8),
    (432, 1, 8),
    (448, 1, 8),
    (464, 0, 8),
    (536, 1, 4),
    (540, 0x10, 1),
    (560, 0x40_2000, 8),
    (568, 7, 4),
    (572, 1, 4),
    (584, 0x40_2010, 8),
    (592, 6, 4),
    (596, 1, 4),
    (625, 0x7469_7865, 4),
    (768, 0x2524_ff00_0000_07bf, 8),
    (776, 0x40_2000, 4),
];

const PUTS: Field = (625, 0x7374_7570, 4);

const EXIT: u64 = 0x7000_00fe_00b0;

/// What becomes of a file.
#[derive(Clone, Copy, Debug, PartialEq, Eq)]
enum Answer {
    /// The numbers at 0x402000 and at 0x402010, and how many entries there are.
    Bound(u64, u64, usize),
    Table,
    Reloc(u64),
    Unknown(u64),
    Other,
}

fn slot(image: &elf_image::Image, a: u64) -> Option<u64> {
    let segment = image.segment_at(a)?;
    let place = a.checked_sub(segment.at)?;
    let bytes = segment.bytes.get(place as usize..)?.first_chunk::<8>()?;
    Some(u64::from_le_bytes(*bytes))
}

fn answer_to(alloc: Global, bytes: &[u8]) -> Answer {
    let loaded = match load_dynamic(alloc, bytes) {
        Ok(loaded) => loaded,
        Err(_) => return Answer::Other,
    };
    match bind(alloc, bytes, loaded) {
        Ok(image) => match (slot(&image, 0x40_2000), slot(&image, 0x40_2010)) {
            (Some(first), Some(second)) => Answer::Bound(first, second, image.entries.len()),
            _ => Answer::Other,
        },
        Err(LinkFault::Table) => Answer::Table,
        Err(LinkFault::Reloc(n)) => Answer::Reloc(n),
        Err(LinkFault::Unknown(n)) => Answer::Unknown(n),
        Err(LinkFault::Memory(_)) => Answer::Other,
    }
}

// A table of DT_RELA with one relocation, before that of DT_JMPREL.
const RELA: [Field; 6] = [
    (400, 7, 8),
    (408, 0x40_3048, 8),
    (416, 8, 8),
    (424, 24, 8),
    (432, 9, 8),
    (440, 24, 8),
];

// What is changed, and what becomes of the file.
const ROWS: [([Field; 2], Answer); 28] = [
    ([(768, 0xbf, 1), (768, 0xbf, 1)], Answer::Bound(EXIT, 0, 1)),
    ([(568, 6, 4), (540, 0, 1)], Answer::Bound(EXIT, 0, 1)),
    ([PUTS, (540, 0x10, 1)], Answer::Unknown(0)),
    ([PUTS, (540, 0x20, 1)], Answer::Bound(0, 0, 0)),
    ([(568, 5, 4), (540, 0x20, 1)], Answer::Reloc(0)),
    ([(312, 48, 8), (540, 0x20, 1)], Answer::Bound(EXIT, EXIT, 1)),
    (
        [(312, 48, 8), (584, 0x40_2001, 8)],
        Answer::Bound(0x0070_0000_fe00_b0b0, 0, 1),
    ),
    ([PUTS, (312, 48, 8)], Answer::Unknown(0)),
    ([(312, 48, 8), (592, 8, 4)], Answer::Reloc(1)),
    ([(208, 0x40, 8), (216, 0x40, 8)], Answer::Table),
    ([(264, 128, 8), (464, 0, 8)], Answer::Table),
    ([(464, 1, 8), (464, 1, 8)], Answer::Table),
    ([(400, 2, 8), (408, 24, 8)], Answer::Table),
    ([(400, 0, 8), (416, 2, 8)], Answer::Bound(EXIT, 0, 1)),
    ([(240, u64::MAX, 8), (264, 2, 8)], Answer::Table),
    ([(296, u64::MAX, 8), (312, 24, 8)], Answer::Table),
    ([(312, 25, 8), (312, 25, 8)], Answer::Table),
    ([(328, 17, 8), (328, 17, 8)], Answer::Table),
    ([(400, 7, 8), (400, 7, 8)], Answer::Table),
    ([(384, 1, 8), (384, 1, 8)], Answer::Table),
    ([(384, 1, 8), (288, 1, 8)], Answer::Bound(0, 0, 0)),
    ([(360, u64::MAX, 8), (360, u64::MAX, 8)], Answer::Table),
    ([(360, 5, 8), (360, 5, 8)], Answer::Reloc(0)),
    ([(376, u64::MAX, 8), (376, u64::MAX, 8)], Answer::Reloc(0)),
    ([(572, u32::MAX as u64, 4), (568, 7, 4)], Answer::Reloc(0)),
    ([(560, 0x40_2ff9, 8), (568, 7, 4)], Answer::Reloc(0)),
    ([(560, 0x40_3000, 8), (568, 7, 4)], Answer::Reloc(0)),
    ([(629, 0x78, 1), (360, 7, 8)], Answer::Unknown(0)),
];

#[test]
fn each_row_has_its_answer(rt: HostRuntime) -> Result<(), Fail> {
    let alloc = rt.alloc();
    for (fields, wanted) in ROWS {
        let mut bytes = build(alloc, 784, &LINKED)?;
        for field in fields {
            put(&mut bytes, field);
        }
        assert_eq!(rt; answer_to(alloc, &bytes), wanted, "{fields:?}");
    }
    Ok(())
}

#[test]
fn the_first_table_is_counted_first(rt: HostRuntime) -> Result<(), Fail> {
    let alloc = rt.alloc();
    let mut bytes = build(alloc, 784, &LINKED)?;
    for field in RELA {
        put(&mut bytes, field);
    }
    assert_eq!(rt; answer_to(alloc, &bytes), Answer::Bound(EXIT, EXIT, 1));
    put(&mut bytes, (568, 5, 4));
    assert_eq!(rt; answer_to(alloc, &bytes), Answer::Reloc(1));
    put(&mut bytes, (592, 5, 4));
    assert_eq!(rt; answer_to(alloc, &bytes), Answer::Reloc(0));
    put(&mut bytes, (440, 23, 8));
    assert_eq!(rt; answer_to(alloc, &bytes), Answer::Table);
    Ok(())
}

#[test]
fn files_without_a_dynamic_segment_stay(rt: HostRuntime) -> Result<(), Fail> {
    let alloc = rt.alloc();
    let mut bytes = build(alloc, 784, &LINKED)?;
    put(&mut bytes, (232, 4, 4));
    assert_eq!(rt; answer_to(alloc, &bytes), Answer::Bound(0, 0, 0));
    put(&mut bytes, (232, 3, 4));
    let interpreted = matches!(
        load_dynamic(alloc, &bytes),
        Err(LoadFault::Fault(ElfFault::Dynamic))
    );
    assert!(rt; interpreted);
    Ok(())
}
