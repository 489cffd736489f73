use super::*;
use elf_image::{Image, load};
use std::alloc::{AllocError, Global};
use std::test::*;

const P1: [u8; 10] = [0xbf, 7, 0, 0, 0, 0xe9, 0xf6, 0x0e, 0, 0];

const P2: [u8; 27] = [
    0xbf, 1, 0, 0, 0, 0xbe, 0x40, 0x10, 0x40, 0, 0xba, 3, 0, 0, 0, 0xe8, 0xfc, 0x0e, 0, 0, 0x31,
    0xff, 0xe8, 0xe5, 0x0e, 0, 0,
];

const P2_TEXT: [u8; 3] = [0x68, 0x69, 0x0a];

fn is_same(a: &Image, b: &Image) -> bool {
    let segments = a.segments.iter().zip(b.segments.iter()).all(|(s, t)| {
        (s.at, s.size, s.r, s.w, s.x) == (t.at, t.size, t.r, t.w, t.x)
            && s.bytes.as_slice() == t.bytes.as_slice()
    });
    segments
        && a.segments.len() == b.segments.len()
        && a.entry == b.entry
        && a.entries.as_slice() == b.entries.as_slice()
}

// Whether the file of the image, which has at most 16 segments, is loaded as the image.
fn is_read_back(alloc: Global, image: &Image) -> Result<bool, Fail> {
    if image.segments.len() > 16 {
        return Ok(false);
    }
    let bytes = write_elf(alloc, image)?;
    let read = load(alloc, &bytes).ok().ok_or("the file is loaded")?;
    Ok(is_same(image, &read))
}

#[test]
fn the_row_image_has_its_pieces_and_is_read_back(rt: HostRuntime) -> Result<(), Fail> {
    let alloc = rt.alloc();
    let code = Piece {
        at: 0x40_1000,
        bytes: &P2,
    };
    let text = Piece {
        at: 0x40_1040,
        bytes: &P2_TEXT,
    };
    let across = Piece {
        at: 0x40_1ffe,
        bytes: &P1,
    };
    let image = row_image(alloc, &[code, text, across])?;
    let first = image.segment_at(0x40_1000).ok_or("code is there")?;
    let second = image.segment_at(0x40_2000).ok_or("data is there")?;
    assert!(rt; first.bytes.starts_with(&P2));
    assert_eq!(rt;
        first.bytes.get(0x3f..0x44),
        Some([0xcc, 0x68, 0x69, 0x0a, 0xcc].as_slice())
    );
    assert!(rt; first.bytes.ends_with(&[0xcc, 0xbf, 7]));
    assert!(rt;
        second
            .bytes
            .starts_with(&[0, 0, 0, 0xe9, 0xf6, 0x0e, 0, 0, 0])
    );
    assert_eq!(rt; (image.entry, image.entries.len()), (0x40_1000, 21));
    assert!(rt; is_read_back(alloc, &image)?);
    let exits = row_image(
        alloc,
        &[Piece {
            at: 0x40_1000,
            bytes: &P1,
        }],
    )?;
    assert!(rt; is_read_back(alloc, &exits)?);
    assert!(rt; !is_same(&image, &exits));
    Ok(())
}

fn put(bytes: &mut Vec<u8>, at: usize, number: u64) {
    for (i, byte) in number.to_le_bytes().iter().enumerate() {
        if let Some(b) = bytes.get_mut(at.saturating_add(i)) {
            *b = *byte;
        }
    }
}

// The header of a file with no sections and sixteen segments of one zero byte, 0x800 bytes apart, the
// first of which can be run and each other written.
fn sixteen_segments(alloc: Global) -> Result<Vec<u8>, AllocError> {
    let mut bytes = vec![in alloc; 0u8; 64 + 16 * 56]?;
    for (at, number) in [
        (0, 0x0001_0102_464c_457f),
        (16, 0x0000_0001_003e_0002),
        (24, 0x40_0000),
        (32, 64),
        (52, 0x0010_0038_0040),
    ] {
        put(&mut bytes, at, number);
    }
    for i in 0..16u64 {
        let at = 64 + 56 * i as usize;
        put(
            &mut bytes,
            at,
            if i == 0 { 0x5_0000_0001 } else { 0x6_0000_0001 },
        );
        put(&mut bytes, at + 16, 0x40_0000 + 0x800 * i);
        put(&mut bytes, at + 40, 1);
    }
    Ok(bytes)
}

#[test]
fn sixteen_segments_and_no_places_are_read_back(rt: HostRuntime) -> Result<(), Fail> {
    let alloc = rt.alloc();
    let many = sixteen_segments(alloc)?;
    let image = load(alloc, &many).ok().ok_or("the file is loaded")?;
    assert_eq!(rt; (image.segments.len(), image.entries.len()), (16, 0));
    assert!(rt; is_read_back(alloc, &image)?);
    Ok(())
}
