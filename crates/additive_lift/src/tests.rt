// Programs that are loaded from a file; the rows are worked by hand.
use super::*;
use crate::lent::Lent;
use elf_image::{Image, load};
use std::alloc::Global;
use std::process::Abort;
use std::test::Fail;

// Where a number stands in the file, the number, and how many bytes it has.
type Field = (usize, u64, usize);

// The file header at 0, two program headers at 64, three section headers at 176, four symbols at 368 (exit at
// 0x401f00, write at 0x401f10, pthread_create and pthread_join at 0x401f30 and 0x401f40), strings at 488, code at 536.
// The code is at 0x401000 and can be run, the data at 0x600000 in 0x1000 bytes that can be written.
const FILE: [Field; 56] = [
    (0, 0x0001_0102_464c_457f, 8),
    (16, 2, 2),
    (18, 62, 2),
    (24, 0x40_1000, 8),
    (32, 64, 8),
    (40, 176, 8),
    (54, 56, 2),
    (56, 2, 2),
    (58, 64, 2),
    (60, 3, 2),
    (64, 1, 4),
    (68, 5, 4),
    (72, 536, 8),
    (80, 0x40_1000, 8),
    (120, 1, 4),
    (124, 6, 4),
    (136, 0x60_0000, 8),
    (152, 0, 8),
    (160, 0x1000, 8),
    (244, 2, 4),
    (264, 368, 8),
    (272, 120, 8),
    (280, 2, 4),
    (296, 24, 8),
    (308, 3, 4),
    (328, 488, 8),
    (336, 40, 8),
    (392, 1, 4),
    (396, 0x12, 1),
    (398, 1, 2),
    (400, 0x40_1f00, 8),
    (416, 6, 4),
    (420, 0x12, 1),
    (422, 1, 2),
    (424, 0x40_1f10, 8),
    (440, 12, 4),
    (444, 0x12, 1),
    (446, 1, 2),
    (448, 0x40_1f30, 8),
    (464, 27, 4),
    (468, 0x12, 1),
    (470, 1, 2),
    (472, 0x40_1f40, 8),
    (488, 0, 1),
    (489, 0x7469_7865, 4),
    (493, 0, 1),
    (494, 0x7469_7277, 4),
    (498, 0x65, 1),
    (499, 0, 1),
    (500, 0x5f64_6165_7268_7470, 8),
    (508, 0x6574_6165_7263, 6),
    (514, 0, 1),
    (515, 0x5f64_6165_7268_7470, 8),
    (523, 0x6e69_6f6a, 4),
    (527, 0, 1),
    (528, 0, 8),
];

fn write(bytes: &mut [u8], (at, value, size): Field) {
    let mut place = at;
    for byte in value.to_le_bytes().iter().take(size) {
        if let Some(b) = bytes.get_mut(place) {
            *b = *byte;
        }
        place = place.saturating_add(1);
    }
}

// The program with this code at 0x401000.
fn program(alloc: Global, code: &[u8]) -> Result<Image, Fail> {
    let mut bytes = vec![in alloc; 0u8; 536]?;
    for field in FILE {
        write(&mut bytes, field);
    }
    write(&mut bytes, (96, code.len() as u64, 8));
    write(&mut bytes, (104, code.len() as u64, 8));
    bytes.extend_from_slice(code)?;
    let image = load(alloc, &bytes).ok().ok_or("the file is loaded")?;
    Ok(image)
}

// The code with CC behind it up to 0x402000, which is no instruction of the subset.
fn small(alloc: Global, code: &[u8]) -> Result<Image, Fail> {
    let mut all = code.to_vec(alloc)?;
    for _ in code.len()..0x1000 {
        all.push(0xcc)?;
    }
    program(alloc, &all)
}

// What is reached from these roots and known places.
fn expect(
    rt: &impl Abort,
    alloc: Global,
    image: &Image,
    roots: &[u64],
    known: &[u64],
    want: &[u64],
) -> Result<(), Fail> {
    let places = reach(alloc, image, roots, known).ok().ok_or("reached")?;
    assert!(rt; places.as_slice() == want, "{places:?}");
    Ok(())
}

// The same from one root, by each of the calls, and from what is kept.
fn expect_all(
    rt: &impl Abort,
    alloc: Global,
    image: &Image,
    root: u64,
    want: &[u64],
) -> Result<(), Fail> {
    expect(rt, alloc, image, &[root], &[], want)?;
    let places = reach_all(alloc, image, root)?;
    assert!(rt; places.as_slice() == want);
    let kept = Reaches::new(alloc, image)?;
    for _ in 0..2 {
        let places = kept.onward(alloc, root)?.ok_or("not too many")?;
        assert!(rt; places.as_slice() == want);
    }
    Ok(())
}

#[test]
fn worked_programs(rt: HostRuntime) -> Result<(), Fail> {
    let alloc = rt.alloc();
    // mov edi, 7; jmp exit.
    let p1 = small(alloc, &[0xbf, 7, 0, 0, 0, 0xe9, 0xf6, 0x0e, 0, 0])?;
    expect_all(&rt, alloc, &p1, 0x40_1000, &[0x40_1000])?;
    // Library places are none, and no place is reached twice.
    expect_all(&rt, alloc, &p1, 0x40_1f00, &[])?;
    let two = [0x40_1000, 0x40_1005];
    expect(
        &rt,
        alloc,
        &p1,
        &[0x40_1005, 0x40_1f00, 0x40_1000],
        &[0x40_1005],
        &two,
    )?;
    // Three moves, call write, xor edi, edi, call exit, and CC at 0x40101b.
    let code = [
        0xbf, 1, 0, 0, 0, 0xbe, 0x40, 0x10, 0x40, 0, 0xba, 3, 0, 0, 0, 0xe8, 0xfc, 0x0e, 0, 0,
        0x31, 0xff, 0xe8, 0xe5, 0x0e, 0, 0,
    ];
    let p2 = small(alloc, &code)?;
    let three = [0x40_1000, 0x40_1014, 0x40_101b];
    expect_all(&rt, alloc, &p2, 0x40_1000, &three)?;
    expect(
        &rt,
        alloc,
        &p2,
        &[0x40_101b],
        &[0x40_1000, 0x40_1014],
        &three,
    )?;
    expect(
        &rt,
        alloc,
        &p2,
        &[0x40_1014, 0x40_1014],
        &[],
        &[0x40_1014, 0x40_101b],
    )?;
    // EB 7E, a jump to 0x401080, which is CC; a jump far outside; a return; nothing at all.
    let jumps = small(alloc, &[0xeb, 0x7e, 0xe9, 0, 0, 0, 0x70, 0xc3])?;
    expect_all(&rt, alloc, &jumps, 0x40_1000, &[0x40_1000, 0x40_1080])?;
    expect_all(&rt, alloc, &jumps, 0x40_1002, &[0x40_1002, 0x7040_1007])?;
    expect_all(&rt, alloc, &jumps, 0x40_1007, &[0x40_1007])?;
    expect(&rt, alloc, &jumps, &[], &[], &[])
}

#[test]
fn a_thread_is_made(rt: HostRuntime) -> Result<(), Fail> {
    let alloc = rt.alloc();
    // A program that makes a thread at 0x401100, joins it and writes: blocks end at the three calls and at the jump to
    // exit, and the thread's place is in a register alone.
    let code = [
        0xbf, 0x08, 0x20, 0x40, 0, 0x31, 0xf6, 0xba, 0, 0x11, 0x40, 0, 0x31, 0xc9, 0xe8, 0x1d,
        0x0f, 0, 0, 0xc7, 0x04, 0x25, 0, 0x20, 0x40, 0, 1, 0, 0, 0, 0x8b, 0x1c, 0x25, 0x04, 0x20,
        0x40, 0, 0x48, 0x8b, 0x3c, 0x25, 0x08, 0x20, 0x40, 0, 0xbe, 0x10, 0x20, 0x40, 0, 0xe8,
        0x09, 0x0f, 0, 0, 0x83, 0xc3, 0x30, 0x88, 0x1c, 0x25, 0x18, 0x20, 0x40, 0, 0x8a, 0x04,
        0x25, 0x10, 0x20, 0x40, 0, 0x04, 0x30, 0x88, 0x04, 0x25, 0x19, 0x20, 0x40, 0, 0xbf, 1, 0,
        0, 0, 0xbe, 0x18, 0x20, 0x40, 0, 0xba, 2, 0, 0, 0, 0xe8, 0xab, 0x0e, 0, 0, 0x31, 0xff,
        0xe9, 0x94, 0x0e, 0, 0,
    ];
    let p3 = small(alloc, &code)?;
    let four = [0x40_1000, 0x40_1013, 0x40_1037, 0x40_1065];
    expect_all(&rt, alloc, &p3, 0x40_1000, &four)?;
    let five = [0x40_1000, 0x40_1013, 0x40_1037, 0x40_1065, 0x40_1100];
    expect(&rt, alloc, &p3, &[0x40_1100], &[0x40_1000], &five)
}

// So many jumps from 0x402000 on, each to the one behind it, and a return.
fn chain(alloc: Global, jumps: usize) -> Result<Image, Fail> {
    let mut code = vec![in alloc; 0xccu8; 0x1000]?;
    for _ in 0..jumps {
        code.extend_from_slice(&[0xe9, 0, 0, 0, 0])?;
    }
    code.push(0xc3)?;
    program(alloc, &code)
}

#[test]
fn as_many_as_can_be(rt: HostRuntime) -> Result<(), Fail> {
    let alloc = rt.alloc();
    let all = chain(alloc, 65_535)?;
    let places = reach(alloc, &all, &[0x40_2000], &[]).ok().ok_or("reached")?;
    assert!(rt; places.len() == 65_536);
    assert!(rt; places.last() == Some(&(0x40_2000 + 5 * 65_535)));
    let more = chain(alloc, 65_536)?;
    assert!(rt;
        matches!(
            reach(alloc, &more, &[0x40_2000], &[]),
            Err(ReachFault::TooMany)
        )
    );
    assert!(rt;
        matches!(
            reach(alloc, &more, &[0x40_2005], &[0x40_2000]),
            Err(ReachFault::TooMany)
        )
    );
    assert!(rt; reach_all(alloc, &more, 0x40_2000)?.len() == 65_537);
    let kept = Reaches::new(alloc, &more)?;
    assert!(rt; kept.onward(alloc, 0x40_2000)?.is_none());
    assert!(rt; kept.onward(alloc, 0x40_2005)?.ok_or("not too many")?.len() == 65_536);
    Ok(())
}

// Only what threads may share gets a proof here.
fn share<T: Send + Sync>(_shared: &T) {}

#[test]
fn one_thread_at_a_time(rt: HostRuntime) -> Result<(), Fail> {
    let alloc = rt.alloc();
    let p1 = small(alloc, &[0xbf, 7, 0, 0, 0, 0xe9, 0xf6, 0x0e, 0, 0])?;
    share(&Reaches::new(alloc, &p1)?);
    let lent = Lent::new(alloc, &p1)?;
    let Some((kept, loan)) = lent.take() else {
        return Err("nobody has it".into());
    };
    if let Some((more, again)) = lent.take() {
        lent.give(more, again);
        lent.give(kept, loan);
        return Err("it is out".into());
    }
    lent.give(kept, loan);
    let Some((kept, loan)) = lent.take() else {
        return Err("it is back".into());
    };
    lent.give(kept, loan);
    Ok(())
}
