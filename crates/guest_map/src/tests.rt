//! Worked rows.

use crate::{LayFault, Start, lay_out};
use address_space::stack_top;
use elf_image::{Image, load};
use std::alloc::{AllocError, Global};
use std::test::Fail;
use tso_memory::{Denied, Width};

/// Where a number stands in a file, the number, and how many bytes it has.
type Field = (usize, u64, usize);

/// The file header, two program headers at 64, and four bytes of code at 176.
const HEADERS: [Field; 20] = [
    (0, 0x0001_0102_464c_457f, 8),
    (16, 2, 2),
    (18, 62, 2),
    (24, 0x40_1000, 8),
    (32, 64, 8),
    (54, 56, 2),
    (56, 2, 2),
    (58, 64, 2),
    (64, 1, 4),
    (68, 5, 4),
    (72, 176, 8),
    (80, 0x40_1000, 8),
    (96, 4, 8),
    (104, 0x1000, 8),
    (120, 1, 4),
    (124, 6, 4),
    (128, 176, 8),
    (152, 0, 8),
    (160, 0x1000, 8),
    (176, 0x0ef6_e9bf, 4),
];

fn put(bytes: &mut Vec<u8>, field: Field) {
    let (at, value, size) = field;
    let mut place = at;
    for byte in value.to_le_bytes().iter().take(size) {
        if let Some(b) = bytes.get_mut(place) {
            *b = *byte;
        }
        place = place.saturating_add(1);
    }
}

/// An image of 0x1000 bytes of code at 0x401000 and 0x1000 zeros from an address on.
fn image(alloc: Global, data: u64) -> Result<Option<Image>, AllocError> {
    let mut bytes = vec![in alloc; 0u8; 180]?;
    for field in HEADERS {
        put(&mut bytes, field);
    }
    put(&mut bytes, (136, data, 8));
    Ok(load(alloc, &bytes).ok())
}

fn start(alloc: Global, words: &[&str]) -> Result<Option<Start>, AllocError> {
    let mut args = Vec::new(alloc);
    for word in words {
        args.push(String::from_str(alloc, *word)?)?;
    }
    match image(alloc, 0x40_2000)? {
        Some(image) => Ok(lay_out(alloc, &image, &args).ok()),
        None => Ok(None),
    }
}

// the words from the stack pointer upwards, by the figure of the initial process stack
#[test]
fn a_process_is_entered_with_its_arguments(rt: HostRuntime) -> Result<(), Fail> {
    let one = start(rt.alloc(), &["p1"])?.ok_or("it begins")?;
    assert_eq!(rt; one.rsp, 0x7000_0001_ffc0);
    let two = start(rt.alloc(), &["p1", "abc"])?.ok_or("it begins")?;
    assert_eq!(rt; two.rsp, 0x7000_0001_ffb0);
    let rows = [
        (0x7000_0001_ffa8, 0),
        (0x7000_0001_ffb0, 2),
        (0x7000_0001_ffb8, 0x7000_0001_fff0),
        (0x7000_0001_ffc0, 0x7000_0001_fff3),
        (0x7000_0001_ffc8, 0),
        (0x7000_0001_ffd0, 0),
        (0x7000_0001_ffd8, 0),
        (0x7000_0001_ffe0, 0),
        (0x7000_0001_ffe8, 0),
        (0x7000_0001_fff0, 0x0063_6261_0031_70),
        (0x7000_0001_fff8, 0),
    ];
    for (at, want) in rows {
        assert_eq!(rt; two.memory.load(0, at, Width::W64), Ok(want), "at {at:#x}");
    }
    Ok(())
}

#[test]
fn each_thread_has_a_stack_beside_the_segments(rt: HostRuntime) -> Result<(), Fail> {
    let memory = start(rt.alloc(), &["p1"])?.ok_or("it begins")?.memory;
    for t in 0..64 {
        let end = stack_top(t);
        assert_eq!(rt; memory.check(end - 0x1_0000, 0x1_0000, true), Ok(()));
        assert_eq!(rt;
            memory.check(end - 0x1_0001, 1, false),
            Err(Denied(end - 0x1_0001))
        );
        assert_eq!(rt; memory.check(end, 1, false), Err(Denied(end)));
        assert!(rt; memory.is_empty(t));
    }
    assert_eq!(rt; memory.load(0, 0x40_1000, Width::W32), Ok(0x0ef6_e9bf));
    assert_eq!(rt; memory.check(0x40_1000, 0x2000, false), Ok(()));
    assert_eq!(rt; memory.check(0x40_1ffe, 4, true), Err(Denied(0x40_1ffe)));
    assert_eq!(rt;
        memory.load(0, 0x40_2ffc, Width::W64),
        Err(Denied(0x40_3000))
    );
    Ok(())
}

/// What comes of a start.
#[derive(Debug, Clone, Copy, PartialEq, Eq)]
enum Outcome {
    Begins,
    Clash(usize),
    TooLong,
    NoMemory,
}

// where the data stand, how many bytes the argument has without its zero byte, and what comes of it
#[test]
fn a_clash_comes_before_arguments_that_are_too_long(rt: HostRuntime) -> Result<(), Fail> {
    let alloc = rt.alloc();
    let rows = [
        (0x40_2000, 4095, Outcome::Begins),
        (0x40_2000, 4096, Outcome::TooLong),
        (0x6fff_ffff_f000, 4095, Outcome::Begins),
        (0x6fff_ffff_f001, 4095, Outcome::Clash(1)),
        (0x7000_00ff_ffff, 4096, Outcome::Clash(1)),
        (0x7000_0100_0000, 4095, Outcome::Begins),
    ];
    for (data, len, want) in rows {
        let image = image(alloc, data)?.ok_or("it is an image")?;
        let mut arg = String::new(alloc);
        for _ in 0..len {
            arg.push('a')?;
        }
        let args = vec![in alloc; arg]?;
        let got = match lay_out(alloc, &image, &args) {
            Ok(_) => Outcome::Begins,
            Err(LayFault::Clash(i)) => Outcome::Clash(i),
            Err(LayFault::ArgsTooLong) => Outcome::TooLong,
            Err(LayFault::Memory(_)) => Outcome::NoMemory,
        };
        assert_eq!(rt; got, want, "data at {data:#x}, {len} bytes");
    }
    Ok(())
}
