//! The image in which the worked programs stand.

ghost use Rattle.std.specs.Prelude.{◌≡◌, ◌+◌, ◌^◌, ◌≤◌, length, IfOk};
ghost use Rattle.elf_writer.specs.RowImage.{byte_at, row_bytes, row_places, row_data};

use elf_image::{Function, Image, LibPlace, Segment};
use std::alloc::{AllocError, Global};

/// A part of a program: its address and its bytes.
#[derive(Clone, Copy)]
pub struct Piece<'a> {
    /// The address of the first byte.
    pub at: u64,
    /// The bytes.
    pub bytes: &'a [u8],
}

/// The address of the code and of the first instruction.
const CODE: u64 = 0x40_1000;

/// The address of the data.
const DATA: u64 = 0x40_2000;

/// How many bytes each has.
const SIZE: u64 = 0x1000;

/// What stands in the code where no piece stands: `int3`.
const FILLING: u8 = 0xcc;

// The byte at the address: that of the first piece that has it, else the filling.
fn byte_at(pieces: &[Piece], filling: u8, a: u64) -> u8
    ensures { result ≡ byte_at pieces.now filling a }
{
    let found = pieces
        .iter()
        .find(|p| p.at <= a && a - p.at < p.bytes.len() as u64);
    match found {
        Some(p) => p.bytes[(a - p.at) as usize],
        None => filling,
    }
}

// The bytes of a segment from the address on.
fn bytes_from(
    alloc: Global,
    pieces: &[Piece],
    filling: u8,
    start: u64,
) -> Result<Vec<u8>, AllocError>
    requires { start ≤ 2 ^ 47 }
    ensures { IfOk result (λ v. v.items ≡ row_bytes pieces.now filling start) }
{
    let mut bytes = Vec::with_capacity(alloc, SIZE as usize)?;
    for i in 0..SIZE {
        bytes.push(byte_at(pieces, filling, start + i))?;
    }
    Ok(bytes)
}

// Where the library's functions are called.
fn places(alloc: Global) -> Result<Vec<LibPlace>, AllocError>
    ensures { IfOk result (λ v. v.items ≡ row_places) }
{
    let places = [
        LibPlace {
            at: 0x40_1e00,
            function: Function::CondInit,
        },
        LibPlace {
            at: 0x40_1e10,
            function: Function::CondDestroy,
        },
        LibPlace {
            at: 0x40_1e20,
            function: Function::CondWait,
        },
        LibPlace {
            at: 0x40_1e30,
            function: Function::CondSignal,
        },
        LibPlace {
            at: 0x40_1e40,
            function: Function::CondBroadcast,
        },
        LibPlace {
            at: 0x40_1e50,
            function: Function::BarrierInit,
        },
        LibPlace {
            at: 0x40_1e60,
            function: Function::BarrierWait,
        },
        LibPlace {
            at: 0x40_1e70,
            function: Function::BarrierDestroy,
        },
        LibPlace {
            at: 0x40_1e80,
            function: Function::Once,
        },
        LibPlace {
            at: 0x40_1f00,
            function: Function::Exit,
        },
        LibPlace {
            at: 0x40_1f10,
            function: Function::Write,
        },
        LibPlace {
            at: 0x40_1f20,
            function: Function::Read,
        },
        LibPlace {
            at: 0x40_1f30,
            function: Function::PthreadCreate,
        },
        LibPlace {
            at: 0x40_1f40,
            function: Function::PthreadJoin,
        },
        LibPlace {
            at: 0x40_1f50,
            function: Function::PthreadSelf,
        },
        LibPlace {
            at: 0x40_1f60,
            function: Function::MutexInit,
        },
        LibPlace {
            at: 0x40_1f70,
            function: Function::MutexLock,
        },
        LibPlace {
            at: 0x40_1f80,
            function: Function::MutexTrylock,
        },
        LibPlace {
            at: 0x40_1f90,
            function: Function::MutexUnlock,
        },
        LibPlace {
            at: 0x40_1fa0,
            function: Function::MutexDestroy,
        },
        LibPlace {
            at: 0x40_1fb0,
            function: Function::Bsearch,
        },
    ];
    Vec::from_slice(alloc, &places)
}

/// The image in which the worked programs stand: 0x1000 bytes of code from 0x401000 on, which can be
/// read and run, and 0x1000 bytes of data from 0x402000 on, which can be read and written. The pieces
/// stand in them at their addresses, the earlier over the later, and of a piece only what is in one
/// of both. Elsewhere the code is CC and the data 0. The entry is 0x401000, and the library's
/// functions are called at 0x401e00 to 0x401e80 (condition variables, barriers, once) and at 0x401f00 to
/// 0x401fb0 (the others).
///
/// The only error is want of memory.
pub fn row_image(alloc: Global, pieces: &[Piece]) -> Result<Image, AllocError>
    ensures row { IfOk result (λ image. image ≡ row_data pieces.now) }
    // So it can be written to a file.
    ensures two { IfOk result (λ image. length image.segments ≡ 2) }
{
    let code = Segment {
        at: CODE,
        size: SIZE,
        r: true,
        w: false,
        x: true,
        bytes: bytes_from(alloc, pieces, FILLING, CODE)?,
    };
    let data = Segment {
        at: DATA,
        size: SIZE,
        r: true,
        w: true,
        x: false,
        bytes: bytes_from(alloc, pieces, 0, DATA)?,
    };
    let mut segments = Vec::with_capacity(alloc, 2)?;
    segments.push(code)?;
    segments.push(data)?;
    Ok(Image::make(alloc, CODE, segments, places(alloc)?)?)
}
