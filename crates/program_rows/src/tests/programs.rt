//! The bytes of programs, inputs and outputs.

use guest_asm::{Piece, row_image, write_elf};
use std::alloc::Global;
use std::test::Fail;

/// Bytes.
#[derive(Clone, Copy)]
pub enum Bytes {
    /// A text's.
    Text(&'static str),
    /// These, in hexadecimal.
    Hex(&'static str),
    /// So many zeros.
    Zeros(u32),
    /// The file of the image in which worked programs stand, with these pieces: the address of each and its bytes in hexadecimal.
    Image(&'static [(u64, &'static str)]),
    /// A file of one segment, without names: its address, which is that of the first instruction too, its rights as the file
    /// spells them, and its bytes in hexadecimal.
    Segment(u64, u64, &'static str),
    /// Such a file at 0x401000 that can be read and run: so many jumps, each to the next instruction, and then these bytes in
    /// hexadecimal.
    Jumps(u32, &'static str),
}

fn decoded(alloc: Global, digits: &str) -> Result<Vec<u8>, Fail> {
    Ok(hex::decode(alloc, digits).ok().ok_or("hexadecimal digits")?)
}

fn image_file(alloc: Global, pieces: &[(u64, &'static str)]) -> Result<Vec<u8>, Fail> {
    let mut parts = Vec::new(alloc);
    for (_, digits) in pieces {
        parts.push(decoded(alloc, digits)?)?;
    }
    let mut placed = Vec::new(alloc);
    for (piece, part) in pieces.iter().zip(parts.iter()) {
        placed.push(Piece {
            at: piece.0,
            bytes: part.as_slice(),
        })?;
    }
    let image = row_image(alloc, &placed)?;
    Ok(write_elf(alloc, &image)?)
}

/// A file of one segment, after the ELF specification.
fn segment_file(alloc: Global, at: u64, rights: u64, code: &[u8]) -> Result<Vec<u8>, Fail> {
    let size = code.len() as u64;
    let words = [
        // The magic number, 64 bits, least byte first; an executable for x86-64.
        0x0001_0102_464c_457f,
        0,
        0x0000_0001_003e_0002,
        // The first instruction, the program headers at 64, no section headers.
        at,
        64,
        0,
        // Headers of 64 and 56 bytes, and one program header.
        0x0038_0040_0000_0000,
        0x0000_0000_0040_0001,
        // A segment, from 120 bytes on.
        rights << 32 | 1,
        120,
        at,
        at,
        size,
        size,
        1,
    ];
    let mut bytes = Vec::new(alloc);
    for word in words {
        bytes.extend_from_slice(&word.to_le_bytes())?;
    }
    bytes.extend_from_slice(code)?;
    Ok(bytes)
}

fn jumps_file(alloc: Global, count: u32, last: &str) -> Result<Vec<u8>, Fail> {
    let mut code = Vec::new(alloc);
    for _ in 0..count {
        code.extend_from_slice(&[0xeb, 0])?;
    }
    code.extend_from_slice(&decoded(alloc, last)?)?;
    segment_file(alloc, 0x40_1000, 5, &code)
}

/// These bytes.
pub fn bytes_of(alloc: Global, bytes: Bytes) -> Result<Vec<u8>, Fail> {
    match bytes {
        Bytes::Text(text) => Ok(Vec::from_slice(alloc, text.as_bytes())?),
        Bytes::Hex(digits) => decoded(alloc, digits),
        Bytes::Zeros(count) => Ok(vec![in alloc; 0u8; count as usize]?),
        Bytes::Image(pieces) => image_file(alloc, pieces),
        Bytes::Segment(at, rights, digits) => {
            segment_file(alloc, at, rights, &decoded(alloc, digits)?)
        }
        Bytes::Jumps(count, last) => jumps_file(alloc, count, last),
    }
}

/// mov edi, 7; jmp exit
pub const EXITS: Bytes = Bytes::Image(&[(0x40_1000, "bf07000000e9f60e0000")]);

/// mov edi, 1; mov esi, 0x401040; mov edx, 3; call write; xor edi, edi; call exit; the text at 0x401040
pub const WRITES: Bytes = Bytes::Image(&[
    (
        0x40_1000,
        "bf01000000be40104000ba03000000e8fc0e000031ffe8e50e0000",
    ),
    (0x40_1040, "68690a"),
]);

/// The same text to output 2.
pub const WRITES_ERR: Bytes = Bytes::Image(&[
    (
        0x40_1000,
        "bf02000000be40104000ba03000000e8fc0e000031ffe9e50e0000",
    ),
    (0x40_1040, "68690a"),
]);

/// The same text to output 1 and then to output 2.
pub const WRITES_BOTH: Bytes = Bytes::Image(&[
    (
        0x40_1000,
        "bf01000000be40104000ba03000000e8fc0e0000bf02000000be40104000ba03000000e8e80e000031ffe9d10e0000",
    ),
    (0x40_1040, "68690a"),
]);

/// Reads up to 64 bytes, writes them to output 1, reads once more, and ends with 3 more than that read answers.
pub const ECHOES: Bytes = Bytes::Image(&[(
    0x40_1000,
    "bf00000000be00204000ba40000000e80c0f000089c2bf01000000be00204000e8eb0e0000bf00000000be00204000ba40000000e8e70e000083c00389c7e9bd0e0000",
)]);

/// Two threads store to one place each and load the other's, which they write as a digit: thread 0 stores to 0x402000 and
/// loads 0x402004, the other, whose code is at 0x401100, the other way round.
pub const STORES_AND_LOADS: Bytes = Bytes::Image(&[
    (
        0x40_1000,
        "bf0820400031f6ba0011400031c9e81d0f0000c7042500204000010000008b1c2504204000488b3c2508204000be10204000e8090f000083c330881c25182040008a042510204000043088042519204000bf01000000be18204000ba02000000e8ab0e000031ffe9940e0000",
    ),
    (0x40_1100, "c7042504204000010000008b042500204000c3"),
]);

/// The same with mfence between store and load.
pub const FENCED: Bytes = Bytes::Image(&[
    (
        0x40_1000,
        "bf0820400031f6ba0011400031c9e81d0f0000c7042500204000010000000faef08b1c2504204000488b3c2508204000be10204000e8060f000083c330881c25182040008a042510204000043088042519204000bf01000000be18204000ba02000000e8a80e000031ffe9910e0000",
    ),
    (0x40_1100, "c7042504204000010000000faef08b042500204000c3"),
]);

/// A jump table as compilers write it, at 0x401080, over the number of arguments; the jump through it is at 0x40101c.
pub const TABLE: Bytes = Bytes::Image(&[
    (
        0x40_1000,
        "f30f1efa554889e54883ec108b450883f802773c488b04c5801040003effe00f1f440000",
    ),
    (0x40_1030, "bf05000000c9e9c50e0000"),
    (0x40_1050, "bf09000000c9e9a50e0000"),
    (
        0x40_1080,
        "501040000000000030104000000000005010400000000000",
    ),
]);

/// mov rax, 2^63; cqo; mov rcx, -1; idiv rcx
pub const DIVIDES: Bytes = Bytes::Image(&[(
    0x40_1000,
    "48b80000000000000080489948c7c1ffffffff48f7f9",
)]);

/// mov edi, 0x402000; call pthread_mutex_lock, twice
pub const LOCKS_TWICE: Bytes = Bytes::Image(&[(
    0x40_1000,
    "bf00204000e8660f0000bf00204000e85c0f0000",
)]);

/// mov edi, 0x402000; call pthread_mutex_unlock; mov edi, eax; jmp exit
pub const UNLOCKS: Bytes = Bytes::Image(&[(0x40_1000, "bf00204000e8860f000089c7e9ef0e0000")]);

/// jmp to itself
pub const SPINS: Bytes = Bytes::Image(&[(0x40_1000, "ebfe")]);

/// Four threads add 2, 3, 4 and 5 to two counters a thousand times each, to one with a locked add and to one under a mutex;
/// then both are written.
pub const COUNTERS: Bytes = Bytes::Image(&[
    (
        0x40_1000,
        "31db488d3cdd0024400031f6ba00114000488b0cdd00214000e8120f0000ffc383fb040f85d9ffffff31db488b3cdd0024400031f6e8060f0000ffc383fb040f85e6ffffffbf01000000be00204000ba10000000e8b70e0000488b04250020400031ff483b042508204000400f95c7e88c0e0000",
    ),
    (
        0x40_1100,
        "4989fc41bde80300004c89e0f0480fc1042500204000bf10204000e8500e0000488b0425082040004c01e04889042508204000bf10204000e8530e000041ffcd0f85c3ffffff31c0c3",
    ),
    (0x40_2100, "0200000000000000"),
    (0x40_2108, "0300000000000000"),
    (0x40_2110, "0400000000000000"),
    (0x40_2118, "0500000000000000"),
]);

/// Thread 0 creates 63 threads, each of which does a locked increment at 0x402000 five thousand times, and joins them.
pub const INCREMENTS: Bytes = Bytes::Image(&[
    (
        0x40_1000,
        "31db488d3cdd0024400031f6ba0011400031c9e8180f0000ffc383fb3f75e331db488b3cdd0024400031f6e8100f0000ffc383fb3f75ea31ffe9c20e0000",
    ),
    (0x40_1100, "b988130000f0ff042500204000ffc975f431c0c3"),
]);

/// Thread 0 creates a thread and loads from 0x402000 until it finds 1; the other one stores 1 there and jumps to itself.
pub const WAITS_FOR_A_STORE: Bytes = Bytes::Image(&[
    (
        0x40_1000,
        "bf0820400031f6ba0011400031c9e81d0f00008b04250020400083f80175f431ffe9da0e0000",
    ),
    (0x40_1100, "c704250020400001000000ebfe"),
]);
