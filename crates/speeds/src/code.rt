// Decoding and lifting.
use dead_flags::strip;
use ir_syntax::{Block, Part, Seq};
use lift_alu::lift_private;
use std::alloc::{AllocError, Global};
use x86_decode::decode;
use x86_forms::{Group, Instr};

// A compiled function that counts digits, 40 instructions.
const CODE: [u8; 128] = [
    0xF3, 0x0F, 0x1E, 0xFA, 0x48, 0x85, 0xF6, 0x7E, 0x67, 0x4C, 0x8D, 0x0C, 0xB7, 0x44, 0x0F, 0xB6,
    0xC2, 0x31, 0xF6, 0xEB, 0x11, 0x0F, 0x1F, 0x00, 0x8D, 0x04, 0x52, 0x48, 0x83, 0xC7, 0x04, 0x01,
    0xC6, 0x4C, 0x39, 0xCF, 0x74, 0x3D, 0x48, 0x63, 0x07, 0x48, 0x89, 0xC2, 0x48, 0x69, 0xC0, 0x93,
    0x24, 0x49, 0x92, 0x89, 0xD1, 0xC1, 0xF9, 0x1F, 0x48, 0xC1, 0xE8, 0x20, 0x01, 0xD0, 0xC1, 0xF8,
    0x02, 0x29, 0xC8, 0x8D, 0x0C, 0xC5, 0x00, 0x00, 0x00, 0x00, 0x29, 0xC1, 0x89, 0xD0, 0x29, 0xC8,
    0x44, 0x39, 0xC0, 0x7F, 0xC3, 0xC1, 0xFA, 0x02, 0x48, 0x83, 0xC7, 0x04, 0x31, 0xD6, 0x4C, 0x39,
    0xCF, 0x75, 0xC3, 0x89, 0xF0, 0xC3, 0x66, 0x2E, 0x0F, 0x1F, 0x84, 0x00, 0x00, 0x00, 0x00, 0x00,
    0x31, 0xF6, 0x89, 0xF0, 0xC3, 0x66, 0x66, 0x2E, 0x0F, 0x1F, 0x84, 0x00, 0x00, 0x00, 0x00, 0x00,
];

// A straight run of such code, 16 instructions without memory or transfers.
const STRAIGHT: [u8; 49] = [
    0x48, 0x89, 0xC2, 0x48, 0x69, 0xC0, 0x93, 0x24, 0x49, 0x92, 0x89, 0xD1, 0xC1, 0xF9, 0x1F, 0x48,
    0xC1, 0xE8, 0x20, 0x01, 0xD0, 0xC1, 0xF8, 0x02, 0x29, 0xC8, 0x8D, 0x0C, 0xC5, 0x00, 0x00, 0x00,
    0x00, 0x29, 0xC1, 0x89, 0xD0, 0x29, 0xC8, 0x44, 0x39, 0xC0, 0xC1, 0xFA, 0x02, 0x31, 0xD6, 0x89,
    0xF0,
];

// How many instructions the bytes have, up to the first that is none.
fn count(bytes: &[u8]) -> u64 {
    let mut rest = bytes;
    let mut found: u64 = 0;
    for _ in 0..bytes.len() {
        match decode(rest) {
            Some((_, length)) if usize::from(length) <= rest.len() => {
                rest = &rest[usize::from(length)..];
                found = found.wrapping_add(1);
            }
            _ => break,
        }
    }
    found
}

pub fn decode_all(rounds: u64) -> u64 {
    let mut found: u64 = 0;
    for _ in 0..rounds {
        found = found.wrapping_add(count(&CODE));
    }
    found
}

// The instructions of the bytes, up to the first that is none.
fn read(alloc: Global, bytes: &[u8]) -> Result<Vec<Instr>, AllocError> {
    let mut instrs = Vec::new(alloc);
    let mut rest = bytes;
    for _ in 0..bytes.len() {
        match decode(rest) {
            Some((instr, length)) if usize::from(length) <= rest.len() => {
                rest = &rest[usize::from(length)..];
                instrs.push(instr)?;
            }
            _ => break,
        }
    }
    Ok(instrs)
}

fn lift(alloc: Global, instrs: &[Instr], parts: &mut Vec<Part>) -> Result<(), AllocError> {
    for instr in instrs.iter() {
        if instr.group() == Group::Private {
            for part in lift_private(alloc, instr, 0x40_1000)? {
                parts.push(part)?;
            }
        }
    }
    Ok(())
}

// How many parts a block of four times these instructions has, without its dead flag puts.
fn lift_block(alloc: Global, instrs: &[Instr]) -> Result<u64, AllocError> {
    let mut parts = Vec::new(alloc);
    for _ in 0..4 {
        lift(alloc, instrs, &mut parts)?;
    }
    let block = strip(Block {
        at: 0x40_1000,
        code: Seq::from_vec(Vec::new(alloc)),
        parts: Seq::from_vec(parts),
    });
    Ok(block.parts.as_slice().len() as u64)
}

pub fn lift_all(alloc: Global, rounds: u64) -> Result<u64, AllocError> {
    let instrs = read(alloc, &STRAIGHT)?;
    let mut lifted: u64 = 0;
    for _ in 0..rounds {
        lifted = lifted.wrapping_add(lift_block(alloc, &instrs)?);
    }
    Ok(lifted)
}
