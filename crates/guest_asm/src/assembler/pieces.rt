//! The bytes of one instruction, cut into parts (Intel SDM, Volume 2, 2.1, figure 2-1).

ghost use Rattle.std.specs.Prelude.{◌≡◌, ◌+◌, ◌*◌, ◌/◌, ◌%◌, ◌<◌, ◌≤◌, ◌++◌, IfOk, OnOk};
ghost use Rattle.x86_forms.specs.Spelling.{bytes_of};
ghost use Rattle.guest_asm.specs.Places.{optional};
ghost use Rattle.guest_asm.specs.Pieces.{is_16, w_of, rex_of, with_place, with_code, number_bytes, only_if, parts_of};

use crate::assembler::place::{base_bit, displacement, index_bit, modrm_of, sib_part};
use std::alloc::{AllocError, Global};
use x86_forms::{Place, Width};

/// The low bytes of a number, the lowest first: `len` of them, at most 8.
#[derive(Clone, Copy)]
pub struct Number {
    pub len: u8,
    pub bits: u64,
}

/// An opcode byte, whether 0F stands before it, and the prefix F0 or F3 that it wants.
#[derive(Clone, Copy)]
pub struct Opcode {
    pub prefix: Option<u8>,
    pub escape: bool,
    pub byte: u8,
}

/// The parts of one instruction. `narrowed` says that a 66 stands in front.
#[derive(Clone, Copy)]
pub struct Pieces {
    pub narrowed: bool,
    pub rex: Option<u8>,
    pub opcode: Opcode,
    pub modrm: Option<u8>,
    pub sib: Option<u8>,
    pub disp: Number,
    pub imm: Number,
}

/// No byte.
pub const NOTHING: Number = Number { len: 0, bits: 0 };

fn is_16(width: Width) -> bool
    ensures { result ≡ is_16 width }
{
    matches!(width, Width::W16)
}

fn w_of(width: Width) -> u8
    ensures value { result ≡ w_of width }
    ensures small { result < 2 }
{
    match width {
        Width::W64 => 1,
        Width::W8 | Width::W16 | Width::W32 => 0,
    }
}

// REX where it stands, for a width and the numbers over 8 of index and base.
fn rex_of(no_rex: bool, marks: Width, reg: u8, index: u8, base: u8) -> Option<u8>
    ensures { result ≡ rex_of no_rex marks reg index base }
{
    if no_rex {
        None
    } else {
        Some(64 + 8 * w_of(marks) + 4 * (reg / 8 % 2) + 2 * (index % 2) + base % 2)
    }
}

impl Pieces {
    /// An instruction with ModRM. `marks` is the width that 66 and REX.W show, 32 bits where neither
    /// stands; `reg` is the number in the reg field, below 16.
    pub fn with_place(
        no_rex: bool,
        marks: Width,
        opcode: Opcode,
        reg: u8,
        place: Place,
        imm: Number,
    ) -> Self
        ensures { result ≡ with_place no_rex marks opcode reg place imm }
    {
        Pieces {
            narrowed: is_16(marks),
            rex: rex_of(no_rex, marks, reg, index_bit(place), base_bit(place)),
            opcode,
            modrm: Some(modrm_of(reg, place)),
            sib: sib_part(place),
            disp: displacement(place),
            imm,
        }
    }

    /// An instruction without ModRM. `code` is the number of the register in the opcode, below 16, of
    /// which REX.B has the top bit, and 0 where there is none.
    pub fn with_code(no_rex: bool, marks: Width, opcode: Opcode, code: u8, imm: Number) -> Self
        ensures { result ≡ with_code no_rex marks opcode code imm }
    {
        Pieces {
            narrowed: is_16(marks),
            rex: rex_of(no_rex, marks, 0, 0, code / 8),
            opcode,
            modrm: None,
            sib: None,
            disp: NOTHING,
            imm,
        }
    }

    /// The bytes of the parts, one after another.
    pub fn bytes(self, alloc: Global) -> Result<Vec<u8>, AllocError>
        ensures { IfOk result (λ v. v.items ≡ bytes_of (parts_of self)) }
    {
        let mut bytes = Vec::new(alloc);
        push_if(&mut bytes, self.narrowed, 0x66)?;
        push_optional(&mut bytes, self.opcode.prefix)?;
        push_optional(&mut bytes, self.rex)?;
        push_if(&mut bytes, self.opcode.escape, 0x0F)?;
        bytes.push(self.opcode.byte)?;
        push_optional(&mut bytes, self.modrm)?;
        push_optional(&mut bytes, self.sib)?;
        push_number(&mut bytes, self.disp)?;
        push_number(&mut bytes, self.imm)?;
        Ok(bytes)
    }
}

fn push_if(bytes: &mut Vec<u8>, stands: bool, byte: u8) -> Result<(), AllocError>
    ensures { OnOk result (bytes.new.items ≡ bytes.old.items ++ only_if stands byte) }
{
    if stands {
        bytes.push(byte)?;
    }
    Ok(())
}

fn push_optional(bytes: &mut Vec<u8>, byte: Option<u8>) -> Result<(), AllocError>
    ensures { OnOk result (bytes.new.items ≡ bytes.old.items ++ optional byte) }
{
    if let Some(byte) = byte {
        bytes.push(byte)?;
    }
    Ok(())
}

fn push_number(bytes: &mut Vec<u8>, number: Number) -> Result<(), AllocError>
    ensures { OnOk result (bytes.new.items ≡ bytes.old.items ++ number_bytes number) }
{
    let mut rest = number.bits;
    for _ in 0..number.len {
        bytes.push((rest % 256) as u8)?;
        rest /= 256;
    }
    Ok(())
}
