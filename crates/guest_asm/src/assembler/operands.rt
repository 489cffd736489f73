//! Operands by their numbers and places.

ghost use Rattle.std.specs.Prelude.{◌≡◌, ◌<◌, ◌≤◌};
ghost use Rattle.guest_asm.specs.Encodable.{is_over8};
ghost use Rattle.guest_asm.specs.Choices.{number_of, to_place, is_acc, wide_bit, is_short_imm, imm_bytes, plain, escaped, behind, behind_escaped};

use crate::assembler::pieces::Opcode;
use x86_forms::{Operand, Place, Width};

/// The number of a register, where AH to BH have 4 to 7, and 0 of other operands.
pub fn number_of(operand: Operand) -> u8
    ensures { result ≡ number_of operand }
{
    match operand {
        Operand::Reg(r) => r,
        Operand::High(r) => r % 4 + 4,
        Operand::Mem(_) | Operand::Imm(_) => 0,
    }
}

/// A register or memory as what ModRM names; an immediate is none.
pub fn to_place(operand: Operand) -> Place
    ensures { result ≡ to_place operand }
{
    match operand {
        Operand::Reg(r) => Place::Reg(r),
        Operand::High(r) => Place::Reg(r % 4 + 4),
        Operand::Mem(mem) => Place::Mem(mem),
        Operand::Imm(_) => Place::Reg(0),
    }
}

/// Whether the operand is al, ax, eax or rax.
pub fn is_acc(operand: Operand) -> bool
    ensures { result ≡ is_acc operand }
{
    match operand {
        Operand::Reg(r) => r == 0,
        Operand::High(_) | Operand::Mem(_) | Operand::Imm(_) => false,
    }
}

/// Whether the width is over 8 bits.
pub fn is_over8(width: Width) -> bool
    ensures { result ≡ is_over8 width }
{
    !matches!(width, Width::W8)
}

/// What an opcode at this width adds to that at 8 bits.
pub fn wide_bit(width: Width) -> u8
    ensures value { result ≡ wide_bit width }
    ensures small { result ≤ 1 }
{
    match width {
        Width::W8 => 0,
        Width::W16 | Width::W32 | Width::W64 => 1,
    }
}

/// Whether one byte with its sign makes this number at this width.
pub fn is_short_imm(width: Width, n: u64) -> bool
    ensures { result ≡ is_short_imm width n }
{
    let from = match width {
        Width::W8 => 128,
        Width::W16 => 0xFF80,
        Width::W32 => 0xFFFF_FF80,
        Width::W64 => 0xFFFF_FFFF_FFFF_FF80,
    };
    n < 128 || n >= from
}

/// How many bytes an immediate of at most 32 bits has at this width.
pub fn imm_bytes(width: Width) -> u8
    ensures { result ≡ imm_bytes width }
{
    match width {
        Width::W8 => 1,
        Width::W16 => 2,
        Width::W32 | Width::W64 => 4,
    }
}

/// An opcode alone, and one behind 0F.
pub fn plain(byte: u8) -> Opcode
    ensures { result ≡ plain byte }
{
    behind(None, byte)
}

pub fn escaped(byte: u8) -> Opcode
    ensures { result ≡ escaped byte }
{
    behind_escaped(None, byte)
}

/// The same behind a prefix.
pub fn behind(prefix: Option<u8>, byte: u8) -> Opcode
    ensures { result ≡ behind prefix byte }
{
    Opcode {
        prefix,
        escape: false,
        byte,
    }
}

pub fn behind_escaped(prefix: Option<u8>, byte: u8) -> Opcode
    ensures { result ≡ behind_escaped prefix byte }
{
    Opcode {
        prefix,
        escape: true,
        byte,
    }
}
