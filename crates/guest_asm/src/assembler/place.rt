//! ModRM, SIB and displacement of a register or of memory (Intel SDM, Volume 2, tables 2-2 and 2-3).

ghost use Rattle.std.specs.Prelude.{◌≡◌, ◌<◌, ◌≤◌};
ghost use Rattle.guest_asm.specs.Places.{is_short, reg_disp_mode, disp_mode, base_low, base_high, base_needs_sib, needs_sib, mode_len, base_disp_len, bits_of, scale_bits, index_low, index_high, sib_of, high_of, low_of, b_of, x_of, sib_part, disp_bits, disp_len_of, modrm_of};

use crate::assembler::pieces::Number;
use x86_forms::{Base, Mem, Place};

/// Whether a signed number of 32 bits is that of its lowest byte.
pub fn is_short(bits: u32) -> bool
    ensures { result ≡ is_short bits }
{
    bits < 128 || bits >= 4_294_967_168
}

// How a displacement from a base register is written: 0 not at all, 1 in one byte, 2 in four.
fn reg_disp_mode(low: u8, bits: u32) -> u8
    ensures value { result ≡ reg_disp_mode low bits }
    ensures small { result < 3 }
{
    if bits == 0 && low != 5 {
        0
    } else if is_short(bits) {
        1
    } else {
        2
    }
}

// The mod field of memory.
fn disp_mode(base: Base, bits: u32) -> u8
    ensures value { result ≡ disp_mode base bits }
    ensures small { result < 3 }
{
    match base {
        Base::Reg(r) => reg_disp_mode(r % 8, bits),
        Base::None | Base::Rip => 0,
    }
}

// The low three bits of a base, 101 standing for none and for the next instruction.
fn base_low(base: Base) -> u8
    ensures value { result ≡ base_low base }
    ensures small { result < 8 }
{
    match base {
        Base::Reg(r) => r % 8,
        Base::None | Base::Rip => 5,
    }
}

fn base_high(base: Base) -> u8
    ensures { result ≡ base_high base }
{
    match base {
        Base::Reg(r) => r / 8,
        Base::None | Base::Rip => 0,
    }
}

// Whether memory wants a SIB byte: with an index, without a base, and for rsp and r12.
fn needs_sib(mem: Mem) -> bool
    ensures { result ≡ needs_sib mem }
{
    match mem.base {
        Base::None => true,
        Base::Rip => false,
        Base::Reg(r) => mem.index.is_some() || r % 8 == 4,
    }
}

fn scale_bits(scale: u8) -> u8
    ensures value { result ≡ scale_bits scale }
    ensures small { result < 4 }
{
    match scale {
        1 => 0,
        2 => 1,
        4 => 2,
        _ => 3,
    }
}

// The low three bits of an index, 100 standing for none.
fn index_low(index: Option<u8>) -> u8
    ensures value { result ≡ index_low index }
    ensures small { result < 8 }
{
    match index {
        None => 4,
        Some(r) => r % 8,
    }
}

fn index_high(index: Option<u8>) -> u8
    ensures { result ≡ index_high index }
{
    match index {
        None => 0,
        Some(r) => r / 8,
    }
}

fn sib_of(mem: Mem) -> u8
    ensures { result ≡ sib_of mem }
{
    64 * scale_bits(mem.scale) + 8 * index_low(mem.index) + base_low(mem.base)
}

fn disp_bits(mem: Mem) -> u32
    ensures { result ≡ disp_bits mem }
{
    mem.disp.cast_unsigned()
}

// The mod field.
fn high_of(place: Place) -> u8
    ensures value { result ≡ high_of place }
    ensures small { result < 4 }
{
    match place {
        Place::Reg(_) => 3,
        Place::Mem(mem) => disp_mode(mem.base, disp_bits(mem)),
    }
}

// The rm field.
fn low_of(place: Place) -> u8
    ensures value { result ≡ low_of place }
    ensures small { result < 8 }
{
    match place {
        Place::Reg(n) => n % 8,
        Place::Mem(mem) => {
            if needs_sib(mem) {
                4
            } else {
                base_low(mem.base)
            }
        }
    }
}

/// The ModRM byte for a place, with the low bits of a number in its reg field.
pub fn modrm_of(reg: u8, place: Place) -> u8
    ensures { result ≡ modrm_of reg place }
{
    64 * high_of(place) + 8 * (reg % 8) + low_of(place)
}

/// What REX.B adds to a place: its register's or base's number over 8.
pub fn base_bit(place: Place) -> u8
    ensures { result ≡ b_of place }
{
    match place {
        Place::Reg(n) => n / 8,
        Place::Mem(mem) => base_high(mem.base),
    }
}

/// What REX.X adds to a place: its index's number over 8.
pub fn index_bit(place: Place) -> u8
    ensures { result ≡ x_of place }
{
    match place {
        Place::Reg(_) => 0,
        Place::Mem(mem) => index_high(mem.index),
    }
}

/// The SIB byte of a place that wants one.
pub fn sib_part(place: Place) -> Option<u8>
    ensures { result ≡ sib_part place }
{
    match place {
        Place::Reg(_) => None,
        Place::Mem(mem) => {
            if needs_sib(mem) {
                Some(sib_of(mem))
            } else {
                None
            }
        }
    }
}

fn mode_len(mode: u8) -> u8
    ensures { result ≡ mode_len mode }
{
    match mode {
        0 => 0,
        1 => 1,
        _ => 4,
    }
}

fn mem_disp_len(base: Base, bits: u32) -> u8
    ensures { result ≡ base_disp_len base bits }
{
    match base {
        Base::Reg(r) => mode_len(reg_disp_mode(r % 8, bits)),
        Base::None | Base::Rip => 4,
    }
}

/// The displacement of a place: in one byte where it fits, and none where it is 0 and may be left out.
pub fn displacement(place: Place) -> Number
    ensures len { result.len ≡ disp_len_of place }
    ensures bits { result.bits ≡ bits_of place }
{
    match place {
        Place::Reg(_) => Number { len: 0, bits: 0 },
        Place::Mem(mem) => {
            let bits = disp_bits(mem);
            Number {
                len: mem_disp_len(mem.base, bits),
                bits: u64::from(bits),
            }
        }
    }
}
