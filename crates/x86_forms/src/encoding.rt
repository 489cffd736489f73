//! The rules of the bytes after an opcode: what ModRM, SIB, REX and an immediate mean. A REX or SIB
//! byte that is not there is given as 0.

ghost use Rattle.std.specs.Prelude.{◌≡◌, ◌+◌, ◌*◌, ◌/◌, ◌%◌, ◌^◌, ◌<◌, ◌≤◌};
ghost use Rattle.x86_forms.specs.Operands.{rex_w, has_sib, is_baseless, disp_len, indexed, based, place_of, register, operand_of, width_of, tail_len, at_width, sib_base, sib_index, sib_scale};

use crate::operands::{Base, Mem, Operand, Place, Width};
use crate::rows::{Size, Tail};

/// Whether a SIB byte follows this ModRM byte (Intel SDM, Volume 2, table 2-2).
#[tactic(auto, unfolding(crate::specs::Operands::has_sib))]
pub fn has_sib(modrm: u8) -> bool
    ensures { result ≡ has_sib modrm }
{
    modrm / 64 != 3 && modrm % 8 == 4
}

/// Whether memory has no base register by these bytes: the next instruction's address stands there
/// where no SIB byte follows, and nothing where one does. REX.B has no say.
#[tactic(auto, unfolding(crate::specs::Operands::is_baseless))]
fn is_baseless(modrm: u8, sib: u8) -> bool
    ensures { result ≡ is_baseless modrm sib }
{
    if modrm / 64 != 0 {
        false
    } else if modrm % 8 == 4 {
        sib % 8 == 5
    } else {
        modrm % 8 == 5
    }
}

/// How many bytes of displacement follow, 0, 1 or 4 (Intel SDM, Volume 2, tables 2-2 and 2-3).
#[tactic(auto, unfolding(crate::specs::Operands::disp_len))]
pub fn displacement_len(modrm: u8, sib: u8) -> u8
    ensures { result ≡ disp_len modrm sib }
{
    match modrm / 64 {
        3 => 0,
        1 => 1,
        2 => 4,
        _ => { if is_baseless(modrm, sib) { 4 } else { 0 } }
    }
}

fn sib_base(rex: u8, modrm: u8, sib: u8) -> Base
    ensures { result ≡ sib_base rex modrm sib }
{
    if is_baseless(modrm, sib) {
        Base::None
    } else {
        Base::Reg(sib % 8 + 8 * (rex % 2))
    }
}

fn sib_index(rex: u8, sib: u8) -> Option<u8>
    ensures { result ≡ sib_index rex sib }
{
    let index = sib / 8 % 8 + 8 * (rex / 2 % 2);
    if index == 4 { None } else { Some(index) }
}

fn sib_scale(rex: u8, sib: u8) -> u8
    ensures { result ≡ sib_scale rex sib }
{
    let index = sib / 8 % 8 + 8 * (rex / 2 % 2);
    if index == 4 { 1 } else { 1 << (sib / 64) }
}

#[tactic(auto, unfolding(crate::specs::Operands::indexed))]
fn indexed(rex: u8, modrm: u8, sib: u8, disp: i32) -> Mem
    ensures { result ≡ indexed rex modrm sib disp }
{
    Mem {
        base: sib_base(rex, modrm, sib),
        index: sib_index(rex, sib),
        scale: sib_scale(rex, sib),
        disp,
    }
}

#[tactic(auto, unfolding(crate::specs::Operands::based))]
fn based(rex: u8, modrm: u8, disp: i32) -> Mem
    ensures { result ≡ based rex modrm disp }
{
    let base = if is_baseless(modrm, 0) {
        Base::Rip
    } else {
        Base::Reg(modrm % 8 + 8 * (rex % 2))
    };
    Mem {
        base,
        index: None,
        scale: 1,
        disp,
    }
}

impl Place {
    /// What mod and rm of a ModRM byte name, with a SIB byte where `has_sib` says that one follows,
    /// and with the displacement, 0 where there is none (Intel SDM, Volume 2, 2.1.5 and 2.2.1.2).
    #[tactic(auto, unfolding(crate::specs::Operands::place_of))]
    pub fn from_bytes(rex: u8, modrm: u8, sib: u8, disp: i32) -> Self
        ensures { result ≡ place_of rex modrm sib disp }
    {
        if modrm / 64 == 3 {
            Place::Reg(modrm % 8 + 8 * (rex % 2))
        } else if modrm % 8 == 4 {
            Place::Mem(indexed(rex, modrm, sib, disp))
        } else {
            Place::Mem(based(rex, modrm, disp))
        }
    }

    /// The place as an operand of this width, where `no_rex` says that no REX byte stands.
    #[tactic(auto, unfolding(crate::specs::Operands::operand_of))]
    pub fn operand(self, width: Width, no_rex: bool) -> Operand
        ensures { result ≡ operand_of width no_rex self }
    {
        match self {
            Place::Reg(number) => Operand::register(width, no_rex, number),
            Place::Mem(mem) => Operand::Mem(mem),
        }
    }
}

impl Operand {
    /// The register with this number below 16 as an operand of this width. The numbers 4 to 7 of 8
    /// bits are AH, CH, DH and BH where no REX byte stands (Intel SDM, Volume 2, table 3-1).
    #[tactic(auto, unfolding(crate::specs::Operands::register))]
    pub fn register(width: Width, no_rex: bool, number: u8) -> Self
        ensures { result ≡ register width no_rex number }
    {
        match width {
            Width::W8 if no_rex && number >= 4 => Operand::High(number - 4),
            _ => Operand::Reg(number),
        }
    }
}

impl Size {
    /// The width of a row's operands, where `narrowed` says that a 66 stands, and `None` where a row
    /// without 16 bits would have them (Intel SDM, Volume 2, 2.2.1.2).
    #[tactic(auto, unfolding(crate::specs::Operands::width_of))]
    pub fn width(self, narrowed: bool, rex: u8) -> Option<Width>
        ensures { result ≡ width_of self narrowed (rex_w rex) }
    {
        let wide = rex / 8 % 2 == 1;
        match self {
            Size::B => Some(Width::W8),
            Size::Q => Some(Width::W64),
            Size::V | Size::D if wide => Some(Width::W64),
            Size::V if narrowed => Some(Width::W16),
            Size::D if narrowed => None,
            Size::V | Size::D => Some(Width::W32),
        }
    }
}

impl Tail {
    /// How many bytes of immediate or relative target follow at this width, at most 8.
    #[tactic(auto, unfolding(crate::specs::Operands::tail_len))]
    pub fn len(self, width: Width) -> u8
        ensures { result ≡ tail_len self width }
    {
        match self {
            Tail::Nothing => 0,
            Tail::Ib | Tail::Rel8 => 1,
            Tail::Iz if width == Width::W16 => 2,
            Tail::Iz | Tail::Rel32 => 4,
            Tail::Iv => width.bytes(),
            Tail::Iw => 2,
        }
    }
}

impl Width {
    /// A signed immediate at this width, as a number below 2^width (Intel SDM, Volume 2, 2.2.1.5).
    #[tactic(auto, unfolding(crate::specs::Operands::at_width))]
    pub fn immediate(self, number: i64) -> u64
        ensures { result ≡ at_width self number }
    {
        let bits = number.cast_unsigned();
        match self {
            Width::W8 => bits % (1 << 8),
            Width::W16 => bits % (1 << 16),
            Width::W32 => bits % (1 << 32),
            Width::W64 => bits,
        }
    }
}
