ghost use Rattle.std.specs.Prelude.{◌≡◌, ◌*◌, ◌^◌, ◌<◌, ◌≤◌};
ghost use Rattle.x86_forms.specs.Widths.{bytes_in, bits_in};

/// The width of an operand, in bits.
#[derive(Clone, Copy, Debug, PartialEq, Eq)]
pub enum Width {
    W8,
    W16,
    W32,
    W64,
}

impl Width {
    /// How many bytes a value of this width has: 1, 2, 4 or 8.
    pub fn bytes(self) -> u8
        ensures { result ≡ bytes_in self }
    {
        match self {
            Width::W8 => 1,
            Width::W16 => 2,
            Width::W32 => 4,
            Width::W64 => 8,
        }
    }

    /// How many bits a value of this width has: 8, 16, 32 or 64.
    pub fn bits(self) -> u8
        ensures { result ≡ bits_in self }
    {
        8 * self.bytes()
    }
}

/// What an address in memory counts from: nothing, a general register by its number below 16, or
/// the address of the next instruction (Intel SDM, Volume 2, 2.2.1.6).
#[derive(Clone, Copy, Debug, PartialEq, Eq)]
pub enum Base {
    None,
    Reg(u8),
    Rip,
}

/// An operand in memory, at base + index * scale + disp modulo 2^64 (Intel SDM, Volume 2, 2.1.5).
/// The index is a general register by its number below 16, and never rsp. The scale is 1, 2, 4 or 8,
/// and 1 where there is no index. The displacement counts in bytes.
#[derive(Clone, Copy, Debug, PartialEq, Eq)]
pub struct Mem {
    pub base: Base,
    pub index: Option<u8>,
    pub scale: u8,
    pub disp: i32,
}

/// An operand: a general register by its number below 16 (0 is rax, 1 rcx, 2 rdx, 3 rbx, 4 rsp,
/// 5 rbp, 6 rsi, 7 rdi, then r8 to r15), of which it takes the low bits by the instruction's width;
/// the second lowest byte of one of the first four registers, AH, CH, DH or BH; memory; or an
/// immediate number below 2^width.
#[derive(Clone, Copy, Debug, PartialEq, Eq)]
pub enum Operand {
    Reg(u8),
    High(u8),
    Mem(Mem),
    Imm(u64),
}

/// What an operand is: a register or a part of one, memory, or a number in the instruction.
#[derive(Clone, Copy, Debug, PartialEq, Eq)]
pub enum OperandKind {
    Register,
    Memory,
    Immediate,
}

impl Operand {
    ghost use Rattle.std.specs.Prelude.{◌↔◌, IsTrue};
    ghost use Rattle.x86_forms.specs.Groups.{kind_of, is_memory};

    /// What the operand is.
    pub fn kind(self) -> OperandKind
        ensures { result ≡ kind_of self }
    {
        match self {
            Operand::Reg(_) | Operand::High(_) => OperandKind::Register,
            Operand::Mem(_) => OperandKind::Memory,
            Operand::Imm(_) => OperandKind::Immediate,
        }
    }

    /// Whether the operand is in memory.
    pub fn is_memory(self) -> bool
        ensures { result ≡ is_memory self }
    {
        matches!(self, Operand::Mem(_))
    }
}

/// What the mod and rm fields of a ModRM byte name: a register by its number below 16, which is not
/// yet read at a width, or memory (Intel SDM, Volume 2, tables 2-2 and 2-3).
#[derive(Clone, Copy, Debug, PartialEq, Eq)]
pub enum Place {
    Reg(u8),
    Mem(Mem),
}
