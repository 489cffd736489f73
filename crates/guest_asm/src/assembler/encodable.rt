//! Which instructions have a spelling, without a REX byte or with one.

ghost use Rattle.std.specs.Prelude.{◌≡◌, ◌<◌, ◌^◌};
ghost use Rattle.std.specs.Int.{w32};
ghost use Rattle.std.specs.Int.RustNames.{FitsSigned};
ghost use Rattle.guest_asm.specs.Places.{below, is_scale, index_can, base_can, mem_can};
ghost use Rattle.guest_asm.specs.Pieces.{marks_can};
ghost use Rattle.guest_asm.specs.Encodable.{reg_can, high_can, register_can, rm_can, imm_can, whole_imm_can, value_can, pair_can, mov_imm_can, mov_can, is_reg, imul_can, is_wide, zx_can, sx_can, shift_can, is_test, can_lock, can_lock_one, push_can, can, Typed};

use crate::assembler::operands::is_over8;
use x86_forms::{AluOp, Base, Instr, Mem, OneOp, Operand, ShiftOp, Width};

fn below(no_rex: bool, r: u8) -> bool
    ensures { result ≡ below no_rex r }
{
    if no_rex { r < 8 } else { r < 16 }
}

fn is_scale(scale: u8) -> bool
    ensures { result ≡ is_scale scale }
{
    matches!(scale, 1 | 2 | 4 | 8)
}

fn index_can(no_rex: bool, index: Option<u8>, scale: u8) -> bool
    ensures { result ≡ index_can no_rex index scale }
{
    match index {
        None => scale == 1,
        Some(r) => below(no_rex, r) && r != 4 && is_scale(scale),
    }
}

fn base_can(no_rex: bool, base: Base, indexed: bool) -> bool
    ensures { result ≡ base_can no_rex base indexed }
{
    match base {
        Base::None => true,
        Base::Rip => !indexed,
        Base::Reg(r) => below(no_rex, r),
    }
}

fn mem_can(no_rex: bool, mem: Mem) -> bool
    ensures { result ≡ mem_can no_rex mem }
{
    base_can(no_rex, mem.base, mem.index.is_some()) && index_can(no_rex, mem.index, mem.scale)
}

// A width of 64 bits is shown by REX.
fn marks_can(no_rex: bool, width: Width) -> bool
    ensures { result ≡ marks_can no_rex width }
{
    !(no_rex && matches!(width, Width::W64))
}

// The numbers 4 to 7 at 8 bits are registers only where a REX byte stands.
fn reg_can(no_rex: bool, width: Width, r: u8) -> bool
    ensures { result ≡ reg_can no_rex width r }
{
    match width {
        Width::W8 => { if no_rex { r < 4 } else { r < 16 } }
        Width::W16 | Width::W32 | Width::W64 => below(no_rex, r),
    }
}

// AH to BH are registers only where none stands.
fn high_can(no_rex: bool, width: Width, r: u8) -> bool
    ensures { result ≡ high_can no_rex width r }
{
    match width {
        Width::W8 => no_rex && r < 4,
        Width::W16 | Width::W32 | Width::W64 => false,
    }
}

fn register_can(no_rex: bool, width: Width, operand: Operand) -> bool
    ensures { result ≡ register_can no_rex width operand }
{
    match operand {
        Operand::Reg(r) => reg_can(no_rex, width, r),
        Operand::High(r) => high_can(no_rex, width, r),
        Operand::Mem(_) | Operand::Imm(_) => false,
    }
}

// A register or memory.
fn rm_can(no_rex: bool, width: Width, operand: Operand) -> bool
    ensures { result ≡ rm_can no_rex width operand }
{
    match operand {
        Operand::Reg(r) => reg_can(no_rex, width, r),
        Operand::High(r) => high_can(no_rex, width, r),
        Operand::Mem(mem) => mem_can(no_rex, mem),
        Operand::Imm(_) => false,
    }
}

/// Whether an immediate of at most 32 bits, extended by its sign, makes this number at this width.
pub fn imm_can(width: Width, n: u64) -> bool
    ensures { result ≡ imm_can width n }
{
    match width {
        Width::W8 => n < 0x100,
        Width::W16 => n < 0x1_0000,
        Width::W32 => n < 0x1_0000_0000,
        Width::W64 => n < 0x8000_0000 || n >= 0xFFFF_FFFF_8000_0000,
    }
}

fn whole_imm_can(width: Width, n: u64) -> bool
    ensures { result ≡ whole_imm_can width n }
{
    match width {
        Width::W8 => n < 0x100,
        Width::W16 => n < 0x1_0000,
        Width::W32 => n < 0x1_0000_0000,
        Width::W64 => true,
    }
}

fn value_can(no_rex: bool, width: Width, operand: Operand) -> bool
    ensures { result ≡ value_can no_rex width operand }
{
    match operand {
        Operand::Reg(r) => reg_can(no_rex, width, r),
        Operand::High(r) => high_can(no_rex, width, r),
        Operand::Mem(_) => false,
        Operand::Imm(n) => imm_can(width, n),
    }
}

fn pair_can(no_rex: bool, width: Width, loads: bool, dst: Operand, src: Operand) -> bool
    ensures { result ≡ pair_can no_rex width loads dst src }
{
    match src {
        Operand::Mem(mem) => loads && register_can(no_rex, width, dst) && mem_can(no_rex, mem),
        Operand::Reg(r) => rm_can(no_rex, width, dst) && reg_can(no_rex, width, r),
        Operand::High(r) => rm_can(no_rex, width, dst) && high_can(no_rex, width, r),
        Operand::Imm(n) => rm_can(no_rex, width, dst) && imm_can(width, n),
    }
}

fn mov_imm_can(no_rex: bool, width: Width, dst: Operand, n: u64) -> bool
    ensures { result ≡ mov_imm_can no_rex width dst n }
{
    match dst {
        Operand::Reg(r) => reg_can(no_rex, width, r) && whole_imm_can(width, n),
        Operand::High(r) => high_can(no_rex, width, r) && imm_can(width, n),
        Operand::Mem(mem) => mem_can(no_rex, mem) && imm_can(width, n),
        Operand::Imm(_) => false,
    }
}

fn mov_can(no_rex: bool, width: Width, dst: Operand, src: Operand) -> bool
    ensures { result ≡ mov_can no_rex width dst src }
{
    match src {
        Operand::Imm(n) => mov_imm_can(no_rex, width, dst, n),
        Operand::Mem(mem) => register_can(no_rex, width, dst) && mem_can(no_rex, mem),
        Operand::Reg(r) => rm_can(no_rex, width, dst) && reg_can(no_rex, width, r),
        Operand::High(r) => rm_can(no_rex, width, dst) && high_can(no_rex, width, r),
    }
}

fn is_reg(number: u8, operand: Operand) -> bool
    ensures { result ≡ is_reg number operand }
{
    match operand {
        Operand::Reg(r) => r == number,
        Operand::High(_) | Operand::Mem(_) | Operand::Imm(_) => false,
    }
}

// With two operands the first is the destination.
fn imul_can(no_rex: bool, width: Width, dst: u8, a: Operand, b: Operand) -> bool
    ensures { result ≡ imul_can no_rex width dst a b }
{
    match b {
        Operand::Imm(n) => rm_can(no_rex, width, a) && imm_can(width, n),
        Operand::Reg(r) => is_reg(dst, a) && reg_can(no_rex, width, r),
        Operand::High(r) => is_reg(dst, a) && high_can(no_rex, width, r),
        Operand::Mem(mem) => is_reg(dst, a) && mem_can(no_rex, mem),
    }
}

fn is_wide(width: Width) -> bool
    ensures { result ≡ is_wide width }
{
    matches!(width, Width::W32 | Width::W64)
}

fn zx_can(from: Width, width: Width) -> bool
    ensures { result ≡ zx_can from width }
{
    match from {
        Width::W8 => is_over8(width),
        Width::W16 => is_wide(width),
        Width::W32 | Width::W64 => false,
    }
}

fn sx_can(from: Width, width: Width) -> bool
    ensures { result ≡ sx_can from width }
{
    match from {
        Width::W8 => is_over8(width),
        Width::W16 => is_wide(width),
        Width::W32 => matches!(width, Width::W64),
        Width::W64 => false,
    }
}

fn shift_can(op: ShiftOp, width: Width) -> bool
    ensures { result ≡ shift_can op width }
{
    match op {
        ShiftOp::Shl | ShiftOp::Shr | ShiftOp::Sar => true,
        ShiftOp::Rol | ShiftOp::Ror => is_wide(width),
    }
}

/// Whether the operation is TEST.
pub fn is_test(op: AluOp) -> bool
    ensures { result ≡ is_test op }
{
    matches!(op, AluOp::Test)
}

fn can_lock(op: AluOp) -> bool
    ensures { result ≡ can_lock op }
{
    matches!(
        op,
        AluOp::Add | AluOp::Or | AluOp::And | AluOp::Sub | AluOp::Xor
    )
}

fn can_lock_one(op: OneOp) -> bool
    ensures { result ≡ can_lock_one op }
{
    matches!(op, OneOp::Inc | OneOp::Dec)
}

fn push_can(no_rex: bool, src: Operand) -> bool
    ensures { result ≡ push_can no_rex src }
{
    match src {
        Operand::Reg(r) => below(no_rex, r),
        Operand::High(_) => false,
        Operand::Mem(mem) => mem_can(no_rex, mem),
        Operand::Imm(n) => imm_can(Width::W64, n),
    }
}

/// Whether the instruction has a spelling without a REX byte, or with one. Where its spellings need
/// no register it has one in either case.
pub fn can(no_rex: bool, instr: Instr) -> bool
    ensures { result ≡ can no_rex instr }
{
    match instr {
        Instr::Alu { op, w, dst, src } => marks_can(no_rex, w)
            && pair_can(no_rex, w, !is_test(op), dst, src),
        Instr::Mov { w, dst, src } => marks_can(no_rex, w) && mov_can(no_rex, w, dst, src),
        Instr::Zx { from, w, dst, src } => marks_can(no_rex, w)
            && zx_can(from, w)
            && below(no_rex, dst)
            && rm_can(no_rex, from, src),
        Instr::Sx { from, w, dst, src } => marks_can(no_rex, w)
            && sx_can(from, w)
            && below(no_rex, dst)
            && rm_can(no_rex, from, src),
        Instr::Lea { w, dst, mem } => marks_can(no_rex, w)
            && is_over8(w)
            && below(no_rex, dst)
            && mem_can(no_rex, mem),
        Instr::Push { src } => push_can(no_rex, src),
        Instr::Pop { dst } => below(no_rex, dst),
        Instr::One { w, dst, .. } => marks_can(no_rex, w) && rm_can(no_rex, w, dst),
        Instr::Mul { w, src, .. } | Instr::Div { w, src, .. } => marks_can(no_rex, w)
            && is_wide(w)
            && rm_can(no_rex, w, src),
        Instr::Imul { w, dst, a, b } => marks_can(no_rex, w)
            && is_wide(w)
            && below(no_rex, dst)
            && imul_can(no_rex, w, dst, a, b),
        Instr::Shift { op, w, dst, .. } => marks_can(no_rex, w)
            && shift_can(op, w)
            && rm_can(no_rex, w, dst),
        Instr::Widen { w } | Instr::Spread { w } => marks_can(no_rex, w) && is_wide(w),
        Instr::Xchg { w, a, b } => marks_can(no_rex, w)
            && rm_can(no_rex, w, a)
            && register_can(no_rex, w, b),
        Instr::Set { dst, .. } => rm_can(no_rex, Width::W8, dst),
        Instr::Cmov { w, dst, src, .. } => marks_can(no_rex, w)
            && is_wide(w)
            && below(no_rex, dst)
            && rm_can(no_rex, w, src),
        Instr::JmpTo { src } | Instr::CallTo { src } => rm_can(no_rex, Width::W64, src),
        Instr::LockAlu { op, w, mem, src } => marks_can(no_rex, w)
            && can_lock(op)
            && mem_can(no_rex, mem)
            && value_can(no_rex, w, src),
        Instr::LockOne { op, w, mem } => marks_can(no_rex, w)
            && can_lock_one(op)
            && mem_can(no_rex, mem),
        Instr::Xadd { w, mem, reg } | Instr::Cmpxchg { w, mem, reg } => marks_can(no_rex, w)
            && mem_can(no_rex, mem)
            && register_can(no_rex, w, reg),
        Instr::Jcc { .. }
        | Instr::Jmp { .. }
        | Instr::Call { .. }
        | Instr::Ret { .. }
        | Instr::Leave
        | Instr::Nop
        | Instr::Pause
        | Instr::Endbr
        | Instr::Mfence => true,
    }
}

/// The numbers of an instruction are within their types, whose ranges the definitions don't have.
pub fn typed(instr: Instr)
    ensures { Typed instr }
{
    let _instr = instr;
}
