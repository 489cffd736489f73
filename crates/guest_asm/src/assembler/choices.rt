//! Which opcode and operands are chosen for an instruction that has a spelling: the shortest usual one.

ghost use Rattle.std.specs.Prelude.{◌≡◌, ◌<◌, ◌≤◌};
ghost use Rattle.std.specs.Int.{w32, cast_unsigned};
ghost use Rattle.guest_asm.specs.Choices.{alu_number, store_byte, load_byte, acc_byte, group_byte, takes_short, alu_imm, alu_pieces, mov_reg_imm, mov_imm, mov_pieces, zx_byte, sx_opcode, push_pieces, one_byte, one_number, imul_pieces, shift_number, shift_pieces, has_code, is_exchange, xchg_pieces, cond_code, jump_pieces, call_pieces, alone, ret_pieces, pieces};

use crate::assembler::encodable::{imm_can, is_test};
use crate::assembler::operands::{
    behind, behind_escaped, escaped, imm_bytes, is_acc, is_over8, is_short_imm, number_of, plain,
    to_place, wide_bit,
};
use crate::assembler::pieces::{NOTHING, Number, Opcode, Pieces};
use crate::assembler::place::is_short;
use x86_forms::{AluOp, Cond, Instr, OneOp, Operand, Place, ShiftOp, Width};

const LOCK: u8 = 0xF0;

const REP: u8 = 0xF3;

fn number(len: u8, bits: u64) -> Number
    ensures len { result.len ≡ len }
    ensures bits { result.bits ≡ bits }
{
    Number { len, bits }
}

// The operation's number in bits 3 to 5 of an opcode, and in the reg field.
fn alu_number(op: AluOp) -> u8
    ensures value { result ≡ alu_number op }
    ensures small { result < 8 }
{
    match op {
        AluOp::Add | AluOp::Test => 0,
        AluOp::Or => 1,
        AluOp::Adc => 2,
        AluOp::Sbb => 3,
        AluOp::And => 4,
        AluOp::Sub => 5,
        AluOp::Xor => 6,
        AluOp::Cmp => 7,
    }
}

// The opcode to a register or memory from a register.
fn store_byte(op: AluOp, w: Width) -> u8
    ensures { result ≡ store_byte op w }
{
    if is_test(op) {
        0x84 + wide_bit(w)
    } else {
        8 * alu_number(op) + wide_bit(w)
    }
}

// The opcode to a register from memory.
fn load_byte(op: AluOp, w: Width) -> u8
    ensures { result ≡ load_byte op w }
{
    8 * alu_number(op) + 2 + wide_bit(w)
}

// The opcode to al, ax, eax or rax from an immediate.
fn acc_byte(op: AluOp, w: Width) -> u8
    ensures { result ≡ acc_byte op w }
{
    if is_test(op) {
        0xA8 + wide_bit(w)
    } else {
        8 * alu_number(op) + 4 + wide_bit(w)
    }
}

// The opcode to a register or memory from an immediate.
fn group_byte(op: AluOp, w: Width) -> u8
    ensures { result ≡ group_byte op w }
{
    if is_test(op) {
        0xF6 + wide_bit(w)
    } else {
        0x80 + wide_bit(w)
    }
}

fn takes_short(op: AluOp, w: Width, n: u64) -> bool
    ensures { result ≡ takes_short op w n }
{
    !is_test(op) && is_over8(w) && is_short_imm(w, n)
}

fn alu_imm(no_rex: bool, prefix: Option<u8>, op: AluOp, w: Width, dst: Operand, n: u64) -> Pieces
    ensures { result ≡ alu_imm no_rex prefix op w dst n }
{
    if takes_short(op, w, n) {
        let opcode = behind(prefix, 0x83);
        Pieces::with_place(
            no_rex,
            w,
            opcode,
            alu_number(op),
            to_place(dst),
            number(1, n),
        )
    } else if is_acc(dst) {
        let opcode = behind(prefix, acc_byte(op, w));
        Pieces::with_code(no_rex, w, opcode, 0, number(imm_bytes(w), n))
    } else {
        let opcode = behind(prefix, group_byte(op, w));
        let imm = number(imm_bytes(w), n);
        Pieces::with_place(no_rex, w, opcode, alu_number(op), to_place(dst), imm)
    }
}

fn alu_pieces(
    no_rex: bool,
    prefix: Option<u8>,
    op: AluOp,
    w: Width,
    dst: Operand,
    src: Operand,
) -> Pieces
    ensures { result ≡ alu_pieces no_rex prefix op w dst src }
{
    match src {
        Operand::Imm(n) => alu_imm(no_rex, prefix, op, w, dst, n),
        Operand::Mem(mem) => {
            let opcode = behind(prefix, load_byte(op, w));
            Pieces::with_place(no_rex, w, opcode, number_of(dst), Place::Mem(mem), NOTHING)
        }
        Operand::Reg(_) | Operand::High(_) => {
            let opcode = behind(prefix, store_byte(op, w));
            Pieces::with_place(no_rex, w, opcode, number_of(src), to_place(dst), NOTHING)
        }
    }
}

fn mov_reg_imm(no_rex: bool, w: Width, r: u8, n: u64) -> Pieces
    ensures { result ≡ mov_reg_imm no_rex w r n }
{
    match w {
        Width::W8 => Pieces::with_code(no_rex, w, plain(0xB0 + r % 8), r, number(1, n)),
        Width::W16 => Pieces::with_code(no_rex, w, plain(0xB8 + r % 8), r, number(2, n)),
        Width::W32 => Pieces::with_code(no_rex, w, plain(0xB8 + r % 8), r, number(4, n)),
        Width::W64 if imm_can(w, n) => Pieces::with_place(
            no_rex,
            w,
            plain(0xC7),
            0,
            Place::Reg(r),
            number(4, n),
        ),
        Width::W64 => Pieces::with_code(no_rex, w, plain(0xB8 + r % 8), r, number(8, n)),
    }
}

fn mov_imm(no_rex: bool, w: Width, dst: Operand, n: u64) -> Pieces
    ensures { result ≡ mov_imm no_rex w dst n }
{
    match dst {
        Operand::Mem(mem) => {
            let imm = number(imm_bytes(w), n);
            Pieces::with_place(
                no_rex,
                w,
                plain(0xC6 + wide_bit(w)),
                0,
                Place::Mem(mem),
                imm,
            )
        }
        Operand::Reg(_) | Operand::High(_) | Operand::Imm(_) => mov_reg_imm(
            no_rex,
            w,
            number_of(dst),
            n,
        ),
    }
}

fn mov_pieces(no_rex: bool, w: Width, dst: Operand, src: Operand) -> Pieces
    ensures { result ≡ mov_pieces no_rex w dst src }
{
    match src {
        Operand::Imm(n) => mov_imm(no_rex, w, dst, n),
        Operand::Mem(mem) => {
            let opcode = plain(0x8A + wide_bit(w));
            Pieces::with_place(no_rex, w, opcode, number_of(dst), Place::Mem(mem), NOTHING)
        }
        Operand::Reg(_) | Operand::High(_) => {
            let opcode = plain(0x88 + wide_bit(w));
            Pieces::with_place(no_rex, w, opcode, number_of(src), to_place(dst), NOTHING)
        }
    }
}

fn zx_byte(from: Width) -> u8
    ensures { result ≡ zx_byte from }
{
    match from {
        Width::W8 => 0xB6,
        Width::W16 | Width::W32 | Width::W64 => 0xB7,
    }
}

fn sx_opcode(from: Width) -> Opcode
    ensures { result ≡ sx_opcode from }
{
    match from {
        Width::W8 => escaped(0xBE),
        Width::W16 => escaped(0xBF),
        Width::W32 | Width::W64 => plain(0x63),
    }
}

fn push_pieces(no_rex: bool, src: Operand) -> Pieces
    ensures { result ≡ push_pieces no_rex src }
{
    match src {
        Operand::Reg(r) | Operand::High(r) => Pieces::with_code(
            no_rex,
            Width::W32,
            plain(0x50 + r % 8),
            r,
            NOTHING,
        ),
        Operand::Mem(mem) => Pieces::with_place(
            no_rex,
            Width::W32,
            plain(0xFF),
            6,
            Place::Mem(mem),
            NOTHING,
        ),
        Operand::Imm(n) if is_short_imm(Width::W64, n) => Pieces::with_code(
            true,
            Width::W32,
            plain(0x6A),
            0,
            number(1, n),
        ),
        Operand::Imm(n) => Pieces::with_code(true, Width::W32, plain(0x68), 0, number(4, n)),
    }
}

fn one_byte(op: OneOp) -> u8
    ensures value { result ≡ one_byte op }
    ensures small { result < 255 }
{
    match op {
        OneOp::Inc | OneOp::Dec => 0xFE,
        OneOp::Not | OneOp::Neg => 0xF6,
    }
}

fn one_number(op: OneOp) -> u8
    ensures { result ≡ one_number op }
{
    match op {
        OneOp::Inc => 0,
        OneOp::Dec => 1,
        OneOp::Not => 2,
        OneOp::Neg => 3,
    }
}

fn imul_pieces(no_rex: bool, w: Width, dst: u8, a: Operand, b: Operand) -> Pieces
    ensures { result ≡ imul_pieces no_rex w dst a b }
{
    match b {
        Operand::Imm(n) if is_short_imm(w, n) => Pieces::with_place(
            no_rex,
            w,
            plain(0x6B),
            dst,
            to_place(a),
            number(1, n),
        ),
        Operand::Imm(n) => Pieces::with_place(
            no_rex,
            w,
            plain(0x69),
            dst,
            to_place(a),
            number(4, n),
        ),
        Operand::Reg(_) | Operand::High(_) | Operand::Mem(_) => Pieces::with_place(
            no_rex,
            w,
            escaped(0xAF),
            dst,
            to_place(b),
            NOTHING,
        ),
    }
}

fn shift_number(op: ShiftOp) -> u8
    ensures { result ≡ shift_number op }
{
    match op {
        ShiftOp::Shl => 4,
        ShiftOp::Shr => 5,
        ShiftOp::Sar => 7,
        ShiftOp::Rol => 0,
        ShiftOp::Ror => 1,
    }
}

fn shift_pieces(no_rex: bool, op: ShiftOp, w: Width, dst: Operand, count: Option<u8>) -> Pieces
    ensures { result ≡ shift_pieces no_rex op w dst count }
{
    let place = to_place(dst);
    let digit = shift_number(op);
    match count {
        None => Pieces::with_place(no_rex, w, plain(0xD2 + wide_bit(w)), digit, place, NOTHING),
        Some(1) => Pieces::with_place(no_rex, w, plain(0xD0 + wide_bit(w)), digit, place, NOTHING),
        Some(n) => {
            let imm = number(1, u64::from(n));
            Pieces::with_place(no_rex, w, plain(0xC0 + wide_bit(w)), digit, place, imm)
        }
    }
}

fn has_code(operand: Operand) -> bool
    ensures { result ≡ has_code operand }
{
    match operand {
        Operand::Reg(r) => r % 8 != 0,
        Operand::High(_) | Operand::Mem(_) | Operand::Imm(_) => false,
    }
}

// XCHG with ax, eax or rax has an opcode for each register; 90 is another instruction.
fn is_exchange(w: Width, a: Operand, b: Operand) -> bool
    ensures { result ≡ is_exchange w a b }
{
    is_acc(b) && is_over8(w) && has_code(a)
}

fn xchg_pieces(no_rex: bool, w: Width, a: Operand, b: Operand) -> Pieces
    ensures { result ≡ xchg_pieces no_rex w a b }
{
    if is_exchange(w, a, b) {
        let r = number_of(a);
        Pieces::with_code(no_rex, w, plain(0x90 + r % 8), r, NOTHING)
    } else {
        let opcode = plain(0x86 + wide_bit(w));
        Pieces::with_place(no_rex, w, opcode, number_of(b), to_place(a), NOTHING)
    }
}

fn cond_code(cc: Cond) -> u8
    ensures value { result ≡ cond_code cc }
    ensures small { result < 16 }
{
    cc as u8
}

// A relative target in one byte where it fits, else in four.
fn jump_pieces(near: Opcode, far: Opcode, rel: i32) -> Pieces
    ensures { result ≡ jump_pieces near far (cast_unsigned w32 rel) }
{
    let bits = rel.cast_unsigned();
    if is_short(bits) {
        Pieces::with_code(true, Width::W32, near, 0, number(1, u64::from(bits)))
    } else {
        Pieces::with_code(true, Width::W32, far, 0, number(4, u64::from(bits)))
    }
}

fn call_pieces(rel: i32) -> Pieces
    ensures { result ≡ call_pieces (cast_unsigned w32 rel) }
{
    let imm = number(4, u64::from(rel.cast_unsigned()));
    Pieces::with_code(true, Width::W32, plain(0xE8), 0, imm)
}

fn ret_pieces(extra: u16) -> Pieces
    ensures { result ≡ ret_pieces extra }
{
    if extra == 0 {
        Pieces::with_code(true, Width::W32, plain(0xC3), 0, NOTHING)
    } else {
        Pieces::with_code(
            true,
            Width::W32,
            plain(0xC2),
            0,
            number(2, u64::from(extra)),
        )
    }
}

// Instructions without operands.
fn alone(opcode: Opcode) -> Pieces
    ensures { result ≡ alone opcode }
{
    Pieces::with_code(true, Width::W32, opcode, 0, NOTHING)
}

/// The parts of an instruction that has a spelling, without a REX byte or with one.
pub fn pieces(no_rex: bool, instr: Instr) -> Pieces
    ensures { result ≡ pieces no_rex instr }
{
    match instr {
        Instr::Alu { op, w, dst, src } => alu_pieces(no_rex, None, op, w, dst, src),
        Instr::Mov { w, dst, src } => mov_pieces(no_rex, w, dst, src),
        Instr::Zx { from, w, dst, src } => {
            let opcode = escaped(zx_byte(from));
            Pieces::with_place(no_rex, w, opcode, dst, to_place(src), NOTHING)
        }
        Instr::Sx { from, w, dst, src } => Pieces::with_place(
            no_rex,
            w,
            sx_opcode(from),
            dst,
            to_place(src),
            NOTHING,
        ),
        Instr::Lea { w, dst, mem } => Pieces::with_place(
            no_rex,
            w,
            plain(0x8D),
            dst,
            Place::Mem(mem),
            NOTHING,
        ),
        Instr::Push { src } => push_pieces(no_rex, src),
        Instr::Pop { dst } => Pieces::with_code(
            no_rex,
            Width::W32,
            plain(0x58 + dst % 8),
            dst,
            NOTHING,
        ),
        Instr::One { op, w, dst } => {
            let opcode = plain(one_byte(op) + wide_bit(w));
            Pieces::with_place(no_rex, w, opcode, one_number(op), to_place(dst), NOTHING)
        }
        Instr::Mul { signed, w, src } => {
            let digit = if signed { 5 } else { 4 };
            Pieces::with_place(no_rex, w, plain(0xF7), digit, to_place(src), NOTHING)
        }
        Instr::Imul { w, dst, a, b } => imul_pieces(no_rex, w, dst, a, b),
        Instr::Div { signed, w, src } => {
            let digit = if signed { 7 } else { 6 };
            Pieces::with_place(no_rex, w, plain(0xF7), digit, to_place(src), NOTHING)
        }
        Instr::Shift { op, w, dst, count } => shift_pieces(no_rex, op, w, dst, count),
        Instr::Widen { w } => Pieces::with_code(no_rex, w, plain(0x98), 0, NOTHING),
        Instr::Spread { w } => Pieces::with_code(no_rex, w, plain(0x99), 0, NOTHING),
        Instr::Xchg { w, a, b } => xchg_pieces(no_rex, w, a, b),
        Instr::Set { cc, dst } => {
            let opcode = escaped(0x90 + cond_code(cc));
            Pieces::with_place(no_rex, Width::W8, opcode, 0, to_place(dst), NOTHING)
        }
        Instr::Cmov { cc, w, dst, src } => {
            let opcode = escaped(0x40 + cond_code(cc));
            Pieces::with_place(no_rex, w, opcode, dst, to_place(src), NOTHING)
        }
        Instr::Jcc { cc, rel } => {
            let near = plain(0x70 + cond_code(cc));
            jump_pieces(near, escaped(0x80 + cond_code(cc)), rel)
        }
        Instr::Jmp { rel } => jump_pieces(plain(0xEB), plain(0xE9), rel),
        Instr::JmpTo { src } => Pieces::with_place(
            no_rex,
            Width::W32,
            plain(0xFF),
            4,
            to_place(src),
            NOTHING,
        ),
        Instr::Call { rel } => call_pieces(rel),
        Instr::CallTo { src } => Pieces::with_place(
            no_rex,
            Width::W32,
            plain(0xFF),
            2,
            to_place(src),
            NOTHING,
        ),
        Instr::Ret { extra } => ret_pieces(extra),
        Instr::Leave => alone(plain(0xC9)),
        Instr::Nop => alone(plain(0x90)),
        Instr::Pause => alone(behind(Some(REP), 0x90)),
        Instr::Endbr => {
            let opcode = behind_escaped(Some(REP), 0x1E);
            Pieces::with_place(true, Width::W32, opcode, 7, Place::Reg(2), NOTHING)
        }
        Instr::Mfence => Pieces::with_place(
            true,
            Width::W32,
            escaped(0xAE),
            6,
            Place::Reg(0),
            NOTHING,
        ),
        Instr::LockAlu { op, w, mem, src } => alu_pieces(
            no_rex,
            Some(LOCK),
            op,
            w,
            Operand::Mem(mem),
            src,
        ),
        Instr::LockOne { op, w, mem } => {
            let opcode = behind(Some(LOCK), one_byte(op) + wide_bit(w));
            Pieces::with_place(no_rex, w, opcode, one_number(op), Place::Mem(mem), NOTHING)
        }
        Instr::Xadd { w, mem, reg } => {
            let opcode = behind_escaped(Some(LOCK), 0xC0 + wide_bit(w));
            Pieces::with_place(no_rex, w, opcode, number_of(reg), Place::Mem(mem), NOTHING)
        }
        Instr::Cmpxchg { w, mem, reg } => {
            let opcode = behind_escaped(Some(LOCK), 0xB0 + wide_bit(w));
            Pieces::with_place(no_rex, w, opcode, number_of(reg), Place::Mem(mem), NOTHING)
        }
    }
}
