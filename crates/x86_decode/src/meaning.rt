//! Which instruction the parts say under a row.

ghost use Rattle.std.specs.Prelude.{◌≡◌, ◌≤◌, length, Some};
ghost use Rattle.x86_forms.specs.Spelling.{operands_of, instr_of, rm_width, meaning, with_reg, with_mem, lea};
ghost use Rattle.x86_decode.specs.Views.{parts_of};

use crate::cursor::{Pieces, byte};
use crate::numbers::{displacement, front, signed};
use x86_forms::{AluOp, Cond, Instr, Kind, OneOp, Operand, Place, Row, Shape, ShiftOp, Width};

/// The destination and the source of a row.
#[tactic(auto, unfolding(x86_forms::specs::Spelling::operands_of))]
fn operands(
    shape: Shape,
    rm: Operand,
    reg: Operand,
    code: Operand,
    imm: Operand,
) -> (Operand, Operand)
    ensures { result ≡ operands_of shape rm reg code imm }
{
    match shape {
        Shape::RmReg => (rm, reg),
        Shape::RegRm => (reg, rm),
        Shape::RmImm => (rm, imm),
        Shape::AccImm => (Operand::Reg(0), imm),
        Shape::CodeImm => (code, imm),
        Shape::CodeAcc => (code, Operand::Reg(0)),
        Shape::Rm => (rm, rm),
        Shape::Imm => (imm, imm),
    }
}

/// The width at which rm is read.
#[tactic(auto, unfolding(x86_forms::specs::Spelling::rm_width))]
fn rm_width(kind: Kind, width: Width) -> Width
    ensures { result ≡ rm_width kind width }
{
    match kind {
        Kind::Zx(from) => from,
        Kind::Sx(from) => from,
        _ => width,
    }
}

fn zx(from: Width, w: Width, dst: Operand, src: Operand) -> Option<Instr>
    ensures { result ≡ with_reg dst (λ r. Instr.Zx from w r src) }
{
    match dst {
        Operand::Reg(dst) => Some(Instr::Zx { from, w, dst, src }),
        Operand::High(_) | Operand::Mem(_) | Operand::Imm(_) => None,
    }
}

fn sx(from: Width, w: Width, dst: Operand, src: Operand) -> Option<Instr>
    ensures { result ≡ with_reg dst (λ r. Instr.Sx from w r src) }
{
    match dst {
        Operand::Reg(dst) => Some(Instr::Sx { from, w, dst, src }),
        Operand::High(_) | Operand::Mem(_) | Operand::Imm(_) => None,
    }
}

fn load_address(w: Width, dst: Operand, src: Operand) -> Option<Instr>
    ensures { result ≡ lea w dst src }
{
    match (dst, src) {
        (Operand::Reg(dst), Operand::Mem(mem)) => Some(Instr::Lea { w, dst, mem }),
        _ => None,
    }
}

fn pop(dst: Operand) -> Option<Instr>
    ensures { result ≡ with_reg dst (λ r. Instr.Pop r) }
{
    match dst {
        Operand::Reg(dst) => Some(Instr::Pop { dst }),
        Operand::High(_) | Operand::Mem(_) | Operand::Imm(_) => None,
    }
}

fn imul(w: Width, dst: Operand, a: Operand, b: Operand) -> Option<Instr>
    ensures { result ≡ with_reg dst (λ r. Instr.Imul w r a b) }
{
    match dst {
        Operand::Reg(dst) => Some(Instr::Imul { w, dst, a, b }),
        Operand::High(_) | Operand::Mem(_) | Operand::Imm(_) => None,
    }
}

fn mul(signed: bool, w: Width, src: Operand) -> Option<Instr>
    ensures { result ≡ Some (Instr.Mul signed w src) }
{
    Some(Instr::Mul { signed, w, src })
}

fn div(signed: bool, w: Width, src: Operand) -> Option<Instr>
    ensures { result ≡ Some (Instr.Div signed w src) }
{
    Some(Instr::Div { signed, w, src })
}

fn shift(op: ShiftOp, w: Width, dst: Operand, count: Option<u8>) -> Option<Instr>
    ensures { result ≡ Some (Instr.Shift op w dst count) }
{
    Some(Instr::Shift { op, w, dst, count })
}

fn cmov(cc: Cond, w: Width, dst: Operand, src: Operand) -> Option<Instr>
    ensures { result ≡ with_reg dst (λ r. Instr.Cmov cc w r src) }
{
    match dst {
        Operand::Reg(dst) => Some(Instr::Cmov { cc, w, dst, src }),
        Operand::High(_) | Operand::Mem(_) | Operand::Imm(_) => None,
    }
}

fn lock_alu(op: AluOp, w: Width, dst: Operand, src: Operand) -> Option<Instr>
    ensures { result ≡ with_mem dst (λ m. Instr.LockAlu op w m src) }
{
    match dst {
        Operand::Mem(mem) => Some(Instr::LockAlu { op, w, mem, src }),
        Operand::Reg(_) | Operand::High(_) | Operand::Imm(_) => None,
    }
}

fn lock_one(op: OneOp, w: Width, dst: Operand) -> Option<Instr>
    ensures { result ≡ with_mem dst (λ m. Instr.LockOne op w m) }
{
    match dst {
        Operand::Mem(mem) => Some(Instr::LockOne { op, w, mem }),
        Operand::Reg(_) | Operand::High(_) | Operand::Imm(_) => None,
    }
}

fn lock_xchg(w: Width, a: Operand, b: Operand) -> Option<Instr>
    ensures { result ≡ with_mem a (λ m. Instr.Xchg w (Operand.Mem m) b) }
{
    match a {
        Operand::Mem(_) => Some(Instr::Xchg { w, a, b }),
        Operand::Reg(_) | Operand::High(_) | Operand::Imm(_) => None,
    }
}

fn xadd(w: Width, dst: Operand, reg: Operand) -> Option<Instr>
    ensures { result ≡ with_mem dst (λ m. Instr.Xadd w m reg) }
{
    match dst {
        Operand::Mem(mem) => Some(Instr::Xadd { w, mem, reg }),
        Operand::Reg(_) | Operand::High(_) | Operand::Imm(_) => None,
    }
}

fn cmpxchg(w: Width, dst: Operand, reg: Operand) -> Option<Instr>
    ensures { result ≡ with_mem dst (λ m. Instr.Cmpxchg w m reg) }
{
    match dst {
        Operand::Mem(mem) => Some(Instr::Cmpxchg { w, mem, reg }),
        Operand::Reg(_) | Operand::High(_) | Operand::Imm(_) => None,
    }
}

/// The instruction of a row, if it takes such operands: the destination and the source, the
/// immediate as an operand and as bytes, and the opcode.
#[tactic(auto, unfolding(x86_forms::specs::Spelling::instr_of))]
fn instruction(
    kind: Kind,
    w: Width,
    dst: Operand,
    src: Operand,
    imm: Operand,
    code: u8,
    tail: &[u8],
) -> Option<Instr>
    ensures { result ≡ instr_of kind w (dst, src) imm code tail.now }
{
    let cc = Cond::from_code(code % 16);
    let rel = displacement(tail);
    match kind {
        Kind::Alu(op) => Some(Instr::Alu { op, w, dst, src }),
        Kind::Mov => Some(Instr::Mov { w, dst, src }),
        Kind::Zx(from) => zx(from, w, dst, src),
        Kind::Sx(from) => sx(from, w, dst, src),
        Kind::Lea => load_address(w, dst, src),
        Kind::Push => Some(Instr::Push { src: dst }),
        Kind::Pop => pop(dst),
        Kind::One(op) => Some(Instr::One { op, w, dst }),
        Kind::Mul(signed) => mul(signed, w, dst),
        Kind::ImulTwo => imul(w, dst, dst, src),
        Kind::ImulThree => imul(w, dst, src, imm),
        Kind::Div(signed) => div(signed, w, dst),
        Kind::ShiftBy(op) => shift(op, w, dst, Some(byte(tail))),
        Kind::ShiftOne(op) => shift(op, w, dst, Some(1)),
        Kind::ShiftCl(op) => shift(op, w, dst, None),
        Kind::Widen => Some(Instr::Widen { w }),
        Kind::Spread => Some(Instr::Spread { w }),
        Kind::Xchg => Some(Instr::Xchg { w, a: dst, b: src }),
        Kind::Set => Some(Instr::Set { cc, dst }),
        Kind::Cmov => cmov(cc, w, dst, src),
        Kind::Jcc => Some(Instr::Jcc { cc, rel }),
        Kind::Jmp => Some(Instr::Jmp { rel }),
        Kind::JmpTo => Some(Instr::JmpTo { src: dst }),
        Kind::Call => Some(Instr::Call { rel }),
        Kind::CallTo => Some(Instr::CallTo { src: dst }),
        Kind::Ret => Some(Instr::Ret { extra: front(tail) }),
        Kind::Leave => Some(Instr::Leave),
        Kind::Nop => Some(Instr::Nop),
        Kind::Pause => Some(Instr::Pause),
        Kind::Endbr => Some(Instr::Endbr),
        Kind::Mfence => Some(Instr::Mfence),
        Kind::LockAlu(op) => lock_alu(op, w, dst, src),
        Kind::LockOne(op) => lock_one(op, w, dst),
        Kind::LockXchg => lock_xchg(w, dst, src),
        Kind::Xadd => xadd(w, dst, src),
        Kind::Cmpxchg => cmpxchg(w, dst, src),
    }
}

/// What the parts say under a row at a width.
#[tactic(auto, unfolding(x86_forms::specs::Spelling::meaning))]
pub fn meaning(row: Row, width: Width, pieces: Pieces<'_>) -> Option<Instr>
    requires { length pieces.imm.now ≤ 8 }
    ensures { result ≡ meaning row width (parts_of pieces.entry) }
{
    let rex = byte(pieces.front.rex);
    let modrm = byte(pieces.modrm);
    let code = byte(pieces.front.opcode);
    let no_rex = pieces.front.rex.is_empty();
    let place = Place::from_bytes(rex, modrm, byte(pieces.sib), displacement(pieces.disp));
    let imm = Operand::Imm(width.immediate(signed(pieces.imm)));
    let (dst, src) = operands(
        row.shape,
        place.operand(rm_width(row.kind, width), no_rex),
        Operand::register(width, no_rex, modrm / 8 % 8 + 8 * (rex / 4 % 2)),
        Operand::register(width, no_rex, code % 8 + 8 * (rex % 2)),
        imm,
    );
    instruction(row.kind, width, dst, src, imm, code, pieces.imm)
}
