//! The two functions of the generated program, line by line.

ghost use Rattle.std.specs.Prelude.{◌≡◌};
ghost use Rattle.std.specs.Prelude.{Some, None};
ghost use Rattle.x86_forms.specs.declared.operands.Width.TheVariants.{W32, W64};
ghost use Rattle.x86_forms.specs.declared.operands.Base.TheVariants as base;
ghost use Rattle.x86_forms.specs.declared.operands.Operand.TheVariants.{Reg, Imm};
ghost use Rattle.x86_forms.specs.declared.instructions.AluOp.TheVariants.{Xor};
ghost use Rattle.x86_forms.specs.declared.instructions.Instr.TheVariants as instr;
ghost use Rattle.guest_gen.specs.declared.line.Line.TheVariants.{Plain};
ghost use Rattle.guest_gen.specs.Program.{main_lines, worker_lines};

use crate::line::Line;
use x86_forms::{AluOp, Base, Cond, Instr, Mem, OneOp, Operand, Width};

const RAX: u8 = 0;

const RCX: u8 = 1;

const RDX: u8 = 2;

const RBX: u8 = 3;

const RSI: u8 = 6;

const RDI: u8 = 7;

const R12: u8 = 12;

const R13: u8 = 13;

/// Where the function of the threads begins.
pub(crate) const WORKER: u64 = 0x40_1100;

/// The counter to which threads add by a locked instruction, and behind it the one under the mutex.
const LOCKED: i32 = 0x40_2000;

const GUARDED: i32 = 0x40_2008;

const MUTEX: u64 = 0x40_2010;

/// The numbers that the threads add, eight bytes each.
pub(crate) const STEPS: u64 = 0x40_2100;

/// What `pthread_create` says of each thread, eight bytes each.
const IDS: i32 = 0x40_2400;

const WRITE: u64 = 0x40_1f10;

const EXIT: u64 = 0x40_1f00;

const CREATE: u64 = 0x40_1f30;

const JOIN: u64 = 0x40_1f40;

const LOCK: u64 = 0x40_1f70;

const UNLOCK: u64 = 0x40_1f90;

fn at(address: i32) -> Mem
    ensures { result ≡ record { base = base.None; index = None; scale = 1; disp = address } }
{
    Mem {
        base: Base::None,
        index: None,
        scale: 1,
        disp: address,
    }
}

// The eight bytes with the number in rbx, from the address on.
fn item(address: i32) -> Mem
    ensures { result ≡ record { base = base.None; index = Some 3; scale = 8; disp = address } }
{
    Mem {
        base: Base::None,
        index: Some(RBX),
        scale: 8,
        disp: address,
    }
}

fn clear(r: u8) -> Line
    ensures { result ≡ Plain (instr.Alu Xor W32 (Reg r) (Reg r)) }
{
    Line::Plain(Instr::Alu {
        op: AluOp::Xor,
        w: Width::W32,
        dst: Operand::Reg(r),
        src: Operand::Reg(r),
    })
}

// A number below 2^32 to a register.
fn set(r: u8, n: u64) -> Line
    ensures { result ≡ Plain (instr.Mov W32 (Reg r) (Imm n)) }
{
    Line::Plain(Instr::Mov {
        w: Width::W32,
        dst: Operand::Reg(r),
        src: Operand::Imm(n),
    })
}

// Eight bytes to a place from another.
fn mov(dst: Operand, src: Operand) -> Line
    ensures { result ≡ Plain (instr.Mov W64 dst src) }
{
    Line::Plain(Instr::Mov {
        w: Width::W64,
        dst,
        src,
    })
}

fn alu(op: AluOp, w: Width, dst: Operand, src: Operand) -> Line
    ensures { result ≡ Plain (instr.Alu op w dst src) }
{
    Line::Plain(Instr::Alu { op, w, dst, src })
}

fn one(op: OneOp, r: u8) -> Line
    ensures { result ≡ Plain (instr.One op W32 (Reg r)) }
{
    Line::Plain(Instr::One {
        op,
        w: Width::W32,
        dst: Operand::Reg(r),
    })
}

/// The first function: it starts the threads and waits for each, writes the counters, and exits with 0
/// where they are the same, else with 1.
pub(crate) fn main_lines(threads: u32) -> [Line; 27]
    ensures { result ≡ main_lines threads }
{
    let all = Operand::Imm(u64::from(threads));
    [
        clear(RBX),
        Line::Label,
        Line::Plain(Instr::Lea {
            w: Width::W64,
            dst: RDI,
            mem: item(IDS),
        }),
        clear(RSI),
        set(RDX, WORKER),
        mov(Operand::Reg(RCX), Operand::Mem(item(STEPS as i32))),
        Line::Call(CREATE),
        one(OneOp::Inc, RBX),
        alu(AluOp::Cmp, Width::W32, Operand::Reg(RBX), all),
        Line::Jne,
        clear(RBX),
        Line::Label,
        mov(Operand::Reg(RDI), Operand::Mem(item(IDS))),
        clear(RSI),
        Line::Call(JOIN),
        one(OneOp::Inc, RBX),
        alu(AluOp::Cmp, Width::W32, Operand::Reg(RBX), all),
        Line::Jne,
        set(RDI, 1),
        set(RSI, 0x40_2000),
        set(RDX, 16),
        Line::Call(WRITE),
        mov(Operand::Reg(RAX), Operand::Mem(at(LOCKED))),
        clear(RDI),
        alu(
            AluOp::Cmp,
            Width::W64,
            Operand::Reg(RAX),
            Operand::Mem(at(GUARDED)),
        ),
        Line::Plain(Instr::Set {
            cc: Cond::Ne,
            dst: Operand::Reg(RDI),
        }),
        Line::Call(EXIT),
    ]
}

/// The function of each thread, which gets its number as argument and adds it in each round.
pub(crate) fn worker_lines(rounds: u32) -> [Line; 16]
    ensures { result ≡ worker_lines rounds }
{
    [
        mov(Operand::Reg(R12), Operand::Reg(RDI)),
        set(R13, u64::from(rounds)),
        Line::Label,
        mov(Operand::Reg(RAX), Operand::Reg(R12)),
        Line::Plain(Instr::Xadd {
            w: Width::W64,
            mem: at(LOCKED),
            reg: Operand::Reg(RAX),
        }),
        set(RDI, MUTEX),
        Line::Call(LOCK),
        mov(Operand::Reg(RAX), Operand::Mem(at(GUARDED))),
        alu(AluOp::Add, Width::W64, Operand::Reg(RAX), Operand::Reg(R12)),
        mov(Operand::Mem(at(GUARDED)), Operand::Reg(RAX)),
        set(RDI, MUTEX),
        Line::Call(UNLOCK),
        one(OneOp::Dec, R13),
        Line::Jne,
        clear(RAX),
        Line::Plain(Instr::Ret { extra: 0 }),
    ]
}
