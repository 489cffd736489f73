// One row for each step of each kind of instruction. The numbers are worked by hand from the pages of
// the SDM, Volume 2.
use super::*;
use AluOp::{Adc, Add, Cmp, Sub, Test, Xor};
use Operand::{High, Imm, Reg};
use Width::{W8, W16, W32, W64};
use std::test::*;
use x86_flags::Flags;
use x86_forms::{AluOp, Base, Cond, Instr, Mem, OneOp, Operand, ShiftOp, Width};

// Where the instruction stands, and the next one.
const RIP: u64 = 0x40_1000;

const NEXT: u64 = 0x40_1003;

// rax, rcx, rdx, rbx, rsp and rbp; the others are 0.
type Regs = [u64; 6];

const A: u64 = 0x1122_3344_5566_7788;

const B: u64 = 0xffff_ffff_ffff_fff0;

const R: Regs = [A, 4, 7, B, 0x7000, 0x6000];

fn flags(names: &str) -> Flags {
    Flags {
        cf: names.contains('c'),
        pf: names.contains('p'),
        zf: names.contains('z'),
        sf: names.contains('s'),
        of: names.contains('o'),
    }
}

fn cpu(r: Regs, names: &str, rip: u64, last: u64, mid: Option<u64>) -> Cpu {
    Cpu {
        regs: [
            r[0], r[1], r[2], r[3], r[4], r[5], 0, 0, 0, 0, 0, 0, 0, 0, 0, 0,
        ],
        flags: flags(names),
        rip,
        last,
        mid,
    }
}

// After the instruction, which goes on at the next one.
fn done(r: Regs, names: &str) -> Cpu {
    cpu(r, names, NEXT, RIP, None)
}

fn to(r: Regs, rip: u64) -> Want {
    Want::Private(cpu(r, "c", rip, RIP, None))
}

fn ends(r: Regs, names: &str) -> Want {
    Want::Private(done(r, names))
}

fn load(at: u64, w: Width) -> Want {
    Want::Load { at, w }
}

fn store(at: u64, w: Width, value: u64, next: Cpu) -> Want {
    Want::Store { at, w, value, next }
}

fn locked(w: Width, change: Change) -> Want {
    Want::Locked {
        at: 0x6000,
        w,
        change,
    }
}

fn at(base: Base, index: Option<u8>, scale: u8, disp: i32) -> Mem {
    Mem {
        base,
        index,
        scale,
        disp,
    }
}

// In memory at rbp and more.
fn at_rbp(disp: i32) -> Mem {
    at(Base::Reg(5), None, 1, disp)
}

fn alu(op: AluOp, w: Width, dst: Operand, src: Operand) -> Instr {
    Instr::Alu { op, w, dst, src }
}

// The instruction, what it has loaded, and what it wants. The carry flag is set before it.
type Row = (Instr, Option<u64>, Want);

// The first row that fails, and what its instruction wants instead.
fn first_wrong(rows: &[Row]) -> Option<(usize, Want)> {
    for (i, (instr, mid, want)) in rows.iter().enumerate() {
        let found = want_of(*instr, NEXT, cpu(R, "c", RIP, 0x40_0ffe, *mid));
        if found != *want {
            return Some((i, found));
        }
    }
    None
}

#[test]
fn arithmetic(rt: HostRuntime) {
    let cell = Operand::Mem(at(Base::None, Some(1), 8, 0x1000));
    let wrapped = Operand::Mem(at(Base::Reg(3), None, 1, 0x20));
    let one = |op: OneOp, w: Width, dst: Operand| Instr::One { op, w, dst };
    let rax = |v: u64| [v, 4, 7, B, 0x7000, 0x6000];
    let rows = [
        (alu(Add, W64, Reg(0), Reg(1)), None, ends(rax(A + 4), "")),
        (alu(Adc, W8, Reg(0), Imm(0)), None, ends(rax(A + 1), "s")),
        (
            alu(Sub, W16, Reg(1), Imm(5)),
            None,
            ends([A, 0xffff, 7, B, 0x7000, 0x6000], "cps"),
        ),
        (alu(Add, W32, Reg(0), wrapped), None, load(0x10, W32)),
        (
            alu(Add, W32, Reg(0), wrapped),
            Some(0xaa99_8878),
            ends(rax(0), "cpz"),
        ),
        (alu(Add, W8, cell, Reg(0)), None, load(0x1020, W8)),
        (
            alu(Add, W8, cell, Reg(0)),
            Some(0x88),
            store(0x1020, W8, 0x10, done(R, "co")),
        ),
        (
            alu(Cmp, W32, Reg(0), Imm(0x5566_7789)),
            None,
            ends(R, "cps"),
        ),
        (alu(Test, W64, Reg(2), Reg(2)), None, ends(R, "")),
        (alu(Xor, W32, Reg(0), Reg(0)), None, ends(rax(0), "pz")),
        (
            one(OneOp::Inc, W8, Reg(1)),
            None,
            ends([A, 5, 7, B, 0x7000, 0x6000], "cp"),
        ),
        (
            one(OneOp::Neg, W64, Reg(2)),
            None,
            ends([A, 4, 0xffff_ffff_ffff_fff9, B, 0x7000, 0x6000], "cps"),
        ),
        (
            one(OneOp::Not, W8, cell),
            Some(0x0f),
            store(0x1020, W8, 0xf0, done(R, "c")),
        ),
    ];
    assert_eq!(rt; first_wrong(&rows), None);
}

#[test]
fn products_quotients_and_shifts(rt: HostRuntime) {
    let cell = Operand::Mem(at_rbp(0));
    let mul = |signed: bool, w: Width, src: Operand| Instr::Mul { signed, w, src };
    let div = |signed: bool, w: Width, src: Operand| Instr::Div { signed, w, src };
    let shift = |op: ShiftOp, w: Width, dst: Operand, count: Option<u8>| Instr::Shift {
        op,
        w,
        dst,
        count,
    };
    let rax_rdx = |v: u64, h: u64| [v, 4, h, B, 0x7000, 0x6000];
    let rows = [
        (
            mul(false, W32, Reg(3)),
            None,
            ends(rax_rdx(0xa998_8780, 0x5566_7782), "co"),
        ),
        (mul(false, W8, Reg(3)), None, Want::Bad(BadStep::Code)),
        (
            Instr::Imul {
                w: W32,
                dst: 2,
                a: Reg(1),
                b: Imm(0xffff_ffff),
            },
            None,
            ends(rax_rdx(A, 0xffff_fffc), ""),
        ),
        (
            div(false, W64, Reg(3)),
            None,
            ends(rax_rdx(7, 0x1122_3344_5566_77f8), ""),
        ),
        (
            div(true, W32, Reg(3)),
            None,
            ends(rax_rdx(0x8aa9_9888, 8), ""),
        ),
        (div(false, W64, Reg(1)), None, Want::Bad(BadStep::Divide)),
        (div(false, W32, cell), None, load(0x6000, W32)),
        (div(false, W32, cell), Some(0), Want::Bad(BadStep::Divide)),
        (
            shift(ShiftOp::Shl, W32, cell, Some(32)),
            None,
            load(0x6000, W32),
        ),
        (
            shift(ShiftOp::Shl, W32, cell, Some(32)),
            Some(0x8000_0001),
            store(0x6000, W32, 0x8000_0001, done(R, "c")),
        ),
        (
            shift(ShiftOp::Shr, W32, Reg(0), None),
            None,
            ends(rax_rdx(0x0556_6778, 7), "cp"),
        ),
        (
            shift(ShiftOp::Rol, W32, Reg(0), Some(1)),
            None,
            ends(rax_rdx(0xaacc_ef10, 7), "o"),
        ),
        (
            Instr::Widen { w: W64 },
            None,
            ends(rax_rdx(0x5566_7788, 7), "c"),
        ),
        (Instr::Spread { w: W64 }, None, ends(rax_rdx(A, 0), "c")),
    ];
    assert_eq!(rt; first_wrong(&rows), None);
}

#[test]
fn moves(rt: HostRuntime) {
    let cell = Operand::Mem(at_rbp(-8));
    let rax = |v: u64| [v, 4, 7, B, 0x7000, 0x6000];
    let rdx = |v: u64| [A, 4, v, B, 0x7000, 0x6000];
    let mov = |w: Width, dst: Operand, src: Operand| Instr::Mov { w, dst, src };
    let cmov = |cc: Cond, w: Width, dst: u8, src: Operand| Instr::Cmov { cc, w, dst, src };
    let ahead = Operand::Mem(at(Base::Rip, None, 1, 0x10));
    let rows = [
        (
            mov(W8, High(0), Imm(0x99)),
            None,
            ends(rax(0x1122_3344_5566_9988), "c"),
        ),
        (
            mov(W32, ahead, Reg(1)),
            None,
            store(0x40_1013, W32, 4, done(R, "c")),
        ),
        (mov(W16, Reg(0), cell), None, load(0x5ff8, W16)),
        (
            mov(W16, Reg(0), cell),
            Some(0xbeef),
            ends(rax(0x1122_3344_5566_beef), "c"),
        ),
        (
            Instr::Zx {
                from: W8,
                w: W32,
                dst: 2,
                src: High(0),
            },
            None,
            ends(rdx(0x77), "c"),
        ),
        (
            Instr::Sx {
                from: W8,
                w: W64,
                dst: 2,
                src: Reg(0),
            },
            None,
            ends(rdx(0xffff_ffff_ffff_ff88), "c"),
        ),
        (
            Instr::Sx {
                from: W16,
                w: W32,
                dst: 2,
                src: cell,
            },
            Some(0x8000),
            ends(rdx(0xffff_8000), "c"),
        ),
        (
            Instr::Lea {
                w: W64,
                dst: 2,
                mem: at(Base::Reg(3), Some(1), 2, 0x20),
            },
            None,
            ends(rdx(0x18), "c"),
        ),
        (
            Instr::Xchg {
                w: W8,
                a: Reg(1),
                b: High(0),
            },
            None,
            ends([0x1122_3344_5566_0488, 0x77, 7, B, 0x7000, 0x6000], "c"),
        ),
        (
            Instr::Set {
                cc: Cond::B,
                dst: cell,
            },
            None,
            store(0x5ff8, W8, 1, done(R, "c")),
        ),
        (
            Instr::Set {
                cc: Cond::E,
                dst: Reg(2),
            },
            None,
            ends(rdx(0), "c"),
        ),
        (
            cmov(Cond::E, W32, 0, Reg(1)),
            None,
            ends(rax(0x5566_7788), "c"),
        ),
        (cmov(Cond::B, W64, 0, Reg(1)), None, ends(rax(4), "c")),
        (cmov(Cond::E, W32, 2, cell), None, load(0x5ff8, W32)),
    ];
    assert_eq!(rt; first_wrong(&rows), None);
}

#[test]
fn the_stack_and_transfers(rt: HostRuntime) {
    let cell = Operand::Mem(at(Base::Reg(1), None, 1, 4));
    let rsp = |v: u64| [A, 4, 7, B, v, 0x6000];
    let pushed = cpu(rsp(0x6ff8), "c", 0x40_1103, RIP, None);
    let rows = [
        (
            Instr::Push { src: Reg(4) },
            None,
            store(0x6ff8, W64, 0x7000, done(rsp(0x6ff8), "c")),
        ),
        (Instr::Push { src: cell }, None, load(8, W64)),
        (
            Instr::Push { src: cell },
            Some(0x1234),
            store(0x6ff8, W64, 0x1234, done(rsp(0x6ff8), "c")),
        ),
        (Instr::Pop { dst: 1 }, None, load(0x7000, W64)),
        (
            Instr::Pop { dst: 1 },
            Some(0x55),
            ends([A, 0x55, 7, B, 0x7008, 0x6000], "c"),
        ),
        (Instr::Pop { dst: 4 }, Some(0x9000), ends(rsp(0x9000), "c")),
        (Instr::Leave, None, load(0x6000, W64)),
        (
            Instr::Leave,
            Some(0x6100),
            ends([A, 4, 7, B, 0x6008, 0x6100], "c"),
        ),
        (
            Instr::Call { rel: 0x100 },
            None,
            store(0x6ff8, W64, NEXT, pushed),
        ),
        (Instr::CallTo { src: cell }, None, load(8, W64)),
        (
            Instr::CallTo { src: cell },
            Some(0x40_1103),
            store(0x6ff8, W64, NEXT, pushed),
        ),
        (Instr::Ret { extra: 8 }, None, load(0x7000, W64)),
        (
            Instr::Ret { extra: 8 },
            Some(0x40_2000),
            to(rsp(0x7010), 0x40_2000),
        ),
        (Instr::JmpTo { src: cell }, None, load(8, W64)),
        (
            Instr::JmpTo { src: cell },
            Some(0x40_3000),
            to(R, 0x40_3000),
        ),
        (Instr::Jmp { rel: -3 }, None, to(R, RIP)),
        (
            Instr::Jcc {
                cc: Cond::B,
                rel: 0x10,
            },
            None,
            to(R, 0x40_1013),
        ),
        (
            Instr::Jcc {
                cc: Cond::E,
                rel: 0x10,
            },
            None,
            to(R, NEXT),
        ),
        (Instr::Nop, None, to(R, NEXT)),
        (Instr::Pause, None, to(R, NEXT)),
        (Instr::Endbr, None, to(R, NEXT)),
    ];
    assert_eq!(rt; first_wrong(&rows), None);
}

#[test]
fn locked_and_fenced(rt: HostRuntime) {
    let mem = at_rbp(0);
    let rax = |v: u64| [v, 4, 7, B, 0x7000, 0x6000];
    let rcx = |v: u64| [A, v, 7, B, 0x7000, 0x6000];
    let xchg = Instr::Xchg {
        w: W64,
        a: Operand::Mem(mem),
        b: Reg(1),
    };
    let add = Instr::LockAlu {
        op: Add,
        w: W32,
        mem,
        src: Reg(1),
    };
    let dec = Instr::LockOne {
        op: OneOp::Dec,
        w: W8,
        mem,
    };
    let xadd = Instr::Xadd {
        w: W16,
        mem,
        reg: Reg(1),
    };
    let narrow = Instr::Cmpxchg {
        w: W32,
        mem,
        reg: Reg(1),
    };
    let whole = Instr::Cmpxchg {
        w: W64,
        mem,
        reg: Reg(1),
    };
    let rows = [
        (Instr::Mfence, None, Want::Fence(done(R, "c"))),
        (xchg, None, locked(W64, Change::Xchg(4))),
        (xchg, Some(0x99), ends(rcx(0x99), "c")),
        (add, None, locked(W32, Change::Add(4))),
        (add, Some(0xffff_fffc), ends(R, "cpz")),
        (dec, None, locked(W8, Change::Sub(1))),
        (dec, Some(0x80), ends(R, "co")),
        (xadd, None, locked(W16, Change::Add(4))),
        (xadd, Some(0xfffe), ends(rcx(0xfffe), "c")),
        (
            narrow,
            None,
            locked(
                W32,
                Change::Cmpxchg {
                    want: 0x5566_7788,
                    new: 4,
                },
            ),
        ),
        (narrow, Some(0x5566_7788), ends(R, "pz")),
        (narrow, Some(0x10), ends(rax(0x10), "p")),
        (whole, Some(A), ends(R, "pz")),
        (
            Instr::LockAlu {
                op: Cmp,
                w: W8,
                mem,
                src: Reg(1),
            },
            None,
            Want::Bad(BadStep::Code),
        ),
    ];
    assert_eq!(rt; first_wrong(&rows), None);
}
