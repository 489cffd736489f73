use super::*;
use ir_syntax::{Family, Flag, Op, PartEnd, Width};
use std::alloc::{AllocError, Global};
use std::test::Fail;
use x86_forms::{AluOp, Base, Cond, Group, Instr, Mem, OneOp, Operand, ShiftOp};

// registers
const AX: Operand = Operand::Reg(0);

const CX: Operand = Operand::Reg(1);

const BX: Operand = Operand::Reg(3);

const RAX: u8 = 0;

const RCX: u8 = 1;

const RDX: u8 = 2;

const RBX: u8 = 3;

// widths
const B: x86_forms::Width = x86_forms::Width::W8;

const W: x86_forms::Width = x86_forms::Width::W16;

const D: x86_forms::Width = x86_forms::Width::W32;

const Q: x86_forms::Width = x86_forms::Width::W64;

const W8: Width = Width::W8;

const W16: Width = Width::W16;

const W32: Width = Width::W32;

const W64: Width = Width::W64;

const FIVE: [Flag; 5] = [Flag::Pf, Flag::Zf, Flag::Sf, Flag::Of, Flag::Cf];

const fn get(w: Width, t: u8, r: u8) -> Op {
    Op::Get { w, t, r }
}

const fn put(w: Width, r: u8, t: u8) -> Op {
    Op::Put { w, r, t }
}

const fn number(w: Width, t: u8, n: u64) -> Op {
    Op::Const { w, t, n }
}

const fn calc(family: Family, w: Width, t: u8, a: u8, b: Option<u8>) -> Op {
    Op::Calc { family, w, t, a, b }
}

const fn zero(flag: Flag) -> Op {
    Op::FlagZero { flag }
}

// The lines of these flags of a family on t1 and t2, or on t1 alone.
#[derive(Clone, Copy)]
struct Puts {
    family: Family,
    w: Width,
    a: u8,
    b: Option<u8>,
}

const fn on_operands(family: Family, w: Width, b: Option<u8>) -> Puts {
    Puts { family, w, a: 1, b }
}

// Whether the instruction, before 0x401007, has one part: lines, lines of flags, lines again and `tick`.
fn has(
    alloc: Global,
    instr: Instr,
    before: &[Op],
    flags: &[Flag],
    of: Puts,
    after: &[Op],
) -> Result<bool, AllocError> {
    let mut lines = Vec::new(alloc);
    for line in before {
        lines.push(*line)?;
    }
    for flag in flags {
        lines.push(Op::FlagOf {
            flag: *flag,
            family: of.family,
            w: of.w,
            a: of.a,
            b: of.b,
        })?;
    }
    for line in after {
        lines.push(*line)?;
    }
    is_lifted(alloc, instr, lines.as_slice(), PartEnd::Tick)
}

fn is_lifted(alloc: Global, instr: Instr, lines: &[Op], end: PartEnd) -> Result<bool, AllocError> {
    match instr.group() {
        Group::Private => {
            let parts = lift_private(alloc, &instr, 0x401007)?;
            Ok(parts.len() == 1 && parts[0].ops.as_slice() == lines && parts[0].end == end)
        }
        Group::Memory | Group::Transfer => Ok(false),
    }
}

fn alu(op: AluOp, w: x86_forms::Width, dst: Operand, src: Operand) -> Instr {
    Instr::Alu { op, w, dst, src }
}

fn shift(op: ShiftOp, dst: Operand, count: Option<u8>) -> Instr {
    Instr::Shift {
        op,
        w: D,
        dst,
        count,
    }
}

#[test]
fn two_operands(rt: HostRuntime) -> Result<(), Fail> {
    let alloc = rt.alloc();
    let two = Some(2);
    // add eax, ebx
    let before = [
        get(W32, 1, RAX),
        get(W32, 2, RBX),
        calc(Family::Add, W32, 3, 1, two),
    ];
    assert!(rt;
        has(
            alloc,
            alu(AluOp::Add, D, AX, BX),
            &before,
            &FIVE,
            on_operands(Family::Add, W32, two),
            &[put(W32, RAX, 3)]
        )?
    );
    // adc ax, cx
    let before = [
        get(W16, 1, RAX),
        get(W16, 2, RCX),
        calc(Family::Adc, W16, 3, 1, two),
    ];
    assert!(rt;
        has(
            alloc,
            alu(AluOp::Adc, W, AX, CX),
            &before,
            &FIVE,
            on_operands(Family::Adc, W16, two),
            &[put(W16, RAX, 3)]
        )?
    );
    // xor ch, 0x80
    let before = [
        Op::GetHigh { t: 1, r: 1 },
        number(W8, 2, 0x80),
        calc(Family::Xor, W8, 3, 1, two),
    ];
    let xor = alu(AluOp::Xor, B, Operand::High(1), Operand::Imm(0x80));
    assert!(rt;
        has(
            alloc,
            xor,
            &before,
            &FIVE,
            on_operands(Family::Xor, W8, two),
            &[Op::PutHigh { r: 1, t: 3 }]
        )?
    );
    // cmp eax, ecx
    let before = [get(W32, 1, RAX), get(W32, 2, RCX)];
    assert!(rt;
        has(
            alloc,
            alu(AluOp::Cmp, D, AX, CX),
            &before,
            &FIVE,
            on_operands(Family::Sub, W32, two),
            &[]
        )?
    );
    // test rax, 1
    let before = [get(W64, 1, RAX), number(W64, 2, 1)];
    assert!(rt;
        has(
            alloc,
            alu(AluOp::Test, Q, AX, Operand::Imm(1)),
            &before,
            &FIVE,
            on_operands(Family::And, W64, two),
            &[]
        )?
    );
    Ok(())
}

#[test]
fn one_operand(rt: HostRuntime) -> Result<(), Fail> {
    let alloc = rt.alloc();
    // inc ecx
    let before = [get(W32, 1, RCX), calc(Family::Inc, W32, 3, 1, None)];
    let inc = Instr::One {
        op: OneOp::Inc,
        w: D,
        dst: CX,
    };
    let four = [Flag::Pf, Flag::Zf, Flag::Sf, Flag::Of];
    assert!(rt;
        has(
            alloc,
            inc,
            &before,
            &four,
            on_operands(Family::Inc, W32, None),
            &[put(W32, RCX, 3)]
        )?
    );
    // neg rax
    let before = [get(W64, 1, RAX), calc(Family::Neg, W64, 3, 1, None)];
    let neg = Instr::One {
        op: OneOp::Neg,
        w: Q,
        dst: AX,
    };
    assert!(rt;
        has(
            alloc,
            neg,
            &before,
            &FIVE,
            on_operands(Family::Neg, W64, None),
            &[put(W64, RAX, 3)]
        )?
    );
    // not al
    let lines = [
        get(W8, 1, RAX),
        calc(Family::Not, W8, 3, 1, None),
        put(W8, RAX, 3),
    ];
    assert!(rt;
        is_lifted(
            alloc,
            Instr::One {
                op: OneOp::Not,
                w: B,
                dst: AX
            },
            &lines,
            PartEnd::Tick
        )?
    );
    Ok(())
}

#[test]
fn shifts(rt: HostRuntime) -> Result<(), Fail> {
    let alloc = rt.alloc();
    let two = Some(2);
    // shl ecx, 3
    let before = [
        get(W32, 1, RCX),
        number(W8, 2, 3),
        calc(Family::Shl, W32, 3, 1, two),
    ];
    assert!(rt;
        has(
            alloc,
            shift(ShiftOp::Shl, CX, Some(3)),
            &before,
            &FIVE,
            on_operands(Family::Shl, W32, two),
            &[put(W32, RCX, 3)]
        )?
    );
    // shr eax, cl
    let before = [
        get(W32, 1, RAX),
        get(W8, 2, RCX),
        calc(Family::Shr, W32, 3, 1, two),
    ];
    assert!(rt;
        has(
            alloc,
            shift(ShiftOp::Shr, AX, None),
            &before,
            &FIVE,
            on_operands(Family::Shr, W32, two),
            &[put(W32, RAX, 3)]
        )?
    );
    // rol eax, 1
    let before = [
        get(W32, 1, RAX),
        number(W8, 2, 1),
        calc(Family::Rol, W32, 3, 1, two),
    ];
    assert!(rt;
        has(
            alloc,
            shift(ShiftOp::Rol, AX, Some(1)),
            &before,
            &[Flag::Of, Flag::Cf],
            on_operands(Family::Rol, W32, two),
            &[put(W32, RAX, 3)]
        )?
    );
    // sar eax, 32
    let lines = [
        get(W32, 1, RAX),
        number(W8, 2, 32),
        calc(Family::Sar, W32, 3, 1, two),
        put(W32, RAX, 3),
    ];
    assert!(rt;
        is_lifted(
            alloc,
            shift(ShiftOp::Sar, AX, Some(32)),
            &lines,
            PartEnd::Tick
        )?
    );
    Ok(())
}

// A product clears three flags.
fn is_product(
    alloc: Global,
    instr: Instr,
    first: &[Op],
    family: Family,
    last: &[Op],
) -> Result<bool, AllocError> {
    let mut before = Vec::new(alloc);
    for line in first {
        before.push(*line)?;
    }
    for flag in [Flag::Pf, Flag::Zf, Flag::Sf] {
        before.push(zero(flag))?;
    }
    let of = Puts {
        family,
        w: W32,
        a: 2,
        b: Some(1),
    };
    has(
        alloc,
        instr,
        before.as_slice(),
        &[Flag::Of, Flag::Cf],
        of,
        last,
    )
}

#[test]
fn products_and_quotients(rt: HostRuntime) -> Result<(), Fail> {
    let alloc = rt.alloc();
    let one = Some(1);
    // mul ecx
    let mul = Instr::Mul {
        signed: false,
        w: D,
        src: CX,
    };
    let first = [
        get(W32, 1, RCX),
        get(W32, 2, RAX),
        calc(Family::Mul, W32, 3, 2, one),
        calc(Family::Umulh, W32, 4, 2, one),
    ];
    assert!(rt;
        is_product(
            alloc,
            mul,
            &first,
            Family::Umul,
            &[put(W32, RAX, 3), put(W32, RDX, 4)]
        )?
    );
    // imul ecx
    let mul = Instr::Mul {
        signed: true,
        w: D,
        src: CX,
    };
    let first = [
        get(W32, 1, RCX),
        get(W32, 2, RAX),
        calc(Family::Mul, W32, 3, 2, one),
        calc(Family::Smulh, W32, 4, 2, one),
    ];
    assert!(rt;
        is_product(
            alloc,
            mul,
            &first,
            Family::Smul,
            &[put(W32, RAX, 3), put(W32, RDX, 4)]
        )?
    );
    // imul eax, ecx
    let imul = Instr::Imul {
        w: D,
        dst: RAX,
        a: AX,
        b: CX,
    };
    let first = [
        get(W32, 1, RCX),
        get(W32, 2, RAX),
        calc(Family::Mul, W32, 3, 2, one),
    ];
    assert!(rt; is_product(alloc, imul, &first, Family::Smul, &[put(W32, RAX, 3)])?);
    // imul eax, ecx, 10
    let imul = Instr::Imul {
        w: D,
        dst: RAX,
        a: CX,
        b: Operand::Imm(10),
    };
    let first = [
        get(W32, 1, RCX),
        number(W32, 2, 10),
        calc(Family::Mul, W32, 3, 2, one),
    ];
    assert!(rt; is_product(alloc, imul, &first, Family::Smul, &[put(W32, RAX, 3)])?);
    // idiv rcx
    let div = Instr::Div {
        signed: true,
        w: Q,
        src: CX,
    };
    let lines = [
        get(W64, 1, RCX),
        zero(Flag::Pf),
        zero(Flag::Zf),
        zero(Flag::Sf),
        zero(Flag::Of),
        zero(Flag::Cf),
    ];
    assert!(rt;
        is_lifted(
            alloc,
            div,
            &lines,
            PartEnd::Divide {
                signed: true,
                w: W64,
                t: 1
            }
        )?
    );
    Ok(())
}

#[test]
fn moves(rt: HostRuntime) -> Result<(), Fail> {
    let alloc = rt.alloc();
    let tick = PartEnd::Tick;
    // mov ah, bl
    let mov = Instr::Mov {
        w: B,
        dst: Operand::High(0),
        src: BX,
    };
    assert!(rt;
        is_lifted(
            alloc,
            mov,
            &[get(W8, 1, RBX), Op::PutHigh { r: 0, t: 1 }],
            tick
        )?
    );
    // mov edi, 7
    let mov = Instr::Mov {
        w: D,
        dst: Operand::Reg(7),
        src: Operand::Imm(7),
    };
    assert!(rt; is_lifted(alloc, mov, &[number(W32, 1, 7), put(W32, 7, 1)], tick)?);
    // movzx eax, ch
    let zx = Instr::Zx {
        from: B,
        w: D,
        dst: RAX,
        src: Operand::High(1),
    };
    let lines = [
        Op::GetHigh { t: 1, r: 1 },
        Op::Zext {
            from: 8,
            w: W32,
            t: 2,
            a: 1,
        },
        put(W32, RAX, 2),
    ];
    assert!(rt; is_lifted(alloc, zx, &lines, tick)?);
    // movsxd rax, ecx
    let sx = Instr::Sx {
        from: D,
        w: Q,
        dst: RAX,
        src: CX,
    };
    let lines = [
        get(W32, 1, RCX),
        Op::Sext {
            from: 32,
            w: W64,
            t: 2,
            a: 1,
        },
        put(W64, RAX, 2),
    ];
    assert!(rt; is_lifted(alloc, sx, &lines, tick)?);
    // lea rax, [rip + 8]
    let mem = Mem {
        base: Base::Rip,
        index: None,
        scale: 1,
        disp: 8,
    };
    let address = Op::Ea {
        t: 0,
        base: None,
        index: None,
        scale: 1,
        n: 0x40100f,
    };
    assert!(rt;
        is_lifted(
            alloc,
            Instr::Lea {
                w: Q,
                dst: RAX,
                mem
            },
            &[address, put(W64, RAX, 0)],
            tick
        )?
    );
    // lea eax, [rbx + rcx * 4 - 1]
    let mem = Mem {
        base: Base::Reg(RBX),
        index: Some(RCX),
        scale: 4,
        disp: -1,
    };
    let address = Op::Ea {
        t: 0,
        base: Some(RBX),
        index: Some(RCX),
        scale: 4,
        n: 0xffff_ffff_ffff_ffff,
    };
    let lines = [
        address,
        Op::Cut {
            from: 64,
            w: W32,
            t: 1,
            a: 0,
        },
        put(W32, RAX, 1),
    ];
    assert!(rt;
        is_lifted(
            alloc,
            Instr::Lea {
                w: D,
                dst: RAX,
                mem
            },
            &lines,
            tick
        )?
    );
    Ok(())
}

#[test]
fn widening_and_choices(rt: HostRuntime) -> Result<(), Fail> {
    let alloc = rt.alloc();
    let tick = PartEnd::Tick;
    // cdqe
    let lines = [
        get(W32, 1, RAX),
        Op::Sext {
            from: 32,
            w: W64,
            t: 2,
            a: 1,
        },
        put(W64, RAX, 2),
    ];
    assert!(rt; is_lifted(alloc, Instr::Widen { w: Q }, &lines, tick)?);
    // cqo
    let lines = [
        get(W64, 1, RAX),
        number(W8, 2, 63),
        calc(Family::Sar, W64, 3, 1, Some(2)),
        put(W64, RDX, 3),
    ];
    assert!(rt; is_lifted(alloc, Instr::Spread { w: Q }, &lines, tick)?);
    // xchg eax, ecx
    let lines = [
        get(W32, 1, RAX),
        get(W32, 2, RCX),
        put(W32, RAX, 2),
        put(W32, RCX, 1),
    ];
    assert!(rt; is_lifted(alloc, Instr::Xchg { w: D, a: AX, b: CX }, &lines, tick)?);
    // sete al
    let lines = [
        Op::Cond {
            t: 1,
            c: ir_syntax::Cond::E,
        },
        Op::Zext {
            from: 1,
            w: W8,
            t: 2,
            a: 1,
        },
        put(W8, RAX, 2),
    ];
    assert!(rt;
        is_lifted(
            alloc,
            Instr::Set {
                cc: Cond::E,
                dst: AX
            },
            &lines,
            tick
        )?
    );
    // cmovne eax, ecx
    let pick = Op::Pick {
        w: W32,
        t: 4,
        c: 3,
        a: 1,
        b: 2,
    };
    let lines = [
        get(W32, 1, RCX),
        get(W32, 2, RAX),
        Op::Cond {
            t: 3,
            c: ir_syntax::Cond::Ne,
        },
        pick,
        put(W32, RAX, 4),
    ];
    assert!(rt;
        is_lifted(
            alloc,
            Instr::Cmov {
                cc: Cond::Ne,
                w: D,
                dst: RAX,
                src: CX
            },
            &lines,
            tick
        )?
    );
    // nop
    assert!(rt; is_lifted(alloc, Instr::Nop, &[], tick)?);
    Ok(())
}
