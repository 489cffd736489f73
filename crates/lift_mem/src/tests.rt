use super::*;
use ir_syntax::{Cond, Family, Flag, LockOp, Op, Part, PartEnd, Seq, Target, Width};
use std::alloc::{AllocError, Global};
use std::test::Fail;
use x86_forms::{AluOp, Base, Group, Instr, Mem, OneOp, Operand, ShiftOp};

// The address of the next instruction.
const NEXT: u64 = 0x401007;

// 8 less than 0.
const EIGHT_LESS: u64 = 0xffff_ffff_ffff_fff8;

// registers
const RAX: u8 = 0;

const RCX: u8 = 1;

const RSP: u8 = 4;

const RBP: u8 = 5;

const AX: Operand = Operand::Reg(0);

const CX: Operand = Operand::Reg(1);

// widths
const B: x86_forms::Width = x86_forms::Width::W8;

const D: x86_forms::Width = x86_forms::Width::W32;

const Q: x86_forms::Width = x86_forms::Width::W64;

const W8: Width = Width::W8;

const W32: Width = Width::W32;

const W64: Width = Width::W64;

// [rbx]
const MEM: Mem = Mem {
    base: Base::Reg(3),
    index: None,
    scale: 1,
    disp: 0,
};

const AT: Operand = Operand::Mem(MEM);

const EA: Op = Op::Ea {
    t: 0,
    base: Some(3),
    index: None,
    scale: 1,
    n: 0,
};

const FIVE: [Flag; 5] = [Flag::Pf, Flag::Zf, Flag::Sf, Flag::Of, Flag::Cf];

const FOUR: [Flag; 4] = [Flag::Pf, Flag::Zf, Flag::Sf, Flag::Of];

const EQUAL: Op = Op::Cond { t: 4, c: Cond::E };

const fn zero(flag: Flag) -> Op {
    Op::FlagZero { flag }
}

// t becomes temporary 1 with zeros above its bits.
const fn zext(from: u8, w: Width, t: u8) -> Op {
    Op::Zext { from, w, t, a: 1 }
}

// Temporary 7 becomes one of two by temporary 4.
const fn pick(w: Width, a: u8, b: u8) -> Op {
    Op::Pick {
        w,
        t: 7,
        c: 4,
        a,
        b,
    }
}

const fn compare(w: Width) -> PartEnd {
    PartEnd::LockedCmpxchg {
        w,
        t: 1,
        a: 0,
        c: 3,
        s: 2,
    }
}

const fn ea(t: u8, base: Option<u8>, n: u64) -> Op {
    Op::Ea {
        t,
        base,
        index: None,
        scale: 1,
        n,
    }
}

const fn get(w: Width, t: u8, r: u8) -> Op {
    Op::Get { w, t, r }
}

const fn put(w: Width, r: u8, t: u8) -> Op {
    Op::Put { w, r, t }
}

const fn number(w: Width, t: u8, n: u64) -> Op {
    Op::Const { w, t, n }
}

const fn load(w: Width, t: u8) -> PartEnd {
    PartEnd::Load { w, t, a: 0 }
}

const fn store(w: Width, a: u8, t: u8) -> PartEnd {
    PartEnd::Store { w, a, t }
}

const fn locked(kind: LockOp, w: Width, t: u8, s: u8) -> PartEnd {
    PartEnd::Locked {
        kind,
        w,
        t,
        a: 0,
        s,
    }
}

// What a family computes on.
#[derive(Clone, Copy)]
struct On {
    family: Family,
    w: Width,
    a: u8,
    b: Option<u8>,
}

const fn made_of(family: Family, w: Width, a: u8, b: Option<u8>) -> On {
    On { family, w, a, b }
}

const fn calc(of: On, t: u8) -> Op {
    Op::Calc {
        family: of.family,
        w: of.w,
        t,
        a: of.a,
        b: of.b,
    }
}

fn part(alloc: Global, lines: &[Op], end: PartEnd) -> Result<Part, AllocError> {
    let mut ops = Vec::new(alloc);
    for line in lines {
        ops.push(*line)?;
    }
    Ok(Part {
        ops: Seq::from_vec(ops),
        end,
    })
}

// Lines, then flags of a family, and lines again.
fn with_flags(
    alloc: Global,
    before: &[Op],
    flags: &[Flag],
    of: On,
    after: &[Op],
    end: PartEnd,
) -> Result<Part, AllocError> {
    let mut ops = Vec::new(alloc);
    for line in before {
        ops.push(*line)?;
    }
    for flag in flags {
        ops.push(Op::FlagOf {
            flag: *flag,
            family: of.family,
            w: of.w,
            a: of.a,
            b: of.b,
        })?;
    }
    for line in after {
        ops.push(*line)?;
    }
    Ok(Part {
        ops: Seq::from_vec(ops),
        end,
    })
}

// The parts of an instruction that isn't private.
fn lift(alloc: Global, instr: Instr) -> Result<Vec<Part>, AllocError> {
    match instr.group() {
        Group::Memory => lift_memory(alloc, &instr, NEXT),
        Group::Transfer => lift_flow(alloc, &instr, NEXT),
        Group::Private => Ok(Vec::new(alloc)),
    }
}

fn is_one(alloc: Global, instr: Instr, only: &Part) -> Result<bool, AllocError> {
    let parts = lift(alloc, instr)?;
    Ok(parts.len() == 1 && parts[0] == *only)
}

fn is_two(alloc: Global, instr: Instr, first: &Part, last: &Part) -> Result<bool, AllocError> {
    let parts = lift(alloc, instr)?;
    Ok(parts.len() == 2 && parts[0] == *first && parts[1] == *last)
}

// adc [rbx], ecx
fn adc(alloc: Global) -> Result<bool, AllocError> {
    let of = made_of(Family::Adc, W32, 1, Some(2));
    let first = part(alloc, &[EA], load(W32, 1))?;
    let before = [get(W32, 2, RCX), calc(of, 3)];
    let last = with_flags(alloc, &before, &FIVE, of, &[], store(W32, 0, 3))?;
    let adc = Instr::Alu {
        op: AluOp::Adc,
        w: D,
        dst: AT,
        src: CX,
    };
    is_two(alloc, adc, &first, &last)
}

// cmp rax, [rip + 16]
fn cmp(alloc: Global) -> Result<bool, AllocError> {
    let of = made_of(Family::Sub, W64, 1, Some(2));
    let first = part(alloc, &[ea(0, None, 0x401017)], load(W64, 2))?;
    let last = with_flags(alloc, &[get(W64, 1, RAX)], &FIVE, of, &[], PartEnd::Tick)?;
    let mem = Mem {
        base: Base::Rip,
        index: None,
        scale: 1,
        disp: 16,
    };
    let cmp = Instr::Alu {
        op: AluOp::Cmp,
        w: Q,
        dst: AX,
        src: Operand::Mem(mem),
    };
    is_two(alloc, cmp, &first, &last)
}

// dec byte [rbx]
fn dec(alloc: Global) -> Result<bool, AllocError> {
    let of = made_of(Family::Dec, W8, 1, None);
    let first = part(alloc, &[EA], load(W8, 1))?;
    let last = with_flags(alloc, &[calc(of, 3)], &FOUR, of, &[], store(W8, 0, 3))?;
    let dec = Instr::One {
        op: OneOp::Dec,
        w: B,
        dst: AT,
    };
    is_two(alloc, dec, &first, &last)
}

// shl byte [rbx], 32
fn shl(alloc: Global) -> Result<bool, AllocError> {
    let of = made_of(Family::Shl, W8, 1, Some(2));
    let first = part(alloc, &[EA], load(W8, 1))?;
    let last = part(alloc, &[number(W8, 2, 32), calc(of, 3)], store(W8, 0, 3))?;
    let shl = Instr::Shift {
        op: ShiftOp::Shl,
        w: B,
        dst: AT,
        count: Some(32),
    };
    is_two(alloc, shl, &first, &last)
}

// imul eax, [rbx], 7
fn imul(alloc: Global) -> Result<bool, AllocError> {
    let first = part(alloc, &[EA], load(W32, 1))?;
    let product = made_of(Family::Mul, W32, 2, Some(1));
    let before = [
        number(W32, 2, 7),
        calc(product, 3),
        zero(Flag::Pf),
        zero(Flag::Zf),
        zero(Flag::Sf),
    ];
    let of = made_of(Family::Smul, W32, 2, Some(1));
    let two = [Flag::Of, Flag::Cf];
    let last = with_flags(alloc, &before, &two, of, &[put(W32, RAX, 3)], PartEnd::Tick)?;
    let imul = Instr::Imul {
        w: D,
        dst: RAX,
        a: AT,
        b: Operand::Imm(7),
    };
    is_two(alloc, imul, &first, &last)
}

// idiv dword [rbx]
fn idiv(alloc: Global) -> Result<bool, AllocError> {
    let first = part(alloc, &[EA], load(W32, 1))?;
    let none = [
        zero(Flag::Pf),
        zero(Flag::Zf),
        zero(Flag::Sf),
        zero(Flag::Of),
        zero(Flag::Cf),
    ];
    let divide = PartEnd::Divide {
        signed: true,
        w: W32,
        t: 1,
    };
    let last = part(alloc, &none, divide)?;
    let idiv = Instr::Div {
        signed: true,
        w: D,
        src: AT,
    };
    is_two(alloc, idiv, &first, &last)
}

// mov [rbx + rcx * 4 - 8], ah
fn mov(alloc: Global) -> Result<bool, AllocError> {
    let mem = Mem {
        base: Base::Reg(3),
        index: Some(1),
        scale: 4,
        disp: -8,
    };
    let address = Op::Ea {
        t: 0,
        base: Some(3),
        index: Some(1),
        scale: 4,
        n: EIGHT_LESS,
    };
    let only = part(
        alloc,
        &[address, Op::GetHigh { t: 1, r: 0 }],
        store(W8, 0, 1),
    )?;
    let mov = Instr::Mov {
        w: B,
        dst: Operand::Mem(mem),
        src: Operand::High(0),
    };
    is_one(alloc, mov, &only)
}

// movzx eax, byte [rbx]
fn movzx(alloc: Global) -> Result<bool, AllocError> {
    let first = part(alloc, &[EA], load(W8, 1))?;
    let last = part(alloc, &[zext(8, W32, 2), put(W32, RAX, 2)], PartEnd::Tick)?;
    let movzx = Instr::Zx {
        from: B,
        w: D,
        dst: RAX,
        src: AT,
    };
    is_two(alloc, movzx, &first, &last)
}

// sete [rbx]
fn sete(alloc: Global) -> Result<bool, AllocError> {
    let lines = [EA, Op::Cond { t: 1, c: Cond::E }, zext(1, W8, 2)];
    let only = part(alloc, &lines, store(W8, 0, 2))?;
    let sete = Instr::Set {
        cc: x86_forms::Cond::E,
        dst: AT,
    };
    is_one(alloc, sete, &only)
}

// push rsp
fn push_rsp(alloc: Global) -> Result<bool, AllocError> {
    let lines = [
        get(W64, 1, RSP),
        ea(2, Some(RSP), EIGHT_LESS),
        put(W64, RSP, 2),
    ];
    let only = part(alloc, &lines, store(W64, 2, 1))?;
    let push = Instr::Push {
        src: Operand::Reg(RSP),
    };
    is_one(alloc, push, &only)
}

fn pop(alloc: Global, dst: u8) -> Result<bool, AllocError> {
    let first = part(alloc, &[get(W64, 0, RSP)], load(W64, 1))?;
    let lines = [ea(2, Some(RSP), 8), put(W64, RSP, 2), put(W64, dst, 1)];
    let last = part(alloc, &lines, PartEnd::Tick)?;
    is_two(alloc, Instr::Pop { dst }, &first, &last)
}

fn leave(alloc: Global) -> Result<bool, AllocError> {
    let first = part(alloc, &[get(W64, 0, RBP)], load(W64, 1))?;
    let lines = [ea(2, Some(RBP), 8), put(W64, RSP, 2), put(W64, RBP, 1)];
    let last = part(alloc, &lines, PartEnd::Tick)?;
    is_two(alloc, Instr::Leave, &first, &last)
}

// lock inc dword [rbx]
fn lock_inc(alloc: Global) -> Result<bool, AllocError> {
    let of = made_of(Family::Inc, W32, 1, None);
    let first = part(
        alloc,
        &[EA, number(W32, 2, 1)],
        locked(LockOp::Add, W32, 1, 2),
    )?;
    let last = with_flags(alloc, &[], &FOUR, of, &[], PartEnd::Tick)?;
    let inc = Instr::LockOne {
        op: OneOp::Inc,
        w: D,
        mem: MEM,
    };
    is_two(alloc, inc, &first, &last)
}

// lock sub [rbx], ecx
fn lock_sub(alloc: Global) -> Result<bool, AllocError> {
    let of = made_of(Family::Sub, W32, 1, Some(2));
    let first = part(
        alloc,
        &[EA, get(W32, 2, RCX)],
        locked(LockOp::Sub, W32, 1, 2),
    )?;
    let last = with_flags(alloc, &[], &FIVE, of, &[], PartEnd::Tick)?;
    let sub = Instr::LockAlu {
        op: AluOp::Sub,
        w: D,
        mem: MEM,
        src: CX,
    };
    is_two(alloc, sub, &first, &last)
}

// lock xadd [rbx], rcx
fn xadd(alloc: Global) -> Result<bool, AllocError> {
    let of = made_of(Family::Add, W64, 1, Some(2));
    let first = part(
        alloc,
        &[EA, get(W64, 2, RCX)],
        locked(LockOp::Add, W64, 1, 2),
    )?;
    let last = with_flags(alloc, &[], &FIVE, of, &[put(W64, RCX, 1)], PartEnd::Tick)?;
    let xadd = Instr::Xadd {
        w: Q,
        mem: MEM,
        reg: CX,
    };
    is_two(alloc, xadd, &first, &last)
}

// xchg [rbx], cl
fn xchg(alloc: Global) -> Result<bool, AllocError> {
    let first = part(
        alloc,
        &[EA, get(W8, 1, RCX)],
        locked(LockOp::Xchg, W8, 2, 1),
    )?;
    let last = part(alloc, &[put(W8, RCX, 2)], PartEnd::Tick)?;
    let xchg = Instr::Xchg { w: B, a: AT, b: CX };
    is_two(alloc, xchg, &first, &last)
}

// lock cmpxchg [rbx], ecx
fn cmpxchg(alloc: Global) -> Result<bool, AllocError> {
    let first = part(
        alloc,
        &[EA, get(W32, 2, RCX), get(W32, 3, RAX)],
        compare(W32),
    )?;
    let after = [
        EQUAL,
        get(W64, 5, RAX),
        zext(32, W64, 6),
        pick(W64, 5, 6),
        put(W64, RAX, 7),
    ];
    let of = made_of(Family::Sub, W32, 3, Some(1));
    let last = with_flags(alloc, &[], &FIVE, of, &after, PartEnd::Tick)?;
    let cmpxchg = Instr::Cmpxchg {
        w: D,
        mem: MEM,
        reg: CX,
    };
    is_two(alloc, cmpxchg, &first, &last)
}

// lock cmpxchg [rbx], cl
fn cmpxchg_byte(alloc: Global) -> Result<bool, AllocError> {
    let first = part(alloc, &[EA, get(W8, 2, RCX), get(W8, 3, RAX)], compare(W8))?;
    let after = [EQUAL, pick(W8, 3, 1), put(W8, RAX, 7)];
    let of = made_of(Family::Sub, W8, 3, Some(1));
    let last = with_flags(alloc, &[], &FIVE, of, &after, PartEnd::Tick)?;
    let cmpxchg = Instr::Cmpxchg {
        w: B,
        mem: MEM,
        reg: CX,
    };
    is_two(alloc, cmpxchg, &first, &last)
}

fn mfence(alloc: Global) -> Result<bool, AllocError> {
    let only = part(alloc, &[], PartEnd::Fence)?;
    is_one(alloc, Instr::Mfence, &only)
}

// jb to 2 bytes before the next instruction
fn jb(alloc: Global) -> Result<bool, AllocError> {
    let branch = PartEnd::Branch {
        c: Cond::B,
        yes: 0x401005,
        no: NEXT,
    };
    let only = part(alloc, &[], branch)?;
    let jb = Instr::Jcc {
        cc: x86_forms::Cond::B,
        rel: -2,
    };
    is_one(alloc, jb, &only)
}

// jmp rax
fn jmp_rax(alloc: Global) -> Result<bool, AllocError> {
    let go = PartEnd::Go {
        to: Target::Temp(1),
    };
    let only = part(alloc, &[get(W64, 1, RAX)], go)?;
    is_one(alloc, Instr::JmpTo { src: AX }, &only)
}

// rsp becomes 8 less, and the address of the next instruction is stored there.
fn pushed(alloc: Global, to: Target) -> Result<Part, AllocError> {
    let lines = [
        ea(2, Some(RSP), EIGHT_LESS),
        put(W64, RSP, 2),
        number(W64, 1, NEXT),
    ];
    let store = PartEnd::StoreGo { a: 2, t: 1, to };
    part(alloc, &lines, store)
}

// call to 16 bytes after the next instruction
fn call(alloc: Global) -> Result<bool, AllocError> {
    let only = pushed(alloc, Target::Place(0x401017))?;
    is_one(alloc, Instr::Call { rel: 16 }, &only)
}

// call [rsp]
fn call_memory(alloc: Global) -> Result<bool, AllocError> {
    let mem = Mem {
        base: Base::Reg(4),
        index: None,
        scale: 1,
        disp: 0,
    };
    let first = part(alloc, &[ea(0, Some(RSP), 0)], load(W64, 3))?;
    let last = pushed(alloc, Target::Temp(3))?;
    let src = Operand::Mem(mem);
    is_two(alloc, Instr::CallTo { src }, &first, &last)
}

// ret 8
fn ret(alloc: Global) -> Result<bool, AllocError> {
    let first = part(alloc, &[get(W64, 0, RSP)], load(W64, 1))?;
    let go = PartEnd::Go {
        to: Target::Temp(1),
    };
    let last = part(alloc, &[ea(2, Some(RSP), 16), put(W64, RSP, 2)], go)?;
    is_two(alloc, Instr::Ret { extra: 8 }, &first, &last)
}

#[test]
fn operands_in_memory(rt: HostRuntime) -> Result<(), Fail> {
    let alloc = rt.alloc();
    assert!(rt; adc(alloc)?);
    assert!(rt; cmp(alloc)?);
    assert!(rt; dec(alloc)?);
    assert!(rt; shl(alloc)?);
    assert!(rt; imul(alloc)?);
    assert!(rt; idiv(alloc)?);
    assert!(rt; mov(alloc)?);
    assert!(rt; movzx(alloc)?);
    assert!(rt; sete(alloc)?);
    Ok(())
}

#[test]
fn stack_and_transfers(rt: HostRuntime) -> Result<(), Fail> {
    let alloc = rt.alloc();
    assert!(rt; push_rsp(alloc)?);
    assert!(rt; pop(alloc, RSP)?);
    assert!(rt; pop(alloc, RCX)?);
    assert!(rt; leave(alloc)?);
    assert!(rt; jb(alloc)?);
    assert!(rt; jmp_rax(alloc)?);
    assert!(rt; call(alloc)?);
    assert!(rt; call_memory(alloc)?);
    assert!(rt; ret(alloc)?);
    Ok(())
}

#[test]
fn locked_steps(rt: HostRuntime) -> Result<(), Fail> {
    let alloc = rt.alloc();
    assert!(rt; lock_inc(alloc)?);
    assert!(rt; lock_sub(alloc)?);
    assert!(rt; xadd(alloc)?);
    assert!(rt; xchg(alloc)?);
    assert!(rt; cmpxchg(alloc)?);
    assert!(rt; cmpxchg_byte(alloc)?);
    assert!(rt; mfence(alloc)?);
    Ok(())
}
