ghost use Rattle.std.specs.Prelude.{◌≡◌};
ghost use Rattle.x86_model.specs.Finishing.{exchanged, cmov_want, pushing_at, pushing, released, lock_alu_end, lock_one_end, xadd_end, cmpxchg_end, finished};

use crate::arithmetic::{alu_want, comparing, div_want, imul_want, mul_want, one_want, shift_want};
use crate::cpu::Cpu;
use crate::operands::{address, assigned, given, target, value};
use crate::results::{alu, holds, one};
use crate::want::Want;
use crate::width::{half, sign_extended, spread};
use x86_forms::{AluOp, Cond, Instr, OneOp, Operand, Width};

// Each operand gets what the other had.
#[tactic(auto, unfolding(crate::specs::Finishing::exchanged))]
fn exchanged(w: Width, a: Operand, b: Operand, next: u64, cpu: Cpu) -> Want
    ensures { result ≡ exchanged w a b next cpu }
{
    let first = assigned(cpu, w, a, value(cpu, w, b));
    Want::Private(assigned(first, w, b, value(cpu, w, a)).going_to(next))
}

// CMOVcc, which writes its destination whether the condition holds or not.
#[tactic(auto, unfolding(crate::specs::Finishing::cmov_want))]
fn cmov_want(cc: Cond, w: Width, dst: u8, src: Operand, next: u64, cpu: Cpu) -> Want
    ensures { result ≡ cmov_want cc w dst src next cpu }
{
    let v = if holds(cc, cpu.flags) {
        value(cpu, w, src)
    } else {
        cpu.get(w, dst)
    };
    given(cpu, next, w, Operand::Reg(dst), v)
}

// Eight bytes below rsp.
#[tactic(auto, unfolding(crate::specs::Finishing::pushing_at))]
fn pushing_at(cpu: Cpu) -> u64
    ensures { result ≡ pushing_at cpu }
{
    cpu.reg(4).wrapping_add(0xffff_ffff_ffff_fff8)
}

// A number is pushed, and the instruction ends at an address.
#[tactic(auto, unfolding(crate::specs::Finishing::pushing))]
fn pushing(cpu: Cpu, v: u64, a: u64) -> Want
    ensures { result ≡ pushing cpu v a }
{
    let at = pushing_at(cpu);
    Want::Store {
        at,
        w: Width::W64,
        value: v,
        next: cpu.put(Width::W64, 4, at).going_to(a),
    }
}

// rsp is so many bytes above an address.
#[tactic(auto, unfolding(crate::specs::Finishing::released))]
fn released(cpu: Cpu, a: u64, n: u64) -> Cpu
    ensures { result ≡ released cpu a n }
{
    cpu.put(Width::W64, 4, a.wrapping_add(n))
}

// LOCK ADD, OR, AND, SUB and XOR, after their locked step.
#[tactic(auto, unfolding(crate::specs::Finishing::lock_alu_end, crate::specs::Finishing::comparing))]
fn lock_alu_end(op: AluOp, w: Width, src: Operand, next: u64, cpu: Cpu) -> Want
    ensures { result ≡ lock_alu_end op w src next cpu }
{
    let outcome = alu(op, w, cpu.loaded(w), value(cpu, w, src), cpu.flags);
    comparing(cpu, next, outcome)
}

// LOCK INC and DEC, after their locked step.
#[tactic(auto, unfolding(crate::specs::Finishing::lock_one_end, crate::specs::Finishing::comparing))]
fn lock_one_end(op: OneOp, w: Width, next: u64, cpu: Cpu) -> Want
    ensures { result ≡ lock_one_end op w next cpu }
{
    let outcome = one(op, w, cpu.loaded(w), cpu.flags);
    comparing(cpu, next, outcome)
}

// XADD, after its locked step.
#[tactic(auto, unfolding(crate::specs::Finishing::xadd_end, crate::specs::Finishing::comparing, crate::specs::Results::alu))]
fn xadd_end(w: Width, reg: Operand, next: u64, cpu: Cpu) -> Want
    ensures { result ≡ xadd_end w reg next cpu }
{
    let old = cpu.loaded(w);
    let outcome = alu(AluOp::Add, w, old, value(cpu, w, reg), cpu.flags);
    comparing(assigned(cpu, w, reg, old), next, outcome)
}

// CMPXCHG, after its locked step: the accumulator stays whole where the numbers are equal.
#[tactic(auto, unfolding(crate::specs::Finishing::cmpxchg_end, crate::specs::Finishing::compared, crate::specs::Finishing::comparing, crate::specs::Results::alu))]
fn cmpxchg_end(w: Width, next: u64, cpu: Cpu) -> Want
    ensures { result ≡ cmpxchg_end w next cpu }
{
    let old = cpu.loaded(w);
    let outcome = alu(AluOp::Cmp, w, cpu.get(w, 0), old, cpu.flags);
    if outcome.1.zf {
        comparing(cpu, next, outcome)
    } else {
        comparing(cpu.put(w, 0, old), next, outcome)
    }
}

/// What an instruction does once what it reads is there: a private step, a store, a fence, or a bad step
/// where a division has no quotient. `next` is the address of the next instruction.
#[tactic(auto, unfolding(crate::specs::Finishing::finished))]
pub fn finished(instr: Instr, next: u64, cpu: Cpu) -> Want
    ensures { result ≡ finished instr next cpu }
{
    match instr {
        Instr::Alu { op, w, dst, src } => alu_want(op, w, dst, src, next, cpu),
        Instr::Mov { w, dst, src } => given(cpu, next, w, dst, value(cpu, w, src)),
        Instr::Zx { from, w, dst, src } => given(
            cpu,
            next,
            w,
            Operand::Reg(dst),
            value(cpu, from, src),
        ),
        Instr::Sx { from, w, dst, src } => given(
            cpu,
            next,
            w,
            Operand::Reg(dst),
            sign_extended(from, w, value(cpu, from, src)),
        ),
        Instr::Lea { w, dst, mem } => given(
            cpu,
            next,
            w,
            Operand::Reg(dst),
            address(cpu, next, mem),
        ),
        Instr::Push { src } => pushing(cpu, value(cpu, Width::W64, src), next),
        Instr::Pop { dst } => given(
            released(cpu, cpu.reg(4), 8),
            next,
            Width::W64,
            Operand::Reg(dst),
            cpu.loaded(Width::W64),
        ),
        Instr::One { op, w, dst } => one_want(op, w, dst, next, cpu),
        Instr::Mul { signed, w, src } => mul_want(signed, w, src, next, cpu),
        Instr::Imul { w, dst, a, b } => imul_want(w, dst, a, b, next, cpu),
        Instr::Div { signed, w, src } => div_want(signed, w, src, next, cpu),
        Instr::Shift { op, w, dst, count } => shift_want(op, w, dst, count, next, cpu),
        Instr::Widen { w } => given(
            cpu,
            next,
            w,
            Operand::Reg(0),
            sign_extended(half(w), w, cpu.get(half(w), 0)),
        ),
        Instr::Spread { w } => given(cpu, next, w, Operand::Reg(2), spread(w, cpu.get(w, 0))),
        Instr::Xchg { w, a, b } => exchanged(w, a, b, next, cpu),
        Instr::Set { cc, dst } => given(cpu, next, Width::W8, dst, holds(cc, cpu.flags) as u64),
        Instr::Cmov { cc, w, dst, src } => cmov_want(cc, w, dst, src, next, cpu),
        Instr::Jcc { cc, rel } if holds(cc, cpu.flags) => Want::Private(cpu.going_to(target(
            next, rel,
        ))),
        Instr::Jcc { .. } => Want::Private(cpu.going_to(next)),
        Instr::Jmp { rel } => Want::Private(cpu.going_to(target(next, rel))),
        Instr::JmpTo { src } => Want::Private(cpu.going_to(value(cpu, Width::W64, src))),
        Instr::Call { rel } => pushing(cpu, next, target(next, rel)),
        Instr::CallTo { src } => pushing(cpu, next, value(cpu, Width::W64, src)),
        Instr::Ret { extra } => Want::Private(released(cpu, cpu.reg(4), 8 + extra as u64).going_to(
            cpu.loaded(Width::W64),
        )),
        Instr::Leave => given(
            released(cpu, cpu.reg(5), 8),
            next,
            Width::W64,
            Operand::Reg(5),
            cpu.loaded(Width::W64),
        ),
        Instr::Nop => Want::Private(cpu.going_to(next)),
        Instr::Pause => Want::Private(cpu.going_to(next)),
        Instr::Endbr => Want::Private(cpu.going_to(next)),
        Instr::Mfence => Want::Fence(cpu.going_to(next)),
        Instr::LockAlu { op, w, src, .. } => lock_alu_end(op, w, src, next, cpu),
        Instr::LockOne { op, w, .. } => lock_one_end(op, w, next, cpu),
        Instr::Xadd { w, reg, .. } => xadd_end(w, reg, next, cpu),
        Instr::Cmpxchg { w, .. } => cmpxchg_end(w, next, cpu),
    }
}
