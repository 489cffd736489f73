ghost use Rattle.std.specs.Prelude.{◌≡◌};
ghost use Rattle.x86_model.specs.Accesses.{memory_of, memory_in, loading, locking, exchanging, first_access};

use crate::cpu::Cpu;
use crate::operands::{address, value};
use crate::results::{change_by, change_one};
use crate::want::{BadStep, Change, Want};
use x86_forms::{Instr, Mem, Operand, Width};

fn memory_of(operand: Operand) -> Option<Mem>
    ensures { result ≡ memory_of operand }
{
    match operand {
        Operand::Mem(mem) => Some(mem),
        Operand::Reg(_) => None,
        Operand::High(_) => None,
        Operand::Imm(_) => None,
    }
}

fn memory_in(a: Operand, b: Operand) -> Option<Mem>
    ensures { result ≡ memory_in a b }
{
    match memory_of(a) {
        Some(mem) => Some(mem),
        None => memory_of(b),
    }
}

fn loading(cpu: Cpu, next: u64, w: Width, mem: Option<Mem>) -> Option<Want>
    ensures { result ≡ loading cpu next w mem }
{
    match mem {
        Some(mem) => Some(Want::Load {
            at: address(cpu, next, mem),
            w,
        }),
        None => None,
    }
}

fn locking(cpu: Cpu, next: u64, w: Width, mem: Mem, change: Option<Change>) -> Option<Want>
    ensures { result ≡ locking cpu next w mem change }
{
    match change {
        Some(change) => Some(Want::Locked {
            at: address(cpu, next, mem),
            w,
            change,
        }),
        None => Some(Want::Bad(BadStep::Code)),
    }
}

fn exchanging(cpu: Cpu, next: u64, w: Width, mem: Option<Mem>, v: u64) -> Option<Want>
    ensures { result ≡ exchanging cpu next w mem v }
{
    match mem {
        Some(mem) => Some(Want::Locked {
            at: address(cpu, next, mem),
            w,
            change: Change::Xchg(v),
        }),
        None => None,
    }
}

/// What an instruction asks of memory before all else, if it reads memory: a load, or a locked step.
/// `next` is the address of the next instruction.
#[tactic(auto, unfolding(crate::specs::Accesses::first_access))]
pub fn first_access(instr: Instr, next: u64, cpu: Cpu) -> Option<Want>
    ensures { result ≡ first_access instr next cpu }
{
    match instr {
        Instr::Alu { w, dst, src, .. } => loading(cpu, next, w, memory_in(dst, src)),
        Instr::Mov { w, src, .. } => loading(cpu, next, w, memory_of(src)),
        Instr::Zx { from, src, .. } => loading(cpu, next, from, memory_of(src)),
        Instr::Sx { from, src, .. } => loading(cpu, next, from, memory_of(src)),
        Instr::Push { src } => loading(cpu, next, Width::W64, memory_of(src)),
        Instr::Pop { .. } => Some(Want::Load {
            at: cpu.reg(4),
            w: Width::W64,
        }),
        Instr::One { w, dst, .. } => loading(cpu, next, w, memory_of(dst)),
        Instr::Mul { w, src, .. } => loading(cpu, next, w, memory_of(src)),
        Instr::Imul { w, a, b, .. } => loading(cpu, next, w, memory_in(a, b)),
        Instr::Div { w, src, .. } => loading(cpu, next, w, memory_of(src)),
        Instr::Shift { w, dst, .. } => loading(cpu, next, w, memory_of(dst)),
        Instr::Xchg { w, a, b } => exchanging(cpu, next, w, memory_of(a), value(cpu, w, b)),
        Instr::Cmov { w, src, .. } => loading(cpu, next, w, memory_of(src)),
        Instr::JmpTo { src } => loading(cpu, next, Width::W64, memory_of(src)),
        Instr::CallTo { src } => loading(cpu, next, Width::W64, memory_of(src)),
        Instr::Ret { .. } => Some(Want::Load {
            at: cpu.reg(4),
            w: Width::W64,
        }),
        Instr::Leave => Some(Want::Load {
            at: cpu.reg(5),
            w: Width::W64,
        }),
        Instr::LockAlu { op, w, mem, src } => locking(
            cpu,
            next,
            w,
            mem,
            change_by(op, value(cpu, w, src)),
        ),
        Instr::LockOne { op, w, mem } => locking(cpu, next, w, mem, change_one(op)),
        Instr::Xadd { w, mem, reg } => locking(
            cpu,
            next,
            w,
            mem,
            Some(Change::Add(value(cpu, w, reg))),
        ),
        Instr::Cmpxchg { w, mem, reg } => locking(
            cpu,
            next,
            w,
            mem,
            Some(Change::Cmpxchg {
                want: cpu.get(w, 0),
                new: value(cpu, w, reg),
            }),
        ),
        _ => None,
    }
}
