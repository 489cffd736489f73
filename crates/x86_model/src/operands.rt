ghost use Rattle.std.specs.Prelude.{◌≡◌, ◌<◌, ◌^◌};
ghost use Rattle.x86_forms.specs.Widths.{bits_in};
ghost use Rattle.x86_model.specs.Operands.{base_of, index_of, address, target, value, assigned, given};

use crate::cpu::Cpu;
use crate::want::Want;
use crate::width::low;
use x86_forms::{Base, Mem, Operand, Width};

fn base_of(cpu: Cpu, next: u64, base: Base) -> u64
    ensures { result ≡ base_of cpu next base }
{
    match base {
        Base::None => 0,
        Base::Reg(r) => cpu.reg(r),
        Base::Rip => next,
    }
}

fn index_of(cpu: Cpu, index: Option<u8>) -> u64
    ensures { result ≡ index_of cpu index }
{
    match index {
        Some(r) => cpu.reg(r),
        None => 0,
    }
}

/// The address of an operand in memory: base + index * scale + displacement modulo 2^64, where `next`
/// is the address of the next instruction (Intel SDM, Volume 1, 3.7.5; Volume 2, 2.2.1.6).
#[tactic(auto, unfolding(crate::specs::Operands::address))]
pub fn address(cpu: Cpu, next: u64, mem: Mem) -> u64
    ensures { result ≡ address cpu next mem }
{
    base_of(cpu, next, mem.base)
        .wrapping_add(index_of(cpu, mem.index).wrapping_mul(mem.scale as u64))
        .wrapping_add((mem.disp as i64).cast_unsigned())
}

/// The address `rel` bytes after the next instruction, modulo 2^64.
#[tactic(auto, unfolding(crate::specs::Operands::target))]
pub fn target(next: u64, rel: i32) -> u64
    ensures { result ≡ target next rel }
{
    next.wrapping_add((rel as i64).cast_unsigned())
}

/// What an operand is worth; one in memory was loaded before.
#[tactic(auto, unfolding(crate::specs::Operands::value))]
pub fn value(cpu: Cpu, w: Width, operand: Operand) -> u64
    ensures value { result ≡ value cpu w operand }
    ensures bound { result < 2 ^ bits_in w }
{
    match operand {
        Operand::Reg(r) => cpu.get(w, r),
        Operand::High(r) => cpu.get_high(r),
        Operand::Mem(_) => cpu.loaded(w),
        Operand::Imm(n) => low(w, n),
    }
}

/// After a write to a register or a part of one. Nothing changes where the operand is none.
#[tactic(auto, unfolding(crate::specs::Operands::assigned))]
pub fn assigned(cpu: Cpu, w: Width, operand: Operand, v: u64) -> Cpu
    ensures { result ≡ assigned cpu w operand v }
{
    match operand {
        Operand::Reg(r) => cpu.put(w, r, v),
        Operand::High(r) => cpu.put_high(r, v),
        Operand::Mem(_) => cpu,
        Operand::Imm(_) => cpu,
    }
}

/// A result goes to a register, or to memory by a store, and the instruction ends.
#[tactic(auto, unfolding(crate::specs::Operands::given))]
pub fn given(cpu: Cpu, next: u64, w: Width, operand: Operand, v: u64) -> Want
    ensures { result ≡ given cpu next w operand v }
{
    match operand {
        Operand::Reg(_) => Want::Private(assigned(cpu, w, operand, v).going_to(next)),
        Operand::High(_) => Want::Private(assigned(cpu, w, operand, v).going_to(next)),
        Operand::Mem(mem) => Want::Store {
            at: address(cpu, next, mem),
            w,
            value: v,
            next: cpu.going_to(next),
        },
        Operand::Imm(_) => Want::Private(cpu.going_to(next)),
    }
}
