ghost use Rattle.std.specs.Prelude.{◌≡◌, ◌<◌, ◌^◌};
ghost use Rattle.x86_flags.specs.Outcome.{Outcome};
ghost use Rattle.x86_forms.specs.Widths.{bits_in};
ghost use Rattle.x86_model.specs.declared.want.Want.TheVariants.{Private};
ghost use Rattle.x86_model.specs.Operands.{given};
ghost use Rattle.x86_model.specs.Registers.{with_flags, going_to, put};
ghost use Rattle.x86_model.specs.Finishing.{alu_want, one_want, mul_want, imul_want, divided, div_want, count_in, shift_want};

use crate::cpu::Cpu;
use crate::operands::{given, value};
use crate::results::{alu, keeps_result, one, product, quotient};
use crate::want::{BadStep, Want};
use crate::width::{in_flags, is_wide};
use x86_flags::Flags;
use x86_forms::{AluOp, OneOp, Operand, ShiftOp, Width};

// A result with its flags.
#[tactic(auto, unfolding(crate::specs::Finishing::resulting))]
fn resulting(cpu: Cpu, next: u64, w: Width, dst: Operand, outcome: (u64, Flags)) -> Want
    ensures { result ≡ given (with_flags cpu outcome.1) next w dst outcome.0 }
{
    given(cpu.with_flags(outcome.1), next, w, dst, outcome.0)
}

// Flags alone.
#[tactic(auto, unfolding(crate::specs::Registers::going_to))]
pub(crate) fn comparing(cpu: Cpu, next: u64, outcome: (u64, Flags)) -> Want
    ensures { result ≡ Private (going_to (with_flags cpu outcome.1) next) }
{
    Want::Private(cpu.with_flags(outcome.1).going_to(next))
}

#[tactic(auto, unfolding(crate::specs::Finishing::alu_want, crate::specs::Finishing::resulting, crate::specs::Finishing::comparing))]
pub(crate) fn alu_want(op: AluOp, w: Width, dst: Operand, src: Operand, next: u64, cpu: Cpu) -> Want
    ensures { result ≡ alu_want op w dst src next cpu }
{
    let outcome = alu(op, w, value(cpu, w, dst), value(cpu, w, src), cpu.flags);
    if keeps_result(op) {
        resulting(cpu, next, w, dst, outcome)
    } else {
        comparing(cpu, next, outcome)
    }
}

#[tactic(auto, unfolding(crate::specs::Finishing::one_want, crate::specs::Finishing::resulting))]
pub(crate) fn one_want(op: OneOp, w: Width, dst: Operand, next: u64, cpu: Cpu) -> Want
    ensures { result ≡ one_want op w dst next cpu }
{
    let outcome = one(op, w, value(cpu, w, dst), cpu.flags);
    resulting(cpu, next, w, dst, outcome)
}

#[tactic(auto, unfolding(crate::specs::Finishing::mul_want, crate::specs::Finishing::multiplied))]
pub(crate) fn mul_want(signed: bool, w: Width, src: Operand, next: u64, cpu: Cpu) -> Want
    ensures { result ≡ mul_want signed w src next cpu }
{
    if !is_wide(w) {
        return Want::Bad(BadStep::Code);
    }
    let p = product(signed, w, cpu.get(w, 0), value(cpu, w, src));
    Want::Private(
        cpu.put(w, 0, p.0)
            .put(w, 2, p.1)
            .with_flags(p.2)
            .going_to(next),
    )
}

#[tactic(auto, unfolding(crate::specs::Finishing::imul_want, crate::specs::Finishing::low_multiplied, crate::specs::Results::product))]
pub(crate) fn imul_want(w: Width, dst: u8, a: Operand, b: Operand, next: u64, cpu: Cpu) -> Want
    ensures { result ≡ imul_want w dst a b next cpu }
{
    if !is_wide(w) {
        return Want::Bad(BadStep::Code);
    }
    let p = product(true, w, value(cpu, w, a), value(cpu, w, b));
    Want::Private(cpu.put(w, dst, p.0).with_flags(p.2).going_to(next))
}

// rax becomes the quotient and rdx the remainder.
#[tactic(auto, unfolding(crate::specs::Finishing::divided))]
fn divided(cpu: Cpu, next: u64, w: Width, quotient: Option<(u64, u64)>) -> Want
    ensures { result ≡ divided cpu next w quotient }
{
    match quotient {
        None => Want::Bad(BadStep::Divide),
        Some(q) => Want::Private(
            cpu.put(w, 0, q.0)
                .put(w, 2, q.1)
                .with_flags(Flags {
                    cf: false,
                    pf: false,
                    zf: false,
                    sf: false,
                    of: false,
                })
                .going_to(next),
        ),
    }
}

#[tactic(auto, unfolding(crate::specs::Finishing::div_want))]
pub(crate) fn div_want(signed: bool, w: Width, src: Operand, next: u64, cpu: Cpu) -> Want
    ensures { result ≡ div_want signed w src next cpu }
{
    if !is_wide(w) {
        return Want::Bad(BadStep::Code);
    }
    let q = quotient(signed, w, cpu.get(w, 2), cpu.get(w, 0), value(cpu, w, src));
    divided(cpu, next, w, q)
}

// The number in the instruction, or cl.
fn count_in(cpu: Cpu, count: Option<u8>) -> u8
    ensures { result ≡ count_in cpu count }
{
    match count {
        Some(n) => n,
        None => cpu.get(Width::W8, 1) as u8,
    }
}

#[tactic(auto, unfolding(crate::specs::Finishing::shift_want, crate::specs::Finishing::resulting))]
pub(crate) fn shift_want(
    op: ShiftOp,
    w: Width,
    dst: Operand,
    count: Option<u8>,
    next: u64,
    cpu: Cpu,
) -> Want
    ensures { result ≡ shift_want op w dst count next cpu }
{
    let a = value(cpu, w, dst);
    let n = count_in(cpu, count);
    let fw = in_flags(w);
    match op {
        ShiftOp::Shl => resulting(cpu, next, w, dst, x86_flags::shl(fw, a, n, cpu.flags)),
        ShiftOp::Shr => resulting(cpu, next, w, dst, x86_flags::shr(fw, a, n, cpu.flags)),
        ShiftOp::Sar => resulting(cpu, next, w, dst, x86_flags::sar(fw, a, n, cpu.flags)),
        ShiftOp::Rol if is_wide(w) => resulting(
            cpu,
            next,
            w,
            dst,
            x86_flags::rol(fw, a, n, cpu.flags),
        ),
        ShiftOp::Ror if is_wide(w) => resulting(
            cpu,
            next,
            w,
            dst,
            x86_flags::ror(fw, a, n, cpu.flags),
        ),
        ShiftOp::Rol | ShiftOp::Ror => Want::Bad(BadStep::Code),
    }
}
