ghost use Rattle.std.specs.Prelude.{◌≡◌, ◌<◌, ◌≤◌, ◌^◌, IfSome};
ghost use Rattle.x86_forms.specs.Widths.{bits_in};
ghost use Rattle.x86_model.specs.Results.{alu, keeps_result, one, product, quotient, holds, change_by, change_one};

use crate::want::Change;
use crate::width::in_flags;
use x86_flags::Flags;
use x86_forms::{AluOp, Cond, OneOp, Width};

// The result of an operation on two operands, and the flags after it.
#[tactic(auto, unfolding(crate::specs::Results::alu))]
pub(crate) fn alu(op: AluOp, w: Width, a: u64, b: u64, flags: Flags) -> (u64, Flags)
    requires first { a < 2 ^ bits_in w }
    requires second { b < 2 ^ bits_in w }
    ensures value { result.0 ≡ (alu op (bits_in w) a b flags).value }
    ensures flags { result.1 ≡ (alu op (bits_in w) a b flags).flags }
{
    let w = in_flags(w);
    match op {
        AluOp::Add => x86_flags::add(w, a, b, flags),
        AluOp::Or => x86_flags::or(w, a, b, flags),
        AluOp::Adc => x86_flags::adc(w, a, b, flags),
        AluOp::Sbb => x86_flags::sbb(w, a, b, flags),
        AluOp::And => x86_flags::and(w, a, b, flags),
        AluOp::Sub => x86_flags::sub(w, a, b, flags),
        AluOp::Xor => x86_flags::xor(w, a, b, flags),
        AluOp::Cmp => x86_flags::sub(w, a, b, flags),
        AluOp::Test => x86_flags::and(w, a, b, flags),
    }
}

// Whether the result goes to the first operand: CMP and TEST set flags alone.
pub(crate) fn keeps_result(op: AluOp) -> bool
    ensures { result ≡ keeps_result op }
{
    match op {
        AluOp::Cmp => false,
        AluOp::Test => false,
        _ => true,
    }
}

// The result of an operation on one operand, and the flags after it.
#[tactic(auto, unfolding(crate::specs::Results::one))]
pub(crate) fn one(op: OneOp, w: Width, a: u64, flags: Flags) -> (u64, Flags)
    requires { a < 2 ^ bits_in w }
    ensures value { result.0 ≡ (one op (bits_in w) a flags).value }
    ensures flags { result.1 ≡ (one op (bits_in w) a flags).flags }
{
    let w = in_flags(w);
    match op {
        OneOp::Inc => x86_flags::inc(w, a, flags),
        OneOp::Dec => x86_flags::dec(w, a, flags),
        OneOp::Not => x86_flags::not(w, a, flags),
        OneOp::Neg => x86_flags::neg(w, a, flags),
    }
}

// The low and the high half of a product, and the flags after it.
#[tactic(auto, unfolding(crate::specs::Results::product))]
pub(crate) fn product(signed: bool, w: Width, a: u64, b: u64) -> (u64, u64, Flags)
    requires width { 32 ≤ bits_in w }
    requires first { a < 2 ^ bits_in w }
    requires second { b < 2 ^ bits_in w }
    ensures low { result.0 ≡ (product signed (bits_in w) a b).low }
    ensures high { result.1 ≡ (product signed (bits_in w) a b).high }
    ensures flags { result.2 ≡ (product signed (bits_in w) a b).flags }
{
    let w = in_flags(w);
    match signed {
        true => x86_flags::smul(w, a, b),
        false => x86_flags::umul(w, a, b),
    }
}

// Quotient and remainder, or none at a divide error.
#[tactic(auto, unfolding(crate::specs::Results::quotient))]
pub(crate) fn quotient(signed: bool, w: Width, high: u64, low: u64, by: u64) -> Option<(u64, u64)>
    requires width { 32 ≤ bits_in w }
    requires high { high < 2 ^ bits_in w }
    requires low { low < 2 ^ bits_in w }
    requires divisor { by < 2 ^ bits_in w }
    ensures { result ≡ quotient signed (bits_in w) high low by }
{
    let w = in_flags(w);
    match signed {
        true => x86_flags::sdiv(w, high, low, by),
        false => x86_flags::udiv(w, high, low, by),
    }
}

// Whether a condition holds under the flags.
pub(crate) fn holds(cc: Cond, flags: Flags) -> bool
    ensures { result ≡ holds cc flags }
{
    cc.holds(flags.cf, flags.pf, flags.zf, flags.sf, flags.of)
}

// What ADD, OR, AND, SUB and XOR do to memory under LOCK; no other operation takes LOCK.
pub(crate) fn change_by(op: AluOp, v: u64) -> Option<Change>
    ensures { result ≡ change_by op v }
{
    match op {
        AluOp::Add => Some(Change::Add(v)),
        AluOp::Or => Some(Change::Or(v)),
        AluOp::And => Some(Change::And(v)),
        AluOp::Sub => Some(Change::Sub(v)),
        AluOp::Xor => Some(Change::Xor(v)),
        AluOp::Adc => None,
        AluOp::Sbb => None,
        AluOp::Cmp => None,
        AluOp::Test => None,
    }
}

// INC and DEC under LOCK.
pub(crate) fn change_one(op: OneOp) -> Option<Change>
    ensures { result ≡ change_one op }
{
    match op {
        OneOp::Inc => Some(Change::Add(1)),
        OneOp::Dec => Some(Change::Sub(1)),
        OneOp::Not => None,
        OneOp::Neg => None,
    }
}
