ghost use Rattle.std.specs.Prelude.{◌≡◌, ◌+◌, ◌%◌, ◌^◌, ◌<◌, pos, ◌+ℤ◌, ◌-ℤ◌, nat_le, nat_lt};
ghost use Rattle.std.specs.Int.{from_bool};
ghost use Rattle.x86_flags.specs.Numbers.{signed, overflows, low_bits};
ghost use Rattle.x86_flags.specs.Sums.{add_of, adc_of, inc_of, sub_of, sbb_of, dec_of, neg_of};
ghost use Rattle.x86_flags.specs.Width.{bits};

use crate::flags::{Flags, status};
use crate::width::Width;

// A result with its carry and its overflow.
#[derive(Clone, Copy)]
struct Carried {
    value: u64,
    carry: bool,
    overflow: bool,
}

// a + b + carry.
fn sum(w: Width, a: u64, b: u64, carry: bool) -> Carried
    requires first { a < 2 ^ bits w }
    requires second { b < 2 ^ bits w }
    ensures value { result.value ≡ (a + b + from_bool carry) % 2 ^ bits w }
    ensures carry { result.carry ≡ nat_le (2 ^ bits w) (a + b + from_bool carry) }
    ensures overflow { result.overflow ≡ overflows (bits w) (signed (bits w) a +ℤ signed (bits w) b +ℤ pos (from_bool carry)) }
{
    let total = a as u128 + b as u128 + carry as u128;
    let value = w.low(total);
    let same_signs = w.is_negative(a) == w.is_negative(b);
    Carried {
        value,
        carry: total > w.mask() as u128,
        overflow: same_signs & (w.is_negative(value) != w.is_negative(a)),
    }
}

// a - b - borrow.
fn difference(w: Width, a: u64, b: u64, borrow: bool) -> Carried
    requires first { a < 2 ^ bits w }
    requires second { b < 2 ^ bits w }
    ensures value { result.value ≡ low_bits (bits w) (pos a -ℤ pos b -ℤ pos (from_bool borrow)) }
    ensures bound { result.value < 2 ^ bits w }
    ensures carry { result.carry ≡ nat_lt a (b + from_bool borrow) }
    ensures overflow { result.overflow ≡ overflows (bits w) (signed (bits w) a -ℤ signed (bits w) b -ℤ pos (from_bool borrow)) }
{
    let taken = b as u128 + borrow as u128;
    let value = w.low(a as u128 + (w.mask() as u128 + 1) - taken);
    let same_signs = w.is_negative(a) == w.is_negative(b);
    Carried {
        value,
        carry: (a as u128) < taken,
        overflow: !same_signs & (w.is_negative(value) != w.is_negative(a)),
    }
}

/// ADD: a + b. No flag of before counts.
#[tactic(auto, unfolding(crate::specs::Sums::add_of, crate::specs::Sums::sum_of, crate::specs::Outcome::outcome))]
pub fn add(w: Width, a: u64, b: u64, _flags: Flags) -> (u64, Flags)
    requires first { a < 2 ^ bits w }
    requires second { b < 2 ^ bits w }
    ensures bound { result.0 < 2 ^ bits w }
    ensures value { result.0 ≡ (add_of (bits w) a b _flags).value }
    ensures flags { result.1 ≡ (add_of (bits w) a b _flags).flags }
{
    let s = sum(w, a, b, false);
    (s.value, status(w, s.value, s.carry, s.overflow))
}

/// ADC: a + b and the carry of before.
#[tactic(auto, unfolding(crate::specs::Sums::adc_of, crate::specs::Sums::sum_of, crate::specs::Outcome::outcome))]
pub fn adc(w: Width, a: u64, b: u64, flags: Flags) -> (u64, Flags)
    requires first { a < 2 ^ bits w }
    requires second { b < 2 ^ bits w }
    ensures bound { result.0 < 2 ^ bits w }
    ensures value { result.0 ≡ (adc_of (bits w) a b flags).value }
    ensures flags { result.1 ≡ (adc_of (bits w) a b flags).flags }
{
    let s = sum(w, a, b, flags.cf);
    (s.value, status(w, s.value, s.carry, s.overflow))
}

/// INC: a + 1. The carry flag stays.
#[tactic(auto, unfolding(crate::specs::Sums::inc_of, crate::specs::Sums::sum_of, crate::specs::Outcome::outcome, crate::specs::Outcome::with_carry_of, crate::specs::Outcome::status))]
pub fn inc(w: Width, a: u64, flags: Flags) -> (u64, Flags)
    requires { a < 2 ^ bits w }
    ensures bound { result.0 < 2 ^ bits w }
    ensures value { result.0 ≡ (inc_of (bits w) a flags).value }
    ensures flags { result.1 ≡ (inc_of (bits w) a flags).flags }
{
    let s = sum(w, a, 1, false);
    (s.value, status(w, s.value, flags.cf, s.overflow))
}

/// SUB and CMP: a - b. No flag of before counts.
#[tactic(auto, unfolding(crate::specs::Sums::sub_of, crate::specs::Sums::difference_of, crate::specs::Outcome::outcome))]
pub fn sub(w: Width, a: u64, b: u64, _flags: Flags) -> (u64, Flags)
    requires first { a < 2 ^ bits w }
    requires second { b < 2 ^ bits w }
    ensures bound { result.0 < 2 ^ bits w }
    ensures value { result.0 ≡ (sub_of (bits w) a b _flags).value }
    ensures flags { result.1 ≡ (sub_of (bits w) a b _flags).flags }
{
    let s = difference(w, a, b, false);
    (s.value, status(w, s.value, s.carry, s.overflow))
}

/// SBB: a - b less the carry of before.
#[tactic(auto, unfolding(crate::specs::Sums::sbb_of, crate::specs::Sums::difference_of, crate::specs::Outcome::outcome))]
pub fn sbb(w: Width, a: u64, b: u64, flags: Flags) -> (u64, Flags)
    requires first { a < 2 ^ bits w }
    requires second { b < 2 ^ bits w }
    ensures bound { result.0 < 2 ^ bits w }
    ensures value { result.0 ≡ (sbb_of (bits w) a b flags).value }
    ensures flags { result.1 ≡ (sbb_of (bits w) a b flags).flags }
{
    let s = difference(w, a, b, flags.cf);
    (s.value, status(w, s.value, s.carry, s.overflow))
}

/// DEC: a - 1. The carry flag stays.
#[tactic(auto, unfolding(crate::specs::Sums::dec_of, crate::specs::Sums::difference_of, crate::specs::Outcome::outcome, crate::specs::Outcome::with_carry_of, crate::specs::Outcome::status))]
pub fn dec(w: Width, a: u64, flags: Flags) -> (u64, Flags)
    requires { a < 2 ^ bits w }
    ensures bound { result.0 < 2 ^ bits w }
    ensures value { result.0 ≡ (dec_of (bits w) a flags).value }
    ensures flags { result.1 ≡ (dec_of (bits w) a flags).flags }
{
    let s = difference(w, a, 1, false);
    (s.value, status(w, s.value, flags.cf, s.overflow))
}

/// NEG: -a. The carry says that a isn't 0, the overflow that it is the least signed number.
pub fn neg(w: Width, a: u64, _flags: Flags) -> (u64, Flags)
    requires { a < 2 ^ bits w }
    ensures bound { result.0 < 2 ^ bits w }
    ensures value { result.0 ≡ (neg_of (bits w) a _flags).value }
    ensures flags { result.1 ≡ (neg_of (bits w) a _flags).flags }
{
    let value = w.low((w.mask() as u128 + 1) - a as u128);
    (value, status(w, value, a != 0, a == w.mask() / 2 + 1))
}
