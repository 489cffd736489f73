ghost use Rattle.std.specs.Prelude.{◌≡◌, ◌<◌, ◌^◌, pos};
ghost use Rattle.std.specs.Int.{int_div_euclid};
ghost use Rattle.x86_flags.specs.Numbers.{signed, low_bits};
ghost use Rattle.x86_flags.specs.Shifts.{shl_of, shr_of, sar_of, shl_by, shr_by, sar_by, out_left, out_right};
ghost use Rattle.x86_flags.specs.Width.{bits};

use crate::flags::{Flags, bit, status};
use crate::width::Width;

/// SHL: a * 2 ^ n in this width. The count is taken modulo 64 at 64
/// bits, else modulo 32; a count of 0 changes nothing.
#[tactic(auto, unfolding(crate::specs::Shifts::shl_of, crate::specs::Outcome::unless_zero))]
pub fn shl(w: Width, a: u64, count: u8, flags: Flags) -> (u64, Flags)
    requires { a < 2 ^ bits w }
    ensures bound { result.0 < 2 ^ bits w }
    ensures value { result.0 ≡ (shl_of (bits w) a count flags).value }
    ensures flags { result.1 ≡ (shl_of (bits w) a count flags).flags }
{
    match w.count(count) {
        0 => (a, flags),
        n => shl_by(w, a, n),
    }
}

/// SHR: the unsigned a / 2 ^ n. The count is taken modulo 64 at 64
/// bits, else modulo 32; a count of 0 changes nothing.
#[tactic(auto, unfolding(crate::specs::Shifts::shr_of, crate::specs::Outcome::unless_zero))]
pub fn shr(w: Width, a: u64, count: u8, flags: Flags) -> (u64, Flags)
    requires { a < 2 ^ bits w }
    ensures bound { result.0 < 2 ^ bits w }
    ensures value { result.0 ≡ (shr_of (bits w) a count flags).value }
    ensures flags { result.1 ≡ (shr_of (bits w) a count flags).flags }
{
    match w.count(count) {
        0 => (a, flags),
        n => shr_by(w, a, n),
    }
}

/// SAR: the signed a / 2 ^ n, rounded down. The count is taken modulo 64 at 64
/// bits, else modulo 32; a count of 0 changes nothing.
#[tactic(auto, unfolding(crate::specs::Shifts::sar_of, crate::specs::Outcome::unless_zero))]
pub fn sar(w: Width, a: u64, count: u8, flags: Flags) -> (u64, Flags)
    requires { a < 2 ^ bits w }
    ensures bound { result.0 < 2 ^ bits w }
    ensures value { result.0 ≡ (sar_of (bits w) a count flags).value }
    ensures flags { result.1 ≡ (sar_of (bits w) a count flags).flags }
{
    match w.count(count) {
        0 => (a, flags),
        n => sar_by(w, a, n),
    }
}

// By a count that is used.
fn shl_by(w: Width, a: u64, n: u32) -> (u64, Flags)
    requires operand { a < 2 ^ bits w }
    requires some { 0 < n }
    requires count { n < 64 }
    ensures bound { result.0 < 2 ^ bits w }
    ensures value { result.0 ≡ (shl_by (bits w) a n).value }
    ensures flags { result.1 ≡ (shl_by (bits w) a n).flags }
{
    let value = w.low((a as u128) << n);
    let carry = out_left(w, a, n);
    let overflow = (n == 1) & (w.is_negative(value) ^ carry);
    (value, status(w, value, carry, overflow))
}

// By a count that is used.
fn shr_by(w: Width, a: u64, n: u32) -> (u64, Flags)
    requires operand { a < 2 ^ bits w }
    requires some { 0 < n }
    requires count { n < 64 }
    ensures bound { result.0 < 2 ^ bits w }
    ensures value { result.0 ≡ (shr_by (bits w) a n).value }
    ensures flags { result.1 ≡ (shr_by (bits w) a n).flags }
{
    let value = a >> n;
    let carry = out_right(w, a, n);
    let overflow = (n == 1) & w.is_negative(a);
    (value, status(w, value, carry, overflow))
}

// By a count that is used.
fn sar_by(w: Width, a: u64, n: u32) -> (u64, Flags)
    requires operand { a < 2 ^ bits w }
    requires some { 0 < n }
    requires count { n < 64 }
    ensures bound { result.0 < 2 ^ bits w }
    ensures value { result.0 ≡ (sar_by (bits w) a n).value }
    ensures flags { result.1 ≡ (sar_by (bits w) a n).flags }
{
    let value = divided(w, a, n);
    let carry = bit(a, (n - 1).min(w.bits() - 1));
    (value, status(w, value, carry, false))
}

// The last bit that goes out at the top.
#[tactic(auto, unfolding(crate::specs::Shifts::out_left))]
fn out_left(w: Width, a: u64, n: u32) -> bool
    requires { 0 < n }
    ensures { result ≡ out_left (bits w) a n }
{
    n < w.bits() && bit(a, w.bits() - n)
}

// The last bit that goes out at the bottom.
#[tactic(auto, unfolding(crate::specs::Shifts::out_right))]
fn out_right(w: Width, a: u64, n: u32) -> bool
    requires { 0 < n }
    ensures { result ≡ out_right (bits w) a n }
{
    n < w.bits() && bit(a, n - 1)
}

// The signed number divided by 2 ^ n and rounded down.
fn divided(w: Width, a: u64, n: u32) -> u64
    requires operand { a < 2 ^ bits w }
    requires count { n < 64 }
    ensures bound { result < 2 ^ bits w }
    ensures value { result ≡ low_bits (bits w) (int_div_euclid (signed (bits w) a) (pos (2 ^ n))) }
{
    if w.is_negative(a) {
        w.mask() - ((w.mask() - a) >> n)
    } else {
        a >> n
    }
}
