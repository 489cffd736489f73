ghost use Rattle.std.specs.Prelude.{◌≡◌, ◌<◌, ◌≤◌, ◌^◌};
ghost use Rattle.x86_flags.specs.Rotations.{rol_of, ror_of, rol_by, ror_by, turned_left, turned_right};
ghost use Rattle.x86_flags.specs.Width.{bits};

use crate::flags::{Flags, bit};
use crate::width::Width;

/// ROL at 32 or 64 bits: a turned left by n bits. The count is taken modulo 64 at 64
/// bits, else modulo 32; a count of 0 changes nothing.
#[tactic(auto, unfolding(crate::specs::Rotations::rol_of, crate::specs::Outcome::unless_zero))]
pub fn rol(w: Width, a: u64, count: u8, flags: Flags) -> (u64, Flags)
    requires width { 32 ≤ bits w }
    requires operand { a < 2 ^ bits w }
    ensures bound { result.0 < 2 ^ bits w }
    ensures value { result.0 ≡ (rol_of (bits w) a count flags).value }
    ensures flags { result.1 ≡ (rol_of (bits w) a count flags).flags }
{
    match w.count(count) {
        0 => (a, flags),
        n => rol_by(w, a, n, flags),
    }
}

/// ROR at 32 or 64 bits: a turned right by n bits. The count is taken modulo 64 at 64
/// bits, else modulo 32; a count of 0 changes nothing.
#[tactic(auto, unfolding(crate::specs::Rotations::ror_of, crate::specs::Outcome::unless_zero))]
pub fn ror(w: Width, a: u64, count: u8, flags: Flags) -> (u64, Flags)
    requires width { 32 ≤ bits w }
    requires operand { a < 2 ^ bits w }
    ensures bound { result.0 < 2 ^ bits w }
    ensures value { result.0 ≡ (ror_of (bits w) a count flags).value }
    ensures flags { result.1 ≡ (ror_of (bits w) a count flags).flags }
{
    match w.count(count) {
        0 => (a, flags),
        n => ror_by(w, a, n, flags),
    }
}

// By a count that is used.
#[tactic(auto, unfolding(crate::specs::Rotations::rol_by, crate::specs::Rotations::turned))]
fn rol_by(w: Width, a: u64, n: u32, flags: Flags) -> (u64, Flags)
    requires operand { a < 2 ^ bits w }
    requires some { 0 < n }
    requires count { n < bits w }
    ensures bound { result.0 < 2 ^ bits w }
    ensures value { result.0 ≡ (rol_by (bits w) a n flags).value }
    ensures flags { result.1 ≡ (rol_by (bits w) a n flags).flags }
{
    let value = turned_left(w, a, n);
    let carry = bit(value, 0);
    let overflow = (n == 1) & (w.is_negative(value) ^ carry);
    (
        value,
        Flags {
            cf: carry,
            of: overflow,
            ..flags
        },
    )
}

// By a count that is used.
#[tactic(auto, unfolding(crate::specs::Rotations::ror_by, crate::specs::Rotations::turned))]
fn ror_by(w: Width, a: u64, n: u32, flags: Flags) -> (u64, Flags)
    requires operand { a < 2 ^ bits w }
    requires some { 0 < n }
    requires count { n < bits w }
    ensures bound { result.0 < 2 ^ bits w }
    ensures value { result.0 ≡ (ror_by (bits w) a n flags).value }
    ensures flags { result.1 ≡ (ror_by (bits w) a n flags).flags }
{
    let value = turned_right(w, a, n);
    let carry = w.is_negative(value);
    let overflow = (n == 1) & (carry ^ bit(value, w.bits() - 2));
    (
        value,
        Flags {
            cf: carry,
            of: overflow,
            ..flags
        },
    )
}

// The n highest bits become the n lowest.
fn turned_left(w: Width, a: u64, n: u32) -> u64
    requires operand { a < 2 ^ bits w }
    requires some { 0 < n }
    requires count { n < bits w }
    ensures bound { result < 2 ^ bits w }
    ensures value { result ≡ turned_left (bits w) a n }
{
    w.low((a as u128) << n) | (a >> (w.bits() - n))
}

// The n lowest bits become the n highest.
fn turned_right(w: Width, a: u64, n: u32) -> u64
    requires operand { a < 2 ^ bits w }
    requires some { 0 < n }
    requires count { n < bits w }
    ensures bound { result < 2 ^ bits w }
    ensures value { result ≡ turned_right (bits w) a n }
{
    w.low((a as u128) << (w.bits() - n)) | (a >> n)
}
