ghost use Rattle.std.specs.Prelude.{◌≡◌, ◌<◌, ◌^◌};
ghost use Rattle.x86_flags.specs.Bitwise.{and_of, or_of, xor_of, not_of};
ghost use Rattle.x86_flags.specs.Width.{bits};

use crate::flags::{Flags, status};
use crate::width::Width;

/// AND and TEST: the bits that both have. Carry and overflow are 0.
#[tactic(auto, unfolding(crate::specs::Bitwise::and_of, crate::specs::Outcome::outcome))]
pub fn and(w: Width, a: u64, b: u64, _flags: Flags) -> (u64, Flags)
    requires first { a < 2 ^ bits w }
    requires second { b < 2 ^ bits w }
    ensures bound { result.0 < 2 ^ bits w }
    ensures value { result.0 ≡ (and_of (bits w) a b _flags).value }
    ensures flags { result.1 ≡ (and_of (bits w) a b _flags).flags }
{
    let value = a & b;
    (value, status(w, value, false, false))
}

/// OR: the bits that either has. Carry and overflow are 0.
#[tactic(auto, unfolding(crate::specs::Bitwise::or_of, crate::specs::Outcome::outcome))]
pub fn or(w: Width, a: u64, b: u64, _flags: Flags) -> (u64, Flags)
    requires first { a < 2 ^ bits w }
    requires second { b < 2 ^ bits w }
    ensures bound { result.0 < 2 ^ bits w }
    ensures value { result.0 ≡ (or_of (bits w) a b _flags).value }
    ensures flags { result.1 ≡ (or_of (bits w) a b _flags).flags }
{
    let value = a | b;
    (value, status(w, value, false, false))
}

/// XOR: the bits that just one of the two has. Carry and overflow are 0.
#[tactic(auto, unfolding(crate::specs::Bitwise::xor_of, crate::specs::Outcome::outcome))]
pub fn xor(w: Width, a: u64, b: u64, _flags: Flags) -> (u64, Flags)
    requires first { a < 2 ^ bits w }
    requires second { b < 2 ^ bits w }
    ensures bound { result.0 < 2 ^ bits w }
    ensures value { result.0 ≡ (xor_of (bits w) a b _flags).value }
    ensures flags { result.1 ≡ (xor_of (bits w) a b _flags).flags }
{
    let value = a ^ b;
    (value, status(w, value, false, false))
}

/// NOT: all bits turned. No flag changes.
#[tactic(auto, unfolding(crate::specs::Bitwise::not_of, crate::specs::Outcome::outcome))]
pub fn not(w: Width, a: u64, flags: Flags) -> (u64, Flags)
    requires { a < 2 ^ bits w }
    ensures bound { result.0 < 2 ^ bits w }
    ensures value { result.0 ≡ (not_of (bits w) a flags).value }
    ensures flags { result.1 ≡ (not_of (bits w) a flags).flags }
{
    (w.mask() - a, flags)
}
