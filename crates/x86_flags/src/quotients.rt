ghost use Rattle.std.specs.Prelude.{◌≡◌, ◌<◌, ◌≤◌, ◌^◌, ◌+◌, IfSome};
ghost use Rattle.x86_flags.specs.Quotients.{udiv_of, sdiv_of, joined};
ghost use Rattle.x86_flags.specs.Numbers.{signed};
ghost use Rattle.x86_flags.specs.Width.{bits};

use crate::width::Width;

/// DIV at 32 or 64 bits: quotient and remainder of the unsigned number that the two halves make.
/// None, the divide error #DE, where `by` is 0 or the quotient doesn't fit the width.
#[tactic(auto, unfolding(crate::specs::Quotients::udiv_of))]
pub fn udiv(w: Width, high: u64, low: u64, by: u64) -> Option<(u64, u64)>
    requires width { 32 ≤ bits w }
    requires high { high < 2 ^ bits w }
    requires low { low < 2 ^ bits w }
    requires divisor { by < 2 ^ bits w }
    ensures bound { IfSome result (λ q. (q.0 < 2 ^ bits w) × (q.1 < 2 ^ bits w)) }
    ensures quotient { result ≡ udiv_of (bits w) high low by }
{
    if high >= by {
        return None;
    }
    let dividend = joined(w, high, low);
    Some((w.low(dividend / by as u128), w.low(dividend % by as u128)))
}

/// IDIV at 32 or 64 bits: the quotient of the signed number that the two halves make, rounded toward
/// 0, and the remainder, which has the dividend's sign. None, the divide error #DE, where `by` is 0
/// or the quotient doesn't fit the width.
#[tactic(auto, unfolding(crate::specs::Quotients::sdiv_of))]
pub fn sdiv(w: Width, high: u64, low: u64, by: u64) -> Option<(u64, u64)>
    requires width { 32 ≤ bits w }
    requires high { high < 2 ^ bits w }
    requires low { low < 2 ^ bits w }
    requires divisor { by < 2 ^ bits w }
    ensures bound { IfSome result (λ q. (q.0 < 2 ^ bits w) × (q.1 < 2 ^ bits w)) }
    ensures quotient { result ≡ sdiv_of (bits w) high low by }
{
    let dividend = signed_joined(w, high, low);
    let divisor = w.signed(by);
    let Some(quotient) = dividend.checked_div(divisor) else {
        return None;
    };
    if !w.fits_signed(quotient) {
        return None;
    }
    let remainder = dividend % divisor;
    Some((
        w.low(quotient.cast_unsigned()),
        w.low(remainder.cast_unsigned()),
    ))
}

// The number with these halves.
fn joined(w: Width, high: u64, low: u64) -> u128
    requires { low < 2 ^ bits w }
    ensures { result ≡ joined (bits w) high low }
{
    (high as u128) << w.bits() | low as u128
}

// The signed number with these halves.
fn signed_joined(w: Width, high: u64, low: u64) -> i128
    requires high { high < 2 ^ bits w }
    requires low { low < 2 ^ bits w }
    ensures { result ≡ signed (bits w + bits w) (joined (bits w) high low) }
{
    if w.is_negative(high) {
        -1 - joined(w, w.mask() - high, w.mask() - low) as i128
    } else {
        joined(w, high, low) as i128
    }
}
