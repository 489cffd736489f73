ghost use Rattle.std.specs.Prelude.{◌≡◌, ◌<◌, ◌≤◌, ◌^◌, ◌*ℤ◌};
ghost use Rattle.x86_flags.specs.Numbers.{signed};
ghost use Rattle.x86_flags.specs.Products.{umul_of, smul_of, product_flags};
ghost use Rattle.x86_flags.specs.Width.{bits};

use crate::flags::Flags;
use crate::width::Width;

// Carry and overflow both say whether the low half loses something.
#[tactic(auto, unfolding(crate::specs::Products::product_flags))]
fn product_flags(lost: bool) -> Flags
    ensures { result ≡ product_flags lost }
{
    Flags {
        cf: lost,
        pf: false,
        zf: false,
        sf: false,
        of: lost,
    }
}

/// MUL at 32 or 64 bits: the low and the high half of the unsigned product.
#[tactic(auto, unfolding(crate::specs::Products::umul_of))]
pub fn umul(w: Width, a: u64, b: u64) -> (u64, u64, Flags)
    requires width { 32 ≤ bits w }
    requires first { a < 2 ^ bits w }
    requires second { b < 2 ^ bits w }
    ensures low_bound { result.0 < 2 ^ bits w }
    ensures high_bound { result.1 < 2 ^ bits w }
    ensures low { result.0 ≡ (umul_of (bits w) a b).low }
    ensures high { result.1 ≡ (umul_of (bits w) a b).high }
    ensures flags { result.2 ≡ (umul_of (bits w) a b).flags }
{
    let product = a as u128 * b as u128;
    let high = w.low(product >> w.bits());
    (w.low(product), high, product_flags(high != 0))
}

/// IMUL at 32 or 64 bits: the low and the high half of the signed product.
#[tactic(auto, unfolding(crate::specs::Products::smul_of))]
pub fn smul(w: Width, a: u64, b: u64) -> (u64, u64, Flags)
    requires width { 32 ≤ bits w }
    requires first { a < 2 ^ bits w }
    requires second { b < 2 ^ bits w }
    ensures low_bound { result.0 < 2 ^ bits w }
    ensures high_bound { result.1 < 2 ^ bits w }
    ensures low { result.0 ≡ (smul_of (bits w) a b).low }
    ensures high { result.1 ≡ (smul_of (bits w) a b).high }
    ensures flags { result.2 ≡ (smul_of (bits w) a b).flags }
{
    let product = signed_product(w, a, b);
    let bits = product.cast_unsigned();
    let low = w.low(bits);
    (
        low,
        w.low(bits >> w.bits()),
        product_flags(product != w.signed(low)),
    )
}

// The whole signed product.
fn signed_product(w: Width, a: u64, b: u64) -> i128
    requires first { a < 2 ^ bits w }
    requires second { b < 2 ^ bits w }
    ensures { result ≡ signed (bits w) a *ℤ signed (bits w) b }
{
    w.signed(a) * w.signed(b)
}
