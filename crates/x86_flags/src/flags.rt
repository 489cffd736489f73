ghost use Rattle.std.specs.Prelude.{◌≡◌, ◌<◌, ◌^◌};
ghost use Rattle.x86_flags.specs.Numbers.{bit, even_parity};
ghost use Rattle.x86_flags.specs.Outcome.{status};
ghost use Rattle.x86_flags.specs.Width.{bits};

use crate::width::Width;

/// The five status flags that are kept: carry, parity, zero, sign and overflow (Intel SDM Volume 1,
/// section 3.4.3.1). The auxiliary carry flag isn't kept.
#[derive(Clone, Copy, Debug, PartialEq, Eq)]
pub struct Flags {
    pub cf: bool,
    pub pf: bool,
    pub zf: bool,
    pub sf: bool,
    pub of: bool,
}

// Parity, zero and sign by a result, beside a carry and an overflow.
#[tactic(auto, unfolding(crate::specs::Outcome::status))]
pub(crate) fn status(w: Width, result_bits: u64, carry: bool, overflow: bool) -> Flags
    requires { result_bits < 2 ^ bits w }
    ensures { result ≡ status (bits w) result_bits carry overflow }
{
    Flags {
        cf: carry,
        pf: has_even_parity(result_bits),
        zf: result_bits == 0,
        sf: w.is_negative(result_bits),
        of: overflow,
    }
}

// Whether the low byte has an even number of ones.
fn has_even_parity(number: u64) -> bool
    ensures { result ≡ even_parity number }
{
    (number & 0xff).count_ones() % 2 == 0
}

// Whether the bit with this place is 1.
pub(crate) fn bit(number: u64, place: u32) -> bool
    requires { place < 64 }
    ensures { result ≡ bit number place }
{
    (number >> place) & 1 == 1
}
