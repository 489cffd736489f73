ghost use Rattle.std.specs.Prelude.{◌≡◌, ◌<◌, ◌≤◌, ◌-◌, ◌^◌, IsTrue};
ghost use Rattle.x86_forms.specs.Widths.{bits_in};
ghost use Rattle.x86_flags.specs.Width.{bits};
ghost use Rattle.x86_model.specs.Registers.{low, sign_extended, spread, is_wide, half};

use x86_forms::Width;

// The same width, as results and flags take it.
#[tactic(auto, unfolding(x86_flags::specs::Width::bits))]
pub(crate) fn in_flags(w: Width) -> x86_flags::Width
    ensures { bits result ≡ bits_in w }
{
    match w {
        Width::W8 => x86_flags::Width::W8,
        Width::W16 => x86_flags::Width::W16,
        Width::W32 => x86_flags::Width::W32,
        Width::W64 => x86_flags::Width::W64,
    }
}

/// The lowest bits of a number, as many as `w` has.
#[tactic(auto, unfolding(crate::specs::Registers::low))]
pub fn low(w: Width, n: u64) -> u64
    ensures value { result ≡ low w n }
    ensures bound { result < 2 ^ bits_in w }
{
    match w {
        Width::W8 => n % 0x100,
        Width::W16 => n % 0x1_0000,
        Width::W32 => n % 0x1_0000_0000,
        Width::W64 => n,
    }
}

/// Whether it is 32 or 64 bits.
pub fn is_wide(w: Width) -> bool
    ensures value { result ≡ is_wide w }
    ensures bound { IsTrue result → 32 ≤ bits_in w }
{
    match w {
        Width::W8 => false,
        Width::W16 => false,
        Width::W32 => true,
        Width::W64 => true,
    }
}

/// Half of 32 or 64 bits.
pub fn half(w: Width) -> Width
    ensures { result ≡ half w }
{
    match w {
        Width::W64 => Width::W32,
        Width::W32 => Width::W16,
        Width::W16 => Width::W16,
        Width::W8 => Width::W16,
    }
}

// The largest number.
fn mask(w: Width) -> u64
    ensures { result ≡ 2 ^ bits_in w - 1 }
{
    match w {
        Width::W8 => 0xff,
        Width::W16 => 0xffff,
        Width::W32 => 0xffff_ffff,
        Width::W64 => 0xffff_ffff_ffff_ffff,
    }
}

// The least number whose top bit is set.
fn sign(w: Width) -> u64
    ensures { result ≡ 2 ^ (bits_in w - 1) }
{
    match w {
        Width::W8 => 0x80,
        Width::W16 => 0x8000,
        Width::W32 => 0x8000_0000,
        Width::W64 => 0x8000_0000_0000_0000,
    }
}

/// A number of the width `from` at the width `w`: the bits above are copies of the top bit.
#[tactic(auto, unfolding(crate::specs::Registers::sign_extended))]
pub fn sign_extended(from: Width, w: Width, v: u64) -> u64
    requires { v < 2 ^ bits_in from }
    ensures { result ≡ sign_extended from w v }
{
    if v < sign(from) {
        v
    } else {
        v + mask(w).saturating_sub(mask(from))
    }
}

/// As many copies of the top bit as the width has bits.
#[tactic(auto, unfolding(crate::specs::Registers::spread))]
pub fn spread(w: Width, v: u64) -> u64
    ensures { result ≡ spread w v }
{
    if v < sign(w) { 0 } else { mask(w) }
}
