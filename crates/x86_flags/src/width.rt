ghost use Rattle.std.specs.Prelude.{◌≡◌, ◌-◌, ◌%◌, ◌^◌, ◌<◌, ◌≤◌, ◌↔◌, IsTrue, unsigned_abs};
ghost use Rattle.x86_flags.specs.Numbers.{top_bit, signed, fits_signed};
ghost use Rattle.x86_flags.specs.Shifts.{count_of};
ghost use Rattle.x86_flags.specs.Width.{bits};

/// The size of an operand.
#[derive(Clone, Copy, Debug, PartialEq, Eq)]
pub enum Width {
    W8,
    W16,
    W32,
    W64,
}

impl Width {
    /// The number of bits: 8, 16, 32 or 64.
    #[tactic(auto, unfolding(crate::specs::Width::bits))]
    pub fn bits(self) -> u32
        ensures value { result ≡ bits self }
        ensures least { 8 ≤ result }
        ensures most { result ≤ 64 }
    {
        match self {
            Width::W8 => 8,
            Width::W16 => 16,
            Width::W32 => 32,
            Width::W64 => 64,
        }
    }

    /// Whether a number has no bit beyond this width.
    pub fn fits(self, number: u64) -> bool
        ensures { IsTrue result ↔ (number < 2 ^ bits self) }
    {
        number <= self.mask()
    }

    // The largest number of this width.
    #[tactic(auto, unfolding(crate::specs::Width::bits))]
    pub(crate) fn mask(self) -> u64
        ensures { result ≡ 2 ^ bits self - 1 }
    {
        match self {
            Width::W8 => 0xff,
            Width::W16 => 0xffff,
            Width::W32 => 0xffff_ffff,
            Width::W64 => 0xffff_ffff_ffff_ffff,
        }
    }

    // What is left of a whole number in this width.
    pub(crate) fn low(self, number: u128) -> u64
        ensures { result ≡ number % 2 ^ bits self }
    {
        (number & self.mask() as u128) as u64
    }

    // Whether the sign bit is set.
    pub(crate) fn is_negative(self, number: u64) -> bool
        requires { number < 2 ^ bits self }
        ensures { result ≡ top_bit (bits self) number }
    {
        number > self.mask() / 2
    }

    // The number that these bits mean in two's complement.
    pub(crate) fn signed(self, number: u64) -> i128
        requires { number < 2 ^ bits self }
        ensures value { result ≡ signed (bits self) number }
        ensures bound { unsigned_abs result ≤ 2 ^ 63 }
    {
        if self.is_negative(number) {
            number as i128 - self.mask() as i128 - 1
        } else {
            number as i128
        }
    }

    // Whether a number is in the signed range of this width.
    pub(crate) fn fits_signed(self, number: i128) -> bool
        ensures { result ≡ fits_signed (bits self) number }
    {
        let greatest = (self.mask() / 2) as i128;
        (-1 - greatest <= number) & (number <= greatest)
    }

    // The part of a shift count that is used: 6 bits of it at 64 bits, else 5.
    #[tactic(auto, unfolding(crate::specs::Width::bits, crate::specs::Shifts::count_of))]
    pub(crate) fn count(self, count: u8) -> u32
        ensures value { result ≡ count_of (bits self) count }
        ensures bound { result < 64 }
        ensures within { 32 ≤ bits self → result < bits self }
    {
        match self {
            Width::W64 => count as u32 % 64,
            _ => count as u32 % 32,
        }
    }
}
