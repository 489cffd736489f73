ghost use Rattle.std.specs.Prelude.{◌≡◌, ◌-◌, ◌^◌, ◌<◌, ◌↔◌, IsTrue};
ghost use Rattle.guest_state.specs.Width.{bits};

/// The size of an operand.
#[derive(Clone, Copy, Debug, PartialEq, Eq)]
pub enum Width {
    W8,
    W16,
    W32,
    W64,
}

impl Width {
    /// Whether a number has no bit beyond this width.
    pub fn fits(self, number: u64) -> bool
        ensures { IsTrue result ↔ (number < 2 ^ bits self) }
    {
        number <= self.mask()
    }

    // The largest number of this width.
    #[tactic(auto, unfolding(crate::specs::Width::bits))]
    pub(crate) fn mask(self) -> u64
        ensures { result ≡ 2 ^ bits self - 1 }
    {
        match self {
            Width::W8 => 0xff,
            Width::W16 => 0xffff,
            Width::W32 => 0xffff_ffff,
            Width::W64 => 0xffff_ffff_ffff_ffff,
        }
    }
}
