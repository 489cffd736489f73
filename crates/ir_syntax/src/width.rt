ghost use Rattle.std.specs.Prelude.{◌≡◌};
ghost use Rattle.ir_syntax.specs.Width.{bits_of};

/// The number of bits of a value of an instruction.
#[derive(Clone, Copy, Debug, PartialEq, Eq, Hash)]
pub enum Width {
    W8,
    W16,
    W32,
    W64,
}

impl Width {
    /// The width as a number of bits: 8, 16, 32 or 64.
    pub fn bits(self) -> u8
        ensures { result ≡ bits_of self }
    {
        match self {
            Width::W8 => 8,
            Width::W16 => 16,
            Width::W32 => 32,
            Width::W64 => 64,
        }
    }
}
