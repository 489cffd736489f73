ghost use Rattle.std.specs.Prelude.{◌≡◌, ◌<◌, slice_get, Some};

/// The sixteen conditions, in the order of their codes 0 to 15 (Intel SDM, Volume 1, appendix B).
/// Each one with an odd code is the negation of the one before it.
#[derive(Clone, Copy, Debug, PartialEq, Eq)]
pub enum Cond {
    O,
    No,
    B,
    Ae,
    E,
    Ne,
    Be,
    A,
    S,
    Ns,
    P,
    Np,
    L,
    Ge,
    Le,
    G,
}

impl Cond {
    ghost use Rattle.std.specs.Prelude.{ℕ, Bool, not};
    ghost use Rattle.x86_forms.specs.Conditions.{conditions, truth};

    /// The condition with this code, the low four bits of an opcode.
    pub fn from_code(code: u8) -> Self
        requires { code < 16 }
        ensures { slice_get conditions code ≡ Some result }
    {
        match code {
            0 => Cond::O,
            1 => Cond::No,
            2 => Cond::B,
            3 => Cond::Ae,
            4 => Cond::E,
            5 => Cond::Ne,
            6 => Cond::Be,
            7 => Cond::A,
            8 => Cond::S,
            9 => Cond::Ns,
            10 => Cond::P,
            11 => Cond::Np,
            12 => Cond::L,
            13 => Cond::Ge,
            14 => Cond::Le,
            _ => Cond::G,
        }
    }

    /// The condition's code, 0 to 15.
    pub fn code(self) -> u8
        ensures { slice_get conditions result ≡ Some self }
    {
        self as u8
    }

    /// The condition that holds exactly where this one does not.
    pub fn negated(self) -> Self
        ensures { (cf pf zf sf of : Bool) → truth result cf pf zf sf of ≡ not (truth self cf pf zf sf of) }
    {
        match self {
            Cond::O => Cond::No,
            Cond::No => Cond::O,
            Cond::B => Cond::Ae,
            Cond::Ae => Cond::B,
            Cond::E => Cond::Ne,
            Cond::Ne => Cond::E,
            Cond::Be => Cond::A,
            Cond::A => Cond::Be,
            Cond::S => Cond::Ns,
            Cond::Ns => Cond::S,
            Cond::P => Cond::Np,
            Cond::Np => Cond::P,
            Cond::L => Cond::Ge,
            Cond::Ge => Cond::L,
            Cond::Le => Cond::G,
            Cond::G => Cond::Le,
        }
    }

    /// Whether the condition holds under these flags.
    pub fn holds(self, cf: bool, pf: bool, zf: bool, sf: bool, of: bool) -> bool
        ensures { result ≡ truth self cf pf zf sf of }
    {
        match self {
            Cond::O => of,
            Cond::No => !of,
            Cond::B => cf,
            Cond::Ae => !cf,
            Cond::E => zf,
            Cond::Ne => !zf,
            Cond::Be => cf || zf,
            Cond::A => !(cf || zf),
            Cond::S => sf,
            Cond::Ns => !sf,
            Cond::P => pf,
            Cond::Np => !pf,
            Cond::L => sf != of,
            Cond::Ge => sf == of,
            Cond::Le => zf || sf != of,
            Cond::G => !zf && sf == of,
        }
    }
}
