ghost use Rattle.std.specs.Prelude.{◌≡◌, Bool, not};
ghost use Rattle.ir_syntax.specs.Cond.{reads, test};
ghost use Rattle.ir_syntax.specs.declared.cond.Flag.{Flag};

/// A status flag of the processor.
#[derive(Clone, Copy, Debug, PartialEq, Eq, Hash)]
pub enum Flag {
    Cf,
    Pf,
    Zf,
    Sf,
    Of,
}

/// A condition on the flags, in the order of its code in Jcc, SETcc and CMOVcc
/// (Intel SDM Volume 1, appendix B, "EFLAGS Condition Codes").
#[derive(Clone, Copy, Debug, PartialEq, Eq, Hash)]
pub enum Cond {
    O,
    No,
    B,
    Ae,
    E,
    Ne,
    Be,
    A,
    S,
    Ns,
    P,
    Np,
    L,
    Ge,
    Le,
    G,
}

impl Cond {
    /// The condition that holds exactly where this one does not.
    pub fn negated(self) -> Cond
        ensures { (flags : Flag → Bool) → test result flags ≡ not (test self flags) }
    {
        match self {
            Cond::O => Cond::No,
            Cond::No => Cond::O,
            Cond::B => Cond::Ae,
            Cond::Ae => Cond::B,
            Cond::E => Cond::Ne,
            Cond::Ne => Cond::E,
            Cond::Be => Cond::A,
            Cond::A => Cond::Be,
            Cond::S => Cond::Ns,
            Cond::Ns => Cond::S,
            Cond::P => Cond::Np,
            Cond::Np => Cond::P,
            Cond::L => Cond::Ge,
            Cond::Ge => Cond::L,
            Cond::Le => Cond::G,
            Cond::G => Cond::Le,
        }
    }

    /// Whether the condition depends on this flag.
    pub fn reads(self, flag: Flag) -> bool
        ensures { result ≡ reads self flag }
    {
        match self {
            Cond::O | Cond::No => flag == Flag::Of,
            Cond::B | Cond::Ae => flag == Flag::Cf,
            Cond::E | Cond::Ne => flag == Flag::Zf,
            Cond::Be | Cond::A => flag == Flag::Cf || flag == Flag::Zf,
            Cond::S | Cond::Ns => flag == Flag::Sf,
            Cond::P | Cond::Np => flag == Flag::Pf,
            Cond::L | Cond::Ge => flag == Flag::Sf || flag == Flag::Of,
            Cond::Le | Cond::G => flag == Flag::Zf || flag == Flag::Sf || flag == Flag::Of,
        }
    }
}
