ghost use Rattle.std.specs.Prelude.{◌≡◌, length, IfSome};
ghost use Rattle.std.specs.Option.{option_map};
ghost use Rattle.x86_forms.specs.Operands.{byte};
ghost use Rattle.x86_forms.specs.Reading.{cut};

/// The bytes that are not yet read.
#[derive(Clone, Copy)]
pub struct Cursor<'a> {
    pub rest: &'a [u8],
}

impl<'a> Cursor<'a> {
    /// The next bytes, and a cursor behind them; `None` where there are fewer.
    #[tactic(auto, unfolding(x86_forms::specs::Reading::cut))]
    pub fn take(self, count: usize) -> Option<(&'a [u8], Cursor<'a>)>
        ensures value { option_map (λ p. (p.0.now, p.1.rest.now)) result ≡ cut count self.entry.rest.now }
        ensures length { IfSome result (λ p. length p.0.now ≡ count) }
    {
        if self.rest.len() < count {
            None
        } else {
            let rest = &self.rest[count..];
            Some((&self.rest[..count], Cursor { rest }))
        }
    }
}

/// What stands before the operands: legacy prefixes, REX, 0F and the opcode. A part that may be
/// missing has no byte or one.
#[derive(Clone, Copy)]
pub struct Front<'a> {
    pub prefixes: &'a [u8],
    pub rex: &'a [u8],
    pub escape: &'a [u8],
    pub opcode: &'a [u8],
}

/// The bytes of one instruction, cut into parts (Intel SDM, Volume 2, figure 2-1).
#[derive(Clone, Copy)]
pub struct Pieces<'a> {
    pub front: Front<'a>,
    pub modrm: &'a [u8],
    pub sib: &'a [u8],
    pub disp: &'a [u8],
    pub imm: &'a [u8],
}

/// The byte of a part that has no byte or one: 0 where it is missing.
pub fn byte(part: &[u8]) -> u8
    ensures { result ≡ byte part.now }
{
    match part {
        [] => 0,
        [first, ..] => *first,
    }
}
