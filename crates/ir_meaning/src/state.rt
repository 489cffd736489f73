ghost use Rattle.std.specs.Prelude.{◌≡◌, ◌<◌, ◌^◌, slice_index, Bool, IfSome};
ghost use Rattle.guest_state.specs.Virtual.{get_of, put_of};
ghost use Rattle.ir_meaning.specs.Does.{flags_of, flag_in, with_flag, with_temp, second, register_or_zero, holds_now, place_of};
ghost use Rattle.ir_meaning.specs.Ready.{IsPlaced};
ghost use Rattle.ir_meaning.specs.Width.{state_width};
ghost use Rattle.ir_syntax.specs.Cond.{test, differ};
ghost use Rattle.ir_syntax.specs.Width.{bits_of};

use crate::width::state_width;
use guest_state::Virtual;
use ir_syntax::{Cond, Flag, Target, Width};
use x86_flags::Flags;

// The low w bits of a register.
pub(crate) fn get(state: &Virtual, r: u8, w: Width) -> u64
    requires { r < 16 }
    ensures value { result ≡ get_of state.now r (state_width w) }
    ensures bound { result < 2 ^ bits_of w }
{
    state.get(r, state_width(w))
}

// Writes w bits to a register.
pub(crate) fn put(state: &mut Virtual, r: u8, w: Width, value: u64)
    requires register { r < 16 }
    requires fits { value < 2 ^ bits_of w }
    ensures { state.new ≡ put_of state.old r (state_width w) value }
{
    state.put(r, state_width(w), value);
}

// A temporary.
pub(crate) fn temp(state: &Virtual, t: u8) -> u64
    requires { t < 8 }
    ensures { result ≡ slice_index state.now.temps t }
{
    state.temps[usize::from(t)]
}

// The second operand, or 0 for a family of one.
pub(crate) fn second(state: &Virtual, b: Option<u8>) -> u64
    requires { IfSome b (λ t. t < 8) }
    ensures { result ≡ second state.now.temps b }
{
    match b {
        None => 0,
        Some(t) => state.temps[usize::from(t)],
    }
}

pub(crate) fn set_temp(state: &mut Virtual, t: u8, value: u64)
    requires { t < 8 }
    ensures { state.new ≡ with_temp state.old t value }
{
    state.temps[usize::from(t)] = value;
}

// A register of an address, or 0.
pub(crate) fn register_or_zero(state: &Virtual, r: Option<u8>) -> u64
    requires { IfSome r (λ number. number < 16) }
    ensures { result ≡ register_or_zero state.now.regs r }
{
    match r {
        None => 0,
        Some(number) => state.regs[usize::from(number)],
    }
}

// The address of a transfer.
pub(crate) fn place_of(state: &Virtual, to: Target) -> u64
    requires { IsPlaced to }
    ensures { result ≡ place_of state.now.temps to }
{
    match to {
        Target::Place(place) => place,
        Target::Temp(t) => state.temps[usize::from(t)],
    }
}

pub(crate) fn flags_of(state: &Virtual) -> Flags
    ensures { result ≡ flags_of state.now }
{
    Flags {
        cf: state.cf,
        pf: state.pf,
        zf: state.zf,
        sf: state.sf,
        of: state.of,
    }
}

pub(crate) fn flag_in(flags: Flags, flag: Flag) -> bool
    ensures { result ≡ flag_in flags flag }
{
    match flag {
        Flag::Cf => flags.cf,
        Flag::Pf => flags.pf,
        Flag::Zf => flags.zf,
        Flag::Sf => flags.sf,
        Flag::Of => flags.of,
    }
}

pub(crate) fn set_flag(state: &mut Virtual, flag: Flag, value: bool)
    ensures { state.new ≡ with_flag state.old flag value }
{
    match flag {
        Flag::Cf => state.cf = value,
        Flag::Pf => state.pf = value,
        Flag::Zf => state.zf = value,
        Flag::Sf => state.sf = value,
        Flag::Of => state.of = value,
    }
}

// Whether the condition holds (Intel SDM Volume 1, appendix B).
pub(crate) fn test(state: &Virtual, c: Cond) -> bool
    ensures { result ≡ test c (holds_now state.now) }
{
    match c {
        Cond::O => state.of,
        Cond::No => !state.of,
        Cond::B => state.cf,
        Cond::Ae => !state.cf,
        Cond::E => state.zf,
        Cond::Ne => !state.zf,
        Cond::Be => state.cf || state.zf,
        Cond::A => !(state.cf || state.zf),
        Cond::S => state.sf,
        Cond::Ns => !state.sf,
        Cond::P => state.pf,
        Cond::Np => !state.pf,
        Cond::L => differ(state.sf, state.of),
        Cond::Ge => !differ(state.sf, state.of),
        Cond::Le => state.zf || differ(state.sf, state.of),
        Cond::G => !(state.zf || differ(state.sf, state.of)),
    }
}

fn differ(a: bool, b: bool) -> bool
    ensures { result ≡ differ a b }
{
    if a { !b } else { b }
}
