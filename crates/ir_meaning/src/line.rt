ghost use Rattle.std.specs.Prelude.{◌≡◌, ◌<◌, ◌^◌, ◌%◌, ◌+◌, ◌-◌, ◌*◌, slice_index, IfSome, if◌then◌else◌, ◌==◌, nat_lt};
ghost use Rattle.ir_meaning.specs.Does.{did, did_all, second, flags_of, flag_in, register_or_zero};
ghost use Rattle.ir_meaning.specs.Family.{result_of, flags_after, AreOperands};
ghost use Rattle.ir_meaning.specs.Ready.{OpReady, LinesReady};
ghost use Rattle.ir_syntax.specs.Width.{bits_of};
ghost use Rattle.x86_flags.specs.Numbers.{signed, low_bits};

use crate::family::{flags_after, result_of};
use crate::state::{
    flag_in, flags_of, get, put, register_or_zero, second, set_flag, set_temp, temp, test,
};
use crate::width::flag_width;
use guest_state::Virtual;
use ir_syntax::{Family, Flag, Op, Width};

// The result of a family on temporaries.
fn calculated(state: &Virtual, family: Family, w: Width, a: u8, b: Option<u8>) -> u64
    requires first { a < 8 }
    requires second { IfSome b (λ s. s < 8) }
    requires operands { AreOperands family (bits_of w) (slice_index state.now.temps a) (second state.now.temps b) }
    ensures { result ≡ result_of family (bits_of w) (slice_index state.now.temps a) (second state.now.temps b) (flags_of state.now) }
{
    result_of(
        family,
        flag_width(w),
        temp(state, a),
        second(state, b),
        flags_of(state),
    )
}

// One flag after a family on temporaries.
fn flag_after(state: &Virtual, flag: Flag, family: Family, w: Width, a: u8, b: Option<u8>) -> bool
    requires first { a < 8 }
    requires second { IfSome b (λ s. s < 8) }
    requires operands { AreOperands family (bits_of w) (slice_index state.now.temps a) (second state.now.temps b) }
    ensures { result ≡ flag_in (flags_after family (bits_of w) (slice_index state.now.temps a) (second state.now.temps b) (flags_of state.now)) flag }
{
    let flags = flags_after(
        family,
        flag_width(w),
        temp(state, a),
        second(state, b),
        flags_of(state),
    );
    flag_in(flags, flag)
}

// base + index * scale + n, modulo 2^64.
fn address(state: &Virtual, base: Option<u8>, index: Option<u8>, scale: u8, n: u64) -> u64
    requires base { IfSome base (λ r. r < 16) }
    requires index { IfSome index (λ r. r < 16) }
    ensures { result ≡ (register_or_zero state.now.regs base + register_or_zero state.now.regs index * scale + n) % 2 ^ 64 }
{
    let scaled = register_or_zero(state, index).wrapping_mul(u64::from(scale));
    register_or_zero(state, base)
        .wrapping_add(scaled)
        .wrapping_add(n)
}

// The first where c is 1, else the second.
fn picked(state: &Virtual, c: u8, a: u8, b: u8) -> u64
    requires condition { c < 8 }
    requires first { a < 8 }
    requires second { b < 8 }
    ensures { result ≡ (if slice_index state.now.temps c == 1 then slice_index state.now.temps a else slice_index state.now.temps b) }
{
    if temp(state, c) == 1 {
        temp(state, a)
    } else {
        temp(state, b)
    }
}

// The greatest number of w bits.
fn greatest(w: Width) -> u64
    ensures { result ≡ 2 ^ bits_of w - 1 }
{
    match w {
        Width::W8 => 0xff,
        Width::W16 => 0xffff,
        Width::W32 => 0xffff_ffff,
        Width::W64 => u64::MAX,
    }
}

// The low w bits.
fn cut(w: Width, number: u64) -> u64
    ensures { result ≡ number % 2 ^ bits_of w }
{
    number & greatest(w)
}

// The lowest number of so many bits that has its top bit set.
fn half(bits: u8) -> u64
    requires some { 0 < bits }
    requires few { bits < 64 }
    ensures { result ≡ 2 ^ (bits - 1) }
{
    1 << (bits - 1)
}

// The signed number of so many bits, in w bits.
fn extended(from: u8, w: Width, number: u64) -> u64
    requires some { 0 < from }
    requires wider { from < bits_of w }
    requires fits { number < 2 ^ from }
    ensures { result ≡ low_bits (bits_of w) (signed from number) }
{
    let sign = half(from);
    if number < sign {
        number
    } else {
        number + (greatest(w) - (sign - 1) - sign)
    }
}

// Runs one op line.
pub(crate) fn run_op(op: &Op, state: &mut Virtual)
    requires { OpReady op.now state.old }
    ensures { state.new ≡ did op.now state.old }
{
    match *op {
        Op::Get { w, t, r } => set_temp(state, t, get(state, r, w)),
        Op::GetHigh { t, r } => set_temp(state, t, state.get_high(r)),
        Op::Put { w, r, t } => put(state, r, w, temp(state, t)),
        Op::PutHigh { r, t } => state.put_high(r, temp(state, t)),
        Op::Const { t, n, .. } => set_temp(state, t, n),
        Op::Ea {
            t,
            base,
            index,
            scale,
            n,
        } => set_temp(state, t, address(state, base, index, scale, n)),
        Op::Calc { family, w, t, a, b } => {
            set_temp(state, t, calculated(state, family, w, a, b));
        }
        Op::FlagOf {
            flag,
            family,
            w,
            a,
            b,
        } => set_flag(state, flag, flag_after(state, flag, family, w, a, b)),
        Op::FlagZero { flag } => set_flag(state, flag, false),
        Op::Cond { t, c } => set_temp(state, t, u64::from(test(state, c))),
        Op::Pick { t, c, a, b, .. } => set_temp(state, t, picked(state, c, a, b)),
        Op::Zext { t, a, .. } => set_temp(state, t, temp(state, a)),
        Op::Sext { from, w, t, a } => set_temp(state, t, extended(from, w, temp(state, a))),
        Op::Cut { w, t, a, .. } => set_temp(state, t, cut(w, temp(state, a))),
    }
}

// Runs op lines in order.
#[tactic(auto, using(std::proofs::lemmas::List::at_drop_more, std::proofs::lemmas::List::at_drop_all))]
pub(crate) fn run_ops(ops: &[Op], state: &mut Virtual)
    requires { LinesReady ops.now state.old }
    ensures { state.new ≡ did_all ops.now state.old }
{
    for op in ops {
        run_op(op, state);
    }
}
