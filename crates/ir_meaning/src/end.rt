ghost use Rattle.std.specs.Prelude.{◌≡◌, ◌<◌, ◌≤◌, ◌^◌, slice_index, Option, IfSome};
ghost use Rattle.ir_meaning.specs.Does.{ended, answered, quotient_of, divided, change_of};
ghost use Rattle.ir_meaning.specs.Ready.{EndReady, Answers};
ghost use Rattle.ir_syntax.specs.Width.{bits_of};

use crate::state::{get, place_of, put, set_temp, temp, test};
use crate::width::flag_width;
use guest_state::Virtual;
use ir_syntax::{BadKind, Change, LockOp, PartEnd, Request, Width};

// rdx:rax divided by a number: quotient and remainder, or None at a divide error.
fn quotient_of(state: &Virtual, signed: bool, w: Width, by: u64) -> Option<(u64, u64)>
    requires width { 32 ≤ bits_of w }
    requires divisor { by < 2 ^ bits_of w }
    ensures value { result ≡ quotient_of signed w state.now by }
    ensures bound { IfSome result (λ q. (q.0 < 2 ^ bits_of w) × (q.1 < 2 ^ bits_of w)) }
{
    let high = get(state, 2, w);
    let low = get(state, 0, w);
    if signed {
        x86_flags::sdiv(flag_width(w), high, low, by)
    } else {
        x86_flags::udiv(flag_width(w), high, low, by)
    }
}

// Divides rdx:rax by a number: the quotient goes to rax, the remainder to rdx.
fn divide(state: &mut Virtual, signed: bool, w: Width, by: u64) -> Request
    requires width { 32 ≤ bits_of w }
    requires divisor { by < 2 ^ bits_of w }
    ensures request { result ≡ (divided w state.old (quotient_of signed w state.old by)).request }
    ensures state { state.new ≡ (divided w state.old (quotient_of signed w state.old by)).state }
{
    match quotient_of(state, signed, w, by) {
        None => Request::Bad(BadKind::Divide),
        Some((quotient, remainder)) => {
            put(state, 0, w, quotient);
            put(state, 2, w, remainder);
            Request::Tick
        }
    }
}

// What a locked line does to memory with s.
fn change_of(kind: LockOp, s: u64) -> Change
    ensures { result ≡ change_of kind s }
{
    match kind {
        LockOp::Xchg => Change::Xchg(s),
        LockOp::Add => Change::Add(s),
        LockOp::Sub => Change::Sub(s),
        LockOp::And => Change::And(s),
        LockOp::Or => Change::Or(s),
        LockOp::Xor => Change::Xor(s),
    }
}

// Runs an end line: what it asks for, and the registers that a division writes.
pub(crate) fn run_end(end: &PartEnd, state: &mut Virtual) -> Request
    requires { EndReady end.now state.old }
    ensures request { result ≡ (ended end.now state.old).request }
    ensures state { state.new ≡ (ended end.now state.old).state }
{
    match *end {
        PartEnd::Tick => Request::Tick,
        PartEnd::Load { w, a, .. } => Request::Load {
            a: temp(state, a),
            w,
        },
        PartEnd::Store { w, a, t } => Request::Store {
            a: temp(state, a),
            w,
            v: temp(state, t),
        },
        PartEnd::StoreGo { a, t, to } => Request::StoreGo {
            a: temp(state, a),
            v: temp(state, t),
            target: place_of(state, to),
        },
        PartEnd::Fence => Request::Fence,
        PartEnd::Locked { kind, w, a, s, .. } => Request::Locked {
            a: temp(state, a),
            w,
            change: change_of(kind, temp(state, s)),
        },
        PartEnd::LockedCmpxchg { w, a, c, s, .. } => Request::Locked {
            a: temp(state, a),
            w,
            change: Change::Cmpxchg {
                want: temp(state, c),
                new: temp(state, s),
            },
        },
        PartEnd::Divide { signed, w, t } => divide(state, signed, w, temp(state, t)),
        PartEnd::Go { to } => Request::Go(place_of(state, to)),
        PartEnd::Branch { c, yes, no } => Request::Go(if test(state, c) { yes } else { no }),
        PartEnd::BadCode => Request::Bad(BadKind::Code),
    }
}

// Gives the answer to the temporary that an end line names.
pub(crate) fn answer_end(end: &PartEnd, state: &mut Virtual, value: u64)
    requires { Answers end.now value }
    ensures { state.new ≡ answered end.now value state.old }
{
    match *end {
        PartEnd::Load { t, .. } | PartEnd::Locked { t, .. } | PartEnd::LockedCmpxchg { t, .. } =>
            set_temp(state, t, value),
        _ => {}
    }
}
