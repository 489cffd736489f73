ghost use Rattle.std.specs.Prelude.{◌≡◌, not, ◌&&◌, ◌||◌};
ghost use Rattle.ir_meaning.specs.Does.{flag_in};
ghost use Rattle.ir_meaning.specs.Live.{uses_carry, can_keep, op_reads, op_puts, end_reads, live_before, live_before_end, is_dead};

use ir_syntax::{Family, Flag, Op, PartEnd};
use x86_flags::Flags;

// All five flags, which count as read at a block's end.
pub(crate) const ALL: Flags = Flags {
    cf: true,
    pf: true,
    zf: true,
    sf: true,
    of: true,
};

// Whether a family adds or subtracts with the carry.
fn uses_carry(family: Family) -> bool
    ensures { result ≡ uses_carry family }
{
    matches!(family, Family::Adc | Family::Sbb)
}

// Whether a family can leave a flag as it was before.
fn can_keep(family: Family, flag: Flag) -> bool
    ensures { result ≡ can_keep family flag }
{
    match family {
        Family::Shl | Family::Shr | Family::Sar | Family::Rol | Family::Ror => true,
        Family::Mul | Family::Umulh | Family::Smulh | Family::Not => true,
        Family::Inc | Family::Dec => flag == Flag::Cf,
        _ => false,
    }
}

// Whether an op line reads a flag.
fn op_reads(op: &Op, flag: Flag) -> bool
    ensures { result ≡ op_reads op.now flag }
{
    match *op {
        Op::Calc { family, .. } => uses_carry(family) && flag == Flag::Cf,
        Op::FlagOf {
            flag: put,
            family,
            ..
        } => (uses_carry(family) && flag == Flag::Cf) || (can_keep(family, put) && put == flag),
        Op::Cond { c, .. } => c.reads(flag),
        _ => false,
    }
}

// Whether an op line puts a flag.
fn op_puts(op: &Op, flag: Flag) -> bool
    ensures { result ≡ op_puts op.now flag }
{
    match *op {
        Op::FlagOf { flag: put, .. } | Op::FlagZero { flag: put } => put == flag,
        _ => false,
    }
}

// Whether an end line reads a flag.
fn end_reads(end: &PartEnd, flag: Flag) -> bool
    ensures { result ≡ end_reads end.now flag }
{
    match *end {
        PartEnd::Branch { c, .. } => c.reads(flag),
        _ => false,
    }
}

// Whether a flag is live before an op line, by whether it is live after it.
fn is_live_before(op: &Op, flag: Flag, after: bool) -> bool
    ensures { result ≡ (op_reads op.now flag || (not (op_puts op.now flag) && after)) }
{
    op_reads(op, flag) || (!op_puts(op, flag) && after)
}

// The flags that are live before an op line.
pub(crate) fn live_before(op: &Op, live: Flags) -> Flags
    ensures { result ≡ live_before op.now live }
{
    Flags {
        cf: is_live_before(op, Flag::Cf, live.cf),
        pf: is_live_before(op, Flag::Pf, live.pf),
        zf: is_live_before(op, Flag::Zf, live.zf),
        sf: is_live_before(op, Flag::Sf, live.sf),
        of: is_live_before(op, Flag::Of, live.of),
    }
}

// The flags that are live before an end line.
pub(crate) fn live_before_end(end: &PartEnd, live: Flags) -> Flags
    ensures { result ≡ live_before_end end.now live }
{
    Flags {
        cf: end_reads(end, Flag::Cf) || live.cf,
        pf: end_reads(end, Flag::Pf) || live.pf,
        zf: end_reads(end, Flag::Zf) || live.zf,
        sf: end_reads(end, Flag::Sf) || live.sf,
        of: end_reads(end, Flag::Of) || live.of,
    }
}

// One flag of five.
fn flag_in(flags: Flags, flag: Flag) -> bool
    ensures { result ≡ flag_in flags flag }
{
    match flag {
        Flag::Cf => flags.cf,
        Flag::Pf => flags.pf,
        Flag::Zf => flags.zf,
        Flag::Sf => flags.sf,
        Flag::Of => flags.of,
    }
}

// Whether an op line puts a flag that isn't live after it.
pub(crate) fn is_dead(op: &Op, live: Flags) -> bool
    ensures { result ≡ is_dead op.now live }
{
    match *op {
        Op::FlagOf { flag, .. } | Op::FlagZero { flag } => !flag_in(live, flag),
        _ => false,
    }
}
