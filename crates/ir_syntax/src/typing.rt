ghost use Rattle.std.specs.Prelude.{◌≡◌, ◌+◌, ◌^◌, nat_lt, ◌<◌, ◌↔◌, length, true, false, IsOk, IfErr, OnOk, OnErr, drop};
ghost use Rattle.ir_syntax.specs.Typed.{holds, wrote, is_index, is_base, second_bits, has_width, has_result, puts, is_second, are_operands, is_target, is_typed, types_after, is_end_typed, types_after_end, goes_on, is_end_right, is_width, are_typed, types_after_all, IsFirstWrongOp, IsFirstWrongLine, IsFirstWrong, is_part_typed, types_after_part, are_parts_typed, unwritten, is_empty, IsWellTyped, IsFault};
ghost use Rattle.ir_syntax.specs.Width.{bits_of};

use crate::block::{Block, Part};
use crate::cond::Flag;
use crate::line::{Family, Op, PartEnd, Target};
use crate::width::Width;
use thiserror::Error;

/// The first wrong line of a block: the number of its part and of its line in it, both from 0.
/// The end line of a part comes after its op lines.
#[derive(Clone, Copy, Debug, PartialEq, Eq, Error)]
#[error("part {part}, line {op}: not well typed")]
pub struct TypeFault {
    pub part: usize,
    pub op: usize,
}

/// How many bits each temporary was last written with.
type Types = [Option<u8>; 8];

fn holds(types: &Types, t: u8, n: u8) -> bool
    ensures { result ≡ holds types.now t n }
{
    match types.get(usize::from(t)) {
        Some(Some(m)) => *m == n,
        _ => false,
    }
}

fn write(types: &mut Types, t: u8, n: u8)
    requires { t < 8 }
    ensures { types.new ≡ wrote types.old t n }
{
    types[usize::from(t)] = Some(n);
}

fn is_base(base: Option<u8>) -> bool
    ensures { result ≡ is_base base }
{
    match base {
        None => true,
        Some(r) => r < 16,
    }
}

fn is_index(index: Option<u8>, scale: u8) -> bool
    ensures { result ≡ is_index index scale }
{
    match index {
        None => scale == 1,
        Some(r) => r < 16 && matches!(scale, 1 | 2 | 4 | 8),
    }
}

impl Family {
    /// The bits of the second operand at n bits, or None for a family of one operand.
    fn second_bits(self, n: u8) -> Option<u8>
        ensures { result ≡ second_bits self n }
    {
        match self {
            Family::Inc | Family::Dec | Family::Neg | Family::Not => None,
            Family::Shl | Family::Shr | Family::Sar | Family::Rol | Family::Ror => Some(8),
            _ => Some(n),
        }
    }

    fn has_width(self, n: u8) -> bool
        ensures { result ≡ has_width self n }
    {
        match self {
            Family::Rol
            | Family::Ror
            | Family::Mul
            | Family::Umulh
            | Family::Smulh
            | Family::Umul
            | Family::Smul => n >= 32,
            _ => true,
        }
    }

    fn has_result(self) -> bool
        ensures { result ≡ has_result self }
    {
        !matches!(self, Family::Umul | Family::Smul)
    }

    fn puts(self, flag: Flag) -> bool
        ensures { result ≡ puts self flag }
    {
        match self {
            Family::Mul | Family::Umulh | Family::Smulh | Family::Not => false,
            Family::Inc | Family::Dec => flag != Flag::Cf,
            Family::Rol | Family::Ror | Family::Umul | Family::Smul => {
                flag == Flag::Cf || flag == Flag::Of
            }
            _ => true,
        }
    }
}

/// Whether the second operand stands where one is needed, and holds what is needed.
fn is_second(types: &Types, needed: Option<u8>, b: Option<u8>) -> bool
    ensures { result ≡ is_second types.now needed b }
{
    match (needed, b) {
        (None, None) => true,
        (Some(n), Some(b)) => holds(types, b, n),
        _ => false,
    }
}

fn are_operands(types: &Types, family: Family, n: u8, a: u8, b: Option<u8>) -> bool
    ensures { result ≡ are_operands types.now family n a b }
{
    family.has_width(n) && holds(types, a, n) && is_second(types, family.second_bits(n), b)
}

fn is_target(types: &Types, to: Target) -> bool
    ensures { result ≡ is_target types.now to }
{
    match to {
        Target::Place(_) => true,
        Target::Temp(t) => holds(types, t, 64),
    }
}

fn is_width(n: u8) -> bool
    ensures { result ≡ is_width n }
{
    matches!(n, 8 | 16 | 32 | 64)
}

/// The greatest number of w bits.
fn greatest(w: Width) -> u64
    ensures { result + 1 ≡ 2 ^ bits_of w }
{
    match w {
        Width::W8 => 0xFF,
        Width::W16 => 0xFFFF,
        Width::W32 => 0xFFFF_FFFF,
        Width::W64 => u64::MAX,
    }
}

fn is_below(n: u64, w: Width) -> bool
    ensures { result ≡ nat_lt n (2 ^ bits_of w) }
{
    n <= greatest(w)
}

fn is_typed(op: &Op, types: &Types) -> bool
    ensures { result ≡ is_typed types.now op.now }
{
    match *op {
        Op::Get { t, r, .. } => t < 8 && r < 16,
        Op::GetHigh { t, r } => t < 8 && r < 4,
        Op::Put { w, r, t } => r < 16 && holds(types, t, w.bits()),
        Op::PutHigh { r, t } => r < 4 && holds(types, t, 8),
        Op::Const { w, t, n } => t < 8 && is_below(n, w),
        Op::Ea {
            t,
            base,
            index,
            scale,
            ..
        } => t < 8 && is_base(base) && is_index(index, scale),
        Op::Calc { family, w, t, a, b } => {
            t < 8 && family.has_result() && are_operands(types, family, w.bits(), a, b)
        }
        Op::FlagOf {
            flag,
            family,
            w,
            a,
            b,
        } => family.puts(flag) && are_operands(types, family, w.bits(), a, b),
        Op::FlagZero { .. } => true,
        Op::Cond { t, .. } => t < 8,
        Op::Pick { w, t, c, a, b } => {
            t < 8 && holds(types, c, 1) && holds(types, a, w.bits()) && holds(types, b, w.bits())
        }
        Op::Zext { from, w, t, a } => {
            t < 8 && (from == 1 || is_width(from)) && from < w.bits() && holds(types, a, from)
        }
        Op::Sext { from, w, t, a } => {
            t < 8 && is_width(from) && from < w.bits() && holds(types, a, from)
        }
        Op::Cut { from, w, t, a } => {
            t < 8 && is_width(from) && w.bits() < from && holds(types, a, from)
        }
    }
}

fn is_end_typed(end: &PartEnd, types: &Types) -> bool
    ensures { result ≡ is_end_typed types.now end.now }
{
    match *end {
        PartEnd::Tick | PartEnd::Fence | PartEnd::Branch { .. } | PartEnd::BadCode => true,
        PartEnd::Load { t, a, .. } => t < 8 && holds(types, a, 64),
        PartEnd::Store { w, a, t } => holds(types, a, 64) && holds(types, t, w.bits()),
        PartEnd::StoreGo { a, t, to } => {
            holds(types, a, 64) && holds(types, t, 64) && is_target(types, to)
        }
        PartEnd::Locked { w, t, a, s, .. } => {
            t < 8 && holds(types, a, 64) && holds(types, s, w.bits())
        }
        PartEnd::LockedCmpxchg { w, t, a, c, s } => {
            t < 8 && holds(types, a, 64) && holds(types, c, w.bits()) && holds(types, s, w.bits())
        }
        PartEnd::Divide { w, t, .. } => w.bits() >= 32 && holds(types, t, w.bits()),
        PartEnd::Go { to } => is_target(types, to),
    }
}

/// Whether a part that is not the last may end so.
fn goes_on(end: &PartEnd) -> bool
    ensures { result ≡ goes_on end.now }
{
    !matches!(
        end,
        PartEnd::StoreGo { .. } | PartEnd::Go { .. } | PartEnd::Branch { .. } | PartEnd::BadCode
    )
}

fn step(op: &Op, types: &mut Types)
    requires { is_typed types.old op.now ≡ true }
    ensures { types.new ≡ types_after types.old op.now }
{
    match *op {
        Op::Get { w, t, .. }
        | Op::Const { w, t, .. }
        | Op::Calc { w, t, .. }
        | Op::Pick { w, t, .. }
        | Op::Zext { w, t, .. }
        | Op::Sext { w, t, .. }
        | Op::Cut { w, t, .. } => write(types, t, w.bits()),
        Op::GetHigh { t, .. } => write(types, t, 8),
        Op::Ea { t, .. } => write(types, t, 64),
        Op::Cond { t, .. } => write(types, t, 1),
        Op::Put { .. } | Op::PutHigh { .. } | Op::FlagOf { .. } | Op::FlagZero { .. } => {}
    }
}

fn step_end(end: &PartEnd, types: &mut Types)
    requires { is_end_typed types.old end.now ≡ true }
    ensures { types.new ≡ types_after_end types.old end.now }
{
    match *end {
        PartEnd::Load { w, t, .. }
        | PartEnd::Locked { w, t, .. }
        | PartEnd::LockedCmpxchg { w, t, .. } => write(types, t, w.bits()),
        _ => {}
    }
}

/// The types after the op lines of a part, or the number of the first wrong one.
fn check_ops(ops: &[Op], types: &mut Types) -> Result<(), usize>
    ensures right { OnOk result (are_typed types.old ops.now ≡ true) }
    ensures after { OnOk result (types.new ≡ types_after_all types.old ops.now) }
    ensures wrong { IfErr result (IsFirstWrongOp types.old ops.now) }
{
    for (k, op) in ops.iter().enumerate() {
        if !is_typed(op, types) {
            return Err(k);
        }
        step(op, types);
    }
    Ok(())
}

fn is_end_right(end: &PartEnd, last: bool, types: &Types) -> bool
    ensures { result ≡ is_end_right last types.now end.now }
{
    is_end_typed(end, types) && (last || goes_on(end))
}

/// The types after a part, or the number of its first wrong line.
fn check_part(part: &Part, last: bool, types: &mut Types) -> Result<(), usize>
    ensures right { OnOk result (is_part_typed last types.old part.now ≡ true) }
    ensures after { OnOk result (types.new ≡ types_after_part types.old part.now) }
    ensures wrong { IfErr result (IsFirstWrongLine last types.old part.now) }
{
    let ops = part.ops.as_slice();
    check_ops(ops, types)?;
    if !is_end_right(&part.end, last, types) {
        return Err(ops.len());
    }
    step_end(&part.end, types);
    Ok(())
}

fn is_last(parts: &[Part], i: usize) -> bool
    requires { i < length parts.now }
    ensures { result ≡ is_empty (drop (i + 1) parts.now) }
{
    i + 1 == parts.len()
}

fn check_parts(parts: &[Part]) -> Result<(), TypeFault>
    ensures right { OnOk result (are_parts_typed unwritten parts.now ≡ true) }
    ensures untyped { OnErr result (are_parts_typed unwritten parts.now ≡ false) }
    ensures wrong { IfErr result (λ fault. IsFirstWrong unwritten parts.now fault.part fault.op) }
{
    let mut types = [None; 8];
    for (i, part) in parts.iter().enumerate() {
        if let Err(op) = check_part(part, is_last(parts, i), &mut types) {
            return Err(TypeFault { part: i, op });
        }
    }
    Ok(())
}

/// Whether a block is well typed: it has a part, and each line is one that the language has, reads
/// temporaries that were last written with the width that it needs, and leaves the block only at the
/// end of its last part.
///
/// Takes no memory.
///
/// # Errors
///
/// The first line that is wrong, where one is; in a block without parts, line 0 of part 0.
pub fn check_types(block: &Block) -> Result<(), TypeFault>
    ensures well_typed { IsOk result ↔ IsWellTyped block.now }
    ensures first_wrong { IfErr result (IsFault block.now.parts) }
{
    let parts = block.parts.as_slice();
    if parts.is_empty() {
        return Err(TypeFault { part: 0, op: 0 });
    }
    check_parts(parts)
}

#[cfg(test)]
mod tests;
