//! The lines of a block, row by row.

ghost use Rattle.std.specs.Prelude.{◌≡◌, false, true};
ghost use Rattle.ir_text.specs.Reading.{seen};
ghost use Rattle.ir_text.specs.Row.{reading};
ghost use Rattle.ir_text.specs.Grammar.{get_operands, get_row, put_operands, put_row, const_row, ea_row, calc_operands, calc_row, flag_operands, flag_value, flag_row, cond_row, pick_row, zext_row, sext_row, cut_row, load_row, store_row, storego_row, locked_operands, locked_row, divide_row, go_row, branch_row, head_row, line_row};
ghost use Rattle.std.specs.Prelude.{◌+◌, ◌^◌};
ghost use Rattle.ir_syntax.specs.Width.{bits_of};
ghost use Rattle.ir_text.specs.Text.{has_two};
ghost use Rattle.ir_text.specs.Reading.{number_at};

use crate::fields::{
    base, cond, cut, flag, flag_family, head, head_or_end, lock_op, register, register_part,
    result_family, scale, sext, sign, target_front, temp, width, zext,
};
use crate::pieces::{Head, Item};
use crate::words::{digits, number};
use ir_syntax::{Family, Flag, LockOp, Op, PartEnd, Target, Width};

/// `get.W t r` and `get.h t r`.
fn get(bytes: &[u8]) -> Result<(Item, &[u8]), usize>
    ensures { seen (λ x. (x.0, x.1.now)) result ≡ reading get_row bytes.now }
{
    let (part, rest) = register_part(bytes)?;
    get_operands(rest, part)
}

fn get_operands(bytes: &[u8], part: Option<Width>) -> Result<(Item, &[u8]), usize>
    ensures { seen (λ x. (x.0, x.1.now)) result ≡ reading (get_operands part) bytes.now }
{
    match part {
        None => {
            let (t, rest) = temp(bytes, b" ")?;
            let (r, rest) = register(rest, b"\n")?;
            Ok((Item::Op(Op::GetHigh { t, r }), rest))
        }
        Some(w) => {
            let (t, rest) = temp(bytes, b" ")?;
            let (r, rest) = register(rest, b"\n")?;
            Ok((Item::Op(Op::Get { w, t, r }), rest))
        }
    }
}

/// `put.W r t` and `put.h r t`.
fn put(bytes: &[u8]) -> Result<(Item, &[u8]), usize>
    ensures { seen (λ x. (x.0, x.1.now)) result ≡ reading put_row bytes.now }
{
    let (part, rest) = register_part(bytes)?;
    put_operands(rest, part)
}

fn put_operands(bytes: &[u8], part: Option<Width>) -> Result<(Item, &[u8]), usize>
    ensures { seen (λ x. (x.0, x.1.now)) result ≡ reading (put_operands part) bytes.now }
{
    match part {
        None => {
            let (r, rest) = register(bytes, b" ")?;
            let (t, rest) = temp(rest, b"\n")?;
            Ok((Item::Op(Op::PutHigh { r, t }), rest))
        }
        Some(w) => {
            let (r, rest) = register(bytes, b" ")?;
            let (t, rest) = temp(rest, b"\n")?;
            Ok((Item::Op(Op::Put { w, r, t }), rest))
        }
    }
}

/// The greatest number of so many bits.
fn greatest(w: Width) -> u64
    ensures { result + 1 ≡ 2 ^ bits_of w }
{
    match w {
        Width::W8 => 0xff,
        Width::W16 => 0xffff,
        Width::W32 => 0xffff_ffff,
        Width::W64 => u64::MAX,
    }
}

/// A number of so many bits that ends the line.
fn number_of(bytes: &[u8], w: Width) -> Result<(u64, &[u8]), usize>
    ensures { seen (λ x. (x.0, x.1.now)) result ≡ number_at (2 ^ bits_of w) 10 bytes.now }
{
    number(bytes, greatest(w), b'\n')
}

/// `const.W t N`.
fn constant(bytes: &[u8]) -> Result<(Item, &[u8]), usize>
    ensures { seen (λ x. (x.0, x.1.now)) result ≡ reading const_row bytes.now }
{
    let (w, rest) = width(bytes)?;
    let (t, rest) = temp(rest, b" ")?;
    let (n, rest) = number_of(rest, w)?;
    Ok((Item::Op(Op::Const { w, t, n }), rest))
}

/// `ea t B I S N`.
fn address(bytes: &[u8]) -> Result<(Item, &[u8]), usize>
    ensures { seen (λ x. (x.0, x.1.now)) result ≡ reading ea_row bytes.now }
{
    let (t, rest) = temp(bytes, b" ")?;
    let (low, rest) = base(rest)?;
    let (index, rest) = base(rest)?;
    let (times, rest) = scale(rest, index)?;
    let (n, rest) = number(rest, u64::MAX, b'\n')?;
    let op = Op::Ea {
        t,
        base: low,
        index,
        scale: times,
        n,
    };
    Ok((Item::Op(op), rest))
}

/// `calc.F.W t a b` and `calc.F.W t a`.
fn calc(bytes: &[u8]) -> Result<(Item, &[u8]), usize>
    ensures { seen (λ x. (x.0, x.1.now)) result ≡ reading calc_row bytes.now }
{
    let (family, rest) = result_family(bytes)?;
    let (w, rest) = width(rest)?;
    let (t, rest) = temp(rest, b" ")?;
    calc_operands(rest, has_two(family), family, w, t)
}

fn calc_operands(
    bytes: &[u8],
    two: bool,
    family: Family,
    w: Width,
    t: u8,
) -> Result<(Item, &[u8]), usize>
    ensures { seen (λ x. (x.0, x.1.now)) result ≡ reading (calc_operands two family w t) bytes.now }
{
    if two {
        let (a, rest) = temp(bytes, b" ")?;
        let (b, rest) = temp(rest, b"\n")?;
        let b = Some(b);
        Ok((Item::Op(Op::Calc { family, w, t, a, b }), rest))
    } else {
        let (a, rest) = temp(bytes, b"\n")?;
        let b = None;
        Ok((Item::Op(Op::Calc { family, w, t, a, b }), rest))
    }
}

/// Whether the family has two operands.
fn has_two(family: Family) -> bool
    ensures { result ≡ has_two family }
{
    !matches!(
        family,
        Family::Inc | Family::Dec | Family::Neg | Family::Not
    )
}

/// `flag f F.W a b`, `flag f F.W a` and `flag f zero`.
fn flag_line(bytes: &[u8]) -> Result<(Item, &[u8]), usize>
    ensures { seen (λ x. (x.0, x.1.now)) result ≡ reading flag_row bytes.now }
{
    let (name, rest) = flag(bytes)?;
    let (family, rest) = flag_family(rest)?;
    flag_value(rest, name, family)
}

fn flag_value(bytes: &[u8], flag: Flag, family: Option<Family>) -> Result<(Item, &[u8]), usize>
    ensures { seen (λ x. (x.0, x.1.now)) result ≡ reading (flag_value flag family) bytes.now }
{
    match family {
        None => Ok((Item::Op(Op::FlagZero { flag }), bytes)),
        Some(family) => {
            let (w, rest) = width(bytes)?;
            flag_operands(rest, has_two(family), flag, family, w)
        }
    }
}

fn flag_operands(
    bytes: &[u8],
    two: bool,
    flag: Flag,
    family: Family,
    w: Width,
) -> Result<(Item, &[u8]), usize>
    ensures { seen (λ x. (x.0, x.1.now)) result ≡ reading (flag_operands two flag family w) bytes.now }
{
    if two {
        let (a, rest) = temp(bytes, b" ")?;
        let (b, rest) = temp(rest, b"\n")?;
        let b = Some(b);
        Ok((
            Item::Op(Op::FlagOf {
                flag,
                family,
                w,
                a,
                b,
            }),
            rest,
        ))
    } else {
        let (a, rest) = temp(bytes, b"\n")?;
        let b = None;
        Ok((
            Item::Op(Op::FlagOf {
                flag,
                family,
                w,
                a,
                b,
            }),
            rest,
        ))
    }
}

/// `cond t c`.
fn condition(bytes: &[u8]) -> Result<(Item, &[u8]), usize>
    ensures { seen (λ x. (x.0, x.1.now)) result ≡ reading cond_row bytes.now }
{
    let (t, rest) = temp(bytes, b" ")?;
    let (c, rest) = cond(rest, b"\n")?;
    Ok((Item::Op(Op::Cond { t, c }), rest))
}

/// `pick.W t c a b`.
fn pick(bytes: &[u8]) -> Result<(Item, &[u8]), usize>
    ensures { seen (λ x. (x.0, x.1.now)) result ≡ reading pick_row bytes.now }
{
    let (w, rest) = width(bytes)?;
    let (t, rest) = temp(rest, b" ")?;
    let (c, rest) = temp(rest, b" ")?;
    let (a, rest) = temp(rest, b" ")?;
    let (b, rest) = temp(rest, b"\n")?;
    Ok((Item::Op(Op::Pick { w, t, c, a, b }), rest))
}

/// `zext.V.W t a`.
fn zext_line(bytes: &[u8]) -> Result<(Item, &[u8]), usize>
    ensures { seen (λ x. (x.0, x.1.now)) result ≡ reading zext_row bytes.now }
{
    let ((from, w), rest) = zext(bytes)?;
    let (t, rest) = temp(rest, b" ")?;
    let (a, rest) = temp(rest, b"\n")?;
    Ok((Item::Op(Op::Zext { from, w, t, a }), rest))
}

/// `sext.V.W t a`.
fn sext_line(bytes: &[u8]) -> Result<(Item, &[u8]), usize>
    ensures { seen (λ x. (x.0, x.1.now)) result ≡ reading sext_row bytes.now }
{
    let ((from, w), rest) = sext(bytes)?;
    let (t, rest) = temp(rest, b" ")?;
    let (a, rest) = temp(rest, b"\n")?;
    Ok((Item::Op(Op::Sext { from, w, t, a }), rest))
}

/// `cut.V.W t a`.
fn cut_line(bytes: &[u8]) -> Result<(Item, &[u8]), usize>
    ensures { seen (λ x. (x.0, x.1.now)) result ≡ reading cut_row bytes.now }
{
    let ((from, w), rest) = cut(bytes)?;
    let (t, rest) = temp(rest, b" ")?;
    let (a, rest) = temp(rest, b"\n")?;
    Ok((Item::Op(Op::Cut { from, w, t, a }), rest))
}

/// `load.W t a`.
fn load(bytes: &[u8]) -> Result<(Item, &[u8]), usize>
    ensures { seen (λ x. (x.0, x.1.now)) result ≡ reading load_row bytes.now }
{
    let (w, rest) = width(bytes)?;
    let (t, rest) = temp(rest, b" ")?;
    let (a, rest) = temp(rest, b"\n")?;
    Ok((Item::Part(PartEnd::Load { w, t, a }), rest))
}

/// `store.W a t`.
fn store(bytes: &[u8]) -> Result<(Item, &[u8]), usize>
    ensures { seen (λ x. (x.0, x.1.now)) result ≡ reading store_row bytes.now }
{
    let (w, rest) = width(bytes)?;
    let (a, rest) = temp(rest, b" ")?;
    let (t, rest) = temp(rest, b"\n")?;
    Ok((Item::Part(PartEnd::Store { w, a, t }), rest))
}

/// `storego.64 a t X`.
fn store_go(bytes: &[u8]) -> Result<(Item, &[u8]), usize>
    ensures { seen (λ x. (x.0, x.1.now)) result ≡ reading storego_row bytes.now }
{
    let (a, rest) = temp(bytes, b" ")?;
    let (t, rest) = temp(rest, b" ")?;
    let (front, rest) = target_front(rest)?;
    match front {
        None => {
            let (n, rest) = digits(rest, u64::MAX, b'\n')?;
            let to = Target::Place(n);
            Ok((Item::Part(PartEnd::StoreGo { a, t, to }), rest))
        }
        Some(x) => {
            let to = Target::Temp(x);
            Ok((Item::Part(PartEnd::StoreGo { a, t, to }), rest))
        }
    }
}

/// `locked.K.W t a s` and `locked.cmpxchg.W t a c s`.
fn locked(bytes: &[u8]) -> Result<(Item, &[u8]), usize>
    ensures { seen (λ x. (x.0, x.1.now)) result ≡ reading locked_row bytes.now }
{
    let (kind, rest) = lock_op(bytes)?;
    locked_operands(rest, kind)
}

fn locked_operands(bytes: &[u8], kind: Option<LockOp>) -> Result<(Item, &[u8]), usize>
    ensures { seen (λ x. (x.0, x.1.now)) result ≡ reading (locked_operands kind) bytes.now }
{
    match kind {
        None => {
            let (w, rest) = width(bytes)?;
            let (t, rest) = temp(rest, b" ")?;
            let (a, rest) = temp(rest, b" ")?;
            let (c, rest) = temp(rest, b" ")?;
            let (s, rest) = temp(rest, b"\n")?;
            Ok((Item::Part(PartEnd::LockedCmpxchg { w, t, a, c, s }), rest))
        }
        Some(kind) => {
            let (w, rest) = width(bytes)?;
            let (t, rest) = temp(rest, b" ")?;
            let (a, rest) = temp(rest, b" ")?;
            let (s, rest) = temp(rest, b"\n")?;
            Ok((Item::Part(PartEnd::Locked { kind, w, t, a, s }), rest))
        }
    }
}

/// `divide.u.W t` and `divide.s.W t`.
fn divide(bytes: &[u8]) -> Result<(Item, &[u8]), usize>
    ensures { seen (λ x. (x.0, x.1.now)) result ≡ reading divide_row bytes.now }
{
    let (signed, rest) = sign(bytes)?;
    let (w, rest) = width(rest)?;
    let (t, rest) = temp(rest, b"\n")?;
    Ok((Item::Part(PartEnd::Divide { signed, w, t }), rest))
}

/// `go X`.
fn go(bytes: &[u8]) -> Result<(Item, &[u8]), usize>
    ensures { seen (λ x. (x.0, x.1.now)) result ≡ reading go_row bytes.now }
{
    let (front, rest) = target_front(bytes)?;
    match front {
        None => {
            let (n, rest) = digits(rest, u64::MAX, b'\n')?;
            let to = Target::Place(n);
            Ok((Item::Part(PartEnd::Go { to }), rest))
        }
        Some(x) => {
            let to = Target::Temp(x);
            Ok((Item::Part(PartEnd::Go { to }), rest))
        }
    }
}

/// `branch c A B`.
fn branch(bytes: &[u8]) -> Result<(Item, &[u8]), usize>
    ensures { seen (λ x. (x.0, x.1.now)) result ≡ reading branch_row bytes.now }
{
    let (c, rest) = cond(bytes, b" ")?;
    let (yes, rest) = number(rest, u64::MAX, b' ')?;
    let (no, rest) = number(rest, u64::MAX, b'\n')?;
    Ok((Item::Part(PartEnd::Branch { c, yes, no }), rest))
}

/// What follows the first word of a line.
fn line_of(bytes: &[u8], head: Head) -> Result<(Item, &[u8]), usize>
    ensures { seen (λ x. (x.0, x.1.now)) result ≡ reading (head_row head) bytes.now }
{
    match head {
        Head::Get => get(bytes),
        Head::Put => put(bytes),
        Head::Const => constant(bytes),
        Head::Ea => address(bytes),
        Head::Calc => calc(bytes),
        Head::Flag => flag_line(bytes),
        Head::Cond => condition(bytes),
        Head::Pick => pick(bytes),
        Head::Zext => zext_line(bytes),
        Head::Sext => sext_line(bytes),
        Head::Cut => cut_line(bytes),
        Head::Tick => Ok((Item::Part(PartEnd::Tick), bytes)),
        Head::Load => load(bytes),
        Head::Store => store(bytes),
        Head::StoreGo => store_go(bytes),
        Head::Fence => Ok((Item::Part(PartEnd::Fence), bytes)),
        Head::Locked => locked(bytes),
        Head::Divide => divide(bytes),
        Head::Go => go(bytes),
        Head::Branch => branch(bytes),
        Head::BadCode => Ok((Item::Part(PartEnd::BadCode), bytes)),
        Head::End => Ok((Item::End, bytes)),
    }
}

/// A line of a part.
pub fn line(bytes: &[u8]) -> Result<(Item, &[u8]), usize>
    ensures { seen (λ x. (x.0, x.1.now)) result ≡ reading (line_row false) bytes.now }
{
    let (first, rest) = head(bytes)?;
    line_of(rest, first)
}

/// A line of a part, or the block's end.
pub fn line_or_end(bytes: &[u8]) -> Result<(Item, &[u8]), usize>
    ensures { seen (λ x. (x.0, x.1.now)) result ≡ reading (line_row true) bytes.now }
{
    let (first, rest) = head_or_end(bytes)?;
    line_of(rest, first)
}
