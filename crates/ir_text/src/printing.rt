ghost use Rattle.std.specs.Prelude.{◌≡◌, ◌++◌, ◌∷◌, [], ◌<◌, All, IfOk, OnOk, string_bytes};
ghost use Rattle.std.specs.List.{flat_map};
ghost use Rattle.std.specs.Fmt.{decimal};
ghost use Rattle.ir_text.specs.Text.{width_name, register_name, temp_name, base_name, cast_name, target_name, hex, HasOp, HasEnd, HasPart, HasText, IsTemp, IsRegister, IsBase, IsTarget, op_text, end_text, part_text, code_text, block_text, lined, text as text_of};
ghost use Rattle.ir_text.specs.Printing.{op_onto, end_onto};

use crate::names::{
    cond_name, family_name, flag_name, lock_name, register_name, sign_name, temp_name, width_name,
};
use ir_syntax::{Block, Family, Flag, LockOp, Op, Part, PartEnd, Target, Width};
use std::alloc::{AllocError, Global};

/// A word and what ends it.
fn put(out: &mut String, word: &str, end: &str) -> Result<(), AllocError>
    ensures { OnOk result (string_bytes out.new ≡ string_bytes out.old ++ (word.now ++ end.now)) }
{
    out.push_str(word)?;
    out.push_str(end)
}

fn put_temp(out: &mut String, t: u8, end: &str) -> Result<(), AllocError>
    requires { IsTemp t }
    ensures { OnOk result (string_bytes out.new ≡ string_bytes out.old ++ (temp_name t ++ end.now)) }
{
    put(out, temp_name(t), end)
}

fn put_register(out: &mut String, r: u8, end: &str) -> Result<(), AllocError>
    requires { IsRegister r }
    ensures { OnOk result (string_bytes out.new ≡ string_bytes out.old ++ (register_name r ++ end.now)) }
{
    put(out, register_name(r), end)
}

fn put_width(out: &mut String, w: Width) -> Result<(), AllocError>
    ensures { OnOk result (string_bytes out.new ≡ string_bytes out.old ++ (width_name w ++ 32 ∷ [])) }
{
    put(out, width_name(w), " ")
}

fn put_base(out: &mut String, base: Option<u8>) -> Result<(), AllocError>
    requires { IsBase base }
    ensures { OnOk result (string_bytes out.new ≡ string_bytes out.old ++ (base_name base ++ 32 ∷ [])) }
{
    match base {
        None => out.push_str("- "),
        Some(r) => put_register(out, r, " "),
    }
}

fn put_number(out: &mut String, n: u64, end: &str) -> Result<(), AllocError>
    ensures { OnOk result (string_bytes out.new ≡ string_bytes out.old ++ (hex n ++ end.now)) }
{
    write!(out, "0x{n:x}{end}")
}

fn put_scale(out: &mut String, scale: u8) -> Result<(), AllocError>
    ensures { OnOk result (string_bytes out.new ≡ string_bytes out.old ++ (decimal scale ++ 32 ∷ [])) }
{
    write!(out, "{scale} ")
}

fn put_cast(out: &mut String, from: u8, w: Width) -> Result<(), AllocError>
    ensures { OnOk result (string_bytes out.new ≡ string_bytes out.old ++ (cast_name from w ++ 32 ∷ [])) }
{
    let to = width_name(w);
    write!(out, "{from}.{to} ")
}

fn put_target(out: &mut String, to: Target) -> Result<(), AllocError>
    requires { IsTarget to }
    ensures { OnOk result (string_bytes out.new ≡ string_bytes out.old ++ (target_name to ++ 10 ∷ [])) }
{
    match to {
        Target::Place(n) => put_number(out, n, "\n"),
        Target::Temp(t) => put_temp(out, t, "\n"),
    }
}

/// One op line.
fn put_op(out: &mut String, op: &Op) -> Result<(), AllocError>
    requires { HasOp op.now }
    ensures { OnOk result (string_bytes out.new ≡ op_onto (string_bytes out.old) op.now) }
{
    match *op {
        Op::Get { w, t, r } => {
            out.push_str("get.")?;
            put_width(out, w)?;
            put_temp(out, t, " ")?;
            put_register(out, r, "\n")
        }
        Op::GetHigh { t, r } => {
            out.push_str("get.h ")?;
            put_temp(out, t, " ")?;
            put_register(out, r, "\n")
        }
        Op::Put { w, r, t } => {
            out.push_str("put.")?;
            put_width(out, w)?;
            put_register(out, r, " ")?;
            put_temp(out, t, "\n")
        }
        Op::PutHigh { r, t } => {
            out.push_str("put.h ")?;
            put_register(out, r, " ")?;
            put_temp(out, t, "\n")
        }
        Op::Const { w, t, n } => {
            out.push_str("const.")?;
            put_width(out, w)?;
            put_temp(out, t, " ")?;
            put_number(out, n, "\n")
        }
        Op::Ea {
            t,
            base,
            index,
            scale,
            n,
        } => {
            out.push_str("ea ")?;
            put_temp(out, t, " ")?;
            put_base(out, base)?;
            put_base(out, index)?;
            put_scale(out, scale)?;
            put_number(out, n, "\n")
        }
        Op::Calc { family, w, t, a, b } => put_calc(out, family, w, t, a, b),
        Op::FlagOf {
            flag,
            family,
            w,
            a,
            b,
        } => put_flag(out, flag, family, w, a, b),
        Op::FlagZero { flag } => {
            out.push_str("flag ")?;
            put(out, flag_name(flag), " ")?;
            out.push_str("zero\n")
        }
        Op::Cond { t, c } => {
            out.push_str("cond ")?;
            put_temp(out, t, " ")?;
            put(out, cond_name(c), "\n")
        }
        Op::Pick { w, t, c, a, b } => {
            out.push_str("pick.")?;
            put_width(out, w)?;
            put_temp(out, t, " ")?;
            put_temp(out, c, " ")?;
            put_temp(out, a, " ")?;
            put_temp(out, b, "\n")
        }
        Op::Zext { from, w, t, a } => {
            out.push_str("zext.")?;
            put_cast(out, from, w)?;
            put_temp(out, t, " ")?;
            put_temp(out, a, "\n")
        }
        Op::Sext { from, w, t, a } => {
            out.push_str("sext.")?;
            put_cast(out, from, w)?;
            put_temp(out, t, " ")?;
            put_temp(out, a, "\n")
        }
        Op::Cut { from, w, t, a } => {
            out.push_str("cut.")?;
            put_cast(out, from, w)?;
            put_temp(out, t, " ")?;
            put_temp(out, a, "\n")
        }
    }
}

/// `calc`, with one operand or two.
fn put_calc(
    out: &mut String,
    family: Family,
    w: Width,
    t: u8,
    a: u8,
    b: Option<u8>,
) -> Result<(), AllocError>
    requires { HasOp (Op.Calc family w t a b) }
    ensures { OnOk result (string_bytes out.new ≡ op_onto (string_bytes out.old) (Op.Calc family w t a b)) }
{
    match b {
        Some(b) => {
            out.push_str("calc.")?;
            put(out, family_name(family), ".")?;
            put_width(out, w)?;
            put_temp(out, t, " ")?;
            put_temp(out, a, " ")?;
            put_temp(out, b, "\n")
        }
        None => {
            out.push_str("calc.")?;
            put(out, family_name(family), ".")?;
            put_width(out, w)?;
            put_temp(out, t, " ")?;
            put_temp(out, a, "\n")
        }
    }
}

/// `flag` of a family, with one operand or two.
fn put_flag(
    out: &mut String,
    flag: Flag,
    family: Family,
    w: Width,
    a: u8,
    b: Option<u8>,
) -> Result<(), AllocError>
    requires { HasOp (Op.FlagOf flag family w a b) }
    ensures { OnOk result (string_bytes out.new ≡ op_onto (string_bytes out.old) (Op.FlagOf flag family w a b)) }
{
    match b {
        Some(b) => {
            out.push_str("flag ")?;
            put(out, flag_name(flag), " ")?;
            put(out, family_name(family), ".")?;
            put_width(out, w)?;
            put_temp(out, a, " ")?;
            put_temp(out, b, "\n")
        }
        None => {
            out.push_str("flag ")?;
            put(out, flag_name(flag), " ")?;
            put(out, family_name(family), ".")?;
            put_width(out, w)?;
            put_temp(out, a, "\n")
        }
    }
}

/// One end line.
fn put_end(out: &mut String, end: PartEnd) -> Result<(), AllocError>
    requires { HasEnd end }
    ensures { OnOk result (string_bytes out.new ≡ end_onto (string_bytes out.old) end) }
{
    match end {
        PartEnd::Tick => out.push_str("tick\n"),
        PartEnd::Load { w, t, a } => {
            out.push_str("load.")?;
            put_width(out, w)?;
            put_temp(out, t, " ")?;
            put_temp(out, a, "\n")
        }
        PartEnd::Store { w, a, t } => {
            out.push_str("store.")?;
            put_width(out, w)?;
            put_temp(out, a, " ")?;
            put_temp(out, t, "\n")
        }
        PartEnd::StoreGo { a, t, to } => {
            out.push_str("storego.64 ")?;
            put_temp(out, a, " ")?;
            put_temp(out, t, " ")?;
            put_target(out, to)
        }
        PartEnd::Fence => out.push_str("fence\n"),
        PartEnd::Locked { kind, w, t, a, s } => {
            out.push_str("locked.")?;
            put(out, lock_name(kind), ".")?;
            put_width(out, w)?;
            put_temp(out, t, " ")?;
            put_temp(out, a, " ")?;
            put_temp(out, s, "\n")
        }
        PartEnd::LockedCmpxchg { w, t, a, c, s } => {
            out.push_str("locked.")?;
            out.push_str("cmpxchg.")?;
            put_width(out, w)?;
            put_temp(out, t, " ")?;
            put_temp(out, a, " ")?;
            put_temp(out, c, " ")?;
            put_temp(out, s, "\n")
        }
        PartEnd::Divide { signed, w, t } => {
            out.push_str("divide.")?;
            put(out, sign_name(signed), ".")?;
            put_width(out, w)?;
            put_temp(out, t, "\n")
        }
        PartEnd::Go { to } => {
            out.push_str("go ")?;
            put_target(out, to)
        }
        PartEnd::Branch { c, yes, no } => {
            out.push_str("branch ")?;
            put(out, cond_name(c), " ")?;
            put_number(out, yes, " ")?;
            put_number(out, no, "\n")
        }
        PartEnd::BadCode => out.push_str("bad code\n"),
    }
}

/// An op line, behind what is written.
fn push_op(out: &mut String, op: &Op) -> Result<(), AllocError>
    requires { HasOp op.now }
    ensures { OnOk result (string_bytes out.new ≡ string_bytes out.old ++ op_text op.now) }
{
    put_op(out, op)
}

/// An end line, behind what is written.
fn push_end(out: &mut String, end: PartEnd) -> Result<(), AllocError>
    requires { HasEnd end }
    ensures { OnOk result (string_bytes out.new ≡ string_bytes out.old ++ end_text end) }
{
    put_end(out, end)
}

/// Op lines, in order.
fn push_ops(out: &mut String, ops: &[Op]) -> Result<(), AllocError>
    requires { All HasOp ops.now }
    ensures { OnOk result (string_bytes out.new ≡ string_bytes out.old ++ flat_map op_text ops.now) }
{
    for op in ops {
        push_op(out, op)?;
    }
    Ok(())
}

/// The lines of a part.
fn push_part(out: &mut String, part: &Part) -> Result<(), AllocError>
    requires { HasPart part.now }
    ensures { OnOk result (string_bytes out.new ≡ string_bytes out.old ++ part_text part.now) }
{
    push_ops(out, part.ops.as_slice())?;
    push_end(out, part.end)
}

/// Parts, in order.
fn push_parts(out: &mut String, parts: &[Part]) -> Result<(), AllocError>
    requires { All HasPart parts.now }
    ensures { OnOk result (string_bytes out.new ≡ string_bytes out.old ++ flat_map part_text parts.now) }
{
    for part in parts {
        push_part(out, part)?;
    }
    Ok(())
}

/// A block's code, with its newline.
fn push_code(alloc: Global, out: &mut String, code: &[u8]) -> Result<(), AllocError>
    requires { All (λ c. c < 256) code.now }
    ensures { OnOk result (string_bytes out.new ≡ string_bytes out.old ++ lined (code_text code.now)) }
{
    if code.is_empty() {
        out.push_str("-\n")
    } else {
        let pairs = hex::encode(alloc, code)?;
        put(out, pairs.as_str(), "\n")
    }
}

/// Appends the text of a block, from its first line to its last, to what is written. The text of a list of blocks is the line
/// `ir 1` and then the blocks' own, so whoever writes a long text can write it block by block.
///
/// # Errors
///
/// Memory for the lines is wanting; then any part of them may have been appended.
pub fn push_block(alloc: Global, out: &mut String, block: &Block) -> Result<(), AllocError>
    requires { HasText block.now }
    ensures { OnOk result (string_bytes out.new ≡ string_bytes out.old ++ block_text block.now) }
{
    out.push_str("block ")?;
    put_number(out, block.at, " ")?;
    push_code(alloc, out, block.code.as_slice())?;
    push_parts(out, block.parts.as_slice())?;
    out.push_str("end\n")
}

/// The text of the blocks, in order.
pub fn print(alloc: Global, blocks: &[Block]) -> Result<String, AllocError>
    requires spelled { All HasText blocks.now }
    ensures { IfOk result (λ s. string_bytes s ≡ text_of blocks.now) }
{
    let mut out = String::from_str(alloc, "ir 1\n")?;
    for block in blocks {
        push_block(alloc, &mut out, block)?;
    }
    Ok(out)
}
