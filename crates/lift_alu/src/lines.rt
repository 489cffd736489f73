//! The lines that lifted instructions are made of, each added to those before it.
ghost use Rattle.std.specs.Prelude.{◌≡◌, ◌++◌, ◌∷◌, [], IfOk};
ghost use Rattle.lift_table.specs.LiftLines.{ir_width, base_register, number_in, address_line, addressed, reads, loads, puts, end_at, part, alone, given_at, flag_lines, zero_lines, all_five, all_but_carry, overflow_and_carry, cleared};

use crate::words::{ir_width, target};
use ir_syntax::{Family, Flag, Op, Part, PartEnd, Seq};
use std::alloc::{AllocError, Global};
use x86_forms::{Base, Mem, Operand, Width};

fn base_register(base: Base) -> Option<u8>
    ensures { result ≡ base_register base }
{
    match base {
        Base::Reg(r) => Some(r),
        Base::None | Base::Rip => None,
    }
}

fn number_in(next: u64, base: Base, disp: i32) -> u64
    ensures { result ≡ number_in next base disp }
{
    match base {
        Base::Rip => target(next, disp),
        Base::None | Base::Reg(_) => (disp as i64).cast_unsigned(),
    }
}

/// Adds a line.
pub fn push_line(ops: &mut Vec<Op>, line: Op) -> Result<(), AllocError>
    ensures { IfOk result (λ _. ops.new.items ≡ ops.old.items ++ line ∷ []) }
{
    ops.push(line)?;
    Ok(())
}

/// Adds a part.
pub fn push_part(parts: &mut Vec<Part>, part: Part) -> Result<(), AllocError>
    ensures { IfOk result (λ _. parts.new.items ≡ parts.old.items ++ part ∷ []) }
{
    parts.push(part)?;
    Ok(())
}

/// The line that makes the address of an operand in memory in temporary 0, where `next` is the address
/// of the next instruction.
pub fn address_line(next: u64, mem: Mem) -> Op
    ensures { result ≡ address_line next mem }
{
    Op::Ea {
        t: 0,
        base: base_register(mem.base),
        index: mem.index,
        scale: mem.scale,
        n: number_in(next, mem.base, mem.disp),
    }
}

/// Adds the line that makes the address of an operand, if it is in memory.
pub fn push_address(ops: &mut Vec<Op>, next: u64, operand: Operand) -> Result<(), AllocError>
    ensures { IfOk result (λ _. ops.new.items ≡ ops.old.items ++ addressed next operand) }
{
    match operand {
        Operand::Mem(mem) => push_line(ops, address_line(next, mem)),
        Operand::Reg(_) | Operand::High(_) | Operand::Imm(_) => Ok(()),
    }
}

/// Adds the line that reads an operand to temporary `t`; one in memory was loaded to it before.
pub fn push_read(ops: &mut Vec<Op>, w: Width, operand: Operand, t: u8) -> Result<(), AllocError>
    ensures { IfOk result (λ _. ops.new.items ≡ ops.old.items ++ reads w operand t) }
{
    match operand {
        Operand::Reg(r) => push_line(
            ops,
            Op::Get {
                w: ir_width(w),
                t,
                r,
            },
        ),
        Operand::High(r) => push_line(ops, Op::GetHigh { t, r }),
        Operand::Imm(n) => push_line(
            ops,
            Op::Const {
                w: ir_width(w),
                t,
                n,
            },
        ),
        Operand::Mem(_) => Ok(()),
    }
}

/// Adds the part that loads an operand to temporary `t`, if it is in memory.
pub fn push_load(
    parts: &mut Vec<Part>,
    alloc: Global,
    next: u64,
    w: Width,
    operand: Operand,
    t: u8,
) -> Result<(), AllocError>
    ensures { IfOk result (λ _. parts.new.items ≡ parts.old.items ++ loads next w operand t) }
{
    match operand {
        Operand::Mem(mem) => {
            let ops = vec![in alloc; address_line(next, mem)]?;
            push_part(
                parts,
                ended(
                    ops,
                    PartEnd::Load {
                        w: ir_width(w),
                        t,
                        a: 0,
                    },
                ),
            )
        }
        Operand::Reg(_) | Operand::High(_) | Operand::Imm(_) => Ok(()),
    }
}

/// Adds the line that writes temporary `t` to a register or a part of one.
pub fn push_put(ops: &mut Vec<Op>, w: Width, operand: Operand, t: u8) -> Result<(), AllocError>
    ensures { IfOk result (λ _. ops.new.items ≡ ops.old.items ++ puts w operand t) }
{
    match operand {
        Operand::Reg(r) => push_line(
            ops,
            Op::Put {
                w: ir_width(w),
                r,
                t,
            },
        ),
        Operand::High(r) => push_line(ops, Op::PutHigh { r, t }),
        Operand::Mem(_) | Operand::Imm(_) => Ok(()),
    }
}

/// The end of a part whose result in temporary `t` goes to an operand: a store where that is memory.
pub fn end_at(w: Width, operand: Operand, t: u8) -> PartEnd
    ensures { result ≡ end_at w operand t }
{
    match operand {
        Operand::Mem(_) => PartEnd::Store {
            w: ir_width(w),
            a: 0,
            t,
        },
        Operand::Reg(_) | Operand::High(_) | Operand::Imm(_) => PartEnd::Tick,
    }
}

/// A part of these lines and this end.
pub fn ended(ops: Vec<Op>, end: PartEnd) -> Part
    ensures { result ≡ part ops.items end }
{
    Part {
        ops: Seq::from_vec(ops),
        end,
    }
}

/// The part of these lines, after which temporary `t` goes to an operand.
pub fn given(ops: Vec<Op>, w: Width, operand: Operand, t: u8) -> Result<Part, AllocError>
    ensures { IfOk result (λ p. p ∷ [] ≡ given_at ops.items w operand t) }
{
    let mut all = ops;
    push_put(&mut all, w, operand, t)?;
    Ok(ended(all, end_at(w, operand, t)))
}

/// What a family computes on: two temporaries, or one.
#[derive(Clone, Copy, Debug, PartialEq, Eq)]
pub struct Source {
    pub family: Family,
    pub w: Width,
    pub a: u8,
    pub b: Option<u8>,
}

impl Source {
    /// The line that makes the result in temporary `t`.
    pub fn calc(self, t: u8) -> Op
        ensures { result ≡ Op.Calc self.family (ir_width self.w) t self.a self.b }
    {
        Op::Calc {
            family: self.family,
            w: ir_width(self.w),
            t,
            a: self.a,
            b: self.b,
        }
    }

    fn flag(self, flag: Flag) -> Op
        ensures { result ≡ Op.FlagOf flag self.family (ir_width self.w) self.a self.b }
    {
        Op::FlagOf {
            flag,
            family: self.family,
            w: ir_width(self.w),
            a: self.a,
            b: self.b,
        }
    }

    /// Adds the lines of all flags but the carry flag.
    pub fn push_all_but_carry(self, ops: &mut Vec<Op>) -> Result<(), AllocError>
        ensures { IfOk result (λ _. ops.new.items ≡ ops.old.items ++ flag_lines all_but_carry self.family self.w self.a self.b) }
    {
        push_line(ops, self.flag(Flag::Pf))?;
        push_line(ops, self.flag(Flag::Zf))?;
        push_line(ops, self.flag(Flag::Sf))?;
        push_line(ops, self.flag(Flag::Of))
    }

    /// Adds the lines of all five flags, the carry flag last.
    pub fn push_all_five(self, ops: &mut Vec<Op>) -> Result<(), AllocError>
        ensures { IfOk result (λ _. ops.new.items ≡ ops.old.items ++ flag_lines all_five self.family self.w self.a self.b) }
    {
        self.push_all_but_carry(ops)?;
        let last = self.flag(Flag::Cf);
        push_line(ops, last)
    }

    /// Adds the lines of the overflow flag and the carry flag.
    pub fn push_overflow_and_carry(self, ops: &mut Vec<Op>) -> Result<(), AllocError>
        ensures { IfOk result (λ _. ops.new.items ≡ ops.old.items ++ flag_lines overflow_and_carry self.family self.w self.a self.b) }
    {
        push_line(ops, self.flag(Flag::Of))?;
        push_line(ops, self.flag(Flag::Cf))
    }
}

fn zero(flag: Flag) -> Op
    ensures { result ≡ Op.FlagZero flag }
{
    Op::FlagZero { flag }
}

/// Adds the lines that clear the parity, zero and sign flags.
pub fn push_cleared(ops: &mut Vec<Op>) -> Result<(), AllocError>
    ensures { IfOk result (λ _. ops.new.items ≡ ops.old.items ++ zero_lines cleared) }
{
    push_line(ops, zero(Flag::Pf))?;
    push_line(ops, zero(Flag::Zf))?;
    push_line(ops, zero(Flag::Sf))
}

/// Adds the lines that clear all five flags.
pub fn push_zero_flags(ops: &mut Vec<Op>) -> Result<(), AllocError>
    ensures { IfOk result (λ _. ops.new.items ≡ ops.old.items ++ zero_lines all_five) }
{
    push_cleared(ops)?;
    push_line(ops, zero(Flag::Of))?;
    push_line(ops, zero(Flag::Cf))
}
