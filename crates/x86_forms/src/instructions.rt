ghost use Rattle.std.specs.Prelude.{◌≡◌};

use crate::conditions::Cond;
use crate::operands::{Mem, Operand, Width};

/// An operation on two operands: its result goes to the first one, but CMP and TEST set flags alone.
#[derive(Clone, Copy, Debug, PartialEq, Eq)]
pub enum AluOp {
    Add,
    Or,
    Adc,
    Sbb,
    And,
    Sub,
    Xor,
    Cmp,
    Test,
}

/// An operation on one operand.
#[derive(Clone, Copy, Debug, PartialEq, Eq)]
pub enum OneOp {
    Inc,
    Dec,
    Not,
    Neg,
}

/// A shift or a rotation.
#[derive(Clone, Copy, Debug, PartialEq, Eq)]
pub enum ShiftOp {
    Shl,
    Shr,
    Sar,
    Rol,
    Ror,
}

/// An instruction. Registers are numbers below 16, and `w` is the width of its operands.
#[derive(Clone, Copy, Debug, PartialEq, Eq)]
pub enum Instr {
    /// ADD to CMP, and TEST.
    Alu {
        op: AluOp,
        w: Width,
        dst: Operand,
        src: Operand,
    },
    /// MOV.
    Mov {
        w: Width,
        dst: Operand,
        src: Operand,
    },
    /// MOVZX: `src` is read at the width `from`.
    Zx {
        from: Width,
        w: Width,
        dst: u8,
        src: Operand,
    },
    /// MOVSX and MOVSXD: `src` is read at the width `from`.
    Sx {
        from: Width,
        w: Width,
        dst: u8,
        src: Operand,
    },
    /// LEA.
    Lea {
        w: Width,
        dst: u8,
        mem: Mem,
    },
    /// PUSH of 64 bits.
    Push {
        src: Operand,
    },
    /// POP of 64 bits.
    Pop {
        dst: u8,
    },
    /// INC, DEC, NOT and NEG.
    One {
        op: OneOp,
        w: Width,
        dst: Operand,
    },
    /// MUL, and IMUL with one operand.
    Mul {
        signed: bool,
        w: Width,
        src: Operand,
    },
    /// IMUL with two operands, where `a` is the destination, and with three, where `b` is a number.
    Imul {
        w: Width,
        dst: u8,
        a: Operand,
        b: Operand,
    },
    /// DIV and IDIV.
    Div {
        signed: bool,
        w: Width,
        src: Operand,
    },
    /// SHL, SHR, SAR, ROL and ROR, by a number or, where `count` is `None`, by cl.
    Shift {
        op: ShiftOp,
        w: Width,
        dst: Operand,
        count: Option<u8>,
    },
    /// CWDE and CDQE: rax is widened from half of `w`.
    Widen {
        w: Width,
    },
    /// CDQ and CQO: rdx is filled with the sign of rax.
    Spread {
        w: Width,
    },
    /// XCHG.
    Xchg {
        w: Width,
        a: Operand,
        b: Operand,
    },
    /// SETcc of 8 bits.
    Set {
        cc: Cond,
        dst: Operand,
    },
    /// CMOVcc.
    Cmov {
        cc: Cond,
        w: Width,
        dst: u8,
        src: Operand,
    },
    /// Jcc, to `rel` bytes after the next instruction.
    Jcc {
        cc: Cond,
        rel: i32,
    },
    /// JMP, to `rel` bytes after the next instruction.
    Jmp {
        rel: i32,
    },
    /// JMP to the address in `src`.
    JmpTo {
        src: Operand,
    },
    /// CALL, to `rel` bytes after the next instruction.
    Call {
        rel: i32,
    },
    /// CALL to the address in `src`.
    CallTo {
        src: Operand,
    },
    /// RET, which takes `extra` more bytes from the stack.
    Ret {
        extra: u16,
    },
    Leave,
    /// NOP, which touches no memory even where its spelling names some.
    Nop,
    Pause,
    /// ENDBR64.
    Endbr,
    Mfence,
    /// LOCK ADD, OR, AND, SUB and XOR.
    LockAlu {
        op: AluOp,
        w: Width,
        mem: Mem,
        src: Operand,
    },
    /// LOCK INC and DEC.
    LockOne {
        op: OneOp,
        w: Width,
        mem: Mem,
    },
    /// LOCK XADD.
    Xadd {
        w: Width,
        mem: Mem,
        reg: Operand,
    },
    /// LOCK CMPXCHG.
    Cmpxchg {
        w: Width,
        mem: Mem,
        reg: Operand,
    },
}

/// What an instruction does beside registers and flags.
#[derive(Clone, Copy, Debug, PartialEq, Eq)]
pub enum Group {
    /// It touches no memory and goes on at the next instruction.
    Private,
    /// It reads or writes memory, or orders accesses to it, and goes on at the next instruction.
    Memory,
    /// It says itself where to go on: a jump, a call or a return.
    Transfer,
}

impl Instr {
    ghost use Rattle.x86_forms.specs.Groups.{is_transfer, touches_memory, group_of};

    /// Whether the instruction is a jump, a call or a return.
    pub fn is_transfer(&self) -> bool
        ensures { result ≡ is_transfer self.now }
    {
        matches!(
            self,
            Instr::Jcc { .. }
                | Instr::Jmp { .. }
                | Instr::JmpTo { .. }
                | Instr::Call { .. }
                | Instr::CallTo { .. }
                | Instr::Ret { .. }
        )
    }

    /// Whether the instruction reads or writes memory, or orders accesses to it: an operand of it is
    /// in memory, or it uses the stack, or it is locked, or it is MFENCE.
    pub fn touches_memory(&self) -> bool
        ensures { result ≡ touches_memory self.now }
    {
        match *self {
            Instr::Alu { dst, src, .. } | Instr::Mov { dst, src, .. } => dst.is_memory()
                || src.is_memory(),
            Instr::Xchg { a, b, .. } | Instr::Imul { a, b, .. } => a.is_memory() || b.is_memory(),
            Instr::Zx { src, .. }
            | Instr::Sx { src, .. }
            | Instr::Mul { src, .. }
            | Instr::Div { src, .. }
            | Instr::Cmov { src, .. }
            | Instr::JmpTo { src } => src.is_memory(),
            Instr::One { dst, .. } | Instr::Shift { dst, .. } | Instr::Set { dst, .. } =>
                dst.is_memory(),
            Instr::Push { .. }
            | Instr::Pop { .. }
            | Instr::Leave
            | Instr::Call { .. }
            | Instr::CallTo { .. }
            | Instr::Ret { .. }
            | Instr::Mfence
            | Instr::LockAlu { .. }
            | Instr::LockOne { .. }
            | Instr::Xadd { .. }
            | Instr::Cmpxchg { .. } => true,
            Instr::Lea { .. }
            | Instr::Widen { .. }
            | Instr::Spread { .. }
            | Instr::Jcc { .. }
            | Instr::Jmp { .. }
            | Instr::Nop
            | Instr::Pause
            | Instr::Endbr => false,
        }
    }

    /// Which of the three groups the instruction belongs to.
    pub fn group(&self) -> Group
        ensures { result ≡ group_of self.now }
    {
        if self.is_transfer() {
            Group::Transfer
        } else if self.touches_memory() {
            Group::Memory
        } else {
            Group::Private
        }
    }
}
