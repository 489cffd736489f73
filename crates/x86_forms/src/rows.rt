//! The columns of a row of the spelling table, as data: what the opcode of a row asks of the bytes
//! round it, and what such bytes mean.

use crate::instructions::{AluOp, OneOp, ShiftOp};
use crate::operands::Width;

/// Which legacy prefixes a row takes (Intel SDM, Volume 2, 2.1.1).
#[derive(Clone, Copy)]
pub enum Prefixes {
    /// Any number of 66.
    Sized,
    /// None.
    Bare,
    /// Exactly one F0, and any number of 66 in any order.
    Locked,
    /// Any mix of 66 and 2E.
    Mixed,
    /// At most one 3E.
    Track,
    /// Exactly one F3.
    Repeated,
}

/// The prefix by which rows with one opcode are told apart: neither F0 nor F3, F0, or F3.
#[derive(Clone, Copy)]
pub enum Mark {
    Plain,
    Lock,
    Rep,
}

/// What a row asks of REX (Intel SDM, Volume 2, 2.2.1).
#[derive(Clone, Copy)]
pub enum Rex {
    /// Nothing.
    Any,
    /// That there is none.
    Absent,
    /// That its bit W is 1.
    Wide,
    /// That its bit B is 0, or that there is none.
    Low,
    /// That its bit B is 1.
    High,
}

/// How the width of a row's operands follows from 66 and REX.W.
#[derive(Clone, Copy)]
pub enum Size {
    /// 8 bits, whatever they are.
    B,
    /// 64 bits where W is 1, else 16 where a 66 stands, else 32.
    V,
    /// As `V`, but without 16: a string with 66 and without W is no spelling.
    D,
    /// 64 bits, whatever they are.
    Q,
}

/// The immediate or relative target at the end (Intel SDM, Volume 2, 3.1.1.1 and 3.1.1.3).
#[derive(Clone, Copy)]
pub enum Tail {
    Nothing,
    /// 8 bits.
    Ib,
    /// 16 bits at the width 16, else 32.
    Iz,
    /// As many bits as the width.
    Iv,
    /// 16 bits.
    Iw,
    Rel8,
    Rel32,
}

/// Which operands a row has, the destination first: rm and reg of ModRM, the register in the opcode
/// (code), al to rax (acc) and the immediate (imm).
#[derive(Clone, Copy)]
pub enum Shape {
    RmReg,
    RegRm,
    RmImm,
    AccImm,
    CodeImm,
    CodeAcc,
    Rm,
    Imm,
}

/// Which instruction a row spells.
#[derive(Clone, Copy)]
pub enum Kind {
    Alu(AluOp),
    Mov,
    /// MOVZX and MOVSX, whose rm has the width given here.
    Zx(Width),
    Sx(Width),
    Lea,
    Push,
    Pop,
    One(OneOp),
    /// MUL, and IMUL of one operand where it is signed.
    Mul(bool),
    ImulTwo,
    ImulThree,
    /// DIV, and IDIV where it is signed.
    Div(bool),
    /// A shift by the immediate byte, by 1 and by cl.
    ShiftBy(ShiftOp),
    ShiftOne(ShiftOp),
    ShiftCl(ShiftOp),
    Widen,
    Spread,
    Xchg,
    Set,
    Cmov,
    Jcc,
    Jmp,
    JmpTo,
    Call,
    CallTo,
    Ret,
    Leave,
    Nop,
    Pause,
    Endbr,
    Mfence,
    /// The locked forms, which take rm in memory alone.
    LockAlu(AluOp),
    LockOne(OneOp),
    LockXchg,
    Xadd,
    Cmpxchg,
}

/// A row of the table without its opcode: the prefixes, what is asked of REX, the width, whether
/// ModRM follows and the one byte that it may be, the immediate, the operands and the instruction.
#[derive(Clone, Copy)]
pub struct Row {
    pub prefixes: Prefixes,
    pub rex: Rex,
    pub size: Size,
    pub modrm: bool,
    pub fixed: Option<u8>,
    pub tail: Tail,
    pub shape: Shape,
    pub kind: Kind,
}
