use crate::cond::{Cond, Flag};
use crate::width::Width;

/// A family of operations: a result, flags, or both.
///
/// `Mul` is the low half of a product, `Umulh` and `Smulh` the high half of the unsigned and the
/// signed product; `Umul` and `Smul` name the flags of a multiplication.
#[derive(Clone, Copy, Debug, PartialEq, Eq, Hash)]
pub enum Family {
    Add,
    Adc,
    Sub,
    Sbb,
    And,
    Or,
    Xor,
    Shl,
    Shr,
    Sar,
    Rol,
    Ror,
    Mul,
    Umulh,
    Smulh,
    Umul,
    Smul,
    Inc,
    Dec,
    Neg,
    Not,
}

/// Where a transfer goes: an address, or the address that a temporary holds.
#[derive(Clone, Copy, Debug, PartialEq, Eq)]
pub enum Target {
    Place(u64),
    Temp(u8),
}

/// What a locked line does to memory.
#[derive(Clone, Copy, Debug, PartialEq, Eq, Hash)]
pub enum LockOp {
    Xchg,
    Add,
    Sub,
    And,
    Or,
    Xor,
}

/// A line that computes. Registers are numbers 0 to 15, in the order of their codes in
/// instructions (rax, rcx, rdx, rbx, rsp, rbp, rsi, rdi, r8 to r15); temporaries are 0 to 7.
#[derive(Clone, Copy, Debug, PartialEq, Eq)]
pub enum Op {
    /// t becomes the low w bits of register r.
    Get {
        w: Width,
        t: u8,
        r: u8,
    },
    /// t becomes bits 8 to 15 of rax, rcx, rdx or rbx.
    GetHigh {
        t: u8,
        r: u8,
    },
    /// The register is written: 32 bits clear the upper half, 8 and 16 bits keep the rest.
    Put {
        w: Width,
        r: u8,
        t: u8,
    },
    /// Bits 8 to 15 of rax, rcx, rdx or rbx are written.
    PutHigh {
        r: u8,
        t: u8,
    },
    /// t becomes n, which is below 2^w.
    Const {
        w: Width,
        t: u8,
        n: u64,
    },
    /// t becomes base + index * scale + n, modulo 2^64.
    Ea {
        t: u8,
        base: Option<u8>,
        index: Option<u8>,
        scale: u8,
        n: u64,
    },
    /// t becomes the result of the family on a, and on b where the family has two operands.
    Calc {
        family: Family,
        w: Width,
        t: u8,
        a: u8,
        b: Option<u8>,
    },
    /// The flag becomes what the family puts into it.
    FlagOf {
        flag: Flag,
        family: Family,
        w: Width,
        a: u8,
        b: Option<u8>,
    },
    /// The flag becomes 0.
    FlagZero {
        flag: Flag,
    },
    /// t becomes 1 where the condition holds, else 0.
    Cond {
        t: u8,
        c: Cond,
    },
    /// t becomes a where c is 1, else b.
    Pick {
        w: Width,
        t: u8,
        c: u8,
        a: u8,
        b: u8,
    },
    /// t becomes a, with zeros above its `from` bits.
    Zext {
        from: u8,
        w: Width,
        t: u8,
        a: u8,
    },
    /// t becomes a, with copies of its top bit above its `from` bits.
    Sext {
        from: u8,
        w: Width,
        t: u8,
        a: u8,
    },
    /// t becomes the low w bits of a, which has `from` bits.
    Cut {
        from: u8,
        w: Width,
        t: u8,
        a: u8,
    },
}

/// The line that ends a part: what the part asks for.
#[derive(Clone, Copy, Debug, PartialEq, Eq)]
pub enum PartEnd {
    /// Nothing.
    Tick,
    /// t becomes w bits of memory at the address in a.
    Load {
        w: Width,
        t: u8,
        a: u8,
    },
    /// w bits of memory at the address in a become t.
    Store {
        w: Width,
        a: u8,
        t: u8,
    },
    /// A store of 64 bits, then a transfer.
    StoreGo {
        a: u8,
        t: u8,
        to: Target,
    },
    /// A fence.
    Fence,
    /// t becomes the old value of memory, which the kind changes by s in the same step.
    Locked {
        kind: LockOp,
        w: Width,
        t: u8,
        a: u8,
        s: u8,
    },
    /// t becomes the old value of memory; memory becomes s where that value is c.
    LockedCmpxchg {
        w: Width,
        t: u8,
        a: u8,
        c: u8,
        s: u8,
    },
    /// rdx:rax is divided by t; the quotient goes to rax, the remainder to rdx.
    Divide {
        signed: bool,
        w: Width,
        t: u8,
    },
    /// A transfer.
    Go {
        to: Target,
    },
    /// A transfer to `yes` where the condition holds, else to `no`.
    Branch {
        c: Cond,
        yes: u64,
        no: u64,
    },
    /// The bytes spell no instruction.
    BadCode,
}
