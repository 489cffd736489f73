use crate::cpu::Cpu;
use elf_image::Function;
use x86_forms::Width;

/// How a locked access changes the number in memory, each modulo 2^width.
#[derive(Clone, Copy, Debug, PartialEq, Eq)]
pub enum Change {
    /// The number is replaced.
    Xchg(u64),
    Add(u64),
    Sub(u64),
    And(u64),
    Or(u64),
    Xor(u64),
    /// The number becomes `new` where it is `want`, and else stays.
    Cmpxchg { want: u64, new: u64 },
}

/// An address at which no instruction stands but the end of a call that the library made.
#[derive(Clone, Copy, Debug, PartialEq, Eq)]
pub enum Door {
    /// The return address of a thread's start function.
    End,
    /// The return address of a comparator that `bsearch` called.
    Call,
}

/// Why a step can't be made.
#[derive(Clone, Copy, Debug, PartialEq, Eq)]
pub enum BadStep {
    /// No instruction is spelled at rip in bytes that can be run (Intel SDM: #UD, #PF).
    Code,
    /// A division by 0, or one whose quotient doesn't fit (Intel SDM: #DE).
    Divide,
}

/// What a thread's next step is. A `next` is what the thread's instructions work on after the step.
#[derive(Clone, Copy, Debug, PartialEq, Eq)]
pub enum Want {
    /// A step that touches no memory.
    Private(Cpu),
    /// A read of memory, whose value the instruction keeps in `mid`.
    Load {
        at: u64,
        w: Width,
    },
    /// A write to memory.
    Store {
        at: u64,
        w: Width,
        value: u64,
        next: Cpu,
    },
    /// A wait until the thread's writes are in memory.
    Fence(Cpu),
    /// A read and write of memory in one step, whose old value the instruction keeps in `mid`.
    Locked {
        at: u64,
        w: Width,
        change: Change,
    },
    /// A call of the library.
    Call(Function),
    /// The end of a call that the library made.
    Door(Door),
    /// None: the program goes wrong here.
    Bad(BadStep),
}
