//! What a thread asks of the library.

ghost use Rattle.std.specs.Prelude.{◌≡◌};
ghost use Rattle.lib_table.specs.declared.answer.Stepped.TheVariants as stepped;
ghost use Rattle.lib_table.specs.Outcome.{low_32, returned, sync_args};

use crate::answer::{Called, Stepped};
use callbacks::Frame;
use elf_image::Function;

/// What is asked.
#[derive(Clone, Copy, Debug, PartialEq, Eq)]
pub enum Asked {
    /// A call of a function.
    Lib(Function),
    /// A thread's start function returned.
    EndDoor,
    /// A comparator that `bsearch` called, or a routine that `pthread_once` called, returned.
    CallDoor,
}

/// A request, with what it says of its thread.
#[derive(Clone, Copy, Debug)]
pub struct Ask {
    pub what: Asked,
    /// rdi, rsi, rdx, rcx and r8: the arguments of a call (System V x86-64 psABI, section 3.2.3).
    pub args: [u64; 5],
    pub rsp: u64,
    pub rax: u64,
    /// How many calls of `bsearch` and `pthread_once` the thread has under way.
    pub depth: u32,
    /// The innermost of them.
    pub top: Option<Frame>,
}

impl Ask {
    /// A call's return: to the address at rsp, which goes off the stack, with a value.
    pub(crate) fn returned(&self, back: u64, value: u64) -> Stepped
        ensures { result ≡ stepped.Done (returned self.now back value) }
    {
        Stepped::Done(Called::Back {
            rax: value,
            rsp: self.rsp.wrapping_add(8),
            rip: back,
            popped: false,
        })
    }

    /// The first three arguments.
    pub(crate) fn sync_args(&self) -> [u64; 3]
        ensures { result ≡ sync_args self.now }
    {
        let [a1, a2, a3, _, _] = self.args;
        [a1, a2, a3]
    }
}

/// The lowest 32 bits, as of an argument of type `int`.
pub(crate) fn low_32(x: u64) -> u32
    ensures { result ≡ low_32 x }
{
    (x % (1 << 32)) as u32
}
