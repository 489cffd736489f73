//! What the library answers.

use callbacks::Frame;

/// How the thread goes on after its request was carried out.
#[derive(Clone, Copy, Debug, PartialEq, Eq)]
pub enum Called {
    /// It goes on at `rip` with these registers. Where `popped`, its innermost search or routine is over.
    Back {
        rax: u64,
        rsp: u64,
        rip: u64,
        popped: bool,
    },
    /// A function of the guest runs and returns to `CALL_DOOR`: rsp is 16 below that of the frame, and rip the frame's
    /// function. Of a search it is the comparator, on the search's key and the element at `place`: rdi is the key, and rsi
    /// the place. Of `pthread_once` it is the routine at `place`, and rdi and rsi stay as they are. The frame is the
    /// thread's innermost: a new one after a call, and in place of the one before after a return of the comparator.
    Probe {
        frame: Frame,
        place: u64,
    },
    /// It stays at its call, with all registers as they were: it waits from now on, at a condition variable or a barrier,
    /// and asks again.
    Stay,
    /// The thread ended, or the whole run did.
    Over,
}

/// Why a step can't be made, and the run ends.
#[derive(Clone, Copy, Debug, PartialEq, Eq)]
pub enum BadKind {
    /// No instruction is spelled at rip in bytes that can be run.
    Code,
    /// The byte at this address is the first of an access that lacks a right.
    Access(u64),
    /// A division by 0, or one whose quotient doesn't fit.
    Divide,
    /// A call of `bsearch` or `pthread_once` with 16 of them under way.
    Depth,
    /// A return to an address at which nothing waits for one.
    Door,
}

/// What comes of a request.
#[derive(Clone, Copy, Debug, PartialEq, Eq)]
pub enum Stepped {
    /// It was carried out.
    Done(Called),
    /// It can't be carried out before another thread goes on.
    Waits,
    /// The run ends here.
    Bad(BadKind),
}
