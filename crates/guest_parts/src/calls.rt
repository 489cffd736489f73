//! A guest's calls of the library: what it asks, and how it goes on with the answer.

ghost use Rattle.std.specs.Prelude.{◌≡◌, ◌≤◌, length};
ghost use Rattle.guest_parts.specs.Calls.{FitsRegisters, place_after, regs_after, request_by};

use callbacks::Frame;
use guest_state::Virtual;
use lib_table::{Ask, Asked, Called};

/// What a thread with these registers asks of the library, with these calls of `bsearch` and `pthread_once` under way, the
/// innermost last.
pub fn request(state: &Virtual, frames: &[Frame], what: Asked) -> Ask
    requires few { length frames.now ≤ 16 }
    ensures { result ≡ request_by state.now.regs frames.now what }
{
    Ask {
        what,
        args: [
            state.regs[7],
            state.regs[6],
            state.regs[2],
            state.regs[1],
            state.regs[8],
        ],
        rsp: state.regs[4],
        rax: state.regs[0],
        depth: frames.len() as u32,
        top: frames.last().copied(),
    }
}

/// The registers take over an answer of the library: rax and rsp after a return; rsp, and of a search rdi and rsi, before a
/// function of the guest runs. All that it writes is of 64 bits.
pub fn take_answer(state: &mut Virtual, called: Called)
    ensures registers { state.new ≡ record state.old { regs = regs_after called state.old.regs } }
    ensures fits { FitsRegisters called }
{
    match called {
        Called::Back { rax, rsp, .. } => {
            state.regs[0] = rax;
            state.regs[4] = rsp;
        }
        Called::Probe { frame, place } => {
            if frame.control.is_none() {
                state.regs[7] = frame.key;
                state.regs[6] = place;
            }
            state.regs[4] = frame.rsp.wrapping_sub(16);
        }
        Called::Stay | Called::Over => {}
    }
}

/// Where a thread goes on that asked at address `a`: at its return address, at a function of the guest, or where it is.
pub fn place_after(called: Called, a: u64) -> u64
    ensures { result ≡ place_after called a }
{
    match called {
        Called::Back { rip, .. } => rip,
        Called::Probe { frame, .. } => frame.compar,
        Called::Stay | Called::Over => a,
    }
}
