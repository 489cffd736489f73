//! `bsearch`, and the returns of its comparator and of the routine of `pthread_once`.

ghost use Rattle.std.specs.Prelude.{◌≡◌, ◌<◌, true, false, None};
ghost use Rattle.callbacks.specs.Frame.{resumed};
ghost use Rattle.lib_table.specs.Library.{LibraryData};
ghost use Rattle.lib_table.specs.Outcome.{unwritable};
ghost use Rattle.lib_table.specs.Searches.{after_routine, call_door, comparison, probe_rsp, search_for, searching, searching_on};
ghost use Rattle.lib_table.specs.Steps.{HasLeft, HasRunning, RunsRoutine, is_done, told};

use crate::answer::{BadKind, Called, Stepped};
use crate::ask::{Ask, low_32};
use crate::library::Library;
use crate::limits::MAX_FRAMES;
use crate::words::put_word;
use address_space::CALL_DOOR;
use callbacks::{Frame, Next, begin, resume};
use tso_memory::{Denied, Tso};

/// A search's next probe, or its end; or the call of a routine, which stands as a probe.
pub(crate) fn go_on(memory: &mut Tso, frame: Frame, next: Next) -> Stepped
    ensures row { (l : LibraryData) → searching l memory.old.memory frame next ≡ told result l memory.new.memory }
    ensures buffers { memory.new.buffers ≡ memory.old.buffers }
    ensures memory { is_done result ≡ false → memory.new ≡ memory.old }
    ensures done { unwritable memory.old.memory (probe_rsp frame) 8 ≡ None → is_done result ≡ true }
{
    match next {
        Next::Probe(place) => {
            if let Err(Denied(x)) = put_word(memory, frame.rsp.wrapping_sub(16), CALL_DOOR) {
                return Stepped::Bad(BadKind::Access(x));
            }
            Stepped::Done(Called::Probe { frame, place })
        }
        Next::Done(place) => Stepped::Done(Called::Back {
            rax: place,
            rsp: frame.rsp.wrapping_add(8),
            rip: frame.back,
            popped: true,
        }),
    }
}

/// `bsearch`: a search begins with its first probe.
#[tactic(auto, unfolding(crate::specs::Searches::search_for))]
pub(crate) fn search_for(memory: &mut Tso, ask: &Ask, back: u64) -> Stepped
    ensures row { (l : LibraryData) → search_for l memory.old.memory ask.now back ≡ told result l memory.new.memory }
    ensures buffers { memory.new.buffers ≡ memory.old.buffers }
    ensures memory { is_done result ≡ false → memory.new ≡ memory.old }
{
    let [key, base, count, size, compar] = ask.args;
    if count == 0 {
        return ask.returned(back, 0);
    }
    if ask.depth >= MAX_FRAMES {
        return Stepped::Bad(BadKind::Depth);
    }
    let (frame, next) = begin(key, base, count, size, compar, ask.rsp, back);
    go_on(memory, frame, next)
}

/// What a comparator answered, in the lowest 32 bits of rax.
fn comparison(ask: &Ask) -> i32
    ensures { result ≡ comparison ask.now }
{
    low_32(ask.rax).cast_signed()
}

/// A comparator returned with this answer, or a routine, whose control is done then.
#[tactic(auto, unfolding(callbacks::specs::Frame::resumed))]
fn carry_on(library: &mut Library, memory: &mut Tso, mut frame: Frame, answer: i32) -> Stepped
    requires left { frame.lo < frame.hi }
    requires running { HasRunning library.old.rooms frame.control }
    ensures row { searching_on (after_routine library.old frame.control) memory.old.memory (resumed frame answer) ≡ told result library.new memory.new.memory }
    ensures buffers { memory.new.buffers ≡ memory.old.buffers }
    ensures library { is_done result ≡ false → library.new ≡ library.old }
    ensures memory { is_done result ≡ false → memory.new ≡ memory.old }
{
    match frame.once() {
        Some(control) => {
            library.finish(control);
            Stepped::Done(Called::Back {
                rax: 0,
                rsp: frame.rsp.wrapping_add(8),
                rip: frame.back,
                popped: true,
            })
        }
        None => {
            let next = resume(&mut frame, answer);
            go_on(memory, frame, next)
        }
    }
}

/// A comparator or a routine returned.
#[tactic(auto, unfolding(crate::specs::Searches::call_door))]
pub(crate) fn call_door(library: &mut Library, memory: &mut Tso, ask: &Ask) -> Stepped
    requires left { HasLeft ask.now.top }
    requires running { RunsRoutine library.old.rooms ask.now.top }
    ensures row { call_door library.old memory.old.memory ask.now ≡ told result library.new memory.new.memory }
    ensures buffers { memory.new.buffers ≡ memory.old.buffers }
    ensures library { is_done result ≡ false → library.new ≡ library.old }
    ensures memory { is_done result ≡ false → memory.new ≡ memory.old }
{
    match ask.top {
        Some(frame) => carry_on(library, memory, frame, comparison(ask)),
        None => Stepped::Bad(BadKind::Door),
    }
}
