ghost use Rattle.std.specs.Prelude.{◌≡◌};
ghost use Rattle.ir_meaning.specs.Does.{does, answered};
ghost use Rattle.ir_meaning.specs.Ready.{IsReady, IsReadyUnder, Fits, Answers};
ghost use Rattle.ir_syntax.specs.Typed.{Types, types_after_all, types_after_end};

use crate::end::{answer_end, run_end};
use crate::line::run_ops;
use guest_state::Virtual;
use ir_syntax::{Part, Request};

/// Runs a part of a well typed block: its op lines in order, then its end line. The answer is what
/// the end line asks for; a load or a locked line then waits for `answer`.
///
/// Each temporary that the part reads before it writes it holds a number of the width that the line
/// needs. Temporaries that fit their types before the part fit their types after it. Takes no memory.
pub fn run_part(part: &Part, state: &mut Virtual) -> Request
    requires { IsReady part.now state.old }
    ensures request { result ≡ (does part.now state.old).request }
    ensures state { state.new ≡ (does part.now state.old).state }
    ensures fits { (types : Types) → IsReadyUnder types part.now state.old → Fits (types_after_all types part.now.ops) state.new.temps }
{
    run_ops(part.ops.as_slice(), state);
    run_end(&part.end, state)
}

/// Gives a part the value that it asked for: it goes to the temporary that the end line names.
///
/// The part ends in a load or a locked line, and the value has no bit beyond that line's width.
/// Temporaries that fit their types still do, with the type that the end line writes. Takes no memory.
pub fn answer(part: &Part, state: &mut Virtual, value: u64)
    requires { Answers part.now.end value }
    ensures state { state.new ≡ answered part.now.end value state.old }
    ensures fits { (types : Types) → Fits types state.old.temps → Fits (types_after_end types part.now.end) state.new.temps }
{
    answer_end(&part.end, state, value);
}
