//! Plays a journal.

ghost use Rattle.std.specs.Prelude.{◌≡◌, ◌≤◌, ◌^◌, IfErr, IfOk};
ghost use Rattle.machine_plain.specs.Plain.{FaultsIn};
ghost use Rattle.machine_model.specs.Play.{play};

use crate::machine::{PlainFault, PlainMachine};
use machine_model::Entry;
use machine_model::case::Case;
use std::alloc::Global;

/// Plays a journal from the start: the machine after it, or none where one of its entries is no step.
///
/// The faults: `Lay` where the image and the arguments can't be laid out, `Crowded` only where a thread has 64 waiting
/// writes or more on the way, `Memory` where memory ran out.
#[tactic(auto, using(crate::proofs::PlainPlay::play_nothing, crate::proofs::PlainPlay::play_next, crate::proofs::PlainPlay::play_stuck, crate::proofs::PlainPlay::play_all, crate::proofs::PlainPlay::fault_on_the_way, crate::proofs::PlainPlay::fault_at_start, crate::proofs::PlainPlay::played_serves))]
pub fn play_plain(
    alloc: Global,
    case: &Case,
    journal: &[Entry],
) -> Result<Option<PlainMachine>, PlainFault>
    requires { case.now.limit ≤ 2 ^ 27 }
    ensures played { IfOk result (λ m. m ≡ play case.now journal.now) }
    ensures fault { IfErr result (FaultsIn case.now journal.now) }
{
    let mut machine = PlainMachine::start(alloc, case)?;
    for entry in journal {
        if !machine.step(alloc, case, *entry)? {
            return Ok(None);
        }
    }
    Ok(Some(machine))
}
