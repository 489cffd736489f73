//! A plain, slow program that tells whether a journal is gated.

ghost use Rattle.std.specs.Prelude.{◌≡◌, ◌<◌, ◌≤◌, ◌^◌, ◌↔◌, ℕ, true, None, IfErr, IfOk, IsTrue};
ghost use Rattle.machine_model.specs.Gated.{advance, begin, IsGated};
ghost use Rattle.machine_plain.specs.Plain.{CanServe, FaultsAtStart, FaultsIn, IsFull};
ghost use Rattle.machine_plain.specs.PlainGates.{led_to};
ghost use Rattle.machine_model.specs.State.{is_live};
ghost use Rattle.machine_model.specs.Step.{slot_in};

use crate::gate::PlainGate;
use crate::machine::{PlainFault, PlainMachine, slot_in};
use machine_model::Entry;
use machine_model::case::Case;
use std::alloc::Global;
use std::marker::Model;

/// The machine and the gate side by side.
#[derive(Drop)]
pub struct PlainWalk {
    pub machine: PlainMachine,
    pub gate: PlainGate,
}

impl Model for PlainWalk {
    ghost use Rattle.std.specs.Prelude.{refl};
    ghost use Rattle.std.specs.Coded.{code_by, coded×};
    ghost use Rattle.machine_plain.specs.contracts.gate.PlainGate as gate_row;
    ghost use Rattle.machine_plain.specs.contracts.machine.PlainMachine as machine_row;
    ghost use Rattle.machine_model.specs.Gated.{Both, Gate};
    ghost use Rattle.machine_model.specs.State.{Machine};

    ghost Value = { Both };

    ghost coded = { code_by (Machine × Gate) (coded× machine_row.the_row.coded gate_row.the_row.coded) (λ b. (b.machine, b.gate)) (λ p. record { machine = p.0; gate = p.1 }) (λ _. refl) };

    ghost view = { λ w. record { machine = w.machine; gate = w.gate } };
}

impl PlainWalk {
    /// Before the first entry. `Lay` comes where the image and the arguments can't be laid out.
    #[tactic(auto, unfolding(machine_model::specs::Gated::begin))]
    pub fn start(alloc: Global, case: &Case) -> Result<PlainWalk, PlainFault>
        ensures walk { IfOk result (λ w. w ≡ begin case.now) }
        ensures fault { IfErr result (FaultsAtStart case.now) }
    {
        let machine = PlainMachine::start(alloc, case)?;
        let gate = PlainGate::start(alloc, case)?;
        Ok(PlainWalk { machine, gate })
    }

    /// Whether an entry is a step and may come, but for growth; goes over it. `Crowded`: 64 writes of its thread wait.
    #[tactic(auto, using(crate::proofs::GatedPlain::advanced, crate::proofs::GatedPlain::no_step))]
    pub fn advance(&mut self, alloc: Global, case: &Case, entry: Entry) -> Result<bool, PlainFault>
        requires limit { case.now.limit < 2 ^ 63 }
        requires serves { self.old.machine.ending ≡ None → (t : ℕ) → is_live self.old.machine t ≡ true → CanServe self.old.machine t }
        ensures advanced { IfOk result (λ b. led_to b self.new ≡ advance case.now self.old entry) }
        ensures fault { IfErr result (IsFull self.old.machine (slot_in entry)) }
    {
        let before = self.machine.cpu(slot_in(entry));
        if !self.machine.step(alloc, case, entry)? {
            return Ok(false);
        }
        let after = self.machine.cpu(slot_in(entry));
        Ok(self.gate.pass(alloc, case.image(), entry, before, after)?)
    }
}

/// Whether a journal is gated: played from the start, it runs only what is grown, and grows only what may be grown.
///
/// The faults are those of `play_plain`: `Lay` where the image and the arguments can't be laid out, `Crowded` only where a
/// thread has 64 waiting writes or more on the way, `Memory` where memory ran out. The time grows with the square of a
/// reach, which is computed at each growth.
#[tactic(auto, using(crate::proofs::GatedPlain::gated_nothing, crate::proofs::GatedPlain::gated_next, crate::proofs::GatedPlain::not_allowed, crate::proofs::GatedPlain::not_advanced, crate::proofs::GatedPlain::gated_all, crate::proofs::GatedPlain::gated_fault, crate::proofs::PlainPlay::fault_at_start, crate::proofs::GatedPlain::gated_serves))]
pub fn gated_plain(alloc: Global, case: &Case, journal: &[Entry]) -> Result<bool, PlainFault>
    requires { case.now.limit ≤ 2 ^ 27 }
    ensures gated { IfOk result (λ b. IsTrue b ↔ IsGated case.now journal.now) }
    ensures fault { IfErr result (FaultsIn case.now journal.now) }
{
    let mut walk = PlainWalk::start(alloc, case)?;
    for entry in journal {
        if !walk.gate.allows(alloc, case.image(), *entry)? {
            return Ok(false);
        }
        if !walk.advance(alloc, case, *entry)? {
            return Ok(false);
        }
    }
    Ok(true)
}
