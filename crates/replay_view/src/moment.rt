//! The machine and the gate side by side, and what an entry does to both.

ghost use Rattle.std.specs.Prelude.{◌≡◌, ◌<◌, ◌≤◌, ◌^◌, ℕ, true, false, List, is_some, IfOk, IfSome, IfNone, None, Some, OnOk, OnErr, ◌↔◌, IsTrue};
ghost use Rattle.x86_model.specs.declared.cpu.Cpu.{Cpu as CpuData};
ghost use Rattle.elf_image.specs.Layout.{ImageData};
ghost use Rattle.guest_map.specs.Layout.{IsAccepted};
ghost use Rattle.journal_pack.specs.Entry.{private_of, thread_of};
ghost use Rattle.machine_model.specs.CaseData.{CaseData};
ghost use Rattle.machine_model.specs.State.{Machine as Moments, is_live};
ghost use Rattle.machine_model.specs.Step.{cpu_at, slot_in, step, step_from};
ghost use Rattle.machine_model.specs.Gated.{begin, grown_by, spot_at};
ghost use Rattle.replay_view.specs.Follow.{IsTaken, MayCome};
ghost use Rattle.replay_view.specs.Gates.{gate_of, position_of, stand_of, with_grown};
ghost use Rattle.replay_view.specs.Grown.{led_to};
ghost use Rattle.replay_machine.specs.Machines.{CanServe, overfills_by};
ghost use Rattle.replay_view.specs.Moments.{IsBarred, IsBegun, IsPlaced, both_of, gated_from};
ghost use Rattle.replay_view.specs.Verdicts.{Weighs};

use crate::gate::{Gate, Position, Run, make_run, spot_last};
use crate::reached::Reached;
use machine_model::Entry;
use machine_model::case::Case;
use replay_machine::{Machine, next_want, slot_in};
use std::alloc::{AllocError, Global};
use x86_model::{Cpu, Want};

/// The machine and the gate side by side.
#[derive(Drop)]
pub(crate) struct Moment {
    machine: Machine,
    gate: Gate,
}

/// An entry that is a step: where its private steps led its thread, what that wants then, and its position before.
#[derive(Drop)]
pub(crate) struct Begun {
    run: Run,
    wanted: Want,
    spot: Position,
}

/// What an entry comes to.
#[derive(Drop)]
pub(crate) enum Verdict {
    /// It is no step.
    NoStep,
    /// It is one, and may not come or grows against the rule.
    NotGated,
    /// It may come, and finds no room.
    Crowded,
    /// It is taken: what its thread works on after the private steps and wants then, and the position that it leaves, the
    /// instruction of an event begun.
    Taken {
        cpu: Cpu,
        wanted: Want,
        spot: Position,
    },
}

// The place of a growth.
#[tactic(auto, using(crate::proofs::Moves::unless))]
fn place_grown(entry: Entry) -> Option<u64>
    ensures grown { (grown : List ℕ) → grown_by entry grown ≡ with_grown result grown }
    ensures machine { IfSome result (λ a. (c : CaseData) (m : Moments) (cpu : CpuData) → is_some (step_from c m entry cpu) ≡ true → Some m ≡ step_from c m entry cpu) }
{
    match entry {
        Entry::Grow(_, a) => Some(a),
        Entry::Ev(_, _)
        | Entry::Tick(_, _)
        | Entry::Flush(_)
        | Entry::Wait(_, _)
        | Entry::Miss(_, _, _, _)
        | Entry::Over(_, _)
        | Entry::Full(_)
        | Entry::Dead => None,
    }
}

impl Moment {
    /// Before the first entry.
    #[tactic(auto, unfolding(machine_model::specs::Gated::begin))]
    pub(crate) fn start(alloc: Global, case: &Case) -> Result<Moment, AllocError>
        requires { IsAccepted case.now.image case.now.args }
        ensures { IfOk result (λ m. both_of case.now.image m ≡ begin case.now) }
    {
        let machine = Machine::start(alloc, case)?;
        let gate = Gate::start(alloc, case)?;
        Ok(Moment { machine, gate })
    }

    /// The machine.
    pub(crate) fn machine(&self) -> &Machine
        ensures { result.now ≡ self.now.machine }
    {
        &self.machine
    }

    /// The gate.
    pub(crate) fn gate(&self) -> &Gate
        ensures { result.now ≡ self.now.gate }
    {
        &self.gate
    }

    // Where an entry leads its thread before its last step, if it is a step.
    #[tactic(auto, using(crate::proofs::Moves::not_admitted, crate::proofs::Moves::not_so_private, crate::proofs::Moves::not_standing))]
    fn begin(&self, case: &Case, entry: Entry) -> Option<Begun>
        ensures begun { IfSome result (λ x. IsBegun case.now self.now.machine entry x.run.stand.cpu x.wanted) }
        ensures gated { IfSome result (λ x. led_to x.run.gated (stand_of case.now.image x.run.stand) ≡ gated_from case.now (both_of case.now.image self.now) entry) }
        ensures spot { IfSome result (λ x. position_of case.now.image x.spot ≡ spot_at (gate_of case.now.image self.now.gate) (slot_in entry)) }
        ensures none { IfNone result (step case.now self.now.machine entry ≡ None) }
    {
        if !self.machine.admits(entry) {
            return None;
        }
        let slot = slot_in(entry);
        let spot = self.gate.spot(slot);
        let stand = spot.standing(self.machine.cpu(slot));
        let image = case.image();
        let run = make_run(image, self.gate.grown(), entry.private_steps(), stand)?;
        let wanted = next_want(image, run.cpu());
        if !self.machine.stands(case, entry, run.cpu(), wanted) {
            return None;
        }
        Some(Begun { run, wanted, spot })
    }

    // The position that a step leaves, the instruction of an event begun, if it may come.
    #[tactic(auto, using(crate::proofs::Moves::barred_by_rule))]
    fn place(
        &self,
        alloc: Global,
        case: &Case,
        reached: &mut Reached<'_>,
        entry: Entry,
        run: Run,
        spot: Position,
    ) -> Result<Option<Position>, AllocError>
        requires image { reached.old ≡ case.now.image }
        requires gated { led_to run.gated (stand_of case.now.image run.stand) ≡ gated_from case.now (both_of case.now.image self.now) entry }
        requires spot { position_of case.now.image spot ≡ spot_at (gate_of case.now.image self.now.gate) (slot_in entry) }
        ensures placed { IfOk result (λ o. IfSome o (λ x. IsPlaced case.now (both_of case.now.image self.now) entry (position_of case.now.image x))) }
        ensures barred { IfOk result (λ o. IfNone o (IsBarred case.now (both_of case.now.image self.now) entry)) }
        ensures same { reached.new ≡ reached.old }
    {
        if !run.is_gated() {
            return Ok(None);
        }
        if !self.gate.allows(alloc, reached, entry)? {
            return Ok(None);
        }
        let image = case.image();
        Ok(spot_last(image, self.gate.grown(), entry, spot, run.stand()))
    }

    /// What an entry comes to. Nothing changes.
    #[tactic(auto, using(crate::proofs::Moves::stood))]
    pub(crate) fn weigh(
        &self,
        alloc: Global,
        case: &Case,
        reached: &mut Reached<'_>,
        entry: Entry,
    ) -> Result<Verdict, AllocError>
        requires { reached.old ≡ case.now.image }
        ensures weighed { IfOk result (λ v. Weighs case.now (both_of case.now.image self.now) entry v) }
        ensures same { reached.new ≡ reached.old }
    {
        let Some(begun) = self.begin(case, entry) else {
            return Ok(Verdict::NoStep);
        };
        let Begun { run, wanted, spot } = begun;
        let cpu = run.cpu();
        let Some(spot) = self.place(alloc, case, reached, entry, run, spot)? else {
            return Ok(Verdict::NotGated);
        };
        if self.machine.overfills_by(entry, wanted) {
            return Ok(Verdict::Crowded);
        }
        Ok(Verdict::Taken { cpu, wanted, spot })
    }

    // The machine after an entry that is a step, and the place of a growth grown. Without memory nothing changes.
    fn make(&mut self, case: &Case, entry: Entry, cpu: Cpu, wanted: Want) -> Result<(), AllocError>
        requires serves { (t : ℕ) → thread_of entry ≡ Some t → CanServe self.old.machine t }
        requires going { self.old.machine.ending ≡ None }
        requires limit { case.now.limit < 2 ^ 63 }
        requires few { private_of entry ≤ 4096 }
        requires begun { IsBegun case.now self.old.machine entry cpu wanted }
        requires room { overfills_by self.old.machine entry wanted ≡ false }
        ensures machine { OnOk result (Some self.new.machine ≡ step_from case.now self.old.machine entry cpu) }
        ensures gate { OnOk result ((image : ImageData) → gate_of image self.new.gate ≡ record (gate_of image self.old.gate) { grown = grown_by entry self.old.gate.grown }) }
        ensures err { OnErr result (self.new ≡ self.old) }
    {
        match place_grown(entry) {
            Some(a) => self.gate.grow(a),
            None => self.machine.make(case, entry, cpu, wanted),
        }
    }

    /// Takes an entry that was weighed and is taken. Without memory nothing changes.
    #[tactic(auto, using(crate::proofs::Moves::going, crate::proofs::Moves::few))]
    pub(crate) fn take(
        &mut self,
        case: &Case,
        entry: Entry,
        cpu: Cpu,
        wanted: Want,
        spot: Position,
    ) -> Result<(), AllocError>
        requires serves { self.old.machine.ending ≡ None → (t : ℕ) → is_live self.old.machine t ≡ true → CanServe self.old.machine t }
        requires limit { case.now.limit < 2 ^ 63 }
        requires begun { IsBegun case.now self.old.machine entry cpu wanted }
        requires placed { IsPlaced case.now (both_of case.now.image self.old) entry (position_of case.now.image spot) }
        requires room { overfills_by self.old.machine entry wanted ≡ false }
        ensures taken { OnOk result (IsTaken case.now (both_of case.now.image self.old) entry (both_of case.now.image self.new)) }
        ensures err { OnErr result (self.new ≡ self.old) }
    {
        self.make(case, entry, cpu, wanted)?;
        let slot = slot_in(entry);
        let mid = self.machine.cpu(slot).mid;
        self.gate
            .set_spot(slot, spot.settled(case.image(), entry, mid));
        Ok(())
    }
}
