//! A walker over one journal.

ghost use Rattle.std.specs.Prelude.{◌≡◌, ◌<◌, ◌≤◌, ◌^◌, [], ◌∷◌, ◌++◌, List, length, IfOk, IfErr, OnOk, OnErr};
ghost use Rattle.guest_map.specs.Layout.{IsAccepted};
ghost use Rattle.journal_pack.specs.declared.entry.Entry.{Entry as EntryData};
ghost use Rattle.machine_model.specs.State.{thread_in};
ghost use Rattle.machine_model.specs.Step.{cpu_at};
ghost use Rattle.replay_view.specs.Follow.{HasTaken, TakesOne};
ghost use Rattle.replay_view.specs.Faults.{FitsStep};
ghost use Rattle.replay_view.specs.Views.{view_of};

use crate::fault::{EntryFault, StepFault};
use crate::moment::{Moment, Verdict};
use crate::reached::Reached;
use crate::view::View;
use machine_model::Entry;
use machine_model::case::Case;
use machine_model::ending::RunEnd;
use std::alloc::{AllocError, Global};
use std::marker::Model;
use x86_model::Cpu;

/// A case, and the machine after the entries that were taken, one after another from the start. Contracts see the case, the
/// machine with its gate, and how many entries were taken; `HasTaken` says which.
#[derive(Drop)]
pub struct Walker<'c> {
    case: &'c Case,
    moment: Moment,
    reached: Reached<'c>,
    taken: u64,
}

impl<'c> Model for Walker<'c> {
    ghost use Rattle.std.specs.Prelude.{◌≡◌, ℕ, refl};
    ghost use Rattle.std.specs.Coded.{code_by, coded×, coded_ℕ};
    ghost use Rattle.machine_model.specs.contracts.case.Case as case_row;
    ghost use Rattle.replay_machine.specs.contracts.machine.Machine as machine_row;
    ghost use Rattle.machine_model.specs.CaseData.{CaseData};
    ghost use Rattle.machine_model.specs.Gated.{Gate as GateData};
    ghost use Rattle.machine_model.specs.State.{Machine as MachineData};
    ghost use Rattle.replay_view.specs.Codes.{gate_code};
    ghost use Rattle.replay_view.specs.Follow.{IsWalked, WalkData};
    ghost use Rattle.replay_view.specs.Moments.{both_of};

    ghost Value = { WalkData };

    ghost coded = { code_by (CaseData × ((MachineData × GateData) × ℕ)) (coded× case_row.the_row.coded (coded× (coded× machine_row.the_row.coded gate_code) coded_ℕ)) (λ w. (w.case, ((w.both.machine, w.both.gate), w.taken))) (λ p. record { case = p.0; both = record { machine = p.1.0.0; gate = p.1.0.1 }; taken = p.1.1 }) (λ _. refl) };

    ghost view = { λ w. record { case = w.case.now; both = both_of w.case.now.image w.moment; taken = w.taken } };

    ghost invariant = { λ w. IsWalked (record { case = w.case.now; both = both_of w.case.now.image w.moment; taken = w.taken }) × (w.reached ≡ w.case.now.image) };
}

impl<'c> Walker<'c> {
    /// A walker that has taken no entry. The case's image and arguments can be laid out, and its limit of steps is at most
    /// 2^27 = 134,217,728.
    #[tactic(auto, using(crate::proofs::Walked::at_start, crate::proofs::Walked::walked_at_start))]
    pub fn make(alloc: Global, case: &'c Case) -> Result<Walker<'c>, AllocError>
        requires accepted { IsAccepted case.now.image case.now.args }
        requires limit { case.now.limit ≤ 2 ^ 27 }
        ensures case { IfOk result (λ w. w.case ≡ case.now) }
        ensures none { IfOk result (λ w. HasTaken w []) }
    {
        let moment = Moment::start(alloc, case)?;
        let reached = Reached::new(alloc, case.image())?;
        Ok(Walker {
            case,
            moment,
            reached,
            taken: 0,
        })
    }

    /// How many entries were taken.
    pub fn taken(&self) -> u64
        ensures { result ≡ self.now.taken }
    {
        self.taken
    }

    /// The steps that were made.
    pub fn steps(&self) -> u64
        ensures { result ≡ self.now.both.machine.steps }
    {
        self.moment.machine().steps()
    }

    /// How the run ended, if it did.
    pub fn ending(&self) -> Option<RunEnd>
        ensures { result ≡ self.now.both.machine.ending }
    {
        self.moment.machine().ending()
    }

    /// How many places are grown, those of the case's start among them.
    pub fn grown(&self) -> u64
        ensures { result ≡ length self.now.both.gate.grown }
    {
        self.moment.gate().grown().len()
    }

    /// The number of the thread that lives in slot `s`, if one does.
    pub fn thread_in(&self, s: u32) -> Option<u32>
        ensures { result ≡ thread_in self.now.both.machine s }
    {
        self.moment.machine().thread_in(s)
    }

    /// The registers, flags and addresses of the thread in slot `s`, and what its instruction under way has loaded.
    pub fn cpu(&self, s: u32) -> Cpu
        ensures { result ≡ cpu_at self.now.both.machine s }
    {
        self.moment.machine().cpu(s)
    }

    /// What stands after the entries that were taken.
    ///
    /// # Errors
    ///
    /// Memory is wanted for the threads and their waiting writes.
    pub fn view(&self, alloc: Global) -> Result<View, AllocError>
        ensures { IfOk result (λ view. view ≡ view_of self.now.both) }
    {
        let threads = self.moment.machine().threads(alloc)?;
        Ok(View {
            steps: self.steps(),
            grown: self.grown(),
            ending: self.ending(),
            threads,
        })
    }

    /// Takes the journal's next entry, where it is a step that may come, grows within the rule, and finds room. `Entry`
    /// comes exactly where it isn't; its place is the number of entries that were taken. After an error the walker is as
    /// before.
    #[tactic(auto, using(crate::proofs::Walked::walked_on, crate::proofs::Walked::one_more, crate::proofs::Walked::few_taken))]
    pub fn step(&mut self, alloc: Global, entry: &Entry) -> Result<(), StepFault>
        ensures taken { OnOk result (TakesOne self.old entry.now self.new) }
        ensures more { OnOk result ((entries : List EntryData) → HasTaken self.old entries → HasTaken self.new (entries ++ entry.now ∷ [])) }
        ensures fault { IfErr result (FitsStep self.old entry.now) }
        ensures before { OnErr result (self.new ≡ self.old) }
    {
        let entry = *entry;
        let at = self.taken;
        match self
            .moment
            .weigh(alloc, self.case, &mut self.reached, entry)?
        {
            Verdict::NoStep => Err(StepFault::Entry(EntryFault::NoStep(at))),
            Verdict::NotGated => Err(StepFault::Entry(EntryFault::NotGated(at))),
            Verdict::Crowded => Err(StepFault::Entry(EntryFault::Crowded(at))),
            Verdict::Taken { cpu, wanted, spot } => {
                self.moment.take(self.case, entry, cpu, wanted, spot)?;
                self.taken += 1;
                Ok(())
            }
        }
    }
}
