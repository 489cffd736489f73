//! The controls of one-time initialisation: POSIX `pthread_once`.

ghost use Rattle.std.specs.Prelude.{◌≡◌, ℕ, List, Some};
ghost use Rattle.journal_pack.specs.declared.entry.Entry.{Entry};
ghost use Rattle.sync_more.specs.declared.state.Control.TheVariants.{Done};
ghost use Rattle.machine_model.specs.CaseData.{CaseData};
ghost use Rattle.machine_model.specs.Frames.{AreCalls};
ghost use Rattle.machine_model.specs.Gated.{Both, Leads, advance, begin};
ghost use Rattle.machine_laws.specs.Controls.{ControlGoes, control_of};

/// Each search under way has elements left, the routine of each control among the calls back runs, and no two of them have
/// one control. An entry changes a control only where its routine begins, with a call back more, or where it has run, and
/// then the call back goes that ran it. What has run once has run.
pub fn controls_go_with_calls()
    ensures calls { (c : CaseData) (journal : List Entry) (b : Both) → Leads c (begin c) journal b → AreCalls b.machine }
    ensures entry { (c : CaseData) (journal : List Entry) (b n : Both) (e : Entry) (x : ℕ) → Leads c (begin c) journal b → advance c b e ≡ Some n → ControlGoes c b n e x }
    ensures done { (c : CaseData) (before after : List Entry) (b n : Both) (x : ℕ) → Leads c (begin c) before b → Leads c b after n → control_of b x ≡ Some Done → control_of n x ≡ Some Done }
{}
