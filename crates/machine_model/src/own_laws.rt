//! What an entry leaves of the thread that it names: each law is the contract of a function that does nothing.
//!
//! `IsAhead c b s k d` says that k private steps in blocks lead the thread of a slot to the stand d, `Standing` what a slot
//! has, `Clock` how far the run is.

ghost use Rattle.std.specs.Prelude.{◌≡◌, ℕ, ◌<◌, true, List, ◌∷◌, Some, None, ◌++◌};
ghost use Rattle.std.specs.List.Sorted.{IsStrictlySortedBy};
ghost use Rattle.std.specs.Ordering.{nat_cmp};
ghost use Rattle.address_space.specs.Slots.{slot_of};
ghost use Rattle.elf_image.specs.Layout.{ImageData};
ghost use Rattle.x86_model.specs.declared.cpu.Cpu.{Cpu};
ghost use Rattle.basic_blocks.specs.Places.{is_code_place};
ghost use Rattle.journal_pack.specs.declared.entry.Entry.{Entry};
ghost use Rattle.journal_pack.specs.declared.entry.Entry.TheVariants.{Flush, Grow};
ghost use Rattle.machine_model.specs.CaseData.{CaseData};
ghost use Rattle.machine_model.specs.Gated.{Both, Leads, Spot, Stand, advance, begin, gate_with, gated_steps, with_gate};
ghost use Rattle.machine_model.specs.InBlocks.{AreSettled, IsPlaced};
ghost use Rattle.machine_model.specs.Own.{HasNoRepeats, IsAhead, IsMade, IsWhole};
ghost use Rattle.machine_model.specs.OwnLaws.{BadEnds, CallEnds, CallLeaves, FenceLeaves, FlushLeaves, FlushNeeds, FullLeaves, GrowLeaves, LoadEnds, LoadLeaves, LockedEnds, LockedLeaves, MissLeaves, OverLeaves, StoreEnds, StoreLeaves, TickLeaves, WaitLeaves};
ghost use Rattle.machine_model.specs.State.{Machine};
ghost use Rattle.machine_model.specs.Step.{after_private};

/// An entry may come exactly where its private steps lead its thread to a stand from which it is made.
pub fn entries_are_made()
    ensures made { (c : CaseData) (b n : Both) (e : Entry) → advance c b e ≡ Some n → (d : Stand) × (spot : Spot) × IsMade c b e d n.machine spot × (n.gate ≡ gate_with e b.gate spot) }
    ensures advances { (c : CaseData) (b : Both) (e : Entry) (d : Stand) (m : Machine) (spot : Spot) → IsMade c b e d m spot → advance c b e ≡ Some (with_gate m (gate_with e b.gate spot)) }
    ensures private { (image : ImageData) (grown : List ℕ) (k : ℕ) (s d : Stand) → gated_steps image grown k s ≡ Some d → after_private image k s.cpu ≡ Some d.cpu }
    ensures whole { (c : CaseData) (n : Both) (journal : List Entry) → Leads c (begin c) journal n → IsWhole n }
{}

/// What the entries that are no events leave of their thread.
pub fn entries_leave()
    ensures tick { TickLeaves }
    ensures wait { WaitLeaves }
    ensures over { OverLeaves }
    ensures miss { MissLeaves }
    ensures grow { GrowLeaves }
    ensures full { FullLeaves }
    ensures flush { FlushLeaves }
    ensures waits { FlushNeeds }
{}

/// What an event leaves of its thread, by what the thread wants.
pub fn events_leave()
    ensures load { LoadLeaves }
    ensures store { StoreLeaves }
    ensures fence { FenceLeaves }
    ensures locked { LockedLeaves }
    ensures call { CallLeaves }
{}

/// An event that can't be made ends the run at its thread's rip, and leaves the library as it was.
pub fn faults_end()
    ensures bad { BadEnds }
    ensures load { LoadEnds }
    ensures store { StoreEnds }
    ensures locked { LockedEnds }
    ensures call { CallEnds }
{}

/// While a run goes on, each live thread stands between blocks or at the next instruction of a block under way, which is
/// the end of the span of a grown place; in a slot without one no write waits, and its next thread begins between blocks.
pub fn threads_stand_in_blocks()
    ensures settled { (c : CaseData) (n : Both) (journal : List Entry) → Leads c (begin c) journal n → AreSettled c.image n }
    ensures steps { (image : ImageData) (grown : List ℕ) (k : ℕ) (s d : Stand) → IsPlaced image grown s → gated_steps image grown k s ≡ Some d → IsPlaced image grown d }
    ensures first { (image : ImageData) (grown : List ℕ) (d : Stand) (x : ℕ) (xs : List ℕ) → IsPlaced image grown d → d.left ≡ x ∷ xs → (x ≡ d.cpu.rip) × (is_code_place image d.cpu.rip ≡ true) }
{}

/// What a run that goes on began with goes on, a thread's own flushes and growth leave its outstanding private steps, and
/// the grown places have no repeats, so that their number is the list's length.
pub fn runs_that_go_on()
    ensures prefix { (c : CaseData) (before after : List Entry) (n : Both) → Leads c (begin c) (before ++ after) n → n.machine.ending ≡ None → (m : Both) × Leads c (begin c) before m × (m.machine.ending ≡ None) }
    ensures flush { (c : CaseData) (b n : Both) (t k : ℕ) (d : Stand) → IsWhole b → advance c b (Flush t) ≡ Some n → IsAhead c b (slot_of t) k d → IsAhead c n (slot_of t) k d }
    ensures grow { (c : CaseData) (b n : Both) (t a k : ℕ) (d : Stand) → IsWhole b → advance c b (Grow t a) ≡ Some n → IsAhead c b (slot_of t) k d → IsAhead c n (slot_of t) k d }
    ensures grown { (c : CaseData) (n : Both) (journal : List Entry) → IsStrictlySortedBy nat_cmp c.first → Leads c (begin c) journal n → HasNoRepeats n.gate.grown }
{}
