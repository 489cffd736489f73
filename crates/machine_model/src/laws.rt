//! What the definitions come to: each law is the contract of a function that does nothing.

ghost use Rattle.std.specs.Prelude.{◌≡◌, ◌≢◌, ℕ, ◌+◌, ◌-◌, ◌*◌, ◌^◌, ◌<◌, ◌≤◌, true, false, length, Contains, List, [], ◌∷◌, ◌++◌, None, Some, option_and_then};
ghost use Rattle.lib_table.specs.declared.ask.Asked.{Asked};
ghost use Rattle.lib_table.specs.Library.{HasNumbers};
ghost use Rattle.lib_table.specs.Steps.{CanAsk};
ghost use Rattle.x86_model.specs.declared.cpu.Cpu.{Cpu};
ghost use Rattle.journal_pack.specs.declared.entry.Entry.{Entry};
ghost use Rattle.journal_pack.specs.declared.entry.Entry.TheVariants.{Grow};
ghost use Rattle.basic_blocks.specs.Reach.{is_among};
ghost use Rattle.machine_model.specs.declared.ending.RunEnd.{RunEnd};
ghost use Rattle.machine_model.specs.CaseData.{CaseData};
ghost use Rattle.machine_model.specs.State.{IsSized, Machine, is_live, list_at, start, thread_at};
ghost use Rattle.machine_model.specs.Step.{ask_of, core_with, cpu_at, is_in_use, slot_in, step};
ghost use Rattle.machine_model.specs.Frames.{AreCalls};
ghost use Rattle.machine_model.specs.Play.{own, play};
ghost use Rattle.machine_model.specs.Gated.{Both, Gate, IsAllowed, IsGated, Leads, Stand, Untouched, advance, begin, gated_steps, pass, stand_at, with_gate};

/// A journal and one more entry is one step more.
pub fn played_step_by_step()
    ensures { (c : CaseData) (journal : List Entry) (e : Entry) → play c (journal ++ e ∷ []) ≡ option_and_then (λ m. step c m e) (play c journal) }
{}

/// After an ending nothing is a step.
pub fn nothing_after_an_ending()
    ensures step { (c : CaseData) (m : Machine) (e : Entry) (end : RunEnd) → m.ending ≡ Some end → step c m e ≡ None }
    ensures journal { (c : CaseData) (m : Machine) (journal : List Entry) (e : Entry) (end : RunEnd) → play c journal ≡ Some m → m.ending ≡ Some end → play c (journal ++ e ∷ []) ≡ None }
{}

/// There are 64 cores, slots and lists of waiting writes from the start on.
pub fn sized_from_the_start()
    ensures start { (c : CaseData) → IsSized (start c) }
    ensures step { (c : CaseData) (m n : Machine) (e : Entry) → IsSized m → step c m e ≡ Some n → IsSized n }
    ensures played { (c : CaseData) (journal : List Entry) (m : Machine) → play c journal ≡ Some m → IsSized m }
{}

/// An entry changes the registers, flags, addresses, loaded value, calls back, number and life of no other live thread than
/// the one that it names, and the waiting writes of no other slot.
pub fn other_threads_stay()
    ensures thread { (c : CaseData) (m n : Machine) (e : Entry) → IsSized m → step c m e ≡ Some n → (s : ℕ) → s ≢ slot_in e → is_in_use m.library s ≡ true → thread_at n s ≡ thread_at m s }
    ensures writes { (c : CaseData) (m n : Machine) (e : Entry) → IsSized m → step c m e ≡ Some n → (s : ℕ) → s ≢ slot_in e → list_at n s ≡ list_at m s }
{}

/// The calls back from the library that threads have under way: each search has elements left, the routine of each
/// control in them runs, and no two of them have one control.
pub fn calls_back()
    ensures start { (c : CaseData) → AreCalls (start c) }
    ensures step { (c : CaseData) (m n : Machine) (e : Entry) → IsSized m → AreCalls m → step c m e ≡ Some n → AreCalls n }
    ensures played { (c : CaseData) (journal : List Entry) (m : Machine) → play c journal ≡ Some m → AreCalls m }
{}

/// While a run goes on whose limit is at most 2^27, it made at most as many steps as the limit is, each free slot has a
/// thread's number below 2^32 that none had, and a further round of a barrier can be drawn: a slot's next number takes
/// three steps, those of a birth, an end and a join.
pub fn numbers_fit()
    ensures steps { (c : CaseData) (journal : List Entry) (m : Machine) → play c journal ≡ Some m → m.ending ≡ None → m.steps ≤ c.limit }
    ensures numbers { (c : CaseData) (journal : List Entry) (m : Machine) → c.limit ≤ 2 ^ 27 → play c journal ≡ Some m → m.ending ≡ None → HasNumbers m.library × (m.library.rooms.rounds < 2 ^ 64 - 1) }
{}

/// A live thread's request is one that the library can be asked.
pub fn requests_can_be_asked()
    ensures { (m : Machine) (t : ℕ) (cpu : Cpu) (what : Asked) → AreCalls m → is_live m t ≡ true → HasNumbers m.library → m.library.rooms.rounds < 2 ^ 64 - 1 → CanAsk m.library t (ask_of (core_with m t cpu) what) }
{}

/// A gated journal has at most twice as many entries as the limit of steps is, and 65,537 more.
pub fn gated_is_bounded()
    ensures { (c : CaseData) (journal : List Entry) → IsGated c journal → length journal ≤ 2 * c.limit + 65537 }
{}

/// Longer gated journals: one more entry that is a step, may come and grows within the rule, and what a gated journal
/// begins with.
pub fn gated_step_by_step()
    ensures more { (c : CaseData) (journal : List Entry) (e : Entry) (b n : Both) → Leads c (begin c) journal b → advance c b e ≡ Some n → IsAllowed c.image b.gate e → Leads c (begin c) (journal ++ e ∷ []) n }
    ensures advance { (c : CaseData) (b : Both) (m : Machine) (g : Gate) (e : Entry) → step c b.machine e ≡ Some m → pass c.image e (cpu_at b.machine (slot_in e)) (cpu_at m (slot_in e)) b.gate ≡ Some g → advance c b e ≡ Some (with_gate m g) }
    ensures before { (c : CaseData) (before after : List Entry) → IsGated c (before ++ after) → IsGated c before }
    ensures played { (c : CaseData) (journal : List Entry) (b : Both) → Leads c (begin c) journal b → play c journal ≡ Some b.machine }
{}

/// In a gated journal no place is grown twice, and none that was there at first.
pub fn grown_once()
    ensures { (c : CaseData) (before after : List Entry) (t a : ℕ) → IsGated c (before ++ Grow t a ∷ after) → (is_among c.first a ≡ false) × ((u : ℕ) → ¬ Contains before (Grow u a)) }
{}

/// Entries of other slots leave a live thread, its waiting writes and its place in its block as they were, and no grown
/// place is lost. So private steps that it may make are those that it may make after them.
pub fn untouched_by_others()
    ensures thread { (c : CaseData) (b n : Both) (s : ℕ) (entries : List Entry) → IsSized b.machine → own s entries ≡ [] → is_in_use b.machine.library s ≡ true → Leads c b entries n → Untouched b n s }
    ensures steps { (c : CaseData) (b n : Both) (s k : ℕ) (entries : List Entry) (d : Stand) → IsSized b.machine → own s entries ≡ [] → is_in_use b.machine.library s ≡ true → Leads c b entries n → gated_steps c.image b.gate.grown k (stand_at b s) ≡ Some d → gated_steps c.image n.gate.grown k (stand_at n s) ≡ Some d }
{}
