//! The lives of threads.

ghost use Rattle.std.specs.Prelude.{◌≡◌, ◌≢◌, ℕ, ◌<◌, ◌⊎◌, All, List, [], ◌++◌, Some, None};
ghost use Rattle.journal_pack.specs.declared.entry.Entry.{Entry};
ghost use Rattle.journal_pack.specs.Entry.{thread_of};
ghost use Rattle.lib_table.specs.declared.answer.Called.{Called};
ghost use Rattle.lib_table.specs.declared.ask.Ask.{Ask};
ghost use Rattle.lib_table.specs.declared.life.Life.TheVariants.{Ended, Joined, Unborn};
ghost use Rattle.lib_table.specs.Library.{LibraryData};
ghost use Rattle.lib_table.specs.Outcome.{Done};
ghost use Rattle.lib_table.specs.Row.{row};
ghost use Rattle.tso_memory.specs.Memory.{Memory};
ghost use Rattle.machine_model.specs.CaseData.{CaseData};
ghost use Rattle.machine_model.specs.Gated.{Both, Leads, advance, begin, no_spot, spot_at};
ghost use Rattle.machine_model.specs.State.{core_at, list_at, thread_in};
ghost use Rattle.machine_laws.specs.Lives.{HasCause, LifeChange, LifeGoes, life_of, lives_after};
ghost use Rattle.machine_laws.specs.Others.{IsNew};

/// What a request that is carried out does to the lives of threads, and what that needs.
pub fn requests_change_lives()
    ensures { (l after : LibraryData) (m n : Memory) (t : ℕ) (ask : Ask) (called : Called) → row l m t ask ≡ Done after n called → (x : LifeChange) × HasCause l t ask x × (after.slots ≡ (lives_after l t ask x).slots) }
{}

/// An entry makes an unborn thread live by `pthread_create` alone, ends a live one by its own return to the end door alone,
/// with no call back under way and no write waiting, and makes one that has ended joined by `pthread_join` alone. Thread 0
/// lives to the end of the run.
pub fn lives_change_by_requests()
    ensures entry { (c : CaseData) (journal : List Entry) (b n : Both) (e : Entry) (u : ℕ) → Leads c (begin c) journal b → advance c b e ≡ Some n → LifeGoes c b n e u }
    ensures first { (c : CaseData) (journal : List Entry) (n : Both) → Leads c (begin c) journal n → thread_in n.machine 0 ≡ Some 0 }
{}

/// A thread that is unborn after a journal was unborn after each part that it begins with. A life that is over stays over:
/// one that has ended keeps its value until it is joined, and one that is joined stays so.
pub fn lives_go_forward()
    ensures unborn { (c : CaseData) (before after : List Entry) (b n : Both) (u : ℕ) → Leads c (begin c) before b → Leads c (begin c) (before ++ after) n → life_of n u ≡ Unborn → life_of b u ≡ Unborn }
    ensures ended { (c : CaseData) (before after : List Entry) (b n : Both) (u value : ℕ) → Leads c (begin c) before b → Leads c b after n → life_of b u ≡ Ended value → (life_of n u ≡ Ended value) ⊎ (life_of n u ≡ Joined) }
    ensures joined { (c : CaseData) (before after : List Entry) (b n : Both) (u : ℕ) → Leads c (begin c) before b → Leads c b after n → life_of b u ≡ Joined → life_of n u ≡ Joined }
{}

/// A live thread that no entry names is as it was born, with no write waiting, between blocks.
pub fn new_threads_wait()
    ensures { (c : CaseData) (journal : List Entry) (n : Both) (s t : ℕ) → Leads c (begin c) journal n → s < 64 → thread_in n.machine s ≡ Some t → All (λ e. thread_of e ≢ Some t) journal → IsNew c n s }
{}

/// While the run goes on, a slot in which no thread lives has no call back under way and no write waiting, and its next thread
/// begins between blocks.
pub fn free_slots_are_empty()
    ensures { (c : CaseData) (journal : List Entry) (n : Both) (s : ℕ) → Leads c (begin c) journal n → n.machine.ending ≡ None → s < 64 → thread_in n.machine s ≡ None → ((core_at n.machine s).frames ≡ []) × (list_at n.machine s ≡ []) × (spot_at n.gate s ≡ no_spot) }
{}
