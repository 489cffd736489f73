//! What the serial order comes to: each law is the contract of a function that does nothing.

ghost use Rattle.std.specs.Prelude.{◌≡◌, ℕ, ◌<◌, ◌≤◌, true, length, List, [], ◌∷◌, ◌++◌, Some, None, IsSome};
ghost use Rattle.address_space.specs.Slots.{slot_of};
ghost use Rattle.elf_image.specs.Layout.{ImageData};
ghost use Rattle.basic_blocks.specs.Reach.{IsReach};
ghost use Rattle.journal_pack.specs.declared.entry.Entry.{Entry};
ghost use Rattle.machine_model.specs.CaseData.{CaseData};
ghost use Rattle.machine_model.specs.Comes.{MayCome, both_of};
ghost use Rattle.machine_model.specs.Gated.{Both, IsGated, Leads, advance, begin, most_grown};
ghost use Rattle.machine_model.specs.Own.{IsAhead};
ghost use Rattle.machine_model.specs.Ready.{HasGrown};
ghost use Rattle.machine_model.specs.State.{is_live, list_at};
ghost use Rattle.machine_model.specs.Serial.{AreReaches, IsSerial, Point, Reaches, Rules, Run, Turn, serial_by, turn, turn_from};

/// What a turn adds to a gated journal is gated, growth with its bound among it, from whatever point the thread goes on.
pub fn turn_is_gated()
    ensures entries { (c : CaseData) (reach : Reaches) (t n : ℕ) (p : Point) (before after : Turn) → AreReaches c.image reach → Leads c (begin c) before.journal before.both → turn_from c reach t n p before ≡ Some after → Leads c (begin c) after.journal after.both }
    ensures turn { (c : CaseData) (reach : Reaches) (r : Rules) (t : ℕ) (p : Point) (before after : Turn) → AreReaches c.image reach → Leads c (begin c) before.journal before.both → turn c reach r t p before ≡ Some after → Leads c (begin c) after.journal after.both }
{}

/// A serial run is played and gated.
pub fn serial_is_gated()
    ensures run { (c : CaseData) (reach : Reaches) (r : Rules) (run : Run) → AreReaches c.image reach → serial_by c reach r ≡ Some run → Leads c (begin c) run.journal run.both }
    ensures journal { (c : CaseData) (r : Rules) (journal : List Entry) → IsSerial c r journal → IsGated c journal }
{}

/// Each place has one list of the places that are reached from it.
pub fn reach_is_one()
    ensures some { (image : ImageData) (a : ℕ) → (places : List ℕ) × IsReach image (a ∷ []) places }
    ensures one { (image : ImageData) (roots a b : List ℕ) → IsReach image roots a → IsReach image roots b → a ≡ b }
{}

/// A case and two numbers have at most one serial journal, which any right reach tells.
pub fn serial_is_one()
    ensures one { (c : CaseData) (r : Rules) (a b : List Entry) → IsSerial c r a → IsSerial c r b → a ≡ b }
    ensures told { (c : CaseData) (reach : Reaches) (r : Rules) (run : Run) → AreReaches c.image reach → serial_by c reach r ≡ Some run → IsSerial c r run.journal }
{}

/// Each round without an ending makes an entry, so a serial run ends within 2 * limit + 65,537 rounds.
pub fn serial_run_ends()
    ensures { (c : CaseData) (reach : Reaches) (r : Rules) (run : Run) → AreReaches c.image reach → serial_by c reach r ≡ Some run → IsSome run.both.machine.ending }
{}

/// The rules of a turn always name a step. After a gated journal over at most 65,536 first places, a live thread that is k
/// private steps past its last entry has a turn, where the run goes on, each of its waiting writes has an age, and it
/// doesn't stand at an ungrown place right after a miss of its own.
pub fn turn_is_named()
    ensures { (c : CaseData) (reach : Reaches) (r : Rules) (t : ℕ) (p : Point) (s : Turn) → AreReaches c.image reach → length c.first ≤ most_grown → Leads c (begin c) s.journal s.both → s.both.machine.ending ≡ None → is_live s.both.machine t ≡ true → length s.ages ≡ length (list_at s.both.machine (slot_of t)) → HasGrown c.image s.both (slot_of t) → IsAhead c s.both (slot_of t) p.k p.stand → p.k ≤ 4096 → (x : Turn) × (turn c reach r t p s ≡ Some x) }
{}

/// A case with at most 65,536 first places and a budget of at least 1 have a serial journal, after which the run has an ending.
pub fn serial_is_there()
    ensures run { (c : CaseData) (reach : Reaches) (r : Rules) → AreReaches c.image reach → length c.first ≤ most_grown → 0 < r.turn → (run : Run) × (serial_by c reach r ≡ Some run) × IsSome run.both.machine.ending }
    ensures journal { (c : CaseData) (r : Rules) → length c.first ≤ most_grown → 0 < r.turn → (journal : List Entry) × IsSerial c r journal × ((n : Both) × Leads c (begin c) journal n × IsSome n.machine.ending) }
{}

/// Where a gated journal leads, and that it grows by exactly the entries that may come.
pub fn entries_that_may_come()
    ensures here { (c : CaseData) (journal : List Entry) (n : Both) → Leads c (begin c) journal n → both_of c journal ≡ n }
    ensures more { (c : CaseData) (journal : List Entry) (e : Entry) (n : Both) → advance c (both_of c journal) e ≡ Some n → both_of c (journal ++ e ∷ []) ≡ n }
    ensures gated { (c : CaseData) (journal : List Entry) (e : Entry) → IsGated c journal → MayCome c journal e → IsGated c (journal ++ e ∷ []) }
    ensures last { (c : CaseData) (journal : List Entry) (e : Entry) → IsGated c (journal ++ e ∷ []) → MayCome c journal e }
{}
