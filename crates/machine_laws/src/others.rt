//! What entries leave of the slots that they don't name.

ghost use Rattle.std.specs.Prelude.{◌≡◌, ◌≢◌, ℕ, ◌<◌, List, [], ◌++◌, Some};
ghost use Rattle.address_space.specs.Slots.{slot_of};
ghost use Rattle.journal_pack.specs.declared.entry.Entry.{Entry};
ghost use Rattle.machine_model.specs.CaseData.{CaseData};
ghost use Rattle.machine_model.specs.Gated.{Both, Leads, advance, begin};
ghost use Rattle.machine_model.specs.Play.{own, walk};
ghost use Rattle.machine_model.specs.Serial.{AreReaches, Point, Reaches, Rules, Turn, turn, turn_from};
ghost use Rattle.machine_model.specs.Step.{slot_in};
ghost use Rattle.machine_laws.specs.Others.{AreOf, GoesOn, Leaves};

/// Entries leave a slot that they don't name as it was, or bear a thread in it where none lived: one entry, entries of other
/// slots, and entries of one thread. No thread stops to live by another's entry.
pub fn others_stay()
    ensures entry { (c : CaseData) (journal : List Entry) (b n : Both) (e : Entry) (s : ℕ) → Leads c (begin c) journal b → advance c b e ≡ Some n → s < 64 → s ≢ slot_in e → Leaves b n s }
    ensures entries { (c : CaseData) (journal entries : List Entry) (b n : Both) (s : ℕ) → Leads c (begin c) journal b → walk (advance c) b entries ≡ Some n → own s entries ≡ [] → s < 64 → Leaves b n s }
    ensures thread { (c : CaseData) (journal entries : List Entry) (b n : Both) (t s : ℕ) → Leads c (begin c) journal b → walk (advance c) b entries ≡ Some n → AreOf t entries → s < 64 → s ≢ slot_of t → Leaves b n s }
{}

/// A turn goes on by entries of its thread alone, which lead from where it began to where it ends.
pub fn turns_are_own()
    ensures entries { (c : CaseData) (reach : Reaches) (t k : ℕ) (p : Point) (before after : Turn) → turn_from c reach t k p before ≡ Some after → GoesOn c t before after }
    ensures turn { (c : CaseData) (reach : Reaches) (r : Rules) (t : ℕ) (p : Point) (before after : Turn) → turn c reach r t p before ≡ Some after → GoesOn c t before after }
    ensures leads { (c : CaseData) (reach : Reaches) (r : Rules) (t : ℕ) (p : Point) (before after : Turn) → AreReaches c.image reach → Leads c (begin c) before.journal before.both → turn c reach r t p before ≡ Some after → (entries : List Entry) × (after.journal ≡ before.journal ++ entries) × AreOf t entries × Leads c before.both entries after.both }
{}
