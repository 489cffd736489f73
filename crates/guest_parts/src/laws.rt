//! What holds of each part of a faithful block, and of the turn of a thread that runs them.

ghost use Rattle.std.specs.Prelude.{◌≡◌, ◌≢◌, ℕ, suc, ◌+◌, ◌≤◌, List, ◌∷◌, drop, true, Some, None};
ghost use Rattle.elf_image.specs.Layout.{ImageData};
ghost use Rattle.guest_state.specs.declared.virtual_state.Virtual.{Virtual};
ghost use Rattle.ir_syntax.specs.declared.block.Block.{Block};
ghost use Rattle.ir_syntax.specs.declared.block.Part.{Part};
ghost use Rattle.x86_model.specs.declared.cpu.Cpu.{Cpu};
ghost use Rattle.x86_model.specs.Want.{want};
ghost use Rattle.basic_blocks.specs.Places.{is_code_place};
ghost use Rattle.basic_blocks.specs.Reach.{is_among};
ghost use Rattle.journal_pack.specs.declared.entry.Entry.{Entry};
ghost use Rattle.machine_model.specs.CaseData.{CaseData};
ghost use Rattle.machine_model.specs.Gated.{Both, Stand, gated_steps};
ghost use Rattle.machine_model.specs.State.{is_live};
ghost use Rattle.machine_model.specs.Serial.{GoesOn, Point, Rule, Turn, is_over, point_of, rule_at};
ghost use Rattle.guest_parts.specs.Standing.{IsLiftedAt, StandsBetween, StandsInside};
ghost use Rattle.guest_parts.specs.Requests.{Finishes, FollowsItsThread};
ghost use Rattle.guest_parts.specs.Points.{Acts, ComesOut, ComesTo, GoesOnAs, point_at, turn_of};
ghost use Rattle.guest_parts.specs.Entries.{BadEnds, FencePasses, FlushKeeps, FullEnds, GrowKeeps, LoadAnswers, LoadEnds, LockedAnswers, LockedEnds, MissEnds, MissTells, OverEnds, StoreEnds, StoreWaits, TickTells, WaitTells};
ghost use Rattle.guest_parts.specs.Calls.{AnswersFit, CallActs, CallAnswers, CallAsks, CallComes, CallEnds, CallFaults, CallStops, StayActs, WaitActs};

use basic_blocks::goes_on_after_its_bytes;

/// A step that finishes the instruction at a code place leaves that as the instruction finished last.
#[tactic(auto, using(crate::proofs::Finish::want_last))]
pub fn instructions_are_finished()
    ensures { (image : ImageData) (s : Cpu) → is_code_place image s.rip ≡ true → Finishes s.rip (want image s) }
{}

/// From where a guest stands with its thread before a part of a block, the part asks for what the thread wants, and after
/// its answer both stand together again. A guest that stands between blocks at a grown place begins the block there.
pub fn parts_follow_their_thread()
    ensures parts { (image : ImageData) (grown : List ℕ) (b : Block) (n last : ℕ) (p : Part) (ps : List Part) (v : Virtual) (d : Stand) → StandsInside image grown b n last v d → drop n b.parts ≡ p ∷ ps → FollowsItsThread image grown b n last p v d }
    ensures begins { (image : ImageData) (grown : List ℕ) (b : Block) (last : ℕ) (v : Virtual) (d : Stand) → IsLiftedAt image b.at b → is_among grown b.at ≡ true → StandsBetween b.at last v d → StandsInside image grown b 0 last v d }
{
    goes_on_after_its_bytes();
}

/// Private steps lead a turn on to the point at which a rule holds; what the rule says is one entry of its budget, after
/// which the turn goes on from the thread's new stand, or is over.
#[tactic(auto, using(crate::proofs::Turns::comes_to, crate::proofs::Turns::turn_goes_on, crate::proofs::Turns::turn_comes_out, crate::proofs::Turns::goes_privately))]
pub fn turns_go_on()
    ensures stops { (c : CaseData) (b : Both) (j k m : ℕ) (d e : Stand) (r : Rule) → m ≡ k + j → m ≤ 4096 → b.machine.steps + m ≤ c.limit → gated_steps c.image b.gate.grown j d ≡ Some e → r ≢ GoesOn → rule_at c b (point_at m e) ≡ r → ComesTo c b (point_at k d) (point_at m e) r }
    ensures on { (c : CaseData) (t left : ℕ) (p q : Point) (s : Turn) (n : Both) (journal : List Entry) (ages : List ℕ) (r : Rule) → ComesTo c s.both p q r → Acts c t q s r (turn_of n journal ages) → n.machine.ending ≡ None → is_live n.machine t ≡ true → GoesOnAs c t (suc left) p s left (point_of n t) (turn_of n journal ages) }
    ensures out { (c : CaseData) (t left : ℕ) (p q : Point) (s x : Turn) (r : Rule) → ComesTo c s.both p q r → Acts c t q s r x → is_over t x ≡ true → ComesOut c t (suc left) p s x }
    ensures privately { (c : CaseData) (t budget j k m : ℕ) (d e : Stand) (s : Turn) → m ≡ k + j → m ≤ 4096 → s.both.machine.steps + m ≤ c.limit → gated_steps c.image s.both.gate.grown j d ≡ Some e → GoesOnAs c t budget (point_at k d) s budget (point_at m e) s }
{}

/// What each kind of entry leaves of a guest that stands with its thread: the entry may come, and the guest stands with its
/// thread after it, or the run has an ending.
pub fn entries_leave_guests()
    ensures tick { TickTells }
    ensures wait { WaitTells }
    ensures over { OverEnds }
    ensures flush { FlushKeeps }
    ensures miss { MissTells }
    ensures strict { MissEnds }
    ensures grow { GrowKeeps }
    ensures full { FullEnds }
    ensures load { LoadAnswers }
    ensures load_ends { LoadEnds }
    ensures locked { LockedAnswers }
    ensures locked_ends { LockedEnds }
    ensures store { StoreWaits }
    ensures store_ends { StoreEnds }
    ensures fence { FencePasses }
    ensures bad { BadEnds }
{}

/// What a call of the library, or a return to a door, leaves of a guest that stands with its thread at it, where none of the
/// thread's own writes waits. Its request is its thread's, and it is what a turn stops at. Unless it waits for another
/// thread, its entry may come. After it the guest goes on with the answer in its registers, its calls back and its place,
/// and stands with its thread there; or the thread ended, or the run has an ending. What is answered fits the registers.
pub fn calls_leave_guests()
    ensures asks { CallAsks }
    ensures stops { CallStops }
    ensures comes { CallComes }
    ensures answers { CallAnswers }
    ensures fits { AnswersFit }
    ensures ends { CallEnds }
    ensures faults { CallFaults }
{}

/// What a turn does at a request of the library, after all of its thread's waiting writes went to memory: one entry, after
/// which the turn goes on or is over; or, where the request waits, an entry that tells the private steps, if there are any.
pub fn calls_in_turns()
    ensures call { CallActs }
    ensures stay { StayActs }
    ensures wait { WaitActs }
{}
