//! A turn of the thread that lives in a guest's slot, made by the one that has the shared state for itself.

ghost use Rattle.std.specs.Prelude.{◌≡◌, ◌≢◌, ◌+◌, ◌-◌, ℕ, None, Some, IsSome};
ghost use Rattle.machine_model.specs.Gated.{Stand};
ghost use Rattle.machine_model.specs.Own.{IsAhead};
ghost use Rattle.machine_model.specs.Serial.{AreReaches, Reaches, Run};
ghost use Rattle.machine_model.specs.State.{thread_in};
ghost use Rattle.hall_core.specs.Hall.{both, machine, mark_at};
ghost use Rattle.guest_parts.specs.Running.{Rises};
ghost use Rattle.thread_step.specs.declared.guest.Guest.{Guest as GuestData};
ghost use Rattle.thread_step.specs.declared.rules.Turned.TheVariants as turned;
ghost use Rattle.thread_step.specs.Alone.{InRun, IsAt, TakesTurn};
ghost use Rattle.thread_step.specs.Guest.{IsLeft, IsReady, guest_slot, private_steps};
ghost use Rattle.guest_entries.specs.Steps.{instruction_steps};
ghost use Rattle.thread_step.specs.Turned.{AreRules};

use crate::entries::{has_ended, turn};
use crate::guest::Guest;
use crate::rules::{Rules, Turned};
use guest_entries::Lifter;
use guest_parts::Engine;
use hall_core::Hall;
use ir_syntax::Block;

// The turn of the thread that lives in the slot.
fn turn_of<L: Lifter, N: Engine>(
    guest: &mut Guest,
    hall: &mut Hall<Block>,
    t: u32,
    lifter: &L,
    engine: &mut N,
    rules: Rules,
) -> Turned
    requires ready { IsReady hall.old guest.old }
    requires rules { AreRules hall.old.case rules }
    requires going { (machine hall.old).ending ≡ None }
    requires lives { thread_in (machine hall.old) guest.old.slot ≡ Some t }
    ensures slot { guest.new.slot ≡ guest.old.slot }
    ensures turn { (d : Stand) → IsAhead hall.old.case (both hall.old) guest.old.slot guest.old.own.k d → TakesTurn result hall.old hall.new t rules guest.old guest.new d }
    ensures ready { IsLeft result hall.new guest.new }
    ensures others { (g : GuestData) → guest_slot g ≢ guest_slot guest.old → IsReady hall.old g → IsReady hall.new g }
    ensures count { Rises (N.count engine.old) (N.count engine.new) ((instruction_steps hall.old.case hall.new.journal + guest.new.own.k) - (instruction_steps hall.old.case hall.old.journal + guest.old.own.k)) }
{
    hall.facts();
    guest.enter(hall, t);
    let turned = turn(
        guest.alloc,
        &mut guest.own,
        &mut guest.table,
        hall,
        t,
        lifter,
        engine,
        rules,
    );
    hall.facts();
    turned
}

/// The turn of the thread that lives in the guest's slot, made by the one that has the shared state for itself: at most
/// `rules.turn` entries that cost of the budget, and at its end the waiting writes that are too old go to memory.
///
/// `Ended`: the run has an ending; where it had one before, nothing changed. `Idle`: no thread lives in the slot, and nothing
/// changed. `Waiting`: the thread stands at a call that waits, and is marked in the shared state; no turn takes away the mark
/// of another slot. `Memory`: memory for entries, for a block at hand, for a call of the library or for the growth of a place
/// was wanting; the guest stands with its thread, and what was added is how the turn's entries begin. Else `Ran`.
pub fn turn_alone<L: Lifter, N: Engine>(
    guest: &mut Guest,
    hall: &mut Hall<Block>,
    lifter: &L,
    engine: &mut N,
    rules: Rules,
) -> Turned
    requires ready { IsReady hall.old guest.old }
    requires rules { AreRules hall.old.case rules }
    ensures slot { guest_slot guest.new ≡ guest_slot guest.old }
    ensures case { hall.new.case ≡ hall.old.case }
    ensures ended { IsSome (machine hall.old).ending → (result ≡ turned.Ended) × (hall.new ≡ hall.old) × (guest.new ≡ guest.old) }
    ensures idle { (machine hall.old).ending ≡ None → thread_in (machine hall.old) (guest_slot guest.old) ≡ None → (result ≡ turned.Idle) × (hall.new ≡ hall.old) × (guest.new ≡ guest.old) }
    ensures turn { (t : ℕ) (d : Stand) → (machine hall.old).ending ≡ None → thread_in (machine hall.old) (guest_slot guest.old) ≡ Some t → IsAhead hall.old.case (both hall.old) (guest_slot guest.old) (private_steps guest.old) d → TakesTurn result hall.old hall.new t rules guest.old guest.new d }
    ensures serial { (reach : Reaches) (run : Run) → AreReaches hall.old.case.image reach → IsAt run hall.old guest.old → private_steps guest.old ≡ 0 → InRun result reach rules run hall.old hall.new guest.old guest.new }
    ensures ready { IsLeft result hall.new guest.new }
    ensures others { (g : GuestData) → guest_slot g ≢ guest_slot guest.old → IsReady hall.old g → IsReady hall.new g }
    ensures told { (result ≡ turned.Ran → private_steps guest.new ≡ 0) × (result ≡ turned.Waiting → private_steps guest.new ≡ 0) }
    ensures marked { result ≡ turned.Waiting → IsSome (mark_at hall.new (guest_slot guest.old)) }
    ensures count { Rises (N.count engine.old) (N.count engine.new) ((instruction_steps hall.old.case hall.new.journal + private_steps guest.new) - (instruction_steps hall.old.case hall.old.journal + private_steps guest.old)) }
    ensures marks { (s : ℕ) → s ≢ guest_slot guest.old → mark_at hall.new s ≡ mark_at hall.old s }
{
    if has_ended(hall) {
        return Turned::Ended;
    }
    let Some(t) = hall.thread_in(guest.slot) else {
        return Turned::Idle;
    };
    turn_of(guest, hall, t, lifter, engine, rules)
}
