//! Rounds: each slot's turn, one after another.

ghost use Rattle.std.specs.Prelude.{◌≡◌, ◌≢◌, ◌<◌, ◌++◌, ◌∷◌, ℕ, [], true, None, IfOk, OnErr, OnOk, map, replicate};
ghost use Rattle.journal_pack.specs.declared.entry.Entry.TheVariants as entry;
ghost use Rattle.machine_model.specs.Comes.{both_of};
ghost use Rattle.hall_core.specs.Hall.{is_dead, machine, mark_at};
ghost use Rattle.thread_step.specs.Guest.{guest_ages};
ghost use Rattle.thread_step.specs.Turned.{AreRules};
ghost use Rattle.ir_runner.specs.Rounds.{AreGuests, BeganRound, BeganTurn, HasRound, HasRun, TookRound, TookTurn};

use address_space::SLOTS;
use hall_core::Hall;
use ir_syntax::Block;
use std::alloc::{AllocError, Global};
use thread_step::{Engine, Guest, Lifter, Rules, Turned, turn_alone};
use turn_lock::Story;

/// The guests of the slots, before a run's first entry.
pub(crate) fn make_guests(alloc: Global, hall: &Hall<Block>) -> Result<Vec<Guest>, AllocError>
    requires { hall.now.journal ≡ [] }
    ensures guests { IfOk result (λ guests. AreGuests hall.now guests.items) }
    ensures ages { IfOk result (λ guests. map guest_ages guests.items ≡ replicate 64 []) }
{
    let mut guests = Vec::new(alloc);
    for slot in 0..SLOTS {
        guests.push(Guest::make(alloc, slot, hall)?)?;
    }
    Ok(guests)
}

// The turn of the thread that lives in a slot, if one does.
fn turn_in_slot<L: Lifter, N: Engine>(
    guests: &mut Vec<Guest>,
    hall: &mut Hall<Block>,
    slot: usize,
    lifter: &L,
    engine: &mut N,
    rules: Rules,
) -> Result<(), AllocError>
    requires low { slot < 64 }
    requires guests { AreGuests hall.old guests.old.items }
    requires rules { AreRules hall.old.case rules }
    ensures case { hall.new.case ≡ hall.old.case }
    ensures ok { OnOk result (TookTurn hall.old hall.new guests.old.items guests.new.items rules slot) }
    ensures err { OnErr result (BeganTurn hall.old hall.new guests.old.items rules slot) }
    ensures count { HasRun (N.count engine.old) (N.count engine.new) hall.old hall.new }
    ensures marks { (s : ℕ) → s ≢ slot → mark_at hall.new s ≡ mark_at hall.old s }
{
    hall.facts();
    match turn_alone(&mut guests[slot], hall, lifter, engine, rules) {
        Turned::Memory(e) => Err(e),
        _ => Ok(()),
    }
}

// No thread can go on: the run ends.
fn end_dead(hall: &mut Hall<Block>) -> Result<(), AllocError>
    requires going { (machine hall.old).ending ≡ None }
    requires dead { is_dead hall.old ≡ true }
    ensures case { hall.new.case ≡ hall.old.case }
    ensures ok { OnOk result (hall.new.journal ≡ hall.old.journal ++ entry.Dead ∷ []) }
    ensures err { OnErr result (hall.new.journal ≡ hall.old.journal) }
{
    hall.reserve(1)?;
    let _ended = hall.dead();
    Ok(())
}

/// A round: the turn of each slot, and the run's end where none of them made an entry.
pub(crate) fn round<L: Lifter, N: Engine>(
    guests: &mut Vec<Guest>,
    hall: &mut Hall<Block>,
    lifter: &L,
    engine: &mut N,
    rules: Rules,
) -> Result<(), AllocError>
    requires guests { AreGuests hall.old guests.old.items }
    requires rules { AreRules hall.old.case rules }
    requires going { (machine hall.old).ending ≡ None }
    requires next { HasRound hall.old guests.old.items rules }
    ensures case { hall.new.case ≡ hall.old.case }
    ensures ok { OnOk result (TookRound hall.old hall.new guests.old.items guests.new.items rules) }
    ensures guests { OnOk result ((machine hall.new).ending ≡ None → AreGuests hall.new guests.new.items) }
    ensures err { OnErr result (BeganRound hall.old hall.new guests.old.items rules) }
    ensures count { HasRun (N.count engine.old) (N.count engine.new) hall.old hall.new }
{
    hall.facts();
    let before = hall.length();
    for slot in 0..SLOTS as usize {
        turn_in_slot(guests, hall, slot, lifter, engine, rules)?;
    }
    if hall.length() == before {
        end_dead(hall)?;
    }
    Ok(())
}
