//! A turn of a worker's thread: its private steps are made without the shared state, which it takes for each entry and gives
//! back at once.

ghost use Rattle.std.specs.Prelude.{◌≡◌, ◌≢◌, ◌+◌, ◌-◌, ◌<◌, ◌≤◌, ℕ, None, Some};
ghost use Rattle.address_space.specs.Slots.{slot_of};
ghost use Rattle.turn_lock.specs.declared.pass.Pass.{Pass as PassData};
ghost use Rattle.turn_lock.specs.Lock.{lock_id};
ghost use Rattle.turn_lock.specs.Words.{held_lock, held_number, held_value, lock_of, pass_number};
ghost use Rattle.machine_model.specs.Gated.{Leads, Stand, begin};
ghost use Rattle.hall_core.specs.Hall.{both, machine};
ghost use Rattle.guest_parts.specs.Running.{Rises};
ghost use Rattle.guest_entries.specs.Steps.{instruction_steps};
ghost use Rattle.thread_step.specs.Costs.{Spends, costs, slot_costs};
ghost use Rattle.thread_step.specs.Counts.{slot_steps};
ghost use Rattle.thread_step.specs.Context.{BudgetIs, EndsWith, GoesOn, HallOf, HoldsIn, IsContext, IsTaken, LookedIn, LookedIs, Runs, Saw, SteppedIn, SteppedIs, TookTurn, TurnedBy, TurnedIn, WorksIn, Wrote, context_pass, context_slot, context_steps, cost_in, wait_in};
ghost use Rattle.thread_step.specs.declared.rules.Turned.TheVariants as turned;
ghost use Rattle.thread_step.specs.Guest.{IsLeft, IsReady};
ghost use Rattle.thread_step.specs.Turned.{AreRules, Ready};

use crate::context::Context;
use crate::entries::{entry, has_ended, make_place};
use crate::guest::Guest;
use crate::rules::{Gate, Rules, Turned};
use crate::shared::SharedHall;
use guest_entries::Lifter;
use guest_entries::settle::settle;
use guest_parts::Engine;
use guest_steps::ahead::ahead;
use hall_core::Hall;
use ir_syntax::Block;
use std::alloc::AllocError;
use std::sync::Wait;
use turn_lock::{Held, Pass, Turn};

/// What the first look of a turn finds.
#[derive(Debug)]
pub(crate) enum Looked {
    /// The run has an ending.
    Ended,
    /// No thread lives in the slot.
    Idle,
    /// This thread lives in the slot, and the guest has begun it.
    Lives(u32),
}

/// What a step of a turn comes to.
#[derive(Debug, Drop)]
pub(crate) enum Stepped {
    /// An entry of the budget was made, and the thread goes on.
    On,
    /// The thread stands at a call that waits.
    Waits,
    /// The thread's life ended.
    Gone,
    /// The run has an ending.
    Ended,
    /// Memory was wanting.
    Memory(AllocError),
}

/// Takes the shared state. Its journal begins with what the pass saw, and what came after is of other slots.
pub(crate) fn take<R: Wait>(
    rt: &R,
    lock: &Turn<SharedHall>,
    pass: Pass<SharedHall>,
) -> Held<SharedHall>
    requires { lock_of pass ≡ lock_id lock.now }
    ensures lock { held_lock result ≡ lock_id lock.now }
    ensures number { held_number result ≡ pass_number pass }
    ensures taken { IsTaken result (held_value result) }
    ensures goes { (h : HallOf) → Saw pass h → GoesOn (pass_number pass) h (held_value result) }
{
    let mut held = lock.take(rt, pass);
    held.value().hall().facts();
    held
}

/// Gives the shared state back, with entries of the slot.
pub(crate) fn give(lock: &Turn<SharedHall>, held: Held<SharedHall>) -> Pass<SharedHall>
    requires lock { held_lock held ≡ lock_id lock.now }
    requires wrote { (h : HallOf) × IsTaken held h × Wrote (held_number held) h (held_value held) }
    ensures lock { lock_of result ≡ lock_id lock.now }
    ensures number { pass_number result ≡ held_number held }
    ensures saw { Saw result (held_value held) }
{
    let mut held = held;
    held.value().hall().facts();
    lock.give(held)
}

// The first look: a thread that lives in the slot is begun.
fn look_at(guest: &mut Guest, hall: &Hall<Block>) -> Looked
    requires ready { IsReady hall.now guest.old }
    ensures slot { guest.new.slot ≡ guest.old.slot }
    ensures told { guest.new.own.k ≡ guest.old.own.k }
    ensures looked { LookedIs result hall.now guest.old guest.new }
{
    if has_ended(hall) {
        return Looked::Ended;
    }
    let Some(t) = hall.thread_in(guest.slot) else {
        return Looked::Idle;
    };
    guest.enter(hall, t);
    Looked::Lives(t)
}

// The thread's next entry of the budget, where the run goes on.
fn step_in<L: Lifter, N: Engine>(
    guest: &mut Guest,
    hall: &mut Hall<Block>,
    t: u32,
    lifter: &L,
    engine: &mut N,
) -> Stepped
    requires low { guest.old.slot < 64 }
    requires runs { (machine hall.old).ending ≡ None → Runs hall.old t guest.old }
    ensures slot { guest.new.slot ≡ guest.old.slot }
    ensures case { hall.new.case ≡ hall.old.case }
    ensures spends { Spends t (cost_in result) (wait_in result) hall.old.journal hall.new.journal }
    ensures stepped { SteppedIs result hall.new t guest.new }
    ensures budget { BudgetIs result 1 (costs hall.old.journal) (costs hall.new.journal) }
    ensures count { Rises (N.count engine.old) (N.count engine.new) ((instruction_steps hall.old.case hall.new.journal + guest.new.own.k) - (instruction_steps hall.old.case hall.old.journal + guest.old.own.k)) }
{
    hall.facts();
    if has_ended(hall) {
        return Stepped::Ended;
    }
    let made = entry(
        guest.alloc,
        &mut guest.own,
        &mut guest.table,
        hall,
        t,
        lifter,
        engine,
    );
    hall.facts();
    match made {
        Err(e) => Stepped::Memory(e),
        Ok(true) => Stepped::Waits,
        Ok(false) => {
            if has_ended(hall) {
                Stepped::Ended
            } else if hall.is_live(t) {
                Stepped::On
            } else {
                Stepped::Gone
            }
        }
    }
}

// Private steps of the thread, as far as they need nothing of the shared state.
fn go_ahead<N: Engine>(guest: &mut Guest, engine: &mut N)
    requires runs { (h : HallOf) × (t : ℕ) × Runs h t guest.old }
    ensures slot { guest.new.slot ≡ guest.old.slot }
    ensures runs { (h : HallOf) (t : ℕ) → Runs h t guest.old → Runs h t guest.new }
    ensures count { Rises (N.count engine.old) (N.count engine.new) (guest.new.own.k - guest.old.own.k) }
{
    ahead(&mut guest.own, &mut guest.table, engine);
}

// The first look of a turn.
fn look<R: Wait>(
    rt: &R,
    lock: &Turn<SharedHall>,
    pass: Pass<SharedHall>,
    guest: &mut Guest,
) -> (Pass<SharedHall>, Looked)
    requires holds { (h : HallOf) × HoldsIn (lock_id lock.now) pass guest.old h }
    ensures lock { lock_of result.0 ≡ lock_id lock.now }
    ensures number { pass_number result.0 ≡ pass_number pass }
    ensures slot { guest.new.slot ≡ guest.old.slot }
    ensures told { guest.new.own.k ≡ guest.old.own.k }
    ensures looked { (h : HallOf) → HoldsIn (lock_id lock.now) pass guest.old h → LookedIn result.1 result.0 guest.old guest.new h }
{
    let mut held = take(rt, lock, pass);
    let looked = look_at(guest, held.value().hall());
    (give(lock, held), looked)
}

// Private steps, and the thread's next entry of the budget.
fn step<R: Wait, L: Lifter, N: Engine, G: Gate>(
    rt: &R,
    lock: &Turn<SharedHall>,
    pass: Pass<SharedHall>,
    guest: &mut Guest,
    t: u32,
    lifter: &L,
    engine: &mut N,
    gate: &G,
    nth: u64,
) -> (Pass<SharedHall>, Stepped)
    requires works { (h : HallOf) × WorksIn (lock_id lock.now) pass t guest.old h }
    ensures lock { lock_of result.0 ≡ lock_id lock.now }
    ensures number { pass_number result.0 ≡ pass_number pass }
    ensures slot { guest.new.slot ≡ guest.old.slot }
    ensures stepped { (h : HallOf) → WorksIn (lock_id lock.now) pass t guest.old h → SteppedIn result.1 result.0 t (cost_in result.1) (wait_in result.1) guest.new h }
    ensures budget { (h n : HallOf) → WorksIn (lock_id lock.now) pass t guest.old h → Saw result.0 n → BudgetIs result.1 1 (slot_costs guest.old.slot h.journal) (slot_costs guest.old.slot n.journal) }
    ensures count { (h n : HallOf) → WorksIn (lock_id lock.now) pass t guest.old h → Saw result.0 n → Rises (N.count engine.old) (N.count engine.new) ((slot_steps n.case guest.old.slot n.journal + guest.new.own.k) - (slot_steps h.case guest.old.slot h.journal + guest.old.own.k)) }
{
    go_ahead(guest, engine);
    gate.pass(t, nth);
    let mut held = take(rt, lock, pass);
    let stepped = step_in(guest, held.value().hall(), t, lifter, engine);
    (give(lock, held), stepped)
}

// At most so many entries of the budget.
fn steps<R: Wait, L: Lifter, N: Engine, G: Gate>(
    rt: &R,
    lock: &Turn<SharedHall>,
    pass: Pass<SharedHall>,
    guest: &mut Guest,
    t: u32,
    lifter: &L,
    engine: &mut N,
    gate: &G,
    made: &mut u64,
    budget: u32,
) -> (Pass<SharedHall>, Stepped)
    requires works { (h : HallOf) × WorksIn (lock_id lock.now) pass t guest.old h }
    ensures lock { lock_of result.0 ≡ lock_id lock.now }
    ensures number { pass_number result.0 ≡ pass_number pass }
    ensures slot { guest.new.slot ≡ guest.old.slot }
    ensures stepped { (h : HallOf) → WorksIn (lock_id lock.now) pass t guest.old h → SteppedIn result.1 result.0 t budget (wait_in result.1) guest.new h }
    ensures budget { (h n : HallOf) → WorksIn (lock_id lock.now) pass t guest.old h → Saw result.0 n → BudgetIs result.1 budget (slot_costs guest.old.slot h.journal) (slot_costs guest.old.slot n.journal) }
    ensures count { (h n : HallOf) → WorksIn (lock_id lock.now) pass t guest.old h → Saw result.0 n → Rises (N.count engine.old) (N.count engine.new) ((slot_steps n.case guest.old.slot n.journal + guest.new.own.k) - (slot_steps h.case guest.old.slot h.journal + guest.old.own.k)) }
{
    let mut pass = pass;
    for _i in 0..budget {
        let (back, stepped) = step(rt, lock, pass, guest, t, lifter, engine, gate, *made);
        pass = back;
        *made = made.wrapping_add(1);
        match stepped {
            Stepped::On => {}
            other => return (pass, other),
        }
    }
    (pass, Stepped::On)
}

// At a turn's end the waiting writes are older, and those that are too old go to memory.
fn grow_older(guest: &mut Guest, hall: &mut Hall<Block>, t: u32, hold: u32) -> Turned
    requires low { guest.old.slot < 64 }
    requires hold { hold ≤ 255 }
    requires runs { (machine hall.old).ending ≡ None → Runs hall.old t guest.old }
    ensures slot { guest.new.slot ≡ guest.old.slot }
    ensures case { hall.new.case ≡ hall.old.case }
    ensures spends { Spends t 0 0 hall.old.journal hall.new.journal }
    ensures told { guest.new.own.k ≡ guest.old.own.k }
    ensures steps { instruction_steps hall.old.case hall.new.journal ≡ instruction_steps hall.old.case hall.old.journal }
    ensures left { IsLeft result hall.new guest.new }
    ensures ends { EndsWith result hall.new }
    ensures lives { result ≢ turned.Idle }
{
    if has_ended(hall) {
        return Turned::Ended;
    }
    if let Err(e) = make_place(hall) {
        return Turned::Memory(e);
    }
    let _few = guest.own.ages.len();
    settle(hall, t, &mut guest.own.ages, hold);
    Turned::Ran
}

// The same, in the shared state's turn.
fn finish<R: Wait>(
    rt: &R,
    lock: &Turn<SharedHall>,
    pass: Pass<SharedHall>,
    guest: &mut Guest,
    t: u32,
    hold: u32,
) -> (Pass<SharedHall>, Turned)
    requires hold { hold ≤ 255 }
    requires works { (h : HallOf) × WorksIn (lock_id lock.now) pass t guest.old h }
    ensures lock { lock_of result.0 ≡ lock_id lock.now }
    ensures number { pass_number result.0 ≡ pass_number pass }
    ensures slot { guest.new.slot ≡ guest.old.slot }
    ensures left { (h : HallOf) → WorksIn (lock_id lock.now) pass t guest.old h → TurnedBy result.1 result.0 t 0 guest.new h }
    ensures told { guest.new.own.k ≡ guest.old.own.k }
    ensures steps { (h n : HallOf) → WorksIn (lock_id lock.now) pass t guest.old h → Saw result.0 n → slot_steps n.case guest.old.slot n.journal ≡ slot_steps h.case guest.old.slot h.journal }
    ensures lives { result.1 ≢ turned.Idle }
{
    let mut held = take(rt, lock, pass);
    let turned = grow_older(guest, held.value().hall(), t, hold);
    (give(lock, held), turned)
}

// The turn of a thread that lives in the slot.
fn run<R: Wait, L: Lifter, N: Engine, G: Gate>(
    rt: &R,
    lock: &Turn<SharedHall>,
    pass: Pass<SharedHall>,
    guest: &mut Guest,
    t: u32,
    lifter: &L,
    engine: &mut N,
    gate: &G,
    made: &mut u64,
    rules: Rules,
) -> (Pass<SharedHall>, Turned)
    requires hold { rules.hold ≤ 255 }
    requires works { (h : HallOf) × WorksIn (lock_id lock.now) pass t guest.old h }
    ensures lock { lock_of result.0 ≡ lock_id lock.now }
    ensures number { pass_number result.0 ≡ pass_number pass }
    ensures slot { guest.new.slot ≡ guest.old.slot }
    ensures left { (h : HallOf) → WorksIn (lock_id lock.now) pass t guest.old h → TurnedBy result.1 result.0 t rules.turn guest.new h }
    ensures count { (h n : HallOf) → WorksIn (lock_id lock.now) pass t guest.old h → Saw result.0 n → Rises (N.count engine.old) (N.count engine.new) ((slot_steps n.case guest.old.slot n.journal + guest.new.own.k) - (slot_steps h.case guest.old.slot h.journal + guest.old.own.k)) }
{
    let (pass, stepped) = steps(
        rt, lock, pass, guest, t, lifter, engine, gate, made, rules.turn,
    );
    match stepped {
        Stepped::On => finish(rt, lock, pass, guest, t, rules.hold),
        Stepped::Waits => (pass, Turned::Waiting),
        Stepped::Gone => (pass, Turned::Ran),
        Stepped::Ended => (pass, Turned::Ended),
        Stepped::Memory(e) => (pass, Turned::Memory(e)),
    }
}

// The turn of the slot's thread, with the context's pass.
fn turn_with<R: Wait, L: Lifter, N: Engine, G: Gate>(
    rt: &R,
    lock: &Turn<SharedHall>,
    pass: Pass<SharedHall>,
    guest: &mut Guest,
    lifter: &L,
    engine: &mut N,
    gate: &G,
    made: &mut u64,
    rules: Rules,
) -> (Pass<SharedHall>, Turned)
    requires hold { rules.hold ≤ 255 }
    requires holds { (h : HallOf) × HoldsIn (lock_id lock.now) pass guest.old h }
    ensures lock { lock_of result.0 ≡ lock_id lock.now }
    ensures number { pass_number result.0 ≡ pass_number pass }
    ensures slot { guest.new.slot ≡ guest.old.slot }
    ensures left { (h : HallOf) → HoldsIn (lock_id lock.now) pass guest.old h → TurnedIn result.1 result.0 rules.turn guest.new h }
    ensures count { (h n : HallOf) → HoldsIn (lock_id lock.now) pass guest.old h → Saw result.0 n → Rises (N.count engine.old) (N.count engine.new) ((slot_steps n.case guest.old.slot n.journal + guest.new.own.k) - (slot_steps h.case guest.old.slot h.journal + guest.old.own.k)) }
{
    let (pass, looked) = look(rt, lock, pass, guest);
    match looked {
        Looked::Ended => (pass, Turned::Ended),
        Looked::Idle => (pass, Turned::Idle),
        Looked::Lives(t) => run(rt, lock, pass, guest, t, lifter, engine, gate, made, rules),
    }
}

/// The turn of the thread that lives in the context's slot, beside turns of other slots: private steps are made without the
/// shared state, which is taken for each entry and given back at once. A gate is passed before each of them. At most
/// `rules.turn` entries cost of the budget, and at the turn's end the waiting writes that are too old go to memory.
///
/// `Ended`: the run has an ending. `Idle`: no thread lives in the slot, and no entry of it was added. `Waiting`: less than the
/// budget was spent, and the thread stands at a call that waits, with no private steps and no waiting writes. `Ran`: just the
/// budget was spent, or the thread's life ended. `Memory`: memory for entries, for a block at hand, for a call of the library or
/// for the growth of a place was wanting; the guest stands with its thread. All is said of the state at the turn's last look;
/// at `Waiting` and `Ran` the thread lived at the first one.
///
/// The engine's count rises at least by the steps of instructions of the slot's entries that were added, and by the private
/// steps since the last of them in place of those before the turn, or stands at its type's end.
pub fn turn<R: Wait, L: Lifter, N: Engine, G: Gate>(
    rt: &R,
    ctx: &mut Context,
    lock: &Turn<SharedHall>,
    lifter: &L,
    engine: &mut N,
    gate: &G,
    rules: Rules,
) -> Turned
    requires context { (h : HallOf) × IsContext (lock_id lock.now) ctx.old h × AreRules h.case rules }
    ensures took { (h : HallOf) → IsContext (lock_id lock.now) ctx.old h → TookTurn result (lock_id lock.now) rules.turn ctx.old ctx.new h }
    ensures count { (h n : HallOf) (p : PassData HallOf) → IsContext (lock_id lock.now) ctx.old h → context_pass ctx.new ≡ Some p → Saw p n → Rises (N.count engine.old) (N.count engine.new) ((slot_steps n.case (context_slot ctx.old) n.journal + context_steps ctx.new) - (slot_steps h.case (context_slot ctx.old) h.journal + context_steps ctx.old)) }
{
    let Some(pass) = ctx.pass.take() else {
        unreachable!()
    };
    let (pass, turned) = turn_with(
        rt,
        lock,
        pass,
        &mut ctx.guest,
        lifter,
        engine,
        gate,
        &mut ctx.made,
        rules,
    );
    ctx.pass = Some(pass);
    turned
}
