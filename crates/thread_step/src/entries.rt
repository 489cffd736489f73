//! A thread's turn.

ghost use Rattle.std.specs.Prelude.{◌≡◌, ◌+◌, ◌-◌, ◌<◌, ◌≤◌, OnOk, is_some, length};
ghost use Rattle.address_space.specs.Slots.{slot_of};
ghost use Rattle.guest_state.specs.declared.virtual_state.Virtual.{Virtual};
ghost use Rattle.machine_model.specs.Gated.{Stand};
ghost use Rattle.machine_model.specs.Ready.{HasGrown};
ghost use Rattle.machine_model.specs.Serial.{AtEvent};
ghost use Rattle.hall_core.specs.Hall.{both, machine};
ghost use Rattle.guest_parts.specs.Running.{Rises};
ghost use Rattle.guest_steps.specs.Ages.{AreAges};
ghost use Rattle.guest_entries.specs.Entered.{AlongIn, Asking, Entered};
ghost use Rattle.guest_entries.specs.Steps.{instruction_steps};
ghost use Rattle.thread_step.specs.Turned.{ActIs, AreRules, EntryIs, Ready, StopsIn, TurnIs, rule_of};

use crate::rules::{Rules, Turned};
use guest_entries::Lifter;
use guest_entries::access::{end, fail, fence, load, locked, store};
use guest_entries::call::call;
use guest_entries::growth::miss;
use guest_entries::settle::settle;
use guest_entries::tells::{over, tick};
use guest_parts::Engine;
use guest_steps::kept::Kept;
use guest_steps::own::Own;
use guest_steps::stretch::{Came, stretch};
use hall_core::Hall;
use ir_syntax::{Block, Request, Width};
use std::alloc::{AllocError, Global};

// For how many entries room is made at once.
const ROOM: u64 = 4096;

// The part under way asked for this, which is done.
fn ask(
    own: &mut Own,
    table: &mut Vec<Option<Kept>>,
    hall: &mut Hall<Block>,
    t: u32,
    request: Request,
)
    requires room { length own.old.ages + 1 < hall.old.spare }
    requires asks { (v : Virtual) × (d : Stand) × Asking hall.old t own.old table.old.items v d request }
    ensures { (v : Virtual) (d : Stand) → Asking hall.old t own.old table.old.items v d request → Entered hall.old hall.new t own.old own.new table.new.items d AtEvent }
{
    match request {
        Request::Load { a, w } => load(own, hall, t, a, w),
        Request::Locked { a, w, change } => locked(own, hall, t, a, w, change),
        Request::Store { a, w, v } => {
            let to = end(own);
            store(own, table, hall, t, a, w, v, to);
        }
        Request::StoreGo { a, v, target } => store(own, table, hall, t, a, Width::W64, v, target),
        Request::Fence => fence(own, table, hall, t),
        Request::Bad(kind) => fail(own, hall, t, kind),
        Request::Tick | Request::Go(_) => {}
    }
}

// What the thread does where its guest stopped.
fn act<L: Lifter>(
    own: &mut Own,
    table: &mut Vec<Option<Kept>>,
    hall: &mut Hall<Block>,
    t: u32,
    came: Came,
    lifter: &L,
) -> Result<bool, AllocError>
    requires room { length own.old.ages + 1 < hall.old.spare }
    requires grown { HasGrown hall.old.case.image (both hall.old) (slot_of t) }
    requires stops { (d : Stand) × StopsIn came hall.old t own.old table.old.items d }
    ensures { (d : Stand) → StopsIn came hall.old t own.old table.old.items d → ActIs result hall.old hall.new t own.old own.new table.new.items d (rule_of came) }
{
    match came {
        Came::Limit => {
            over(own, hall, t);
            Ok(false)
        }
        Came::Most => {
            tick(own, hall, t);
            Ok(false)
        }
        Came::Missing(a) => {
            miss(own, hall, t, a, lifter)?;
            Ok(false)
        }
        Came::Library(a, what) => call(own, hall, t, a, what),
        Came::Asks(request) => {
            ask(own, table, hall, t, request);
            Ok(false)
        }
    }
}

/// Room for the entries of one step of a turn.
pub(crate) fn make_place(hall: &mut Hall<Block>) -> Result<(), AllocError>
    ensures same { hall.new ≡ record hall.old { spare = hall.new.spare } }
    ensures ok { OnOk result (66 ≤ hall.new.spare) }
{
    if hall.spare() < 66 {
        hall.reserve(ROOM)?;
    }
    Ok(())
}

/// The private steps up to the thread's next entry of its budget, and that entry; true where it has to wait.
pub(crate) fn entry<L: Lifter, N: Engine>(
    alloc: Global,
    own: &mut Own,
    table: &mut Vec<Option<Kept>>,
    hall: &mut Hall<Block>,
    t: u32,
    lifter: &L,
    engine: &mut N,
) -> Result<bool, AllocError>
    requires { (d : Stand) × Ready hall.old t own.old table.old.items d }
    ensures entry { (d : Stand) → Ready hall.old t own.old table.old.items d → EntryIs result hall.old hall.new t own.old own.new table.new.items d }
    ensures count { Rises (N.count engine.old) (N.count engine.new) ((instruction_steps hall.old.case hall.new.journal + own.new.k) - (instruction_steps hall.old.case hall.old.journal + own.old.k)) }
{
    make_place(hall)?;
    let came = stretch(alloc, own, table, hall, engine)?;
    let _few = own.ages.len();
    act(own, table, hall, t, came, lifter)
}

/// Whether the run has an ending.
pub(crate) fn has_ended(hall: &Hall<Block>) -> bool
    ensures { result ≡ is_some (machine hall.now).ending }
{
    hall.ending().is_some()
}

/// The turn of thread `t`, whose guest keeps this of it.
pub(crate) fn turn<L: Lifter, N: Engine>(
    alloc: Global,
    own: &mut Own,
    table: &mut Vec<Option<Kept>>,
    hall: &mut Hall<Block>,
    t: u32,
    lifter: &L,
    engine: &mut N,
    rules: Rules,
) -> Turned
    requires rules { AreRules hall.old.case rules }
    requires ready { (d : Stand) × Ready hall.old t own.old table.old.items d }
    ensures turn { (d : Stand) → Ready hall.old t own.old table.old.items d → TurnIs result hall.old hall.new t rules own.old own.new table.new.items d }
    ensures count { Rises (N.count engine.old) (N.count engine.new) ((instruction_steps hall.old.case hall.new.journal + own.new.k) - (instruction_steps hall.old.case hall.old.journal + own.old.k)) }
{
    for _i in 0..rules.turn {
        match entry(alloc, own, table, hall, t, lifter, engine) {
            Err(e) => return Turned::Memory(e),
            Ok(true) => return Turned::Waiting,
            Ok(false) => {}
        }
        if has_ended(hall) {
            return Turned::Ended;
        }
        if !hall.is_live(t) {
            return Turned::Ran;
        }
    }
    if let Err(e) = make_place(hall) {
        return Turned::Memory(e);
    }
    let _few = own.ages.len();
    settle(hall, t, &mut own.ages, rules.hold);
    Turned::Ran
}
