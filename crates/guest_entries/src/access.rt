//! Steps of a thread that aren't private: accesses to memory, fences, and steps that can't be made.

ghost use Rattle.std.specs.Prelude.{◌≡◌, ◌+◌, ◌<◌, ◌∷◌, [], ℕ, List, None, IfSome, drop, length, slice_index};
ghost use Rattle.guest_state.specs.declared.virtual_state.Virtual.{Virtual};
ghost use Rattle.ir_meaning.specs.Does.{answered};
ghost use Rattle.ir_meaning.specs.Ready.{Answers};
ghost use Rattle.ir_syntax.specs.declared.block.Part.{Part as PartData};
ghost use Rattle.ir_syntax.specs.declared.request.Request.TheVariants as ask;
ghost use Rattle.machine_model.specs.Gated.{Stand};
ghost use Rattle.machine_model.specs.Serial.{AtEvent};
ghost use Rattle.guest_parts.specs.Standing.{end_of, has_more, places_of};
ghost use Rattle.guest_steps.specs.declared.own.Position.TheVariants as at;
ghost use Rattle.guest_steps.specs.Kept.{KeptData, Table};
ghost use Rattle.guest_entries.specs.Entered.{Asking, Entered, Passed, StoresBy};

use crate::flushes::{flush_all, make_room};
use guest_parts::entries_leave_guests;
use guest_steps::kept::Kept;
use guest_steps::own::{Own, Position};
use guest_steps::stretch::leave;
use hall_core::Hall;
use ir_syntax::{BadKind, Block, Change, Request, Width};
use machine_model::conversions::{request_change, request_kind, request_width};

// Where the instruction under way stands; 0 between blocks.
fn here(own: &Own) -> u64
    requires { (kept : KeptData) (part : ℕ) → own.now.at ≡ at.Inside kept part → part < length kept.block.parts }
    ensures { (kept : KeptData) (part : ℕ) → own.now.at ≡ at.Inside kept part → result ≡ slice_index (places_of kept.image kept.block) part }
{
    match &own.at {
        Position::Inside { kept, part } => kept.place(*part),
        Position::Between(_) => 0,
    }
}

// The answer of memory goes to the part that asked for it, and the guest is before the next part. Without an answer
// nothing is done.
fn answered(own: &mut Own, value: Option<u64>)
    requires inside { (kept : KeptData) (part : ℕ) → own.old.at ≡ at.Inside kept part → part + 1 < length kept.block.parts }
    requires takes { (kept : KeptData) (part : ℕ) (p : PartData) (ps : List PartData) → own.old.at ≡ at.Inside kept part → drop part kept.block.parts ≡ p ∷ ps → IfSome value (λ x. Answers p.end x) }
    ensures some { (kept : KeptData) (part : ℕ) (p : PartData) (ps : List PartData) → own.old.at ≡ at.Inside kept part → drop part kept.block.parts ≡ p ∷ ps → IfSome value (λ x. own.new ≡ record own.old { state = answered p.end x own.old.state; at = at.Inside kept (part + 1) }) }
    ensures none { value ≡ None → own.new ≡ own.old }
{
    if let Some(x) = value {
        if let Position::Inside { kept, part } = &mut own.at {
            kept.answer(*part, &mut own.state, x);
            *part = kept.after(*part);
        }
    }
}

// After a part that finishes its instruction the guest is before the next part, or, after the last one, out of the block.
fn pass_on(own: &mut Own, table: &mut Vec<Option<Kept>>, to: u64)
    requires inside { (kept : KeptData) (part : ℕ) → own.old.at ≡ at.Inside kept part → part < length kept.block.parts }
    ensures { (kept : KeptData) (part : ℕ) → own.old.at ≡ at.Inside kept part → Passed kept part to own.old own.new table.old.items table.new.items }
{
    if has_more(own) {
        step_on(own);
    } else {
        leave(own, table, to);
    }
}

// Whether parts of the block follow the one under way.
fn has_more(own: &Own) -> bool
    ensures { (kept : KeptData) (part : ℕ) → own.now.at ≡ at.Inside kept part → result ≡ has_more kept.block part }
{
    match &own.at {
        Position::Inside { kept, part } => kept.has_more(*part),
        Position::Between(_) => false,
    }
}

// The guest is before the next part.
fn step_on(own: &mut Own)
    requires { (kept : KeptData) (part : ℕ) → own.old.at ≡ at.Inside kept part → part < length kept.block.parts }
    ensures { (kept : KeptData) (part : ℕ) → own.old.at ≡ at.Inside kept part → own.new ≡ record own.old { at = at.Inside kept (part + 1) } }
{
    if let Position::Inside { kept, part } = &mut own.at {
        *part = kept.after(*part);
    }
}

/// The address after the block under way; 0 between blocks.
pub fn end(own: &Own) -> u64
    ensures { (kept : KeptData) (part : ℕ) → own.now.at ≡ at.Inside kept part → result ≡ end_of kept.block }
{
    match &own.at {
        Position::Inside { kept, .. } => kept.end(),
        Position::Between(_) => 0,
    }
}

/// A load: its value goes to the part that asked for it. Where it is refused the run ends.
pub fn load(own: &mut Own, hall: &mut Hall<Block>, t: u32, a: u64, w: Width)
    requires room { 0 < hall.old.spare }
    requires asks { (table : Table) × (v : Virtual) × (d : Stand) × Asking hall.old t own.old table v d (ask.Load a w) }
    ensures { (table : Table) (v : Virtual) (d : Stand) → Asking hall.old t own.old table v d (ask.Load a w) → Entered hall.old hall.new t own.old own.new table d AtEvent }
{
    entries_leave_guests();
    let rip = here(own);
    let value = hall.load(t, own.k, rip, a, request_width(w));
    answered(own, value);
    own.k = 0;
}

/// A locked access: what memory held goes to the part that asked for it. Where it is refused the run ends.
pub fn locked(own: &mut Own, hall: &mut Hall<Block>, t: u32, a: u64, w: Width, change: Change)
    requires room { length own.old.ages < hall.old.spare }
    requires asks { (table : Table) × (v : Virtual) × (d : Stand) × Asking hall.old t own.old table v d (ask.Locked a w change) }
    ensures { (table : Table) (v : Virtual) (d : Stand) → Asking hall.old t own.old table v d (ask.Locked a w change) → Entered hall.old hall.new t own.old own.new table d AtEvent }
{
    flush_all(hall, t, &mut own.ages);
    exchange(own, hall, t, a, w, change);
}

// The same, where no write waits.
fn exchange(own: &mut Own, hall: &mut Hall<Block>, t: u32, a: u64, w: Width, change: Change)
    requires room { 0 < hall.old.spare }
    requires none { own.old.ages ≡ [] }
    requires asks { (table : Table) × (v : Virtual) × (d : Stand) × Asking hall.old t own.old table v d (ask.Locked a w change) }
    ensures { (table : Table) (v : Virtual) (d : Stand) → Asking hall.old t own.old table v d (ask.Locked a w change) → Entered hall.old hall.new t own.old own.new table d AtEvent }
{
    entries_leave_guests();
    let rip = here(own);
    let value = hall.locked(t, own.k, rip, a, request_width(w), request_change(change));
    answered(own, value);
    own.k = 0;
}

/// A store, after which the guest is before the next part or at `to`: the write waits. Where it is refused the run ends.
pub fn store(
    own: &mut Own,
    table: &mut Vec<Option<Kept>>,
    hall: &mut Hall<Block>,
    t: u32,
    a: u64,
    w: Width,
    value: u64,
    to: u64,
)
    requires room { 1 < hall.old.spare }
    requires asks { (v : Virtual) × (d : Stand) × (r : Request) × StoresBy r a w value to own.old.at × Asking hall.old t own.old table.old.items v d r }
    ensures { (v : Virtual) (d : Stand) (r : Request) → StoresBy r a w value to own.old.at → Asking hall.old t own.old table.old.items v d r → Entered hall.old hall.new t own.old own.new table.new.items d AtEvent }
{
    make_room(hall, t, &mut own.ages);
    write(own, table, hall, t, a, w, value, to);
}

// The same, where fewer than 64 writes wait.
fn write(
    own: &mut Own,
    table: &mut Vec<Option<Kept>>,
    hall: &mut Hall<Block>,
    t: u32,
    a: u64,
    w: Width,
    value: u64,
    to: u64,
)
    requires room { 0 < hall.old.spare }
    requires few { length own.old.ages < 64 }
    requires asks { (v : Virtual) × (d : Stand) × (r : Request) × StoresBy r a w value to own.old.at × Asking hall.old t own.old table.old.items v d r }
    ensures { (v : Virtual) (d : Stand) (r : Request) → StoresBy r a w value to own.old.at → Asking hall.old t own.old table.old.items v d r → Entered hall.old hall.new t own.old own.new table.new.items d AtEvent }
{
    entries_leave_guests();
    let rip = here(own);
    let _stored = hall.store(t, own.k, rip, a, request_width(w), value);
    own.ages.push();
    own.k = 0;
    pass_on(own, table, to);
}

/// A fence.
pub fn fence(own: &mut Own, table: &mut Vec<Option<Kept>>, hall: &mut Hall<Block>, t: u32)
    requires room { length own.old.ages < hall.old.spare }
    requires asks { (v : Virtual) × (d : Stand) × Asking hall.old t own.old table.old.items v d ask.Fence }
    ensures { (v : Virtual) (d : Stand) → Asking hall.old t own.old table.old.items v d ask.Fence → Entered hall.old hall.new t own.old own.new table.new.items d AtEvent }
{
    flush_all(hall, t, &mut own.ages);
    pass_fence(own, table, hall, t);
}

// The same, where no write waits.
fn pass_fence(own: &mut Own, table: &mut Vec<Option<Kept>>, hall: &mut Hall<Block>, t: u32)
    requires room { 0 < hall.old.spare }
    requires none { own.old.ages ≡ [] }
    requires asks { (v : Virtual) × (d : Stand) × Asking hall.old t own.old table.old.items v d ask.Fence }
    ensures { (v : Virtual) (d : Stand) → Asking hall.old t own.old table.old.items v d ask.Fence → Entered hall.old hall.new t own.old own.new table.new.items d AtEvent }
{
    entries_leave_guests();
    hall.fence(t, own.k);
    own.k = 0;
    let to = end(own);
    pass_on(own, table, to);
}

/// A step that can't be made: the run ends.
pub fn fail(own: &mut Own, hall: &mut Hall<Block>, t: u32, kind: BadKind)
    requires room { 0 < hall.old.spare }
    requires asks { (table : Table) × (v : Virtual) × (d : Stand) × Asking hall.old t own.old table v d (ask.Bad kind) }
    ensures { (table : Table) (v : Virtual) (d : Stand) → Asking hall.old t own.old table v d (ask.Bad kind) → Entered hall.old hall.new t own.old own.new table d AtEvent }
{
    entries_leave_guests();
    let rip = here(own);
    hall.bad(t, own.k, rip, request_kind(kind));
    own.k = 0;
}
