//! The private steps of a thread, up to its next entry.

ghost use Rattle.std.specs.Prelude.{◌≡◌, ◌≤◌, ◌<◌, ◌+◌, ◌-◌, ◌==◌, ℕ, List, Ok, if◌then◌else◌, length, min, slice_index};
ghost use Rattle.elf_image.specs.Layout.{ImageData};
ghost use Rattle.machine_model.specs.CaseData.{CaseData};
ghost use Rattle.machine_model.specs.Gated.{Both, Stand};
ghost use Rattle.hall_core.specs.Hall.{both, machine};
ghost use Rattle.guest_parts.specs.Running.{Rises};
ghost use Rattle.guest_parts.specs.Standing.{places_of};
ghost use Rattle.guest_steps.specs.declared.own.Position.TheVariants as at;
ghost use Rattle.guest_steps.specs.Kept.{AreKept, IsKept, KeptData};
ghost use Rattle.guest_steps.specs.Own.{Along};
ghost use Rattle.guest_steps.specs.declared.stretch.Came.TheVariants as came;
ghost use Rattle.guest_steps.specs.Stretched.{OneIs, Progresses, StretchIs, WentFurther, WentIs, WentWithin, parts_by, parts_for, parts_of, stop_of};

use crate::begin::{Begun, begin};
use crate::kept::{Kept, put};
use crate::own::{Own, Position};
use guest_parts::{Engine, Stop, parts_follow_their_thread};
use hall_core::Hall;
use ir_syntax::{Block, Request};
use lib_table::Asked;
use std::alloc::{AllocError, Global};
use std::mem;

/// What running the block under way comes to.
#[derive(Debug)]
pub enum Went {
    /// The guest is in no block.
    Nowhere,
    /// The block is left.
    Left,
    /// No more private steps may be made.
    Most,
    /// The part that was run last asks for this.
    Asks(Request),
}

/// Why a guest stops before its thread's next entry.
#[derive(Debug)]
pub enum Came {
    /// The limit of steps is reached.
    Limit,
    /// So many private steps were made as may be before they are told.
    Most,
    /// No block is grown at this place.
    Missing(u64),
    /// The thread asks this of the library, at this place.
    Library(u64, Asked),
    /// The part that was run last asks for this.
    Asks(Request),
}

/// The guest is out of the block under way, after the part that it was at, and keeps the block at hand.
pub fn leave(own: &mut Own, table: &mut Vec<Option<Kept>>, to: u64)
    requires { (kept : KeptData) (part : ℕ) → own.old.at ≡ at.Inside kept part → part < length kept.block.parts }
    ensures own { (kept : KeptData) (part : ℕ) → own.old.at ≡ at.Inside kept part → own.new ≡ record own.old { at = at.Between to; last = slice_index (places_of kept.image kept.block) part } }
    ensures table { (kept : KeptData) (part : ℕ) (image : ImageData) (grown : List ℕ) → own.old.at ≡ at.Inside kept part → AreKept image grown table.old.items → IsKept image grown kept → AreKept image grown table.new.items }
{
    if let Position::Inside { kept, part } = mem::replace(&mut own.at, Position::Between(to)) {
        own.last = kept.place(part);
        put(table, kept);
    }
}

// Runs the block under way, if there is one.
fn go<N: Engine>(own: &mut Own, table: &mut Vec<Option<Kept>>, most: u32, engine: &mut N) -> Went
    requires along { (c : CaseData) × (b : Both) × (t : ℕ) × (d : Stand) × Along c b t own.old table.old.items d }
    requires few { own.old.k ≤ most }
    ensures went { (c : CaseData) (b : Both) (t : ℕ) (d : Stand) → Along c b t own.old table.old.items d → b.machine.steps + most ≤ c.limit → most ≤ 4096 → WentIs result c b t own.old own.new table.new.items d }
    ensures few { WentWithin result own.new.k most }
    ensures further { WentFurther result own.old own.new }
    ensures later { own.old.k ≤ own.new.k }
    ensures count { Rises (N.count engine.old) (N.count engine.new) (parts_by result (own.new.k - own.old.k)) }
{
    parts_follow_their_thread();
    let Position::Inside { kept, part } = &mut own.at else {
        return Went::Nowhere;
    };
    match kept.run(part, &mut own.k, most, &mut own.state, engine) {
        Stop::Most => Went::Most,
        Stop::Asks(request) => Went::Asks(request),
        Stop::Left(to) => {
            leave(own, table, to);
            Went::Left
        }
    }
}

// How many private steps may be made in all, where so many are left below the limit.
fn most_of(left: u64) -> u32
    ensures { result ≡ min left 4096 }
{
    if left < 4096 { left as u32 } else { 4096 }
}

// At a call, after k private steps.
fn at_call(k: u32, a: u64, what: Asked) -> Came
    ensures { result ≡ (if k == 4096 then came.Most else came.Library a what) }
{
    if k == 4096 {
        Came::Most
    } else {
        Came::Library(a, what)
    }
}

// Where the guest stops after its block was run, if it does.
fn stop_of(went: Went, k: u32, left: u64) -> Option<Came>
    ensures { result ≡ stop_of went k left }
{
    match went {
        Went::Nowhere | Went::Left => None,
        Went::Most => Some(if u64::from(k) >= left {
            Came::Limit
        } else {
            Came::Most
        }),
        Went::Asks(request) => Some(Came::Asks(request)),
    }
}

/// Runs the block under way: where the guest stops, if it does.
pub fn run_block<N: Engine>(
    own: &mut Own,
    table: &mut Vec<Option<Kept>>,
    left: u64,
    engine: &mut N,
) -> Option<Came>
    requires along { (c : CaseData) × (b : Both) × (t : ℕ) × (d : Stand) × Along c b t own.old table.old.items d }
    requires inside { (x : KeptData) × (n : ℕ) × (own.old.at ≡ at.Inside x n) }
    requires room { own.old.k < left }
    ensures one { (c : CaseData) (b : Both) (t : ℕ) (d : Stand) → Along c b t own.old table.old.items d → left ≡ c.limit - b.machine.steps → OneIs (Ok result) c b t own.old own.new table.new.items d }
    ensures later { own.old.k ≤ own.new.k }
    ensures progress { Progresses (Ok result) own.old.k own.new.k }
    ensures count { Rises (N.count engine.old) (N.count engine.new) (parts_of (Ok result) (own.new.k - own.old.k)) }
{
    let went = go(own, table, most_of(left), engine);
    stop_of(went, own.k, left)
}

// One block's private steps, begun before it where the guest is between blocks: where the guest stops, if it does.
fn one<N: Engine>(
    alloc: Global,
    own: &mut Own,
    table: &mut Vec<Option<Kept>>,
    hall: &Hall<Block>,
    left: u64,
    engine: &mut N,
) -> Result<Option<Came>, AllocError>
    requires along { (t : ℕ) × (d : Stand) × Along hall.now.case (both hall.now) t own.old table.old.items d }
    requires left { left ≡ hall.now.case.limit - (machine hall.now).steps }
    ensures one { (t : ℕ) (d : Stand) → Along hall.now.case (both hall.now) t own.old table.old.items d → OneIs result hall.now.case (both hall.now) t own.old own.new table.new.items d }
    ensures later { own.old.k ≤ own.new.k }
    ensures progress { Progresses result own.old.k own.new.k }
    ensures count { Rises (N.count engine.old) (N.count engine.new) (parts_of result (own.new.k - own.old.k)) }
{
    if u64::from(own.k) >= left {
        return Ok(Some(Came::Limit));
    }
    let Position::Between(a) = own.at else {
        return Ok(run_block(own, table, left, engine));
    };
    match begin(alloc, own, table, hall, a)? {
        Begun::Inside => Ok(run_block(own, table, left, engine)),
        Begun::Missing => Ok(Some(Came::Missing(a))),
        Begun::Library(what) => Ok(Some(at_call(own.k, a, what))),
    }
}

/// Makes the private steps of a thread up to where its next entry comes, at most so many as may be made before they are told.
///
/// # Errors
///
/// Memory for a block at hand is wanting; the guest stands with its thread.
pub fn stretch<N: Engine>(
    alloc: Global,
    own: &mut Own,
    table: &mut Vec<Option<Kept>>,
    hall: &Hall<Block>,
    engine: &mut N,
) -> Result<Came, AllocError>
    requires along { (t : ℕ) × (d : Stand) × Along hall.now.case (both hall.now) t own.old table.old.items d }
    ensures stretch { (t : ℕ) (d : Stand) → Along hall.now.case (both hall.now) t own.old table.old.items d → StretchIs result hall.now.case (both hall.now) t own.old own.new table.new.items d }
    ensures later { own.old.k ≤ own.new.k }
    ensures count { Rises (N.count engine.old) (N.count engine.new) (parts_for result (own.new.k - own.old.k)) }
{
    let left = hall.steps_left();
    loop {
        if let Some(came) = one(alloc, own, table, hall, left, engine)? {
            return Ok(came);
        }
    }
}
