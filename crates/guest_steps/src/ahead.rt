//! Private steps of a thread that need nothing of the shared state.

ghost use Rattle.std.specs.Prelude.{◌≡◌, ◌≤◌, ◌<◌, ◌-◌, ℕ, true};
ghost use Rattle.machine_model.specs.CaseData.{CaseData};
ghost use Rattle.machine_model.specs.Gated.{Both, Stand};
ghost use Rattle.guest_parts.specs.Running.{Rises};
ghost use Rattle.guest_steps.specs.Ahead.{Strode};
ghost use Rattle.guest_steps.specs.Kept.{KeptData};
ghost use Rattle.guest_steps.specs.declared.own.Position.TheVariants as at;
ghost use Rattle.guest_steps.specs.Own.{Along};

use crate::kept::{Kept, take};
use crate::own::{Own, Position};
use crate::stretch::leave;
use guest_parts::{Engine, Stop, parts_follow_their_thread};
use guest_state::Virtual;

// The guest is back where it was in its block.
fn put_back(own: &mut Own, state: Virtual, part: usize, k: u32)
    ensures { (x : KeptData) (n : ℕ) → own.old.at ≡ at.Inside x n → own.new ≡ record own.old { state = state; at = at.Inside x part; k = k } }
{
    own.state = state;
    own.k = k;
    if let Position::Inside { part: there, .. } = &mut own.at {
        *there = part;
    }
}

// Runs the parts of the block under way that ask for nothing; whether the guest left the block.
fn run_quiet<N: Engine>(own: &mut Own, table: &mut Vec<Option<Kept>>, engine: &mut N) -> bool
    requires along { (c : CaseData) × (b : Both) × (t : ℕ) × (d : Stand) × Along c b t own.old table.old.items d }
    ensures ahead { (c : CaseData) (b : Both) (t : ℕ) (d : Stand) → Along c b t own.old table.old.items d → (e : Stand) × Strode c b t own.old own.new table.new.items d e }
    ensures later { own.old.k ≤ own.new.k }
    ensures further { result ≡ true → own.old.k < own.new.k }
    ensures count { Rises (N.count engine.old) (N.count engine.new) (own.new.k - own.old.k) }
{
    parts_follow_their_thread();
    let Position::Inside { kept, part } = &mut own.at else {
        return false;
    };
    let most = kept.quiet_to(*part, own.k);
    let (state, first, k) = (own.state, *part, own.k);
    match kept.run(part, &mut own.k, most, &mut own.state, engine) {
        Stop::Most => false,
        Stop::Left(to) => {
            leave(own, table, to);
            true
        }
        Stop::Asks(_) => {
            put_back(own, state, first, k);
            false
        }
    }
}

// The guest begins the block at hand where it is between blocks, if it has one.
fn begin_kept(own: &mut Own, table: &mut Vec<Option<Kept>>)
    ensures along { (c : CaseData) (b : Both) (t : ℕ) (d : Stand) → Along c b t own.old table.old.items d → Along c b t own.new table.new.items d }
    ensures own { own.new ≡ record own.old { at = own.new.at } }
{
    parts_follow_their_thread();
    if let Position::Between(a) = own.at {
        if let Some(kept) = take(table, a) {
            kept.facts();
            own.at = Position::Inside { kept, part: 0 };
        }
    }
}

// The quiet steps of one block; whether more may follow.
fn stride<N: Engine>(own: &mut Own, table: &mut Vec<Option<Kept>>, engine: &mut N) -> bool
    requires along { (c : CaseData) × (b : Both) × (t : ℕ) × (d : Stand) × Along c b t own.old table.old.items d }
    ensures ahead { (c : CaseData) (b : Both) (t : ℕ) (d : Stand) → Along c b t own.old table.old.items d → (e : Stand) × Strode c b t own.old own.new table.new.items d e }
    ensures later { own.old.k ≤ own.new.k }
    ensures further { result ≡ true → own.old.k < own.new.k }
    ensures count { Rises (N.count engine.old) (N.count engine.new) (own.new.k - own.old.k) }
{
    begin_kept(own, table);
    run_quiet(own, table, engine)
}

/// Makes private steps of a thread as far as the blocks at hand lead and ask for nothing, without the shared state. The guest
/// stands with its thread as before, some private steps further.
pub fn ahead<N: Engine>(own: &mut Own, table: &mut Vec<Option<Kept>>, engine: &mut N)
    requires along { (c : CaseData) × (b : Both) × (t : ℕ) × (d : Stand) × Along c b t own.old table.old.items d }
    ensures ahead { (c : CaseData) (b : Both) (t : ℕ) (d : Stand) → Along c b t own.old table.old.items d → (e : Stand) × Strode c b t own.old own.new table.new.items d e }
    ensures later { own.old.k ≤ own.new.k }
    ensures count { Rises (N.count engine.old) (N.count engine.new) (own.new.k - own.old.k) }
{
    while stride(own, table, engine) {}
}
