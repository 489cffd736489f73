//! Making a lock, and its passes.
ghost use Rattle.std.specs.Prelude.{◌≡◌, ◌<◌, ◌≤◌, ◌+◌, ◌^◌, ◌∷◌, [], length, All, IfOk, IfErr, Some, vec_capacity, vec_len};
ghost use Rattle.turn_lock.specs.Rule.{fresh};
ghost use Rattle.turn_lock.specs.Lock.{lock_id, pass_count};
ghost use Rattle.turn_lock.specs.Words.{lock_of, pass_number, pass_seen, pass_case, InOrder};

use crate::pass::Pass;
use crate::story::Story;
use crate::turn::Turn;
use crate::view::{Copies, Draws, View};
use atomic_table::{Refused, Seat, Table};
use std::alloc::{AllocError, AllocFailed, Global};
use std::snapshot::Snapshot;
use std::sync::Wait;
use std::sync::atomic::AtomicU64;

/// A lock round the value, with `n` passes to it, from 1 to 65, whose numbers are 0 to `n` - 1. Each has seen the value's journal.
/// It is refused for want of memory alone, and then the same value comes back.
pub fn make<T: Story, R: Wait>(
    rt: &R,
    alloc: Global,
    value: T,
    n: u32,
) -> Result<(Turn<T>, Vec<Pass<T>>), (T, AllocError)>
    requires count { (1 ≤ n) × (n ≤ 65) }
    requires short { length (T.entries value) < 2 ^ 62 }
    ensures count { IfOk result (λ r. (pass_count r.0 ≡ n) × (length r.1.items ≡ n)) }
    ensures lock { IfOk result (λ r. All (λ p. lock_of p ≡ lock_id r.0) r.1.items) }
    ensures in_order { IfOk result (λ r. InOrder r.1.items) }
    ensures same_case { IfOk result (λ r. All (λ p. pass_case T.case p ≡ Some (T.case value)) r.1.items) }
    ensures seen { IfOk result (λ r. All (λ p. pass_seen T.entries p ≡ T.entries value) r.1.items) }
    ensures refused { IfErr result (λ e. e.0 ≡ value) }
{
    let Ok(mut passes) = Vec::with_capacity(alloc, n as usize) else {
        return Err((value, AllocError));
    };
    match Turn::lay(alloc, value, n) {
        Ok((turn, seat)) => {
            turn.deal(rt, seat, &mut passes);
            Ok((turn, passes))
        }
        Err(value) => Err((value, AllocError)),
    }
}

impl<T: Story> Turn<T> {
    // The lock, and a first seat with no number.
    fn lay(alloc: Global, value: T, n: u32) -> Result<(Turn<T>, Seat<Option<T>, View<T>>), T>
        requires count { 1 ≤ n }
        requires short { length (T.entries value) < 2 ^ 62 }
        ensures count { IfOk result (λ r. r.0.count ≡ n) }
        ensures first { IfOk result (λ r. r.0.table.shared.key.0.value ≡ value) }
        ensures seat { IfOk result (λ r. (r.1.table_id ≡ lock_id r.0) × (r.1.me ≡ (fresh value, []))) }
        ensures refused { IfErr result (λ e. e ≡ value) }
    {
        let key = (Snapshot::of(&value), n);
        let words = [2 * value.length(), 0];
        let slots = slot_of(alloc, value)?;
        match Table::new(alloc, &words, slots, &key) {
            Ok((table, seat)) => Ok((
                Turn {
                    table,
                    count: n,
                    sleepers: AtomicU64::new(0),
                },
                seat,
            )),
            Err(Refused { slots }) => Err(value_of(slots)),
        }
    }

    // A pass for each number, in order.
    fn deal<R: Wait>(&self, rt: &R, mut seat: Seat<Option<T>, View<T>>, passes: &mut Vec<Pass<T>>)
        requires lock { seat.table_id ≡ lock_id self.now }
        requires fresh { seat.me ≡ (fresh self.now.table.shared.key.0.value, []) }
        requires room { (passes.old.items ≡ []) × (self.now.count ≤ vec_capacity passes.old) }
        ensures count { length passes.new.items ≡ pass_count self.now }
        ensures lock { All (λ p. lock_of p ≡ lock_id self.now) passes.new.items }
        ensures in_order { InOrder passes.new.items }
        ensures same_case { All (λ p. pass_case T.case p ≡ Some (T.case self.now.table.shared.key.0.value)) passes.new.items }
        ensures seen { All (λ p. pass_seen T.entries p ≡ T.entries self.now.table.shared.key.0.value) passes.new.items }
    {
        for i in 0..self.count {
            let next = self.table.shared.split_seat::<Copies>(&mut seat);
            let pushed = passes.push(self.draw(rt, next, i));
            let Ok(()) = pushed else { unreachable!() };
        }
    }

    // The pass with this number.
    fn draw<R: Wait>(&self, rt: &R, mut seat: Seat<Option<T>, View<T>>, number: u32) -> Pass<T>
        requires lock { seat.table_id ≡ lock_id self.now }
        requires fresh { seat.me ≡ (fresh self.now.table.shared.key.0.value, []) }
        requires below { number < self.now.count }
        ensures lock { lock_of result ≡ lock_id self.now }
        ensures number { pass_number result ≡ number }
        ensures same_case { pass_case T.case result ≡ Some (T.case self.now.table.shared.key.0.value) }
        ensures seen { pass_seen T.entries result ≡ T.entries self.now.table.shared.key.0.value }
    {
        let drawn = number as u64;
        let shared = &self.table.shared;
        for _ in rt.forever() {
            if shared.compare_exchange::<Draws>(&mut seat, 1, drawn, drawn + 1) == drawn {
                return Pass { seat };
            }
        }
        unreachable!()
    }
}

// The value in a row of one slot.
fn slot_of<T>(alloc: Global, value: T) -> Result<Vec<Option<T>>, T>
    ensures slot { IfOk result (λ v. v.items ≡ Some value ∷ []) }
    ensures refused { IfErr result (λ e. e ≡ value) }
{
    let mut slots = Vec::new(alloc);
    match slots.push(Some(value)) {
        Ok(()) => Ok(slots),
        Err(AllocFailed { value: slot }) => {
            slots.destroy_empty();
            let Some(value) = slot else { unreachable!() };
            Err(value)
        }
    }
}

// The value out of a row of one slot.
fn value_of<T>(mut slots: Vec<Option<T>>) -> T
    requires { (x : T) × (slots.items ≡ Some x ∷ []) }
    ensures { slots.items ≡ Some result ∷ [] }
{
    let last = slots.pop();
    slots.destroy_empty();
    let Some(Some(value)) = last else {
        unreachable!()
    };
    value
}
