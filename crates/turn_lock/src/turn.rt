//! The lock: taking the turn, giving it back, and the end.
ghost use Rattle.std.specs.Prelude.{◌≡◌, ◌<◌};

use crate::pass::{Held, Pass};
use crate::story::Story;
use crate::view::{Gathers, Gives, Law, Takes, View};
use atomic_table::{Seat, Table};
use std::alloc::Global;
use std::snapshot::Snapshot;
use std::sync::Wait;
use std::sync::atomic::AtomicU64;
use std::sync::atomic::Ordering::SeqCst;

/// A value that threads take in turn.
#[derive(Drop)]
pub struct Turn<T: Story> {
    pub(crate) table: Table<Option<T>, View<T>, (Snapshot<T>, u32), Law, Global>,
    pub(crate) count: u32,
    pub(crate) sleepers: AtomicU64,
    ghost sized: { (table.shared.table_id.words ≡ 2) × (table.shared.table_id.slots ≡ 1) × (table.shared.key.1 ≡ count) },
    ghost some: { 0 < count },
}

impl<T: Story> Turn<T> {
    ghost use Rattle.std.specs.Prelude.{◌+◌, ◌^◌, ◌%◌, ◌∷◌, [], length, All, Some};
    ghost use Rattle.std.specs.List.{flat_map};
    ghost use Rattle.std.specs.Bool.{OnTrue, OnFalse};
    ghost use Rattle.turn_lock.specs.Journal.{StartsWith, own, Adds};
    ghost use Rattle.turn_lock.specs.Lock.{lock_id, pass_count};
    ghost use Rattle.turn_lock.specs.Words.{lock_of, pass_number, pass_seen, pass_case, held_lock, held_value, held_number, held_case, taken, InOrder};
    ghost use Rattle.turn_lock.specs.Rule.{IsIdle, Won, holding, number_of, standing_for};

    /// Waits for the turn, and takes the value.
    pub fn take<R: Wait>(&self, rt: &R, pass: Pass<T>) -> Held<T>
        requires { lock_of pass ≡ lock_id self.now }
        ensures lock { held_lock result ≡ lock_id self.now }
        ensures number { held_number result ≡ pass_number pass }
        ensures taken { taken T.entries result ≡ T.entries (held_value result) }
        ensures same_case { (pass_case T.case pass ≡ Some (T.case (held_value result))) × (held_case T.case result ≡ Some (T.case (held_value result))) }
        ensures begins { StartsWith (T.entries (held_value result)) (pass_seen T.entries pass) }
        ensures own { own T.number (pass_number pass) (T.entries (held_value result)) ≡ own T.number (pass_number pass) (pass_seen T.entries pass) }
        ensures short { length (T.entries (held_value result)) < 2 ^ 62 }
    {
        let Pass { mut seat } = pass;
        self.wait_for(rt, &mut seat);
        self.take_out(seat)
    }

    /// Gives the value back, with what was added to its journal, and lets the next thread take it. It waits for nobody.
    pub fn give(&self, held: Held<T>) -> Pass<T>
        requires lock { held_lock held ≡ lock_id self.now }
        requires same_case { held_case T.case held ≡ Some (T.case (held_value held)) }
        requires added { Adds T.number (held_number held) (taken T.entries held) (T.entries (held_value held)) }
        requires short { length (T.entries (held_value held)) < 2 ^ 62 }
        ensures lock { lock_of result ≡ lock_id self.now }
        ensures number { pass_number result ≡ held_number held }
        ensures same_case { pass_case T.case result ≡ held_case T.case held }
        ensures seen { pass_seen T.entries result ≡ T.entries (held_value held) }
    {
        let Held { mut seat, value } = held;
        let next = 2 * value.length();
        let vacant = self.table.shared.exchange(&mut seat, 0, Some(value));
        let None = vacant else { unreachable!() };
        self.table.shared.swap::<Gives>(&mut seat, 0, next);
        if self.sleepers.load(SeqCst) > 0 {
            self.table.shared.wake_one(0);
        }
        Pass { seat }
    }

    /// Takes the value out for good, once all passes are back, in the order of their numbers.
    pub fn close(self, passes: Vec<Pass<T>>) -> T
        requires all { length passes.items ≡ pass_count self }
        requires lock { All (λ p. lock_of p ≡ lock_id self) passes.items }
        requires in_order { InOrder passes.items }
        ensures same_case { All (λ p. pass_case T.case p ≡ Some (T.case result)) passes.items }
        ensures begins { All (λ p. StartsWith (T.entries result) (pass_seen T.entries p)) passes.items }
        ensures own { All (λ p. own T.number (pass_number p) (T.entries result) ≡ own T.number (pass_number p) (pass_seen T.entries p)) passes.items }
    {
        let seat = self.gather(passes);
        let Turn {
            table,
            count: _,
            sleepers: _,
        } = self;
        let mut closed = table.close_with(seat);
        let left = closed.take(0);
        closed.free();
        let Some(value) = left else { unreachable!() };
        value
    }

    // One seat that stands for all these passes.
    fn gather(&self, mut passes: Vec<Pass<T>>) -> Seat<Option<T>, View<T>>
        requires some { 0 < length passes.items }
        requires lock { All (λ p. lock_of p ≡ lock_id self.now) passes.items }
        ensures lock { result.table_id ≡ lock_id self.now }
        ensures all { result.me ≡ (standing_for (flat_map (λ p. p.seat.me.0.passes) passes.items), []) }
    {
        let last = passes.pop();
        let Some(Pass { mut seat }) = last else {
            unreachable!()
        };
        while let Some(Pass { seat: other }) = passes.pop() {
            self.table.shared.join_seat::<Gathers>(&mut seat, other);
        }
        seat
    }

    // Until this seat has the turn.
    fn wait_for<R: Wait>(&self, rt: &R, seat: &mut Seat<Option<T>, View<T>>)
        requires lock { seat.old.table_id ≡ lock_id self.now }
        requires idle { IsIdle seat.old.me }
        ensures lock { seat.new.table_id ≡ seat.old.table_id }
        ensures won { Won T.case T.entries T.number seat.old.me seat.new.me }
    {
        for _ in rt.forever() {
            let found = self.table.shared.peek(0);
            if found % 2 == 1 {
                self.sleep(rt, found);
            } else if self.wins(seat, found) {
                return;
            }
        }
    }

    // Sleeps while word 0 is as it was found. Who gives the turn back wakes a sleeper, if one is counted.
    fn sleep<R: Wait>(&self, rt: &R, found: u64) {
        self.sleepers.fetch_add(1, SeqCst);
        self.table.shared.park(rt, 0, (found % (1 << 32)) as u32);
        self.sleepers.fetch_sub(1, SeqCst);
    }

    // Takes the turn, if word 0 is still as it was found.
    fn wins(&self, seat: &mut Seat<Option<T>, View<T>>, found: u64) -> bool
        requires lock { seat.old.table_id ≡ lock_id self.now }
        requires idle { IsIdle seat.old.me }
        requires free { found % 2 ≡ 0 }
        ensures lock { seat.new.table_id ≡ seat.old.table_id }
        ensures won { OnTrue result (Won T.case T.entries T.number seat.old.me seat.new.me) }
        ensures lost { OnFalse result (seat.new.me ≡ seat.old.me) }
    {
        let shared = &self.table.shared;
        shared.compare_exchange::<Takes>(seat, 0, found, found + 1) == found
    }

    // Takes the value out of the slot that this seat has.
    fn take_out(&self, mut seat: Seat<Option<T>, View<T>>) -> Held<T>
        requires lock { seat.table_id ≡ lock_id self.now }
        requires won { (y : T) × (seat.me ≡ (holding (number_of seat.me.0) y, (0, Some y) ∷ [])) }
        ensures seat { (result.seat.table_id ≡ seat.table_id) × (result.seat.me.0 ≡ seat.me.0) }
        ensures value { seat.me.1 ≡ (0, Some result.value) ∷ [] }
    {
        let taken = self.table.shared.exchange(&mut seat, 0, None);
        let Some(value) = taken else { unreachable!() };
        Held { seat, value }
    }
}
