ghost use Rattle.std.specs.Prelude.{◌≡◌, ◌<◌, ◌≤◌, ◌^◌, [], ◌∷◌, length, All, IfOk, IfSome};
ghost use Rattle.turn_lock.specs.Lock.{lock_id, pass_count};
ghost use Rattle.std.specs.Thread.{IsSync};
ghost use Rattle.turn_lock.specs.Journal.{Adds};
ghost use Rattle.turn_lock.specs.Words.{lock_of, pass_number, InOrder};

use crate::{Pass, Story, Turn, make};
use std::alloc::{AllocError, Global};
use std::mem::size_of;
use std::sync::Wait;
use std::test::Fail;
use std::thread::{Threads, join};

// Whose numbers they are, and the numbers, each an entry that bears itself.
#[derive(Drop)]
struct Tally {
    owner: u32,
    numbers: Vec<u32>,
}

impl Story for Tally {
    type Case = u32;

    type Entry = u32;

    ghost case = { λ t. t.owner };

    ghost entries = { λ t. t.numbers.items };

    ghost number = { λ e. e };

    fn length(&self) -> u64 {
        self.numbers.len() as u64
    }
}

impl Tally {
    // One more number, where there is memory for it and the list is short.
    fn add(&mut self, number: u32)
        requires { length self.old.numbers.items < 2 ^ 62 }
        ensures short { length self.new.numbers.items < 2 ^ 62 }
        ensures added { Adds (λ e. e) number self.old.numbers.items self.new.numbers.items }
        ensures owner { self.new.owner ≡ self.old.owner }
    {
        if self.numbers.len() < 1_000_000 {
            let _ = self.numbers.push(number);
        }
    }

    fn count(&self, number: u32) -> usize {
        self.numbers.iter().filter(|x| **x == number).count()
    }
}

// Takes the turn so often, and adds the number of the pass each time.
fn add_often<R: Wait>(
    rt: &R,
    turn: &Turn<Tally>,
    mut pass: Pass<Tally>,
    number: u32,
    times: u32,
) -> Pass<Tally>
    requires lock { lock_of pass ≡ lock_id turn.now }
    requires number { pass_number pass ≡ number }
    ensures lock { lock_of result ≡ lock_id turn.now }
    ensures number { pass_number result ≡ number }
{
    for _ in 0..times {
        let mut held = turn.take(rt, pass);
        held.value().add(number);
        pass = turn.give(held);
    }
    pass
}

fn add_two<R: Threads + Wait + Sync>(
    rt: &R,
    turn: &Turn<Tally>,
    one: Pass<Tally>,
    two: Pass<Tally>,
) -> (Pass<Tally>, Pass<Tally>)
    requires lock { (lock_of one ≡ lock_id turn.now) × (lock_of two ≡ lock_id turn.now) }
    requires number { (pass_number one ≡ 1) × (pass_number two ≡ 2) }
    ensures lock { (lock_of result.0 ≡ lock_id turn.now) × (lock_of result.1 ≡ lock_id turn.now) }
    ensures number { (pass_number result.0 ≡ 1) × (pass_number result.1 ≡ 2) }
{
    join(
        rt,
        || add_often(rt, turn, one, 1, 100),
        || add_often(rt, turn, two, 2, 100),
    )
}

// Three threads take the turn 100 times each.
fn add_three<R: Threads + Wait + Sync>(
    rt: &R,
    turn: &Turn<Tally>,
    zero: Pass<Tally>,
    one: Pass<Tally>,
    two: Pass<Tally>,
) -> (Pass<Tally>, (Pass<Tally>, Pass<Tally>))
    requires lock { (lock_of zero ≡ lock_id turn.now) × (lock_of one ≡ lock_id turn.now) × (lock_of two ≡ lock_id turn.now) }
    requires number { (pass_number zero ≡ 0) × (pass_number one ≡ 1) × (pass_number two ≡ 2) }
    ensures lock { (lock_of result.0 ≡ lock_id turn.now) × (lock_of result.1.0 ≡ lock_id turn.now) × (lock_of result.1.1 ≡ lock_id turn.now) }
    ensures number { (pass_number result.0 ≡ 0) × (pass_number result.1.0 ≡ 1) × (pass_number result.1.1 ≡ 2) }
{
    join(
        rt,
        || add_often(rt, turn, zero, 0, 100),
        || -> (Pass<Tally>, Pass<Tally>)
            requires { IsSync R.row × (lock_of one ≡ lock_id turn.now) × (lock_of two ≡ lock_id turn.now) × (pass_number one ≡ 1) × (pass_number two ≡ 2) }
            ensures { (lock_of result.0 ≡ lock_id turn.entry.now) × (lock_of result.1 ≡ lock_id turn.entry.now) × (pass_number result.0 ≡ 1) × (pass_number result.1 ≡ 2) }
        { add_two(rt, turn, one, two) },
    )
}

// The three passes of a row, each with the number of its place.
fn three_of(
    turn: &Turn<Tally>,
    mut passes: Vec<Pass<Tally>>,
) -> Option<(Pass<Tally>, Pass<Tally>, Pass<Tally>)>
    requires count { length passes.items ≡ 3 }
    requires lock { All (λ p. lock_of p ≡ lock_id turn.now) passes.items }
    requires in_order { InOrder passes.items }
    ensures lock { IfSome result (λ r. (lock_of r.0 ≡ lock_id turn.now) × (lock_of r.1 ≡ lock_id turn.now) × (lock_of r.2 ≡ lock_id turn.now)) }
    ensures number { IfSome result (λ r. (pass_number r.0 ≡ 0) × (pass_number r.1 ≡ 1) × (pass_number r.2 ≡ 2)) }
{
    let two = passes.pop()?;
    let one = passes.pop()?;
    let zero = passes.pop()?;
    let _ = turn;
    Some((zero, one, two))
}

fn row_of(
    alloc: Global,
    zero: Pass<Tally>,
    one: Pass<Tally>,
    two: Pass<Tally>,
) -> Result<Vec<Pass<Tally>>, AllocError>
    ensures { IfOk result (λ v. v.items ≡ zero ∷ one ∷ two ∷ []) }
{
    let mut passes = Vec::new(alloc);
    passes.push(zero)?;
    passes.push(one)?;
    passes.push(two)?;
    Ok(passes)
}

// A lock with so many passes round a list that is empty.
fn lock_of_none<R: Wait>(
    rt: &R,
    alloc: Global,
    n: u32,
) -> Result<(Turn<Tally>, Vec<Pass<Tally>>), AllocError>
    requires { (1 ≤ n) × (n ≤ 65) }
    ensures count { IfOk result (λ r. (pass_count r.0 ≡ n) × (length r.1.items ≡ n)) }
    ensures lock { IfOk result (λ r. All (λ p. lock_of p ≡ lock_id r.0) r.1.items) }
    ensures in_order { IfOk result (λ r. InOrder r.1.items) }
{
    let none = Tally {
        owner: 7,
        numbers: Vec::new(alloc),
    };
    match make(rt, alloc, none, n) {
        Ok(made) => Ok(made),
        Err((_, error)) => Err(error),
    }
}

#[test]
fn each_of_three_threads_adds_its_entries(rt: HostRuntime) -> Result<(), Fail> {
    let (turn, passes) = lock_of_none(&rt, rt.alloc(), 3)?;
    let (zero, one, two) = three_of(&turn, passes).ok_or("three passes")?;
    let (zero, (one, two)) = add_three(&rt, &turn, zero, one, two);
    let tally = turn.close(row_of(rt.alloc(), zero, one, two)?);
    assert_eq!(rt; (tally.owner, tally.length()), (7, 300));
    for number in 0..3 {
        assert_eq!(rt; tally.count(number), 100, "of {number}");
    }
    Ok(())
}

// Where word 1 starts wrong, no number is ever drawn, and this doesn't end.
#[test]
fn as_many_passes_as_asked_for(rt: HostRuntime) -> Result<(), Fail> {
    for n in [1, 3, 65] {
        let (turn, passes) = lock_of_none(&rt, rt.alloc(), n)?;
        assert_eq!(rt; passes.len(), n as usize);
        assert_eq!(rt; turn.close(passes).length(), 0);
    }
    assert_eq!(rt; size_of::<Pass<Tally>>(), 0);
    Ok(())
}

// Run it with each allocation failing in turn.
#[test]
fn the_value_comes_back_where_memory_is_wanting(rt: HostRuntime) -> Result<(), Fail> {
    let Ok(numbers) = [4, 5, 6].to_vec(rt.alloc()) else {
        return Ok(());
    };
    let tally = Tally { owner: 7, numbers };
    let tally = match make(&rt, rt.alloc(), tally, 3) {
        Ok((turn, passes)) => turn.close(passes),
        Err((tally, _)) => tally,
    };
    assert_eq!(rt; tally.owner, 7);
    assert_eq!(rt; tally.numbers.as_slice(), [4, 5, 6].as_slice());
    Ok(())
}
