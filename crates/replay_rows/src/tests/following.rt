//! A journal, followed: what comes of it, beside what is expected.

ghost use Rattle.std.specs.Prelude.{◌≡◌, ◌≤◌, ◌^◌, true, IfOk};
ghost use Rattle.guest_map.specs.Layout.{IsAccepted};

use crate::tests::programs::{Program, image};
use guest_map::lay_out;
use journal_pack::{Entry, GrowingJournal, Journal};
use machine_model::case::Case;
use machine_model::ending::RunEnd;
use replay_view::{EntryFault, FollowFault, StepFault, Walker, walk_to};
use std::alloc::Global;
use std::process::Abort;
use std::sync::Arc;
use std::test::Fail;

// What comes of a journal: the steps made, the places grown and the ending, or the fault.
#[derive(Clone, Copy, Debug, PartialEq, Eq)]
pub enum Outcome {
    At {
        steps: u64,
        grown: u64,
        ending: Option<RunEnd>,
    },
    Refused(FollowFault),
}

pub fn at(steps: u64, grown: u64, ending: Option<RunEnd>) -> Outcome {
    Outcome::At {
        steps,
        grown,
        ending,
    }
}

pub fn refused(fault: EntryFault) -> Outcome {
    Outcome::Refused(FollowFault::Entry(fault))
}

// Its name, how many entries of the run come first, those that follow, and what comes of it.
pub type Row<'a> = (&'a str, usize, &'a [Entry], Outcome);

// A program, the places that are grown at first, the limit of steps, and whether a miss ends the run.
pub type Start<'a> = (&'a Program, &'a [u64], u16, bool);

pub fn case(alloc: Global, start: Start<'_>) -> Result<Case, Fail>
    ensures { IfOk result (λ c. c.limit ≤ 2 ^ 27) }
{
    let (program, first, limit, strict) = start;
    let mut args = Vec::new(alloc);
    args.push(String::from_str(alloc, "p")?)?;
    Ok(Case {
        image: Arc::new(alloc, image(alloc, program)?)?,
        args,
        input: Vec::new(alloc),
        limit: u64::from(limit),
        strict,
        first: Vec::from_slice(alloc, first)?,
    })
}

// Whether the image and the arguments can be laid out.
pub fn is_laid_out(alloc: Global, case: &Case) -> bool
    ensures { result ≡ true → IsAccepted case.now.image case.now.args }
{
    match lay_out(alloc, case.image(), &case.args) {
        Ok(_) => true,
        Err(_) => false,
    }
}

// The journal of these entries, if each of them has a spelling.
pub fn journal_of(alloc: Global, entries: &[Entry]) -> Result<Option<Journal>, Fail> {
    let mut journal = GrowingJournal::new(alloc);
    for entry in entries {
        if !entry.has_spelling() {
            return Ok(None);
        }
        journal.reserve(1)?;
        journal.push(*entry);
    }
    Ok(Some(journal.into_journal()))
}

fn stands(walker: &Walker<'_>) -> Outcome {
    at(walker.steps(), walker.grown(), walker.ending())
}

// What comes of the first entries of a journal.
pub fn follow(alloc: Global, case: &Case, journal: &Journal, n: u64) -> Result<Outcome, Fail>
    requires { case.now.limit ≤ 2 ^ 27 }
{
    if !is_laid_out(alloc, case) {
        return Err("it is laid out".into());
    }
    match walk_to(alloc, case, journal, n) {
        Ok(walker) => Ok(stands(&walker)),
        Err(fault) => Ok(Outcome::Refused(fault)),
    }
}

// What comes of entries that are taken one after another.
fn take(alloc: Global, case: &Case, entries: &[Entry]) -> Result<Outcome, Fail>
    requires { case.now.limit ≤ 2 ^ 27 }
{
    if !is_laid_out(alloc, case) {
        return Err("it is laid out".into());
    }
    let mut walker = Walker::make(alloc, case)?;
    for entry in entries {
        match walker.step(alloc, entry) {
            Ok(()) => {}
            Err(StepFault::Entry(fault)) => return Ok(refused(fault)),
            Err(StepFault::Memory(e)) => return Err(e.into()),
        }
    }
    Ok(stands(&walker))
}

// A row's entries are a journal, and come to what is expected.
pub fn expect(
    rt: &impl Abort,
    alloc: Global,
    start: Start<'_>,
    run: &[Entry],
    row: Row<'_>,
) -> Result<(), Fail> {
    let (name, before, rest, wanted) = row;
    let mut entries = Vec::new(alloc);
    for entry in run.iter().take(before) {
        entries.push(*entry)?;
    }
    entries.extend_from_slice(rest)?;
    let journal = journal_of(alloc, &entries)?.ok_or("it is spelled")?;
    let told = follow(alloc, &case(alloc, start)?, &journal, journal.len())?;
    assert!(rt; told == wanted, "{name}: {told:?}");
    Ok(())
}

// The same of entries one of which no journal spells.
pub fn expect_unspelled(
    rt: &impl Abort,
    alloc: Global,
    start: Start<'_>,
    entries: &[Entry],
    wanted: Outcome,
) -> Result<(), Fail> {
    assert!(rt; journal_of(alloc, entries)?.is_none());
    let told = take(alloc, &case(alloc, start)?, entries)?;
    assert!(rt; told == wanted, "{told:?}");
    Ok(())
}
