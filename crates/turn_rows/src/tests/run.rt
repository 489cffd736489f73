//! A run of two threads, turn by turn.

ghost use Rattle.std.specs.Prelude.{◌≡◌, ◌<◌, ◌≤◌, ◌^◌, ◌∷◌, [], IfOk, OnOk, length, true};
ghost use Rattle.std.specs.List.Sorted.{IsStrictlySortedBy};
ghost use Rattle.std.specs.Ordering.{nat_cmp};
ghost use Rattle.std.specs.declared.alloc.AllocError.{AllocError as MemoryError};
ghost use Rattle.hall_core.specs.Hall.{HallData};
ghost use Rattle.thread_step.specs.declared.guest.Guest.{Guest as GuestData};
ghost use Rattle.thread_step.specs.declared.rules.Turned.TheVariants as answers;
ghost use Rattle.thread_step.specs.Guest.{IsLeft, IsReady};
ghost use Rattle.turn_rows.specs.Good.{IsGood, IsTold};

use crate::tests::blocks::{RowLifter, blocks_at};
use crate::tests::programs::{Program, image};
use additive_lift::reach_all;
use elf_image::Image;
use guest_map::lay_out;
use hall_core::Hall;
use ir_syntax::Block;
use journal_pack::Entry;
use machine_model::case::Case;
use std::alloc::{AllocError, Global};
use std::sync::Arc;
use std::test::Fail;
use thread_step::{Engine, Guest, Lifter, PlainEngine, Rules, Turned, turn_alone};
use turn_lock::Story;

/// A hall, the guest whose turn it is, another one, and rules.
#[derive(Drop)]
pub struct Run {
    pub hall: Hall<Block>,
    pub guest: Guest,
    pub other: Guest,
    pub rules: Rules,
    alloc: Global,
}

// A case with one argument and no input.
fn case_of(
    alloc: Global,
    image: &Arc<Image>,
    first: &[u64],
    limit: u16,
    strict: bool,
) -> Result<Case, Fail>
    ensures image { IfOk result (λ c. c.image ≡ image.now.value) }
    ensures limit { IfOk result (λ c. c.limit ≤ 2 ^ 27) }
    ensures strict { IfOk result (λ c. c.strict ≡ strict) }
    ensures first { IfOk result (λ c. c.first ≡ first.now) }
{
    let mut args = Vec::new(alloc);
    args.push(String::from_str(alloc, "p")?)?;
    Ok(Case {
        image: Arc::clone(image)?,
        args,
        input: Vec::new(alloc),
        limit: u64::from(limit),
        strict,
        first: Vec::from_slice(alloc, first)?,
    })
}

// What is reached from the entry, or nothing.
fn first_places(alloc: Global, image: &Image, all: bool) -> Result<Vec<u64>, Fail>
    ensures ordered { IfOk result (λ places. IsStrictlySortedBy nat_cmp places.items) }
    ensures few { IfOk result (λ places. length places.items ≤ 65536) }
{
    if !all {
        return Ok(Vec::new(alloc));
    }
    let places = reach_all(alloc, image, image.entry)?;
    if places.len() > 65_536 {
        return Err("few places".into());
    }
    Ok(places)
}

/// The hall before the first step: the blocks that are reached from the entry are grown, or none is.
pub fn hall_of(
    alloc: Global,
    program: &Program,
    limit: u16,
    strict: bool,
    grown: bool,
) -> Result<Hall<Block>, Fail>
    ensures strict { IfOk result (λ h. h.case.strict ≡ strict) }
    ensures journal { IfOk result (λ h. h.journal ≡ []) }
{
    let image = Arc::new(alloc, image(alloc, program)?)?;
    let first = first_places(alloc, &image, grown)?;
    let blocks = blocks_at(alloc, &image, &first)?;
    let case = case_of(alloc, &image, &first, limit, strict)?;
    let start = lay_out(alloc, &case.image, &case.args)
        .ok()
        .ok_or("it is laid out")?;
    Ok(Hall::make(alloc, case, start, blocks)?)
}

// A turn that memory didn't break off.
fn done(turned: Turned) -> Result<Turned, Fail>
    ensures { IfOk result (λ answer. (h : HallData Block) (g : GuestData) → IsLeft turned h g → IsReady h g) }
{
    match turned {
        Turned::Ran => Ok(Turned::Ran),
        Turned::Waiting => Ok(Turned::Waiting),
        Turned::Ended => Ok(Turned::Ended),
        Turned::Idle => Ok(Turned::Idle),
        Turned::Memory(e) => Err(e.into()),
    }
}

// Nothing is wrong where no entry was made.
fn unless_same(e: AllocError, same: bool) -> Result<(), Fail>
    ensures { OnOk result (same ≡ true) }
{
    if same {
        return Ok(());
    }
    Err(e.into())
}

// A turn that memory didn't break off; `None` for one that it broke off before an entry was made.
fn tried(turned: Turned, same: bool) -> Result<Option<Turned>, Fail>
    ensures { IfOk result (λ answer. (h : HallData Block) (g : GuestData) → IsLeft turned h g → (same ≡ true → (e : MemoryError) → turned ≡ answers.Memory e → IsReady h g) → IsReady h g) }
{
    match turned {
        Turned::Ran => Ok(Some(Turned::Ran)),
        Turned::Waiting => Ok(Some(Turned::Waiting)),
        Turned::Ended => Ok(Some(Turned::Ended)),
        Turned::Idle => Ok(Some(Turned::Idle)),
        Turned::Memory(e) => {
            unless_same(e, same)?;
            Ok(None)
        }
    }
}

impl Run {
    /// Before the first step of a program: the blocks that are reached from its entry are grown, or none is. The guests are
    /// those of slots 0 and 1, and the turn is that of slot 0. Turns make `turn` entries of their budget at most; a write
    /// waits for at most `hold` turns.
    pub fn make(
        alloc: Global,
        program: &Program,
        limit: u16,
        strict: bool,
        grown: bool,
        turn: u32,
        hold: u32,
    ) -> Result<Run, Fail>
        requires some { 0 < turn }
        requires most { turn ≤ 65536 }
        requires hold { hold ≤ 255 }
        ensures good { IfOk result (λ run. IsGood run.hall run.guest run.other run.rules) }
        ensures told { IfOk result (λ run. IsTold run.guest) }
    {
        let hall = hall_of(alloc, program, limit, strict, grown)?;
        let guest = Guest::make(alloc, 0, &hall)?;
        let other = Guest::make(alloc, 1, &hall)?;
        Ok(Run {
            hall,
            guest,
            other,
            rules: Rules { turn, hold, strict },
            alloc,
        })
    }

    /// The same, where it is the other one's turn.
    pub fn swap(self) -> Run
        requires { IsGood self.hall self.guest self.other self.rules }
        ensures { IsGood result.hall result.guest result.other result.rules }
    {
        Run {
            hall: self.hall,
            guest: self.other,
            other: self.guest,
            rules: self.rules,
            alloc: self.alloc,
        }
    }

    /// One turn with this lifter and this engine, and what it answers. Without memory the run is lost.
    pub fn turn_by<L: Lifter, N: Engine>(
        self,
        lifter: &L,
        engine: &mut N,
    ) -> Result<(Run, Turned), Fail>
        requires { IsGood self.hall self.guest self.other self.rules }
        ensures { IfOk result (λ p. IsGood p.0.hall p.0.guest p.0.other p.0.rules) }
    {
        let Run {
            mut hall,
            mut guest,
            other,
            rules,
            alloc,
        } = self;
        let turned = turn_alone(&mut guest, &mut hall, lifter, engine, rules);
        let answer = done(turned)?;
        let run = Run {
            hall,
            guest,
            other,
            rules,
            alloc,
        };
        Ok((run, answer))
    }

    /// One turn, and what it answers. Without memory the run is lost.
    pub fn turn(self) -> Result<(Run, Turned), Fail>
        requires { IsGood self.hall self.guest self.other self.rules }
        ensures { IfOk result (λ p. IsGood p.0.hall p.0.guest p.0.other p.0.rules) }
    {
        let lifter = RowLifter { alloc: self.alloc };
        let mut engine = PlainEngine::make();
        self.turn_by(&lifter, &mut engine)
    }

    /// A turn with this lifter, and what it answers: `None` where memory was wanting in it and it made no entry, so that the
    /// next one can be made.
    pub fn try_turn<L: Lifter>(self, lifter: &L) -> Result<(Run, Option<Turned>), Fail>
        requires good { IsGood self.hall self.guest self.other self.rules }
        requires told { IsTold self.guest }
        ensures { IfOk result (λ p. IsGood p.0.hall p.0.guest p.0.other p.0.rules) }
    {
        let Run {
            mut hall,
            mut guest,
            other,
            rules,
            alloc,
        } = self;
        hall.facts();
        let before = hall.length();
        let mut engine = PlainEngine::make();
        let turned = turn_alone(&mut guest, &mut hall, lifter, &mut engine, rules);
        hall.facts();
        let same = hall.length() == before;
        let answer = tried(turned, same)?;
        let run = Run {
            hall,
            guest,
            other,
            rules,
            alloc,
        };
        Ok((run, answer))
    }

    pub fn into_entries(self, alloc: Global) -> Result<Vec<Entry>, Fail> {
        let run = self.hall.into_run();
        Ok(run.1.entries(alloc)?)
    }
}
