//! A block that a guest keeps at hand, and the small table of those that it used lately.

ghost use Rattle.std.specs.Prelude.{◌≡◌, ◌≤◌, ◌<◌, ◌-◌, ◌+◌, ◌∷◌, ℕ, List, drop, length, slice_index, IfOk, IfSome};
ghost use Rattle.elf_image.specs.Layout.{ImageData};
ghost use Rattle.ir_meaning.specs.Does.{answered};
ghost use Rattle.ir_meaning.specs.Ready.{Answers};
ghost use Rattle.ir_syntax.specs.declared.block.Part.{Part as PartData};
ghost use Rattle.lift_table.specs.Faithful.{takes_answer};
ghost use Rattle.machine_model.specs.Gated.{Stand};
ghost use Rattle.guest_parts.specs.Standing.{IsLiftedAt, IsTyped, StandsInside, end_of, has_more, places_in, places_of};
ghost use Rattle.guest_parts.specs.Running.{GoesFurther, Rises, StaysInside, StopIs, StopsBelow, runs_for};
ghost use Rattle.guest_steps.specs.Kept.{IsKept, AreKept, KeepsBlocks};

use basic_blocks::{PlacedInstr, block_at};
use elf_image::Image;
use guest_parts::{Engine, Stop, run_parts};
use guest_state::Virtual;
use ir_meaning::answer;
use ir_syntax::{Block, Part, PartEnd};
use std::alloc::{AllocError, Global};
use std::marker::Model;
use std::mem;
use std::sync::Arc;

/// A lifted block of an image, with the place of each part's instruction, so that no step looks for it, and for each part how
/// many from it on ask for nothing, which nothing depends on but how far a thread goes by itself.
#[derive(Drop)]
pub struct Kept {
    image: Arc<Image>,
    block: Arc<Block>,
    places: Vec<u64>,
    quiet: Vec<u32>,
}

impl Model for Kept {
    ghost use Rattle.std.specs.Prelude.{◌≡◌};
    ghost use Rattle.guest_parts.specs.Standing.{IsLiftedAt, places_of};
    ghost use Rattle.guest_steps.specs.Kept.{KeptData};

    ghost Value = { KeptData };

    ghost view = { λ x. record { image = x.image.value; block = x.block.value } };

    ghost invariant = { λ x. IsLiftedAt x.image.value x.block.value.at x.block.value × (x.places.items ≡ places_of x.image.value x.block.value) };
}

// Whether a part leaves its instruction under way.
fn takes_answer(end: &PartEnd) -> bool
    ensures { result ≡ takes_answer end.now }
{
    matches!(
        *end,
        PartEnd::Load { .. } | PartEnd::Locked { .. } | PartEnd::LockedCmpxchg { .. }
    )
}

// Where the instruction of a part stands, of those from the `i`-th on; `at` where none is left.
fn next_place(instrs: &[PlacedInstr], i: &mut usize, part: &Part, at: u64) -> u64
    ensures { (ps : List PartData) → result ∷ places_in at (drop i.new instrs.now) ps ≡ places_in at (drop i.old instrs.now) (part.now ∷ ps) }
{
    if *i >= instrs.len() {
        return at;
    }
    let placed = &instrs[*i];
    let place = placed.at;
    if !takes_answer(&part.end) {
        *i += 1;
    }
    place
}

// Where the instruction of each part of a block stands.
fn places_of(alloc: Global, image: &Image, block: &Block) -> Result<Vec<u64>, AllocError>
    ensures { IfOk result (λ places. places.items ≡ places_of image.now block.now) }
{
    let instrs = block_at(alloc, image, block.at)?;
    let mut places = Vec::new(alloc);
    let mut i = 0;
    for part in block.parts.as_slice() {
        places.push(next_place(&instrs, &mut i, part, block.at))?;
    }
    Ok(places)
}

// Whether a part surely asks for nothing.
fn is_quiet(end: &PartEnd) -> bool {
    match *end {
        PartEnd::Tick | PartEnd::Go { .. } | PartEnd::Branch { .. } => true,
        _ => false,
    }
}

// For each part how many from it on surely ask for nothing.
fn quiet_runs(alloc: Global, block: &Block) -> Result<Vec<u32>, AllocError> {
    let parts = block.parts.as_slice();
    let mut runs = Vec::with_capacity(alloc, parts.len())?;
    for _part in parts {
        runs.push(0)?;
    }
    let mut next = 0u32;
    for i in (0..parts.len()).rev() {
        next = if is_quiet(&parts[i].end) {
            next.saturating_add(1)
        } else {
            0
        };
        if i < runs.len() {
            runs[i] = next;
        }
    }
    Ok(runs)
}

impl Kept {
    /// Keeps a block of an image.
    pub fn make(alloc: Global, image: &Arc<Image>, block: &Arc<Block>) -> Result<Kept, AllocError>
        requires { IsLiftedAt image.now.value block.now.value.at block.now.value }
        ensures { IfOk result (λ x. x ≡ record { image = image.now.value; block = block.now.value }) }
    {
        let places = places_of(alloc, image, block)?;
        let quiet = quiet_runs(alloc, block)?;
        Ok(Kept {
            image: Arc::clone(image)?,
            block: Arc::clone(block)?,
            places,
            quiet,
        })
    }

    /// The address of the block.
    pub fn at(&self) -> u64
        ensures { result ≡ self.now.block.at }
    {
        self.block.at
    }

    /// Tells callers what the type keeps.
    pub fn facts(&self)
        ensures { IsLiftedAt self.now.image self.now.block.at self.now.block }
    {
        let _ = &self.places;
    }

    /// Where the instruction of a part stands.
    pub fn place(&self, part: usize) -> u64
        requires { part < length self.now.block.parts }
        ensures { result ≡ slice_index (places_of self.now.image self.now.block) part }
    {
        self.places[part]
    }

    /// How many private steps there are in all, of which `k` were made, once the parts from this one on that surely ask for
    /// nothing were run: at most 4,096, or `k` where these are more.
    pub fn quiet_to(&self, part: usize, k: u32) -> u32
        ensures least { k ≤ result }
        ensures most { k ≤ 4096 → result ≤ 4096 }
    {
        let Some(n) = self.quiet.get(part) else {
            return k;
        };
        if k >= 4096 {
            return k;
        }
        let room = 4096 - k;
        if *n < room { k + *n } else { 4096 }
    }

    /// Runs parts of the block, as `guest_parts::run_parts` does.
    pub fn run<N: Engine>(
        &self,
        part: &mut usize,
        k: &mut u32,
        most: u32,
        state: &mut Virtual,
        engine: &mut N,
    ) -> Stop
        requires inside { part.old < length self.now.block.parts }
        requires typed { IsTyped (drop part.old self.now.block.parts) state.old }
        requires few { k.old ≤ most }
        ensures stop { (image : ImageData) (grown : List ℕ) (last : ℕ) (d : Stand) → StandsInside image grown self.now.block part.old last state.old d → StopIs result image grown self.now.block part.new (k.new - k.old) last state.new d }
        ensures stays { StaysInside result self.now.block part.new state.new }
        ensures later { k.old ≤ k.new }
        ensures further { GoesFurther result k.old k.new }
        ensures few { StopsBelow result k.new most }
        ensures count { Rises (N.count engine.old) (N.count engine.new) (runs_for result (k.new - k.old)) }
    {
        run_parts(&self.block, part, k, most, state, engine)
    }

    /// Applies an answer of memory to the part that asked for it.
    pub fn answer(&self, part: usize, state: &mut Virtual, value: u64)
        requires inside { part < length self.now.block.parts }
        requires takes { (p : PartData) (ps : List PartData) → drop part self.now.block.parts ≡ p ∷ ps → Answers p.end value }
        ensures { (p : PartData) (ps : List PartData) → drop part self.now.block.parts ≡ p ∷ ps → state.new ≡ answered p.end value state.old }
    {
        answer(&self.block.parts.as_slice()[part], state, value);
    }

    /// Whether parts follow a part.
    pub fn has_more(&self, part: usize) -> bool
        ensures { result ≡ has_more self.now.block part }
    {
        let count = self.block.parts.as_slice().len();
        if part < count {
            part + 1 < count
        } else {
            false
        }
    }

    /// The next part.
    pub fn after(&self, part: usize) -> usize
        requires { part < length self.now.block.parts }
        ensures { result ≡ part + 1 }
    {
        let count = self.block.parts.as_slice().len();
        if part < count { part + 1 } else { part }
    }

    /// The address after the bytes of the block.
    pub fn end(&self) -> u64
        ensures { result ≡ end_of self.now.block }
    {
        self.block
            .at
            .wrapping_add(self.block.code.as_slice().len() as u64)
    }
}

// The place of a block in a table of 64.
fn index_of(a: u64) -> usize
    ensures { result < 64 }
{
    ((a ^ (a >> 6)) % 64) as usize
}

/// Takes the block at an address out of the table, if it is there.
pub fn take(table: &mut Vec<Option<Kept>>, a: u64) -> Option<Kept>
    ensures table { KeepsBlocks table.old.items table.new.items }
    ensures block { IfSome result (λ x. (x.block.at ≡ a) × ((image : ImageData) (grown : List ℕ) → AreKept image grown table.old.items → IsKept image grown x)) }
{
    let i = index_of(a);
    if i >= table.len() {
        return None;
    }
    let Some(kept) = &table[i] else {
        return None;
    };
    if kept.at() != a {
        return None;
    }
    table[i].take()
}

/// Puts a block into the table, in place of the one that was there.
pub fn put(table: &mut Vec<Option<Kept>>, kept: Kept)
    ensures { (image : ImageData) (grown : List ℕ) → AreKept image grown table.old.items → IsKept image grown kept → AreKept image grown table.new.items }
{
    let i = index_of(kept.at());
    if i < table.len() {
        let _old = mem::replace(&mut table[i], Some(kept));
    }
}
