//! Parts of a block, run one after another where they lie.

ghost use Rattle.std.specs.Prelude.{◌≡◌, ◌+◌, ◌-◌, ◌<◌, ◌≤◌, ℕ, List, drop, length};
ghost use Rattle.elf_image.specs.Layout.{ImageData};
ghost use Rattle.machine_model.specs.Gated.{Stand};
ghost use Rattle.guest_parts.specs.Standing.{IsTyped, StandsInside, end_of};
ghost use Rattle.guest_parts.specs.Running.{GoesFurther, Leaves, Rises, StaysInside, StepIs, StopIs, StopsBelow, leads_to, one_more, runs_for};

use crate::engine::Engine;
use basic_blocks::goes_on_after_its_bytes;
use guest_state::Virtual;
use ir_syntax::{Block, Request};

/// What a part comes to.
#[derive(Clone, Copy, Debug, PartialEq, Eq)]
pub enum Step {
    /// A private step; the next part follows.
    On,
    /// A private step out of the block, to this address.
    Leaves(u64),
    /// A step that isn't private.
    Asks(Request),
}

/// Why a run of parts stops.
#[derive(Clone, Copy, Debug, PartialEq, Eq)]
pub enum Stop {
    /// No more private steps may be made.
    Most,
    /// The block is left for this address.
    Left(u64),
    /// The part that was run last asks for a step that isn't private.
    Asks(Request),
}

// The address after the bytes of a block.
fn end_of(block: &Block) -> u64
    ensures { result ≡ end_of block.now }
{
    block.at.wrapping_add(block.code.as_slice().len() as u64)
}

// Where a request that asks for nothing leads.
fn leads_to(block: &Block, request: Request) -> Option<u64>
    ensures { result ≡ leads_to block.now request }
{
    match request {
        Request::Tick => Some(end_of(block)),
        Request::Go(a) => Some(a),
        _ => None,
    }
}

/// Runs part `part` of a block, which lies in the block's list of parts.
///
/// From where the guest stands with its thread, the part is a private step of the thread, after which both stand together
/// again, or it asks for what the thread wants.
pub fn one_part<N: Engine>(block: &Block, part: usize, state: &mut Virtual, engine: &mut N) -> Step
    requires inside { part < length block.now.parts }
    requires typed { IsTyped (drop part block.now.parts) state.old }
    ensures step { (image : ImageData) (grown : List ℕ) (last : ℕ) (d : Stand) → StandsInside image grown block.now part last state.old d → StepIs result image grown block.now part last state.new d }
    ensures leaves { Leaves result block.now part state.old state.new }
    ensures count { N.count engine.new ≡ one_more (N.count engine.old) }
{
    goes_on_after_its_bytes();
    let parts = block.parts.as_slice();
    let request = engine.run(&parts[part], state);
    let Some(to) = leads_to(block, request) else {
        return Step::Asks(request);
    };
    if part + 1 < parts.len() {
        Step::On
    } else {
        Step::Leaves(to)
    }
}

/// Runs parts of a block from part `part` on, as long as they are private steps and fewer than `most` were made in all, of
/// which `k` were made before. The guest then stands before part `part`, or is out of the block after it.
pub fn run_parts<N: Engine>(
    block: &Block,
    part: &mut usize,
    k: &mut u32,
    most: u32,
    state: &mut Virtual,
    engine: &mut N,
) -> Stop
    requires inside { part.old < length block.now.parts }
    requires typed { IsTyped (drop part.old block.now.parts) state.old }
    requires few { k.old ≤ most }
    ensures stop { (image : ImageData) (grown : List ℕ) (last : ℕ) (d : Stand) → StandsInside image grown block.now part.old last state.old d → StopIs result image grown block.now part.new (k.new - k.old) last state.new d }
    ensures stays { StaysInside result block.now part.new state.new }
    ensures later { k.old ≤ k.new }
    ensures further { GoesFurther result k.old k.new }
    ensures few { StopsBelow result k.new most }
    ensures count { Rises (N.count engine.old) (N.count engine.new) (runs_for result (k.new - k.old)) }
{
    while *k < most {
        match one_part(block, *part, state, engine) {
            Step::On => {
                *part += 1;
                *k += 1;
            }
            Step::Leaves(to) => {
                *k += 1;
                return Stop::Left(to);
            }
            Step::Asks(request) => return Stop::Asks(request),
        }
    }
    Stop::Most
}
