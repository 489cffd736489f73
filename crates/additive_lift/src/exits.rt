//! Where a block may go on, without a list.

ghost use Rattle.std.specs.Prelude.{◌≡◌, None, filter, [], ◌∷◌};
ghost use Rattle.basic_blocks.specs.Places.{is_code_place};
ghost use Rattle.basic_blocks.specs.Span.{block_at, successors, targets};
ghost use Rattle.additive_lift.specs.Exits.{ending, listed, exits_of};

use basic_blocks::{instr_at, is_code_place};
use elf_image::Image;
use x86_forms::Instr;
use x86_model::target;

/// Where a block may go on: at none, one or two code places, those that are there in this order.
#[derive(Clone, Copy, Debug, PartialEq, Eq)]
pub struct Exits {
    pub first: Option<u64>,
    pub second: Option<u64>,
}

// The last instruction of the block at a code place, and the address after it; none where the block is empty.
fn ending(image: &Image, a: u64) -> Option<(Instr, u64)>
    ensures { result ≡ ending None (block_at image.now a) }
{
    let mut last = None;
    let mut at = a;
    for _k in 0..64u32 {
        let Some((instr, len)) = instr_at(image, at) else {
            return last;
        };
        at = at.wrapping_add(u64::from(len));
        last = Some((instr, at));
        if instr.is_transfer() {
            return last;
        }
    }
    last
}

const fn one(place: u64) -> Exits
    ensures { exits_of result ≡ place ∷ [] }
{
    Exits {
        first: Some(place),
        second: None,
    }
}

const fn two(first: u64, second: u64) -> Exits
    ensures { exits_of result ≡ first ∷ second ∷ [] }
{
    Exits {
        first: Some(first),
        second: Some(second),
    }
}

const fn none() -> Exits
    ensures { exits_of result ≡ [] }
{
    Exits {
        first: None,
        second: None,
    }
}

// Where an instruction may go on, where `next` is the address after it.
fn targets(instr: &Instr, next: u64) -> Exits
    ensures { exits_of result ≡ targets instr.now next }
{
    match *instr {
        Instr::Jmp { rel } => one(target(next, rel)),
        Instr::Jcc { rel, .. } => two(target(next, rel), next),
        Instr::Call { rel } => two(target(next, rel), next),
        Instr::JmpTo { .. } | Instr::Ret { .. } => none(),
        _ => one(next),
    }
}

// The place, if it is there and a code place.
fn code_place(image: &Image, place: Option<u64>) -> Option<u64>
    ensures { listed result ≡ filter (is_code_place image.now) (listed place) }
{
    place.filter(|a| is_code_place(image, *a))
}

/// The direct successors of the block at a code place: those code places at which its last instruction may go on. Each
/// instruction of the block is decoded once.
pub fn exits_at(image: &Image, a: u64) -> Exits
    ensures { exits_of result ≡ successors image.now a }
{
    match ending(image, a) {
        Some((instr, next)) => {
            let all = targets(&instr, next);
            Exits {
                first: code_place(image, all.first),
                second: code_place(image, all.second),
            }
        }
        None => none(),
    }
}
