//! Follows a journal.

ghost use Rattle.std.specs.Prelude.{◌≡◌, ◌<◌, ◌≤◌, ◌^◌, List, length, take, IfOk, IfErr, OnOk, Err};
ghost use Rattle.guest_map.specs.Layout.{IsAccepted};
ghost use Rattle.machine_model.specs.Gated.{Both, begin};
ghost use Rattle.replay_view.specs.declared.fault.FollowFault.TheVariants as follow_fault;
ghost use Rattle.replay_view.specs.Faults.{FollowFaults, following};
ghost use Rattle.replay_view.specs.Follow.{Follows, HasTaken};
ghost use Rattle.replay_view.specs.Views.{IsViewAfter};

use crate::fault::{FollowFault, StepFault};
use crate::view::View;
use crate::walker::Walker;
use journal_pack::Journal;
use machine_model::case::Case;
use std::alloc::Global;

// The fault of a journal.
fn followed(fault: StepFault) -> FollowFault
    ensures { result ≡ following fault }
{
    match fault {
        StepFault::Entry(fault) => FollowFault::Entry(fault),
        StepFault::Memory(e) => FollowFault::Memory(e),
    }
}

/// The walker after the first `n` entries of a journal.
///
/// `PastEnd` comes exactly where it has fewer, and is tried first; `Entry` names the first of these entries that is no
/// step, may not come or finds no room, and comes exactly where there is one, but for want of memory. The case's image and
/// arguments can be laid out, and its limit of steps is at most 2^27 = 134,217,728.
#[tactic(auto, using(crate::proofs::Journals::none_taken, crate::proofs::Journals::all_left, crate::proofs::Journals::none_yet, crate::proofs::Journals::next_taken, crate::proofs::Journals::next_left, crate::proofs::Journals::enough, crate::proofs::Journals::enough_at_end, crate::proofs::Journals::fault_here))]
pub fn walk_to<'c>(
    alloc: Global,
    case: &'c Case,
    journal: &Journal,
    n: u64,
) -> Result<Walker<'c>, FollowFault>
    requires accepted { IsAccepted case.now.image case.now.args }
    requires limit { case.now.limit ≤ 2 ^ 27 }
    ensures case { IfOk result (λ w. w.case ≡ case.now) }
    ensures taken { IfOk result (λ w. HasTaken w (take n journal.now)) }
    ensures within { OnOk result (n ≤ length journal.now) }
    ensures fault { IfErr result (FollowFaults case.now journal.now n) }
{
    if journal.len() < n {
        return Err(FollowFault::PastEnd(journal.len()));
    }
    let mut walker = Walker::make(alloc, case)?;
    for entry in journal.walk() {
        if walker.taken() >= n {
            return Ok(walker);
        }
        match walker.step(alloc, &entry) {
            Ok(()) => {}
            Err(fault) => return Err(followed(fault)),
        }
    }
    Ok(walker)
}

/// What stands after the first `n` entries of a journal: the view of the machine that its entries lead to, each of them a
/// step that may come.
///
/// # Errors
///
/// Those of [`walk_to`]: `PastEnd` exactly where the journal has fewer entries, tried first; else `Entry`, exactly where one
/// of them can't be followed, with the place of the first such; `Memory` where memory ran out. The case's image and arguments
/// can be laid out, and its limit of steps is at most 2^27 = 134,217,728.
pub fn follow(alloc: Global, case: &Case, journal: &Journal, n: u64) -> Result<View, FollowFault>
    requires accepted { IsAccepted case.now.image case.now.args }
    requires limit { case.now.limit ≤ 2 ^ 27 }
    ensures view { IfOk result (IsViewAfter case.now (take n journal.now)) }
    ensures within { OnOk result (n ≤ length journal.now) }
    ensures fault { IfErr result (FollowFaults case.now journal.now n) }
{
    let walker = match walk_to(alloc, case, journal, n) {
        Ok(walker) => walker,
        Err(fault) => return Err(fault),
    };
    match walker.view(alloc) {
        Ok(view) => Ok(view),
        Err(e) => Err(FollowFault::Memory(e)),
    }
}
