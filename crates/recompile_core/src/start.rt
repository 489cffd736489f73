//! The shared state of a run that begins, or why there is none.

ghost use Rattle.std.specs.Prelude.{◌≡◌, ◌≤◌, [], length, IfErr, IfOk, OnOk};
ghost use Rattle.std.specs.List.Sorted.{IsStrictlySortedBy};
ghost use Rattle.std.specs.Ordering.{nat_cmp};
ghost use Rattle.guest_map.specs.Layout.{start_of};
ghost use Rattle.machine_laws.specs.Cases.{reads_input};
ghost use Rattle.run_start.specs.First.{AreCodePlaces};
ghost use Rattle.run_start.specs.Refusal.{Refuses};
ghost use Rattle.recompile_core.specs.After.{InputRead};
ghost use Rattle.recompile_core.specs.Answer.{IsCaseOfTask};
ghost use Rattle.recompile_core.specs.Causes.{counts_of};
ghost use Rattle.recompile_core.specs.Runs.{ending_of};
ghost use Rattle.recompile_core.specs.World.{files_now, input_now};

use crate::plan::Task;
use endings::Ending;
use hall_core::Hall;
use ir_syntax::Block;
use mx_outside::{Files, Source};
use run_start::{Prepared, StartFault, open, prepare};
use std::alloc::{AllocError, Global};

// The case and the first memory of a task.
fn prepare_task<F: Files, I: Source>(
    alloc: Global,
    task: Task,
    files: &mut F,
    input: &mut I,
) -> Result<Prepared, StartFault>
    ensures case { IfOk result (λ p. IsCaseOfTask (F.names files.old) (I.left input.old) task p.case) }
    ensures start { IfOk result (λ p. p.start ≡ start_of p.case.image p.case.args) }
    ensures places { IfOk result (λ p. AreCodePlaces p.case.image p.case.first) }
    ensures rising { IfOk result (λ p. IsStrictlySortedBy nat_cmp p.case.first) }
    ensures few { IfOk result (λ p. length p.case.first ≤ 65536) }
    ensures limit { IfOk result (λ p. p.case.limit ≡ task.steps) }
    ensures input { IfOk result (λ p. InputRead (reads_input p.case.image) (input_now I.left I.faults input.old) (input_now I.left I.faults input.new)) }
    ensures refusal { IfErr result (Refuses (F.names files.old) task.prog task.args task.ir (I.left input.old) (counts_of (files_now F.names F.read_faults F.write_faults files.old) (files_now F.names F.read_faults F.write_faults files.new) (input_now I.left I.faults input.old) (input_now I.left I.faults input.new))) }
    ensures reads { OnOk result (F.read_faults files.new ≡ F.read_faults files.old) }
    ensures faults { OnOk result (I.faults input.new ≡ I.faults input.old) }
    ensures names { F.names files.new ≡ F.names files.old }
    ensures writes { F.write_faults files.new ≡ F.write_faults files.old }
{
    let Task {
        prog,
        args,
        ir,
        steps,
        strict,
    } = task;
    prepare(
        alloc,
        prog.as_str(),
        args.into_vec(),
        &ir,
        steps,
        strict,
        files,
        input,
    )
}

/// Why a run can't begin, as an ending.
pub(crate) fn ending_of(fault: StartFault) -> Ending
    ensures { result ≡ ending_of fault }
{
    match fault {
        StartFault::Image(number) => Ending::Image(number),
        StartFault::ReadFault => Ending::ReadFault,
        StartFault::Absent => Ending::Absent,
        StartFault::IrText(fault) => Ending::IrText(fault),
        StartFault::Stale {
            address,
            file,
            lifted,
        } => Ending::Stale {
            address,
            file,
            lifted,
        },
        StartFault::Twice(address) => Ending::Twice(address),
        StartFault::TooLong => Ending::TooLong,
        StartFault::TooMany => Ending::TooMany,
        StartFault::Memory(_) => Ending::Memory,
    }
}

/// Reads what a task names, and makes the shared state before the first step of its run.
///
/// # Errors
///
/// Those of `run_start::prepare`; `Memory` too where the state wants memory that isn't there.
pub(crate) fn start<F: Files, I: Source>(
    alloc: Global,
    task: Task,
    files: &mut F,
    input: &mut I,
) -> Result<Hall<Block>, StartFault>
    requires steps { task.steps ≤ 134217728 }
    ensures case { IfOk result (λ h. IsCaseOfTask (F.names files.old) (I.left input.old) task h.case) }
    ensures journal { IfOk result (λ h. h.journal ≡ []) }
    ensures input { IfOk result (λ h. InputRead (reads_input h.case.image) (input_now I.left I.faults input.old) (input_now I.left I.faults input.new)) }
    ensures refusal { IfErr result (Refuses (F.names files.old) task.prog task.args task.ir (I.left input.old) (counts_of (files_now F.names F.read_faults F.write_faults files.old) (files_now F.names F.read_faults F.write_faults files.new) (input_now I.left I.faults input.old) (input_now I.left I.faults input.new))) }
    ensures reads { OnOk result (F.read_faults files.new ≡ F.read_faults files.old) }
    ensures faults { OnOk result (I.faults input.new ≡ I.faults input.old) }
    ensures names { F.names files.new ≡ F.names files.old }
    ensures writes { F.write_faults files.new ≡ F.write_faults files.old }
{
    let prepared = prepare_task(alloc, task, files, input)?;
    match open(alloc, prepared) {
        Ok(hall) => Ok(hall),
        Err(e) => Err(StartFault::Memory(e)),
    }
}
