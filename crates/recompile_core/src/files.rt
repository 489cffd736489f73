//! The files that a run leaves: its journal, and the report of its misses.

ghost use Rattle.std.specs.Prelude.{◌≡◌, ◌⊎◌, All, IfErr, IfOk, None, OnErr, OnOk, string_bytes};
ghost use Rattle.journal_pack.specs.Packed.{packed};
ghost use Rattle.miss_report.specs.Miss.{IsReportable};
ghost use Rattle.miss_report.specs.Report.{report};
ghost use Rattle.mx_outside.specs.Causes.{Rose};
ghost use Rattle.recompile_core.specs.After.{FilesAfter, OthersKept, Wrote, miss_of, misses, with_file, with_files};
ghost use Rattle.recompile_core.specs.Runs.{ReportUnwritten, UnwrittenBy};
ghost use Rattle.recompile_core.specs.World.{files_now};

use journal_pack::{Entry, Journal};
use miss_report::{Miss, print};
use mx_outside::{Failed, Files};
use std::alloc::{AllocError, Global};
use words_line::Text;

/// Why the files of a run weren't all written.
#[derive(Clone, Copy, Debug)]
pub(crate) enum Unwritten {
    /// A file couldn't be written.
    Failed,
    /// Memory was wanting.
    Memory,
}

// The miss of an entry.
fn miss_of(entry: Entry) -> Option<Miss>
    ensures { result ≡ miss_of entry }
{
    match entry {
        Entry::Miss(thread, _, source, target) => Some(Miss {
            thread,
            source,
            target,
        }),
        _ => None,
    }
}

// The misses of a journal, in order.
fn misses(alloc: Global, journal: &Journal) -> Result<Vec<Miss>, AllocError>
    ensures { IfOk result (λ v. v.items ≡ misses journal.now) }
{
    let mut found = Vec::new(alloc);
    for entry in journal.walk() {
        if let Some(miss) = miss_of(entry) {
            found.push(miss)?;
        }
    }
    Ok(found)
}

// The text of the report of a journal's misses.
fn report_of(alloc: Global, journal: &Journal) -> Result<String, AllocError>
    ensures { IfOk result (λ s. string_bytes s ≡ report (misses journal.now)) }
{
    journal.facts();
    let found = misses(alloc, journal)?;
    print(alloc, &found)
}

// Writes a file, if a name is given.
fn write_if<F: Files>(files: &mut F, name: &Option<Text>, bytes: &[u8]) -> Result<(), Failed>
    ensures ok { OnOk result (Wrote (files_now F.names F.read_faults F.write_faults files.old) (files_now F.names F.read_faults F.write_faults files.new) (with_file name.now bytes.now)) }
    ensures err { OnErr result (Rose (F.write_faults files.old) (F.write_faults files.new)) }
    ensures others { OthersKept (files_now F.names F.read_faults F.write_faults files.old) (files_now F.names F.read_faults F.write_faults files.new) name.now None }
    ensures reads { F.read_faults files.new ≡ F.read_faults files.old }
{
    match name {
        Some(name) => files.write(name.as_str(), bytes),
        None => Ok(()),
    }
}

// Writes the report of a journal's misses, if a name is given.
fn write_report<F: Files>(
    alloc: Global,
    files: &mut F,
    name: &Option<Text>,
    journal: &Journal,
) -> Result<(), Unwritten>
    ensures ok { OnOk result (Wrote (files_now F.names F.read_faults F.write_faults files.old) (files_now F.names F.read_faults F.write_faults files.new) (with_file name.now (report (misses journal.now)))) }
    ensures err { IfErr result (λ e. ReportUnwritten e (files_now F.names F.read_faults F.write_faults files.old) (files_now F.names F.read_faults F.write_faults files.new)) }
    ensures others { OthersKept (files_now F.names F.read_faults F.write_faults files.old) (files_now F.names F.read_faults F.write_faults files.new) None name.now }
    ensures reads { F.read_faults files.new ≡ F.read_faults files.old }
{
    if name.is_none() {
        return Ok(());
    }
    let Ok(text) = report_of(alloc, journal) else {
        return Err(Unwritten::Memory);
    };
    match write_if(files, name, text.as_bytes()) {
        Ok(()) => Ok(()),
        Err(Failed) => Err(Unwritten::Failed),
    }
}

/// Writes the journal's file, and then that of the report, where they are asked for.
///
/// # Errors
///
/// `Failed` where a file couldn't be written, `Memory` where memory for the report was wanting; the file before it is written.
pub(crate) fn write_files<F: Files>(
    alloc: Global,
    files: &mut F,
    journal_name: &Option<Text>,
    report_name: &Option<Text>,
    journal: &Journal,
) -> Result<(), Unwritten>
    ensures ok { OnOk result (Wrote (files_now F.names F.read_faults F.write_faults files.old) (files_now F.names F.read_faults F.write_faults files.new) (with_files journal_name.now report_name.now journal.now)) }
    ensures err { IfErr result (λ e. UnwrittenBy e (files_now F.names F.read_faults F.write_faults files.old) (files_now F.names F.read_faults F.write_faults files.new)) }
    ensures after { FilesAfter (files_now F.names F.read_faults F.write_faults files.old) (files_now F.names F.read_faults F.write_faults files.new) journal_name.now report_name.now journal.now }
    ensures reads { F.read_faults files.new ≡ F.read_faults files.old }
{
    match write_if(files, journal_name, journal.bytes()) {
        Ok(()) => write_report(alloc, files, report_name, journal),
        Err(Failed) => Err(Unwritten::Failed),
    }
}
