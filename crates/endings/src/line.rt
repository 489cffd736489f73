//! The last line of a call.

ghost use Rattle.std.specs.Prelude.{◌≡◌, ◌⊎◌, IfOk, codes, string_bytes};
ghost use Rattle.endings.specs.Ending.{block_line, exit_line, fault_line, full_line, image_line, line_of, line_of_run, report_line, text_line, usage_line};
ghost use Rattle.endings.specs.Line.{LastLine, bytes_of};

use crate::ending::Ending;
use ir_text::TextFault;
use lib_table::BadKind;
use machine_model::ending::RunEnd;
use mx_outside::{Sink, write_all};
use std::alloc::{AllocError, Global};
use words_line::WordsFault;

fn exit_line(alloc: Global, number: u32) -> Result<String, AllocError>
    ensures { IfOk result (λ line. string_bytes line ≡ exit_line number) }
{
    let status = number % 256;
    format!(in alloc; "exit {status}\n")
}

fn image_line(alloc: Global, number: u8) -> Result<String, AllocError>
    ensures { IfOk result (λ line. string_bytes line ≡ image_line number) }
{
    format!(in alloc; "image: fault {number}\n")
}

fn text_line(alloc: Global, fault: TextFault) -> Result<String, AllocError>
    ensures { IfOk result (λ line. string_bytes line ≡ text_line fault.line fault.column) }
{
    let TextFault { line, column } = fault;
    format!(in alloc; "ir text: line {line} column {column}\n")
}

fn report_line(alloc: Global, line: u64) -> Result<String, AllocError>
    ensures { IfOk result (λ text. string_bytes text ≡ report_line line) }
{
    format!(in alloc; "report: line {line}\n")
}

fn fault_line(alloc: Global, thread: u32, rip: u64, kind: BadKind) -> Result<String, AllocError>
    ensures { IfOk result (λ line. string_bytes line ≡ fault_line thread rip kind) }
{
    match kind {
        BadKind::Code => format!(in alloc; "fault thread {thread} at 0x{rip:x}: code\n"),
        BadKind::Access(a) => format!(in alloc;
            "fault thread {thread} at 0x{rip:x}: access 0x{a:x}\n"
        ),
        BadKind::Divide => format!(in alloc; "fault thread {thread} at 0x{rip:x}: divide\n"),
        BadKind::Depth => format!(in alloc; "fault thread {thread} at 0x{rip:x}: depth\n"),
        BadKind::Door => format!(in alloc; "fault thread {thread} at 0x{rip:x}: door\n"),
    }
}

fn full_line(alloc: Global, thread: u32, place: u64) -> Result<String, AllocError>
    ensures { IfOk result (λ line. string_bytes line ≡ full_line thread place) }
{
    format!(in alloc; "full thread {thread} at 0x{place:x}\n")
}

fn stale_line(alloc: Global, address: u64) -> Result<String, AllocError>
    ensures { IfOk result (λ line. string_bytes line ≡ block_line (codes "stale block ") address) }
{
    format!(in alloc; "stale block 0x{address:x}\n")
}

fn twice_line(alloc: Global, address: u64) -> Result<String, AllocError>
    ensures { IfOk result (λ line. string_bytes line ≡ block_line (codes "block twice ") address) }
{
    format!(in alloc; "block twice 0x{address:x}\n")
}

/// The bytes of a line: such as always stand there, or such as were made.
#[derive(Drop)]
enum Line {
    Fixed(&'static str),
    Made(String),
}

impl Line {
    ghost use Rattle.std.specs.Prelude.{◌≡◌};
    ghost use Rattle.endings.specs.Line.{bytes_of};

    fn as_bytes(&self) -> &[u8]
        ensures { result.now ≡ bytes_of self.now }
    {
        match self {
            Line::Fixed(text) => text.as_bytes(),
            Line::Made(text) => text.as_bytes(),
        }
    }
}

fn usage_line(fault: WordsFault) -> &'static str
    ensures { result.now ≡ usage_line fault }
{
    match fault {
        WordsFault::NoCommand => "usage: no command\n",
        WordsFault::UnknownCommand => "usage: unknown command\n",
        WordsFault::Line => "usage: bad line\n",
    }
}

fn run_line(alloc: Global, end: RunEnd) -> Result<Line, AllocError>
    ensures { IfOk result (λ line. bytes_of line ≡ line_of_run end) }
{
    Ok(match end {
        RunEnd::Exit(number) => Line::Made(exit_line(alloc, number)?),
        RunEnd::Miss(miss) => Line::Made(miss_report::line_of(alloc, &miss)?),
        RunEnd::Fault { thread, rip, kind } => Line::Made(fault_line(alloc, thread, rip, kind)?),
        RunEnd::Deadlock => Line::Fixed("deadlock\n"),
        RunEnd::Steps => Line::Fixed("steps\n"),
        RunEnd::Full { thread, place } => Line::Made(full_line(alloc, thread, place)?),
    })
}

// The line of an ending.
fn make_line(alloc: Global, ending: &Ending) -> Result<Line, AllocError>
    ensures { IfOk result (λ line. bytes_of line ≡ line_of ending.now) }
{
    Ok(match ending {
        Ending::Run(end) => run_line(alloc, *end)?,
        Ending::Done => Line::Fixed(""),
        Ending::Usage(fault) => Line::Fixed(usage_line(*fault)),
        Ending::Image(number) => Line::Made(image_line(alloc, *number)?),
        Ending::ReadFault => Line::Fixed("read fault\n"),
        Ending::Absent => Line::Fixed("no file\n"),
        Ending::IrText(fault) => Line::Made(text_line(alloc, *fault)?),
        Ending::Stale { address, .. } => Line::Made(stale_line(alloc, *address)?),
        Ending::Report(fault) => Line::Made(report_line(alloc, fault.line)?),
        Ending::TooLong => Line::Fixed("too long\n"),
        Ending::Memory => Line::Fixed("no memory\n"),
        Ending::Twice(address) => Line::Made(twice_line(alloc, *address)?),
        Ending::TooMany => Line::Fixed("too many blocks\n"),
        Ending::WriteFault => Line::Fixed("write fault\n"),
    })
}

/// The last line of a call that ends so, with its newline. It is empty after `Done`.
///
/// # Errors
///
/// Memory for the line is wanting.
pub fn last_line(alloc: Global, ending: &Ending) -> Result<String, AllocError>
    ensures { IfOk result (λ line. string_bytes line ≡ line_of ending.now) }
{
    match make_line(alloc, ending)? {
        Line::Fixed(text) => String::from_str(alloc, text),
        Line::Made(text) => Ok(text),
    }
}

/// A last line as it was told.
#[derive(Debug, Drop)]
pub struct Told {
    /// The ending that the line is of.
    pub ending: Ending,
    /// Whether all of it was written.
    pub written: bool,
}

// The line of the ending, or that of `Memory` where the line wants memory that isn't there.
fn line_or_no_memory(alloc: Global, ending: Ending) -> (Ending, Line)
    ensures shown { (result.0 ≡ ending) ⊎ (result.0 ≡ Ending.Memory) }
    ensures line { bytes_of result.1 ≡ line_of result.0 }
{
    match make_line(alloc, &ending) {
        Ok(line) => (ending, line),
        Err(_) => (Ending::Memory, Line::Fixed("no memory\n")),
    }
}

/// Writes the last line of the ending, or that of `Memory` where the line wants memory that isn't there. What stands in the
/// sink is a first part of the line where the sink failed.
pub fn tell<E: Sink>(alloc: Global, err: &mut E, ending: Ending) -> Told
    ensures shown { (result.ending ≡ ending) ⊎ (result.ending ≡ Ending.Memory) }
    ensures line { LastLine result.written (E.faults err.old) (E.faults err.new) (E.held err.old) (E.held err.new) (line_of result.ending) }
{
    let (ending, line) = line_or_no_memory(alloc, ending);
    let wrote = write_all(err, line.as_bytes());
    Told {
        ending,
        written: wrote.is_ok(),
    }
}
