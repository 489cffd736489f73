//! Endings.

ghost use Rattle.std.specs.Prelude.{◌≡◌};
ghost use Rattle.endings.specs.Ending.{status_of, status_of_run};

use ir_syntax::Block;
use ir_text::TextFault;
use machine_model::ending::RunEnd;
use miss_report::ReportFault;
use words_line::WordsFault;

/// How a call ends.
#[derive(Debug, Drop)]
pub enum Ending {
    /// The guest ran to this ending.
    Run(RunEnd),
    /// The work was done, and there was no run whose ending it would be.
    Done,
    /// The words are no plan.
    Usage(WordsFault),
    /// The program is no image that can be run. The number is that of the loader's, the linker's or the layout's fault.
    Image(u8),
    /// Reading a file or the input failed.
    ReadFault,
    /// A file isn't there.
    Absent,
    /// A text of blocks isn't one: where it stops being the beginning of one.
    IrText(TextFault),
    /// A block isn't what lifting gives at its address: the address, the block, and what lifting gives.
    Stale {
        address: u64,
        file: Block,
        lifted: Block,
    },
    /// A report isn't one: its first line that isn't the line of a miss.
    Report(ReportFault),
    /// A file or the input has more bytes than it may have.
    TooLong,
    /// Memory ran out.
    Memory,
    /// Two blocks of a text have this address.
    Twice(u64),
    /// There are more than 65,536 blocks.
    TooMany,
    /// Writing failed.
    WriteFault,
}

// The exit status of a run's ending.
fn status_of_run(end: RunEnd) -> u8
    ensures { result ≡ status_of_run end }
{
    match end {
        RunEnd::Exit(number) => (number % 256) as u8,
        RunEnd::Miss(_) => 81,
        RunEnd::Fault { .. } => 82,
        RunEnd::Deadlock => 83,
        RunEnd::Steps => 84,
        RunEnd::Full { .. } => 85,
    }
}

impl Ending {
    /// The exit status: after a run that the guest ended that of its `exit`, modulo 256; else a number from 64 to 85 that tells
    /// the kind of the ending, and 0 where the work was done.
    pub fn status(&self) -> u8
        ensures { result ≡ status_of self.now }
    {
        match self {
            Ending::Run(end) => status_of_run(*end),
            Ending::Done => 0,
            Ending::Usage(_) => 64,
            Ending::Image(_) => 65,
            Ending::ReadFault => 66,
            Ending::IrText(_) => 67,
            Ending::Stale { .. } => 68,
            Ending::Report(_) => 69,
            Ending::TooLong => 70,
            Ending::Memory => 71,
            Ending::Twice(_) => 72,
            Ending::TooMany => 73,
            Ending::WriteFault => 74,
            Ending::Absent => 79,
        }
    }
}
