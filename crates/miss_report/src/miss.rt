ghost use Rattle.std.specs.Prelude.{◌≡◌, ◌<◌, ◌↔◌, All, IfOk, IsTrue, Some, string_bytes};
ghost use Rattle.miss_report.specs.Miss.{IsReportable, line};
ghost use Rattle.miss_report.specs.Report.{report};

use std::alloc::{AllocError, Global};
use std::fmt;

/// The numbers of guest threads are below it, 2^32.
pub const THREADS: u64 = 4_294_967_296;

/// A guest thread came to code that had not been lifted.
#[derive(Clone, Copy, PartialEq, Eq, Debug)]
pub struct Miss {
    /// The thread's number, from 0.
    pub thread: u32,
    /// The address of the instruction that the thread finished last, or 0 where it had finished none.
    pub source: u64,
    /// The address of the code that was missing.
    pub target: u64,
}

/// The miss as a report's line has it, without the newline.
impl fmt::Display for Miss {
    ghost use Rattle.miss_report.specs.Miss.{text};
    ghost use Rattle.std.specs.Prelude.{Some};

    ghost output = { λ m. Some (text m) };

    fn fmt<W: fmt::Write>(&self, f: &mut fmt::Formatter<W>) -> fmt::Result {
        let Miss {
            thread,
            source,
            target,
        } = *self;
        write!(f, "miss thread {thread} from 0x{source:x} to 0x{target:x}")
    }
}

impl Miss {
    /// Whether a report can name the miss: its thread's number is below `THREADS`.
    pub fn is_reportable(&self) -> bool
        ensures { IsTrue result ↔ IsReportable self.now }
    {
        u64::from(self.thread) < THREADS
    }
}

/// The line of one miss, with its newline.
pub fn line_of(alloc: Global, miss: &Miss) -> Result<String, AllocError>
    ensures { IfOk result (λ s. string_bytes s ≡ line miss.now) }
{
    format!(in alloc; "{miss}\n")
}

/// The report of the misses: a line for each, in order.
pub fn print(alloc: Global, misses: &[Miss]) -> Result<String, AllocError>
    requires reportable { All IsReportable misses.now }
    ensures { IfOk result (λ s. string_bytes s ≡ report misses.now) }
{
    let mut out = String::new(alloc);
    for miss in misses {
        writeln!(out, "{miss}")?;
    }
    Ok(out)
}
