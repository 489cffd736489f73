//! What the definition comes to, each law as the contract of a function that only calls other laws.

ghost use Rattle.std.specs.Prelude.{◌≡◌};
ghost use Rattle.x86_model.specs.Laws.{RunsSpelled, RefusesUnspelled};

use x86_forms::reads_exactly;

/// Away from doors and library functions, a thread does what the instruction says that is spelled at
/// rip in the bytes of one executable segment.
pub fn runs_what_is_spelled()
    ensures { RunsSpelled }
{
    reads_exactly();
}

/// Where no instruction is spelled there, the step is bad.
pub fn refuses_what_is_not_spelled()
    ensures { RefusesUnspelled }
{
    reads_exactly();
}
