//! What a run writes: each output as it grows.

ghost use Rattle.std.specs.Prelude.{◌≡◌, ◌≤◌, drop, length};
ghost use Rattle.ir_runner.specs.Outputs.{GainsBy, written};

use mx_outside::{Sink, write_all};

/// Writes what follows the first `done` bytes of an output, and says whether that failed.
pub(crate) fn write_rest<K: Sink>(sink: &mut K, bytes: &[u8], done: usize) -> bool
    requires { done ≤ length bytes.now }
    ensures { GainsBy result (written K.faults K.held sink.old sink.new) (drop done bytes.now) }
{
    write_all(sink, &bytes[done..]).is_err()
}
