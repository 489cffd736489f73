ghost use Rattle.std.specs.Prelude.{◌≡◌, ℕ, ◌<◌, List, Option, length, IfOk, OnOk};
ghost use Rattle.std.specs.Io.{WritesAtMost};
ghost use Rattle.std.specs.Io.KnownBytes.{WriteAppends, Appends};
ghost use Rattle.mx_outside.specs.Causes.{HasCause};
ghost use Rattle.mx_outside.specs.Bytes.{AppendsPrefix};

use crate::fault::Failed;

/// Where bytes go.
pub trait Sink {
    // The bytes that the sink holds, where it tells them.
    ghost held: { Self → Option (List ℕ) };

    // How many faults the sink has counted.
    ghost faults: { Self → ℕ };

    /// Appends the front of `piece`, and answers how many bytes: at least 1 of a piece that is not
    /// empty. `Failed` appends none, and raises the count.
    fn write(&mut self, piece: &[u8]) -> Result<usize, Failed>
        ensures bound { WritesAtMost result piece.now }
        ensures moves { IfOk result (λ n. 0 < length piece.now → 0 < n) }
        ensures bytes { WriteAppends (held self.old) (held self.new) result piece.now }
        ensures cause { HasCause (faults self.old) (faults self.new) result };
}

/// Appends all the bytes. `Failed` comes where the sink failed, and has appended a prefix of them.
pub fn write_all<K: Sink>(sink: &mut K, bytes: &[u8]) -> Result<(), Failed>
    ensures whole { OnOk result (Appends (K.held sink.old) (K.held sink.new) bytes.now) }
    ensures prefix { AppendsPrefix (K.held sink.old) (K.held sink.new) bytes.now }
    ensures cause { HasCause (K.faults sink.old) (K.faults sink.new) result }
{
    let mut at = 0;
    while at < bytes.len() {
        at += sink.write(&bytes[at..])?;
    }
    Ok(())
}
