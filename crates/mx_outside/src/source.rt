ghost use Rattle.std.specs.Prelude.{◌≡◌, ℕ, ◌≤◌, List, Option, IfOk, OnOk, vec_len};
ghost use Rattle.std.specs.Io.{ReadsAtMost};
ghost use Rattle.std.specs.Io.KnownBytes.{ReadConsumes, IsAtEnd};
ghost use Rattle.mx_outside.specs.Causes.{HasCause, HasReadCause};
ghost use Rattle.mx_outside.specs.Bytes.{GivesAll, ConsumesSome};

use crate::fault::{Failed, FilesFault};
use std::alloc::{AllocError, Global};

/// Where bytes come from.
pub trait Source {
    // The bytes still to come, where the source tells them.
    ghost left: { Self → Option (List ℕ) };

    // How many faults the source has counted.
    ghost faults: { Self → ℕ };

    /// Takes bytes that are left into the front of `buf`, and answers how many: 0 with room in
    /// `buf` only at the end. `Failed` takes none, and raises the count.
    fn read(&mut self, buf: &mut [u8]) -> Result<usize, Failed>
        ensures bound { ReadsAtMost result buf.new }
        ensures bytes { ReadConsumes (left self.old) (left self.new) result buf.new }
        ensures cause { HasCause (faults self.old) (faults self.new) result };
}

/// How many bytes `read_all` asks for at a time.
const PIECE: usize = 8192;

/// Reads a source to its end: every byte that was left, of which there are at most `max`.
///
/// `TooLong` comes exactly where more than `max` bytes are left, and `Failed` where the source
/// failed. A refusal may have taken bytes.
pub fn read_all<S: Source>(alloc: Global, source: &mut S, max: u64) -> Result<Vec<u8>, FilesFault>
    ensures given { GivesAll (S.left source.old) max result }
    ensures within { IfOk result (λ v. vec_len v ≤ max) }
    ensures end { OnOk result (IsAtEnd (S.left source.new)) }
    ensures taken { ConsumesSome (S.left source.old) (S.left source.new) }
    ensures cause { HasReadCause (S.faults source.old) (S.faults source.new) result }
{
    let mut bytes = Vec::new(alloc);
    let mut buf = [0u8; PIECE];
    loop {
        let taken = match source.read(&mut buf) {
            Ok(taken) => taken,
            Err(Failed) => return Err(FilesFault::Failed),
        };
        if taken == 0 {
            return Ok(bytes);
        }
        if taken as u64 > max - bytes.len() as u64 {
            return Err(FilesFault::TooLong);
        }
        if bytes.extend_from_slice(&buf[..taken]).is_err() {
            return Err(FilesFault::Memory(AllocError));
        }
    }
}
