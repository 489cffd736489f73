ghost use Rattle.std.specs.Prelude.{◌≡◌, ◌<◌, min, length, Some, true, IsErr, IfOk};
ghost use Rattle.std.specs.Io.{WritesAtMost};
ghost use Rattle.std.specs.Io.KnownBytes.{WriteAppends};
ghost use Rattle.mx_outside.specs.Causes.{HasCause};
ghost use Rattle.mx_outside.specs.Memory.{next_fails, new_sink, sink_after};

use super::calls::Calls;
use crate::fault::Failed;
use crate::sink::Sink;
use std::alloc::Global;
use std::marker::Model;

/// A sink that keeps its bytes in memory.
#[derive(Drop)]
pub struct MemorySink {
    bytes: Vec<u8>,
    piece: usize,
    calls: Calls,
    faults: u64,
}

impl Model for MemorySink {
    ghost use Rattle.std.specs.Prelude.{◌<◌};
    ghost use Rattle.mx_outside.specs.Memory.{SinkData};

    ghost Value = { SinkData };

    ghost view = { λ s. record {
      held = s.bytes.items;
      failing = s.calls.failing.items;
      piece = s.piece;
      calls = s.calls.made;
      faults = s.faults;
    } };

    ghost invariant = { λ s. 0 < s.piece };
}

impl MemorySink {
    /// A sink that holds nothing, of which one call moves at most `piece` bytes. `failing` are the
    /// numbers of the calls that fail, counted from 1; a call that finds no memory fails too.
    pub fn make(alloc: Global, failing: Vec<u64>, piece: usize) -> MemorySink
        requires { 0 < piece }
        ensures { result ≡ new_sink failing.items piece }
    {
        MemorySink {
            bytes: Vec::new(alloc),
            piece,
            calls: Calls::make(failing),
            faults: 0,
        }
    }

    /// The bytes that it holds.
    pub fn bytes(&self) -> &[u8]
        ensures { result.now ≡ self.now.held }
    {
        self.bytes.as_slice()
    }
}

impl Sink for MemorySink {
    ghost held = { λ s. Some s.held };

    ghost faults = { λ s. s.faults };

    fn write(&mut self, piece: &[u8]) -> Result<usize, Failed>
        ensures bound { WritesAtMost result piece.now }
        ensures moves { IfOk result (λ n. 0 < length piece.now → 0 < n) }
        ensures bytes { WriteAppends (Some self.old.held) (Some self.new.held) result piece.now }
        ensures cause { HasCause self.old.faults self.new.faults result }
        ensures fails { next_fails self.old.failing self.old.calls ≡ true → IsErr result }
        ensures count { IfOk result (λ n. n ≡ min self.old.piece (length piece.now)) }
        ensures after { self.new ≡ sink_after self.old piece.now result }
    {
        let count = self.piece.min(piece.len());
        if self.calls.next_fails() || self.bytes.extend_from_slice(&piece[..count]).is_err() {
            self.faults = self.faults.saturating_add(1);
            return Err(Failed);
        }
        Ok(count)
    }
}
