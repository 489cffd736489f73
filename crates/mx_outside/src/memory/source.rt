ghost use Rattle.std.specs.Prelude.{◌≡◌, ◌<◌, length, Some, is_err, IfOk};
ghost use Rattle.std.specs.Io.{ReadsAtMost};
ghost use Rattle.std.specs.Io.KnownBytes.{ReadConsumes};
ghost use Rattle.mx_outside.specs.Causes.{HasCause};
ghost use Rattle.mx_outside.specs.Memory.{next_fails, new_source, source_count, source_after};

use super::calls::Calls;
use crate::fault::Failed;
use crate::source::Source;
use std::marker::Model;

/// A source over bytes in memory.
#[derive(Drop)]
pub struct MemorySource {
    bytes: Vec<u8>,
    at: usize,
    piece: usize,
    calls: Calls,
    faults: u64,
}

impl Model for MemorySource {
    ghost use Rattle.std.specs.Prelude.{◌≤◌, ◌<◌, drop, vec_len};
    ghost use Rattle.mx_outside.specs.Memory.{SourceData};

    ghost Value = { SourceData };

    ghost view = { λ s. record {
      left = drop s.at s.bytes.items;
      failing = s.calls.failing.items;
      piece = s.piece;
      calls = s.calls.made;
      faults = s.faults;
    } };

    ghost invariant = { λ s. (s.at ≤ vec_len s.bytes) × (0 < s.piece) };
}

impl MemorySource {
    /// A source with `bytes` left, of which one call moves at most `piece`. `failing` are the
    /// numbers of the calls that fail, counted from 1.
    pub fn make(bytes: Vec<u8>, failing: Vec<u64>, piece: usize) -> MemorySource
        requires { 0 < piece }
        ensures { result ≡ new_source bytes.items failing.items piece }
    {
        MemorySource {
            bytes,
            at: 0,
            piece,
            calls: Calls::make(failing),
            faults: 0,
        }
    }

    /// The bytes that are left.
    pub fn bytes(&self) -> &[u8]
        ensures { result.now ≡ self.now.left }
    {
        &self.bytes[self.at..]
    }
}

impl Source for MemorySource {
    ghost left = { λ s. Some s.left };

    ghost faults = { λ s. s.faults };

    fn read(&mut self, buf: &mut [u8]) -> Result<usize, Failed>
        ensures bound { ReadsAtMost result buf.new }
        ensures bytes { ReadConsumes (Some self.old.left) (Some self.new.left) result buf.new }
        ensures cause { HasCause self.old.faults self.new.faults result }
        ensures fails { is_err result ≡ next_fails self.old.failing self.old.calls }
        ensures count { IfOk result (λ n. n ≡ source_count self.old (length buf.new)) }
        ensures after { self.new ≡ source_after self.old result }
    {
        if self.calls.next_fails() {
            self.faults = self.faults.saturating_add(1);
            return Err(Failed);
        }
        let rest = &self.bytes[self.at..];
        let count = self.piece.min(buf.len().min(rest.len()));
        buf[..count].copy_from_slice(&rest[..count]);
        self.at += count;
        Ok(count)
    }
}
