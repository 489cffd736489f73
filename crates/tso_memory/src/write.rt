//! Writes and their widths.

ghost use Rattle.std.specs.Prelude.{◌≡◌, ℕ, ◌+◌, ◌-◌, ◌%◌, ◌^◌, ◌<◌, ◌≤◌, true, false, Some, None, IfSome, if◌then◌else◌};
ghost use Rattle.std.specs.Bool.{OnFalse};
ghost use Rattle.std.specs.Int.{byte_at};

use crate::space::word_from;

/// How many bytes an access has: 1, 2, 4 or 8.
#[derive(Clone, Copy, Debug, PartialEq, Eq)]
pub enum Width {
    W8,
    W16,
    W32,
    W64,
}

impl Width {
    ghost use Rattle.tso_memory.specs.Buffer.{size_of};

    /// The width in bytes.
    pub fn size(self) -> usize
        ensures { result ≡ size_of self }
    {
        match self {
            Width::W8 => 1,
            Width::W16 => 2,
            Width::W32 => 4,
            Width::W64 => 8,
        }
    }

    /// The number in the lowest bytes of `value`.
    pub fn lowest(self, value: u64) -> u64
        ensures { result ≡ value % 256 ^ size_of self }
    {
        match self {
            Width::W8 => value % 0x100,
            Width::W16 => value % 0x1_0000,
            Width::W32 => value % 0x1_0000_0000,
            Width::W64 => value,
        }
    }
}

/// A store that waits in its thread's buffer: the lowest bytes of `value`, from address `at` on.
#[derive(Clone, Copy, Debug, PartialEq, Eq)]
pub struct PendingWrite {
    pub at: u64,
    pub width: Width,
    pub value: u64,
}

impl PendingWrite {
    ghost use Rattle.tso_memory.specs.Buffer.{covers, size_of};
    ghost use Rattle.tso_memory.specs.Memory.{number_from};

    /// Whether the write covers one of `size` bytes from an address on.
    pub(crate) fn meets(&self, a: u64, size: usize) -> bool
        ensures { OnFalse result ((x : ℕ) → a ≤ x → x < a + size → covers self.now x ≡ false) }
    {
        if self.at <= a {
            a - self.at < self.width.size() as u64
        } else {
            self.at - a < size as u64
        }
    }

    /// The byte that the write brings to an address, where it covers it.
    pub(crate) fn byte(&self, x: u64) -> Option<u8>
        ensures { result ≡ (if covers self.now x then Some (byte_at (x - self.now.at) self.now.value) else None) }
    {
        if self.at <= x && x - self.at < self.width.size() as u64 {
            Some(self.value.to_le_bytes()[(x - self.at) as usize])
        } else {
            None
        }
    }

    /// The number from an address on, where the write covers all its bytes.
    pub(crate) fn number(&self, a: u64, width: Width) -> Option<u64>
        ensures all { IfSome result (λ _. (x : ℕ) → a ≤ x → x < a + size_of width → covers self.now x ≡ true) }
        ensures number { IfSome result (λ v. v ≡ number_from (λ x. byte_at (x - self.now.at) self.now.value) (size_of width) a) }
        ensures fits { IfSome result (λ v. v < 256 ^ size_of width) }
    {
        if a < self.at {
            return None;
        }
        let place = a - self.at;
        if place > 8 {
            return None;
        }
        if place + width.size() as u64 > self.width.size() as u64 {
            return None;
        }
        Some(word_from(&self.value.to_le_bytes(), place as usize, width))
    }
}
