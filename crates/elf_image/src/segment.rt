//! A part of the program's address space.

use std::marker::Model;

/// A part of the program's address space, all of its bytes with it.
///
/// `bytes` has `size` bytes, `size` is above 0, `at + size` is at most 2^47, and no segment can be
/// both written and run.
#[derive(Drop)]
pub struct Segment {
    /// The address of the first byte.
    pub at: u64,
    /// How many bytes there are.
    pub size: u64,
    /// Whether the program may read them.
    pub r: bool,
    /// Whether the program may write them.
    pub w: bool,
    /// Whether the program may run them.
    pub x: bool,
    /// The bytes as the program begins.
    pub bytes: Vec<u8>,
}

impl Model for Segment {
    ghost use Rattle.elf_image.specs.Layout.{SegmentData, IsSegment};

    ghost Value = { SegmentData };

    ghost view = { λ s. record { at = s.at; size = s.size; r = s.r; w = s.w; x = s.x; bytes = s.bytes.items } };

    ghost invariant = { λ s. IsSegment (record { at = s.at; size = s.size; r = s.r; w = s.w; x = s.x; bytes = s.bytes.items }) };
}
