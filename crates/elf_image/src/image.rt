//! A program in memory.

ghost use Rattle.std.specs.Prelude.{◌≡◌, IfOk};
ghost use Rattle.std.specs.Option.{option_copied};
ghost use Rattle.elf_image.specs.Layout.{IsImage, segment_at, function_at};

use crate::index::{Start, segment_by, starts_of};
use crate::place::{self, Function, LibPlace};
use crate::segment::Segment;
use std::alloc::{AllocError, Global};
use std::marker::Model;

/// A program in memory as it begins.
///
/// No two segments share an address, their sizes sum to at most 67,108,864, the entries rise by
/// address, and the entry is in a segment that can be run.
#[derive(Drop)]
pub struct Image {
    /// The address of the first instruction.
    pub entry: u64,
    /// The parts of the address space, in the order of the file's program headers.
    pub segments: Vec<Segment>,
    /// The addresses at which the library's functions are called, rising.
    pub entries: Vec<LibPlace>,
    // Where the segments begin, rising by address.
    starts: Vec<Start>,
}

impl Model for Image {
    ghost use Rattle.elf_image.specs.Layout.{ImageData};
    ghost use Rattle.elf_image.specs.Index.{IsIndexed};

    ghost Value = { ImageData };

    ghost view = { λ m. record { entry = m.entry; segments = m.segments.items; entries = m.entries.items } };

    ghost invariant = { λ m. IsIndexed (record { entry = m.entry; segments = m.segments.items; entries = m.entries.items }) m.starts.items };
}

impl Image {
    /// The image of these parts, which keep what every image does.
    pub fn make(
        alloc: Global,
        entry: u64,
        segments: Vec<Segment>,
        entries: Vec<LibPlace>,
    ) -> Result<Image, AllocError>
        requires { IsImage (record { entry = entry; segments = segments.items; entries = entries.items }) }
        ensures { IfOk result (λ m. m ≡ record { entry = entry; segments = segments.items; entries = entries.items }) }
    {
        let starts = starts_of(alloc, &segments)?;
        Ok(Image {
            entry,
            segments,
            entries,
            starts,
        })
    }

    /// Tells the caller what every image keeps. It does nothing at run time.
    pub fn facts(&self)
        ensures { IsImage self.now }
    {
        let _ = &self.entry;
    }

    /// The segment that has the address `a`, if one has it. The time is logarithmic in the number of
    /// segments.
    pub fn segment_at(&self, a: u64) -> Option<&Segment>
        ensures { option_copied result ≡ segment_at a self.now.segments }
    {
        segment_by(&self.segments, &self.starts, a)
    }

    /// The function of the library that is called at the address `a`, if one is. The time is
    /// logarithmic in the number of entries.
    pub fn function_at(&self, a: u64) -> Option<Function>
        ensures { result ≡ function_at a self.now.entries }
    {
        place::function_at(&self.entries, a)
    }
}
