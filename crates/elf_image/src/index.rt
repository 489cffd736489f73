//! Where the segments of an image begin, in the order of their addresses.

ghost use Rattle.std.specs.Prelude.{◌≡◌, ◌≤◌, length, IfOk, All, AllPairs};
ghost use Rattle.std.specs.List.Sorted.{IsNonDecreasingBy};
ghost use Rattle.std.specs.Option.{option_copied};
ghost use Rattle.elf_image.specs.Index.{AreStarts, IsIndex, IsCountBy};
ghost use Rattle.elf_image.specs.Layout.{IsSegment, IsApart, segment_at};

use crate::segment::Segment;
use std::alloc::{AllocError, Global};

/// The first address of a segment, and its number among all.
#[derive(Clone, Copy)]
pub(crate) struct Start {
    pub at: u64,
    pub number: usize,
}

// The starts of all segments, in the order of the segments.
fn all_starts(alloc: Global, segments: &[Segment]) -> Result<Vec<Start>, AllocError>
    ensures { IfOk result (λ v. AreStarts v.items segments.now) }
{
    let mut starts = Vec::with_capacity(alloc, segments.len())?;
    for number in 0..segments.len() {
        let segment = &segments[number];
        starts.push(Start {
            at: segment.at,
            number,
        })?;
    }
    Ok(starts)
}

// The starts of all segments, rising by address.
pub(crate) fn starts_of(alloc: Global, segments: &[Segment]) -> Result<Vec<Start>, AllocError>
    ensures { IfOk result (λ v. IsIndex v.items segments.now) }
{
    let mut starts = all_starts(alloc, segments)?;
    starts.sort_unstable_by_key(|s| s.at);
    Ok(starts)
}

// How many of the starts are at or below the address.
fn starts_by(starts: &[Start], a: u64) -> usize
    requires { IsNonDecreasingBy (λ s. s.at) starts.now }
    ensures { IsCountBy starts.now a result }
{
    starts.partition_point(|s| s.at <= a)
}

// The segment that has the address, by the starts of all of them.
pub(crate) fn segment_by<'a>(
    segments: &'a [Segment],
    starts: &[Start],
    a: u64,
) -> Option<&'a Segment>
    requires few { length segments.now ≤ 67108864 }
    requires whole { All IsSegment segments.now }
    requires apart { AllPairs IsApart segments.now }
    requires index { IsIndex starts.now segments.now }
    ensures { option_copied result ≡ segment_at a segments.now }
{
    let after = starts_by(starts, a);
    if after == 0 {
        return None;
    }
    let last = starts[after - 1];
    let segment = &segments[last.number];
    if a - segment.at < segment.size {
        Some(segment)
    } else {
        None
    }
}
