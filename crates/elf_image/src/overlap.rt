//! The first two segments that share an address, in the order of their headers.

ghost use Rattle.std.specs.Prelude.{◌≡◌, ℕ, ◌+◌, ◌<◌, ◌≤◌, ◌^◌, ◌↔◌, length, IsTrue, IfOk, All, MatchOption, slice_index_or, true};
ghost use Rattle.std.specs.List.Sorted.{IsNonDecreasingBy};
ghost use Rattle.elf_image.specs.Elf.{is_segment};
ghost use Rattle.elf_image.specs.Loading.{is_at, Overlaps};
ghost use Rattle.elf_image.specs.Spans.{spans_from, IsShared, IsTop, LeastBefore, lower, IsFirstOverlap};

use crate::header::ProgramHeader;
use std::alloc::{AllocError, Global};

/// The addresses of a segment, from `at` up to but without `end`, and the number of its header.
#[derive(Clone, Copy)]
pub(crate) struct Span {
    pub number: u32,
    pub at: u64,
    pub end: u64,
}

// The spans of the segments among the headers.
fn spans(alloc: Global, headers: &[ProgramHeader]) -> Result<Vec<Span>, AllocError>
    requires few { length headers.now < 2 ^ 16 }
    requires canonical { All (λ h. is_segment h ≡ true → h.vaddr + h.memsz ≤ 2 ^ 47) headers.now }
    ensures { IfOk result (λ v. v.items ≡ spans_from 0 headers.now) }
{
    let mut spans = Vec::new(alloc);
    for n in 0..headers.len() {
        let h = headers[n];
        if h.is_segment() {
            spans.push(Span {
                number: n as u32,
                at: h.vaddr,
                end: h.vaddr + h.memsz,
            })?;
        }
    }
    Ok(spans)
}

// Whether an address of the span at `i` is in another. `top` is the greatest end before it.
fn is_shared(sorted: &[Span], i: usize, top: u64) -> bool
    requires rising { IsNonDecreasingBy (λ s. s.at) sorted.now }
    requires occupied { All (λ s. s.at < s.end) sorted.now }
    requires in_range { i < length sorted.now }
    requires top { IsTop sorted.now i top }
    ensures { (d : Span) → IsTrue result ↔ IsShared sorted.now (slice_index_or sorted.now i d) }
{
    let s = sorted[i];
    if s.at < top {
        return true;
    }
    if i + 1 == sorted.len() {
        return false;
    }
    let next = sorted[i + 1];
    next.at < s.end
}

fn lower(least: Option<u32>, is_one: bool, n: u32) -> Option<u32>
    ensures { result ≡ lower least is_one n }
{
    match least {
        None if is_one => Some(n),
        Some(m) if is_one && n < m => Some(n),
        _ => least,
    }
}

// The least number of a span of which an address is in another.
fn least_shared(sorted: &[Span]) -> Option<u32>
    requires rising { IsNonDecreasingBy (λ s. s.at) sorted.now }
    requires occupied { All (λ s. s.at < s.end) sorted.now }
    ensures { LeastBefore sorted.now (length sorted.now) result }
{
    let mut least = None;
    let mut top = 0;
    for i in 0..sorted.len() {
        let s = sorted[i];
        let shared = is_shared(sorted, i, top);
        least = lower(least, shared, s.number);
        if s.end > top {
            top = s.end;
        }
    }
    least
}

impl ProgramHeader {
    // Whether both load a segment, and some address is in both.
    fn overlaps(&self, other: &ProgramHeader) -> bool
        ensures { IsTrue result ↔ ((a : ℕ) × IsTrue (is_at a self.now) × IsTrue (is_at a other.now)) }
    {
        if !self.is_segment() || !other.is_segment() {
            return false;
        }
        if self.vaddr <= other.vaddr {
            other.vaddr - self.vaddr < self.memsz
        } else {
            self.vaddr - other.vaddr < other.memsz
        }
    }
}

// The first header after the one at `n` whose segment shares an address with that one's.
fn partner(headers: &[ProgramHeader], n: usize) -> Option<usize>
    requires { n < length headers.now }
    ensures { MatchOption result ((m : ℕ) → ¬ Overlaps headers.now n m) (λ m. Overlaps headers.now n m × ((j : ℕ) → Overlaps headers.now n j → m ≤ j)) }
{
    for m in n + 1..headers.len() {
        if headers[n].overlaps(&headers[m]) {
            return Some(m);
        }
    }
    None
}

// The first two headers whose segments share an address: the least, and then its least partner. The
// time is that of sorting them.
pub(crate) fn first_overlap(
    alloc: Global,
    headers: &[ProgramHeader],
) -> Result<Option<(u32, u32)>, AllocError>
    requires few { length headers.now < 2 ^ 16 }
    requires canonical { All (λ h. is_segment h ≡ true → h.vaddr + h.memsz ≤ 2 ^ 47) headers.now }
    ensures { IfOk result (λ o. MatchOption o ((n m : ℕ) → ¬ Overlaps headers.now n m) (λ p. IsFirstOverlap headers.now p.0 p.1)) }
{
    let mut sorted = spans(alloc, headers)?;
    sorted.sort_unstable_by_key(|s| s.at);
    let n = match least_shared(&sorted) {
        Some(n) => n,
        None => return Ok(None),
    };
    if n as usize >= headers.len() {
        return Ok(None);
    }
    match partner(headers, n as usize) {
        Some(m) => Ok(Some((n, m as u32))),
        None => Ok(None),
    }
}
