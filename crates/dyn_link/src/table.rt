//! The tables that a dynamic segment names, where the image has them.

ghost use Rattle.std.specs.Prelude.{◌≡◌, ◌+◌, ◌≤◌, ◌<◌, ◌++◌, true, false, length, IfSome, MatchOption};
ghost use Rattle.std.specs.Option.{option_map};
ghost use Rattle.dyn_link.specs.Dynamic.{run_in, run_at, table_at, lacks_table};
ghost use Rattle.dyn_link.specs.Relocations.{relocations_in, relocations, strings};

use crate::dynamic::Dynamic;
use elf_image::{Image, Segment};

// The n bytes from the address, which the segment has, on.
fn run_in(segment: &Segment, a: u64, n: u64) -> Option<&[u8]>
    requires from { segment.now.at ≤ a }
    requires to { a < segment.now.at + segment.now.size }
    ensures run { option_map (λ b. b.now) result ≡ run_in a n (Some segment.now) }
    ensures len { IfSome result (λ b. length b.now ≡ n) }
{
    let place = a - segment.at;
    if n > segment.size - place {
        return None;
    }
    Some(&segment.bytes[place as usize..][..n as usize])
}

// The n bytes from the address on, where one segment has all of them.
#[tactic(auto, unfolding(crate::specs::Dynamic::run_at))]
pub(crate) fn run_at(image: &Image, a: u64, n: u64) -> Option<&[u8]>
    ensures run { option_map (λ b. b.now) result ≡ run_at a n image.now.segments }
    ensures len { IfSome result (λ b. length b.now ≡ n) }
{
    match image.segment_at(a) {
        Some(segment) => run_in(segment, a, n),
        None => None,
    }
}

// The bytes of a table, of which there are none where it isn't there or is empty.
fn table_at(image: &Image, at: Option<u64>, size: Option<u64>) -> Option<&[u8]>
    ensures { option_map (λ b. b.now) result ≡ table_at at size image.now.segments }
{
    match (at, size) {
        (Some(at), Some(size)) if size > 0 => run_at(image, at, size),
        _ => Some(&[]),
    }
}

/// The tables that are read.
#[derive(Clone, Copy)]
pub(crate) struct Tables<'a> {
    pub rela: &'a [u8],
    pub jmprel: &'a [u8],
    pub strings: &'a [u8],
}

// The tables, if each of them is empty or in one segment.
#[tactic(auto, unfolding(crate::specs::Dynamic::lacks_table, crate::specs::Relocations::relocations, crate::specs::Relocations::strings))]
pub(crate) fn find_tables<'a>(image: &'a Image, d: &Dynamic) -> Option<Tables<'a>>
    ensures { MatchOption result (lacks_table image.now.segments d.now ≡ true) (λ t. (lacks_table image.now.segments d.now ≡ false) × (t.strings.now ≡ strings image.now.segments d.now) × (relocations_in t.rela.now ++ relocations_in t.jmprel.now ≡ relocations image.now.segments d.now)) }
{
    let rela = table_at(image, d.rela, d.relasz)?;
    let jmprel = table_at(image, d.jmprel, d.pltrelsz)?;
    let strings = table_at(image, d.strtab, d.strsz)?;
    Some(Tables {
        rela,
        jmprel,
        strings,
    })
}
