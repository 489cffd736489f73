//! Segments: where their bytes stand in the file, their program headers, and the bytes.

ghost use Rattle.std.specs.Prelude.{◌≡◌, ◌+◌, ◌-◌, ◌*◌, ◌^◌, ◌<◌, ◌≤◌, ◌++◌, length, replicate, All, OnOk};
ghost use Rattle.std.specs.List.{flat_map};
ghost use Rattle.elf_image.specs.Layout.{IsSegment};
ghost use Rattle.elf_writer.specs.ElfFile.{gap, placed, contents, program_bytes};

use crate::elf::field::put;
use crate::elf::header::{PAGE, program_fields};
use elf_image::Segment;
use std::alloc::AllocError;

// How many zeros bring the offset in step with the address, modulo a page.
#[tactic(auto, unfolding(crate::specs::ElfFile::gap))]
fn gap(end: u64, at: u64) -> u64
    ensures value { result ≡ gap end at }
    ensures small { result < 4096 }
{
    (at % PAGE + PAGE - end % PAGE) % PAGE
}

// Where the bytes of a segment stand behind the offset.
pub(crate) fn offset_behind(end: u64, s: &Segment) -> u64
    requires { end ≤ 2 ^ 64 - 4096 }
    ensures value { result ≡ end + gap end s.now.at }
    ensures near { result < end + 4096 }
{
    end + gap(end, s.at)
}

// Appends the program headers of segments whose bytes stand behind the offset.
pub(crate) fn put_programs(
    out: &mut Vec<u8>,
    start: u64,
    segments: &[Segment],
) -> Result<(), AllocError>
    requires few { length segments.now ≤ 16 }
    requires sized { All IsSegment segments.now }
    requires room { start ≤ 3 * 2 ^ 62 + 2 ^ 20 }
    ensures { OnOk result (out.new.items ≡ out.old.items ++ flat_map program_bytes (placed start segments.now)) }
{
    let mut end = start;
    for s in segments {
        let offset = offset_behind(end, s);
        put(out, &program_fields(offset, s))?;
        end = offset + s.size;
    }
    Ok(())
}

// Appends so many zeros, less than a page.
fn put_zeros(out: &mut Vec<u8>, n: u64) -> Result<(), AllocError>
    requires { n < 4096 }
    ensures { OnOk result (out.new.items ≡ out.old.items ++ replicate n 0) }
{
    out.resize(out.len() + n as usize, 0)
}

// Appends the segments' bytes, each behind zeros that bring its offset in step with its address.
pub(crate) fn put_contents(out: &mut Vec<u8>, segments: &[Segment]) -> Result<(), AllocError>
    requires { All IsSegment segments.now }
    ensures { OnOk result (out.new.items ≡ out.old.items ++ contents (length out.old.items) segments.now) }
{
    for s in segments {
        put_zeros(out, gap(out.len() as u64, s.at))?;
        out.extend_from_slice(&s.bytes)?;
    }
    Ok(())
}
