ghost use Rattle.std.specs.Prelude.{◌≡◌, ◌≤◌, length, drop};
ghost use Rattle.x86_model.specs.Want.{want_of, code_from};

use crate::accesses::first_access;
use crate::cpu::Cpu;
use crate::finishing::finished;
use crate::want::Want;
use elf_image::Image;
use x86_forms::Instr;

/// What an instruction wants, where `next` is the address of the next instruction: its load or locked
/// step first, if it reads memory and has not yet, and else its end.
#[tactic(auto, unfolding(crate::specs::Want::want_of))]
pub fn want_of(instr: Instr, next: u64, cpu: Cpu) -> Want
    ensures { result ≡ want_of instr next cpu }
{
    match cpu.mid {
        Some(_) => finished(instr, next, cpu),
        None => match first_access(instr, next, cpu) {
            Some(access) => access,
            None => finished(instr, next, cpu),
        },
    }
}

// The bytes from a place on.
fn tail(bytes: &[u8], from: u64) -> &[u8]
    requires { from ≤ length bytes.now }
    ensures { result.now ≡ drop from bytes.now }
{
    &bytes[from as usize..]
}

/// The bytes that can be run from `a` on, in the segment that has it. They end with that segment, and
/// there are none where no segment has `a`, or one that can't be run.
#[tactic(auto, unfolding(crate::specs::Want::code_from))]
pub fn code_from(image: &Image, a: u64) -> &[u8]
    ensures { result.now ≡ code_from image.now.segments a }
{
    match image.segment_at(a) {
        Some(segment) if segment.x => tail(&segment.bytes, a - segment.at),
        _ => &[],
    }
}
