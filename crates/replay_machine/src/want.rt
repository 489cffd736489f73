//! What a thread wants, computed.

ghost use Rattle.std.specs.Prelude.{◌≡◌};
ghost use Rattle.x86_model.specs.Want.{door_at, want};

use address_space::{CALL_DOOR, END_DOOR};
use elf_image::Image;
use x86_decode::decode;
use x86_model::{BadStep, Cpu, Door, Want, code_from, want_of};

#[tactic(auto, unfolding(x86_model::specs::Want::door_at))]
fn door_at(a: u64) -> Option<Door>
    ensures { result ≡ door_at a }
{
    if a == END_DOOR {
        Some(Door::End)
    } else if a == CALL_DOOR {
        Some(Door::Call)
    } else {
        None
    }
}

/// What a thread wants: at a door or a place of a library function that, else by the instruction that
/// is spelled at rip in the bytes of one executable segment, and a bad step where none is.
#[tactic(auto, unfolding(x86_model::specs::Want::want))]
pub fn next_want(image: &Image, cpu: Cpu) -> Want
    ensures { result ≡ want image.now cpu }
{
    if let Some(door) = door_at(cpu.rip) {
        return Want::Door(door);
    }
    if let Some(function) = image.function_at(cpu.rip) {
        return Want::Call(function);
    }
    match decode(code_from(image, cpu.rip)) {
        None => Want::Bad(BadStep::Code),
        Some((instr, length)) => want_of(instr, cpu.rip.wrapping_add(length as u64), cpu),
    }
}
