//! What stands at an address.

ghost use Rattle.std.specs.Prelude.{◌≡◌, ◌≤◌, IfSome, length};
ghost use Rattle.x86_forms.specs.Limits.{InstrFits};
ghost use Rattle.x86_forms.specs.Reading.{read};
ghost use Rattle.x86_model.specs.Want.{code_from};
ghost use Rattle.basic_blocks.specs.Places.{instr_at, is_code_place};

use address_space::{CALL_DOOR, END_DOOR};
use elf_image::Image;
use x86_decode::decode;
use x86_forms::{Instr, spelled_fits};
use x86_model::code_from;

/// Whether instructions may stand at the address: it is no door, to which a thread's start function or a comparator
/// returns, and no function of the library is called there.
#[tactic(auto, unfolding(x86_model::specs::Want::door_at))]
pub fn is_code_place(image: &Image, a: u64) -> bool
    ensures { result ≡ is_code_place image.now a }
{
    a != END_DOOR && a != CALL_DOOR && image.function_at(a).is_none()
}

// The instruction at the front of the bytes, and its length.
fn read_front(bytes: &[u8]) -> Option<(Instr, u8)>
    ensures value { result ≡ read bytes.now }
    ensures within { IfSome result (λ x. x.1 ≤ length bytes.now) }
    ensures fits { IfSome result (λ x. InstrFits x.0) }
{
    spelled_fits();
    decode(bytes)
}

/// The instruction that stands at the address, and how many bytes it has; none where that is no code place, or where
/// the bytes that can be run there, in one segment, spell no instruction. The numbers in it are within their limits.
#[tactic(auto, unfolding(crate::specs::Places::instr_at))]
pub fn instr_at(image: &Image, a: u64) -> Option<(Instr, u8)>
    ensures value { result ≡ instr_at image.now a }
    ensures within { IfSome result (λ x. x.1 ≤ length (code_from image.now.segments a)) }
    ensures fits { IfSome result (λ x. InstrFits x.0) }
{
    if is_code_place(image, a) {
        read_front(code_from(image, a))
    } else {
        None
    }
}
