//! Private steps, computed: those of instructions that touch neither memory nor library.

ghost use Rattle.std.specs.Prelude.{◌≡◌, Some};
ghost use Rattle.elf_image.specs.Layout.{ImageData};
ghost use Rattle.basic_blocks.specs.Places.{instr_at};
ghost use Rattle.x86_model.specs.Want.{want};
ghost use Rattle.machine_model.specs.Step.{privately};

use x86_forms::Instr;
use x86_model::{Cpu, Want, want_of};

// The registers after a private step.
fn privately(want: Want) -> Option<Cpu>
    ensures { result ≡ privately want }
{
    match want {
        Want::Private(next) => Some(next),
        _ => None,
    }
}

/// The registers after a thread's next step, where that is private: `instr`, of so many bytes, stands at rip.
#[tactic(auto, using(crate::proofs::Wants::privately_there))]
pub(crate) fn privately_at(cpu: Cpu, instr: Instr, len: u8) -> Option<Cpu>
    ensures { (image : ImageData) → instr_at image cpu.rip ≡ Some (instr, len) → result ≡ privately (want image cpu) }
{
    privately(want_of(instr, cpu.rip.wrapping_add(u64::from(len)), cpu))
}
