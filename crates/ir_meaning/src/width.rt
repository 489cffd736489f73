ghost use Rattle.std.specs.Prelude.{◌≡◌};
ghost use Rattle.ir_meaning.specs.Width.{state_width};
ghost use Rattle.ir_syntax.specs.Width.{bits_of};
ghost use Rattle.guest_state.specs.Width.{bits as state_bits};
ghost use Rattle.x86_flags.specs.Width.{bits};

use ir_syntax::Width;

// The same width for the families of operations.
#[tactic(auto, unfolding(x86_flags::specs::Width::bits))]
pub(crate) fn flag_width(w: Width) -> x86_flags::Width
    ensures { bits result ≡ bits_of w }
{
    match w {
        Width::W8 => x86_flags::Width::W8,
        Width::W16 => x86_flags::Width::W16,
        Width::W32 => x86_flags::Width::W32,
        Width::W64 => x86_flags::Width::W64,
    }
}

// The same width for reads and writes of registers.
#[tactic(auto, unfolding(guest_state::specs::Width::bits))]
pub(crate) fn state_width(w: Width) -> guest_state::Width
    ensures value { result ≡ state_width w }
    ensures bits { state_bits result ≡ bits_of w }
{
    match w {
        Width::W8 => guest_state::Width::W8,
        Width::W16 => guest_state::Width::W16,
        Width::W32 => guest_state::Width::W32,
        Width::W64 => guest_state::Width::W64,
    }
}
