ghost use Rattle.std.specs.Prelude.{◌≡◌};
ghost use Rattle.ir_meaning.specs.Family.{result_of, flags_after, AreOperands};
ghost use Rattle.x86_flags.specs.Width.{bits};

use ir_syntax::Family;
use x86_flags::{Flags, Width};

// The result of a family.
pub(crate) fn result_of(family: Family, w: Width, a: u64, b: u64, flags: Flags) -> u64
    requires { AreOperands family (bits w) a b }
    ensures { result ≡ result_of family (bits w) a b flags }
{
    match family {
        Family::Add => x86_flags::add(w, a, b, flags).0,
        Family::Adc => x86_flags::adc(w, a, b, flags).0,
        Family::Sub => x86_flags::sub(w, a, b, flags).0,
        Family::Sbb => x86_flags::sbb(w, a, b, flags).0,
        Family::And => x86_flags::and(w, a, b, flags).0,
        Family::Or => x86_flags::or(w, a, b, flags).0,
        Family::Xor => x86_flags::xor(w, a, b, flags).0,
        Family::Shl => x86_flags::shl(w, a, b as u8, flags).0,
        Family::Shr => x86_flags::shr(w, a, b as u8, flags).0,
        Family::Sar => x86_flags::sar(w, a, b as u8, flags).0,
        Family::Rol => x86_flags::rol(w, a, b as u8, flags).0,
        Family::Ror => x86_flags::ror(w, a, b as u8, flags).0,
        Family::Mul | Family::Umul => x86_flags::umul(w, a, b).0,
        Family::Umulh => x86_flags::umul(w, a, b).1,
        Family::Smul => x86_flags::smul(w, a, b).0,
        Family::Smulh => x86_flags::smul(w, a, b).1,
        Family::Inc => x86_flags::inc(w, a, flags).0,
        Family::Dec => x86_flags::dec(w, a, flags).0,
        Family::Neg => x86_flags::neg(w, a, flags).0,
        Family::Not => x86_flags::not(w, a, flags).0,
    }
}

// All five flags after a family.
pub(crate) fn flags_after(family: Family, w: Width, a: u64, b: u64, flags: Flags) -> Flags
    requires { AreOperands family (bits w) a b }
    ensures { result ≡ flags_after family (bits w) a b flags }
{
    match family {
        Family::Add => x86_flags::add(w, a, b, flags).1,
        Family::Adc => x86_flags::adc(w, a, b, flags).1,
        Family::Sub => x86_flags::sub(w, a, b, flags).1,
        Family::Sbb => x86_flags::sbb(w, a, b, flags).1,
        Family::And => x86_flags::and(w, a, b, flags).1,
        Family::Or => x86_flags::or(w, a, b, flags).1,
        Family::Xor => x86_flags::xor(w, a, b, flags).1,
        Family::Shl => x86_flags::shl(w, a, b as u8, flags).1,
        Family::Shr => x86_flags::shr(w, a, b as u8, flags).1,
        Family::Sar => x86_flags::sar(w, a, b as u8, flags).1,
        Family::Rol => x86_flags::rol(w, a, b as u8, flags).1,
        Family::Ror => x86_flags::ror(w, a, b as u8, flags).1,
        Family::Mul | Family::Umulh | Family::Smulh => flags,
        Family::Umul => x86_flags::umul(w, a, b).2,
        Family::Smul => x86_flags::smul(w, a, b).2,
        Family::Inc => x86_flags::inc(w, a, flags).1,
        Family::Dec => x86_flags::dec(w, a, flags).1,
        Family::Neg => x86_flags::neg(w, a, flags).1,
        Family::Not => x86_flags::not(w, a, flags).1,
    }
}
