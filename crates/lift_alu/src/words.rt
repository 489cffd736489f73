//! The words of instructions in the register language.
ghost use Rattle.std.specs.Prelude.{◌≡◌, ◌==◌};
ghost use Rattle.x86_flags.specs.Shifts.{count_of};
ghost use Rattle.x86_forms.specs.Limits.{is_immediate};
ghost use Rattle.x86_forms.specs.Widths.{bits_in};
ghost use Rattle.x86_model.specs.Operands.{target};
ghost use Rattle.x86_model.specs.Registers.{half};
ghost use Rattle.x86_model.specs.Results.{keeps_result};
ghost use Rattle.lift_table.specs.LiftLines.{alu_family, one_family, shift_family, high_family, product_family};

use ir_syntax::Family;
pub use lift_table::{ir_cond, ir_width};
use x86_forms::{AluOp, OneOp, Operand, ShiftOp};
pub use x86_model::target;

/// The family of an operation on two operands: that of SUB for CMP, and that of AND for TEST.
pub fn alu_family(op: AluOp) -> Family
    ensures { result ≡ alu_family op }
{
    match op {
        AluOp::Add => Family::Add,
        AluOp::Or => Family::Or,
        AluOp::Adc => Family::Adc,
        AluOp::Sbb => Family::Sbb,
        AluOp::And | AluOp::Test => Family::And,
        AluOp::Sub | AluOp::Cmp => Family::Sub,
        AluOp::Xor => Family::Xor,
    }
}

/// Whether an operation on two operands has a result: CMP and TEST put flags alone.
pub fn keeps_result(op: AluOp) -> bool
    ensures { result ≡ keeps_result op }
{
    !matches!(op, AluOp::Cmp | AluOp::Test)
}

/// The family of an operation on one operand.
pub fn one_family(op: OneOp) -> Family
    ensures { result ≡ one_family op }
{
    match op {
        OneOp::Inc => Family::Inc,
        OneOp::Dec => Family::Dec,
        OneOp::Not => Family::Not,
        OneOp::Neg => Family::Neg,
    }
}

/// The family of a shift or a rotation.
pub fn shift_family(op: ShiftOp) -> Family
    ensures { result ≡ shift_family op }
{
    match op {
        ShiftOp::Shl => Family::Shl,
        ShiftOp::Shr => Family::Shr,
        ShiftOp::Sar => Family::Sar,
        ShiftOp::Rol => Family::Rol,
        ShiftOp::Ror => Family::Ror,
    }
}

/// The family of the high half of a product.
pub fn high_family(signed: bool) -> Family
    ensures { result ≡ high_family signed }
{
    if signed { Family::Smulh } else { Family::Umulh }
}

/// The family of the flags of a product.
pub fn product_family(signed: bool) -> Family
    ensures { result ≡ product_family signed }
{
    if signed { Family::Smul } else { Family::Umul }
}

/// Half of 32 or 64 bits.
pub fn half(w: x86_forms::Width) -> x86_forms::Width
    ensures { result ≡ half w }
{
    match w {
        x86_forms::Width::W64 => x86_forms::Width::W32,
        _ => x86_forms::Width::W16,
    }
}

/// Whether the part of a shift count that is used is 0 (6 bits of it at 64 bits, else 5: Intel SDM
/// Volume 2, "SAL/SAR/SHL/SHR").
#[tactic(auto, unfolding(x86_flags::specs::Shifts::count_of))]
pub fn is_still(w: x86_forms::Width, count: u8) -> bool
    ensures { result ≡ (count_of (bits_in w) count == 0) }
{
    match w {
        x86_forms::Width::W64 => count % 64 == 0,
        _ => count % 32 == 0,
    }
}

/// Whether an operand is a number in the instruction.
pub fn is_immediate(operand: Operand) -> bool
    ensures { result ≡ is_immediate operand }
{
    matches!(operand, Operand::Imm(_))
}
