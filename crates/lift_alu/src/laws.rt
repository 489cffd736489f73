//! Each private instruction follows the thread: from every state that agrees, the parts of the lifting
//! table ask for what the thread wants and agree again. Each law is the contract of an empty function.
//! The instructions are those that keep the limits of spelled ones (`spelled_fits` of `x86_forms`).
ghost use Rattle.std.specs.Prelude.{◌≡◌, ℕ, Bool, Option};
ghost use Rattle.x86_forms.specs.Groups.{group_of};
ghost use Rattle.x86_forms.specs.Limits.{InstrFits};
ghost use Rattle.x86_forms.specs.declared.conditions.Cond.{Cond};
ghost use Rattle.x86_forms.specs.declared.instructions.AluOp.{AluOp};
ghost use Rattle.x86_forms.specs.declared.instructions.Group.{Group};
ghost use Rattle.x86_forms.specs.declared.instructions.Instr.{Instr};
ghost use Rattle.x86_forms.specs.declared.instructions.OneOp.{OneOp};
ghost use Rattle.x86_forms.specs.declared.instructions.ShiftOp.{ShiftOp};
ghost use Rattle.x86_forms.specs.declared.operands.Mem.{Mem};
ghost use Rattle.x86_forms.specs.declared.operands.Operand.{Operand};
ghost use Rattle.x86_forms.specs.declared.operands.Width.{Width};
ghost use Rattle.lift_table.specs.Follow.{Lifts};

use x86_forms::{Group, Instr};

/// ADD, OR, ADC, SBB, AND, SUB, XOR, CMP and TEST.
pub fn alu_lifts()
    ensures { (op : AluOp) (w : Width) (dst src : Operand) (next : ℕ) → InstrFits (Instr.Alu op w dst src) → group_of (Instr.Alu op w dst src) ≡ Group.Private → Lifts (Instr.Alu op w dst src) next }
{}

/// INC, DEC, NOT and NEG.
pub fn one_lifts()
    ensures { (op : OneOp) (w : Width) (dst : Operand) (next : ℕ) → InstrFits (Instr.One op w dst) → group_of (Instr.One op w dst) ≡ Group.Private → Lifts (Instr.One op w dst) next }
{}

/// MOV, MOVZX, MOVSX and MOVSXD.
pub fn moves_lift()
    ensures mov { (w : Width) (dst src : Operand) (next : ℕ) → InstrFits (Instr.Mov w dst src) → group_of (Instr.Mov w dst src) ≡ Group.Private → Lifts (Instr.Mov w dst src) next }
    ensures zero_extended { (from w : Width) (dst : ℕ) (src : Operand) (next : ℕ) → InstrFits (Instr.Zx from w dst src) → group_of (Instr.Zx from w dst src) ≡ Group.Private → Lifts (Instr.Zx from w dst src) next }
    ensures sign_extended { (from w : Width) (dst : ℕ) (src : Operand) (next : ℕ) → InstrFits (Instr.Sx from w dst src) → group_of (Instr.Sx from w dst src) ≡ Group.Private → Lifts (Instr.Sx from w dst src) next }
{}

/// LEA.
pub fn lea_lifts()
    ensures { (w : Width) (dst : ℕ) (mem : Mem) (next : ℕ) → InstrFits (Instr.Lea w dst mem) → Lifts (Instr.Lea w dst mem) next }
{}

/// SHL, SHR, SAR, ROL and ROR.
pub fn shifts_lift()
    ensures { (op : ShiftOp) (w : Width) (dst : Operand) (count : Option ℕ) (next : ℕ) → InstrFits (Instr.Shift op w dst count) → group_of (Instr.Shift op w dst count) ≡ Group.Private → Lifts (Instr.Shift op w dst count) next }
{}

/// MUL and IMUL.
pub fn products_lift()
    ensures wide { (signed : Bool) (w : Width) (src : Operand) (next : ℕ) → InstrFits (Instr.Mul signed w src) → group_of (Instr.Mul signed w src) ≡ Group.Private → Lifts (Instr.Mul signed w src) next }
    ensures low { (w : Width) (dst : ℕ) (a b : Operand) (next : ℕ) → InstrFits (Instr.Imul w dst a b) → group_of (Instr.Imul w dst a b) ≡ Group.Private → Lifts (Instr.Imul w dst a b) next }
{}

/// DIV and IDIV, also where they go wrong.
pub fn quotients_lift()
    ensures { (signed : Bool) (w : Width) (src : Operand) (next : ℕ) → InstrFits (Instr.Div signed w src) → group_of (Instr.Div signed w src) ≡ Group.Private → Lifts (Instr.Div signed w src) next }
{}

/// CWDE and CDQE, CDQ and CQO.
pub fn widening_lifts()
    ensures widen { (w : Width) (next : ℕ) → InstrFits (Instr.Widen w) → Lifts (Instr.Widen w) next }
    ensures spread { (w : Width) (next : ℕ) → InstrFits (Instr.Spread w) → Lifts (Instr.Spread w) next }
{}

/// XCHG of registers.
pub fn exchange_lifts()
    ensures { (w : Width) (a b : Operand) (next : ℕ) → InstrFits (Instr.Xchg w a b) → group_of (Instr.Xchg w a b) ≡ Group.Private → Lifts (Instr.Xchg w a b) next }
{}

/// SETcc and CMOVcc.
pub fn choices_lift()
    ensures set { (c : Cond) (dst : Operand) (next : ℕ) → InstrFits (Instr.Set c dst) → group_of (Instr.Set c dst) ≡ Group.Private → Lifts (Instr.Set c dst) next }
    ensures cmov { (c : Cond) (w : Width) (dst : ℕ) (src : Operand) (next : ℕ) → InstrFits (Instr.Cmov c w dst src) → group_of (Instr.Cmov c w dst src) ≡ Group.Private → Lifts (Instr.Cmov c w dst src) next }
{}

/// NOP, PAUSE and ENDBR64.
pub fn nops_lift()
    ensures nop { (next : ℕ) → Lifts Instr.Nop next }
    ensures pause { (next : ℕ) → Lifts Instr.Pause next }
    ensures endbr { (next : ℕ) → Lifts Instr.Endbr next }
{}

/// Every private instruction.
pub fn private_lifts()
    ensures { (i : Instr) (next : ℕ) → InstrFits i → group_of i ≡ Group.Private → Lifts i next }
{
    alu_lifts();
    one_lifts();
    moves_lift();
    lea_lifts();
    shifts_lift();
    products_lift();
    quotients_lift();
    widening_lifts();
    exchange_lifts();
    choices_lift();
    nops_lift();
}
