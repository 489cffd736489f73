//! Each instruction of the two groups follows the thread: from every state that agrees, the parts of the
//! lifting table ask for what the thread wants, whatever a load or a locked step answers, and agree again.
//! Each law is the contract of an empty function. The instructions are those that keep the limits of
//! spelled ones (`spelled_fits` of `x86_forms`).
ghost use Rattle.std.specs.Prelude.{◌≡◌, ℕ, ℤ, Bool, Option};
ghost use Rattle.x86_forms.specs.Groups.{group_of};
ghost use Rattle.x86_forms.specs.Limits.{InstrFits};
ghost use Rattle.x86_forms.specs.declared.conditions.Cond.{Cond};
ghost use Rattle.x86_forms.specs.declared.instructions.AluOp.{AluOp};
ghost use Rattle.x86_forms.specs.declared.instructions.Group.{Group};
ghost use Rattle.x86_forms.specs.declared.instructions.Instr.{Instr};
ghost use Rattle.x86_forms.specs.declared.instructions.OneOp.{OneOp};
ghost use Rattle.x86_forms.specs.declared.instructions.ShiftOp.{ShiftOp};
ghost use Rattle.x86_forms.specs.declared.operands.Mem.{Mem};
ghost use Rattle.x86_forms.specs.declared.operands.Operand.{Operand};
ghost use Rattle.x86_forms.specs.declared.operands.Width.{Width};
ghost use Rattle.lift_table.specs.Follow.{Lifts};

use x86_forms::{Group, Instr};

/// ADD, OR, ADC, SBB, AND, SUB, XOR, CMP and TEST with an operand in memory.
pub fn alu_lifts()
    ensures { (op : AluOp) (w : Width) (dst src : Operand) (next : ℕ) → InstrFits (Instr.Alu op w dst src) → group_of (Instr.Alu op w dst src) ≡ Group.Memory → Lifts (Instr.Alu op w dst src) next }
{}

/// INC, DEC, NOT and NEG of memory.
pub fn one_lifts()
    ensures { (op : OneOp) (w : Width) (dst : Operand) (next : ℕ) → InstrFits (Instr.One op w dst) → group_of (Instr.One op w dst) ≡ Group.Memory → Lifts (Instr.One op w dst) next }
{}

/// MOV, MOVZX, MOVSX and MOVSXD from memory, and MOV to memory.
pub fn moves_lift()
    ensures mov { (w : Width) (dst src : Operand) (next : ℕ) → InstrFits (Instr.Mov w dst src) → group_of (Instr.Mov w dst src) ≡ Group.Memory → Lifts (Instr.Mov w dst src) next }
    ensures zero_extended { (from w : Width) (dst : ℕ) (src : Operand) (next : ℕ) → InstrFits (Instr.Zx from w dst src) → group_of (Instr.Zx from w dst src) ≡ Group.Memory → Lifts (Instr.Zx from w dst src) next }
    ensures sign_extended { (from w : Width) (dst : ℕ) (src : Operand) (next : ℕ) → InstrFits (Instr.Sx from w dst src) → group_of (Instr.Sx from w dst src) ≡ Group.Memory → Lifts (Instr.Sx from w dst src) next }
{}

/// SHL, SHR, SAR, ROL and ROR of memory. Where the used part of the count is 0, the old value is stored.
pub fn shifts_lift()
    ensures { (op : ShiftOp) (w : Width) (dst : Operand) (count : Option ℕ) (next : ℕ) → InstrFits (Instr.Shift op w dst count) → group_of (Instr.Shift op w dst count) ≡ Group.Memory → Lifts (Instr.Shift op w dst count) next }
{}

/// MUL and IMUL by memory.
pub fn products_lift()
    ensures wide { (signed : Bool) (w : Width) (src : Operand) (next : ℕ) → InstrFits (Instr.Mul signed w src) → group_of (Instr.Mul signed w src) ≡ Group.Memory → Lifts (Instr.Mul signed w src) next }
    ensures low { (w : Width) (dst : ℕ) (a b : Operand) (next : ℕ) → InstrFits (Instr.Imul w dst a b) → group_of (Instr.Imul w dst a b) ≡ Group.Memory → Lifts (Instr.Imul w dst a b) next }
{}

/// DIV and IDIV by memory, also where they go wrong.
pub fn quotients_lift()
    ensures { (signed : Bool) (w : Width) (src : Operand) (next : ℕ) → InstrFits (Instr.Div signed w src) → group_of (Instr.Div signed w src) ≡ Group.Memory → Lifts (Instr.Div signed w src) next }
{}

/// SETcc of memory, which is stored and not loaded, and CMOVcc from memory, which is loaded either way.
pub fn choices_lift()
    ensures set { (c : Cond) (dst : Operand) (next : ℕ) → InstrFits (Instr.Set c dst) → group_of (Instr.Set c dst) ≡ Group.Memory → Lifts (Instr.Set c dst) next }
    ensures cmov { (c : Cond) (w : Width) (dst : ℕ) (src : Operand) (next : ℕ) → InstrFits (Instr.Cmov c w dst src) → group_of (Instr.Cmov c w dst src) ≡ Group.Memory → Lifts (Instr.Cmov c w dst src) next }
{}

/// PUSH of a register, a number or memory. PUSH rsp stores what rsp was before.
pub fn push_lifts()
    ensures { (src : Operand) (next : ℕ) → InstrFits (Instr.Push src) → Lifts (Instr.Push src) next }
{}

/// POP into any register. POP rsp leaves the loaded number in rsp.
pub fn pop_lifts()
    ensures { (dst : ℕ) (next : ℕ) → InstrFits (Instr.Pop dst) → Lifts (Instr.Pop dst) next }
{}

/// LEAVE.
pub fn leave_lifts()
    ensures { (next : ℕ) → Lifts Instr.Leave next }
{}

/// XCHG with memory, in one locked step.
pub fn exchange_lifts()
    ensures { (w : Width) (a b : Operand) (next : ℕ) → InstrFits (Instr.Xchg w a b) → group_of (Instr.Xchg w a b) ≡ Group.Memory → Lifts (Instr.Xchg w a b) next }
{}

/// LOCK ADD, OR, AND, SUB and XOR, and LOCK INC and DEC, with flags of the old value.
pub fn locked_lift()
    ensures two_operands { (op : AluOp) (w : Width) (mem : Mem) (src : Operand) (next : ℕ) → InstrFits (Instr.LockAlu op w mem src) → Lifts (Instr.LockAlu op w mem src) next }
    ensures one_operand { (op : OneOp) (w : Width) (mem : Mem) (next : ℕ) → InstrFits (Instr.LockOne op w mem) → Lifts (Instr.LockOne op w mem) next }
{}

/// LOCK XADD: the register gets the old value.
pub fn xadd_lifts()
    ensures { (w : Width) (mem : Mem) (reg : Operand) (next : ℕ) → InstrFits (Instr.Xadd w mem reg) → Lifts (Instr.Xadd w mem reg) next }
{}

/// LOCK CMPXCHG. Where the old value differs from the accumulator, that becomes it, at 32 bits with a cleared
/// upper half of rax; where it is equal, rax stays whole.
pub fn cmpxchg_lifts()
    ensures { (w : Width) (mem : Mem) (reg : Operand) (next : ℕ) → InstrFits (Instr.Cmpxchg w mem reg) → Lifts (Instr.Cmpxchg w mem reg) next }
{}

/// MFENCE.
pub fn mfence_lifts()
    ensures { (next : ℕ) → Lifts Instr.Mfence next }
{}

/// Every instruction that reads or writes memory, or orders accesses to it, and is no transfer.
pub fn memory_lifts()
    ensures { (i : Instr) (next : ℕ) → InstrFits i → group_of i ≡ Group.Memory → Lifts i next }
{
    alu_lifts();
    one_lifts();
    moves_lift();
    shifts_lift();
    products_lift();
    quotients_lift();
    choices_lift();
    push_lifts();
    pop_lifts();
    leave_lifts();
    exchange_lifts();
    locked_lift();
    xadd_lifts();
    cmpxchg_lifts();
    mfence_lifts();
}

/// Jcc, and JMP to a place or to the address in a register or in memory.
pub fn jumps_lift()
    ensures conditional { (c : Cond) (rel : ℤ) (next : ℕ) → Lifts (Instr.Jcc c rel) next }
    ensures direct { (rel : ℤ) (next : ℕ) → Lifts (Instr.Jmp rel) next }
    ensures indirect { (src : Operand) (next : ℕ) → InstrFits (Instr.JmpTo src) → Lifts (Instr.JmpTo src) next }
{}

/// CALL of a place, and of the address in a register or in memory, which is read before rsp changes.
pub fn calls_lift()
    ensures direct { (rel : ℤ) (next : ℕ) → Lifts (Instr.Call rel) next }
    ensures indirect { (src : Operand) (next : ℕ) → InstrFits (Instr.CallTo src) → Lifts (Instr.CallTo src) next }
{}

/// RET, with the bytes that it takes from the stack.
pub fn ret_lifts()
    ensures { (extra : ℕ) (next : ℕ) → Lifts (Instr.Ret extra) next }
{}

/// Every jump, call and return.
pub fn flow_lifts()
    ensures { (i : Instr) (next : ℕ) → InstrFits i → group_of i ≡ Group.Transfer → Lifts i next }
{
    jumps_lift();
    calls_lift();
    ret_lifts();
}
