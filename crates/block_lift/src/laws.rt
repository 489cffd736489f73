//! What holds of all instructions and blocks, each law as the contract of a function that only calls other laws.

ghost use Rattle.std.specs.Prelude.{ℕ};
ghost use Rattle.x86_forms.specs.declared.instructions.Instr.{Instr};
ghost use Rattle.x86_forms.specs.Limits.{InstrFits};
ghost use Rattle.lift_table.specs.Follow.{Lifts};
ghost use Rattle.block_lift.specs.Spelled.{KnownByItsBytes, SpellOneList};

use lift_alu::private_lifts;
use lift_mem::laws::{flow_lifts, memory_lifts};

/// Every instruction that has a spelling: its parts follow the thread.
pub fn every_instruction_lifts()
    ensures { (i : Instr) (next : ℕ) → InstrFits i → Lifts i next }
{
    private_lifts();
    memory_lifts();
    flow_lifts();
}

/// Bytes spell one list of instructions at most, one after another from an address to their end.
pub fn bytes_spell_one_list()
    ensures { SpellOneList }
{}

/// A block whose parts are the table's for the instructions that its bytes spell, and whose bytes are those of the block
/// at its place, is the lifted block there: whoever has such a block and the image's bytes needs no second lift.
pub fn known_by_its_bytes()
    ensures { KnownByItsBytes }
{}
