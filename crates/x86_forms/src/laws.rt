//! What holds of all spellings, each as the contract of a function without a body.

ghost use Rattle.std.specs.Prelude.{◌≡◌, true, false, length};
ghost use Rattle.x86_forms.specs.Table.{table, opcode_count};
ghost use Rattle.x86_forms.specs.Laws.{OneMeaning, NoProperPrefix, ReadsExactly, SpelledFits};
ghost use Rattle.x86_forms.specs.Rows.{AllWorked, prefixes, widths, registers, memory, immediates, fields, jumps, locks, left_out};

/// A byte string spells at most one instruction.
pub fn one_meaning()
    ensures { OneMeaning }
{}

/// No spelling is a proper prefix of another spelling.
pub fn no_proper_prefix()
    ensures { NoProperPrefix }
{}

/// Reading a byte string from left to right, as a decoder does, gives exactly its spellings.
pub fn reads_exactly()
    ensures { ReadsExactly }
{}

/// An instruction that has a spelling keeps the limits of its operands: registers below 16, AH to BH
/// at 8 bits alone, immediates below 2^width, scales of 1, 2, 4 or 8, an index that is not rsp, one
/// operand in memory at most, no number as a destination, and the widths of its rows.
pub fn spelled_fits()
    ensures { SpelledFits }
{}

/// The size of the table: its lines, and the opcodes that they have without 0F and behind it.
pub fn table_size()
    ensures lines { length table ≡ 195 }
    ensures opcodes { opcode_count false 256 ≡ 143 }
    ensures escaped_opcodes { opcode_count true 256 ≡ 60 }
{}

/// What worked byte strings spell, by the rule that each shows. The expected instructions are those
/// of the SDM's tables and pages.
pub fn worked_rows()
    ensures prefixes { AllWorked prefixes }
    ensures widths { AllWorked widths }
    ensures registers { AllWorked registers }
    ensures memory { AllWorked memory }
    ensures immediates { AllWorked immediates }
    ensures fields { AllWorked fields }
    ensures jumps { AllWorked jumps }
    ensures locks { AllWorked locks }
    ensures left_out { AllWorked left_out }
{}
