//! Numbers of eight bytes in the guest's memory itself.

ghost use Rattle.std.specs.Prelude.{◌≡◌, OnOk, OnErr};
ghost use Rattle.tso_memory.specs.Memory.{refusal};
ghost use Rattle.lib_table.specs.Outcome.{put_word, unwritable};
ghost use Rattle.lib_table.specs.Words.{either, with_word};

use tso_memory::{Denied, Tso};

/// Writes a number. Needs W on each of its bytes.
pub(crate) fn put_word(memory: &mut Tso, a: u64, value: u64) -> Result<(), Denied>
    ensures rights { refusal result ≡ unwritable memory.old.memory a 8 }
    ensures ok { OnOk result (memory.new ≡ with_word memory.old a value) }
    ensures err { OnErr result (memory.new ≡ memory.old) }
{
    memory.poke(a, &value.to_le_bytes())
}

/// Writes one number and then another, or neither. Needs W on each of their bytes: the first that lacks it is looked for
/// in the first number, and then in the second.
pub(crate) fn put_words(
    memory: &mut Tso,
    first: (u64, u64),
    second: (u64, u64),
) -> Result<(), Denied>
    ensures rights { refusal result ≡ either (unwritable memory.old.memory first.0 8) (unwritable memory.old.memory second.0 8) }
    ensures ok { OnOk result (memory.new ≡ with_word (with_word memory.old first.0 first.1) second.0 second.1) }
    ensures err { OnErr result (memory.new ≡ memory.old) }
{
    memory.check(first.0, 8, true)?;
    memory.check(second.0, 8, true)?;
    put_word(memory, first.0, first.1)?;
    put_word(memory, second.0, second.1)
}
