//! `read` and `write`.

ghost use Rattle.std.specs.Prelude.{◌≡◌, false, IfOk, OnErr};
ghost use Rattle.lib_table.specs.Steps.{is_done, told};
ghost use Rattle.lib_table.specs.Streams.{read, write};

use crate::answer::{BadKind, Stepped};
use crate::ask::{Ask, low_32};
use crate::library::Library;
use crate::limits::{FAILED, MAX_BYTES, MAX_OUTPUT};
use std::alloc::AllocError;
use tso_memory::{Denied, Tso};

/// `read`: the next bytes of the input.
#[tactic(auto, unfolding(crate::specs::Streams::read))]
pub(crate) fn read(library: &mut Library, memory: &mut Tso, ask: &Ask, back: u64) -> Stepped
    ensures row { read library.old memory.old.memory ask.now back ≡ told result library.new memory.new.memory }
    ensures buffers { memory.new.buffers ≡ memory.old.buffers }
    ensures library { is_done result ≡ false → library.new ≡ library.old }
    ensures memory { is_done result ≡ false → memory.new ≡ memory.old }
{
    if low_32(ask.args[0]) != 0 {
        return ask.returned(back, FAILED);
    }
    let n = ask.args[2].min(MAX_BYTES).min(library.input().len() as u64);
    let bytes = &library.input()[..n as usize];
    if let Err(Denied(x)) = memory.poke(ask.args[1], bytes) {
        return Stepped::Bad(BadKind::Access(x));
    }
    library.skip_input(n as usize);
    ask.returned(back, n)
}

/// `write`: bytes are appended to an output. Nothing changes where memory runs out.
#[tactic(auto, unfolding(crate::specs::Streams::write))]
pub(crate) fn write(
    library: &mut Library,
    memory: &Tso,
    ask: &Ask,
    back: u64,
) -> Result<Stepped, AllocError>
    ensures row { IfOk result (λ step. write library.old memory.now.memory ask.now back ≡ told step library.new memory.now.memory) }
    ensures library { IfOk result (λ step. is_done step ≡ false → library.new ≡ library.old) }
    ensures err { OnErr result (library.new ≡ library.old) }
{
    let fd = low_32(ask.args[0]);
    if fd != 1 && fd != 2 {
        return Ok(ask.returned(back, FAILED));
    }
    let n = ask.args[2].min(MAX_BYTES);
    if library.written() + n > MAX_OUTPUT {
        return Ok(ask.returned(back, FAILED));
    }
    let mut buffer = [0u8; MAX_BYTES as usize];
    let bytes = &mut buffer[..n as usize];
    if let Err(Denied(x)) = memory.peek_all(ask.args[1], bytes) {
        return Ok(Stepped::Bad(BadKind::Access(x)));
    }
    library.append(u64::from(fd), bytes)?;
    Ok(ask.returned(back, n))
}
