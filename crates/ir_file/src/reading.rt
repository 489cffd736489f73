//! From a file to blocks that are well typed.

ghost use Rattle.std.specs.Prelude.{◌≡◌, ◌≤◌, List, ℕ, length, All, IfErr, IfOk, OnOk};
ghost use Rattle.ir_syntax.specs.declared.block.Block.{Block as BlockData};
ghost use Rattle.ir_text.specs.Text.{HasText, text};
ghost use Rattle.ir_file.specs.Blocks.{AreBlocksIn, AreBlocksOf, AreGiven, HoldsBlocks, IsFileOf, RefusesBlocks, RefusesFile, RefusesText, text_limit};

use crate::fault::IrFault;
use crate::lines::first_untyped;
use ir_syntax::Block;
use ir_text::{TextFailure, TextFault, parse_bytes};
use mx_outside::{Files, FilesFault};
use std::alloc::Global;

/// The greatest size of a text of blocks, in bytes.
const TEXT_LIMIT: u64 = 268_435_456;

// The bytes of the file of this name.
fn read_file<F: Files>(alloc: Global, name: &str, files: &mut F) -> Result<Vec<u8>, IrFault>
    ensures file { IfOk result (λ bytes. IsFileOf (F.names files.old) name.now bytes.items) }
    ensures within { IfOk result (λ bytes. length bytes.items ≤ text_limit) }
    ensures refusal { IfErr result (RefusesFile (F.names files.old) name.now (F.read_faults files.old) (F.read_faults files.new)) }
    ensures counted { OnOk result (F.read_faults files.new ≡ F.read_faults files.old) }
    ensures names { F.names files.new ≡ F.names files.old }
    ensures writes { F.write_faults files.new ≡ F.write_faults files.old }
{
    match files.read(alloc, name, TEXT_LIMIT) {
        Ok(bytes) => Ok(bytes),
        Err(FilesFault::Failed) => Err(IrFault::ReadFault),
        Err(FilesFault::Absent) => Err(IrFault::Absent),
        Err(FilesFault::TooLong) => Err(IrFault::TooLong),
        Err(FilesFault::Memory(e)) => Err(IrFault::Memory(e)),
    }
}

// The blocks, where each of them is well typed.
fn typed(blocks: Vec<Block>, bytes: &[u8]) -> Result<Vec<Block>, IrFault>
    requires have { All HasText blocks.items }
    requires text { bytes.now ≡ text blocks.items }
    requires within { length bytes.now ≤ text_limit }
    ensures blocks { IfOk result (λ found. AreBlocksOf bytes.now found.items) }
    ensures refusal { IfErr result (RefusesText bytes.now) }
{
    match first_untyped(&blocks) {
        None => Ok(blocks),
        Some(line) => Err(IrFault::Text(TextFault { line, column: 1 })),
    }
}

// The blocks whose text these bytes are.
fn blocks_of(alloc: Global, bytes: &[u8]) -> Result<Vec<Block>, IrFault>
    requires { length bytes.now ≤ text_limit }
    ensures blocks { IfOk result (λ blocks. AreBlocksOf bytes.now blocks.items) }
    ensures refusal { IfErr result (RefusesText bytes.now) }
{
    match parse_bytes(alloc, bytes) {
        Ok(blocks) => typed(blocks, bytes),
        Err(TextFailure::Fault(fault)) => Err(IrFault::Text(fault)),
        Err(TextFailure::Memory(e)) => Err(IrFault::Memory(e)),
    }
}

// The blocks of the file of this name.
fn read<F: Files>(alloc: Global, name: &str, files: &mut F) -> Result<Vec<Block>, IrFault>
    ensures blocks { IfOk result (λ blocks. AreBlocksIn (F.names files.old) name.now blocks.items) }
    ensures refusal { IfErr result (RefusesBlocks (F.names files.old) name.now (F.read_faults files.old) (F.read_faults files.new)) }
    ensures counted { OnOk result (F.read_faults files.new ≡ F.read_faults files.old) }
    ensures names { F.names files.new ≡ F.names files.old }
    ensures writes { F.write_faults files.new ≡ F.write_faults files.old }
{
    let bytes = match read_file(alloc, name, files) {
        Ok(bytes) => bytes,
        Err(fault) => return Err(fault),
    };
    match blocks_of(alloc, &bytes) {
        Ok(blocks) => Ok(blocks),
        Err(fault) => Err(fault),
    }
}

/// The blocks of the file `name`, whose bytes are the text of these blocks, each of which is well typed.
///
/// # Errors
///
/// In this order: `ReadFault`, only where the files' count of reads' faults rose; `Absent` where no file has the name; `TooLong`
/// where it has more than 268,435,456 bytes; `Text` with the first place at which the bytes stop being the beginning of a text of
/// blocks, or, where all of them are such a text, with the line of the first op or end of a part that isn't well typed, and
/// column 1. `Memory` where memory is wanting, in place of any other.
pub fn read_blocks<F: Files>(
    alloc: Global,
    name: &str,
    files: &mut F,
) -> Result<Vec<Block>, IrFault>
    ensures blocks { IfOk result (λ blocks. AreBlocksIn (F.names files.old) name.now blocks.items) }
    // What the file holds is given, unless reading fails or memory runs out.
    ensures only { (blocks : List BlockData) → HoldsBlocks (F.names files.old) name.now blocks → AreGiven blocks result }
    ensures refusal { IfErr result (RefusesBlocks (F.names files.old) name.now (F.read_faults files.old) (F.read_faults files.new)) }
    ensures counted { OnOk result (F.read_faults files.new ≡ F.read_faults files.old) }
    ensures names { F.names files.new ≡ F.names files.old }
    ensures writes { F.write_faults files.new ≡ F.write_faults files.old }
{
    read(alloc, name, files)
}
