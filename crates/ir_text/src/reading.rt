ghost use Rattle.std.specs.Prelude.{◌≡◌, ◌≢◌, List, ℕ, All, IfOk, IfErr, OnOk, length, take, true, false, [], ◌++◌};
ghost use Rattle.ir_syntax.specs.declared.block.Block.{Block as BlockData};
ghost use Rattle.ir_text.specs.Text.{HasText, text as text_of};
ghost use Rattle.ir_text.specs.Faults.{AreRead, FaultAt, IsBehind, IsPlace, IsRefused, line_from, column_from};
ghost use Rattle.ir_text.specs.Made.{taken, behind, nothing};
ghost use Rattle.ir_text.specs.Draft.{made_by, IsReadOf};

use crate::fault::{TextFailure, TextFault};
use crate::items::item;
use crate::pieces::{Item, State};
use crate::words::literal;
use ir_syntax::{Block, Op, Part, Seq};
use std::alloc::{AllocError, Global};
use std::mem;

/// The blocks that the text spells, in order.
///
/// Types aren't looked at: `check_types` of `ir_syntax` decides them, once the whole text is read.
///
/// # Errors
///
/// `Fault` exactly where the text is no text of the grammar, with the first place at which it stops being the beginning of
/// one; `Memory` where the blocks found no memory.
pub fn parse(alloc: Global, text: &str) -> Result<Vec<Block>, TextFailure>
    // What is read is spelled so, the whole text.
    ensures found { IfOk result (λ v. All HasText v.items × (text.now ≡ text_of v.items)) }
    // What is spelled so is read, unless memory runs out.
    ensures only { (blocks : List BlockData) → All HasText blocks → text.now ≡ text_of blocks → AreRead blocks result }
    // A fault stands at the first place at which the text stops being the beginning of one.
    ensures fault { IfErr result (λ e. FaultAt text.now e) }
    // Where there is such a place it is refused, unless memory runs out.
    ensures refused { (n : ℕ) → IsPlace text.now n → IsRefused (take n text.now) result }
{
    parse_bytes(alloc, text.as_bytes())
}

/// The blocks that these bytes spell, in order: [`parse`] of bytes that needn't be UTF-8. The grammar is ASCII, so a byte that
/// isn't is the place at which they stop being the beginning of a text, unless an earlier one is.
///
/// # Errors
///
/// `Fault` exactly where the bytes are no text of the grammar, with the first place at which they stop being the beginning of
/// one; `Memory` where the blocks found no memory.
pub fn parse_bytes(alloc: Global, bytes: &[u8]) -> Result<Vec<Block>, TextFailure>
    // What is read is spelled so, all of the bytes.
    ensures found { IfOk result (λ v. All HasText v.items × (bytes.now ≡ text_of v.items)) }
    // What is spelled so is read, unless memory runs out.
    ensures only { (blocks : List BlockData) → All HasText blocks → bytes.now ≡ text_of blocks → AreRead blocks result }
    // A fault stands at the first place at which the bytes stop being the beginning of a text.
    ensures fault { IfErr result (λ e. FaultAt bytes.now e) }
    // Where there is such a place they are refused, unless memory runs out.
    ensures refused { (n : ℕ) → IsPlace bytes.now n → IsRefused (take n bytes.now) result }
{
    match blocks_of(alloc, bytes) {
        Ok(found) => Ok(found),
        Err(Stop::Memory(e)) => Err(TextFailure::Memory(e)),
        Err(Stop::Left(left)) => Err(TextFailure::Fault(behind(&bytes[..bytes.len() - left]))),
    }
}

/// Why reading stops.
enum Stop {
    /// The text goes wrong where so many bytes of it are left.
    Left(usize),
    /// No memory was left.
    Memory(AllocError),
}

/// The blocks of the text, or where it goes wrong.
fn blocks_of(alloc: Global, bytes: &[u8]) -> Result<Vec<Block>, Stop>
    ensures { IsReadOf bytes.now result }
{
    let mut rest = match literal(b"ir 1\n", bytes) {
        Ok(rest) => rest,
        Err(left) => return Err(Stop::Left(left)),
    };
    let mut draft = Draft::new(alloc);
    'pieces: while goes_on(rest, draft.state) {
        let (piece, tail) = match item(rest, draft.state) {
            Ok(found) => found,
            Err(left) => return Err(Stop::Left(left)),
        };
        match draft.take(alloc, piece) {
            Ok(()) => rest = tail,
            Err(e) => return Err(Stop::Memory(e)),
        }
    }
    Ok(draft.into_blocks())
}

/// Whether something is to be read: behind a block the text may end.
fn goes_on(rest: &[u8], state: State) -> bool
    ensures more { result ≡ true → state ≡ State.Between → rest.now ≢ [] }
    ensures done { result ≡ false → (state ≡ State.Between) × (rest.now ≡ []) }
{
    !(matches!(state, State::Between) && rest.is_empty())
}

/// The place behind these bytes.
fn behind(front: &[u8]) -> TextFault
    ensures { IsBehind front.now result }
{
    let mut line = 1;
    let mut column = 1;
    for byte in front {
        if *byte == b'\n' {
            line += 1;
            column = 1;
        } else {
            column += 1;
        }
    }
    TextFault { line, column }
}

/// What is read so far: the blocks, what stands of the open one, and what may come next.
#[derive(Drop)]
struct Draft {
    blocks: Vec<Block>,
    at: u64,
    code: Vec<u8>,
    parts: Vec<Part>,
    ops: Vec<Op>,
    state: State,
}

impl Draft {
    fn new(alloc: Global) -> Draft
        ensures made { made_by result ≡ nothing }
        ensures state { result.state ≡ State.Between }
    {
        Draft {
            blocks: Vec::new(alloc),
            at: 0,
            code: Vec::new(alloc),
            parts: Vec::new(alloc),
            ops: Vec::new(alloc),
            state: State::Between,
        }
    }

    fn into_blocks(self) -> Vec<Block>
        ensures { result ≡ self.blocks }
    {
        let Draft {
            blocks,
            at: _,
            code: _,
            parts: _,
            ops: _,
            state: _,
        } = self;
        blocks
    }

    /// Puts the next piece to what is read.
    fn take(&mut self, alloc: Global, item: Item) -> Result<(), AllocError>
        ensures made { OnOk result (made_by self.new ≡ taken (made_by self.old) item) }
        ensures state { OnOk result (self.new.state ≡ behind item) }
    {
        match item {
            Item::Address(at) => {
                self.at = at;
                self.state = State::Code;
                Ok(())
            }
            Item::Byte(byte) => {
                self.code.push(byte)?;
                self.state = State::InCode;
                Ok(())
            }
            Item::CodeEnd => {
                self.state = State::Inside;
                Ok(())
            }
            Item::Op(op) => {
                self.ops.push(op)?;
                self.state = State::Inside;
                Ok(())
            }
            Item::Part(end) => {
                let ops = Seq::from_vec(mem::replace(&mut self.ops, Vec::new(alloc)));
                self.parts.push(Part { ops, end })?;
                self.state = State::After;
                Ok(())
            }
            Item::End => {
                let at = self.at;
                let code = Seq::from_vec(mem::replace(&mut self.code, Vec::new(alloc)));
                let parts = Seq::from_vec(mem::replace(&mut self.parts, Vec::new(alloc)));
                self.ops = Vec::new(alloc);
                self.blocks.push(Block { at, code, parts })?;
                self.state = State::Between;
                Ok(())
            }
        }
    }
}
