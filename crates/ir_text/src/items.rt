//! The pieces of a text, by what may come next.

ghost use Rattle.std.specs.Prelude.{◌≡◌, ◌<◌};
ghost use Rattle.ir_text.specs.Reading.{seen};
ghost use Rattle.ir_text.specs.Row.{reading};
ghost use Rattle.ir_text.specs.Items.{byte_row, item_row};

use crate::pieces::{Item, State};
use crate::rows::{line, line_or_end};
use crate::words::{digit, digit_or, literal, number};

/// The piece in front, where this may come next.
pub fn item(bytes: &[u8], state: State) -> Result<(Item, &[u8]), usize>
    ensures { seen (λ x. (x.0, x.1.now)) result ≡ reading (item_row state) bytes.now }
{
    match state {
        State::Between => address(bytes),
        State::Code => first_code(bytes),
        State::InCode => more_code(bytes),
        State::Inside => line(bytes),
        State::After => line_or_end(bytes),
    }
}

/// `block` and the address.
fn address(bytes: &[u8]) -> Result<(Item, &[u8]), usize>
    ensures { seen (λ x. (x.0, x.1.now)) result ≡ reading (item_row State.Between) bytes.now }
{
    let rest = literal(b"block ", bytes)?;
    let (at, rest) = number(rest, u64::MAX, b' ')?;
    Ok((Item::Address(at), rest))
}

/// A byte of code, or the dash and the newline where there is none.
fn first_code(bytes: &[u8]) -> Result<(Item, &[u8]), usize>
    ensures { seen (λ x. (x.0, x.1.now)) result ≡ reading (item_row State.Code) bytes.now }
{
    let (high, rest) = digit_or(bytes, b'-')?;
    match high {
        None => Ok((Item::CodeEnd, literal(b"\n", rest)?)),
        Some(high) => code_byte(rest, high),
    }
}

/// One more byte of code, or the newline behind the last.
fn more_code(bytes: &[u8]) -> Result<(Item, &[u8]), usize>
    ensures { seen (λ x. (x.0, x.1.now)) result ≡ reading (item_row State.InCode) bytes.now }
{
    let (high, rest) = digit_or(bytes, b'\n')?;
    match high {
        None => Ok((Item::CodeEnd, rest)),
        Some(high) => code_byte(rest, high),
    }
}

/// The low digit of a byte of code.
fn code_byte(bytes: &[u8], high: u8) -> Result<(Item, &[u8]), usize>
    requires { high < 16 }
    ensures { seen (λ x. (x.0, x.1.now)) result ≡ reading (byte_row high) bytes.now }
{
    let (low, rest) = digit(bytes)?;
    Ok((Item::Byte(high * 16 + low), rest))
}
