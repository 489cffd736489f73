ghost use Rattle.std.specs.Prelude.{◌≡◌, ◌≢◌, ◌<◌, ◌≤◌, ◌++◌, List, length, ℕ, All, IfOk, IfSome, IfNone, option_copied, option_map};
ghost use Rattle.miss_report.specs.Miss.{HasLine, line};
ghost use Rattle.miss_report.specs.Report.{AreRead, IsFirstBadLine, IsRefused, RefusesFirst, report};
ghost use Rattle.miss_report.specs.Reading.{after, digit_of, number_at, more_digits, miss_at};

use crate::miss::{Miss, THREADS};
use std::alloc::{AllocError, Global};
use thiserror::Error;

/// Where a text stops being a report.
#[derive(Clone, Copy, PartialEq, Eq, Debug, Error)]
#[error("line {line} isn't the line of a miss")]
pub struct ReportFault {
    /// The first line that is no line of a miss, counted from 1.
    pub line: u64,
}

/// Why no misses were read.
#[derive(Clone, Copy, Debug, Error)]
pub enum ReportFailure {
    /// The text is no report.
    #[error(transparent)]
    Fault(ReportFault),
    /// No memory was left for the misses.
    #[error("no memory")]
    Memory(AllocError),
}

/// The misses that a report's text spells, in order.
///
/// # Errors
///
/// `Fault` exactly where the text is no report, with the first line that is no line of a miss and a newline; `Memory`
/// where the list found no memory.
pub fn parse(alloc: Global, text: &str) -> Result<Vec<Miss>, ReportFailure>
    // What is read is spelled so, the whole text.
    ensures found { IfOk result (λ v. All HasLine v.items × (text.now ≡ report v.items)) }
    // What is spelled so is read, unless memory runs out.
    ensures only { (misses : List Miss) → All HasLine misses → text.now ≡ report misses → AreRead misses result }
    // A fault is at the first line that is no line of a miss.
    ensures fault { RefusesFirst text.now result }
    // Where there is such a line it is refused, unless memory runs out.
    ensures refused { (number : ℕ) → IsFirstBadLine text.now number → IsRefused number result }
{
    let mut misses = Vec::new(alloc);
    let mut rest = text.as_bytes();
    while !rest.is_empty() {
        let Some((miss, tail)) = line_at(rest) else {
            let line = misses.len() as u64 + 1;
            return Err(ReportFailure::Fault(ReportFault { line }));
        };
        if misses.push(miss).is_err() {
            return Err(ReportFailure::Memory(AllocError));
        }
        rest = tail;
    }
    Ok(misses)
}

/// The miss of the line in front, and what follows its newline.
#[tactic(auto, using(crate::proofs::Line::miss_takes, crate::proofs::Line::miss_again))]
fn line_at(bytes: &[u8]) -> Option<(Miss, &[u8])>
    ensures found { IfSome result (λ x. HasLine x.0 × (bytes.now ≡ line x.0 ++ x.1.now)) }
    ensures none { IfNone result ((m : Miss) (tail : List ℕ) → HasLine m → bytes.now ≢ line m ++ tail) }
{
    miss_at(bytes)
}

/// The fields of the line in front, and what follows its newline.
#[tactic(auto, unfolding(crate::specs::Reading::miss_at))]
fn miss_at(bytes: &[u8]) -> Option<(Miss, &[u8])>
    ensures { option_map (λ x. (x.0, x.1.now)) result ≡ miss_at bytes.now }
{
    let rest = after(bytes, b"miss thread ")?;
    let (thread, rest) = number(rest, 10)?;
    let rest = after(rest, b" from 0x")?;
    let (source, rest) = number(rest, 16)?;
    let rest = after(rest, b" to 0x")?;
    let (target, rest) = number(rest, 16)?;
    let rest = after(rest, b"\n")?;
    if thread < THREADS {
        let thread = thread as u32;
        Some((
            Miss {
                thread,
                source,
                target,
            },
            rest,
        ))
    } else {
        None
    }
}

/// A number in the base without leading zeros, below 2^64, and what follows its digits.
#[tactic(auto, unfolding(crate::specs::Reading::number_at, crate::specs::Reading::more_digits))]
fn number(bytes: &[u8], base: u64) -> Option<(u64, &[u8])>
    ensures { option_map (λ x. (x.0, x.1.now)) result ≡ number_at base bytes.now }
{
    let (first, rest) = bytes.split_first()?;
    more_digits(digit(*first, base)?, rest, base)
}

/// The number that the digits in front go on with after `value`.
#[tactic(auto, unfolding(crate::specs::Reading::more_digits, crate::specs::Reading::next_digit))]
fn more_digits(mut value: u64, bytes: &[u8], base: u64) -> Option<(u64, &[u8])>
    ensures { option_map (λ x. (x.0, x.1.now)) result ≡ more_digits base value bytes.now }
{
    let mut rest = bytes;
    while let Some((next, tail)) = rest.split_first() {
        let Some(digit) = digit(*next, base) else {
            break;
        };
        if value == 0 {
            return None;
        }
        value = value.checked_mul(base)?.checked_add(digit)?;
        rest = tail;
    }
    Some((value, rest))
}

/// The value of a digit, `0` to `9` and `a` to `f`, below the base.
#[tactic(auto, unfolding(crate::specs::Reading::digit_of))]
fn digit(byte: u8, base: u64) -> Option<u64>
    ensures { result ≡ digit_of base byte }
{
    let value = match byte {
        b'0'..=b'9' => byte - b'0',
        b'a'..=b'f' => byte - b'a' + 10,
        _ => return None,
    };
    let value = u64::from(value);
    if value < base { Some(value) } else { None }
}

/// What follows the literal.
#[tactic(auto, unfolding(crate::specs::Reading::after))]
fn after<'a>(bytes: &'a [u8], literal: &[u8]) -> Option<&'a [u8]>
    ensures { option_copied result ≡ after literal.now bytes.now }
{
    bytes.strip_prefix(literal)
}
