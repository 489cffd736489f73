//! The stack of thread 0 as a process is entered.

ghost use Rattle.std.specs.Prelude.{◌≡◌, ℕ, List, ◌+◌, ◌*◌, ◌^◌, ◌<◌, ◌≤◌, ◌++◌, length, map, string_bytes, IfOk, OnOk, MatchOption};
ghost use Rattle.byteorder.specs.Endian.{little_bytes};
ghost use Rattle.guest_map.specs.Addresses.{stack, zeros};
ghost use Rattle.guest_map.specs.Entry.{up16, strings, pointers, string_base, entry_rsp, entry_words, eightbytes, entry_stack};
ghost use Rattle.guest_map.specs.Layout.{AreShort};

use crate::address::stack;
use address_space::{STACK_SIZE, stack_bottom, stack_top};
use std::alloc::{AllocError, Global};
use tso_memory::Piece;

/// How many bytes the arguments' strings may have.
const MOST_BYTES: usize = 4096;

/// How many eightbytes there are beside the pointers to the arguments.
const OTHER_WORDS: usize = 5;

/// How many bytes the arguments' strings have, each with its zero byte, unless those are too many.
pub(crate) fn size_of_strings(args: &[String]) -> Option<usize>
    ensures { MatchOption result (4096 < length (strings (map string_bytes args.now))) (λ n. (n ≡ length (strings (map string_bytes args.now))) × AreShort (map string_bytes args.now)) }
{
    let mut size = 0;
    for arg in args {
        let len = arg.as_bytes().len();
        if len >= MOST_BYTES - size {
            return None;
        }
        size += len + 1;
    }
    Some(size)
}

/// A number rounded up to a multiple of 16.
fn up16(n: u64) -> u64
    requires { n < 2 ^ 32 }
    ensures { result ≡ up16 n }
{
    (n + 15) / 16 * 16
}

/// Where the first of the strings stands, of which there are `size` bytes.
pub(crate) fn string_base(size: usize) -> u64
    requires { size ≤ 4096 }
    ensures { (args : List (List ℕ)) → size ≡ length (strings args) → result ≡ string_base args }
{
    stack_top(0) - up16(size as u64)
}

/// The stack pointer as a process is entered, below the strings.
pub(crate) fn entry_rsp(args: &[String], base: u64) -> u64
    requires short { AreShort (map string_bytes args.now) }
    requires base { base ≡ string_base (map string_bytes args.now) }
    ensures { result ≡ entry_rsp (map string_bytes args.now) }
{
    base - up16(8 * (args.len() + OTHER_WORDS) as u64)
}

/// Appends the zero bytes from an address up to another.
fn push_zeros(bytes: &mut Vec<u8>, from: u64, to: u64) -> Result<(), AllocError>
    requires order { from ≤ to }
    requires size { to ≤ from + 65536 }
    ensures { OnOk result (bytes.new.items ≡ bytes.old.items ++ zeros from to) }
{
    let size = bytes.len() + (to - from) as usize;
    bytes.resize(size, 0)
}

/// Appends a number as eight bytes.
fn push_word(bytes: &mut Vec<u8>, word: u64) -> Result<(), AllocError>
    ensures { OnOk result (bytes.new.items ≡ bytes.old.items ++ little_bytes 8 word) }
{
    bytes.extend_from_slice(&word.to_le_bytes())
}

/// Appends the addresses of the arguments' strings.
fn push_pointers(bytes: &mut Vec<u8>, base: u64, args: &[String]) -> Result<(), AllocError>
    requires { base + length (strings (map string_bytes args.now)) < 2 ^ 64 }
    ensures { OnOk result (bytes.new.items ≡ bytes.old.items ++ eightbytes (pointers base (map string_bytes args.now))) }
{
    let mut at = base;
    for arg in args {
        push_word(bytes, at)?;
        at += arg.as_bytes().len() as u64 + 1;
    }
    Ok(())
}

/// Appends the arguments' strings.
fn push_strings(bytes: &mut Vec<u8>, args: &[String]) -> Result<(), AllocError>
    ensures { OnOk result (bytes.new.items ≡ bytes.old.items ++ strings (map string_bytes args.now)) }
{
    for text in args {
        bytes.extend_from_slice(text.as_bytes())?;
        bytes.push(0)?;
    }
    Ok(())
}

/// Appends the eightbytes from the stack pointer upwards, for strings that stand from an address on.
fn push_words(bytes: &mut Vec<u8>, base: u64, args: &[String]) -> Result<(), AllocError>
    requires short { AreShort (map string_bytes args.now) }
    requires base { base ≡ string_base (map string_bytes args.now) }
    ensures { OnOk result (bytes.new.items ≡ bytes.old.items ++ eightbytes (entry_words (map string_bytes args.now))) }
{
    // argc and argv
    push_word(bytes, args.len() as u64)?;
    push_pointers(bytes, base, args)?;
    push_word(bytes, 0)?;
    // an empty environment
    push_word(bytes, 0)?;
    // AT_NULL of the auxiliary vector
    push_word(bytes, 0)?;
    push_word(bytes, 0)?;
    Ok(())
}

/// The stack of thread 0 as a process is entered with `rsp`, with strings of `size` bytes from `base` on.
pub(crate) fn first_stack(
    alloc: Global,
    args: &[String],
    size: usize,
    base: u64,
    rsp: u64,
) -> Result<Piece, AllocError>
    requires short { AreShort (map string_bytes args.now) }
    requires size { size ≡ length (strings (map string_bytes args.now)) }
    requires base { base ≡ string_base (map string_bytes args.now) }
    requires rsp { rsp ≡ entry_rsp (map string_bytes args.now) }
    ensures { IfOk result (λ p. p ≡ stack 0 (entry_stack (map string_bytes args.now))) }
{
    let mut bytes = Vec::with_capacity(alloc, STACK_SIZE as usize)?;
    push_zeros(&mut bytes, stack_bottom(0), rsp)?;
    push_words(&mut bytes, base, args)?;
    push_zeros(
        &mut bytes,
        rsp + 8 * (args.len() + OTHER_WORDS) as u64,
        base,
    )?;
    push_strings(&mut bytes, args)?;
    push_zeros(&mut bytes, base + size as u64, stack_top(0))?;
    Ok(stack(0, bytes))
}
