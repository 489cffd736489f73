//! Reading from the front of bytes.
ghost use Rattle.std.specs.Prelude.{◌≡◌, ◌≢◌, ◌<◌, ◌≤◌, ◌++◌, List, ℕ, option_copied, option_map, IfSome};
ghost use Rattle.journal_pack.specs.Growing.{body};
ghost use Rattle.journal_pack.specs.Reading.{address_at, entry_at, entry_of, grow_at, miss_at, number_at, number_within, pair_at, steps_at, thread_at, with_low};

use crate::entry::Entry;
use crate::journal::HEAD;

/// What stands behind the four bytes with which each journal begins.
#[tactic(auto, unfolding(crate::specs::Growing::body))]
pub(crate) fn body(bytes: &[u8]) -> Option<&[u8]>
    ensures { option_copied result ≡ body bytes.now }
{
    bytes.strip_prefix(HEAD)
}

/// The entry in front, and the bytes after it.
#[tactic(auto, unfolding(crate::specs::Reading::entry_at, crate::specs::Reading::entry_of))]
pub(crate) fn entry_at(bytes: &[u8]) -> Option<(Entry, &[u8])>
    ensures { option_map (λ x. (x.0, x.1.now)) result ≡ entry_at bytes.now }
{
    let (kind, rest) = bytes.split_first()?;
    match *kind {
        0 => {
            let (t, k, rest) = pair_at(rest, 0)?;
            Some((Entry::Ev(t, k), rest))
        }
        1 => {
            let (t, k, rest) = pair_at(rest, 1)?;
            Some((Entry::Tick(t, k), rest))
        }
        2 => {
            let (t, rest) = thread_at(rest)?;
            Some((Entry::Flush(t), rest))
        }
        3 => {
            let (t, k, rest) = pair_at(rest, 1)?;
            Some((Entry::Wait(t, k), rest))
        }
        4 => miss_at(rest),
        5 => grow_at(rest),
        6 => {
            let (t, k, rest) = pair_at(rest, 0)?;
            Some((Entry::Over(t, k), rest))
        }
        7 => {
            let (t, rest) = thread_at(rest)?;
            Some((Entry::Full(t), rest))
        }
        8 => Some((Entry::Dead, rest)),
        _ => None,
    }
}

/// What stands behind the kind of a miss.
#[tactic(auto, unfolding(crate::specs::Reading::miss_at))]
fn miss_at(bytes: &[u8]) -> Option<(Entry, &[u8])>
    ensures { option_map (λ x. (x.0, x.1.now)) result ≡ miss_at bytes.now }
{
    let (t, k, rest) = pair_at(bytes, 0)?;
    let (source, rest) = address_at(rest)?;
    let (target, rest) = address_at(rest)?;
    Some((Entry::Miss(t, k, source, target), rest))
}

/// What stands behind the kind of a growth.
#[tactic(auto, unfolding(crate::specs::Reading::grow_at))]
fn grow_at(bytes: &[u8]) -> Option<(Entry, &[u8])>
    ensures { option_map (λ x. (x.0, x.1.now)) result ≡ grow_at bytes.now }
{
    let (t, rest) = thread_at(bytes)?;
    let (place, rest) = address_at(rest)?;
    Some((Entry::Grow(t, place), rest))
}

/// A thread's number, and private steps, at least so many.
#[tactic(auto, unfolding(crate::specs::Reading::pair_at))]
fn pair_at(bytes: &[u8], least: u64) -> Option<(u32, u32, &[u8])>
    ensures { option_map (λ x. (x.0, x.1, x.2.now)) result ≡ pair_at least bytes.now }
{
    let (t, rest) = thread_at(bytes)?;
    let (k, rest) = number_at(rest, least, 4097)?;
    Some((t, k as u32, rest))
}

/// A thread's number.
fn thread_at(bytes: &[u8]) -> Option<(u32, &[u8])>
    ensures { option_map (λ x. (x.0, x.1.now)) result ≡ thread_at bytes.now }
{
    let (t, rest) = number_at(bytes, 0, 1 << 32)?;
    Some((t as u32, rest))
}

/// An address.
fn address_at(bytes: &[u8]) -> Option<(u64, &[u8])>
    ensures { option_map (λ x. (x.0, x.1.now)) result ≡ address_at bytes.now }
{
    number_within(bytes, 10)
}

/// A number from `least` up to, but without, `limit`.
#[tactic(auto, unfolding(crate::specs::Reading::number_at))]
fn number_at(bytes: &[u8], least: u64, limit: u64) -> Option<(u64, &[u8])>
    ensures value { option_map (λ x. (x.0, x.1.now)) result ≡ number_at least limit bytes.now }
    ensures below { IfSome result (λ x. x.0 < limit) }
{
    let (n, rest) = number_within(bytes, 10)?;
    if least <= n && n < limit {
        Some((n, rest))
    } else {
        None
    }
}

/// A number of at most so many bytes.
#[tactic(auto, unfolding(crate::specs::Reading::number_within))]
fn number_within(bytes: &[u8], more: u32) -> Option<(u64, &[u8])>
    ensures { option_map (λ x. (x.0, x.1.now)) result ≡ number_within more bytes.now }
{
    if more == 0 {
        return None;
    }
    let (first, rest) = bytes.split_first()?;
    if *first < 128 {
        return Some((u64::from(*first), rest));
    }
    let (higher, rest) = number_within(rest, more - 1)?;
    let number = with_low(u64::from(*first - 128), higher)?;
    Some((number, rest))
}

/// The number of these higher bits and these seven lower ones.
#[tactic(auto, unfolding(crate::specs::Reading::with_low))]
fn with_low(low: u64, higher: u64) -> Option<u64>
    ensures { result ≡ with_low low higher }
{
    if higher == 0 {
        return None;
    }
    higher.checked_mul(128)?.checked_add(low)
}
