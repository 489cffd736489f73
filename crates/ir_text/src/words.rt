//! Words, numbers and digits in front of a text. Each reader answers what it read and the bytes behind it, or how many
//! bytes are left where the text goes wrong.

ghost use Rattle.std.specs.Prelude.{◌≡◌, ◌+◌, ◌∷◌, ◌++◌, ◌<◌, map, IfOk, IfSome};
ghost use Rattle.ir_text.specs.Reading.{seen, literal, word_at, digit_of, longer, more_digits, digits_at, number_at, digit_at, digit_or};

/// What follows the literal.
#[tactic(auto, using(crate::proofs::LiteralLemmas::literal_none, crate::proofs::LiteralLemmas::literal_all, crate::proofs::LiteralLemmas::literal_same, crate::proofs::LiteralLemmas::literal_other))]
pub fn literal<'a>(word: &[u8], bytes: &'a [u8]) -> Result<&'a [u8], usize>
    ensures { seen (λ x. x.now) result ≡ literal word.now bytes.now }
{
    let mut rest = bytes;
    for byte in word {
        match rest.split_first() {
            None => return Err(0),
            Some((first, tail)) => {
                if *first != *byte {
                    return Err(rest.len());
                }
                rest = tail;
            }
        }
    }
    Ok(rest)
}

/// The value of the first word of the table that stands in front with the bytes that end it.
#[tactic(auto, using(crate::proofs::WordLemmas::word_none, crate::proofs::WordLemmas::word_found, crate::proofs::WordLemmas::word_missed))]
pub fn word<'a, T: Copy>(
    words: &[(&str, T)],
    end: &[u8],
    bytes: &'a [u8],
) -> Result<(T, &'a [u8]), usize>
    ensures { seen (λ x. (x.0, x.1.now)) result ≡ word_at (map (λ w. (w.0.now, w.1)) words.now) end.now bytes.now }
{
    let mut left = bytes.len();
    for (word, value) in words {
        match ended(word.as_bytes(), end, bytes) {
            Ok(rest) => return Ok((*value, rest)),
            Err(there) => left = left.min(there),
        }
    }
    Err(left)
}

/// What follows the word and its end.
#[tactic(auto, using(crate::proofs::LiteralLemmas::literal_then))]
fn ended<'a>(word: &[u8], end: &[u8], bytes: &'a [u8]) -> Result<&'a [u8], usize>
    ensures { seen (λ x. x.now) result ≡ literal (word.now ++ end.now) bytes.now }
{
    match literal(word, bytes) {
        Ok(rest) => literal(end, rest),
        Err(left) => Err(left),
    }
}

/// The value of a digit, `0` to `9` and `a` to `f`.
#[tactic(auto, unfolding(crate::specs::Reading::digit_of))]
fn value_of(byte: u8) -> Option<u64>
    ensures { result ≡ digit_of byte }
{
    match byte {
        b'0'..=b'9' => Some(u64::from(byte - b'0')),
        b'a'..=b'f' => Some(u64::from(byte - b'a' + 10)),
        _ => None,
    }
}

/// The number with one more digit: none follows 0, and it is at most `max`.
#[tactic(auto, unfolding(crate::specs::Reading::longer))]
fn longer(max: u64, n: u64, digit: Option<u64>) -> Option<u64>
    ensures { result ≡ longer (max + 1) n digit }
{
    let digit = digit?;
    if n == 0 {
        return None;
    }
    let longer = n.checked_mul(16)?.checked_add(digit)?;
    if longer <= max { Some(longer) } else { None }
}

/// The number that the digits in front go on with after `n`, up to the byte that ends it.
#[tactic(auto, unfolding(crate::specs::Reading::more_digits))]
fn more_digits(max: u64, end: u8, mut n: u64, bytes: &[u8]) -> Result<(u64, &[u8]), usize>
    ensures { seen (λ x. (x.0, x.1.now)) result ≡ more_digits (max + 1) end n bytes.now }
{
    let mut rest = bytes;
    while let Some((first, tail)) = rest.split_first() {
        if *first == end {
            return Ok((n, tail));
        }
        match longer(max, n, value_of(*first)) {
            None => return Err(rest.len()),
            Some(more) => n = more,
        }
        rest = tail;
    }
    Err(0)
}

/// A number's digits, up to the byte that ends it: at most `max`, without leading zeros.
#[tactic(auto, unfolding(crate::specs::Reading::digits_at))]
pub fn digits(bytes: &[u8], max: u64, end: u8) -> Result<(u64, &[u8]), usize>
    ensures { seen (λ x. (x.0, x.1.now)) result ≡ digits_at (max + 1) end bytes.now }
{
    match bytes.split_first() {
        None => Err(0),
        Some((first, tail)) => match value_of(*first) {
            None => Err(bytes.len()),
            Some(n) => more_digits(max, end, n, tail),
        },
    }
}

/// A number, `0x` and its digits, up to the byte that ends it.
#[tactic(auto, unfolding(crate::specs::Reading::number_at))]
pub fn number(bytes: &[u8], max: u64, end: u8) -> Result<(u64, &[u8]), usize>
    ensures { seen (λ x. (x.0, x.1.now)) result ≡ number_at (max + 1) end bytes.now }
{
    digits(literal(b"0x", bytes)?, max, end)
}

/// One digit.
#[tactic(auto, unfolding(crate::specs::Reading::digit_at))]
pub fn digit(bytes: &[u8]) -> Result<(u8, &[u8]), usize>
    ensures read { seen (λ x. (x.0, x.1.now)) result ≡ digit_at bytes.now }
    ensures small { IfOk result (λ x. x.0 < 16) }
{
    match bytes.split_first() {
        None => Err(0),
        Some((first, tail)) => match digit_value(*first) {
            None => Err(bytes.len()),
            Some(d) => Ok((d, tail)),
        },
    }
}

/// One digit, or the byte in its place.
#[tactic(auto, unfolding(crate::specs::Reading::digit_or))]
pub fn digit_or(bytes: &[u8], stop: u8) -> Result<(Option<u8>, &[u8]), usize>
    ensures read { seen (λ x. (x.0, x.1.now)) result ≡ digit_or stop bytes.now }
    ensures small { IfOk result (λ x. IfSome x.0 (λ d. d < 16)) }
{
    match bytes.split_first() {
        None => Err(0),
        Some((first, tail)) => {
            if *first == stop {
                return Ok((None, tail));
            }
            match digit_value(*first) {
                None => Err(bytes.len()),
                Some(d) => Ok((Some(d), tail)),
            }
        }
    }
}

/// The value of a digit, `0` to `9` and `a` to `f`.
#[tactic(auto, unfolding(crate::specs::Reading::digit_of))]
fn digit_value(byte: u8) -> Option<u8>
    ensures value { result ≡ digit_of byte }
    ensures small { IfSome result (λ d. d < 16) }
{
    match byte {
        b'0'..=b'9' => Some(byte - b'0'),
        b'a'..=b'f' => Some(byte - b'a' + 10),
        _ => None,
    }
}
