//! Legacy prefixes and REX: how many there are, and what a row takes of them.

ghost use Rattle.std.specs.Prelude.{◌≡◌, ◌≤◌, length, nat_eq, ◌||◌};
ghost use Rattle.std.specs.List.{list_all};
ghost use Rattle.x86_forms.specs.Spelling.{has, count, allows, allows_rex, is_narrowed};
ghost use Rattle.x86_forms.specs.Operands.{is_rex, width_of, rex_w};
ghost use Rattle.x86_forms.specs.Reading.{is_prefix, prefix_count, rex_len, escape_len, mark_in};

use crate::cursor::byte;
use x86_forms::{Mark, Prefixes, Rex};

fn is_prefix(b: u8) -> bool
    ensures { result ≡ is_prefix b }
{
    matches!(b, 0x66 | 0xF0 | 0x2E | 0x3E | 0xF3)
}

/// How many legacy prefixes stand in front, of at most 15 bytes.
#[tactic(auto, unfolding(x86_forms::specs::Reading::prefix_count))]
pub fn prefix_count(bytes: &[u8]) -> usize
    requires { length bytes.now ≤ 15 }
    ensures value { result ≡ prefix_count bytes.now }
    ensures within { result ≤ length bytes.now }
{
    match bytes {
        [first, rest @ ..] if is_prefix(*first) => prefix_count(rest) + 1,
        _ => 0,
    }
}

/// Whether a REX byte comes next, as a length.
#[tactic(auto, unfolding(x86_forms::specs::Reading::rex_len))]
pub fn rex_len(bytes: &[u8]) -> usize
    ensures { result ≡ rex_len bytes.now }
{
    match bytes {
        [] => 0,
        [first, ..] => { if *first / 16 == 4 { 1 } else { 0 } }
    }
}

/// Whether 0F comes next, as a length.
#[tactic(auto, unfolding(x86_forms::specs::Reading::escape_len))]
pub fn escape_len(bytes: &[u8]) -> usize
    ensures { result ≡ escape_len bytes.now }
{
    match bytes {
        [] => 0,
        [first, ..] => { if *first == 0x0F { 1 } else { 0 } }
    }
}

fn has(b: u8, prefixes: &[u8]) -> bool
    ensures { result ≡ has b prefixes.now }
{
    prefixes.iter().any(|x| *x == b)
}

/// Whether a 66 stands, which makes operands narrower.
#[tactic(auto, unfolding(x86_forms::specs::Spelling::is_narrowed))]
pub fn is_narrowed(prefixes: &[u8]) -> bool
    ensures { result ≡ is_narrowed prefixes.now }
{
    has(0x66, prefixes)
}

/// Which of F0 and F3 stands, if any.
#[tactic(auto, unfolding(x86_forms::specs::Reading::mark_in))]
pub fn mark_in(prefixes: &[u8]) -> Mark
    ensures { result ≡ mark_in prefixes.now }
{
    if has(0xF0, prefixes) {
        Mark::Lock
    } else if has(0xF3, prefixes) {
        Mark::Rep
    } else {
        Mark::Plain
    }
}

fn is_one_lock(prefixes: &[u8]) -> bool
    ensures { result ≡ nat_eq (count 240 prefixes.now) 1 }
{
    prefixes.iter().filter(|x| **x == 0xF0).count() == 1
}

fn are_all(b: u8, prefixes: &[u8]) -> bool
    ensures { result ≡ list_all (λ x. nat_eq x b) prefixes.now }
{
    prefixes.iter().all(|x| *x == b)
}

fn are_either(a: u8, b: u8, prefixes: &[u8]) -> bool
    ensures { result ≡ list_all (λ x. nat_eq x a || nat_eq x b) prefixes.now }
{
    prefixes.iter().all(|x| *x == a || *x == b)
}

/// Whether a row takes these legacy prefixes.
#[tactic(auto, unfolding(x86_forms::specs::Spelling::allows))]
pub fn allows(row: Prefixes, prefixes: &[u8]) -> bool
    ensures { result ≡ allows row prefixes.now }
{
    match row {
        Prefixes::Sized => are_all(0x66, prefixes),
        Prefixes::Bare => prefixes.is_empty(),
        Prefixes::Locked => are_either(0x66, 0xF0, prefixes) && is_one_lock(prefixes),
        Prefixes::Mixed => are_either(0x66, 0x2E, prefixes),
        Prefixes::Track => are_all(0x3E, prefixes) && prefixes.len() <= 1,
        Prefixes::Repeated => are_all(0xF3, prefixes) && prefixes.len() == 1,
    }
}

/// Whether a row takes this REX byte, or that there is none.
#[tactic(auto, unfolding(x86_forms::specs::Spelling::allows_rex))]
pub fn allows_rex(row: Rex, rex: &[u8]) -> bool
    ensures { result ≡ allows_rex row rex.now }
{
    match row {
        Rex::Any => true,
        Rex::Absent => rex.is_empty(),
        Rex::Wide => byte(rex) / 8 % 2 == 1,
        Rex::Low => byte(rex) % 2 == 0,
        Rex::High => byte(rex) % 2 == 1,
    }
}
