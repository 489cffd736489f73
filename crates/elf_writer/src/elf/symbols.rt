//! Symbols of the library's functions, and their names.

ghost use Rattle.std.specs.Prelude.{◌≡◌, ◌+◌, ◌*◌, ◌^◌, ◌<◌, ◌≤◌, ◌++◌, ◌∷◌, length, map, All, OnOk, nat_le, nat_lt, ◌&&◌};
ghost use Rattle.std.specs.List.{flat_map, position};
ghost use Rattle.elf_writer.specs.ElfFile.{name_at, no_symbol, section_of, strings, symbol_of, symbol_bytes, symbols};

use crate::elf::field::put;
use crate::elf::header::Symbol;
use elf_image::{Function, LibPlace, Segment};
use std::alloc::AllocError;

/// The section of a symbol that is in no section.
const SHN_ABS: u16 = 0xfff1;

/// The section of the first segment; those of the others follow.
const FIRST_SECTION: u16 = 4;

/// `STB_GLOBAL` and `STT_FUNC`.
const GLOBAL_FUNC: u8 = 0x12;

// How many places there are. Each takes 16 bytes of memory.
pub(crate) fn count_of(places: &[LibPlace]) -> u64
    ensures value { result ≡ length places.now }
    ensures room { 16 * result < 2 ^ 63 }
{
    places.len() as u64
}

// The names of the library's functions, each behind a zero byte.
#[tactic(auto, unfolding(crate::specs::ElfFile::strings))]
pub(crate) fn strings() -> &'static [u8]
    ensures { result.now ≡ strings }
{
    b"\0pthread_create\0pthread_join\0pthread_self\0pthread_mutex_init\0pthread_mutex_lock\0pthread_mutex_trylock\0pthread_mutex_unlock\0pthread_mutex_destroy\0bsearch\0read\0write\0exit\0pthread_cond_init\0pthread_cond_destroy\0pthread_cond_wait\0pthread_cond_signal\0pthread_cond_broadcast\0pthread_barrier_init\0pthread_barrier_wait\0pthread_barrier_destroy\0pthread_once\0"
}

// Where the function's name stands in them.
fn name_at(f: Function) -> u32
    ensures { result ≡ name_at f }
{
    match f {
        Function::PthreadCreate => 1,
        Function::PthreadJoin => 16,
        Function::PthreadSelf => 29,
        Function::MutexInit => 42,
        Function::MutexLock => 61,
        Function::MutexTrylock => 80,
        Function::MutexUnlock => 102,
        Function::MutexDestroy => 123,
        Function::Bsearch => 145,
        Function::Read => 153,
        Function::Write => 158,
        Function::Exit => 164,
        Function::CondInit => 169,
        Function::CondDestroy => 187,
        Function::CondWait => 208,
        Function::CondSignal => 226,
        Function::CondBroadcast => 246,
        Function::BarrierInit => 269,
        Function::BarrierWait => 290,
        Function::BarrierDestroy => 311,
        Function::Once => 335,
    }
}

// The number of the segment that has the address, if one has it.
fn segment_with(segments: &[Segment], a: u64) -> Option<usize>
    ensures { result ≡ position (λ s. nat_le s.at a && nat_lt a (s.at + s.size)) segments.now }
{
    segments.iter().position(|s| s.at <= a && a - s.at < s.size)
}

// The section of the segment that has the address.
#[tactic(auto, unfolding(crate::specs::ElfFile::section_of))]
fn section_of(segments: &[Segment], a: u64) -> u16
    requires { length segments.now ≤ 16 }
    ensures { result ≡ section_of a segments.now }
{
    match segment_with(segments, a) {
        Some(i) => i as u16 + FIRST_SECTION,
        None => SHN_ABS,
    }
}

// A global symbol of a function at the place.
#[tactic(auto, unfolding(crate::specs::ElfFile::symbol_of))]
fn symbol_of(segments: &[Segment], p: LibPlace) -> Symbol
    requires { length segments.now ≤ 16 }
    ensures value { result ≡ symbol_of segments.now p }
    ensures fits { p.at < 2 ^ 64 }
{
    Symbol {
        name: name_at(p.function),
        info: GLOBAL_FUNC,
        section: section_of(segments, p.at),
        value: p.at,
    }
}

// The symbol that isn't one, which begins each table.
#[tactic(auto, unfolding(crate::specs::ElfFile::no_symbol))]
fn no_symbol() -> Symbol
    ensures { result ≡ no_symbol }
{
    Symbol {
        name: 0,
        info: 0,
        section: 0,
        value: 0,
    }
}

// Appends the symbols of the places, whose addresses are below 2^64.
pub(crate) fn put_symbols(
    out: &mut Vec<u8>,
    segments: &[Segment],
    places: &[LibPlace],
) -> Result<(), AllocError>
    requires { length segments.now ≤ 16 }
    ensures bytes { OnOk result (out.new.items ≡ out.old.items ++ flat_map symbol_bytes (symbols segments.now places.now)) }
    ensures values { OnOk result (All (λ p. p.at < 2 ^ 64) places.now) }
{
    put(out, &no_symbol().fields())?;
    for p in places {
        put(out, &symbol_of(segments, *p).fields())?;
    }
    Ok(())
}
