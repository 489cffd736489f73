//! The symbols of a file, and the functions of the library that they place.

ghost use Rattle.std.specs.Prelude.{◌≡◌, ◌<◌, ◌++◌, [], ◌∷◌, true, false, ◌+◌, ◌*◌, drop, IfOk, IfErr, IfSome, OnOk, MatchOption};
ghost use Rattle.std.specs.List.{cons_option, filter_map};
ghost use Rattle.std.specs.Option.{option_map};
ghost use Rattle.elf_image.specs.Elf.{file_header, section_header, passes_end, symbol_table, symbol_table_number, string_table, symbols_of};
ghost use Rattle.elf_image.specs.First.{FaultsAt};
ghost use Rattle.elf_image.specs.Library.{name_of, function_named, is_exported, place_of, library_places};
ghost use Rattle.elf_image.specs.Loading.{is_bad_symbol_table, is_bad_if_there};
ghost use Rattle.elf_image.specs.Sound.{HasHeaders, HasLoads};

use crate::fault::{ElfFault, LoadFault};
use crate::header::{FileHeader, SectionHeader, Symbol, read_section_header, read_symbol};
use crate::linking::Linking;
use crate::place::{Function, LibPlace};
use crate::range::{part, passes_end};
use std::alloc::{AllocError, Global};

const SHT_SYMTAB: u32 = 2;

const FUNCTIONS: [Function; 21] = [
    Function::PthreadCreate,
    Function::PthreadJoin,
    Function::PthreadSelf,
    Function::MutexInit,
    Function::MutexLock,
    Function::MutexTrylock,
    Function::MutexUnlock,
    Function::MutexDestroy,
    Function::Bsearch,
    Function::Read,
    Function::Write,
    Function::Exit,
    Function::CondInit,
    Function::CondDestroy,
    Function::CondWait,
    Function::CondSignal,
    Function::CondBroadcast,
    Function::BarrierInit,
    Function::BarrierWait,
    Function::BarrierDestroy,
    Function::Once,
];

// The function's name in C, as it stands in a table of strings.
fn symbol_name(f: Function) -> &'static [u8]
    ensures { result.now ≡ name_of f ++ 0 ∷ [] }
{
    match f {
        Function::PthreadCreate => b"pthread_create\0",
        Function::PthreadJoin => b"pthread_join\0",
        Function::PthreadSelf => b"pthread_self\0",
        Function::MutexInit => b"pthread_mutex_init\0",
        Function::MutexLock => b"pthread_mutex_lock\0",
        Function::MutexTrylock => b"pthread_mutex_trylock\0",
        Function::MutexUnlock => b"pthread_mutex_unlock\0",
        Function::MutexDestroy => b"pthread_mutex_destroy\0",
        Function::Bsearch => b"bsearch\0",
        Function::Read => b"read\0",
        Function::Write => b"write\0",
        Function::Exit => b"exit\0",
        Function::CondInit => b"pthread_cond_init\0",
        Function::CondDestroy => b"pthread_cond_destroy\0",
        Function::CondWait => b"pthread_cond_wait\0",
        Function::CondSignal => b"pthread_cond_signal\0",
        Function::CondBroadcast => b"pthread_cond_broadcast\0",
        Function::BarrierInit => b"pthread_barrier_init\0",
        Function::BarrierWait => b"pthread_barrier_wait\0",
        Function::BarrierDestroy => b"pthread_barrier_destroy\0",
        Function::Once => b"pthread_once\0",
    }
}

// The bytes from the offset on, of which there are none behind the end.
fn from_offset(bytes: &[u8], offset: usize) -> &[u8]
    ensures { result.now ≡ drop offset bytes.now }
{
    if offset > bytes.len() {
        return &bytes[..0];
    }
    &bytes[offset..]
}

// The function whose name stands at the offset in the strings. A name is compared where it stands,
// and no more of it than the longest name of a function.
#[tactic(auto, unfolding(crate::specs::Library::function_named))]
fn function_named(strings: &[u8], offset: u32) -> Option<Function>
    ensures { result ≡ function_named strings.now offset }
{
    let text = from_offset(strings, offset as usize);
    FUNCTIONS
        .iter()
        .copied()
        .find(|f| text.starts_with(symbol_name(*f)))
}

impl Symbol {
    fn is_exported(&self) -> bool
        ensures { result ≡ is_exported self.now }
    {
        self.section != 0 && self.info / 16 != 0 && (self.info % 16 == 0 || self.info % 16 == 2)
    }
}

// The function that the symbol places at its value.
fn place_of(strings: &[u8], s: Symbol) -> Option<LibPlace>
    ensures { result ≡ place_of strings.now s }
{
    if !s.is_exported() {
        return None;
    }
    match function_named(strings, s.name) {
        Some(function) => Some(LibPlace {
            at: s.value,
            function,
        }),
        None => None,
    }
}

fn push_place(places: &mut Vec<LibPlace>, strings: &[u8], s: Symbol) -> Result<(), AllocError>
    ensures { OnOk result (places.new.items ≡ places.old.items ++ cons_option (place_of strings.now s) []) }
{
    match place_of(strings, s) {
        Some(p) => Ok(places.push(p)?),
        None => Ok(()),
    }
}

// What the symbols place, in their order.
fn places_of(
    alloc: Global,
    bytes: &[u8],
    symbols: SectionHeader,
    strings: &[u8],
) -> Result<Vec<LibPlace>, AllocError>
    requires { passes_end symbols.offset symbols.size bytes.now ≡ false }
    ensures { IfOk result (λ v. v.items ≡ filter_map (place_of strings.now) (symbols_of bytes.now symbols)) }
{
    let mut places = Vec::new(alloc);
    for n in 0..(symbols.size / 24) as usize {
        let s = read_symbol(bytes, symbols.offset as usize + 24 * n);
        push_place(&mut places, strings, s)?;
    }
    Ok(places)
}

// The section header with the number.
fn section_at(bytes: &[u8], file: FileHeader, n: usize) -> SectionHeader
    requires header { file ≡ file_header bytes.now }
    requires whole { HasHeaders bytes.now }
    requires in_range { n < file.shnum }
    ensures { result ≡ section_header bytes.now (file.shoff + 64 * n) }
{
    read_section_header(bytes, file.shoff as usize + 64 * n)
}

/// A section with its number.
#[derive(Clone, Copy)]
pub(crate) struct Numbered {
    pub number: u16,
    pub section: SectionHeader,
}

// The first section of symbols.
fn symbol_table(bytes: &[u8], file: FileHeader) -> Option<Numbered>
    requires header { file ≡ file_header bytes.now }
    requires whole { HasHeaders bytes.now }
    ensures table { option_map (λ t. t.section) result ≡ symbol_table bytes.now }
    ensures number { IfSome result (λ t. t.number ≡ symbol_table_number bytes.now) }
{
    for number in 0..file.shnum {
        let section = section_at(bytes, file, number as usize);
        if section.kind == SHT_SYMTAB {
            return Some(Numbered { number, section });
        }
    }
    None
}

// The strings of the symbols, if the symbols and the strings can be read.
fn strings_of(bytes: &[u8], file: FileHeader, symbols: SectionHeader) -> Option<SectionHeader>
    requires header { file ≡ file_header bytes.now }
    requires whole { HasHeaders bytes.now }
    ensures { MatchOption result (is_bad_symbol_table bytes.now symbols ≡ true) (λ strings. (strings ≡ string_table bytes.now symbols) × (is_bad_symbol_table bytes.now symbols ≡ false)) }
{
    if symbols.entsize != 24
        || symbols.size % 24 != 0
        || passes_end(bytes, symbols.offset, symbols.size)
        || symbols.link >= file.shnum as u32
    {
        return None;
    }
    let strings = section_at(bytes, file, symbols.link as usize);
    if passes_end(bytes, strings.offset, strings.size) {
        return None;
    }
    Some(strings)
}

// What the symbols of the file place, in their order.
pub(crate) fn library_places(
    alloc: Global,
    bytes: &[u8],
    file: FileHeader,
    linking: Linking,
) -> Result<Vec<LibPlace>, LoadFault>
    requires header { file ≡ file_header bytes.now }
    requires whole { HasHeaders bytes.now }
    requires loads { HasLoads linking bytes.now }
    ensures ok { IfOk result (λ v. (v.items ≡ library_places bytes.now) × (is_bad_if_there bytes.now (symbol_table bytes.now) ≡ false)) }
    ensures fault { IfErr result (FaultsAt linking bytes.now) }
{
    let table = match symbol_table(bytes, file) {
        Some(table) => table,
        None => return Ok(Vec::new(alloc)),
    };
    let strings = match strings_of(bytes, file, table.section) {
        Some(strings) => strings,
        None => return Err(LoadFault::Fault(ElfFault::Symbols(table.number as u32))),
    };
    let text = part(bytes, strings.offset, strings.size);
    Ok(places_of(alloc, bytes, table.section, text)?)
}
