//! What a relocation binds: the name of its symbol, and its slot.

ghost use Rattle.std.specs.Prelude.{◌≡◌, ℕ, ◌≤◌, nat_lt, length, IfSome};
ghost use Rattle.std.specs.List.{position};
ghost use Rattle.std.specs.Option.{option_map};
ghost use Rattle.elf_image.specs.Elf.{number_at};
ghost use Rattle.dyn_link.specs.Bound.{binding};
ghost use Rattle.dyn_link.specs.Relocations.{symbol_record, is_slot, name_offset, is_weak, is_ended, has_name, is_bad_relocation, function_of, is_weak_if_there, is_unknown};

use crate::name::{end_of_names, function_named};
use crate::relocation::Relocation;
use crate::table::run_at;
use byteorder::{ByteOrder, LittleEndian};
use elf_image::{Function, Image};

// R_X86_64_GLOB_DAT and R_X86_64_JUMP_SLOT.
const GLOB_DAT: u32 = 6;

const JUMP_SLOT: u32 = 7;

// STB_WEAK.
const WEAK: u8 = 2;

/// A slot, and the function whose address it is to hold; none for a weak name that isn't known.
#[derive(Clone, Copy)]
pub(crate) struct Binding {
    pub slot: u64,
    pub function: Option<Function>,
}

/// The strings of names, and the address at which the symbols begin.
#[derive(Clone, Copy)]
pub(crate) struct Names<'a> {
    pub strings: &'a [u8],
    // Where the last of them has ended.
    pub end: usize,
    pub symbols: u64,
    ghost ended: { (k : ℕ) → is_ended strings.now k ≡ nat_lt k end },
}

// The name of a symbol, by its offset in the strings.
#[tactic(auto, unfolding(elf_image::specs::Elf::number_at, crate::specs::Relocations::name_offset))]
fn name_offset(symbol: &[u8]) -> u32
    requires { 8 ≤ length symbol.now }
    ensures { result ≡ name_offset symbol.now }
{
    LittleEndian::read_u32(symbol)
}

#[tactic(auto, unfolding(elf_image::specs::Elf::number_at, crate::specs::Relocations::is_weak))]
fn is_weak(symbol: &[u8]) -> bool
    requires { 8 ≤ length symbol.now }
    ensures { result ≡ is_weak symbol.now }
{
    symbol[4] / 16 == WEAK
}

// Whether the slot's eight bytes are in one segment that can be written.
#[tactic(auto, unfolding(crate::specs::Relocations::is_slot))]
fn is_slot(image: &Image, a: u64) -> bool
    ensures { result ≡ is_slot image.now.segments a }
{
    match image.segment_at(a) {
        Some(segment) => segment.w && segment.size - (a - segment.at) >= 8,
        None => false,
    }
}

// The record of the relocation's symbol, if one segment has it.
#[tactic(auto, unfolding(crate::specs::Relocations::symbol_record))]
fn symbol_record(image: &Image, symbols: u64, r: Relocation) -> Option<&[u8]>
    ensures found { option_map (λ b. b.now) result ≡ symbol_record image.now.segments symbols r }
    ensures len { IfSome result (λ b. length b.now ≡ 24) }
{
    image.facts();
    match symbols.checked_add(24 * r.symbol as u64) {
        Some(at) => run_at(image, at, 24),
        None => None,
    }
}

impl<'a> Names<'a> {
    pub(crate) fn make(strings: &'a [u8], symbols: u64) -> Self
        ensures strings { result.strings.now ≡ strings.now }
        ensures symbols { result.symbols ≡ symbols }
    {
        let end = end_of_names(strings);
        Names {
            strings,
            end,
            symbols,
        }
    }

    // Whether the name of the relocation's symbol ends among the strings.
    fn has_name(&self, image: &Image, r: Relocation) -> bool
        ensures { result ≡ has_name self.now.strings.now (symbol_record image.now.segments self.now.symbols r) }
    {
        match symbol_record(image, self.symbols, r) {
            Some(symbol) => (name_offset(symbol) as usize) < self.end,
            None => false,
        }
    }

    // Whether the relocation can't be carried out.
    #[tactic(auto, unfolding(crate::specs::Relocations::is_bad_relocation))]
    fn is_bad(&self, image: &Image, r: Relocation) -> bool
        ensures { result ≡ is_bad_relocation image.now.segments self.now.strings.now self.now.symbols r }
    {
        (r.kind != GLOB_DAT && r.kind != JUMP_SLOT)
            || !is_slot(image, r.slot)
            || !self.has_name(image, r)
    }

    #[tactic(auto, unfolding(crate::specs::Relocations::function_of))]
    fn function_of(&self, image: &Image, r: Relocation) -> Option<Function>
        ensures { result ≡ function_of image.now.segments self.now.strings.now self.now.symbols r }
    {
        match symbol_record(image, self.symbols, r) {
            Some(symbol) => function_named(self.strings, name_offset(symbol)),
            None => None,
        }
    }

    fn has_weak(&self, image: &Image, r: Relocation) -> bool
        ensures { result ≡ is_weak_if_there (symbol_record image.now.segments self.now.symbols r) }
    {
        match symbol_record(image, self.symbols, r) {
            Some(symbol) => is_weak(symbol),
            None => false,
        }
    }

    // Whether the relocation needs a name that no function has.
    #[tactic(auto, unfolding(crate::specs::Relocations::is_unknown))]
    fn is_unknown(&self, image: &Image, r: Relocation) -> bool
        ensures { result ≡ is_unknown image.now.segments self.now.strings.now self.now.symbols r }
    {
        self.function_of(image, r).is_none() && !self.has_weak(image, r)
    }

    pub(crate) fn binding(&self, image: &Image, r: Relocation) -> Binding
        ensures { result ≡ binding image.now.segments self.now.strings.now self.now.symbols r }
    {
        Binding {
            slot: r.slot,
            function: self.function_of(image, r),
        }
    }

    pub(crate) fn first_bad(&self, image: &Image, relocations: &[Relocation]) -> Option<usize>
        ensures { result ≡ position (is_bad_relocation image.now.segments self.now.strings.now self.now.symbols) relocations.now }
    {
        relocations.iter().position(|r| self.is_bad(image, *r))
    }

    pub(crate) fn first_unknown(&self, image: &Image, relocations: &[Relocation]) -> Option<usize>
        ensures { result ≡ position (is_unknown image.now.segments self.now.strings.now self.now.symbols) relocations.now }
    {
        relocations.iter().position(|r| self.is_unknown(image, *r))
    }
}
