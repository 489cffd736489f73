//! The entries of a dynamic segment, and what they say of its tables.

ghost use Rattle.std.specs.Prelude.{◌≡◌, ◌+◌, ◌≤◌, true, false, length, IfOk, MatchOption};
ghost use Rattle.std.specs.List.{list_any, position};
ghost use Rattle.elf_image.specs.Elf.{number_at, passes_end};
ghost use Rattle.dyn_link.specs.Dynamic.{tagged, entries_of, is_end, before_end, has_tag, value_of, occurs_twice, tags, dynamic_of, is_value, is_uneven, size_of, has_bad_sizes, has_relocations, lacks_names, tables, is_bad_segment, is_bad_dynamic};

use byteorder::{ByteOrder, LittleEndian};
use elf_image::Range;
use std::alloc::{AllocError, Global};

/// An entry of a dynamic segment.
#[derive(Clone, Copy)]
pub(crate) struct Tagged {
    pub tag: u64,
    pub value: u64,
}

/// What the entries say that are read, by their tags' names without prefix.
#[derive(Clone, Copy)]
pub(crate) struct Dynamic {
    pub pltrelsz: Option<u64>,
    pub strtab: Option<u64>,
    pub symtab: Option<u64>,
    pub rela: Option<u64>,
    pub relasz: Option<u64>,
    pub relaent: Option<u64>,
    pub strsz: Option<u64>,
    pub syment: Option<u64>,
    pub pltrel: Option<u64>,
    pub jmprel: Option<u64>,
}

const TAGS: [u64; 10] = [2, 5, 6, 7, 8, 9, 10, 11, 20, 23];

#[tactic(auto, unfolding(elf_image::specs::Elf::number_at, crate::specs::Dynamic::tagged))]
fn read_tagged(bytes: &[u8], at: usize) -> Tagged
    requires { at + 16 ≤ length bytes.now }
    ensures { result ≡ tagged bytes.now at }
{
    Tagged {
        tag: LittleEndian::read_u64(&bytes[at..]),
        value: LittleEndian::read_u64(&bytes[at + 8..]),
    }
}

// All whole entries of the segment.
fn entries_of(alloc: Global, bytes: &[u8], range: Range) -> Result<Vec<Tagged>, AllocError>
    requires { passes_end range.offset range.size bytes.now ≡ false }
    ensures { IfOk result (λ v. v.items ≡ entries_of bytes.now range) }
{
    let mut entries = Vec::new(alloc);
    for n in 0..(range.size / 16) as usize {
        entries.push(read_tagged(bytes, range.offset as usize + 16 * n))?;
    }
    Ok(entries)
}

// How many entries stand before the first that ends them.
fn end_of(entries: &[Tagged]) -> Option<usize>
    ensures { result ≡ position is_end entries.now }
{
    entries.iter().position(|e| e.tag == 0)
}

// The entries before the end mark, if it is there.
fn before_end(mut entries: Vec<Tagged>) -> Option<Vec<Tagged>>
    ensures { MatchOption result (list_any is_end entries.items ≡ false) (λ v. (v.items ≡ before_end entries.items) × (list_any is_end entries.items ≡ true)) }
{
    match end_of(&entries) {
        Some(end) => {
            entries.truncate(end);
            Some(entries)
        }
        None => None,
    }
}

fn value_of(entries: &[Tagged], tag: u64) -> Option<u64>
    ensures { result ≡ value_of tag entries.now }
{
    match entries.iter().find(|e| e.tag == tag) {
        Some(e) => Some(e.value),
        None => None,
    }
}

fn occurs_twice(entries: &[Tagged], tag: u64) -> bool
    ensures { result ≡ occurs_twice entries.now tag }
{
    entries.iter().filter(|e| e.tag == tag).count() > 1
}

// Whether some tag that is read occurs twice.
fn has_twice(entries: &[Tagged]) -> bool
    ensures { result ≡ list_any (occurs_twice entries.now) tags }
{
    TAGS.iter().any(|tag| occurs_twice(entries, *tag))
}

#[tactic(auto, unfolding(crate::specs::Dynamic::dynamic_of))]
fn dynamic_of(entries: &[Tagged]) -> Dynamic
    ensures { result ≡ dynamic_of entries.now }
{
    Dynamic {
        pltrelsz: value_of(entries, 2),
        strtab: value_of(entries, 5),
        symtab: value_of(entries, 6),
        rela: value_of(entries, 7),
        relasz: value_of(entries, 8),
        relaent: value_of(entries, 9),
        strsz: value_of(entries, 10),
        syment: value_of(entries, 11),
        pltrel: value_of(entries, 20),
        jmprel: value_of(entries, 23),
    }
}

fn is_value(value: Option<u64>, n: u64) -> bool
    ensures { result ≡ is_value n value }
{
    match value {
        Some(m) => m == n,
        None => false,
    }
}

fn is_uneven(value: Option<u64>) -> bool
    ensures { result ≡ is_uneven value }
{
    match value {
        Some(size) => size % 24 != 0,
        None => false,
    }
}

// The size of a table that is there.
fn size_of(at: Option<u64>, size: Option<u64>) -> u64
    ensures { result ≡ size_of at size }
{
    match at {
        None => 0,
        Some(_) => size.unwrap_or(0),
    }
}

impl Dynamic {
    // Whether a table is without its size or has entries of another kind, or a size is no multiple of
    // an entry's.
    fn has_bad_sizes(&self) -> bool
        ensures { result ≡ has_bad_sizes self.now }
    {
        (self.rela.is_some() && (self.relasz.is_none() || !is_value(self.relaent, 24)))
            || (self.jmprel.is_some() && (self.pltrelsz.is_none() || !is_value(self.pltrel, 7)))
            || is_uneven(self.relasz)
            || is_uneven(self.pltrelsz)
    }

    fn has_relocations(&self) -> bool
        ensures { result ≡ has_relocations self.now }
    {
        size_of(self.rela, self.relasz) > 0 || size_of(self.jmprel, self.pltrelsz) > 0
    }

    // Whether names or symbols that relocations need aren't there.
    fn lacks_names(&self) -> bool
        ensures { result ≡ lacks_names self.now }
    {
        self.strtab.is_none()
            || self.strsz.is_none()
            || self.symtab.is_none()
            || !is_value(self.syment, 24)
    }
    // Whether what the entries say can't be.
    #[tactic(auto, unfolding(crate::specs::Dynamic::is_bad_dynamic))]
    pub(crate) fn is_bad(&self) -> bool
        ensures { result ≡ is_bad_dynamic self.now }
    {
        self.has_bad_sizes() || (self.has_relocations() && self.lacks_names())
    }
}

// Whether a range that isn't empty ends behind the file's end.
fn passes_end(bytes: &[u8], range: Range) -> bool
    ensures { result ≡ passes_end range.offset range.size bytes.now }
{
    let len = bytes.len() as u64;
    range.size > 0 && (range.offset > len || range.size > len - range.offset)
}

// What the dynamic segment says, if it ends in the file and says nothing twice.
#[tactic(auto, unfolding(crate::specs::Dynamic::is_bad_segment, crate::specs::Dynamic::tables))]
pub(crate) fn tables_of(
    alloc: Global,
    bytes: &[u8],
    range: Range,
) -> Result<Option<Dynamic>, AllocError>
    ensures { IfOk result (λ o. MatchOption o (is_bad_segment bytes.now range ≡ true) (λ d. (d ≡ tables bytes.now range) × (is_bad_segment bytes.now range ≡ false))) }
{
    if passes_end(bytes, range) {
        return Ok(None);
    }
    let entries = match before_end(entries_of(alloc, bytes, range)?) {
        Some(entries) => entries,
        None => return Ok(None),
    };
    if has_twice(&entries) {
        return Ok(None);
    }
    Ok(Some(dynamic_of(&entries)))
}
