//! The relocations of a program.

ghost use Rattle.std.specs.Prelude.{◌≡◌, ◌+◌, ◌≤◌, ◌++◌, length, IfOk, OnOk};
ghost use Rattle.elf_image.specs.Elf.{number_at};
ghost use Rattle.dyn_link.specs.Relocations.{relocation, relocations_in};

use byteorder::{ByteOrder, LittleEndian};
use std::alloc::{AllocError, Global};

/// A relocation: the address of its slot, its type, and the number of its symbol.
#[derive(Clone, Copy)]
pub(crate) struct Relocation {
    pub slot: u64,
    pub kind: u32,
    pub symbol: u32,
}

#[tactic(auto, unfolding(elf_image::specs::Elf::number_at, crate::specs::Relocations::relocation))]
fn read_relocation(bytes: &[u8], at: usize) -> Relocation
    requires { at + 24 ≤ length bytes.now }
    ensures { result ≡ relocation bytes.now at }
{
    Relocation {
        slot: LittleEndian::read_u64(&bytes[at..]),
        kind: LittleEndian::read_u32(&bytes[at + 8..]),
        symbol: LittleEndian::read_u32(&bytes[at + 12..]),
    }
}

// Adds the relocations of a table.
fn add_relocations(relocations: &mut Vec<Relocation>, table: &[u8]) -> Result<(), AllocError>
    ensures { OnOk result (relocations.new.items ≡ relocations.old.items ++ relocations_in table.now) }
{
    for n in 0..table.len() / 24 {
        relocations.push(read_relocation(table, 24 * n))?;
    }
    Ok(())
}

// The relocations of both tables.
pub(crate) fn relocations_of(
    alloc: Global,
    rela: &[u8],
    jmprel: &[u8],
) -> Result<Vec<Relocation>, AllocError>
    ensures { IfOk result (λ v. v.items ≡ relocations_in rela.now ++ relocations_in jmprel.now) }
{
    let mut relocations = Vec::new(alloc);
    add_relocations(&mut relocations, rela)?;
    add_relocations(&mut relocations, jmprel)?;
    Ok(relocations)
}
