//! The numbers of headers and symbols, under the ELF specification's names for their sizes.

ghost use Rattle.std.specs.Prelude.{◌≡◌, ◌++◌, OnOk};
ghost use Rattle.elf_writer.specs.ElfField.{field_bytes, fields_bytes};

use std::alloc::AllocError;

/// A number of a header or of a symbol.
#[derive(Clone, Copy)]
pub(crate) enum Field {
    /// `unsigned char`
    Byte(u8),
    /// `Elf64_Half`
    Half(u16),
    /// `Elf64_Word`
    Word(u32),
    /// `Elf64_Xword`, and `Elf64_Addr` and `Elf64_Off`
    Xword(u64),
}

// Appends the number, its lowest byte first.
fn put_one(out: &mut Vec<u8>, field: Field) -> Result<(), AllocError>
    ensures { OnOk result (out.new.items ≡ out.old.items ++ field_bytes field) }
{
    match field {
        Field::Byte(x) => out.extend_from_slice(&x.to_le_bytes()),
        Field::Half(x) => out.extend_from_slice(&x.to_le_bytes()),
        Field::Word(x) => out.extend_from_slice(&x.to_le_bytes()),
        Field::Xword(x) => out.extend_from_slice(&x.to_le_bytes()),
    }
}

// Appends the numbers in their order.
pub(crate) fn put(out: &mut Vec<u8>, fields: &[Field]) -> Result<(), AllocError>
    ensures { OnOk result (out.new.items ≡ out.old.items ++ fields_bytes fields.now) }
{
    for field in fields {
        put_one(out, *field)?;
    }
    Ok(())
}
