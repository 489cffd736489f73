//! Ranges of the file. Offsets and sizes are whatever the file says: a sum of them never wraps.

ghost use Rattle.std.specs.Prelude.{◌≡◌, false};
ghost use Rattle.elf_image.specs.Elf.{passes_end, part};
ghost use Rattle.elf_image.specs.Loading.{is_bad_table};

/// A range of the file.
#[derive(Clone, Copy, Debug, PartialEq, Eq)]
pub struct Range {
    /// The offset of the first byte.
    pub offset: u64,
    /// How many bytes there are.
    pub size: u64,
}

// Whether a range that isn't empty ends behind the file's end.
pub(crate) fn passes_end(bytes: &[u8], offset: u64, size: u64) -> bool
    ensures { result ≡ passes_end offset size bytes.now }
{
    let len = bytes.len() as u64;
    size > 0 && (offset > len || size > len - offset)
}

// Whether a table of `count` headers has others than of `size` bytes, or passes the file's end.
pub(crate) fn is_bad_table(bytes: &[u8], count: u16, entsize: u16, size: u16, offset: u64) -> bool
    ensures { result ≡ is_bad_table count entsize size offset bytes.now }
{
    count != 0 && (entsize != size || passes_end(bytes, offset, size as u64 * count as u64))
}

// The bytes of a range that doesn't pass the file's end.
pub(crate) fn part(bytes: &[u8], offset: u64, size: u64) -> &[u8]
    requires { passes_end offset size bytes.now ≡ false }
    ensures { result.now ≡ part offset size bytes.now }
{
    if size == 0 {
        return &bytes[..0];
    }
    &bytes[offset as usize..][..size as usize]
}
