//! Where the parts of the file stand.

ghost use Rattle.std.specs.Prelude.{◌≡◌, ◌+◌, ◌*◌, ◌^◌, ◌≤◌};
ghost use Rattle.elf_writer.specs.ElfFile.{symbols_at, strings_at, names_at, contents_at};

/// How many bytes the names of the library's functions have.
pub(crate) const STRINGS_SIZE: u64 = 348;

/// How many bytes the names of the sections have.
pub(crate) const NAMES_SIZE: u64 = 47;

/// The offsets of the parts behind the headers.
#[derive(Clone, Copy)]
pub(crate) struct Layout {
    /// The symbols.
    pub symbols: u64,
    /// The names of the library's functions.
    pub strings: u64,
    /// The names of the sections.
    pub names: u64,
    /// The bytes of the segments.
    pub contents: u64,
}

impl Layout {
    // The layout of a file of so many segments and places: the file header, a program header and a
    // section header for each segment, four more section headers, and one more symbol than places.
    pub(crate) fn new(segments: u64, places: u64) -> Self
        requires few { segments ≤ 16 }
        requires room { 24 * (places + 1) ≤ 3 * 2 ^ 62 }
        ensures symbols { result.symbols ≡ symbols_at segments }
        ensures strings { result.strings ≡ strings_at segments places }
        ensures names { result.names ≡ names_at segments places }
        ensures contents { result.contents ≡ contents_at segments places }
    {
        let symbols = 64 + 56 * segments + 64 * (segments + 4);
        let strings = symbols + 24 * (places + 1);
        let names = strings + STRINGS_SIZE;
        Layout {
            symbols,
            strings,
            names,
            contents: names + NAMES_SIZE,
        }
    }
}
