ghost use Rattle.std.specs.Prelude.{◌≡◌, ℕ, ◌≤◌, Option, IfOk, vec_len};
ghost use Rattle.mx_outside.specs.Causes.{HasCause, HasReadCause};
ghost use Rattle.mx_outside.specs.Names.{NameMap, ReadsNamed, ReplacesNamed};

use crate::fault::{Failed, FilesFault};
use std::alloc::Global;

/// Files by name.
pub trait Files {
    // The names with their bytes, where the files tell them.
    ghost names: { Self → Option NameMap };

    // How many faults reading has counted.
    ghost read_faults: { Self → ℕ };

    // How many faults writing has counted.
    ghost write_faults: { Self → ℕ };

    /// The bytes of the file `name`, at most `max`.
    ///
    /// `Absent` comes exactly where no file has the name, `TooLong` exactly where the file has more
    /// than `max` bytes, and `Failed`, before either, only where the count of reads' faults rose.
    fn read(&mut self, alloc: Global, name: &str, max: u64) -> Result<Vec<u8>, FilesFault>
        ensures found { ReadsNamed (names self.old) name.now max result }
        ensures within { IfOk result (λ v. vec_len v ≤ max) }
        ensures names_stay { names self.new ≡ names self.old }
        ensures cause { HasReadCause (read_faults self.old) (read_faults self.new) result }
        ensures writes { write_faults self.new ≡ write_faults self.old };

    /// Replaces the whole file `name`, or makes it. `Failed`, which raises the count of writes'
    /// faults, may have changed that file, and no other.
    fn write(&mut self, name: &str, bytes: &[u8]) -> Result<(), Failed>
        ensures replaced { ReplacesNamed (names self.old) (names self.new)
            name.now bytes.now result }
        ensures cause { HasCause (write_faults self.old) (write_faults self.new) result }
        ensures reads { read_faults self.new ≡ read_faults self.old };
}
