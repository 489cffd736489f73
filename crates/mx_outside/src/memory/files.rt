ghost use Rattle.std.specs.Prelude.{◌≡◌, ◌≤◌, Some, true, IsErr, IfOk, vec_len};
ghost use Rattle.mx_outside.specs.Causes.{HasCause, HasReadCause};
ghost use Rattle.mx_outside.specs.Names.{names_of, ReadsNamed, ReplacesNamed};
ghost use Rattle.mx_outside.specs.Memory.{next_fails, is_failed, new_files, files_after_read, files_after_write};

use super::calls::Calls;
use super::names::{copy_of, replace};
use crate::fault::{Failed, FilesFault};
use crate::files::Files;
use std::alloc::Global;
use std::collections::BTreeMap;
use std::marker::Model;

/// Files that are kept in memory.
#[derive(Drop)]
pub struct MemoryFiles {
    files: BTreeMap<String, Vec<u8>>,
    alloc: Global,
    calls: Calls,
    read_faults: u64,
    write_faults: u64,
}

impl Model for MemoryFiles {
    ghost use Rattle.mx_outside.specs.Names.{names_of};
    ghost use Rattle.mx_outside.specs.Memory.{FilesData, files_code};

    ghost Value = { FilesData };

    ghost coded = { files_code };

    ghost view = { λ f. record {
      names = names_of f.files;
      failing = f.calls.failing.items;
      calls = f.calls.made;
      read_faults = f.read_faults;
      write_faults = f.write_faults;
    } };
}

impl MemoryFiles {
    /// These files. `failing` are the numbers of the calls that fail, reads and writes together,
    /// counted from 1; a write that finds no memory fails too.
    pub fn make(alloc: Global, files: BTreeMap<String, Vec<u8>>, failing: Vec<u64>) -> MemoryFiles
        ensures { result ≡ new_files (names_of files) failing.items }
    {
        MemoryFiles {
            files,
            alloc,
            calls: Calls::make(failing),
            read_faults: 0,
            write_faults: 0,
        }
    }

    /// The files with their bytes.
    pub fn names(&self) -> &BTreeMap<String, Vec<u8>>
        ensures { names_of result.now ≡ self.now.names }
    {
        &self.files
    }
}

impl Files for MemoryFiles {
    ghost names = { λ f. Some f.names };

    ghost read_faults = { λ f. f.read_faults };

    ghost write_faults = { λ f. f.write_faults };

    fn read(&mut self, alloc: Global, name: &str, max: u64) -> Result<Vec<u8>, FilesFault>
        ensures found { ReadsNamed (Some self.old.names) name.now max result }
        ensures within { IfOk result (λ v. vec_len v ≤ max) }
        ensures names_stay { Some self.new.names ≡ Some self.old.names }
        ensures cause { HasReadCause self.old.read_faults self.new.read_faults result }
        ensures writes { self.new.write_faults ≡ self.old.write_faults }
        ensures fails { is_failed result ≡ next_fails self.old.failing self.old.calls }
        ensures after { self.new ≡ files_after_read self.old (is_failed result) }
    {
        if self.calls.next_fails() {
            self.read_faults = self.read_faults.saturating_add(1);
            return Err(FilesFault::Failed);
        }
        copy_of(alloc, &self.files, name, max)
    }

    fn write(&mut self, name: &str, bytes: &[u8]) -> Result<(), Failed>
        ensures replaced { ReplacesNamed (Some self.old.names) (Some self.new.names)
            name.now bytes.now result }
        ensures cause { HasCause self.old.write_faults self.new.write_faults result }
        ensures reads { self.new.read_faults ≡ self.old.read_faults }
        ensures fails { next_fails self.old.failing self.old.calls ≡ true → IsErr result }
        ensures after { self.new ≡ files_after_write self.old name.now bytes.now result }
    {
        if self.calls.next_fails() || replace(self.alloc, &mut self.files, name, bytes).is_err() {
            self.write_faults = self.write_faults.saturating_add(1);
            return Err(Failed);
        }
        Ok(())
    }
}
