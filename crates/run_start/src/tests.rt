//! Refusals, over files and an input in memory. What runs is tested at the top calls.

use crate::{StartFault, prepare};
use mx_outside::{MemoryFiles, MemorySource};
use std::alloc::{AllocError, Global};
use std::collections::BTreeMap;

// What preparing a run of the file `p1` comes to, which has these bytes, if it is there; the calls of the files with these
// numbers fail.
fn told(alloc: Global, file: Option<&[u8]>, failing: &[u64]) -> Result<String, AllocError> {
    let mut names = BTreeMap::new(alloc);
    if let Some(bytes) = file {
        let name = String::from_str(alloc, "p1")?;
        names.insert(name, Vec::from_slice(alloc, bytes)?)?;
    }
    let mut files = MemoryFiles::make(alloc, names, Vec::from_slice(alloc, failing)?);
    let mut input = MemorySource::make(Vec::new(alloc), Vec::new(alloc), 1);
    let args = Vec::new(alloc);
    let none = None;
    match prepare(alloc, "p1", args, &none, 1000, true, &mut files, &mut input) {
        Ok(_) => String::from_str(alloc, "prepared"),
        Err(StartFault::Memory(e)) => Err(e),
        Err(fault) => format!(in alloc; "{fault:?}"),
    }
}

#[test]
fn files_that_cant_be_run(rt: HostRuntime) {
    let rows: [(Option<&[u8]>, &[u64], &str); 4] = [
        (None, &[], "Absent"),
        (None, &[1], "ReadFault"),
        (Some(&[0x7f, 0x45, 0x4c]), &[], "Image(1)"),
        (Some(&[0; 64]), &[], "Image(2)"),
    ];
    for (file, failing, line) in rows.iter() {
        let Ok(text) = told(rt.alloc(), *file, failing) else {
            panic!(rt; "no memory")
        };
        assert_eq!(rt; text.as_str(), *line);
    }
}
