//! Files in memory, each with what is read of it.

use crate::{IrFault, read_blocks};
use ir_text::{TextFault, print};
use mx_outside::MemoryFiles;
use std::alloc::{AllocError, Global};
use std::collections::BTreeMap;
use std::test::Fail;

// What reading the file `ir` comes to, which has these bytes, if it is there: the text of its blocks, or why there are none. The
// calls of the files with these numbers fail.
fn told(alloc: Global, file: Option<&[u8]>, failing: &[u64]) -> Result<String, AllocError> {
    let mut names = BTreeMap::new(alloc);
    if let Some(bytes) = file {
        let name = String::from_str(alloc, "ir")?;
        names.insert(name, Vec::from_slice(alloc, bytes)?)?;
    }
    let mut files = MemoryFiles::make(alloc, names, Vec::from_slice(alloc, failing)?);
    match read_blocks(alloc, "ir", &mut files) {
        Ok(blocks) => print(alloc, blocks.as_slice()),
        Err(IrFault::Text(TextFault { line, column })) => { format!(in alloc; "{line} {column}") }
        Err(fault) => format!(in alloc; "{fault}"),
    }
}

#[test]
fn files_that_give_no_text(rt: HostRuntime) -> Result<(), Fail> {
    let rows: [(Option<&[u8]>, &[u64], &str); 4] = [
        (None, &[], "no file has this name"),
        (None, &[1], "the file can't be read"),
        (Some(b"ir 1\n"), &[1], "the file can't be read"),
        (Some(b"ir 1\n"), &[2], "ir 1\n"),
    ];
    for (file, failing, line) in rows {
        let text = told(rt.alloc(), file, failing)?;
        assert_eq!(rt; text.as_str(), line);
    }
    Ok(())
}

#[test]
fn blocks_are_read(rt: HostRuntime) -> Result<(), Fail> {
    let rows = [
        "ir 1\n",
        "ir 1\nblock 0x401000 bf07000000e9f60e0000\nconst.32 t1 0x7\nput.32 rdi t1\ntick\ngo 0x401f00\nend\nblock 0x40101b -\nbad code\nend\n",
    ];
    for row in rows {
        let text = told(rt.alloc(), Some(row.as_bytes()), &[])?;
        assert_eq!(rt; text.as_str(), row);
    }
    Ok(())
}

// Lines and columns are those of an independent model in Python.
#[test]
fn texts_that_are_wrong(rt: HostRuntime) -> Result<(), Fail> {
    let rows: [(&[u8], &str); 14] = [
        (b"", "1 1"),
        (b"ir 2\n", "1 4"),
        // The earlier place comes first.
        (b"ir 1\n\xff", "2 1"),
        (b"ir 2\n\xff", "1 4"),
        // A width that was not written.
        (
            b"ir 1\nblock 0x401000 -\nconst.32 t1 0x7\nput.64 rdi t1\ntick\ngo 0x401f00\nend\n",
            "4 1",
        ),
        // The grammar comes first, to its end.
        (
            b"ir 1\nblock 0x401000 -\nconst.32 t1 0x7\nput.64 rdi t1\ntick\ngo 0x401f00\nend",
            "7 4",
        ),
        (
            b"ir 1\nblock 0x401000 -\nconst.32 t1 0x7\nput.64 rdi t1\ntick\ngo 0x401f00\nend\n\x80",
            "8 1",
        ),
        // The first block that is wrong, and its first line.
        (
            b"ir 1\nblock 0x401000 -\nput.64 rdi t1\ntick\nput.64 rdi t1\nbad code\nend\nblock 0x40101b -\nput.8 rdi t1\nbad code\nend\n",
            "3 1",
        ),
        (
            b"ir 1\nblock 0x40101b -\nbad code\nend\nblock 0x401000 -\nfence\nget.h t1 r8\nput.64 rax t5\nbad code\nend\n",
            "7 1",
        ),
        (
            b"ir 1\nblock 0x401000 -\nbad code\nend\nblock 0x401000 -\ntick\nconst.8 t1 0x1\ncalc.rol.8 t1 t1 t1\nbad code\nend\n",
            "8 1",
        ),
        (
            b"ir 1\nblock 0x401000 -\nconst.8 t1 0x1\nflag cf inc.8 t1\nbad code\nend\n",
            "4 1",
        ),
        // Ends of parts.
        (
            b"ir 1\nblock 0x401000 -\ngo 0x401f00\ngo 0x401f00\nend\n",
            "3 1",
        ),
        (
            b"ir 1\nblock 0x401000 -\nconst.8 t1 0x1\ndivide.u.8 t1\nbad code\nend\n",
            "4 1",
        ),
        (
            b"ir 1\nblock 0x401000 -\ntick\nconst.32 t1 0x1\ngo t1\nend\n",
            "5 1",
        ),
    ];
    for (bytes, want) in rows {
        let text = told(rt.alloc(), Some(bytes), &[])?;
        assert_eq!(rt; text.as_str(), want);
    }
    Ok(())
}
