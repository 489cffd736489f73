ghost use Rattle.std.specs.Prelude.{◌≡◌, false, OnOk, OnErr};
ghost use Rattle.std.specs.FinMap.{get, insert};
ghost use Rattle.mx_outside.specs.Names.{names_of, ReadsHeld};
ghost use Rattle.mx_outside.specs.Memory.{is_failed};

use crate::fault::FilesFault;
use std::alloc::{AllocError, Global};
use std::collections::BTreeMap;

/// A copy of the bytes of the file `name`, at most `max`.
pub fn copy_of(
    alloc: Global,
    files: &BTreeMap<String, Vec<u8>>,
    name: &str,
    max: u64,
) -> Result<Vec<u8>, FilesFault>
    ensures found { ReadsHeld (get (names_of files.now) name.now) max result }
    ensures unfailed { is_failed result ≡ false }
{
    let Some(bytes) = files.get(name) else {
        return Err(FilesFault::Absent);
    };
    if bytes.len() as u64 > max {
        return Err(FilesFault::TooLong);
    }
    Vec::from_slice(alloc, bytes.as_slice()).map_err(FilesFault::Memory)
}

/// Replaces the bytes of the file `name`, or makes it.
pub fn replace(
    alloc: Global,
    files: &mut BTreeMap<String, Vec<u8>>,
    name: &str,
    bytes: &[u8],
) -> Result<(), AllocError>
    ensures ok { OnOk result (names_of files.new ≡ insert (names_of files.old) name.now bytes.now) }
    ensures err { OnErr result (names_of files.new ≡ names_of files.old) }
{
    let key = String::from_str(alloc, name)?;
    let copy = Vec::from_slice(alloc, bytes)?;
    files.insert(key, copy)?;
    Ok(())
}
