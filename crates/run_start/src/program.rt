//! From a program's file to a program in memory.

ghost use Rattle.std.specs.Prelude.{◌≡◌, ◌≤◌, ℕ, List, length, map, string_bytes, IfErr, IfOk, OnOk};
ghost use Rattle.guest_map.specs.Layout.{start_of};
ghost use Rattle.run_start.specs.Program.{IsProgram, IsRead};
ghost use Rattle.run_start.specs.Refusal.{IsFile, RefusesFile, RefusesImage, RefusesProgram, file_limit};

use crate::fault::StartFault;
use dyn_link::{LinkFault, bind};
use elf_image::{Image, LoadFault, load_dynamic};
use guest_map::{LayFault, Start, lay_out};
use mx_outside::{Files, FilesFault};
use std::alloc::Global;

/// The greatest size of a program file, in bytes.
const FILE_LIMIT: u64 = 67_108_864;

/// The bytes of the program file `prog`.
///
/// # Errors
///
/// `ReadFault`, only where the count of the files' faults rose; `Absent` where no file has the name; `TooLong` where it has more
/// than 67,108,864 bytes. `Memory` where memory is wanting, in place of any other.
pub fn read_program_file<F: Files>(
    alloc: Global,
    prog: &str,
    files: &mut F,
) -> Result<Vec<u8>, StartFault>
    ensures file { IfOk result (λ bytes. IsFile (F.names files.old) prog.now bytes.items) }
    ensures within { IfOk result (λ bytes. length bytes.items ≤ file_limit) }
    ensures refusal { IfErr result (RefusesFile (F.names files.old) prog.now (F.read_faults files.old) (F.read_faults files.new)) }
    ensures counted { OnOk result (F.read_faults files.new ≡ F.read_faults files.old) }
    ensures names { F.names files.new ≡ F.names files.old }
    ensures writes { F.write_faults files.new ≡ F.write_faults files.old }
{
    match files.read(alloc, prog, FILE_LIMIT) {
        Ok(bytes) => Ok(bytes),
        Err(FilesFault::Failed) => Err(StartFault::ReadFault),
        Err(FilesFault::Absent) => Err(StartFault::Absent),
        Err(FilesFault::TooLong) => Err(StartFault::TooLong),
        Err(FilesFault::Memory(e)) => Err(StartFault::Memory(e)),
    }
}

/// The image of a program file's bytes, whose names are bound.
///
/// # Errors
///
/// `Image` where the bytes are no image, with the number of the loader's first fault (1 to 12) or of the linker's (15 to 17);
/// `Memory` where memory is wanting.
pub fn read_image(alloc: Global, bytes: &[u8]) -> Result<Image, StartFault>
    ensures program { IfOk result (λ image. IsProgram bytes.now image) }
    ensures refusal { IfErr result (RefusesImage bytes.now) }
{
    let loaded = match load_dynamic(alloc, bytes) {
        Ok(loaded) => loaded,
        Err(LoadFault::Fault(fault)) => return Err(StartFault::Image(fault.number())),
        Err(LoadFault::Memory(e)) => return Err(StartFault::Memory(e)),
    };
    match bind(alloc, bytes, loaded) {
        Ok(image) => Ok(image),
        Err(LinkFault::Table) => Err(StartFault::Image(15)),
        Err(LinkFault::Reloc(_)) => Err(StartFault::Image(16)),
        Err(LinkFault::Unknown(_)) => Err(StartFault::Image(17)),
        Err(LinkFault::Memory(e)) => Err(StartFault::Memory(e)),
    }
}

// The first memory of the image with these arguments.
fn put(alloc: Global, image: &Image, args: &[String]) -> Result<Start, StartFault>
    ensures start { IfOk result (λ s. s ≡ start_of image.now (map string_bytes args.now)) }
    ensures read { (bytes : List ℕ) → IsProgram bytes image.now → IfOk result (λ _. IsRead bytes (map string_bytes args.now) image.now) }
    ensures refusal { (bytes : List ℕ) → IsProgram bytes image.now → IfErr result (RefusesProgram bytes (map string_bytes args.now)) }
{
    match lay_out(alloc, image, args) {
        Ok(start) => Ok(start),
        Err(LayFault::Clash(_)) => Err(StartFault::Image(13)),
        Err(LayFault::ArgsTooLong) => Err(StartFault::Image(14)),
        Err(LayFault::Memory(e)) => Err(StartFault::Memory(e)),
    }
}

/// An image that can be run, and its first memory.
#[derive(Drop)]
pub struct Program {
    /// The image, whose names are bound.
    pub image: Image,
    /// The memory and the stack pointer of thread 0 before the first step.
    pub start: Start,
}

/// The program of a file's bytes, put into memory with these arguments.
///
/// # Errors
///
/// `Image` where the bytes are no image (1 to 12, 15 to 17) or can't be put into memory (13 and 14), `Memory` where memory is
/// wanting.
#[tactic(auto, using(crate::proofs::Reading::image_refuses))]
pub fn read_program(alloc: Global, bytes: &[u8], args: &[String]) -> Result<Program, StartFault>
    ensures read { IfOk result (λ p. IsRead bytes.now (map string_bytes args.now) p.image) }
    ensures start { IfOk result (λ p. p.start ≡ start_of p.image (map string_bytes args.now)) }
    ensures refusal { IfErr result (RefusesProgram bytes.now (map string_bytes args.now)) }
{
    let image = match read_image(alloc, bytes) {
        Ok(image) => image,
        Err(fault) => return Err(fault),
    };
    let start = match put(alloc, &image, args) {
        Ok(start) => start,
        Err(fault) => return Err(fault),
    };
    Ok(Program { image, start })
}
