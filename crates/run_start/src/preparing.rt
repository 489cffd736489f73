//! The case of a run.

ghost use Rattle.std.specs.Prelude.{◌≡◌, ◌≤◌, ℕ, List, false, true, length, map, string_bytes, IfErr, IfOk, OnOk};
ghost use Rattle.std.specs.Io.KnownBytes.{IsAtEnd};
ghost use Rattle.std.specs.List.Sorted.{IsStrictlySortedBy};
ghost use Rattle.std.specs.Ordering.{nat_cmp};
ghost use Rattle.guest_map.specs.Layout.{start_of};
ghost use Rattle.machine_laws.specs.Cases.{IsInput, reads_input};
ghost use Rattle.run_start.specs.Case.{IsCaseOf};
ghost use Rattle.run_start.specs.First.{AreCodePlaces};
ghost use Rattle.run_start.specs.Refusal.{HasFile, Refuses, RefusesInput};

use crate::fault::StartFault;
use crate::places::first_places;
use crate::program::{Program, read_program, read_program_file};
use elf_image::{Function, Image};
use guest_map::Start;
use machine_model::case::Case;
use mx_outside::{Files, FilesFault, Source, read_all};
use std::alloc::{AllocError, Global};
use std::sync::Arc;
use words_line::Text;

/// The greatest size of an input, in bytes.
const INPUT_LIMIT: u64 = 16_777_216;

// Whether the image has a place of `read`.
fn reads_input(image: &Image) -> bool
    ensures { result ≡ reads_input image.now }
{
    image.entries.iter().any(|p| p.function == Function::Read)
}

// The input, to its end.
fn read_whole<I: Source>(alloc: Global, input: &mut I) -> Result<Vec<u8>, StartFault>
    ensures input { IfOk result (λ bytes. IsInput true (I.left input.old) bytes.items) }
    ensures refusal { IfErr result (RefusesInput (I.left input.old) (I.faults input.old) (I.faults input.new)) }
    ensures counted { OnOk result (I.faults input.new ≡ I.faults input.old) }
    ensures end { OnOk result (IsAtEnd (I.left input.new)) }
{
    match read_all(alloc, input, INPUT_LIMIT) {
        Ok(bytes) => Ok(bytes),
        Err(FilesFault::TooLong) => Err(StartFault::TooLong),
        Err(FilesFault::Memory(e)) => Err(StartFault::Memory(e)),
        Err(FilesFault::Failed | FilesFault::Absent) => Err(StartFault::ReadFault),
    }
}

/// The input of a program with this image: read to its end where the image has a place of `read`, else none, and nothing is read.
///
/// # Errors
///
/// `ReadFault` where the input's count of faults rose, `TooLong` where more than 16,777,216 bytes are left, `Memory` where memory
/// is wanting, in place of any other; each only where the image has a place of `read`.
pub fn read_input<I: Source>(
    alloc: Global,
    image: &Image,
    input: &mut I,
) -> Result<Vec<u8>, StartFault>
    ensures input { IfOk result (λ bytes. IsInput (reads_input image.now) (I.left input.old) bytes.items) }
    ensures refusal { IfErr result (λ fault. (reads_input image.now ≡ true) × RefusesInput (I.left input.old) (I.faults input.old) (I.faults input.new) fault) }
    ensures counted { OnOk result (I.faults input.new ≡ I.faults input.old) }
    ensures end { OnOk result (reads_input image.now ≡ true → IsAtEnd (I.left input.new)) }
    ensures unread { reads_input image.now ≡ false → input.new ≡ input.old }
{
    if reads_input(image) {
        return read_whole(alloc, input);
    }
    Ok(Vec::new(alloc))
}

/// The case of a run, and its first memory.
#[derive(Drop)]
pub struct Prepared {
    /// All that the run depends on but the order of its steps.
    pub case: Case,
    /// The memory and the stack pointer of thread 0 before the first step.
    pub start: Start,
}

// The case of a program with its arguments, its input, its first places and its limit.
fn case_of(
    alloc: Global,
    program: Program,
    args: Vec<String>,
    input: Vec<u8>,
    first: Vec<u64>,
    limit: u64,
    strict: bool,
) -> Result<Prepared, AllocError>
    ensures case { IfOk result (λ p. p.case ≡ record { image = program.image; args = map string_bytes args.items; input = input.items; limit = limit; strict = strict; first = first.items }) }
    ensures start { IfOk result (λ p. p.start ≡ program.start) }
{
    let Program { image, start } = program;
    let image = Arc::new(alloc, image)?;
    Ok(Prepared {
        case: Case {
            image,
            args,
            input,
            limit,
            strict,
            first,
        },
        start,
    })
}

/// Reads the program file `prog`, the text of blocks `ir`, where one is named, and the input to its end where the image has a
/// place of `read`, and gives the case of a run with these arguments (the program's own word first), at most `limit` steps,
/// which a miss ends where it is `strict`.
///
/// # Errors
///
/// In this order: those of [`read_program_file`]; of [`read_program`]; of [`first_places`]; of [`read_input`]. `Memory` where
/// memory is wanting, in place of any other.
#[tactic(auto, using(crate::proofs::Reading::file_refuses, crate::proofs::Reading::program_refuses, crate::proofs::Reading::places_refuse, crate::proofs::Reading::input_refuses, crate::proofs::Reading::case_is))]
pub fn prepare<F: Files, I: Source>(
    alloc: Global,
    prog: &str,
    args: Vec<String>,
    ir: &Option<Text>,
    limit: u64,
    strict: bool,
    files: &mut F,
    input: &mut I,
) -> Result<Prepared, StartFault>
    ensures case { IfOk result (λ p. (bytes : List ℕ) × HasFile (F.names files.old) prog.now bytes × IsCaseOf (F.names files.old) ir.now bytes (map string_bytes args.items) (I.left input.old) limit strict p.case) }
    ensures start { IfOk result (λ p. p.start ≡ start_of p.case.image p.case.args) }
    ensures places { IfOk result (λ p. AreCodePlaces p.case.image p.case.first) }
    ensures rising { IfOk result (λ p. IsStrictlySortedBy nat_cmp p.case.first) }
    ensures few { IfOk result (λ p. length p.case.first ≤ 65536) }
    ensures limit { IfOk result (λ p. p.case.limit ≡ limit) }
    ensures refusal { IfErr result (Refuses (F.names files.old) prog.now (map string_bytes args.items) ir.now (I.left input.old) (record { files_before = F.read_faults files.old; files_now = F.read_faults files.new; input_before = I.faults input.old; input_now = I.faults input.new })) }
    ensures counted { OnOk result ((F.read_faults files.new ≡ F.read_faults files.old) × (I.faults input.new ≡ I.faults input.old)) }
    ensures names { F.names files.new ≡ F.names files.old }
    ensures writes { F.write_faults files.new ≡ F.write_faults files.old }
    ensures end { IfOk result (λ p. reads_input p.case.image ≡ true → IsAtEnd (I.left input.new)) }
    ensures unread { IfOk result (λ p. reads_input p.case.image ≡ false → input.new ≡ input.old) }
{
    let bytes = match read_program_file(alloc, prog, files) {
        Ok(bytes) => bytes,
        Err(fault) => return Err(fault),
    };
    let program = match read_program(alloc, &bytes, &args) {
        Ok(program) => program,
        Err(fault) => return Err(fault),
    };
    let first = match first_places(alloc, ir, &program.image, files) {
        Ok(first) => first,
        Err(fault) => return Err(fault),
    };
    let input = match read_input(alloc, &program.image, input) {
        Ok(input) => input,
        Err(fault) => return Err(fault),
    };
    match case_of(alloc, program, args, input, first, limit, strict) {
        Ok(prepared) => Ok(prepared),
        Err(e) => Err(StartFault::Memory(e)),
    }
}
