//! The segments that the program headers of a file load.

ghost use Rattle.std.specs.Prelude.{◌≡◌, ◌<◌, ◌^◌, ◌↔◌, ◌&&◌, length, map, filter, sum_by, count_by, IsTrue, IfOk, IfErr, All};
ghost use Rattle.std.specs.List.{list_any, position};
ghost use Rattle.elf_image.specs.Elf.{file_header, program_headers, segment_headers, is_load, is_segment, is_dynamic, is_dynamic_segment, is_interpreter, is_readable, is_writable, is_executable, holds};
ghost use Rattle.elf_image.specs.First.{FaultsAt};
ghost use Rattle.elf_image.specs.Loading.{is_bad_load, is_write_exec, is_unlinkable, segment_of};
ghost use Rattle.elf_image.specs.Sound.{HasHeaders, HasLoads, IsLoadable};

use crate::fault::{ElfFault, LoadFault};
use crate::header::{FileHeader, ProgramHeader, read_program_header};
use crate::linking::Linking;
use crate::overlap::first_overlap;
use crate::range::{part, passes_end};
use crate::segment::Segment;
use std::alloc::{AllocError, Global};

const PT_LOAD: u32 = 1;

const PT_DYNAMIC: u32 = 2;

const PT_INTERP: u32 = 3;

const PF_X: u32 = 1;

const PF_W: u32 = 2;

const PF_R: u32 = 4;

// The first address that a program can't have, and how many bytes its segments may have.
const END_OF_ADDRESSES: u64 = 1 << 47;

const MOST_BYTES: u64 = 64 << 20;

impl ProgramHeader {
    fn is_load(&self) -> bool
        ensures { result ≡ is_load self.now }
    {
        self.kind == PT_LOAD
    }

    pub(crate) fn is_segment(&self) -> bool
        ensures { result ≡ is_segment self.now }
    {
        self.is_load() && self.memsz > 0
    }

    pub(crate) fn is_dynamic_segment(&self) -> bool
        ensures { result ≡ is_dynamic_segment self.now }
    {
        self.kind == PT_DYNAMIC
    }

    fn is_interpreter(&self) -> bool
        ensures { result ≡ is_interpreter self.now }
    {
        self.kind == PT_INTERP
    }

    fn is_readable(&self) -> bool
        ensures { result ≡ is_readable self.now }
    {
        self.flags & PF_R != 0
    }

    fn is_writable(&self) -> bool
        ensures { result ≡ is_writable self.now }
    {
        self.flags & PF_W != 0
    }

    fn is_executable(&self) -> bool
        ensures { result ≡ is_executable self.now }
    {
        self.flags & PF_X != 0
    }

    fn holds(&self, a: u64) -> bool
        ensures { result ≡ holds a self.now }
    {
        self.vaddr <= a && a - self.vaddr < self.memsz
    }

    fn is_bad_load(&self, bytes: &[u8]) -> bool
        ensures { result ≡ is_bad_load bytes.now self.now }
    {
        self.is_load()
            && (self.filesz > self.memsz
                || passes_end(bytes, self.offset, self.filesz)
                || self.memsz > END_OF_ADDRESSES
                || self.vaddr > END_OF_ADDRESSES - self.memsz)
    }
}

// All program headers, in the order of their table.
pub(crate) fn read_program_headers(
    alloc: Global,
    bytes: &[u8],
    file: FileHeader,
) -> Result<Vec<ProgramHeader>, AllocError>
    requires header { file ≡ file_header bytes.now }
    requires whole { HasHeaders bytes.now }
    ensures same { IfOk result (λ v. v.items ≡ program_headers bytes.now) }
    ensures few { IfOk result (λ v. length v.items < 2 ^ 16) }
{
    let mut headers = Vec::with_capacity(alloc, file.phnum as usize)?;
    for n in 0..file.phnum as usize {
        headers.push(read_program_header(bytes, file.phoff as usize + 56 * n))?;
    }
    Ok(headers)
}

// Whether a dynamic segment or an interpreter is there.
fn has_dynamic(headers: &[ProgramHeader]) -> bool
    ensures { result ≡ list_any is_dynamic headers.now }
{
    headers
        .iter()
        .any(|h| h.is_dynamic_segment() || h.is_interpreter())
}

fn has_interpreter(headers: &[ProgramHeader]) -> bool
    ensures { result ≡ list_any is_interpreter headers.now }
{
    headers.iter().any(|h| h.is_interpreter())
}

fn count_dynamic(headers: &[ProgramHeader]) -> usize
    ensures { result ≡ count_by is_dynamic_segment headers.now }
{
    headers.iter().filter(|h| h.is_dynamic_segment()).count()
}

// Whether the file asks for a dynamic linker in a way that isn't read.
fn is_unlinkable(headers: &[ProgramHeader], linking: Linking) -> bool
    ensures { result ≡ is_unlinkable linking headers.now }
{
    match linking {
        Linking::Static => has_dynamic(headers),
        Linking::Dynamic => {
            let count = count_dynamic(headers);
            count > 1 || (count == 0 && has_interpreter(headers))
        }
    }
}

// The first header that can't be loaded.
fn first_bad_load(bytes: &[u8], headers: &[ProgramHeader]) -> Option<usize>
    ensures { result ≡ position (is_bad_load bytes.now) headers.now }
{
    headers.iter().position(|h| h.is_bad_load(bytes))
}

// The first header whose segment can be both written and run.
fn first_write_exec(headers: &[ProgramHeader]) -> Option<usize>
    ensures { result ≡ position is_write_exec headers.now }
{
    headers
        .iter()
        .position(|h| h.is_segment() && h.is_writable() && h.is_executable())
}

// Whether the headers have more bytes in memory than segments may.
fn is_too_large(loads: &[ProgramHeader]) -> bool
    ensures { IsTrue result ↔ (67108864 < sum_by (λ h. h.memsz) loads.now) }
{
    let mut total = 0;
    for h in loads {
        if h.memsz > MOST_BYTES - total {
            return true;
        }
        total += h.memsz;
    }
    false
}

// The headers among them that load a segment.
fn keep_segments(mut headers: Vec<ProgramHeader>) -> Vec<ProgramHeader>
    ensures { result.items ≡ filter is_segment headers.items }
{
    headers.retain(|h| h.is_segment());
    headers
}

// The headers that load a segment, in the order of their table, if each can be loaded and they can
// be loaded together. Else the first fault.
pub(crate) fn segment_headers(
    alloc: Global,
    bytes: &[u8],
    file: FileHeader,
    linking: Linking,
) -> Result<Vec<ProgramHeader>, LoadFault>
    requires header { file ≡ file_header bytes.now }
    requires whole { HasHeaders bytes.now }
    ensures ok { IfOk result (λ v. (v.items ≡ segment_headers bytes.now) × HasLoads linking bytes.now) }
    ensures fault { IfErr result (FaultsAt linking bytes.now) }
{
    let headers = read_program_headers(alloc, bytes, file)?;
    if is_unlinkable(&headers, linking) {
        return Err(LoadFault::Fault(ElfFault::Dynamic));
    }
    if let Some(n) = first_bad_load(bytes, &headers) {
        return Err(LoadFault::Fault(ElfFault::Segment(n as u32)));
    }
    if let Some(n) = first_write_exec(&headers) {
        return Err(LoadFault::Fault(ElfFault::WriteExec(n as u32)));
    }
    if let Some((n, m)) = first_overlap(alloc, &headers)? {
        return Err(LoadFault::Fault(ElfFault::Overlap(n, m)));
    }
    let loads = keep_segments(headers);
    if is_too_large(&loads) {
        return Err(LoadFault::Fault(ElfFault::Size));
    }
    Ok(loads)
}

// The segment that a header loads.
fn load_segment(alloc: Global, bytes: &[u8], h: &ProgramHeader) -> Result<Segment, AllocError>
    requires { IsLoadable bytes.now h.now }
    ensures { IfOk result (λ s. s ≡ segment_of bytes.now h.now) }
{
    let size = h.memsz as usize;
    let mut data = Vec::with_capacity(alloc, size)?;
    data.extend_from_slice(part(bytes, h.offset, h.filesz))?;
    data.resize(size, 0)?;
    Ok(Segment {
        at: h.vaddr,
        size: h.memsz,
        r: h.is_readable(),
        w: h.is_writable(),
        x: h.is_executable(),
        bytes: data,
    })
}

// The segments that the headers load, in their order.
pub(crate) fn load_segments(
    alloc: Global,
    bytes: &[u8],
    loads: &[ProgramHeader],
) -> Result<Vec<Segment>, AllocError>
    requires { All (IsLoadable bytes.now) loads.now }
    ensures { IfOk result (λ v. v.items ≡ map (segment_of bytes.now) loads.now) }
{
    let mut segments = Vec::with_capacity(alloc, loads.len())?;
    for h in loads {
        segments.push(load_segment(alloc, bytes, h)?)?;
    }
    Ok(segments)
}

// Whether the address is in a segment that can be run.
pub(crate) fn can_run(loads: &[ProgramHeader], a: u64) -> bool
    ensures { result ≡ list_any (λ h. is_executable h && holds a h) loads.now }
{
    loads.iter().any(|h| h.is_executable() && h.holds(a))
}
