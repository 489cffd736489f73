//! The thin layer over the operating system's streams and files.
ghost use Rattle.std.specs.Prelude.{◌≡◌, ◌≤◌, None, IfOk, vec_len};
ghost use Rattle.mx_outside.specs.Real.{source_reader, source_faults, sink_writer, sink_faults, files_read_faults, files_write_faults};

use crate::fault::{Failed, FilesFault};
use crate::files::Files;
use crate::sink::{Sink, write_all};
use crate::source::{Source, read_all};
use std::alloc::Global;
use std::fs;
use std::io::{ErrorKind, Read, Write};

/// A source over a reader, which counts its errors.
#[derive(Drop)]
pub struct RealSource<R> {
    reader: R,
    faults: u64,
}

impl<R: Read> RealSource<R> {
    /// A source of what the reader gives.
    pub fn make(reader: R) -> RealSource<R>
        ensures reader { source_reader result ≡ reader }
        ensures faults { source_faults result ≡ 0 }
    {
        RealSource { reader, faults: 0 }
    }

    /// How many reads failed.
    pub fn fault_count(&self) -> u64
        ensures { result ≡ source_faults self.now }
    {
        self.faults
    }
}

impl<R: Read> Source for RealSource<R> {
    ghost left = { λ s. R.remaining (source_reader s) };

    ghost faults = { source_faults };

    fn read(&mut self, buf: &mut [u8]) -> Result<usize, Failed> {
        match self.reader.read(buf) {
            Ok(count) => Ok(count),
            Err(_) => {
                self.faults = self.faults.saturating_add(1);
                Err(Failed)
            }
        }
    }
}

/// A sink over a writer, which counts its errors, and as an error that a piece was not taken at all.
#[derive(Drop)]
pub struct RealSink<W> {
    writer: W,
    faults: u64,
}

impl<W: Write> RealSink<W> {
    /// A sink into the writer.
    pub fn make(writer: W) -> RealSink<W>
        ensures writer { sink_writer result ≡ writer }
        ensures faults { sink_faults result ≡ 0 }
    {
        RealSink { writer, faults: 0 }
    }

    /// How many writes failed.
    pub fn fault_count(&self) -> u64
        ensures { result ≡ sink_faults self.now }
    {
        self.faults
    }
}

impl<W: Write> Sink for RealSink<W> {
    ghost held = { λ s. W.contents (sink_writer s) };

    ghost faults = { sink_faults };

    fn write(&mut self, piece: &[u8]) -> Result<usize, Failed> {
        match self.writer.write(piece) {
            Ok(count) if count > 0 || piece.is_empty() => Ok(count),
            _ => {
                self.faults = self.faults.saturating_add(1);
                Err(Failed)
            }
        }
    }
}

/// The files of the operating system, by their paths. It tells no names, and counts each error but
/// one: a file that the system calls not found when it is read.
#[derive(Drop)]
pub struct RealFiles<F> {
    system: F,
    read_faults: u64,
    write_faults: u64,
}

impl<F: fs::Files> RealFiles<F> {
    /// The files of `system`.
    pub fn make(system: F) -> RealFiles<F>
        ensures read_faults { files_read_faults result ≡ 0 }
        ensures write_faults { files_write_faults result ≡ 0 }
    {
        RealFiles {
            system,
            read_faults: 0,
            write_faults: 0,
        }
    }

    /// How many reads failed.
    pub fn read_fault_count(&self) -> u64
        ensures { result ≡ files_read_faults self.now }
    {
        self.read_faults
    }

    /// How many writes failed.
    pub fn write_fault_count(&self) -> u64
        ensures { result ≡ files_write_faults self.now }
    {
        self.write_faults
    }

    /// Replaces the whole file by these bytes.
    fn try_write(&self, name: &str, bytes: &[u8]) -> Result<(), Failed> {
        match fs::create(&self.system, name) {
            Ok(file) => write_all(&mut RealSink::make(file), bytes),
            Err(_) => Err(Failed),
        }
    }

    /// The bytes of the file, at most `max`.
    fn try_read(&self, alloc: Global, name: &str, max: u64) -> Result<Vec<u8>, FilesFault>
        ensures { IfOk result (λ v. vec_len v ≤ max) }
    {
        match fs::open(&self.system, name) {
            Ok(file) => read_all(alloc, &mut RealSource::make(file), max),
            Err(e) if e.kind() == ErrorKind::NotFound => Err(FilesFault::Absent),
            Err(_) => Err(FilesFault::Failed),
        }
    }
}

impl<F: fs::Files> Files for RealFiles<F> {
    ghost names = { λ _. None };

    ghost read_faults = { files_read_faults };

    ghost write_faults = { files_write_faults };

    fn read(&mut self, alloc: Global, name: &str, max: u64) -> Result<Vec<u8>, FilesFault> {
        let answer = self.try_read(alloc, name, max);
        if let Err(FilesFault::Failed) = answer {
            self.read_faults = self.read_faults.saturating_add(1);
        }
        answer
    }

    fn write(&mut self, name: &str, bytes: &[u8]) -> Result<(), Failed> {
        let answer = self.try_write(name, bytes);
        if answer.is_err() {
            self.write_faults = self.write_faults.saturating_add(1);
        }
        answer
    }
}
