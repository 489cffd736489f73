//! Memory itself: the pieces, without the store buffers.

ghost use Rattle.std.specs.Prelude.{◌≡◌, ℕ, ◌+◌, ◌*◌, ◌^◌, ◌<◌, ◌≤◌, List, true, length, drop, slice_index, Some, None, IfOk, OnOk, OnErr, IsTrue};
ghost use Rattle.std.specs.FinMap.{empty, get};
ghost use Rattle.byteorder.specs.Endian.{little_number};
ghost use Rattle.tso_memory.specs.Buffer.{size_of};
ghost use Rattle.tso_memory.specs.declared.access.Access.TheVariants.{Load};
ghost use Rattle.tso_memory.specs.Memory.{Memory, byte_of, may, first_denied, refusal, number_from, bytes_from, put_byte, put_bytes, add_cells, memory_of};
ghost use Rattle.tso_memory.specs.Piece.{AreApart, AreLow, end_of, has};

use crate::access::{Access, Denied};
use crate::piece::{Piece, find, find_run, starting_by};
use crate::write::Width;
use byteorder::{ByteOrder, LittleEndian};
use std::alloc::{AllocError, Global};
use std::marker::Model;

/// The pieces in the order of their addresses. Contracts see the map from addresses to bytes with rights.
#[derive(Drop)]
pub struct AddressSpace {
    pieces: Vec<Piece>,
}

impl Model for AddressSpace {
    ghost use Rattle.tso_memory.specs.Memory.{Memory, coded_memory, memory_of};
    ghost use Rattle.tso_memory.specs.Piece.{IsLaidOut};

    ghost Value = { Memory };

    ghost coded = { coded_memory };

    ghost view = { λ s. memory_of s.pieces.items };

    ghost invariant = { λ s. IsLaidOut s.pieces.items };
}

/// The number in the first bytes, the lowest first.
pub(crate) fn word(bytes: &[u8], width: Width) -> u64
    requires { size_of width ≤ length bytes.now }
    ensures number { result ≡ little_number (size_of width) bytes.now }
    ensures fits { result < 256 ^ size_of width }
{
    match width {
        Width::W8 => bytes[0] as u64,
        Width::W16 => LittleEndian::read_u16(bytes) as u64,
        Width::W32 => LittleEndian::read_u32(bytes) as u64,
        Width::W64 => LittleEndian::read_u64(bytes),
    }
}

/// The number in the bytes from a place on, the lowest first.
pub(crate) fn word_from(bytes: &[u8], place: usize, width: Width) -> u64
    requires { place + size_of width ≤ length bytes.now }
    ensures number { result ≡ little_number (size_of width) (drop place bytes.now) }
    ensures fits { result < 256 ^ size_of width }
{
    word(&bytes[place..], width)
}

impl AddressSpace {
    pub(crate) fn make(alloc: Global) -> AddressSpace
        ensures { result ≡ empty }
    {
        AddressSpace {
            pieces: Vec::new(alloc),
        }
    }

    /// The memory of pieces. They are sorted once, so that each of them comes after all that are there.
    pub(crate) fn from_pieces(
        alloc: Global,
        mut pieces: Vec<Piece>,
    ) -> Result<AddressSpace, AllocError>
        requires apart { AreApart pieces.items }
        requires low { AreLow pieces.items }
        ensures { IfOk result (λ s. s ≡ memory_of pieces.items) }
    {
        pieces.sort_unstable_by_key(|p| u64::MAX - p.at);
        let mut space = AddressSpace::make(alloc);
        while let Some(piece) = pieces.pop() {
            space.add(piece)?;
        }
        Ok(space)
    }

    /// Adds a piece none of whose addresses is there yet.
    pub(crate) fn add(&mut self, piece: Piece) -> Result<(), AllocError>
        requires apart { (x : ℕ) → IsTrue (has piece x) → get self.old x ≡ None }
        requires low { end_of piece ≤ 2 ^ 47 }
        ensures { OnOk result (self.new ≡ add_cells self.old piece.at piece.r piece.w piece.bytes) }
    {
        if piece.bytes.is_empty() {
            return Ok(());
        }
        let place = starting_by(&self.pieces, piece.at);
        self.pieces.insert(place, piece)?;
        Ok(())
    }

    /// Whether each of `n` bytes from an address on may be accessed; else the first that may not.
    pub(crate) fn check(&self, a: u64, n: u64, access: Access) -> Result<(), Denied>
        ensures rights { refusal result ≡ first_denied (may self.now access) a n }
        ensures low { OnOk result (0 < n → a + n ≤ 2 ^ 47) }
    {
        if n == 0 {
            return Ok(());
        }
        let mut x = a;
        let mut left = n;
        loop {
            let Some(i) = find(&self.pieces, x) else {
                return Err(Denied(x));
            };
            let piece = &self.pieces[i];
            if !piece.permits(access) {
                return Err(Denied(x));
            }
            let rest = piece.bytes.len() as u64 - (x - piece.at);
            if left <= rest {
                return Ok(());
            }
            x += rest;
            left -= rest;
        }
    }

    /// The byte at an address, 0 where there is none.
    pub(crate) fn byte(&self, x: u64) -> u8
        ensures { result ≡ byte_of self.now x }
    {
        let Some(i) = find(&self.pieces, x) else {
            return 0;
        };
        let piece = &self.pieces[i];
        piece.bytes[(x - piece.at) as usize]
    }

    /// Bytes from an address on; those past `size` are 0.
    pub(crate) fn bytes(&self, a: u64, size: usize) -> [u8; 8]
        requires within { a + size ≤ 2 ^ 64 }
        requires narrow { size ≤ 8 }
        ensures { (k : ℕ) → k < size → slice_index result k ≡ byte_of self.now (a + k) }
    {
        let mut bytes = [0u8; 8];
        for k in 0..size {
            bytes[k] = self.byte(a + k as u64);
        }
        bytes
    }

    /// The number from an address on, whatever the rights.
    pub(crate) fn number(&self, a: u64, width: Width) -> u64
        requires { a + size_of width ≤ 2 ^ 64 }
        ensures number { result ≡ number_from (byte_of self.now) (size_of width) a }
        ensures fits { result < 256 ^ size_of width }
    {
        let size = width.size();
        if let Some((i, place)) = find_run(&self.pieces, a, size) {
            let piece = &self.pieces[i];
            return word(&piece.bytes[place..], width);
        }
        word(&self.bytes(a, size), width)
    }

    /// The number from an address on, where each of its bytes may be read.
    pub(crate) fn read(&self, a: u64, width: Width) -> Result<u64, Denied>
        ensures value { IfOk result (λ v. v ≡ number_from (byte_of self.now) (size_of width) a) }
        ensures fits { IfOk result (λ v. v < 256 ^ size_of width) }
        ensures rights { refusal result ≡ first_denied (may self.now Load) a (size_of width) }
    {
        let size = width.size();
        if let Some((i, place)) = find_run(&self.pieces, a, size) {
            let piece = &self.pieces[i];
            if piece.r {
                return Ok(word(&piece.bytes[place..], width));
            }
        }
        self.check(a, size as u64, Access::Load)?;
        Ok(self.number(a, width))
    }

    /// Copies the bytes from an address on, whatever the rights.
    pub(crate) fn copy(&self, a: u64, to: &mut [u8])
        requires { a + length to.old ≤ 2 ^ 64 }
        ensures { to.new ≡ bytes_from self.now a (length to.old) }
    {
        match find_run(&self.pieces, a, to.len()) {
            Some((i, place)) => {
                let piece = &self.pieces[i];
                to.copy_from_slice(&piece.bytes[place..place + to.len()]);
            }
            None => self.copy_each(a, to),
        }
    }

    fn copy_each(&self, a: u64, to: &mut [u8])
        requires { a + length to.old ≤ 2 ^ 64 }
        ensures { to.new ≡ bytes_from self.now a (length to.old) }
    {
        for k in 0..to.len() {
            to[k] = self.byte(a + k as u64);
        }
    }

    /// Writes bytes from an address on, whatever the rights. A byte for which there is no place is lost.
    pub(crate) fn put(&mut self, a: u64, bytes: &[u8])
        ensures { self.new ≡ put_bytes self.old a bytes.now }
    {
        match find_run(&self.pieces, a, bytes.len()) {
            Some((i, place)) => self.pieces[i].overwrite(place, bytes),
            None => self.put_each(a, bytes),
        }
    }

    fn put_each(&mut self, a: u64, bytes: &[u8])
        ensures { self.new ≡ put_bytes self.old a bytes.now }
    {
        for k in 0..bytes.len() {
            self.put_byte(a, k as u64, bytes[k]);
        }
    }

    /// Writes a byte `k` past an address.
    fn put_byte(&mut self, a: u64, k: u64, byte: u8)
        ensures { self.new ≡ put_byte self.old (a + k) byte }
    {
        let _ = &self.pieces;
        let Some(x) = a.checked_add(k) else {
            return;
        };
        let Some(i) = find(&self.pieces, x) else {
            return;
        };
        let piece = &self.pieces[i];
        let place = (x - piece.at) as usize;
        self.pieces[i].overwrite(place, &[byte]);
    }
}
