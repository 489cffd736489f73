//! Pieces of memory, sorted by address.

ghost use Rattle.std.specs.Prelude.{◌≡◌, ℕ, ◌+◌, ◌<◌, ◌≤◌, ◌++◌, true, false, length, take, drop, Some, IfSome, IfNone};
ghost use Rattle.tso_memory.specs.Piece.{IsLaidOut, IsRunAt, has, piece_at, with_bytes};
ghost use Rattle.tso_memory.specs.Memory.{permits};

use crate::access::Access;
use std::marker::Model;

/// A run of bytes from address `at` on, with one set of rights: `r` to read, `w` to write.
#[derive(Debug, Drop)]
pub struct Piece {
    pub at: u64,
    pub r: bool,
    pub w: bool,
    pub bytes: Vec<u8>,
}

impl Model for Piece {
    ghost use Rattle.tso_memory.specs.Piece.{PieceData};

    ghost Value = { PieceData };

    ghost view = { λ p. record { at = p.at; r = p.r; w = p.w; bytes = p.bytes.items } };
}

impl Piece {
    /// Whether a piece's rights suffice.
    pub(crate) fn permits(&self, access: Access) -> bool
        ensures { (b : ℕ) → result ≡ permits access (Some (record { byte = b; r = self.now.r; w = self.now.w })) }
    {
        match access {
            Access::Load => self.r,
            Access::Store => self.w,
            Access::Locked => self.r && self.w,
        }
    }

    /// Writes over the bytes from a place on.
    pub(crate) fn overwrite(&mut self, place: usize, with: &[u8])
        requires { place + length with.now ≤ length self.old.bytes }
        ensures { self.new ≡ with_bytes self.old (take place self.old.bytes ++ (with.now ++ drop (place + length with.now) self.old.bytes)) }
    {
        overwrite(&mut self.bytes, place, with);
    }
}

/// Writes over the bytes from a place on.
fn overwrite(bytes: &mut [u8], place: usize, with: &[u8])
    requires { place + length with.now ≤ length bytes.old }
    ensures after { bytes.new ≡ take place bytes.old ++ (with.now ++ drop (place + length with.now) bytes.old) }
    ensures size { length bytes.new ≡ length bytes.old }
{
    bytes[place..place + with.len()].copy_from_slice(with);
}

/// How many pieces begin at or before an address.
pub(crate) fn starting_by(pieces: &[Piece], x: u64) -> usize
    requires { IsLaidOut pieces.now }
    ensures bound { result ≤ length pieces.now }
    ensures before { (i : ℕ) → i < result → (piece_at pieces.now i).at ≤ x }
    ensures after { (i : ℕ) → result ≤ i → i < length pieces.now → x < (piece_at pieces.now i).at }
{
    let mut low = 0;
    let mut high = pieces.len();
    while low < high {
        let middle = low + (high - low) / 2;
        let piece = &pieces[middle];
        if piece.at <= x {
            low = middle + 1;
        } else {
            high = middle;
        }
    }
    low
}

/// The piece that has an address.
pub(crate) fn find(pieces: &[Piece], x: u64) -> Option<usize>
    requires { IsLaidOut pieces.now }
    ensures found { IfSome result (λ i. (i < length pieces.now) × (has (piece_at pieces.now i) x ≡ true)) }
    ensures absent { IfNone result ((i : ℕ) → i < length pieces.now → has (piece_at pieces.now i) x ≡ false) }
{
    let after = starting_by(pieces, x);
    if after == 0 {
        return None;
    }
    let piece = &pieces[after - 1];
    if x - piece.at < piece.bytes.len() as u64 {
        Some(after - 1)
    } else {
        None
    }
}

/// The piece that has all of `size` bytes from an address on, and the place of the first of them in it.
pub(crate) fn find_run(pieces: &[Piece], a: u64, size: usize) -> Option<(usize, usize)>
    requires { IsLaidOut pieces.now }
    ensures { IfSome result (λ p. IsRunAt pieces.now a size p.0 p.1) }
{
    let i = find(pieces, a)?;
    let piece = &pieces[i];
    let place = (a - piece.at) as usize;
    if size <= piece.bytes.len() - place {
        Some((i, place))
    } else {
        None
    }
}
