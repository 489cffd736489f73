//! Memory and the store buffers of 64 threads.

ghost use Rattle.std.specs.Prelude.{◌≡◌, ℕ, ◌+◌, ◌^◌, ◌<◌, ◌≤◌, ◌==◌, [], ◌∷◌, ◌++◌, length, replicate, slice_get, IfOk, OnOk, OnErr, not, if◌then◌else◌};
ghost use Rattle.tso_memory.specs.declared.access.Access.TheVariants.{Load, Store, Locked};
ghost use Rattle.tso_memory.specs.Buffer.{size_of, pending, seen};
ghost use Rattle.tso_memory.specs.Memory.{byte_of, may, first_denied, refusal, number_from, bytes_from};
ghost use Rattle.tso_memory.specs.Piece.{AreApart, AreLow};
ghost use Rattle.tso_memory.specs.Tso.{buffer_of, seen_by, stored, flushed, poked, exchanged, memory_number, start_of};

use crate::access::{Access, Denied};
use crate::buffer::StoreBuffer;
use crate::change::Change;
use crate::found::Found;
use crate::piece::Piece;
use crate::space::{AddressSpace, word};
use crate::write::{PendingWrite, Width};
use std::alloc::{AllocError, Global};
use std::marker::Model;

/// How many threads there are.
const THREADS: usize = 64;

/// The memory of 64 threads, numbered from 0, under x86-TSO (Owens, Sarkar and Sewell, "A Better x86 Memory Model:
/// x86-TSO", 2009, section 2): bytes with rights below address 2^47, and for each thread a buffer of up to 64 stores
/// that aren't in memory yet, the oldest first. Each call answers for any address; where a byte has no place or lacks
/// a right, [`Denied`] has the first such byte's address, and all is as before.
#[derive(Drop)]
pub struct Tso {
    space: AddressSpace,
    buffers: Vec<StoreBuffer>,
}

impl Model for Tso {
    ghost use Rattle.std.specs.Prelude.{◌≡◌, List, length, refl};
    ghost use Rattle.std.specs.Coded.{code_by, coded×, coded_list};
    ghost use Rattle.tso_memory.specs.declared.write.PendingWrite.{PendingWrite};
    ghost use Rattle.tso_memory.specs.contracts.write.PendingWrite as write;
    ghost use Rattle.tso_memory.specs.Memory.{Memory, coded_memory};
    ghost use Rattle.tso_memory.specs.Tso.{TsoState};

    ghost Value = { TsoState };

    ghost coded = { code_by (Memory × List (List PendingWrite)) (coded× coded_memory (coded_list (coded_list write.the_row.coded)))
        (λ s. (s.memory, s.buffers)) (λ p. record { memory = p.0; buffers = p.1 }) (λ _. refl) };

    ghost view = { λ s. record { memory = s.space; buffers = s.buffers.items } };

    ghost invariant = { λ s. length s.buffers.items ≡ 64 };
}

/// The number from an address on as the owner of a buffer sees it.
fn number_seen(space: &AddressSpace, buffer: &StoreBuffer, a: u64, width: Width) -> u64
    requires { a + size_of width ≤ 2 ^ 64 }
    ensures number { result ≡ number_from (λ x. seen buffer.now x (byte_of space.now x)) (size_of width) a }
    ensures fits { result < 256 ^ size_of width }
{
    let size = width.size();
    let mut bytes = space.bytes(a, size);
    for k in 0..size {
        bytes[k] = buffer.seen(a + k as u64, bytes[k]);
    }
    word(&bytes, width)
}

/// A buffer for each thread.
fn empty_buffers(alloc: Global) -> Result<Vec<StoreBuffer>, AllocError>
    ensures { IfOk result (λ buffers. buffers.items ≡ replicate 64 []) }
{
    let mut buffers = Vec::with_capacity(alloc, THREADS)?;
    for _ in 0..THREADS {
        buffers.push(StoreBuffer::make(alloc)?)?;
    }
    Ok(buffers)
}

impl Tso {
    /// The memory of these pieces, in any order, with empty buffers. Pieces may touch, and an access may go over
    /// their seam. No two may share an address, and none may pass 2^47. The only call that takes memory.
    pub fn make(alloc: Global, pieces: Vec<Piece>) -> Result<Tso, AllocError>
        requires apart { AreApart pieces.items }
        requires low { AreLow pieces.items }
        ensures { IfOk result (λ s. s ≡ start_of pieces.items) }
    {
        let space = AddressSpace::from_pieces(alloc, pieces)?;
        let buffers = empty_buffers(alloc)?;
        Ok(Tso { space, buffers })
    }

    /// Loads a number of `width` from address `a` on as thread `t` sees it: each byte by the thread's own last store
    /// that covers it, else from memory. Needs R on each byte.
    pub fn load(&self, t: u32, a: u64, width: Width) -> Result<u64, Denied>
        requires { t < 64 }
        ensures value { IfOk result (λ v. v ≡ number_from (seen_by self.now t) (size_of width) a) }
        ensures fits { IfOk result (λ v. v < 256 ^ size_of width) }
        ensures rights { refusal result ≡ first_denied (may self.now.memory Load) a (size_of width) }
    {
        let buffer = &self.buffers[t as usize];
        match buffer.find(a, width) {
            Found::Nothing => self.space.read(a, width),
            Found::Number(number) => {
                self.space.check(a, width.size() as u64, Access::Load)?;
                Ok(number)
            }
            Found::Several => {
                self.space.check(a, width.size() as u64, Access::Load)?;
                Ok(number_seen(&self.space, buffer, a, width))
            }
        }
    }

    /// Stores the lowest bytes of `value` from address `a` on for thread `t`: the store joins the thread's buffer, and
    /// memory stays as it was. Needs W on each byte, and fewer than 64 waiting stores of the thread.
    pub fn store(&mut self, t: u32, a: u64, width: Width, value: u64) -> Result<(), Denied>
        requires thread { t < 64 }
        requires room { length (buffer_of self.old t) < 64 }
        ensures rights { refusal result ≡ first_denied (may self.old.memory Store) a (size_of width) }
        ensures stored { OnOk result (self.new ≡ stored self.old t (pending a width value)) }
        ensures refused { OnErr result (self.new ≡ self.old) }
    {
        self.space.check(a, width.size() as u64, Access::Store)?;
        let write = PendingWrite {
            at: a,
            width,
            value,
        };
        self.buffers[t as usize].push(write);
        Ok(())
    }

    /// Moves the oldest waiting store of thread `t` to memory; `false` where none waits.
    pub fn flush(&mut self, t: u32) -> bool
        requires { t < 64 }
        ensures moved { result ≡ not (length (buffer_of self.old t) == 0) }
        ensures state { self.new ≡ flushed self.old t (buffer_of self.old t) }
    {
        let Some(write) = self.buffers[t as usize].pop() else {
            return false;
        };
        let bytes = write.value.to_le_bytes();
        self.space.put(write.at, &bytes[..write.width.size()]);
        true
    }

    /// Whether no store of thread `t` waits.
    pub fn is_empty(&self, t: u32) -> bool
        requires { t < 64 }
        ensures empty { result ≡ (length (buffer_of self.now t) == 0) }
        ensures threads { length self.now.buffers ≡ 64 }
    {
        self.buffers[t as usize].is_empty()
    }

    /// How many stores of thread `t` wait: 0 to 64.
    pub fn waiting(&self, t: u32) -> u32
        requires { t < 64 }
        ensures count { result ≡ length (buffer_of self.now t) }
        ensures room { result ≤ 64 }
        ensures threads { length self.now.buffers ≡ 64 }
    {
        self.buffers[t as usize].len() as u32
    }

    /// The waiting store of thread `t` that stands at place `i`, the oldest at 0; `None` where no more than `i` wait.
    pub fn waiting_write(&self, t: u32, i: u32) -> Option<PendingWrite>
        requires { t < 64 }
        ensures { result ≡ slice_get (buffer_of self.now t) i }
    {
        self.buffers[t as usize].get(i as usize)
    }

    /// Reads the number of `width` from address `a` on in memory itself, and writes what `change` makes of it, in one
    /// step; answers the number read. Needs R and W on each byte. No buffer is read or written.
    pub fn exchange_locked(
        &mut self,
        t: u32,
        a: u64,
        width: Width,
        change: Change,
    ) -> Result<u64, Denied>
        requires { t < 64 }
        ensures value { IfOk result (λ v. v ≡ memory_number self.old (size_of width) a) }
        ensures fits { IfOk result (λ v. v < 256 ^ size_of width) }
        ensures rights { refusal result ≡ first_denied (may self.old.memory Locked) a (size_of width) }
        ensures exchanged { OnOk result (self.new ≡ exchanged self.old (size_of width) a change) }
        ensures refused { OnErr result (self.new ≡ self.old) }
    {
        self.space.check(a, width.size() as u64, Access::Locked)?;
        let old = self.space.number(a, width);
        let bytes = change.apply(width, old).to_le_bytes();
        self.space.put(a, &bytes[..width.size()]);
        Ok(old)
    }

    /// Whether each of `n` bytes from address `a` on has W where `write`, else R.
    pub fn check(&self, a: u64, n: u64, write: bool) -> Result<(), Denied>
        ensures { refusal result ≡ first_denied (may self.now.memory (if write then Store else Load)) a n }
    {
        let access = if write { Access::Store } else { Access::Load };
        self.space.check(a, n, access)
    }

    /// The byte at address `a` in memory itself. Needs R.
    pub fn peek(&self, a: u64) -> Result<u8, Denied>
        ensures value { IfOk result (λ b. b ≡ byte_of self.now.memory a) }
        ensures rights { refusal result ≡ first_denied (may self.now.memory Load) a 1 }
    {
        self.space.check(a, 1, Access::Load)?;
        Ok(self.space.byte(a))
    }

    /// The number of `width` from address `a` on in memory itself. Needs R on each byte.
    pub fn peek_number(&self, a: u64, width: Width) -> Result<u64, Denied>
        ensures value { IfOk result (λ v. v ≡ memory_number self.now (size_of width) a) }
        ensures rights { refusal result ≡ first_denied (may self.now.memory Load) a (size_of width) }
    {
        self.space.read(a, width)
    }

    /// Copies the bytes from address `a` on out of memory itself: all of them, or none. Needs R on each.
    pub fn peek_all(&self, a: u64, to: &mut [u8]) -> Result<(), Denied>
        ensures rights { refusal result ≡ first_denied (may self.now.memory Load) a (length to.old) }
        ensures copied { OnOk result (to.new ≡ bytes_from self.now.memory a (length to.old)) }
        ensures refused { OnErr result (to.new ≡ to.old) }
    {
        self.space.check(a, to.len() as u64, Access::Load)?;
        self.space.copy(a, to);
        Ok(())
    }

    /// Writes bytes from address `a` on into memory itself: all of them, or none. Needs W on each.
    pub fn poke(&mut self, a: u64, bytes: &[u8]) -> Result<(), Denied>
        ensures rights { refusal result ≡ first_denied (may self.old.memory Store) a (length bytes.now) }
        ensures poked { OnOk result (self.new ≡ poked self.old a bytes.now) }
        ensures refused { OnErr result (self.new ≡ self.old) }
    {
        self.space.check(a, bytes.len() as u64, Access::Store)?;
        self.space.put(a, bytes);
        Ok(())
    }
}
