ghost use Rattle.std.specs.Prelude.{◌≡◌, ◌+◌, ◌<◌, ◌≤◌, IfOk, OnOk, OnErr, option_map};
ghost use Rattle.std.specs.FinMap as map;
ghost use Rattle.cfg_book.specs.Outcome.{Outcome};

use std::alloc::{AllocError, Global};
use std::collections::HashMap;
use std::marker::Model;
use std::sync::Arc;
use thiserror::Error;

/// The most blocks that a book holds.
pub const MAX_BLOCKS: usize = 65_536;

/// Blocks by the places at which they begin, each grown once.
#[derive(Drop)]
pub struct Book<B> {
    blocks: HashMap<u64, Arc<B>>,
}

impl<B> Model for Book<B> {
    ghost use Rattle.std.specs.Prelude.{map, ◌≤◌};
    ghost use Rattle.std.specs.FinMap.{from_entries};
    ghost use Rattle.std.specs.HashMap.{hash_map_len, spare};
    ghost use Rattle.cfg_book.specs.declared.book.TheConstants.{MAX_BLOCKS};
    ghost use Rattle.cfg_book.specs.Graph.{Graph, graph_code};

    ghost Value = { Graph B };

    ghost coded = { graph_code B.code };

    ghost view = { λ a. record { blocks = from_entries (map (λ e. (e.0, e.1.value)) a.blocks.entries); room = spare a.blocks } };

    ghost invariant = { λ a. hash_map_len a.blocks ≤ MAX_BLOCKS };
}

/// Why a block was not grown.
#[derive(Debug, Drop, Error)]
pub enum GrowFault<B> {
    /// A block is grown at the place already; this is the block that was handed in.
    #[error("a block is grown there already")]
    Grown(Arc<B>),
    /// The book holds `MAX_BLOCKS` blocks.
    #[error("the graph is full")]
    Full,
}

impl<B> Book<B> {
    /// A book with no blocks.
    pub fn make(alloc: Global) -> Result<Book<B>, AllocError>
        ensures { IfOk result (λ book. book.blocks ≡ map.empty) }
    {
        Ok(Book {
            blocks: HashMap::with_capacity(alloc, 64)?,
        })
    }

    /// The block grown at the place. `None` exactly where none is.
    pub fn find(&self, a: u64) -> Option<&Arc<B>>
        ensures { option_map (λ b. b.now.value) result ≡ map.get self.now.blocks a }
    {
        self.blocks.get(&a)
    }

    /// How many blocks are grown.
    pub fn count(&self) -> u32
        ensures count { result ≡ map.len self.now.blocks }
        ensures limit { result ≤ MAX_BLOCKS }
    {
        self.blocks.len() as u32
    }

    /// Makes room for one block more, which takes memory where there is none. The blocks stay, also where no memory is
    /// left.
    pub fn reserve_one(&mut self) -> Result<(), AllocError>
        ensures blocks { self.new.blocks ≡ self.old.blocks }
        ensures room { OnOk result (0 < self.new.room) }
        ensures kept { self.old.room ≤ self.new.room }
    {
        self.blocks.reserve(1)
    }
}

impl<B: Drop> Book<B> {
    /// Grows a block at a place, and takes no memory.
    ///
    /// # Errors
    ///
    /// `Grown` exactly where a block is grown at the place, with the block handed in; else `Full` exactly where
    /// `MAX_BLOCKS` blocks are grown. Nothing changes then.
    pub fn grow(&mut self, a: u64, b: Arc<B>) -> Result<(), GrowFault<B>>
        requires { 0 < self.old.room }
        ensures ok { OnOk result (self.new.blocks ≡ map.insert self.old.blocks a b.value) }
        ensures outcome { Outcome (map.get self.old.blocks a) (map.len self.old.blocks) b result }
        ensures err { OnErr result (self.new ≡ self.old) }
        // It uses up at most one block's room.
        ensures room { self.old.room ≤ self.new.room + 1 }
    {
        if self.blocks.contains_key(&a) {
            return Err(GrowFault::Grown(b));
        }
        if self.blocks.len() >= MAX_BLOCKS {
            return Err(GrowFault::Full);
        }
        let grown: Result<_, _> = self.blocks.insert(a, b);
        let _ = grown.unwrap();
        Ok(())
    }
}
