ghost use Rattle.std.specs.Prelude.{◌≡◌, ◌<◌, ◌↔◌, Some, length, remove, slice_get, IsTrue};

use crate::line::{Op, PartEnd};
use std::marker::Model;

/// A list in a `Vec`, which contracts see as the list of its items.
#[derive(Debug, Drop)]
pub struct Seq<T> {
    items: Vec<T>,
}

impl<T> Model for Seq<T> {
    ghost use Rattle.std.specs.Prelude.{List};
    ghost use Rattle.std.specs.Coded.{coded_list};

    ghost Value = { List T };

    ghost coded = { coded_list T.code };

    ghost view = { λ s. s.items.items };
}

impl<T> Seq<T> {
    /// The items of the `Vec`. Takes no memory: the list is the `Vec`.
    pub fn from_vec(items: Vec<T>) -> Seq<T>
        ensures { result ≡ items.items }
    {
        Seq { items }
    }

    /// The `Vec` with the items. Takes no memory.
    pub fn into_vec(self) -> Vec<T>
        ensures { result.items ≡ self }
    {
        let Seq { items } = self;
        items
    }

    /// The items, to go over.
    pub fn as_slice(&self) -> &[T]
        ensures { result.now ≡ self.now }
    {
        self.items.as_slice()
    }
}

impl<T: Drop> Seq<T> {
    /// Takes out the item at an index; those behind it move up. Takes no memory.
    pub fn remove(&mut self, at: usize) -> T
        requires { at < length self.old }
        ensures item { slice_get self.old at ≡ Some result }
        ensures rest { self.new ≡ remove self.old at }
    {
        self.items.remove(at)
    }
}

impl<T: PartialEq> PartialEq for Seq<T> {
    ghost use Rattle.std.specs.Cmp.Lexicographic.{pointwise, lists_per};

    ghost eq = { pointwise T.eq };

    ghost laws = { lists_per T.laws };

    fn eq(&self, other: &Self) -> bool {
        self.as_slice() == other.as_slice()
    }
}

/// A part of a block: lines that compute, and then one line that asks for something.
#[derive(Debug, PartialEq, Drop)]
pub struct Part {
    pub ops: Seq<Op>,
    pub end: PartEnd,
}

/// The lifted code of a stretch of instructions: the address, the bytes, and the parts.
#[derive(Debug, PartialEq, Drop)]
pub struct Block {
    pub at: u64,
    pub code: Seq<u8>,
    pub parts: Seq<Part>,
}

impl Block {
    /// Whether the other block has the same address, bytes and lines.
    pub fn is_same(&self, other: &Block) -> bool
        ensures { IsTrue result ↔ (self.now ≡ other.now) }
    {
        self == other
    }
}
