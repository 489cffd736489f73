//! An engine that knows which parts it will be handed.

ghost use Rattle.std.specs.Prelude.{◌≡◌};

use guest_state::Virtual;
use ir_meaning::run_part;
use ir_syntax::{Part, Request};
use std::alloc::Global;
use thread_step::Engine;

/// Runs parts as `PlainEngine` does, and compares each with the next of those that it holds.
#[derive(Drop)]
pub struct HeldParts {
    alloc: Global,
    parts: Vec<Part>,
    count: u64,
    as_held: bool,
}

// Whether the part with this number is this one.
fn is_next(parts: &[Part], n: u64, part: &Part) -> bool {
    match parts.get(n as usize) {
        Some(held) => held == part,
        None => false,
    }
}

impl HeldParts {
    /// An engine that has run nothing, and holds these parts.
    pub fn make(alloc: Global, parts: Vec<Part>) -> HeldParts
        ensures { result.count ≡ 0 }
    {
        HeldParts {
            alloc,
            parts,
            count: 0,
            as_held: true,
        }
    }

    pub fn count(&self) -> u64 {
        self.count
    }

    /// Whether each part that was run is the next of those that the engine holds.
    pub fn as_held(&self) -> bool {
        self.as_held
    }
}

impl Engine for HeldParts {
    ghost count = { λ e. e.count };

    fn run(&mut self, part: &Part, state: &mut Virtual) -> Request {
        self.as_held = self.as_held && is_next(&self.parts, self.count, part);
        if self.count < u64::MAX {
            self.count += 1;
        }
        run_part(part, state)
    }

    fn split(&self) -> HeldParts {
        HeldParts::make(self.alloc, Vec::new(self.alloc))
    }

    fn merge(&mut self, other: HeldParts) {
        self.count = self.count.saturating_add(other.count);
    }
}
