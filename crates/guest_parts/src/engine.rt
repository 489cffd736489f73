//! What runs parts, and counts them.

ghost use Rattle.std.specs.Prelude.{◌≡◌, ◌+◌, ◌≤◌, ◌==◌, ℕ, if◌then◌else◌};
ghost use Rattle.ir_meaning.specs.Does.{does};
ghost use Rattle.ir_meaning.specs.Ready.{IsReady};
ghost use Rattle.guest_parts.specs.Running.{one_more, sum_of};

use guest_state::Virtual;
use ir_meaning::run_part;
use ir_syntax::{Part, Request};

/// What runs the parts of lifted blocks. It counts its runs; the count stops at 2^64 - 1.
pub trait Engine: Sized + Send {
    ghost use Rattle.std.specs.Prelude.{◌≡◌, ◌+◌, ℕ};
    ghost use Rattle.ir_meaning.specs.Does.{does};
    ghost use Rattle.ir_meaning.specs.Ready.{IsReady};
    ghost use Rattle.guest_parts.specs.Running.{one_more, sum_of};

    // How many parts were run.
    ghost count: { Self → ℕ };

    /// Runs a part: its lines, and then its end, whose request is the answer.
    fn run(&mut self, part: &Part, state: &mut Virtual) -> Request
        requires { IsReady part.now state.old }
        ensures request { result ≡ (does part.now state.old).request }
        ensures state { state.new ≡ (does part.now state.old).state }
        ensures count { count self.new ≡ one_more (count self.old) };

    /// An engine for another thread, which has run nothing.
    fn split(&self) -> Self
        ensures { count result ≡ 0 };

    /// Takes over the count of another engine.
    fn merge(&mut self, other: Self)
        ensures { count self.new ≡ sum_of (count self.old) (count other) };
}

/// The engine that interprets the lines of each part.
#[derive(Debug, Drop)]
pub struct PlainEngine {
    count: u64,
}

impl PlainEngine {
    /// An engine that has run nothing.
    pub fn make() -> PlainEngine
        ensures { result.count ≡ 0 }
    {
        PlainEngine { count: 0 }
    }
}

impl Engine for PlainEngine {
    ghost count = { λ e. e.count };

    fn run(&mut self, part: &Part, state: &mut Virtual) -> Request {
        if self.count < u64::MAX {
            self.count += 1;
        }
        run_part(part, state)
    }

    fn split(&self) -> PlainEngine {
        PlainEngine { count: 0 }
    }

    fn merge(&mut self, other: PlainEngine) {
        let PlainEngine { count } = other;
        self.count = self.count.saturating_add(count);
    }
}
