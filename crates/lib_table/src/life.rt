//! The life of a thread.

ghost use Rattle.std.specs.Prelude.{◌≡◌};

/// What has become of a thread's number.
#[derive(Clone, Copy, Debug, PartialEq, Eq)]
pub enum Life {
    /// No thread has it yet.
    Unborn,
    /// The thread runs: it was born to call the function at `start` with `argument`. Both are 0 for thread 0.
    Live { start: u64, argument: u64 },
    /// The thread's start function returned this value, which no other thread has taken yet.
    Ended(u64),
    /// Another thread took the value.
    Joined,
}

impl Life {
    ghost use Rattle.lib_table.specs.Library.{is_running, is_unborn};

    pub(crate) fn is_unborn(&self) -> bool
        ensures { result ≡ is_unborn self.now }
    {
        matches!(self, Life::Unborn)
    }

    pub(crate) fn is_running(&self) -> bool
        ensures { result ≡ is_running self.now }
    {
        matches!(self, Life::Live { .. })
    }
}
