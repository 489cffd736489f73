//! What a lock has to know of the value in it.
ghost use Rattle.std.specs.Prelude.{◌≡◌, ℕ, List, length};

/// A value with a case, which never changes, and a journal, which grows at its end. Each entry bears a number.
pub trait Story {
    /// What stays the same as long as the value lives.
    type Case;

    /// One entry of the journal.
    type Entry;

    // The case of the value.
    ghost case: { Self → Self.Case };

    // The journal, from its first entry on.
    ghost entries: { Self → List Self.Entry };

    // The number that an entry bears.
    ghost number: { Self.Entry → ℕ };

    /// How many entries the journal has.
    fn length(&self) -> u64
        ensures { result ≡ length (entries self.now) };
}
