//! One step of a run.
ghost use Rattle.std.specs.Prelude.{◌≡◌, ◌↔◌, IsTrue};
ghost use Rattle.journal_pack.specs.Entry.{HasSpelling, private_of, thread_of};

/// How many private steps an entry may begin with.
pub const MAX_STEPS: u32 = 4096;

/// One entry of a journal: a step of the run. `t` is the number of a thread; `k` private steps of that thread, at most
/// 4,096, come before the rest.
#[derive(Clone, Copy, Debug, PartialEq, Eq)]
pub enum Entry {
    /// `t`, `k`: then one step that is neither private nor waiting. A bad step ends the run.
    Ev(u32, u32),
    /// `t`, `k`: no more; `k` is at least 1.
    Tick(u32, u32),
    /// `t`: its oldest waiting write goes to memory.
    Flush(u32),
    /// `t`, `k`: then it stands at a call that waits; `k` is at least 1.
    Wait(u32, u32),
    /// `t`, `k`, source, target: then the instruction at the source was finished last, and the thread is at the target,
    /// which isn't grown.
    Miss(u32, u32, u64, u64),
    /// `t`, place: the place is grown.
    Grow(u32, u64),
    /// `t`, `k`: with these the limit of steps is reached.
    Over(u32, u32),
    /// `t`: it is at a place that isn't grown, and no more may be.
    Full(u32),
    /// No thread can go on.
    Dead,
}

impl Entry {
    /// The thread that the entry names; `None` for `Dead`.
    pub fn thread(self) -> Option<u32>
        ensures { result ≡ thread_of self }
    {
        match self {
            Entry::Ev(t, _)
            | Entry::Tick(t, _)
            | Entry::Flush(t)
            | Entry::Wait(t, _)
            | Entry::Miss(t, _, _, _)
            | Entry::Grow(t, _)
            | Entry::Over(t, _)
            | Entry::Full(t) => Some(t),
            Entry::Dead => None,
        }
    }

    /// With how many private steps the entry begins.
    pub fn private_steps(self) -> u32
        ensures { result ≡ private_of self }
    {
        match self {
            Entry::Ev(_, k)
            | Entry::Tick(_, k)
            | Entry::Wait(_, k)
            | Entry::Miss(_, k, _, _)
            | Entry::Over(_, k) => k,
            Entry::Flush(_) | Entry::Grow(_, _) | Entry::Full(_) | Entry::Dead => 0,
        }
    }

    /// Whether a journal can spell the entry: it begins with at most `MAX_STEPS` private steps, and `Tick` and `Wait`
    /// with at least one.
    pub fn has_spelling(self) -> bool
        ensures { IsTrue result ↔ HasSpelling self }
    {
        match self {
            Entry::Ev(_, k) | Entry::Miss(_, k, _, _) | Entry::Over(_, k) => k <= MAX_STEPS,
            Entry::Tick(_, k) | Entry::Wait(_, k) => 1 <= k && k <= MAX_STEPS,
            Entry::Flush(_) | Entry::Grow(_, _) | Entry::Full(_) | Entry::Dead => true,
        }
    }
}
