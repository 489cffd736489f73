//! The shared state: its type, and what it tells.

ghost use Rattle.std.specs.Prelude.{◌≡◌, ℕ, ◌<◌, ◌≤◌, ◌*◌, ◌+◌, ◌-◌, ◌^◌, [], length, is_some, nat_lt, option_map, replicate, IfOk, IfSome, OnErr, OnOk, Some};
ghost use Rattle.std.specs.FinMap as map;
ghost use Rattle.std.specs.Option.{option_copied};
ghost use Rattle.address_space.specs.Slots as slots;
ghost use Rattle.guest_map.specs.Entry.{entry_rsp};
ghost use Rattle.lib_table.specs.Library as library;
ghost use Rattle.lib_table.specs.declared.ask.Ask.{Ask as AskData};
ghost use Rattle.tso_memory.specs.Tso.{is_none_waiting};
ghost use Rattle.basic_blocks.specs.Reach.{is_among};
ghost use Rattle.machine_model.specs.Gated.{Leads, begin};
ghost use Rattle.machine_model.specs.Play.{play};
ghost use Rattle.machine_model.specs.State.{IsSized, is_live, list_at, thread_in};
ghost use Rattle.hall_core.specs.Hall.{StandsAt, both, grown, machine, mark_at};

use crate::fits::Fits;
use crate::shared::Shared;
use cfg_book::Book;
use elf_image::Image;
use journal_pack::GrowingJournal;
use lib_table::{Ask, Birth};
use machine_model::case::Case;
use machine_model::ending::RunEnd;
use machine_model::{Entry, Journal};
use std::alloc::AllocError;
use std::marker::Model;
use std::sync::Arc;
use thiserror::Error;
use turn_lock::Story;

/// The shared state of a run: its case, memory with the waiting writes, the library, the grown blocks, the number of steps,
/// the ending, a mark of what each waiting thread waits for, and the journal of what was done. Contracts see `HallData`:
/// the case, the journal, the blocks, the marks, and for how many more entries there is room. `machine h` is the plain
/// machine after the journal, which tells all else.
#[derive(Drop)]
pub struct Hall<B: Fits> {
    pub(crate) case: Case,
    pub(crate) rsp: u64,
    pub(crate) shared: Shared,
    pub(crate) book: Book<B>,
    pub(crate) log: GrowingJournal,
    pub(crate) marks: Vec<Option<Ask>>,
}

impl<B: Fits> Model for Hall<B> {
    ghost use Rattle.std.specs.Prelude.{◌≡◌};
    ghost use Rattle.guest_map.specs.Entry.{entry_rsp};
    ghost use Rattle.hall_core.specs.Hall.{HallData, IsHall, hall_code};

    ghost Value = { HallData B };

    ghost coded = { hall_code B.code };

    ghost view = { λ h. record { case = h.case; journal = h.log.entries; blocks = h.book.blocks; marks = h.marks.items; spare = h.log.spare } };

    ghost invariant = { λ h. IsHall B.fits (record { case = h.case; journal = h.log.entries; blocks = h.book.blocks; marks = h.marks.items; spare = h.log.spare }) h.shared × (h.rsp ≡ entry_rsp h.case.args) };
}

/// Why a place wasn't grown.
#[derive(Debug, Drop, Error)]
pub enum HallGrow<B> {
    /// A block is grown there already; this is the block that was handed in.
    #[error("a block is grown there already")]
    Grown(Arc<B>),
    /// Memory for the block's place in the graph, or for the entry, is wanting.
    #[error("no memory")]
    Memory(AllocError),
}

impl<B: Fits> Story for Hall<B> {
    ghost use Rattle.machine_model.specs.Step.{slot_in};

    type Case = Case;

    type Entry = Entry;

    ghost case = { λ h. h.case };

    ghost entries = { λ h. h.journal };

    // The slot of the thread that the entry names, 64 for `Dead`.
    ghost number = { slot_in };

    fn length(&self) -> u64 {
        self.log.len()
    }
}

impl<B: Fits> Hall<B> {
    /// Makes room for at least `n` entries in all that come. Without memory the hall is as it was.
    pub fn reserve(&mut self, n: u64) -> Result<(), AllocError>
        ensures same { self.new ≡ record self.old { spare = self.new.spare } }
        ensures kept { self.old.spare ≤ self.new.spare }
        ensures ok { OnOk result (n ≤ self.new.spare) }
        ensures err { OnErr result (self.new ≡ self.old) }
    {
        self.log.reserve(n)
    }

    /// For how many more entries there is room.
    pub fn spare(&self) -> u64
        ensures { result ≡ self.now.spare }
    {
        self.log.spare()
    }

    /// Whether a step may be made after `k` private steps: the steps that were made and these are below the limit.
    pub fn room(&self, k: u32) -> bool
        ensures { result ≡ nat_lt ((machine self.now).steps + k) self.now.case.limit }
    {
        let steps = self.shared.steps();
        let limit = self.case.limit();
        steps < limit && u64::from(k) < limit - steps
    }

    /// How many steps are left below the limit; 0 where none is.
    pub fn steps_left(&self) -> u64
        ensures { result ≡ self.now.case.limit - (machine self.now).steps }
    {
        self.case.limit().saturating_sub(self.shared.steps())
    }

    /// Whether no write of thread `t` waits.
    pub fn is_empty(&self, t: u32) -> bool
        ensures { result ≡ is_none_waiting (list_at (machine self.now) (slots.slot_of t)) }
    {
        self.shared.waiting_writes(t) == 0
    }

    /// How many writes of thread `t` wait: 0 to 64.
    pub fn waiting_writes(&self, t: u32) -> u32
        ensures count { result ≡ length (list_at (machine self.now) (slots.slot_of t)) }
    {
        self.shared.waiting_writes(t)
    }

    /// The number of the thread that lives in a slot, and for which function it was born, with which argument. `None`
    /// exactly where none lives there, and for slot 0, whose thread was born for no function.
    pub fn birth(&self, slot: u32) -> Option<Birth>
        ensures { result ≡ library.birth (machine self.now).library slot }
    {
        self.shared.birth(slot)
    }

    /// The number of the thread that lives in a slot.
    pub fn thread_in(&self, slot: u32) -> Option<u32>
        ensures { result ≡ thread_in (machine self.now) slot }
    {
        self.shared.thread_in(slot)
    }

    /// Whether thread `t` lives.
    pub fn is_live(&self, t: u32) -> bool
        ensures { result ≡ is_live (machine self.now) t }
    {
        self.shared.is_live(t)
    }

    /// How the run ended; `None` exactly where it goes on.
    pub fn ending(&self) -> Option<&RunEnd>
        ensures { option_copied result ≡ (machine self.now).ending }
    {
        self.shared.ending()
    }

    /// The block that is grown at a place. `None` exactly where the place isn't grown.
    pub fn find(&self, a: u64) -> Option<&Arc<B>>
        ensures block { option_map (λ b. b.now.value) result ≡ map.get self.now.blocks a }
        ensures grown { is_some result ≡ is_among (grown self.now) a }
        ensures fits { IfSome result (λ b. B.fits self.now.case.image a b.now.value) }
    {
        self.book.find(a)
    }

    /// The loaded program.
    pub fn image(&self) -> &Arc<Image>
        ensures { result.now.value ≡ self.now.case.image }
    {
        &self.case.image
    }

    /// Whether a miss ends the run.
    pub fn is_strict(&self) -> bool
        ensures { result ≡ self.now.case.strict }
    {
        self.case.strict
    }

    /// Where the stack pointer of thread 0 stands at first.
    pub fn start_rsp(&self) -> u64
        ensures { result ≡ entry_rsp self.now.case.args }
    {
        self.rsp
    }

    /// How many places are grown.
    pub fn count(&self) -> u32
        ensures count { result ≡ length (grown self.now) }
        ensures limit { result ≤ 65536 }
    {
        self.book.count()
    }

    /// How many steps were made.
    pub fn steps(&self) -> u64
        ensures { result ≡ (machine self.now).steps }
    {
        self.shared.steps()
    }

    /// The bytes that the guest wrote to output 1.
    pub fn out1(&self) -> &[u8]
        ensures { result.now ≡ (machine self.now).library.out1 }
    {
        self.shared.out1()
    }

    /// The bytes that the guest wrote to output 2.
    pub fn out2(&self) -> &[u8]
        ensures { result.now ≡ (machine self.now).library.out2 }
    {
        self.shared.out2()
    }

    /// The case and the journal.
    pub fn into_run(self) -> (Case, Journal)
        ensures case { result.0 ≡ self.case }
        ensures journal { result.1 ≡ self.journal }
    {
        (self.case, self.log.into_journal())
    }

    /// Tells callers what the type keeps: the journal is gated and played, each grown block is right at its place, a marked
    /// thread stands at the request of its mark, there are 64 cores, slots, marks and lists of waiting writes, and the limit
    /// and the journal are not long.
    pub fn facts(&self)
        ensures gated { Leads self.now.case (begin self.now.case) self.now.journal (both self.now) }
        ensures played { play self.now.case self.now.journal ≡ Some (machine self.now) }
        ensures fits { (a : ℕ) (b : B) → map.get self.now.blocks a ≡ Some b → B.fits self.now.case.image a b }
        ensures grown { (a : ℕ) → is_some (map.get self.now.blocks a) ≡ is_among (grown self.now) a }
        ensures marks { (s : ℕ) (ask : AskData) → mark_at self.now s ≡ Some ask → StandsAt self.now.case.image (machine self.now) s ask }
        ensures sized { IsSized (machine self.now) }
        ensures marked { length self.now.marks ≡ 64 }
        ensures limit { self.now.case.limit ≤ 2 ^ 27 }
        ensures short { length self.now.journal ≤ 2 * self.now.case.limit + 65537 }
    {
        let _ = &self.rsp;
    }
}
