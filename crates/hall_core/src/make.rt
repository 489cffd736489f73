//! A hall as a run begins.

ghost use Rattle.std.specs.Prelude.{◌≡◌, ℕ, ◌<◌, ◌≤◌, ◌^◌, [], None, length, replicate, All, IfOk, OnErr, OnOk, Some};
ghost use Rattle.std.specs.FinMap as map;
ghost use Rattle.std.specs.List.Sorted.{IsStrictlySortedBy};
ghost use Rattle.std.specs.Ordering.{nat_cmp};
ghost use Rattle.guest_map.specs.Layout.{start_of};
ghost use Rattle.hall_core.specs.Hall.{AreFilled, FitTheirPlaces, places_of};
ghost use Rattle.machine_model.specs.Own.{HasNoRepeats};

use crate::fits::Fits;
use crate::hall::Hall;
use crate::shared::Shared;
use address_space::SLOTS;
use cfg_book::Book;
use guest_map::Start;
use journal_pack::GrowingJournal;
use lib_table::{Ask, Library};
use machine_model::case::Case;
use std::alloc::{AllocError, Global};
use std::sync::Arc;

// No thread is marked.
fn no_marks(alloc: Global) -> Result<Vec<Option<Ask>>, AllocError>
    ensures { IfOk result (λ marks. marks.items ≡ replicate 64 None) }
{
    let mut marks = Vec::with_capacity(alloc, SLOTS as usize)?;
    for _ in 0..SLOTS {
        marks.push(None)?;
    }
    Ok(marks)
}

// One block more, at a place that has none. Without memory the book is as it was.
pub(crate) fn put<B: Drop>(book: &mut Book<B>, a: u64, b: Arc<B>) -> Result<(), AllocError>
    requires new { map.get book.old.blocks a ≡ None }
    requires few { map.len book.old.blocks < 65536 }
    ensures ok { OnOk result (book.new.blocks ≡ map.insert book.old.blocks a b.value) }
    ensures err { OnErr result (book.new.blocks ≡ book.old.blocks) }
{
    book.reserve_one()?;
    let grown: Result<_, _> = book.grow(a, b);
    let _ = grown.unwrap();
    Ok(())
}

// The book of these blocks.
fn filled<B: Drop>(alloc: Global, mut blocks: Vec<(u64, Arc<B>)>) -> Result<Book<B>, AllocError>
    requires apart { HasNoRepeats (places_of blocks.items) }
    requires few { length blocks.items ≤ 65536 }
    ensures { IfOk result (λ book. AreFilled blocks.items book.blocks) }
{
    let mut book = Book::make(alloc)?;
    while let Some(placed) = blocks.pop() {
        put(&mut book, placed.0, placed.1)?;
    }
    Ok(book)
}

impl<B: Fits> Hall<B> {
    /// The hall before the first step of a run: its memory is that of `start`, the case's first places are grown with these
    /// blocks, no thread is marked, and nothing is written.
    ///
    /// # Errors
    ///
    /// Memory is wanting.
    #[tactic(auto, unfolding(machine_model::specs::State::start))]
    pub fn make(
        alloc: Global,
        case: Case,
        start: Start,
        blocks: Vec<(u64, Arc<B>)>,
    ) -> Result<Hall<B>, AllocError>
        requires limit { case.limit ≤ 2 ^ 27 }
        requires ordered { IsStrictlySortedBy nat_cmp case.first }
        requires few { length case.first ≤ 65536 }
        requires places { places_of blocks.items ≡ case.first }
        requires fits { FitTheirPlaces B.fits case.image blocks.items }
        requires start { start ≡ start_of case.image case.args }
        ensures case { IfOk result (λ h. h.case ≡ case) }
        ensures journal { IfOk result (λ h. h.journal ≡ []) }
        ensures blocks { IfOk result (λ h. AreFilled blocks.items h.blocks) }
        ensures marks { IfOk result (λ h. h.marks ≡ replicate 64 None) }
    {
        let input = Vec::from_slice(alloc, &case.input)?;
        let library = Library::make(alloc, input)?;
        let book = filled(alloc, blocks)?;
        let marks = no_marks(alloc)?;
        Ok(Hall {
            case,
            rsp: start.rsp,
            shared: Shared::new(start.memory, library),
            book,
            log: GrowingJournal::new(alloc),
            marks,
        })
    }
}
