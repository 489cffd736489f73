//! What was found in an image, lent to one thread at a time.

ghost use Rattle.std.specs.Prelude.{◌≡◌, IfOk, IfSome};
ghost use Rattle.additive_lift.specs.Kept.{AreKept};
ghost use Rattle.additive_lift.specs.Lent.{IsOut};

use crate::exits::Exits;
use atomic_table::{Play, Refused, Seat, Table, TableRule};
use elf_image::Image;
use std::alloc::{AllocError, Global};
use std::collections::BTreeMap;
use std::snapshot::Snapshot;

/// Direct successors by the place of their block.
pub(crate) type Kept = BTreeMap<u64, Exits>;

/// The rule of the table: where its word is 0, direct successors lie in its slot that are right of the image, which is
/// the key and what each seat knows.
pub struct Keeping;

impl TableRule<Option<BTreeMap<u64, Exits>>, Snapshot<Image>, Snapshot<Image>> for Keeping {
    ghost use Rattle.additive_lift.specs.Kept.{AreKept};
    ghost use Rattle.additive_lift.specs.Lent.{IsGuarded};

    ghost holds = { λ key. IsGuarded (AreKept key.value) };

    ghost first = { λ key. key };
}

// Takes what lies in the slot, where the word is 0.
struct Takes;

impl Play<Option<BTreeMap<u64, Exits>>, Snapshot<Image>> for Takes {
    ghost use Rattle.std.specs.Prelude.{◌≡◌};
    ghost use Rattle.additive_lift.specs.Kept.{AreKept};
    ghost use Rattle.additive_lift.specs.Lent.{IsTaken};

    ghost then = { λ step before word after. word ≡ 0 → IsTaken (AreKept before.0.value) after };
}

// Gives it back.
struct Gives;

impl Play<Option<BTreeMap<u64, Exits>>, Snapshot<Image>> for Gives {
    ghost then = { λ step before word after. Unit {0} };
}

/// Direct successors of one image, for one thread at a time.
#[derive(Drop)]
pub(crate) struct Lent {
    table: Table<Option<Kept>, Snapshot<Image>, Snapshot<Image>, Keeping, Global>,
    ghost sized: { (table.shared.table_id.words ≡ 1) × (table.shared.table_id.slots ≡ 1) },
}

/// The slot of what is out. It ends in `give`.
pub(crate) struct Loan {
    seat: Seat<Option<Kept>, Snapshot<Image>>,
}

impl Lent {
    // Nothing found yet in this image.
    pub(crate) fn new(alloc: Global, image: &Image) -> Result<Lent, AllocError>
        ensures { IfOk result (λ lent. lent.table.shared.key.value ≡ image.now) }
    {
        let mut slots = Vec::with_capacity(alloc, 1)?;
        slots.push_reserved(Some(BTreeMap::new(alloc)));
        match Table::new(alloc, &[0], slots, &Snapshot::of(image)) {
            Ok((table, _seat)) => Ok(Lent { table }),
            Err(Refused { slots: _ }) => Err(AllocError),
        }
    }

    // What was found; none where another thread has it.
    pub(crate) fn take(&self) -> Option<(Kept, Loan)>
        ensures { IfSome result (λ r. AreKept self.now.table.shared.key.value r.0 × (r.1.seat.table_id ≡ self.now.table.shared.table_id) × IsOut r.1.seat.me) }
    {
        let shared = &self.table.shared;
        let (word, mut seat) = shared.swap_new_seat::<Takes>(0, 1);
        if word != 0 {
            return None;
        }
        let taken = shared.exchange(&mut seat, 0, None);
        let Some(kept) = taken else { unreachable!() };
        Some((kept, Loan { seat }))
    }

    // What was found, back, with what was found since.
    pub(crate) fn give(&self, kept: Kept, loan: Loan)
        requires right { AreKept self.now.table.shared.key.value kept }
        requires loan { (loan.seat.table_id ≡ self.now.table.shared.table_id) × IsOut loan.seat.me }
    {
        let Loan { mut seat } = loan;
        let shared = &self.table.shared;
        drop(shared.exchange(&mut seat, 0, Some(kept)));
        shared.store::<Gives>(&mut seat, 0, 0);
    }
}
