//! The shared state of a run behind one pointer.

ghost use Rattle.std.specs.Prelude.{◌≡◌, IfErr, IfOk};

use hall_core::Hall;
use ir_syntax::Block;
use journal_pack::Entry;
use machine_model::case::Case;
use std::alloc::{AllocError, AllocFailed, Global};
use std::marker::Model;
use turn_lock::Story;

/// A hall behind one pointer, so that it goes into a lock and out of it without a copy.
#[derive(Drop)]
pub struct SharedHall {
    hall: Box<Hall<Block>>,
}

impl Model for SharedHall {
    ghost use Rattle.std.specs.Prelude.{box_value};
    ghost use Rattle.ir_syntax.specs.contracts.block.Block as block_row;
    ghost use Rattle.ir_syntax.specs.declared.block.Block.{Block as BlockData};
    ghost use Rattle.hall_core.specs.Hall.{HallData, hall_code};

    ghost Value = { HallData BlockData };

    ghost coded = { hall_code block_row.the_row.coded };

    ghost view = { λ s. box_value s.hall };
}

impl Story for SharedHall {
    ghost use Rattle.machine_model.specs.Step.{slot_in};

    type Case = Case;

    type Entry = Entry;

    ghost case = { λ h. h.case };

    ghost entries = { λ h. h.journal };

    // The slot of the thread that the entry names, 64 for `Dead`.
    ghost number = { slot_in };

    fn length(&self) -> u64 {
        self.hall.length()
    }
}

impl SharedHall {
    ghost use Rattle.std.specs.Borrow.{Lends, sem};
    ghost use Rattle.ir_syntax.specs.contracts.block.Block as block_row;
    ghost use Rattle.hall_core.specs.contracts.fits.BlockFits.TheImpl as block_fits;
    ghost use Rattle.hall_core.specs.contracts.hall.Hall as hall_row;
    ghost use Rattle.thread_step.specs.contracts.shared.SharedHall as shared_row;

    /// Puts a hall behind a pointer. It is refused for want of memory alone, and then the same hall comes back.
    pub fn make(alloc: Global, hall: Hall<Block>) -> Result<SharedHall, (Hall<Block>, AllocError)>
        ensures ok { IfOk result (λ s. s ≡ hall) }
        ensures refused { IfErr result (λ e. e.0 ≡ hall) }
    {
        match Box::new(alloc, hall) {
            Ok(hall) => Ok(SharedHall { hall }),
            Err(AllocFailed { value }) => Err((value, AllocError)),
        }
    }

    /// The hall, to read and to change.
    pub fn hall(&mut self) -> &mut Hall<Block>
        ensures* writes_back { sem 𝓛 (Lends shared_row.the_row (hall_row.the_row block_row.the_row block_fits.ghosts) self.entry result (λ w. w)) }
        ensures now { result.now ≡ self.old }
    {
        self.hall.as_mut()
    }

    /// The hall itself.
    pub fn into_hall(self) -> Hall<Block>
        ensures { result ≡ self }
    {
        let SharedHall { hall } = self;
        Box::into_inner(hall)
    }
}
