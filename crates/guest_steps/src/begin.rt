//! What a guest finds at a place between blocks.

ghost use Rattle.std.specs.Prelude.{◌≡◌, ℕ, None, IfOk, MatchOption, true, false};
ghost use Rattle.basic_blocks.specs.Places.{is_code_place};
ghost use Rattle.basic_blocks.specs.Reach.{is_among};
ghost use Rattle.machine_model.specs.Gated.{Stand};
ghost use Rattle.hall_core.specs.Hall.{both, grown};
ghost use Rattle.guest_steps.specs.declared.own.Position.TheVariants as at;
ghost use Rattle.guest_steps.specs.Own.{Along};
ghost use Rattle.guest_parts.specs.Calls.{asked_in};
ghost use Rattle.guest_steps.specs.Stretched.{BegunIs};

use crate::kept::{Kept, take};
use crate::own::{Own, Position};
use address_space::{CALL_DOOR, END_DOOR};
use elf_image::Image;
use guest_parts::parts_follow_their_thread;
use hall_core::Hall;
use ir_syntax::Block;
use lib_table::Asked;
use std::alloc::{AllocError, Global};

/// What there is.
#[derive(Debug)]
pub enum Begun {
    /// A block, before whose first part the guest is now.
    Inside,
    /// A place where a block may stand and none is grown.
    Missing,
    /// A door, or a place of the library.
    Library(Asked),
}

// What a thread asks of the library at an address. `None` exactly where instructions may stand there.
pub fn asked_there(image: &Image, a: u64) -> Option<Asked>
    ensures { result ≡ asked_in image.now a }
{
    if a == END_DOOR {
        return Some(Asked::EndDoor);
    }
    if a == CALL_DOOR {
        return Some(Asked::CallDoor);
    }
    match image.function_at(a) {
        Some(function) => Some(Asked::Lib(function)),
        None => None,
    }
}

// Instructions may stand where nothing is asked.
fn code_stands_there(image: &Image, a: u64)
    requires { asked_in image.now a ≡ None }
    ensures { is_code_place image.now a ≡ true }
{
    let _ = image;
    let _ = a;
}

// The block that is grown at a place where instructions may stand, kept at hand.
fn found(alloc: Global, hall: &Hall<Block>, a: u64) -> Result<Option<Kept>, AllocError>
    requires { is_code_place hall.now.case.image a ≡ true }
    ensures { IfOk result (λ o. MatchOption o (is_among (grown hall.now) a ≡ false) (λ x. (x.image ≡ hall.now.case.image) × (x.block.at ≡ a) × (is_among (grown hall.now) a ≡ true))) }
{
    hall.facts();
    let Some(block) = hall.find(a) else {
        return Ok(None);
    };
    let kept = Kept::make(alloc, hall.image(), block)?;
    Ok(Some(kept))
}

/// Begins the block at `a`, where the guest is between blocks, if one is grown there.
pub fn begin(
    alloc: Global,
    own: &mut Own,
    table: &mut Vec<Option<Kept>>,
    hall: &Hall<Block>,
    a: u64,
) -> Result<Begun, AllocError>
    requires { own.old.at ≡ at.Between a }
    ensures along { (t : ℕ) (d : Stand) → Along hall.now.case (both hall.now) t own.old table.old.items d → Along hall.now.case (both hall.now) t own.new table.new.items d }
    ensures own { own.new ≡ record own.old { at = own.new.at } }
    ensures begun { BegunIs result hall.now.case (both hall.now) own.old own.new a }
{
    parts_follow_their_thread();
    if let Some(kept) = take(table, a) {
        kept.facts();
        own.at = Position::Inside { kept, part: 0 };
        return Ok(Begun::Inside);
    }
    if let Some(what) = asked_there(hall.image(), a) {
        return Ok(Begun::Library(what));
    }
    code_stands_there(hall.image(), a);
    let Some(kept) = found(alloc, hall, a)? else {
        return Ok(Begun::Missing);
    };
    kept.facts();
    own.at = Position::Inside { kept, part: 0 };
    Ok(Begun::Inside)
}
