//! The end of a turn.

ghost use Rattle.std.specs.Prelude.{◌≡◌, ◌<◌, ◌≤◌, length};
ghost use Rattle.machine_model.specs.Gated.{Stand};
ghost use Rattle.hall_core.specs.Hall.{both};
ghost use Rattle.guest_parts.specs.Guest.{GuestData, IsGoing, IsWith};
ghost use Rattle.guest_steps.specs.Ages.{AreAges, is_too_old};
ghost use Rattle.guest_entries.specs.Entered.{SettledBy};

use crate::flushes::flush_one;
use guest_steps::ages::Ages;
use hall_core::Hall;
use ir_syntax::Block;

// Whether the oldest waiting write is older than it may be.
fn is_too_old(ages: &Ages, hold: u32) -> bool
    ensures { result ≡ is_too_old hold ages.now }
{
    match ages.oldest() {
        Some(age) => age > u64::from(hold),
        None => false,
    }
}

/// The waiting writes of thread `t` are a turn older, and the oldest go to memory as long as they waited for more than
/// `hold` turns.
pub fn settle(hall: &mut Hall<Block>, t: u32, ages: &mut Ages, hold: u32)
    requires room { length ages.old < hall.old.spare }
    requires hold { hold ≤ 255 }
    requires fresh { AreAges 255 ages.old }
    requires with { (g : GuestData) × (d : Stand) × IsGoing (both hall.old) t × IsWith hall.old.case (both hall.old) t g d × (g.ages ≡ ages.old) }
    ensures settled { (g : GuestData) (d : Stand) → IsGoing (both hall.old) t → IsWith hall.old.case (both hall.old) t g d → g.ages ≡ ages.old → SettledBy hall.old hall.new t hold g ages.new d }
    ensures fresh { AreAges hold ages.new }
{
    ages.grow_older();
    while is_too_old(ages, hold) {
        flush_one(hall, t, ages);
    }
}
