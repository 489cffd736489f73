//! Waiting writes of a thread that go to memory.

ghost use Rattle.std.specs.Prelude.{◌≡◌, ◌+◌, ◌<◌, [], if◌then◌else◌, length, nat_le};
ghost use Rattle.machine_model.specs.Gated.{Stand, rest_of};
ghost use Rattle.machine_model.specs.Own.{writes_at};
ghost use Rattle.hall_core.specs.Hall.{both};
ghost use Rattle.guest_parts.specs.Guest.{GuestData, IsGoing, IsWith};
ghost use Rattle.guest_steps.specs.Ages.{AreAges};
ghost use Rattle.guest_entries.specs.Entered.{FlushedBy, FlushedSome};

use guest_parts::entries_leave_guests;
use guest_steps::ages::Ages;
use hall_core::Hall;
use ir_syntax::Block;

/// The oldest waiting write of thread `t` goes to memory.
pub fn flush_one(hall: &mut Hall<Block>, t: u32, ages: &mut Ages)
    requires room { 0 < hall.old.spare }
    requires with { (g : GuestData) × (d : Stand) × IsGoing (both hall.old) t × IsWith hall.old.case (both hall.old) t g d }
    requires some { 0 < length (writes_at (both hall.old) t) }
    ensures flushed { (g : GuestData) (d : Stand) → IsGoing (both hall.old) t → IsWith hall.old.case (both hall.old) t g d → g.ages ≡ ages.old → FlushedBy hall.old hall.new t g ages.new d }
    ensures room { hall.new.spare + 1 ≡ hall.old.spare }
    ensures rest { ages.new ≡ rest_of ages.old }
{
    entries_leave_guests();
    hall.flush(t);
    ages.pop();
}

/// All waiting writes of thread `t` go to memory.
pub fn flush_all(hall: &mut Hall<Block>, t: u32, ages: &mut Ages)
    requires room { length ages.old < hall.old.spare }
    requires with { (g : GuestData) × (d : Stand) × IsGoing (both hall.old) t × IsWith hall.old.case (both hall.old) t g d × (g.ages ≡ ages.old) }
    ensures flushed { (g : GuestData) (d : Stand) → IsGoing (both hall.old) t → IsWith hall.old.case (both hall.old) t g d → g.ages ≡ ages.old → FlushedSome hall.old hall.new t (length ages.old) g ages.new d }
    ensures none { ages.new ≡ [] }
    ensures room { 0 < hall.new.spare }
{
    while ages.len() > 0 {
        flush_one(hall, t, ages);
    }
}

/// Where 64 writes wait, the oldest goes to memory.
pub fn make_room(hall: &mut Hall<Block>, t: u32, ages: &mut Ages)
    requires room { 1 < hall.old.spare }
    requires with { (g : GuestData) × (d : Stand) × IsGoing (both hall.old) t × IsWith hall.old.case (both hall.old) t g d × (g.ages ≡ ages.old) }
    ensures flushed { (g : GuestData) (d : Stand) → IsGoing (both hall.old) t → IsWith hall.old.case (both hall.old) t g d → g.ages ≡ ages.old → FlushedSome hall.old hall.new t (if nat_le 64 (length ages.old) then 1 else 0) g ages.new d }
    ensures few { length ages.new < 64 }
    ensures fresh { AreAges 255 ages.old → AreAges 255 ages.new }
    ensures room { 0 < hall.new.spare }
{
    if ages.len() >= 64 {
        flush_one(hall, t, ages);
    }
}
