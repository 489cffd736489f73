//! Entries of a thread that tell its private steps alone, or end the run at the limit.

ghost use Rattle.std.specs.Prelude.{◌≡◌, ◌<◌};
ghost use Rattle.machine_model.specs.Gated.{Stand};
ghost use Rattle.machine_model.specs.Serial.{AtLimit, AtMost};
ghost use Rattle.hall_core.specs.Hall.{both};
ghost use Rattle.guest_steps.specs.declared.stretch.Came.TheVariants as came;
ghost use Rattle.guest_steps.specs.Kept.{Table};
ghost use Rattle.guest_entries.specs.Entered.{AlongIn, Entered};
ghost use Rattle.guest_steps.specs.Stretched.{StopsAt};

use guest_parts::entries_leave_guests;
use guest_steps::own::Own;
use hall_core::Hall;
use ir_syntax::Block;

/// The private steps are as many as may be made before they are told: an entry tells them.
pub fn tick(own: &mut Own, hall: &mut Hall<Block>, t: u32)
    requires room { 0 < hall.old.spare }
    requires most { (table : Table) × (d : Stand) × AlongIn hall.old t own.old table d × StopsAt came.Most hall.old.case (both hall.old) own.old d }
    ensures { (table : Table) (d : Stand) → AlongIn hall.old t own.old table d → StopsAt came.Most hall.old.case (both hall.old) own.old d → Entered hall.old hall.new t own.old own.new table d AtMost }
{
    entries_leave_guests();
    hall.tick(t, own.k);
    own.k = 0;
}

/// The limit of steps is reached: the run ends.
pub fn over(own: &mut Own, hall: &mut Hall<Block>, t: u32)
    requires room { 0 < hall.old.spare }
    requires limit { (table : Table) × (d : Stand) × AlongIn hall.old t own.old table d × StopsAt came.Limit hall.old.case (both hall.old) own.old d }
    ensures { (table : Table) (d : Stand) → AlongIn hall.old t own.old table d → StopsAt came.Limit hall.old.case (both hall.old) own.old d → Entered hall.old hall.new t own.old own.new table d AtLimit }
{
    entries_leave_guests();
    hall.over(t, own.k);
    own.k = 0;
}
