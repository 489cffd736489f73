//! `pthread_once`.

ghost use Rattle.std.specs.Prelude.{◌≡◌, ◌+◌, ◌<◌, ◌≤◌, ℕ, Bool, true};
ghost use Rattle.sync_more.specs.Once.{once};
ghost use Rattle.sync_more.specs.Rooms.{is_refused, is_waiting, told};

use crate::ask::Outcome;
use crate::rooms::Rooms;
use crate::state::Control;

/// The first call of a control begins its routine, where there is room for it.
#[tactic(auto, unfolding(crate::specs::Once::once))]
pub(crate) fn once(rooms: &mut Rooms, t: u32, control: u64, free: bool) -> Outcome
    requires { 0 < rooms.old.room }
    ensures row { once rooms.old.state t control free ≡ told rooms.new.state result }
    ensures refused { is_refused result ≡ true → rooms.new ≡ rooms.old }
    ensures room { rooms.old.room ≤ rooms.new.room + 1 }
{
    match rooms.control(control) {
        Some(Control::Done) => Outcome::Answer(0),
        Some(Control::Running(_)) => Outcome::Waits,
        None => {
            if !free {
                return Outcome::Deep;
            }
            rooms.run(control, t);
            Outcome::Begin
        }
    }
}

/// Whether `pthread_once` would wait.
#[tactic(auto, unfolding(crate::specs::Once::once))]
pub(crate) fn once_waits(rooms: &Rooms, control: u64) -> bool
    ensures { (t : ℕ) (free : Bool) → result ≡ is_waiting (once rooms.now.state t control free).outcome }
{
    match rooms.control(control) {
        Some(Control::Running(_)) => true,
        _ => false,
    }
}
