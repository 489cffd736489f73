//! Who waits where.

ghost use Rattle.std.specs.Prelude.{◌≡◌, ◌+◌, ◌-◌, ◌^◌, ◌<◌, ◌≤◌, true, IfOk, IfSome, IsSome, OnOk, length};
ghost use Rattle.std.specs.Option.{option_map};
ghost use Rattle.std.specs.FinMap as map;
ghost use Rattle.sync_more.specs.declared.state.Control.TheVariants.{Done, Running};
ghost use Rattle.sync_more.specs.Barriers.{joined, opened, round_at, with_new_round};
ghost use Rattle.sync_more.specs.Conditions.{all_woken, fallen_asleep, has_sleeper, signalled, sleepers_or_none, with_line};
ghost use Rattle.sync_more.specs.Once.{is_running, with_control};
ghost use Rattle.sync_more.specs.Rooms.{is_refused, no_rooms, phase_of, told, with_phases, without_phase};
ghost use Rattle.sync_more.specs.Row.{row, waits};

use crate::ask::{Outcome, SyncName};
use crate::barriers::{barrier_destroy, barrier_init, barrier_wait, barrier_wait_waits};
use crate::conditions::{
    cond_broadcast, cond_destroy, cond_init, cond_signal, cond_wait, cond_wait_waits,
};
use crate::line::Line;
use crate::once::{once, once_waits};
use crate::phases::Phases;
use crate::state::{Barrier, Control, Phase, Sleepers};
use crate::table::Table;
use std::alloc::{AllocError, Global};
use std::marker::Model;

/// Who sleeps at which condition variable, the barriers and who waits there, the controls that run or are done, and
/// the phase of each thread. All look-ups are by the object's address or the thread's number; no call goes through all
/// objects.
#[derive(Drop)]
pub struct Rooms {
    sleepers: Table<Sleepers>,
    barriers: Table<Barrier>,
    controls: Table<Control>,
    phases: Phases,
    rounds: u64,
    // Memory for a line whose own is used up.
    spare: Vec<u32>,
    // No line is longer.
    longest: usize,
    // For how many calls there is room: one, or none.
    room: u64,
    alloc: Global,
}

impl Model for Rooms {
    ghost use Rattle.std.specs.Prelude.{◌≡◌, ℕ, ◌+◌, ◌<◌, ◌≤◌, ◌^◌, refl};
    ghost use Rattle.std.specs.Ordering.{nat_cmp};
    ghost use Rattle.std.specs.FinMap.{FinMap, code};
    ghost use Rattle.std.specs.Coded.{code_by, coded×, coded_ℕ};
    ghost use Rattle.std.specs.Vec.{vec_capacity};
    ghost use Rattle.sync_more.specs.Codes.{view_code};
    ghost use Rattle.sync_more.specs.Rooms.{RoomsView, SleepersUpTo, WaitersUpTo};

    ghost Value = { RoomsView };

    ghost coded = { view_code };

    ghost view = { λ r. record {
      state = record { sleepers = r.sleepers.places; barriers = r.barriers.places; controls = r.controls.places; phases = r.phases.places; rounds = r.rounds };
      room = r.room;
    } };

    ghost invariant = { λ r. SleepersUpTo r.longest r.sleepers.places × WaitersUpTo r.longest r.barriers.places × (r.longest < 2 ^ 63) × (r.room ≤ 1)
        × (0 < r.room → (0 < r.sleepers.room) × (0 < r.barriers.room) × (0 < r.controls.room) × (r.longest < r.phases.room) × (r.longest < vec_capacity r.spare)) };
}

/// These threads have one phase from now on.
fn set_phases(phases: &mut Phases, threads: &[u32], phase: Phase)
    requires { length threads.now ≤ phases.old.room }
    ensures { phases.new.places ≡ with_phases phases.old.places threads.now phase }
{
    for t in threads {
        phases.put(*t, phase);
    }
}

/// Those who sleep at a condition variable, taken out.
fn take_sleepers(sleepers: &mut Table<Sleepers>, c: u64, mutex: u64, alloc: Global) -> Sleepers
    ensures sleepers { result ≡ sleepers_or_none (map.get sleepers.old.places c) mutex }
    ensures places { sleepers.new.places ≡ map.remove sleepers.old.places c }
    ensures room { sleepers.old.room ≤ sleepers.new.room }
{
    match sleepers.take(c) {
        Some(s) => s,
        None => Sleepers {
            mutex,
            threads: Line::make(alloc),
        },
    }
}

/// Those who stay at a condition variable, if there are any, are put back.
fn put_line(sleepers: &mut Table<Sleepers>, c: u64, mutex: u64, threads: Line)
    requires { 0 < sleepers.old.room }
    ensures { sleepers.new.places ≡ with_line sleepers.old.places c mutex threads }
{
    if threads.len() > 0 {
        sleepers.put(c, Sleepers { mutex, threads });
    }
}

impl Rooms {
    /// No object is there, and no thread waits. `AllocError` comes only where no memory is left.
    pub fn make(alloc: Global) -> Result<Rooms, AllocError>
        ensures { IfOk result (λ rooms. rooms.state ≡ no_rooms) }
    {
        Ok(Rooms {
            sleepers: Table::make(alloc),
            barriers: Table::make(alloc),
            controls: Table::make(alloc),
            phases: Phases::make(alloc),
            rounds: 0,
            spare: Vec::with_capacity(alloc, 64)?,
            longest: 0,
            room: 0,
            alloc,
        })
    }

    /// Makes room for the next call of [`Rooms::ask`], which takes memory where there is none. Nothing else changes,
    /// also where no memory is left, which is the one cause of `AllocError`.
    pub fn reserve(&mut self) -> Result<(), AllocError>
        ensures state { self.new.state ≡ self.old.state }
        ensures room { OnOk result (0 < self.new.room) }
        ensures kept { self.old.room ≤ self.new.room }
    {
        self.sleepers.reserve()?;
        self.barriers.reserve()?;
        self.controls.reserve()?;
        self.phases.reserve(self.longest + 1)?;
        self.spare.clear();
        self.spare.reserve(self.longest + 1)?;
        self.room = 1;
        Ok(())
    }

    /// Carries out the call `name` of thread `t`, with rdi, rsi and rdx in `args`. It takes no memory: the room for it
    /// comes from [`Rooms::reserve`]. On `Waits` and on `Deep` nothing changes.
    ///
    /// Of `CondWait`, `holds` says that `t` holds the mutex, and `free` that no thread holds it and `t` may take it. Of
    /// `Once`, `free` says that `t` may begin a routine. All else asks for neither.
    pub fn ask(
        &mut self,
        t: u32,
        name: SyncName,
        args: [u64; 3],
        holds: bool,
        free: bool,
    ) -> Outcome
        requires reserved { 0 < self.old.room }
        requires rounds { self.old.state.rounds < 2 ^ 64 - 1 }
        ensures row { row self.old.state t name args holds free ≡ told self.new.state result }
        ensures refused { is_refused result ≡ true → self.new ≡ self.old }
        // It uses up the room of one call at most.
        ensures room { self.old.room ≤ self.new.room + 1 }
    {
        let [a1, a2, a3] = args;
        match name {
            SyncName::CondInit => cond_init(self, a1, a2),
            SyncName::CondDestroy => cond_destroy(self, a1),
            SyncName::CondWait => cond_wait(self, t, a1, a2, holds, free),
            SyncName::CondSignal => cond_signal(self, a1),
            SyncName::CondBroadcast => cond_broadcast(self, a1),
            SyncName::BarrierInit => barrier_init(self, a1, a2, a3),
            SyncName::BarrierWait => barrier_wait(self, t, a1),
            SyncName::BarrierDestroy => barrier_destroy(self, a1),
            SyncName::Once => once(self, t, a1, free),
        }
    }

    /// Whether the call would answer `Waits`.
    pub fn waits(&self, t: u32, name: SyncName, args: [u64; 3], holds: bool, free: bool) -> bool
        ensures { result ≡ waits self.now.state t name args holds free }
    {
        let [a1, _, _] = args;
        match name {
            SyncName::CondWait => cond_wait_waits(self, t, free),
            SyncName::BarrierWait => barrier_wait_waits(self, t),
            SyncName::Once => once_waits(self, a1),
            _ => false,
        }
    }

    /// The round that thread `t` passed and didn't go on from, else the round of the barrier. `None` exactly where
    /// neither is there.
    #[tactic(auto, unfolding(crate::specs::Barriers::round_at))]
    pub fn round(&self, t: u32, barrier: u64) -> Option<u64>
        ensures { result ≡ round_at self.now.state t barrier }
    {
        match self.phase(t) {
            Some(Phase::Passed { round }) => Some(round),
            _ => match self.barrier(barrier) {
                Some(there) => Some(there.round),
                None => None,
            },
        }
    }

    /// The routine of a control ran. Takes no memory, and keeps the room for the next call.
    pub fn finish(&mut self, control: u64)
        requires { is_running self.old.state control ≡ true }
        ensures state { self.new.state ≡ with_control self.old.state control Done }
        ensures room { self.new.room ≡ self.old.room }
    {
        self.controls.set(control, Control::Done);
    }

    /// Whether the routine of a control runs.
    pub fn is_running(&self, control: u64) -> bool
        ensures { result ≡ is_running self.now.state control }
    {
        match self.control(control) {
            Some(Control::Running(_)) => true,
            Some(Control::Done) => false,
            None => false,
        }
    }

    /// How many rounds of barriers were drawn.
    pub fn rounds(&self) -> u64
        ensures { result ≡ self.now.state.rounds }
    {
        self.rounds
    }

    /// The phase of thread `t`.
    pub(crate) fn phase(&self, t: u32) -> Option<Phase>
        ensures { result ≡ phase_of self.now.state t }
    {
        self.phases.find(t)
    }

    /// Thread `t` waits for nothing from now on.
    pub(crate) fn clear_phase(&mut self, t: u32)
        ensures state { self.new.state ≡ without_phase self.old.state t }
        ensures room { self.old.room ≤ self.new.room + 1 }
    {
        self.phases.take(t);
    }

    /// Whether any thread sleeps at a condition variable.
    pub(crate) fn has_sleeper(&self, c: u64) -> bool
        ensures { result ≡ has_sleeper self.now.state c }
    {
        self.sleepers.find(c).is_some()
    }

    /// The mutex that the sleepers at a condition variable let go of.
    pub(crate) fn mutex_of(&self, c: u64) -> Option<u64>
        ensures { result ≡ option_map (λ s. s.mutex) (map.get self.now.state.sleepers c) }
    {
        match self.sleepers.find(c) {
            Some(s) => Some(s.mutex),
            None => None,
        }
    }

    /// Thread `t` comes to sleep at a condition variable, as the last one there.
    pub(crate) fn fall_asleep(&mut self, t: u32, c: u64, mutex: u64)
        requires { 0 < self.old.room }
        ensures state { self.new.state ≡ fallen_asleep self.old.state t c mutex }
        ensures room { self.old.room ≤ self.new.room + 1 }
    {
        let mut s = take_sleepers(&mut self.sleepers, c, mutex, self.alloc);
        s.threads.join(t, &mut self.spare);
        self.longest = self.longest.max(s.threads.len());
        self.sleepers.put(c, s);
        self.phases.put(t, Phase::Asleep);
        self.room = 0;
    }

    /// The first who sleeps at a condition variable is woken.
    pub(crate) fn wake_first(&mut self, c: u64)
        requires { 0 < self.old.room }
        ensures state { self.new.state ≡ signalled self.old.state c (map.get self.old.state.sleepers c) }
        ensures room { self.old.room ≤ self.new.room + 1 }
    {
        let Some(s) = self.sleepers.take(c) else {
            return;
        };
        let Sleepers { mutex, mut threads } = s;
        set_phases(&mut self.phases, threads.first(), Phase::Woken { mutex });
        threads.leave();
        put_line(&mut self.sleepers, c, mutex, threads);
        self.room = 0;
    }

    /// All who sleep at a condition variable are woken.
    pub(crate) fn wake_all(&mut self, c: u64)
        requires { 0 < self.old.room }
        ensures state { self.new.state ≡ all_woken self.old.state c (map.get self.old.state.sleepers c) }
        ensures room { self.old.room ≤ self.new.room + 1 }
    {
        let Some(s) = self.sleepers.take(c) else {
            return;
        };
        let mutex = s.mutex;
        set_phases(
            &mut self.phases,
            s.threads.threads(),
            Phase::Woken { mutex },
        );
        self.room = 0;
    }

    /// What is kept of a barrier.
    pub(crate) fn barrier(&self, b: u64) -> Option<&Barrier>
        ensures { option_map (λ barrier. barrier.now) result ≡ map.get self.now.state.barriers b }
    {
        self.barriers.find(b)
    }

    /// A barrier is there, in a new round that none arrived in.
    pub(crate) fn start_round(&mut self, b: u64, count: u32)
        requires reserved { 0 < self.old.room }
        requires rounds { self.old.state.rounds < 2 ^ 64 - 1 }
        ensures state { self.new.state ≡ with_new_round self.old.state b count }
        ensures room { self.old.room ≤ self.new.room + 1 }
    {
        let barrier = Barrier {
            count,
            waiters: Line::make(self.alloc),
            round: self.rounds,
        };
        self.barriers.put(b, barrier);
        self.rounds += 1;
        self.room = 0;
    }

    /// Thread `t` joins those who wait at a barrier.
    pub(crate) fn join_barrier(&mut self, t: u32, b: u64)
        requires reserved { 0 < self.old.room }
        requires there { IsSome (map.get self.old.state.barriers b) }
        ensures state { IfSome (map.get self.old.state.barriers b) (λ barrier. self.new.state ≡ joined self.old.state t b barrier) }
        ensures room { self.old.room ≤ self.new.room + 1 }
    {
        let mut barrier = self.barriers.take(b).unwrap();
        barrier.waiters.join(t, &mut self.spare);
        self.longest = self.longest.max(barrier.waiters.len());
        self.barriers.put(b, barrier);
        self.phases.put(t, Phase::AtBarrier);
        self.room = 0;
    }

    /// A barrier opens.
    pub(crate) fn open_barrier(&mut self, b: u64)
        requires reserved { 0 < self.old.room }
        requires rounds { self.old.state.rounds < 2 ^ 64 - 1 }
        requires there { IsSome (map.get self.old.state.barriers b) }
        ensures state { IfSome (map.get self.old.state.barriers b) (λ barrier. self.new.state ≡ opened self.old.state b barrier) }
        ensures room { self.old.room ≤ self.new.room + 1 }
    {
        let barrier = self.barriers.take(b).unwrap();
        let round = barrier.round;
        set_phases(
            &mut self.phases,
            barrier.waiters.threads(),
            Phase::Passed { round },
        );
        let next = Barrier {
            count: barrier.count,
            waiters: Line::make(self.alloc),
            round: self.rounds,
        };
        self.barriers.put(b, next);
        self.rounds += 1;
        self.room = 0;
    }

    /// A barrier goes.
    pub(crate) fn drop_barrier(&mut self, b: u64)
        ensures state { self.new.state ≡ record self.old.state { barriers = map.remove self.old.state.barriers b } }
        ensures room { self.old.room ≤ self.new.room + 1 }
    {
        let _barrier = self.barriers.take(b);
    }

    /// The control of a `pthread_once`.
    pub(crate) fn control(&self, control: u64) -> Option<Control>
        ensures { result ≡ map.get self.now.state.controls control }
    {
        self.controls.find(control).copied()
    }

    /// The control's routine runs, begun by thread `t`.
    pub(crate) fn run(&mut self, control: u64, t: u32)
        requires { 0 < self.old.room }
        ensures state { self.new.state ≡ with_control self.old.state control (Running t) }
        ensures room { self.old.room ≤ self.new.room + 1 }
    {
        self.controls.put(control, Control::Running(t));
        self.room = 0;
    }
}
