//! The library's data.

ghost use Rattle.std.specs.Prelude.{◌≡◌, ℕ, ◌+◌, ◌<◌, ◌≤◌, ◌^◌, ◌-◌, true, false, slice_index, IfOk, IfSome, OnOk, OnErr, [], length, position};
ghost use Rattle.address_space.specs.Slots.{slot_of};
ghost use Rattle.std.specs.FinMap as map;
ghost use Rattle.lib_table.specs.Library.{HasNumbers, birth, has_number, holder, is_free, is_joined, is_kept, is_live, is_thread, kept_in, life_at, next_number, slot_at, start_of, thread_in, with_held, with_input, with_joined, with_life, with_output, with_rooms, without_held};
ghost use Rattle.sync_more.specs.Barriers.{round_at};
ghost use Rattle.sync_more.specs.Once.{is_running, with_control};
ghost use Rattle.sync_more.specs.declared.ask.SyncName.TheVariants.{CondWait};
ghost use Rattle.sync_more.specs.declared.state.Control.TheVariants.{Done};
ghost use Rattle.sync_more.specs.Rooms.{is_refused, told};
ghost use Rattle.sync_more.specs.Row.{row, waits};
ghost use Rattle.std.specs.List.{list_all};

use crate::held::Held;
use crate::life::Life;
use crate::limits::MAX_OUTPUT;
use crate::slot::{Birth, Slot};
use address_space::{SLOTS, generation_of, number_in, slot_of};
use std::alloc::{AllocError, Global};
use std::marker::Model;
use sync_more::{Outcome, Rooms, SyncName};

/// What the library keeps of a run: the slots in which threads live, the held mutexes, who waits where, the input with
/// the place in it, and the bytes written to outputs 1 and 2.
#[derive(Drop)]
pub struct Library {
    slots: Vec<Slot>,
    held: Held,
    rooms: Rooms,
    input: Vec<u8>,
    place: usize,
    out1: Vec<u8>,
    out2: Vec<u8>,
}

impl Model for Library {
    ghost use Rattle.std.specs.Prelude.{◌≡◌, ℕ, ◌+◌, ◌≤◌, List, length, drop, refl, All};
    ghost use Rattle.std.specs.Coded.{code_by, coded×, coded_list, coded_ℕ};
    ghost use Rattle.std.specs.Ordering.{nat_cmp};
    ghost use Rattle.std.specs.FinMap.{FinMap, code};
    ghost use Rattle.address_space.specs.declared.TheConstants.{SLOTS};
    ghost use Rattle.lib_table.specs.declared.slot.Slot.{Slot};
    ghost use Rattle.lib_table.specs.declared.limits.TheConstants.{MAX_OUTPUT};
    ghost use Rattle.lib_table.specs.contracts.slot.Slot as slot;
    ghost use Rattle.sync_more.specs.Codes.{rooms_code};
    ghost use Rattle.sync_more.specs.Rooms.{RoomsData};
    ghost use Rattle.lib_table.specs.Library.{IsSlot, LibraryData};

    ghost Value = { LibraryData };

    ghost coded = { code_by (List Slot × (FinMap nat_cmp ℕ × (RoomsData × (List ℕ × (List ℕ × List ℕ)))))
        (coded× (coded_list slot.the_row.coded) (coded× (code coded_ℕ coded_ℕ) (coded× rooms_code (coded× (coded_list coded_ℕ) (coded× (coded_list coded_ℕ) (coded_list coded_ℕ))))))
        (λ l. (l.slots, (l.held, (l.rooms, (l.input, (l.out1, l.out2))))))
        (λ p. record { slots = p.0; held = p.1.0; rooms = p.1.1.0; input = p.1.1.1.0; out1 = p.1.1.1.1.0; out2 = p.1.1.1.1.1 }) (λ _. refl) };

    ghost view = { λ l. record {
      slots = l.slots.items;
      held = l.held;
      rooms = l.rooms.state;
      input = drop l.place l.input.items;
      out1 = l.out1.items;
      out2 = l.out2.items;
    } };

    ghost invariant = { λ l. (length l.slots.items ≡ SLOTS) × (All IsSlot l.slots.items) × (l.place ≤ length l.input.items) × (length l.out1.items + length l.out2.items ≤ MAX_OUTPUT) };
}

/// Thread 0 lives in slot 0, and every other slot is free.
fn first_slots(alloc: Global) -> Result<Vec<Slot>, AllocError>
    ensures { IfOk result (λ slots. slots.items ≡ (start_of []).slots) }
{
    let mut slots = Vec::with_capacity(alloc, SLOTS as usize)?;
    slots.push(Slot {
        generation: 0,
        life: Life::Live {
            start: 0,
            argument: 0,
        },
    })?;
    for _ in 0..SLOTS - 1 {
        slots.push(Slot::new())?;
    }
    Ok(slots)
}

/// The first slot without a live or ended thread.
fn first_free(slots: &[Slot]) -> Option<usize>
    ensures { result ≡ position is_free slots.now }
{
    slots.iter().position(|slot| slot.is_free())
}

/// Whether each slot has a number for a further thread, or a thread.
fn all_have_numbers(slots: &[Slot]) -> bool
    ensures { result ≡ list_all has_number slots.now }
{
    slots.iter().all(|slot| slot.has_number())
}

impl Library {
    /// The library as a run begins, with this input: thread 0 alone lives, no mutex is held, and nothing is written.
    pub fn make(alloc: Global, input: Vec<u8>) -> Result<Library, AllocError>
        ensures { IfOk result (λ library. library ≡ start_of input.items) }
    {
        Ok(Library {
            slots: first_slots(alloc)?,
            held: Held::make(alloc),
            rooms: Rooms::make(alloc)?,
            input,
            place: 0,
            out1: Vec::new(alloc),
            out2: Vec::new(alloc),
        })
    }

    /// The slot with this number; from 64 on none has a thread.
    fn slot(&self, s: u32) -> Slot
        ensures slot { result ≡ slot_at self.now s }
        ensures below { is_free result ≡ false → s < SLOTS }
        ensures number { is_free result ≡ false → result.generation < 2 ^ 26 }
        ensures slots { length self.now.slots ≡ SLOTS }
    {
        if s < SLOTS {
            self.slots[s as usize]
        } else {
            Slot::new()
        }
    }

    /// The life of any number of a thread; from 2^32 on none lives or has ended.
    #[tactic(auto, unfolding(address_space::specs::Slots::slot_of, address_space::specs::Slots::generation_of))]
    pub(crate) fn life_of(&self, u: u64) -> Life
        ensures life { result ≡ life_at self.now u }
        ensures number { is_kept result ≡ true → u < 2 ^ 32 }
    {
        self.slot((u % 64) as u32).life_in(u / 64)
    }

    /// What has become of thread number `t`.
    pub fn life(&self, t: u32) -> Life
        ensures life { result ≡ life_at self.now t }
        ensures slots { length self.now.slots ≡ SLOTS }
    {
        self.slot(slot_of(t)).life_in(u64::from(generation_of(t)))
    }

    /// Whether thread `t` lives: it was born, and didn't end.
    pub fn is_live(&self, t: u32) -> bool
        ensures live { result ≡ is_live self.now t }
        ensures slots { length self.now.slots ≡ SLOTS }
    {
        self.life(t).is_running()
    }

    /// The number of the thread that lives in a slot. `None` exactly where none does; the slots are those below 64.
    pub fn thread_in(&self, slot: u32) -> Option<u32>
        ensures { result ≡ thread_in self.now slot }
    {
        let Slot { generation, life } = self.slot(slot);
        match life {
            Life::Live { .. } => Some(number_in(slot, generation)),
            _ => None,
        }
    }

    /// The number of the thread that lives or has ended in a slot: [`Library::life`] tells which, and what it left. `None`
    /// exactly where none does; the slots are those below 64.
    pub fn kept_in(&self, slot: u32) -> Option<u32>
        ensures kept { result ≡ kept_in self.now slot }
        ensures within { IfSome result (λ t. slot_of t ≡ slot) }
        ensures only { (u : ℕ) → slot_of u ≡ slot → is_thread result u ≡ is_kept (life_at self.now u) }
    {
        let Slot { generation, life } = self.slot(slot);
        match life {
            Life::Live { .. } | Life::Ended(_) => Some(number_in(slot, generation)),
            Life::Unborn | Life::Joined => None,
        }
    }

    /// The number, the address of the start function and its argument of the thread that lives in a slot. `None` exactly
    /// where none does, and for slot 0, in which thread 0 lives, which was born for no function.
    pub fn birth(&self, slot: u32) -> Option<Birth>
        ensures { result ≡ birth self.now slot }
    {
        if slot == 0 {
            return None;
        }
        let Slot { generation, life } = self.slot(slot);
        match life {
            Life::Live { start, argument } => Some(Birth {
                thread: number_in(slot, generation),
                start,
                argument,
            }),
            _ => None,
        }
    }

    /// The round of the barrier at `barrier` that thread `t` passed and didn't go on from, else the barrier's round.
    /// `None` exactly where neither is there.
    pub fn round(&self, t: u32, barrier: u64) -> Option<u64>
        ensures { result ≡ round_at self.now.rooms t barrier }
    {
        self.rooms.round(t, barrier)
    }

    /// Whether each slot without a live or ended thread has a number for a further one.
    pub fn has_numbers(&self) -> bool
        ensures numbers { result ≡ true → HasNumbers self.now }
        ensures value { result ≡ list_all has_number self.now.slots }
    {
        all_have_numbers(&self.slots)
    }

    /// How many rounds of barriers were drawn.
    pub fn rounds(&self) -> u64
        ensures { result ≡ self.now.rooms.rounds }
    {
        self.rooms.rounds()
    }

    /// Whether the routine of a control runs.
    pub fn is_running(&self, control: u64) -> bool
        ensures { result ≡ is_running self.now.rooms control }
    {
        self.rooms
            .waits(0, SyncName::Once, [control, 0, 0], false, false)
    }

    /// The bytes that were written to output 1.
    pub fn out1(&self) -> &[u8]
        ensures { result.now ≡ self.now.out1 }
    {
        &self.out1
    }

    /// The bytes that were written to output 2.
    pub fn out2(&self) -> &[u8]
        ensures { result.now ≡ self.now.out2 }
    {
        &self.out2
    }

    /// The number that the next thread gets: of the first slot without a live or ended thread. `None` where each has one.
    pub(crate) fn next_number(&self) -> Option<u32>
        requires { HasNumbers self.now }
        ensures { result ≡ next_number self.now }
    {
        let slot = first_free(&self.slots)?;
        Some(number_in(slot as u32, self.slots[slot].generation))
    }

    /// A thread was born, or ended.
    pub(crate) fn set_life(&mut self, t: u32, life: Life)
        requires { is_joined life ≡ false }
        ensures { self.new ≡ with_life self.old t life }
    {
        self.slots[slot_of(t) as usize] = Slot {
            generation: generation_of(t),
            life,
        };
    }

    /// A thread that had ended was joined: its slot is free.
    pub(crate) fn join(&mut self, u: u32)
        ensures { self.new ≡ with_joined self.old u }
    {
        self.slots[slot_of(u) as usize] = Slot {
            generation: generation_of(u) + 1,
            life: Life::Unborn,
        };
    }

    /// The thread that holds the mutex at `a`.
    pub(crate) fn holder(&self, a: u64) -> Option<u32>
        ensures { result ≡ holder self.now a }
    {
        self.held.holder(a)
    }

    /// How many mutexes are held.
    pub(crate) fn held_count(&self) -> usize
        ensures { result ≡ map.len self.now.held }
    {
        self.held.count()
    }

    pub(crate) fn take_mutex(&mut self, a: u64, t: u32) -> Result<(), AllocError>
        ensures ok { OnOk result (self.new ≡ with_held self.old a t) }
        ensures err { OnErr result (self.new ≡ self.old) }
    {
        self.held.take(a, t)
    }

    pub(crate) fn release_mutex(&mut self, a: u64)
        ensures { self.new ≡ without_held self.old a }
    {
        self.held.release(a);
    }

    /// Carries out a call of condition variables, barriers or once, for which memory is taken first; nothing changes where
    /// there is none. Which mutexes are held stays as it was.
    pub(crate) fn ask_rooms(
        &mut self,
        t: u32,
        name: SyncName,
        args: [u64; 3],
        holds: bool,
        free: bool,
    ) -> Result<Outcome, AllocError>
        requires { self.old.rooms.rounds < 2 ^ 64 - 1 }
        ensures row { IfOk result (λ outcome. row self.old.rooms t name args holds free ≡ told self.new.rooms outcome) }
        ensures library { OnOk result (self.new ≡ with_rooms self.old self.new.rooms) }
        ensures refused { IfOk result (λ outcome. is_refused outcome ≡ true → self.new ≡ self.old) }
        ensures err { OnErr result (self.new ≡ self.old) }
    {
        self.rooms.reserve()?;
        Ok(self.rooms.ask(t, name, args, holds, free))
    }

    /// Carries out a call of `pthread_cond_wait` by which thread `t`, which was woken, goes on and holds the mutex of the
    /// call. Memory is taken first; nothing changes where there is none.
    pub(crate) fn wake(
        &mut self,
        t: u32,
        args: [u64; 3],
        holds: bool,
        free: bool,
    ) -> Result<Outcome, AllocError>
        requires { self.old.rooms.rounds < 2 ^ 64 - 1 }
        ensures row { IfOk result (λ outcome. row self.old.rooms t CondWait args holds free ≡ told self.new.rooms outcome) }
        ensures library { OnOk result (self.new ≡ with_held (with_rooms self.old self.new.rooms) (slice_index args 1) t) }
        ensures err { OnErr result (self.new ≡ self.old) }
    {
        self.rooms.reserve()?;
        self.held.take(args[1], t)?;
        Ok(self.rooms.ask(t, SyncName::CondWait, args, holds, free))
    }

    /// Whether a call of condition variables, barriers or once would wait.
    pub(crate) fn rooms_wait(
        &self,
        t: u32,
        name: SyncName,
        args: [u64; 3],
        holds: bool,
        free: bool,
    ) -> bool
        ensures { result ≡ waits self.now.rooms t name args holds free }
    {
        self.rooms.waits(t, name, args, holds, free)
    }

    /// The routine of a control ran.
    pub(crate) fn finish(&mut self, control: u64)
        requires { is_running self.old.rooms control ≡ true }
        ensures { self.new ≡ with_rooms self.old (with_control self.old.rooms control Done) }
    {
        self.rooms.finish(control);
    }

    /// The input that is still to come.
    pub(crate) fn input(&self) -> &[u8]
        ensures { result.now ≡ self.now.input }
    {
        &self.input[self.place..]
    }

    pub(crate) fn skip_input(&mut self, n: usize)
        requires { n ≤ length self.old.input }
        ensures { self.new ≡ with_input self.old n }
    {
        self.place += n;
    }

    /// How many bytes both outputs have.
    pub(crate) fn written(&self) -> u64
        ensures count { result ≡ length self.now.out1 + length self.now.out2 }
        ensures limit { result ≤ MAX_OUTPUT }
    {
        (self.out1.len() + self.out2.len()) as u64
    }

    /// Appends bytes to output 1 or 2.
    pub(crate) fn append(&mut self, fd: u64, bytes: &[u8]) -> Result<(), AllocError>
        requires { length self.old.out1 + length self.old.out2 + length bytes.now ≤ MAX_OUTPUT }
        ensures ok { OnOk result (self.new ≡ with_output self.old fd bytes.now) }
        ensures err { OnErr result (self.new ≡ self.old) }
    {
        if fd == 1 {
            self.out1.extend_from_slice(bytes)
        } else {
            self.out2.extend_from_slice(bytes)
        }
    }
}
