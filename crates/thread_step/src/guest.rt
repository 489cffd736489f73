//! The guest of a slot's thread.

ghost use Rattle.std.specs.Prelude.{◌≡◌, ◌≢◌, ◌<◌, ℕ, List, [], IfOk, Some, None, true, false};
ghost use Rattle.address_space.specs.Slots.{slot_of};
ghost use Rattle.elf_image.specs.Layout.{ImageData};
ghost use Rattle.lib_table.specs.Library.{birth};
ghost use Rattle.lift_table.specs.Follow.{Agrees};
ghost use Rattle.machine_model.specs.Gated.{Stand, stand_at};
ghost use Rattle.machine_model.specs.State.{thread_in};
ghost use Rattle.hall_core.specs.Hall.{both, machine};
ghost use Rattle.guest_steps.specs.Kept.{AreKept, Table};
ghost use Rattle.thread_step.specs.Guest.{IsNewborn, IsReady, guest_ages, guest_slot, private_steps, starting_core};
ghost use Rattle.thread_step.specs.Turned.{Ready};

use address_space::stack_top;
use guest_state::Virtual;
use guest_steps::ages::Ages;
use guest_steps::kept::Kept;
use guest_steps::own::{Own, Position};
use hall_core::Hall;
use ir_syntax::Block;
use lib_table::Birth;
use std::alloc::{AllocError, Global};

/// The private part of one slot's thread: its registers, where it is in its blocks, its calls back, its private steps since
/// its last entry, how long its writes have waited, and the blocks that it used lately.
#[derive(Drop)]
pub struct Guest {
    pub(crate) alloc: Global,
    pub(crate) slot: u32,
    pub(crate) thread: Option<u32>,
    pub(crate) own: Own,
    pub(crate) table: Vec<Option<Kept>>,
}

// A table without blocks.
fn empty_table(alloc: Global) -> Result<Vec<Option<Kept>>, AllocError>
    ensures { IfOk result (λ table. (image : ImageData) (grown : List ℕ) → AreKept image grown table.items) }
{
    let mut table = Vec::new(alloc);
    for _i in 0..64u32 {
        table.push(None)?;
    }
    Ok(table)
}

// No block is at hand any more.
fn clear(table: &mut Vec<Option<Kept>>)
    ensures { (image : ImageData) (grown : List ℕ) → AreKept image grown table.new.items }
{
    for i in 0..table.len() {
        let _old = table[i].take();
    }
}

// What a thread's start function gets.
fn argument_of(birth: &Birth) -> u64
    ensures { result ≡ birth.now.argument }
{
    birth.argument
}

// The registers of a thread before its first step.
fn start_state(hall: &Hall<Block>, slot: u32) -> Virtual
    requires { slot < 64 }
    ensures { Agrees None result (starting_core hall.now.case slot (birth (machine hall.now).library slot)).cpu }
{
    let mut state = Virtual::make();
    match hall.birth(slot) {
        None => state.regs[4] = hall.start_rsp(),
        Some(birth) => {
            state.regs[7] = argument_of(&birth);
            state.regs[4] = stack_top(slot) - 8;
        }
    }
    state
}

// Where a thread begins.
fn start_place(hall: &Hall<Block>, slot: u32) -> u64
    ensures { result ≡ (starting_core hall.now.case slot (birth (machine hall.now).library slot)).cpu.rip }
{
    match hall.birth(slot) {
        None => hall.image().entry,
        Some(birth) => birth.start,
    }
}

// The guest stands with the thread of its slot, which made no entry yet.
fn start(own: &mut Own, hall: &Hall<Block>, slot: u32)
    requires low { slot < 64 }
    requires new { IsNewborn hall.now slot }
    ensures ready { (table : Table) (t : ℕ) → (machine hall.now).ending ≡ None → thread_in (machine hall.now) slot ≡ Some t → AreKept hall.now.case.image (both hall.now).gate.grown table → Ready hall.now t own.new table (stand_at (both hall.now) (slot_of t)) }
    ensures told { own.new.k ≡ 0 }
    ensures none { own.new.ages ≡ [] }
{
    hall.facts();
    own.state = start_state(hall, slot);
    own.at = Position::Between(start_place(hall, slot));
    own.last = 0;
    own.frames.clear();
    own.k = 0;
    own.ages.clear();
}

impl Guest {
    /// The guest of a slot (0 to 63), before a run's first entry.
    ///
    /// # Errors
    ///
    /// Memory for the guest itself is wanting.
    pub fn make(alloc: Global, slot: u32, hall: &Hall<Block>) -> Result<Guest, AllocError>
        requires low { slot < 64 }
        requires first { hall.now.journal ≡ [] }
        ensures slot { IfOk result (λ g. guest_slot g ≡ slot) }
        ensures told { IfOk result (λ g. private_steps g ≡ 0) }
        ensures none { IfOk result (λ g. guest_ages g ≡ []) }
        ensures ready { IfOk result (λ g. IsReady hall.now g) }
    {
        let table = empty_table(alloc)?;
        let own = Own {
            state: Virtual::make(),
            at: Position::Between(0),
            last: 0,
            frames: Vec::new(alloc),
            k: 0,
            ages: Ages::make(alloc)?,
        };
        Ok(Guest {
            alloc,
            slot,
            thread: None,
            own,
            table,
        })
    }

    // Whether the guest has begun thread t.
    fn has_begun(&self, t: u32) -> bool
        ensures yes { result ≡ true → self.now.thread ≡ Some t }
        ensures no { result ≡ false → self.now.thread ≢ Some t }
    {
        match self.thread {
            Some(u) => u == t,
            None => false,
        }
    }

    /// Begins the thread that lives in the slot, where the guest hasn't begun it.
    pub(crate) fn enter(&mut self, hall: &Hall<Block>, t: u32)
        requires ready { IsReady hall.now self.old }
        requires going { (machine hall.now).ending ≡ None }
        requires lives { thread_in (machine hall.now) self.old.slot ≡ Some t }
        ensures thread { self.new.thread ≡ Some t }
        ensures slot { self.new.slot ≡ self.old.slot }
        ensures told { self.new.own.k ≡ self.old.own.k }
        ensures ages { self.new.own.ages ≡ self.old.own.ages }
        ensures ready { (d : Stand) × Ready hall.now t self.new.own self.new.table.items d }
    {
        if self.has_begun(t) {
            return;
        }
        clear(&mut self.table);
        start(&mut self.own, hall, self.slot);
        self.thread = Some(t);
    }
}
