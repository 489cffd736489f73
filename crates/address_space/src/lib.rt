//! The addresses that the guest's machine keeps for itself, and the slots in which its threads live.
//!
//! Two doors, at which no instruction stands but a call that the library made ends; the stacks, one for each slot; and
//! the reserved addresses, which have all of these and which no segment of a program may meet. Each number stands here
//! as a constant and nowhere else; `specs/Addresses.antt` says where a slot's stack is and `specs/Slots.antt` which slot
//! a thread's number belongs to. Whatever lays out memory, bears threads or tells code places stands on this crate.
#![tactic(auto)]

ghost use Rattle.std.specs.Prelude.{◌≡◌, ◌<◌, ◌*◌, ◌+◌, ◌^◌};
ghost use Rattle.address_space.specs.Addresses.{bottom, top};
ghost use Rattle.address_space.specs.Slots.{generation_of, number_in, slot_of};

/// How many threads may live, or have ended and aren't joined, at once: each has a slot.
pub const SLOTS: u32 = 64;

/// The address to which a thread's start function returns. No instruction stands there.
pub const END_DOOR: u64 = 0x7000_00ff_0000;

/// The address to which a function returns that the library called back. No instruction stands there.
pub const CALL_DOOR: u64 = 0x7000_00ff_0010;

/// The first address that no segment of a program may have.
pub const FIRST_RESERVED: u64 = 0x7000_0000_0000;

/// The first address after those that no segment of a program may have.
pub const AFTER_RESERVED: u64 = 0x7000_0100_0000;

/// How far the stacks' tops are apart, in bytes.
pub const STACK_DISTANCE: u64 = 0x2_0000;

/// How many bytes a stack has.
pub const STACK_SIZE: u64 = 65_536;

/// The first address after the lower half of the canonical addresses (Intel SDM Volume 1, section 3.3.7.1), 2^47:
/// no byte of a program stands there or above.
pub const ADDRESS_END: u64 = 0x8000_0000_0000;

/// The first address above the stack of a slot's threads.
pub fn stack_top(slot: u32) -> u64
    requires { slot < 64 }
    ensures { result ≡ top slot }
{
    FIRST_RESERVED + (slot as u64 + 1) * STACK_DISTANCE
}

/// The lowest address of the stack of a slot's threads.
pub fn stack_bottom(slot: u32) -> u64
    requires { slot < 64 }
    ensures { result ≡ bottom slot }
{
    FIRST_RESERVED + (slot as u64 + 1) * STACK_DISTANCE - STACK_SIZE
}

/// The slot of the thread with this number, below 64.
#[tactic(auto, unfolding(crate::specs::Slots::slot_of))]
pub fn slot_of(thread: u32) -> u32
    ensures slot { result ≡ slot_of thread }
    ensures below { result < 64 }
{
    thread % SLOTS
}

/// How many threads of its slot came before the thread with this number.
#[tactic(auto, unfolding(crate::specs::Slots::generation_of))]
pub fn generation_of(thread: u32) -> u32
    ensures generation { result ≡ generation_of thread }
    ensures below { result < 2 ^ 26 }
{
    thread / SLOTS
}

/// The number of the thread of a slot before which so many came.
#[tactic(auto, unfolding(crate::specs::Slots::number_in))]
pub fn number_in(slot: u32, generation: u32) -> u32
    requires slot { slot < 64 }
    requires fits { generation < 2 ^ 26 }
    ensures { result ≡ number_in slot generation }
{
    generation * SLOTS + slot
}
