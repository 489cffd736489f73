//! A guest with a pass to the shared state.

ghost use Rattle.std.specs.Prelude.{◌≡◌, Some};
ghost use Rattle.turn_lock.specs.declared.pass.Pass.{Pass as PassData};
ghost use Rattle.turn_lock.specs.Words.{lock_of, pass_number};
ghost use Rattle.thread_step.specs.Context.{HallOf, IsContext, Saw, context_pass, context_slot, context_steps};
ghost use Rattle.thread_step.specs.Guest.{IsReady, guest_slot, private_steps};

use crate::guest::Guest;
use crate::shared::SharedHall;
use turn_lock::Pass;

/// The guest of a slot, and a pass of the slot's number to the shared state, which is with the turn while one runs.
#[derive(Drop)]
pub struct Context {
    pub(crate) guest: Guest,
    pub(crate) pass: Option<Pass<SharedHall>>,
    pub(crate) made: u64,
}

impl Context {
    /// A guest with a pass of its slot's number. In a state that the pass saw, in which the guest is ready for a turn, the
    /// context is.
    pub fn make(guest: Guest, pass: Pass<SharedHall>) -> Context
        requires number { pass_number pass ≡ guest_slot guest }
        ensures context { (h : HallOf) → Saw pass h → IsReady h guest → IsContext (lock_of pass) result h }
        ensures slot { context_slot result ≡ guest_slot guest }
        ensures steps { context_steps result ≡ private_steps guest }
        ensures pass { context_pass result ≡ Some pass }
    {
        Context {
            guest,
            pass: Some(pass),
            made: 0,
        }
    }

    /// Gives the pass back.
    pub fn into_pass(self) -> Pass<SharedHall>
        requires there { (p : PassData HallOf) × (context_pass self ≡ Some p) }
        ensures pass { context_pass self ≡ Some result }
    {
        let Context {
            guest: _guest,
            pass,
            made: _made,
        } = self;
        let Some(pass) = pass else { unreachable!() };
        pass
    }
}
