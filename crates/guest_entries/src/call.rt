//! Requests of the library.

ghost use Rattle.std.specs.Prelude.{◌≡◌, ◌<◌, ◌++◌, ◌∷◌, [], ℕ, true, List, OnErr, OnOk, length};
ghost use Rattle.callbacks.specs.declared.Frame.{Frame as FrameData};
ghost use Rattle.lib_table.specs.Row.{waits};
ghost use Rattle.machine_model.specs.Gated.{Stand};
ghost use Rattle.machine_model.specs.Step.{frames_before, without_top};
ghost use Rattle.hall_core.specs.Hall.{both, machine};
ghost use Rattle.guest_parts.specs.Calls.{FitsRegisters, frames_after, guest_after, place_after, request_of};
ghost use Rattle.guest_steps.specs.declared.own.Position.TheVariants as at;
ghost use Rattle.guest_steps.specs.declared.stretch.Came.TheVariants as came;
ghost use Rattle.guest_entries.specs.Called.{FitsAfter, at_after, data_after};
ghost use Rattle.guest_steps.specs.Kept.{Table};
ghost use Rattle.guest_entries.specs.Entered.{AlongIn, CallIs, Waited};
ghost use Rattle.guest_steps.specs.Own.{data_of};
ghost use Rattle.guest_steps.specs.Stretched.{StopsAt};

use crate::flushes::flush_all;
use callbacks::Frame;
use guest_parts::{
    calls_in_turns, calls_leave_guests, entries_leave_guests, place_after, request, take_answer,
};
use guest_steps::own::{Own, Position};
use hall_core::Hall;
use ir_syntax::Block;
use lib_table::{Ask, Asked, Called, Stepped};
use machine_model::laws::calls_back;
use std::alloc::AllocError;

// Room for one call back more, which a frame of no call holds.
fn hold(frames: &mut Vec<Frame>) -> Result<(), AllocError>
    ensures ok { OnOk result ((x : FrameData) × (frames.new.items ≡ frames.old.items ++ x ∷ [])) }
    ensures err { OnErr result (frames.new.items ≡ frames.old.items) }
{
    frames.push(Frame {
        key: 0,
        base: 0,
        lo: 0,
        hi: 0,
        size: 0,
        compar: 0,
        rsp: 0,
        back: 0,
        control: None,
    })?;
    Ok(())
}

// The last frame becomes this one.
fn put_last(frames: &mut Vec<Frame>, frame: Frame)
    ensures { (kept : List FrameData) (x : FrameData) → frames.old.items ≡ kept ++ x ∷ [] → frames.new.items ≡ kept ++ frame ∷ [] }
{
    let count = frames.len();
    if count > 0 {
        frames[count - 1] = frame;
    }
}

// The last frame but one goes, if there is one.
fn drop_under(frames: &mut Vec<Frame>)
    ensures { (kept : List FrameData) (x : FrameData) → frames.old.items ≡ kept ++ x ∷ [] → (y : FrameData) × (frames.new.items ≡ without_top kept ++ y ∷ []) }
{
    if frames.len() > 1 {
        let _held = frames.pop();
    }
}

// The room that is held goes to this call back, in place of the innermost one before, if there is one.
fn put_over(frames: &mut Vec<Frame>, frame: Frame)
    ensures { (kept : List FrameData) (x : FrameData) → frames.old.items ≡ kept ++ x ∷ [] → frames.new.items ≡ without_top kept ++ frame ∷ [] }
{
    drop_under(frames);
    put_last(frames, frame);
}

// The room that is held goes to this call back, which takes the place of the innermost one where a comparator returned.
fn put_top(frames: &mut Vec<Frame>, what: Asked, frame: Frame)
    ensures { (kept : List FrameData) (x : FrameData) → frames.old.items ≡ kept ++ x ∷ [] → frames.new.items ≡ frames_before what kept ++ frame ∷ [] }
{
    match what {
        Asked::CallDoor => put_over(frames, frame),
        Asked::EndDoor | Asked::Lib(_) => put_last(frames, frame),
    }
}

// The calls back after an answer, where room for one more is held.
fn renew(frames: &mut Vec<Frame>, what: Asked, called: Called)
    ensures { (kept : List FrameData) (x : FrameData) → frames.old.items ≡ kept ++ x ∷ [] → frames.new.items ≡ frames_after what called kept }
{
    match called {
        Called::Probe { frame, .. } => put_top(frames, what, frame),
        Called::Back { popped, .. } => {
            let _held = frames.pop();
            if popped {
                let _over = frames.pop();
            }
        }
        Called::Stay | Called::Over => {
            let _held = frames.pop();
        }
    }
}

// The guest, which asked at `a` and holds room for one call back more, goes on with the answer.
fn go_on(own: &mut Own, a: u64, what: Asked, called: Called)
    ensures guest { (kept : List FrameData) (x : FrameData) → own.old.frames.items ≡ kept ++ x ∷ [] → data_of own.new ≡ guest_after (record (data_of own.old) { frames = kept }) a what called }
    ensures at { own.new.at ≡ at.Between (place_after called a) }
    ensures fits { FitsRegisters called }
{
    take_answer(&mut own.state, called);
    own.at = Position::Between(place_after(called, a));
    renew(&mut own.frames, what, called);
    own.k = 0;
}

// The same for any answer; a guest that has to wait is as before, without the room.
fn follow(own: &mut Own, a: u64, what: Asked, step: Stepped)
    ensures guest { (kept : List FrameData) (x : FrameData) → own.old.frames.items ≡ kept ++ x ∷ [] → data_of own.new ≡ data_after (record (data_of own.old) { frames = kept }) a what step }
    ensures at { own.new.at ≡ at_after own.old.at a step }
    ensures fits { FitsAfter step }
{
    match step {
        Stepped::Done(called) => go_on(own, a, what, called),
        Stepped::Waits => {
            let _held = own.frames.pop();
        }
        Stepped::Bad(_) => {
            let _held = own.frames.pop();
            own.k = 0;
        }
    }
}

// The thread has to wait: its private steps are told, and it is marked.
fn wait(own: &mut Own, hall: &mut Hall<Block>, t: u32, a: u64, ask: &Ask)
    requires room { 0 < hall.old.spare }
    requires none { own.old.ages ≡ [] }
    requires asks { (table : Table) × (d : Stand) × AlongIn hall.old t own.old table d × StopsAt (came.Library a ask.now.what) hall.old.case (both hall.old) own.old d }
    requires is { ask.now ≡ request_of (data_of own.old) ask.now.what }
    requires waits { waits (machine hall.old).library (machine hall.old).tso.memory t ask.now ≡ true }
    ensures { (table : Table) (d : Stand) → AlongIn hall.old t own.old table d → StopsAt (came.Library a ask.now.what) hall.old.case (both hall.old) own.old d → Waited hall.old hall.new t own.old own.new table d }
{
    hall.facts();
    hall.wait(t, own.k, ask);
    own.k = 0;
}

// The thread's request.
fn ask_of(own: &Own, hall: &Hall<Block>, what: Asked) -> Ask
    requires { (table : Table) × (t : ℕ) × (d : Stand) × AlongIn hall.now t own.now table d }
    ensures { result ≡ request_of (data_of own.now) what }
{
    calls_back();
    hall.facts();
    request(&own.state, &own.frames, what)
}

// The thread asks the library, at `a`, where none of its writes waits.
fn serve(
    own: &mut Own,
    hall: &mut Hall<Block>,
    t: u32,
    a: u64,
    what: Asked,
) -> Result<bool, AllocError>
    requires room { 0 < hall.old.spare }
    requires none { own.old.ages ≡ [] }
    requires asks { (table : Table) × (d : Stand) × AlongIn hall.old t own.old table d × StopsAt (came.Library a what) hall.old.case (both hall.old) own.old d }
    ensures { (table : Table) (d : Stand) → AlongIn hall.old t own.old table d → StopsAt (came.Library a what) hall.old.case (both hall.old) own.old d → CallIs result hall.old hall.new t own.old own.new table d }
{
    let ask = ask_of(own, hall, what);
    hold(&mut own.frames)?;
    let step = match hall.call(t, own.k, a, &ask) {
        Ok(step) => step,
        Err(e) => {
            let _held = own.frames.pop();
            return Err(e);
        }
    };
    follow(own, a, what, step);
    match step {
        Stepped::Waits => {
            wait(own, hall, t, a, &ask);
            Ok(true)
        }
        Stepped::Done(_) => Ok(false),
        Stepped::Bad(_) => Ok(false),
    }
}

/// All waiting writes go to memory, and then the thread asks the library, at `a`. Where it has to wait, its private steps
/// are told, it is marked, and the answer is true.
///
/// # Errors
///
/// Memory is wanting; the guest stands with its thread, which asks again.
pub fn call(
    own: &mut Own,
    hall: &mut Hall<Block>,
    t: u32,
    a: u64,
    what: Asked,
) -> Result<bool, AllocError>
    requires room { length own.old.ages < hall.old.spare }
    requires asks { (table : Table) × (d : Stand) × AlongIn hall.old t own.old table d × StopsAt (came.Library a what) hall.old.case (both hall.old) own.old d }
    ensures { (table : Table) (d : Stand) → AlongIn hall.old t own.old table d → StopsAt (came.Library a what) hall.old.case (both hall.old) own.old d → CallIs result hall.old hall.new t own.old own.new table d }
{
    flush_all(hall, t, &mut own.ages);
    serve(own, hall, t, a, what)
}
