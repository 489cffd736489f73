//! One small type of the lower crates as another.

ghost use Rattle.std.specs.Prelude.{◌≡◌};
ghost use Rattle.machine_model.specs.Conversions.{asked_at, kind_of, memory_change_of, memory_width_of, request_change_of, request_kind_of, request_width_of};

use lib_table::{Asked, BadKind};
use x86_model::{BadStep, Door};

/// An operand's width, for memory.
pub fn memory_width(w: x86_forms::Width) -> tso_memory::Width
    ensures { result ≡ memory_width_of w }
{
    match w {
        x86_forms::Width::W8 => tso_memory::Width::W8,
        x86_forms::Width::W16 => tso_memory::Width::W16,
        x86_forms::Width::W32 => tso_memory::Width::W32,
        x86_forms::Width::W64 => tso_memory::Width::W64,
    }
}

/// A locked instruction's change, for memory.
pub fn memory_change(change: x86_model::Change) -> tso_memory::Change
    ensures { result ≡ memory_change_of change }
{
    match change {
        x86_model::Change::Xchg(v) => tso_memory::Change::Xchg(v),
        x86_model::Change::Add(v) => tso_memory::Change::Add(v),
        x86_model::Change::Sub(v) => tso_memory::Change::Sub(v),
        x86_model::Change::And(v) => tso_memory::Change::And(v),
        x86_model::Change::Or(v) => tso_memory::Change::Or(v),
        x86_model::Change::Xor(v) => tso_memory::Change::Xor(v),
        x86_model::Change::Cmpxchg { want, new } => tso_memory::Change::Cmpxchg { want, new },
    }
}

/// Why an instruction can't be carried out, as a run's ending tells it.
pub fn bad_kind(step: BadStep) -> BadKind
    ensures { result ≡ kind_of step }
{
    match step {
        BadStep::Code => BadKind::Code,
        BadStep::Divide => BadKind::Divide,
    }
}

/// A return to a door, for the library.
pub fn asked(door: Door) -> Asked
    ensures { result ≡ asked_at door }
{
    match door {
        Door::End => Asked::EndDoor,
        Door::Call => Asked::CallDoor,
    }
}

/// The width of an access that a part asks for, for memory.
pub fn request_width(w: ir_syntax::Width) -> tso_memory::Width
    ensures { result ≡ request_width_of w }
{
    match w {
        ir_syntax::Width::W8 => tso_memory::Width::W8,
        ir_syntax::Width::W16 => tso_memory::Width::W16,
        ir_syntax::Width::W32 => tso_memory::Width::W32,
        ir_syntax::Width::W64 => tso_memory::Width::W64,
    }
}

/// The change of a locked line, for memory.
pub fn request_change(change: ir_syntax::Change) -> tso_memory::Change
    ensures { result ≡ request_change_of change }
{
    match change {
        ir_syntax::Change::Xchg(v) => tso_memory::Change::Xchg(v),
        ir_syntax::Change::Add(v) => tso_memory::Change::Add(v),
        ir_syntax::Change::Sub(v) => tso_memory::Change::Sub(v),
        ir_syntax::Change::And(v) => tso_memory::Change::And(v),
        ir_syntax::Change::Or(v) => tso_memory::Change::Or(v),
        ir_syntax::Change::Xor(v) => tso_memory::Change::Xor(v),
        ir_syntax::Change::Cmpxchg { want, new } => tso_memory::Change::Cmpxchg { want, new },
    }
}

/// Why a part can't be carried out, as a run's ending tells it.
pub fn request_kind(kind: ir_syntax::BadKind) -> BadKind
    ensures { result ≡ request_kind_of kind }
{
    match kind {
        ir_syntax::BadKind::Code => BadKind::Code,
        ir_syntax::BadKind::Access(a) => BadKind::Access(a),
        ir_syntax::BadKind::Divide => BadKind::Divide,
        ir_syntax::BadKind::Depth => BadKind::Depth,
        ir_syntax::BadKind::Door => BadKind::Door,
    }
}
