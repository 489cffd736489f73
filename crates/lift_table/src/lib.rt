//! How code is lifted: the table that says which parts of the register language each instruction becomes, and what it is
//! for parts to follow a thread.
//!
//! - `specs/LiftLines.antt` has the lines, `specs/LiftTable.antt` the table (`lifted`).
//! - `specs/Follow.antt` says when the parts of one instruction follow a thread (`Lifts`).
//! - `specs/Faithful.antt` says when a guest's registers, flags and temporaries match its thread before a part, and when
//!   the parts of a block are faithful; `specs/Block.antt` has the block at a code place (`lifted_block`), faithful blocks
//!   (`IsFaithful`), and the guest that stands at a part of a block (`StandsAt`).
//!
//! The calls change the small types of instructions into those of the register language. `lift_alu` and `lift_mem`
//! give the parts of the table and prove that they follow; `block_lift` gives whole blocks.
#![tactic(auto)]

ghost use Rattle.std.specs.Prelude.{◌≡◌};
ghost use Rattle.lift_table.specs.Follow.{ir_change};
ghost use Rattle.lift_table.specs.LiftLines.{ir_cond, ir_width};

/// An operand's width, for the register language.
pub fn ir_width(w: x86_forms::Width) -> ir_syntax::Width
    ensures { result ≡ ir_width w }
{
    match w {
        x86_forms::Width::W8 => ir_syntax::Width::W8,
        x86_forms::Width::W16 => ir_syntax::Width::W16,
        x86_forms::Width::W32 => ir_syntax::Width::W32,
        x86_forms::Width::W64 => ir_syntax::Width::W64,
    }
}

/// An instruction's condition, for the register language.
pub fn ir_cond(cc: x86_forms::Cond) -> ir_syntax::Cond
    ensures { result ≡ ir_cond cc }
{
    match cc {
        x86_forms::Cond::O => ir_syntax::Cond::O,
        x86_forms::Cond::No => ir_syntax::Cond::No,
        x86_forms::Cond::B => ir_syntax::Cond::B,
        x86_forms::Cond::Ae => ir_syntax::Cond::Ae,
        x86_forms::Cond::E => ir_syntax::Cond::E,
        x86_forms::Cond::Ne => ir_syntax::Cond::Ne,
        x86_forms::Cond::Be => ir_syntax::Cond::Be,
        x86_forms::Cond::A => ir_syntax::Cond::A,
        x86_forms::Cond::S => ir_syntax::Cond::S,
        x86_forms::Cond::Ns => ir_syntax::Cond::Ns,
        x86_forms::Cond::P => ir_syntax::Cond::P,
        x86_forms::Cond::Np => ir_syntax::Cond::Np,
        x86_forms::Cond::L => ir_syntax::Cond::L,
        x86_forms::Cond::Ge => ir_syntax::Cond::Ge,
        x86_forms::Cond::Le => ir_syntax::Cond::Le,
        x86_forms::Cond::G => ir_syntax::Cond::G,
    }
}

/// A locked instruction's change, for the register language.
pub fn ir_change(change: x86_model::Change) -> ir_syntax::Change
    ensures { result ≡ ir_change change }
{
    match change {
        x86_model::Change::Xchg(v) => ir_syntax::Change::Xchg(v),
        x86_model::Change::Add(v) => ir_syntax::Change::Add(v),
        x86_model::Change::Sub(v) => ir_syntax::Change::Sub(v),
        x86_model::Change::And(v) => ir_syntax::Change::And(v),
        x86_model::Change::Or(v) => ir_syntax::Change::Or(v),
        x86_model::Change::Xor(v) => ir_syntax::Change::Xor(v),
        x86_model::Change::Cmpxchg { want, new } => ir_syntax::Change::Cmpxchg { want, new },
    }
}
