//! Lines of assembly.

use x86_forms::Instr;

/// A line of assembly.
#[derive(Clone, Copy)]
pub(crate) enum Line {
    /// A label, which the jumps behind it mean, up to the next one.
    Label,
    /// An instruction that names no other place of the code.
    Plain(Instr),
    /// CALL of an address.
    Call(u64),
    /// JNE to the label before it.
    Jne,
}
