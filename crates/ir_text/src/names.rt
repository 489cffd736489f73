//! The names of words, as the text has them.

ghost use Rattle.std.specs.Prelude.{◌≡◌, ◌<◌};
ghost use Rattle.ir_text.specs.Text.{width_name, temp_name, register_name, flag_name, cond_name, family_name, lock_name, sign_name, IsTemp, IsRegister};

use ir_syntax::{Cond, Family, Flag, LockOp, Width};

/// A width.
pub fn width_name(value: Width) -> &'static str
    ensures { result.now ≡ width_name value }
{
    match value {
        Width::W8 => "8",
        Width::W16 => "16",
        Width::W32 => "32",
        Width::W64 => "64",
    }
}

/// A flag.
pub fn flag_name(value: Flag) -> &'static str
    ensures { result.now ≡ flag_name value }
{
    match value {
        Flag::Cf => "cf",
        Flag::Pf => "pf",
        Flag::Zf => "zf",
        Flag::Sf => "sf",
        Flag::Of => "of",
    }
}

/// A condition.
pub fn cond_name(value: Cond) -> &'static str
    ensures { result.now ≡ cond_name value }
{
    match value {
        Cond::O => "o",
        Cond::No => "no",
        Cond::B => "b",
        Cond::Ae => "ae",
        Cond::E => "e",
        Cond::Ne => "ne",
        Cond::Be => "be",
        Cond::A => "a",
        Cond::S => "s",
        Cond::Ns => "ns",
        Cond::P => "p",
        Cond::Np => "np",
        Cond::L => "l",
        Cond::Ge => "ge",
        Cond::Le => "le",
        Cond::G => "g",
    }
}

/// A family.
pub fn family_name(value: Family) -> &'static str
    ensures { result.now ≡ family_name value }
{
    match value {
        Family::Add => "add",
        Family::Adc => "adc",
        Family::Sub => "sub",
        Family::Sbb => "sbb",
        Family::And => "and",
        Family::Or => "or",
        Family::Xor => "xor",
        Family::Shl => "shl",
        Family::Shr => "shr",
        Family::Sar => "sar",
        Family::Rol => "rol",
        Family::Ror => "ror",
        Family::Mul => "mul",
        Family::Umulh => "umulh",
        Family::Smulh => "smulh",
        Family::Umul => "umul",
        Family::Smul => "smul",
        Family::Inc => "inc",
        Family::Dec => "dec",
        Family::Neg => "neg",
        Family::Not => "not",
    }
}

/// What a locked line does.
pub fn lock_name(value: LockOp) -> &'static str
    ensures { result.now ≡ lock_name value }
{
    match value {
        LockOp::Xchg => "xchg",
        LockOp::Add => "add",
        LockOp::Sub => "sub",
        LockOp::And => "and",
        LockOp::Or => "or",
        LockOp::Xor => "xor",
    }
}

/// Whether a division is signed.
pub fn sign_name(signed: bool) -> &'static str
    ensures { result.now ≡ sign_name signed }
{
    if signed { "s" } else { "u" }
}

/// A temporary.
pub fn temp_name(t: u8) -> &'static str
    requires { IsTemp t }
    ensures { result.now ≡ temp_name t }
{
    match t {
        0 => "t0",
        1 => "t1",
        2 => "t2",
        3 => "t3",
        4 => "t4",
        5 => "t5",
        6 => "t6",
        _ => "t7",
    }
}

/// A register.
#[tactic(auto, unfolding(crate::specs::Text::register_name))]
pub fn register_name(r: u8) -> &'static str
    requires { IsRegister r }
    ensures { result.now ≡ register_name r }
{
    match r {
        0 => "rax",
        1 => "rcx",
        2 => "rdx",
        3 => "rbx",
        4 => "rsp",
        5 => "rbp",
        6 => "rsi",
        7 => "rdi",
        8 => "r8",
        9 => "r9",
        10 => "r10",
        11 => "r11",
        12 => "r12",
        13 => "r13",
        14 => "r14",
        _ => "r15",
    }
}
