//! The fields of lines: words of tables, each with the bytes that end it.

ghost use Rattle.std.specs.Prelude.{◌≡◌, [], ◌∷◌};
ghost use Rattle.ir_text.specs.Reading.{seen, word_at};
ghost use Rattle.ir_text.specs.Tables.{widths, temps, registers, bases, flags, conds, result_families, flag_families, lock_ops, signs, parts_of_register, zexts, sexts, cuts, targets, heads, heads_or_end};
ghost use Rattle.ir_text.specs.Grammar.{sp, dot, scales_of};

use crate::pieces::Head;
use crate::words::word;
use ir_syntax::{Cond, Family, Flag, LockOp, Width};

/// A width.
pub fn width(bytes: &[u8]) -> Result<(Width, &[u8]), usize>
    ensures { seen (λ x. (x.0, x.1.now)) result ≡ word_at widths sp bytes.now }
{
    let words = [
        ("8", Width::W8),
        ("16", Width::W16),
        ("32", Width::W32),
        ("64", Width::W64),
    ];
    word(&words, b" ", bytes)
}

/// A temporary, `t0` to `t7`.
pub fn temp<'a>(bytes: &'a [u8], end: &[u8]) -> Result<(u8, &'a [u8]), usize>
    ensures { seen (λ x. (x.0, x.1.now)) result ≡ word_at temps end.now bytes.now }
{
    let words = [
        ("t0", 0),
        ("t1", 1),
        ("t2", 2),
        ("t3", 3),
        ("t4", 4),
        ("t5", 5),
        ("t6", 6),
        ("t7", 7),
    ];
    word(&words, end, bytes)
}

/// A register.
pub fn register<'a>(bytes: &'a [u8], end: &[u8]) -> Result<(u8, &'a [u8]), usize>
    ensures { seen (λ x. (x.0, x.1.now)) result ≡ word_at registers end.now bytes.now }
{
    let words = [
        ("rax", 0),
        ("rcx", 1),
        ("rdx", 2),
        ("rbx", 3),
        ("rsp", 4),
        ("rbp", 5),
        ("rsi", 6),
        ("rdi", 7),
        ("r8", 8),
        ("r9", 9),
        ("r10", 10),
        ("r11", 11),
        ("r12", 12),
        ("r13", 13),
        ("r14", 14),
        ("r15", 15),
    ];
    word(&words, end, bytes)
}

/// A register, or none.
pub fn base(bytes: &[u8]) -> Result<(Option<u8>, &[u8]), usize>
    ensures { seen (λ x. (x.0, x.1.now)) result ≡ word_at bases sp bytes.now }
{
    let words = [
        ("-", None),
        ("rax", Some(0)),
        ("rcx", Some(1)),
        ("rdx", Some(2)),
        ("rbx", Some(3)),
        ("rsp", Some(4)),
        ("rbp", Some(5)),
        ("rsi", Some(6)),
        ("rdi", Some(7)),
        ("r8", Some(8)),
        ("r9", Some(9)),
        ("r10", Some(10)),
        ("r11", Some(11)),
        ("r12", Some(12)),
        ("r13", Some(13)),
        ("r14", Some(14)),
        ("r15", Some(15)),
    ];
    word(&words, b" ", bytes)
}

/// A flag.
pub fn flag(bytes: &[u8]) -> Result<(Flag, &[u8]), usize>
    ensures { seen (λ x. (x.0, x.1.now)) result ≡ word_at flags sp bytes.now }
{
    let words = [
        ("cf", Flag::Cf),
        ("pf", Flag::Pf),
        ("zf", Flag::Zf),
        ("sf", Flag::Sf),
        ("of", Flag::Of),
    ];
    word(&words, b" ", bytes)
}

/// A condition.
pub fn cond<'a>(bytes: &'a [u8], end: &[u8]) -> Result<(Cond, &'a [u8]), usize>
    ensures { seen (λ x. (x.0, x.1.now)) result ≡ word_at conds end.now bytes.now }
{
    let words = [
        ("o", Cond::O),
        ("no", Cond::No),
        ("b", Cond::B),
        ("ae", Cond::Ae),
        ("e", Cond::E),
        ("ne", Cond::Ne),
        ("be", Cond::Be),
        ("a", Cond::A),
        ("s", Cond::S),
        ("ns", Cond::Ns),
        ("p", Cond::P),
        ("np", Cond::Np),
        ("l", Cond::L),
        ("ge", Cond::Ge),
        ("le", Cond::Le),
        ("g", Cond::G),
    ];
    word(&words, end, bytes)
}

/// A family that has a result.
pub fn result_family(bytes: &[u8]) -> Result<(Family, &[u8]), usize>
    ensures { seen (λ x. (x.0, x.1.now)) result ≡ word_at result_families dot bytes.now }
{
    let words = [
        ("add", Family::Add),
        ("sub", Family::Sub),
        ("and", Family::And),
        ("xor", Family::Xor),
        ("or", Family::Or),
        ("inc", Family::Inc),
        ("dec", Family::Dec),
        ("shl", Family::Shl),
        ("shr", Family::Shr),
        ("sar", Family::Sar),
        ("mul", Family::Mul),
        ("adc", Family::Adc),
        ("sbb", Family::Sbb),
        ("rol", Family::Rol),
        ("ror", Family::Ror),
        ("umulh", Family::Umulh),
        ("smulh", Family::Smulh),
        ("neg", Family::Neg),
        ("not", Family::Not),
    ];
    word(&words, b".", bytes)
}

/// A family that names flags, or none for 0.
pub fn flag_family(bytes: &[u8]) -> Result<(Option<Family>, &[u8]), usize>
    ensures { seen (λ x. (x.0, x.1.now)) result ≡ word_at flag_families [] bytes.now }
{
    let words = [
        ("add.", Some(Family::Add)),
        ("sub.", Some(Family::Sub)),
        ("and.", Some(Family::And)),
        ("xor.", Some(Family::Xor)),
        ("or.", Some(Family::Or)),
        ("zero\n", None),
        ("inc.", Some(Family::Inc)),
        ("dec.", Some(Family::Dec)),
        ("shl.", Some(Family::Shl)),
        ("shr.", Some(Family::Shr)),
        ("sar.", Some(Family::Sar)),
        ("umul.", Some(Family::Umul)),
        ("smul.", Some(Family::Smul)),
        ("adc.", Some(Family::Adc)),
        ("sbb.", Some(Family::Sbb)),
        ("rol.", Some(Family::Rol)),
        ("ror.", Some(Family::Ror)),
        ("neg.", Some(Family::Neg)),
    ];
    word(&words, b"", bytes)
}

/// What a locked line does, or none for `cmpxchg`.
pub fn lock_op(bytes: &[u8]) -> Result<(Option<LockOp>, &[u8]), usize>
    ensures { seen (λ x. (x.0, x.1.now)) result ≡ word_at lock_ops [] bytes.now }
{
    let words = [
        ("xchg.", Some(LockOp::Xchg)),
        ("add.", Some(LockOp::Add)),
        ("sub.", Some(LockOp::Sub)),
        ("and.", Some(LockOp::And)),
        ("or.", Some(LockOp::Or)),
        ("xor.", Some(LockOp::Xor)),
        ("cmpxchg.", None),
    ];
    word(&words, b"", bytes)
}

/// Whether a division is signed.
pub fn sign(bytes: &[u8]) -> Result<(bool, &[u8]), usize>
    ensures { seen (λ x. (x.0, x.1.now)) result ≡ word_at signs dot bytes.now }
{
    let words = [("u", false), ("s", true)];
    word(&words, b".", bytes)
}

/// The width of a register's low part, or none for its high byte.
pub fn register_part(bytes: &[u8]) -> Result<(Option<Width>, &[u8]), usize>
    ensures { seen (λ x. (x.0, x.1.now)) result ≡ word_at parts_of_register [] bytes.now }
{
    let words = [
        ("8 ", Some(Width::W8)),
        ("16 ", Some(Width::W16)),
        ("32 ", Some(Width::W32)),
        ("64 ", Some(Width::W64)),
        ("h ", None),
    ];
    word(&words, b"", bytes)
}

/// The bits before and after `zext`.
pub fn zext(bytes: &[u8]) -> Result<((u8, Width), &[u8]), usize>
    ensures { seen (λ x. (x.0, x.1.now)) result ≡ word_at zexts sp bytes.now }
{
    let words = [
        ("32.64", (32, Width::W64)),
        ("8.32", (8, Width::W32)),
        ("1.8", (1, Width::W8)),
        ("16.32", (16, Width::W32)),
        ("8.64", (8, Width::W64)),
        ("16.64", (16, Width::W64)),
        ("8.16", (8, Width::W16)),
        ("1.16", (1, Width::W16)),
        ("1.32", (1, Width::W32)),
        ("1.64", (1, Width::W64)),
    ];
    word(&words, b" ", bytes)
}

/// The bits before and after `sext`.
pub fn sext(bytes: &[u8]) -> Result<((u8, Width), &[u8]), usize>
    ensures { seen (λ x. (x.0, x.1.now)) result ≡ word_at sexts sp bytes.now }
{
    let words = [
        ("32.64", (32, Width::W64)),
        ("8.32", (8, Width::W32)),
        ("16.32", (16, Width::W32)),
        ("8.64", (8, Width::W64)),
        ("16.64", (16, Width::W64)),
        ("8.16", (8, Width::W16)),
    ];
    word(&words, b" ", bytes)
}

/// The bits before and after `cut`.
pub fn cut(bytes: &[u8]) -> Result<((u8, Width), &[u8]), usize>
    ensures { seen (λ x. (x.0, x.1.now)) result ≡ word_at cuts sp bytes.now }
{
    let words = [
        ("64.32", (64, Width::W32)),
        ("64.16", (64, Width::W16)),
        ("64.8", (64, Width::W8)),
        ("32.16", (32, Width::W16)),
        ("32.8", (32, Width::W8)),
        ("16.8", (16, Width::W8)),
    ];
    word(&words, b" ", bytes)
}

/// A temporary that ends the line, or none where an address begins.
pub fn target_front(bytes: &[u8]) -> Result<(Option<u8>, &[u8]), usize>
    ensures { seen (λ x. (x.0, x.1.now)) result ≡ word_at targets [] bytes.now }
{
    let words = [
        ("0x", None),
        ("t0\n", Some(0)),
        ("t1\n", Some(1)),
        ("t2\n", Some(2)),
        ("t3\n", Some(3)),
        ("t4\n", Some(4)),
        ("t5\n", Some(5)),
        ("t6\n", Some(6)),
        ("t7\n", Some(7)),
    ];
    word(&words, b"", bytes)
}

/// The scale of an index: 1 without one.
pub fn scale(bytes: &[u8], index: Option<u8>) -> Result<(u8, &[u8]), usize>
    ensures { seen (λ x. (x.0, x.1.now)) result ≡ word_at (scales_of index) sp bytes.now }
{
    match index {
        None => {
            let words = [("1", 1)];
            word(&words, b" ", bytes)
        }
        Some(_) => {
            let words = [("1", 1), ("2", 2), ("4", 4), ("8", 8)];
            word(&words, b" ", bytes)
        }
    }
}

/// What begins a line of a part.
pub fn head(bytes: &[u8]) -> Result<(Head, &[u8]), usize>
    ensures { seen (λ x. (x.0, x.1.now)) result ≡ word_at heads [] bytes.now }
{
    let words = [
        ("get.", Head::Get),
        ("put.", Head::Put),
        ("flag ", Head::Flag),
        ("calc.", Head::Calc),
        ("tick\n", Head::Tick),
        ("ea ", Head::Ea),
        ("load.", Head::Load),
        ("store.", Head::Store),
        ("const.", Head::Const),
        ("branch ", Head::Branch),
        ("go ", Head::Go),
        ("zext.", Head::Zext),
        ("sext.", Head::Sext),
        ("cut.", Head::Cut),
        ("storego.64 ", Head::StoreGo),
        ("cond ", Head::Cond),
        ("pick.", Head::Pick),
        ("locked.", Head::Locked),
        ("divide.", Head::Divide),
        ("fence\n", Head::Fence),
        ("bad code\n", Head::BadCode),
    ];
    word(&words, b"", bytes)
}

/// What begins a line of a part, or the block's end.
pub fn head_or_end(bytes: &[u8]) -> Result<(Head, &[u8]), usize>
    ensures { seen (λ x. (x.0, x.1.now)) result ≡ word_at heads_or_end [] bytes.now }
{
    let words = [
        ("end\n", Head::End),
        ("get.", Head::Get),
        ("put.", Head::Put),
        ("flag ", Head::Flag),
        ("calc.", Head::Calc),
        ("tick\n", Head::Tick),
        ("ea ", Head::Ea),
        ("load.", Head::Load),
        ("store.", Head::Store),
        ("const.", Head::Const),
        ("branch ", Head::Branch),
        ("go ", Head::Go),
        ("zext.", Head::Zext),
        ("sext.", Head::Sext),
        ("cut.", Head::Cut),
        ("storego.64 ", Head::StoreGo),
        ("cond ", Head::Cond),
        ("pick.", Head::Pick),
        ("locked.", Head::Locked),
        ("divide.", Head::Divide),
        ("fence\n", Head::Fence),
        ("bad code\n", Head::BadCode),
    ];
    word(&words, b"", bytes)
}
