ghost use Rattle.std.specs.Prelude.{◌≡◌, ◌≤◌, ◌<◌, ◌↔◌, ℕ, length, take, Some, None, IfSome};
ghost use Rattle.std.specs.Option.{option_map};
ghost use Rattle.x86_forms.specs.Operands.{tail_len};
ghost use Rattle.x86_forms.specs.Spelling.{Spells, SpellsNothing, is_asked, modrm_len, sib_len, disp_size};
ghost use Rattle.x86_forms.specs.Reading.{cut, cut_fixed, read_head, row_at, width_at, read_operands, read_instr, read};
ghost use Rattle.x86_decode.specs.Views.{head_of, parts_of};

use crate::cursor::{Cursor, Front, Pieces, byte};
use crate::dispatch::row_of;
use crate::meaning::meaning;
use crate::prefixes::{
    allows, allows_rex, escape_len, is_narrowed, mark_in, prefix_count, rex_len,
};
use x86_forms::{Instr, Row, Tail, Width, displacement_len, has_sib};

/// What stands before the operands, and a cursor behind it.
#[tactic(auto, unfolding(x86_forms::specs::Reading::read_head))]
fn read_front(bytes: &[u8]) -> Option<(Front<'_>, Cursor<'_>)>
    requires { length bytes.now ≤ 15 }
    ensures { option_map (λ p. (head_of p.0, p.1.rest.now)) result ≡ read_head bytes.now }
{
    let start = Cursor { rest: bytes };
    let (prefixes, behind) = start.take(prefix_count(bytes))?;
    let (rex, behind) = behind.take(rex_len(behind.rest))?;
    let (escape, behind) = behind.take(escape_len(behind.rest))?;
    let (opcode, behind) = behind.take(1)?;
    let front = Front {
        prefixes,
        rex,
        escape,
        opcode,
    };
    Some((front, behind))
}

/// The row of what stands before the operands and of the byte behind it.
#[tactic(auto, unfolding(x86_forms::specs::Reading::row_at))]
fn row_at(front: Front<'_>, rest: &[u8]) -> Option<Row>
    ensures { result ≡ row_at (head_of front.entry) rest.now }
{
    let rex_b = byte(front.rex) % 2;
    let escape = front.escape.len() == 1;
    let reg = byte(rest) / 8 % 8;
    row_of(
        mark_in(front.prefixes),
        rex_b,
        escape,
        byte(front.opcode),
        reg,
    )
}

/// The width of a row's operands, and `None` where the row takes no such prefixes.
#[tactic(auto, unfolding(x86_forms::specs::Reading::width_at))]
fn width_at(front: Front<'_>, row: Row) -> Option<Width>
    ensures { result ≡ width_at (head_of front.entry) row }
{
    if allows(row.prefixes, front.prefixes) && allows_rex(row.rex, front.rex) {
        row.size.width(is_narrowed(front.prefixes), byte(front.rex))
    } else {
        None
    }
}

fn is_asked(asked: Option<u8>, byte: u8) -> bool
    ensures { result ≡ is_asked asked byte }
{
    match asked {
        None => true,
        Some(wanted) => wanted == byte,
    }
}

fn modrm_len(has_modrm: bool) -> usize
    ensures { result ≡ modrm_len has_modrm }
{
    if has_modrm { 1 } else { 0 }
}

fn sib_len(has_modrm: bool, modrm: u8) -> usize
    ensures { result ≡ sib_len has_modrm modrm }
{
    if !has_modrm {
        0
    } else if has_sib(modrm) {
        1
    } else {
        0
    }
}

fn disp_size(has_modrm: bool, modrm: u8, sib: u8) -> usize
    ensures { result ≡ disp_size has_modrm modrm sib }
{
    if has_modrm {
        usize::from(displacement_len(modrm, sib))
    } else {
        0
    }
}

/// The ModRM byte of a row that has one, which is refused where the row fixes another.
fn read_modrm(row: Row, start: Cursor<'_>) -> Option<(&[u8], Cursor<'_>)>
    ensures { option_map (λ p. (p.0.now, p.1.rest.now)) result ≡ cut_fixed row.fixed (cut (modrm_len row.modrm) start.entry.rest.now) }
{
    let (modrm, behind) = start.take(modrm_len(row.modrm))?;
    if is_asked(row.fixed, byte(modrm)) {
        Some((modrm, behind))
    } else {
        None
    }
}

/// The immediate or relative target of a row, at most 8 bytes.
#[tactic(auto, using(crate::proofs::LittleEndian::tail_small))]
fn read_tail(tail: Tail, width: Width, start: Cursor<'_>) -> Option<(&[u8], Cursor<'_>)>
    ensures value { option_map (λ p. (p.0.now, p.1.rest.now)) result ≡ cut (tail_len tail width) start.entry.rest.now }
    ensures short { IfSome result (λ p. length p.0.now ≤ 8) }
{
    let (imm, behind) = start.take(usize::from(tail.len(width)))?;
    Some((imm, behind))
}

/// All parts of an instruction, and a cursor behind it.
#[tactic(auto, unfolding(x86_forms::specs::Reading::read_operands))]
fn read_operands<'a>(
    front: Front<'a>,
    row: Row,
    width: Width,
    start: Cursor<'a>,
) -> Option<(Pieces<'a>, Cursor<'a>)>
    ensures value { option_map (λ p. (parts_of p.0, p.1.rest.now)) result ≡ read_operands (head_of front.entry) row width start.entry.rest.now }
    ensures short { IfSome result (λ p. length p.0.imm.now ≤ 8) }
{
    let (modrm, behind) = read_modrm(row, start)?;
    let (sib, behind) = behind.take(sib_len(row.modrm, byte(modrm)))?;
    let (disp, behind) = behind.take(disp_size(row.modrm, byte(modrm), byte(sib)))?;
    let (imm, behind) = read_tail(row.tail, width, behind)?;
    let pieces = Pieces {
        front,
        modrm,
        sib,
        disp,
        imm,
    };
    Some((pieces, behind))
}

/// The instruction that the bytes begin with, and a cursor behind it.
#[tactic(auto, unfolding(x86_forms::specs::Reading::read_instr))]
fn read_instr(bytes: &[u8]) -> Option<(Instr, Cursor<'_>)>
    requires { length bytes.now ≤ 15 }
    ensures { option_map (λ p. (p.0, p.1.rest.now)) result ≡ read_instr bytes.now }
{
    let (front, behind) = read_front(bytes)?;
    let row = row_at(front, behind.rest)?;
    let width = width_at(front, row)?;
    let (pieces, behind) = read_operands(front, row, width, behind)?;
    let instr = meaning(row, width, pieces)?;
    Some((instr, behind))
}

fn at_most_15(bytes: &[u8]) -> &[u8]
    ensures value { result.now ≡ take 15 bytes.now }
    ensures short { length result.now ≤ 15 }
    ensures within { length result.now ≤ length bytes.now }
{
    if bytes.len() > 15 {
        &bytes[..15]
    } else {
        bytes
    }
}

#[tactic(auto, unfolding(x86_forms::specs::Reading::read))]
fn read(bytes: &[u8]) -> Option<(Instr, u8)>
    ensures value { result ≡ read bytes.now }
    ensures short { IfSome result (λ x. x.1 ≤ 15) }
    ensures within { IfSome result (λ x. x.1 ≤ length bytes.now) }
{
    let bytes = at_most_15(bytes);
    let (instr, behind) = read_instr(bytes)?;
    Some((instr, bytes.len().saturating_sub(behind.rest.len()) as u8))
}

/// The instruction that the bytes begin with, and how many bytes it has, 1 to 15; `None` where no
/// front of the bytes spells an instruction of the subset, also where the instruction is cut off.
/// Bytes behind the instruction have no say. It takes no memory (Intel SDM, Volume 2, 2.1 and 2.3.11).
pub fn decode(bytes: &[u8]) -> Option<(Instr, u8)>
    ensures exact { (i : Instr) (n : ℕ) → n ≤ length bytes.now → (result ≡ Some (i, n)) ↔ Spells i (take n bytes.now) }
    ensures within { IfSome result (λ x. x.1 ≤ length bytes.now) }
    ensures short { IfSome result (λ x. x.1 ≤ 15) }
    ensures nothing { result ≡ None → (n : ℕ) → SpellsNothing (take n bytes.now) }
    ensures reads { result ≡ read bytes.now }
{
    read(bytes)
}
