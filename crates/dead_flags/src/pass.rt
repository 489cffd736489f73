ghost use Rattle.std.specs.Prelude.{◌≡◌, ◌<◌, ◌≤◌, ◌-◌, ℕ, Bool, length, drop, slice_set, slice_get, Some, if◌then◌else◌};
ghost use Rattle.ir_meaning.specs.Live.{live_before_ops, live_before_end, live_before_part, live_before_parts, is_dead, kept_ops, kept_parts};
ghost use Rattle.ir_syntax.specs.Typed.{IsWellTyped};
ghost use Rattle.dead_flags.specs.Alike.{Alike, StaysSame};

use crate::live::{ALL, is_dead, live_before, live_before_end};
use ir_syntax::{Block, Op, Part, Seq};
use std::alloc::Global;
use std::mem;
use x86_flags::Flags;

// Puts an op line before those from `first` on that are kept, unless it is a dead put. The answer
// is where the kept lines begin then.
fn keep(lines: &mut [Op], first: usize, op: Op, live: Flags) -> usize
    requires some { 0 < first }
    requires within { first ≤ length lines.old }
    ensures first { result ≡ (if is_dead op live then first else first - 1) }
    ensures lines { lines.new ≡ (if is_dead op live then lines.old else slice_set lines.old (first - 1) op) }
{
    if is_dead(&op, live) {
        return first;
    }
    lines[first - 1] = op;
    first - 1
}

// Moves the op lines that aren't dead puts to the end, in their order, by one pass from the end.
// The answer is where they begin, and the flags that are live before all lines.
fn gather(lines: &mut [Op], live: Flags) -> (usize, Flags)
    ensures begins { result.0 ≤ length lines.old }
    ensures kept { drop result.0 lines.new ≡ kept_ops lines.old live }
    ensures live { result.1 ≡ live_before_ops lines.old live }
{
    let mut before = live;
    let mut first = lines.len();
    let mut i = lines.len();
    while i > 0 {
        i -= 1;
        let op = lines[i];
        first = keep(lines, first, op, before);
        before = live_before(&op, before);
    }
    (first, before)
}

// Takes the dead puts out of op lines. The answer is the flags that are live before them all.
fn strip_ops(lines: &mut Vec<Op>, live: Flags) -> Flags
    ensures kept { lines.new.items ≡ kept_ops lines.old.items live }
    ensures live { result ≡ live_before_ops lines.old.items live }
{
    let (first, before) = gather(lines.as_mut_slice(), live);
    let kept = lines.len() - first;
    lines.as_mut_slice().rotate_left(first);
    lines.truncate(kept);
    before
}

// Takes the dead puts out of a part. The answer is the flags that are live before it.
fn strip_part(part: &mut Part, live: Flags, alloc: Global) -> Flags
    ensures kept { part.new ≡ record part.old { ops = kept_ops part.old.ops (live_before_end part.old.end live) } }
    ensures live { result ≡ live_before_part part.old live }
{
    let empty = Seq::from_vec(Vec::new(alloc));
    let mut lines = mem::replace(&mut part.ops, empty).into_vec();
    let before = strip_ops(&mut lines, live_before_end(&part.end, live));
    part.ops = Seq::from_vec(lines);
    before
}

// Takes the dead puts out of the part at an index.
fn strip_at(parts: &mut Vec<Part>, i: usize, live: Flags, alloc: Global) -> Flags
    requires { i < length parts.old.items }
    ensures kept { (p : Part) → slice_get parts.old.items i ≡ Some p → parts.new.items ≡ slice_set parts.old.items i (record p { ops = kept_ops p.ops (live_before_end p.end live) }) }
    ensures live { (p : Part) → slice_get parts.old.items i ≡ Some p → result ≡ live_before_part p live }
{
    strip_part(&mut parts[i], live, alloc)
}

// Takes the dead puts out of all parts, from the last to the first.
fn strip_parts(parts: &mut Vec<Part>, alloc: Global)
    ensures { parts.new.items ≡ kept_parts parts.old.items }
{
    let mut live = ALL;
    let mut i = parts.len();
    while i > 0 {
        i -= 1;
        live = strip_at(parts, i, live, alloc);
    }
}

/// Takes the dead flag puts out of a block. A put is dead where the same flag is put again in the
/// block before anything reads it and before the block's end, at which all five flags count as read.
///
/// Dead is said of the block as it comes in: what a line reads counts, also where that line is taken
/// out. The address, the code bytes, the end lines and the order of the other lines stay. One pass
/// from the end, in place; takes no memory.
///
/// From states that agree before a part in registers, in the flags that are live there in the new
/// block and in the temporaries that it reads from there on before it writes them, the new part asks
/// for what the old one asks for, and with every answer they agree again; after the last part in all
/// five flags. This holds whichever temporaries are needed after the block. Where all temporaries were
/// equal they stay equal.
pub fn strip(block: Block) -> Block
    ensures exact { result ≡ record block { parts = kept_parts block.parts } }
    ensures same { (needed : ℕ → Bool) → Alike needed block.parts result.parts }
    ensures equal { StaysSame block.parts result.parts }
    ensures typed { IsWellTyped block → IsWellTyped result }
{
    let Block { at, code, parts } = block;
    let mut parts = parts.into_vec();
    let alloc = *parts.allocator();
    strip_parts(&mut parts, alloc);
    Block {
        at,
        code,
        parts: Seq::from_vec(parts),
    }
}
