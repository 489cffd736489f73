use super::*;
use ir_syntax::{Block, Cond, Family, Flag, Op, Part, PartEnd, Seq, Width};
use std::alloc::{AllocError, Global};
use std::test::Fail;

const W: Width = Width::W32;

const fn get(t: u8, r: u8) -> Op {
    Op::Get { w: W, t, r }
}

const fn flag(flag: Flag, family: Family) -> Op {
    Op::FlagOf {
        flag,
        family,
        w: W,
        a: 1,
        b: Some(2),
    }
}

fn ticking(ops: Vec<Op>) -> Part {
    Part {
        ops: Seq::from_vec(ops),
        end: PartEnd::Tick,
    }
}

// 01 D8, add eax, ebx: with its five flag lines, or without
fn add(alloc: Global, with_flags: bool) -> Result<Part, AllocError> {
    let mut ops = vec![in alloc;
        get(1, 0),
        get(2, 3),
        Op::Calc {
            family: Family::Add,
            w: W,
            t: 3,
            a: 1,
            b: Some(2)
        },
    ]?;
    if with_flags {
        put_all(&mut ops, Family::Add)?;
    }
    ops.push(Op::Put { w: W, r: 0, t: 3 })?;
    Ok(ticking(ops))
}

// 39 C8, cmp eax, ecx
fn compare(alloc: Global) -> Result<Part, AllocError> {
    let mut ops = vec![in alloc; get(1, 0), get(2, 1)]?;
    put_all(&mut ops, Family::Sub)?;
    Ok(ticking(ops))
}

fn put_all(ops: &mut Vec<Op>, family: Family) -> Result<(), AllocError> {
    for f in [Flag::Pf, Flag::Zf, Flag::Sf, Flag::Of, Flag::Cf] {
        ops.push(flag(f, family))?;
    }
    Ok(())
}

// 74 00, je
fn branch(alloc: Global) -> Part {
    Part {
        ops: Seq::from_vec(Vec::new(alloc)),
        end: PartEnd::Branch {
            c: Cond::E,
            yes: 0x401006,
            no: 0x401006,
        },
    }
}

fn block(alloc: Global, parts: Vec<Part>) -> Result<Block, AllocError> {
    Ok(Block {
        at: 0x401000,
        code: Seq::from_vec(vec![in alloc; 0x01, 0xd8, 0x39, 0xc8, 0x74, 0x00]?),
        parts: Seq::from_vec(parts),
    })
}

// The flags of the addition are put again by the comparison before anything reads them.
#[test]
fn addition_before_a_comparison(rt: HostRuntime) -> Result<(), Fail> {
    let alloc = rt.alloc();
    let parts = vec![in alloc; add(alloc, true)?, compare(alloc)?, branch(alloc)]?;
    let kept = vec![in alloc; add(alloc, false)?, compare(alloc)?, branch(alloc)]?;
    assert!(rt; strip(block(alloc, parts)?).is_same(&block(alloc, kept)?));
    Ok(())
}

// All five flags count as read at the block's end.
#[test]
fn addition_alone(rt: HostRuntime) -> Result<(), Fail> {
    let alloc = rt.alloc();
    let parts = vec![in alloc; add(alloc, true)?]?;
    let kept = vec![in alloc; add(alloc, true)?]?;
    assert!(rt; strip(block(alloc, parts)?).is_same(&block(alloc, kept)?));
    Ok(())
}

// Two lines before the five of a comparison, and which of the two stay.
#[test]
fn reads_before_a_comparison(rt: HostRuntime) -> Result<(), Fail> {
    let alloc = rt.alloc();
    let rows = [
        // ADC reads cf, also in a line that is taken out
        (
            flag(Flag::Cf, Family::Add),
            flag(Flag::Of, Family::Adc),
            true,
            false,
        ),
        // a shift reads the flag that it puts
        (
            flag(Flag::Of, Family::Add),
            flag(Flag::Of, Family::Shl),
            true,
            false,
        ),
        // a shift doesn't read the other flags
        (
            flag(Flag::Cf, Family::Add),
            flag(Flag::Of, Family::Shl),
            false,
            false,
        ),
        // a condition reads its flags
        (
            flag(Flag::Sf, Family::Add),
            Op::Cond { t: 4, c: Cond::L },
            true,
            true,
        ),
        (
            Op::FlagZero { flag: Flag::Zf },
            Op::Cond { t: 4, c: Cond::L },
            false,
            true,
        ),
    ];
    for (first, second, stays, stays_too) in rows {
        let mut ops = vec![in alloc; first, second]?;
        put_all(&mut ops, Family::Sub)?;
        let mut kept = Vec::new(alloc);
        if stays {
            kept.push(first)?;
        }
        if stays_too {
            kept.push(second)?;
        }
        put_all(&mut kept, Family::Sub)?;
        let parts = vec![in alloc; ticking(ops)]?;
        let wanted = vec![in alloc; ticking(kept)]?;
        let stripped = strip(block(alloc, parts)?);
        assert!(rt; stripped.is_same(&block(alloc, wanted)?), "{first:?}");
    }
    Ok(())
}
