use super::{TypeFault, check_types};
use crate::block::{Block, Part, Seq};
use crate::cond::{Cond, Flag};
use crate::line::{Family, LockOp, Op, PartEnd, Target};
use crate::width::Width;
use std::alloc::{AllocError, Global};
use std::test::Fail;

const T0: Op = Op::Const {
    w: Width::W64,
    t: 0,
    n: 0x401000,
};

const T1: Op = Op::Const {
    w: Width::W32,
    t: 1,
    n: 0xFFFF_FFFF,
};

const T2: Op = Op::Const {
    w: Width::W8,
    t: 2,
    n: 0xFF,
};

const T3: Op = Op::Cond { t: 3, c: Cond::E };

const fn calc(family: Family, w: Width, a: u8, b: Option<u8>) -> Op {
    Op::Calc {
        family,
        w,
        t: 4,
        a,
        b,
    }
}

const fn flag(flag: Flag, family: Family, w: Width, a: u8, b: Option<u8>) -> Op {
    Op::FlagOf {
        flag,
        family,
        w,
        a,
        b,
    }
}

const fn ea(index: Option<u8>, scale: u8) -> Op {
    Op::Ea {
        t: 4,
        base: Some(15),
        index,
        scale,
        n: u64::MAX,
    }
}

#[derive(Clone, Copy)]
enum Line {
    Op(Op),
    End(PartEnd),
}

fn block_of(alloc: Global, lines: &[Line]) -> Result<Block, AllocError> {
    let mut parts = Vec::new(alloc);
    let mut ops = Vec::new(alloc);
    for line in lines {
        match *line {
            Line::Op(op) => ops.push(op)?,
            Line::End(end) => {
                parts.push(Part {
                    ops: Seq::from_vec(ops),
                    end,
                })?;
                ops = Vec::new(alloc);
            }
        }
    }
    Ok(Block {
        at: 0x401000,
        code: Seq::from_vec(Vec::new(alloc)),
        parts: Seq::from_vec(parts),
    })
}

fn checked(alloc: Global, lines: &[Line]) -> Result<Result<(), TypeFault>, AllocError> {
    Ok(check_types(&block_of(alloc, lines)?))
}

/// A line, after t0, t1, t2 and t3 hold 64, 32, 8 and 1 bits.
fn checked_after(alloc: Global, line: Line) -> Result<Result<(), TypeFault>, AllocError> {
    let lines = [
        Line::Op(T0),
        Line::Op(T1),
        Line::Op(T2),
        Line::Op(T3),
        line,
        Line::End(PartEnd::Tick),
    ];
    let last = match line {
        Line::Op(_) => 6,
        Line::End(_) => 5,
    };
    checked(alloc, &lines[..last])
}

/// What is answered where that line is right, and where it is wrong.
fn wanted(is_right: bool) -> Result<(), TypeFault> {
    if is_right {
        Ok(())
    } else {
        Err(TypeFault { part: 0, op: 4 })
    }
}

#[test]
fn checks_one_line(rt: HostRuntime) -> Result<(), Fail> {
    let (w8, w32, w64) = (Width::W8, Width::W32, Width::W64);
    let rows = [
        (Op::Put { w: w32, r: 0, t: 1 }, true),
        (Op::Put { w: w64, r: 0, t: 1 }, false),
        (Op::Put { w: w64, r: 0, t: 5 }, false),
        (
            Op::Put {
                w: w32,
                r: 16,
                t: 1,
            },
            false,
        ),
        (Op::PutHigh { r: 3, t: 2 }, true),
        (Op::PutHigh { r: 4, t: 2 }, false),
        (
            Op::Get {
                w: w64,
                t: 7,
                r: 15,
            },
            true,
        ),
        (
            Op::Get {
                w: w64,
                t: 8,
                r: 15,
            },
            false,
        ),
        (Op::GetHigh { t: 4, r: 3 }, true),
        (Op::GetHigh { t: 4, r: 4 }, false),
        (
            Op::Const {
                w: w8,
                t: 4,
                n: 0xFF,
            },
            true,
        ),
        (
            Op::Const {
                w: w8,
                t: 4,
                n: 0x100,
            },
            false,
        ),
        (ea(Some(1), 8), true),
        (ea(Some(1), 3), false),
        (ea(None, 1), true),
        (ea(None, 2), false),
        (calc(Family::Shl, w32, 1, Some(2)), true),
        (calc(Family::Shl, w32, 1, Some(1)), false),
        (calc(Family::Add, w32, 1, Some(1)), true),
        (calc(Family::Add, w32, 1, None), false),
        (calc(Family::Neg, w32, 1, None), true),
        (calc(Family::Neg, w32, 1, Some(1)), false),
        (calc(Family::Rol, w8, 2, Some(2)), false),
        (calc(Family::Rol, w32, 1, Some(2)), true),
        (calc(Family::Umul, w32, 1, Some(1)), false),
    ];
    for (op, typed) in rows {
        assert_eq!(rt;
            checked_after(rt.alloc(), Line::Op(op))?,
            wanted(typed),
            "{op:?}"
        );
    }
    Ok(())
}

#[test]
fn checks_widths_and_flags(rt: HostRuntime) -> Result<(), Fail> {
    let (w8, w16, w32, w64) = (Width::W8, Width::W16, Width::W32, Width::W64);
    let rows = [
        (flag(Flag::Cf, Family::Inc, w32, 1, None), false),
        (flag(Flag::Of, Family::Inc, w32, 1, None), true),
        (flag(Flag::Zf, Family::Ror, w32, 1, Some(2)), false),
        (flag(Flag::Cf, Family::Ror, w32, 1, Some(2)), true),
        (flag(Flag::Pf, Family::Umul, w32, 1, Some(1)), false),
        (flag(Flag::Of, Family::Smul, w32, 1, Some(1)), true),
        (flag(Flag::Of, Family::Mul, w32, 1, Some(1)), false),
        (flag(Flag::Zf, Family::Not, w32, 1, None), false),
        (Op::FlagZero { flag: Flag::Pf }, true),
        (Op::Cond { t: 8, c: Cond::G }, false),
        (
            Op::Pick {
                w: w32,
                t: 4,
                c: 3,
                a: 1,
                b: 1,
            },
            true,
        ),
        (
            Op::Pick {
                w: w32,
                t: 4,
                c: 2,
                a: 1,
                b: 1,
            },
            false,
        ),
        (
            Op::Zext {
                from: 1,
                w: w8,
                t: 4,
                a: 3,
            },
            true,
        ),
        (
            Op::Zext {
                from: 32,
                w: w32,
                t: 4,
                a: 1,
            },
            false,
        ),
        (
            Op::Zext {
                from: 32,
                w: w64,
                t: 4,
                a: 1,
            },
            true,
        ),
        (
            Op::Sext {
                from: 1,
                w: w8,
                t: 4,
                a: 3,
            },
            false,
        ),
        (
            Op::Sext {
                from: 8,
                w: w16,
                t: 4,
                a: 2,
            },
            true,
        ),
        (
            Op::Cut {
                from: 32,
                w: w16,
                t: 4,
                a: 1,
            },
            true,
        ),
        (
            Op::Cut {
                from: 32,
                w: w64,
                t: 4,
                a: 1,
            },
            false,
        ),
    ];
    for (op, typed) in rows {
        assert_eq!(rt;
            checked_after(rt.alloc(), Line::Op(op))?,
            wanted(typed),
            "{op:?}"
        );
    }
    Ok(())
}

#[test]
fn checks_end_lines(rt: HostRuntime) -> Result<(), Fail> {
    let (w8, w32, w64) = (Width::W8, Width::W32, Width::W64);
    let kind = LockOp::Add;
    let place = Target::Place(0x401000);
    let rows = [
        (PartEnd::Load { w: w8, t: 4, a: 0 }, true),
        (PartEnd::Load { w: w8, t: 4, a: 1 }, false),
        (PartEnd::Store { w: w32, a: 0, t: 1 }, true),
        (PartEnd::Store { w: w64, a: 0, t: 1 }, false),
        (
            PartEnd::StoreGo {
                a: 0,
                t: 0,
                to: place,
            },
            true,
        ),
        (
            PartEnd::StoreGo {
                a: 0,
                t: 0,
                to: Target::Temp(1),
            },
            false,
        ),
        (
            PartEnd::Locked {
                kind,
                w: w32,
                t: 7,
                a: 0,
                s: 1,
            },
            true,
        ),
        (
            PartEnd::Locked {
                kind,
                w: w8,
                t: 7,
                a: 0,
                s: 1,
            },
            false,
        ),
        (
            PartEnd::LockedCmpxchg {
                w: w32,
                t: 7,
                a: 0,
                c: 1,
                s: 1,
            },
            true,
        ),
        (
            PartEnd::LockedCmpxchg {
                w: w32,
                t: 7,
                a: 0,
                c: 2,
                s: 1,
            },
            false,
        ),
        (
            PartEnd::Divide {
                signed: true,
                w: w32,
                t: 1,
            },
            true,
        ),
        (
            PartEnd::Divide {
                signed: false,
                w: w8,
                t: 2,
            },
            false,
        ),
        (
            PartEnd::Go {
                to: Target::Temp(0),
            },
            true,
        ),
        (
            PartEnd::Go {
                to: Target::Temp(3),
            },
            false,
        ),
        (PartEnd::BadCode, true),
    ];
    for (end, typed) in rows {
        assert_eq!(rt;
            checked_after(rt.alloc(), Line::End(end))?,
            wanted(typed),
            "{end:?}"
        );
    }
    Ok(())
}

#[test]
fn finds_the_first_wrong_line(rt: HostRuntime) -> Result<(), Fail> {
    let tick = Line::End(PartEnd::Tick);
    let go = Line::End(PartEnd::Go {
        to: Target::Place(0),
    });
    let load = Line::End(PartEnd::Load {
        w: Width::W64,
        t: 1,
        a: 0,
    });
    let put = Line::Op(Op::Put {
        w: Width::W64,
        r: 0,
        t: 1,
    });
    let (t0, t1) = (Line::Op(T0), Line::Op(T1));
    let alloc = rt.alloc();
    let fault = |part, op| Err(TypeFault { part, op });
    assert_eq!(rt; checked(alloc, &[])?, fault(0, 0));
    assert_eq!(rt; checked(alloc, &[put, tick])?, fault(0, 0));
    assert_eq!(rt; checked(alloc, &[t0, put, put, tick])?, fault(0, 1));
    assert_eq!(rt; checked(alloc, &[t0, load, put, go])?, Ok(()));
    assert_eq!(rt; checked(alloc, &[t0, t1, load, t1, put, go])?, fault(1, 1));
    assert_eq!(rt; checked(alloc, &[t0, t1, go, tick])?, fault(0, 2));
    assert_eq!(rt; checked(alloc, &[t0, tick, go])?, Ok(()));
    Ok(())
}

#[test]
fn compares_and_edits_blocks(rt: HostRuntime) -> Result<(), Fail> {
    let alloc = rt.alloc();
    let (t0, t1) = (Line::Op(T0), Line::Op(T1));
    let tick = Line::End(PartEnd::Tick);
    let block = block_of(alloc, &[t0, t1, tick, t1, tick])?;
    assert!(rt; block.is_same(&block_of(alloc, &[t0, t1, tick, t1, tick])?));
    assert!(rt; !block.is_same(&block_of(alloc, &[t0, t1, tick, t0, tick])?));
    let Block { at, code, parts } = block;
    let mut parts = parts.into_vec();
    assert_eq!(rt; parts.len(), 2);
    let part = &mut parts[0];
    assert_eq!(rt; part.ops.as_slice().len(), 2);
    assert_eq!(rt; part.ops.remove(0), T0);
    let edited = Block {
        at,
        code,
        parts: Seq::from_vec(parts),
    };
    assert!(rt; edited == block_of(alloc, &[t1, tick, t1, tick])?);
    Ok(())
}
