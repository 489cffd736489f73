use super::*;
use guest_state::Virtual;
use ir_syntax::{
    Block, Cond, Family, Flag, Op, Part, PartEnd, Request, Seq, Target, Width, check_types,
};
use std::alloc::{AllocError, Global};
use std::test::Fail;

// Runs the one part of a well typed block.
fn run_alone(block: &Block, state: &mut Virtual) -> Option<Request> {
    if check_types(block).is_err() {
        return None;
    }
    match block.parts.as_slice() {
        [part] => Some(run_part(part, state)),
        _ => None,
    }
}

// Runs lines that are well typed as a block of their own.
fn run(
    alloc: Global,
    ops: Vec<Op>,
    end: PartEnd,
    state: &mut Virtual,
) -> Result<Option<Request>, AllocError> {
    let ops = Seq::from_vec(ops);
    let block = Block {
        at: 0x401000,
        code: Seq::from_vec(Vec::new(alloc)),
        parts: Seq::from_vec(vec![in alloc; Part { ops, end }]?),
    };
    Ok(run_alone(&block, state))
}

const fn get(t: u8, r: u8) -> Op {
    Op::Get {
        w: Width::W32,
        t,
        r,
    }
}

const fn compared(flag: Flag) -> Op {
    Op::FlagOf {
        flag,
        family: Family::Sub,
        w: Width::W32,
        a: 1,
        b: Some(2),
    }
}

// mov edi, 7; jmp 0x401f00
#[test]
fn constant_and_jump(rt: HostRuntime) -> Result<(), Fail> {
    let mut state = Virtual::make();
    state.regs[7] = u64::MAX;
    let ops = vec![in rt.alloc();
        Op::Const {
            w: Width::W32,
            t: 1,
            n: 7
        },
        Op::Put {
            w: Width::W32,
            r: 7,
            t: 1
        },
    ]?;
    assert_eq!(rt;
        run(rt.alloc(), ops, PartEnd::Tick, &mut state)?,
        Some(Request::Tick)
    );
    assert_eq!(rt; state.regs[7], 7);
    let end = PartEnd::Go {
        to: Target::Place(0x401f00),
    };
    let none = Vec::new(rt.alloc());
    assert_eq!(rt;
        run(rt.alloc(), none, end, &mut state)?,
        Some(Request::Go(0x401f00))
    );
    Ok(())
}

// rax, rbx and rcx; then rax, cf, pf, zf, sf and of as a processor (Intel Xeon) left them after
// `add eax, ebx; cmp eax, ecx`
const COMPARED: [(u64, u64, u64, u64, [bool; 5]); 5] = [
    (
        0xffff_ffff_0000_0005,
        7,
        12,
        12,
        [false, true, true, false, false],
    ),
    (
        0x7fff_ffff,
        1,
        1,
        0x8000_0000,
        [false, true, false, false, true],
    ),
    (1, 2, 5, 3, [true, false, false, true, false]),
    (
        0xffff_fffe,
        1,
        0x1_ffff_ffff,
        0xffff_ffff,
        [false, true, true, false, false],
    ),
    (3, 4, 0x8000_0000, 7, [true, false, false, true, true]),
];

// add eax, ebx; cmp eax, ecx; je
#[test]
fn sum_compared(rt: HostRuntime) -> Result<(), Fail> {
    for (rax, rbx, rcx, sum, [cf, pf, zf, sf, of]) in COMPARED {
        let mut state = Virtual::make();
        state.regs[0] = rax;
        state.regs[3] = rbx;
        state.regs[1] = rcx;
        let ops = vec![in rt.alloc();
            get(1, 0),
            get(2, 3),
            Op::Calc {
                family: Family::Add,
                w: Width::W32,
                t: 3,
                a: 1,
                b: Some(2)
            },
            Op::Put {
                w: Width::W32,
                r: 0,
                t: 3
            },
        ]?;
        assert_eq!(rt;
            run(rt.alloc(), ops, PartEnd::Tick, &mut state)?,
            Some(Request::Tick)
        );
        assert_eq!(rt; state.regs[0], sum);
        let ops = vec![in rt.alloc();
            get(1, 0),
            get(2, 1),
            compared(Flag::Pf),
            compared(Flag::Zf),
            compared(Flag::Sf),
            compared(Flag::Of),
            compared(Flag::Cf),
        ]?;
        assert_eq!(rt;
            run(rt.alloc(), ops, PartEnd::Tick, &mut state)?,
            Some(Request::Tick)
        );
        assert_eq!(rt;
            [state.cf, state.pf, state.zf, state.sf, state.of],
            [cf, pf, zf, sf, of]
        );
        let end = PartEnd::Branch {
            c: Cond::E,
            yes: 0x401006,
            no: 0x401008,
        };
        let none = Vec::new(rt.alloc());
        let place = if zf { 0x401006 } else { 0x401008 };
        assert_eq!(rt;
            run(rt.alloc(), none, end, &mut state)?,
            Some(Request::Go(place))
        );
    }
    Ok(())
}

#[test]
fn answer_of_a_load(rt: HostRuntime) {
    let mut state = Virtual::make();
    let load = Part {
        ops: Seq::from_vec(Vec::new(rt.alloc())),
        end: PartEnd::Load {
            w: Width::W16,
            t: 3,
            a: 1,
        },
    };
    answer(&load, &mut state, 0xbeef);
    assert_eq!(rt; state.temps, [0, 0, 0, 0xbeef, 0, 0, 0, 0]);
}
