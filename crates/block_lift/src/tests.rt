// Blocks of a program that is loaded from a file; the rows are worked by hand from the lifting table.
use super::*;
use basic_blocks::is_code_place;
use elf_image::{Image, load};
use ir_syntax::{Block, Cond, Family, Flag, Op, Part, PartEnd, Seq, Target, Width};
use std::alloc::{AllocError, Global};
use std::process::Abort;
use std::test::Fail;
use x86_forms::{Instr, Operand, Width as Form};

const W: Width = Width::W32;

// Where a number stands in the file, the number, and how many bytes it has.
type Field = (usize, u64, usize);

// The file header at 0, two program headers at 64, three section headers at 176, three symbols at 368 (exit at
// 0x401f00, write at 0x401f10), strings at 440, code at 452. The code is at 0x401000 in 0x1000 bytes that can be
// run, the data at 0x402000 in 0x1000 bytes that can be written.
const FILE: [Field; 42] = [
    (0, 0x0001_0102_464c_457f, 8),
    (16, 2, 2),
    (18, 62, 2),
    (24, 0x40_1000, 8),
    (32, 64, 8),
    (40, 176, 8),
    (54, 56, 2),
    (56, 2, 2),
    (58, 64, 2),
    (60, 3, 2),
    (64, 1, 4),
    (68, 5, 4),
    (72, 452, 8),
    (80, 0x40_1000, 8),
    (96, 0x1000, 8),
    (104, 0x1000, 8),
    (120, 1, 4),
    (124, 6, 4),
    (136, 0x40_2000, 8),
    (152, 0, 8),
    (160, 0x1000, 8),
    (244, 2, 4),
    (264, 368, 8),
    (272, 72, 8),
    (280, 2, 4),
    (296, 24, 8),
    (308, 3, 4),
    (328, 440, 8),
    (336, 12, 8),
    (392, 1, 4),
    (396, 0x12, 1),
    (398, 1, 2),
    (400, 0x40_1f00, 8),
    (416, 6, 4),
    (420, 0x12, 1),
    (422, 1, 2),
    (424, 0x40_1f10, 8),
    (440, 0, 1),
    (441, 0x7469_7865, 4),
    (445, 0, 1),
    (446, 0x7469_7277, 4),
    (450, 0x65, 1),
];

// The program with this code at 0x401000 and CC behind it, which is no instruction of the subset.
fn program(alloc: Global, code: &[u8]) -> Result<Image, Fail> {
    let mut bytes = vec![in alloc; 0u8; 452]?;
    for (at, value, size) in FILE {
        let mut place = at;
        for byte in value.to_le_bytes().iter().take(size) {
            if let Some(b) = bytes.get_mut(place) {
                *b = *byte;
            }
            place = place.saturating_add(1);
        }
    }
    bytes.extend_from_slice(code)?;
    for _ in code.len()..0x1000 {
        bytes.push(0xcc)?;
    }
    let image = load(alloc, &bytes).ok().ok_or("the file is loaded")?;
    Ok(image)
}

fn lifted(rt: &impl Abort, alloc: Global, image: &Image, a: u64) -> Result<Block, Fail> {
    assert!(rt; is_code_place(image, a));
    let block = lift_block(alloc, image, a)?;
    Ok(block)
}

fn part(ops: Vec<Op>, end: PartEnd) -> Part {
    Part {
        ops: Seq::from_vec(ops),
        end,
    }
}

const fn get(t: u8, r: u8) -> Op {
    Op::Get { w: W, t, r }
}

const fn put(r: u8, t: u8) -> Op {
    Op::Put { w: W, r, t }
}

const fn of_sub(flag: Flag) -> Op {
    Op::FlagOf {
        flag,
        family: Family::Sub,
        w: W,
        a: 1,
        b: Some(2),
    }
}

// 01 D8, add eax, ebx; 39 C8, cmp eax, ecx; 74 00, je to the next instruction: the flags of CMP alone are put.
fn compared(alloc: Global, code: &[u8]) -> Result<Block, AllocError> {
    let sum = Op::Calc {
        family: Family::Add,
        w: W,
        t: 3,
        a: 1,
        b: Some(2),
    };
    let add = vec![in alloc; get(1, 0), get(2, 3), sum, put(0, 3)]?;
    let cmp = vec![in alloc;
        get(1, 0),
        get(2, 1),
        of_sub(Flag::Pf),
        of_sub(Flag::Zf),
        of_sub(Flag::Sf),
        of_sub(Flag::Of),
        of_sub(Flag::Cf),
    ]?;
    let je = PartEnd::Branch {
        c: Cond::E,
        yes: 0x40_1006,
        no: 0x40_1006,
    };
    let none = Vec::new(alloc);
    let parts = vec![in alloc;
        part(add, PartEnd::Tick),
        part(cmp, PartEnd::Tick),
        part(none, je),
    ]?;
    Ok(Block {
        at: 0x40_1000,
        code: Seq::from_vec(code.to_vec(alloc)?),
        parts: Seq::from_vec(parts),
    })
}

// BF 07 00 00 00, mov edi, 7; E9 F6 0E 00 00, jmp exit: the block where n is 7.
fn left(alloc: Global, code: &[u8], n: u64) -> Result<Block, AllocError> {
    let number = Op::Const { w: W, t: 1, n };
    let mov = vec![in alloc; number, put(7, 1)]?;
    let jmp = PartEnd::Go {
        to: Target::Place(0x40_1f00),
    };
    let none = Vec::new(alloc);
    let parts = vec![in alloc; part(mov, PartEnd::Tick), part(none, jmp)]?;
    Ok(Block {
        at: 0x40_1000,
        code: Seq::from_vec(code.to_vec(alloc)?),
        parts: Seq::from_vec(parts),
    })
}

#[test]
fn blocks_of_worked_programs(rt: HostRuntime) -> Result<(), Fail> {
    let code = [0x01, 0xd8, 0x39, 0xc8, 0x74, 0x00];
    let image = program(rt.alloc(), &code)?;
    let want = compared(rt.alloc(), &code)?;
    assert!(rt; lifted(&rt, rt.alloc(), &image, 0x40_1000)? == want);
    let code = [0xbf, 7, 0, 0, 0, 0xe9, 0xf6, 0x0e, 0, 0];
    let image = program(rt.alloc(), &code)?;
    let want = left(rt.alloc(), &code, 7)?;
    assert!(rt; lifted(&rt, rt.alloc(), &image, 0x40_1000)? == want);
    Ok(())
}

// The number of bytes and of parts of the block at `a`, and whether it is the trap block.
fn measure(
    rt: &impl Abort,
    alloc: Global,
    image: &Image,
    a: u64,
) -> Result<(usize, usize, bool), Fail> {
    let block = lifted(rt, alloc, image, a)?;
    let parts = block.parts.as_slice();
    let trap = matches!(parts.first(), Some(p) if p.end == PartEnd::BadCode);
    Ok((block.code.as_slice().len(), parts.len(), trap))
}

#[test]
fn spans_end(rt: HostRuntime) -> Result<(), Fail> {
    // 15 bytes of moves, call write, xor edi, edi, call exit, and CC at 0x40101b.
    let code = [
        0xbf, 1, 0, 0, 0, 0xbe, 0x40, 0x10, 0x40, 0, 0xba, 3, 0, 0, 0, 0xe8, 0xfc, 0x0e, 0, 0,
        0x31, 0xff, 0xe8, 0xe5, 0x0e, 0, 0,
    ];
    let image = program(rt.alloc(), &code)?;
    for (a, want) in [
        (0x40_1000, (20, 4, false)),
        (0x40_1014, (7, 2, false)),
        (0x40_101b, (0, 1, true)),
    ] {
        assert!(rt; measure(&rt, rt.alloc(), &image, a)? == want, "at {a:#x}");
    }
    let code = vec![in rt.alloc(); 0x90u8; 0x1000]?;
    let image = program(rt.alloc(), &code)?;
    for (a, want) in [
        // 64 instructions, and on at the next address.
        (0x40_1000, (64, 64, false)),
        (0x40_1040, (64, 64, false)),
        // Up to exit at 0x401f00, and up to the segment's end.
        (0x40_1efe, (2, 2, false)),
        (0x40_1ffd, (3, 3, false)),
        // No bytes that can be run.
        (0x40_2000, (0, 1, true)),
        (0x50_0000, (0, 1, true)),
    ] {
        assert!(rt; measure(&rt, rt.alloc(), &image, a)? == want, "at {a:#x}");
    }
    assert!(rt; !is_code_place(&image, 0x40_1f10));
    assert!(rt; !is_code_place(&image, 0x7000_00ff_0000));
    laws::every_instruction_lifts();
    laws::bytes_spell_one_list();
    laws::known_by_its_bytes();
    Ok(())
}

#[test]
fn instructions_alone(rt: HostRuntime) -> Result<(), Fail> {
    let alloc = rt.alloc();
    // mov edi, 7: its number, and the register.
    let mov = Instr::Mov {
        w: Form::W32,
        dst: Operand::Reg(7),
        src: Operand::Imm(7),
    };
    let number = Op::Const { w: W, t: 1, n: 7 };
    let ops = vec![in alloc; number, put(7, 1)]?;
    let parts = vec![in alloc; part(ops, PartEnd::Tick)]?;
    assert!(rt; lift_instr(alloc, &mov, 0x40_1005)? == parts);
    // jmp exit, which counts from the address after it.
    let jmp = Instr::Jmp { rel: 0xef6 };
    let to = Target::Place(0x40_1f00);
    let parts = vec![in alloc; part(Vec::new(alloc), PartEnd::Go { to })]?;
    assert!(rt; lift_instr(alloc, &jmp, 0x40_100a)? == parts);
    Ok(())
}

// The fault of a block that isn't the one at its place: that block, and whether the lifted one is as expected.
fn expect_stale(
    rt: &impl Abort,
    alloc: Global,
    image: &Image,
    blocks: Vec<Block>,
    want: (&Block, &Block),
) -> Result<(), Fail> {
    match accept(alloc, image, blocks) {
        Err(
            AcceptFault::Stale {
                address,
                file,
                lifted,
            },
        ) => {
            assert!(rt; address == want.0.at && file == *want.0 && lifted == *want.1);
            Ok(())
        }
        _ => Err("a stale block".into()),
    }
}

// The three blocks of the program, in this order, are accepted, and come by rising address.
fn expect_accepted(
    rt: &impl Abort,
    alloc: Global,
    image: &Image,
    order: &[u64],
) -> Result<(), Fail> {
    let mut blocks = Vec::new(alloc);
    for a in order {
        blocks.push(lifted(rt, alloc, image, *a)?)?;
    }
    let accepted = accept(alloc, image, blocks).ok().ok_or("accepted")?;
    let mut rising = Vec::new(alloc);
    for a in [0x40_1000, 0x40_1014, 0x40_101b] {
        rising.push(lifted(rt, alloc, image, a)?)?;
    }
    assert!(rt; accepted == rising);
    Ok(())
}

#[test]
fn blocks_are_accepted(rt: HostRuntime) -> Result<(), Fail> {
    let alloc = rt.alloc();
    let code = [
        0xbf, 1, 0, 0, 0, 0xbe, 0x40, 0x10, 0x40, 0, 0xba, 3, 0, 0, 0, 0xe8, 0xfc, 0x0e, 0, 0,
        0x31, 0xff, 0xe8, 0xe5, 0x0e, 0, 0,
    ];
    let image = program(alloc, &code)?;
    for order in [
        [0x40_1000, 0x40_1014, 0x40_101b],
        [0x40_101b, 0x40_1014, 0x40_1000],
        [0x40_101b, 0x40_1000, 0x40_1014],
    ] {
        expect_accepted(&rt, alloc, &image, &order)?;
    }
    let none = accept(alloc, &image, Vec::new(alloc))
        .ok()
        .ok_or("accepted")?;
    assert!(rt; none.is_empty());
    Ok(())
}

// The blocks of these bytes at 0x401000, one for each number.
fn blocks_with(alloc: Global, code: &[u8], numbers: &[u64]) -> Result<Vec<Block>, AllocError> {
    let mut blocks = Vec::new(alloc);
    for n in numbers {
        blocks.push(left(alloc, code, *n)?)?;
    }
    Ok(blocks)
}

// mov edi, 7; jmp exit.
const LEFT: [u8; 10] = [0xbf, 7, 0, 0, 0, 0xe9, 0xf6, 0x0e, 0, 0];

#[test]
fn changed_blocks_are_refused(rt: HostRuntime) -> Result<(), Fail> {
    let alloc = rt.alloc();
    let image = program(alloc, &LEFT)?;
    let want = left(alloc, &LEFT, 7)?;
    // A constant that is changed, and a byte.
    let changed = left(alloc, &LEFT, 8)?;
    let blocks = blocks_with(alloc, &LEFT, &[8])?;
    expect_stale(&rt, alloc, &image, blocks, (&changed, &want))?;
    let other = [0xbf, 8, 0, 0, 0, 0xe9, 0xf6, 0x0e, 0, 0];
    let changed = left(alloc, &other, 7)?;
    let blocks = blocks_with(alloc, &other, &[7])?;
    expect_stale(&rt, alloc, &image, blocks, (&changed, &want))
}

// A block without bytes and parts, at the address to which a thread's start function returns.
fn at_door(alloc: Global) -> Block {
    Block {
        at: 0x7000_00ff_0000,
        code: Seq::from_vec(Vec::new(alloc)),
        parts: Seq::from_vec(Vec::new(alloc)),
    }
}

#[test]
fn doors_are_refused(rt: HostRuntime) -> Result<(), Fail> {
    let alloc = rt.alloc();
    let image = program(alloc, &LEFT)?;
    let mut blocks = blocks_with(alloc, &LEFT, &[7])?;
    blocks.push(at_door(alloc))?;
    let door = at_door(alloc);
    expect_stale(&rt, alloc, &image, blocks, (&door, &door))
}

#[test]
fn the_first_wrong_block_is_told(rt: HostRuntime) -> Result<(), Fail> {
    let alloc = rt.alloc();
    let image = program(alloc, &LEFT)?;
    let want = left(alloc, &LEFT, 7)?;
    // A second block of the same place that is stale, and one that isn't.
    let changed = left(alloc, &LEFT, 8)?;
    let blocks = blocks_with(alloc, &LEFT, &[7, 8])?;
    expect_stale(&rt, alloc, &image, blocks, (&changed, &want))?;
    let blocks = blocks_with(alloc, &LEFT, &[7, 7, 8])?;
    let fault = accept(alloc, &image, blocks);
    assert!(rt; matches!(fault, Err(AcceptFault::Twice(0x40_1000))));
    Ok(())
}
