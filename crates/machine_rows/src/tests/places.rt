//! Doors, places of library functions, and bytes that can be run.
use elf_image::{Function, Image};
use guest_asm::{Piece, row_image};
use machine_plain::next_want;
use std::test::Fail;
use x86_flags::Flags;
use x86_forms::Width;
use x86_model::{BadStep, Cpu, Door, Want};

// mov edi, 7; jmp exit
const CODE: [u8; 10] = [0xbf, 7, 0, 0, 0, 0xe9, 0xf6, 0x0e, 0, 0];

// At rip, where rax is 0x8000, the instruction at 1 was finished last and the carry flag is set.
fn cpu(rip: u64) -> Cpu {
    let mut regs = [0; 16];
    regs[0] = 0x8000;
    Cpu {
        regs,
        flags: Flags {
            cf: true,
            pf: false,
            zf: false,
            sf: false,
            of: false,
        },
        rip,
        last: 1,
        mid: None,
    }
}

fn wants(image: &Image, rip: u64) -> Want {
    next_want(image, cpu(rip))
}

// After a step at rip that leaves 7 in edi or changes no register, and goes on at `to`.
fn stepped(edi: u64, rip: u64, to: u64) -> Want {
    let mut next = cpu(to);
    next.last = rip;
    next.regs[7] = edi;
    Want::Private(next)
}

#[test]
fn what_stands_at_rip_decides(rt: HostRuntime) -> Result<(), Fail> {
    // 00 00 is add byte [rax], al.
    let pieces = [
        Piece {
            at: 0x40_1000,
            bytes: &CODE,
        },
        Piece {
            at: 0x40_1ffe,
            bytes: &[0, 0],
        },
    ];
    let image = row_image(rt.alloc(), &pieces)?;
    let code = Want::Bad(BadStep::Code);
    let rows = [
        // Doors, and places of the library's functions.
        (0x7000_00ff_0000, Want::Door(Door::End)),
        (0x7000_00ff_0010, Want::Door(Door::Call)),
        (0x40_1f00, Want::Call(Function::Exit)),
        (0x40_1f20, Want::Call(Function::Read)),
        // BF 07 00 00 00, mov edi, 7; E9 F6 0E 00 00, jmp exit; 00 00, add byte [rax], al.
        (0x40_1000, stepped(7, 0x40_1000, 0x40_1005)),
        (0x40_1005, stepped(0, 0x40_1005, 0x40_1f00)),
        (
            0x40_1ffe,
            Want::Load {
                at: 0x8000,
                w: Width::W8,
            },
        ),
        // CC is no instruction of the subset.
        (0x40_100a, code),
        // 00 at the segment's last byte, whose ModRM byte would stand in the next segment.
        (0x40_1fff, code),
        // No segment, a segment that can't be run, and no segment again.
        (0, code),
        (0x40_0fff, code),
        (0x40_2000, code),
        (0x40_3000, code),
        (u64::MAX, code),
    ];
    for (rip, want) in rows {
        assert!(rt; wants(&image, rip) == want, "at {rip:#x}");
    }
    Ok(())
}
