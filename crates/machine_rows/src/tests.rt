//! A division that goes wrong, a jump to itself, and a locked step: journals that are runs, and journals that are
//! none.

mod gated;
mod places;
mod plays;
mod programs;
mod serial;

use guest_asm::{Piece, row_image};
use journal_pack::Entry::{self, Ev, Flush, Over, Tick};
use machine_model::case::Case;
use machine_plain::play_plain;
use std::alloc::Global;
use std::sync::Arc;
use std::test::Fail;

// mov rax, 2^63; cqo; mov rcx, -1; idiv rcx
const DIVIDE: [u8; 22] = [
    0x48, 0xb8, 0, 0, 0, 0, 0, 0, 0, 0x80, 0x48, 0x99, 0x48, 0xc7, 0xc1, 0xff, 0xff, 0xff, 0xff,
    0x48, 0xf7, 0xf9,
];

// jmp to itself
const SPIN: [u8; 2] = [0xeb, 0xfe];

// mov dword [0x402000], 1; lock inc dword [0x402000]; mfence
const LOCKED: [u8; 22] = [
    0xc7, 4, 0x25, 0, 0x20, 0x40, 0, 1, 0, 0, 0, 0xf0, 0xff, 4, 0x25, 0, 0x20, 0x40, 0, 0x0f, 0xae,
    0xf0,
];

// Whether each entry is a step, from the start of the program at 0x401000.
fn is_played(alloc: Global, code: &[u8], limit: u16, journal: &[Entry]) -> Result<bool, Fail> {
    let image = row_image(
        alloc,
        &[Piece {
            at: 0x40_1000,
            bytes: code,
        }],
    )?;
    let mut args = Vec::new(alloc);
    args.push(String::from_str(alloc, "p")?)?;
    let case = Case {
        image: Arc::new(alloc, image)?,
        args,
        input: Vec::new(alloc),
        limit: u64::from(limit),
        strict: false,
        first: Vec::new(alloc),
    };
    Ok(
        play_plain(alloc, &case, journal)
            .ok()
            .ok_or("the journal is played")?
            .is_some(),
    )
}

#[test]
fn a_division_that_goes_wrong(rt: HostRuntime) -> Result<(), Fail> {
    let rows: [(&str, &[Entry], bool); 6] = [
        ("the run", &[Ev(0, 3)], true),
        ("a thread that isn't born", &[Ev(1, 3)], false),
        ("a private step is left", &[Ev(0, 2)], false),
        ("too many private steps", &[Ev(0, 4)], false),
        ("no write waits", &[Flush(0)], false),
        ("after the ending", &[Ev(0, 3), Tick(0, 1)], false),
    ];
    for (name, journal, is_run) in rows {
        assert!(rt;
            is_played(rt.alloc(), &DIVIDE, 100, journal)? == is_run,
            "{name}"
        );
    }
    Ok(())
}

#[test]
fn a_jump_to_itself(rt: HostRuntime) -> Result<(), Fail> {
    let rows: [(&str, &[Entry], bool); 6] = [
        ("the run", &[Over(0, 1000)], true),
        ("below the limit", &[Over(0, 999)], false),
        ("the next step is private", &[Ev(0, 5)], false),
        ("at the limit", &[Tick(0, 1000)], false),
        ("no write waits", &[Tick(0, 5), Flush(0)], false),
        ("after the ending", &[Over(0, 1000), Tick(0, 1)], false),
    ];
    for (name, journal, is_run) in rows {
        assert!(rt;
            is_played(rt.alloc(), &SPIN, 1000, journal)? == is_run,
            "{name}"
        );
    }
    Ok(())
}

#[test]
fn a_locked_step_and_a_fence(rt: HostRuntime) -> Result<(), Fail> {
    let rows: [(&str, &[Entry], bool); 5] = [
        ("the run", &[Ev(0, 0), Flush(0), Ev(0, 0), Ev(0, 1)], true),
        (
            "a locked step over waiting writes",
            &[Ev(0, 0), Ev(0, 0)],
            false,
        ),
        ("no second write", &[Ev(0, 0), Flush(0), Flush(0)], false),
        (
            "the locked step isn't private",
            &[Ev(0, 0), Flush(0), Tick(0, 1)],
            false,
        ),
        ("another thread's write", &[Ev(0, 0), Flush(1)], false),
    ];
    for (name, journal, is_run) in rows {
        assert!(rt;
            is_played(rt.alloc(), &LOCKED, 100, journal)? == is_run,
            "{name}"
        );
    }
    Ok(())
}
