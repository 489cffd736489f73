//! The serial order: the journals of worked programs, as an independent model of the machine counts them.

use crate::tests::plays::a_hundred_threads;
use crate::tests::programs::{BARRIER, ONCE, P1, P2, P6, P7, P8, Program, SPIN, image};
use Entry::{Dead, Ev, Flush, Grow, Miss, Over, Tick};
use elf_image::Image;
use guest_asm::{Piece, row_image};
use journal_pack::Entry;
use lib_table::BadKind;
use machine_model::case::Case;
use machine_model::ending::RunEnd;
use miss_report::Miss as Report;
use serial_plain::serial_plain;
use std::alloc::{AllocError, Global};
use std::sync::Arc;
use std::test::Fail;

// Two threads to their end. mov edi, 0x402008; xor esi, esi; mov edx, 0x401100; xor ecx, ecx; call pthread_create;
// mov dword [0x402000], 1; mov ebx, [0x402004]; mov rdi, [0x402008]; mov esi, 0x402010; call pthread_join; then what
// both read is written as two digits, and exit 0; at 0x401100 mov dword [0x402004], 1; mov eax, [0x402000]; ret
const TWO: Program = Program {
    code: &[
        0xbf, 8, 0x20, 0x40, 0, 0x31, 0xf6, 0xba, 0, 0x11, 0x40, 0, 0x31, 0xc9, 0xe8, 0x1d, 0x0f,
        0, 0, 0xc7, 4, 0x25, 0, 0x20, 0x40, 0, 1, 0, 0, 0, 0x8b, 0x1c, 0x25, 4, 0x20, 0x40, 0,
        0x48, 0x8b, 0x3c, 0x25, 8, 0x20, 0x40, 0, 0xbe, 0x10, 0x20, 0x40, 0, 0xe8, 9, 0x0f, 0, 0,
        0x83, 0xc3, 0x30, 0x88, 0x1c, 0x25, 0x18, 0x20, 0x40, 0, 0x8a, 4, 0x25, 0x10, 0x20, 0x40,
        0, 4, 0x30, 0x88, 4, 0x25, 0x19, 0x20, 0x40, 0, 0xbf, 1, 0, 0, 0, 0xbe, 0x18, 0x20, 0x40,
        0, 0xba, 2, 0, 0, 0, 0xe8, 0xab, 0x0e, 0, 0, 0x31, 0xff, 0xe9, 0x94, 0x0e, 0, 0,
    ],
    data: &[],
    other: &[
        0xc7, 4, 0x25, 4, 0x20, 0x40, 0, 1, 0, 0, 0, 0x8b, 4, 0x25, 0, 0x20, 0x40, 0, 0xc3,
    ],
};

// The same with mfence between the store and the load of each thread.
const FENCED: Program = Program {
    code: &[
        0xbf, 8, 0x20, 0x40, 0, 0x31, 0xf6, 0xba, 0, 0x11, 0x40, 0, 0x31, 0xc9, 0xe8, 0x1d, 0x0f,
        0, 0, 0xc7, 4, 0x25, 0, 0x20, 0x40, 0, 1, 0, 0, 0, 0x0f, 0xae, 0xf0, 0x8b, 0x1c, 0x25, 4,
        0x20, 0x40, 0, 0x48, 0x8b, 0x3c, 0x25, 8, 0x20, 0x40, 0, 0xbe, 0x10, 0x20, 0x40, 0, 0xe8,
        6, 0x0f, 0, 0, 0x83, 0xc3, 0x30, 0x88, 0x1c, 0x25, 0x18, 0x20, 0x40, 0, 0x8a, 4, 0x25,
        0x10, 0x20, 0x40, 0, 4, 0x30, 0x88, 4, 0x25, 0x19, 0x20, 0x40, 0, 0xbf, 1, 0, 0, 0, 0xbe,
        0x18, 0x20, 0x40, 0, 0xba, 2, 0, 0, 0, 0xe8, 0xa8, 0x0e, 0, 0, 0x31, 0xff, 0xe9, 0x91,
        0x0e, 0, 0,
    ],
    data: &[],
    other: &[
        0xc7, 4, 0x25, 4, 0x20, 0x40, 0, 1, 0, 0, 0, 0x0f, 0xae, 0xf0, 0x8b, 4, 0x25, 0, 0x20,
        0x40, 0, 0xc3,
    ],
};

// Thread 0 births a thread, joins it, writes the 16 bytes at 0x402000 and ends with whether both words are the same; the
// thread adds its argument to the first word by lock xadd, and to the second between a mutex's lock and unlock.
const ADDS: [u8; 116] = [
    0x31, 0xdb, 0x48, 0x8d, 0x3c, 0xdd, 0, 0x24, 0x40, 0, 0x31, 0xf6, 0xba, 0, 0x11, 0x40, 0, 0x48,
    0x8b, 0x0c, 0xdd, 0, 0x21, 0x40, 0, 0xe8, 0x12, 0x0f, 0, 0, 0xff, 0xc3, 0x83, 0xfb, 1, 0x0f,
    0x85, 0xd9, 0xff, 0xff, 0xff, 0x31, 0xdb, 0x48, 0x8b, 0x3c, 0xdd, 0, 0x24, 0x40, 0, 0x31, 0xf6,
    0xe8, 6, 0x0f, 0, 0, 0xff, 0xc3, 0x83, 0xfb, 1, 0x0f, 0x85, 0xe6, 0xff, 0xff, 0xff, 0xbf, 1, 0,
    0, 0, 0xbe, 0, 0x20, 0x40, 0, 0xba, 0x10, 0, 0, 0, 0xe8, 0xb7, 0x0e, 0, 0, 0x48, 0x8b, 4, 0x25,
    0, 0x20, 0x40, 0, 0x31, 0xff, 0x48, 0x3b, 4, 0x25, 8, 0x20, 0x40, 0, 0x40, 0x0f, 0x95, 0xc7,
    0xe8, 0x8c, 0x0e, 0, 0,
];

const ADDS_THREAD: [u8; 73] = [
    0x49, 0x89, 0xfc, 0x41, 0xbd, 1, 0, 0, 0, 0x4c, 0x89, 0xe0, 0xf0, 0x48, 0x0f, 0xc1, 4, 0x25, 0,
    0x20, 0x40, 0, 0xbf, 0x10, 0x20, 0x40, 0, 0xe8, 0x50, 0x0e, 0, 0, 0x48, 0x8b, 4, 0x25, 8, 0x20,
    0x40, 0, 0x4c, 1, 0xe0, 0x48, 0x89, 4, 0x25, 8, 0x20, 0x40, 0, 0xbf, 0x10, 0x20, 0x40, 0, 0xe8,
    0x53, 0x0e, 0, 0, 0x41, 0xff, 0xcd, 0x0f, 0x85, 0xc3, 0xff, 0xff, 0xff, 0x31, 0xc0, 0xc3,
];

const ADDS_ARGUMENT: [u8; 8] = [3, 0, 0, 0, 0, 0, 0, 0];

fn adds(alloc: Global) -> Result<Image, AllocError> {
    let pieces = [
        Piece {
            at: 0x40_1000,
            bytes: &ADDS,
        },
        Piece {
            at: 0x40_1100,
            bytes: &ADDS_THREAD,
        },
        Piece {
            at: 0x40_2100,
            bytes: &ADDS_ARGUMENT,
        },
    ];
    row_image(alloc, &pieces)
}

// How a run goes: the places that are grown before, its limit, whether it is strict, the budget of a turn, and for how
// many turns a write waits.
#[derive(Clone, Copy)]
struct Rules {
    first: &'static [u64],
    limit: u16,
    strict: bool,
    budget: u64,
    hold: u64,
}

fn usual(first: &'static [u64]) -> Rules {
    Rules {
        first,
        limit: 100,
        strict: false,
        budget: 1024,
        hold: 2,
    }
}

// What a run comes to.
#[derive(Clone, Copy)]
struct Told<'a> {
    journal: &'a [Entry],
    ending: RunEnd,
    steps: u64,
    out: &'a [u8],
}

// Whether the serial run is this journal and ends so.
fn runs(alloc: Global, image: Image, rules: Rules, told: &Told) -> Result<bool, Fail> {
    let mut args = Vec::new(alloc);
    args.push(String::from_str(alloc, "p")?)?;
    let case = Case {
        image: Arc::new(alloc, image)?,
        args,
        input: Vec::new(alloc),
        limit: u64::from(rules.limit),
        strict: rules.strict,
        first: Vec::from_slice(alloc, rules.first)?,
    };
    let run = serial_plain(alloc, &case, rules.budget, rules.hold)
        .ok()
        .ok_or("it runs")?
        .ok_or("each entry is a step")?;
    if run.journal.as_slice() != told.journal || run.machine.ending() != Some(told.ending) {
        return Ok(false);
    }
    Ok(run.machine.steps() == told.steps && run.machine.out1() == told.out)
}

#[test]
fn one_thread(rt: HostRuntime) -> Result<(), Fail> {
    let divide = RunEnd::Fault {
        thread: 0,
        rip: 0x40_1013,
        kind: BadKind::Divide,
    };
    let rows: [(&str, &Program, Rules, Told); 6] = [
        (
            "exit",
            &P1,
            usual(&[0x40_1000]),
            Told {
                journal: &[Ev(0, 2)],
                ending: RunEnd::Exit(7),
                steps: 3,
                out: &[],
            },
        ),
        (
            "exit, at the limit of two steps",
            &P1,
            Rules {
                limit: 2,
                ..usual(&[0x40_1000])
            },
            Told {
                journal: &[Over(0, 2)],
                ending: RunEnd::Steps,
                steps: 2,
                out: &[],
            },
        ),
        (
            "write and exit",
            &P2,
            usual(&[0x40_1000, 0x40_1014, 0x40_101b]),
            Told {
                journal: &[Ev(0, 3), Flush(0), Ev(0, 0), Ev(0, 1), Flush(0), Ev(0, 0)],
                ending: RunEnd::Exit(0),
                steps: 8,
                out: b"hi\n",
            },
        ),
        (
            "write and exit, where nothing is grown",
            &P2,
            usual(&[]),
            Told {
                journal: &[
                    Miss(0, 0, 0, 0x40_1000),
                    Grow(0, 0x40_1000),
                    Grow(0, 0x40_1014),
                    Grow(0, 0x40_101b),
                    Ev(0, 3),
                    Flush(0),
                    Ev(0, 0),
                    Ev(0, 1),
                    Flush(0),
                    Ev(0, 0),
                ],
                ending: RunEnd::Exit(0),
                steps: 9,
                out: b"hi\n",
            },
        ),
        (
            "a division that goes wrong",
            &P6,
            usual(&[0x40_1000, 0x40_1016]),
            Told {
                journal: &[Ev(0, 3)],
                ending: divide,
                steps: 4,
                out: &[],
            },
        ),
        (
            "a jump to itself",
            &SPIN,
            Rules {
                limit: 1000,
                ..usual(&[0x40_1000])
            },
            Told {
                journal: &[Over(0, 1000)],
                ending: RunEnd::Steps,
                steps: 1000,
                out: &[],
            },
        ),
    ];
    for (name, program, rules, told) in rows {
        assert!(rt;
            runs(rt.alloc(), image(rt.alloc(), program)?, rules, &told)?,
            "{name}"
        );
    }
    Ok(())
}

#[test]
fn waiting(rt: HostRuntime) -> Result<(), Fail> {
    let rows: [(&str, &Program, Rules, Told); 3] = [
        (
            "a mutex that its owner locks again",
            &P7,
            usual(&[0x40_1000, 0x40_100a, 0x40_1014]),
            Told {
                journal: &[Ev(0, 1), Flush(0), Ev(0, 0), Ev(0, 1), Flush(0), Dead],
                ending: RunEnd::Deadlock,
                steps: 5,
                out: &[],
            },
        ),
        (
            "a barrier of one",
            &BARRIER,
            usual(&[0x40_1000, 0x40_1011, 0x40_101b]),
            Told {
                journal: &[
                    Ev(0, 3),
                    Flush(0),
                    Ev(0, 0),
                    Ev(0, 1),
                    Flush(0),
                    Ev(0, 0),
                    Ev(0, 2),
                ],
                ending: RunEnd::Exit(0xffff_ffff),
                steps: 11,
                out: &[],
            },
        ),
        (
            "a routine that asks for itself",
            &ONCE,
            usual(&[0x40_1000, 0x40_100f]),
            Told {
                journal: &[
                    Ev(0, 2),
                    Flush(0),
                    Ev(0, 0),
                    Miss(0, 0, 0x40_100a, 0x40_1100),
                    Grow(0, 0x40_1100),
                    Grow(0, 0x40_110f),
                    Ev(0, 2),
                    Flush(0),
                    Dead,
                ],
                ending: RunEnd::Deadlock,
                steps: 8,
                out: &[],
            },
        ),
    ];
    for (name, program, rules, told) in rows {
        assert!(rt;
            runs(rt.alloc(), image(rt.alloc(), program)?, rules, &told)?,
            "{name}"
        );
    }
    Ok(())
}

// What is reached from the entry of the program of two threads, without the fences and with them.
const FIRST: [u64; 4] = [0x40_1000, 0x40_1013, 0x40_1037, 0x40_1065];

const FENCED_FIRST: [u64; 4] = [0x40_1000, 0x40_1013, 0x40_103a, 0x40_1068];

#[test]
fn two_threads(rt: HostRuntime) -> Result<(), Fail> {
    let rows: [(&str, &Program, Rules, Told); 4] = [
        (
            "a thread's whole turn, then the other's",
            &TWO,
            usual(&FIRST),
            Told {
                journal: &[
                    Ev(0, 4),
                    Flush(0),
                    Ev(0, 0),
                    Ev(0, 0),
                    Ev(0, 0),
                    Ev(0, 1),
                    Ev(0, 2),
                    Flush(0),
                    Flush(0),
                    Miss(1, 0, 0, 0x40_1100),
                    Grow(1, 0x40_1100),
                    Ev(1, 0),
                    Ev(1, 0),
                    Ev(1, 1),
                    Flush(1),
                    Ev(1, 1),
                    Ev(0, 0),
                    Ev(0, 1),
                    Ev(0, 0),
                    Ev(0, 2),
                    Ev(0, 3),
                    Flush(0),
                    Flush(0),
                    Flush(0),
                    Ev(0, 0),
                    Ev(0, 2),
                ],
                ending: RunEnd::Exit(0),
                steps: 35,
                out: b"01",
            },
        ),
        (
            "strict",
            &TWO,
            Rules {
                strict: true,
                ..usual(&FIRST)
            },
            Told {
                journal: &[
                    Ev(0, 4),
                    Flush(0),
                    Ev(0, 0),
                    Ev(0, 0),
                    Ev(0, 0),
                    Ev(0, 1),
                    Ev(0, 2),
                    Flush(0),
                    Flush(0),
                    Miss(1, 0, 0, 0x40_1100),
                ],
                ending: RunEnd::Miss(Report {
                    thread: 1,
                    source: 0,
                    target: 0x40_1100,
                }),
                steps: 14,
                out: &[],
            },
        ),
        (
            "in turns of one entry",
            &TWO,
            Rules {
                budget: 1,
                ..usual(&FIRST)
            },
            Told {
                journal: &[
                    Ev(0, 4),
                    Flush(0),
                    Ev(0, 0),
                    Miss(1, 0, 0, 0x40_1100),
                    Grow(1, 0x40_1100),
                    Ev(0, 0),
                    Ev(1, 0),
                    Ev(0, 0),
                    Ev(1, 0),
                    Ev(0, 1),
                    Flush(0),
                    Ev(1, 1),
                    Flush(1),
                    Ev(0, 2),
                    Ev(1, 1),
                    Flush(0),
                    Ev(0, 0),
                    Ev(0, 1),
                    Ev(0, 0),
                    Ev(0, 2),
                    Flush(0),
                    Ev(0, 3),
                    Flush(0),
                    Flush(0),
                    Ev(0, 0),
                    Ev(0, 2),
                ],
                ending: RunEnd::Exit(0),
                steps: 35,
                out: b"00",
            },
        ),
        (
            "with fences, in turns of one entry",
            &FENCED,
            Rules {
                budget: 1,
                ..usual(&FENCED_FIRST)
            },
            Told {
                journal: &[
                    Ev(0, 4),
                    Flush(0),
                    Ev(0, 0),
                    Miss(1, 0, 0, 0x40_1100),
                    Grow(1, 0x40_1100),
                    Ev(0, 0),
                    Ev(1, 0),
                    Flush(0),
                    Ev(0, 0),
                    Flush(1),
                    Ev(1, 0),
                    Ev(0, 0),
                    Ev(1, 0),
                    Ev(0, 1),
                    Ev(1, 1),
                    Ev(0, 2),
                    Ev(1, 1),
                    Flush(0),
                    Ev(0, 0),
                    Ev(0, 1),
                    Ev(0, 0),
                    Ev(0, 2),
                    Flush(0),
                    Ev(0, 3),
                    Flush(0),
                    Flush(0),
                    Ev(0, 0),
                    Ev(0, 2),
                ],
                ending: RunEnd::Exit(0),
                steps: 37,
                out: b"11",
            },
        ),
    ];
    for (name, program, rules, told) in rows {
        assert!(rt;
            runs(rt.alloc(), image(rt.alloc(), program)?, rules, &told)?,
            "{name}"
        );
    }
    Ok(())
}

#[test]
fn a_thread_that_adds(rt: HostRuntime) -> Result<(), Fail> {
    let rules = usual(&[
        0x40_1000, 0x40_1002, 0x40_101e, 0x40_1029, 0x40_102b, 0x40_103a, 0x40_1045, 0x40_1059,
        0x40_1074,
    ]);
    let told = Told {
        journal: &[
            Ev(0, 4),
            Ev(0, 1),
            Flush(0),
            Ev(0, 0),
            Ev(0, 4),
            Ev(0, 2),
            Flush(0),
            Miss(1, 0, 0, 0x40_1100),
            Grow(1, 0x40_1100),
            Grow(1, 0x40_1109),
            Grow(1, 0x40_1120),
            Grow(1, 0x40_113d),
            Grow(1, 0x40_1146),
            Ev(1, 3),
            Ev(1, 2),
            Flush(1),
            Ev(1, 0),
            Ev(1, 0),
            Ev(1, 2),
            Ev(1, 1),
            Flush(1),
            Flush(1),
            Ev(1, 0),
            Ev(1, 3),
            Ev(1, 1),
            Ev(0, 0),
            Ev(0, 6),
            Flush(0),
            Ev(0, 0),
            Ev(0, 0),
            Ev(0, 2),
            Ev(0, 2),
            Flush(0),
            Ev(0, 0),
        ],
        ending: RunEnd::Exit(0),
        steps: 55,
        out: &[3, 0, 0, 0, 0, 0, 0, 0, 3, 0, 0, 0, 0, 0, 0, 0],
    };
    assert!(rt; runs(rt.alloc(), adds(rt.alloc())?, rules, &told)?);
    Ok(())
}

// P8: the slot of each thread is the next one's.
#[test]
fn a_hundred_threads_of_one_slot(rt: HostRuntime) -> Result<(), Fail> {
    let alloc = rt.alloc();
    let rules = Rules {
        limit: 10_000,
        ..usual(&[0x40_1000, 0x40_1002, 0x40_1015, 0x40_1024, 0x40_102b])
    };
    let journal = a_hundred_threads(alloc)?;
    let told = Told {
        journal: &journal,
        ending: RunEnd::Exit(100),
        steps: 1906,
        out: &[],
    };
    assert!(rt; runs(alloc, image(alloc, &P8)?, rules, &told)?);
    Ok(())
}
