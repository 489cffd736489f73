// The registers of an answer, by System V x86-64 psABI, section 3.2.3: rdi 7, rsi 6, rax 0, rsp 4.
use super::*;
use callbacks::Frame;
use guest_state::Virtual;
use lib_table::{Asked, Called};

const SEARCH: Frame = Frame {
    key: 0x5000,
    base: 0x6000,
    lo: 0,
    hi: 3,
    size: 8,
    compar: 0x40_1000,
    rsp: 0x7ff0,
    back: 0x40_1234,
    control: None,
};

// an answer; rax, rsp, rsi and rdi after it, where they were 0, 0x7ff0, 0 and 9; and where a thread goes on that asked at
// 0x40_2000
const ANSWERS: [(Called, [u64; 4], u64); 4] = [
    (
        Called::Back {
            rax: 22,
            rsp: 0x7ff8,
            rip: 0x40_1234,
            popped: false,
        },
        [22, 0x7ff8, 0, 9],
        0x40_1234,
    ),
    (
        Called::Probe {
            frame: SEARCH,
            place: 0x6008,
        },
        [0, 0x7fe0, 0x6008, 0x5000],
        0x40_1000,
    ),
    (Called::Stay, [0, 0x7ff0, 0, 9], 0x40_2000),
    (Called::Over, [0, 0x7ff0, 0, 9], 0x40_2000),
];

#[test]
fn answers(rt: HostRuntime) {
    for (called, [rax, rsp, rsi, rdi], place) in ANSWERS {
        let mut state = Virtual::make();
        state.regs[4] = 0x7ff0;
        state.regs[7] = 9;
        take_answer(&mut state, called);
        assert_eq!(rt; state.regs[0], rax, "rax");
        assert_eq!(rt; state.regs[4], rsp, "rsp");
        assert_eq!(rt; state.regs[6], rsi, "rsi");
        assert_eq!(rt; state.regs[7], rdi, "rdi");
        assert_eq!(rt; place_after(called, 0x40_2000), place);
    }
}

#[test]
fn requests(rt: HostRuntime) {
    let mut state = Virtual::make();
    state.regs = [
        10, 11, 12, 13, 14, 15, 16, 17, 18, 19, 20, 21, 22, 23, 24, 25,
    ];
    let ask = request(&state, &[SEARCH], Asked::CallDoor);
    assert_eq!(rt; ask.what, Asked::CallDoor);
    assert_eq!(rt; ask.args, [17, 16, 12, 11, 18]);
    assert_eq!(rt; ask.rsp, 14);
    assert_eq!(rt; ask.rax, 10);
    assert_eq!(rt; ask.depth, 1);
    assert_eq!(rt; ask.top, Some(SEARCH));
}
