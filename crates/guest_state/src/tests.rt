// What a real processor (Intel Xeon, run from an assembly program) read from rax and left in it.
use super::*;
use Width::{W8, W16, W32, W64};

const BEFORE: u64 = 0x1122_3344_5566_7788;

// a width, the number written, rax before and rax after
const WRITES: [(Width, u64, u64, u64); 5] = [
    (W8, 0xaa, BEFORE, 0x1122_3344_5566_77aa),
    (W16, 0xaabb, BEFORE, 0x1122_3344_5566_aabb),
    (W32, 0xaabb_ccdd, BEFORE, 0xaabb_ccdd),
    (W64, 0xaabb_ccdd_eeff_0011, BEFORE, 0xaabb_ccdd_eeff_0011),
    (W32, 0, u64::MAX, 0),
];

// a width, and what a read of it gives
const READS: [(Width, u64); 4] = [(W8, 0x88), (W16, 0x7788), (W32, 0x5566_7788), (W64, BEFORE)];

#[test]
#[tactic(auto, unfolding(crate::specs::Width::bits))]
fn writes(rt: HostRuntime) {
    for (w, v, before, after) in WRITES {
        let mut state = Virtual::make();
        state.put(0, W64, before);
        assert!(rt; w.fits(v));
        state.put(0, w, v);
        assert_eq!(rt; state.get(0, W64), after, "{w:?} {v}");
    }
}

#[test]
#[tactic(auto, unfolding(crate::specs::Width::bits))]
fn reads(rt: HostRuntime) {
    for (w, value) in READS {
        let mut state = Virtual::make();
        state.put(15, W64, BEFORE);
        assert_eq!(rt; state.get(15, w), value, "{w:?}");
    }
}

#[test]
#[tactic(auto, unfolding(crate::specs::Width::bits))]
fn high_bytes(rt: HostRuntime) {
    let mut state = Virtual::make();
    state.put(3, W64, BEFORE);
    assert_eq!(rt; state.get_high(3), 0x77);
    state.put_high(3, 0xaa);
    assert_eq!(rt; state.get(3, W64), 0x1122_3344_5566_aa88);
    state.put(3, W64, u64::MAX);
    state.put_high(3, 0);
    assert_eq!(rt; state.get(3, W64), 0xffff_ffff_ffff_00ff);
}
