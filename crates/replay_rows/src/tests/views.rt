//! What a walker shows amid a run. What is expected was computed by a model that was written before, from the rules alone.

use crate::tests::following::{case, is_laid_out, journal_of};
use crate::tests::programs::P3;
use journal_pack::Entry::{self, Ev, Flush, Grow, Miss};
use replay_view::{ThreadView, View, follow};
use std::alloc::Global;
use std::test::Fail;

// The view after the first entries of a run of two threads.
fn shown(alloc: Global, n: u64) -> Result<View, Fail> {
    let run: [Entry; 16] = [
        Ev(0, 4),
        Flush(0),
        Ev(0, 0),
        Ev(0, 0),
        Ev(0, 0),
        Ev(0, 1),
        Ev(0, 2),
        Flush(0),
        Flush(0),
        Miss(1, 0, 0, 0x40_1100),
        Grow(1, 0x40_1100),
        Ev(1, 0),
        Ev(1, 0),
        Ev(1, 1),
        Flush(1),
        Ev(1, 1),
    ];
    let first = [0x40_1000, 0x40_1013, 0x40_1037, 0x40_1065];
    let case = case(alloc, (&P3, &first, 100, false))?;
    let journal = journal_of(alloc, &run)?.ok_or("it is spelled")?;
    if !is_laid_out(alloc, &case) {
        return Err("it is laid out".into());
    }
    match follow(alloc, &case, &journal, n) {
        Ok(view) => Ok(view),
        Err(_) => Err("it is followed".into()),
    }
}

// A thread as a line.
fn line(alloc: Global, t: u32, thread: &ThreadView) -> Result<String, Fail> {
    match thread {
        ThreadView::Ended(value) => Ok(format!(in alloc; "{t} ended {value:x}")?),
        ThreadView::Live {
            rip,
            last,
            mid,
            regs,
            flags,
            writes,
        } => {
            let mid = mid.unwrap_or(0);
            let rsp = regs[4];
            let rdi = regs[7];
            let zf = flags.zf;
            let mut line = format!(in alloc; "{t} {rip:x} {last:x} {mid:x} {rsp:x} {rdi:x} {zf}")?;
            for write in writes.as_slice() {
                let at = write.at;
                let value = write.value;
                line.push_str(format!(in alloc; " {at:x} {value:x}")?.as_str())?;
            }
            Ok(line)
        }
    }
}

// The threads of a view, a line each.
fn lines(alloc: Global, view: &View) -> Result<String, Fail> {
    let mut lines = String::new(alloc);
    for (t, thread) in view.threads.as_slice() {
        lines.push_str(line(alloc, *t, thread)?.as_str())?;
        lines.push_str("\n")?;
    }
    Ok(lines)
}

#[test]
fn two_threads_amid_their_run(rt: HostRuntime) -> Result<(), Fail> {
    let rows: [(u64, &str); 5] = [
        (0, "0 401000 0 0 70000001ffc0 0 false\n"),
        (
            6,
            "0 401025 40101e 2 70000001ffc0 402008 true 402000 1\n1 401100 0 0 70000003fff8 0 false\n",
        ),
        (
            8,
            "0 401f40 401032 0 70000001ffb8 2 true 70000001ffb8 401037\n1 401100 0 0 70000003fff8 0 false\n",
        ),
        (
            14,
            "0 401f40 401032 0 70000001ffb8 2 true\n1 401112 40110b 700000ff0000 70000003fff8 0 false 402004 1\n",
        ),
        (16, "0 401f40 401032 0 70000001ffb8 2 true\n1 ended 1\n"),
    ];
    for (n, wanted) in rows {
        let view = shown(rt.alloc(), n)?;
        let told = lines(rt.alloc(), &view)?;
        assert_eq!(rt; told.as_str(), wanted, "{n}");
    }
    Ok(())
}
