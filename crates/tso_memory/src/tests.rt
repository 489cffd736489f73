//! Worked rows.

ghost use Rattle.std.specs.Prelude.{◌≡◌, ◌^◌, ◌<◌, ◌≤◌, length, IfOk};
ghost use Rattle.tso_memory.specs.Piece.{end_of};

use crate::{Change, Denied, PendingWrite, Piece, Tso, Width};
use std::alloc::{AllocError, Global};
use std::process::Abort;
use std::test::Fail;

fn filled(alloc: Global, byte: u8, n: usize) -> Result<Vec<u8>, AllocError>
    ensures { IfOk result (λ v. length v.items ≡ n) }
{
    Ok(vec![in alloc; byte; n]?)
}

fn of_two(alloc: Global, low: Piece, high: Piece) -> Result<Tso, AllocError>
    requires order { end_of low ≤ high.at }
    requires low { end_of high ≤ 2 ^ 47 }
{
    let mut pieces = Vec::new(alloc);
    pieces.push(high)?;
    pieces.push(low)?;
    Tso::make(alloc, pieces)
}

/// `size` bytes of CC at 0x401000 with R, and `size` zeros after them with R and W.
fn row_image(alloc: Global, size: usize) -> Result<Tso, AllocError>
    requires { size < 2 ^ 20 }
{
    let code = Piece {
        at: 0x401000,
        r: true,
        w: false,
        bytes: filled(alloc, 0xcc, size)?,
    };
    let data = Piece {
        at: 0x401000 + size as u64,
        r: true,
        w: true,
        bytes: filled(alloc, 0, size)?,
    };
    of_two(alloc, code, data)
}

/// A store where there is room for it.
fn store<R: Abort>(rt: &R, memory: &mut Tso, t: u32, a: u64, width: Width, value: u64) {
    assert!(rt; t < 64);
    assert!(rt; memory.waiting(t) < 64);
    assert!(rt; memory.store(t, a, width, value).is_ok(), "store at {a:#x}");
}

// a store by thread 0, a load by threads 0 and 1
#[test]
fn own_stores_are_seen_at_once(rt: HostRuntime) -> Result<(), Fail> {
    let mut memory = row_image(rt.alloc(), 0x1000)?;
    let rows = [
        (0x402000, Width::W32, 0x1122_3344, 0x402000, 0x1122_3344),
        (0x402201, Width::W8, 0x1ab, 0x402200, 0xab00),
        (0x402300, Width::W32, 0x1111_1111, 0x402300, 0x1111_1111),
        (0x402302, Width::W16, 0x2222, 0x402300, 0x2222_1111),
        (0x402303, Width::W8, 0x33, 0x402300, 0x3322_1111),
    ];
    for (a, width, value, at, own) in rows {
        store(&rt, &mut memory, 0, a, width, value);
        assert_eq!(rt; memory.load(0, at, Width::W32), Ok(own));
        assert_eq!(rt; memory.load(1, at, Width::W32), Ok(0));
    }
    for want in [0, 0, 0x1111_1111, 0x2222_1111, 0x3322_1111] {
        assert!(rt; memory.flush(0));
        assert_eq!(rt; memory.load(1, 0x402300, Width::W32), Ok(want));
    }
    assert!(rt; !memory.flush(0));
    Ok(())
}

// each thread stores to its own place, and sees 0 at the other's
#[test]
fn both_loads_may_see_zero(rt: HostRuntime) -> Result<(), Fail> {
    let mut memory = row_image(rt.alloc(), 0x1000)?;
    store(&rt, &mut memory, 0, 0x402100, Width::W64, 1);
    store(&rt, &mut memory, 1, 0x402108, Width::W64, 1);
    for want in [0, 1] {
        assert_eq!(rt; memory.load(0, 0x402108, Width::W64), Ok(want));
        assert_eq!(rt; memory.load(1, 0x402100, Width::W64), Ok(want));
        memory.flush(0);
        memory.flush(1);
    }
    assert!(rt; memory.is_empty(1));
    Ok(())
}

// what is stored, and what the storing thread then loads where; before, it sees memory
#[test]
fn the_newest_store_decides(rt: HostRuntime) -> Result<(), Fail> {
    let mut memory = row_image(rt.alloc(), 0x8000)?;
    assert!(rt; memory.poke(0x409010, &[1, 2, 3, 4, 5, 6, 7, 8]).is_ok());
    assert_eq!(rt;
        memory.load(0, 0x409010, Width::W64),
        Ok(0x0807_0605_0403_0201)
    );
    let rows = [
        // meets partly: the other bytes are memory's
        (
            0x409014,
            Width::W16,
            0xabcd,
            0x409010,
            Width::W64,
            0x0807_abcd_0403_0201,
        ),
        // covers, and hides the older one
        (
            0x409010,
            Width::W64,
            0x1111_2222_3333_4444,
            0x409012,
            Width::W32,
            0x2222_3333,
        ),
        (
            0x409010,
            Width::W64,
            0x5555_6666_7777_8888,
            0x409010,
            Width::W64,
            0x5555_6666_7777_8888,
        ),
        // beside it, within the same eight bytes of a load
        (
            0x409018,
            Width::W8,
            0x99,
            0x409014,
            Width::W64,
            0x99_5555_6666,
        ),
        // over the seam of two eights, seen in each
        (
            0x40902e,
            Width::W32,
            0xdead_beef,
            0x409030,
            Width::W16,
            0xdead,
        ),
        (
            0x409041,
            Width::W8,
            0x77,
            0x409028,
            Width::W64,
            0xbeef_0000_0000_0000,
        ),
        // two places of one class of addresses: the older store is found behind the newer one
        (0x409000, Width::W64, 0xa1, 0x409000, Width::W64, 0xa1),
        (0x40ade8, Width::W64, 0xb2, 0x409000, Width::W64, 0xa1),
        (0x40ade8, Width::W8, 0xc3, 0x40ade8, Width::W64, 0xc3),
        // the last byte that there is
        (0x410ff8, Width::W64, u64::MAX, 0x410fff, Width::W8, 0xff),
    ];
    for (to, width, value, a, size, want) in rows {
        store(&rt, &mut memory, 0, to, width, value);
        assert_eq!(rt; memory.load(0, a, size), Ok(want), "load at {a:#x}");
    }
    Ok(())
}

// a buffer that is filled and emptied again and again: its stores lie elsewhere, are found at their places, and once
// they are flushed memory itself decides
#[test]
fn a_flushed_store_is_forgotten(rt: HostRuntime) -> Result<(), Fail> {
    let mut memory = row_image(rt.alloc(), 0x1000)?;
    for turn in 1u64..4 {
        for i in 0u64..64 {
            store(
                &rt,
                &mut memory,
                7,
                0x402100 + 8 * i,
                Width::W64,
                turn * 0x100 + i,
            );
        }
        assert_eq!(rt; memory.waiting(7), 64);
        let rows = [
            (0x402010, Width::W64, 0),
            (0x4020fc, Width::W32, 0),
            (0x402100, Width::W64, turn * 0x100),
            (0x4022f8, Width::W64, turn * 0x100 + 63),
            (0x4022f9, Width::W8, turn),
            (0x402300, Width::W64, 0),
        ];
        for (a, width, want) in rows {
            assert_eq!(rt; memory.load(7, a, width), Ok(want), "load at {a:#x}");
        }
        for _ in 0..64 {
            assert!(rt; memory.flush(7));
        }
        assert!(rt; memory.is_empty(7));
        assert_eq!(rt; memory.load(7, 0x4022f8, Width::W64), Ok(turn * 0x100 + 63));
        assert!(rt; memory.poke(0x4022f8, &[9, 9]).is_ok());
        assert_eq!(rt; memory.load(7, 0x4022f8, Width::W64), Ok(0x909));
    }
    Ok(())
}

// the waiting stores by their places, the oldest at 0
#[test]
fn waiting_writes_are_told(rt: HostRuntime) -> Result<(), Fail> {
    let mut memory = row_image(rt.alloc(), 0x1000)?;
    store(&rt, &mut memory, 0, 0x402000, Width::W32, 0x1122_3344);
    store(&rt, &mut memory, 0, 0x402201, Width::W8, 0x1ab);
    let first = PendingWrite {
        at: 0x402000,
        width: Width::W32,
        value: 0x1122_3344,
    };
    let second = PendingWrite {
        at: 0x402201,
        width: Width::W8,
        value: 0x1ab,
    };
    let rows = [
        [Some(first), Some(second), None],
        [Some(second), None, None],
        [None, None, None],
    ];
    for wants in rows {
        for i in 0u32..3 {
            assert_eq!(rt; memory.waiting_write(0, i), wants[i as usize], "place {i}");
        }
        assert_eq!(rt; memory.waiting_write(1, 0), None);
        memory.flush(0);
    }
    assert_eq!(rt; memory.waiting_write(0, u32::MAX), None);
    Ok(())
}

#[test]
fn a_load_needs_each_byte(rt: HostRuntime) -> Result<(), Fail> {
    let memory = row_image(rt.alloc(), 0x1000)?;
    let rows = [
        (0x402ff8, Width::W64, Ok(0)),
        (0x402ffc, Width::W64, Err(Denied(0x403000))),
        (0x401ffc, Width::W64, Ok(0xcccc_cccc)),
        (0x400fff, Width::W16, Err(Denied(0x400fff))),
        (u64::MAX, Width::W64, Err(Denied(u64::MAX))),
    ];
    for (a, width, want) in rows {
        assert_eq!(rt; memory.load(5, a, width), want, "load at {a:#x}");
    }
    Ok(())
}

#[test]
fn a_check_finds_the_first_byte(rt: HostRuntime) -> Result<(), Fail> {
    let memory = row_image(rt.alloc(), 0x1000)?;
    let rows = [
        (0x401000, 0x2000, false, Ok(())),
        (0x401000, 0x2001, false, Err(Denied(0x403000))),
        (0x401fff, 2, true, Err(Denied(0x401fff))),
        (u64::MAX, u64::MAX, false, Err(Denied(u64::MAX))),
        (0, 0, true, Ok(())),
    ];
    for (a, n, write, want) in rows {
        assert_eq!(rt; memory.check(a, n, write), want, "check at {a:#x}");
    }
    Ok(())
}

#[test]
fn a_poke_writes_all_or_none(rt: HostRuntime) -> Result<(), Fail> {
    let mut memory = row_image(rt.alloc(), 0x1000)?;
    let rows = [(0x402fff, Err(Denied(0x403000)), 0), (0x402ffe, Ok(()), 8)];
    for (a, want, last) in rows {
        assert_eq!(rt; memory.poke(a, &[7, 8]), want);
        assert_eq!(rt; memory.peek(0x402fff), Ok(last));
    }
    Ok(())
}

#[test]
fn locked_exchanges_change_memory(rt: HostRuntime) -> Result<(), Fail> {
    let mut memory = row_image(rt.alloc(), 0x1000)?;
    let rows = [
        (Width::W32, Change::Xchg(0x1_0000_0005), 0, 5),
        (Width::W32, Change::Cmpxchg { want: 7, new: 9 }, 5, 5),
        (Width::W32, Change::Cmpxchg { want: 5, new: 9 }, 5, 9),
        (Width::W8, Change::Add(0xff), 9, 8),
        (Width::W16, Change::Sub(9), 8, 0xffff),
        (Width::W64, Change::And(0xf0f0), 0xffff, 0xf0f0),
        (Width::W8, Change::Or(0x0f), 0xf0, 0xf0ff),
        (Width::W64, Change::Xor(1), 0xf0ff, 0xf0fe),
    ];
    for (width, change, old, new) in rows {
        assert_eq!(rt; memory.exchange_locked(3, 0x402400, width, change), Ok(old));
        assert_eq!(rt; memory.load(3, 0x402400, Width::W64), Ok(new));
    }
    Ok(())
}
