use crate::{TextFailure, one_text, parse, parse_bytes, prefixes, print};
use std::alloc::Global;
use std::process::Abort;

/// The text of a program that moves 7 to edi and jumps on.
const EXIT: &str =
    "ir 1\nblock 0x401000 bf07000000e9f60e0000\nconst.32 t1 0x7\nput.32 rdi t1\ntick\ngo 0x401f00\nend\n";

/// The block of `add eax, ebx`, a trap block, and each kind of line once; a part behind a branch is a matter of types.
const LINES: &str =
    "ir 1\nblock 0x401000 01d8\nget.32 t1 rax\nget.32 t2 rbx\ncalc.add.32 t3 t1 t2\nflag pf add.32 t1 t2\nflag zf add.32 t1 t2\nflag sf add.32 t1 t2\nflag of add.32 t1 t2\nflag cf add.32 t1 t2\nput.32 rax t3\ntick\nend\nblock 0x40101b -\nbad code\nend\nblock 0xffffffffffffffff 00ff9a\nget.8 t0 r15\nget.h t7 rdx\nput.64 r10 t6\nput.h rcx t5\nconst.64 t4 0xffffffffffffffff\nea t0 - - 1 0x0\nea t1 rsp r8 8 0xfffffffffffffff8\ncalc.neg.16 t1 t2\nflag zf dec.8 t3\nflag of zero\ncond t1 np\npick.16 t1 t2 t3 t4\nzext.1.8 t1 t2\nsext.32.64 t3 t4\ncut.64.8 t5 t6\nload.64 t1 t0\nstore.8 t0 t1\nfence\nlocked.xor.32 t1 t2 t3\nlocked.cmpxchg.16 t1 t2 t3 t4\ndivide.u.32 t1\ndivide.s.64 t2\nstorego.64 t1 t2 0x10\nstorego.64 t1 t2 t3\ngo t1\nbranch ge 0x0 0x1\ntick\nend\n";

/// The text's blocks printed again.
fn assert_same(rt: &impl Abort, alloc: Global, text: &str) {
    match parse(alloc, text) {
        Ok(blocks) => {
            let Ok(again) = print(alloc, blocks.as_slice()) else {
                panic!(rt; "no memory")
            };
            assert_eq!(rt; again.as_str(), text);
        }
        Err(e) => panic!(rt; "{e}"),
    }
}

/// The text is refused at this place.
fn assert_fault(rt: &impl Abort, alloc: Global, text: &str, line: u64, column: u64) {
    match parse(alloc, text) {
        Ok(_) => panic!(rt; "read {text:?}"),
        Err(TextFailure::Fault(fault)) => {
            assert_eq!(rt; (fault.line, fault.column), (line, column), "at {text:?}");
        }
        Err(TextFailure::Memory(_)) => panic!(rt; "no memory"),
    }
}

#[test]
fn prints_and_reads_back(rt: HostRuntime) {
    assert_same(&rt, rt.alloc(), "ir 1\n");
    assert_same(&rt, rt.alloc(), EXIT);
    assert_same(&rt, rt.alloc(), LINES);
    one_text();
    prefixes();
}

#[test]
fn refuses_prefixes_at_their_end(rt: HostRuntime) {
    assert_eq!(rt; EXIT.len(), 92);
    for n in 0usize..92 {
        let Some(front) = EXIT.get(..n) else {
            panic!(rt; "no prefix")
        };
        let mut line = 1u64;
        let mut column = 1u64;
        for byte in front.as_bytes() {
            column = column.saturating_add(1);
            if *byte == b'\n' {
                line = line.saturating_add(1);
                column = 1;
            }
        }
        if n == 5 {
            assert_same(&rt, rt.alloc(), front);
        } else {
            assert_fault(&rt, rt.alloc(), front, line, column);
        }
    }
}

#[test]
fn refuses_lines(rt: HostRuntime) {
    for (line, column) in [
        ("const.8 t1 0x100\n", 16),
        ("const.16 t1 0x10000\n", 19),
        ("zext.32.8 t1 t1\n", 9),
        ("zext.8.8 t1 t1\n", 8),
        ("sext.1.8 t1 t1\n", 7),
        ("cut.8.16 t1 t1\n", 5),
        ("cut.16.16 t1 t1\n", 8),
        ("get.h t1 r8 \n", 12),
        ("get.16 t8 rax\n", 9),
        ("get.8 t1 r16\n", 12),
        ("get.9 t1 rax\n", 5),
        ("get.128 t1 rax\n", 6),
        ("get.8  t1 rax\n", 7),
        ("get.8 r1 rax\n", 7),
        ("get.8 t1 -\n", 10),
        ("put.8 t1 t1\n", 7),
        ("calc.foo.8 t1 t1 t1\n", 6),
        ("calc.umul.8 t1 t1 t1\n", 10),
        ("calc.inc.8 t1 t2 t3\n", 17),
        ("calc.add.8 t1 t2\n", 17),
        ("flag cf mul.32 t1 t1\n", 9),
        ("flag cf not.8 t1\n", 10),
        ("flag xf zero\n", 6),
        ("flag cf zerp\n", 12),
        ("flag pf umul.32 t1 t2 t3\n", 22),
        ("cond t1 x\n", 9),
        ("cond t1 nn\n", 10),
        ("ea t1 - - 2 0x0\n", 11),
        ("ea t1 rax rcx 3 0x0\n", 15),
        ("ea t1 - - 1 0x\n", 15),
        ("ea t1 - - 1 0x00\n", 16),
        ("ea t1 - - 1 0x1F\n", 16),
        ("ea t1 - - 1 0x12345678123456789\n", 31),
        ("ea t1 - - 1 1\n", 13),
        ("storego.32 t1 t1 t1\n", 9),
        ("storego.64 t1 t1 t8\n", 19),
        ("storego.64 t1 t1 1\n", 18),
        ("locked.nand.8 t1 t1 t1\n", 8),
        ("locked.xchg.8 t1 t1\n", 20),
        ("locked.cmpxchg.8 t1 t1 t1\n", 26),
        ("divide.x.32 t1\n", 8),
        ("go t1 \n", 6),
        ("go 0x\n", 6),
        ("go 401000\n", 4),
        ("branch e 0x1\n", 13),
        ("branch 0x1 0x2\n", 8),
        ("bad\n", 4),
        ("tick \n", 5),
        ("Tick\n", 1),
        ("tick\r\n", 5),
        ("end\n", 2),
        (" tick\n", 1),
        ("\ttick\n", 1),
        ("load.64 t1\n", 11),
        ("load.h t1 t1\n", 6),
        ("pick.8 t1 t1 t1\n", 16),
        ("nop\n", 1),
        ("tick", 5),
    ] {
        let Ok(text) = format!(in rt.alloc(); "ir 1\nblock 0x1 -\n{line}") else {
            panic!(rt; "no memory")
        };
        assert_fault(&rt, rt.alloc(), text.as_str(), 3, column);
    }
}

#[test]
fn refuses_texts(rt: HostRuntime) {
    for (text, line, column) in [
        ("ir 2", 1, 4),
        ("IR 1\n", 1, 1),
        ("ir 01\n", 1, 4),
        ("ir  1\n", 1, 4),
        ("ir 1\r\n", 1, 5),
        ("ir \u{e9}", 1, 4),
        ("ir 1\n\n", 2, 1),
        ("ir 1\nblock 1 -\n", 2, 7),
        ("ir 1\nblock 0x01 -\n", 2, 10),
        ("ir 1\nblock 0x1\n", 2, 10),
        ("ir 1\nblock 0x1 \n", 2, 11),
        ("ir 1\nblock 0x1 0\n", 2, 12),
        ("ir 1\nblock 0x1 0F\n", 2, 12),
        ("ir 1\nblock 0x1 - \n", 2, 12),
        ("ir 1\nblock 0x1 00-\n", 2, 13),
        ("ir 1\nblock 0x1 -\nend\n", 3, 2),
        ("ir 1\nblock 0x1 -\ntick\nend", 4, 4),
        ("ir 1\nblock 0x1 -\ntick\nend\u{e9}", 4, 4),
        ("ir 1\nblock 0x1 -\ntick\nget.8 t1 rax\nend\n", 5, 2),
        ("ir 1\nblock 0x1 -\ntick\nend\nx", 5, 1),
        ("ir 1\nblock 0x1 -\ntick\nend\n\n", 5, 1),
        ("ir 1\nblock 0x1 -\ntick\nend\ntick\n", 5, 1),
    ] {
        assert_fault(&rt, rt.alloc(), text, line, column);
    }
}

#[test]
fn refuses_bytes(rt: HostRuntime) {
    let rows: [(&[u8], u64, u64); 4] = [
        (b"ir 2\n\xff", 1, 4),
        (b"ir 1\n\xff", 2, 1),
        (b"ir 1\nblock 0x1 -\ntick\nend\n\xc3", 5, 1),
        (b"ir 1\nblock 0x1 -\ntic\x80\n", 3, 4),
    ];
    for (bytes, line, column) in rows.iter() {
        match parse_bytes(rt.alloc(), *bytes) {
            Ok(_) => panic!(rt; "read {bytes:?}"),
            Err(TextFailure::Fault(fault)) => {
                assert_eq!(rt;
                    (fault.line, fault.column),
                    (*line, *column),
                    "at {bytes:?}"
                );
            }
            Err(TextFailure::Memory(_)) => panic!(rt; "no memory"),
        }
    }
}
