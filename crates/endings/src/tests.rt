use crate::{Ending, last_line};
use ir_text::TextFault;
use lib_table::BadKind;
use machine_model::ending::RunEnd;
use miss_report::{Miss, ReportFault};
use std::alloc::{AllocError, Global};
use words_line::WordsFault;

const MISS: Miss = Miss {
    thread: 1,
    source: 0,
    target: 0x40_1100,
};

const FULL: RunEnd = RunEnd::Full {
    thread: 64,
    place: 0x40_1000,
};

// The status of an ending, and its last line.
fn told(alloc: Global, ending: &Ending) -> Result<String, AllocError> {
    let status = ending.status();
    let line = last_line(alloc, ending)?;
    format!(in alloc; "{status} {line}")
}

fn fault(kind: BadKind) -> Ending {
    Ending::Run(RunEnd::Fault {
        thread: 3,
        rip: 0x40_100a,
        kind,
    })
}

#[test]
fn runs_that_end(rt: HostRuntime) {
    let rows: [(Ending, &str); 7] = [
        (Ending::Run(RunEnd::Exit(0)), "0 exit 0\n"),
        (Ending::Run(RunEnd::Exit(7)), "7 exit 7\n"),
        (Ending::Run(RunEnd::Exit(300)), "44 exit 44\n"),
        (
            Ending::Run(RunEnd::Miss(MISS)),
            "81 miss thread 1 from 0x0 to 0x401100\n",
        ),
        (Ending::Run(RunEnd::Deadlock), "83 deadlock\n"),
        (Ending::Run(RunEnd::Steps), "84 steps\n"),
        (Ending::Run(FULL), "85 full thread 64 at 0x401000\n"),
    ];
    for (ending, line) in rows.iter() {
        let Ok(text) = told(rt.alloc(), ending) else {
            panic!(rt; "no memory")
        };
        assert_eq!(rt; text.as_str(), *line);
    }
}

#[test]
fn runs_that_fault(rt: HostRuntime) {
    let rows: [(Ending, &str); 5] = [
        (
            fault(BadKind::Code),
            "82 fault thread 3 at 0x40100a: code\n",
        ),
        (
            fault(BadKind::Access(0x1f)),
            "82 fault thread 3 at 0x40100a: access 0x1f\n",
        ),
        (
            fault(BadKind::Divide),
            "82 fault thread 3 at 0x40100a: divide\n",
        ),
        (
            fault(BadKind::Depth),
            "82 fault thread 3 at 0x40100a: depth\n",
        ),
        (
            fault(BadKind::Door),
            "82 fault thread 3 at 0x40100a: door\n",
        ),
    ];
    for (ending, line) in rows.iter() {
        let Ok(text) = told(rt.alloc(), ending) else {
            panic!(rt; "no memory")
        };
        assert_eq!(rt; text.as_str(), *line);
    }
}

#[test]
fn refusals(rt: HostRuntime) {
    let rows: [(Ending, &str); 14] = [
        (Ending::Done, "0 "),
        (
            Ending::Usage(WordsFault::NoCommand),
            "64 usage: no command\n",
        ),
        (
            Ending::Usage(WordsFault::UnknownCommand),
            "64 usage: unknown command\n",
        ),
        (Ending::Usage(WordsFault::Line), "64 usage: bad line\n"),
        (Ending::Image(12), "65 image: fault 12\n"),
        (Ending::ReadFault, "66 read fault\n"),
        (
            Ending::IrText(TextFault {
                line: 2,
                column: 16,
            }),
            "67 ir text: line 2 column 16\n",
        ),
        (
            Ending::Report(ReportFault { line: 9 }),
            "69 report: line 9\n",
        ),
        (Ending::TooLong, "70 too long\n"),
        (Ending::Memory, "71 no memory\n"),
        (Ending::Twice(0x40_1000), "72 block twice 0x401000\n"),
        (Ending::TooMany, "73 too many blocks\n"),
        (Ending::WriteFault, "74 write fault\n"),
        (Ending::Absent, "79 no file\n"),
    ];
    for (ending, line) in rows.iter() {
        let Ok(text) = told(rt.alloc(), ending) else {
            panic!(rt; "no memory")
        };
        assert_eq!(rt; text.as_str(), *line);
    }
}
