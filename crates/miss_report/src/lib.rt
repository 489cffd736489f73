//! Reports of misses: the text by which a run tells which code it lacked, and a later lift finds it.
//!
//! A report has one line for each miss, `miss thread T from 0xS to 0xG` and a newline, in the order of the misses.
//! `print` writes it, `parse` reads it back, and `line_of` writes one line. Their contracts cite `report` and `line`,
//! the one spelling of a list of misses and of a miss; `one_report` says that no two lists share one.
//!
//! The definitions of the machine stand on it, for the misses of a run's journal, and the lifter, for what it reads.
#![tactic(auto)]

ghost use Rattle.std.specs.Prelude.{◌≡◌, List, All};
ghost use Rattle.miss_report.specs.Miss.{HasLine};
ghost use Rattle.miss_report.specs.Report.{report};
ghost use Rattle.miss_report.specs.declared.miss.Miss.{Miss as MissData};

mod miss;
mod reading;

pub use miss::{Miss, THREADS, line_of, print};
pub use reading::{ReportFailure, ReportFault, parse};

/// Two lists of misses with the same report are equal.
pub fn one_report()
    ensures { (a b : List MissData) → All HasLine a → All HasLine b → report a ≡ report b → a ≡ b }
{}

#[cfg(test)]
mod tests {
    use super::*;

    const THREE: &str =
        "miss thread 0 from 0x0 to 0x401100\nmiss thread 9 from 0x40101c to 0x401030\nmiss thread 63 from 0xffffffffffffffff to 0xa\n";

    fn three() -> [Miss; 3] {
        [
            Miss {
                thread: 0,
                source: 0,
                target: 0x401100,
            },
            Miss {
                thread: 9,
                source: 0x40101c,
                target: 0x401030,
            },
            Miss {
                thread: 63,
                source: 0xffff_ffff_ffff_ffff,
                target: 10,
            },
        ]
    }

    #[test]
    fn prints_and_reads_back(rt: HostRuntime) {
        let misses = three();
        assert!(rt; misses.iter().all(|miss| miss.is_reportable()));
        let Ok(text) = print(rt.alloc(), &misses) else {
            panic!(rt; "no memory")
        };
        assert_eq!(rt; text.as_str(), THREE);
        let Ok(read) = parse(rt.alloc(), THREE) else {
            panic!(rt; "not read")
        };
        assert_eq!(rt; read.as_slice(), misses.as_slice());
        let Ok(line) = line_of(rt.alloc(), &misses[1]) else {
            panic!(rt; "no memory")
        };
        assert_eq!(rt; line.as_str(), "miss thread 9 from 0x40101c to 0x401030\n");
        let Ok(none) = parse(rt.alloc(), "") else {
            panic!(rt; "not read")
        };
        assert_eq!(rt; none.len(), 0);
        one_report();
    }

    #[test]
    fn refuses_with_the_line(rt: HostRuntime) {
        for (text, line) in [
            ("miss thread 4294967296 from 0x0 to 0x1\n", 1),
            ("miss thread 01 from 0x0 to 0x1\n", 1),
            ("miss thread 0 from 0x00 to 0x1\n", 1),
            ("miss thread 0 from 0x0 to 0x01\n", 1),
            ("miss thread 0 from 0xA to 0x1\n", 1),
            ("miss thread 0 from 0x0 to 0x1", 1),
            ("miss thread 0 from 0x0  to 0x1\n", 1),
            ("miss thread 0 from 0x0 to 0x1 \n", 1),
            ("miss thread 0 from 0x10000000000000000 to 0x1\n", 1),
            ("miss thread 0 from 0x to 0x1\n", 1),
            ("miss thread 0 from 0 to 0x1\n", 1),
            ("\n", 1),
            ("miss thread 0 from 0x0 to 0x1\n\n", 2),
            (
                "miss thread 0 from 0x0 to 0x1\nmiss thread 1 from 0x0 to 0x1\nmiss\nmiss\n",
                3,
            ),
            (
                "miss thread 0 from 0x0 to 0x1\nmiss thread 1 from 0x0 to 0x1",
                2,
            ),
            ("miss thread 0 from 0x0 to 0x1\r\n", 1),
        ] {
            match parse(rt.alloc(), text) {
                Ok(_) => panic!(rt; "read {text:?}"),
                Err(ReportFailure::Fault(fault)) => assert_eq!(rt; fault.line, line, "at {text:?}"),
                Err(ReportFailure::Memory(_)) => panic!(rt; "no memory"),
            }
        }
    }
}
