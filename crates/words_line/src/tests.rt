use crate::{Plan, Text, WordsError, WordsFault, read_words};
use std::alloc::{AllocError, Global};

/// A file's name, or `none`.
fn name(text: &Option<Text>) -> &str {
    match text {
        Some(text) => text.as_str(),
        None => "none",
    }
}

/// The plan as a line, or what is wrong with the words.
fn told(alloc: Global, line: &[&str]) -> Result<String, AllocError> {
    let mut words = Vec::new(alloc);
    for word in line {
        let word = String::from_str(alloc, word)?;
        words.push(word)?;
    }
    match read_words(alloc, &words) {
        Ok(plan) => shown(alloc, &plan),
        Err(WordsError::Fault(WordsFault::NoCommand)) => String::from_str(alloc, "no command"),
        Err(WordsError::Fault(WordsFault::UnknownCommand)) => String::from_str(alloc, "unknown"),
        Err(WordsError::Fault(WordsFault::Line)) => String::from_str(alloc, "line"),
        Err(WordsError::Memory(e)) => Err(e),
    }
}

fn shown(alloc: Global, plan: &Plan) -> Result<String, AllocError> {
    match plan {
        Plan::Lift { prog, base, misses } => {
            format!(in alloc; "lift {} {} {}", prog.as_str(), name(base), name(misses))
        }
        Plan::Run {
            prog,
            ir,
            strict,
            serial,
            turn,
            hold,
            steps,
            report,
            journal,
            args,
        } => {
            let files = format!(in alloc;
                "{} {} {} {}",
                prog.as_str(),
                name(ir),
                name(report),
                name(journal)
            )?;
            let mut line = format!(in alloc;
                "run {files} {strict} {serial} {turn} {hold} {steps}"
            )?;
            for arg in args.as_slice() {
                line.push_str(" ")?;
                line.push_str(arg.as_str())?;
            }
            Ok(line)
        }
        Plan::Gen {
            number,
            threads,
            rounds,
            name,
        } => format!(in alloc; "gen {number} {threads} {rounds} {}", name.as_str()),
    }
}

#[test]
fn reads_lines(rt: HostRuntime) {
    let rows: [(&[&str], &str); 45] = [
        (&[], "no command"),
        (&["walk"], "unknown"),
        (&["", "p1"], "unknown"),
        (&["replay", "p1", "j"], "unknown"),
        (&["--help"], "unknown"),
        (&["run"], "line"),
        (
            &["run", "p1"],
            "run p1 none none none false false 1024 2 4194304",
        ),
        (
            &["run", "--serial", "p1"],
            "run p1 none none none false true 1024 2 4194304",
        ),
        (
            &["run", "p1", "--serial"],
            "run p1 none none none false true 1024 2 4194304",
        ),
        (&["run", "p1", "--steps", "0"], "line"),
        (
            &["run", "p1", "--steps=5"],
            "run p1 none none none false false 1024 2 5",
        ),
        (&["run", "p1", "--steps", "5", "--steps", "6"], "line"),
        (
            &["run", "p1", "--steps", "134217728"],
            "run p1 none none none false false 1024 2 134217728",
        ),
        (&["run", "p1", "--steps", "134217729"], "line"),
        (
            &["run", "p1", "--steps", "+5"],
            "run p1 none none none false false 1024 2 5",
        ),
        (
            &["run", "p1", "--steps", "05"],
            "run p1 none none none false false 1024 2 5",
        ),
        (&["run", "p1", "--steps", "0x5"], "line"),
        (&["run", "p1", "--steps", " 5"], "line"),
        (&["run", "p1", "--steps", ""], "line"),
        (
            &["run", "p1", "--turn", "65536", "--hold", "255"],
            "run p1 none none none false false 65536 255 4194304",
        ),
        (&["run", "p1", "--turn", "65537"], "line"),
        (&["run", "p1", "--turn", "0"], "line"),
        (&["run", "p1", "--turn", "-1"], "line"),
        (&["run", "p1", "--tur", "5"], "line"),
        (&["run", "p1", "--hold", "256"], "line"),
        (
            &["run", "p1", "--hold", "0"],
            "run p1 none none none false false 1024 0 4194304",
        ),
        (
            &[
                "run", "p1", "i", "--strict", "--serial", "--", "--x", "--", "y",
            ],
            "run p1 i none none true true 1024 2 4194304 --x -- y",
        ),
        (
            &["run", "p1", "--"],
            "run p1 none none none false false 1024 2 4194304",
        ),
        (&["run", "--", "p1"], "line"),
        (
            &["run", "--report", "r", "--journal=j", "p1"],
            "run p1 none r j false false 1024 2 4194304",
        ),
        (&["run", "p1", "--report", "-x"], "line"),
        (
            &["run", "p1", "--report=-x"],
            "run p1 none -x none false false 1024 2 4194304",
        ),
        (&["run", "p1", "--serial=true"], "line"),
        (&["run", "p1", "--serial", "--serial"], "line"),
        (&["run", "p1", "i", "k"], "line"),
        (&["run", "-p1"], "line"),
        (&["run", "--strict", "-p1"], "line"),
        (&["run", "p1", "-h"], "line"),
        (
            &["run", "help"],
            "run help none none none false false 1024 2 4194304",
        ),
        (
            &["run", "-", ""],
            "run -  none none false false 1024 2 4194304",
        ),
        (&["lift", "p1", "--misses", "r", "--base=b"], "lift p1 b r"),
        (&["lift", "p1", "--", "a"], "line"),
        (
            &["gen", "4294967295", "63", "1000000", "n"],
            "gen 4294967295 63 1000000 n",
        ),
        (&["gen", "0", "64", "1", "n"], "line"),
        (&["gen", "4294967296", "1", "1", "n"], "line"),
    ];
    for (line, wanted) in rows {
        let Ok(told) = told(rt.alloc(), line) else {
            panic!(rt; "no memory")
        };
        assert_eq!(rt; told.as_str(), wanted, "{line:?}");
    }
}

#[test]
fn gives_back_what_it_holds(rt: HostRuntime) {
    let Ok(word) = String::from_str(rt.alloc(), "p1") else {
        panic!(rt; "no memory")
    };
    let text = Text::from_string(word).into_string();
    assert_eq!(rt; text.as_str(), "p1");
    let Ok(words) = vec![in rt.alloc(); text] else {
        panic!(rt; "no memory")
    };
    let words = crate::Texts::from_vec(words).into_vec();
    assert_eq!(rt; words.len(), 1);
}
