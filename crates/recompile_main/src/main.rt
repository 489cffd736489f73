//! The program `recompile`: the real files and streams, the words of the command line, and the exit status.
//!
//! It calls `recompile` of `recompile_core`, whose contract is the product's theorem, and ends with the
//! status of its answer. Nothing is proved of this file but that it is safe and ends.
#![tactic(auto)]

use mx_outside::{RealFiles, RealSink, RealSource};
use recompile_core::{OpenGate, PlainEngine, recompile};
use std::alloc::{AllocError, Global};
use std::io::ErrorKind;
use std::process::ExitCode;
use std::rt::Env;
use std::{env, io};

/// The words after the program's own name. A word that isn't UTF-8 makes a line that no command takes.
fn read_args<R: Env + AllocGlobal>(rt: &R) -> io::Result<Vec<String>> {
    let mut words = Vec::new(rt.alloc());
    match env::args(rt) {
        Ok(args) => {
            for word in args.skip(1) {
                words.push(word)?;
            }
        }
        Err(e) if e.kind() == ErrorKind::InvalidData => bad_line(rt.alloc(), &mut words)?,
        Err(e) => return Err(e),
    }
    Ok(words)
}

/// The command `run` without its words.
fn bad_line(alloc: Global, words: &mut Vec<String>) -> Result<(), AllocError> {
    words.push(String::from_str(alloc, "run")?)?;
    Ok(())
}

fn main(rt: HostRuntime) -> ExitCode {
    let Ok(words) = read_args(&rt) else {
        let _ = eprintln!(rt; "no memory");
        return ExitCode::from(71);
    };
    let mut files = RealFiles::make(rt);
    let mut input = RealSource::make(rt.stdin());
    let mut out = RealSink::make(rt.stdout());
    let mut err = RealSink::make(rt.stderr());
    let mut engine = PlainEngine::make();
    let answer = recompile(
        &rt,
        rt.alloc(),
        &words,
        &mut files,
        &mut input,
        &mut out,
        &mut err,
        &mut engine,
        &OpenGate,
    );
    ExitCode::from(answer.status)
}
