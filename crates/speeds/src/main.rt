//! The program `speeds`: the calls whose times docs/PERFORMANCE.md gives, in loops. It prints how much
//! was done, and no time: the times are those of `time out/speeds CALL ROUNDS`.
//!
//! CALL is `decode`, `lift` or `all`. Nothing is proved of this file but that it is safe
//! and ends.
#![tactic(auto)]

mod code;

use std::alloc::{AllocError, Global};
use std::env;
use std::io::{self, Write};
use std::rt::Env;

// How much each call did in so many rounds.
fn run(alloc: Global, call: &str, rounds: u64) -> Result<[u64; 2], AllocError> {
    let all = call == "all";
    let mut done = [0; 2];
    if all || call == "decode" {
        done[0] = code::decode_all(rounds);
    }
    if all || call == "lift" {
        done[1] = code::lift_all(alloc, rounds)?;
    }
    Ok(done)
}

fn main(rt: HostRuntime) -> io::Result<()> {
    let mut args = env::args(&rt)?.skip(1);
    let call = args.next();
    let rounds = args.next();
    let call = match &call {
        Some(word) => word.as_str(),
        None => "all",
    };
    let rounds = match &rounds {
        Some(word) => word.parse::<u64>().unwrap_or(1),
        None => 1,
    };
    let done = run(rt.alloc(), call, rounds)?;
    println!(rt; "decoded {}, lifted {}", done[0], done[1])?;
    Ok(())
}
