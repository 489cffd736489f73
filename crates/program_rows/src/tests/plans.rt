//! A plan that is carried out without words.

ghost use Rattle.std.specs.Prelude.{IfOk, IsOkAnd};
ghost use Rattle.recompile_core.specs.Plans.{IsPlain, run_of};

use super::{Left, RUN, assert_left, files_of, input_of, sink_of};
use recompile_core::{PlainEngine, recompile_plain};
use std::alloc::{AllocError, Global};
use std::test::Fail;
use words_line::{Plan, Text, Texts};

fn text(alloc: Global, word: &str) -> Result<Text, AllocError> {
    Ok(Text::from_string(String::from_str(alloc, word)?))
}

// A run in the serial order, whose numbers are in their ranges.
fn plan(alloc: Global) -> Result<Plan, AllocError>
    ensures { IfOk result (λ p. IsOkAnd (run_of p) IsPlain) }
{
    Ok(Plan::Run {
        prog: text(alloc, "p")?,
        ir: None,
        strict: true,
        serial: true,
        turn: 1,
        hold: 0,
        steps: 3,
        report: Some(text(alloc, "r")?),
        journal: Some(text(alloc, "j")?),
        args: Texts::from_vec(Vec::new(alloc)),
    })
}

#[test]
fn a_plan_is_carried_out(rt: HostRuntime) -> Result<(), Fail> {
    let alloc = rt.alloc();
    let run = plan(alloc)?;
    let mut files = files_of(alloc, &RUN)?;
    let mut input = input_of(alloc, &RUN)?;
    let mut out = sink_of(alloc, &[])?;
    let mut err = sink_of(alloc, &[])?;
    let mut engine = PlainEngine::make();
    let answer = recompile_plain(
        alloc,
        run,
        &mut files,
        &mut input,
        &mut out,
        &mut err,
        &mut engine,
    );
    let left = Left {
        answer,
        out,
        err,
        files,
        input,
    };
    assert_left(&rt, alloc, &RUN, &left)
}
