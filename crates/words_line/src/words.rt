//! Reading the words.
ghost use Rattle.std.specs.Prelude.{◌≡◌, ◌≤◌, ◌+◌, IfOk, IfErr, [], length, option_map, take, drop, true};
ghost use Rattle.clap.specs.Words.{app_of, fault_of, first_of, found_of, is_simple_and_free, matches_of, rows_of};
ghost use Rattle.clap.specs.Walk.{is_empty};
ghost use Rattle.words_line.specs.Commands.{AnswersBy, IsBadLine, dashes_at, is_refused, plan_by, plan_of, row_of, texts};
ghost use Rattle.words_line.specs.Plans.{IsInRange, flag_at, gen_plan, given, lift_plan, number_at, run_plan, text_at};

use crate::plan::{Plan, Text, Texts, WordsError, WordsFault};
use crate::table::Kind;
use clap::error::ErrorKind;
use clap::{ArgMatches, Command};
use std::alloc::{AllocError, Global};

/// The plan of the words, those after the program's own name.
///
/// # Errors
///
/// `NoCommand` where there are no words, `UnknownCommand` where the first is no command, `Line` where the command takes no
/// such line, and `Memory` where memory ran out.
pub fn read_words(alloc: Global, words: &[String]) -> Result<Plan, WordsError>
    ensures answer { AnswersBy (plan_of (texts words.now)) result }
    ensures range { IfOk result IsInRange }
{
    let Some(word) = words.first() else {
        return Err(WordsError::Fault(WordsFault::NoCommand));
    };
    match Kind::of(word) {
        Some(kind) => read_line(alloc, kind, words),
        None => Err(WordsError::Fault(WordsFault::UnknownCommand)),
    }
}

/// The plan of a line of this command, whose first word is the command's own.
fn read_line(alloc: Global, kind: Kind, words: &[String]) -> Result<Plan, WordsError>
    ensures answer { AnswersBy (plan_by (row_of kind) (texts words.now)) result }
    ensures range { IfOk result IsInRange }
{
    let at = dashes_at(words);
    if is_refused(kind, words, at) {
        return Err(WordsError::Fault(WordsFault::Line));
    }
    let (line, args) = split_at_dashes(words, at);
    let command = match kind.command(alloc) {
        Ok(command) => command,
        Err(e) => return Err(WordsError::Memory(e)),
    };
    let matches = match parse(command, line) {
        Ok(matches) => matches,
        Err(e) => return Err(e),
    };
    match plan(alloc, kind, &matches, args) {
        Ok(plan) => Ok(plan),
        Err(e) => Err(WordsError::Memory(e)),
    }
}

/// Whether a `--` stands, at this place, in the line of a command that has no arguments.
fn is_refused(kind: Kind, words: &[String], at: usize) -> bool
    requires { at ≡ dashes_at (texts words.now) }
    ensures { result ≡ is_refused (row_of kind) (texts words.now) }
{
    if kind.has_arguments() {
        false
    } else {
        at < words.len()
    }
}

/// The place of the first `--`, or the number of the words.
fn dashes_at(words: &[String]) -> usize
    ensures place { result ≡ dashes_at (texts words.now) }
    ensures within { result ≤ length words.now }
{
    for place in 0..words.len() {
        if words[place].as_str() == "--" {
            return place;
        }
    }
    words.len()
}

/// The words before this place, and those behind it.
fn split_at_dashes(words: &[String], at: usize) -> (&[String], &[String])
    requires { at ≤ length words.now }
    ensures front { texts result.0.now ≡ take at (texts words.now) }
    ensures back { texts result.1.now ≡ drop (at + 1) (texts words.now) }
{
    let (line, rest) = words.split_at(at);
    match rest.split_first() {
        Some((_, args)) => (line, args),
        None => (line, &[]),
    }
}

/// Clap's matches of a line, whose first word is the command's own.
fn parse<'a>(command: Command<'a>, words: &'a [String]) -> Result<ArgMatches<'a>, WordsError>
    requires { is_simple_and_free (app_of command) ≡ true }
    ensures ok { IfOk result (λ m. fault_of (app_of command.entry) (texts words.entry.now) ≡ []) }
    ensures rows { IfOk result (λ m. rows_of (found_of m) ≡ matches_of (app_of command.entry) (texts words.entry.now)) }
    ensures err { IfErr result (IsBadLine (is_empty (fault_of (app_of command.entry) (texts words.entry.now)))) }
{
    match command.try_get_matches_from(words) {
        Ok(matches) => Ok(matches),
        Err(error) => {
            if error.kind() == ErrorKind::OutOfMemory {
                Err(WordsError::Memory(AllocError))
            } else {
                Err(WordsError::Fault(WordsFault::Line))
            }
        }
    }
}

/// The plan of the matches and the arguments.
fn plan(
    alloc: Global,
    kind: Kind,
    matches: &ArgMatches<'_>,
    args: &[String],
) -> Result<Plan, AllocError>
    ensures plan { IfOk result (λ p. p ≡ (row_of kind).plan (texts args.now) (given (rows_of (found_of matches.now)))) }
    ensures range { IfOk result IsInRange }
{
    match kind {
        Kind::Lift => lift_plan(alloc, matches),
        Kind::Run => run_plan(alloc, matches, args),
        Kind::Gen => gen_plan(alloc, matches),
    }
}

fn lift_plan(alloc: Global, matches: &ArgMatches<'_>) -> Result<Plan, AllocError>
    ensures plan { IfOk result (λ p. p ≡ lift_plan (given (rows_of (found_of matches.now)))) }
    ensures range { IfOk result IsInRange }
{
    let prog = text_at(alloc, matches, "prog")?;
    let base = text_if(alloc, matches, "base")?;
    let misses = text_if(alloc, matches, "misses")?;
    Ok(Plan::Lift { prog, base, misses })
}

fn run_plan(alloc: Global, matches: &ArgMatches<'_>, args: &[String]) -> Result<Plan, AllocError>
    ensures plan { IfOk result (λ p. p ≡ run_plan (texts args.now) (given (rows_of (found_of matches.now)))) }
    ensures range { IfOk result IsInRange }
{
    let prog = text_at(alloc, matches, "prog")?;
    let ir = text_if(alloc, matches, "ir")?;
    let report = text_if(alloc, matches, "report")?;
    let journal = text_if(alloc, matches, "journal")?;
    let args = copies(alloc, args)?;
    let turn = number_at(matches, "turn", 1, 65_536);
    let hold = number_at(matches, "hold", 0, 255);
    let steps = number_at(matches, "steps", 1, 134_217_728);
    Ok(Plan::Run {
        prog,
        ir,
        strict: flag_at(matches, "strict"),
        serial: flag_at(matches, "serial"),
        turn: turn as u32,
        hold: hold as u32,
        steps,
        report,
        journal,
        args,
    })
}

fn gen_plan(alloc: Global, matches: &ArgMatches<'_>) -> Result<Plan, AllocError>
    ensures plan { IfOk result (λ p. p ≡ gen_plan (given (rows_of (found_of matches.now)))) }
    ensures range { IfOk result IsInRange }
{
    let name = text_at(alloc, matches, "name")?;
    let number = number_at(matches, "number", 0, 4_294_967_295);
    let threads = number_at(matches, "threads", 1, 63);
    let rounds = number_at(matches, "rounds", 1, 1_000_000);
    Ok(Plan::Gen {
        number: number as u32,
        threads: threads as u32,
        rounds: rounds as u32,
        name,
    })
}

/// A copy of the words.
fn copies(alloc: Global, words: &[String]) -> Result<Texts, AllocError>
    ensures { IfOk result (λ t. t ≡ texts words.now) }
{
    let mut copies = Vec::new(alloc);
    for word in words {
        let copy = String::from_str(alloc, word)?;
        copies.push(copy)?;
    }
    Ok(Texts::from_vec(copies))
}

/// The first value of a name.
fn value_of<'a>(matches: &ArgMatches<'a>, id: &str) -> Option<&'a str>
    ensures { option_map (λ s. s.now) result ≡ first_of id.now (rows_of (found_of matches.now)) }
{
    matches.get_str(id)
}

/// The text of a name that is given.
fn text_at(alloc: Global, matches: &ArgMatches<'_>, id: &str) -> Result<Text, AllocError>
    ensures { IfOk result (λ t. t ≡ text_at id.now (rows_of (found_of matches.now))) }
{
    let text = value_of(matches, id).unwrap_or("");
    Ok(Text::from_string(String::from_str(alloc, text)?))
}

/// The text of a name, if it is given.
fn text_if(alloc: Global, matches: &ArgMatches<'_>, id: &str) -> Result<Option<Text>, AllocError>
    ensures { IfOk result (λ t. t ≡ first_of id.now (rows_of (found_of matches.now))) }
{
    match value_of(matches, id) {
        Some(text) => Ok(Some(Text::from_string(String::from_str(alloc, text)?))),
        None => Ok(None),
    }
}

/// Whether the flag stands.
fn flag_at(matches: &ArgMatches<'_>, id: &str) -> bool
    ensures { result ≡ flag_at id.now (rows_of (found_of matches.now)) }
{
    match value_of(matches, id) {
        Some(text) => text == "true",
        None => false,
    }
}

/// The number of a name.
#[tactic(auto, using(crate::proofs::Numbers::number_read, crate::proofs::Numbers::number_not_read, crate::proofs::Numbers::number_outside))]
fn number_at(matches: &ArgMatches<'_>, id: &str, low: u64, high: u64) -> u64
    requires { low ≤ high }
    ensures value { result ≡ number_at low high id.now (rows_of (found_of matches.now)) }
    ensures low { low ≤ result }
    ensures high { result ≤ high }
{
    let Some(text) = value_of(matches, id) else {
        return low;
    };
    let Ok(number) = text.parse::<u64>() else {
        return low;
    };
    if low <= number && number <= high {
        number
    } else {
        low
    }
}
