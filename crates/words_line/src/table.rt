//! The commands, and what clap reads of each.
ghost use Rattle.std.specs.Prelude.{◌≡◌, ◌≤◌, IfOk, codes, map, option_map};
ghost use Rattle.clap.specs.Words.{app_of, new_app, with_rule};
ghost use Rattle.words_line.specs.Commands.{command_of, row_of};
ghost use Rattle.words_line.specs.Rules.{flag, gen_app, helpless, lift_app, named, number, placed, placed_number, run_app, with_files, with_numbers};

use clap::builder::ValueParser;
use clap::{Arg, ArgAction, Command};
use std::alloc::{AllocError, Global};

/// A command.
#[derive(Clone, Copy)]
pub(crate) enum Kind {
    Lift,
    Run,
    Gen,
}

impl Kind {
    /// The command of the word.
    pub(crate) fn of(word: &str) -> Option<Kind>
        ensures { result ≡ command_of word.now }
    {
        match word {
            "lift" => Some(Kind::Lift),
            "run" => Some(Kind::Run),
            "gen" => Some(Kind::Gen),
            _ => None,
        }
    }

    /// Whether arguments may stand behind a `--`.
    pub(crate) fn has_arguments(self) -> bool
        ensures { result ≡ (row_of self).has_arguments }
    {
        matches!(self, Kind::Run)
    }

    /// What clap reads of the command's line.
    pub(crate) fn command<'a>(self, alloc: Global) -> Result<Command<'a>, AllocError>
        ensures { IfOk result (λ c. app_of c ≡ (row_of self).app) }
    {
        match self {
            Kind::Lift => lift_command(alloc),
            Kind::Run => run_command(alloc),
            Kind::Gen => gen_command(alloc),
        }
    }
}

fn lift_command<'a>(alloc: Global) -> Result<Command<'a>, AllocError>
    ensures { IfOk result (λ c. app_of c ≡ lift_app) }
{
    let command = helpless(alloc, "lift");
    let command = with_placed(alloc, command, "prog", true)?;
    let command = with_named(alloc, command, "base")?;
    with_named(alloc, command, "misses")
}

fn run_command<'a>(alloc: Global) -> Result<Command<'a>, AllocError>
    ensures { IfOk result (λ c. app_of c ≡ run_app) }
{
    let command = helpless(alloc, "run");
    let command = with_flag(alloc, command, "strict")?;
    let command = with_flag(alloc, command, "serial")?;
    let command = with_files(alloc, command)?;
    with_numbers(alloc, command)
}

fn gen_command<'a>(alloc: Global) -> Result<Command<'a>, AllocError>
    ensures { IfOk result (λ c. app_of c ≡ gen_app) }
{
    let command = helpless(alloc, "gen");
    let command = with_placed_number(alloc, command, "number", 0, 4_294_967_295)?;
    let command = with_placed_number(alloc, command, "threads", 1, 63)?;
    let command = with_placed_number(alloc, command, "rounds", 1, 1_000_000)?;
    with_placed(alloc, command, "name", true)
}

/// The files of a run.
fn with_files<'a>(alloc: Global, command: Command<'a>) -> Result<Command<'a>, AllocError>
    ensures { IfOk result (λ c. app_of c ≡ with_files (app_of command.entry)) }
{
    let command = with_placed(alloc, command, "prog", true)?;
    let command = with_placed(alloc, command, "ir", false)?;
    let command = with_named(alloc, command, "report")?;
    with_named(alloc, command, "journal")
}

/// The numbers of a run.
fn with_numbers<'a>(alloc: Global, command: Command<'a>) -> Result<Command<'a>, AllocError>
    ensures { IfOk result (λ c. app_of c ≡ with_numbers (app_of command.entry)) }
{
    let command = with_number(alloc, command, "turn", 1, 65_536, "1024")?;
    let command = with_number(alloc, command, "hold", 0, 255, "2")?;
    with_number(alloc, command, "steps", 1, 134_217_728, "4194304")
}

/// A command that knows no word for help.
fn helpless<'a>(alloc: Global, name: &'a str) -> Command<'a>
    ensures { app_of result ≡ helpless name.now }
{
    Command::new(alloc, name).disable_help_flag(true)
}

/// `--name`
fn with_flag<'a>(
    alloc: Global,
    command: Command<'a>,
    name: &'a str,
) -> Result<Command<'a>, AllocError>
    ensures { IfOk result (λ c. app_of c ≡ with_rule (app_of command.entry) (flag name.now)) }
{
    command.arg(Arg::new(alloc, name).long(name).action(ArgAction::SetTrue))
}

/// `--name VALUE`
fn with_named<'a>(
    alloc: Global,
    command: Command<'a>,
    name: &'a str,
) -> Result<Command<'a>, AllocError>
    ensures { IfOk result (λ c. app_of c ≡ with_rule (app_of command.entry) (named name.now)) }
{
    command.arg(Arg::new(alloc, name).long(name).action(ArgAction::Set))
}

/// `--name N`, from `low` to `high`, with what stands for it where it isn't named.
fn with_number<'a>(
    alloc: Global,
    command: Command<'a>,
    name: &'a str,
    low: u64,
    high: u64,
    default: &'a str,
) -> Result<Command<'a>, AllocError>
    ensures { IfOk result (λ c. app_of c ≡ with_rule (app_of command.entry) (number name.now low high default.now)) }
{
    let arg = Arg::new(alloc, name)
        .long(name)
        .action(ArgAction::Set)
        .value_parser(ValueParser::Unsigned(low, high))
        .default_value(default);
    command.arg(arg)
}

/// A word by its place.
fn with_placed<'a>(
    alloc: Global,
    command: Command<'a>,
    name: &'a str,
    required: bool,
) -> Result<Command<'a>, AllocError>
    ensures { IfOk result (λ c. app_of c ≡ with_rule (app_of command.entry) (placed name.now required)) }
{
    command.arg(
        Arg::new(alloc, name)
            .action(ArgAction::Set)
            .required(required),
    )
}

/// A number by its place, from `low` to `high`.
fn with_placed_number<'a>(
    alloc: Global,
    command: Command<'a>,
    name: &'a str,
    low: u64,
    high: u64,
) -> Result<Command<'a>, AllocError>
    ensures { IfOk result (λ c. app_of c ≡ with_rule (app_of command.entry) (placed_number name.now low high)) }
{
    let arg = Arg::new(alloc, name)
        .action(ArgAction::Set)
        .required(true)
        .value_parser(ValueParser::Unsigned(low, high));
    command.arg(arg)
}
