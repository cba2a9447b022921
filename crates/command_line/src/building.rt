ghost use Rattle.std.specs.Prelude.{◌≡◌, false, map, IfOk};
ghost use Rattle.clap.specs.Words.{app_of, fault_of, matches_of, rule_of, FailsBy};
ghost use Rattle.command_line.specs.App.{app, text_option, number_option, flag, with_scale, with_route, with_numbers, with_more_numbers, with_files};
ghost use Rattle.command_line.specs.Words.{texts, rows_in};

use clap::builder::ValueParser;
use clap::{Arg, ArgAction, ArgMatches, Command, Error};
use std::alloc::{AllocError, Global};

/// An option with a text.
fn text_option<'a>(alloc: Global, name: &'a str) -> Arg<'a>
    ensures rule { rule_of result ≡ text_option name.entry.now }
    ensures own { result.global ≡ false }
{
    Arg::new(alloc, name).long(name).action(ArgAction::Set)
}

/// An option with a whole number from low to high.
fn number_option<'a>(alloc: Global, name: &'a str, low: u64, high: u64) -> Arg<'a>
    ensures rule { rule_of result ≡ number_option name.entry.now low high }
    ensures own { result.global ≡ false }
{
    Arg::new(alloc, name)
        .long(name)
        .action(ArgAction::Set)
        .value_parser(ValueParser::Unsigned(low, high))
}

/// An option without a value.
fn flag<'a>(alloc: Global, name: &'a str) -> Arg<'a>
    ensures rule { rule_of result ≡ flag name.entry.now }
    ensures own { result.global ≡ false }
{
    Arg::new(alloc, name).long(name).action(ArgAction::SetTrue)
}

/// The scale and the mapping.
fn add_scale<'a>(alloc: Global, command: Command<'a>) -> Result<Command<'a>, AllocError>
    ensures { IfOk result (λ c. app_of c ≡ with_scale (app_of command.entry)) }
{
    let scale = text_option(alloc, "scale").required(true);
    let map = text_option(alloc, "map");
    let a440 = flag(alloc, "a440");
    command.arg(scale)?.arg(map)?.arg(a440)
}

/// What has a text of a list.
fn add_route<'a>(alloc: Global, command: Command<'a>) -> Result<Command<'a>, AllocError>
    ensures { IfOk result (λ c. app_of c ≡ with_route (app_of command.entry)) }
{
    let route = text_option(alloc, "route");
    let channels = text_option(alloc, "channels");
    let drums = text_option(alloc, "drums");
    command.arg(route)?.arg(channels)?.arg(drums)
}

/// The range and the program.
fn add_numbers<'a>(alloc: Global, command: Command<'a>) -> Result<Command<'a>, AllocError>
    ensures { IfOk result (λ c. app_of c ≡ with_numbers (app_of command.entry)) }
{
    let range = number_option(alloc, "range", 1, 96);
    let program = number_option(alloc, "program", 0, 127);
    command.arg(range)?.arg(program)
}

/// The tail and the sample.
fn add_more_numbers<'a>(alloc: Global, command: Command<'a>) -> Result<Command<'a>, AllocError>
    ensures { IfOk result (λ c. app_of c ≡ with_more_numbers (app_of command.entry)) }
{
    let tail = number_option(alloc, "tail", 0, 268_435_455);
    let sample = number_option(alloc, "sample", 1, 100_000);
    command.arg(tail)?.arg(sample)
}

/// The audit and the files.
fn add_files<'a>(alloc: Global, command: Command<'a>) -> Result<Command<'a>, AllocError>
    ensures { IfOk result (λ c. app_of c ≡ with_files (app_of command.entry)) }
{
    let audit = flag(alloc, "audit");
    let out = text_option(alloc, "out").required(true);
    let input = Arg::new(alloc, "input")
        .required(true)
        .action(ArgAction::Set);
    command.arg(audit)?.arg(out)?.arg(input)
}

/// The command of the program.
fn command<'a>(alloc: Global) -> Result<Command<'a>, AllocError>
    ensures { IfOk result (λ c. app_of c ≡ app) }
{
    let command = Command::new(alloc, "mtune").no_binary_name(true);
    let command = add_scale(alloc, command)?;
    let command = add_route(alloc, command)?;
    let command = add_numbers(alloc, command)?;
    let command = add_more_numbers(alloc, command)?;
    add_files(alloc, command)
}

/// What is found in the words, or why they aren't taken.
pub(crate) fn parse<'a>(alloc: Global, words: &'a [&'a str]) -> Result<ArgMatches<'a>, Error>
    ensures kinds { FailsBy (fault_of app (texts words.entry.now)) result }
    ensures matches { IfOk result (λ m. rows_in m ≡ matches_of app (texts words.entry.now)) }
{
    let command = command(alloc)?;
    command.try_get_matches_from(words)
}
