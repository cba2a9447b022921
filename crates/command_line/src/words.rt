ghost use Rattle.std.specs.Prelude.{◌≡◌, ◌≤◌, not, ◌&&◌, None, Some, map, option_map, codes, List, IfOk, IfErr, IfSome, IsSome, OnOk};
ghost use Rattle.clap.specs.Words.{first_of};
ghost use Rattle.retune_model.specs.Options.{bends_notes};
ghost use Rattle.retune_model.specs.Faults.{is_bend};
ghost use Rattle.lifetimes.specs.Views.{route_of};
ghost use Rattle.command_line.specs.App.{app};
ghost use Rattle.command_line.specs.Words.{texts, rows_in, is_told, text_of, is_set, number_or, number_of, told_or, route_of_text, keeps_of_text, route_in, drums_in, channels_in, mapping_or, usual_range, options_in, command_by, is_unfit, Reading, Read, Wrong, reading_by, reading_in, reading_of, view_choice, view_command, IsWordsFault};
ghost use Rattle.lifetimes.specs.Views.{options_of};

use crate::building::parse;
use crate::channels::channels;
use crate::fault::WordsFault;
use crate::numbers::number;
use clap::ArgMatches;
use clap::error::ErrorKind;
use lifetimes::{Options, Route};
use std::alloc::Global;

/// Which mapping is asked for.
#[derive(Clone, Copy, Debug, PartialEq, Eq)]
pub enum MapChoice<'a> {
    /// That of the text with this name.
    Named(&'a str),
    /// From key 69 at 440 hertz.
    At440,
    /// The standard one, from key 60 at 261.6255653 hertz.
    Standard,
}

/// What the words of the command ask for.
#[derive(Clone, Copy, Debug, PartialEq, Eq)]
pub struct Command<'a> {
    /// The name of the scale's text.
    pub scale: &'a str,
    pub mapping: MapChoice<'a>,
    pub options: Options,
    /// The channels that the bend route may use: bit 0 is the first one.
    pub allowed: u16,
    /// How many chords a sample has that is taken in place of the input, 1 to 100,000.
    pub sample: Option<u32>,
    /// Whether the error of each note is reported.
    pub audit: bool,
    /// The name that the output gets.
    pub out: &'a str,
    /// The name of the input. It isn't loaded where there is a sample.
    pub input: &'a str,
}

/// The first value of an option.
fn told<'a>(matches: &ArgMatches<'a>, name: &str) -> Option<&'a str>
    ensures { option_map (λ s. s.now) result ≡ first_of name.now (rows_in matches.now) }
{
    matches.get_str(name)
}

/// The text of a required word.
fn required<'a>(matches: &ArgMatches<'a>, name: &str) -> &'a str
    ensures { result.now ≡ text_of (rows_in matches.now) name.now }
{
    match told(matches, name) {
        Some(text) => text,
        None => "",
    }
}

/// Whether a flag is set.
fn is_set(matches: &ArgMatches<'_>, name: &str) -> bool
    ensures { result ≡ is_set (rows_in matches.now) name.now }
{
    required(matches, name) == "true"
}

/// A number from low to high, or another where none is told.
fn number_or(matches: &ArgMatches<'_>, name: &str, other: u32, low: u32, high: u32) -> u32
    requires order { low ≤ high }
    requires high { high ≤ 268435455 }
    requires other_low { low ≤ other }
    requires other_high { other ≤ high }
    ensures number { result ≡ number_or other low high (first_of name.now (rows_in matches.now)) }
    ensures low { low ≤ result }
    ensures high { result ≤ high }
{
    match told(matches, name) {
        Some(text) => number(text, low, high),
        None => other,
    }
}

/// The route that a text names.
fn route_of(text: &str) -> Option<Route>
    ensures { option_map route_of result ≡ route_of_text text.now }
{
    match text {
        "dump" => Some(Route::Dump),
        "live" => Some(Route::Live),
        "bend" => Some(Route::Bend),
        "mpe" => Some(Route::Mpe),
        _ => None,
    }
}

/// Whether a text says that drums are kept.
fn keeps(text: &str) -> Option<bool>
    ensures { result ≡ keeps_of_text text.now }
{
    match text {
        "keep" => Some(true),
        "retune" => Some(false),
        _ => None,
    }
}

/// The route, the bend route where none is told.
fn route(matches: &ArgMatches<'_>) -> Option<Route>
    ensures { option_map route_of result ≡ route_in (rows_in matches.now) }
{
    match told(matches, "route") {
        Some(text) => route_of(text),
        None => Some(Route::Bend),
    }
}

/// Whether drums are kept, as they are where nothing is told.
fn drums(matches: &ArgMatches<'_>) -> Option<bool>
    ensures { result ≡ drums_in (rows_in matches.now) }
{
    match told(matches, "drums") {
        Some(text) => keeps(text),
        None => Some(true),
    }
}

/// The channels that may be used, all where none are told.
fn allowed(matches: &ArgMatches<'_>) -> Option<u16>
    ensures { result ≡ channels_in (rows_in matches.now) }
{
    match told(matches, "channels") {
        Some(text) => channels(text),
        None => Some(0xffff),
    }
}

/// Whether a route bends notes.
fn bends_notes(route: Route) -> bool
    ensures { result ≡ bends_notes (route_of route) }
{
    match route {
        Route::Dump | Route::Live => false,
        Route::Bend | Route::Mpe => true,
    }
}

/// Whether it is the bend route.
fn is_bend(route: Route) -> bool
    ensures { result ≡ is_bend (route_of route) }
{
    match route {
        Route::Bend => true,
        Route::Dump | Route::Live | Route::Mpe => false,
    }
}

/// Whether an option is told.
fn is_told(matches: &ArgMatches<'_>, name: &str) -> bool
    ensures { result ≡ is_told (rows_in matches.now) name.now }
{
    told(matches, name).is_some()
}

/// Whether what is told doesn't fit.
fn misfits(is_told: bool, fits: bool) -> bool
    ensures { result ≡ (is_told && not fits) }
{
    is_told && !fits
}

/// Whether an option doesn't go with the rest.
fn is_unfit(matches: &ArgMatches<'_>, route: Route) -> bool
    ensures { result ≡ is_unfit (rows_in matches.now) (route_of route) }
{
    let bends = bends_notes(route);
    let range = misfits(is_told(matches, "range"), bends);
    let channels = misfits(is_told(matches, "channels"), is_bend(route));
    let tail = misfits(is_told(matches, "tail"), is_bend(route));
    let program = misfits(is_told(matches, "program"), !bends);
    let map = misfits(is_told(matches, "map"), !is_set(matches, "a440"));
    range || channels || tail || program || map
}

/// The mapping that is asked for.
fn mapping<'a>(matches: &ArgMatches<'a>) -> MapChoice<'a>
    ensures { view_choice result ≡ mapping_or (is_set (rows_in matches.now) (codes "a440"))
        (first_of (codes "map") (rows_in matches.now)) }
{
    match told(matches, "map") {
        Some(name) => MapChoice::Named(name),
        None if is_set(matches, "a440") => MapChoice::At440,
        None => MapChoice::Standard,
    }
}

/// The options of a route.
fn options(matches: &ArgMatches<'_>, route: Route, keep_drums: bool) -> Options
    ensures { options_of result ≡ options_in (rows_in matches.now) (route_of route) keep_drums }
{
    let usual = if route == Route::Mpe { 48 } else { 12 };
    Options {
        route,
        range: number_or(matches, "range", usual, 1, 96) as u8,
        keep_drums,
        program: number_or(matches, "program", 0, 0, 127) as u8,
        tail: number_or(matches, "tail", 0, 0, 268_435_455),
    }
}

/// How many chords a sample has, where one is asked for.
fn sample(matches: &ArgMatches<'_>) -> Option<u32>
    ensures { result
        ≡ option_map (number_of 1 100000) (first_of (codes "sample") (rows_in matches.now)) }
{
    match told(matches, "sample") {
        Some(text) => Some(number(text, 1, 100_000)),
        None => None,
    }
}

/// What the matches ask for, with what texts of lists say.
fn command_of<'a>(
    matches: &ArgMatches<'a>,
    route: Route,
    keep_drums: bool,
    allowed: u16,
) -> Command<'a>
    ensures { view_command result
        ≡ command_by (rows_in matches.now) (route_of route) keep_drums allowed }
{
    Command {
        scale: required(matches, "scale"),
        mapping: mapping(matches),
        options: options(matches, route, keep_drums),
        allowed,
        sample: sample(matches),
        audit: is_set(matches, "audit"),
        out: required(matches, "out"),
        input: required(matches, "input"),
    }
}

/// What the matches ask for; or why they don't fit together.
fn read_matches<'a>(matches: &ArgMatches<'a>) -> Result<Command<'a>, WordsFault>
    ensures read { IfOk result (λ c. reading_in (rows_in matches.now) ≡ Read (view_command c)) }
    ensures fault { IfErr result (IsWordsFault (reading_in (rows_in matches.now))) }
{
    let (Some(route), Some(keep_drums), Some(allowed)) = (
        route(matches),
        drums(matches),
        allowed(matches),
    ) else {
        return Err(WordsFault::Usage { kind: 2 });
    };
    if is_unfit(matches, route) {
        return Err(WordsFault::Usage { kind: 3 });
    }
    Ok(command_of(matches, route, keep_drums, allowed))
}

/// What the words behind the program's name ask for, or why they give no command. They are taken as
/// `clap` takes them, in any order. Kind 1 comes exactly where `clap` doesn't take them as the
/// command, `--help` and `-h` among them; kind 2 exactly where it does and the text of `--route`,
/// `--drums` or `--channels` isn't one of those listed; kind 3 exactly where they are and an option
/// doesn't go with the rest. Memory may always be wanting.
pub fn read_words<'a>(alloc: Global, words: &'a [&'a str]) -> Result<Command<'a>, WordsFault>
    ensures read { IfOk result
        (λ c. reading_of (texts words.entry.now) ≡ Read (view_command c)) }
    ensures fault { IfErr result (IsWordsFault (reading_of (texts words.entry.now))) }
{
    match parse(alloc, words) {
        Ok(matches) => read_matches(&matches),
        Err(error) if error.kind() == ErrorKind::OutOfMemory => Err(WordsFault::Memory),
        Err(_) => Err(WordsFault::Usage { kind: 1 }),
    }
}
