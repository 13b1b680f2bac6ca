//! Parses the command line by clap.

ghost use Rattle.std.specs.Prelude.{◌≡◌, ◌≤◌, ℕ, pos, [], Some, IfOk, IfErr, MatchResult, codes, option_map, IsTrue, false};
ghost use Rattle.clap.specs.Words.{app_of, fault_of, first_of, found_of, matches_of, rows_of, rule_of, takes};
ghost use Rattle.rt_tree.specs.Entries.{most_entries};
ghost use Rattle.rt_command.specs.Choices.{greatest_fanout, least_fanout};
ghost use Rattle.rt_command.specs.Invocations.{AreFilled, HasNumber, IsFaultAmong, filter_app, header_rule, invocation_of, is_given, number_rule, option_number, word_rule};

use crate::name::Name;
use crate::settings::Settings;
use clap::builder::ValueParser;
use clap::error::ErrorKind;
use clap::{Arg, ArgAction, ArgMatches, Command};
use std::alloc::{AllocError, Global};
use thiserror::Error;

/// The default fanout.
const DEFAULT_FANOUT: &str = "16";

/// The default for the most entries.
const DEFAULT_MAX_ENTRIES: &str = "16777216";

/// A parsed command line.
#[derive(Debug, Drop)]
pub struct Invocation {
    /// The settings of the run.
    pub settings: Settings,
    /// The file of the table.
    pub table: Name,
    /// The file of the queries. `None` is standard input.
    pub queries: Option<Name>,
}

/// Why the words are no invocation.
#[derive(Clone, Copy, Debug, Drop, Error, PartialEq, Eq)]
pub enum ArgFault {
    /// They ask for help.
    #[error("help was asked for")]
    Help,
    /// They are no command line of this program.
    #[error("bad command line")]
    Usage,
    /// Out of memory.
    #[error("out of memory")]
    Memory,
}

impl From<AllocError> for ArgFault {
    ghost use Rattle.std.specs.Prelude.{◌≡◌};
    ghost use Rattle.rt_command.specs.declared.invocation.ArgFault.TheVariants.{Memory};

    ghost from_gives = { λ _ fault. fault ≡ Memory };

    fn from(_error: AllocError) -> ArgFault {
        ArgFault::Memory
    }
}

impl From<clap::Error> for ArgFault {
    ghost use Rattle.std.specs.Prelude.{◌≡◌};
    ghost use Rattle.clap.specs.Words.{kind_of};
    ghost use Rattle.rt_command.specs.Invocations.{arg_fault_of};

    ghost from_gives = { λ error fault. fault ≡ arg_fault_of (kind_of error) };

    fn from(error: clap::Error) -> ArgFault {
        match error.kind() {
            ErrorKind::DisplayHelp => ArgFault::Help,
            ErrorKind::OutOfMemory => ArgFault::Memory,
            _ => ArgFault::Usage,
        }
    }
}

/// Parses the words of a command line, the program's name first:
/// `rtfilter [-H|--header] [--fanout M] [--max-entries N] TABLE [QUERIES]`.
///
/// M is an integer from 2 to 64, by default 16. N is an integer from 1 to 16,777,216, by default 16,777,216. The words mean
/// what
/// `clap` takes them to mean, its `-h` and `--help` included. Each refusal of `clap` other than help and out of memory is
/// [`ArgFault::Usage`].
pub fn settings_of(alloc: Global, words: &[Name]) -> Result<Invocation, ArgFault>
    // The values are those that clap's own definition of the command's matches has for the words.
    ensures ok { IfOk result (λ invocation. invocation_of words.now ≡ Some invocation) }

    // There are values only if clap's definition allows no fault. Each refusal is out of memory or of one of the kinds that
    // clap allows for the words.
    ensures faults { let kinds = fault_of filter_app words.now in
        MatchResult result (λ _. kinds ≡ []) (IsFaultAmong kinds) }

    // If clap takes the words, the only refusal is out of memory.
    ensures takes { IfErr result
        (λ fault. IsTrue (takes filter_app words.now) → fault ≡ ArgFault.Memory) }
{
    let matches = parse(alloc, words)?;
    Ok(Invocation {
        settings: settings(&matches),
        table: Name::new(alloc, matches.get_str("table").unwrap())?,
        queries: named(alloc, matches.get_str("queries"))?,
    })
}

// clap's matches for the words.
fn parse<'a>(alloc: Global, words: &'a [Name]) -> Result<ArgMatches<'a>, ArgFault>
    ensures rows { IfOk result (λ m. rows_of (found_of m) ≡ matches_of filter_app words.entry.now) }
    ensures filled { IfOk result (λ m. AreFilled (rows_of (found_of m))) }
    ensures faults { let kinds = fault_of filter_app words.entry.now in
        MatchResult result (λ _. kinds ≡ []) (IsFaultAmong kinds) }
    ensures takes { IfErr result
        (λ fault. IsTrue (takes filter_app words.entry.now) → fault ≡ ArgFault.Memory) }
{
    let command = filter_command(alloc)?;
    Ok(command.try_get_matches_from(words)?)
}

// The command of the program.
fn filter_command<'a>(alloc: Global) -> Result<Command<'a>, AllocError>
    ensures { IfOk result (λ command. app_of command ≡ filter_app) }
{
    Command::new(alloc, "rtfilter")
        .arg(header_arg(alloc))?
        .arg(number_arg(alloc, "fanout", fanout_parser(), DEFAULT_FANOUT))?
        .arg(number_arg(alloc, "max-entries", entries_parser(), DEFAULT_MAX_ENTRIES))?
        .arg(word_arg(alloc, "table", true))?
        .arg(word_arg(alloc, "queries", false))
}

// `-H` or `--header`.
fn header_arg<'a>(alloc: Global) -> Arg<'a>
    ensures rule { rule_of result ≡ header_rule }
    ensures local { result.global ≡ false }
{
    Arg::new(alloc, "header")
        .short('H')
        .long("header")
        .action(ArgAction::SetTrue)
}

// An option with a number and a default.
fn number_arg<'a>(
    alloc: Global,
    name: &'a str,
    parser: ValueParser<'a>,
    default: &'a str,
) -> Arg<'a>
    ensures rule { (least greatest : ℕ)
        → parser.entry ≡ ValueParser.Signed (pos least) (pos greatest)
        → rule_of result ≡ number_rule name.entry.now least greatest default.entry.now }
    ensures local { result.global ≡ false }
{
    Arg::new(alloc, name)
        .long(name)
        .action(ArgAction::Set)
        .value_parser(parser)
        .default_value(default)
}

// The range of the fanout.
fn fanout_parser<'a>() -> ValueParser<'a>
    ensures { result ≡ ValueParser.Signed (pos least_fanout) (pos greatest_fanout) }
{
    clap::value_parser!(u8).range(
        i64::from(Settings::LEAST_FANOUT)..=i64::from(Settings::GREATEST_FANOUT),
    )
}

// The range of the most entries.
fn entries_parser<'a>() -> ValueParser<'a>
    ensures { result ≡ ValueParser.Signed (pos 1) (pos most_entries) }
{
    clap::value_parser!(u32).range(1..=i64::from(Settings::MOST_ENTRIES))
}

// A positional argument.
fn word_arg<'a>(alloc: Global, name: &'a str, required: bool) -> Arg<'a>
    ensures rule { rule_of result ≡ word_rule name.entry.now required }
    ensures local { result.global ≡ false }
{
    Arg::new(alloc, name)
        .required(required)
        .action(ArgAction::Set)
}

// The settings in the matches.
fn settings(matches: &ArgMatches<'_>) -> Settings
    requires { AreFilled (rows_of (found_of matches.now)) }
    ensures header { result.header ≡ is_given (codes "header") (rows_of (found_of matches.now)) }
    ensures fanout { option_number (codes "fanout") (rows_of (found_of matches.now))
        ≡ Some result.fanout }
    ensures max_entries { option_number (codes "max-entries") (rows_of (found_of matches.now))
        ≡ Some result.max_entries }
{
    Settings::new(header(matches), fanout(matches), max_entries(matches)).unwrap()
}

// Whether the flag is set. A flag that isn't has the text `false`.
fn header(matches: &ArgMatches<'_>) -> bool
    ensures { result ≡ is_given (codes "header") (rows_of (found_of matches.now)) }
{
    match matches.get_str("header") {
        Some(text) => text == "true",
        None => false,
    }
}

// The fanout, set or by default. clap has checked its range.
fn fanout(matches: &ArgMatches<'_>) -> u8
    requires { HasNumber (codes "fanout") least_fanout greatest_fanout
        (rows_of (found_of matches.now)) }
    ensures value { option_number (codes "fanout") (rows_of (found_of matches.now)) ≡ Some result }
    ensures least { least_fanout ≤ result }
    ensures most { result ≤ greatest_fanout }
{
    matches.get_one::<u8>("fanout").unwrap()
}

// The most entries, likewise.
fn max_entries(matches: &ArgMatches<'_>) -> u32
    requires { HasNumber (codes "max-entries") 1 most_entries (rows_of (found_of matches.now)) }
    ensures value { option_number (codes "max-entries") (rows_of (found_of matches.now))
        ≡ Some result }
    ensures least { 1 ≤ result }
    ensures most { result ≤ most_entries }
{
    matches.get_one::<u32>("max-entries").unwrap()
}

// The name with this text, if there is a text.
fn named(alloc: Global, text: Option<&str>) -> Result<Option<Name>, AllocError>
    ensures { IfOk result (λ name. name ≡ option_map (λ s. s.now) text.entry) }
{
    match text {
        Some(text) => Ok(Some(Name::new(alloc, text)?)),
        None => Ok(None),
    }
}
