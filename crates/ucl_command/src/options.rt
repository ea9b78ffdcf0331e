//! The options that programs share, each once, and what their values name. `says` is the help of an option.

ghost use Rattle.std.specs.Prelude.{◌≡◌, ◌≤◌, codes, true, IfSome, Some};
ghost use Rattle.clap.specs.Matches.{found_of};
ghost use Rattle.clap.specs.Walk.{rows_of};
ghost use Rattle.ucl_screen.specs.Screen.{IsGroup};
ghost use Rattle.ucl_command.specs.Groups.{may_be_asked};
ghost use Rattle.ucl_command.specs.Commands.{HasApp, HasRule, OneOf, choice_rule, flag_rule, format_in, group_in, or_else, option_rule, order_in, program_app, readings_in, readings_rule};

use crate::help;
use clap::{Arg, ArgAction, ArgMatches, Command, value_parser};
use std::alloc::Global;
use ucl_order::{PROFILE_NAMES, Profile};
use ucl_screen::letter_in;

/// In which form answers or screens are written.
#[derive(Clone, Copy, Debug, PartialEq, Eq)]
pub enum Format {
    /// As text: a line for each event and each match word, and screens.
    Text,
    /// As JSON: each answer is one object on one line.
    Json,
}

/// The letters of the groups.
static GROUPS: [&str; 8] = ["A", "B", "C", "D", "E", "F", "G", "H"];

/// The values of `--format`.
static FORMATS: [&str; 2] = [TEXT, JSON];

/// The value of `--format` for text.
const TEXT: &str = "text";

/// The value of `--format` for JSON.
const JSON: &str = "json";

/// The most readings that `--readings` asks of each reader.
const MAX_READINGS: u32 = 1000;

/// Creates a program's command of `clap`, without options: its name, what it does, what its help says at the end, and the version.
pub(crate) fn program<'a>(
    alloc: Global,
    name: &'a str,
    about: &'a str,
    more: &'a str,
) -> Command<'a>
    ensures { HasApp (program_app name.entry.now) result }
{
    Command::new(alloc, name)
        .version(help::VERSION)
        .about(about)
        .after_help(more)
}

/// Creates the option `--name` of one value, which its help calls `value`.
fn option<'a>(alloc: Global, name: &'a str, value: &'a str, says: &'a str) -> Arg<'a>
    ensures { HasRule (option_rule name.entry.now) result }
{
    Arg::new(alloc, name)
        .long(name)
        .action(ArgAction::Set)
        .value_name(value)
        .help(says)
}

/// Creates the option `--group` with a letter from `A` to `H`.
pub(crate) fn group_option<'a>(alloc: Global, says: &'a str) -> Arg<'a>
    ensures { (letters : OneOf) × HasRule (choice_rule (codes "group") letters) result }
{
    option(alloc, "group", "GROUP", says).value_parser(GROUPS.as_slice())
}

/// Creates the option `--order` with `uefa` or `away-in-tie`.
pub(crate) fn order_option<'a>(alloc: Global, says: &'a str) -> Arg<'a>
    ensures { (orders : OneOf) × HasRule (choice_rule (codes "order") orders) result }
{
    option(alloc, "order", "ORDER", says).value_parser(PROFILE_NAMES.as_slice())
}

/// Creates the option `--format` with `text` or `json`, by default `text`.
pub(crate) fn format_option<'a>(alloc: Global, says: &'a str) -> Arg<'a>
    ensures { (formats : OneOf) × HasRule (or_else (codes "text") (choice_rule (codes "format") formats)) result }
{
    option(alloc, "format", "FORMAT", says)
        .value_parser(FORMATS.as_slice())
        .default_value(TEXT)
}

/// Creates the option `--readings` with a number from 0 to 1,000, by default 0.
pub(crate) fn readings_option<'a>(alloc: Global) -> Arg<'a>
    ensures { HasRule readings_rule result }
{
    option(alloc, "readings", "NUMBER", help::READINGS)
        .value_parser(value_parser!(u32).range(0..=i64::from(MAX_READINGS)))
        .default_value("0")
}

/// Creates the option `--name` without a value, which is there or not.
pub(crate) fn flag_option<'a>(alloc: Global, name: &'a str, says: &'a str) -> Arg<'a>
    ensures { HasRule (flag_rule name.entry.now) result }
{
    Arg::new(alloc, name)
        .long(name)
        .action(ArgAction::SetTrue)
        .help(says)
}

/// Returns the group that `--group` names, or `None` without the option or if it is no letter from `A` to `H`.
#[tactic(auto, using(crate::proofs::Letters::letter_asked))]
pub(crate) fn group_of(matches: &ArgMatches<'_>) -> Option<u8>
    ensures letter { IfSome result IsGroup }
    ensures asked { may_be_asked result ≡ true }
    ensures named { result ≡ group_in (rows_of (found_of matches.now)) }
{
    letter_in(matches.get_str("group")?.as_bytes())
}

/// Returns the order that `--order` names, or `None` without the option or if its value is no order.
pub(crate) fn order_of(matches: &ArgMatches<'_>) -> Option<Profile>
    ensures { result ≡ order_in (rows_of (found_of matches.now)) }
{
    Profile::from_name(matches.get_str("order")?.as_bytes())
}

/// Returns the form that `--format` names, or `None` without a value or if that is no form.
pub(crate) fn format_of(matches: &ArgMatches<'_>) -> Option<Format>
    ensures { result ≡ format_in (rows_of (found_of matches.now)) }
{
    match matches.get_str("format")? {
        TEXT => Some(Format::Text),
        JSON => Some(Format::Json),
        _ => None,
    }
}

/// Returns how many readings `--readings` asks for, or `None` without a value or if that is over 1,000.
pub(crate) fn readings_of(matches: &ArgMatches<'_>) -> Option<u32>
    ensures { IfSome result (λ n. (n ≤ 1000)
        × (readings_in (rows_of (found_of matches.now)) ≡ Some n)) }
{
    let readings = matches.get_one::<u32>("readings")?;
    (readings <= MAX_READINGS).then_some(readings)
}
