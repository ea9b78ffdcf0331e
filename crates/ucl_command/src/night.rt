//! The arguments of `ucl_night`.

ghost use Rattle.std.specs.Prelude.{IfOk, IfSome, codes, map, string_bytes};
ghost use Rattle.clap.specs.Simple.{new_app, subcommand_rows_of};
ghost use Rattle.ucl_command.specs.Arguments.{IsInRange};
ghost use Rattle.ucl_command.specs.Commands.{AsksFor, HasApp, IsAsked, OneOf, night_app, play_app, show_app};

use crate::fault::{LineFault, matches_from, read};
use crate::help::{GROUP, ORDER, night as help};
use crate::options::{
    group_of, group_option, order_of, order_option, program, readings_of, readings_option,
};
use clap::{ArgMatches, Command};
use std::alloc::{AllocError, Global};
use ucl_order::Profile;

/// What `ucl_night` is to do, by its subcommand.
#[derive(Clone, Copy, Debug, PartialEq, Eq)]
pub enum Line {
    /// Enter a script, and write a reply for each event.
    Feed,
    /// Write the screen of a sheet.
    Show {
        /// The letter of the group, `A` to `H`.
        group: u8,
        /// The tie-break order of the clubs.
        profile: Profile,
    },
    /// Enter a script by two reporters, each a thread, while two reader threads take readings, and write screens.
    Night {
        /// The letter of the group, `A` to `H`.
        group: u8,
        /// How many readings each reader takes, 0 to 1,000.
        readings: u32,
        /// The tie-break order of the clubs.
        profile: Profile,
    },
}

/// Creates the subcommand `feed`.
fn feed_command<'a>(alloc: Global) -> Command<'a>
    ensures { HasApp (new_app (codes "feed")) result }
{
    Command::new(alloc, "feed")
        .about(help::FEED)
        .after_help(help::FEED_MORE)
}

/// Creates the subcommand `show`.
fn show_command<'a>(alloc: Global) -> Result<Command<'a>, AllocError>
    ensures { IfOk result (λ show. (letters orders : OneOf)
        × HasApp (show_app letters orders) show) }
{
    Command::new(alloc, "show")
        .about(help::SHOW)
        .after_help(help::SHOW_MORE)
        .arg(group_option(alloc, GROUP).default_value("A"))?
        .arg(order_option(alloc, ORDER).default_value(Profile::Uefa.name()))
}

/// Creates the subcommand `night`.
fn night_command<'a>(alloc: Global) -> Result<Command<'a>, AllocError>
    ensures { IfOk result (λ night. (letters orders : OneOf)
        × HasApp (play_app letters orders) night) }
{
    Command::new(alloc, "night")
        .about(help::NIGHT)
        .after_help(help::NIGHT_MORE)
        .arg(group_option(alloc, GROUP).default_value("A"))?
        .arg(readings_option(alloc))?
        .arg(order_option(alloc, ORDER).default_value(Profile::Uefa.name()))
}

/// Creates the command by which `clap` parses the words of `ucl_night`, with its subcommands.
fn command<'a>(alloc: Global) -> Result<Command<'a>, AllocError>
    ensures { IfOk result (λ command. (letters orders night_letters night_orders : OneOf)
        × HasApp (night_app letters orders night_letters night_orders) command) }
{
    program(alloc, "ucl_night", help::PROGRAM, help::PROGRAM_MORE)
        .subcommand_required(true)
        .subcommand(feed_command(alloc))?
        .subcommand(show_command(alloc)?)?
        .subcommand(night_command(alloc)?)
}

/// Returns the subcommand that `clap` has parsed, with its options, or `None` if there is none or an option is not in range.
fn line_in(matches: &ArgMatches<'_>) -> Option<Line>
    ensures in_range { IfSome result IsInRange }
    ensures asked { IfSome result (IsAsked (subcommand_rows_of matches.now)) }
{
    let (name, found) = matches.subcommand()?;
    match name {
        "feed" => Some(Line::Feed),
        "show" => Some(Line::Show {
            group: group_of(found)?,
            profile: order_of(found)?,
        }),
        "night" => Some(Line::Night {
            group: group_of(found)?,
            readings: readings_of(found)?,
            profile: order_of(found)?,
        }),
        _ => None,
    }
}

/// Parses the words of `ucl_night`. The first word is the program's name.
///
/// The subcommand is `feed`, `show` or `night`. The latter two take `--group` with a letter from `A` to `H`, by default `A`, and `--order`
/// with `uefa` or `away-in-tie`, by default `uefa`. `night` takes `--readings` too, with a number from 0 to 1,000, by default 0. Which words
/// are refused, and with which text, is tested.
///
/// # Errors
///
/// `Help` if help is asked for, or the version, by `--version` or `-V` before any subcommand; `Refused` if the words have no subcommand,
/// an unknown one, or what it does not take; and `OutOfMemory`.
pub fn line_of(alloc: Global, words: &[String]) -> Result<Line, LineFault>
    ensures in_range { IfOk result IsInRange }
    ensures asked { IfOk result (AsksFor (map string_bytes words.entry.now)) }
{
    let matches = matches_from(alloc, command(alloc)?, words)?;
    read(alloc, line_in(&matches))
}
