//! The arguments of `ucl_live`, which answers rows of events through an evening.

ghost use Rattle.std.specs.Prelude.{◌≡◌, true, IfOk, IfSome, map, string_bytes};
ghost use Rattle.clap.specs.Matches.{found_of};
ghost use Rattle.clap.specs.Walk.{rows_of};
ghost use Rattle.ucl_command.specs.Commands.{AsksLive, HasApp, IsLiveAsked, OneOf, live_app};
ghost use Rattle.ucl_command.specs.Groups.{may_be_asked};

use crate::fault::{LineFault, matches_from, read};
use crate::help::{FORMAT, live as help};
use crate::options::{
    Format, flag_option, format_of, format_option, group_of, group_option, order_of, order_option,
    program,
};
use clap::{ArgMatches, Command};
use std::alloc::{AllocError, Global};
use ucl_order::Profile;

/// What the words of `ucl_live` ask for. Group and order are `None` if they do not name them; `letter` says that a group is one of A to H.
#[derive(Debug, Drop)]
pub struct LiveArgs {
    /// The letter of the group that was asked for, `A` to `H`.
    pub group: Option<u8>,
    /// The tie-break order of the clubs that was asked for.
    pub profile: Option<Profile>,
    /// Whether the screen is shown after each accepted event.
    pub screens: bool,
    /// The form of the answers.
    pub format: Format,
    pub ghost letter: { may_be_asked group ≡ true },
}

/// Creates the command by which `clap` parses the words of `ucl_live`.
fn command<'a>(alloc: Global) -> Result<Command<'a>, AllocError>
    ensures { IfOk result (λ command. (letters orders formats : OneOf)
        × HasApp (live_app letters orders formats) command) }
{
    program(alloc, "ucl_live", help::PROGRAM, help::PROGRAM_MORE)
        .arg(group_option(alloc, help::GROUP))?
        .arg(order_option(alloc, help::ORDER))?
        .arg(flag_option(alloc, "screens", help::SCREENS))?
        .arg(format_option(alloc, FORMAT))
}

/// Returns the arguments that `clap` has parsed, or `None` if it left out the format.
fn args_in(matches: &ArgMatches<'_>) -> Option<LiveArgs>
    ensures { IfSome result (λ args. IsLiveAsked (rows_of (found_of matches.now))
        args.group args.profile args.screens args.format) }
{
    Some(LiveArgs {
        group: group_of(matches),
        profile: order_of(matches),
        screens: matches.get_flag("screens"),
        format: format_of(matches)?,
    })
}

/// Parses the words of `ucl_live`. The first word is the program's name.
///
/// The options are `--group` with a letter from `A` to `H`; `--order` with `uefa` or `away-in-tie`; `--screens`; and `--format` with `text`
/// or `json`, by default `text`.
///
/// # Errors
///
/// `Help` if help is asked for, by `--help` or `-h`, or the version, by `--version` or `-V`; `Refused` if the words have anything else;
/// and `OutOfMemory`.
pub fn live_args(alloc: Global, words: &[String]) -> Result<LiveArgs, LineFault>
    ensures { IfOk result (λ args. AsksLive (map string_bytes words.entry.now)
        args.group args.profile args.screens args.format) }
{
    let matches = matches_from(alloc, command(alloc)?, words)?;
    read(alloc, args_in(&matches))
}
