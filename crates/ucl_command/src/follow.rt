//! The arguments of `ucl_follow`, which reads answers of `ucl_live` in JSON and shows each newer screen.

ghost use Rattle.std.specs.Prelude.{◌≡◌, IfOk, IfSome, map, string_bytes};
ghost use Rattle.clap.specs.Matches.{found_of};
ghost use Rattle.clap.specs.Walk.{rows_of};
ghost use Rattle.ucl_command.specs.Commands.{AsksFollow, HasApp, IsFollowAsked, OneOf, follow_app, shape_for};

use crate::fault::{LineFault, matches_from, read};
use crate::help::{FORMAT, follow as help};
use crate::options::{
    Format, flag_option, format_of, format_option, group_of, group_option, order_of, order_option,
    program,
};
use clap::{ArgMatches, Command};
use std::alloc::{AllocError, Global};
use ucl_order::Profile;

/// Which group and order `ucl_follow` was asked to follow, `None` if not asked, and what it writes.
#[derive(Clone, Copy, Debug, PartialEq, Eq)]
pub struct FollowArgs {
    /// The letter of the group that was asked for, `A` to `H`.
    pub group: Option<u8>,
    /// The tie-break order of the clubs that was asked for.
    pub profile: Option<Profile>,
    /// What it writes.
    pub shape: FollowShape,
}

/// What `ucl_follow` writes.
#[derive(Clone, Copy, Debug, PartialEq, Eq)]
pub enum FollowShape {
    /// Each screen as its six lines of text.
    Text,
    /// Each screen as one JSON object on one line.
    Json,
    /// The twelve matches as lines of text, in place of each screen.
    Matches,
}

/// Creates the command by which `clap` parses the words of `ucl_follow`.
fn command<'a>(alloc: Global) -> Result<Command<'a>, AllocError>
    ensures { IfOk result (λ command. (letters orders formats : OneOf)
        × HasApp (follow_app letters orders formats) command) }
{
    program(alloc, "ucl_follow", help::PROGRAM, help::PROGRAM_MORE)
        .arg(group_option(alloc, help::GROUP))?
        .arg(order_option(alloc, help::ORDER))?
        .arg(format_option(alloc, FORMAT))?
        .arg(flag_option(alloc, "matches", help::MATCHES).conflicts_with("format")?)
}

/// Returns what is written in this form, or, if matches are asked for, in place of screens.
fn shape_for(format: Format, matches: bool) -> FollowShape
    ensures { result ≡ shape_for format matches }
{
    match format {
        _ if matches => FollowShape::Matches,
        Format::Text => FollowShape::Text,
        Format::Json => FollowShape::Json,
    }
}

/// Returns the arguments that `clap` has parsed, or `None` if `clap` gave no format. `clap` refuses `--matches` beside `--format`.
fn args_in(matches: &ArgMatches<'_>) -> Option<FollowArgs>
    ensures { IfSome result (IsFollowAsked (rows_of (found_of matches.now))) }
{
    Some(FollowArgs {
        group: group_of(matches),
        profile: order_of(matches),
        shape: shape_for(format_of(matches)?, matches.get_flag("matches")),
    })
}

/// Parses the words of `ucl_follow`. The first word is the program's name.
///
/// The options are `--group` with a letter from `A` to `H`; `--order` with `uefa` or `away-in-tie`; `--format` with `text` or `json`, by
/// default `text`; and `--matches`, which asks for the matches in place of screens, and does not go with `--format`.
///
/// # Errors
///
/// `Help` if help is asked for, by `--help` or `-h`, or the version, by `--version` or `-V`; `Refused` if the words have anything else;
/// and `OutOfMemory`.
pub fn follow_args(alloc: Global, words: &[String]) -> Result<FollowArgs, LineFault>
    ensures { IfOk result (AsksFollow (map string_bytes words.entry.now)) }
{
    let matches = matches_from(alloc, command(alloc)?, words)?;
    read(alloc, args_in(&matches))
}
