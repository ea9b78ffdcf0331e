//! What `ucl_follow` does for its arguments.

ghost use Rattle.std.specs.Prelude.{◌≡◌, Err, IfOk, MatchResult, Result, map, string_bytes};
ghost use Rattle.ucl_command.specs.Commands.{AsksFollow};
ghost use Rattle.ucl_command.specs.declared.fault.LineFault.{LineFault};
ghost use Rattle.ucl_command.specs.declared.follow.FollowArgs.{FollowArgs};
ghost use Rattle.ucl_rows.specs.Ending.{ended_with};
ghost use Rattle.ucl_live_runs.specs.FollowerRuns.{EndsFollowing, RunsFollowing, counts_line};

use crate::follower::{FollowSummary, Follower, follow_run};
use arrayvec::ArrayString;
use itoa::Buffer;
use std::alloc::Global;
use ucl_command::{FollowArgs, LineFault, follow_args};
use ucl_io::{LoggedIo, ServeFault};
use ucl_rows::{RunFault, exit_without_command, of_driver, print_fault, put_text};
use ucl_screen::{Sink, Source};

/// Returns the line that says how many lines came, how many of them were shown, and how many were not, that is, passed over.
fn counts_line(followed: FollowSummary) -> ArrayString<128>
    ensures { result.bytes ≡ counts_line followed }
{
    let mut line = ArrayString::new();
    line.push_str(Buffer::new().format(followed.lines));
    line.push_str(" lines, ");
    line.push_str(Buffer::new().format(followed.shown));
    line.push_str(" shown, ");
    let others = followed.lines.saturating_sub(followed.shown);
    line.push_str(Buffer::new().format(others));
    line.push_str(" passed over\n");
    line
}

/// Prints the counts of a run that ended well, or the fault of one that failed, and returns the exit status: 0, or that of the fault.
fn print_outcome<E: Sink>(errors: &mut E, done: Result<FollowSummary, ServeFault<RunFault>>) -> u8
    ensures { EndsFollowing done (ended_with E.failed E.taken result errors.old errors.new) }
{
    match done {
        Ok(followed) => {
            let _ = put_text(errors, counts_line(followed).as_str().as_bytes());
            0
        }
        Err(fault) => print_fault(errors, of_driver(fault)),
    }
}

/// Runs `ucl_follow` for its arguments, which `follow_args` has parsed to `asked`, and returns the exit status.
///
/// The status is 0 if the input has ended, and then the sink `errors` gets the number of lines that came, were shown and were passed over;
/// 2 if the arguments are refused, with the text of `clap`; 4 if a device failed, and 5 if memory was lacking, each with the line of the
/// fault. Help goes to the output. The sink `others` gets a line for each group and tie-break order that is passed over.
pub fn run_following<S: Source, W: Sink, T: Sink + Drop, E: Sink>(
    alloc: Global,
    asked: Result<FollowArgs, LineFault>,
    others: T,
    logged_io: &mut LoggedIo<S, W, Follower<T>>,
    errors: &mut E,
) -> u8
    ensures { RunsFollowing S.Source W.Sink asked logged_io.old logged_io.new
        (ended_with E.failed E.taken result errors.old errors.new) }
{
    match asked {
        Ok(args) => {
            let done = follow_run(alloc, args, others, logged_io);
            print_outcome(errors, done)
        }
        Err(fault) => exit_without_command(&mut logged_io.sink, errors, fault),
    }
}

/// Runs `ucl_follow` for the words of its command line, `words`, or for why they could not be read, as `run_following` does for its
/// arguments.
pub fn run_follow<S: Source, W: Sink, T: Sink + Drop, E: Sink>(
    alloc: Global,
    words: Result<Vec<String>, LineFault>,
    others: T,
    logged_io: &mut LoggedIo<S, W, Follower<T>>,
    errors: &mut E,
) -> u8
    ensures { (asked : Result FollowArgs LineFault)
        × MatchResult words (λ found. IfOk asked (AsksFollow (map string_bytes found.items)))
        (λ fault. asked ≡ Err fault)
        × RunsFollowing S.Source W.Sink asked logged_io.old logged_io.new
        (ended_with E.failed E.taken result errors.old errors.new) }
{
    let asked = match words {
        Ok(words) => follow_args(alloc, &words),
        Err(fault) => Err(fault),
    };
    run_following(alloc, asked, others, logged_io, errors)
}
