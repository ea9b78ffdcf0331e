//! What `ucl_live` does for its arguments: it runs a session, which answers each row of its input, and ends with an exit status.

ghost use Rattle.std.specs.Prelude.{◌≡◌, Err, IfOk, MatchResult, Result, map, string_bytes};
ghost use Rattle.ucl_command.specs.Commands.{AsksLive};
ghost use Rattle.ucl_command.specs.declared.fault.LineFault.{LineFault};
ghost use Rattle.ucl_command.specs.declared.live.LiveArgs.{LiveArgs};
ghost use Rattle.ucl_rows.specs.Ending.{ended_with};
ghost use Rattle.ucl_live_runs.specs.SessionRuns.{EndsHeld, RunsSession};

use crate::live_fault::LiveFault;
use crate::session::{Session, live_run};
use std::alloc::Global;
use ucl_command::{LineFault, LiveArgs, live_args};
use ucl_io::{LoggedIo, ServeFault};
use ucl_rows::{exit_without_command, of_driver, print_fault, print_refusal};
use ucl_screen::{Sink, Source};

/// What is printed if the first row names another group or tie-break order than the options `--group` and `--order` ask for.
const OTHER_GROUP: &str = "error: the row of the group differs from --group or --order\n";

/// Prints the fault of a session that failed, and returns the exit status: 0 if it did not fail, else that of the fault.
fn print_outcome<E: Sink>(errors: &mut E, done: Result<(), ServeFault<LiveFault>>) -> u8
    ensures { EndsHeld done (ended_with E.failed E.taken result errors.old errors.new) }
{
    match done {
        Ok(()) => 0,
        Err(fault) => match of_driver(fault) {
            LiveFault::Run(fault) => print_fault(errors, fault),
            LiveFault::OtherGroup => print_refusal(errors, OTHER_GROUP),
        },
    }
}

/// Runs the session that the arguments ask for, which `live_args` has parsed to `asked`, and returns the exit status.
///
/// The status is 0 if the input has ended and each row is answered; 2 if the arguments are refused, with the text of `clap`, or the first
/// row names another group or tie-break order than they do; 3 if the clubs are refused, 4 if a device failed, and 5 if memory was lacking,
/// each with the line of the fault. Help goes to the output.
pub fn run_session<S: Source, W: Sink, E: Sink>(
    alloc: Global,
    asked: Result<LiveArgs, LineFault>,
    logged_io: &mut LoggedIo<S, W, Session>,
    errors: &mut E,
) -> u8
    ensures { RunsSession S.Source W.Sink asked logged_io.old logged_io.new
        (ended_with E.failed E.taken result errors.old errors.new) }
{
    match asked {
        Ok(options) => {
            let done = live_run(alloc, options, logged_io);
            print_outcome(errors, done)
        }
        Err(fault) => exit_without_command(&mut logged_io.sink, errors, fault),
    }
}

/// Runs `ucl_live` for the words of its command line, `words`, or for why they could not be read, as `run_session` does for its arguments.
pub fn run_live<S: Source, W: Sink, E: Sink>(
    alloc: Global,
    words: Result<Vec<String>, LineFault>,
    logged_io: &mut LoggedIo<S, W, Session>,
    errors: &mut E,
) -> u8
    ensures { (asked : Result LiveArgs LineFault)
        × MatchResult words (λ found. IfOk asked (λ args. AsksLive
        (map string_bytes found.items) args.group args.profile args.screens args.format))
        (λ fault. asked ≡ Err fault)
        × RunsSession S.Source W.Sink asked logged_io.old logged_io.new
        (ended_with E.failed E.taken result errors.old errors.new) }
{
    let asked = match words {
        Ok(words) => live_args(alloc, &words),
        Err(fault) => Err(fault),
    };
    run_session(alloc, asked, logged_io, errors)
}
