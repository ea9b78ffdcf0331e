//! The program for the board of one group of the UEFA Champions League: `feed` enters a script of events, `show` writes the screen of a
//! sheet, and `night` has two reporters enter a script in threads of their own while two readers look on.
#![tactic(auto)]

use std::process::ExitCode;
use ucl_command::words_of;
pub use ucl_command::{Line, LineFault, line_of};
pub use ucl_rows::{RunFault, status_of};
pub use ucl_runs::{
    Gate, NightEnd, OpenGate, feed_run, night_run, put_night, run, run_night, run_words,
    schedule_does_not_matter, show_run,
};
use ucl_screen::{FromRead, ToWrite};
use ucl_words::WordBoard;

/// Runs the program over its words and the standard streams. Standard output has no buffer, so that nothing is left to flush.
fn main(rt: HostRuntime) -> ExitCode {
    let alloc = rt.alloc();
    let mut source = FromRead::new(rt.stdin());
    let mut sink = ToWrite::new(rt.stdout());
    let mut errors = ToWrite::new(rt.stderr());
    ExitCode::from(run_words(
        &rt,
        alloc,
        words_of(&rt, alloc),
        || WordBoard::open(&rt, alloc),
        &mut source,
        &mut sink,
        &mut errors,
    ))
}
