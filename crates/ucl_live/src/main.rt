//! `ucl_live`, the board of one group of the UEFA Champions League: the program answers each row of its standard input, which names a club,
//! enters an event or asks to show the board, as it comes.
#![tactic(auto)]

use std::process::ExitCode;
use ucl_command::words_of;
pub use ucl_command::{LineFault, live_args};
use ucl_io::LoggedIo;
pub use ucl_live_runs::{run_live, run_session};
use ucl_screen::{FromRead, ToWrite};

/// Runs the program over the standard streams. Standard output has no buffer, so that nothing is left to flush.
fn main(rt: HostRuntime) -> ExitCode {
    let alloc = rt.alloc();
    let mut logged_io = LoggedIo::new(FromRead::new(rt.stdin()), ToWrite::new(rt.stdout()));
    let mut errors = ToWrite::new(rt.stderr());
    ExitCode::from(run_live(alloc, words_of(&rt, alloc), &mut logged_io, &mut errors))
}
