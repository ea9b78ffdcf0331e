//! `ucl_follow`, which follows the board of one group of the UEFA Champions League: of the lines of its standard input, which may be
//! answers of `ucl_live`, the program shows each board state that is newer than all before.
#![tactic(auto)]

use std::process::ExitCode;
use ucl_command::words_of;
pub use ucl_command::{LineFault, follow_args};
use ucl_io::LoggedIo;
pub use ucl_live_runs::{run_follow, run_following};
use ucl_screen::{FromRead, ToWrite};

/// Runs the program over the standard streams. Standard output has no buffer, so that nothing is left to flush.
fn main(rt: HostRuntime) -> ExitCode {
    let alloc = rt.alloc();
    let mut logged_io = LoggedIo::new(FromRead::new(rt.stdin()), ToWrite::new(rt.stdout()));
    let others = ToWrite::new(rt.stderr());
    let mut errors = ToWrite::new(rt.stderr());
    ExitCode::from(run_follow(
        alloc,
        words_of(&rt, alloc),
        others,
        &mut logged_io,
        &mut errors,
    ))
}
