//! A board that threads share, in one cell that is loaded and exchanged as a whole. What every such board is, and settling, come from
//! `ucl_live_board` and are named here too.
//!
//! # Examples
//!
//! ```rust
//! let (board, mut screen) = CellBoard::open(&rt, rt.alloc()).ok()?;
//! let other = board.split(&rt, &mut screen);
//! let mut reporter = board.enlist(&rt, other).ok()?;
//! let kick_off = EventCall { game: MatchNo::new(1)?, expected: 0, kind: Kind::KickOff };
//! assert_eq!(board.report(&rt, &mut reporter, &kick_off), Ok(Accepted { number: 1 }));
//! assert_eq!(board.read(&rt, &mut screen).version, 1);
//! ```
#![tactic(auto)]

mod cell_board;
mod passes;
pub mod rule;
mod theorems;

pub use cell_board::CellBoard;
pub use passes::{CellReaderPass, CellReporterPass};
pub use theorems::{each_cell_step_is_logged, the_rule_of_cells_is_legal};
pub use ucl_live_board::{
    LiveBoard, MAX_REPORTERS, Strangers, TooManyReporters, View, holders_did_all,
    last_steps_see_all, numbers_are_apart, passes_see_prefixes, settle, steps_come_last,
    whole_is_alone, words_count_reporters,
};
