//! A board that threads share and that never waits: thirteen words, each loaded or exchanged in one atomic step. A thread calls it by a
//! pass, a reader's or a reporter's. Reports are one load and at most one compare-and-exchange; readings are the clean double collect of
//! Herlihy and Shavit.
//!
//! # Examples
//!
//! ```rust
//! let (board, mut screen) = WordBoard::open(&rt, rt.alloc()).ok()?;
//! let other = board.split_now(&mut screen);
//! let mut reporter = board.enlist_now(other).ok()?;
//! let kick_off = EventCall { game: MatchNo::new(1)?, expected: 0, kind: Kind::KickOff };
//! assert_eq!(board.report_now(&mut reporter, &kick_off), Ok(Accepted { number: 1 }));
//! assert_eq!(board.read_now(&mut screen).version, 1);
//! ```
#![tactic(auto)]

mod board;
mod live_words;
mod passes;
pub mod rule;
mod theorems;

pub use board::WordBoard;
pub use passes::{WordReaderPass, WordReporterPass};
pub use theorems::{
    boards_are_linearizable, each_step_is_logged, later_boards_extend, numbers_are_there,
    numbers_rise_in_time, steps_are_monotone, words_tell_the_entry,
};
pub use ucl_live_board::View;
