//! The twelve matches of a group, the board as one thread sees it, and what histories are. Boards that threads share are in
//! `ucl_pass` and `ucl_words`.
//!
//! # Examples
//!
//! ```rust
//! let mut board = Board::fresh();
//! let reporter = ReporterNo::new(1)?;
//! let kick_off = EventCall { game: MatchNo::new(1)?, expected: 0, kind: Kind::KickOff };
//! assert_eq!(board.report(reporter, &kick_off), Ok(Accepted { number: 1 }));
//! assert_eq!(board.report(reporter, &kick_off), Err(Refusal::Stale { found: 1 }));
//! assert_eq!(board.version(), 1);
//! ```
#![tactic(auto)]

mod board;
mod entry;
mod fixtures;
mod night_event;
mod reading;
mod theorems;

pub use board::{BadWordAt, Board};
pub use entry::Entry;
pub use fixtures::{away_of, home_of};
pub use night_event::NightEvent;
pub use reading::Reading;
pub use theorems::{
    accepted_events_go_stale, added_entry_is_known, attempts_are_counted, beginnings_are_legal,
    boards_are_counted, boards_go_on, each_pair_meets_once, one_word_changes,
    repeated_events_change_nothing, same_number_same_word, same_word_same_entries,
    versions_are_lengths,
};
