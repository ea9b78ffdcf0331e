//! One match of a group of the UEFA Champions League: its record, its packed word, and the rules by which an event is
//! entered or refused. Which clubs play, and the twelve matches together, are in `ucl_board`.
//!
//! # Examples
//!
//! ```rust
//! let reporter = ReporterNo::new(1)?;
//! let scheduled = pack(&MatchRecord::default());
//! let in_play = next_word(scheduled, reporter, 0, Kind::KickOff).ok()?;
//! let goal = next_word(in_play, reporter, 1, Kind::Goal(Side::Home)).ok()?;
//! assert_eq!(unpack(goal).ok()?.home_goals, 1);
//! assert_eq!(next_word(goal, reporter, 1, Kind::FullTime), Err(Refusal::Stale { found: 2 }));
//! ```
#![tactic(auto)]

mod event;
mod match_no;
mod migration;
mod record;
mod refusal;
mod reporter_no;
mod rules;
mod theorems;
mod word;

pub use event::{Accepted, EventCall, Kind, Side};
pub use match_no::MatchNo;
pub use migration::migrate;
pub use record::{MatchRecord, State};
pub use refusal::{BadWord, OutOfMemory, Refusal};
pub use reporter_no::ReporterNo;
pub use rules::{apply, next_word};
pub use theorems::{
    a_match_in_play_can_be_ended, a_reopened_match_can_be_ended, counts_are_balanced,
    counts_are_valid, layouts_differ, one_case_holds, words_are_read, words_are_tested,
    words_differ,
};
pub use word::{number_of, pack, record_of, unpack};
