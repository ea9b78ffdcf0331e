//! The events that stand on an open board, each with its row, and mends: what they keep, what they leave out, and why one is refused.
#![tactic(auto)]

mod mend_refusal;
mod mend_theorems;
mod standing;

pub use mend_refusal::MendRefusal;
pub use mend_theorems::{
    later_events_go_on, mends_are_legal, other_matches_stay, whole_histories_are_kept,
};
pub use standing::{Fate, LeftOut, StandingEvent, StandingEvents};
