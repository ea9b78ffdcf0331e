//! What shared boards, the protocol's machine and the screen claim together: one history for all callers.
#![tactic(auto)]

mod theorems;

pub use theorems::{boards_have_one_history, every_run_has_one_history, histories_go_on};
