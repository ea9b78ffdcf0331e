//! What every board is that threads share: its passes, the clauses of its calls, the invariant that all passes see one history, and
//! settling. The boards stand above: in one cell in `ucl_pass`, word by word in `ucl_words`.
#![tactic(auto)]

mod asking;
mod errors;
mod live_board;
mod settling;
mod theorems;
mod view;

pub use asking::Asking;
pub use errors::{Strangers, TooManyReporters};
pub use live_board::{LiveBoard, MAX_REPORTERS};
pub use settling::settle;
pub use theorems::{
    BoardRule, holders_did_all, last_steps_see_all, numbers_are_apart, passes_see_prefixes,
    steps_come_last, whole_is_alone, words_count_reporters,
};
pub use view::View;
