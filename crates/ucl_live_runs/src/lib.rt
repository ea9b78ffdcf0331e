//! The runs of `ucl_live` and `ucl_follow`, over any source and any sink: `live_run` answers rows through a session, `follow_run` follows
//! the answers of a session in JSON, and `run_session` and `run_following` do what the arguments of these programs ask for.
#![tactic(auto)]

mod clubs;
mod config;
mod follow_program;
mod follow_theorems;
mod follower;
mod header;
mod live_fault;
mod live_program;
mod live_theorems;
mod mend_answer;
mod open_board;
mod passed_over;
mod phase;
mod request;
mod session;

pub use follow_program::{run_follow, run_following};
pub use follow_theorems::{
    answers_fit_their_lines, answers_never_fall, every_table_is_one_moment,
    followers_end_with_the_board, latest_is_shown_last, lines_tell_their_board_state,
    mixtures_are_refused, older_moments_are_refused, others_do_not_matter,
    repeated_rows_change_nothing, runs_show_moments, screens_tell_their_board_state, versions_rise,
};
pub use follower::{FollowSummary, Follower, follow_run};
pub use live_fault::LiveFault;
pub use live_program::{run_live, run_session};
pub use live_theorems::{
    beginnings_are_answered, boards_take_events, json_answers_are_lines, lines_are_read_whole,
    mends_are_done, refused_sessions_are_silent, replies_are_those_of_feed,
    sessions_are_sequential, sessions_show_moments,
};
pub use session::{Session, live_run};
pub use ucl_mends::{
    Fate, LeftOut, MendRefusal, StandingEvent, StandingEvents, later_events_go_on, mends_are_legal,
    other_matches_stay, whole_histories_are_kept,
};
