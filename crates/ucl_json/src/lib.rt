//! The answers of `ucl_live` as JSON: each is one object on one line, with a member `reply` that says what kind of answer it is. Only a
//! screen carries a board state: group, order, edition, clubs and words. `parse_board_line` reads it back.
#![tactic(auto)]

mod answer_parts;
mod board_line;
mod board_state;
mod header;
mod line;
mod mended;
mod reply;
mod screen;

pub use board_line::parse_board_line;
pub use board_state::BoardState;
pub use header::BoardHeader;
pub use mended::{MendReply, left_out_json, mend_refused_json, mended_json};
pub use reply::{EventReply, bad_row_json, matches_json, reply_json, words_json};
pub use screen::{edition_screen_json, screen_json};
