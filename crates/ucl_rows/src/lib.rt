//! What the runs over rows share: `plain_row` and `read_row` read the row on a line; an `Answer` is what a row is answered; `word_lines`
//! writes the words of a board; a `RunFault` is why a run fails, and `print_fault` writes its line and gives the exit status.
#![tactic(auto)]

mod answer;
mod bad_row;
mod ending;
mod fault;
mod line;
mod output;
mod words;

pub use answer::{
    Answer, ReplyLine, bad_answer, line_answer, matches_answer, reply_answer, reply_line,
    screen_text, words_answer,
};
pub use bad_row::{BadField, bad_field};
pub use ending::{ended, exit_without_command, print_fault, print_refusal};
pub use fault::{RunFault, of_driver, status_of};
pub use line::{MAX_ROW_LINE_BYTES, plain_row, read_row};
pub use output::{put_text, put_under};
pub use ucl_screen::RowFields;
pub use words::{WordLines, word_lines};
